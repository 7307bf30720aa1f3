// How the turn that stands goes on with answers: each is kept by its ticket until the turn waits for it, and then it is used, what it
// gives is stored, or one more question is put.
ghost use Rattle.std.specs.Prelude.{◌≡◌, ◌<◌, ◌-◌, drop, length, Some, OnOk, IfOk, IfSome, IfNone};
ghost use Rattle.graph_turns.specs.Machine.Entering.{stored};
ghost use Rattle.graph_turns.specs.Promise.Taken.{asks_again};
ghost use Rattle.open_loads.specs.Order.Means.{means_of};
ghost use Rattle.module_slots.specs.declared.load.Load.{Load};
ghost use Rattle.source_io.specs.declared.types.Answer.{Answer};
ghost use Rattle.open_loads.specs.Order.Numbered.{Arranged, asked_again, put};
ghost use Rattle.open_loads.specs.Order.Ordered.{FitsTurn, EndsWithAnswer, IsCaughtUp, IsFilled, IsInFlight, IsInOrder, IsLookedUp, IsRead, IsResting, IsUsed, IsUsedFirst, TakesOut, TakesAnswer};

use crate::open_loads::OpenLoads;
use crate::questions::question_about;
use crate::turn_stage::{Stage, asks_again, counted_of};
use build_reports::Reporter;
use graph_core::Load;
use graph_turns::{Asked, Maker, Outcome, State, outcome_of};
use semver_npm::PackageNv;
use slot_making::Services;
use source_io::{Answer, CacheSetting, Locker, Ticket};
use spec_base::ModuleSpecifier;
use std::alloc::{AllocError, Global};
use std::mem;

// The specifier that a load asks for, where a reporter is to hear of it.
fn heard_at<R: Reporter>(
    reporter: Option<&R>,
    load: &Load,
) -> Result<Option<ModuleSpecifier>, AllocError> {
    match reporter {
        None => Ok(None),
        Some(_) => Ok(Some(load.specifier.clone()?)),
    }
}

// Tells a reporter that a load was answered: of the slots all are done but those of open loads.
fn tell_load<R: Reporter>(reporter: Option<&R>, specifier: Option<ModuleSpecifier>, state: &State) {
    if let Some(reporter) = reporter {
        if let Some(specifier) = specifier {
            let total = state.graph.slot_map().len();
            let done = total.saturating_sub(state.loads.len());
            reporter.on_load(&specifier, done, total);
        }
    }
}

impl<L: Locker + Drop> OpenLoads<L> {
    // What a load gave that was taken is stored, and the next turn begins.
    fn store_first<S: Services>(
        &mut self,
        alloc: Global,
        maker: &Maker<'_, S>,
        load: Load,
        outcome: Outcome,
    ) -> Result<(), AllocError>
        ensures stored { OnOk result
            (Arranged (S.Urls.meaning maker.now.urls.now)
            maker.now.versions.now.newest_dependency_date_options
            (record self.old {
              state = stored self.old.redirects self.old.state load outcome;
              stage = Stage.Idle;
            }) self.new) }
        ensures known { self.new.known ≡ self.old.known }
    {
        let heard = heard_at(maker.reporter, &load);
        self.state.store(alloc, self.redirects, load, outcome)?;
        tell_load(maker.reporter, heard?, &self.state);
        self.stand(Stage::Idle);
        self.arrange(alloc, &maker.registry())?;
        Ok(())
    }

    // The turn that stands ends with the answer that counts.
    fn end_turn<S: Services>(
        &mut self,
        alloc: Global,
        maker: &Maker<'_, S>,
        asked: Asked,
        answer: Answer,
    ) -> Result<(), AllocError>
        requires some { 0 < length self.old.state.loads }
        ensures answered { OnOk result
            (EndsWithAnswer
            (means_of S.Analyze.infos S.Tree.paths S.Urls.meaning S.Resolve.is_told
            S.Resolve.meaning maker.now) self.old asked answer self.new) }
        ensures known { self.new.known ≡ self.old.known }
    {
        let Some(load) = self.state.take() else {
            drop(asked);
            drop(answer);
            return Ok(());
        };
        match outcome_of(alloc, maker, &load, asked, answer) {
            Ok(outcome) => self.store_first(alloc, maker, load, outcome),
            Err(refusal) => {
                drop(load);
                Err(refusal)
            }
        }
    }

    // Queues the second question of the first open load's turn, where one is open.
    fn put_again(&mut self, asked: &Asked) -> Result<Option<Ticket>, AllocError>
        ensures put { (first : Answer)
            → IfOk result
            (λ o. IfSome o
            (λ t. record self.new { stage = Stage.AsksAgain t asked.now first }
            ≡ asked_again self.old asked.now first)) }
        ensures none { (first : Answer)
            → IfOk result (λ o. IfNone o (self.new ≡ asked_again self.old asked.now first)) }
        ensures known { self.new.known ≡ self.old.known }
    {
        let Some(load) = self.state.loads.get(0) else {
            return Ok(None);
        };
        let question = question_about(self.flags, load, CacheSetting::Reload, asked)?;
        let ticket = self.put(question)?;
        Ok(Some(ticket))
    }

    // The first open load is asked about once more, after an answer that refused it for its sum.
    fn ask_again(&mut self, asked: Asked, first: Answer) -> Result<(), AllocError>
        ensures again { OnOk result (self.new ≡ asked_again self.old asked first) }
        ensures known { self.new.known ≡ self.old.known }
    {
        match self.put_again(&asked) {
            Ok(Some(ticket)) => {
                self.stand(Stage::AsksAgain(ticket, asked, first));
                Ok(())
            }
            Ok(None) => {
                drop(asked);
                drop(first);
                Ok(())
            }
            Err(refusal) => {
                drop(asked);
                drop(first);
                Err(refusal)
            }
        }
    }

    // The first answer about the first open load is used.
    fn use_first<S: Services>(
        &mut self,
        alloc: Global,
        maker: &Maker<'_, S>,
        asked: Asked,
        answer: Answer,
    ) -> Result<(), AllocError>
        requires some { 0 < length self.old.state.loads }
        requires idle { self.old.stage ≡ Stage.Idle }
        ensures used { OnOk result
            (IsUsedFirst
            (means_of S.Analyze.infos S.Tree.paths S.Urls.meaning S.Resolve.is_told
            S.Resolve.meaning maker.now) self.old asked answer self.new
            (asks_again asked answer)) }
        ensures known { self.new.known ≡ self.old.known }
    {
        if asks_again(&asked, &answer) {
            self.ask_again(asked, answer)?;
            return Ok(());
        }
        self.end_turn(alloc, maker, asked, answer)?;
        Ok(())
    }

    // The answer about the file of a version is kept, and the turn of the first open load goes on.
    fn use_file<S: Services>(
        &mut self,
        alloc: Global,
        maker: &Maker<'_, S>,
        nv: PackageNv,
        answer: Answer,
    ) -> Result<(), AllocError>
        requires idle { self.old.stage ≡ Stage.Idle }
        ensures used { OnOk result
            (IsRead (means_of S.Analyze.infos S.Tree.paths S.Urls.meaning S.Resolve.is_told
            S.Resolve.meaning maker.now) self.old nv answer self.new) }
        ensures known { self.new.known ≡ self.old.known }
    {
        self.keep_file(alloc, maker.urls, nv, answer)?;
        let stands = self.begin_late(alloc, maker.urls)?;
        if stands {
            return Ok(());
        }
        self.arrange(alloc, &maker.registry())?;
        Ok(())
    }

    // The answer about the first file of the registry that the pass asks about is kept.
    fn use_wanted<S: Services>(
        &mut self,
        alloc: Global,
        maker: &Maker<'_, S>,
        answer: Answer,
    ) -> Result<(), AllocError>
        requires idle { self.old.stage ≡ Stage.Idle }
        ensures used { OnOk result
            (IsLookedUp
            (means_of S.Analyze.infos S.Tree.paths S.Urls.meaning S.Resolve.is_told
            S.Resolve.meaning maker.now) self.old answer self.new) }
        ensures known { self.new.known ≡ self.old.known }
    {
        self.keep_wanted(alloc, maker.urls, answer)?;
        self.arrange(alloc, &maker.registry())?;
        Ok(())
    }

    // The answer about the first content that comes later is stored.
    fn use_content<S: Services>(
        &mut self,
        alloc: Global,
        maker: &Maker<'_, S>,
        answer: Answer,
    ) -> Result<(), AllocError>
        requires idle { self.old.stage ≡ Stage.Idle }
        ensures used { OnOk result
            (IsFilled
            (means_of S.Analyze.infos S.Tree.paths S.Urls.meaning S.Resolve.is_told
            S.Resolve.meaning maker.now) self.old answer self.new) }
        ensures known { self.new.known ≡ self.old.known }
    {
        self.state.store_content(alloc, maker.cacher, answer)?;
        self.arrange(alloc, &maker.registry())?;
        Ok(())
    }

    // The answer to the question that is due in the turn that stands is used.
    fn use_answer<S: Services>(
        &mut self,
        alloc: Global,
        maker: &Maker<'_, S>,
        answer: Answer,
    ) -> Result<(), AllocError>
        requires fits { FitsTurn self.old self.old.stage }
        ensures used { OnOk result
            (IsUsed (means_of S.Analyze.infos S.Tree.paths S.Urls.meaning S.Resolve.is_told
            S.Resolve.meaning maker.now) self.old answer self.new) }
        ensures known { self.new.known ≡ self.old.known }
    {
        match mem::replace(&mut self.stage, Stage::Idle) {
            Stage::Idle => {
                drop(answer);
                Ok(())
            }
            Stage::Asks(_, asked) => self.use_first(alloc, maker, asked, answer),
            Stage::AsksAgain(_, asked, first) => {
                self.end_turn(alloc, maker, asked, counted_of(first, answer))
            }
            Stage::Reads(_, nv, at) => {
                drop(at);
                self.use_file(alloc, maker, nv, answer)
            }
            Stage::Looks(_, at) => {
                drop(at);
                self.use_wanted(alloc, maker, answer)
            }
            Stage::Fills(_) => self.use_content(alloc, maker, answer),
        }
    }

    // The answer that the turn waits for, where it is kept.
    fn take_awaited(&mut self) -> Option<Answer>
        ensures some { IfSome result (λ a. TakesOut self.old a self.new) }
        ensures none { IfNone result ((self.new ≡ self.old) × IsResting self.old) }
    {
        match self.stage.awaited() {
            None => None,
            Some(ticket) => self.kept.take(ticket),
        }
    }

    // Goes on with the turn that stands, and then the next ones, as long as answers are kept.
    fn process_kept<S: Services>(
        &mut self,
        alloc: Global,
        maker: &Maker<'_, S>,
    ) -> Result<(), AllocError>
        requires in_order { IsInOrder self.old }
        ensures caught_up { OnOk result
            (IsCaughtUp
            (means_of S.Analyze.infos S.Tree.paths S.Urls.meaning S.Resolve.is_told
            S.Resolve.meaning maker.now) self.old self.new) }
        ensures resting { OnOk result (IsResting self.new) }
        ensures known { self.new.known ≡ self.old.known }
    {
        while let Some(answer) = self.take_awaited() {
            self.use_answer(alloc, maker, answer)?;
        }
        Ok(())
    }

    /// Keeps the answer to a question that is in flight, and processes all answers whose turn has come. The only refusal is want of memory.
    pub fn answer<S: Services>(
        &mut self,
        alloc: Global,
        maker: &Maker<'_, S>,
        ticket: Ticket,
        answer: Answer,
    ) -> Result<(), AllocError>
        requires in_order { IsInOrder self.old }
        requires in_flight { IsInFlight self.old ticket }
        ensures taken { OnOk result
            (TakesAnswer
            (means_of S.Analyze.infos S.Tree.paths S.Urls.meaning S.Resolve.is_told
            S.Resolve.meaning maker.now) self.old self.new ticket answer) }
        ensures known { self.new.known ≡ self.old.known }
    {
        self.kept.insert(ticket, answer)?;
        self.process_kept(alloc, maker)?;
        Ok(())
    }
}
