// The open loads of a build, in the order of asking. The first one's turn stands: its stage says what is due, and it
// waits for its own ticket. The loads behind it are asked about as soon as they enter. Tickets number the questions as
// they are queued, and an answer that comes early is kept by its ticket until its turn.
ghost use Rattle.std.specs.Prelude.{◌≡◌, ◌<◌, ◌+◌, ◌-◌, [], ◌∷◌, drop, List, length, slice_get, option_map, Some, OnOk, IfOk, IfErr, IfSome, IfNone};
ghost use Rattle.spec_base.specs.Options.{by_option};
ghost use Rattle.graph_turns.specs.Machine.Sums.{known_by};
ghost use Rattle.graph_turns.specs.Machine.Next.{is_end, next_of};
ghost use Rattle.graph_turns.specs.Machine.Outcomes.{failure_outcome};
ghost use Rattle.graph_turns.specs.Promise.Contents.{content_question};
ghost use Rattle.graph_turns.specs.Promise.Versions.{answer_in};
ghost use Rattle.graph_turns.specs.declared.registry.RegistryFile.TheVariants.{Version};
ghost use Rattle.open_loads.specs.Order.Entered.{TurnsEntered};
ghost use Rattle.open_loads.specs.Order.Entered.{TurnsWith, no_turns};
ghost use Rattle.open_loads.specs.Order.Asking.{asked_question};
ghost use Rattle.module_slots.specs.declared.load.Load.{Load};
ghost use Rattle.graph_turns.specs.declared.manner.Manner.{Manner};
ghost use Rattle.open_loads.specs.Order.OpenLoads.{known_now};
ghost use Rattle.open_loads.specs.Order.Numbered.{Arranged, ahead_all, ahead_by, asked_first, asked_in, begun_known, begun_so, content_next, failed_first, file_asked, late, later_all, load_next, manner_at, put, read_so, turn_begun};
ghost use Rattle.open_loads.specs.Order.Ordered.{IsInOrder, IsTaken};

use crate::early_answers::EarlyAnswers;
use crate::fault::BuildFault;
use crate::questions::{content_question, question_about};
use crate::turn_stage::Stage;
use build_reports::Reporter;
use graph_core::{Load, ModuleGraph};
use graph_errors::JsrLoadError;
use graph_turns::{
    Asked, Flags, KnownSums, Manner, Next, Outcome, Registry, RegistryFile, ResolvedStart, State,
    failure_outcome, manner_of, version_question,
};
use metadata_store::JsrMetadataStore;
use semver_npm::PackageNv;
use source_io::{JsrUrlProvider, LoadResult, Locker, Question, Ticket};
use spec_base::{ModuleSpecifier, Queue};
use std::alloc::{AllocError, Global};
use std::marker::Model;
use std::mem;

/// The graph so far, and its open loads in the order of asking. The turn of the first one stands, and waits for the answer to one question;
/// answers to others are kept by their tickets. Tickets number the questions that are handed out, from 0.
#[derive(Drop)]
pub struct OpenLoads<L: Locker + Drop> {
    /// What knows the sums of sources, where one is given; it isn't changed while turns are taken.
    pub(crate) locker: Option<L>,
    /// What was answered about files of the registry in other builds, where it is given; it isn't changed while turns are taken.
    pub(crate) store: Option<JsrMetadataStore>,
    /// What it gets when the build ends.
    pub(crate) added: Queue<(RegistryFile, LoadResult)>,
    /// How the build began, and what it leaves out or allows: its questions say so.
    pub(crate) flags: Flags,
    /// The graph and the open loads, as the last turn left them; the turn of the first one stands.
    pub state: State,
    /// The place in the turn that stands.
    pub(crate) stage: Stage,
    /// The first questions of the loads behind the one whose turn stands, by their tickets and under what they are put; None where
    /// the first question is settled in the load's turn.
    pub(crate) behind: Queue<Option<(Ticket, Asked)>>,
    /// The tickets of the questions about contents that come later.
    pub(crate) later: Queue<Ticket>,
    /// The tickets of the questions about the files of the registry that a pass asks about; None where the answer stands in the given
    /// store.
    pub(crate) wanted: Queue<Option<(Ticket, ModuleSpecifier)>>,
    /// The questions that aren't handed out yet; the first one is under the number of those that were.
    pub(crate) queue: Queue<Question>,
    pub(crate) kept: EarlyAnswers,
    /// How many redirects one load follows.
    pub(crate) redirects: usize,
    pub(crate) max_loads: u64,
    /// How many questions were queued.
    pub(crate) queued: u64,
    /// How many of them were handed out.
    pub(crate) taken: u64,
}

impl<L: Locker + Drop> Model for OpenLoads<L> {
    ghost use Rattle.std.specs.Coded.{codes};
    ghost use Rattle.source_io.specs.contracts.types.Question as questions;
    ghost use Rattle.source_sums.specs.Codes.{manifests_code, sums_code};
    ghost use Rattle.graph_turns.specs.Machine.Sums.{known_by};
    ghost use Rattle.open_loads.specs.Order.OpenLoads.{OpenLoads};
    ghost use Rattle.open_loads.specs.contracts.early_answers.EarlyAnswers as early;
    ghost use Rattle.open_loads.specs.contracts.turn_stage.Stage as stages;
    ghost use Rattle.graph_turns.specs.contracts.registry.RegistryFile as files;
    ghost use Rattle.graph_turns.specs.contracts.state.State as states;
    ghost use Rattle.metadata_store.specs.contracts.store.JsrMetadataStore as stores;

    ghost Value = { OpenLoads };

    ghost coded = { Prim.hlevel (codes, early.the_row.coded, sums_code, manifests_code, stores.the_row.coded, files.the_row.coded, questions.the_row.coded, stages.the_row.coded, states.the_row.coded) };

    ghost view = { λ b. record { known = record { sums = known_by L.remote b.locker; manifests = known_by L.manifests b.locker; store = b.store; flags = b.flags }; state = b.state; stage = b.stage; behind = b.behind; later = b.later; wanted = b.wanted; added = b.added; queue = b.queue; kept = b.kept; redirects = b.redirects; max_loads = b.max_loads; queued = b.queued; taken = b.taken } };
}

// A name that is given, else that of a load.
fn name_or(name: Option<ModuleSpecifier>, load: &Load) -> Result<ModuleSpecifier, AllocError>
    ensures { IfOk result (λ n. n ≡ by_option name load.now.specifier (λ x. x)) }
{
    match name {
        Some(name) => Ok(name),
        None => Ok(load.specifier.clone()?),
    }
}

// What a load ends with that fails without a question, at a name or where it leads.
fn failure_at(
    alloc: Global,
    load: &Load,
    name: Option<ModuleSpecifier>,
    error: JsrLoadError,
) -> Result<Outcome, AllocError>
    ensures { IfOk result
        (λ outcome. outcome
        ≡ failure_outcome load.now.context (by_option name load.now.specifier (λ x. x)) error) }
{
    match name_or(name, load) {
        Ok(at) => failure_outcome(alloc, load, at, error),
        Err(refusal) => {
            drop(error);
            Err(refusal)
        }
    }
}

// Under what a load is asked about that goes so, where its question is due before any other one.
fn asked_of(manner: Manner) -> Option<Asked>
    ensures { result ≡ asked_in manner }
{
    match manner {
        Manner::Asks(asked) => Some(asked),
        Manner::Reads(nv) => {
            drop(nv);
            None
        }
        Manner::Unread(name, error) => {
            drop(name);
            drop(error);
            None
        }
        Manner::Unsupported => None,
    }
}

impl<L: Locker + Drop> OpenLoads<L> {
    /// A graph before the first turn: nothing is open, and no question was put. A load follows at most so many redirects, and at most
    /// `max_loads` questions are handed out.
    pub fn new(
        alloc: Global,
        graph: ModuleGraph,
        flags: Flags,
        locker: Option<L>,
        store: Option<JsrMetadataStore>,
        redirects: usize,
        max_loads: u64,
    ) -> OpenLoads<L>
        ensures { result
            ≡ no_turns (record {
              sums = known_by L.remote locker;
              manifests = known_by L.manifests locker;
              store = store;
              flags = flags;
            }) graph redirects max_loads }
    {
        let keeps_sums = locker.is_some();
        OpenLoads {
            locker,
            store,
            added: Queue::new(alloc),
            flags,
            state: State::new(alloc, graph, flags, keeps_sums),
            stage: Stage::Idle,
            behind: Queue::new(alloc),
            later: Queue::new(alloc),
            wanted: Queue::new(alloc),
            queue: Queue::new(alloc),
            kept: EarlyAnswers::new(alloc),
            redirects,
            max_loads,
            queued: 0,
            taken: 0,
        }
    }

    /// Roots and configured imports enter, and the first turn begins; each load that enters puts its first question, where that is due
    /// before any other one. The only refusal is want of memory.
    pub fn enter_start<U: JsrUrlProvider, R: Reporter>(
        &mut self,
        alloc: Global,
        registry: &Registry<'_, U, R>,
        start: ResolvedStart,
    ) -> Result<(), AllocError>
        ensures entered { OnOk result (TurnsWith (U.meaning registry.now.urls.now)
            registry.now.versions.now.newest_dependency_date_options self.old start self.new) }
        ensures known { self.new.known ≡ self.old.known }
    {
        self.state.begin_run(alloc, start)?;
        self.arrange(alloc, registry)?;
        Ok(())
    }

    /// Loads enter, and the first turn begins; each puts its first question, where that is due before any other one. The only refusal is
    /// want of memory.
    pub fn enter_loads<U: JsrUrlProvider, R: Reporter>(
        &mut self,
        alloc: Global,
        registry: &Registry<'_, U, R>,
        loads: Vec<Load>,
    ) -> Result<(), AllocError>
        ensures entered { OnOk result
            (TurnsEntered (U.meaning registry.now.urls.now)
            registry.now.versions.now.newest_dependency_date_options self.old loads.items
            self.new) }
        ensures known { self.new.known ≡ self.old.known }
    {
        self.state.enter_all(alloc, loads)?;
        self.arrange(alloc, registry)?;
        Ok(())
    }

    /// How many questions may be handed out.
    pub fn max_loads(&self) -> u64
        ensures { result ≡ self.now.max_loads }
    {
        self.max_loads
    }

    /// Whether nothing is open, deferred, waits or is to come.
    pub fn is_at_end(&self) -> bool
        ensures { result ≡ is_end (next_of self.now.state) }
    {
        self.state.is_at_end()
    }

    /// The graph so far, the locker, and the store of answers about files of the registry, where they were given.
    pub fn into_parts(self) -> (ModuleGraph, Option<L>, Option<JsrMetadataStore>)
        ensures graph { result.0 ≡ self.state.graph }
        ensures locker { known_by L.remote result.1 ≡ self.known.sums }
        ensures manifests { known_by L.manifests result.1 ≡ self.known.manifests }
        ensures store { result.2 ≡ self.known.store }
    {
        let OpenLoads {
            locker,
            store,
            added: _,
            flags: _,
            state,
            stage,
            behind: _,
            later: _,
            wanted: _,
            queue: _,
            kept: _,
            redirects: _,
            max_loads: _,
            queued: _,
            taken: _,
        } = self;
        drop(stage);
        (state.into_graph(), locker, store)
    }

    /// Hands out the next question, under its ticket; None where none is queued. `Budget` comes exactly where one is queued and
    /// `max_loads` were handed out, and changes nothing.
    pub fn take_question(&mut self) -> Result<Option<(Ticket, Question)>, BuildFault>
        requires in_order { IsInOrder self.old }
        ensures some { IfOk result (λ o. IfSome o (λ q. IsTaken self.old self.new q.0 q.1)) }
        ensures none { IfOk result (λ o. IfNone o ((self.new ≡ self.old) × (self.old.queue ≡ []))) }
        ensures budget { IfErr result (λ f. f ≡ BuildFault.Budget) }
        ensures spent { IfErr result
            (λ f. (self.old.taken ≡ self.old.max_loads) × (0 < length self.old.queue)) }
        ensures same { IfErr result (λ f. self.new ≡ self.old) }
    {
        if self.queue.len() == 0 {
            return Ok(None);
        }
        if self.taken == self.max_loads {
            return Err(BuildFault::Budget);
        }
        match self.queue.pop_front() {
            None => Ok(None),
            Some(question) => {
                let ticket = self.taken;
                self.taken += 1;
                Ok(Some((ticket, question)))
            }
        }
    }

    /// Queues a question under the next ticket. The only refusal is want of memory, or of tickets.
    pub(crate) fn put(&mut self, question: Question) -> Result<Ticket, AllocError>
        ensures ticket { IfOk result (λ t. t ≡ self.old.queued) }
        ensures put { OnOk result (self.new ≡ put self.old question) }
        ensures known { self.new.known ≡ self.old.known }
    {
        let ticket = self.queued;
        let Some(next) = ticket.checked_add(1) else {
            drop(question);
            return Err(AllocError);
        };
        self.queue.push_back(question)?;
        self.queued = next;
        Ok(ticket)
    }

    /// Queues a question under the next ticket; answers that, and the specifier that it is about.
    pub(crate) fn put_at(
        &mut self,
        question: Question,
    ) -> Result<(Ticket, ModuleSpecifier), AllocError>
        ensures ticket { IfOk result (λ p. p.0 ≡ self.old.queued) }
        ensures about { IfOk result (λ p. p.1 ≡ question.specifier) }
        ensures put { OnOk result (self.new ≡ put self.old question) }
        ensures known { self.new.known ≡ self.old.known }
    {
        match question.specifier.clone() {
            Ok(at) => {
                let ticket = self.put(question)?;
                Ok((ticket, at))
            }
            Err(refusal) => {
                drop(question);
                Err(refusal)
            }
        }
    }

    /// What knows sums now.
    pub(crate) fn known_sums(&self) -> KnownSums<'_, L>
        ensures sums { known_by L.remote result.locker.now ≡ self.now.known.sums }
        ensures manifests { known_by L.manifests result.locker.now ≡ self.now.known.manifests }
        ensures run { result.run.now ≡ self.now.state.run }
    {
        KnownSums {
            locker: &self.locker,
            run: &self.state.run,
        }
    }

    // How the turn of a load goes, by what is known now.
    fn manner<U: JsrUrlProvider>(
        &self,
        alloc: Global,
        urls: &U,
        load: &Load,
    ) -> Result<Manner, AllocError>
        ensures { IfOk result (λ m. m ≡ manner_at (U.meaning urls.now) self.now load.now) }
    {
        manner_of(
            alloc,
            urls,
            &self.known_sums(),
            &self.state.files,
            &load.specifier,
            &load.context,
        )
    }

    // Under what a load is asked about, where its question is due before any other one.
    fn first_asked<U: JsrUrlProvider>(
        &self,
        alloc: Global,
        urls: &U,
        load: &Load,
    ) -> Result<Option<Asked>, AllocError>
        ensures { IfOk result
            (λ asked. asked ≡ asked_in (manner_at (U.meaning urls.now) self.now load.now)) }
    {
        Ok(asked_of(self.manner(alloc, urls, load)?))
    }

    // The first question about a load that has entered, with under what it is put, where it is due before any other one.
    fn first_question<U: JsrUrlProvider>(
        &self,
        alloc: Global,
        urls: &U,
        load: &Load,
    ) -> Result<Option<(Question, Asked)>, AllocError>
        ensures { IfOk result (λ first. first
            ≡ option_map (λ asked. (asked_question (known_now self.now) load.now asked, asked))
            (asked_in (manner_at (U.meaning urls.now) self.now load.now))) }
    {
        match self.first_asked(alloc, urls, load)? {
            None => Ok(None),
            Some(asked) => {
                let setting = asked.first_setting(&load.context);
                match question_about(self.flags, load, setting, &asked) {
                    Ok(question) => Ok(Some((question, asked))),
                    Err(refusal) => {
                        drop(asked);
                        Err(refusal)
                    }
                }
            }
        }
    }

    // The same about the next load that has no place yet.
    fn next_first<U: JsrUrlProvider>(
        &self,
        alloc: Global,
        urls: &U,
    ) -> Result<Option<(Question, Asked)>, AllocError>
        ensures { (load : Load)
            → slice_get self.now.state.loads (length self.now.behind) ≡ Some load
            → IfOk result
            (λ first. first
            ≡ option_map (λ asked. (asked_question (known_now self.now) load asked, asked))
            (asked_in (manner_at (U.meaning urls.now) self.now load))) }
    {
        match self.state.loads.get(self.behind.len()) {
            None => Ok(None),
            Some(load) => self.first_question(alloc, urls, load),
        }
    }

    // A load has its place behind the turn that stands, and its first question is queued, where it is due before any other one.
    fn place(&mut self, first: Option<(Question, Asked)>) -> Result<(), AllocError>
        ensures placed { (load : Load) (m : Manner)
            → first
            ≡ option_map (λ asked. (asked_question (known_now self.old) load asked, asked))
            (asked_in m)
            → OnOk result (self.new ≡ ahead_by self.old load m) }
        ensures known { self.new.known ≡ self.old.known }
    {
        match first {
            None => {
                self.behind.push_back(None)?;
                Ok(())
            }
            Some((question, asked)) => match self.put(question) {
                Ok(ticket) => {
                    self.behind.push_back(Some((ticket, asked)))?;
                    Ok(())
                }
                Err(refusal) => {
                    drop(asked);
                    Err(refusal)
                }
            },
        }
    }

    // Queues the first questions of the loads that have entered.
    fn put_ahead<U: JsrUrlProvider>(&mut self, alloc: Global, urls: &U) -> Result<(), AllocError>
        ensures ahead { OnOk result
            (self.new
            ≡ ahead_all (U.meaning urls.now)
            (drop (length self.old.behind) self.old.state.loads) self.old) }
        ensures known { self.new.known ≡ self.old.known }
    {
        while self.behind.len() < self.state.loads.len() {
            let first = self.next_first(alloc, urls)?;
            self.place(first)?;
        }
        Ok(())
    }

    // The question about the next content that isn't asked about yet.
    fn next_content(&self) -> Result<Option<Question>, AllocError>
        ensures { IfOk result (λ question. question
            ≡ option_map (λ later. content_question (known_now self.now) later)
            (slice_get self.now.state.contents (length self.now.later))) }
    {
        match self.state.contents.get(self.later.len()) {
            None => Ok(None),
            Some(later) => Ok(Some(content_question(self.flags, later)?)),
        }
    }

    // Queues the questions about contents that aren't put yet.
    fn put_later(&mut self) -> Result<(), AllocError>
        ensures put { OnOk result
            (self.new ≡ later_all (drop (length self.old.later) self.old.state.contents) self.old) }
        ensures known { self.new.known ≡ self.old.known }
    {
        while let Some(question) = self.next_content()? {
            let ticket = self.put(question)?;
            self.later.push_back(ticket)?;
        }
        Ok(())
    }

    /// The turn is at this place now.
    pub(crate) fn stand(&mut self, stage: Stage)
        ensures { self.new ≡ record self.old { stage = stage } }
    {
        let before = mem::replace(&mut self.stage, stage);
        drop(before);
    }

    // Queues the question that the first open load's turn begins with, where one is open.
    fn put_first(&mut self, asked: &Asked) -> Result<Option<Ticket>, AllocError>
        ensures put { IfOk result
            (λ o. IfSome o
            (λ t. record self.new { stage = Stage.Asks t asked.now }
            ≡ asked_first self.old asked.now)) }
        ensures none { IfOk result (λ o. IfNone o (self.new ≡ asked_first self.old asked.now)) }
        ensures known { self.new.known ≡ self.old.known }
    {
        let Some(load) = self.state.loads.get(0) else {
            return Ok(None);
        };
        let setting = asked.first_setting(&load.context);
        let question = question_about(self.flags, load, setting, asked)?;
        let ticket = self.put(question)?;
        Ok(Some(ticket))
    }

    // The first open load is asked about now.
    fn ask_now(&mut self, asked: Asked) -> Result<(), AllocError>
        ensures asked { OnOk result (self.new ≡ asked_first self.old asked) }
        ensures known { self.new.known ≡ self.old.known }
    {
        match self.put_first(&asked) {
            Ok(Some(ticket)) => {
                self.stand(Stage::Asks(ticket, asked));
                Ok(())
            }
            Ok(None) => {
                drop(asked);
                Ok(())
            }
            Err(refusal) => {
                drop(asked);
                Err(refusal)
            }
        }
    }

    // Queues the question about the file of a version; answers its ticket and where the file lies.
    fn put_file<U: JsrUrlProvider>(
        &mut self,
        alloc: Global,
        urls: &U,
        nv: &PackageNv,
    ) -> Result<(Ticket, ModuleSpecifier), AllocError>
        ensures put { IfOk result (λ p. record self.new { stage = Stage.Reads p.0 nv.now p.1 }
            ≡ file_asked (U.meaning urls.now) self.old nv.now) }
        ensures known { self.new.known ≡ self.old.known }
    {
        let setting = self.state.metadata_setting();
        let question = version_question(alloc, urls, &self.known_sums(), setting, nv)?;
        let asked = self.put_at(question)?;
        Ok(asked)
    }

    // The file of a version is asked about for the first open load.
    fn ask_file<U: JsrUrlProvider>(
        &mut self,
        alloc: Global,
        urls: &U,
        nv: PackageNv,
    ) -> Result<(), AllocError>
        ensures asked { OnOk result (self.new ≡ file_asked (U.meaning urls.now) self.old nv) }
        ensures known { self.new.known ≡ self.old.known }
    {
        match self.put_file(alloc, urls, &nv) {
            Ok((ticket, at)) => {
                self.stand(Stage::Reads(ticket, nv, at));
                Ok(())
            }
            Err(refusal) => {
                drop(nv);
                Err(refusal)
            }
        }
    }

    // The first open load fails without a question, at a name or where it leads.
    fn fail_first(
        &mut self,
        alloc: Global,
        name: Option<ModuleSpecifier>,
        error: JsrLoadError,
    ) -> Result<(), AllocError>
        ensures failed { OnOk result (self.new ≡ failed_first self.old name error) }
        ensures known { self.new.known ≡ self.old.known }
    {
        let Some(load) = self.state.take() else {
            drop(name);
            drop(error);
            return Ok(());
        };
        match failure_at(alloc, &load, name, error) {
            Ok(outcome) => self.state.store(alloc, self.redirects, load, outcome),
            Err(refusal) => {
                drop(load);
                Err(refusal)
            }
        }
    }

    // How the turn of the first open load goes.
    fn first_manner<U: JsrUrlProvider>(
        &self,
        alloc: Global,
        urls: &U,
    ) -> Result<Option<Manner>, AllocError>
        ensures { IfOk result (λ m. m
            ≡ option_map (λ load. manner_at (U.meaning urls.now) self.now load)
            (slice_get self.now.state.loads 0)) }
    {
        match self.state.loads.get(0) {
            None => Ok(None),
            Some(load) => Ok(Some(self.manner(alloc, urls, load)?)),
        }
    }

    // The turn of the first open load begins in this manner; answers whether it stands.
    fn begin_in<U: JsrUrlProvider>(
        &mut self,
        alloc: Global,
        urls: &U,
        manner: Manner,
    ) -> Result<bool, AllocError>
        ensures begun { (load : Load) (loads : List Load) → self.old.state.loads ≡ load ∷ loads
            → IfOk result
            (λ due.
            begun_known (U.meaning urls.now) self.old load loads manner ≡ (due, self.new)) }
        ensures known { self.new.known ≡ self.old.known }
    {
        match manner {
            Manner::Asks(asked) => {
                self.ask_now(asked)?;
                Ok(true)
            }
            Manner::Reads(nv) => {
                self.ask_file(alloc, urls, nv)?;
                Ok(true)
            }
            Manner::Unread(name, error) => {
                self.fail_first(alloc, Some(name), error)?;
                Ok(false)
            }
            Manner::Unsupported => {
                self.fail_first(alloc, None, JsrLoadError::UnsupportedManifestChecksum)?;
                Ok(false)
            }
        }
    }

    // The file of the version that the first open load's URL names is read: it is taken from the given store, where it stands there, and
    // the turn begins in the manner that it gives; else it is asked about. Answers whether the turn stands.
    fn begin_read<U: JsrUrlProvider>(
        &mut self,
        alloc: Global,
        urls: &U,
        nv: PackageNv,
    ) -> Result<bool, AllocError>
        ensures begun { (load : Load) (loads : List Load) → self.old.state.loads ≡ load ∷ loads
            → IfOk result (λ due. read_so (U.meaning urls.now) self.old load loads nv
            (answer_in (known_now self.old).store (Version nv))
            ≡ (due, self.new)) }
        ensures known { self.new.known ≡ self.old.known }
    {
        if !self.read_stored(alloc, urls, &nv)? {
            self.ask_file(alloc, urls, nv)?;
            return Ok(true);
        }
        drop(nv);
        match self.first_manner(alloc, urls)? {
            None => Ok(true),
            Some(manner) => self.begin_in(alloc, urls, manner),
        }
    }

    // The turn of the first open load begins in this manner, where the file of its version is read in the given store first, if it stands
    // there; answers whether it stands.
    fn begin_first<U: JsrUrlProvider>(
        &mut self,
        alloc: Global,
        urls: &U,
        manner: Manner,
    ) -> Result<bool, AllocError>
        ensures begun { (load : Load) (loads : List Load) → self.old.state.loads ≡ load ∷ loads
            → IfOk result
            (λ due.
            begun_so (U.meaning urls.now) self.old load loads manner ≡ (due, self.new)) }
        ensures known { self.new.known ≡ self.old.known }
    {
        match manner {
            Manner::Reads(nv) => self.begin_read(alloc, urls, nv),
            Manner::Asks(asked) => self.begin_in(alloc, urls, Manner::Asks(asked)),
            Manner::Unread(name, error) => {
                self.begin_in(alloc, urls, Manner::Unread(name, error))
            }
            Manner::Unsupported => self.begin_in(alloc, urls, Manner::Unsupported),
        }
    }

    // The turn of the first open load begins, whose first question wasn't put ahead; answers whether it stands.
    pub(crate) fn begin_late<U: JsrUrlProvider>(
        &mut self,
        alloc: Global,
        urls: &U,
    ) -> Result<bool, AllocError>
        ensures begun { IfOk result (λ due. late (U.meaning urls.now) self.old ≡ (due, self.new)) }
        ensures known { self.new.known ≡ self.old.known }
    {
        match self.first_manner(alloc, urls)? {
            None => Ok(true),
            Some(manner) => self.begin_first(alloc, urls, manner),
        }
    }

    // The turn of the first content begins, after the questions about all contents are queued.
    fn begin_content(&mut self) -> Result<(), AllocError>
        ensures begun { OnOk result
            (self.new
            ≡ content_next
            (later_all (drop (length self.old.later) self.old.state.contents) self.old)) }
        ensures known { self.new.known ≡ self.old.known }
    {
        self.put_later()?;
        match self.later.pop_front() {
            None => Ok(()),
            Some(ticket) => {
                self.stand(Stage::Fills(ticket));
                Ok(())
            }
        }
    }

    // The turn of the first open load begins, after the first questions of the loads that have entered are queued; answers whether it
    // stands.
    fn begin_load<U: JsrUrlProvider>(&mut self, alloc: Global, urls: &U) -> Result<bool, AllocError>
        ensures begun { IfOk result
            (λ due. load_next (U.meaning urls.now)
            (ahead_all (U.meaning urls.now)
            (drop (length self.old.behind) self.old.state.loads) self.old)
            ≡ (due, self.new)) }
        ensures known { self.new.known ≡ self.old.known }
    {
        self.put_ahead(alloc, urls)?;
        match self.behind.pop_front() {
            None => Ok(true),
            Some(Some((ticket, asked))) => {
                self.stand(Stage::Asks(ticket, asked));
                Ok(true)
            }
            Some(None) => self.begin_late(alloc, urls),
        }
    }

    // What comes next is done or begins; answers whether a turn stands, or nothing is left.
    fn step<U: JsrUrlProvider, R: Reporter>(
        &mut self,
        alloc: Global,
        registry: &Registry<'_, U, R>,
    ) -> Result<bool, AllocError>
        ensures begun { IfOk result (λ due. turn_begun (U.meaning registry.now.urls.now)
            registry.now.versions.now.newest_dependency_date_options self.old
            ≡ (due, self.new)) }
        ensures known { self.new.known ≡ self.old.known }
    {
        match self.state.next() {
            Next::Load => self.begin_load(alloc, registry.urls),
            Next::Wanted => self.begin_wanted(alloc, registry.urls),
            Next::Content => {
                self.begin_content()?;
                Ok(true)
            }
            Next::End => Ok(true),
            next @ (Next::Notes
            | Next::Restart
            | Next::Item
            | Next::Versions
            | Next::Exports
            | Next::Deferred
            | Next::Waiting
            | Next::Dynamic) => {
                self.state.go_on(alloc, registry, next)?;
                Ok(false)
            }
        }
    }

    // A turn is through: what needs no answer is done, and the next turn begins that needs one.
    pub(crate) fn arrange<U: JsrUrlProvider, R: Reporter>(
        &mut self,
        alloc: Global,
        registry: &Registry<'_, U, R>,
    ) -> Result<(), AllocError>
        ensures arranged { OnOk result (Arranged (U.meaning registry.now.urls.now)
            registry.now.versions.now.newest_dependency_date_options self.old self.new) }
        ensures known { self.new.known ≡ self.old.known }
    {
        loop {
            let stands = self.step(alloc, registry)?;
            if stands {
                return Ok(());
            }
        }
    }
}
