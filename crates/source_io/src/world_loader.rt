// A loader over a world in memory, whose answers arrive in a chosen order and which fails at chosen calls.
ghost use Rattle.std.specs.Prelude.{◌≡◌, ℕ, ◌+◌, ◌-◌, ◌^◌, ◌<◌, ◌≤◌, length, IfOk};
ghost use Rattle.std.specs.List.Sorted.{IsNonDecreasing};
ghost use Rattle.spec_base.specs.Places.{IsIndex};
ghost use Rattle.source_io.specs.Answers.{tells_of};
ghost use Rattle.source_io.specs.AnswerPlaces.{IsAnswerIndex, index_props};
ghost use Rattle.source_io.specs.Calls.{NoneListed};

use crate::answer_places::AnswerPlaces;
use crate::cache_places::{cache_places, info_of};
use crate::calls::{answer_of, arrival_place, is_listed, take_answer};
use crate::fetch::Fetch;
use crate::loader::{Loader, LoaderCore};
use crate::types::{Answer, CacheInfo, NextRefusal, Question, Ticket, World};
use spec_base::ModuleSpecifier;
use specifier_index::SpecifierIndex;
use std::alloc::{AllocError, Global};
use std::collections::VecDeque;

/// A loader that answers what a world in memory holds, in a chosen order of arrival, and fails at chosen
/// calls.
///
/// Its calls of `next` are numbered from 1; one that finds no memory for its answer changes nothing and
/// isn't counted, and after call 2^64 - 1 each is that one again.
pub struct WorldLoader {
    alloc: Global,
    world: World,
    places: AnswerPlaces,
    cache_places: SpecifierIndex<usize>,
    unanswered: VecDeque<(Ticket, Question)>,
    arrival: Vec<u64>,
    /// In ascending order, so that a call's number isn't sought through all of them.
    fail_next: Vec<u64>,
    calls: u64,
    faults: u64,
    asked: u64,
    /// So that a question isn't sought through all answers.
    ghost indexed: { IsAnswerIndex world.answers places } by { Prim.hlevel index_props },
    ghost cached: { IsIndex tells_of world.cache_info cache_places },
    ghost ascending: { IsNonDecreasing fail_next.items },
    /// Until it fails, each call answers another question.
    ghost counted: { faults ≡ 0 → asked < 2 ^ 64 - 1 → calls + length unanswered.items ≤ asked },
    /// It fails only at a listed call that is at most the number of questions.
    ghost caused: { NoneListed fail_next.items asked → faults ≡ 0 },
}

// So that its drop is one call at each way out of what owns it.
impl Drop for WorldLoader {
    fn drop(self) {
        let WorldLoader {
            alloc: _,
            world: _,
            places: _,
            cache_places: _,
            unanswered: _,
            arrival: _,
            fail_next: _,
            calls: _,
            faults: _,
            asked: _,
        } = self;
    }
}

impl WorldLoader {
    ghost use Rattle.std.specs.Prelude.{Some, [], ℕ};
    ghost use Rattle.source_io.specs.Calls.{is_listed, lists_within};
    ghost use Rattle.source_io.specs.Loaders.{world_told, open_in, asked_of, faults_of, may_fail_in, calls_of, arrival_in, fails_at};

    /// The loader of a world, in which nothing is open and to which nothing was put.
    ///
    /// Its call k of `next` fails exactly where k is in `fail_next`, and else answers the open question at
    /// the place `arrival[(k - 1) % arrival.len()] % open_len()`, at place 0 where `arrival` is empty.
    pub fn new(
        alloc: Global,
        world: World,
        arrival: Vec<u64>,
        fail_next: Vec<u64>,
    ) -> Result<WorldLoader, AllocError>
        ensures world { IfOk result (λ l. world_told l ≡ Some world) }
        ensures opened { IfOk result (λ l. open_in l ≡ []) }
        ensures asked { IfOk result (λ l. asked_of l ≡ 0) }
        ensures faults { IfOk result (λ l. faults_of l ≡ 0) }
        ensures calls { IfOk result (λ l. calls_of l ≡ 0) }
        ensures arrival { IfOk result (λ l. arrival_in l ≡ arrival.items) }
        ensures failing { IfOk result (λ l. (k : ℕ) → fails_at l k ≡ is_listed fail_next.items k) }
        ensures may_fail { IfOk result
            (λ l. (n : ℕ) → may_fail_in l n ≡ lists_within fail_next.items n) }
    {
        let places = AnswerPlaces::new(alloc, world.answers.as_slice())?;
        let cache_places = cache_places(alloc, world.cache_info.as_slice())?;
        let mut ascending = fail_next;
        ascending.sort_unstable();
        Ok(WorldLoader {
            alloc,
            world,
            places,
            cache_places,
            unanswered: VecDeque::new(alloc),
            arrival,
            fail_next: ascending,
            calls: 0,
            faults: 0,
            asked: 0,
        })
    }
}

impl LoaderCore for WorldLoader {
    ghost use Rattle.std.specs.Prelude.{Some, [], ◌∷◌, ◌++◌, OnOk, OnErr};
    ghost use Rattle.source_io.specs.Tickets.{IsUnused};
    ghost use Rattle.spec_base.specs.Counters.{risen};
    ghost use Rattle.source_io.specs.Loaders.{world_told, open_in, asked_of, faults_of, may_fail_in, caches_in, calls_of, arrival_in, failing_in};

    ghost world = { λ l. Some l.world };

    ghost open_tickets = { λ l. l.unanswered.items };

    ghost faults = { λ l. l.faults };

    ghost asked = { λ l. l.asked };

    ghost may_fail = { λ l n. may_fail_in l n };

    ghost caches = { λ l. caches_in l };

    fn max_redirects(&self) -> usize {
        self.world.max_redirects
    }

    fn cache_info_enabled(&self) -> bool {
        self.world.cache_info.len() > 0
    }

    fn get_cache_info(&self, specifier: &ModuleSpecifier) -> Result<Option<CacheInfo>, AllocError> {
        info_of(
            self.world.cache_info.as_slice(),
            &self.cache_places,
            specifier,
        )
    }

    fn open_len(&self) -> usize {
        self.unanswered.len()
    }

    fn ask(&mut self, ticket: Ticket, question: Question) -> Result<(), AllocError>
        requires { IsUnused ticket (open_in self.old) }
        ensures opened { OnOk result
            (open_in self.new ≡ open_in self.old ++ (ticket, question) ∷ []) }
        ensures counted { OnOk result (asked_of self.new ≡ risen 1 (asked_of self.old)) }
        ensures refused { OnErr result (open_in self.new ≡ open_in self.old) }
        ensures uncounted { OnErr result (asked_of self.new ≡ asked_of self.old) }
        ensures world { world_told self.new ≡ world_told self.old }
        ensures may_fail { may_fail_in self.new ≡ may_fail_in self.old }
        ensures caches { caches_in self.new ≡ caches_in self.old }
        ensures faults { faults_of self.new ≡ faults_of self.old }
        ensures calls { calls_of self.new ≡ calls_of self.old }
        ensures arrival { arrival_in self.new ≡ arrival_in self.old }
        ensures failing { failing_in self.new ≡ failing_in self.old }
    {
        self.unanswered.push_back((ticket, question))?;
        self.asked = self.asked.saturating_add(1);
        Ok(())
    }
}

impl Loader for WorldLoader {
    ghost use Rattle.std.specs.Prelude.{Some, OnOk, OnErr, IsErrOf, IsTrue, true, ◌↔◌, if◌then◌else◌, remove};
    ghost use Rattle.source_io.specs.declared.types.NextRefusal.TheVariants.{Failed};
    ghost use Rattle.source_io.specs.Calls.{calls_after};
    ghost use Rattle.source_io.specs.Tickets.{HasCause, IsAnswered};
    ghost use Rattle.spec_base.specs.Counters.{risen};
    ghost use Rattle.source_io.specs.Loaders.{world_told, open_in, asked_of, faults_of, may_fail_in, caches_in, calls_of, call_of, fails_at, place_in, answer_in, arrival_in, failing_in};

    /// `Failed` exactly where this call's number is among those that fail; else the answer to the open
    /// question at this call's place. After an error the open questions stay.
    fn next(&mut self) -> Result<(Ticket, Answer), NextRefusal>
        requires { 0 < length (open_in self.old) }
        ensures answered { IfOk result
            (λ r. IsAnswered (world_told self.old) (open_in self.old) (open_in self.new) r.0 r.1) }
        ensures chosen { IfOk result (λ r. answer_in self.old ≡ Some r) }
        ensures removed { OnOk result
            (open_in self.new ≡ remove (open_in self.old) (place_in self.old)) }
        ensures refused { OnErr result (open_in self.new ≡ open_in self.old) }
        ensures failed { IsErrOf result Failed ↔ IsTrue (fails_at self.old (call_of self.old)) }
        // the number of the first call that fails is at most that of the questions put
        ensures allowed { IsErrOf result Failed → may_fail_in self.old (asked_of self.old) ≡ true }
        ensures cause { HasCause (faults_of self.old) (faults_of self.new) result }
        ensures faults { faults_of self.new
            ≡ (if fails_at self.old (call_of self.old) then risen 1 (faults_of self.old) else
            faults_of self.old) }
        ensures calls { calls_of self.new ≡ calls_after (calls_of self.old) result }
        ensures uncounted { asked_of self.new ≡ asked_of self.old }
        ensures may_fail { may_fail_in self.new ≡ may_fail_in self.old }
        ensures caches { caches_in self.new ≡ caches_in self.old }
        ensures world { world_told self.new ≡ world_told self.old }
        ensures arrival { arrival_in self.new ≡ arrival_in self.old }
        ensures failing { failing_in self.new ≡ failing_in self.old }
    {
        let call = self.calls.saturating_add(1);
        if is_listed(&self.fail_next, call) {
            self.calls = call;
            self.faults = self.faults.saturating_add(1);
            return Err(NextRefusal::Failed);
        }
        let place = arrival_place(&self.arrival, call, self.unanswered.len());
        let answer = take_answer(
            self.alloc,
            &self.world,
            &self.places,
            &mut self.unanswered,
            place,
        )?;
        self.calls = call;
        Ok(answer)
    }
}

impl Fetch for WorldLoader {
    ghost use Rattle.std.specs.Prelude.{Some};
    ghost use Rattle.source_io.specs.Loaders.{caches_in};

    ghost world = { λ l. Some l.world };

    ghost caches = { λ l. caches_in l };

    fn fetch(&self, question: &Question) -> Result<Answer, AllocError> {
        answer_of(self.alloc, &self.world, &self.places, question)
    }

    fn max_redirects(&self) -> usize {
        self.world.max_redirects
    }

    fn cache_info_enabled(&self) -> bool {
        self.world.cache_info.len() > 0
    }

    fn get_cache_info(&self, specifier: &ModuleSpecifier) -> Result<Option<CacheInfo>, AllocError> {
        info_of(
            self.world.cache_info.as_slice(),
            &self.cache_places,
            specifier,
        )
    }
}
