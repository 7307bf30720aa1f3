// What answers questions from many threads, and loaders whose answers may be waited for.
ghost use Rattle.std.specs.Prelude.{◌≡◌, ◌<◌, length, IfOk, IfSome, OnOk, OnErr, IsErrOf, Bool, true, Option};
ghost use Rattle.source_io.specs.declared.types.NextRefusal.TheVariants.{Failed};
ghost use Rattle.source_io.specs.declared.types.World.{World};
ghost use Rattle.source_io.specs.Answers.{answer_of, cache_info_of};
ghost use Rattle.source_io.specs.Tickets.{HasCause, IsAnswered};

use crate::loader::LoaderCore;
use crate::types::{Answer, CacheInfo, NextRefusal, Question, Ticket};
use spec_base::ModuleSpecifier;
use std::alloc::AllocError;
use std::sync::Wait;

/// What answers questions from many threads: it keeps no open ones, and is only read.
pub trait Fetch {
    /// The world that it answers by, where it tells one.
    ghost world: { Self → Option World };

    /// Whether what is known of cached copies is to be told.
    ghost caches: { Self → Bool };

    /// The answer to a question; where a world is told, the world's.
    fn fetch(&self, question: &Question) -> Result<Answer, AllocError>
        ensures { IfOk result
            (λ answer. IfSome (world self.now) (λ w. answer ≡ answer_of w question.now)) };

    /// How many redirects one load follows; where a world is told, as many as it says.
    fn max_redirects(&self) -> usize
        ensures { IfSome (world self.now) (λ w. result ≡ w.max_redirects) };

    /// Whether what is known of cached copies is to be told of modules.
    fn cache_info_enabled(&self) -> bool
        ensures { result ≡ caches self.now };

    /// What is known of the copy of a module in a cache; where a world is told, what it lists.
    fn get_cache_info(&self, specifier: &ModuleSpecifier) -> Result<Option<CacheInfo>, AllocError>
        ensures { IfOk result
            (λ info. IfSome (world self.now) (λ w. info ≡ cache_info_of w specifier.now)) };
}

/// A loader whose answers may be waited for.
pub trait WaitingLoader: LoaderCore {
    /// The answer to an open question, which is then no longer open; it may wait for another thread. `Failed` comes only
    /// where the count of faults rose and the loader may fail after so many questions; after an error the open questions
    /// stay.
    fn next<R: Wait>(&mut self, rt: &R) -> Result<(Ticket, Answer), NextRefusal>
        requires { 0 < length (Self.open_tickets self.old) }
        ensures answered { IfOk result
            (λ r. IsAnswered (Self.world self.old) (Self.open_tickets self.old)
            (Self.open_tickets self.new) r.0 r.1) }
        ensures refused { OnErr result (Self.open_tickets self.new ≡ Self.open_tickets self.old) }
        ensures cause { HasCause (Self.faults self.old) (Self.faults self.new) result }
        ensures allowed { IsErrOf result Failed
            → Self.may_fail self.old (Self.asked self.old) ≡ true }
        ensures uncounted { Self.asked self.new ≡ Self.asked self.old }
        ensures may_fail { Self.may_fail self.new ≡ Self.may_fail self.old }
        ensures caches { Self.caches self.new ≡ Self.caches self.old }
        ensures world { Self.world self.new ≡ Self.world self.old };
}
