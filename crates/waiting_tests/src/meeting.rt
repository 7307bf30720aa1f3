// A fetcher whose fetches of two modules wait for one another.
use source_io::{Answer, CacheInfo, Fetch, Question, WorldLoader};
use spec_base::ModuleSpecifier;
use std::alloc::AllocError;
use std::sync::atomic::{AtomicU64, Ordering};
use std::thread;

/// A fetcher that holds its fetch of `file:///a.js` until that of `file:///b.js` has begun, and the other way round, each for so
/// many turns at most. It answers by a world, and tells none.
#[derive(Drop)]
pub struct Meeting {
    pub loader: WorldLoader,
    pub a_began: AtomicU64,
    pub b_began: AtomicU64,
    /// 1 where a hold came to its limit.
    pub gave_up: AtomicU64,
}

// The most turns of a hold.
const TURNS: u64 = 1_000_000_000;

impl Meeting {
    /// A fetcher over a world, which holds nothing yet.
    pub fn new(loader: WorldLoader) -> Meeting {
        Meeting {
            loader,
            a_began: AtomicU64::new(0),
            b_began: AtomicU64::new(0),
            gave_up: AtomicU64::new(0),
        }
    }

    // Says that one fetch has begun, and waits until the other one has.
    fn hold(&self, mine: &AtomicU64, other: &AtomicU64) {
        mine.store(1, Ordering::SeqCst);
        for _ in 0..TURNS {
            if other.load(Ordering::SeqCst) == 1 {
                return;
            }
            thread::yield_now();
        }
        self.gave_up.store(1, Ordering::SeqCst);
    }
}

impl Fetch for Meeting {
    ghost use Rattle.std.specs.Prelude.{None, false};

    ghost world = { λ _. None };

    ghost caches = { λ _. false };

    fn fetch(&self, question: &Question) -> Result<Answer, AllocError> {
        if question.specifier.as_str() == "file:///a.js" {
            self.hold(&self.a_began, &self.b_began);
        }
        if question.specifier.as_str() == "file:///b.js" {
            self.hold(&self.b_began, &self.a_began);
        }
        self.loader.fetch(question)
    }

    fn max_redirects(&self) -> usize {
        Fetch::max_redirects(&self.loader)
    }

    fn cache_info_enabled(&self) -> bool {
        false
    }

    fn get_cache_info(
        &self,
        _specifier: &ModuleSpecifier,
    ) -> Result<Option<CacheInfo>, AllocError> {
        Ok(None)
    }
}
