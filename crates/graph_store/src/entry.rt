// An entry of a store, and what isn't one.
ghost use Rattle.std.specs.Prelude.{◌≡◌, IfOk};

use source_io::{Answer, Purpose};
use spec_base::ModuleSpecifier;
use std::alloc::AllocError;

/// What was answered about a specifier for a purpose.
#[derive(Clone, Debug, PartialEq, Eq, Drop)]
pub struct StoreEntry {
    pub specifier: ModuleSpecifier,
    pub purpose: Purpose,
    pub answer: Answer,
}

impl StoreEntry {
    /// A copy. The only refusal is want of memory.
    pub fn try_clone(&self) -> Result<StoreEntry, AllocError>
        ensures { IfOk result (λ copy. copy ≡ self.now) }
    {
        self.clone()
    }
}

/// Bytes that are no store.
#[derive(Clone, Copy, Debug, PartialEq, Eq)]
pub struct NotAStore;
