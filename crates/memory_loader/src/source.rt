// The sources that a loader in memory is given.
ghost use Rattle.std.specs.Prelude.{IfOk};
ghost use Rattle.memory_loader.specs.Copies.{IsCopy};

use spec_base::Fault;
use std::alloc::AllocError;

/// What stands at a specifier: texts are of the type `S`, and contents of the type `C`.
#[derive(Clone, Debug, Drop)]
pub enum Source<S, C> {
    /// A module: its name, which may be another one than its key, the headers that came with it, where some did,
    /// and its content. Names of headers count in ASCII lower case, and the last header of a name counts.
    Module {
        specifier: S,
        maybe_headers: Option<Vec<(S, S)>>,
        content: C,
    },
    /// The load goes on at another specifier.
    Redirect(S),
    /// A module that stands outside of the graph, under this name.
    External(S),
    /// The load fails.
    Err(Fault),
}

/// Sources under the specifiers at which they stand; a later one stands in the place of an earlier one.
pub type MemoryLoaderSources<S, C> = Vec<(S, Source<S, C>)>;

impl<S: Clone, C: Clone> Source<S, C> {
    /// A copy: a source of the same kind, with copies of the texts and the content. The only refusal is want of
    /// memory.
    pub fn try_clone(&self) -> Result<Source<S, C>, AllocError>
        ensures { IfOk result (λ copy. IsCopy S.is_clone C.is_clone self.now copy) }
    {
        self.clone()
    }
}
