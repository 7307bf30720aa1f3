// A runtime of which no thread gets a copy.
use std::alloc::AllocError;
use std::sync::Wait;
use std::thread::Threads;

/// A runtime whose copies fail for want of memory, so that no worker is started by it.
#[derive(Drop)]
pub struct Uncopied<R> {
    pub rt: R,
}

impl<R: Wait> Wait for Uncopied<R> {}

impl<R: Threads> Threads for Uncopied<R> {}

impl<R: Drop> Clone for Uncopied<R> {
    fn clone(&self) -> Result<Uncopied<R>, AllocError> {
        Err(AllocError)
    }
}
