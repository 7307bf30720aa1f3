// What configured imports make.
ghost use Rattle.std.specs.Prelude.{◌≡◌, IfOk};

use crate::dependency::Dependency;
use spec_base::TextMap;
use std::alloc::AllocError;

/// The imports of one referrer, such as a configuration file: what the text of each of them makes.
#[derive(Debug, Drop)]
pub struct GraphImport {
    pub dependencies: TextMap<Dependency>,
}

impl GraphImport {
    /// A copy. The only refusal is want of memory.
    pub fn try_clone(&self) -> Result<GraphImport, AllocError>
        ensures { IfOk result (λ copy. copy ≡ self.now) }
    {
        let dependencies = self.dependencies.try_clone()?;
        Ok(GraphImport { dependencies })
    }
}

impl Clone for GraphImport {
    ghost is_clone = { λ source copy. copy ≡ source };

    fn clone(&self) -> Result<GraphImport, AllocError> {
        self.try_clone()
    }
}
