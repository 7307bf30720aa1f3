// What a fast check, which finds the types that a module gives from its text alone, found at a module.
ghost use Rattle.std.specs.Prelude.{◌≡◌, IfOk};

use graph_dependencies::Dependency;
use spec_base::{Boxed, Items, Range, Text, TextMap};
use std::alloc::AllocError;

/// Why the types of a module can't be found from its text alone.
#[derive(Debug)]
pub struct FastCheckDiagnostic {
    pub message: Text,
    /// Where in the text it is, where that is known.
    pub range: Option<Range>,
}

// So that its drop is one call at each way out of what owns it.
impl Drop for FastCheckDiagnostic {
    fn drop(self) {
        let FastCheckDiagnostic {
            message: _,
            range: _,
        } = self;
    }
}

/// A module of types, in the place of the one that it was made of.
#[derive(Debug)]
pub struct FastCheckTypeModule {
    /// The dependencies that are left.
    pub dependencies: TextMap<Dependency>,
    pub source: Text,
    pub source_map: Text,
}

// So that its drop is one call at each way out of what owns it.
impl Drop for FastCheckTypeModule {
    fn drop(self) {
        let FastCheckTypeModule {
            dependencies: _,
            source: _,
            source_map: _,
        } = self;
    }
}

/// What a fast check found: the module's types, or why it has none.
#[derive(Debug)]
pub enum FastCheckTypeModuleSlot {
    Module(Boxed<FastCheckTypeModule>),
    Error(Items<FastCheckDiagnostic>),
}

// So that its drop is one call at each way out of what owns it.
impl Drop for FastCheckTypeModuleSlot {
    fn drop(self) {
        match self {
            FastCheckTypeModuleSlot::Module(value) => drop(value),
            FastCheckTypeModuleSlot::Error(value) => drop(value),
        }
    }
}

impl FastCheckDiagnostic {
    /// A copy. The only refusal is want of memory.
    pub fn try_clone(&self) -> Result<FastCheckDiagnostic, AllocError>
        ensures { IfOk result (λ copy. copy ≡ self.now) }
    {
        let message = self.message.try_clone()?;
        let range = self.range.clone()?;
        Ok(FastCheckDiagnostic { message, range })
    }
}

impl Clone for FastCheckDiagnostic {
    ghost is_clone = { λ source copy. copy ≡ source };

    fn clone(&self) -> Result<FastCheckDiagnostic, AllocError> {
        self.try_clone()
    }
}

impl FastCheckTypeModule {
    /// A copy. The only refusal is want of memory.
    pub fn try_clone(&self) -> Result<FastCheckTypeModule, AllocError>
        ensures { IfOk result (λ copy. copy ≡ self.now) }
    {
        let dependencies = self.dependencies.try_clone()?;
        let source = self.source.try_clone()?;
        let source_map = self.source_map.try_clone()?;
        Ok(FastCheckTypeModule {
            dependencies,
            source,
            source_map,
        })
    }
}

impl Clone for FastCheckTypeModule {
    ghost is_clone = { λ source copy. copy ≡ source };

    fn clone(&self) -> Result<FastCheckTypeModule, AllocError> {
        self.try_clone()
    }
}

impl FastCheckTypeModuleSlot {
    /// A copy. The only refusal is want of memory.
    pub fn try_clone(&self) -> Result<FastCheckTypeModuleSlot, AllocError>
        ensures { IfOk result (λ copy. copy ≡ self.now) }
    {
        match self {
            FastCheckTypeModuleSlot::Module(module) => {
                let copy = module.try_clone()?;
                Ok(FastCheckTypeModuleSlot::Module(copy))
            }
            FastCheckTypeModuleSlot::Error(diagnostics) => {
                let copy = diagnostics.try_clone()?;
                Ok(FastCheckTypeModuleSlot::Error(copy))
            }
        }
    }
}

impl Clone for FastCheckTypeModuleSlot {
    ghost is_clone = { λ source copy. copy ≡ source };

    fn clone(&self) -> Result<FastCheckTypeModuleSlot, AllocError> {
        self.try_clone()
    }
}
