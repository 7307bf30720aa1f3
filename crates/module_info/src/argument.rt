// What a dynamic import is called with.
ghost use Rattle.std.specs.Prelude.{◌≡◌, IfOk};

use spec_base::{Items, Text};
use std::alloc::AllocError;

/// One part of a template.
#[derive(Clone, PartialEq, Eq, Debug, Drop)]
pub enum DynamicTemplatePart {
    String(Text),
    /// An expression, which isn't known.
    Expr,
}

/// The argument of a dynamic import.
#[derive(PartialEq, Eq, Debug, Drop)]
pub enum DynamicArgument {
    /// An expression, which isn't known.
    Expr,
    String(Text),
    /// A template or a sum of texts, of which some parts are known.
    Template(Items<DynamicTemplatePart>),
}

impl DynamicTemplatePart {
    /// A copy. The only refusal is want of memory.
    pub fn try_clone(&self) -> Result<DynamicTemplatePart, AllocError>
        ensures { IfOk result (λ p. p ≡ self.now) }
    {
        self.clone()
    }
}

impl DynamicArgument {
    /// A copy. The only refusal is want of memory.
    pub fn try_clone(&self) -> Result<DynamicArgument, AllocError>
        ensures { IfOk result (λ a. a ≡ self.now) }
    {
        match self {
            DynamicArgument::Expr => Ok(DynamicArgument::Expr),
            DynamicArgument::String(text) => Ok(DynamicArgument::String(text.try_clone()?)),
            DynamicArgument::Template(parts) => Ok(DynamicArgument::Template(parts.try_clone()?)),
        }
    }
}

impl Clone for DynamicArgument {
    ghost is_clone = { λ a copy. copy ≡ a };

    fn clone(&self) -> Result<DynamicArgument, AllocError> {
        self.try_clone()
    }
}
