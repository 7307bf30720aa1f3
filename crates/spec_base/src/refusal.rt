// What a call answers in place of its value.
ghost use Rattle.std.specs.Prelude.{◌≡◌, Some, IfOk};

use crate::text::Text;
use std::alloc::{AllocError, AllocFailed};
use std::fmt;

/// Why a call gives no value: there was no memory, or a refusal of its own.
#[derive(Debug, Drop)]
pub enum Refusal<E> {
    Memory,
    Is(E),
}

impl<E> From<AllocError> for Refusal<E> {
    ghost use Rattle.std.specs.Prelude.{◌≡◌};
    ghost use Rattle.spec_base.specs.declared.refusal.Refusal.TheVariants.{Memory};

    ghost from_gives = { λ _ e. e ≡ Memory };

    fn from(_: AllocError) -> Refusal<E> {
        Refusal::Memory
    }
}

impl<E, T: Drop> From<AllocFailed<T>> for Refusal<E> {
    ghost use Rattle.std.specs.Prelude.{◌≡◌};
    ghost use Rattle.spec_base.specs.declared.refusal.Refusal.TheVariants.{Memory};

    ghost from_gives = { λ _ e. e ≡ Memory };

    fn from(_: AllocFailed<T>) -> Refusal<E> {
        Refusal::Memory
    }
}

impl<E: Clone> Refusal<E> {
    /// A copy, where copies of what is refused equal their source. The only refusal is want of memory.
    pub fn try_clone(&self) -> Result<Refusal<E>, AllocError>
        requires { (x y : E) → E.is_clone x y → y ≡ x }
        ensures { IfOk result (λ copy. copy ≡ self.now) }
    {
        match self {
            Refusal::Memory => Ok(Refusal::Memory),
            Refusal::Is(error) => {
                let copy = error.clone()?;
                Ok(Refusal::Is(copy))
            }
        }
    }
}

/// A fault of something outside, as a loader or an analyzer, told by its class and its message.
#[derive(Clone, PartialEq, Eq, Debug, Drop)]
pub struct Fault {
    pub class: Text,
    pub message: Text,
}

impl Fault {
    /// A copy.
    pub fn try_clone(&self) -> Result<Fault, AllocError>
        ensures { IfOk result (λ f. f ≡ self.now) }
    {
        self.clone()
    }
}

impl fmt::Display for Fault {
    ghost output = { λ fault. Some fault.message };

    fn fmt<W: fmt::Write>(&self, f: &mut fmt::Formatter<W>) -> fmt::Result {
        fmt::Display::fmt(&self.message, f)
    }
}
