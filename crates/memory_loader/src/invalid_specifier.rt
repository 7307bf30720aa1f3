// Texts as specifiers, and the refusal of those that are none.
ghost use Rattle.std.specs.Prelude.{◌≡◌, Some, IfOk};
ghost use Rattle.spec_base.specs.Refusal.{Answers};
ghost use Rattle.memory_loader.specs.Specifiers.{specifier_of, invalid_specifier_text};

use spec_base::{ModuleSpecifier, Refusal, Text};
use std::alloc::{AllocError, Global};
use std::fmt;
use url::ParseError;

/// A text that has no URL (WHATWG URL Standard), so that it is no specifier.
#[derive(Clone, Debug, PartialEq, Eq, Drop)]
pub struct InvalidSpecifier {
    pub text: Text,
}

impl InvalidSpecifier {
    /// A copy. The only refusal is want of memory.
    pub fn try_clone(&self) -> Result<InvalidSpecifier, AllocError>
        ensures { IfOk result (λ copy. copy ≡ self.now) }
    {
        self.clone()
    }
}

impl fmt::Display for InvalidSpecifier {
    ghost output = { λ e. Some (invalid_specifier_text e) };

    fn fmt<W: fmt::Write>(&self, f: &mut fmt::Formatter<W>) -> fmt::Result {
        let text = &self.text;
        write!(f, "Invalid specifier \"{text}\".")
    }
}

/// The specifier that a text is, or `Is` exactly where it has no URL. A text whose URL would take 4 GB or
/// more counts as want of memory.
pub(crate) fn specifier_of(
    alloc: Global,
    text: &str,
) -> Result<ModuleSpecifier, Refusal<InvalidSpecifier>>
    ensures { Answers result (specifier_of text.now) }
{
    match ModuleSpecifier::parse(alloc, text) {
        Ok(url) => Ok(url),
        Err(ParseError::OutOfMemory | ParseError::Overflow) => Err(Refusal::Memory),
        Err(_) => {
            let text = Text::from_str(alloc, text)?;
            Err(Refusal::Is(InvalidSpecifier { text }))
        }
    }
}
