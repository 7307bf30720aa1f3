// Where the texts of imports lead.
ghost use Rattle.std.specs.Prelude.{◌≡◌, Some, IfOk};
ghost use Rattle.spec_base.specs.ErrorTexts.{specifier_error_text};
ghost use Rattle.spec_base.specs.Refusal.{Answers};
ghost use Rattle.spec_base.specs.Resolve.{is_relative_text, resolution};

use crate::refusal::Refusal;
use crate::text::Text;
use std::alloc::{AllocError, Global};
use std::fmt;
use url::{ParseError, Url};

/// Why an import leads nowhere: its text is no URL, or it is a bare name, which needs an import map.
#[derive(Clone, Debug, PartialEq, Eq, Drop)]
pub enum SpecifierError {
    InvalidUrl { text: Text },
    ImportPrefixMissing { specifier: Text, referrer: Url },
}

impl SpecifierError {
    /// A copy.
    pub fn try_clone(&self) -> Result<SpecifierError, AllocError>
        ensures { IfOk result (λ e. e ≡ self.now) }
    {
        self.clone()
    }
}

impl fmt::Display for SpecifierError {
    ghost output = { λ e. Some (specifier_error_text e) };

    fn fmt<W: fmt::Write>(&self, f: &mut fmt::Formatter<W>) -> fmt::Result {
        match self {
            SpecifierError::InvalidUrl { text } => write!(f, "Invalid URL \"{text}\"."),
            SpecifierError::ImportPrefixMissing {
                specifier,
                referrer: _,
            } => write!(
                f,
                "Relative import path \"{specifier}\" not prefixed with / or ./ or ../"
            ),
        }
    }
}

fn is_relative(text: &str) -> bool
    ensures { result ≡ is_relative_text text.now }
{
    text.starts_with("/") || text.starts_with("./") || text.starts_with("../")
}

/// Where the text of an import leads from its module, the referrer.
///
/// That is the text's own URL (WHATWG URL Standard). Where the text is refused as relative without a base
/// and begins with `/`, `./` or `../`, it is its join with the referrer (module specifiers of the HTML
/// Standard). A text that is so refused and has no such beginning is `ImportPrefixMissing`; any other
/// refusal is `InvalidUrl`.
pub fn resolve_import(
    alloc: Global,
    specifier: &str,
    referrer: &Url,
) -> Result<Url, Refusal<SpecifierError>>
    ensures { Answers result (resolution specifier.now referrer.now) }
{
    match Url::parse(alloc, specifier) {
        Ok(url) => Ok(url),
        Err(ParseError::OutOfMemory | ParseError::Overflow) => Err(Refusal::Memory),
        Err(ParseError::RelativeUrlWithoutBase) => {
            if is_relative(specifier) {
                match referrer.join(specifier) {
                    Ok(url) => Ok(url),
                    Err(ParseError::OutOfMemory | ParseError::Overflow) => Err(Refusal::Memory),
                    Err(_) => {
                        let text = Text::from_str(alloc, specifier)?;
                        Err(Refusal::Is(SpecifierError::InvalidUrl { text }))
                    }
                }
            } else {
                let referrer = referrer.clone()?;
                let specifier = Text::from_str(alloc, specifier)?;
                Err(Refusal::Is(SpecifierError::ImportPrefixMissing {
                    specifier,
                    referrer,
                }))
            }
        }
        Err(_) => {
            let text = Text::from_str(alloc, specifier)?;
            Err(Refusal::Is(SpecifierError::InvalidUrl { text }))
        }
    }
}
