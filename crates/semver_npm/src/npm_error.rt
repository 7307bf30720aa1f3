// Why a reference can't be read, and why npm gives no package.
ghost use Rattle.std.specs.Prelude.{◌≡◌, Some, IfOk};
ghost use Rattle.semver_npm.specs.ErrorTexts.{npm_error_text, reference_error_text};

use spec_base::{Fault, Text};
use std::alloc::AllocError;
use std::fmt;

/// Why a specifier is no reference; each variant holds the whole specifier's text.
#[derive(Clone, Debug, PartialEq, Eq, Drop)]
pub enum PackageReqReferenceParseError {
    /// The specifier has another scheme.
    NotPrefixed { text: Text },
    /// There is no name.
    NoName { text: Text },
    /// An `@` is followed by nothing, or by no requirement.
    BadVersion { text: Text },
}

impl PackageReqReferenceParseError {
    /// A copy.
    pub fn try_clone(&self) -> Result<PackageReqReferenceParseError, AllocError>
        ensures { IfOk result (λ e. e ≡ self.now) }
    {
        self.clone()
    }
}

impl fmt::Display for PackageReqReferenceParseError {
    ghost output = { λ e. Some (reference_error_text e) };

    fn fmt<W: fmt::Write>(&self, f: &mut fmt::Formatter<W>) -> fmt::Result {
        match self {
            PackageReqReferenceParseError::NotPrefixed { text } => {
                write!(f, "Invalid package specifier '{text}'.")
            }
            PackageReqReferenceParseError::NoName { text } => {
                write!(f, "Invalid package specifier '{text}'.")
            }
            PackageReqReferenceParseError::BadVersion { text } => {
                write!(f, "Invalid package specifier '{text}'.")
            }
        }
    }
}

/// Why npm gives no package.
#[derive(Clone, Debug, PartialEq, Eq, Drop)]
pub enum NpmLoadError {
    /// No npm resolver was given.
    NotSupportedEnvironment,
    /// The requirement wasn't resolved.
    PackageReqResolution(Fault),
    /// The specifier is no `npm:` reference.
    PackageReqReferenceParse(PackageReqReferenceParseError),
    /// The package's information wasn't loaded.
    RegistryInfo(Fault),
}

impl NpmLoadError {
    /// A copy.
    pub fn try_clone(&self) -> Result<NpmLoadError, AllocError>
        ensures { IfOk result (λ e. e ≡ self.now) }
    {
        self.clone()
    }
}

impl fmt::Display for NpmLoadError {
    ghost output = { λ e. Some (npm_error_text e) };

    fn fmt<W: fmt::Write>(&self, f: &mut fmt::Formatter<W>) -> fmt::Result {
        match self {
            NpmLoadError::NotSupportedEnvironment => {
                f.write_str("npm specifiers are not supported in this environment")
            }
            NpmLoadError::PackageReqResolution(fault) => fmt::Display::fmt(fault, f),
            NpmLoadError::PackageReqReferenceParse(error) => fmt::Display::fmt(error, f),
            NpmLoadError::RegistryInfo(fault) => fmt::Display::fmt(fault, f),
        }
    }
}
