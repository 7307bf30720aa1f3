// What makes the dependencies of one module.
ghost use Rattle.std.specs.Prelude.{◌≡◌, IfOk};
ghost use Rattle.import_records.specs.Importing.{importing};
ghost use Rattle.import_records.specs.Records.{is_wasm, range_of};

use crate::target::Targets;
use media_types::MediaType;
use source_io::{JsrUrlProvider, Resolver};
use spec_base::{ModuleSpecifier, PositionRange, Range, ResolutionMode};
use std::alloc::AllocError;

/// What makes the dependencies of one module from its info.
#[derive(Drop)]
pub struct Importer<'a, U: JsrUrlProvider, R: Resolver> {
    pub targets: Targets<'a, U, R>,
    pub media: MediaType,
    /// Whether types are wanted.
    pub with_types: bool,
    /// The module.
    pub specifier: &'a ModuleSpecifier,
}

impl<U: JsrUrlProvider, R: Resolver> Importer<'_, U, R> {
    /// A range of the module.
    pub fn range(
        &self,
        range: PositionRange,
        resolution_mode: Option<ResolutionMode>,
    ) -> Result<Range, AllocError>
        ensures { IfOk result
            (λ r. r ≡ range_of (importing U.meaning R.meaning self.now) range resolution_mode) }
    {
        let specifier = self.specifier.clone()?;
        Ok(Range {
            specifier,
            range,
            resolution_mode,
        })
    }

    /// Whether the module is WebAssembly.
    pub fn is_wasm(&self) -> bool
        ensures { result ≡ is_wasm self.now.media }
    {
        matches!(self.media, MediaType::Wasm)
    }
}
