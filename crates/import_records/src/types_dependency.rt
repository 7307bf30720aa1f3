// Where the types of a module stand.
ghost use Rattle.std.specs.Prelude.{◌≡◌, true, IfOk, Some, Ok, Err, option_copied};
ghost use Rattle.std.specs.Option.{unwrap_or};
ghost use Rattle.url.specs.Parts.{serialize};
ghost use Rattle.graph_errors.specs.declared.resolution.ResolutionError.TheVariants.{ResolverError};
ghost use Rattle.import_records.specs.Importing.{importing, is_told_importer};
ghost use Rattle.import_records.specs.Records.{range_of};
ghost use Rattle.import_records.specs.TypesDependency.{named, self_types, first_reference, by_header, beginning, by_resolver, types_dependency_of};

use crate::comments::mode_of;
use crate::importer::Importer;
use graph_dependencies::TypesDependency;
use graph_errors::{Resolution, ResolutionError, ResolutionResolved};
use module_info::{ModuleInfo, SpecifierWithRange, TypeScriptReference};
use source_io::{JsrUrlProvider, Resolver};
use spec_base::{
    Boxed, ModuleSpecifier, PositionRange, Range, Refusal, ResolutionKind, ResolutionMode,
    ResolveError, Text,
};
use std::alloc::AllocError;

/// The range at the beginning of a module.
pub fn beginning_of(specifier: &ModuleSpecifier) -> Result<Range, AllocError>
    ensures { IfOk result (λ r. r ≡ beginning specifier.now) }
{
    let specifier = specifier.clone()?;
    Ok(Range {
        specifier,
        range: PositionRange::zeroed(),
        resolution_mode: None,
    })
}

fn range_or_beginning(
    range: Option<Range>,
    specifier: &ModuleSpecifier,
) -> Result<Range, AllocError>
    ensures { IfOk result (λ r. r ≡ unwrap_or range (beginning specifier.now)) }
{
    match range {
        Some(range) => Ok(range),
        None => beginning_of(specifier),
    }
}

impl<U: JsrUrlProvider, R: Resolver> Importer<'_, U, R> {
    fn named_types(&self, text: &str, range: Range) -> Result<TypesDependency, AllocError>
        ensures { is_told_importer R.is_told self.now ≡ true
            → IfOk result (λ t. t ≡ named (importing U.meaning R.meaning self.now) text.now range) }
    {
        let specifier = Text::from_str(self.targets.alloc, text)?;
        let dependency = self
            .targets
            .target(text, range, ResolutionKind::Types, None)?;
        Ok(TypesDependency {
            specifier,
            dependency,
        })
    }

    // The types that a text of the module names, where it stands.
    fn types_named(
        &self,
        own: &SpecifierWithRange,
        mode: Option<ResolutionMode>,
    ) -> Result<TypesDependency, AllocError>
        ensures { is_told_importer R.is_told self.now ≡ true
            → IfOk result (λ t. t
            ≡ named (importing U.meaning R.meaning self.now) own.now.text
            (range_of (importing U.meaning R.meaning self.now) own.now.range mode)) }
    {
        let range = self.range(own.range, mode)?;
        let types = self.named_types(own.text.as_str(), range)?;
        Ok(types)
    }

    fn self_types(&self, info: &ModuleInfo) -> Result<Option<TypesDependency>, AllocError>
        ensures { is_told_importer R.is_told self.now ≡ true
            → IfOk result (λ t. t ≡ self_types (importing U.meaning R.meaning self.now) info.now) }
    {
        match &info.self_types_specifier {
            None => Ok(None),
            Some(own) => Ok(Some(self.types_named(own, None)?)),
        }
    }

    fn first_reference(
        &self,
        references: &[TypeScriptReference],
    ) -> Result<Option<TypesDependency>, AllocError>
        ensures { is_told_importer R.is_told self.now ≡ true
            → IfOk result
            (λ t. t ≡ first_reference (importing U.meaning R.meaning self.now) references.now) }
    {
        for reference in references {
            if let TypeScriptReference::Types {
                specifier,
                resolution_mode,
            } = reference
            {
                return Ok(Some(self.types_named(specifier, mode_of(*resolution_mode))?));
            }
        }
        Ok(None)
    }

    fn types_by_header(&self, header: Option<&str>) -> Result<Option<TypesDependency>, AllocError>
        ensures { is_told_importer R.is_told self.now ≡ true
            → IfOk result
            (λ t. t
            ≡ by_header (importing U.meaning R.meaning self.now)
            (option_copied header.entry)) }
    {
        match header {
            None => Ok(None),
            Some(text) => {
                let range = self.range(PositionRange::zeroed(), None)?;
                Ok(Some(self.named_types(text, range)?))
            }
        }
    }

    // The types where the resolver says that they stand.
    fn types_at(
        &self,
        specifier: ModuleSpecifier,
        range: Option<Range>,
    ) -> Result<TypesDependency, AllocError>
        ensures { IfOk result
            (λ t. Some t
            ≡ by_resolver (importing U.meaning R.meaning self.now)
            (Ok (Some (specifier, range)))) }
    {
        let range = range_or_beginning(range, &specifier)?;
        let resolved = Boxed::new(self.targets.alloc, ResolutionResolved { specifier, range })?;
        let own = Text::from_str(self.targets.alloc, self.specifier.as_str())?;
        Ok(TypesDependency {
            specifier: own,
            dependency: Resolution::Ok(resolved),
        })
    }

    fn types_found(
        &self,
        found: Option<(ModuleSpecifier, Option<Range>)>,
    ) -> Result<Option<TypesDependency>, AllocError>
        ensures { IfOk result
            (λ t. t ≡ by_resolver (importing U.meaning R.meaning self.now) (Ok found)) }
    {
        match found {
            None => Ok(None),
            Some((specifier, range)) => Ok(Some(self.types_at(specifier, range)?)),
        }
    }

    // The module's specifier as a text, and the range at its beginning.
    fn own_place(&self) -> Result<(Text, Range), AllocError>
        ensures { IfOk result
            (λ o. o ≡ (serialize self.now.specifier.now, beginning self.now.specifier.now)) }
    {
        let own = Text::from_str(self.targets.alloc, self.specifier.as_str())?;
        let range = beginning_of(self.specifier)?;
        Ok((own, range))
    }

    fn resolver_error(&self, error: ResolveError) -> Result<Boxed<ResolutionError>, AllocError>
        ensures { IfOk result
            (λ e. e
            ≡ ResolverError error (serialize self.now.specifier.now)
            (beginning self.now.specifier.now)) }
    {
        match self.own_place() {
            Ok((specifier, range)) => {
                let error = ResolutionError::ResolverError {
                    error,
                    specifier,
                    range,
                };
                Ok(Boxed::new(self.targets.alloc, error)?)
            }
            Err(fault) => {
                drop(error);
                Err(fault)
            }
        }
    }

    // The types of which the resolver gives an error.
    fn types_failed(&self, error: ResolveError) -> Result<Option<TypesDependency>, AllocError>
        ensures { IfOk result
            (λ t. t ≡ by_resolver (importing U.meaning R.meaning self.now) (Err error)) }
    {
        let error = self.resolver_error(error)?;
        let own = Text::from_str(self.targets.alloc, self.specifier.as_str())?;
        Ok(Some(TypesDependency {
            specifier: own,
            dependency: Resolution::Err(error),
        }))
    }

    fn types_by_resolver(&self) -> Result<Option<TypesDependency>, AllocError>
        ensures { is_told_importer R.is_told self.now ≡ true
            → IfOk result
            (λ t. t
            ≡ by_resolver (importing U.meaning R.meaning self.now)
            ((importing U.meaning R.meaning self.now).resolving.resolver.types_of
            self.now.specifier.now)) }
    {
        match self.targets.resolver {
            None => Ok(None),
            Some(resolver) => match resolver.resolve_types(self.targets.alloc, self.specifier) {
                Ok(found) => self.types_found(found),
                Err(Refusal::Memory) => Err(AllocError),
                Err(Refusal::Is(error)) => self.types_failed(error),
            },
        }
    }

    /// Where the types of the module stand, which came with this header `x-typescript-types`.
    pub fn types_dependency(
        &self,
        info: &ModuleInfo,
        header: Option<&str>,
    ) -> Result<Option<TypesDependency>, AllocError>
        ensures { is_told_importer R.is_told self.now ≡ true
            → IfOk result (λ t. t
            ≡ types_dependency_of (importing U.meaning R.meaning self.now) info.now
            (option_copied header.entry)) }
    {
        if self.is_wasm() || !self.with_types {
            return Ok(None);
        }
        if let Some(own) = self.self_types(info)? {
            return Ok(Some(own));
        }
        let is_untyped = !self.media.is_typed();
        if is_untyped {
            if let Some(found) = self.first_reference(info.ts_references.as_slice())? {
                return Ok(Some(found));
            }
        }
        if let Some(found) = self.types_by_header(header)? {
            return Ok(Some(found));
        }
        if is_untyped {
            self.types_by_resolver()
        } else {
            Ok(None)
        }
    }
}
