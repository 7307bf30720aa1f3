// Dependencies whose texts are resolved again.
ghost use Rattle.std.specs.Prelude.{◌≡◌, true, IfOk, IfSome};
ghost use Rattle.std.specs.Option.{unwrap_or};
ghost use Rattle.spec_base.specs.declared.position.ResolutionKind.TheVariants.{Types};
ghost use Rattle.import_records.specs.Cut.{again, renewed, renewed_types};
ghost use Rattle.import_records.specs.Target.{resolving, is_told_resolver, told_resolving};

use crate::target::Targets;
use graph_dependencies::{Dependency, TypesDependency};
use graph_errors::Resolution;
use source_io::{JsrUrlProvider, Resolver};
use spec_base::{ResolutionKind, Text};
use std::alloc::{AllocError, Global};

fn clone_text(text: &Option<Text>) -> Result<Option<Text>, AllocError>
    ensures { IfOk result (λ t. t ≡ text.now) }
{
    match text {
        None => Ok(None),
        Some(text) => Ok(Some(text.try_clone()?)),
    }
}

impl<U: JsrUrlProvider, R: Resolver> Targets<'_, U, R> {
    // A resolution, where it was made, once more in its own range.
    fn again(
        &self,
        text: &str,
        kind: ResolutionKind,
        resolution: &Resolution,
    ) -> Result<Resolution, AllocError>
        ensures { is_told_resolver R.is_told self.now.resolver ≡ true
            → IfOk result
            (λ r. r
            ≡ again (resolving U.meaning R.meaning self.now) text.now kind resolution.now) }
    {
        match resolution {
            Resolution::None => Ok(Resolution::None),
            Resolution::Ok(resolved) => {
                let range = resolved.get().range.try_clone()?;
                self.target(text, range, kind, None)
            }
            Resolution::Err(error) => {
                let range = error.get().range().try_clone()?;
                self.target(text, range, kind, None)
            }
        }
    }

    // The type of the dependency of a text once more, by its types text where it has one.
    fn type_again(&self, text: &str, dependency: &Dependency) -> Result<Resolution, AllocError>
        ensures { is_told_resolver R.is_told self.now.resolver ≡ true
            → IfOk result (λ r. r
            ≡ again (resolving U.meaning R.meaning self.now)
            (unwrap_or dependency.now.maybe_deno_types_specifier text.now) Types
            dependency.now.maybe_type) }
    {
        match &dependency.maybe_deno_types_specifier {
            Some(own) => self.again(own.as_str(), ResolutionKind::Types, &dependency.maybe_type),
            None => self.again(text, ResolutionKind::Types, &dependency.maybe_type),
        }
    }

    fn renewed(&self, text: &str, dependency: &Dependency) -> Result<Dependency, AllocError>
        ensures { is_told_resolver R.is_told self.now.resolver ≡ true
            → IfOk result
            (λ d.
            d ≡ renewed (resolving U.meaning R.meaning self.now) text.now dependency.now) }
    {
        let maybe_code = self.again(text, ResolutionKind::Execution, &dependency.maybe_code)?;
        let maybe_type = self.type_again(text, dependency)?;
        let maybe_deno_types_specifier = clone_text(&dependency.maybe_deno_types_specifier)?;
        let maybe_attribute_type = clone_text(&dependency.maybe_attribute_type)?;
        let imports = dependency.imports.try_clone()?;
        Ok(Dependency {
            maybe_code,
            maybe_type,
            maybe_deno_types_specifier,
            is_dynamic: dependency.is_dynamic,
            maybe_attribute_type,
            imports,
        })
    }

    fn renewed_types(&self, types: &TypesDependency) -> Result<TypesDependency, AllocError>
        ensures { is_told_resolver R.is_told self.now.resolver ≡ true
            → IfOk result
            (λ t. t ≡ renewed_types (resolving U.meaning R.meaning self.now) types.now) }
    {
        let specifier = types.specifier.try_clone()?;
        let text = types.specifier.as_str();
        let dependency = self.again(text, ResolutionKind::Types, &types.dependency)?;
        Ok(TypesDependency {
            specifier,
            dependency,
        })
    }
}

/// The dependency of a text by another resolver: each of its resolutions is made again in its own range,
/// the type by the text of its own where it has one; what wasn't resolved stays so, and so does all else.
/// The only refusal is want of memory.
#[tactic(auto, using(crate::proofs::ToldLemmas::when_told))]
pub fn with_new_resolver<U: JsrUrlProvider, R: Resolver>(
    alloc: Global,
    specifier: &str,
    dependency: &Dependency,
    jsr_url_provider: &U,
    maybe_resolver: Option<&R>,
) -> Result<Dependency, AllocError>
    ensures { IfSome
        (told_resolving (U.meaning jsr_url_provider.now).nv_of R.is_told R.meaning
        maybe_resolver.entry)
        (λ m. IfOk result (λ d. d ≡ renewed m specifier.now dependency.now)) }
{
    let targets = Targets {
        alloc,
        urls: jsr_url_provider,
        resolver: maybe_resolver,
    };
    targets.renewed(specifier, dependency)
}

/// The types dependency by another resolver: where its text was resolved, it is resolved again in its own
/// range. The only refusal is want of memory.
#[tactic(auto, using(crate::proofs::ToldLemmas::when_told))]
pub fn types_with_new_resolver<U: JsrUrlProvider, R: Resolver>(
    alloc: Global,
    types: &TypesDependency,
    jsr_url_provider: &U,
    maybe_resolver: Option<&R>,
) -> Result<TypesDependency, AllocError>
    ensures { IfSome
        (told_resolving (U.meaning jsr_url_provider.now).nv_of R.is_told R.meaning
        maybe_resolver.entry) (λ m. IfOk result (λ t. t ≡ renewed_types m types.now)) }
{
    let targets = Targets {
        alloc,
        urls: jsr_url_provider,
        resolver: maybe_resolver,
    };
    targets.renewed_types(types)
}
