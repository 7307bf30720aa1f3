// Imports that are configured beside those that modules have.
ghost use Rattle.std.specs.Prelude.{◌≡◌, true, [], fold, bytes_eq, IfOk, OnOk, IfSome};
ghost use Rattle.import_records.specs.Imports.{imported_types, graph_import};
ghost use Rattle.import_records.specs.Target.{resolving, is_told_resolver, told_resolving};
ghost use Rattle.indexmap.specs.IndexMap.{insert_entry};

use crate::target::Targets;
use crate::types_dependency::beginning_of;
use graph_dependencies::{Dependency, GraphImport};
use graph_errors::Resolution;
use source_io::{JsrUrlProvider, Resolver};
use spec_base::{Items, ModuleSpecifier, ResolutionKind, Text, TextMap};
use std::alloc::{AllocError, Global};

impl<U: JsrUrlProvider, R: Resolver> Targets<'_, U, R> {
    // What a configured text makes: its types alone, resolved at the beginning of the referrer.
    fn imported_types(
        &self,
        referrer: &ModuleSpecifier,
        text: &str,
    ) -> Result<Dependency, AllocError>
        ensures { is_told_resolver R.is_told self.now.resolver ≡ true
            → IfOk result
            (λ d. d
            ≡ imported_types (resolving U.meaning R.meaning self.now) referrer.now
            text.now) }
    {
        let range = beginning_of(referrer)?;
        let maybe_type = self.target(text, range, ResolutionKind::Types, None)?;
        Ok(Dependency {
            maybe_code: Resolution::None,
            maybe_type,
            maybe_deno_types_specifier: None,
            is_dynamic: false,
            maybe_attribute_type: None,
            imports: Items::new(self.alloc),
        })
    }

    fn all_imported(
        &self,
        referrer: &ModuleSpecifier,
        imports: &[Text],
    ) -> Result<TextMap<Dependency>, AllocError>
        ensures { is_told_resolver R.is_told self.now.resolver ≡ true
            → IfOk result (λ m. m
            ≡ fold (λ es text. insert_entry bytes_eq es text
            (imported_types (resolving U.meaning R.meaning self.now) referrer.now text)) []
            imports.now) }
    {
        let mut dependencies = TextMap::new(self.alloc);
        for text in imports {
            let name = text.try_clone()?;
            let dependency = self.imported_types(referrer, text.as_str())?;
            dependencies.insert(name.into_string(), dependency)?;
        }
        Ok(dependencies)
    }

    // Each text once, in order.
    fn graph_import(
        &self,
        referrer: &ModuleSpecifier,
        imports: &[Text],
    ) -> Result<GraphImport, AllocError>
        ensures { is_told_resolver R.is_told self.now.resolver ≡ true
            → IfOk result
            (λ i. i
            ≡ graph_import (resolving U.meaning R.meaning self.now) referrer.now
            imports.now) }
    {
        let dependencies = self.all_imported(referrer, imports)?;
        Ok(GraphImport { dependencies })
    }
}

/// The imports of a referrer: each text once, in order, resolved for its types at the beginning of the
/// referrer, without code and without imports of a module. The only refusal is want of memory.
#[tactic(auto, using(crate::proofs::ToldLemmas::when_told))]
pub fn graph_import<U: JsrUrlProvider, R: Resolver>(
    alloc: Global,
    referrer: &ModuleSpecifier,
    imports: &[Text],
    jsr_url_provider: &U,
    maybe_resolver: Option<&R>,
) -> Result<GraphImport, AllocError>
    ensures { IfSome
        (told_resolving (U.meaning jsr_url_provider.now).nv_of R.is_told R.meaning
        maybe_resolver.entry)
        (λ m. IfOk result (λ i. i ≡ graph_import m referrer.now imports.now)) }
{
    let targets = Targets {
        alloc,
        urls: jsr_url_provider,
        resolver: maybe_resolver,
    };
    targets.graph_import(referrer, imports)
}
