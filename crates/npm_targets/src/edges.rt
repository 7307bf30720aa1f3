// Dependencies whose edges lead to npm, resolved again in place.
ghost use Rattle.std.specs.Prelude.{◌≡◌, ◌++◌, None, true, IfOk, OnOk, option_copied, option_map};
ghost use Rattle.spec_base.specs.Position.{is_types};
ghost use Rattle.graph_dependencies.specs.Assets.{source_phase_of};
ghost use Rattle.import_records.specs.Target.{is_told_resolver};
ghost use Rattle.graph_core.specs.Edges.{edge_of};
ghost use Rattle.npm_targets.specs.Edges.{all_have_asset_type, again_context, is_npm, loads_again, npm_range, pointed, range_again, repointed, repointing, target_again};
ghost use Rattle.npm_targets.specs.Graphs.{KeepsOutset};

use crate::repointing::Repointing;
use graph_core::{Load, LoadContext};
use graph_dependencies::Dependency;
use graph_errors::Resolution;
use source_io::{JsrUrlProvider, Resolver};
use spec_base::{Boxed, ModuleSpecifier, Range, ResolutionKind, Text};
use std::alloc::{AllocError, Global};

/// Whether a specifier is of a package of npm.
#[tactic(auto, unfolding(spec_base::specs::Specifier::specifier_text))]
pub(crate) fn is_npm(specifier: &ModuleSpecifier) -> bool
    ensures { result ≡ is_npm specifier.now }
{
    specifier.as_str().starts_with("npm:")
}

/// The range of an edge that leads to npm.
pub(crate) fn npm_range(resolution: &Resolution) -> Option<&Range>
    ensures { option_copied result ≡ npm_range resolution.now }
{
    match resolution {
        Resolution::None => None,
        Resolution::Ok(resolved) => {
            let resolved = resolved.get();
            if is_npm(&resolved.specifier) {
                Some(&resolved.range)
            } else {
                None
            }
        }
        Resolution::Err(_) => None,
    }
}

/// The range in which a dependency is resolved again, where it is: for code that of its code, and for types that of its
/// type or else of its code, each where that edge leads to npm.
pub(crate) fn range_again(kind: ResolutionKind, dependency: &Dependency) -> Option<&Range>
    ensures { option_copied result ≡ range_again kind dependency.now }
{
    match kind {
        ResolutionKind::Execution => npm_range(&dependency.maybe_code),
        ResolutionKind::Types => match npm_range(&dependency.maybe_type) {
            Some(range) => Some(range),
            None => npm_range(&dependency.maybe_code),
        },
    }
}

// The code of a dependency, or its type, leads elsewhere.
fn point(kind: ResolutionKind, dependency: &mut Dependency, target: Resolution)
    ensures { dependency.new ≡ pointed kind dependency.old target }
{
    match kind {
        ResolutionKind::Execution => dependency.maybe_code = target,
        ResolutionKind::Types => dependency.maybe_type = target,
    }
}

// The attribute of a dependency, with the range of an edge.
fn attribute_at(
    alloc: Global,
    attribute: &Option<Text>,
    range: &Range,
) -> Result<Option<Boxed<(Text, Range)>>, AllocError>
    ensures { IfOk result (λ at. at ≡ option_map (λ t. (t, range.now)) attribute.now) }
{
    match attribute {
        None => Ok(None),
        Some(text) => {
            let text = text.try_clone()?;
            let range = range.try_clone()?;
            let attribute = Boxed::new(alloc, (text, range))?;
            Ok(Some(attribute))
        }
    }
}

// A copy of the range of the first import in the source phase.
fn source_phase_of(
    alloc: Global,
    dependency: &Dependency,
) -> Result<Option<Boxed<Range>>, AllocError>
    ensures { IfOk result (λ range. range ≡ source_phase_of dependency.now) }
{
    match dependency.source_phase() {
        None => Ok(None),
        Some(range) => {
            let range = Boxed::new(alloc, range.try_clone()?)?;
            Ok(Some(range))
        }
    }
}

// Whether each import has an asset's type; the source phase alone doesn't count.
fn has_asset_types(dependency: &Dependency) -> bool
    ensures { result ≡ all_have_asset_type dependency.now }
{
    dependency
        .imports
        .as_slice()
        .iter()
        .all(|import| import.attributes.has_asset())
}

// The context in which the target of a dependency is loaded.
fn again_context(
    alloc: Global,
    in_dynamic_phase: bool,
    dependency: &Dependency,
    range: &Range,
) -> Result<LoadContext, AllocError>
    ensures { IfOk result
        (λ c. c ≡ again_context in_dynamic_phase dependency.now range.now) }
{
    let attribute = attribute_at(alloc, &dependency.maybe_attribute_type, range)?;
    let source_phase = source_phase_of(alloc, dependency)?;
    let range = range.try_clone()?;
    Ok(LoadContext {
        attribute,
        asset: has_asset_types(dependency),
        source_phase,
        range: Some(range),
        in_dynamic_phase,
        is_dynamic: dependency.is_dynamic,
        is_root: false,
        hops: 0,
        package: None,
    })
}

impl<U: JsrUrlProvider, R: Resolver> Repointing<'_, U, R> {
    // Where the text of a dependency leads from a range; a types text of its own names its types.
    fn target_again(
        &self,
        text: &str,
        dependency: &Dependency,
        range: Range,
    ) -> Result<Resolution, AllocError>
        ensures { is_told_resolver R.is_told self.now.targets.resolver ≡ true
            → IfOk result
            (λ r. r
            ≡ target_again (repointing U.meaning R.meaning self.now) text.now dependency.now
            range) }
    {
        match self.resolution_kind {
            ResolutionKind::Execution => self
                .targets
                .target(text, range, ResolutionKind::Execution, None),
            ResolutionKind::Types => match &dependency.maybe_deno_types_specifier {
                Some(own) => self
                    .targets
                    .target(own.as_str(), range, ResolutionKind::Types, None),
                None => self
                    .targets
                    .target(text, range, ResolutionKind::Types, None),
            },
        }
    }

    // Adds the load of where a dependency leads now, if it leads anywhere.
    #[tactic(auto, using(crate::proofs::OutsetLemmas::pushed))]
    fn push_again(
        &self,
        dependency: &Dependency,
        target: &Resolution,
        loads: &mut Vec<Load>,
    ) -> Result<(), AllocError>
        ensures loads { OnOk result
            (loads.new.items
            ≡ loads.old.items ++ edge_of
            (again_context self.now.in_dynamic_phase dependency.now)
            (is_types self.now.resolution_kind) target.now) }
        ensures outset { OnOk result (KeepsOutset loads.old.items loads.new.items) }
    {
        if let Resolution::Ok(target) = target {
            let target = target.get();
            let alloc = self.targets.alloc;
            let context = again_context(alloc, self.in_dynamic_phase, dependency, &target.range)?;
            let specifier = target.specifier.clone()?;
            loads.push(Load {
                specifier,
                context,
                is_type: self.resolution_kind.is_types(),
            })?;
        }
        Ok(())
    }

    /// Resolves a dependency again where its edge leads to npm, and adds the load of where it leads then, if it leads
    /// anywhere. The only refusal is want of memory.
    pub(crate) fn repoint_dependency(
        &self,
        text: &str,
        dependency: &mut Dependency,
        loads: &mut Vec<Load>,
    ) -> Result<(), AllocError>
        ensures dependency { is_told_resolver R.is_told self.now.targets.resolver ≡ true
            → OnOk result
            (dependency.new
            ≡ repointed (repointing U.meaning R.meaning self.now) text.now dependency.old) }
        ensures loads { is_told_resolver R.is_told self.now.targets.resolver ≡ true
            → OnOk result
            (loads.new.items
            ≡ loads.old.items ++ loads_again (repointing U.meaning R.meaning self.now)
            text.now dependency.old) }
        ensures outset { OnOk result (KeepsOutset loads.old.items loads.new.items) }
    {
        let range = match range_again(self.resolution_kind, dependency) {
            Some(range) => range.try_clone()?,
            None => return Ok(()),
        };
        let target = self.target_again(text, dependency, range)?;
        self.push_again(dependency, &target, loads)?;
        point(self.resolution_kind, dependency, target);
        Ok(())
    }
}
