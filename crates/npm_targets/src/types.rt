// Where the types of modules stand, resolved again in place where that leads to npm.
ghost use Rattle.std.specs.Prelude.{◌≡◌, ◌++◌, [], true, IfOk, OnOk, option_copied, option_map};
ghost use Rattle.spec_base.specs.Options.{by_option};
ghost use Rattle.import_records.specs.Target.{is_told_resolver};
ghost use Rattle.graph_core.specs.Edges.{edge_of, plain_context};
ghost use Rattle.npm_targets.specs.Edges.{repointed_types, repointing, types_loads_again, types_range_again};
ghost use Rattle.npm_targets.specs.Graphs.{KeepsOutset};

use crate::edges::npm_range;
use crate::repointing::Repointing;
use graph_core::{Load, LoadContext};
use graph_dependencies::TypesDependency;
use graph_errors::Resolution;
use source_io::{JsrUrlProvider, Resolver};
use spec_base::{Range, ResolutionKind};
use std::alloc::AllocError;

/// The range in which the types of a module are resolved again, where they are: for types that of their edge, where it
/// leads to npm.
pub(crate) fn types_range_again(kind: ResolutionKind, types: &TypesDependency) -> Option<&Range>
    ensures { option_copied result ≡ types_range_again kind types.now }
{
    match kind {
        ResolutionKind::Execution => None,
        ResolutionKind::Types => npm_range(&types.dependency),
    }
}

// The context in which the types of a module are loaded.
fn types_context(in_dynamic_phase: bool, range: &Range) -> Result<LoadContext, AllocError>
    ensures { IfOk result
        (λ c. c
        ≡ record (plain_context range.now) { in_dynamic_phase = in_dynamic_phase }) }
{
    let range = range.try_clone()?;
    Ok(LoadContext {
        attribute: None,
        asset: false,
        source_phase: None,
        range: Some(range),
        in_dynamic_phase,
        is_dynamic: false,
        is_root: false,
        hops: 0,
        package: None,
    })
}

impl<U: JsrUrlProvider, R: Resolver> Repointing<'_, U, R> {
    // Adds the load of where types lead now, if they lead anywhere.
    #[tactic(auto, using(crate::proofs::OutsetLemmas::pushed))]
    fn push_types(&self, target: &Resolution, loads: &mut Vec<Load>) -> Result<(), AllocError>
        ensures loads { OnOk result
            (loads.new.items
            ≡ loads.old.items ++ edge_of
            (λ at. record (plain_context at) { in_dynamic_phase = self.now.in_dynamic_phase })
            true target.now) }
        ensures outset { OnOk result (KeepsOutset loads.old.items loads.new.items) }
    {
        if let Resolution::Ok(target) = target {
            let target = target.get();
            let context = types_context(self.in_dynamic_phase, &target.range)?;
            let specifier = target.specifier.clone()?;
            loads.push(Load {
                specifier,
                context,
                is_type: true,
            })?;
        }
        Ok(())
    }

    fn repoint_named_types(
        &self,
        types: &mut TypesDependency,
        loads: &mut Vec<Load>,
    ) -> Result<(), AllocError>
        ensures types { is_told_resolver R.is_told self.now.targets.resolver ≡ true
            → OnOk result
            (types.new
            ≡ repointed_types (repointing U.meaning R.meaning self.now) types.old) }
        ensures loads { is_told_resolver R.is_told self.now.targets.resolver ≡ true
            → OnOk result
            (loads.new.items
            ≡ loads.old.items ++ types_loads_again (repointing U.meaning R.meaning self.now)
            types.old) }
        ensures outset { OnOk result (KeepsOutset loads.old.items loads.new.items) }
    {
        let range = match types_range_again(self.resolution_kind, types) {
            Some(range) => range.try_clone()?,
            None => return Ok(()),
        };
        let text = types.specifier.as_str();
        let target = self
            .targets
            .target(text, range, ResolutionKind::Types, None)?;
        self.push_types(&target, loads)?;
        types.dependency = target;
        Ok(())
    }

    /// Resolves again where the types of a module stand, if that leads to npm and types are resolved again, and adds the
    /// load of where they stand then, if they stand anywhere. The only refusal is want of memory.
    pub(crate) fn repoint_types(
        &self,
        types: &mut Option<TypesDependency>,
        loads: &mut Vec<Load>,
    ) -> Result<(), AllocError>
        ensures types { is_told_resolver R.is_told self.now.targets.resolver ≡ true
            → OnOk result
            (types.new
            ≡ option_map (repointed_types (repointing U.meaning R.meaning self.now)) types.old) }
        ensures loads { is_told_resolver R.is_told self.now.targets.resolver ≡ true
            → OnOk result
            (loads.new.items
            ≡ loads.old.items ++ by_option types.old []
            (types_loads_again (repointing U.meaning R.meaning self.now))) }
        ensures outset { OnOk result (KeepsOutset loads.old.items loads.new.items) }
    {
        if let Some(types) = types {
            self.repoint_named_types(types, loads)?;
        }
        Ok(())
    }
}
