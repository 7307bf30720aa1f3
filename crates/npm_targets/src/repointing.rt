// A graph whose edges and roots that lead to npm are resolved again.
ghost use Rattle.std.specs.Prelude.{◌≡◌, true, IfOk, OnOk};
ghost use Rattle.import_records.specs.Target.{is_told_resolver};
ghost use Rattle.import_records.specs.TypesDependency.{beginning};
ghost use Rattle.npm_targets.specs.Edges.{repointing};
ghost use Rattle.npm_targets.specs.Graphs.{IsRepointed, repointed_graph, repointed_loads};

use crate::redirects::remove_redirects;
use crate::roots::beginning_of;
use graph_core::{Load, ModuleGraph};
use import_records::Targets;
use source_io::{JsrUrlProvider, Resolver};
use spec_base::{ModuleSpecifier, ResolutionKind};
use std::alloc::AllocError;

/// How edges and roots that lead to `npm:` are resolved again.
#[derive(Drop)]
pub struct Repointing<'a, U: JsrUrlProvider, R: Resolver> {
    /// What resolves their texts.
    pub targets: Targets<'a, U, R>,
    /// For code or for types.
    pub resolution_kind: ResolutionKind,
    /// Whether what they lead to is loaded in the dynamic phase.
    pub in_dynamic_phase: bool,
}

impl<U: JsrUrlProvider, R: Resolver> Repointing<'_, U, R> {
    /// Resolves each edge and each root of a graph again that leads to `npm:`, the roots from the beginning of a folder's
    /// specifier, and hands out the loads of where they lead then: of the modules' edges in the order of the modules' texts,
    /// of those of configured imports, and of the roots. A root that leads somewhere changes places with the last one and
    /// goes, and where it leads stands last. The modules of npm go out of the graph, and the redirects to `npm:`; all else
    /// stays. The only refusal is want of memory, after which the graph may lack slots.
    pub fn repoint(
        &self,
        graph: &mut ModuleGraph,
        npm_root_dir: &ModuleSpecifier,
    ) -> Result<Vec<Load>, AllocError>
        ensures graph { is_told_resolver R.is_told self.now.targets.resolver ≡ true
            → OnOk result
            (graph.new
            ≡ repointed_graph (repointing U.meaning R.meaning self.now)
            (beginning npm_root_dir.now) graph.old) }
        ensures loads { is_told_resolver R.is_told self.now.targets.resolver ≡ true
            → IfOk result
            (λ loads. loads.items
            ≡ repointed_loads (repointing U.meaning R.meaning self.now)
            (beginning npm_root_dir.now) graph.old) }
        ensures rest { IfOk result (λ loads. IsRepointed graph.old graph.new loads.items) }
    {
        let mut loads = Vec::new(self.targets.alloc);
        self.repoint_slots(graph, &mut loads)?;
        self.repoint_imports(&mut graph.imports, &mut loads)?;
        let range = beginning_of(npm_root_dir)?;
        self.repoint_roots(&mut graph.roots, &range, &mut loads)?;
        remove_redirects(self.targets.alloc, &mut graph.redirects);
        Ok(loads)
    }
}
