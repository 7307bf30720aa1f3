// Edges and roots of a graph that lead to npm, resolved again by what the options of a build have.
ghost use Rattle.std.specs.Prelude.{◌≡◌, true, IfOk};
ghost use Rattle.import_records.specs.Target.{is_told_resolver};
ghost use Rattle.npm_targets.specs.Graphs.{IsRepointed};
ghost use Rattle.graph_builder.specs.Calls.Over.{entered};
ghost use Rattle.graph_reloads.specs.Packages.{repointed_entry, repointing_by, resolving_by};

use build_options::BuildOptions;
use graph_core::{Load, ModuleGraph};
use import_records::Targets;
use npm_targets::Repointing;
use slot_making::Services;
use spec_base::{ModuleSpecifier, ResolutionKind};
use std::alloc::{AllocError, Global};

/// Resolves the edges and roots of a graph that lead to npm again, removes the modules of npm and the redirects to them, and hands out
/// the loads of where edges and roots lead then. The only refusal is want of memory, after which the graph may lack slots.
pub(crate) fn repoint<S: Services>(
    alloc: Global,
    graph: &mut ModuleGraph,
    npm_root_dir: &ModuleSpecifier,
    resolution_kind: ResolutionKind,
    options: &BuildOptions<'_, S>,
) -> Result<Vec<Load>, AllocError>
    ensures rest { IfOk result (λ loads. IsRepointed graph.old graph.new loads.items) }
    ensures told { is_told_resolver S.Resolve.is_told options.now.resolver ≡ true
        → IfOk result
        (λ loads. entered graph.new loads.items
        ≡ repointed_entry
        (repointing_by
        (resolving_by (S.Urls.meaning options.now.jsr_url_provider.now).nv_of S.Resolve.meaning
        options.now.resolver) resolution_kind options.now.is_dynamic) npm_root_dir.now
        graph.old) }
{
    let repointing = Repointing {
        targets: Targets {
            alloc,
            urls: options.jsr_url_provider,
            resolver: options.resolver,
        },
        resolution_kind,
        in_dynamic_phase: options.is_dynamic,
    };
    let loads = repointing.repoint(graph, npm_root_dir)?;
    Ok(loads)
}
