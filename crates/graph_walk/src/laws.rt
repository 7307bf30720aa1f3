// Laws of pruning, each the contract of a function that does nothing.
ghost use Rattle.std.specs.Prelude.{◌≡◌};
ghost use Rattle.graph_dependencies.specs.declared.graph_kind.GraphKind.{GraphKind};
ghost use Rattle.graph_core.specs.declared.graph.ModuleGraph.{ModuleGraph};
ghost use Rattle.graph_walk.specs.Prune.{LosesTypes, Prunes};
ghost use Rattle.graph_walk.specs.Prunable.{of_kind, IsTidy, LeavesWalked};

/// Where no specifier of a graph has both a slot and a redirect, no slot is pending and the configured imports
/// lead to types alone, a graph that loses its types is left exactly the slots and redirects of the walk over
/// code from its roots, along dynamic imports too, each slot freed of its types.
pub fn pruning_leaves_the_code_walk()
    ensures { (g u : ModuleGraph) → IsTidy g → LosesTypes g u → LeavesWalked g u }
{}

/// A graph that was pruned stays as it is when it is pruned again.
pub fn pruning_twice_is_once()
    ensures { (g u v : ModuleGraph) → Prunes g u → Prunes u v → v ≡ u }
{}

/// A graph that has lost its types loses nothing more, and would stay as it is in a pruning were it said to be of
/// any kind: each of its slots and redirects is collected again.
pub fn collecting_again_changes_nothing()
    ensures itself { (g u : ModuleGraph) → LosesTypes g u → LosesTypes u u }
    ensures of_any_kind { (kind : GraphKind) (g u v : ModuleGraph) → LosesTypes g u
        → Prunes (of_kind kind u) v
        → v ≡ u }
{}
