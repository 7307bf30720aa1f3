// What a build over the empty graph is given beside a loader.
use build_options::BuildOptions;
use graph_core::{GraphKind, ReferrerImports};
use slot_making::Services;
use spec_base::ModuleSpecifier;

/// What a build over the empty graph is given beside a loader.
#[derive(Drop)]
pub struct BuildInput<'a, S: Services> {
    /// The kind of the graph.
    pub kind: GraphKind,
    pub roots: Vec<ModuleSpecifier>,
    /// The imports that are configured.
    pub imports: Vec<ReferrerImports>,
    pub options: BuildOptions<'a, S>,
}
