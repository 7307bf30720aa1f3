// Contents that are asked for when all else is done.
use graph_core::LoadContext;
use source_io::LoaderChecksum;
use spec_base::ModuleSpecifier;

/// A module that was made by its info alone, and whose content is still to come.
pub struct LaterContent {
    pub specifier: ModuleSpecifier,
    pub context: LoadContext,
    /// The sum that goes with its question.
    pub checksum: Option<LoaderChecksum>,
}

// By a call, so that it isn't taken apart at each way out of what owns one.
impl Drop for LaterContent {
    fn drop(self) {
        let LaterContent {
            specifier: _,
            context: _,
            checksum: _,
        } = self;
    }
}
