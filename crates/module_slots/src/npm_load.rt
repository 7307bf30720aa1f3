// An `npm:` specifier that is to be settled.
use crate::load::LoadContext;
use semver_npm::NpmPackageReqReference;
use spec_base::ModuleSpecifier;

/// An `npm:` specifier that waits for the end.
pub struct NpmLoad {
    pub specifier: ModuleSpecifier,
    /// What it names.
    pub reference: NpmPackageReqReference,
    pub context: LoadContext,
}

// By a call, so that it isn't taken apart at each way out of what owns one.
impl Drop for NpmLoad {
    fn drop(self) {
        let NpmLoad {
            specifier: _,
            reference: _,
            context: _,
        } = self;
    }
}
