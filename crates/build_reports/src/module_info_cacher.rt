// What keeps the infos of modules that were read.
use media_types::MediaType;
use module_info::ModuleInfo;
use spec_base::ModuleSpecifier;

/// What may keep the infos of modules that were read, so that they needn't be read again.
pub trait ModuleInfoCacher {
    /// Hears the info of the module at a specifier, with its media type and the bytes of its source.
    fn cache_module_info(
        &self,
        specifier: &ModuleSpecifier,
        media_type: MediaType,
        source: &[u8],
        module_info: &ModuleInfo,
    );
}

/// A cacher that keeps nothing.
#[derive(Clone, Copy, Debug)]
pub struct NullModuleInfoCacher;

impl ModuleInfoCacher for NullModuleInfoCacher {
    fn cache_module_info(
        &self,
        _specifier: &ModuleSpecifier,
        _media_type: MediaType,
        _source: &[u8],
        _module_info: &ModuleInfo,
    ) {}
}
