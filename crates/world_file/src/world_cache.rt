// The copies in a cache that a world file tells.
ghost use Rattle.std.specs.Prelude.{◌≡◌, IfOk};
ghost use Rattle.json_documents.specs.Documents as documents;
ghost use Rattle.spec_base.specs.Refusal.{Reads};
ghost use Rattle.world_file.specs.WorldCache.{copies_of, paths_of};

use json_documents::Json;
use json_forms::{Misfit, keyed_or_empty};
use source_io::CacheInfo;
use spec_base::{Items, ModuleSpecifier, Refusal, Text};
use std::alloc::{AllocError, Global};

/// The paths of copies in a cache, by the specifier of the module.
pub fn read_paths(
    alloc: Global,
    value: &Json<'_, '_>,
) -> Result<Items<(ModuleSpecifier, Text)>, Refusal<Misfit>>
    ensures { Reads result (paths_of (documents.view value.now)) }
{
    keyed_or_empty(alloc, value, "cache_info")
}

/// What a loader knows of the copies with these paths.
pub fn copies(
    alloc: Global,
    paths: Items<(ModuleSpecifier, Text)>,
) -> Result<Items<(ModuleSpecifier, CacheInfo)>, AllocError>
    ensures { IfOk result (λ copies. copies ≡ copies_of paths) }
{
    let mut copies = Items::new(alloc);
    for (specifier, path) in paths.into_vec() {
        copies.push((specifier, CacheInfo { local: Some(path) }))?;
    }
    Ok(copies)
}
