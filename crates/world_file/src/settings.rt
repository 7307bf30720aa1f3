// How a graph is to be built, and what a world file says of it.
ghost use Rattle.std.specs.Prelude.{◌≡◌, IfOk};
ghost use Rattle.json_documents.specs.Documents as documents;
ghost use Rattle.spec_base.specs.Refusal.{Reads};
ghost use Rattle.world_file.specs.WorldSettings.{settings_of};

use crate::world_sums::WorldSums;
use json_documents::Json;
use json_forms::{Misfit, or_default};
use spec_base::Refusal;
use std::alloc::{AllocError, Global};

/// How a graph is to be built.
#[derive(Clone, Debug, PartialEq, Eq, Drop)]
pub struct Settings {
    /// Whether there is a locker, which begins with the sums that the world knows.
    pub locker: bool,
    /// Whether the build begins in the dynamic phase, as that of a dynamic import does.
    pub is_dynamic: bool,
    /// Whether dynamic imports are left out.
    pub skip_dynamic_deps: bool,
    /// Whether the attribute type `bytes` is allowed.
    pub unstable_bytes_imports: bool,
    /// Whether the attribute type `css` is allowed.
    pub unstable_css_imports: bool,
    /// Whether the attribute types `yaml`, `toml`, `json5` and `jsonc` are allowed.
    pub unstable_config_imports: bool,
    /// Whether versions of packages whose files a cache holds are preferred to others.
    pub prefer_cached_jsr_versions: bool,
}

impl Settings {
    /// A copy. The only refusal is want of memory.
    pub fn try_clone(&self) -> Result<Settings, AllocError>
        ensures { IfOk result (λ copy. copy ≡ self.now) }
    {
        self.clone()
    }
}

/// What a world file says of how its graph is to be built. There is a locker where its sums are told; one that knows no sum
/// is one.
pub fn read_settings(
    alloc: Global,
    value: &Json<'_, '_>,
    sums: &WorldSums,
) -> Result<Settings, Refusal<Misfit>>
    ensures { Reads result (settings_of sums.now (documents.view value.now)) }
{
    let is_dynamic = or_default(alloc, value, "is_dynamic", false)?;
    let skip_dynamic_deps = or_default(alloc, value, "skip_dynamic_deps", false)?;
    let unstable_bytes_imports = or_default(alloc, value, "bytes", false)?;
    let unstable_css_imports = or_default(alloc, value, "css", false)?;
    let unstable_config_imports = or_default(alloc, value, "config", false)?;
    let prefer_cached_jsr_versions = or_default(alloc, value, "prefer_cached_jsr", false)?;
    Ok(Settings {
        locker: sums.locker.is_some(),
        is_dynamic,
        skip_dynamic_deps,
        unstable_bytes_imports,
        unstable_css_imports,
        unstable_config_imports,
        prefer_cached_jsr_versions,
    })
}
