// The sums of the files of a version.
ghost use Rattle.std.specs.Prelude.{◌≡◌, IfOk};
ghost use Rattle.registry_files.specs.Sums.{manifest_sum, missing_sum, sum_in_entry};

use crate::version_file::VersionFile;
use pkg_versions::JsrPackageVersionManifestEntry;
use source_sums::LoaderChecksum;
use std::alloc::{AllocError, Global};

// The sum that a copy of a text is, whatever its form.
fn sum_of_text(alloc: Global, text: &str) -> Result<LoaderChecksum, AllocError>
    ensures { IfOk result (λ sum. sum ≡ text.now) }
{
    let text = String::from_str(alloc, text)?;
    Ok(LoaderChecksum::new(text))
}

// The sum of a file that a version file has.
fn sum_in_entry(
    alloc: Global,
    entry: &JsrPackageVersionManifestEntry,
) -> Result<Option<LoaderChecksum>, AllocError>
    ensures { IfOk result (λ sum. sum ≡ sum_in_entry entry.now) }
{
    match entry.checksum.as_str().strip_prefix("sha256-") {
        None => Ok(None),
        Some(text) => Ok(Some(sum_of_text(alloc, text)?)),
    }
}

impl VersionFile {
    /// The sum that a file of the version, named by its sub path, is asked under: what stands behind `sha256-` in the version
    /// file, or `package-manifest-missing-checksum`, which no file has, where that says nothing of it. None where what it says
    /// has another form. The only refusal is want of memory.
    pub fn manifest_sum(
        &self,
        alloc: Global,
        path: &str,
    ) -> Result<Option<LoaderChecksum>, AllocError>
        ensures { IfOk result (λ sum. sum ≡ manifest_sum self.now path.now) }
    {
        match self.manifest.get(path) {
            None => Ok(Some(sum_of_text(alloc, "package-manifest-missing-checksum")?)),
            Some(entry) => sum_in_entry(alloc, entry),
        }
    }
}
