// Versions whose files a cache holds: a build that prefers these looks for the files of those that fit before it chooses one.
ghost use Rattle.std.specs.Prelude.{◌≡◌, ◌++◌, ◌∷◌, [], IfOk, OnOk, if◌then◌else◌, fold, not};
ghost use Rattle.std.specs.BTreeSet.{insert_key};
ghost use Rattle.std.specs.FinMap as finite;
ghost use Rattle.semver_npm.specs.Versions.{ver_cmp};
ghost use Rattle.graph_turns.specs.Promise.Cached.{has_file, version_named};
ghost use Rattle.graph_turns.specs.Machine.Probing.{cached_in, is_met, probes, to_probe, unprobed, was_found};

use crate::registry::{ProbedVersions, RegistryFile};
use crate::state::State;
use pkg_versions::{JsrPackageInfo, prerelease_fallback_applies, version_matches};
use seen_pending::each_once;
use semver_npm::{PackageName, PackageNv, PackageReq, PlainVersion};
use source_io::{LoadResponse, LoadResult};
use spec_base::Items;
use std::alloc::{AllocError, Global};
use std::collections::BTreeSet;

/// Whether an answer has a file.
pub(crate) fn has_file(answer: &LoadResult) -> bool
    ensures { result ≡ has_file answer.now }
{
    matches!(answer, Ok(Some(LoadResponse::Module { .. })))
}

// A version of a package.
fn version_named(name: &PackageName, version: &PlainVersion) -> Result<PackageNv, AllocError>
    ensures { IfOk result (λ nv. nv ≡ version_named name.now version.now) }
{
    let name = name.try_clone()?;
    let version = version.clone()?;
    Ok(PackageNv { name, version })
}

// Whether the file of a version was found.
fn was_found(
    probed: &ProbedVersions,
    name: &PackageName,
    version: &PlainVersion,
) -> Result<bool, AllocError>
    ensures { IfOk result (λ found. found ≡ was_found probed.now (version_named name.now version.now)) }
{
    let nv = version_named(name, version)?;
    match probed.get(&nv) {
        None => Ok(false),
        Some(found) => Ok(*found),
    }
}

// Adds a version to some, unless its file was looked for.
fn add_unprobed(
    probed: &ProbedVersions,
    name: &PackageName,
    version: &PlainVersion,
    nvs: &mut Vec<PackageNv>,
) -> Result<(), AllocError>
    ensures { let nv = version_named name.now version.now in
        OnOk result (nvs.new.items
        ≡ nvs.old.items ++ (if not (finite.contains_key probed.now nv) then nv ∷ [] else [])) }
{
    let nv = version_named(name, version)?;
    if probed.get(&nv).is_some() {
        drop(nv);
        Ok(())
    } else {
        nvs.push(nv)?;
        Ok(())
    }
}

// The versions that fit, whose files weren't looked for yet.
fn unprobed(
    alloc: Global,
    probed: &ProbedVersions,
    req: &PackageReq,
    info: &JsrPackageInfo,
) -> Result<Vec<PackageNv>, AllocError>
    ensures { IfOk result (λ nvs. nvs.items ≡ unprobed probed.now req.now info.now) }
{
    let all_pre = prerelease_fallback_applies(&req.version_req, info);
    let mut nvs = Vec::new(alloc);
    for (version, entry) in info.versions.as_map().iter() {
        if !entry.yanked && version_matches(&req.version_req, version, all_pre) {
            add_unprobed(probed, &req.name, version, &mut nvs)?;
        }
    }
    Ok(nvs)
}

impl State {
    // Whether a version that the graph has meets a requirement.
    fn is_met(&self, req: &PackageReq, info: &JsrPackageInfo) -> bool
        ensures { result ≡ is_met self.now.graph.packages req.now info.now }
    {
        let all_pre = prerelease_fallback_applies(&req.version_req, info);
        match self.graph.packages.versions_by_name(req.name.as_str()) {
            None => false,
            Some(versions) => versions.iter().any(|nv| version_matches(
                &req.version_req,
                &nv.version,
                all_pre,
            )),
        }
    }

    /// The versions whose files are looked for before one is chosen, each once; none where a version that the graph has meets the
    /// requirement.
    pub(crate) fn to_probe(
        &self,
        alloc: Global,
        req: &PackageReq,
        info: &JsrPackageInfo,
    ) -> Result<Items<PackageNv>, AllocError>
        ensures { IfOk result (λ nvs. nvs ≡ to_probe self.now req.now info.now) }
    {
        if self.flags.prefers_cached_jsr && !self.is_met(req, info) {
            let nvs = unprobed(alloc, &self.probed, req, info)?;
            let once = each_once(alloc, nvs)?;
            Ok(Items::from(once))
        } else {
            Ok(Items::new(alloc))
        }
    }

    /// The versions of a package whose files were found, where the build prefers them.
    pub(crate) fn cached(
        &self,
        alloc: Global,
        name: &PackageName,
        info: &JsrPackageInfo,
    ) -> Result<BTreeSet<PlainVersion>, AllocError>
        ensures { IfOk result (λ cached. cached.keys
            ≡ fold (insert_key ver_cmp) [] (cached_in self.now name.now info.now)) }
    {
        let mut cached = BTreeSet::new(alloc);
        if self.flags.prefers_cached_jsr {
            for (version, entry) in info.versions.as_map().iter() {
                if !entry.yanked && was_found(&self.probed, name, version)? {
                    cached.insert(version.clone()?)?;
                }
            }
        }
        Ok(cached)
    }

    /// The files of some versions are to be looked for.
    pub(crate) fn probe(&mut self, nvs: Items<PackageNv>) -> Result<(), AllocError>
        ensures { OnOk result
            (self.new ≡ record self.old { wanted = self.old.wanted ++ probes nvs }) }
    {
        for nv in nvs.into_vec() {
            self.wanted.push_back(RegistryFile::Probe(nv))?;
        }
        Ok(())
    }
}
