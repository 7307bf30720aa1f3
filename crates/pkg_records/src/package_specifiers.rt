// What a graph keeps of packages: the versions that requirements lead to, and what is known of each version in use.
ghost use Rattle.std.specs.Prelude.{◌≡◌, ◌==◌, List, ℕ, IfOk, OnOk, OnErr, length, option_copied, option_map, string_bytes};
ghost use Rattle.spec_base.specs.Shown.{shown, text_cmp};
ghost use Rattle.pkg_records.specs.Kept.{GrowsAtEnd, capped, dependencies_of, dependencies_sum, exports_in, no_packages, versions_of, with_dependency, with_export, with_nv, with_package, with_top_level_package, with_used_yanked_package};
ghost use Rattle.version_dates.specs.Sets.{at_key};

use crate::package_records::PackageRecords;
use crate::packages_with_deps::{PackagesWithDeps, UsedYanked};
use crate::sorted_map::SortedMap;
use crate::version_lists::VersionLists;
use semver_npm::{JsrDepPackageReq, PackageNv, PackageReq};
use spec_base::Text;
use std::alloc::{AllocError, Global};
use std::collections::{BTreeMap, BTreeSet};
use version_dates::SortedSet;

/// The packages of a graph.
#[derive(Debug)]
pub struct PackageSpecifiers {
    // The version that each requirement leads to.
    package_reqs: SortedMap<PackageReq, PackageNv>,
    versions_by_name: VersionLists,
    packages: PackageRecords,
    top_level_packages: SortedSet<PackageNv>,
    used_yanked_packages: SortedSet<PackageNv>,
}

// So that its drop is one call at each way out of what owns it.
impl Drop for PackageSpecifiers {
    fn drop(self) {
        let PackageSpecifiers {
            package_reqs: _,
            versions_by_name: _,
            packages: _,
            top_level_packages: _,
            used_yanked_packages: _,
        } = self;
    }
}

impl PackageSpecifiers {
    /// Nothing is kept.
    pub fn new(alloc: Global) -> PackageSpecifiers
        ensures { result ≡ no_packages }
    {
        PackageSpecifiers {
            package_reqs: SortedMap::new(alloc),
            versions_by_name: VersionLists::new(alloc),
            packages: PackageRecords::new(alloc),
            top_level_packages: SortedSet::new(alloc),
            used_yanked_packages: SortedSet::new(alloc),
        }
    }

    /// Whether no requirement leads to a version.
    pub fn is_empty(&self) -> bool
        ensures { result ≡ (length self.now.package_reqs == 0) }
    {
        self.package_reqs.len() == 0
    }

    /// The number of packages.
    pub fn packages_len(&self) -> usize
        ensures { result ≡ length self.now.packages }
    {
        self.packages.len()
    }

    /// How many dependencies the packages have together, at most 18446744073709551615.
    pub fn package_deps_sum(&self) -> usize
        ensures { result ≡ capped (dependencies_sum self.now.packages) }
    {
        let mut sum: usize = 0;
        for (_, record) in self.packages.as_map().iter() {
            sum = sum.saturating_add(record.dependencies.len());
        }
        sum
    }

    /// A requirement leads to a version, which is put at the end of its name's list, unless it is there.
    /// The only refusal is want of memory, after which nothing is changed.
    pub fn add_nv(
        &mut self,
        alloc: Global,
        package_req: PackageReq,
        nv: PackageNv,
    ) -> Result<(), AllocError>
        ensures ok { OnOk result (self.new ≡ with_nv self.old package_req nv) }
        ensures grows { OnOk result
            ((name : List ℕ)
            → GrowsAtEnd (versions_of self.old name) (versions_of self.new name) nv) }
        ensures err { OnErr result (self.new ≡ self.old) }
    {
        let listed = nv.try_clone()?;
        if self.package_reqs.contains_key(&package_req) {
            self.versions_by_name.add(alloc, listed)?;
            // This takes no memory, since the requirement stands.
            return self.package_reqs.insert(package_req, nv);
        }
        let key = package_req.try_clone()?;
        self.package_reqs.insert(package_req, nv)?;
        match self.versions_by_name.add(alloc, listed) {
            Ok(()) => Ok(()),
            Err(error) => {
                self.package_reqs.remove(&key);
                Err(error)
            }
        }
    }

    /// A package stands, with no dependencies and exports where it is new. The only refusal is want of
    /// memory, after which nothing is changed.
    pub fn ensure_package(&mut self, alloc: Global, nv: PackageNv) -> Result<(), AllocError>
        ensures ok { OnOk result (self.new ≡ with_package self.old nv) }
        ensures err { OnErr result (self.new ≡ self.old) }
    {
        self.packages.ensure(alloc, nv)
    }

    /// A package, which is made where it is missing, depends on another one. The only refusal is want of
    /// memory, after which nothing is changed.
    pub fn add_dependency(
        &mut self,
        alloc: Global,
        nv: &PackageNv,
        dependency: JsrDepPackageReq,
    ) -> Result<(), AllocError>
        ensures ok { OnOk result (self.new ≡ with_dependency self.old nv.now dependency) }
        ensures err { OnErr result (self.new ≡ self.old) }
    {
        self.packages.add_dependency(alloc, nv, dependency)
    }

    /// An export of a package, which is made where it is missing, is used; it goes from its name to a file.
    /// The only refusal is want of memory, after which nothing is changed.
    pub fn add_export(
        &mut self,
        alloc: Global,
        nv: &PackageNv,
        export: (String, String),
    ) -> Result<(), AllocError>
        ensures ok { OnOk result
            (self.new
            ≡ with_export self.old nv.now (string_bytes export.0) (string_bytes export.1)) }
        ensures err { OnErr result (self.new ≡ self.old) }
    {
        self.packages.add_export(alloc, nv, export)
    }

    /// A package is asked for by a root. The only refusal is want of memory, after which nothing is changed.
    pub fn add_top_level_package(&mut self, nv: PackageNv) -> Result<(), AllocError>
        ensures ok { OnOk result (self.new ≡ with_top_level_package self.old nv) }
        ensures err { OnErr result (self.new ≡ self.old) }
    {
        self.top_level_packages.insert(nv)
    }

    /// A withdrawn version is used. The only refusal is want of memory, after which nothing is changed.
    pub fn add_used_yanked_package(&mut self, nv: PackageNv) -> Result<(), AllocError>
        ensures ok { OnOk result (self.new ≡ with_used_yanked_package self.old nv) }
        ensures err { OnErr result (self.new ≡ self.old) }
    {
        self.used_yanked_packages.insert(nv)
    }

    /// Each package with what it depends on, in the order of packages.
    pub fn packages_with_deps(&self) -> PackagesWithDeps<'_>
        ensures { result ≡ dependencies_of self.now.packages }
    {
        PackagesWithDeps::new(self.packages.as_map())
    }

    /// The withdrawn versions that are used, in the order of packages.
    pub fn used_yanked_packages(&self) -> UsedYanked<'_>
        ensures { result ≡ self.now.used_yanked_packages }
    {
        UsedYanked::new(self.used_yanked_packages.as_set())
    }

    /// The packages that roots ask for.
    pub fn top_level_packages(&self) -> &BTreeSet<PackageNv>
        ensures { result.now.keys ≡ self.now.top_level_packages }
    {
        self.top_level_packages.as_set()
    }

    /// The exports of a package that are used, by name; None where the package isn't kept.
    pub fn package_exports(&self, nv: &PackageNv) -> Option<&BTreeMap<String, Text>>
        ensures { option_map (λ m. shown m.now.entries) result ≡ exports_in self.now nv.now }
    {
        match self.packages.get(nv) {
            Some(record) => Some(record.exports.as_map()),
            None => None,
        }
    }

    /// The versions in use of a name, in the order in which they came; None where there are none.
    pub fn versions_by_name(&self, name: &str) -> Option<&[PackageNv]>
        ensures { option_copied result ≡ at_key text_cmp self.now.versions_by_name name.now }
    {
        match self.versions_by_name.get(name) {
            Some(list) => Some(list.as_slice()),
            None => None,
        }
    }

    /// The version that each requirement leads to.
    pub fn mappings(&self) -> &BTreeMap<PackageReq, PackageNv>
        ensures { result.now.entries ≡ self.now.package_reqs }
    {
        self.package_reqs.as_map()
    }

    /// A copy. The only refusal is want of memory.
    pub fn try_clone(&self) -> Result<PackageSpecifiers, AllocError>
        ensures { IfOk result (λ copy. copy ≡ self.now) }
    {
        let package_reqs = self.package_reqs.try_clone()?;
        let versions_by_name = self.versions_by_name.try_clone()?;
        let packages = self.packages.try_clone()?;
        let top_level_packages = self.top_level_packages.try_clone()?;
        let used_yanked_packages = self.used_yanked_packages.try_clone()?;
        Ok(PackageSpecifiers {
            package_reqs,
            versions_by_name,
            packages,
            top_level_packages,
            used_yanked_packages,
        })
    }
}
