// What is kept of packages: what each depends on, and which of its exports are used.
ghost use Rattle.std.specs.Prelude.{◌≡◌, [], IfOk, OnOk, OnErr, length, option_copied, string_bytes};
ghost use Rattle.semver_npm.specs.Orders.{nv_cmp};
ghost use Rattle.pkg_records.specs.Kept.{empty_record, record_with_dependency, record_with_export, with_empty, with_record};
ghost use Rattle.version_dates.specs.Sets.{at_key};

use semver_npm::{JsrDepPackageReq, PackageNv};
use spec_base::{SortedTexts, Text};
use std::alloc::{AllocError, Global};
use std::collections::BTreeMap;
use std::marker::Model;
use version_dates::SortedSet;

/// What is kept of one package.
#[derive(Debug, Drop)]
pub(crate) struct PackageRecord {
    /// By name, the file that an export leads to.
    pub(crate) exports: SortedTexts<Text>,
    pub(crate) dependencies: SortedSet<JsrDepPackageReq>,
}

impl PackageRecord {
    pub(crate) fn new(alloc: Global) -> PackageRecord
        ensures { result ≡ empty_record }
    {
        PackageRecord {
            exports: SortedTexts::new(alloc),
            dependencies: SortedSet::new(alloc),
        }
    }

    pub(crate) fn try_clone(&self) -> Result<PackageRecord, AllocError>
        ensures { IfOk result (λ copy. copy ≡ self.now) }
    {
        let exports = self.exports.try_clone()?;
        let dependencies = self.dependencies.try_clone()?;
        Ok(PackageRecord {
            exports,
            dependencies,
        })
    }

    pub(crate) fn add_dependency(&mut self, dependency: JsrDepPackageReq) -> Result<(), AllocError>
        ensures ok { OnOk result (self.new ≡ record_with_dependency dependency self.old) }
        ensures err { OnErr result (self.new ≡ self.old) }
    {
        self.dependencies.insert(dependency)
    }

    pub(crate) fn add_export(&mut self, export: (String, String)) -> Result<(), AllocError>
        ensures ok { OnOk result
            (self.new
            ≡ record_with_export (string_bytes export.0) (string_bytes export.1) self.old) }
        ensures err { OnErr result (self.new ≡ self.old) }
    {
        let (name, value) = export;
        self.exports.insert(name, Text::from(value))
    }
}

impl Clone for PackageRecord {
    ghost is_clone = { λ r copy. copy ≡ r };

    fn clone(&self) -> Result<PackageRecord, AllocError> {
        self.try_clone()
    }
}

/// What is kept of each package; contracts see the entries, in the order of packages.
#[derive(Debug, Drop)]
pub(crate) struct PackageRecords {
    records: BTreeMap<PackageNv, PackageRecord>,
}

impl Model for PackageRecords {
    ghost use Rattle.std.specs.Prelude.{List};
    ghost use Rattle.semver_npm.specs.declared.package.PackageNv.{PackageNv};
    ghost use Rattle.pkg_records.specs.declared.package_records.PackageRecord.{PackageRecord};

    ghost Value = { List (PackageNv × PackageRecord) };

    ghost view = { λ r. r.records.entries };
}

impl PackageRecords {
    pub(crate) fn new(alloc: Global) -> PackageRecords
        ensures { result ≡ [] }
    {
        PackageRecords {
            records: BTreeMap::new(alloc),
        }
    }

    pub(crate) fn len(&self) -> usize
        ensures { result ≡ length self.now }
    {
        self.records.len()
    }

    pub(crate) fn get(&self, nv: &PackageNv) -> Option<&PackageRecord>
        ensures { option_copied result ≡ at_key nv_cmp self.now nv.now }
    {
        self.records.get(nv)
    }

    pub(crate) fn as_map(&self) -> &BTreeMap<PackageNv, PackageRecord>
        ensures { result.now.entries ≡ self.now }
    {
        &self.records
    }

    #[tactic(auto, using(spec_base::proofs::CopyLemmas::same_entries))]
    pub(crate) fn try_clone(&self) -> Result<PackageRecords, AllocError>
        ensures { IfOk result (λ copy. copy ≡ self.now) }
    {
        let records = self.records.clone()?;
        Ok(PackageRecords { records })
    }

    /// Makes what is kept of a package, where it is missing.
    pub(crate) fn ensure(&mut self, alloc: Global, nv: PackageNv) -> Result<(), AllocError>
        ensures ok { OnOk result (self.new ≡ with_empty self.old nv) }
        ensures err { OnErr result (self.new ≡ self.old) }
    {
        if self.records.contains_key(&nv) {
            return Ok(());
        }
        self.records.insert(nv, PackageRecord::new(alloc))?;
        Ok(())
    }

    #[tactic(auto, using(std::proofs::lemmas::Map::Steps::set_value_same))]
    pub(crate) fn add_dependency(
        &mut self,
        alloc: Global,
        nv: &PackageNv,
        dependency: JsrDepPackageReq,
    ) -> Result<(), AllocError>
        ensures ok { OnOk result
            (self.new ≡ with_record (record_with_dependency dependency) self.old nv.now) }
        ensures err { OnErr result (self.new ≡ self.old) }
    {
        if let Some(record) = self.records.get_mut(nv) {
            return record.add_dependency(dependency);
        }
        let mut record = PackageRecord::new(alloc);
        record.add_dependency(dependency)?;
        self.records.insert(nv.try_clone()?, record)?;
        Ok(())
    }

    #[tactic(auto, using(std::proofs::lemmas::Map::Steps::set_value_same))]
    pub(crate) fn add_export(
        &mut self,
        alloc: Global,
        nv: &PackageNv,
        export: (String, String),
    ) -> Result<(), AllocError>
        ensures ok { OnOk result
            (self.new
            ≡ with_record (record_with_export (string_bytes export.0) (string_bytes export.1))
            self.old nv.now) }
        ensures err { OnErr result (self.new ≡ self.old) }
    {
        if let Some(record) = self.records.get_mut(nv) {
            return record.add_export(export);
        }
        let mut record = PackageRecord::new(alloc);
        record.add_export(export)?;
        self.records.insert(nv.try_clone()?, record)?;
        Ok(())
    }
}
