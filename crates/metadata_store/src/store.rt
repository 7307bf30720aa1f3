// The answers about the files of a registry.
ghost use Rattle.std.specs.Prelude.{◌≡◌, ◌==◌, OnOk, OnErr, option_copied};
ghost use Rattle.std.specs.FinMap as finite;
ghost use Rattle.metadata_store.specs.Answers.{answers_len, empty_store, with_package_answer, with_version_answer};

use crate::name_answers::NameAnswers;
use crate::version_answers::VersionAnswers;
use semver_npm::{PackageName, PackageNv};
use source_io::LoadResult;
use std::alloc::{AllocError, Global};

/// What a loader answered about the files of a registry: about package files by the names of packages, and
/// about version files by their versions. Names are told apart as they are written, also where their files have
/// one URL.
#[derive(Debug, Drop)]
pub struct JsrMetadataStore {
    packages: NameAnswers<LoadResult>,
    versions: VersionAnswers<LoadResult>,
}

impl JsrMetadataStore {
    /// The store with no answer.
    pub fn new(alloc: Global) -> JsrMetadataStore
        ensures { result ≡ empty_store }
    {
        JsrMetadataStore {
            packages: NameAnswers::new(alloc),
            versions: VersionAnswers::new(alloc),
        }
    }

    /// The number of answers, about package files and version files together. It is below 18446744073709551616.
    pub fn len(&self) -> usize
        ensures { result ≡ answers_len self.now }
    {
        self.packages.len() + self.versions.len()
    }

    /// Whether there is no answer.
    pub fn is_empty(&self) -> bool
        ensures { result ≡ (answers_len self.now == 0) }
    {
        self.len() == 0
    }

    /// The answer about the file of a package.
    pub fn package_answer(&self, name: &PackageName) -> Option<&LoadResult>
        ensures { option_copied result ≡ finite.get self.now.packages name.now }
    {
        self.packages.get(name)
    }

    /// The answer about the file of a version.
    pub fn version_answer(&self, nv: &PackageNv) -> Option<&LoadResult>
        ensures { option_copied result ≡ finite.get self.now.versions nv.now }
    {
        self.versions.get(nv)
    }

    /// Keeps the answer about the file of a package; one that stands is left as it is. The only refusal is want
    /// of memory, after which the store is unchanged.
    pub fn add_package_answer(
        &mut self,
        name: PackageName,
        answer: LoadResult,
    ) -> Result<(), AllocError>
        ensures ok { OnOk result (self.new ≡ with_package_answer self.old name answer) }
        ensures err { OnErr result (self.new ≡ self.old) }
    {
        self.packages.add(name, answer)
    }

    /// Keeps the answer about the file of a version; one that stands is left as it is. The only refusal is want
    /// of memory, after which the store is unchanged.
    pub fn add_version_answer(
        &mut self,
        nv: PackageNv,
        answer: LoadResult,
    ) -> Result<(), AllocError>
        ensures ok { OnOk result (self.new ≡ with_version_answer self.old nv answer) }
        ensures err { OnErr result (self.new ≡ self.old) }
    {
        self.versions.add(nv, answer)
    }
}
