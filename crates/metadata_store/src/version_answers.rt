// Answers by versions of packages.
ghost use Rattle.std.specs.Prelude.{◌≡◌, ◌<◌, ◌^◌, OnOk, OnErr, option_copied};
ghost use Rattle.std.specs.FinMap as finite;
ghost use Rattle.metadata_store.specs.Store.{with_answer};

use semver_npm::PackageNv;
use std::alloc::{AllocError, Global};
use std::collections::BTreeMap;
use std::marker::Model;

/// Answers by versions of packages, which contracts see as a finite map.
#[derive(Debug, Drop)]
pub struct VersionAnswers<V> {
    map: BTreeMap<PackageNv, V>,
}

impl<V> Model for VersionAnswers<V> {
    ghost use Rattle.std.specs.FinMap as finite;
    ghost use Rattle.semver_npm.specs.Orders.{nv_cmp};
    ghost use Rattle.source_sums.specs.Codes.{nv_code};

    ghost Value = { finite.FinMap nv_cmp V };

    ghost coded = { finite.code nv_code V.code };

    ghost view = { λ answers. finite.from_entries answers.map.entries };
}

impl<V> VersionAnswers<V> {
    /// No answers.
    pub fn new(alloc: Global) -> VersionAnswers<V>
        ensures { result ≡ finite.empty }
    {
        VersionAnswers {
            map: BTreeMap::new(alloc),
        }
    }

    /// The number of answers.
    pub fn len(&self) -> usize
        ensures exact { result ≡ finite.len self.now }
        ensures small { result < 2 ^ 63 }
    {
        self.map.len()
    }

    /// The answer at a key; None where none is kept.
    pub fn get(&self, nv: &PackageNv) -> Option<&V>
        ensures { option_copied result ≡ finite.get self.now nv.now }
    {
        self.map.get(nv)
    }

    /// The answers, to go over in the order of their versions.
    pub fn as_map(&self) -> &BTreeMap<PackageNv, V>
        ensures { result.now.entries ≡ finite.entries self.now }
    {
        let _ = self.map.len();
        &self.map
    }

    /// Keeps an answer, unless one stands. The only refusal is want of memory, after which nothing is changed.
    pub fn add(&mut self, nv: PackageNv, answer: V) -> Result<(), AllocError>
    where
        V: Drop,
        ensures ok { OnOk result (self.new ≡ with_answer self.old nv answer) }
        ensures err { OnErr result (self.new ≡ self.old) }
    {
        if self.map.contains_key(&nv) {
            return Ok(());
        }
        let _ = self.map.insert(nv, answer)?;
        Ok(())
    }
}
