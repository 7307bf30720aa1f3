// The versions of packages that are in use, by name.
ghost use Rattle.std.specs.Prelude.{◌≡◌, [], IfOk, OnOk, OnErr, option_copied};
ghost use Rattle.spec_base.specs.Shown.{text_cmp};
ghost use Rattle.std.specs.List.{list_any};
ghost use Rattle.pkg_records.specs.Kept.{appended, same_nv, with_version};
ghost use Rattle.version_dates.specs.Sets.{at_key};

use semver_npm::PackageNv;
use spec_base::Items;
use std::alloc::{AllocError, Global};
use std::collections::BTreeMap;
use std::marker::Model;

/// For each name the versions in use, in the order in which they came; contracts see the entries, in the
/// order of names.
#[derive(Debug, Drop)]
pub(crate) struct VersionLists {
    lists: BTreeMap<String, Items<PackageNv>>,
}

impl Model for VersionLists {
    ghost use Rattle.std.specs.Prelude.{List, ℕ};
    ghost use Rattle.semver_npm.specs.declared.package.PackageNv.{PackageNv};
    ghost use Rattle.spec_base.specs.Shown.{shown};

    ghost Value = { List (List ℕ × List PackageNv) };

    ghost view = { λ l. shown l.lists.entries };
}

impl VersionLists {
    pub(crate) fn new(alloc: Global) -> VersionLists
        ensures { result ≡ [] }
    {
        VersionLists {
            lists: BTreeMap::new(alloc),
        }
    }

    /// The versions of a name.
    #[tactic(auto, using(crate::proofs::KeptLemmas::lookup_shown))]
    pub(crate) fn get(&self, name: &str) -> Option<&Items<PackageNv>>
        ensures { option_copied result ≡ at_key text_cmp self.now name.now }
    {
        self.lists.get(name)
    }

    pub(crate) fn try_clone(&self) -> Result<VersionLists, AllocError>
        ensures { IfOk result (λ copy. copy ≡ self.now) }
    {
        let lists = self.lists.clone()?;
        Ok(VersionLists { lists })
    }

    /// Puts a version at the end of its name's list, unless it is there. The only refusal is want of
    /// memory, after which the lists are unchanged.
    #[tactic(auto, using(crate::proofs::KeptLemmas::lookup_shown, crate::proofs::KeptLemmas::set_shown, crate::proofs::KeptLemmas::insert_shown))]
    pub(crate) fn add(&mut self, alloc: Global, nv: PackageNv) -> Result<(), AllocError>
        ensures ok { OnOk result (self.new ≡ with_version self.old nv) }
        ensures err { OnErr result (self.new ≡ self.old) }
    {
        if let Some(list) = self.lists.get_mut(nv.name.as_str()) {
            return append(list, nv);
        }
        let name = nv.name.try_clone()?.into_string();
        let mut first = Items::new(alloc);
        first.push(nv)?;
        self.lists.insert(name, first)?;
        Ok(())
    }
}

// Puts a version at the end of a list, unless it is there.
fn append(list: &mut Items<PackageNv>, nv: PackageNv) -> Result<(), AllocError>
    ensures ok { OnOk result (list.new ≡ appended list.old nv) }
    ensures err { OnErr result (list.new ≡ list.old) }
{
    if has(list.as_slice(), &nv) {
        return Ok(());
    }
    list.push(nv)
}

fn has(list: &[PackageNv], nv: &PackageNv) -> bool
    ensures { result ≡ list_any (same_nv nv.now) list.now }
{
    for known in list {
        if *nv == *known {
            return true;
        }
    }
    false
}
