// Kept packages, one after another.
ghost use Rattle.std.specs.Prelude.{◌≡◌, length};
ghost use Rattle.std.specs.Iterator.{YieldsFirstBy, YieldsFirstRef, at_most};
ghost use Rattle.pkg_records.specs.Kept.{dependencies_of};
ghost use Rattle.pkg_records.specs.KeptViews.{package_view};

use crate::package_records::PackageRecord;
use semver_npm::{JsrDepPackageReq, PackageNv};
use std::collections::{BTreeMap, BTreeSet, btree_map, btree_set};
use std::marker::Model;

/// Goes over packages with what each depends on.
#[derive(Drop)]
pub struct PackagesWithDeps<'a> {
    left: btree_map::Iter<'a, PackageNv, PackageRecord>,
}

impl<'a> Model for PackagesWithDeps<'a> {
    ghost use Rattle.std.specs.Prelude.{List};
    ghost use Rattle.semver_npm.specs.declared.package.JsrDepPackageReq.{JsrDepPackageReq};
    ghost use Rattle.semver_npm.specs.declared.package.PackageNv.{PackageNv};
    ghost use Rattle.pkg_records.specs.Kept.{dependencies_of};

    ghost Value = { List (PackageNv × List JsrDepPackageReq) };

    ghost view = { λ p. dependencies_of p.left };
}

impl<'a> PackagesWithDeps<'a> {
    pub(crate) fn new(packages: &'a BTreeMap<PackageNv, PackageRecord>) -> PackagesWithDeps<'a>
        ensures { result ≡ dependencies_of packages.now.entries }
    {
        PackagesWithDeps {
            left: packages.iter(),
        }
    }
}

impl<'a> Iterator for PackagesWithDeps<'a> {
    type Item = (&'a PackageNv, &'a BTreeSet<JsrDepPackageReq>);

    ghost next_gives = { YieldsFirstBy package_view (λ p. p) };

    ghost remaining = { λ p. at_most (length p) };

    fn next(&mut self) -> Option<(&'a PackageNv, &'a BTreeSet<JsrDepPackageReq>)> {
        match self.left.next() {
            Some((nv, record)) => Some((nv, record.dependencies.as_set())),
            None => None,
        }
    }
}

/// Goes over withdrawn versions that are used.
#[derive(Drop)]
pub struct UsedYanked<'a> {
    left: btree_set::Iter<'a, PackageNv>,
}

impl<'a> Model for UsedYanked<'a> {
    ghost use Rattle.std.specs.Prelude.{List};
    ghost use Rattle.semver_npm.specs.declared.package.PackageNv.{PackageNv};

    ghost Value = { List PackageNv };

    ghost view = { λ u. u.left };
}

impl<'a> UsedYanked<'a> {
    pub(crate) fn new(packages: &'a BTreeSet<PackageNv>) -> UsedYanked<'a>
        ensures { result ≡ packages.now.keys }
    {
        UsedYanked {
            left: packages.iter(),
        }
    }
}

impl<'a> Iterator for UsedYanked<'a> {
    type Item = &'a PackageNv;

    ghost next_gives = { YieldsFirstRef (λ u. u) };

    ghost remaining = { λ u. at_most (length u) };

    fn next(&mut self) -> Option<&'a PackageNv> {
        self.left.next()
    }
}
