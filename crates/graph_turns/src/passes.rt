// A pass over the `jsr:` specifiers that wait: the files of their packages are asked about, versions are chosen one by one, the files
// of the versions are asked about, and then what their exports lead to enters. This file has what begins a pass and what it asks about.
ghost use Rattle.std.specs.Prelude.{◌≡◌, ◌||◌, ◌++◌, [], OnOk};
ghost use Rattle.std.specs.FinMap as finite;
ghost use Rattle.graph_turns.specs.Machine.Passes.{begins_top_level, pass_begun, versions_asked};
ghost use Rattle.graph_turns.specs.Machine.RegistryFiles.{packages_wanted, versions_wanted};

use crate::manner::VersionFiles;
use crate::registry::{PackageFiles, RegistryFile};
use crate::state::State;
use crate::waiting::WaitingPackage;
use metadata_store::{NameAnswers, VersionAnswers};
use semver_npm::{PackageName, PackageNv};
use spec_base::Queue;
use std::alloc::{AllocError, Global};
use std::mem;

/// A specifier for which a version was chosen.
#[derive(Drop)]
pub struct Chosen {
    pub item: WaitingPackage,
    pub nv: PackageNv,
}

/// A pass that goes on.
#[derive(Drop)]
pub struct Pass {
    /// The specifiers that aren't judged yet, in order.
    pub items: Queue<WaitingPackage>,
    /// Those for which a version was chosen, in order.
    pub chosen: Queue<Chosen>,
    /// Whether all are judged, and the files of the chosen versions were asked about.
    pub is_entering: bool,
    /// Whether the packages of this pass are asked for by roots.
    pub is_top_level: bool,
}

// Whether a run has an answer about the file of a package, or it is asked about already.
#[tactic(auto, using(crate::proofs::Entering::Wants::some_copied))]
fn is_package_known(known: &PackageFiles, asked: &NameAnswers<()>, name: &PackageName) -> bool
    ensures { result
        ≡ (finite.contains_key known.now name.now || finite.contains_key asked.now name.now) }
{
    known.get(name).is_some() || asked.get(name).is_some()
}

// Whether a run has an answer about the file of a version, or it is asked about already.
#[tactic(auto, using(crate::proofs::Entering::Wants::some_copied))]
fn is_version_known(known: &VersionFiles, asked: &VersionAnswers<()>, nv: &PackageNv) -> bool
    ensures { result
        ≡ (finite.contains_key known.now nv.now || finite.contains_key asked.now nv.now) }
{
    known.get(nv).is_some() || asked.get(nv).is_some()
}

// The files of the packages of some specifiers that a run has no answer of are to be asked about, each once.
fn add_packages(
    alloc: Global,
    known: &PackageFiles,
    items: &Queue<WaitingPackage>,
    wanted: &mut Queue<RegistryFile>,
) -> Result<(), AllocError>
    ensures { OnOk result (wanted.new ≡ wanted.old ++ packages_wanted known.now [] items.now) }
{
    let mut asked = NameAnswers::new(alloc);
    for place in 0..items.len() {
        if let Some(item) = items.get(place) {
            let name = &item.req.name;
            if !is_package_known(known, &asked, name) {
                asked.add(name.try_clone()?, ())?;
                wanted.push_back(RegistryFile::Package(name.try_clone()?))?;
            }
        }
    }
    Ok(())
}

// The files of some versions that a run has no answer of are to be asked about, each once.
fn add_versions(
    alloc: Global,
    known: &VersionFiles,
    chosen: &Queue<Chosen>,
    wanted: &mut Queue<RegistryFile>,
) -> Result<(), AllocError>
    ensures { OnOk result (wanted.new ≡ wanted.old ++ versions_wanted known.now [] chosen.now) }
{
    let mut asked = VersionAnswers::new(alloc);
    for place in 0..chosen.len() {
        if let Some(one) = chosen.get(place) {
            let nv = &one.nv;
            if !is_version_known(known, &asked, nv) {
                asked.add(nv.try_clone()?, ())?;
                wanted.push_back(RegistryFile::Version(nv.try_clone()?))?;
            }
        }
    }
    Ok(())
}

impl State {
    // Whether the packages of a pass that begins now are asked for by roots: those of the first pass that finds an export.
    fn begins_top_level(&self) -> bool
        ensures { result ≡ begins_top_level self.now.graph }
    {
        self.graph.graph_kind().include_types()
            && self.graph.packages.top_level_packages().len() == 0
    }

    /// A pass begins over all that waits.
    pub(crate) fn begin_pass(&mut self, alloc: Global) -> Result<(), AllocError>
        ensures { OnOk result (self.new ≡ pass_begun self.old) }
    {
        let items = mem::replace(&mut self.waiting, Queue::new(alloc));
        add_packages(alloc, &self.packages, &items, &mut self.wanted)?;
        let is_top_level = self.begins_top_level();
        self.pass = Some(Pass {
            items,
            chosen: Queue::new(alloc),
            is_entering: false,
            is_top_level,
        });
        Ok(())
    }

    /// All of a pass are judged: the files of the chosen versions are to be asked about, and what their exports lead to enters then.
    pub(crate) fn ask_versions(&mut self, alloc: Global) -> Result<(), AllocError>
        ensures { OnOk result (self.new ≡ versions_asked self.old) }
    {
        if let Some(pass) = &mut self.pass {
            add_versions(alloc, &self.files, &pass.chosen, &mut self.wanted)?;
            pass.is_entering = true;
        }
        Ok(())
    }
}
