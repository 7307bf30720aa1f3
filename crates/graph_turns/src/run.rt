// The runs of a build: a first run over a graph without roots that finds no version of a package begins once more, and then asks
// the registry under Reload. What the first run found counts for the questions of the second one as if the locker knew it.
ghost use Rattle.std.specs.Prelude.{◌≡◌, IfOk, OnOk, if◌then◌else◌, option_copied};
ghost use Rattle.std.specs.Option.{option_and_then};
ghost use Rattle.std.specs.FinMap as finite;
ghost use Rattle.spec_base.specs.Specifier.{specifier_text};
ghost use Rattle.graph_turns.specs.declared.run.Run.TheVariants.{First};
ghost use Rattle.graph_turns.specs.Machine.Runs.{begins_anew, cleared, earlier_manifests, earlier_sum, found_by, is_due, is_second, manifests_read, restarted, run_begun, setting_for, wanted_again, with_read};

use crate::manner::VersionFiles;
use crate::starting::ResolvedStart;
use crate::state::State;
use graph_core::ModuleGraph;
use graph_errors::JsrLoadError;
use metadata_store::VersionAnswers;
use registry_files::KeptVersion;
use semver_npm::PackageNv;
use source_io::{CacheSetting, LoaderChecksum};
use spec_base::{ModuleSpecifier, SpecifierMap};
use std::alloc::{AllocError, Global};
use std::mem;

/// The sums that a first run found.
#[derive(Drop)]
pub struct Earlier {
    /// Those of sources, where a locker is to be told them.
    pub sums: Option<SpecifierMap<LoaderChecksum>>,
    /// Those of the files of versions that were read.
    pub manifests: VersionAnswers<LoaderChecksum>,
}

impl Earlier {
    // The sum of a source that was found.
    fn sum(&self, specifier: &ModuleSpecifier) -> Result<Option<LoaderChecksum>, AllocError>
        ensures { IfOk result
            (λ sum. sum
            ≡ option_and_then (λ sums. finite.get sums (specifier_text specifier.now))
            self.now.sums) }
    {
        match &self.sums {
            None => Ok(None),
            Some(sums) => copied(sums.get(specifier)),
        }
    }

    // The sum of the file of a version that was read.
    fn manifest(&self, nv: &PackageNv) -> Result<Option<LoaderChecksum>, AllocError>
        ensures { IfOk result (λ sum. sum ≡ finite.get self.now.manifests nv.now) }
    {
        copied(self.manifests.get(nv))
    }
}

// A copy of a sum, where there is one.
fn copied(sum: Option<&LoaderChecksum>) -> Result<Option<LoaderChecksum>, AllocError>
    ensures { IfOk result (λ copy. copy ≡ option_copied sum.entry) }
{
    match sum {
        None => Ok(None),
        Some(sum) => Ok(Some(sum.try_clone()?)),
    }
}

// Adds the sum of the file of a version, where it was read.
fn add_read(
    manifests: &mut VersionAnswers<LoaderChecksum>,
    nv: &PackageNv,
    read: &Result<KeptVersion, JsrLoadError>,
) -> Result<(), AllocError>
    ensures { OnOk result (manifests.new ≡ with_read manifests.old (nv.now, read.now)) }
{
    match read {
        Err(_) => Ok(()),
        Ok(version) => {
            let sum = version.file.checksum.try_clone()?;
            manifests.add(nv.try_clone()?, sum)
        }
    }
}

// The sums of the files of versions that were read.
fn manifests_of(
    alloc: Global,
    files: &VersionFiles,
) -> Result<VersionAnswers<LoaderChecksum>, AllocError>
    ensures { IfOk result (λ found. found ≡ manifests_read files.now) }
{
    let mut manifests = VersionAnswers::new(alloc);
    for (nv, read) in files.as_map().iter() {
        add_read(&mut manifests, nv, read)?;
    }
    Ok(manifests)
}

/// Which run of a build it is.
#[derive(Drop)]
pub enum Run {
    /// The only one.
    Only,
    /// The first one, which may begin once more with this.
    First(ResolvedStart),
    /// It is to begin once more with this.
    Due(ResolvedStart),
    /// It has begun once more, behind a run that found this.
    Second(Earlier),
}

impl Run {
    /// Whether the build is to begin once more.
    pub(crate) fn is_due(&self) -> bool
        ensures { result ≡ is_due self.now }
    {
        match self {
            Run::Due(_) => true,
            Run::Only | Run::First(_) | Run::Second(_) => false,
        }
    }

    /// Whether it has begun once more.
    pub(crate) fn is_second(&self) -> bool
        ensures { result ≡ is_second self.now }
    {
        match self {
            Run::Second(_) => true,
            Run::Only | Run::First(_) | Run::Due(_) => false,
        }
    }

    /// The sum of a source that the run before found.
    pub(crate) fn earlier_sum(
        &self,
        specifier: &ModuleSpecifier,
    ) -> Result<Option<LoaderChecksum>, AllocError>
        ensures { IfOk result (λ sum. sum ≡ earlier_sum self.now specifier.now) }
    {
        match self {
            Run::Second(earlier) => earlier.sum(specifier),
            Run::Only | Run::First(_) | Run::Due(_) => Ok(None),
        }
    }

    /// The sum of the file of a version that the run before read.
    pub(crate) fn earlier_manifest(
        &self,
        nv: &PackageNv,
    ) -> Result<Option<LoaderChecksum>, AllocError>
        ensures { IfOk result
            (λ sum. sum
            ≡ option_and_then (λ found. finite.get found nv.now) (earlier_manifests self.now)) }
    {
        match self {
            Run::Second(earlier) => earlier.manifest(nv),
            Run::Only | Run::First(_) | Run::Due(_) => Ok(None),
        }
    }

    /// The sums of the files of versions that the run before read.
    pub fn earlier_manifests(&self) -> Option<&VersionAnswers<LoaderChecksum>>
        ensures { option_copied result ≡ earlier_manifests self.now }
    {
        match self {
            Run::Second(earlier) => Some(&earlier.manifests),
            Run::Only | Run::First(_) | Run::Due(_) => None,
        }
    }

    // The same run, which is to begin once more where it may.
    fn wanted_again(self) -> Run
        ensures { result ≡ wanted_again self }
    {
        match self {
            Run::First(start) => Run::Due(start),
            Run::Only => Run::Only,
            Run::Due(start) => Run::Due(start),
            Run::Second(earlier) => Run::Second(earlier),
        }
    }
}

impl State {
    /// Whether files of the registry are asked about under Reload.
    pub fn is_second(&self) -> bool
        ensures { result ≡ is_second self.now.run }
    {
        self.run.is_second()
    }

    /// The setting under which files of the registry are asked about.
    pub fn metadata_setting(&self) -> CacheSetting
        ensures { result ≡ setting_for self.now.run }
    {
        if self.is_second() {
            CacheSetting::Reload
        } else {
            CacheSetting::Use
        }
    }

    /// The build is to begin once more, where it may.
    pub(crate) fn want_restart(&mut self)
        ensures { self.new ≡ record self.old { run = wanted_again self.old.run } }
    {
        let run = mem::replace(&mut self.run, Run::Only);
        self.run = run.wanted_again();
    }

    // Whether a build of what is given may begin once more.
    fn begins_anew(&self, start: &ResolvedStart) -> bool
        ensures { result ≡ begins_anew self.now.graph start.now.roots start.now.imports }
    {
        self.graph.roots.len() == 0 && !start.is_nothing()
    }

    // A build of what is given that may begin once more is marked so.
    fn mark_first(&mut self, alloc: Global, start: &ResolvedStart) -> Result<(), AllocError>
        ensures { OnOk result (self.new
            ≡ (if begins_anew self.old.graph start.now.roots start.now.imports then record self.old
            { run = First start.now } else self.old)) }
    {
        if self.begins_anew(start) {
            self.run = Run::First(start.try_clone(alloc)?);
        }
        Ok(())
    }

    /// What a build begins with enters; where something is given, it may begin once more over a graph without roots.
    pub fn begin_run(&mut self, alloc: Global, start: ResolvedStart) -> Result<(), AllocError>
        ensures { OnOk result (self.new ≡ run_begun self.old start) }
    {
        self.mark_first(alloc, &start)?;
        self.enter_start(alloc, start)
    }

    // What this run found.
    fn found(&self, alloc: Global) -> Result<Earlier, AllocError>
        ensures { IfOk result (λ found. found ≡ found_by self.now) }
    {
        let manifests = manifests_of(alloc, &self.files)?;
        let sums = match &self.sums {
            None => None,
            Some(sums) => Some(sums.try_clone()?),
        };
        Ok(Earlier { sums, manifests })
    }

    // All goes but how the build began, and the sums that it found.
    fn clear(&mut self, alloc: Global) -> Result<(), AllocError>
        ensures { OnOk result (self.new ≡ cleared self.old) }
    {
        let earlier = self.found(alloc)?;
        let graph = ModuleGraph::new(alloc, self.graph.graph_kind());
        let sums = mem::replace(&mut self.sums, None);
        let next = State::new(alloc, graph, self.flags, false);
        // Drops by calls: written out, those of a whole state make a proof long.
        let before = mem::replace(self, next);
        drop(before);
        let no_sums = mem::replace(&mut self.sums, sums);
        drop(no_sums);
        let only = mem::replace(&mut self.run, Run::Second(earlier));
        drop(only);
        Ok(())
    }

    /// The build begins once more over an empty graph, where that is due.
    pub(crate) fn restart(&mut self, alloc: Global) -> Result<(), AllocError>
        ensures { OnOk result (self.new ≡ restarted self.old) }
    {
        match mem::replace(&mut self.run, Run::Only) {
            Run::Due(start) => {
                self.clear(alloc)?;
                self.enter_start(alloc, start)
            }
            run => {
                self.run = run;
                Ok(())
            }
        }
    }
}
