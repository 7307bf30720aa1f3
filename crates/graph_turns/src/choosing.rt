// Versions are chosen for the specifiers of a pass, one by one, as each choice counts for the next one.
ghost use Rattle.std.specs.Prelude.{◌≡◌, ◌++◌, [], ◌∷◌, List, IfOk, OnOk, Ok, Some, option_copied};
ghost use Rattle.std.specs.FinMap as finite;
ghost use Rattle.graph_turns.specs.declared.choosing.Verdict.TheVariants.{Fails, Gets};
ghost use Rattle.graph_turns.specs.declared.passes.Pass.{Pass};
ghost use Rattle.graph_turns.specs.declared.waiting.WaitingPackage.{WaitingPackage};
ghost use Rattle.graph_turns.specs.Machine.Choosing.{choice_in, existing_in, first_item, first_verdict, judged, judged_by, package_file, package_refused, turned_choice, verdict, verdict_by, verdict_in, verdict_without, with_choice, without_first};

use crate::passes::Chosen;
use crate::registry::{Registry, RegistryFile};
use crate::run::Run;
use crate::state::State;
use crate::waiting::WaitingPackage;
use build_reports::Reporter;
use graph_core::ModuleLoadError;
use graph_errors::JsrLoadError;
use pkg_versions::JsrPackageInfo;
use semver_npm::{PackageName, PackageNv, PackageReq, PlainVersion};
use source_io::JsrUrlProvider;
use spec_base::{Items, Refusal};
use std::alloc::{AllocError, Global};
use version_dates::JsrPackageReqNotFoundError;

/// What comes of the first `jsr:` specifier of a pass.
#[derive(Drop)]
pub enum Verdict {
    /// The file of its package is asked about once more first.
    AsksAgain(PackageName),
    /// The files of these versions are looked for in a cache first.
    Probes(Items<PackageNv>),
    /// The build is to begin once more.
    Restarts,
    /// It gets a version, which may be a withdrawn one.
    Gets(PackageNv, bool),
    /// It gets an error.
    Fails(JsrLoadError),
}

// Tells a reporter, where there is one, which version was chosen.
fn tell_choice<R: Reporter>(reporter: Option<&R>, chosen: &Chosen) {
    if let Some(reporter) = reporter {
        reporter.on_resolve(&chosen.item.req, &chosen.nv);
    }
}

impl State {
    // What was answered last about the file of a package.
    fn package_file(&self, name: &PackageName) -> Option<&Result<JsrPackageInfo, JsrLoadError>>
        ensures { option_copied result ≡ package_file self.now name.now }
    {
        match self.reloaded.get(name) {
            Some(read) => Some(read),
            None => self.packages.get(name),
        }
    }

    // The versions of a package that were chosen so far.
    fn existing(&self, alloc: Global, name: &PackageName) -> Result<Vec<PlainVersion>, AllocError>
        ensures { IfOk result
            (λ existing. existing.items ≡ existing_in self.now.graph.packages name.now) }
    {
        let mut existing = Vec::new(alloc);
        if let Some(versions) = self.graph.packages.versions_by_name(name.as_str()) {
            for nv in versions {
                existing.push(nv.version.clone()?)?;
            }
        }
        Ok(existing)
    }

    // The version that meets a requirement, and whether it was withdrawn; or why there is none.
    fn version_for<U: JsrUrlProvider, R: Reporter>(
        &self,
        alloc: Global,
        registry: &Registry<'_, U, R>,
        info: &JsrPackageInfo,
        req: &PackageReq,
    ) -> Result<Result<(PlainVersion, bool), JsrPackageReqNotFoundError>, AllocError>
        ensures { IfOk result (λ choice. choice
            ≡ turned_choice (choice_in registry.now.versions.now.newest_dependency_date_options
            self.now req.now info.now)) }
    {
        let existing = self.existing(alloc, &req.name)?;
        let cached = self.cached(alloc, &req.name, info)?;
        let resolver = registry.versions.get_for_package(&req.name, info);
        match resolver.resolve_version(req, existing.iter(), &cached) {
            Ok(resolved) => Ok(Ok((resolved.version.clone()?, resolved.is_yanked))),
            Err(Refusal::Memory) => Err(AllocError),
            Err(Refusal::Is(error)) => Ok(Err(error)),
        }
    }

    // What comes of a requirement that no version meets: the build begins once more where it may, else the file of its package is
    // asked about once more, but for a second run, which asks under Reload at first.
    fn without_version(
        &self,
        name: &PackageName,
        error: JsrPackageReqNotFoundError,
    ) -> Result<Verdict, AllocError>
        ensures { IfOk result
            (λ v. v
            ≡ verdict_without self.now.run (finite.contains_key self.now.reloaded name.now)
            name.now error) }
    {
        match &self.run {
            Run::First(_) => Ok(Verdict::Restarts),
            Run::Only => {
                if self.reloaded.get(name).is_some() {
                    Ok(Verdict::Fails(JsrLoadError::PackageReqNotFound(error)))
                } else {
                    Ok(Verdict::AsksAgain(name.try_clone()?))
                }
            }
            Run::Due(_) | Run::Second(_) => {
                Ok(Verdict::Fails(JsrLoadError::PackageReqNotFound(error)))
            }
        }
    }

    // What comes of a requirement once no version is to be looked for.
    fn verdict_by<U: JsrUrlProvider, R: Reporter>(
        &self,
        alloc: Global,
        registry: &Registry<'_, U, R>,
        info: &JsrPackageInfo,
        req: &PackageReq,
    ) -> Result<Verdict, AllocError>
        ensures { IfOk result (λ v. v
            ≡ verdict_by self.now req.now
            (choice_in registry.now.versions.now.newest_dependency_date_options self.now req.now
            info.now)) }
    {
        match self.version_for(alloc, registry, info, req)? {
            Err(error) => self.without_version(&req.name, error),
            Ok((version, is_yanked)) => {
                let name = req.name.try_clone()?;
                Ok(Verdict::Gets(PackageNv { name, version }, is_yanked))
            }
        }
    }

    // What comes of a requirement, by the file of its package.
    fn verdict_in<U: JsrUrlProvider, R: Reporter>(
        &self,
        alloc: Global,
        registry: &Registry<'_, U, R>,
        info: &JsrPackageInfo,
        req: &PackageReq,
    ) -> Result<Verdict, AllocError>
        ensures { IfOk result (λ v. v
            ≡ verdict_in registry.now.versions.now.newest_dependency_date_options self.now req.now
            (Some (Ok info.now))) }
    {
        let nvs = self.to_probe(alloc, req, info)?;
        if nvs.len() == 0 {
            drop(nvs);
            self.verdict_by(alloc, registry, info, req)
        } else {
            Ok(Verdict::Probes(nvs))
        }
    }

    // What comes of a requirement.
    fn verdict<U: JsrUrlProvider, R: Reporter>(
        &self,
        alloc: Global,
        registry: &Registry<'_, U, R>,
        req: &PackageReq,
    ) -> Result<Verdict, AllocError>
        ensures { IfOk result
            (λ v. v
            ≡ verdict registry.now.versions.now.newest_dependency_date_options self.now
            req.now) }
    {
        match self.package_file(&req.name) {
            None => {
                let name = req.name.try_clone()?;
                Ok(Verdict::Fails(JsrLoadError::PackageNotFound(name)))
            }
            Some(Err(error)) => Ok(Verdict::Fails(error.try_clone()?)),
            Some(Ok(info)) => self.verdict_in(alloc, registry, info, req),
        }
    }

    // The first specifier of the pass.
    #[tactic(auto, using(crate::proofs::Entering::Verdicts::first_at))]
    fn first_item(&self) -> Option<&WaitingPackage>
        ensures { option_copied result ≡ first_item self.now.pass }
    {
        match &self.pass {
            None => None,
            Some(pass) => pass.items.get(0),
        }
    }

    // What comes of the first specifier of the pass.
    fn first_verdict<U: JsrUrlProvider, R: Reporter>(
        &self,
        alloc: Global,
        registry: &Registry<'_, U, R>,
    ) -> Result<Option<Verdict>, AllocError>
        ensures { IfOk result
            (λ v. v
            ≡ first_verdict registry.now.versions.now.newest_dependency_date_options self.now
            self.now.pass) }
    {
        match self.first_item() {
            None => Ok(None),
            Some(item) => Ok(Some(self.verdict(alloc, registry, &item.req)?)),
        }
    }

    // The first specifier leaves the pass.
    fn take_item(&mut self) -> Option<WaitingPackage>
        ensures item { result ≡ first_item self.old.pass }
        ensures rest { self.new ≡ record self.old { pass = without_first self.old.pass } }
    {
        match &mut self.pass {
            None => None,
            Some(pass) => pass.items.pop_front(),
        }
    }

    // Notes a version that was chosen for a requirement.
    fn note_choice(
        &mut self,
        alloc: Global,
        req: &PackageReq,
        nv: &PackageNv,
        is_yanked: bool,
    ) -> Result<(), AllocError>
        ensures { OnOk result
            (self.new
            ≡ record self.old { graph = with_choice self.old.graph req.now nv.now is_yanked }) }
    {
        let packages = &mut self.graph.packages;
        if is_yanked {
            packages.add_used_yanked_package(nv.try_clone()?)?;
        }
        packages.add_nv(alloc, req.try_clone()?, nv.try_clone()?)
    }

    // A version is chosen in the pass.
    fn choose(&mut self, chosen: Chosen) -> Result<(), AllocError>
        ensures { (p : Pass) → self.old.pass ≡ Some p
            → OnOk result
            (self.new
            ≡ record self.old
            { pass = Some (record p { chosen = p.chosen ++ chosen ∷ [] }) }) }
    {
        match &mut self.pass {
            None => {
                drop(chosen);
                Ok(())
            }
            Some(pass) => pass.chosen.push_back(chosen),
        }
    }

    // A version that was chosen in the pass is told, noted and kept.
    fn keep_choice<R: Reporter>(
        &mut self,
        alloc: Global,
        reporter: Option<&R>,
        chosen: Chosen,
        is_yanked: bool,
    ) -> Result<(), AllocError>
        ensures { (p : Pass) → self.old.pass ≡ Some p
            → OnOk result (self.new
            ≡ record self.old {
              graph = with_choice self.old.graph chosen.item.req chosen.nv is_yanked;
              pass = Some (record p { chosen = p.chosen ++ chosen ∷ [] });
            }) }
    {
        tell_choice(reporter, &chosen);
        match self.note_choice(alloc, &chosen.item.req, &chosen.nv, is_yanked) {
            Ok(()) => self.choose(chosen),
            Err(error) => {
                drop(chosen);
                Err(error)
            }
        }
    }

    // The first specifier of the pass gets a version.
    fn give_version<R: Reporter>(
        &mut self,
        alloc: Global,
        reporter: Option<&R>,
        nv: PackageNv,
        is_yanked: bool,
    ) -> Result<(), AllocError>
        ensures { (p : Pass) (item : WaitingPackage) (items : List WaitingPackage)
            → self.old.pass ≡ Some p
            → p.items ≡ item ∷ items
            → OnOk result (self.new ≡ judged_by self.old p item items (Gets nv is_yanked)) }
    {
        match self.take_item() {
            None => {
                drop(nv);
                Ok(())
            }
            Some(item) => self.keep_choice(alloc, reporter, Chosen { item, nv }, is_yanked),
        }
    }

    /// An error stands at a specifier that waited.
    pub(crate) fn refuse_package(
        &mut self,
        alloc: Global,
        item: WaitingPackage,
        error: JsrLoadError,
    ) -> Result<(), AllocError>
        ensures { OnOk result (self.new ≡ package_refused self.old item error) }
    {
        let WaitingPackage {
            specifier,
            req: _,
            sub_path: _,
            context,
        } = item;
        self.refuse_load(alloc, context, specifier, ModuleLoadError::Jsr(error))
    }

    // The first specifier of the pass gets an error.
    fn refuse_item(&mut self, alloc: Global, error: JsrLoadError) -> Result<(), AllocError>
        ensures { (p : Pass) (item : WaitingPackage) (items : List WaitingPackage)
            → self.old.pass ≡ Some p
            → p.items ≡ item ∷ items
            → OnOk result (self.new ≡ judged_by self.old p item items (Fails error)) }
    {
        match self.take_item() {
            None => {
                drop(error);
                Ok(())
            }
            Some(item) => self.refuse_package(alloc, item, error),
        }
    }

    /// The first specifier of the pass is judged: its package is asked about once more, or versions of it are looked for in a cache, or the
    /// restart is due, or it gets a version or an error.
    pub(crate) fn judge<U: JsrUrlProvider, R: Reporter>(
        &mut self,
        alloc: Global,
        registry: &Registry<'_, U, R>,
    ) -> Result<(), AllocError>
        ensures { OnOk result
            (self.new ≡ judged registry.now.versions.now.newest_dependency_date_options self.old) }
    {
        match self.first_verdict(alloc, registry)? {
            None => Ok(()),
            Some(Verdict::AsksAgain(name)) => self
                .wanted
                .push_back(RegistryFile::PackageAgain(name)),
            Some(Verdict::Probes(nvs)) => self.probe(nvs),
            Some(Verdict::Restarts) => {
                self.want_restart();
                Ok(())
            }
            Some(Verdict::Gets(nv, is_yanked)) => {
                self.give_version(alloc, registry.reporter, nv, is_yanked)
            }
            Some(Verdict::Fails(error)) => self.refuse_item(alloc, error),
        }
    }
}
