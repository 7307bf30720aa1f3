// What the exports of chosen versions lead to enters.
ghost use Rattle.std.specs.Prelude.{◌≡◌, IfOk, OnOk};
ghost use Rattle.std.specs.FinMap as finite;
ghost use Rattle.semver_npm.specs.References.{export_name};
ghost use Rattle.registry_files.specs.VersionFiles.{export_names};
ghost use Rattle.graph_errors.specs.declared.jsr_error.JsrLoadError.TheVariants.{UnjoinableExport, UnknownExport};
ghost use Rattle.graph_turns.specs.Machine.Passes.{all_entered, export_by_file, export_entered, export_entered_by, export_followed, export_used, exports_entered, with_used};
ghost use Rattle.graph_turns.specs.Promise.Packages.{export_of};

use crate::passes::{Chosen, Pass};
use crate::redirects::{leads_back, move_to};
use crate::state::State;
use crate::waiting::WaitingPackage;
use graph_core::Load;
use graph_errors::JsrLoadError;
use registry_files::{KeptVersion, join_export};
use semver_npm::PackageNv;
use spec_base::{Boxed, ModuleSpecifier, Text};
use std::alloc::{AllocError, Global};
use std::mem;

/// An export that a version has.
#[derive(Drop)]
pub struct Export {
    /// The name that it has in the version's file.
    pub name: Text,
    /// What the file says of it.
    pub value: Text,
    /// Where it leads, where that can be joined with the version's URL.
    pub to: Option<ModuleSpecifier>,
}

// The name of the export that a path in a package asks for.
fn export_name(alloc: Global, sub_path: &Option<Text>) -> Result<Text, AllocError>
    ensures { IfOk result (λ name. name ≡ export_name sub_path.now) }
{
    match sub_path {
        None => Text::from_str(alloc, "."),
        Some(path) => Ok(Text::from(format!(in alloc; "./{path}")?)),
    }
}

// The error of an export that a version hasn't.
fn unknown_export(
    alloc: Global,
    version: &KeptVersion,
    name: Text,
) -> Result<JsrLoadError, AllocError>
    ensures { IfOk result
        (λ e. e ≡ UnknownExport version.now.nv name (export_names version.now.file)) }
{
    let exports = version.file.export_names(alloc)?;
    Ok(JsrLoadError::UnknownExport {
        nv: Boxed::new(alloc, version.nv.clone()?)?,
        export_name: name,
        exports,
    })
}

// An export of a version, or the error of one that it hasn't.
fn export_of(
    alloc: Global,
    version: &KeptVersion,
    name: Text,
) -> Result<Result<Export, JsrLoadError>, AllocError>
    ensures { IfOk result (λ export. export ≡ export_of version.now name) }
{
    match version.file.export(name.as_str()) {
        None => Ok(Err(unknown_export(alloc, version, name)?)),
        Some(value) => {
            let value = value.try_clone()?;
            let to = join_export(&version.url, value.as_str())?;
            Ok(Ok(Export { name, value, to }))
        }
    }
}

// The error of an export that leads to no specifier.
fn unjoinable(
    alloc: Global,
    nv: PackageNv,
    export_name: Text,
    value: Text,
) -> Result<JsrLoadError, AllocError>
    ensures { IfOk result (λ e. e ≡ UnjoinableExport nv export_name value) }
{
    let nv = Boxed::new(alloc, nv)?;
    Ok(JsrLoadError::UnjoinableExport {
        nv,
        export_name,
        value,
    })
}

impl State {
    // The export of a version that a path in it asks for, or why there is none.
    fn export_at(
        &self,
        alloc: Global,
        nv: &PackageNv,
        sub_path: &Option<Text>,
    ) -> Result<Result<Export, JsrLoadError>, AllocError>
        ensures { IfOk result
            (λ export.
            export ≡ export_by_file nv.now sub_path.now (finite.get self.now.files nv.now)) }
    {
        match self.files.get(nv) {
            Some(Ok(version)) => export_of(alloc, version, export_name(alloc, sub_path)?),
            Some(Err(error)) => Ok(Err(error.try_clone()?)),
            None => Ok(Err(JsrLoadError::PackageVersionNotFound(Boxed::new(alloc, nv.clone()?)?))),
        }
    }

    // Notes an export that is used, and its package where roots ask for it.
    fn note_export(
        &mut self,
        alloc: Global,
        nv: &PackageNv,
        export: &Export,
        is_top_level: bool,
    ) -> Result<(), AllocError>
        ensures { OnOk result
            (self.new
            ≡ record self.old
            { graph = with_used self.old.graph nv.now export.now is_top_level }) }
    {
        let name = export.name.try_clone()?.into_string();
        let value = export.value.try_clone()?.into_string();
        let packages = &mut self.graph.packages;
        packages.add_export(alloc, nv, (name, value))?;
        if is_top_level {
            packages.add_top_level_package(nv.try_clone()?)?;
        }
        Ok(())
    }

    // The load goes on at what an export leads to, in its version.
    fn follow_export(
        &mut self,
        alloc: Global,
        item: WaitingPackage,
        nv: PackageNv,
        to: ModuleSpecifier,
    ) -> Result<(), AllocError>
        ensures { OnOk result
            (self.new ≡ export_followed self.old (record { item = item; nv = nv }) to) }
    {
        let WaitingPackage {
            specifier,
            req,
            sub_path,
            mut context,
        } = item;
        drop(req);
        drop(sub_path);
        if leads_back(&self.graph, &specifier, &to) {
            drop(nv);
            drop(to);
            let load = Load {
                specifier,
                context,
                is_type: false,
            };
            return self.end_redirects(alloc, load);
        }
        match move_to(&mut self.graph, &specifier, &to) {
            Ok(()) => {
                drop(specifier);
                context.package = Some(nv);
                let load = Load {
                    specifier: to,
                    context,
                    is_type: false,
                };
                self.enter(alloc, load)?;
                Ok(())
            }
            Err(error) => {
                drop(specifier);
                drop(context);
                drop(nv);
                drop(to);
                Err(error)
            }
        }
    }

    // What an export leads to enters; where it leads nowhere, an error stands at the specifier.
    fn use_export(
        &mut self,
        alloc: Global,
        chosen: Chosen,
        export: Export,
    ) -> Result<(), AllocError>
        ensures { OnOk result (self.new ≡ export_used self.old chosen export) }
    {
        let Chosen { item, nv } = chosen;
        let Export { name, value, to } = export;
        match to {
            Some(to) => {
                drop(name);
                drop(value);
                self.follow_export(alloc, item, nv, to)
            }
            None => match unjoinable(alloc, nv, name, value) {
                Ok(error) => self.refuse_package(alloc, item, error),
                Err(error) => {
                    drop(item);
                    Err(error)
                }
            },
        }
    }

    // What an export that was found for a specifier leads to enters, or the error of one that wasn't stands there.
    fn enter_found(
        &mut self,
        alloc: Global,
        chosen: Chosen,
        found: Result<Export, JsrLoadError>,
        is_top_level: bool,
    ) -> Result<(), AllocError>
        ensures { OnOk result (self.new ≡ export_entered_by self.old is_top_level chosen found) }
    {
        match found {
            Err(error) => {
                let Chosen { item, nv } = chosen;
                drop(nv);
                self.refuse_package(alloc, item, error)
            }
            Ok(export) => match self.note_export(alloc, &chosen.nv, &export, is_top_level) {
                Ok(()) => {
                    self.use_export(alloc, chosen, export)?;
                    Ok(())
                }
                Err(error) => {
                    drop(chosen);
                    drop(export);
                    Err(error)
                }
            },
        }
    }

    // What the export of a specifier for which a version was chosen leads to enters, or an error stands there.
    fn enter_export(
        &mut self,
        alloc: Global,
        chosen: Chosen,
        is_top_level: bool,
    ) -> Result<(), AllocError>
        ensures { OnOk result (self.new ≡ export_entered self.old is_top_level chosen) }
    {
        match self.export_at(alloc, &chosen.nv, &chosen.item.sub_path) {
            Ok(found) => self.enter_found(alloc, chosen, found, is_top_level),
            Err(error) => {
                drop(chosen);
                Err(error)
            }
        }
    }

    // Exports enter in order.
    #[tactic(auto, unfolding(crate::specs::Machine::Passes::all_entered))]
    fn enter_chosen(&mut self, alloc: Global, pass: Pass) -> Result<(), AllocError>
        ensures { OnOk result (self.new ≡ all_entered self.old pass.is_top_level pass.chosen) }
    {
        let Pass {
            items: _,
            mut chosen,
            is_entering: _,
            is_top_level,
        } = pass;
        while let Some(one) = chosen.pop_front() {
            self.enter_export(alloc, one, is_top_level)?;
        }
        Ok(())
    }

    /// What the exports of all chosen versions of the pass lead to enters, in order, and the pass is gone.
    pub(crate) fn enter_exports(&mut self, alloc: Global) -> Result<(), AllocError>
        ensures { OnOk result (self.new ≡ exports_entered self.old) }
    {
        match mem::replace(&mut self.pass, None) {
            None => Ok(()),
            Some(pass) => self.enter_chosen(alloc, pass),
        }
    }
}
