// Dependencies of packages: as a load enters whose specifier names a package, that package and its referrer are noted; where the URLs
// of the registry are at hand, the package that holds the referrer gets the dependency.
ghost use Rattle.std.specs.Prelude.{◌≡◌, IfOk, OnOk};
ghost use Rattle.graph_turns.specs.Machine.Waiting.{notes_added, noting, with_noted};
ghost use Rattle.graph_turns.specs.Promise.Packages.{dependency_of, jsr_dependency, jsr_named, npm_dependency, npm_named};

use crate::state::State;
use crate::waiting::{is_jsr, is_npm, jsr_reference};
use graph_core::LoadContext;
use semver_npm::{JsrDepPackageReq, NpmPackageReqReference};
use source_io::JsrUrlProvider;
use spec_base::{ModuleSpecifier, Refusal};
use std::alloc::{AllocError, Global};

/// What a load depends on that a referrer names.
#[derive(Drop)]
pub struct Note {
    pub referrer: ModuleSpecifier,
    pub dependency: JsrDepPackageReq,
}

// What an `npm:` specifier depends on, where it is one.
fn npm_dependency(
    alloc: Global,
    specifier: &ModuleSpecifier,
) -> Result<Option<JsrDepPackageReq>, AllocError>
    ensures { IfOk result (λ dependency. dependency ≡ npm_dependency (npm_named specifier.now)) }
{
    match NpmPackageReqReference::from_specifier(alloc, specifier) {
        Err(Refusal::Memory) => Err(AllocError),
        Err(Refusal::Is(_)) => Ok(None),
        Ok(reference) => Ok(Some(JsrDepPackageReq::npm(reference.into_inner().req))),
    }
}

// What a `jsr:` specifier depends on, where it names a package that can be looked for.
fn jsr_dependency(
    alloc: Global,
    specifier: &ModuleSpecifier,
) -> Result<Option<JsrDepPackageReq>, AllocError>
    ensures { IfOk result (λ dependency. dependency ≡ jsr_dependency (jsr_named specifier.now)) }
{
    match jsr_reference(alloc, specifier)? {
        Err(_) => Ok(None),
        Ok(reference) => Ok(Some(JsrDepPackageReq::jsr(reference.req))),
    }
}

// What a specifier depends on, where it names a package.
fn dependency_of(
    alloc: Global,
    specifier: &ModuleSpecifier,
) -> Result<Option<JsrDepPackageReq>, AllocError>
    ensures { IfOk result (λ dependency. dependency ≡ dependency_of specifier.now) }
{
    if is_npm(specifier) {
        npm_dependency(alloc, specifier)
    } else if is_jsr(specifier) {
        jsr_dependency(alloc, specifier)
    } else {
        Ok(None)
    }
}

impl State {
    /// Notes a package that a specifier names as one that its referrer depends on.
    pub(crate) fn note_dependency(
        &mut self,
        alloc: Global,
        specifier: &ModuleSpecifier,
        context: &LoadContext,
    ) -> Result<(), AllocError>
        ensures { OnOk result (self.new ≡ noting self.old specifier.now context.now) }
    {
        let Some(range) = &context.range else {
            return Ok(());
        };
        if let Some(dependency) = dependency_of(alloc, specifier)? {
            let referrer = range.specifier.clone()?;
            self.notes.push_back(Note {
                referrer,
                dependency,
            })?;
        }
        Ok(())
    }

    // The package that holds a referrer, if any, gets what it depends on.
    fn add_dependency<U: JsrUrlProvider>(
        &mut self,
        alloc: Global,
        urls: &U,
        note: Note,
    ) -> Result<(), AllocError>
        ensures { OnOk result
            (self.new
            ≡ record self.old { graph = with_noted (U.meaning urls.now) self.old.graph note }) }
    {
        let Note {
            referrer,
            dependency,
        } = note;
        match urls.package_url_to_nv(alloc, &referrer)? {
            None => Ok(()),
            Some(nv) => self.graph.packages.add_dependency(alloc, &nv, dependency),
        }
    }

    /// Packages get the dependencies that were noted, in order.
    pub(crate) fn add_dependencies<U: JsrUrlProvider>(
        &mut self,
        alloc: Global,
        urls: &U,
    ) -> Result<(), AllocError>
        ensures { OnOk result (self.new ≡ notes_added (U.meaning urls.now) self.old) }
    {
        while let Some(note) = self.notes.pop_front() {
            self.add_dependency(alloc, urls, note)?;
        }
        Ok(())
    }
}
