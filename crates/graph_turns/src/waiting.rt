// Loads of `jsr:` and `npm:` specifiers: a `jsr:` specifier waits for the next pass over the registry, and an `npm:` specifier for the end of
// the build, or it is asked about as a URL is where no npm resolver is there.
ghost use Rattle.std.specs.Prelude.{◌≡◌, false, Ok, IfOk, OnOk};
ghost use Rattle.semver_npm.specs.Reader.{tag_of};
ghost use Rattle.graph_core.specs.Graph.{with_slot};
ghost use Rattle.graph_turns.specs.Machine.Entering.{opened, package_kept, received_jsr, received_npm};
ghost use Rattle.graph_turns.specs.Machine.Npm.{npm_waiting_with};
ghost use Rattle.graph_core.specs.Npm.{npm_waiting_at};
ghost use Rattle.graph_turns.specs.Machine.Waiting.{noting, waiting_at, waiting_with};
ghost use Rattle.graph_turns.specs.Promise.Packages.{is_jsr, is_npm, jsr_named, npm_named};
ghost use Rattle.graph_turns.specs.Promise.Slots.{external_slot};

use crate::state::State;
use graph_core::{ExternalModule, LoadContext, Module, ModuleLoadError, ModuleSlot};
use graph_errors::{JsrLoadError, JsrPackageFormatError};
use module_slots::NpmLoad;
use semver_npm::{
    JsrPackageReqReference, NpmLoadError, NpmPackageReqReference, PackageReq, PackageReqReference,
};
use spec_base::{ModuleSpecifier, Refusal, Text};
use std::alloc::{AllocError, Global};

/// A `jsr:` specifier that waits for a pass, or stands in one.
#[derive(Drop)]
pub struct WaitingPackage {
    pub specifier: ModuleSpecifier,
    pub req: PackageReq,
    /// The path in the package.
    pub sub_path: Option<Text>,
    pub context: LoadContext,
}

/// Whether a specifier is a `jsr:` one.
#[tactic(auto, unfolding(spec_base::specs::Specifier::specifier_text))]
pub(crate) fn is_jsr(specifier: &ModuleSpecifier) -> bool
    ensures { result ≡ is_jsr specifier.now }
{
    specifier.as_str().starts_with("jsr:")
}

/// Whether a specifier is an `npm:` one.
#[tactic(auto, unfolding(spec_base::specs::Specifier::specifier_text))]
pub(crate) fn is_npm(specifier: &ModuleSpecifier) -> bool
    ensures { result ≡ is_npm specifier.now }
{
    specifier.as_str().starts_with("npm:")
}

// The tag of a requirement, where it is one.
fn tag_of(alloc: Global, req: &PackageReq) -> Result<Option<Text>, AllocError>
    ensures { IfOk result (λ tag. tag ≡ tag_of req.now.version_req) }
{
    match req.version_req.tag() {
        None => Ok(None),
        Some(tag) => Ok(Some(Text::from_str(alloc, tag)?)),
    }
}

/// What a `jsr:` specifier names, or why it names no package that can be looked for. The only refusal is want of memory.
pub(crate) fn jsr_reference(
    alloc: Global,
    specifier: &ModuleSpecifier,
) -> Result<Result<PackageReqReference, JsrPackageFormatError>, AllocError>
    ensures { IfOk result (λ named. named ≡ jsr_named specifier.now) }
{
    match JsrPackageReqReference::from_specifier(alloc, specifier) {
        Err(Refusal::Memory) => Err(AllocError),
        Err(Refusal::Is(error)) => Ok(Err(JsrPackageFormatError::JsrPackageParseError(error))),
        Ok(reference) => match tag_of(alloc, reference.req())? {
            Some(tag) => Ok(Err(JsrPackageFormatError::VersionTagNotSupported { tag })),
            None => Ok(Ok(reference.into_inner())),
        },
    }
}

impl State {
    // A specifier stands outside of the graph.
    fn put_outside(&mut self, at: ModuleSpecifier) -> Result<(), AllocError>
        ensures { OnOk result
            (self.new
            ≡ record self.old
            { graph = with_slot self.old.graph at (external_slot at false) }) }
    {
        let specifier = at.clone()?;
        let slot = ModuleSlot::Module(Module::External(ExternalModule {
            specifier,
            maybe_cache_info: None,
            was_asset_load: false,
        }));
        self.graph.store_slot(at, slot)?;
        Ok(())
    }

    // A specifier waits for the next pass.
    fn wait(
        &mut self,
        specifier: ModuleSpecifier,
        reference: PackageReqReference,
        context: LoadContext,
    ) -> Result<(), AllocError>
        ensures { OnOk result
            (self.new ≡ waiting_with self.old (waiting_at specifier reference context)) }
    {
        let PackageReqReference { req, sub_path } = reference;
        self.waiting.push_back(WaitingPackage {
            specifier,
            req,
            sub_path,
            context,
        })
    }

    // A `jsr:` specifier that names a package stands outside of the graph, or waits, where it has no slot.
    fn keep_package(
        &mut self,
        at: ModuleSpecifier,
        reference: PackageReqReference,
        context: LoadContext,
    ) -> Result<(), AllocError>
        ensures { OnOk result (self.new ≡ package_kept self.old context at reference) }
    {
        if self.flags.passthrough_jsr {
            drop(reference);
            drop(context);
            self.put_outside(at)
        } else if self.graph.has_slot(&at) {
            drop(at);
            drop(reference);
            drop(context);
            Ok(())
        } else {
            self.wait(at, reference, context)
        }
    }

    // A `jsr:` specifier that names this, or no package that can be looked for, is loaded.
    fn receive_named(
        &mut self,
        alloc: Global,
        context: LoadContext,
        at: ModuleSpecifier,
        named: Result<PackageReqReference, JsrPackageFormatError>,
    ) -> Result<(), AllocError>
        ensures { OnOk result (self.new ≡ received_jsr self.old context at named) }
    {
        match named {
            Err(error) => {
                let err = ModuleLoadError::Jsr(JsrLoadError::PackageFormat(error));
                self.refuse_load(alloc, context, at, err)
            }
            Ok(reference) => match self.note_dependency(alloc, &at, &context) {
                Ok(()) => {
                    self.keep_package(at, reference, context)?;
                    Ok(())
                }
                Err(error) => {
                    drop(at);
                    drop(reference);
                    drop(context);
                    Err(error)
                }
            },
        }
    }

    /// A `jsr:` specifier is loaded: it waits for the next pass, or stands outside of the graph.
    pub(crate) fn receive_package(
        &mut self,
        alloc: Global,
        context: LoadContext,
        at: ModuleSpecifier,
    ) -> Result<(), AllocError>
        ensures { OnOk result (self.new ≡ received_jsr self.old context at (jsr_named at)) }
    {
        match jsr_reference(alloc, &at) {
            Ok(named) => self.receive_named(alloc, context, at, named),
            Err(error) => {
                drop(context);
                drop(at);
                Err(error)
            }
        }
    }

    // A load opens of a specifier that its referrer depends on.
    fn open_noted(
        &mut self,
        alloc: Global,
        context: LoadContext,
        at: ModuleSpecifier,
    ) -> Result<(), AllocError>
        ensures { OnOk result (self.new ≡ opened (noting self.old at context) context at) }
    {
        match self.note_dependency(alloc, &at, &context) {
            Ok(()) => {
                self.open(at, context)?;
                Ok(())
            }
            Err(error) => {
                drop(context);
                drop(at);
                Err(error)
            }
        }
    }

    // An `npm:` specifier waits for the end, and its referrer depends on it.
    fn wait_for_npm(
        &mut self,
        alloc: Global,
        context: LoadContext,
        at: ModuleSpecifier,
        reference: NpmPackageReqReference,
    ) -> Result<(), AllocError>
        ensures { OnOk result
            (self.new
            ≡ npm_waiting_with (noting self.old at context) (npm_waiting_at at reference context)) }
    {
        match self.note_dependency(alloc, &at, &context) {
            Ok(()) => self.npm.push_back(NpmLoad {
                specifier: at,
                reference,
                context,
            }),
            Err(error) => {
                drop(context);
                drop(at);
                drop(reference);
                Err(error)
            }
        }
    }

    // An `npm:` specifier that names a package is loaded.
    fn receive_reference(
        &mut self,
        alloc: Global,
        context: LoadContext,
        at: ModuleSpecifier,
        reference: NpmPackageReqReference,
    ) -> Result<(), AllocError>
        ensures { OnOk result (self.new ≡ received_npm self.old context at (Ok reference)) }
    {
        if self.flags.resolves_npm {
            self.wait_for_npm(alloc, context, at, reference)
        } else {
            drop(reference);
            self.open_noted(alloc, context, at)
        }
    }

    /// An `npm:` specifier is loaded: it waits for the end, or is asked about as a URL is.
    pub(crate) fn receive_npm(
        &mut self,
        alloc: Global,
        context: LoadContext,
        at: ModuleSpecifier,
    ) -> Result<(), AllocError>
        ensures { OnOk result (self.new ≡ received_npm self.old context at (npm_named at)) }
    {
        match NpmPackageReqReference::from_specifier(alloc, &at) {
            Err(Refusal::Memory) => {
                drop(context);
                drop(at);
                Err(AllocError)
            }
            Err(Refusal::Is(error)) => {
                let err = ModuleLoadError::Npm(NpmLoadError::PackageReqReferenceParse(error));
                self.refuse_load(alloc, context, at, err)
            }
            Ok(reference) => self.receive_reference(alloc, context, at, reference),
        }
    }
}
