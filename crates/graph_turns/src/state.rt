// A build between two turns: the graph so far, the loads that are open, and those that wait. This file lets loads enter: a
// load enters once, and its slot is pending until it is taken and stored. Where there is no memory, what a function owns is
// dropped by calls: written out at each way out, drops make a proof long.
ghost use Rattle.std.specs.Prelude.{◌≡◌, ◌∷◌, [], OnOk, IfOk, IfSome, IfNone};
ghost use Rattle.std.specs.List.{list_any};
ghost use Rattle.std.specs.FinMap as finite;
ghost use Rattle.graph_errors.specs.declared.errors.ModuleErrorKind.TheVariants.{Load as LoadFails};
ghost use Rattle.graph_core.specs.Graph.{slot_at, with_slot};
ghost use Rattle.module_slots.specs.Slots.{failed_slot};
ghost use Rattle.graph_turns.specs.Machine.Next.{is_end, next_of};
ghost use Rattle.graph_turns.specs.Machine.Manners.{unsupported};
ghost use Rattle.graph_turns.specs.Machine.Starting.{start_entered};
ghost use Rattle.graph_turns.specs.Promise.Taken.{is_built_in};
ghost use Rattle.graph_turns.specs.Promise.Slots.{node_slot};
ghost use Rattle.graph_turns.specs.Machine.Entering.{admitted, deferred_with, enter, enter_all, entered_at, first_state, is_pending_asset_at, is_shut, opened, opens_asset, received, refused_at, stopped, unstopped, waits_for_asset, with_node};

use crate::dependencies::Note;
use crate::flags::Flags;
use crate::forbidden::forbidden;
use crate::later_content::LaterContent;
use crate::manner::{VersionFiles, version_along};
use crate::next::Next;
use crate::passes::Pass;
use crate::redirects::led;
use crate::registry::{PackageFiles, ProbedVersions, RegistryFile};
use crate::run::Run;
use crate::starting::{ResolvedStart, add_imports, add_roots};
use crate::waiting::{WaitingPackage, is_jsr, is_npm};
use graph_core::{
    BuiltInNodeModule, Load, LoadContext, Module, ModuleErrorKind, ModuleGraph, ModuleLoadError,
    ModuleSlot,
};
use graph_errors::JsrLoadError;
use module_slots::{NpmLoad, failure_slot};
use source_io::LoaderChecksum;
use spec_base::{Entries, ModuleSpecifier, Queue, SpecifierMap, SpecifierSet, Text};
use std::alloc::{AllocError, Global};

/// A build between two turns.
#[derive(Drop)]
pub struct State {
    pub graph: ModuleGraph,
    pub loads: Queue<Load>,
    /// Loads that read a module whose specifier is under way as an asset, the first one of each, until no load is open.
    pub deferred: Entries<ModuleSpecifier, LoadContext>,
    /// Dynamic imports that wait for the dynamic phase, one of each target.
    pub dynamic: Entries<ModuleSpecifier, Load>,
    /// The names of modules that answers to roots gave.
    pub root_names: SpecifierSet,
    /// Whether the dynamic phase has begun.
    pub is_dynamic: bool,
    pub flags: Flags,
    /// The sums of the sources of modules that were stored, where a locker is to be told them.
    pub sums: Option<SpecifierMap<LoaderChecksum>>,
    /// What was answered about the files of versions of packages.
    pub files: VersionFiles,
    /// What was answered about the files of packages.
    pub packages: PackageFiles,
    /// What was answered about them once more, where no version met a requirement.
    pub reloaded: PackageFiles,
    /// Which versions' files were looked for in a cache, and whether it holds them.
    pub probed: ProbedVersions,
    /// `jsr:` specifiers that wait for a pass, in order.
    pub waiting: Queue<WaitingPackage>,
    /// `npm:` specifiers that wait for the end, in order.
    pub npm: Queue<NpmLoad>,
    /// The pass that goes on.
    pub pass: Option<Pass>,
    /// The files of the registry that the pass asks about, in order.
    pub wanted: Queue<RegistryFile>,
    /// The dependencies that were noted as loads entered, in order, until the URLs of the registry are at hand.
    pub notes: Queue<Note>,
    /// Which run of the build it is.
    pub run: Run,
    /// Modules that were made by their infos, in order; their contents come last.
    pub contents: Queue<LaterContent>,
}

// Whether a specifier names a module that is built into Node.js.
fn is_built_in(specifier: &ModuleSpecifier) -> bool
    ensures { result ≡ is_built_in specifier.now }
{
    specifier.scheme() == "node"
}

// The module of Node.js that a specifier names.
fn node_slot(alloc: Global, specifier: &ModuleSpecifier) -> Result<ModuleSlot, AllocError>
    ensures { IfOk result (λ slot. slot ≡ node_slot specifier.now) }
{
    let module_name = Text::from_str(alloc, specifier.path())?;
    let specifier = specifier.clone()?;
    Ok(ModuleSlot::Module(Module::Node(BuiltInNodeModule {
        specifier,
        module_name,
    })))
}

// Whether a slot stands at a specifier that a load doesn't ask for again.
fn is_shut_at(graph: &ModuleGraph, specifier: &ModuleSpecifier, context: &LoadContext) -> bool
    ensures { result ≡ is_shut (slot_at graph.now specifier.now) context.now }
{
    match graph.slot(specifier) {
        Some(slot) => context.asset || !slot.was_external_asset_load(),
        None => false,
    }
}

// Whether a load of an asset is under way at a specifier.
fn is_pending_asset_at(graph: &ModuleGraph, specifier: &ModuleSpecifier) -> bool
    ensures { result ≡ is_pending_asset_at (slot_at graph.now specifier.now) }
{
    match graph.slot(specifier) {
        Some(slot) => slot.is_pending_asset_load(),
        None => false,
    }
}

// Whether a load is one of an asset at a specifier.
fn opens_asset(specifier: &ModuleSpecifier, load: &Load) -> bool
    ensures { result ≡ opens_asset specifier.now load.now }
{
    *specifier == load.specifier && load.context.asset
}

// Whether one of the open loads is one of an asset at a specifier.
fn any_opens_asset(loads: &Queue<Load>, specifier: &ModuleSpecifier) -> bool
    ensures { result ≡ list_any (opens_asset specifier.now) loads.now }
{
    for place in 0..loads.len() {
        match loads.get(place) {
            None => return false,
            Some(load) => {
                if opens_asset(specifier, load) {
                    return true;
                }
            }
        }
    }
    false
}

impl State {
    /// A graph, and nothing that is open or waits; sums are kept where a locker is to be told them.
    pub fn new(alloc: Global, graph: ModuleGraph, flags: Flags, keeps_sums: bool) -> State
        ensures { result ≡ first_state keeps_sums flags graph }
    {
        State {
            graph,
            loads: Queue::new(alloc),
            deferred: Entries::new(alloc),
            dynamic: Entries::new(alloc),
            root_names: SpecifierSet::new(alloc),
            is_dynamic: flags.is_dynamic,
            flags,
            sums: if keeps_sums {
                Some(SpecifierMap::new(alloc))
            } else {
                None
            },
            files: VersionFiles::new(alloc),
            packages: PackageFiles::new(alloc),
            reloaded: PackageFiles::new(alloc),
            probed: ProbedVersions::new(alloc),
            waiting: Queue::new(alloc),
            npm: Queue::new(alloc),
            pass: None,
            wanted: Queue::new(alloc),
            notes: Queue::new(alloc),
            run: Run::Only,
            contents: Queue::new(alloc),
        }
    }

    /// Adds the roots and the configured imports that the graph hasn't yet, and enters their loads in order: the
    /// roots, then the targets of the imports.
    #[tactic(auto, using(crate::proofs::Entering::Enter::enter_both), unfolding(crate::specs::Machine::Starting::start_entered))]
    pub fn enter_start(&mut self, alloc: Global, start: ResolvedStart) -> Result<(), AllocError>
        ensures { OnOk result (self.new ≡ start_entered self.old start) }
    {
        let dynamic = self.flags.is_dynamic;
        let ResolvedStart { roots, imports } = start;
        let root_loads = add_roots(alloc, dynamic, &mut self.graph.roots, roots.as_slice())?;
        let import_loads = add_imports(
            alloc,
            dynamic,
            &mut self.graph.imports,
            imports.into_vec(),
        )?;
        self.enter_all(alloc, root_loads)?;
        self.enter_all(alloc, import_loads)?;
        Ok(())
    }

    /// Whether nothing is open, wanted, deferred, waits or comes later, and no pass goes on.
    pub fn is_at_end(&self) -> bool
        ensures { result ≡ is_end (next_of self.now) }
    {
        self.next() == Next::End
    }

    /// The graph so far.
    pub fn into_graph(self) -> ModuleGraph
        ensures { result ≡ self.graph }
    {
        let State {
            graph,
            loads: _,
            deferred: _,
            dynamic: _,
            root_names,
            is_dynamic: _,
            flags: _,
            sums,
            files,
            packages,
            reloaded,
            probed,
            waiting: _,
            npm: _,
            pass,
            wanted: _,
            notes: _,
            run,
            contents: _,
        } = self;
        drop(root_names);
        drop(sums);
        drop(files);
        drop(packages);
        drop(reloaded);
        drop(probed);
        drop(pass);
        drop(run);
        graph
    }

    /// The first open load leaves the queue.
    pub fn take(&mut self) -> Option<Load>
        ensures some { IfSome result
            (λ load. self.old ≡ record self.new { loads = load ∷ self.new.loads }) }
        ensures none { IfNone result (self.old.loads ≡ []) }
        ensures same { IfNone result (self.new ≡ self.old) }
    {
        self.loads.pop_front()
    }

    // Stores a module of Node.js, which isn't asked for.
    fn put_node(&mut self, alloc: Global, specifier: ModuleSpecifier) -> Result<(), AllocError>
        ensures { OnOk result
            (self.new ≡ record self.old { graph = with_node self.old.graph specifier }) }
    {
        let slot = node_slot(alloc, &specifier)?;
        self.graph.store_slot(specifier, slot)?;
        self.graph.has_node_specifier = true;
        Ok(())
    }

    /// Puts a load behind the open ones, and a pending slot at its specifier.
    pub(crate) fn open(
        &mut self,
        specifier: ModuleSpecifier,
        context: LoadContext,
    ) -> Result<(), AllocError>
        ensures { OnOk result (self.new ≡ opened self.old context specifier) }
    {
        let key = specifier.clone()?;
        let is_asset = context.asset;
        self.loads.push_back(Load {
            specifier,
            context,
            is_type: false,
        })?;
        self.graph
            .store_slot(key, ModuleSlot::Pending { is_asset })?;
        Ok(())
    }

    // The error of a load whose version came along, where that has the sum of its module in no form that is known.
    fn unsupported(
        &self,
        alloc: Global,
        context: &LoadContext,
        at: &ModuleSpecifier,
    ) -> Result<Option<ModuleErrorKind>, AllocError>
        ensures { IfOk result
            (λ kind. kind ≡ unsupported (finite.get self.now.files) at.now context.now) }
    {
        let Some(version) = version_along(&self.files, at, context) else {
            return Ok(None);
        };
        if version
            .file
            .manifest_sum(alloc, version.path_of(at))?
            .is_some()
        {
            return Ok(None);
        }
        Ok(Some(ModuleErrorKind::Load {
            specifier: at.clone()?,
            maybe_referrer: context.range.clone()?,
            err: ModuleLoadError::Jsr(JsrLoadError::UnsupportedManifestChecksum),
        }))
    }

    /// Stores the error of a load that is refused.
    pub(crate) fn refuse(
        &mut self,
        alloc: Global,
        specifier: ModuleSpecifier,
        kind: ModuleErrorKind,
    ) -> Result<(), AllocError>
        ensures { OnOk result
            (self.new
            ≡ record self.old
            { graph = with_slot self.old.graph specifier (failed_slot kind) }) }
    {
        let error = kind.into_box(alloc)?;
        self.graph.store_slot(specifier, ModuleSlot::Err(error))?;
        Ok(())
    }

    /// Stores the error of a load that fails at a specifier.
    pub(crate) fn refuse_load(
        &mut self,
        alloc: Global,
        context: LoadContext,
        at: ModuleSpecifier,
        err: ModuleLoadError,
    ) -> Result<(), AllocError>
        ensures { OnOk result (self.new ≡ refused_at self.old at (LoadFails at context.range err)) }
    {
        let failed = failure_slot(alloc, &at, &context, err);
        drop(context);
        match failed {
            Ok(slot) => {
                self.graph.store_slot(at, slot)?;
                Ok(())
            }
            Err(error) => {
                drop(at);
                Err(error)
            }
        }
    }

    // Whether a load that reads the module comes to a slot that is pending for an asset of this build.
    fn waits_for_asset(&self, context: &LoadContext, at: &ModuleSpecifier) -> bool
        ensures { result ≡ waits_for_asset self.now context.now at.now }
    {
        !context.asset && is_pending_asset_at(&self.graph, at) && any_opens_asset(&self.loads, at)
    }

    // Keeps a load until no load is open; the first one of a specifier stays.
    fn defer(&mut self, specifier: ModuleSpecifier, context: LoadContext) -> Result<(), AllocError>
        ensures { OnOk result
            (self.new
            ≡ record self.old
            { deferred = deferred_with self.old.deferred specifier context }) }
    {
        if self.deferred.as_map().contains_key(&specifier) {
            drop(specifier);
            drop(context);
            return Ok(());
        }
        let before = self.deferred.insert(specifier, context)?;
        drop(before);
        Ok(())
    }

    // A module of Node.js is stored, a `jsr:` specifier waits, and else a load opens.
    fn admit(
        &mut self,
        alloc: Global,
        context: LoadContext,
        at: ModuleSpecifier,
    ) -> Result<(), AllocError>
        ensures { OnOk result (self.new ≡ admitted self.old context at) }
    {
        if is_built_in(&at) {
            drop(context);
            self.put_node(alloc, at)
        } else if is_jsr(&at) {
            self.receive_package(alloc, context, at)
        } else if is_npm(&at) {
            self.receive_npm(alloc, context, at)
        } else {
            self.open(at, context)
        }
    }

    // A load that isn't refused comes to the end of the known redirects, where no slot stops it.
    fn begin(
        &mut self,
        alloc: Global,
        context: LoadContext,
        at: ModuleSpecifier,
    ) -> Result<(), AllocError>
        ensures { OnOk result (self.new ≡ unstopped self.old context at) }
    {
        match self.unsupported(alloc, &context, &at) {
            Ok(refusal) => match refusal {
                Some(kind) => {
                    drop(context);
                    self.refuse(alloc, at, kind)
                }
                None => self.admit(alloc, context, at),
            },
            Err(error) => {
                drop(context);
                drop(at);
                Err(error)
            }
        }
    }

    // A load comes to a slot that stops it, and waits where that is pending for an asset.
    fn stop(&mut self, context: LoadContext, at: ModuleSpecifier) -> Result<(), AllocError>
        ensures { OnOk result (self.new ≡ stopped self.old context at) }
    {
        if self.waits_for_asset(&context, &at) {
            self.defer(at, context)
        } else {
            drop(context);
            drop(at);
            Ok(())
        }
    }

    // A load that isn't refused comes to the end of the known redirects.
    fn receive(
        &mut self,
        alloc: Global,
        specifier: &ModuleSpecifier,
        context: LoadContext,
        at: ModuleSpecifier,
    ) -> Result<(), AllocError>
        ensures { OnOk result (self.new ≡ received self.old specifier.now context at) }
    {
        if is_shut_at(&self.graph, &at, &context) {
            match self.note_dependency(alloc, specifier, &context) {
                Ok(()) => {
                    self.stop(context, at)?;
                    Ok(())
                }
                Err(error) => {
                    drop(context);
                    drop(at);
                    Err(error)
                }
            }
        } else {
            self.begin(alloc, context, at)
        }
    }

    // A load comes to the end of the known redirects, where it may be refused.
    fn enter_at(&mut self, alloc: Global, load: Load, at: ModuleSpecifier) -> Result<(), AllocError>
        ensures { OnOk result (self.new ≡ entered_at self.old load.specifier load.context at) }
    {
        match forbidden(self.flags, &at, &load.context) {
            Ok(refusal) => match refusal {
                Some(kind) => {
                    drop(load);
                    self.refuse(alloc, at, kind)
                }
                None => {
                    let Load {
                        specifier,
                        context,
                        is_type: _,
                    } = load;
                    self.receive(alloc, &specifier, context, at)
                }
            },
            Err(error) => {
                drop(load);
                drop(at);
                Err(error)
            }
        }
    }

    /// A load enters at the end of the known redirects.
    #[tactic(auto, unfolding(crate::specs::Machine::Entering::enter))]
    pub fn enter(&mut self, alloc: Global, load: Load) -> Result<(), AllocError>
        ensures { OnOk result (self.new ≡ enter self.old load) }
    {
        match led(alloc, &self.graph, &load.specifier) {
            Ok(at) => self.enter_at(alloc, load, at),
            Err(error) => {
                drop(load);
                Err(error)
            }
        }
    }

    /// Loads enter in order.
    #[tactic(auto, unfolding(crate::specs::Machine::Entering::enter_all))]
    pub fn enter_all(&mut self, alloc: Global, loads: Vec<Load>) -> Result<(), AllocError>
        ensures { OnOk result (self.new ≡ enter_all self.old loads.items) }
    {
        for load in loads {
            self.enter(alloc, load)?;
        }
        Ok(())
    }
}
