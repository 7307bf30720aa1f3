// The calls of a graph that go over all of it.
ghost use Rattle.std.specs.Prelude.{◌≡◌, false, IfOk, None, OnOk, OnErr, min, option_copied};
ghost use Rattle.serde_json.specs.View.{view};
ghost use Rattle.spec_base.specs.Refusal.{Answers};
ghost use Rattle.graph_core.specs.Lookup.{tried_copied};
ghost use Rattle.graph_core.specs.declared.graph.ModuleGraph.{ModuleGraph};
ghost use Rattle.graph_json.specs.GraphJson.{graph_json};
ghost use Rattle.graph_walk.specs.Assets.{asset_places};
ghost use Rattle.graph_walk.specs.Closure.{GivesClosure};
ghost use Rattle.graph_walk.specs.Errors.{validity};
ghost use Rattle.graph_walk.specs.Known.{known};
ghost use Rattle.graph_walk.specs.KnownValue.{left_of};
ghost use Rattle.graph_walk.specs.Lent.{lent_texts};
ghost use Rattle.graph_walk.specs.Lookups.{tried_types, dependency_place, place_from_module, place_from};
ghost use Rattle.graph_walk.specs.Members.{modules_of, errors_at, known_count};
ghost use Rattle.graph_walk.specs.MembersValue.{modules_left, errors_left_of};
ghost use Rattle.graph_walk.specs.Options.{how};
ghost use Rattle.graph_walk.specs.Order.{rest, walk_order, texts};
ghost use Rattle.graph_walk.specs.Prune.{Prunes};
ghost use Rattle.graph_walk.specs.Segment.{are_roots, segment_how, segment_of, IsSegment};

use crate::asset_urls::asset_module_urls;
use crate::errors::valid;
use crate::lookup;
use crate::members::{ModuleErrors, Modules, errors_at, known_count, modules_of};
use crate::options::{CheckJsResolver, WalkOptions};
use crate::prune::prune_types;
use crate::segment::segment_from;
use crate::specifiers::{Specifiers, specifiers_of};
use crate::walk::{ModuleEntryIterator, walk_from};
use graph_core::{Dependency, Module, ModuleError, ModuleGraph, ModuleGraphError};
use graph_json::to_json;
use indexmap::IndexSet;
use serde_json::Value;
use spec_base::{ModuleSpecifier, Refusal};
use std::alloc::{AllocError, Global};

/// What walks over a whole graph, judges it and prints it.
pub trait WalkGraph {
    /// The graph.
    ghost graph: { Self → ModuleGraph };

    /// The walk from these roots, with all its memory.
    fn walk<'a, 'options, C: CheckJsResolver>(
        &'a self,
        alloc: Global,
        roots: &'a [ModuleSpecifier],
        options: WalkOptions<'options, C>,
    ) -> Result<ModuleEntryIterator<'a, 'options, C>, AllocError>
        ensures order { IfOk result (λ w. rest (how C.resolves) w
            ≡ walk_order (graph self.now) (how C.resolves options.entry) (texts roots.now)) }
        ensures graph { IfOk result (λ w. w.graph ≡ graph self.now) }
        ensures options { IfOk result (λ w. w.options ≡ options.entry) }
        // It remembers no entry yet.
        ensures last { IfOk result (λ w. w.last ≡ None) }
        ensures closure { IfOk result
            (λ w. GivesClosure (graph self.now) (how C.resolves options.entry) (texts roots.now)
            (rest (how C.resolves) w)) };

    /// Whether the graph is valid: a walk from its roots and configured imports along redirects and over the
    /// code of each module, but for dynamic imports, finds no error in the place of a module, and no import
    /// whose code leads nowhere or where its module may not go (from https to http, or from either to a
    /// local file that the text of the import names as one). Else the first error that it finds is answered:
    /// of the errors of one module that of its last import comes first. The other refusal is want of memory.
    fn valid(&self, alloc: Global) -> Result<(), Refusal<ModuleGraphError>>
        ensures { Answers result (validity (graph self.now)) };

    /// A copy of the graph where all of these roots are its own. Else the part of it that the walk from them gives, over the
    /// graph's kind and dynamic imports too: a graph of these roots, each once, whose slots and redirects are the walk's, with
    /// the configured imports as they are. The only error is want of memory.
    fn segment(&self, alloc: Global, roots: &[ModuleSpecifier]) -> Result<ModuleGraph, AllocError>
        ensures is { IfOk result (λ s. s ≡ segment_of (graph self.now) roots.now) }
        ensures walked { IfOk result (λ s. are_roots (graph self.now) roots.now ≡ false
            → IsSegment (graph self.now) (segment_how (graph self.now)) (texts roots.now) s) };

    /// Takes the types out of the graph: it holds code alone from then on, what its roots lead to along redirects and the code
    /// of modules, dynamic imports too, each module without types; configured imports go. A graph of code alone stays as it
    /// is, and so does one for which memory is wanting, the only error.
    fn prune_types(&mut self, alloc: Global) -> Result<(), AllocError>
        ensures ok { OnOk result (Prunes (graph self.old) (graph self.new)) }
        ensures err { OnErr result (graph self.new ≡ graph self.old) };

    /// The slots in the order of their specifiers, then the redirects whose next specifier has a slot, each with its
    /// module or its error; pending ones are passed over.
    fn specifiers<'a>(&'a self) -> Specifiers<'a>
        ensures { left_of result ≡ known (graph self.now) };

    /// The modules, in the order of their specifiers.
    fn modules<'a>(&'a self) -> Modules<'a>
        ensures { modules_left result ≡ modules_of (graph self.now) };

    /// The errors that stand in the place of modules, in the order of their specifiers.
    fn module_errors<'a>(&'a self) -> ModuleErrors<'a>
        ensures { errors_left_of result ≡ errors_at (graph self.now) };

    /// How many slots, redirects and configured imports there are, at most 2^64 - 1.
    fn specifiers_count(&self) -> usize
        ensures { result ≡ min (known_count (graph self.now)) 18446744073709551615 };

    /// Where the assets stand: over the modules in the order of their specifiers, each dependency in order whose imports all
    /// have an asset's type and whose code leads to a target, that target where it leads along redirects, each once. The only
    /// error is want of memory.
    fn asset_module_urls<'a>(
        &'a self,
        alloc: Global,
    ) -> Result<IndexSet<&'a ModuleSpecifier>, AllocError>
        ensures { IfOk result (λ urls. lent_texts urls.keys ≡ asset_places (graph self.now)) };

    /// The module where a specifier leads along redirects, or what stands where the module's types do; or the
    /// error in its place. None where nothing stands there.
    fn try_get_prefer_types<'a>(
        &'a self,
        specifier: &ModuleSpecifier,
    ) -> Result<Option<&'a Module>, &'a ModuleError>
        ensures { tried_copied result ≡ tried_types (graph self.now) specifier.now };

    /// Where the text of an import leads along redirects, where a module stands there: an import of the module
    /// where the referrer leads, or else one that is configured there. The code of the import counts before
    /// its type, and after it with a wish for types; then the types of the module that is found are looked
    /// for, too.
    fn resolve_dependency<'a>(
        &'a self,
        specifier: &str,
        referrer: &ModuleSpecifier,
        prefer_types: bool,
    ) -> Option<&'a ModuleSpecifier>
        ensures { option_copied result
            ≡ place_from (graph self.now) prefer_types specifier.now referrer.now };

    /// Where the text of an import of this module leads, as `resolve_dependency` says it.
    fn resolve_dependency_from_module<'a>(
        &'a self,
        specifier: &str,
        referring_module: &'a Module,
        prefer_types: bool,
    ) -> Option<&'a ModuleSpecifier>
        ensures { option_copied result
            ≡ place_from_module (graph self.now) prefer_types specifier.now referring_module.now };

    /// Where this dependency leads, as `resolve_dependency` says it.
    fn resolve_dependency_from_dep<'a>(
        &'a self,
        dependency: &'a Dependency,
        prefer_types: bool,
    ) -> Option<&'a ModuleSpecifier>
        ensures { option_copied result
            ≡ dependency_place (graph self.now) prefer_types dependency.now };

    /// The graph as JSON: its configured imports in order, where there are some, its slots and its redirects
    /// in the order of their specifiers' texts, and its roots in order. The only error is want of memory.
    fn to_json(&self, alloc: Global) -> Result<Value, AllocError>
        ensures { IfOk result (λ v. view v ≡ graph_json (graph self.now)) };
}

impl WalkGraph for ModuleGraph {
    ghost graph = { λ g. g };

    fn walk<'a, 'options, C: CheckJsResolver>(
        &'a self,
        alloc: Global,
        roots: &'a [ModuleSpecifier],
        options: WalkOptions<'options, C>,
    ) -> Result<ModuleEntryIterator<'a, 'options, C>, AllocError> {
        walk_from(alloc, self, roots, options)
    }

    fn valid(&self, alloc: Global) -> Result<(), Refusal<ModuleGraphError>> {
        valid(alloc, self)
    }

    fn segment(&self, alloc: Global, roots: &[ModuleSpecifier]) -> Result<ModuleGraph, AllocError> {
        segment_from(alloc, self, roots)
    }

    fn prune_types(&mut self, alloc: Global) -> Result<(), AllocError> {
        prune_types(alloc, self)
    }

    fn specifiers<'a>(&'a self) -> Specifiers<'a> {
        specifiers_of(self)
    }

    fn modules<'a>(&'a self) -> Modules<'a> {
        modules_of(self)
    }

    fn module_errors<'a>(&'a self) -> ModuleErrors<'a> {
        errors_at(self)
    }

    fn specifiers_count(&self) -> usize {
        known_count(self)
    }

    fn asset_module_urls<'a>(
        &'a self,
        alloc: Global,
    ) -> Result<IndexSet<&'a ModuleSpecifier>, AllocError> {
        asset_module_urls(alloc, self)
    }

    fn try_get_prefer_types<'a>(
        &'a self,
        specifier: &ModuleSpecifier,
    ) -> Result<Option<&'a Module>, &'a ModuleError> {
        lookup::try_get_prefer_types(self, specifier)
    }

    fn resolve_dependency<'a>(
        &'a self,
        specifier: &str,
        referrer: &ModuleSpecifier,
        prefer_types: bool,
    ) -> Option<&'a ModuleSpecifier> {
        lookup::place_from(self, specifier, referrer, prefer_types)
    }

    fn resolve_dependency_from_module<'a>(
        &'a self,
        specifier: &str,
        referring_module: &'a Module,
        prefer_types: bool,
    ) -> Option<&'a ModuleSpecifier> {
        lookup::place_from_module(self, specifier, referring_module, prefer_types)
    }

    fn resolve_dependency_from_dep<'a>(
        &'a self,
        dependency: &'a Dependency,
        prefer_types: bool,
    ) -> Option<&'a ModuleSpecifier> {
        lookup::dependency_place(self, dependency, prefer_types)
    }

    fn to_json(&self, alloc: Global) -> Result<Value, AllocError> {
        to_json(alloc, self)
    }
}
