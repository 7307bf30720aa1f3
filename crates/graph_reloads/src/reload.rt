// Parts of a graph are loaded anew: specifiers, or what edges and roots that led to npm lead to now.
ghost use Rattle.std.specs.Prelude.{◌≡◌, ◌≤◌, ◌<◌, ◌+◌, ℕ, List, [], true, length, All, Some, OnOk, OnErr, IfErr, IfSome};
ghost use Rattle.source_io.specs.Tickets.{IsPut};
ghost use Rattle.spec_base.specs.Counters.{Rose};
ghost use Rattle.graph_core.specs.Graph.{new_graph};
ghost use Rattle.graph_core.specs.declared.graph.ModuleGraph.{ModuleGraph};
ghost use Rattle.turn_laws.specs.Promise.Complete.{NonePending};
ghost use Rattle.turn_laws.specs.Budget.Asked.{AsksOnce};
ghost use Rattle.turn_laws.specs.Budget.Covers.{Counted, CoversFrom};
ghost use Rattle.graph_turns.specs.Machine.Redirects.{HasNoCircle};
ghost use Rattle.graph_turns.specs.Promise.Explains.{LearnsSources};
ghost use Rattle.graph_turns.specs.Promise.Runs.{IsGrownBy};
ghost use Rattle.turn_laws.specs.Promise.Reloads.{reload_entry};
ghost use Rattle.turn_laws.specs.Promise.Reloaded.{IsReloaded, IsRenewed};
ghost use Rattle.graph_turns.specs.declared.run.Run.TheVariants.{Only};
ghost use Rattle.graph_turns.specs.Machine.Runs.{told_for};
ghost use Rattle.build_options.specs.Telling.{Tells, flags_of, known_in, manifests_in, npm_in, sums_in, telling_of, without_locker};
ghost use Rattle.graph_turns.specs.Promise.Told.{Told};
ghost use Rattle.cache_filling.specs.Noted.{Noted};
ghost use Rattle.graph_builder.specs.Calls.Loaders.{KeepsLoader};
ghost use Rattle.graph_builder.specs.Calls.Makers.{means_by};
ghost use Rattle.open_loads.specs.Taught.{KeepsStore, LearnsVersionsIn, StillKnows};
ghost use Rattle.open_loads.specs.Budget.Runs.{IsOver};
ghost use Rattle.graph_turns.specs.Machine.Sums.{KeepsSums};
ghost use Rattle.graph_turns.specs.Machine.Turns.{PutsOver, PutsWithin, TellsTurns};
ghost use Rattle.graph_turns.specs.Machine.Entering.{begun_at};
ghost use Rattle.graph_turns.specs.Promise.Input.{EnteredGraph};
ghost use Rattle.npm_targets.specs.Graphs.{IsRepointed};
ghost use Rattle.graph_reloads.specs.Packages.{HasNoNpm, IsNpmAtNpm, IsPackaged, packages_entry, without_npm};

use crate::over::build_over;
use crate::packages::repoint;
use crate::reloads::unload;
use build_options::BuildOptions;
use graph_core::ModuleGraph;
use open_loads::BuildFault;
use slot_making::Services;
use source_io::Loader;
use spec_base::{ModuleSpecifier, ResolutionKind};
use std::alloc::{AllocError, Global};

/// What loads parts of graphs anew.
pub trait ReloadGraph {
    /// The graph.
    ghost graph: { Self → ModuleGraph };

    /// Loads specifiers again: removes the slots where they lead along redirects, each once, and loads these as a build
    /// loads roots. Roots and imports stay.
    ///
    /// What it makes of a graph is told where nothing is pending in that, and each circle of its redirects has a slot
    /// on it. The faults are those of `build`; after each of them the graph is empty.
    fn reload<L: Loader, S: Services>(
        &mut self,
        alloc: Global,
        specifiers: Vec<ModuleSpecifier>,
        loader: &mut L,
        options: &mut BuildOptions<'_, S>,
    ) -> Result<(), BuildFault>
        requires closed { L.open_tickets loader.old ≡ [] }
        // Roots and imports stay, nothing is pending, each specifier that was loaded and each followed edge of a module that was stored leads to a slot, and each circle of redirects has a slot on it.
        ensures reloaded { HasNoCircle (graph self.old)
            → NonePending (graph self.old)
            → OnOk result
            (Noted (L.caches loader.old) (L.world loader.old)
            (IsReloaded (flags_of options.old) (graph self.old) specifiers.items)
            (graph self.new)) }
        // Each slot and each redirect stood so before, or is what the world's answers give a load leading to it; and what stood and wasn't loaded again stays, but where an explained one took its place.
        ensures explained_again { HasNoCircle (graph self.old)
            → NonePending (graph self.old)
            → (told : Told)
            → Tells (L.world loader.old)
            (telling_of S.Analyze.infos S.Tree.paths S.Urls.meaning S.Resolve.is_told
            S.Resolve.meaning options.old)
            (known_in S.Lock.remote S.Lock.manifests options.old) told
            → npm_in S.Npm.table options.old ≡ Some told.npm
            → OnOk result
            (Noted (L.caches loader.old) (L.world loader.old)
            (λ bare. IsGrownBy bare (told_for told Only)
            (reload_entry told.known.flags.is_dynamic (graph self.old) specifiers.items))
            (graph self.new)) }
        // The slot where a given specifier led is what the world's answers give a load leading to it, or gone.
        ensures renewed { HasNoCircle (graph self.old)
            → NonePending (graph self.old)
            → (told : Told)
            → Tells (L.world loader.old)
            (telling_of S.Analyze.infos S.Tree.paths S.Urls.meaning S.Resolve.is_told
            S.Resolve.meaning options.old)
            (known_in S.Lock.remote S.Lock.manifests options.old) told
            → npm_in S.Npm.table options.old ≡ Some told.npm
            → OnOk result
            (Noted (L.caches loader.old) (L.world loader.old)
            (λ bare. All (IsRenewed (told_for told Only) (graph self.old) specifiers.items
            bare) specifiers.items) (graph self.new)) }
        // One meaning for every order of arrival: the graph is that of the turns, and as many questions are put as they put.
        ensures turned { (told : Told)
            → Tells (L.world loader.old)
            (telling_of S.Analyze.infos S.Tree.paths S.Urls.meaning S.Resolve.is_told
            S.Resolve.meaning options.old)
            (known_in S.Lock.remote S.Lock.manifests options.old) told
            → npm_in S.Npm.table options.old ≡ Some told.npm
            → OnOk result
            (Noted (L.caches loader.old) (L.world loader.old)
            (λ bare. TellsTurns told (graph self.old).kind
            (begun_at told.known
            (reload_entry told.known.flags.is_dynamic (graph self.old) specifiers.items)) bare
            (sums_in S.Lock.remote options.new) options.new.jsr_metadata_store
            (L.asked loader.old) (L.asked loader.new)) (graph self.new)) }
        // After Ok no number of turns puts more questions than the budget has.
        ensures afforded { (told : Told)
            → Tells (L.world loader.old)
            (telling_of S.Analyze.infos S.Tree.paths S.Urls.meaning S.Resolve.is_told
            S.Resolve.meaning options.old)
            (known_in S.Lock.remote S.Lock.manifests options.old) told
            → OnOk result
            (PutsWithin told (graph self.old).kind
            (begun_at told.known
            (reload_entry told.known.flags.is_dynamic (graph self.old) specifiers.items)) options.old.max_loads) }
        // After `Budget` some number of turns does.
        ensures overspent { (told : Told)
            → Tells (L.world loader.old)
            (telling_of S.Analyze.infos S.Tree.paths S.Urls.meaning S.Resolve.is_told
            S.Resolve.meaning options.old)
            (known_in S.Lock.remote S.Lock.manifests options.old) told
            → IfErr result
            (λ fault. fault ≡ BuildFault.Budget
            → PutsOver told (graph self.old).kind
            (begun_at told.known
            (reload_entry told.known.flags.is_dynamic (graph self.old) specifiers.items)) options.old.max_loads) }
        // Whatever the answer, each sum that the locker is told is that of the source of a module that was made there, from the network and no declaration.
        ensures sources { (told : Told)
            → Tells (L.world loader.old)
            (telling_of S.Analyze.infos S.Tree.paths S.Urls.meaning S.Resolve.is_told
            S.Resolve.meaning options.old)
            (known_in S.Lock.remote S.Lock.manifests options.old) told
            → LearnsSources (told_for told Only)
            (reload_entry told.known.flags.is_dynamic (graph self.old) specifiers.items)
            (sums_in S.Lock.remote options.new) }
        // Each sum of a manifest that it is told is that of the version's file.
        ensures versions { (told : Told)
            → Tells (L.world loader.old)
            (telling_of S.Analyze.infos S.Tree.paths S.Urls.meaning S.Resolve.is_told
            S.Resolve.meaning options.old)
            (known_in S.Lock.remote S.Lock.manifests options.old) told
            → OnOk result
            (LearnsVersionsIn (told_for told Only)
            (reload_entry told.known.flags.is_dynamic (graph self.old) specifiers.items)
            (manifests_in S.Lock.manifests options.old)
            (manifests_in S.Lock.manifests options.new)) }
        // Whoever answers, each question that a run puts is another one, and what the last run asks about the graph knows in the end.
        ensures asks_once { HasNoCircle (graph self.old)
            → OnOk result
            (Noted (L.caches loader.old) (L.world loader.old)
            (λ bare. AsksOnce (S.Urls.meaning options.old.jsr_url_provider.now) bare
            (L.asked loader.old) (L.asked loader.new)) (graph self.new)) }
        ensures closed { OnOk result (L.open_tickets loader.new ≡ []) }
        ensures loader { KeepsLoader L.world L.may_fail L.caches L.faults loader.old loader.new }
        ensures options { without_locker options.new ≡ without_locker options.old }
        // The store, where one is given, keeps what it had.
        ensures store { KeepsStore options.old.jsr_metadata_store options.new.jsr_metadata_store }
        // Whatever the answer, the locker still knows all that it knew.
        ensures locker { KeepsSums (sums_in S.Lock.remote options.old)
            (sums_in S.Lock.remote options.new) }
        ensures manifests_kept { StillKnows (manifests_in S.Lock.manifests options.old)
            (manifests_in S.Lock.manifests options.new) }
        // After every other fault than want of memory the locker knows exactly what it knew.
        ensures unlearned { IfErr result
            (λ fault. (fault ≡ BuildFault.Memory → ⊥)
            → (sums_in S.Lock.remote options.new ≡ sums_in S.Lock.remote options.old)
            × (manifests_in S.Lock.manifests options.new
            ≡ manifests_in S.Lock.manifests options.old)) }
        ensures emptied { OnErr result (graph self.new ≡ new_graph (graph self.old).kind) }
        // A budget of as many loads as a list that covers the reached questions has is never spent.
        ensures room { HasNoCircle (graph self.old)
            → (told : Told) (questions : List Counted)
            → Tells (L.world loader.old)
            (telling_of S.Analyze.infos S.Tree.paths S.Urls.meaning S.Resolve.is_told
            S.Resolve.meaning options.old)
            (known_in S.Lock.remote S.Lock.manifests options.old) told
            → CoversFrom (told_for told Only)
            (reload_entry told.known.flags.is_dynamic (graph self.old) specifiers.items)
            questions
            → length questions ≤ options.old.max_loads
            → IfErr result (λ fault. fault ≡ BuildFault.Budget → ⊥) }
        // A covered reload over a loader that doesn't fail succeeds, or finds no memory.
        ensures covered { HasNoCircle (graph self.old)
            → (told : Told) (questions : List Counted)
            → Tells (L.world loader.old)
            (telling_of S.Analyze.infos S.Tree.paths S.Urls.meaning S.Resolve.is_told
            S.Resolve.meaning options.old)
            (known_in S.Lock.remote S.Lock.manifests options.old) told
            → CoversFrom (told_for told Only)
            (reload_entry told.known.flags.is_dynamic (graph self.old) specifiers.items)
            questions
            → length questions ≤ options.old.max_loads
            → (Rose (L.faults loader.old) (L.faults loader.new) → ⊥)
            → IfErr result (λ fault. fault ≡ BuildFault.Memory) }
        // From what is loaded again, the loads that turns answered and those that are open are more than the budget.
        ensures over { IfErr result
            (λ fault. fault ≡ BuildFault.Budget
            → (redirects : ℕ)
            × IsOver redirects (known_in S.Lock.remote S.Lock.manifests options.old)
            (L.world loader.old)
            (means_by
            (telling_of S.Analyze.infos S.Tree.paths S.Urls.meaning
            S.Resolve.is_told S.Resolve.meaning options.old)
            (flags_of options.old) (graph self.old).kind)
            (begun_at (known_in S.Lock.remote S.Lock.manifests options.old)
            (reload_entry options.old.is_dynamic (graph self.old) specifiers.items)) options.old.max_loads) }
        // And those of turns that follow as many redirects as the world says.
        ensures over_told { IfErr result
            (λ fault. fault ≡ BuildFault.Budget
            → IfSome (L.world loader.old)
            (λ w. IsOver w.max_redirects
            (known_in S.Lock.remote S.Lock.manifests options.old) (L.world loader.old)
            (means_by
            (telling_of S.Analyze.infos S.Tree.paths S.Urls.meaning
            S.Resolve.is_told S.Resolve.meaning options.old)
            (flags_of options.old) (graph self.old).kind)
            (begun_at (known_in S.Lock.remote S.Lock.manifests options.old)
            (reload_entry options.old.is_dynamic (graph self.old) specifiers.items)) options.old.max_loads)) }
        ensures budget { IfErr result (λ fault. fault ≡ BuildFault.Budget
            → IsPut options.old.max_loads (L.asked loader.old) (L.asked loader.new)) }
        // At most as many questions are put as the budget allows.
        ensures within { L.asked loader.new ≤ L.asked loader.old + options.old.max_loads }
        ensures allowed { IfErr result
            (λ fault. fault ≡ BuildFault.Loader
            → L.may_fail loader.old (L.asked loader.new) ≡ true) }
        ensures failed { IfErr result
            (λ fault. fault ≡ BuildFault.Loader
            → Rose (L.faults loader.old) (L.faults loader.new)) };

    /// Puts the packages of npm in the place of its modules: resolves edges and roots that lead to `npm:` specifiers again, for code
    /// or for types, where the resolver may send them to files; removes the modules of npm and the redirects to them; and loads what
    /// the edges and roots lead to then, in the order of slots, configured imports and roots, as a build does, but without the npm
    /// resolver and in one run.
    ///
    /// For code the code of a dependency is resolved again where it leads to npm. For types that is the type of one, and where its
    /// code alone leads to npm, its type is resolved at the code's range, by the text of its own that names its types where it has
    /// one; and where the types of a module stand. Roots are resolved at the beginning of `npm_root_dir`: a root that leads
    /// somewhere changes places with the last one and goes, and where it leads is added last, where it is no root yet; one that leads
    /// nowhere stays. All these loads have no hop and no package, and are in the dynamic phase exactly where the options say so.
    ///
    /// What it makes of a graph is told where nothing is pending in that, each circle of its redirects has a slot on it, and its
    /// modules of npm stand at specifiers of npm. The faults are those of `build`; after each of them the graph is empty.
    fn build_npm_packages<L: Loader, S: Services>(
        &mut self,
        alloc: Global,
        npm_root_dir: &ModuleSpecifier,
        resolution_kind: ResolutionKind,
        loader: &mut L,
        options: &mut BuildOptions<'_, S>,
    ) -> Result<(), BuildFault>
        requires closed { L.open_tickets loader.old ≡ [] }
        // Nothing is pending, each specifier that was loaded and each followed edge of a module that was stored leads to a slot, and each circle of redirects has a slot on it; what stood still stands, but for modules of npm, redirects to them, and edges and roots that were resolved again.
        ensures packaged { HasNoCircle (graph self.old)
            → IsNpmAtNpm (graph self.old)
            → NonePending (graph self.old)
            → OnOk result
            (Noted (L.caches loader.old) (L.world loader.old)
            (IsPackaged (flags_of (without_npm options.old)) (graph self.old))
            (graph self.new)) }
        // Where the resolver tells what it answers, edges and roots that led to npm are what it says; each slot and each redirect stands so from then on, or is what the world's answers give a load leading to it; and what stood then stays, but where an explained one took its place.
        ensures explained_packages { HasNoCircle (graph self.old)
            → IsNpmAtNpm (graph self.old)
            → NonePending (graph self.old)
            → (told : Told)
            → Tells (L.world loader.old)
            (telling_of S.Analyze.infos S.Tree.paths S.Urls.meaning S.Resolve.is_told
            S.Resolve.meaning (without_npm options.old))
            (known_in S.Lock.remote S.Lock.manifests (without_npm options.old)) told
            → npm_in S.Npm.table (without_npm options.old) ≡ Some told.npm
            → OnOk result
            (Noted (L.caches loader.old) (L.world loader.old)
            (λ bare. IsGrownBy bare (told_for told Only)
            (packages_entry told resolution_kind npm_root_dir.now (graph self.old)))
            (graph self.new)) }
        // No module of npm stands.
        ensures without_modules { HasNoCircle (graph self.old)
            → IsNpmAtNpm (graph self.old)
            → NonePending (graph self.old)
            → (told : Told)
            → Tells (L.world loader.old)
            (telling_of S.Analyze.infos S.Tree.paths S.Urls.meaning S.Resolve.is_told
            S.Resolve.meaning (without_npm options.old))
            (known_in S.Lock.remote S.Lock.manifests (without_npm options.old)) told
            → npm_in S.Npm.table (without_npm options.old) ≡ Some told.npm
            → OnOk result
            (Noted (L.caches loader.old) (L.world loader.old) HasNoNpm (graph self.new)) }
        // One meaning for every order of arrival: the graph is that of the turns, and as many questions are put as they put.
        ensures turned { (told : Told)
            → Tells (L.world loader.old)
            (telling_of S.Analyze.infos S.Tree.paths S.Urls.meaning S.Resolve.is_told
            S.Resolve.meaning (without_npm options.old))
            (known_in S.Lock.remote S.Lock.manifests (without_npm options.old)) told
            → npm_in S.Npm.table (without_npm options.old) ≡ Some told.npm
            → OnOk result
            (Noted (L.caches loader.old) (L.world loader.old)
            (λ bare. TellsTurns told (graph self.old).kind
            (begun_at told.known
            (packages_entry told resolution_kind npm_root_dir.now (graph self.old))) bare
            (sums_in S.Lock.remote options.new) options.new.jsr_metadata_store
            (L.asked loader.old) (L.asked loader.new)) (graph self.new)) }
        // After Ok no number of turns puts more questions than the budget has.
        ensures afforded { (told : Told)
            → Tells (L.world loader.old)
            (telling_of S.Analyze.infos S.Tree.paths S.Urls.meaning S.Resolve.is_told
            S.Resolve.meaning (without_npm options.old))
            (known_in S.Lock.remote S.Lock.manifests (without_npm options.old)) told
            → OnOk result
            (PutsWithin told (graph self.old).kind
            (begun_at told.known
            (packages_entry told resolution_kind npm_root_dir.now (graph self.old))) options.old.max_loads) }
        // After `Budget` some number of turns does.
        ensures overspent { (told : Told)
            → Tells (L.world loader.old)
            (telling_of S.Analyze.infos S.Tree.paths S.Urls.meaning S.Resolve.is_told
            S.Resolve.meaning (without_npm options.old))
            (known_in S.Lock.remote S.Lock.manifests (without_npm options.old)) told
            → IfErr result
            (λ fault. fault ≡ BuildFault.Budget
            → PutsOver told (graph self.old).kind
            (begun_at told.known
            (packages_entry told resolution_kind npm_root_dir.now (graph self.old))) options.old.max_loads) }
        // Whatever the answer, each sum that the locker is told is that of the source of a module that was made there, from the network and no declaration.
        ensures sources { (told : Told)
            → Tells (L.world loader.old)
            (telling_of S.Analyze.infos S.Tree.paths S.Urls.meaning S.Resolve.is_told
            S.Resolve.meaning (without_npm options.old))
            (known_in S.Lock.remote S.Lock.manifests (without_npm options.old)) told
            → LearnsSources (told_for told Only)
            (packages_entry told resolution_kind npm_root_dir.now (graph self.old))
            (sums_in S.Lock.remote options.new) }
        // Each sum of a manifest that it is told is that of the version's file.
        ensures versions { (told : Told)
            → Tells (L.world loader.old)
            (telling_of S.Analyze.infos S.Tree.paths S.Urls.meaning S.Resolve.is_told
            S.Resolve.meaning (without_npm options.old))
            (known_in S.Lock.remote S.Lock.manifests (without_npm options.old)) told
            → OnOk result
            (LearnsVersionsIn (told_for told Only)
            (packages_entry told resolution_kind npm_root_dir.now (graph self.old))
            (manifests_in S.Lock.manifests options.old)
            (manifests_in S.Lock.manifests options.new)) }
        // Whoever answers, each question that a run puts is another one, and what the last run asks about the graph knows in the end.
        ensures asks_once { HasNoCircle (graph self.old)
            → IsNpmAtNpm (graph self.old)
            → OnOk result
            (Noted (L.caches loader.old) (L.world loader.old)
            (λ bare. AsksOnce (S.Urls.meaning options.old.jsr_url_provider.now) bare
            (L.asked loader.old) (L.asked loader.new)) (graph self.new)) }
        ensures closed { OnOk result (L.open_tickets loader.new ≡ []) }
        ensures loader { KeepsLoader L.world L.may_fail L.caches L.faults loader.old loader.new }
        ensures options { without_locker options.new ≡ without_locker options.old }
        // The store, where one is given, keeps what it had.
        ensures store { KeepsStore options.old.jsr_metadata_store options.new.jsr_metadata_store }
        // Whatever the answer, the locker still knows all that it knew.
        ensures locker { KeepsSums (sums_in S.Lock.remote options.old)
            (sums_in S.Lock.remote options.new) }
        ensures manifests_kept { StillKnows (manifests_in S.Lock.manifests options.old)
            (manifests_in S.Lock.manifests options.new) }
        // After every other fault than want of memory the locker knows exactly what it knew.
        ensures unlearned { IfErr result
            (λ fault. (fault ≡ BuildFault.Memory → ⊥)
            → (sums_in S.Lock.remote options.new ≡ sums_in S.Lock.remote options.old)
            × (manifests_in S.Lock.manifests options.new
            ≡ manifests_in S.Lock.manifests options.old)) }
        ensures emptied { OnErr result (graph self.new ≡ new_graph (graph self.old).kind) }
        // A budget of as many loads as a list that covers the reached questions has is never spent.
        ensures room { HasNoCircle (graph self.old)
            → IsNpmAtNpm (graph self.old)
            → (told : Told) (questions : List Counted)
            → Tells (L.world loader.old)
            (telling_of S.Analyze.infos S.Tree.paths S.Urls.meaning S.Resolve.is_told
            S.Resolve.meaning (without_npm options.old))
            (known_in S.Lock.remote S.Lock.manifests (without_npm options.old)) told
            → CoversFrom (told_for told Only)
            (packages_entry told resolution_kind npm_root_dir.now (graph self.old))
            questions
            → length questions ≤ options.old.max_loads
            → IfErr result (λ fault. fault ≡ BuildFault.Budget → ⊥) }
        // A covered build over a loader that doesn't fail succeeds, or finds no memory.
        ensures covered { HasNoCircle (graph self.old)
            → IsNpmAtNpm (graph self.old)
            → (told : Told) (questions : List Counted)
            → Tells (L.world loader.old)
            (telling_of S.Analyze.infos S.Tree.paths S.Urls.meaning S.Resolve.is_told
            S.Resolve.meaning (without_npm options.old))
            (known_in S.Lock.remote S.Lock.manifests (without_npm options.old)) told
            → CoversFrom (told_for told Only)
            (packages_entry told resolution_kind npm_root_dir.now (graph self.old))
            questions
            → length questions ≤ options.old.max_loads
            → (Rose (L.faults loader.old) (L.faults loader.new) → ⊥)
            → IfErr result (λ fault. fault ≡ BuildFault.Memory) }
        // From what is loaded, the loads that turns answered and those that are open are more than the budget.
        ensures over { IfErr result
            (λ fault. fault ≡ BuildFault.Budget
            → (redirects : ℕ) × (entry : EnteredGraph)
            × IsRepointed (graph self.old) entry.graph entry.loads
            × IsOver redirects (known_in S.Lock.remote S.Lock.manifests (without_npm options.old))
            (L.world loader.old)
            (means_by
            (telling_of S.Analyze.infos S.Tree.paths S.Urls.meaning
            S.Resolve.is_told S.Resolve.meaning (without_npm options.old))
            (flags_of (without_npm options.old)) (graph self.old).kind)
            (begun_at (known_in S.Lock.remote S.Lock.manifests (without_npm options.old)) entry)
            options.old.max_loads) }
        ensures budget { IfErr result (λ fault. fault ≡ BuildFault.Budget
            → IsPut options.old.max_loads (L.asked loader.old) (L.asked loader.new)) }
        // At most as many questions are put as the budget allows.
        ensures within { L.asked loader.new ≤ L.asked loader.old + options.old.max_loads }
        ensures allowed { IfErr result
            (λ fault. fault ≡ BuildFault.Loader
            → L.may_fail loader.old (L.asked loader.new) ≡ true) }
        ensures failed { IfErr result
            (λ fault. fault ≡ BuildFault.Loader
            → Rose (L.faults loader.old) (L.faults loader.new)) };
}

impl ReloadGraph for ModuleGraph {
    ghost graph = { λ g. g };

    fn reload<L: Loader, S: Services>(
        &mut self,
        alloc: Global,
        specifiers: Vec<ModuleSpecifier>,
        loader: &mut L,
        options: &mut BuildOptions<'_, S>,
    ) -> Result<(), BuildFault> {
        let kind = self.graph_kind();
        match unload(alloc, options.is_dynamic, self, specifiers.as_slice()) {
            Ok(loads) => build_over(alloc, self, loads, loader, options),
            Err(AllocError) => {
                *self = ModuleGraph::new(alloc, kind);
                Err(BuildFault::Memory)
            }
        }
    }

    fn build_npm_packages<L: Loader, S: Services>(
        &mut self,
        alloc: Global,
        npm_root_dir: &ModuleSpecifier,
        resolution_kind: ResolutionKind,
        loader: &mut L,
        options: &mut BuildOptions<'_, S>,
    ) -> Result<(), BuildFault> {
        let kind = self.graph_kind();
        match repoint(alloc, self, npm_root_dir, resolution_kind, options) {
            Ok(loads) => {
                let npm_resolver = options.npm_resolver;
                options.npm_resolver = None;
                let done = build_over(alloc, self, loads, loader, options);
                options.npm_resolver = npm_resolver;
                done
            }
            Err(AllocError) => {
                *self = ModuleGraph::new(alloc, kind);
                Err(BuildFault::Memory)
            }
        }
    }
}
