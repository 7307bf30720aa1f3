// What a build gives at its end: the locker gets the sums that it doesn't know, the store the answers about files of the registry that it
// doesn't have, and `npm:` specifiers that wait get their slots.
ghost use Rattle.std.specs.Prelude.{◌≡◌, [], Some, OnOk};
ghost use Rattle.std.specs.FinMap as finite;
ghost use Rattle.graph_turns.specs.Machine.Npm.{IsEnded};
ghost use Rattle.graph_core.specs.Npm.{npm_of};
ghost use Rattle.graph_turns.specs.Machine.Runs.{manifests_for};
ghost use Rattle.graph_turns.specs.Machine.Sums.{IsTaught, KeepsManifests, KeepsSums, LearnsAtMost};
ghost use Rattle.open_loads.specs.Taught.{KeepsStore, LearnsManifests, StillKnows};
ghost use Rattle.open_loads.specs.Order.OpenLoads.{known_now};
ghost use Rattle.open_loads.specs.Order.Numbered.{filled_store};

use crate::npm_end::end_npm;
use crate::open_loads::OpenLoads;
use crate::stored::add_all;
use graph_turns::{Run, VersionFiles, tell_all, tell_earlier, tell_manifests};
use npm_resolver::NpmResolver;
use source_io::Locker;
use spec_base::Queue;
use std::alloc::{AllocError, Global};

// Tells a locker the sums of the files of versions that it doesn't know: those that the run before read, where there was one, and then
// those that were read in this run. The only refusal is want of memory; whatever the answer, it still knows all that it knew, and of
// sources nothing else.
fn tell_versions<L: Locker>(
    alloc: Global,
    locker: &mut L,
    run: &Run,
    files: &VersionFiles,
) -> Result<(), AllocError>
    ensures taught { OnOk result
        (LearnsManifests (manifests_for (Some (L.manifests locker.old)) run.now)
        (finite.get files.now) (Some (L.manifests locker.new))) }
    ensures kept { KeepsManifests (L.manifests locker.old) (L.manifests locker.new) }
    ensures others { L.remote locker.new ≡ L.remote locker.old }
{
    match run.earlier_manifests() {
        None => tell_manifests(alloc, locker, files),
        Some(manifests) => {
            tell_earlier(alloc, locker, manifests)?;
            tell_manifests(alloc, locker, files)
        }
    }
}

impl<L: Locker + Drop> OpenLoads<L> {
    /// The locker and the store, where they are given, get what they don't know, and then `npm:` specifiers that wait get their slots by what
    /// a resolver says. The only refusal is want of memory; whatever the answer, the locker and the store still have all that they had.
    pub fn close<N: NpmResolver>(
        &mut self,
        alloc: Global,
        resolver: Option<&N>,
    ) -> Result<(), AllocError>
        ensures same { OnOk result (self.new
            ≡ record self.old {
              known = self.new.known;
              added = [];
              state = record self.old.state
                  { graph = self.new.state.graph; npm = self.new.state.npm };
            }) }
        ensures ended { OnOk result
            (IsEnded (npm_of N.table resolver.entry) self.old.state self.new.state.graph) }
        ensures flags { self.new.known.flags ≡ self.old.known.flags }
        ensures taught { OnOk result
            (IsTaught self.old.known.sums self.old.state.sums self.new.known.sums) }
        ensures learned { LearnsAtMost self.old.known.sums self.old.state.sums self.new.known.sums }
        ensures kept { KeepsSums self.old.known.sums self.new.known.sums }
        ensures manifests { OnOk result (LearnsManifests (known_now self.old).manifests
            (finite.get self.old.state.files) self.new.known.manifests) }
        ensures manifests_kept { StillKnows self.old.known.manifests self.new.known.manifests }
        ensures store { OnOk result
            (self.new.known.store ≡ filled_store self.old.known.store self.old.added) }
        ensures store_kept { KeepsStore self.old.known.store self.new.known.store }
    {
        self.teach(alloc)?;
        self.settle_npm(alloc, resolver)
    }

    // `npm:` specifiers that wait get their slots by what a resolver says; nothing else changes. The only refusal is want of memory.
    fn settle_npm<N: NpmResolver>(
        &mut self,
        alloc: Global,
        resolver: Option<&N>,
    ) -> Result<(), AllocError>
        ensures same { self.new ≡ record self.old { state = self.new.state } }
        ensures settles { OnOk result (self.new.state
            ≡ record self.old.state { graph = self.new.state.graph; npm = self.new.state.npm }) }
        ensures ended { OnOk result
            (IsEnded (npm_of N.table resolver.entry) self.old.state self.new.state.graph) }
    {
        end_npm(alloc, &mut self.state, resolver)
    }

    // The locker and the store, where they are given, get what they don't know. The only refusal is want of memory; whatever the answer,
    // the locker and the store still have all that they had.
    fn teach(&mut self, alloc: Global) -> Result<(), AllocError>
        ensures same { OnOk result
            (self.new ≡ record self.old { known = self.new.known; added = [] }) }
        ensures flags { self.new.known.flags ≡ self.old.known.flags }
        ensures taught { OnOk result
            (IsTaught self.old.known.sums self.old.state.sums self.new.known.sums) }
        ensures learned { LearnsAtMost self.old.known.sums self.old.state.sums self.new.known.sums }
        ensures kept { KeepsSums self.old.known.sums self.new.known.sums }
        ensures manifests { OnOk result (LearnsManifests (known_now self.old).manifests
            (finite.get self.old.state.files) self.new.known.manifests) }
        ensures manifests_kept { StillKnows self.old.known.manifests self.new.known.manifests }
        ensures store { OnOk result
            (self.new.known.store ≡ filled_store self.old.known.store self.old.added) }
        ensures store_kept { KeepsStore self.old.known.store self.new.known.store }
    {
        self.tell_sums(alloc)?;
        self.fill_store(alloc)
    }

    // Tells the locker, where there is one, the sums of sources and of the files of versions that it doesn't know. The only refusal
    // is want of memory; whatever the answer, it still knows all that it knew.
    fn tell_sums(&mut self, alloc: Global) -> Result<(), AllocError>
        ensures same { self.new ≡ record self.old { known = self.new.known } }
        ensures flags { self.new.known.flags ≡ self.old.known.flags }
        ensures store { self.new.known.store ≡ self.old.known.store }
        ensures taught { OnOk result
            (IsTaught self.old.known.sums self.old.state.sums self.new.known.sums) }
        ensures learned { LearnsAtMost self.old.known.sums self.old.state.sums self.new.known.sums }
        ensures kept { KeepsSums self.old.known.sums self.new.known.sums }
        ensures manifests { OnOk result (LearnsManifests (known_now self.old).manifests
            (finite.get self.old.state.files) self.new.known.manifests) }
        ensures manifests_kept { StillKnows self.old.known.manifests self.new.known.manifests }
    {
        self.tell_sources()?;
        self.tell_files(alloc)?;
        Ok(())
    }

    // Tells the locker, where there is one, the sums of sources that it doesn't know.
    fn tell_sources(&mut self) -> Result<(), AllocError>
        ensures same { self.new ≡ record self.old { known = self.new.known } }
        ensures flags { self.new.known.flags ≡ self.old.known.flags }
        ensures store { self.new.known.store ≡ self.old.known.store }
        ensures taught { OnOk result
            (IsTaught self.old.known.sums self.old.state.sums self.new.known.sums) }
        ensures learned { LearnsAtMost self.old.known.sums self.old.state.sums self.new.known.sums }
        ensures kept { KeepsSums self.old.known.sums self.new.known.sums }
        ensures others { self.new.known.manifests ≡ self.old.known.manifests }
    {
        if let Some(locker) = &mut self.locker {
            if let Some(sums) = &self.state.sums {
                tell_all(locker, sums)?;
            }
        }
        Ok(())
    }

    // Tells it the sums of the files of versions that were read and that it doesn't know.
    fn tell_files(&mut self, alloc: Global) -> Result<(), AllocError>
        ensures same { self.new ≡ record self.old { known = self.new.known } }
        ensures flags { self.new.known.flags ≡ self.old.known.flags }
        ensures store { self.new.known.store ≡ self.old.known.store }
        ensures taught { OnOk result
            (LearnsManifests (known_now self.old).manifests (finite.get self.old.state.files)
            self.new.known.manifests) }
        ensures kept { StillKnows self.old.known.manifests self.new.known.manifests }
        ensures others { self.new.known.sums ≡ self.old.known.sums }
    {
        let Some(locker) = &mut self.locker else {
            return Ok(());
        };
        tell_versions(alloc, locker, &self.state.run, &self.state.files)?;
        Ok(())
    }

    // The given store, where there is one, gets what was answered about files under Use; what isn't added by then is kept to be added.
    fn fill_store(&mut self, alloc: Global) -> Result<(), AllocError>
        ensures filled { OnOk result (self.new
            ≡ record self.old {
              known = record self.old.known
                  { store = filled_store self.old.known.store self.old.added };
              added = [];
            }) }
        ensures same { self.new
            ≡ record self.old {
              known = record self.old.known { store = self.new.known.store };
              added = self.new.added;
            } }
        ensures kept { KeepsStore self.old.known.store self.new.known.store }
    {
        let Some(store) = &mut self.store else {
            self.added = Queue::new(alloc);
            return Ok(());
        };
        add_all(store, &mut self.added)?;
        Ok(())
    }
}
