// The specifiers that a walk has seen, and those of them that wait. All their memory is taken when the front is made.
ghost use Rattle.std.specs.Prelude.{◌≡◌, [], ◌∷◌, ◌≤◌, length, map, IfOk, IfSome, IfNone};
ghost use Rattle.spec_base.specs.Specifier.{specifier_text};
ghost use Rattle.graph_walk.specs.Lent.{lent_texts};
ghost use Rattle.graph_walk.specs.Lists.{SameMembers};
ghost use Rattle.graph_walk.specs.Options.{How, how};
ghost use Rattle.graph_walk.specs.Order.{is_seen, offer, queue, offered, queued, blank, texts, option_list, target_in, targets_of, followed_targets, targets_back, import_targets, imported, follows};

use crate::options::{CheckJsResolver, WalkOptions};
use graph_core::{Dependency, GraphImport, Resolution};
use indexmap::IndexSet;
use spec_base::{Entries, ModuleSpecifier, SpecifierSet, TextMap};
use std::alloc::{AllocError, Global};
use std::collections::VecDeque;
use std::marker::Model;

#[derive(Drop)]
pub(crate) struct Front<'a> {
    seen: IndexSet<&'a ModuleSpecifier>,
    waiting: VecDeque<&'a ModuleSpecifier>,
    bound: usize,
}

impl<'a> Model for Front<'a> {
    ghost use Rattle.std.specs.Prelude.{◌≤◌, ◌+◌, length};
    ghost use Rattle.std.specs.VecDeque.{deque_capacity};
    ghost use Rattle.indexmap.specs.IndexSet.{spare};
    ghost use Rattle.graph_walk.specs.Order.{FrontView};
    ghost use Rattle.graph_walk.specs.Lent.{lent_texts};

    ghost Value = { FrontView };

    ghost view = { λ f. record { front = record { seen = lent_texts f.seen.keys; waiting = lent_texts f.waiting.items }; bound = f.bound } };

    ghost invariant = { λ f. (f.bound ≤ length f.seen.keys + spare f.seen) × (f.bound ≤ deque_capacity f.waiting) × (length f.waiting.items ≤ length f.seen.keys) };
}

impl<'a> Front<'a> {
    /// An empty front with room for so many specifiers.
    pub(crate) fn with_room(alloc: Global, bound: usize) -> Result<Front<'a>, AllocError>
        ensures { IfOk result (λ f. f ≡ record { front = blank; bound = bound }) }
    {
        let seen = IndexSet::with_capacity(alloc, bound)?;
        let waiting = VecDeque::with_capacity(alloc, bound)?;
        Ok(Front {
            seen,
            waiting,
            bound,
        })
    }

    /// Puts a specifier that wasn't seen at the front.
    pub(crate) fn offer(&mut self, specifier: &'a ModuleSpecifier)
        requires { length (offer self.old.front (specifier_text specifier.now)).seen
            ≤ self.old.bound }
        ensures { self.new
            ≡ record {
              front = offer self.old.front (specifier_text specifier.now);
              bound = self.old.bound;
            } }
    {
        if self.seen.contains(&specifier) {
            return;
        }
        if let Ok(_) = self.seen.insert(specifier) {
            self.waiting.push_front_reserved(specifier);
        }
    }

    /// Puts a specifier that wasn't seen at the end.
    pub(crate) fn queue(&mut self, root: &'a ModuleSpecifier)
        requires { length (queue self.old.front (specifier_text root.now)).seen ≤ self.old.bound }
        ensures { self.new
            ≡ record
            { front = queue self.old.front (specifier_text root.now); bound = self.old.bound } }
    {
        if self.seen.contains(&root) {
            return;
        }
        if let Ok(_) = self.seen.insert(root) {
            self.waiting.push_back_reserved(root);
        }
    }

    /// The first specifier that waits.
    pub(crate) fn take(&mut self) -> Option<&'a ModuleSpecifier>
        ensures bound { self.new.bound ≡ self.old.bound }
        ensures seen { self.new.front.seen ≡ self.old.front.seen }
        ensures some { IfSome result
            (λ s. self.old.front.waiting ≡ specifier_text s.now ∷ self.new.front.waiting) }
        ensures none { IfNone result (self.old.front.waiting ≡ []) }
        ensures same { IfNone result (self.new ≡ self.old) }
    {
        self.waiting.pop_front()
    }

    #[tactic(auto, unfolding(crate::specs::Order::offered))]
    pub(crate) fn offer_target(&mut self, resolution: &'a Resolution)
        requires { length (offered self.old.front (option_list (target_in resolution.now))).seen
            ≤ self.old.bound }
        ensures { self.new
            ≡ record {
              front = offered self.old.front (option_list (target_in resolution.now));
              bound = self.old.bound;
            } }
    {
        match resolution {
            Resolution::Ok(resolved) => self.offer(&resolved.get().specifier),
            Resolution::None => (),
            Resolution::Err(_) => (),
        }
    }

    /// Offers the targets of a dependency.
    pub(crate) fn offer_targets<C: CheckJsResolver>(
        &mut self,
        options: &WalkOptions<'_, C>,
        dependency: &'a Dependency,
    )
        requires { length
            (offered self.old.front
            (targets_of (how C.resolves options.now) ([], dependency.now))).seen
            ≤ self.old.bound }
        ensures { self.new
            ≡ record {
              front = offered self.old.front
                  (targets_of (how C.resolves options.now) ([], dependency.now));
              bound = self.old.bound;
            } }
    {
        self.offer_target(&dependency.maybe_code);
        if options.kind.include_types() {
            self.offer_target(&dependency.maybe_type);
        }
    }

    // The targets of a dependency that is followed.
    #[tactic(auto, unfolding(crate::specs::Order::offered))]
    fn offer_if_followed<C: CheckJsResolver>(
        &mut self,
        options: &WalkOptions<'_, C>,
        dependency: &'a Dependency,
    )
        requires { length
            (offered self.old.front
            (followed_targets (how C.resolves options.now) ([], dependency.now))).seen
            ≤ self.old.bound }
        ensures { self.new
            ≡ record {
              front = offered self.old.front
                  (followed_targets (how C.resolves options.now) ([], dependency.now));
              bound = self.old.bound;
            } }
    {
        if !dependency.is_dynamic || options.follow_dynamic {
            self.offer_targets(options, dependency);
        }
    }

    /// Offers the targets of the followed dependencies, from the last to the first.
    pub(crate) fn offer_followed<C: CheckJsResolver>(
        &mut self,
        options: &WalkOptions<'_, C>,
        dependencies: &'a TextMap<Dependency>,
    )
        requires { length
            (offered self.old.front
            (targets_back (how C.resolves options.now) dependencies.now)).seen
            ≤ self.old.bound }
        ensures { self.new
            ≡ record {
              front = offered self.old.front
                  (targets_back (how C.resolves options.now) dependencies.now);
              bound = self.old.bound;
            } }
    {
        let mut left = dependencies.as_map().as_slice();
        while let Some(((_, dependency), others)) = left.split_last() {
            self.offer_if_followed(options, dependency);
            left = others;
        }
    }

    /// Offers the targets of one referrer's imports, from the first on.
    pub(crate) fn offer_import<C: CheckJsResolver>(
        &mut self,
        options: &WalkOptions<'_, C>,
        dependencies: &'a TextMap<Dependency>,
    )
        requires { length
            (offered self.old.front
            (import_targets (how C.resolves options.now) dependencies.now)).seen
            ≤ self.old.bound }
        ensures { self.new
            ≡ record {
              front = offered self.old.front
                  (import_targets (how C.resolves options.now) dependencies.now);
              bound = self.old.bound;
            } }
    {
        for (_text, dependency) in dependencies.as_map().iter() {
            self.offer_targets(options, dependency);
        }
    }

    /// Offers the targets of configured imports, from the first on.
    pub(crate) fn offer_imports<C: CheckJsResolver>(
        &mut self,
        options: &WalkOptions<'_, C>,
        imports: &'a Entries<ModuleSpecifier, GraphImport>,
    )
        requires { length
            (offered self.old.front
            (import_targets (how C.resolves options.now) (imported imports.now))).seen
            ≤ self.old.bound }
        ensures { self.new
            ≡ record {
              front = offered self.old.front
                  (import_targets (how C.resolves options.now) (imported imports.now));
              bound = self.old.bound;
            } }
    {
        for (_referrer, import) in imports.as_map().iter() {
            self.offer_import(options, &import.dependencies);
        }
    }

    /// Queues the roots in order.
    pub(crate) fn queue_all(&mut self, roots: &'a [ModuleSpecifier])
        requires { length (queued self.old.front (texts roots.now)).seen ≤ self.old.bound }
        ensures { self.new
            ≡ record { front = queued self.old.front (texts roots.now); bound = self.old.bound } }
    {
        let mut left = roots;
        while let Some((first, others)) = left.split_first() {
            self.queue(first);
            left = others;
        }
    }

    /// Copies of the specifiers that were seen, each once.
    pub(crate) fn seen_copies(&self, alloc: Global) -> Result<SpecifierSet, AllocError>
        ensures { IfOk result (λ s. SameMembers (texts s) self.now.front.seen) }
    {
        copies_of(alloc, self.seen.as_slice())
    }
}

fn copies_of(alloc: Global, specifiers: &[&ModuleSpecifier]) -> Result<SpecifierSet, AllocError>
    ensures { IfOk result (λ s. SameMembers (texts s) (lent_texts specifiers.now)) }
{
    let mut copies = SpecifierSet::new(alloc);
    for specifier in specifiers {
        let copy = (*specifier).clone()?;
        copies.insert(copy)?;
    }
    Ok(copies)
}
