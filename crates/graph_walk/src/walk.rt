// The walk: its entries in order, one at each call.
ghost use Rattle.std.specs.Prelude.{◌≡◌, ◌≤◌, ◌<◌, Some, None, length, IfOk, IfNone, IfSome, option_copied};
ghost use Rattle.std.specs.Option.{option_map};
ghost use Rattle.std.specs.Iterator.{YieldsFirstBy, item_count};
ghost use Rattle.spec_base.specs.Specifier.{specifier_text};
ghost use Rattle.graph_walk.specs.Options.{how};
ghost use Rattle.graph_walk.specs.Order.{offered, option_list, texts, types_target, has_target, walked, is_passed_over, types_at_slot, late_at_slot, entry_at_slot, entry_at, early, late, pending_adds, front_left, steps_left, rest, walk_order, redirect_text};
ghost use Rattle.graph_walk.specs.EntryValue.{entry_value, given_text, item_value, text_in};
ghost use Rattle.graph_walk.specs.Closure.{GivesClosure};
ghost use Rattle.graph_walk.specs.Room.{IsReady, GivesNext};

use crate::options::{CheckJsResolver, WalkOptions, is_types_only};
use crate::room::room;
use crate::seen_and_waiting::Front;
use graph_core::{
    Dependency, JsModule, Module, ModuleError, ModuleGraph, ModuleSlot, Resolution, TypesDependency,
};
use spec_base::{ModuleSpecifier, TextMap};
use std::alloc::{AllocError, Global};
use std::marker::Model;

/// What stands at a specifier that a walk gives.
#[derive(Clone, Copy)]
pub enum ModuleEntryRef<'a> {
    Module(&'a Module),
    Err(&'a ModuleError),
    Redirect(&'a ModuleSpecifier),
}

fn has_target(types: &Option<TypesDependency>) -> bool
    ensures { result ≡ has_target (types_target types.now) }
{
    match types {
        Some(types) => matches!(types.dependency, Resolution::Ok(_)),
        None => false,
    }
}

fn is_passed_over<C: CheckJsResolver>(options: &WalkOptions<'_, C>, script: &JsModule) -> bool
    ensures { result ≡ is_passed_over (how C.resolves options.now) script.now }
{
    is_types_only(options.kind)
        && (has_target(&script.maybe_types_dependency)
            || !options.is_checkable(&script.specifier, script.media_type))
}

// The dependencies that a walk takes of a module: with the option those that a fast check left, where its types are taken.
#[tactic(auto, unfolding(crate::specs::Order::walked))]
pub(crate) fn walked<'a, C: CheckJsResolver>(
    options: &WalkOptions<'_, C>,
    script: &'a JsModule,
) -> &'a TextMap<Dependency>
    ensures { result.now ≡ walked (how C.resolves options.now) script.now }
{
    if options.prefer_fast_check_graph
        && options.kind.include_types()
        && options.is_checkable(&script.specifier, script.media_type)
    {
        script.dependencies_prefer_fast_check()
    } else {
        &script.dependencies
    }
}

#[tactic(auto, unfolding(crate::specs::Order::offered))]
fn offer_types<'a>(front: &mut Front<'a>, types: &'a Option<TypesDependency>)
    requires { length (offered front.old.front (option_list (types_target types.now))).seen
        ≤ front.old.bound }
    ensures { front.new
        ≡ record {
          front = offered front.old.front (option_list (types_target types.now));
          bound = front.old.bound;
        } }
{
    match types {
        Some(types) => front.offer_target(&types.dependency),
        None => (),
    }
}

// What the slot adds at once is offered, and its entry comes back.
#[tactic(auto, unfolding(crate::specs::Order::offered))]
fn visit_slot<'a, C: CheckJsResolver>(
    options: &WalkOptions<'_, C>,
    front: &mut Front<'a>,
    slot: &'a ModuleSlot,
) -> Option<ModuleEntryRef<'a>>
    requires { length
        (offered front.old.front (types_at_slot (how C.resolves options.now) slot.now)).seen
        ≤ front.old.bound }
    ensures front { front.new
        ≡ record {
          front = offered front.old.front (types_at_slot (how C.resolves options.now) slot.now);
          bound = front.old.bound;
        } }
    ensures entry { option_map entry_value result
        ≡ entry_at_slot (how C.resolves options.now) slot.now }
{
    match slot {
        ModuleSlot::Module(module) => match module {
            Module::Js(script) => {
                if options.kind.include_types() {
                    offer_types(front, &script.maybe_types_dependency);
                }
                if is_passed_over(options, script) {
                    None
                } else {
                    Some(ModuleEntryRef::Module(module))
                }
            }
            Module::Json(_) => Some(ModuleEntryRef::Module(module)),
            Module::Wasm(_) => Some(ModuleEntryRef::Module(module)),
            Module::Npm(_) => Some(ModuleEntryRef::Module(module)),
            Module::Node(_) => Some(ModuleEntryRef::Module(module)),
            Module::External(_) => Some(ModuleEntryRef::Module(module)),
        },
        ModuleSlot::Err(error) => Some(ModuleEntryRef::Err(error)),
        ModuleSlot::Pending { .. } => None,
    }
}

#[tactic(auto, unfolding(crate::specs::Order::offered, crate::specs::Order::early, crate::specs::Order::entry_at))]
fn visit<'a, C: CheckJsResolver>(
    graph: &'a ModuleGraph,
    options: &WalkOptions<'_, C>,
    front: &mut Front<'a>,
    specifier: &ModuleSpecifier,
) -> Option<ModuleEntryRef<'a>>
    requires { length
        (offered front.old.front
        (early graph.now (how C.resolves options.now) (specifier_text specifier.now))).seen
        ≤ front.old.bound }
    ensures front { front.new
        ≡ record {
          front = offered front.old.front
              (early graph.now (how C.resolves options.now) (specifier_text specifier.now));
          bound = front.old.bound;
        } }
    ensures entry { option_map entry_value result
        ≡ entry_at graph.now (how C.resolves options.now) (specifier_text specifier.now) }
{
    match graph.slot(specifier) {
        Some(slot) => visit_slot(options, front, slot),
        None => match graph.redirects.get(specifier) {
            Some(target) => Some(ModuleEntryRef::Redirect(target)),
            None => None,
        },
    }
}

#[tactic(auto, unfolding(crate::specs::Order::offered))]
pub(crate) fn add_late_of_slot<'a, C: CheckJsResolver>(
    options: &WalkOptions<'_, C>,
    front: &mut Front<'a>,
    slot: &'a ModuleSlot,
)
    requires { length
        (offered front.old.front (late_at_slot (how C.resolves options.now) slot.now)).seen
        ≤ front.old.bound }
    ensures { front.new
        ≡ record {
          front = offered front.old.front (late_at_slot (how C.resolves options.now) slot.now);
          bound = front.old.bound;
        } }
{
    match slot {
        ModuleSlot::Module(Module::Js(script)) => {
            if !is_passed_over(options, script) {
                front.offer_followed(options, walked(options, script));
            }
        }
        ModuleSlot::Module(Module::Json(_)) => (),
        ModuleSlot::Module(Module::Wasm(wasm)) => front.offer_followed(options, &wasm.dependencies),
        ModuleSlot::Module(Module::Npm(_)) => (),
        ModuleSlot::Module(Module::Node(_)) => (),
        ModuleSlot::Module(Module::External(_)) => (),
        ModuleSlot::Err(_) => (),
        ModuleSlot::Pending { .. } => (),
    }
}

#[tactic(auto, unfolding(crate::specs::Order::offered))]
fn offer_redirect<'a>(front: &mut Front<'a>, redirect: Option<&'a ModuleSpecifier>)
    requires { length
        (offered front.old.front (option_list (redirect_text (option_copied redirect)))).seen
        ≤ front.old.bound }
    ensures { front.new
        ≡ record {
          front = offered front.old.front
              (option_list (redirect_text (option_copied redirect.entry)));
          bound = front.old.bound;
        } }
{
    match redirect {
        Some(target) => front.offer(target),
        None => (),
    }
}

#[tactic(auto, unfolding(crate::specs::Order::late))]
fn add_late<'a, C: CheckJsResolver>(
    graph: &'a ModuleGraph,
    options: &WalkOptions<'_, C>,
    front: &mut Front<'a>,
    specifier: &ModuleSpecifier,
)
    requires { length
        (offered front.old.front
        (late graph.now (how C.resolves options.now) (specifier_text specifier.now))).seen
        ≤ front.old.bound }
    ensures { front.new
        ≡ record {
          front = offered front.old.front
              (late graph.now (how C.resolves options.now) (specifier_text specifier.now));
          bound = front.old.bound;
        } }
{
    match graph.slot(specifier) {
        Some(slot) => add_late_of_slot(options, front, slot),
        None => offer_redirect(front, graph.redirects.get(specifier)),
    }
}

#[tactic(auto, unfolding(crate::specs::Order::offered))]
fn add_pending<'a, C: CheckJsResolver>(
    graph: &'a ModuleGraph,
    options: &WalkOptions<'_, C>,
    front: &mut Front<'a>,
    last: Option<&'a ModuleSpecifier>,
)
    requires { length
        (offered front.old.front
        (pending_adds graph.now (how C.resolves options.now) (text_in last))).seen
        ≤ front.old.bound }
    ensures { front.new
        ≡ record {
          front = offered front.old.front
              (pending_adds graph.now (how C.resolves options.now) (text_in last.entry));
          bound = front.old.bound;
        } }
{
    match last {
        Some(specifier) => add_late(graph, options, front, specifier),
        None => (),
    }
}

fn next_entry<'a, C: CheckJsResolver>(
    graph: &'a ModuleGraph,
    options: &WalkOptions<'_, C>,
    front: &mut Front<'a>,
) -> Option<(&'a ModuleSpecifier, ModuleEntryRef<'a>)>
    requires { IsReady graph.now (how C.resolves options.now) None front.old }
    ensures steps { GivesNext graph.now (how C.resolves options.now) front.old
        (option_map item_value result) front.new }
    ensures nearer { IfSome result (λ _. front_left front.new < front_left front.old) }
{
    while let Some(specifier) = front.take() {
        match visit(graph, options, front, specifier) {
            Some(entry) => return Some((specifier, entry)),
            None => (),
        }
    }
    None
}

/// The entries of a walk in order. Its memory was taken when it was made.
pub struct ModuleEntryIterator<'a, 'options, C: CheckJsResolver> {
    graph: &'a ModuleGraph,
    options: WalkOptions<'options, C>,
    front: Front<'a>,
    last: Option<&'a ModuleSpecifier>,
}

// So that its drop is one call at each way out of what owns it.
impl<'a, 'options, C: CheckJsResolver> Drop for ModuleEntryIterator<'a, 'options, C> {
    fn drop(self) {
        let ModuleEntryIterator {
            graph: _,
            options: _,
            front: _,
            last: _,
        } = self;
    }
}

impl<'a, 'options, C: CheckJsResolver> Model for ModuleEntryIterator<'a, 'options, C> {
    ghost use Rattle.std.specs.Coded.{codes};
    ghost use Rattle.graph_walk.specs.Order.{WalkView};
    ghost use Rattle.graph_walk.specs.EntryValue.{text_in};
    ghost use Rattle.graph_walk.specs.Options.{how};
    ghost use Rattle.graph_walk.specs.Room.{IsReady};
    ghost use Rattle.graph_walk.specs.declared.options.WalkOptions.{WalkOptions};
    ghost use Rattle.graph_core.specs.contracts.graph.ModuleGraph as whole;

    ghost Value = { WalkView (WalkOptions C) };

    ghost coded = { Prim.hlevel (codes, whole.the_row.coded) };

    ghost view = { λ w. record { graph = w.graph.now; options = w.options; front = w.front; last = text_in w.last } };

    ghost invariant = { λ w. IsReady w.graph.now (how C.resolves w.options) (text_in w.last) w.front };
}

impl<'a, 'options, C: CheckJsResolver> ModuleEntryIterator<'a, 'options, C> {
    /// The graph.
    pub(crate) fn graph(&self) -> &'a ModuleGraph
        ensures { result.now ≡ self.now.graph }
    {
        self.graph
    }

    /// The options.
    pub(crate) fn options(&self) -> &WalkOptions<'options, C>
        ensures { result.now ≡ self.now.options }
    {
        &self.options
    }

    /// The next entry, as `next` gives it, which the walk remembers until the next call. It says besides that the graph and the options
    /// stay, and that with each entry fewer steps are left, so that a loop which skips what entries add is seen to end.
    pub fn advance(&mut self) -> Option<(&'a ModuleSpecifier, ModuleEntryRef<'a>)>
        ensures steps { YieldsFirstBy item_value (rest (how C.resolves)) self.old result self.new }
        ensures graph { self.new.graph ≡ self.old.graph }
        ensures options { self.new.options ≡ self.old.options }
        ensures nearer { IfSome result (λ _. steps_left self.new < steps_left self.old) }
        ensures remembers { self.new.last ≡ given_text result }
        ensures last { IfSome result (λ p. self.new.last ≡ Some (specifier_text p.0.now)) }
        ensures none { IfNone result (self.new.last ≡ None) }
    {
        add_pending(self.graph, &self.options, &mut self.front, self.last);
        self.last = None;
        match next_entry(self.graph, &self.options, &mut self.front) {
            None => None,
            Some((specifier, entry)) => {
                self.last = Some(specifier);
                Some((specifier, entry))
            }
        }
    }

    /// What the last entry would still add won't come. So a walk may give less than was left, and no more steps than before.
    pub fn skip_previous_dependencies(&mut self)
        ensures { self.new ≡ record self.old { last = None } }
    {
        self.last = None;
    }
}

impl<'a, 'options, C: CheckJsResolver> Iterator for ModuleEntryIterator<'a, 'options, C> {
    type Item = (&'a ModuleSpecifier, ModuleEntryRef<'a>);

    ghost next_gives = { λ s r t. YieldsFirstBy item_value (rest (how C.resolves)) s r t × (t.last ≡ given_text r) };

    ghost remaining = { item_count (rest (how C.resolves)) };

    fn next(&mut self) -> Option<(&'a ModuleSpecifier, ModuleEntryRef<'a>)> {
        self.advance()
    }
}

/// The walk from these roots, with all its memory.
pub(crate) fn walk_from<'a, 'options, C: CheckJsResolver>(
    alloc: Global,
    graph: &'a ModuleGraph,
    roots: &'a [ModuleSpecifier],
    options: WalkOptions<'options, C>,
) -> Result<ModuleEntryIterator<'a, 'options, C>, AllocError>
    ensures order { IfOk result
        (λ w. rest (how C.resolves) w
        ≡ walk_order graph.now (how C.resolves options.entry) (texts roots.now)) }
    ensures graph { IfOk result (λ w. w.graph ≡ graph.now) }
    ensures options { IfOk result (λ w. w.options ≡ options.entry) }
    ensures last { IfOk result (λ w. w.last ≡ None) }
    ensures closure { IfOk result
        (λ w. GivesClosure graph.now (how C.resolves options.entry) (texts roots.now)
        (rest (how C.resolves) w)) }
{
    let bound = match room(graph, &options, roots) {
        None => return Err(AllocError),
        Some(bound) => bound,
    };
    let mut front = Front::with_room(alloc, bound)?;
    front.queue_all(roots);
    front.offer_imports(&options, &graph.imports);
    Ok(ModuleEntryIterator {
        graph,
        options,
        front,
        last: None,
    })
}
