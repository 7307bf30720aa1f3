// The errors of a walk: those of each entry from the last to the first.
ghost use Rattle.std.specs.Prelude.{◌≡◌, [], false, OnOk};
ghost use Rattle.std.specs.Iterator.{at_most};
ghost use Rattle.spec_base.specs.Refusal.{Answers};
ghost use Rattle.graph_walk.specs.Errors.{error_list, errors_left, rest_errors, errors_room, YieldsError, first_of, validity};
ghost use Rattle.graph_walk.specs.Options.{how};
ghost use Rattle.graph_walk.specs.Order.{rest};

use crate::entries::push_entry;
use crate::options::{AllCheckJs, CheckJsOption, CheckJsResolver, WalkOptions};
use crate::walk::{ModuleEntryIterator, walk_from};
use graph_core::{GraphKind, ModuleGraph, ModuleGraphError};
use spec_base::Refusal;
use std::alloc::{AllocError, Global};
use std::marker::Model;

// Where no error is left of the last entry, collects those of the next entry that has some. At the end of the walk none are collected.
fn collect<C: CheckJsResolver>(
    alloc: Global,
    walk: &mut ModuleEntryIterator<'_, '_, C>,
    errors: &mut Vec<ModuleGraphError>,
) -> Result<(), AllocError>
    ensures ok { OnOk result (errors_left (how C.resolves) walk.old errors.old.items
        ≡ errors_left (how C.resolves) walk.new errors.new.items) }
    ensures end { OnOk result (errors.new.items ≡ [] → rest (how C.resolves) walk.new ≡ []) }
{
    while errors.is_empty() {
        match walk.advance() {
            None => return Ok(()),
            Some((_, entry)) => push_entry(alloc, walk.graph(), walk.options(), errors, entry)?,
        }
    }
    Ok(())
}

/// The errors of a walk: those of one entry after another, of each from the last to the first. The only other
/// item is want of memory, after which none come.
pub struct ModuleGraphErrorIterator<'a, 'options, C: CheckJsResolver> {
    alloc: Global,
    walk: ModuleEntryIterator<'a, 'options, C>,
    collected: Vec<ModuleGraphError>,
    has_ended: bool,
}

// So that its drop is one call at each way out of what owns it.
impl<'a, 'options, C: CheckJsResolver> Drop for ModuleGraphErrorIterator<'a, 'options, C> {
    fn drop(self) {
        let ModuleGraphErrorIterator {
            alloc: _,
            walk: _,
            collected: _,
            has_ended: _,
        } = self;
    }
}

impl<'a, 'options, C: CheckJsResolver> Model for ModuleGraphErrorIterator<'a, 'options, C> {
    ghost use Rattle.std.specs.Coded.{codes};
    ghost use Rattle.graph_walk.specs.Errors.{ErrorsView};
    ghost use Rattle.graph_walk.specs.declared.options.WalkOptions.{WalkOptions};
    ghost use Rattle.graph_core.specs.contracts.graph.ModuleGraph as whole;

    ghost Value = { ErrorsView (WalkOptions C) };

    ghost coded = { Prim.hlevel (codes, whole.the_row.coded) };

    ghost view = { λ e. record { walk = e.walk; collected = e.collected.items; has_ended = e.has_ended } };
}

impl<'a, 'options, C: CheckJsResolver> ModuleGraphErrorIterator<'a, 'options, C> {
    /// The errors of what is left of a walk.
    pub fn new(
        alloc: Global,
        iterator: ModuleEntryIterator<'a, 'options, C>,
    ) -> ModuleGraphErrorIterator<'a, 'options, C>
        ensures errors { rest_errors (how C.resolves) result
            ≡ error_list iterator.entry.graph (how C.resolves iterator.entry.options)
            (rest (how C.resolves) iterator.entry) }
        ensures goes_on { result.has_ended ≡ false }
    {
        ModuleGraphErrorIterator {
            alloc,
            walk: iterator,
            collected: Vec::new(alloc),
            has_ended: false,
        }
    }
}

impl<'a, 'options, C: CheckJsResolver> Iterator for ModuleGraphErrorIterator<'a, 'options, C> {
    type Item = Result<ModuleGraphError, AllocError>;

    ghost next_gives = { YieldsError (how C.resolves) };

    ghost remaining = { λ e. at_most (errors_room (how C.resolves) e) };

    fn next(&mut self) -> Option<Result<ModuleGraphError, AllocError>> {
        if self.has_ended {
            return None;
        }
        match collect(self.alloc, &mut self.walk, &mut self.collected) {
            Ok(()) => (),
            Err(fault) => {
                self.has_ended = true;
                return Some(Err(fault));
            }
        }
        let error = match self.collected.pop() {
            None => return None,
            Some(error) => error,
        };
        Some(Ok(error))
    }
}

impl<'a, 'options, C: CheckJsResolver> ModuleEntryIterator<'a, 'options, C> {
    /// The errors of what is left of the walk.
    pub fn errors(self, alloc: Global) -> ModuleGraphErrorIterator<'a, 'options, C>
        ensures errors { rest_errors (how C.resolves) result
            ≡ error_list self.entry.graph (how C.resolves self.entry.options)
            (rest (how C.resolves) self.entry) }
        ensures goes_on { result.has_ended ≡ false }
    {
        ModuleGraphErrorIterator::new(alloc, self)
    }

    /// Whether what is left of the walk has no error; else the first is answered. The other refusal is want of memory.
    pub fn validate(self, alloc: Global) -> Result<(), Refusal<ModuleGraphError>>
        ensures { Answers result
            (first_of
            (error_list self.entry.graph (how C.resolves self.entry.options)
            (rest (how C.resolves) self.entry))) }
    {
        match self.errors(alloc).next() {
            None => Ok(()),
            Some(Ok(error)) => Err(Refusal::Is(error)),
            Some(Err(_)) => Err(Refusal::Memory),
        }
    }
}

/// Whether a graph is valid: the walk from its roots over code, but for dynamic imports, finds no error.
#[tactic(auto, unfolding(crate::specs::Errors::validity))]
pub(crate) fn valid(alloc: Global, graph: &ModuleGraph) -> Result<(), Refusal<ModuleGraphError>>
    ensures { Answers result (validity graph.now) }
{
    let options: WalkOptions<'_, AllCheckJs> = WalkOptions {
        check_js: CheckJsOption::True,
        follow_dynamic: false,
        kind: GraphKind::CodeOnly,
        prefer_fast_check_graph: false,
    };
    let walk = walk_from(alloc, graph, graph.roots.as_set().as_slice(), options)?;
    walk.validate(alloc)
}
