// How far a build is.
ghost use Rattle.std.specs.Prelude.{◌≡◌, true, IfNone, IfSome};
ghost use Rattle.graph_builder.specs.Calls.Steps.{first_phase, is_begun, is_finished};

use graph_core::ReferrerImports;
use graph_turns::LeftOver;
use spec_base::{Items, ModuleSpecifier};
use std::mem;

/// How far a build is.
#[derive(Drop)]
pub(crate) enum Phase {
    /// These roots and configured imports haven't entered yet.
    Unbegun(LeftOver),
    /// What is given has entered, and turns are taken.
    Going,
    /// `finish` was Ok.
    Finished,
    /// A call answered a fault.
    Ended,
}

impl Phase {
    /// That of a build before its first call; where nothing is given, nothing is to enter.
    pub(crate) fn first(roots: Vec<ModuleSpecifier>, imports: Vec<ReferrerImports>) -> Phase
        ensures { result ≡ first_phase roots.items imports.items }
    {
        let left_over = LeftOver {
            roots: Items::from(roots),
            imports: Items::from(imports),
        };
        if left_over.is_empty() {
            Phase::Going
        } else {
            Phase::Unbegun(left_over)
        }
    }

    /// Whether what is given has entered.
    pub(crate) fn is_begun(&self) -> bool
        ensures { result ≡ is_begun self.now }
    {
        match self {
            Phase::Unbegun(_) => false,
            Phase::Going | Phase::Finished | Phase::Ended => true,
        }
    }

    /// What hasn't entered goes out, and the phase is that of a build that has ended; where nothing is left, it stays.
    pub(crate) fn take_left(&mut self) -> Option<LeftOver>
        ensures some { IfSome result
            (λ left. (self.old ≡ Phase.Unbegun left) × (self.new ≡ Phase.Ended)) }
        ensures none { IfNone result ((is_begun self.old ≡ true) × (self.new ≡ self.old)) }
    {
        match mem::replace(self, Phase::Ended) {
            Phase::Unbegun(left_over) => Some(left_over),
            Phase::Going => {
                *self = Phase::Going;
                None
            }
            Phase::Finished => {
                *self = Phase::Finished;
                None
            }
            Phase::Ended => None,
        }
    }

    /// Whether the graph that was built may be given.
    pub(crate) fn is_finished(&self) -> bool
        ensures { result ≡ is_finished self.now }
    {
        match self {
            Phase::Finished => true,
            Phase::Unbegun(_) | Phase::Going | Phase::Ended => false,
        }
    }
}
