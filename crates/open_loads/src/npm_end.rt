// The end of a build for `npm:` specifiers that wait.
ghost use Rattle.std.specs.Prelude.{◌≡◌, [], OnOk};
ghost use Rattle.graph_core.specs.Npm.{npm_of, IsNpmSettled};
ghost use Rattle.graph_turns.specs.Machine.Npm.{IsEnded};

use graph_turns::State;
use npm_resolver::{NpmResolver, TableNpmResolver};
use npm_settling::settle_npm;
use spec_base::Queue;
use std::alloc::{AllocError, Global};
use std::mem;

// Each specifier that waits and has no slot gets one by what a resolver says of its requirement.
fn settle_waiting<N: NpmResolver>(
    alloc: Global,
    state: &mut State,
    resolver: &N,
) -> Result<(), AllocError>
    ensures same { OnOk result
        (state.new ≡ record state.old { graph = state.new.graph; npm = [] }) }
    ensures settled { OnOk result
        (IsNpmSettled (N.table resolver.now) state.old.npm state.old.graph state.new.graph) }
{
    let waiting = mem::replace(&mut state.npm, Queue::new(alloc));
    settle_npm(alloc, &mut state.graph, waiting, resolver)
}

/// `npm:` specifiers that wait for the end get their slots, where the flags say that they wait; without a resolver all requirements are
/// resolved. Where none waits so, nothing changes.
pub(crate) fn end_npm<N: NpmResolver>(
    alloc: Global,
    state: &mut State,
    resolver: Option<&N>,
) -> Result<(), AllocError>
    ensures same { OnOk result
        (state.new ≡ record state.old { graph = state.new.graph; npm = state.new.npm }) }
    ensures ended { OnOk result
        (IsEnded (npm_of N.table resolver.entry) state.old state.new.graph) }
{
    if !state.flags.resolves_npm {
        return Ok(());
    }
    match resolver {
        Some(resolver) => settle_waiting(alloc, state, resolver),
        None => {
            let resolver = TableNpmResolver::new(Vec::new(alloc), Ok(()));
            settle_waiting(alloc, state, &resolver)
        }
    }
}
