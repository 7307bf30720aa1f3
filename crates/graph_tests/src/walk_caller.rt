// Two callers that loop over a walk. Their proofs cite the contracts and the definitions of graph_walk alone.
ghost use Rattle.std.specs.Prelude.{◌≡◌, IfOk, map, true, false};
ghost use Rattle.graph_walk.specs.Options.{how};
ghost use Rattle.graph_walk.specs.Order.{walk_order, texts};
ghost use Rattle.graph_walk.specs.Closure.{GivesClosure};
ghost use Rattle.graph_walk.specs.EntryValue.{item_value};
ghost use Rattle.graph_tests.specs.WalkReached.{HasErrorAt};

use graph_core::ModuleGraph;
use graph_walk::{CheckJsResolver, ModuleEntryRef, WalkGraph, WalkOptions};
use spec_base::ModuleSpecifier;
use std::alloc::{AllocError, Global};

/// All that a graph holds at what its roots lead to, in order.
pub fn reached<'a, C: CheckJsResolver>(
    alloc: Global,
    graph: &'a ModuleGraph,
    roots: &'a [ModuleSpecifier],
    options: WalkOptions<'_, C>,
) -> Result<Vec<(&'a ModuleSpecifier, ModuleEntryRef<'a>)>, AllocError>
    ensures order { IfOk result
        (λ v. map item_value v.items
        ≡ walk_order graph.now (how C.resolves options.entry) (texts roots.now)) }
    ensures closure { IfOk result
        (λ v. GivesClosure graph.now (how C.resolves options.entry) (texts roots.now)
        (map item_value v.items)) }
{
    let mut found = Vec::new(alloc);
    let mut walk = graph.walk(alloc, roots, options)?;
    while let Some(item) = walk.next() {
        found.push(item)?;
    }
    Ok(found)
}

/// Whether an error stands at a specifier to which the roots lead.
pub fn has_error<C: CheckJsResolver>(
    alloc: Global,
    graph: &ModuleGraph,
    roots: &[ModuleSpecifier],
    options: WalkOptions<'_, C>,
) -> Result<bool, AllocError>
    ensures found { IfOk result
        (λ b. b ≡ true → HasErrorAt graph.now (how C.resolves options.entry) (texts roots.now)) }
    ensures none { IfOk result
        (λ b. b ≡ false
        → HasErrorAt graph.now (how C.resolves options.entry) (texts roots.now)
        → ⊥) }
{
    let mut walk = graph.walk(alloc, roots, options)?;
    while let Some((_specifier, entry)) = walk.next() {
        match entry {
            ModuleEntryRef::Err(_) => return Ok(true),
            ModuleEntryRef::Module(_) => (),
            ModuleEntryRef::Redirect(_) => (),
        }
    }
    Ok(false)
}
