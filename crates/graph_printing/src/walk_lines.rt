// The lines of a walk over a graph.
ghost use Rattle.std.specs.Prelude.{◌≡◌, ◌++◌, IfOk, OnOk, string_bytes};
ghost use Rattle.spec_base.specs.Specifier.{specifier_text};
ghost use Rattle.graph_walk.specs.EntryValue.{entry_value};
ghost use Rattle.graph_printing.specs.WalkLines.{entry_line, redirect_line, marked_line, walk_lines};

use graph_core::{GraphKind, ModuleGraph};
use graph_walk::{AllCheckJs, CheckJsOption, ModuleEntryRef, WalkGraph, WalkOptions};
use spec_base::ModuleSpecifier;
use std::alloc::{AllocError, Global};

// A line of a word and a specifier.
fn push_marked(text: &mut String, word: &str, specifier: &ModuleSpecifier) -> Result<(), AllocError>
    ensures { OnOk result
        (string_bytes text.new ≡ string_bytes text.old ++ marked_line word.now specifier.now) }
{
    text.push_str(word)?;
    text.push_str(" ")?;
    text.push_str(specifier.as_str())?;
    text.push_str("\n")?;
    Ok(())
}

// The line of a redirect.
fn push_redirect(
    text: &mut String,
    specifier: &ModuleSpecifier,
    target: &ModuleSpecifier,
) -> Result<(), AllocError>
    ensures { OnOk result
        (string_bytes text.new ≡ string_bytes text.old ++ redirect_line specifier.now target.now) }
{
    text.push_str("redirect ")?;
    text.push_str(specifier.as_str())?;
    text.push_str(" ")?;
    text.push_str(target.as_str())?;
    text.push_str("\n")?;
    Ok(())
}

/// Adds the line of an entry: `module S`, `error S` or `redirect S T`. The only error is want of memory.
#[tactic(auto, unfolding(spec_base::specs::Specifier::specifier_text))]
pub fn push_entry(
    text: &mut String,
    specifier: &ModuleSpecifier,
    entry: ModuleEntryRef<'_>,
) -> Result<(), AllocError>
    ensures { OnOk result
        (string_bytes text.new
        ≡ string_bytes text.old ++ entry_line
        (specifier_text specifier.now, entry_value entry.entry)) }
{
    match entry {
        ModuleEntryRef::Module(_) => push_marked(text, "module", specifier),
        ModuleEntryRef::Err(_) => push_marked(text, "error", specifier),
        ModuleEntryRef::Redirect(target) => push_redirect(text, specifier, target),
    }
}

/// A line for each entry of the walk from the graph's roots over this part of the modules, with dynamic imports and all
/// JavaScript checked, in order: `module S`, `error S` or `redirect S T`, where S is its specifier and T the next one. The
/// only error is want of memory.
#[tactic(auto, unfolding(crate::specs::WalkLines::walk_lines))]
pub fn walk_text(alloc: Global, graph: &ModuleGraph, kind: GraphKind) -> Result<String, AllocError>
    ensures { IfOk result (λ s. string_bytes s ≡ walk_lines kind graph.now) }
{
    let options: WalkOptions<'_, AllCheckJs> = WalkOptions {
        check_js: CheckJsOption::True,
        follow_dynamic: true,
        kind,
        prefer_fast_check_graph: false,
    };
    let mut text = String::new(alloc);
    let mut walk = graph.walk(alloc, graph.roots.as_set().as_slice(), options)?;
    while let Some((specifier, entry)) = walk.next() {
        push_entry(&mut text, specifier, entry)?;
    }
    Ok(text)
}
