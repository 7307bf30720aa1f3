// The errors of a walk over a graph, a line for each.
ghost use Rattle.std.specs.Prelude.{◌≡◌, ◌++◌, true, IfOk, OnOk, MatchResult, string_bytes};
ghost use Rattle.graph_walk.specs.Options.{answered, how};
ghost use Rattle.calls_program.specs.Lines.{errors_how, error_line, errors_lines};

use crate::call::ErrorsCall;
use graph_core::{ModuleGraph, ModuleGraphError};
use graph_walk::{AllCheckJs, CheckJsOption, WalkGraph, WalkOptions};
use json_forms::text_json;
use std::alloc::{AllocError, Global};

// Adds the line of an error.
fn push_line(alloc: Global, text: &mut String, error: &ModuleGraphError) -> Result<(), AllocError>
    ensures { OnOk result (string_bytes text.new ≡ string_bytes text.old ++ error_line error.now) }
{
    let told = error.to_string_with_range(alloc)?;
    let shown = text_json(alloc, told.as_str())?;
    let line = shown.to_string(alloc)?;
    text.push_str(line.as_str())?;
    text.push_str("\n")?;
    Ok(())
}

// Adds the line of what a walk found, which is an error or want of memory. It is lent, so that its drop isn't written out
// at each way out.
fn push_found(
    alloc: Global,
    text: &mut String,
    found: &Result<ModuleGraphError, AllocError>,
) -> Result<(), AllocError>
    ensures { OnOk result
        (MatchResult found.now (λ e. string_bytes text.new ≡ string_bytes text.old ++ error_line e)
        (λ _. ⊥)) }
{
    match found {
        Ok(error) => push_line(alloc, text, error),
        Err(_) => Err(AllocError),
    }
}

// Whether JavaScript is checked, as an option of a walk.
fn check_js_of<'a>(checks_js: bool) -> CheckJsOption<'a, AllCheckJs>
    ensures { answered (λ _ _. true) result ≡ (λ _. checks_js) }
{
    if checks_js {
        CheckJsOption::True
    } else {
        CheckJsOption::False
    }
}

/// How a walk goes whose errors or entries are listed.
pub(crate) fn options_of<'a>(listed: ErrorsCall) -> WalkOptions<'a, AllCheckJs>
    ensures { how (λ _ _. true) result ≡ errors_how listed }
{
    WalkOptions {
        check_js: check_js_of(listed.checks_js),
        follow_dynamic: listed.follow_dynamic,
        kind: listed.kind,
        prefer_fast_check_graph: false,
    }
}

/// A line for each error of the walk from the graph's roots, in order: its text with the import that is to blame, where one
/// is known, as JSON. The only error is want of memory.
pub(crate) fn errors_text(
    alloc: Global,
    graph: &ModuleGraph,
    listed: ErrorsCall,
) -> Result<String, AllocError>
    ensures { IfOk result (λ s. string_bytes s ≡ errors_lines listed graph.now) }
{
    let roots = graph.roots.as_set().as_slice();
    let walk = graph.walk(alloc, roots, options_of(listed))?;
    let mut text = String::new(alloc);
    let mut errors = walk.errors(alloc);
    while let Some(found) = errors.next() {
        push_found(alloc, &mut text, &found)?;
    }
    Ok(text)
}
