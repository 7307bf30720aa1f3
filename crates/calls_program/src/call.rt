// The calls on a built graph, as words name them.
ghost use Rattle.std.specs.Prelude.{◌≡◌, map, option_map, string_bytes};
ghost use Rattle.spec_base.specs.Refusal.{Reads};
ghost use Rattle.graph_printing.specs.Commands.{kind_of};
ghost use Rattle.calls_program.specs.declared.call.Call.TheVariants.{Walk};
ghost use Rattle.calls_program.specs.Calls.{call_of, call_named, entries_of, walk_from, walk_call, walk_with, errors_of, segment_call, prune_call, reload_of, packages_of, packages_by, resolution_kind_of, specifiers_of, listed_by, said_or_denied};

use graph_core::GraphKind;
use graph_printing::kind_of;
use json_forms::{Misfit, read_url};
use spec_base::{Items, ModuleSpecifier, Refusal, ResolutionKind};
use std::alloc::Global;

/// Which errors of a graph are listed: those of a walk from its roots.
#[derive(Clone, Copy, PartialEq, Eq, Debug)]
pub struct ErrorsCall {
    /// The part of the modules that is walked over.
    pub kind: GraphKind,
    /// Whether dynamic imports are followed.
    pub follow_dynamic: bool,
    /// Whether JavaScript is checked.
    pub checks_js: bool,
}

/// Which entries of a graph are listed: those of a walk from these roots.
#[derive(Drop)]
pub struct EntriesCall {
    /// How the walk goes.
    pub how: ErrorsCall,
    pub roots: Items<ModuleSpecifier>,
}

/// Which packages take the place of the modules of npm.
#[derive(Drop)]
pub struct PackagesCall {
    /// The folder where roots that lead to npm are resolved.
    pub root_dir: ModuleSpecifier,
    /// Whether edges are resolved for code or for types.
    pub kind: ResolutionKind,
}

/// A call on a built graph.
#[derive(Drop)]
pub enum Call {
    /// A walk from the graph's roots over this part of the modules.
    Walk(GraphKind),
    /// A walk from roots of its own.
    Entries(EntriesCall),
    /// The errors of a walk.
    Errors(ErrorsCall),
    /// The part of the graph to which these roots lead.
    Segment(Items<ModuleSpecifier>),
    /// The graph loses its types.
    Prune,
    /// These specifiers are loaded again.
    Reload(Items<ModuleSpecifier>),
    /// Packages take the place of the modules of npm.
    Packages(PackagesCall),
}

// Specifiers, each from its word.
fn specifiers_of(alloc: Global, words: &[String]) -> Result<Items<ModuleSpecifier>, Refusal<Misfit>>
    ensures { Reads result (specifiers_of (map (λ w. string_bytes w) words.now)) }
{
    let mut specifiers = Items::new(alloc);
    for word in words {
        specifiers.push(read_url(alloc, word.as_str())?)?;
    }
    Ok(specifiers)
}

// Whether a word is the one that says so or the one that denies it.
fn told_by(said: &str, denied: &str, word: &str) -> Option<bool>
    ensures { result ≡ said_or_denied said.now denied.now word.now }
{
    if word == said {
        Some(true)
    } else if word == denied {
        Some(false)
    } else {
        None
    }
}

// Which errors are listed: the words of the part of the modules, of dynamic imports and of JavaScript.
fn listed_by(kind: &str, dynamic: &str, js: &str) -> Option<ErrorsCall>
    ensures { result ≡ listed_by kind.now dynamic.now js.now }
{
    Some(ErrorsCall {
        kind: kind_of(kind)?,
        follow_dynamic: told_by("dynamic", "static", dynamic)?,
        checks_js: told_by("js", "nojs", js)?,
    })
}

// The entries of a walk that goes as three words say, from the roots that the others are.
#[tactic(auto, unfolding(crate::specs::Calls::entries_of))]
fn entries_of(
    alloc: Global,
    listed: Option<ErrorsCall>,
    roots: &[String],
) -> Result<Call, Refusal<Misfit>>
    ensures { Reads result (entries_of listed (map (λ w. string_bytes w) roots.now)) }
{
    match listed {
        Some(how) => {
            let roots = specifiers_of(alloc, roots)?;
            Ok(Call::Entries(EntriesCall { how, roots }))
        }
        None => Err(Refusal::Is(Misfit)),
    }
}

// The same where the three words are given one by one.
fn entries_by(
    alloc: Global,
    kind: &str,
    dynamic: &str,
    js: &str,
    roots: &[String],
) -> Result<Call, Refusal<Misfit>>
    ensures { Reads result
        (entries_of (listed_by kind.now dynamic.now js.now) (map (λ w. string_bytes w) roots.now)) }
{
    let listed = listed_by(kind, dynamic, js);
    entries_of(alloc, listed, roots)
}

// The walk of a kind that two words and roots say: those of dynamic imports, which stands before these words, and of JavaScript.
fn walk_from(
    alloc: Global,
    kind: &str,
    dynamic: &str,
    words: &[String],
) -> Result<Call, Refusal<Misfit>>
    ensures { Reads result (walk_from kind.now dynamic.now (map (λ w. string_bytes w) words.now)) }
{
    match words {
        [js, roots @ ..] => entries_by(alloc, kind, dynamic, js.as_str(), roots),
        _ => Err(Refusal::Is(Misfit)),
    }
}

// The walk over the part of a kind.
fn walk_over(kind: &str) -> Result<Call, Refusal<Misfit>>
    ensures { Reads result (option_map Walk (kind_of kind.now)) }
{
    match kind_of(kind) {
        Some(kind) => Ok(Call::Walk(kind)),
        None => Err(Refusal::Is(Misfit)),
    }
}

// The walk over the part of a kind, from the graph's roots where no word follows.
fn walk_with(alloc: Global, kind: &str, words: &[String]) -> Result<Call, Refusal<Misfit>>
    ensures { Reads result (walk_with kind.now (map (λ w. string_bytes w) words.now)) }
{
    match words {
        [dynamic, rest @ ..] => walk_from(alloc, kind, dynamic.as_str(), rest),
        _ => walk_over(kind),
    }
}

// The walk over the part that the first word names.
fn walk_of(alloc: Global, words: &[String]) -> Result<Call, Refusal<Misfit>>
    ensures { Reads result (walk_call (map (λ w. string_bytes w) words.now)) }
{
    match words {
        [kind, rest @ ..] => walk_with(alloc, kind.as_str(), rest),
        _ => Err(Refusal::Is(Misfit)),
    }
}

// The errors that three words list.
fn errors_of(words: &[String]) -> Result<Call, Refusal<Misfit>>
    ensures { Reads result (errors_of (map (λ w. string_bytes w) words.now)) }
{
    match words {
        [kind, dynamic, js] => match listed_by(kind.as_str(), dynamic.as_str(), js.as_str()) {
            Some(listed) => Ok(Call::Errors(listed)),
            None => Err(Refusal::Is(Misfit)),
        },
        _ => Err(Refusal::Is(Misfit)),
    }
}

// The segment of some roots.
fn segment_of(alloc: Global, words: &[String]) -> Result<Call, Refusal<Misfit>>
    ensures { Reads result (segment_call (map (λ w. string_bytes w) words.now)) }
{
    Ok(Call::Segment(specifiers_of(alloc, words)?))
}

// The pruning, which no word follows.
fn prune_of(words: &[String]) -> Result<Call, Refusal<Misfit>>
    ensures { Reads result (prune_call (map (λ w. string_bytes w) words.now)) }
{
    match words {
        [] => Ok(Call::Prune),
        _ => Err(Refusal::Is(Misfit)),
    }
}

// The reload of one specifier or more.
fn reload_of(alloc: Global, words: &[String]) -> Result<Call, Refusal<Misfit>>
    ensures { Reads result (reload_of (map (λ w. string_bytes w) words.now)) }
{
    if words.is_empty() {
        return Err(Refusal::Is(Misfit));
    }
    Ok(Call::Reload(specifiers_of(alloc, words)?))
}

// For what edges are resolved, as a word says.
fn resolution_kind_of(word: &str) -> Option<ResolutionKind>
    ensures { result ≡ resolution_kind_of word.now }
{
    if word == "code" {
        Some(ResolutionKind::Execution)
    } else if word == "types" {
        Some(ResolutionKind::Types)
    } else {
        None
    }
}

// The packages that a folder and a kind name.
fn packages_by(alloc: Global, root_dir: &str, kind: &str) -> Result<Call, Refusal<Misfit>>
    ensures { Reads result (packages_by root_dir.now kind.now) }
{
    match resolution_kind_of(kind) {
        Some(kind) => {
            let root_dir = read_url(alloc, root_dir)?;
            Ok(Call::Packages(PackagesCall { root_dir, kind }))
        }
        None => Err(Refusal::Is(Misfit)),
    }
}

// The packages that two words name.
fn packages_of(alloc: Global, words: &[String]) -> Result<Call, Refusal<Misfit>>
    ensures { Reads result (packages_of (map (λ w. string_bytes w) words.now)) }
{
    match words {
        [root_dir, kind] => packages_by(alloc, root_dir.as_str(), kind.as_str()),
        _ => Err(Refusal::Is(Misfit)),
    }
}

// The call of a name and the words after it.
fn call_named(alloc: Global, name: &str, words: &[String]) -> Result<Call, Refusal<Misfit>>
    ensures { Reads result (call_named name.now (map (λ w. string_bytes w) words.now)) }
{
    if name == "walk" {
        walk_of(alloc, words)
    } else if name == "errors" {
        errors_of(words)
    } else if name == "segment" {
        segment_of(alloc, words)
    } else if name == "prune" {
        prune_of(words)
    } else if name == "reload" {
        reload_of(alloc, words)
    } else if name == "npm-packages" {
        packages_of(alloc, words)
    } else {
        Err(Refusal::Is(Misfit))
    }
}

/// The call that the words name: `walk` and a part of the modules, or besides `dynamic` or `static`, `js` or `nojs`, and roots; `errors`, a
/// part of the modules, `dynamic` or `static`, `js` or `nojs`; `segment` and roots; `prune`; `reload` and one specifier or more; `npm-packages`,
/// a folder, and `code` or `types`. `Is` comes exactly where they name none.
pub fn call_of(alloc: Global, words: &[String]) -> Result<Call, Refusal<Misfit>>
    ensures { Reads result (call_of (map (λ w. string_bytes w) words.now)) }
{
    match words {
        [name, rest @ ..] => call_named(alloc, name.as_str(), rest),
        _ => Err(Refusal::Is(Misfit)),
    }
}
