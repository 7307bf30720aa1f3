// The commands, by the words after the program's name.
ghost use Rattle.std.specs.Prelude.{◌≡◌, map, string_bytes};
ghost use Rattle.graph_printing.specs.Commands.{command_of, kind_of, walk_command};

use graph_core::GraphKind;

/// What a run writes of the graph that it builds.
#[derive(Clone, Copy, PartialEq, Eq, Debug)]
pub enum Command {
    /// The graph as JSON, and whether it is valid.
    Build,
    /// A line for each entry of a walk over this part of the modules.
    Walk(GraphKind),
}

/// The part of the modules that a word names: `all`, `code` or `types`. None for all other words.
pub fn kind_of(word: &str) -> Option<GraphKind>
    ensures { result ≡ kind_of word.now }
{
    if word == "all" {
        Some(GraphKind::All)
    } else if word == "code" {
        Some(GraphKind::CodeOnly)
    } else if word == "types" {
        Some(GraphKind::TypesOnly)
    } else {
        None
    }
}

// The walk over the part that a word names.
fn walk_of(word: &str) -> Option<Command>
    ensures { result ≡ walk_command word.now }
{
    match kind_of(word) {
        Some(kind) => Some(Command::Walk(kind)),
        None => None,
    }
}

/// The command of some words: `build`, or `walk` with `all`, `code` or `types`. None for all other words.
pub fn command_of(words: &[String]) -> Option<Command>
    ensures { result ≡ command_of (map (λ w. string_bytes w) words.now) }
{
    match words {
        [word] => {
            if word.as_str() == "build" {
                Some(Command::Build)
            } else {
                None
            }
        }
        [word, kind] => {
            if word.as_str() == "walk" {
                walk_of(kind.as_str())
            } else {
                None
            }
        }
        _ => None,
    }
}
