// The tools, by the words after the program's name.
ghost use Rattle.std.specs.Prelude.{◌≡◌, map, string_bytes};
ghost use Rattle.tools_program.specs.ToolWords.{tool_alone, tool_of, tool_with};

/// What a run makes of the graph that it builds.
#[derive(Clone, Copy, PartialEq, Eq, Debug)]
pub enum ToolCommand {
    /// Whether its modules are those that the world's locker knows.
    Lock {
        /// Whether a module of which the locker knows no sum breaks the lock.
        strict: bool,
    },
    /// Which of its edges break the rules of a policy.
    Policy,
    /// The graph itself, in which texts lead as an import map says.
    Map,
    /// The answers that were given to its build.
    Store,
    /// The graph itself, for which a store answers.
    Replay,
}

// The tool that a word alone names.
fn tool_alone(word: &str) -> Option<ToolCommand>
    ensures { result ≡ tool_alone word.now }
{
    if word == "lock" {
        Some(ToolCommand::Lock { strict: false })
    } else if word == "policy" {
        Some(ToolCommand::Policy)
    } else if word == "map" {
        Some(ToolCommand::Map)
    } else if word == "store" {
        Some(ToolCommand::Store)
    } else if word == "replay" {
        Some(ToolCommand::Replay)
    } else {
        None
    }
}

// The tool that a word and a flag name.
fn tool_with(word: &str, flag: &str) -> Option<ToolCommand>
    ensures { result ≡ tool_with word.now flag.now }
{
    if word == "lock" && flag == "--strict" {
        Some(ToolCommand::Lock { strict: true })
    } else {
        None
    }
}

/// The tool that the words name: `lock`, `policy`, `map`, `store` or `replay` alone, or `lock` and `--strict`. None for all
/// other words.
pub fn tool_of(words: &[String]) -> Option<ToolCommand>
    ensures { result ≡ tool_of (map (λ w. string_bytes w) words.now) }
{
    match words {
        [word] => tool_alone(word.as_str()),
        [word, flag] => tool_with(word.as_str(), flag.as_str()),
        _ => None,
    }
}
