// The words that a program is started with.
ghost use Rattle.std.specs.Prelude.{◌≡◌, ◌⊎◌, IfErr, true, false, List, ℕ, bytes_eq, map, string_bytes};
ghost use Rattle.program_phases.specs.Outcome.{is_alone};

use crate::status::Status;
use std::env;
use std::io::ErrorKind;

/// The words after the program's name. `Words` comes where the arguments can't be read as text, `Memory` where there was
/// no memory.
pub fn words(rt: &HostRuntime) -> Result<Vec<String>, Status>
    ensures { IfErr result (λ status. (status ≡ Status.Words) ⊎ (status ≡ Status.Memory)) }
{
    let mut words = Vec::new(rt.alloc());
    let all = match env::args(rt) {
        Ok(all) => all,
        Err(error) => if error.kind() == ErrorKind::OutOfMemory {
            return Err(Status::Memory);
        } else {
            return Err(Status::Words);
        },
    };
    for word in all.skip(1) {
        if words.push(word).is_err() {
            return Err(Status::Memory);
        }
    }
    Ok(words)
}

/// Whether a word is the only one.
pub fn is_alone(words: &[String], word: &str) -> bool
    ensures { result ≡ is_alone word.now (map (λ w. string_bytes w) words.now) }
{
    match words {
        [only] => only.as_str() == word,
        _ => false,
    }
}
