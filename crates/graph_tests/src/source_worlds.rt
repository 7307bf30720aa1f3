// Worlds for the tests of loaders and resolvers, and what a loader answers.
ghost use Rattle.std.specs.Prelude.{◌≡◌, []};
ghost use Rattle.source_io.specs.Loaders.{open_in};

use source_io::{Answer, Loader, LoaderCore, Question, World, WorldLoader};
use std::alloc::Global;
use std::test::Fail;
use world_file::{Input, world_of};

/// Hands on a value that may go to another thread and be shared between threads.
pub fn shared<T: Send + Sync>(value: T) -> T
    ensures { result ≡ value }
{
    value
}

/// The input that a world file stands for.
pub fn read(alloc: Global, world: &str) -> Result<Input, Fail> {
    match world_of(alloc, world.as_bytes()) {
        Ok(input) => Ok(input),
        Err(_) => Err(Fail::new("no world file")),
    }
}

/// The world of an input whose members are these, beside its version.
pub fn world(alloc: Global, members: &str) -> Result<World, Fail> {
    let text = format!(in alloc; "{{\"version\":1,{members}}}")?;
    Ok(read(alloc, text.as_str())?.world)
}

// The answer of a loader to its first question.
#[tactic(auto, using(crate::proofs::OpenTickets::unused_first))]
fn first_answer(loader: &mut WorldLoader, question: Question) -> Result<Answer, Fail>
    requires { open_in loader.old ≡ [] }
{
    loader.ask(0, question)?;
    let (_, answer) = loader.next()?;
    Ok(answer)
}

/// The answer of a loader over a world to one question. Here and in the tests a large value is lent to functions and handed to
/// `drop` at the end: as a call, its long drop is cheap to prove.
pub fn answered(alloc: Global, world: World, question: Question) -> Result<Answer, Fail> {
    let mut loader = WorldLoader::new(alloc, world, Vec::new(alloc), Vec::new(alloc))?;
    let answer = first_answer(&mut loader, question);
    drop(loader);
    answer
}
