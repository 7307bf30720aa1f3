// The worlds that builds are given.
ghost use Rattle.std.specs.Prelude.{◌≡◌, [], IfOk};
ghost use Rattle.source_io.specs.Loaders.{open_in};

use source_io::WorldLoader;
use spec_base::Boxed;
use std::alloc::{AllocError, Global};
use std::test::Fail;
use world_file::{Input, world_of};

/// The input that a world file stands for.
pub fn read(alloc: Global, text: &str) -> Result<Boxed<Input>, Fail> {
    match world_of(alloc, text.as_bytes()) {
        Ok(input) => Ok(Boxed::new(alloc, input)?),
        Err(_) => Err(Fail::new("no world file")),
    }
}

/// A loader over the world of an input, by its order of arrival.
pub fn loader_of(alloc: Global, input: &Input) -> Result<WorldLoader, AllocError>
    ensures opened { IfOk result (λ l. open_in l ≡ []) }
{
    let arrival = input.arrival.try_clone()?;
    let fail_next = input.fail_next.try_clone()?;
    let world = input.world.try_clone()?;
    WorldLoader::new(alloc, world, arrival.into_vec(), fail_next.into_vec())
}
