// The numbers that a linear congruential generator draws.
ghost use Rattle.std.specs.Prelude.{◌≡◌, ◌<◌};
ghost use Rattle.generated_world.specs.Generator.{drawn, next_state};

/// The generator's state after a draw, by its state before.
pub fn next_state(state: u32) -> u32
    ensures { result ≡ next_state state }
{
    ((u64::from(state) * 1103515245 + 12345) % 4294967296) as u32
}

/// What is drawn, by the state after it: a number below 32768.
pub fn drawn(state: u32) -> u32
    ensures { result ≡ drawn state }
{
    state / 65536 % 32768
}
