// Sized bytes and names.
ghost use Rattle.std.specs.Prelude.{◌≡◌};
ghost use Rattle.spec_base.specs.Refusal.{Answers};
ghost use Rattle.wasm_dts.specs.Binary.{sized, name};

use crate::input::Input;
use crate::leb128::number32;
use crate::refusal::WasmRefusal;
use spec_base::{Refusal, Text};
use std::alloc::Global;

/// As many bytes as the number of 32 bits in front of them says, and what is left behind them. Refusals are
/// those of the number, and `UnexpectedEnd`, at the place behind the last byte, where fewer are left.
pub fn sized(input: Input<'_>) -> Result<(Input<'_>, Input<'_>), Refusal<WasmRefusal>>
    ensures { Answers result (sized input.entry) }
{
    let (count, rest) = number32(input)?;
    rest.take(count as usize)
}

/// A name (WebAssembly Core Specification, "Names"): sized bytes that are UTF-8, and what is left behind
/// them. Refusals are those of sized bytes, `InvalidUtf8`, at the place of the first byte of the text, and
/// want of memory.
#[tactic(auto, using(crate::proofs::Utf8::no_text, crate::proofs::Utf8::some_text))]
pub fn name(alloc: Global, input: Input<'_>) -> Result<(Text, Input<'_>), Refusal<WasmRefusal>>
    ensures { Answers result (name input.entry) }
{
    let (text, rest) = sized(input)?;
    match std::str::from_utf8(text.bytes()) {
        Ok(name) => Ok((Text::from_str(alloc, name)?, rest)),
        Err(_) => {
            let at = text.at();
            Err(Refusal::Is(WasmRefusal::InvalidUtf8 { at }))
        }
    }
}
