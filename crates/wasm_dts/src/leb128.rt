// Numbers in LEB128: seven bits in each byte, the lowest first, and the high bit where another byte follows.
ghost use Rattle.std.specs.Prelude.{◌≡◌, ◌+◌, ◌*◌, ◌%◌, ◌^◌, ◌≤◌, length, if◌then◌else◌, nat_lt, Some, None};
ghost use Rattle.spec_base.specs.Refusal.{Answers};
ghost use Rattle.wasm_dts.specs.Binary.{continued, leb, leb_value, number, number32, number64};

use crate::input::Input;
use crate::refusal::WasmRefusal;
use spec_base::Refusal;

// How many bytes in front say that another one follows.
fn continued(bytes: &[u8]) -> usize
    ensures count { result ≡ continued bytes.now }
    ensures within { result ≤ length bytes.now }
{
    bytes.iter().take_while(|byte| **byte >= 128).count()
}

// The number with seven lower bits, where it has no more than 64.
fn with_digit(high: u64, byte: u8) -> Option<u64>
    ensures { result
        ≡ (if nat_lt (byte % 128 + 128 * high) (2 ^ 64) then Some (byte % 128 + 128 * high) else
        None) }
{
    high.checked_mul(128)?.checked_add((byte % 128) as u64)
}

// The value of a number's bytes, where it has no more than 64 bits.
fn leb_value(bytes: &[u8]) -> Option<u64>
    ensures { result
        ≡ (if nat_lt (leb_value bytes.now) (2 ^ 64) then Some (leb_value bytes.now) else None) }
{
    let mut value: u64 = 0;
    let mut left = bytes.len();
    while left > 0 {
        left -= 1;
        match with_digit(value, bytes[left]) {
            Some(longer) => value = longer,
            None => return None,
        }
    }
    Some(value)
}

/// The bytes of a number of any length, and what is left behind them. The refusal is `UnexpectedEnd`, at
/// the place behind the last byte, where each byte that is left says that another one follows.
pub fn leb(input: Input<'_>) -> Result<(Input<'_>, Input<'_>), Refusal<WasmRefusal>>
    ensures { Answers result (leb input.entry) }
{
    let more = continued(input.bytes());
    if more == input.bytes().len() {
        let at = input.end();
        return Err(Refusal::Is(WasmRefusal::UnexpectedEnd { at }));
    }
    input.take(more + 1)
}

// A number of at most `most` bytes and of 64 bits.
fn number(input: Input<'_>, most: usize) -> Result<(u64, Input<'_>), Refusal<WasmRefusal>>
    ensures { Answers result (number most (2 ^ 64) input.entry) }
{
    let at = input.at();
    if most <= continued(input.bytes()) {
        return Err(Refusal::Is(WasmRefusal::IntegerOverflow { at }));
    }
    let (digits, rest) = leb(input)?;
    match leb_value(digits.bytes()) {
        Some(value) => Ok((value, rest)),
        None => Err(Refusal::Is(WasmRefusal::IntegerOverflow { at })),
    }
}

/// A number of 32 bits, in at most five bytes, and what is left behind it (WebAssembly Core Specification,
/// "Integers"). The refusal is `IntegerOverflow`, at the number's place, where it has more bytes or bits,
/// and `UnexpectedEnd`, at the place behind the last byte, where the bytes end within it.
pub fn number32(input: Input<'_>) -> Result<(u32, Input<'_>), Refusal<WasmRefusal>>
    ensures { Answers result (number32 input.entry) }
{
    let at = input.at();
    let (value, rest) = number(input, 5)?;
    match u32::try_from(value) {
        Ok(value) => Ok((value, rest)),
        Err(_) => Err(Refusal::Is(WasmRefusal::IntegerOverflow { at })),
    }
}

/// A number of 64 bits, in at most ten bytes, and what is left behind it. Refusals are as for 32 bits.
pub fn number64(input: Input<'_>) -> Result<(u64, Input<'_>), Refusal<WasmRefusal>>
    ensures { Answers result (number64 input.entry) }
{
    number(input, 10)
}
