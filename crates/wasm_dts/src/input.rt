// What is left to read of a module or of a section's payload.
ghost use Rattle.std.specs.Prelude.{◌≡◌, ◌^◌, ◌+◌, ◌<◌, ◌==◌, length};
ghost use Rattle.spec_base.specs.Refusal.{Answers};
ghost use Rattle.wasm_dts.specs.Span.{end_of};
ghost use Rattle.wasm_dts.specs.Binary.{taken, byte};

use crate::refusal::WasmRefusal;
use spec_base::Refusal;
use std::marker::Model;

/// The bytes that are left, up to the end of the module or of a section's payload, and the place of the
/// first of them in the module.
pub struct Input<'a> {
    at: usize,
    bytes: &'a [u8],
}

impl<'a> Model for Input<'a> {
    ghost use Rattle.std.specs.Prelude.{◌+◌, ◌^◌, ◌<◌, length};
    ghost use Rattle.wasm_dts.specs.Span.{Span};

    ghost Value = { Span };

    ghost view = { λ i. record { at = i.at; bytes = i.bytes.now } };

    ghost invariant = { λ i. i.at + length i.bytes.now < 2 ^ 64 };
}

impl<'a> Drop for Input<'a> {
    fn drop(self) {
        let Input { at: _, bytes: _ } = self;
    }
}

impl<'a> Input<'a> {
    /// The bytes from a place of the module on, counted from zero.
    pub fn new(at: usize, bytes: &'a [u8]) -> Input<'a>
        requires { at + length bytes.now < 2 ^ 64 }
        ensures { result ≡ record { at = at; bytes = bytes.now } }
    {
        Input { at, bytes }
    }

    /// Whether no byte is left.
    pub fn is_empty(&self) -> bool
        ensures { result ≡ (length self.now.bytes == 0) }
    {
        self.bytes.is_empty()
    }

    /// The place of the first byte in the module, counted from zero.
    pub fn at(&self) -> usize
        ensures { result ≡ self.now.at }
    {
        self.at
    }

    /// The bytes that are left.
    pub fn bytes(&self) -> &'a [u8]
        ensures { result.now ≡ self.now.bytes }
    {
        self.bytes
    }

    /// The place behind the last byte in the module, counted from zero.
    pub fn end(&self) -> usize
        ensures { result ≡ end_of self.now }
    {
        self.at + self.bytes.len()
    }

    /// The next byte, and what is left behind it. The refusal is `UnexpectedEnd`, at the place behind the
    /// last byte, where none is left.
    pub fn byte(self) -> Result<(u8, Input<'a>), Refusal<WasmRefusal>>
        ensures { Answers result (byte self.entry) }
    {
        let Input { at, bytes } = self;
        match bytes {
            [] => Err(Refusal::Is(WasmRefusal::UnexpectedEnd { at })),
            [first, rest @ ..] => Ok((
                *first,
                Input {
                    at: at + 1,
                    bytes: rest,
                },
            )),
        }
    }

    /// The next `count` bytes, and what is left behind them. The refusal is `UnexpectedEnd`, at the place
    /// behind the last byte, where fewer are left.
    pub fn take(self, count: usize) -> Result<(Input<'a>, Input<'a>), Refusal<WasmRefusal>>
        ensures { Answers result (taken count self.entry) }
    {
        let Input { at, bytes } = self;
        if bytes.len() < count {
            let at = at + bytes.len();
            return Err(Refusal::Is(WasmRefusal::UnexpectedEnd { at }));
        }
        let (front, rest) = bytes.split_at(count);
        Ok((
            Input { at, bytes: front },
            Input {
                at: at + count,
                bytes: rest,
            },
        ))
    }
}
