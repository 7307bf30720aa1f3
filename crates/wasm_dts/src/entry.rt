// Vectors: a count, and that many entries.
ghost use Rattle.std.specs.Prelude.{◌≡◌, true, Option, IfOk};
ghost use Rattle.spec_base.specs.Refusal.{Answers};
ghost use Rattle.wasm_dts.specs.Span.{Span};
ghost use Rattle.wasm_dts.specs.Binary.{Read};
ghost use Rattle.wasm_dts.specs.Vector.{entries, vector, joined, nothing};

use crate::input::Input;
use crate::leb128::number32;
use crate::refusal::WasmRefusal;
use spec_base::{Items, Refusal};
use std::alloc::{AllocError, Global};

/// What is known of a vector: its entries, or those in front of one at which its reading stopped.
#[derive(Drop)]
pub struct Known<T> {
    pub entries: Items<T>,
    pub is_whole: bool,
}

/// An entry of a section.
pub trait Entry: Sized + Drop {
    // What is read as an entry. Where that is none, the reading of the vector stops.
    ghost entry: { Span → Read (Option Self) };

    /// The next entry, or `None` where it is of no known form, and what is left behind it. The refusal is
    /// the first rule that its bytes break, or want of memory.
    fn read(
        alloc: Global,
        input: Input<'_>,
    ) -> Result<(Option<Self>, Input<'_>), Refusal<WasmRefusal>>
        ensures { Answers result (entry input.entry) };
}

impl<T: Drop> Known<T> {
    /// No entry, and all is known: what a section that isn't there holds.
    pub fn new(alloc: Global) -> Known<T>
        ensures { result ≡ nothing true }
    {
        Known {
            entries: Items::new(alloc),
            is_whole: true,
        }
    }

    /// The entries that are known, in their order.
    pub fn into_entries(self) -> Items<T>
        ensures { result ≡ self.entries }
    {
        self.entries
    }

    /// The entries of this vector and of one behind it. Where the reading of this one stopped, nothing
    /// behind it is known. The only refusal is want of memory.
    pub fn followed_by(self, other: Known<T>) -> Result<Known<T>, AllocError>
        ensures { IfOk result (λ all. all ≡ joined self other) }
    {
        if !self.is_whole {
            return Ok(self);
        }
        let Known { entries, .. } = self;
        let Known {
            entries: more,
            is_whole,
        } = other;
        let mut entries = entries.into_vec();
        entries.append(&mut more.into_vec())?;
        Ok(Known {
            entries: entries.into(),
            is_whole,
        })
    }
}

// The next `count` entries.
fn entries<T: Entry>(
    alloc: Global,
    count: u32,
    input: Input<'_>,
) -> Result<Known<T>, Refusal<WasmRefusal>>
    ensures { Answers result (entries T.entry count input.entry) }
{
    let mut known = Vec::new(alloc);
    let mut left = input;
    for _ in 0..count {
        let (entry, rest) = T::read(alloc, left)?;
        let Some(entry) = entry else {
            return Ok(Known {
                entries: known.into(),
                is_whole: false,
            });
        };
        known.push(entry)?;
        left = rest;
    }
    Ok(Known {
        entries: known.into(),
        is_whole: true,
    })
}

/// The entries of a vector: a count of 32 bits, and that many entries, or those in front of the first one
/// of no known form. What stands behind them isn't read. The refusal is the first rule that the bytes of
/// the count or of an entry break, or want of memory.
pub fn vector<T: Entry>(alloc: Global, input: Input<'_>) -> Result<Known<T>, Refusal<WasmRefusal>>
    ensures { Answers result (vector T.entry input.entry) }
{
    let (count, rest) = number32(input)?;
    entries(alloc, count, rest)
}
