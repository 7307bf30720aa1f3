// Standard base64.
ghost use Rattle.std.specs.Prelude.{◌≡◌, ℕ, List, Bool, Some, IfOk};
ghost use Rattle.base64.specs.GeneralPurpose.{IsBytes};
ghost use Rattle.spec_base.specs.Refusal.{Reads};
ghost use Rattle.data_urls.specs.Base64.{base64_of, encoding, Spells};

use base64::DecodeAllocError;
use base64::engine::general_purpose::STANDARD_PAD_INDIFFERENT;
use spec_base::{Bytes, Refusal};
use std::alloc::Global;

/// The text is no standard base64.
#[derive(Clone, Copy, PartialEq, Eq, Debug)]
pub struct NotBase64;

/// The bytes of a text in standard base64 (RFC 4648, section 4). Its padding is optional, and the bits past
/// its last byte have to be zero. `NotBase64` comes exactly where the text is none. What is read spells its
/// bytes, and each encoding is read, with its padding and without.
pub fn standard_base64(alloc: Global, text: &str) -> Result<Bytes, Refusal<NotBase64>>
    ensures exact { Reads result (base64_of text.now) }
    ensures spells { IfOk result (λ bytes. Spells text.now bytes) }
    ensures encoded { (bytes : List ℕ) (is_padded : Bool) → IsBytes bytes
        → text.now ≡ encoding is_padded bytes → Reads result (Some bytes) }
{
    decoded(alloc, text.as_bytes())
}

/// The same of bytes, which needn't be a text.
pub(crate) fn decoded(alloc: Global, text: &[u8]) -> Result<Bytes, Refusal<NotBase64>>
    ensures { Reads result (base64_of text.now) }
{
    match STANDARD_PAD_INDIFFERENT.decode(alloc, text) {
        Ok(bytes) => Ok(bytes.into()),
        Err(DecodeAllocError::OutOfMemory) => Err(Refusal::Memory),
        Err(DecodeAllocError::DecodeError(_)) => Err(Refusal::Is(NotBase64)),
    }
}
