// The first line of some bytes.
ghost use Rattle.std.specs.Prelude.{◌≡◌, ◌<◌, ◌+◌, ℕ, length, slice_index, option_map, IfSome, IfNone};
ghost use Rattle.tools_program.specs.Lines.{behind_line, first_line};

// The place of the first line break.
fn line_end(bytes: &[u8]) -> Option<usize>
    ensures inside { IfSome result (λ at. at < length bytes.now) }
    ensures broken { IfSome result (λ at. slice_index bytes.now at ≡ 10) }
    ensures first { IfSome result (λ at. (k : ℕ) → k < at → slice_index bytes.now k ≡ 10 → ⊥) }
    ensures none { IfNone result
        ((k : ℕ) → k < length bytes.now → slice_index bytes.now k ≡ 10 → ⊥) }
{
    bytes.iter().position(|&byte| byte == b'\n')
}

/// The first line without its break. None where there is no break.
pub(crate) fn first_line(bytes: &[u8]) -> Option<&[u8]>
    ensures { option_map (λ line. line.now) result ≡ first_line bytes.now }
{
    match line_end(bytes) {
        Some(at) => Some(&bytes[..at]),
        None => None,
    }
}

/// What stands behind the first line and its break: nothing where there is none.
pub(crate) fn behind_line(bytes: &[u8]) -> &[u8]
    ensures { result.now ≡ behind_line bytes.now }
{
    match line_end(bytes) {
        Some(at) => &bytes[at + 1..],
        None => &bytes[..0],
    }
}
