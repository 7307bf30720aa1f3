// Words of a requirement: numbers, letters that stand for any number, and the bytes between spaces.
ghost use Rattle.std.specs.Prelude.{◌≡◌, ◌<◌, ◌≤◌, ◌+◌, ◌^◌, length};
ghost use Rattle.semver.specs.Parse.{strip_spaces};
ghost use Rattle.semver_npm.specs.Reader.{digits_from, dotted_at, ends_word, is_any, part_at, parts_in, read_view, word_length};

// A number of at most 64 bits without leading zeros, from the value and the count of its digits so far.
#[tactic(auto, unfolding(crate::specs::Reader::digits_from))]
fn digits(value: u64, len: usize, bytes: &[u8]) -> Option<(u64, &[u8])>
    requires { len + length bytes.now < 2 ^ 64 }
    ensures { read_view result ≡ digits_from value len bytes.now }
{
    match bytes {
        [b, rest @ ..] if b.is_ascii_digit() => {
            if value == 0 && len > 0 {
                return None;
            }
            let value = value.checked_mul(10)?.checked_add(u64::from(*b - b'0'))?;
            digits(value, len + 1, rest)
        }
        _ if len == 0 => None,
        _ => Some((value, bytes)),
    }
}

fn stands_for_any(b: u8) -> bool
    ensures { result ≡ is_any b }
{
    b == b'*' || (b == b'x' || b == b'X')
}

// A number, or None for an x.
#[tactic(auto, unfolding(crate::specs::Reader::part_at))]
fn part(bytes: &[u8]) -> Option<(Option<u64>, &[u8])>
    ensures { read_view result ≡ part_at bytes.now }
{
    match bytes {
        [] => None,
        [b, rest @ ..] if stands_for_any(*b) => Some((None, rest)),
        _ => {
            let (n, rest) = digits(0, 0, bytes)?;
            Some((Some(n), rest))
        }
    }
}

// The part after a dot; where no dot stands, the part is missing, which counts as an x.
#[tactic(auto, unfolding(crate::specs::Reader::dotted_at))]
fn dotted(bytes: &[u8]) -> Option<(Option<u64>, &[u8])>
    ensures { read_view result ≡ dotted_at bytes.now }
{
    match bytes {
        [b'.', rest @ ..] => part(rest),
        _ => Some((None, bytes)),
    }
}

/// The parts of a word of one to three parts joined by dots, where a missing part counts as an x.
pub(crate) fn parts(word: &[u8]) -> Option<(Option<u64>, Option<u64>, Option<u64>)>
    ensures { result ≡ parts_in word.now }
{
    let (major, rest) = part(word)?;
    let (minor, rest) = dotted(rest)?;
    let (patch, rest) = dotted(rest)?;
    if rest.is_empty() {
        Some((major, minor, patch))
    } else {
        None
    }
}

fn ends_word(b: u8) -> bool
    ensures { result ≡ ends_word b }
{
    b == b' ' || b == b'|'
}

/// The number of bytes up to a space or a bar, or up to the end.
pub(crate) fn word_length(bytes: &[u8]) -> usize
    ensures value { result ≡ word_length bytes.now }
    ensures within { result ≤ length bytes.now }
{
    'bytes: for i in 0..bytes.len() {
        if ends_word(bytes[i]) {
            return i;
        }
    }
    bytes.len()
}

/// The bytes without the spaces that lead them.
pub(crate) fn skip_spaces(bytes: &[u8]) -> &[u8]
    ensures { result.now ≡ strip_spaces bytes.now }
{
    'bytes: for i in 0..bytes.len() {
        if bytes[i] != b' ' {
            return &bytes[i..];
        }
    }
    &bytes[bytes.len()..]
}
