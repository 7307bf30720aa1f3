// Places in texts, and what is resolved there.
ghost use Rattle.std.specs.Prelude.{◌≡◌, ◌-◌, ◌≤◌, Some, IfOk, length};
ghost use Rattle.std.specs.List.{prefix_len, suffix_len};
ghost use Rattle.spec_base.specs.Position.{position_text, range_text, includes, position_cmp, is_fs_root, is_types, is_slash, inner_path, without_leading, without_trailing};

use std::alloc::AllocError;
use std::cmp::Ordering;
use std::fmt;
use url::Url;

/// A place in a text: a line and a character of it, both counted from zero. It prints them counted from
/// one, as `line:character`.
#[derive(Clone, Copy, PartialEq, Eq, PartialOrd, Ord, Hash, Debug)]
pub struct Position {
    pub line: usize,
    pub character: usize,
}

/// From one place of a text to another, both included.
#[derive(Clone, Copy, PartialEq, Eq, PartialOrd, Ord, Hash, Debug)]
pub struct PositionRange {
    pub start: Position,
    pub end: Position,
}

/// How a text is to be resolved: as an `import` or as a `require`.
#[derive(Clone, Copy, PartialEq, Eq, Hash, Debug)]
pub enum ResolutionMode {
    Import,
    Require,
}

/// What a text is resolved for: its code or its types.
#[derive(Clone, Copy, PartialEq, Eq, Hash, Debug)]
pub enum ResolutionKind {
    Execution,
    Types,
}

/// A part of a module's text, and how what stands there is resolved. It prints as the specifier, `:` and
/// the place where it begins.
#[derive(Clone, PartialEq, Eq, Hash, Debug, Drop)]
pub struct Range {
    pub specifier: Url,
    pub range: PositionRange,
    pub resolution_mode: Option<ResolutionMode>,
}

impl Position {
    /// The place at a line and a character, both counted from zero.
    pub fn new(line: usize, character: usize) -> Position
        ensures { result ≡ record { line = line; character = character } }
    {
        Position { line, character }
    }

    /// The beginning of a text: line 0, character 0.
    pub fn zeroed() -> Position
        ensures { result ≡ record { line = 0; character = 0 } }
    {
        Position::new(0, 0)
    }
}

impl ResolutionKind {
    /// Whether the resolution is for types.
    pub fn is_types(&self) -> bool
        ensures { result ≡ is_types self.now }
    {
        match self {
            ResolutionKind::Types => true,
            ResolutionKind::Execution => false,
        }
    }
}

impl Range {
    /// Whether the place is within the range, to which both its ends belong.
    pub fn includes(&self, position: Position) -> bool
        ensures { result ≡ includes self.now.range position }
    {
        self.range.includes(position)
    }

    /// A copy.
    pub fn try_clone(&self) -> Result<Range, AllocError>
        ensures { IfOk result (λ r. r ≡ self.now) }
    {
        self.clone()
    }
}

impl fmt::Display for Position {
    ghost output = { λ p. Some (position_text p) };

    fn fmt<W: fmt::Write>(&self, f: &mut fmt::Formatter<W>) -> fmt::Result {
        write!(
            f,
            "{}:{}",
            self.line as u128 + 1,
            self.character as u128 + 1
        )
    }
}

impl fmt::Display for Range {
    ghost output = { λ r. Some (range_text r) };

    fn fmt<W: fmt::Write>(&self, f: &mut fmt::Formatter<W>) -> fmt::Result {
        write!(f, "{}:{}", self.specifier, self.range.start)
    }
}

impl PositionRange {
    /// The empty range at the beginning of a text.
    pub fn zeroed() -> PositionRange
        ensures { result
            ≡ record {
              start = record { line = 0; character = 0 };
              end = record
                  { line = 0; character = 0 };
            } }
    {
        PositionRange {
            start: Position::zeroed(),
            end: Position::zeroed(),
        }
    }

    /// Whether the place is within the range, to which both its ends belong.
    pub fn includes(&self, position: Position) -> bool
        ensures { result ≡ includes self.now position }
    {
        self.start <= position && position <= self.end
    }
}

/// The order of two places, which is that of `Ord`: by line, and then by character.
pub fn order_positions(a: &Position, b: &Position) -> Ordering
    ensures { result ≡ position_cmp a.now b.now }
{
    a.cmp(b)
}

/// Whether a `file:` URL (RFC 8089) names the root of a file system or of a drive: whether its path, without
/// the slashes that it begins and ends with, is empty or one ASCII letter and `:`.
pub fn is_fs_root_specifier(url: &Url) -> bool
    ensures { result ≡ is_fs_root url.now }
{
    if url.scheme() != "file" {
        return false;
    }
    match inner(url.path().as_bytes()) {
        [] => true,
        [letter, b':'] => letter.is_ascii_alphabetic(),
        _ => false,
    }
}

fn inner(path: &[u8]) -> &[u8]
    ensures { result.now ≡ inner_path path.now }
{
    without_trailing_slashes(without_leading_slashes(path))
}

fn without_leading_slashes(path: &[u8]) -> &[u8]
    ensures { result.now ≡ without_leading path.now }
{
    &path[leading_slashes(path)..]
}

#[tactic(auto, using(crate::proofs::RunLemmas::prefix_is))]
fn leading_slashes(path: &[u8]) -> usize
    ensures value { result ≡ prefix_len is_slash path.now }
    ensures within { result ≤ length path.now }
{
    for (i, b) in path.iter().enumerate() {
        if *b != b'/' {
            return i;
        }
    }
    path.len()
}

fn without_trailing_slashes(path: &[u8]) -> &[u8]
    ensures { result.now ≡ without_trailing path.now }
{
    &path[..start_of_slashes(path)]
}

// Where the slashes at the end begin.
#[tactic(auto, using(crate::proofs::RunLemmas::start_is))]
fn start_of_slashes(path: &[u8]) -> usize
    ensures value { result ≡ length path.now - suffix_len is_slash path.now }
    ensures within { result ≤ length path.now }
{
    let mut start = path.len();
    while start > 0 && path[start - 1] == b'/' {
        start -= 1;
    }
    start
}
