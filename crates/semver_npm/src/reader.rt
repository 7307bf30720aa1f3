// The reader of requirements: from a text to its ranges, by npm's range grammar.
ghost use Rattle.std.specs.Prelude.{◌≡◌, IfOk, length, option_copied};
ghost use Rattle.std.specs.List.{list_all};
ghost use Rattle.semver_npm.specs.Reader.{between, ends_at, full_of, dash_at, dash_after, follow_after, follow_at, hyphen_at, item_at, operand_at, operator_at, or_equal, partial_at, partial_of, range_at, ranges_of, read_view, simple_at, simples_from};
ghost use Rattle.semver_npm.specs.Grammar.{is_tag_byte, is_tag_text, partial_from};
ghost use Rattle.semver_npm.specs.Views.{ends_view, follow_view, item_view, operator_view, simples_view};

use crate::range::Range;
use crate::simple::{Operator, Partial, Simple};
use crate::version::{PlainVersion, parse_standard};
use crate::word::{parts, skip_spaces, word_length};
use semver::Version;
use spec_base::{Items, Refusal};
use std::alloc::{AllocError, Global};

// The version that parts stand for: what follows an x counts as one.
fn partial_from(major: Option<u64>, minor: Option<u64>, patch: Option<u64>) -> Partial
    ensures { result ≡ partial_from major minor patch }
{
    match (major, minor, patch) {
        (None, _, _) => Partial::Any,
        (Some(major), None, _) => Partial::Major(major),
        (Some(major), Some(minor), None) => Partial::Minor(major, minor),
        (Some(major), Some(minor), Some(patch)) => {
            Partial::Full(PlainVersion::from(Version::new(major, minor, patch)))
        }
    }
}

// The whole version that a word is.
fn read_full(alloc: Global, word: &[u8]) -> Result<Option<Partial>, AllocError>
    ensures { IfOk result (λ p. p ≡ full_of word.now) }
{
    let Ok(text) = std::str::from_utf8(word) else {
        return Ok(None);
    };
    match parse_standard(alloc, text) {
        Ok(version) => Ok(Some(Partial::Full(PlainVersion::from(version)))),
        Err(Refusal::Memory) => Err(AllocError),
        Err(Refusal::Is(_)) => Ok(None),
    }
}

// The partial version that a word is.
fn read_partial(alloc: Global, word: &[u8]) -> Result<Option<Partial>, AllocError>
    ensures { IfOk result (λ p. p ≡ partial_of word.now) }
{
    match parts(word) {
        Some((major, minor, patch)) => Ok(Some(partial_from(major, minor, patch))),
        None => read_full(alloc, word),
    }
}

// The partial version at the front, and what stands after its word.
fn partial_front(alloc: Global, bytes: &[u8]) -> Result<Option<(Partial, &[u8])>, AllocError>
    ensures { IfOk result (λ found. read_view found ≡ partial_at bytes.now) }
{
    let (word, rest) = bytes.split_at(word_length(bytes));
    match read_partial(alloc, word)? {
        Some(partial) => Ok(Some((partial, rest))),
        None => Ok(None),
    }
}

// An operator, or its second form where `=` follows.
fn or_equal(one: Operator, two: Operator, rest: &[u8]) -> (Operator, &[u8])
    ensures { operator_view result ≡ or_equal one two rest.now }
{
    match rest {
        [b'=', after @ ..] => (two, after),
        _ => (one, rest),
    }
}

// The operator at the front, and what stands after it.
fn operator_front(bytes: &[u8]) -> (Operator, &[u8])
    ensures { operator_view result ≡ operator_at bytes.now }
{
    match bytes {
        [b'<', rest @ ..] => or_equal(Operator::Less, Operator::AtMost, rest),
        [b'>', rest @ ..] => or_equal(Operator::Greater, Operator::AtLeast, rest),
        [b'=', rest @ ..] => (Operator::Exact, rest),
        [b'^', rest @ ..] => (Operator::Caret, rest),
        [b'~', rest @ ..] => (Operator::Tilde, rest),
        _ => (Operator::Plain, bytes),
    }
}

// Where the partial version stands: spaces may follow an operator.
fn operand_front(operator: Operator, rest: &[u8]) -> &[u8]
    ensures { result.now ≡ operand_at operator rest.now }
{
    match operator {
        Operator::Plain => rest,
        Operator::Exact => skip_spaces(rest),
        Operator::Less => skip_spaces(rest),
        Operator::AtMost => skip_spaces(rest),
        Operator::Greater => skip_spaces(rest),
        Operator::AtLeast => skip_spaces(rest),
        Operator::Caret => skip_spaces(rest),
        Operator::Tilde => skip_spaces(rest),
    }
}

// The simple at the front, and what stands after it.
fn simple_front(alloc: Global, bytes: &[u8]) -> Result<Option<(Simple, &[u8])>, AllocError>
    ensures { IfOk result (λ found. read_view found ≡ simple_at bytes.now) }
{
    let (operator, rest) = operator_front(bytes);
    match partial_front(alloc, operand_front(operator, rest))? {
        Some((partial, rest)) => Ok(Some((Simple { operator, partial }, rest))),
        None => Ok(None),
    }
}

// What stands after a word: nothing, a further simple of the range, or a further range.
#[derive(Clone, Copy)]
enum Follow<'a> {
    End,
    Simple(&'a [u8]),
    Range(&'a [u8]),
}

// What stands after a word and its spaces; a simple needs a space before it.
fn follow_after(spaced: bool, rest: &[u8]) -> Option<Follow<'_>>
    ensures { follow_view result ≡ follow_after spaced rest.now }
{
    match rest {
        [] => None,
        [b'|', b'|', after @ ..] => Some(Follow::Range(skip_spaces(after))),
        _ if spaced => Some(Follow::Simple(rest)),
        _ => None,
    }
}

fn follow_front(rest: &[u8]) -> Option<Follow<'_>>
    ensures { follow_view result ≡ follow_at rest.now }
{
    match rest {
        [] => Some(Follow::End),
        [b, ..] => follow_after(*b == b' ', skip_spaces(rest)),
    }
}

// A simple, and what stands after it.
fn item(alloc: Global, bytes: &[u8]) -> Result<Option<(Simple, Follow<'_>)>, AllocError>
    ensures { IfOk result (λ found. item_view found ≡ item_at bytes.now) }
{
    let Some((simple, rest)) = simple_front(alloc, bytes)? else {
        return Ok(None);
    };
    match follow_front(rest) {
        Some(follow) => Ok(Some((simple, follow))),
        None => Ok(None),
    }
}

// The simples of one range, and the text of a further range, where one follows.
fn simples(
    alloc: Global,
    bytes: &[u8],
) -> Result<Option<(Items<Simple>, Option<&[u8]>)>, AllocError>
    ensures { IfOk result
        (λ found. simples_view found ≡ simples_from (length bytes.now) bytes.now) }
{
    let mut simples = Items::new(alloc);
    let mut rest = bytes;
    for _ in 0..bytes.len() {
        let Some((simple, follow)) = item(alloc, rest)? else {
            return Ok(None);
        };
        simples.push(simple)?;
        match follow {
            Follow::End => return Ok(Some((simples, None))),
            Follow::Simple(after) => rest = after,
            Follow::Range(after) => return Ok(Some((simples, Some(after)))),
        }
    }
    Ok(None)
}

// The text after a hyphen that spaces stand around.
fn dash_after(rest: &[u8]) -> Option<&[u8]>
    ensures { option_copied result ≡ dash_after rest.now }
{
    match rest {
        [b'-', b' ', after @ ..] => Some(skip_spaces(after)),
        _ => None,
    }
}

fn dash_front(rest: &[u8]) -> Option<&[u8]>
    ensures { option_copied result ≡ dash_at rest.now }
{
    match rest {
        [b' ', after @ ..] => dash_after(skip_spaces(after)),
        _ => None,
    }
}

// Both simples of a hyphen range.
fn between(alloc: Global, low: Partial, high: Partial) -> Result<Items<Simple>, AllocError>
    ensures { IfOk result (λ simples. simples ≡ between low high) }
{
    let mut simples = Items::new(alloc);
    simples.push(Simple {
        operator: Operator::AtLeast,
        partial: low,
    })?;
    simples.push(Simple {
        operator: Operator::AtMost,
        partial: high,
    })?;
    Ok(simples)
}

// The two versions of a hyphen range, and what stands after it.
fn hyphen_ends(
    alloc: Global,
    bytes: &[u8],
) -> Result<Option<(Partial, Partial, Follow<'_>)>, AllocError>
    ensures { IfOk result (λ found. ends_view found ≡ ends_at bytes.now) }
{
    let Some((low, rest)) = partial_front(alloc, bytes)? else {
        return Ok(None);
    };
    let Some(rest) = dash_front(rest) else {
        return Ok(None);
    };
    let Some((high, rest)) = partial_front(alloc, rest)? else {
        return Ok(None);
    };
    match follow_front(rest) {
        Some(follow) => Ok(Some((low, high, follow))),
        None => Ok(None),
    }
}

// The simples of a hyphen range, and the text of a further range, where one follows.
fn hyphen(alloc: Global, bytes: &[u8]) -> Result<Option<(Items<Simple>, Option<&[u8]>)>, AllocError>
    ensures { IfOk result (λ found. simples_view found ≡ hyphen_at bytes.now) }
{
    let Some((low, high, follow)) = hyphen_ends(alloc, bytes)? else {
        return Ok(None);
    };
    match follow {
        Follow::End => Ok(Some((between(alloc, low, high)?, None))),
        Follow::Simple(_) => Ok(None),
        Follow::Range(after) => Ok(Some((between(alloc, low, high)?, Some(after)))),
    }
}

// The range at the front, and the text of a further range, where one follows.
fn range(alloc: Global, bytes: &[u8]) -> Result<Option<(Items<Simple>, Option<&[u8]>)>, AllocError>
    ensures { IfOk result (λ found. simples_view found ≡ range_at bytes.now) }
{
    match simples(alloc, bytes)? {
        Some(found) => Ok(Some(found)),
        None => hyphen(alloc, bytes),
    }
}

/// The ranges of a text; None where it is no range set.
pub(crate) fn ranges(alloc: Global, text: &[u8]) -> Result<Option<Items<Range>>, AllocError>
    ensures { IfOk result (λ found. found ≡ ranges_of text.now) }
{
    let mut ranges = Items::new(alloc);
    let mut rest = text;
    for _ in 0..text.len() {
        let Some((simples, after)) = range(alloc, rest)? else {
            return Ok(None);
        };
        ranges.push(Range::from(simples))?;
        match after {
            Some(after) => rest = after,
            None => return Ok(Some(ranges)),
        }
    }
    Ok(None)
}

fn is_tag_byte(b: u8) -> bool
    ensures { result ≡ is_tag_byte b }
{
    b.is_ascii_alphabetic() || (b.is_ascii_digit() || (b == b'-' || (b == b'_' || b == b'.')))
}

fn are_tag_bytes(bytes: &[u8]) -> bool
    ensures { result ≡ list_all is_tag_byte bytes.now }
{
    bytes.iter().all(|b| is_tag_byte(*b))
}

/// Whether a text is a letter, and then letters, digits, `-`, `_` and `.`.
pub(crate) fn is_tag_text(text: &[u8]) -> bool
    ensures { result ≡ is_tag_text text.now }
{
    match text {
        [] => false,
        [b, rest @ ..] => b.is_ascii_alphabetic() && are_tag_bytes(rest),
    }
}
