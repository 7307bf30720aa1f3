// The form of a template's parts, and whether a text has them.
ghost use Rattle.std.specs.Prelude.{◌≡◌, option_copied};
ghost use Rattle.file_tree.specs.Template.{after_part, has_part, is_first_text, is_inner_text, is_last_text, parts_fit, others_fit, compared, holds_parts, ends_as, fits_template};

use module_info::DynamicTemplatePart;

// What stands after the first place at which the part stands.
fn after_part<'a>(part: &[u8], text: &'a [u8]) -> Option<&'a [u8]>
    ensures { option_copied result ≡ after_part part.now text.now }
{
    let mut left = text;
    while !left.starts_with(part) {
        match left.split_first() {
            Some((_, shorter)) => left = shorter,
            None => return None,
        }
    }
    Some(&left[part.len()..])
}

fn has_part(part: &[u8], text: &[u8]) -> bool
    ensures { result ≡ has_part part.now text.now }
{
    after_part(part, text).is_some()
}

fn is_first_text(text: &[u8]) -> bool
    ensures { result ≡ is_first_text text.now }
{
    !has_part(b"/../", text)
        && (text.starts_with(b"./") || text.starts_with(b"/"))
        && text.ends_with(b"/")
}

fn is_inner_text(text: &[u8]) -> bool
    ensures { result ≡ is_inner_text text.now }
{
    !has_part(b"/../", text) && text.starts_with(b"/") && text.ends_with(b"/")
}

fn is_last_text(text: &[u8]) -> bool
    ensures { result ≡ is_last_text text.now }
{
    !has_part(b"/../", text) && (text.starts_with(b"/") || !has_part(b"/", text))
}

/// Whether the parts have the form of a template that stands for files.
///
/// The first text begins with `./` or `/` and ends with `/`; a text at the end begins with `/` or holds none;
/// the texts between begin and end with `/`; and none holds `/../`.
#[tactic(auto, unfolding(crate::specs::Template::parts_fit))]
pub(crate) fn parts_fit(parts: &[DynamicTemplatePart]) -> bool
    ensures { result ≡ parts_fit parts.now }
{
    match parts {
        [] => true,
        [DynamicTemplatePart::Expr, others @ ..] => parts_fit(others),
        [DynamicTemplatePart::String(text), others @ ..] => {
            is_first_text(text.as_str().as_bytes()) && others_fit(others)
        }
    }
}

#[tactic(auto, unfolding(crate::specs::Template::others_fit))]
fn others_fit(parts: &[DynamicTemplatePart]) -> bool
    ensures { result ≡ others_fit parts.now }
{
    match parts {
        [] => true,
        [DynamicTemplatePart::Expr, others @ ..] => others_fit(others),
        [DynamicTemplatePart::String(text)] => is_last_text(text.as_str().as_bytes()),
        [DynamicTemplatePart::String(text), others @ ..] => {
            is_inner_text(text.as_str().as_bytes()) && others_fit(others)
        }
    }
}

/// The parts with which texts are compared: all but a first one that is a `file:` URL.
#[tactic(auto, unfolding(crate::specs::Template::compared))]
pub(crate) fn compared(parts: &[DynamicTemplatePart]) -> &[DynamicTemplatePart]
    ensures { result.now ≡ compared parts.now }
{
    match parts {
        [DynamicTemplatePart::String(text), others @ ..] => {
            if text.as_str().as_bytes().starts_with(b"file://") {
                others
            } else {
                parts
            }
        }
        _ => parts,
    }
}

// Whether the text holds the text parts, each after the one before.
#[tactic(auto, unfolding(crate::specs::Template::holds_parts))]
fn holds_parts(parts: &[DynamicTemplatePart], text: &[u8]) -> bool
    ensures { result ≡ holds_parts parts.now text.now }
{
    match parts {
        [] => true,
        [DynamicTemplatePart::Expr, others @ ..] => holds_parts(others, text),
        [DynamicTemplatePart::String(part), others @ ..] => {
            match after_part(part.as_str().as_bytes(), text) {
                Some(left) => holds_parts(others, left),
                None => false,
            }
        }
    }
}

#[tactic(auto, unfolding(crate::specs::Template::ends_as))]
fn ends_as(parts: &[DynamicTemplatePart], text: &[u8]) -> bool
    ensures { result ≡ ends_as parts.now text.now }
{
    match parts.last() {
        Some(DynamicTemplatePart::String(part)) => text.ends_with(part.as_str().as_bytes()),
        _ => true,
    }
}

/// Whether the text has the parts of the template: it holds the text parts in order, and ends with the last
/// part, where that is a text.
pub(crate) fn fits_template(parts: &[DynamicTemplatePart], text: &str) -> bool
    ensures { result ≡ fits_template parts.now text.now }
{
    holds_parts(compared(parts), text.as_bytes()) && ends_as(parts, text.as_bytes())
}
