// JSON lists of exactly two items.
ghost use Rattle.std.specs.Prelude.{◌≡◌, option_map};
ghost use Rattle.json_documents.specs.Documents.{view};
ghost use Rattle.json_forms.specs.Form.{pair};

use json_documents::Json;

/// The two items of a list of exactly two.
pub fn pair<'v, 'a>(value: &Json<'v, 'a>) -> Option<(Json<'v, 'a>, Json<'v, 'a>)>
    ensures { option_map (λ p. (view p.0, view p.1)) result ≡ pair (view value.now) }
{
    let mut items = value.as_array()?;
    let first = items.next()?;
    let second = items.next()?;
    match items.next() {
        Some(_) => None,
        None => Some((first, second)),
    }
}
