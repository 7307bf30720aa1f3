// Names of a table.
ghost use Rattle.std.specs.Prelude.{◌≡◌, map};
ghost use Rattle.std.specs.Map.{lookup};
ghost use Rattle.std.specs.Str.{bytes_eq};
ghost use Rattle.json_documents.specs.Documents.{view};
ghost use Rattle.spec_base.specs.Refusal.{Reads};
ghost use Rattle.json_forms.specs.Form.{choice};

use crate::form::Misfit;
use json_documents::Json;
use spec_base::Refusal;

/// What a text that is a name of the table stands for there; the first such row counts. `Misfit` exactly
/// where the value is no text or no name of the table.
pub fn choose<T: Copy>(value: &Json<'_, '_>, table: &[(&str, T)]) -> Result<T, Refusal<Misfit>>
    ensures { Reads result (choice (map (λ e. (e.0.now, e.1)) table.now) (view value.now)) }
{
    match value.as_str() {
        Some(name) => match find(name, table) {
            Some(found) => Ok(found),
            None => Err(Refusal::Is(Misfit)),
        },
        None => Err(Refusal::Is(Misfit)),
    }
}

fn find<T: Copy>(name: &str, table: &[(&str, T)]) -> Option<T>
    ensures { result ≡ lookup (bytes_eq name.now) (map (λ e. (e.0.now, e.1)) table.now) }
{
    for row in table {
        if name == row.0 {
            return Some(row.1);
        }
    }
    None
}
