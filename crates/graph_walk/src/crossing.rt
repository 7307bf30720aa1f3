// Whether a module may import where an import leads: not from https to http, nor from either to a local file.
ghost use Rattle.std.specs.Prelude.{◌≡◌, nat_eq, bytes_eq};
ghost use Rattle.std.specs.List.{starts_with};
ghost use Rattle.media_types.specs.Media.{lower};
ghost use Rattle.graph_walk.specs.Crossing.{has_scheme, is_downgrade, is_remote, is_local_import};

use spec_base::ModuleSpecifier;

fn has_scheme(specifier: &ModuleSpecifier, scheme: &str) -> bool
    ensures { result ≡ has_scheme specifier.now scheme.now }
{
    specifier.scheme() == scheme
}

pub(crate) fn is_downgrade(here: &ModuleSpecifier, target: &ModuleSpecifier) -> bool
    ensures { result ≡ is_downgrade here.now target.now }
{
    has_scheme(here, "https") && has_scheme(target, "http")
}

fn is_remote(specifier: &ModuleSpecifier) -> bool
    ensures { result ≡ is_remote specifier.now }
{
    has_scheme(specifier, "http") || has_scheme(specifier, "https")
}

fn is_text(text: &[u8], other: &[u8]) -> bool
    ensures { result ≡ bytes_eq (lower text.now) (lower other.now) }
{
    text.eq_ignore_ascii_case(other)
}

// Whether a text begins with another one, in any case of letters.
fn starts_with_text(text: &[u8], start: &[u8]) -> bool
    ensures { result ≡ starts_with nat_eq (lower text.now) (lower start.now) }
{
    if text.len() < start.len() {
        return false;
    }
    is_text(start, &text[..start.len()])
}

pub(crate) fn is_local_import(here: &ModuleSpecifier, text: &str, target: &ModuleSpecifier) -> bool
    ensures { result ≡ is_local_import here.now text.now target.now }
{
    is_remote(here) && has_scheme(target, "file") && starts_with_text(text.as_bytes(), b"file://")
}
