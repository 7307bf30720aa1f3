// The rules of a policy, and which edges they fit.
ghost use Rattle.std.specs.Prelude.{◌≡◌, option_copied};
ghost use Rattle.spec_base.specs.Specifier.{specifier_text};
ghost use Rattle.import_policy.specs.Breaches.{fits, fits_text, fits_host, fits_kind, fits_scheme_and_host};
ghost use Rattle.import_policy.specs.Edges.{edge_value};
ghost use Rattle.import_policy.specs.SchemesAndHosts.{scheme_and_host_of};

use crate::edge_kind::EdgeKind;
use crate::edges::EdgeRef;
use crate::scheme_and_host::text_tells_scheme_and_host;
use spec_base::{ModuleSpecifier, Text};

/// What an edge has to be for a rule to be broken: each part that is given.
#[derive(Debug, Drop)]
pub struct PolicyRule {
    /// The name of the rule in reports.
    pub id: Text,
    pub from_scheme: Option<Text>,
    pub from_host: Option<Text>,
    pub to_scheme: Option<Text>,
    pub to_host: Option<Text>,
    pub kind: Option<EdgeKind>,
}

fn fits_text(given: &Option<Text>, text: &str) -> bool
    ensures { result ≡ fits_text given.now text.now }
{
    match given {
        None => true,
        Some(given) => given.as_str() == text,
    }
}

fn fits_host(given: &Option<Text>, url: &ModuleSpecifier) -> bool
    ensures { result ≡ fits_host given.now (scheme_and_host_of url.now).host }
{
    match given {
        None => true,
        Some(given) => match url.host_str() {
            None => false,
            Some(host) => given.as_str() == host,
        },
    }
}

fn fits_kind(given: Option<EdgeKind>, kind: EdgeKind) -> bool
    ensures { result ≡ fits_kind given kind }
{
    match given {
        None => true,
        Some(given) => given.as_str() == kind.as_str(),
    }
}

fn fits_scheme_and_host(scheme: &Option<Text>, host: &Option<Text>, url: &ModuleSpecifier) -> bool
    ensures { result ≡ fits_scheme_and_host scheme.now host.now (scheme_and_host_of url.now) }
{
    fits_text(scheme, url.scheme()) && fits_host(host, url)
}

/// Whether all parts that a rule gives are those of an edge of a specifier. A host fits only a URL that has it.
pub(crate) fn fits(rule: &PolicyRule, from: &ModuleSpecifier, edge: &EdgeRef<'_>) -> bool
    ensures { result ≡ fits rule.now (specifier_text from.now) (edge_value edge.now) }
{
    // Contracts know the specifier by its text.
    text_tells_scheme_and_host(from);
    fits_scheme_and_host(&rule.from_scheme, &rule.from_host, from)
        && fits_scheme_and_host(&rule.to_scheme, &rule.to_host, edge.to)
        && fits_kind(rule.kind, edge.kind)
}
