// What the text of a URL tells of it.
ghost use Rattle.std.specs.Prelude.{◌≡◌};
ghost use Rattle.spec_base.specs.Specifier.{specifier_text};
ghost use Rattle.import_policy.specs.SchemesAndHosts.{scheme_and_host_in, scheme_and_host_of};

use spec_base::ModuleSpecifier;

/// A law: the text of a URL tells its scheme and its host, so URLs of one text have one scheme and one host.
pub fn text_tells_scheme_and_host(url: &ModuleSpecifier)
    ensures { scheme_and_host_in (specifier_text url.now) ≡ scheme_and_host_of url.now }
{
    // A URL that is read is a valid one.
    let _scheme = url.scheme();
}
