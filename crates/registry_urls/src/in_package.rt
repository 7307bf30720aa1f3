// What lies in a version of a package.
ghost use Rattle.std.specs.Prelude.{◌≡◌, option_copied};
ghost use Rattle.registry_urls.specs.InPackage.{is_in, package_root, sub_path_in};

use crate::prefix::after_prefix;
use url::Url;

// The text of a package's URL without the slash at its end.
#[tactic(auto, using(std::proofs::lemmas::Str::Pattern::ends_text))]
fn root_of(package_url: &Url) -> &str
    ensures { result.now ≡ package_root package_url.now }
{
    let text = package_url.as_str();
    if text.ends_with("/") {
        &text[..text.len() - 1]
    } else {
        text
    }
}

/// Whether a specifier is in a package: its text begins with that of the package's URL without the `/` at its
/// end. This is a test of texts, so `https://jsr.io/@a/b/1.0.0-beta/mod.ts` is in version 1.0.0 of `@a/b`.
pub fn is_in_package(package_url: &Url, specifier: &Url) -> bool
    ensures { result ≡ is_in package_url.now specifier.now }
{
    sub_path_in_package(package_url, specifier).is_some()
}

/// The sub path of a specifier in a package, by which the files of its version are named: what stands after the
/// text of the package's URL without the `/` at its end. None where it isn't in the package.
pub fn sub_path_in_package<'a>(package_url: &Url, specifier: &'a Url) -> Option<&'a str>
    ensures { option_copied result ≡ sub_path_in package_url.now specifier.now }
{
    after_prefix(root_of(package_url), specifier.as_str())
}
