// What the definitions of registry URLs say together.
ghost use Rattle.std.specs.Prelude.{◌≡◌, ◌++◌, IsTrue, Ok, Some};
ghost use Rattle.semver.specs.Grammar.{IsValid};
ghost use Rattle.url.specs.Parser.{parse_url};
ghost use Rattle.url.specs.Parts.{HasSameHost, serialize};
ghost use Rattle.registry_urls.specs.Names.{nv_of_url};
ghost use Rattle.registry_urls.specs.Packages.{package_url};
ghost use Rattle.registry_urls.specs.Plain.{IsFolder, IsPlain, IsScoped};
ghost use Rattle.registry_urls.specs.Registry.{is_web, text_in, url_in};

use semver_npm::PackageNv;
use url::Url;

/// Each text in the folder of a registry with the scheme http or https has a URL by the URL Standard, whatever
/// stands in it, and that URL has the registry's scheme, host and port.
pub fn folder_texts_have_urls(registry_url: &Url, path: &str)
    requires { IsTrue (is_web registry_url.now) }
    ensures parsed { parse_url None (text_in registry_url.now path.now)
        ≡ Ok (url_in registry_url.now path.now) }
    ensures same_host { HasSameHost registry_url.now (url_in registry_url.now path.now) }
{
    let _text = registry_url.as_str();
    let _path = path;
}

/// In the folder of a registry, a path with nothing to escape and no segment `.` or `..` stays as it is: the text of
/// its URL is the registry's text with the path behind it.
pub fn plain_paths_stay(registry_url: &Url, path: &str)
    requires web { IsTrue (is_web registry_url.now) }
    requires registry { IsFolder registry_url.now }
    requires path { IsPlain path.now }
    ensures { serialize (url_in registry_url.now path.now)
        ≡ serialize registry_url.now ++ path.now }
{
    let _text = registry_url.as_str();
    let _path = path;
}

/// The URL of a version of a package names that version, where the name is a scope and a name that URLs leave as
/// they are.
pub fn package_urls_name_their_versions(registry_url: &Url, nv: &PackageNv)
    requires web { IsTrue (is_web registry_url.now) }
    requires registry { IsFolder registry_url.now }
    requires plain { IsPlain nv.now.name }
    requires scoped { IsScoped nv.now.name }
    requires version { IsValid nv.now.version }
    ensures { nv_of_url registry_url.now (package_url registry_url.now nv.now) ≡ Some nv.now }
{
    let _text = registry_url.as_str();
    let _nv = nv;
}
