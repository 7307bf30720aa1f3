// Texts that begin with another one.
ghost use Rattle.std.specs.Prelude.{◌≡◌, option_copied};
ghost use Rattle.registry_urls.specs.Prefix.{after_prefix};

// What stands in a text after a prefix; None where the text doesn't begin with it.
pub(crate) fn after_prefix<'a>(prefix: &str, text: &'a str) -> Option<&'a str>
    ensures { option_copied result ≡ after_prefix prefix.now text.now }
{
    text.strip_prefix(prefix)
}
