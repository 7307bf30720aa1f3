// The options of walks, which are told by words.
ghost use Rattle.std.specs.Prelude.{bytes_eq, codes};
ghost use Rattle.url.specs.Parts.{serialize};

use graph_core::GraphKind;
use graph_walk::{CheckJsOption, CheckJsResolver, WalkOptions};
use spec_base::ModuleSpecifier;

/// Of all JavaScript, that at one specifier is checked.
#[derive(Drop)]
pub struct OneChecked;

impl CheckJsResolver for OneChecked {
    ghost resolves = { λ _ s. bytes_eq (serialize s) (codes "file:///checked.js") };

    fn resolve(&self, specifier: &ModuleSpecifier) -> bool {
        specifier.as_str() == "file:///checked.js"
    }
}

fn kind(words: &str) -> GraphKind {
    if words.starts_with("code") {
        GraphKind::CodeOnly
    } else if words.starts_with("types") {
        GraphKind::TypesOnly
    } else {
        GraphKind::All
    }
}

fn check_js<'a>(words: &str, resolver: &'a OneChecked) -> CheckJsOption<'a, OneChecked> {
    if words.contains("unchecked") {
        CheckJsOption::False
    } else if words.contains("one") {
        CheckJsOption::Custom(resolver)
    } else {
        CheckJsOption::True
    }
}

/// The options of some words: `all`, `code` or `types`, then `dynamic` where dynamic imports are followed, then
/// `unchecked` where no JavaScript is checked, `one` where that at `file:///checked.js` alone is, and `fast` where what fast
/// checks found is preferred.
pub fn options<'a>(words: &str, resolver: &'a OneChecked) -> WalkOptions<'a, OneChecked> {
    WalkOptions {
        check_js: check_js(words, resolver),
        follow_dynamic: words.contains("dynamic"),
        kind: kind(words),
        prefer_fast_check_graph: words.contains("fast"),
    }
}
