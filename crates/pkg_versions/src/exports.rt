// The exports of a version, by name.
ghost use Rattle.std.specs.Prelude.{◌≡◌, length, option_copied};
ghost use Rattle.std.specs.Iterator.{YieldsFirstBy, at_most};
ghost use Rattle.serde_json.specs.View.{view, members_view};
ghost use Rattle.pkg_versions.specs.Exports.{export_of, exports_of, text_members};
ghost use Rattle.pkg_versions.specs.ExportViews.{export_view};

use crate::version_info::JsrPackageVersionInfo;
use serde_json::Value;
use std::collections::btree_map::Iter;
use std::marker::Model;

/// Goes over the exports of a version in the order of their names.
#[derive(Drop)]
pub struct Exports<'a> {
    // The one export that a text is.
    single: Option<&'a str>,
    members: Option<Iter<'a, String, Value>>,
}

impl<'a> Model for Exports<'a> {
    ghost use Rattle.std.specs.Prelude.{List, ℕ};
    ghost use Rattle.pkg_versions.specs.ExportViews.{exports_left};

    ghost Value = { List (List ℕ × List ℕ) };

    ghost view = { λ e. exports_left e.single e.members };
}

impl<'a> Iterator for Exports<'a> {
    type Item = (&'a str, &'a str);

    ghost next_gives = { YieldsFirstBy export_view (λ e. e) };

    ghost remaining = { λ e. at_most (length e) };

    fn next(&mut self) -> Option<(&'a str, &'a str)> {
        if let Some(text) = self.single {
            self.single = None;
            return Some((".", text));
        }
        match &mut self.members {
            Some(members) => next_text(members),
            None => None,
        }
    }
}

// The next member whose value is a text.
fn next_text<'a>(members: &mut Iter<'a, String, Value>) -> Option<(&'a str, &'a str)>
    ensures { YieldsFirstBy export_view (λ es. text_members (members_view es)) members.old result
        members.new }
{
    while let Some((name, value)) = members.next() {
        if let Some(text) = value.as_str() {
            return Some((name.as_str(), text));
        }
    }
    None
}

impl JsrPackageVersionInfo {
    /// The file that an export leads to: a text is the export `.`, and in an object the members whose
    /// values are texts are exports.
    pub fn export(&self, export_name: &str) -> Option<&str>
        ensures { option_copied result ≡ export_of (view self.now.exports) export_name.now }
    {
        let exports = &self.exports;
        match exports {
            Value::String(text) => if export_name == "." {
                Some(text.as_str())
            } else {
                None
            },
            Value::Object(_) => match exports.get(export_name) {
                Some(member) => member.as_str(),
                None => None,
            },
            _ => None,
        }
    }

    /// All exports, in the order of their names.
    pub fn exports(&self) -> Exports<'_>
        ensures { result ≡ exports_of (view self.now.exports) }
    {
        match &self.exports {
            Value::String(text) => Exports {
                single: Some(text.as_str()),
                members: None,
            },
            Value::Object(members) => Exports {
                single: None,
                members: Some(members.iter()),
            },
            _ => Exports {
                single: None,
                members: None,
            },
        }
    }
}
