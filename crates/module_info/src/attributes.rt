// The attributes of an import, as `with { type: "json" }` (ECMA-262, import attributes).
ghost use Rattle.std.specs.Prelude.{◌≡◌, IfOk, option_map};
ghost use Rattle.module_info.specs.Attributes.{known_text, attribute_text, is_asset_type, has_asset};

use spec_base::{SortedTexts, Text};
use std::alloc::AllocError;

/// The value of one attribute.
#[derive(Clone, PartialEq, Eq, Debug, Drop)]
pub enum ImportAttribute {
    /// It can't be told without running the module.
    Unknown,
    Known(Text),
}

/// The attributes of one import.
#[derive(PartialEq, Eq, Debug, Drop)]
pub enum ImportAttributes {
    /// None are written.
    None,
    /// Which there are can't be told without running the module.
    Unknown,
    /// Those that are written, by key.
    Known(SortedTexts<ImportAttribute>),
}

impl ImportAttribute {
    /// A copy. The only refusal is want of memory.
    pub fn try_clone(&self) -> Result<ImportAttribute, AllocError>
        ensures { IfOk result (λ a. a ≡ self.now) }
    {
        self.clone()
    }

    // The text, where it is known.
    fn text(&self) -> Option<&str>
        ensures { option_map (λ t. t.now) result ≡ known_text self.now }
    {
        match self {
            ImportAttribute::Unknown => None,
            ImportAttribute::Known(text) => Some(text.as_str()),
        }
    }
}

impl ImportAttributes {
    /// A copy. The only refusal is want of memory.
    pub fn try_clone(&self) -> Result<ImportAttributes, AllocError>
        ensures { IfOk result (λ a. a ≡ self.now) }
    {
        match self {
            ImportAttributes::None => Ok(ImportAttributes::None),
            ImportAttributes::Unknown => Ok(ImportAttributes::Unknown),
            ImportAttributes::Known(entries) => Ok(ImportAttributes::Known(entries.try_clone()?)),
        }
    }

    /// The text of the attribute with a key; None where the attributes, the key or its value aren't known.
    pub fn get(&self, key: &str) -> Option<&str>
        ensures { option_map (λ t. t.now) result ≡ attribute_text self.now key.now }
    {
        match self {
            ImportAttributes::Known(entries) => match entries.get(key) {
                Some(attribute) => attribute.text(),
                None => None,
            },
            _ => None,
        }
    }

    /// Whether the attribute `type` is known to be `text`, `bytes` or `css`: such a module is taken as it
    /// is, and not run.
    pub fn has_asset(&self) -> bool
        ensures { result ≡ has_asset self.now }
    {
        match self.get("type") {
            Some(name) => is_asset_type(name),
            None => false,
        }
    }
}

fn is_asset_type(name: &str) -> bool
    ensures { result ≡ is_asset_type name.now }
{
    name == "text" || name == "bytes" || name == "css"
}

impl Clone for ImportAttributes {
    ghost is_clone = { λ a copy. copy ≡ a };

    fn clone(&self) -> Result<ImportAttributes, AllocError> {
        self.try_clone()
    }
}
