// Distinct texts in ascending order.
ghost use Rattle.std.specs.Prelude.{◌≡◌, [], IfOk, OnOk};
ghost use Rattle.std.specs.BTreeSet.{insert_key};
ghost use Rattle.spec_base.specs.Options.{by_option};
ghost use Rattle.spec_base.specs.Shown.{text_cmp};
ghost use Rattle.file_tree.specs.Walk.{has_path};

use spec_base::Text;
use std::alloc::{AllocError, Global};
use std::collections::BTreeSet;
use std::marker::Model;

/// Distinct texts in ascending order of their bytes, which contracts see as the list of them.
#[derive(Drop)]
pub(crate) struct TextSet {
    texts: BTreeSet<Text>,
}

impl Model for TextSet {
    ghost use Rattle.std.specs.Prelude.{List, ℕ};

    ghost Value = { List (List ℕ) };

    ghost view = { λ s. s.texts.keys };
}

impl TextSet {
    /// No texts.
    pub(crate) fn new(alloc: Global) -> TextSet
        ensures { result ≡ [] }
    {
        TextSet {
            texts: BTreeSet::new(alloc),
        }
    }

    /// Adds a text at its place, unless it is there; None adds nothing. The only refusal is want of memory.
    pub(crate) fn add(&mut self, text: Option<Text>) -> Result<(), AllocError>
        ensures { OnOk result (self.new ≡ by_option text self.old (insert_key text_cmp self.old)) }
    {
        if let Some(text) = text {
            self.texts.insert(text)?;
        }
        Ok(())
    }

    /// Whether the text is among them.
    pub(crate) fn has(&self, text: &Text) -> bool
        ensures { result ≡ has_path self.now text.now }
    {
        self.texts.contains(text)
    }

    /// The texts, in order. The only refusal is want of memory.
    pub(crate) fn into_vec(self, alloc: Global) -> Result<Vec<Text>, AllocError>
        ensures { IfOk result (λ texts. texts.items ≡ self) }
    {
        self.texts.into_iter().collect(alloc)
    }
}
