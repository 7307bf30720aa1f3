// Answers by the names of packages.
ghost use Rattle.std.specs.Prelude.{◌≡◌, ◌<◌, ◌^◌, OnOk, OnErr, option_copied};
ghost use Rattle.std.specs.FinMap as finite;
ghost use Rattle.metadata_store.specs.Store.{with_answer};

use spec_base::Text;
use std::alloc::{AllocError, Global};
use std::collections::BTreeMap;
use std::marker::Model;

/// Answers by the names of packages, which contracts see as a finite map.
#[derive(Debug, Drop)]
pub struct NameAnswers<V> {
    map: BTreeMap<Text, V>,
}

impl<V> Model for NameAnswers<V> {
    ghost use Rattle.std.specs.Coded.{coded_ℕ, coded_list};
    ghost use Rattle.std.specs.FinMap as finite;
    ghost use Rattle.spec_base.specs.Shown.{text_cmp};

    ghost Value = { finite.FinMap text_cmp V };

    ghost coded = { finite.code (coded_list coded_ℕ) V.code };

    ghost view = { λ answers. finite.from_entries answers.map.entries };
}

impl<V> NameAnswers<V> {
    /// No answers.
    pub fn new(alloc: Global) -> NameAnswers<V>
        ensures { result ≡ finite.empty }
    {
        NameAnswers {
            map: BTreeMap::new(alloc),
        }
    }

    /// The number of answers.
    pub fn len(&self) -> usize
        ensures exact { result ≡ finite.len self.now }
        ensures small { result < 2 ^ 63 }
    {
        self.map.len()
    }

    /// The answer at a key; None where none is kept.
    pub fn get(&self, name: &Text) -> Option<&V>
        ensures { option_copied result ≡ finite.get self.now name.now }
    {
        self.map.get(name)
    }

    /// Keeps an answer, unless one stands. The only refusal is want of memory, after which nothing is changed.
    pub fn add(&mut self, name: Text, answer: V) -> Result<(), AllocError>
    where
        V: Drop,
        ensures ok { OnOk result (self.new ≡ with_answer self.old name answer) }
        ensures err { OnErr result (self.new ≡ self.old) }
    {
        if self.map.contains_key(&name) {
            return Ok(());
        }
        let _ = self.map.insert(name, answer)?;
        Ok(())
    }
}
