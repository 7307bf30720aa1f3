// Maps in the order of the texts that are their keys.
ghost use Rattle.std.specs.Prelude.{◌≡◌, ◌&&◌, [], IfOk, OnOk, OnErr, option_copied, bytes_eq, string_bytes, length};
ghost use Rattle.std.specs.Map.{lookup};
ghost use Rattle.std.specs.BTreeMap.{insert_entry};
ghost use Rattle.std.specs.Cmp.{on_per, and_per, on_equiv, and_equiv, partial_equiv_from_equiv};
ghost use Rattle.std.specs.Cmp.Lexicographic.{pointwise, lists_per, lists_equiv, nat_list_eq_equiv};
ghost use Rattle.spec_base.specs.Shown.{shown, text_cmp};

use std::alloc::{AllocError, Global};
use std::collections::BTreeMap;
use std::fmt;
use std::marker::Model;

/// A map from texts in the order of their bytes, which contracts see as the list of its entries.
#[derive(Drop)]
pub struct SortedTexts<V> {
    map: BTreeMap<String, V>,
}

impl<V> Model for SortedTexts<V> {
    ghost use Rattle.std.specs.Prelude.{List, ℕ};
    ghost use Rattle.spec_base.specs.Shown.{shown};

    ghost Value = { List (List ℕ × V) };

    ghost view = { λ m. shown m.map.entries };
}

impl<V> SortedTexts<V> {
    /// The empty map.
    pub fn new(alloc: Global) -> SortedTexts<V>
        ensures { result ≡ [] }
    {
        SortedTexts {
            map: BTreeMap::new(alloc),
        }
    }

    /// The number of entries.
    pub fn len(&self) -> usize
        ensures { result ≡ length self.now }
    {
        self.map.len()
    }

    /// The value at a text; None where the text isn't a key.
    pub fn get(&self, key: &str) -> Option<&V>
        ensures { option_copied result ≡ lookup (bytes_eq key.now) self.now }
    {
        self.map.get(key)
    }

    /// Puts a value at a text, in place of the one that stood there. The only refusal is want of memory,
    /// after which the map is unchanged.
    #[tactic(auto, using(crate::proofs::SortedLemmas::insert_shown))]
    pub fn insert(&mut self, key: String, value: V) -> Result<(), AllocError>
    where
        V: Drop,
        ensures ok { OnOk result
            (self.new ≡ insert_entry text_cmp self.old (string_bytes key) value) }
        ensures err { OnErr result (self.new ≡ self.old) }
    {
        self.map.insert(key, value)?;
        Ok(())
    }

    /// The map, to go over in the order of the texts.
    pub fn as_map(&self) -> &BTreeMap<String, V>
        ensures { shown result.now.entries ≡ self.now }
    {
        &self.map
    }

    /// The map, as it is kept. It takes no memory.
    pub fn into_map(self) -> BTreeMap<String, V>
        ensures { shown result.entries ≡ self }
    {
        self.map
    }

    /// A copy, where copies of values equal their source. The only refusal is want of memory.
    pub fn try_clone(&self) -> Result<SortedTexts<V>, AllocError>
    where
        V: Clone,
        requires { (x y : V) → V.is_clone x y → y ≡ x }
        ensures { IfOk result (λ m. m ≡ self.now) }
    {
        let map = self.map.clone()?;
        Ok(SortedTexts { map })
    }
}

impl<V> From<BTreeMap<String, V>> for SortedTexts<V> {
    ghost from_gives = { λ map m. m ≡ shown map.entries };

    fn from(map: BTreeMap<String, V>) -> SortedTexts<V> {
        SortedTexts { map }
    }
}

impl<V: PartialEq> PartialEq for SortedTexts<V> {
    ghost eq = { pointwise (λ p q. bytes_eq p.0 q.0 && V.eq p.1 q.1) };

    ghost laws = { lists_per (and_per (on_per (λ p. p.0) (partial_equiv_from_equiv nat_list_eq_equiv)) (on_per (λ p. p.1) V.laws)) };

    fn eq(&self, other: &SortedTexts<V>) -> bool {
        self.map == other.map
    }
}

impl<V: Eq> Eq for SortedTexts<V> {
    ghost laws = { lists_equiv (and_equiv (on_equiv (λ p. p.0) nat_list_eq_equiv) (on_equiv (λ p. p.1) V.Eq.laws)) };
}

impl<V: fmt::Debug> fmt::Debug for SortedTexts<V> {
    fn fmt<W: fmt::Write>(&self, f: &mut fmt::Formatter<W>) -> fmt::Result {
        fmt::Debug::fmt(&self.map, f)
    }
}
