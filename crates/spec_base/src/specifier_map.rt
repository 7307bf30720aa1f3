// A map from specifiers, in the order of their texts.
ghost use Rattle.std.specs.Prelude.{◌≡◌, OnOk, OnErr, IfOk, option_copied};
ghost use Rattle.std.specs.FinMap as finite;
ghost use Rattle.spec_base.specs.Places.{with_first};
ghost use Rattle.spec_base.specs.Specifier.{by_text, specifier_text};

use std::alloc::{AllocError, Global};
use std::collections::BTreeMap;
use std::marker::Model;
use url::Url;

/// A map from specifiers, which contracts see as the finite map from their texts.
#[derive(Debug, Drop)]
pub struct SpecifierMap<V> {
    map: BTreeMap<Url, V>,
}

impl<V> Model for SpecifierMap<V> {
    ghost use Rattle.std.specs.Prelude.{ℕ, List};
    ghost use Rattle.std.specs.Coded.{coded_ℕ, coded_list};
    ghost use Rattle.std.specs.FinMap as finite;
    ghost use Rattle.spec_base.specs.Shown.{text_cmp};
    ghost use Rattle.spec_base.specs.Specifier.{by_text};

    ghost Value = { finite.FinMap text_cmp V };

    ghost coded = { finite.code (coded_list coded_ℕ) V.code };

    ghost view = { λ m. finite.from_entries (by_text m.map.entries) };
}

impl<V> SpecifierMap<V> {
    /// The empty map.
    pub fn new(alloc: Global) -> SpecifierMap<V>
        ensures { result ≡ finite.empty }
    {
        SpecifierMap {
            map: BTreeMap::new(alloc),
        }
    }

    /// The number of specifiers.
    pub fn len(&self) -> usize
        ensures { result ≡ finite.len self.now }
    {
        self.map.len()
    }

    /// The value at a specifier.
    pub fn get(&self, specifier: &Url) -> Option<&V>
        ensures { option_copied result ≡ finite.get self.now (specifier_text specifier.now) }
    {
        self.map.get(specifier)
    }

    /// Whether a value stands at a specifier.
    pub fn contains_key(&self, specifier: &Url) -> bool
        ensures { result ≡ finite.contains_key self.now (specifier_text specifier.now) }
    {
        self.map.contains_key(specifier)
    }

    /// Puts a value at a specifier, and answers the one that stood there; the map is unchanged where
    /// there is no memory.
    pub fn insert(&mut self, specifier: Url, value: V) -> Result<Option<V>, AllocError>
    where
        V: Drop,
        ensures ok { OnOk result
            (self.new ≡ finite.insert self.old (specifier_text specifier) value) }
        ensures before { IfOk result
            (λ before. before ≡ finite.get self.old (specifier_text specifier)) }
        ensures err { OnErr result (self.new ≡ self.old) }
    {
        let before = self.map.insert(specifier, value)?;
        Ok(before)
    }

    /// Puts a value at a specifier where none stands there, and leaves the map otherwise; the map is
    /// unchanged where there is no memory.
    pub fn insert_first(&mut self, specifier: &Url, value: V) -> Result<(), AllocError>
    where
        V: Drop,
        ensures ok { OnOk result
            (self.new ≡ with_first self.old (specifier_text specifier.now) value) }
        ensures err { OnErr result (self.new ≡ self.old) }
    {
        if self.contains_key(specifier) {
            return Ok(());
        }
        let key = specifier.clone()?;
        let _ = self.insert(key, value)?;
        Ok(())
    }

    /// Removes the value at a specifier, and answers it.
    pub fn remove(&mut self, specifier: &Url) -> Option<V>
        ensures map { self.new ≡ finite.remove self.old (specifier_text specifier.now) }
        ensures before { result ≡ finite.get self.old (specifier_text specifier.now) }
    {
        let _ = self.map.len();
        self.map.remove(specifier)
    }

    /// The map, to go over in the order of the specifiers' texts.
    pub fn as_map(&self) -> &BTreeMap<Url, V>
        ensures { by_text result.now.entries ≡ finite.entries self.now }
    {
        let _ = self.map.len();
        &self.map
    }

    /// The map itself, with no copy.
    pub fn into_map(self) -> BTreeMap<Url, V>
        ensures { finite.from_entries (by_text result.entries) ≡ self }
    {
        let SpecifierMap { map } = self;
        map
    }

    /// A copy, where copies of values equal their source. The only refusal is want of memory.
    #[tactic(auto, using(crate::proofs::CopyLemmas::same_entries))]
    pub fn try_clone(&self) -> Result<SpecifierMap<V>, AllocError>
    where
        V: Clone,
        requires { (x y : V) → V.is_clone x y → y ≡ x }
        ensures { IfOk result (λ m. m ≡ self.now) }
    {
        let map = self.map.clone()?;
        Ok(SpecifierMap { map })
    }
}

impl<V> From<BTreeMap<Url, V>> for SpecifierMap<V> {
    ghost from_gives = { λ map m. m ≡ finite.from_entries (by_text map.entries) };

    fn from(map: BTreeMap<Url, V>) -> SpecifierMap<V> {
        SpecifierMap { map }
    }
}
