// Maps in the order of their keys.
ghost use Rattle.std.specs.Prelude.{◌≡◌, [], IfOk, OnOk, OnErr, is_some, option_copied, length};
ghost use Rattle.std.specs.BTreeMap.{insert_entry, is_at};
ghost use Rattle.std.specs.Map.{remove_entry};
ghost use Rattle.version_dates.specs.Sets.{at_key};

use std::alloc::{AllocError, Global};
use std::collections::BTreeMap;
use std::marker::Model;

/// A map in the order of its keys, which contracts see as the list of its entries.
#[derive(Debug, Drop)]
pub struct SortedMap<K: Ord, V> {
    map: BTreeMap<K, V>,
}

impl<K: Ord, V> Model for SortedMap<K, V> {
    ghost use Rattle.std.specs.Prelude.{List};

    ghost Value = { List (K × V) };

    ghost view = { λ m. m.map.entries };
}

impl<K: Ord, V> SortedMap<K, V> {
    /// The empty map.
    pub fn new(alloc: Global) -> SortedMap<K, V>
        ensures { result ≡ [] }
    {
        SortedMap {
            map: BTreeMap::new(alloc),
        }
    }

    /// The number of entries.
    pub fn len(&self) -> usize
        ensures { result ≡ length self.now }
    {
        self.map.len()
    }

    /// The value at a key; None where it isn't one.
    pub fn get(&self, key: &K) -> Option<&V>
        ensures { option_copied result ≡ at_key K.cmp self.now key.now }
    {
        self.map.get(key)
    }

    /// Whether there is a value at a key.
    pub fn contains_key(&self, key: &K) -> bool
        ensures { result ≡ is_some (at_key K.cmp self.now key.now) }
    {
        self.map.contains_key(key)
    }

    /// Puts a value at a key, in place of the one that stood there. The only refusal is want of memory,
    /// after which the map is unchanged; a key that
    /// stands takes none.
    pub fn insert(&mut self, key: K, value: V) -> Result<(), AllocError>
    where
        K: Drop,
        V: Drop,
        ensures ok { OnOk result (self.new ≡ insert_entry K.cmp self.old key value) }
        ensures err { OnErr result (self.new ≡ self.old) }
        ensures absent { OnErr result (at_key K.cmp self.old key ≡ None) }
    {
        self.map.insert(key, value)?;
        Ok(())
    }

    /// Takes out the value at a key, where there is one.
    pub fn remove(&mut self, key: &K)
    where
        K: Drop,
        V: Drop,
        ensures { self.new ≡ remove_entry (is_at (K.cmp key.now)) self.old }
    {
        let _ = self.map.remove(key);
    }

    /// The map, to go over in the order of the keys.
    pub fn as_map(&self) -> &BTreeMap<K, V>
        ensures { result.now.entries ≡ self.now }
    {
        &self.map
    }

    /// A copy, where copies of keys and values equal their source. The only refusal is want of memory.
    #[tactic(auto, using(spec_base::proofs::CopyLemmas::same_entries))]
    pub fn try_clone(&self) -> Result<SortedMap<K, V>, AllocError>
    where
        K: Clone,
        V: Clone,
        requires keys { (x y : K) → K.is_clone x y → y ≡ x }
        requires values { (x y : V) → V.is_clone x y → y ≡ x }
        ensures { IfOk result (λ m. m ≡ self.now) }
    {
        let map = self.map.clone()?;
        Ok(SortedMap { map })
    }
}

impl<K: Ord, V> From<BTreeMap<K, V>> for SortedMap<K, V> {
    ghost from_gives = { λ map m. m ≡ map.entries };

    fn from(map: BTreeMap<K, V>) -> SortedMap<K, V> {
        SortedMap { map }
    }
}
