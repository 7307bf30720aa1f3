// Values by specifier, found by hash and lent in the order of texts.
ghost use Rattle.std.specs.Prelude.{◌≡◌, OnOk, OnErr, IfOk, filter, option_copied};
ghost use Rattle.std.specs.FinMap as finite;
ghost use Rattle.spec_base.specs.Specifier.{by_text, specifier_text};
ghost use Rattle.specifier_index.specs.SpecifierTable.{IsCovered};

use crate::specifier_index::SpecifierIndex;
use std::alloc::{AllocError, Global};
use std::collections::{BTreeSet, btree_set};
use std::marker::Model;
use url::Url;

/// Values by specifier, which contracts see as the finite map from their texts. They stand in a row by number and are found by hash; beside them
/// stands the order of the specifiers' texts, in which they are lent.
#[derive(Debug, Drop)]
pub struct SpecifierTable<V> {
    order: BTreeSet<Url>,
    values: SpecifierIndex<V>,
}

impl<V> Model for SpecifierTable<V> {
    ghost use Rattle.std.specs.Prelude.{ℕ, List};
    ghost use Rattle.std.specs.Coded.{coded_ℕ, coded_list};
    ghost use Rattle.std.specs.FinMap as finite;
    ghost use Rattle.spec_base.specs.Shown.{text_cmp};
    ghost use Rattle.specifier_index.specs.SpecifierTable.{IsCovered};

    ghost Value = { finite.FinMap text_cmp V };

    ghost coded = { finite.code (coded_list coded_ℕ) V.code };

    // So that none is left out where they are lent in order.
    ghost invariant = { λ t. IsCovered t.order t.values };

    ghost view = { λ t. t.values };
}

/// Goes over values with their specifiers, in the order of their texts.
#[derive(Drop)]
pub struct TableIter<'a, V> {
    left: btree_set::Iter<'a, Url>,
    values: &'a SpecifierIndex<V>,
}

impl<'a, V> Model for TableIter<'a, V> {
    ghost use Rattle.std.specs.Prelude.{List};
    ghost use Rattle.url.specs.Parts.{Parts};
    ghost use Rattle.specifier_index.specs.SpecifierTable.{lent};

    ghost Value = { List (Parts × V) };

    ghost view = { λ i. lent i.values.now i.left };
}

impl<'a, V> Iterator for TableIter<'a, V> {
    type Item = (&'a Url, &'a V);

    ghost use Rattle.std.specs.Iterator.{at_most};
    ghost use Rattle.std.specs.Prelude.{length};
    ghost use Rattle.std.specs.Map.Iter.{TakesFirst, deref_pair};

    ghost next_gives = { TakesFirst deref_pair };

    ghost remaining = { λ s. at_most (length s) };

    fn next(&mut self) -> Option<(&'a Url, &'a V)> {
        while let Some(specifier) = self.left.next() {
            if let Some(value) = self.values.get(specifier) {
                return Some((specifier, value));
            }
        }
        None
    }
}

impl<V> SpecifierTable<V> {
    /// The empty table.
    pub fn new(alloc: Global) -> SpecifierTable<V>
        ensures { result ≡ finite.empty }
    {
        SpecifierTable {
            order: BTreeSet::new(alloc),
            values: SpecifierIndex::new(alloc),
        }
    }

    /// The number of specifiers.
    pub fn len(&self) -> usize
        ensures { result ≡ finite.len self.now }
    {
        self.values.len()
    }

    /// The value at a specifier.
    pub fn get(&self, specifier: &Url) -> Option<&V>
        ensures { option_copied result ≡ finite.get self.now (specifier_text specifier.now) }
    {
        self.values.get(specifier)
    }

    /// Whether a value stands at a specifier.
    pub fn contains_key(&self, specifier: &Url) -> bool
        ensures { result ≡ finite.contains_key self.now (specifier_text specifier.now) }
    {
        self.values.contains_key(specifier)
    }

    /// Puts a value at a specifier, and answers the one that stood there; the table is unchanged where there is no memory.
    pub fn insert(&mut self, specifier: Url, value: V) -> Result<Option<V>, AllocError>
    where
        V: Drop,
        ensures ok { OnOk result
            (self.new ≡ finite.insert self.old (specifier_text specifier) value) }
        ensures before { IfOk result
            (λ before. before ≡ finite.get self.old (specifier_text specifier)) }
        ensures err { OnErr result (self.new ≡ self.old) }
    {
        if self.values.contains_key(&specifier) {
            return self.values.insert(specifier, value);
        }
        let key = specifier.clone()?;
        let _ = self.order.insert(key)?;
        self.values.insert(specifier, value)
    }

    /// Removes the value at a specifier, and answers it.
    pub fn remove(&mut self, specifier: &Url) -> Option<V>
        ensures map { self.new ≡ finite.remove self.old (specifier_text specifier.now) }
        ensures before { result ≡ finite.get self.old (specifier_text specifier.now) }
    {
        let _ = self.order.remove(specifier);
        self.values.remove(specifier)
    }

    /// The values with their specifiers, in the order of these texts.
    pub fn iter(&self) -> TableIter<'_, V>
        ensures { by_text result ≡ finite.entries self.now }
    {
        TableIter {
            left: self.order.iter(),
            values: &self.values,
        }
    }

    /// The specifiers in the order of their texts, and the values: to change values in place, or to take some out.
    pub fn into_parts(self) -> (BTreeSet<Url>, SpecifierIndex<V>)
        ensures order { IsCovered result.0 result.1 }
        ensures values { result.1 ≡ self }
    {
        let SpecifierTable { order, values } = self;
        (order, values)
    }

    /// The table of these values, each of which has its specifier among those that are given in order. It takes no memory.
    pub fn from_parts(order: BTreeSet<Url>, values: SpecifierIndex<V>) -> SpecifierTable<V>
        requires { IsCovered order values }
        ensures { result ≡ values }
    {
        let valued = with_values(order, &values);
        SpecifierTable {
            order: valued,
            values,
        }
    }

    /// A copy, where copies of values equal their source. The only refusal is want of memory.
    pub fn try_clone(&self) -> Result<SpecifierTable<V>, AllocError>
    where
        V: Clone,
        requires { (x y : V) → V.is_clone x y → y ≡ x }
        ensures { IfOk result (λ t. t ≡ self.now) }
    {
        let order = self.order.clone()?;
        let values = self.values.try_clone()?;
        Ok(SpecifierTable { order, values })
    }
}

// Those specifiers that have a value.
fn with_values<V>(mut order: BTreeSet<Url>, values: &SpecifierIndex<V>) -> BTreeSet<Url>
    ensures { result.keys
        ≡ filter (λ s. finite.contains_key values.now (specifier_text s)) order.keys }
{
    order.retain(|specifier| values.contains_key(specifier));
    order
}
