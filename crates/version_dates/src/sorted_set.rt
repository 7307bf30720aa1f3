// Sets in the order of their elements.
ghost use Rattle.std.specs.Prelude.{◌≡◌, [], IfOk, OnOk, OnErr, length};
ghost use Rattle.std.specs.BTreeSet.{insert_key};
ghost use Rattle.version_dates.specs.Sets.{has};

use std::alloc::{AllocError, Global};
use std::collections::BTreeSet;
use std::marker::Model;

/// A set in the order of its elements, which contracts see as the list of them.
#[derive(Debug, Drop)]
pub struct SortedSet<T: Ord> {
    set: BTreeSet<T>,
}

impl<T: Ord> Model for SortedSet<T> {
    ghost use Rattle.std.specs.Prelude.{List};

    ghost Value = { List T };

    ghost view = { λ s. s.set.keys };
}

impl<T: Ord> SortedSet<T> {
    /// The empty set.
    pub fn new(alloc: Global) -> SortedSet<T>
        ensures { result ≡ [] }
    {
        SortedSet {
            set: BTreeSet::new(alloc),
        }
    }

    /// The number of elements.
    pub fn len(&self) -> usize
        ensures { result ≡ length self.now }
    {
        self.set.len()
    }

    /// Whether the set has an element.
    pub fn contains(&self, element: &T) -> bool
        ensures { result ≡ has T.cmp self.now element.now }
    {
        self.set.contains(element)
    }

    /// Adds an element, unless an equal one is there. The only refusal is want of memory, after which the
    /// set is unchanged.
    pub fn insert(&mut self, element: T) -> Result<(), AllocError>
    where
        T: Drop,
        ensures ok { OnOk result (self.new ≡ insert_key T.cmp self.old element) }
        ensures err { OnErr result (self.new ≡ self.old) }
    {
        self.set.insert(element)?;
        Ok(())
    }

    /// The set, to go over in order.
    pub fn as_set(&self) -> &BTreeSet<T>
        ensures { result.now.keys ≡ self.now }
    {
        &self.set
    }

    /// A copy, where copies of the elements equal their source. The only refusal is want of memory.
    #[tactic(auto, using(crate::proofs::KeyLemmas::same_keys))]
    pub fn try_clone(&self) -> Result<SortedSet<T>, AllocError>
    where
        T: Clone,
        requires { (x y : T) → T.is_clone x y → y ≡ x }
        ensures { IfOk result (λ s. s ≡ self.now) }
    {
        let set = self.set.clone()?;
        Ok(SortedSet { set })
    }
}

impl<T: Ord> From<BTreeSet<T>> for SortedSet<T> {
    ghost from_gives = { λ set s. s ≡ set.keys };

    fn from(set: BTreeSet<T>) -> SortedSet<T> {
        SortedSet { set }
    }
}
