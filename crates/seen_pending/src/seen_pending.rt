// Items that are seen once and handed out once.
ghost use Rattle.std.specs.Prelude.{◌≡◌, ◌+◌, [], drop, if◌then◌else◌, not, is_some, slice_get, fold, List, IfOk, OnOk, OnErr};
ghost use Rattle.std.specs.List.{IsDistinct, list_any};
ghost use Rattle.std.specs.Iterator.{Drains, IsFinite, Yields};
ghost use Rattle.indexmap.specs.IndexSet.{insert_key};
ghost use Rattle.seen_pending.specs.Once.{each_once};

use indexmap::IndexSet;
use std::alloc::{AllocError, Global};
use std::hash::Hash;
use std::marker::Model;

/// A list of distinct items, and the place of the next one to be handed out. Contracts see the two.
///
/// An item is added once, at the end, however often it comes, and the place only goes up: so each distinct
/// item is handed out once, in the order of first insertion.
#[derive(Debug)]
pub struct SeenPendingCollection<T: Hash + Eq> {
    seen: IndexSet<T>,
    next: usize,
}

impl<T: Hash + Eq> Model for SeenPendingCollection<T> {
    ghost use Rattle.std.specs.Prelude.{List, ℕ, ◌≤◌, length};

    ghost Value = { List T × ℕ };

    ghost view = { λ s. (s.seen.keys, s.next) };

    ghost invariant = { λ s. s.next ≤ length s.seen.keys };
}

impl<T: Hash + Eq + Drop> Drop for SeenPendingCollection<T> {
    fn drop(self) {
        let SeenPendingCollection { seen: _, next: _ } = self;
    }
}

impl<T: Hash + Eq> SeenPendingCollection<T> {
    /// The empty list, its next place 0, with room for so many items. The only refusal is want of memory.
    pub fn with_capacity(alloc: Global, capacity: usize) -> Result<Self, AllocError>
        ensures { IfOk result (λ s. s ≡ ([], 0)) }
    {
        let seen = IndexSet::with_capacity(alloc, capacity)?;
        Ok(SeenPendingCollection { seen, next: 0 })
    }

    /// Whether an equal item was added, be it handed out by now or not.
    pub fn has_seen(&self, item: &T) -> bool
        ensures { result ≡ list_any (T.eq item.now) self.now.0 }
    {
        self.seen.contains(item)
    }

    /// Adds an item at the end, unless an equal one was added before, and tells whether it was new. The only
    /// refusal is want of memory, after which nothing has changed.
    pub fn add(&mut self, item: T) -> Result<bool, AllocError>
    where
        T: Drop,
        ensures list { IfOk result (λ _. self.new ≡ (insert_key T.eq self.old.0 item, self.old.1)) }
        ensures new { IfOk result (λ added. added ≡ not (list_any (T.eq item) self.old.0)) }
        ensures err { OnErr result (self.new ≡ self.old) }
    {
        let added = self.seen.insert(item)?;
        Ok(added)
    }

    /// A copy of the item at the next place, which then goes up by one; None at the end of the list, which
    /// is then unchanged. Copies of items have to equal their source. The only refusal is want of memory,
    /// after which nothing has changed.
    pub fn next_pending(&mut self) -> Result<Option<T>, AllocError>
    where
        T: Clone,
        requires { (x y : T) → T.is_clone x y → y ≡ x }
        ensures item { IfOk result (λ o. o ≡ slice_get self.old.0 self.old.1) }
        ensures place { IfOk result
            (λ o. self.new ≡ (self.old.0, if is_some o then self.old.1 + 1 else self.old.1)) }
        ensures distinct { IsDistinct T.eq self.old.0 }
        ensures err { OnErr result (self.new ≡ self.old) }
    {
        if self.next >= self.seen.len() {
            return Ok(None);
        }
        let item = match self.seen.get_index(self.next) {
            None => return Ok(None),
            Some(item) => item.clone()?,
        };
        self.next += 1;
        Ok(Some(item))
    }

    /// Adds each item that the iterator gives, in turn. The only refusal is want of memory, after which the
    /// items up to some point were added.
    pub fn extend<I: Iterator<Item = T> + Drop>(&mut self, items: I) -> Result<(), AllocError>
    where
        T: Drop,
        requires can { I.can_next items }
        requires ends { IsFinite (I.remaining items) }
        ensures ok { OnOk result ((xs : List T) × Drains I.next_gives items xs
            × (self.new ≡ (fold (insert_key T.eq) self.old.0 xs, self.old.1))) }
        ensures err { OnErr result ((xs : List T) × (left : I) × Yields I.next_gives items xs left
            × (self.new ≡ (fold (insert_key T.eq) self.old.0 xs, self.old.1))) }
    {
        for item in items {
            self.add(item)?;
        }
        Ok(())
    }
}

/// The items of a list, each distinct one once, in the order of first insertion: what a
/// `SeenPendingCollection` hands out after they were added. Copies of items have to equal their source. The
/// only refusal is want of memory.
pub fn each_once<T: Hash + Eq + Clone + Drop>(
    alloc: Global,
    items: Vec<T>,
) -> Result<Vec<T>, AllocError>
    requires { (x y : T) → T.is_clone x y → y ≡ x }
    ensures { IfOk result (λ once. once.items ≡ each_once T.eq items.items) }
{
    let mut collection = SeenPendingCollection::with_capacity(alloc, items.len())?;
    collection.extend(items.into_iter())?;
    let once = handed_out(alloc, collection)?;
    Ok(once)
}

// The items from the next place on.
#[tactic(auto, using(crate::proofs::OnceLemmas::one_more, crate::proofs::OnceLemmas::all_out, crate::proofs::OnceLemmas::one_less))]
fn handed_out<T: Hash + Eq + Clone + Drop>(
    alloc: Global,
    mut collection: SeenPendingCollection<T>,
) -> Result<Vec<T>, AllocError>
    requires { (x y : T) → T.is_clone x y → y ≡ x }
    ensures { IfOk result (λ all. all.items ≡ drop collection.1 collection.0) }
{
    let mut items = Vec::new(alloc);
    while let Some(item) = collection.next_pending()? {
        items.push(item)?;
    }
    Ok(items)
}
