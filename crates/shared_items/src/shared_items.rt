// Lists that several owners share.
ghost use Rattle.std.specs.Prelude.{◌≡◌, IfOk, length};
ghost use Rattle.std.specs.Arc.{arc_slice_items};

use std::alloc::{AllocError, Global};
use std::fmt;
use std::marker::Model;
use std::sync::ArcSlice;

/// A list that doesn't change, which contracts see as the list of its elements. Its copies share the elements.
#[derive(Drop)]
pub struct SharedItems<T> {
    items: ArcSlice<T, Global>,
}

impl<T> Model for SharedItems<T> {
    ghost use Rattle.std.specs.Prelude.{List};
    ghost use Rattle.std.specs.Arc.{arc_slice_items};

    ghost Value = { List T };

    ghost view = { λ l. arc_slice_items l.items };
}

impl<T> SharedItems<T> {
    /// The list of these elements, which are moved. The only refusal is want of memory.
    pub fn new(items: Vec<T>) -> Result<SharedItems<T>, AllocError>
    where
        T: Drop,
        ensures { IfOk result (λ l. l ≡ items.items) }
    {
        let items = ArcSlice::from_vec(items)?;
        Ok(SharedItems { items })
    }

    /// The elements.
    pub fn as_slice(&self) -> &[T]
        ensures { result.now ≡ self.now }
    {
        self.items.as_slice()
    }

    /// The number of elements.
    pub fn len(&self) -> usize
        ensures { result ≡ length self.now }
    {
        self.items.len()
    }

    /// The same list, whose elements are shared and not copied. The only refusal is want of memory.
    pub fn try_clone(&self) -> Result<SharedItems<T>, AllocError>
    where
        T: Drop,
        ensures { IfOk result (λ copy. copy ≡ self.now) }
    {
        let items = self.items.clone()?;
        Ok(SharedItems { items })
    }
}

impl<T: Drop> Clone for SharedItems<T> {
    ghost is_clone = { λ l copy. copy ≡ l };

    fn clone(&self) -> Result<SharedItems<T>, AllocError> {
        self.try_clone()
    }
}

impl<T: fmt::Debug> fmt::Debug for SharedItems<T> {
    fn fmt<W: fmt::Write>(&self, f: &mut fmt::Formatter<W>) -> fmt::Result {
        fmt::Debug::fmt(&self.as_slice(), f)
    }
}
