//! A list of items that contracts see as a list.
ghost use Rattle.std.specs.Prelude.{◌≡◌, ◌<◌, length, slice_set, IfOk, vec_len};

use crate::NoMemory;
use std::marker::Model;

/// A list over a vector. It is made from a vector and gives it back without taking memory.
#[derive(Drop)]
pub struct ItemList<T> {
    items: Vec<T>,
}

impl<T> Model for ItemList<T> {
    ghost use Rattle.std.specs.Prelude.{List};
    ghost use Rattle.std.specs.Coded.{coded_list};

    ghost Value = { List T };

    ghost view = { λ list. list.items.items };
}

impl<T> ItemList<T> {
    /// The list of a vector's elements.
    pub fn of(items: Vec<T>) -> ItemList<T>
        ensures { result ≡ items.items }
    {
        ItemList { items }
    }

    /// The items, in order.
    #[inline]
    pub fn items(&self) -> &[T]
        ensures { result.now ≡ self.now }
    {
        self.items.as_slice()
    }

    /// Replaces the item at a place.
    pub fn set(&mut self, place: usize, item: T)
    where
        T: Drop,
        requires { place < length self.old }
        ensures { self.new ≡ slice_set self.old place item }
    {
        self.items[place] = item;
    }

    /// The vector of the items.
    pub fn into_items(self) -> Vec<T>
        ensures { result.items ≡ self }
    {
        self.items
    }
}

impl<T: Copy> ItemList<T> {
    /// An equal list.
    pub fn try_copy(&self) -> Result<ItemList<T>, NoMemory>
        ensures { IfOk result (λ copy. copy ≡ self.now) }
    {
        let mut items = Vec::with_capacity(*self.items.allocator(), self.items.len())?;
        items.extend_from_slice(self.items.as_slice())?;
        Ok(ItemList { items })
    }
}
