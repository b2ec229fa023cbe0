ghost use Rattle.std.specs.Prelude.{◌≡◌, ◌<◌, ◌↔◌, [], ◌∷◌, ◌++◌, length, slice_get, Some, IsTrue, IfOk, OnOk, OnErr};

use crate::keep::Keep;
use crate::memory::NoMemory;
use std::alloc::Global;
use std::marker::Model;

/// A `Vec` that contracts see as the list of its items.
#[derive(Drop)]
pub struct Items<T> {
    items: Vec<T>,
}

impl<T> Model for Items<T> {
    ghost use Rattle.std.specs.Prelude.{List};
    ghost use Rattle.std.specs.Coded.{coded_list};

    ghost Value = { List T };

    ghost coded = { coded_list T.code };

    ghost view = { λ it. it.items.items };
}

impl<T> Items<T> {
    /// No items. It takes no memory.
    pub fn new(alloc: Global) -> Items<T>
        ensures { result ≡ [] }
    {
        Items {
            items: Vec::new(alloc),
        }
    }

    /// No items, with memory for so many.
    pub fn with_capacity(alloc: Global, count: usize) -> Result<Items<T>, NoMemory>
        ensures { IfOk result (λ made. made ≡ []) }
    {
        Ok(Items {
            items: Vec::with_capacity(alloc, count)?,
        })
    }

    /// The items of a `Vec`, which are moved and not copied.
    pub fn from_vec(items: Vec<T>) -> Items<T>
        ensures { result ≡ items.items }
    {
        Items { items }
    }

    /// The `Vec` again, which is moved and not copied.
    pub fn into_vec(self) -> Vec<T>
        ensures { result.items ≡ self }
    {
        let Items { items } = self;
        items
    }

    /// The items as a slice, for loops.
    pub fn items(&self) -> &[T]
        ensures { result.now ≡ self.now }
    {
        self.items.as_slice()
    }

    /// How many items there are.
    pub fn len(&self) -> usize
        ensures { result ≡ length self.now }
    {
        self.items.len()
    }

    /// Whether there is no item.
    pub fn is_empty(&self) -> bool
        ensures { IsTrue result ↔ (self.now ≡ []) }
    {
        self.items.is_empty()
    }

    /// The item at a place, counted from 0.
    pub fn at(&self, place: usize) -> &T
        requires { place < length self.now }
        ensures { slice_get self.now place ≡ Some result.now }
    {
        &self.items[place]
    }
}

impl<T: Drop> Items<T> {
    /// Adds an item behind the others.
    pub fn push(&mut self, item: T) -> Result<(), NoMemory>
        ensures ok { OnOk result (self.new ≡ self.old ++ item ∷ []) }
        ensures err { OnErr result (self.new ≡ self.old) }
    {
        Ok(self.items.push(item)?)
    }
}

impl<T: Copy> Items<T> {
    /// The items of a slice, copied at once.
    pub fn from_slice(alloc: Global, items: &[T]) -> Result<Items<T>, NoMemory>
        ensures { IfOk result (λ copy. copy ≡ items.now) }
    {
        Ok(Items {
            items: Vec::from_slice(alloc, items)?,
        })
    }

    /// The items of one slice and behind them those of another, copied at once.
    pub fn joined(alloc: Global, first: &[T], more: &[T]) -> Result<Items<T>, NoMemory>
        ensures { IfOk result (λ both. both ≡ first.now ++ more.now) }
    {
        let mut both = Items::with_capacity(alloc, first.len().saturating_add(more.len()))?;
        both.extend(first)?;
        both.extend(more)?;
        Ok(both)
    }

    /// Adds the items of a slice behind the others, all or none.
    pub fn extend(&mut self, items: &[T]) -> Result<(), NoMemory>
        ensures ok { OnOk result (self.new ≡ self.old ++ items.now) }
        ensures err { OnErr result (self.new ≡ self.old) }
    {
        Ok(self.items.extend_from_slice(items)?)
    }
}

impl<T: Keep> Items<T> {
    /// The same items, in memory of their own.
    pub fn copy(&self, alloc: Global) -> Result<Items<T>, NoMemory>
        ensures { IfOk result (λ copy. copy ≡ self.now) }
    {
        let mut copy = Items::new(alloc);
        for item in &self.items {
            copy.push(item.copy(alloc)?)?;
        }
        Ok(copy)
    }
}
