ghost use Rattle.std.specs.Prelude.{◌≡◌, ◌∷◌, ◌++◌, ◌+◌, ◌<◌, ◌≤◌, ◌^◌, ◌↔◌, ℕ, [], length, slice_get, slice_set, IsOk, IsTrue, OnErr, OnOk};
ghost use Rattle.std.specs.Option.{option_copied};

use std::alloc::{AllocError, Global};
use std::marker::Model;
use std::mem::replace;

/// A list, and the number of items that may be added without taking memory.
#[derive(Drop)]
pub struct ListWithRoom<T> {
    items: Vec<T>,
}

/// A list of pairs of numbers, and room for more.
pub type Pairs = ListWithRoom<(u64, u64)>;

/// Bytes that grow at their end, and room for more.
pub type Buffer = ListWithRoom<u8>;

impl<T> Model for ListWithRoom<T> {
    ghost use Rattle.std.specs.Prelude.{◌-◌, vec_len, vec_capacity};
    ghost use Rattle.fk_json.specs.Roomy.{Room};

    ghost Value = { Room T };

    ghost view = { λ list. record {
      items = list.items.items;
      spare = vec_capacity list.items - vec_len list.items;
    } };
}

impl<T: Drop> ListWithRoom<T> {
    /// The empty list. It takes no memory.
    pub fn new(alloc: Global) -> ListWithRoom<T>
        ensures { result.items ≡ [] }
    {
        ListWithRoom {
            items: Vec::new(alloc),
        }
    }

    /// Makes room for more items. The items stay, and so does the room that was there. There is never
    /// room for 2^63 items.
    pub fn reserve(&mut self, more: usize) -> Result<(), AllocError>
        ensures ok { OnOk result (more ≤ self.new.spare) }
        ensures kept { self.old.spare ≤ self.new.spare }
        ensures same { self.new.items ≡ self.old.items }
        ensures ready { more ≤ self.old.spare → IsOk result }
        ensures bound { self.new.spare < 2 ^ 63 }
    {
        self.items.reserve(more)
    }

    /// Adds an item at the end, or leaves the list as it is. It can't fail where there is room.
    pub fn push(&mut self, item: T) -> Result<(), AllocError>
        ensures ok { OnOk result (self.new.items ≡ self.old.items ++ item ∷ []) }
        ensures err { OnErr result (self.new.items ≡ self.old.items) }
        ensures kept { self.old.spare ≤ self.new.spare + 1 }
        ensures stays { OnErr result (self.old.spare ≤ self.new.spare) }
        ensures ready { 0 < self.old.spare → IsOk result }
    {
        self.items.reserve(1)?;
        self.items.push_reserved(item);
        Ok(())
    }

    /// Adds all of the others at the end, in order, or none of them. It can't fail where there is room
    /// for them, and what is free beyond them stays free.
    pub fn append(&mut self, others: ListWithRoom<T>) -> Result<(), AllocError>
        ensures ok { OnOk result (self.new.items ≡ self.old.items ++ others.items) }
        ensures err { OnErr result (self.new.items ≡ self.old.items) }
        ensures kept { self.old.spare ≤ self.new.spare + length others.items }
        ensures stays { OnErr result (self.old.spare ≤ self.new.spare) }
        ensures ready { length others.items ≤ self.old.spare → IsOk result }
    {
        let mut added = others.items;
        self.items.append(&mut added)
    }

    /// Puts an item at a place, counted from 0, and gives the one that was there. Past the end the
    /// list stays as it is, and the answer is `None`.
    pub fn replace(&mut self, at: usize, item: T) -> Option<T>
        ensures value { result ≡ slice_get self.old.items at }
        ensures items { self.new.items ≡ slice_set self.old.items at item }
        ensures kept { self.new.spare ≡ self.old.spare }
    {
        match self.items.get_mut(at) {
            None => None,
            Some(held) => Some(replace(held, item)),
        }
    }

    /// The item at a place, counted from 0, or `None` past the end.
    pub fn get(&self, at: usize) -> Option<&T>
        ensures { option_copied result ≡ slice_get self.now.items at }
    {
        self.items.get(at)
    }

    /// All items, in order.
    pub fn as_slice(&self) -> &[T]
        ensures { result.now ≡ self.now.items }
    {
        &self.items
    }

    /// The number of items.
    pub fn len(&self) -> usize
        ensures { result ≡ length self.now.items }
    {
        self.items.len()
    }

    pub fn is_empty(&self) -> bool
        ensures { IsTrue result ↔ (self.now.items ≡ []) }
    {
        self.items.is_empty()
    }

    /// Takes all items out. The room that they took is room again.
    pub fn clear(&mut self)
        ensures items { self.new.items ≡ [] }
        ensures kept { length self.old.items + self.old.spare ≤ self.new.spare }
    {
        self.items.clear();
    }

    /// Takes all items out, and gives back the memory of more than so many.
    pub fn clear_keeping(&mut self, most: usize)
        ensures { self.new.items ≡ [] }
    {
        self.items.clear();
        self.items.shrink_to(most);
    }

    /// The items themselves, in order, for whoever takes them one by one.
    pub fn into_vec(self) -> Vec<T>
        ensures { result.items ≡ self.items }
    {
        self.items
    }
}

impl ListWithRoom<(u64, u64)> {
    /// Adds all of these pairs at the end, in order, or none of them. It can't fail where there is
    /// room for them, and what is free beyond them stays free.
    pub fn extend(&mut self, others: &[(u64, u64)]) -> Result<(), AllocError>
        ensures ok { OnOk result (self.new.items ≡ self.old.items ++ others.now) }
        ensures err { OnErr result (self.new.items ≡ self.old.items) }
        ensures kept { self.old.spare ≤ self.new.spare + length others.now }
        ensures stays { OnErr result (self.old.spare ≤ self.new.spare) }
        ensures ready { length others.now ≤ self.old.spare → IsOk result }
    {
        self.items.extend_from_slice(others)
    }
}

impl ListWithRoom<u8> {
    /// Adds bytes at the end, or leaves the buffer as it is. It can't fail where there is room for them,
    /// and what is free beyond them stays free.
    pub fn push_bytes(&mut self, bytes: &[u8]) -> Result<(), AllocError>
        ensures ok { OnOk result (self.new.items ≡ self.old.items ++ bytes.now) }
        ensures err { OnErr result (self.new.items ≡ self.old.items) }
        ensures kept { self.old.spare ≤ self.new.spare + length bytes.now }
        ensures stays { OnErr result (self.old.spare ≤ self.new.spare) }
        ensures ready { length bytes.now ≤ self.old.spare → IsOk result }
    {
        self.items.extend_from_slice(bytes)
    }

    /// The bytes, in order.
    pub fn bytes(&self) -> &[u8]
        ensures { result.now ≡ self.now.items }
    {
        self.items.as_slice()
    }
}
