//! An index of keys in slots.
ghost use Rattle.std.specs.Prelude.{◌≡◌, ℕ, ◌+◌, ◌<◌, ◌≤◌, ◌^◌, List, [], ◌∷◌, ◌++◌, length, slice_index};
ghost use Rattle.std.specs.Prelude.{Some, None, IfOk, IfSome};
ghost use Rattle.std.specs.List.{swap_remove};
ghost use Rattle.bit_set.specs.Counts.{count_below};
ghost use Rattle.slot_index.specs.Slots.{slot_in, slot_without, is_key};

use std::alloc::{AllocError, Global};
use std::marker::Model;

/// Keys that have slots. Every key is below a limit and has one slot; the slots in use are those below the
/// number of keys.
#[derive(Drop)]
pub struct SlotIndex {
    slots: Vec<u16>,
    keys: Vec<u32>,
    most: usize,
}

impl Model for SlotIndex {
    ghost use Rattle.std.specs.Prelude.{vec_capacity, length};
    ghost use Rattle.slot_index.specs.Slots.{Slots, IsIndexed};

    ghost Value = { Slots };

    ghost view = { λ s. record { limit = length s.slots.items; most = s.most; keys = s.keys.items } };

    ghost invariant = { λ s. IsIndexed s.slots.items s.keys.items s.most (vec_capacity s.keys) };
}

impl SlotIndex {
    /// An index for keys below `limit` and for `most` slots, in which no key has a slot.
    pub fn open(alloc: Global, limit: usize, most: usize) -> Result<SlotIndex, AllocError>
        requires limit { limit ≤ 2 ^ 32 }
        requires most { most ≤ 2 ^ 16 }
        ensures { IfOk result (λ index. index ≡ record { limit = limit; most = most; keys = [] }) }
    {
        let slots = vec![in alloc; 0; limit]?;
        let keys = Vec::with_capacity(alloc, most)?;
        Ok(SlotIndex { slots, keys, most })
    }

    /// How many keys have a slot.
    pub fn count(&self) -> usize
        ensures value { result ≡ length self.now.keys }
        ensures keys { result ≡ count_below self.now.limit (is_key self.now.keys) }
        ensures within { result ≤ self.now.most }
        ensures below { (key : ℕ) → self.now.limit ≤ key → slot_in self.now.keys key ≡ None }
    {
        self.keys.len()
    }

    /// The slot of a key; None exactly where it has none.
    pub fn slot_of(&self, key: usize) -> Option<usize>
        ensures value { result ≡ slot_in self.now.keys key }
        ensures within { IfSome result (λ slot. slot < self.now.most) }
    {
        if key >= self.slots.len() {
            return None;
        }
        let slot = usize::from(self.slots[key]);
        if slot < self.keys.len() && self.keys[slot] as usize == key {
            return Some(slot);
        }
        None
    }

    /// The key that has a slot.
    pub fn key_at(&self, slot: usize) -> usize
        requires { slot < length self.now.keys }
        ensures value { result ≡ slice_index self.now.keys slot }
        ensures slot { slot_in self.now.keys result ≡ Some slot }
        ensures below { result < self.now.limit }
    {
        self.keys[slot] as usize
    }

    /// Gives a key that has none the next slot.
    pub fn add(&mut self, key: usize)
        requires below { key < self.old.limit }
        requires absent { slot_in self.old.keys key ≡ None }
        requires room { length self.old.keys < self.old.most }
        ensures { self.new ≡ record self.old { keys = self.old.keys ++ key ∷ [] } }
    {
        self.slots[key] = self.keys.len() as u16;
        let _ = self.keys.push(key as u32);
    }

    /// Takes away the key that has a slot, and gives that slot to the key of the last one.
    pub fn remove(&mut self, slot: usize)
        requires { slot < length self.old.keys }
        ensures value { self.new ≡ record self.old { keys = swap_remove self.old.keys slot 0 } }
        ensures slots { (key : ℕ) → slot_in self.new.keys key ≡ slot_without self.old.keys slot key }
    {
        let _ = self.keys.swap_remove(slot);
        if slot < self.keys.len() {
            let moved = self.keys[slot] as usize;
            self.slots[moved] = slot as u16;
        }
    }

    /// Takes away all keys.
    pub fn clear(&mut self)
        ensures { self.new ≡ record self.old { keys = [] } }
    {
        self.keys.clear();
    }

    /// Makes this index equal to one of the same limit and as many slots.
    pub fn copy_from(&mut self, other: &SlotIndex)
        requires limit { self.old.limit ≡ other.now.limit }
        requires most { self.old.most ≡ other.now.most }
        ensures { self.new ≡ other.now }
    {
        self.clear();
        for slot in 0..other.count() {
            self.add(other.key_at(slot));
        }
    }
}
