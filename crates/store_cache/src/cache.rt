//! The store cache.
ghost use Rattle.std.specs.Prelude.{◌≡◌, ℕ, ◌+◌, ◌*◌, ◌/◌, ◌%◌, ◌<◌, ◌≤◌, true, is_some, None, Some, IfOk, IfSome, IfNone, length};
ghost use Rattle.std.specs.Prelude.{false, if◌then◌else◌, ◌++◌, ◌∷◌, [], slice_index};
ghost use Rattle.bit_set.specs.Counts.{count_below};
ghost use Rattle.slot_index.specs.Slots.{slot_in, is_key};
ghost use Rattle.store_cache.specs.Overlay.{with_bytes, bytes_through, has_block, block_count};
ghost use Rattle.store_cache.specs.Stores.{no_stores, with_store, with_ntstg, lasting_bytes, has_room};
ghost use Rattle.store_cache.specs.Stores.{IsSound};
ghost use Rattle.store_cache.specs.Entries.{stores_of};

use crate::copying::{copy_front, copy_into};
use crate::laying::{lay_bytes, lay_values};
use bit_set::BitSet;
use byteorder::{BigEndian, ByteOrder};
use slot_index::SlotIndex;
use std::alloc::Global;
use std::marker::Model;
use z_regs::{Bytes, NoMemory, STORAGE_SIZE};

/// The bytes of a block.
pub const BLOCK_SIZE: usize = 128;

/// The doublewords of a block.
pub const DOUBLEWORDS: usize = 16;

/// The blocks of storage.
pub const BLOCKS: usize = 8192;

/// How many blocks may be stored.
pub const MOST_BLOCKS: usize = 64;

/// The stores of an attempt into at most `MOST_BLOCKS` blocks. Blocks are numbered as in storage, their
/// address divided by 128.
#[derive(Drop)]
pub struct StoreCache {
    index: SlotIndex,
    bytes: Vec<u8>,
    marks: BitSet,
    values: Vec<u64>,
    value_marks: BitSet,
}

impl Model for StoreCache {
    ghost use Rattle.store_cache.specs.Entries.{Entries, IsKept};

    ghost Value = { Entries };

    ghost view = { λ s. record {
      blocks = s.index.keys;
      bytes = s.bytes.items;
      marks = s.marks;
      values = s.values.items;
      value_marks = s.value_marks;
    } };

    ghost invariant = { λ s. IsKept s.index s.bytes.items s.marks s.values.items s.value_marks };
}

impl StoreCache {
    /// No stores, with room for all that later calls need.
    pub fn open(alloc: Global) -> Result<StoreCache, NoMemory>
        ensures { IfOk result (λ cache. stores_of cache ≡ no_stores) }
    {
        let index = SlotIndex::open(alloc, BLOCKS, MOST_BLOCKS)?;
        let bytes = vec![in alloc; 0; MOST_BLOCKS * BLOCK_SIZE]?;
        let marks = BitSet::open(alloc, MOST_BLOCKS * BLOCK_SIZE / 64)?;
        let values = vec![in alloc; 0; MOST_BLOCKS * DOUBLEWORDS]?;
        let value_marks = BitSet::open(alloc, MOST_BLOCKS * DOUBLEWORDS / 64)?;
        Ok(StoreCache {
            index,
            bytes,
            marks,
            values,
            value_marks,
        })
    }

    /// How many blocks are stored.
    pub fn blocks(&self) -> u32
        ensures value { result ≡ block_count (stores_of self.now).overlay }
        ensures sound { IsSound (stores_of self.now) }
    {
        self.index.count() as u32
    }

    /// Whether a byte of the block may be stored: the block is stored already, or fewer than `MOST_BLOCKS`
    /// are.
    pub fn has_room(&self, block: u32) -> bool
        ensures { result ≡ has_room (stores_of self.now).overlay block }
    {
        self.index.slot_of(block as usize).is_some() || self.index.count() < MOST_BLOCKS
    }

    /// Whether a byte of the block was stored. Where none was, the attempt sees what storage has there.
    pub fn has_block(&self, block: u32) -> bool
        ensures value { result ≡ has_block (stores_of self.now).overlay block }
        ensures bare { result ≡ false → (address : ℕ) → address / BLOCK_SIZE ≡ block
            → (stores_of self.now).overlay address ≡ None }
    {
        self.index.slot_of(block as usize).is_some()
    }

    /// The last byte stored at the address; None exactly where none was stored.
    pub fn byte(&self, address: u64) -> Option<u8>
        ensures { result ≡ (stores_of self.now).overlay address }
    {
        let address = address as usize;
        let slot = self.index.slot_of(address / BLOCK_SIZE)?;
        let cell = slot * BLOCK_SIZE + address % BLOCK_SIZE;
        if !self.marks.has(cell) {
            return None;
        }
        Some(self.bytes[cell])
    }

    /// The bytes stored last from the address on, `count` of them, one at least. None where one of them was not stored; of bytes in
    /// one block it comes nowhere else.
    pub fn run(&self, address: u64, count: usize) -> Option<&[u8]>
        requires { 0 < count }
        ensures size { IfSome result (λ bytes. length bytes.now ≡ count) }
        ensures bytes { IfSome result (λ bytes. (k : ℕ) → k < count
            → (stores_of self.now).overlay (address + k) ≡ Some (slice_index bytes.now k)) }
        ensures none { IfNone result (address % BLOCK_SIZE + count ≤ BLOCK_SIZE
            → ((k : ℕ) → k < count → is_some ((stores_of self.now).overlay (address + k)) ≡ true) → ⊥) }
    {
        let address = address as usize;
        let block = address / BLOCK_SIZE;
        if count > BLOCK_SIZE - address % BLOCK_SIZE {
            return None;
        }
        let slot = self.index.slot_of(block)?;
        let cell = slot * BLOCK_SIZE + address % BLOCK_SIZE;
        if !self.marks.has_run(cell, cell + count) {
            return None;
        }
        Some(&self.bytes[cell..cell + count])
    }

    /// Stores a byte. Its block must have room.
    pub fn store(&mut self, address: u64, byte: u8)
        requires within { address < STORAGE_SIZE }
        requires room { has_room (stores_of self.old).overlay (address / BLOCK_SIZE) ≡ true }
        ensures { stores_of self.new ≡ with_store (stores_of self.old) address byte }
    {
        let address = address as usize;
        let slot = slot_for(&mut self.index, address / BLOCK_SIZE);
        let cell = slot * BLOCK_SIZE + address % BLOCK_SIZE;
        self.bytes[cell] = byte;
        self.marks.insert(cell);
    }

    /// Stores bytes that lie in one block, one at least. Their block must have room.
    pub fn store_bytes(&mut self, address: u64, bytes: &[u8])
        requires within { address < STORAGE_SIZE }
        requires some { 0 < length bytes.now }
        requires block { address % BLOCK_SIZE + length bytes.now ≤ BLOCK_SIZE }
        requires room { has_room (stores_of self.old).overlay (address / BLOCK_SIZE) ≡ true }
        ensures { stores_of self.new
            ≡ record (stores_of self.old) {
              overlay = with_bytes (stores_of self.old).overlay address bytes.now;
            } }
    {
        let address = address as usize;
        let slot = slot_for(&mut self.index, address / BLOCK_SIZE);
        let cell = slot * BLOCK_SIZE + address % BLOCK_SIZE;
        copy_into(&mut self.bytes, cell, bytes);
        self.marks.insert_run(cell, cell + bytes.len());
    }

    /// Stores a doubleword as NONTRANSACTIONAL STORE does. The address must be that of a doubleword, whose
    /// block has room.
    pub fn ntstg(&mut self, address: u64, value: u64)
        requires within { address < STORAGE_SIZE }
        requires boundary { address % 8 ≡ 0 }
        requires room { has_room (stores_of self.old).overlay (address / BLOCK_SIZE) ≡ true }
        ensures { stores_of self.new ≡ with_ntstg (stores_of self.old) address value }
    {
        let mut doubleword = [0u8; 8];
        BigEndian::write_u64(&mut doubleword, value);
        let address = address as usize;
        let slot = slot_for(&mut self.index, address / BLOCK_SIZE);
        let cell = slot * BLOCK_SIZE + address % BLOCK_SIZE;
        copy_into(&mut self.bytes, cell, &doubleword);
        self.marks.insert_in_word(cell, cell + 8);
        self.values[cell / 8] = value;
        self.value_marks.insert(cell / 8);
    }

    /// Lays all stores over storage, and forgets them.
    pub fn commit<V: Bytes>(&mut self, into: &mut V)
        requires { length (V.bytes into.old) ≡ STORAGE_SIZE }
        ensures bytes { V.bytes into.new ≡ bytes_through (stores_of self.old).overlay (V.bytes into.old) }
        ensures empty { stores_of self.new ≡ no_stores }
    {
        lay_bytes(&self.index, &self.bytes, &self.marks, into);
        self.empty();
    }

    /// Lays the last value of each doubleword that NONTRANSACTIONAL STORE stored over storage, and forgets
    /// all stores.
    pub fn abort<V: Bytes>(&mut self, into: &mut V)
        requires { length (V.bytes into.old) ≡ STORAGE_SIZE }
        ensures bytes { V.bytes into.new
            ≡ bytes_through (lasting_bytes (stores_of self.old).lasting) (V.bytes into.old) }
        ensures empty { stores_of self.new ≡ no_stores }
    {
        lay_values(&self.index, &self.values, &self.value_marks, into);
        self.empty();
    }

    /// Makes this cache equal to the other. Of bytes and values those of stored blocks alone are copied.
    pub fn copy_from(&mut self, other: &StoreCache)
        ensures { stores_of self.new ≡ stores_of other.now }
    {
        let blocks = other.index.count();
        self.index.copy_from(&other.index);
        copy_front(&mut self.bytes, &other.bytes, blocks * BLOCK_SIZE);
        self.marks.copy_from(&other.marks);
        copy_front(&mut self.values, &other.values, blocks * DOUBLEWORDS);
        self.value_marks.copy_from(&other.value_marks);
    }

    /// Forgets all stores.
    fn empty(&mut self)
        ensures { stores_of self.new ≡ no_stores }
    {
        self.marks.clear();
        self.value_marks.clear();
        self.index.clear();
    }
}

/// The entry of a block, a new one where it has none.
fn slot_for(index: &mut SlotIndex, block: usize) -> usize
    requires block { block < index.old.limit }
    requires room { is_key index.old.keys block ≡ false
        → count_below index.old.limit (is_key index.old.keys) < index.old.most }
    ensures slot { slot_in index.new.keys block ≡ Some result }
    ensures within { result < index.old.most }
    ensures index { index.new ≡ (if is_key index.old.keys block then index.old
        else record index.old { keys = index.old.keys ++ block ∷ [] }) }
{
    if let Some(slot) = index.slot_of(block) {
        return slot;
    }
    let slot = index.count();
    index.add(block);
    slot
}
