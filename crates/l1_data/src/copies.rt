//! The copies that one CPU has.
ghost use Rattle.std.specs.Prelude.{◌≡◌, ℕ, ◌+◌, ◌<◌, ◌≤◌, IsSome, IsNone, None, Some, IfOk, IfSome, IfNone, is_some, length};
ghost use Rattle.std.specs.Prelude.{true, slice_set};
ghost use Rattle.std.specs.Option.{option_map};
ghost use Rattle.slot_index.specs.Slots.{slot_in, is_key};
ghost use Rattle.l1_data.specs.Copies.{copies_of, no_copies, with_copy, copy_count, byte_in, laid, IsSound};

use slot_index::SlotIndex;
use std::alloc::Global;
use std::marker::Model;
use z_regs::NoMemory;

/// The lines of storage.
pub const LINES: usize = 4096;

/// The bytes of a line.
pub const LINE_SIZE: usize = 256;

/// How many lines may have a copy.
pub const MOST_COPIES: usize = 384;

/// Copies of lines, at most `MOST_COPIES`. Lines are numbered as in storage, their address divided by 256.
#[derive(Drop)]
pub struct L1 {
    index: SlotIndex,
    copies: Vec<[u8; LINE_SIZE]>,
}

impl Model for L1 {
    ghost use Rattle.l1_data.specs.Copies.{Kept, IsKept};

    ghost Value = { Kept };

    ghost view = { λ d. record { lines = d.index.keys; copies = d.copies.items } };

    ghost invariant = { λ d. IsKept d.index d.copies.items };
}

impl L1 {
    /// No copy, with room for all that later calls need.
    pub fn open(alloc: Global) -> Result<L1, NoMemory>
        ensures { IfOk result (λ l1. copies_of l1 ≡ no_copies) }
    {
        let index = SlotIndex::open(alloc, LINES, MOST_COPIES)?;
        let copies = vec![in alloc; [0; LINE_SIZE]; MOST_COPIES]?;
        Ok(L1 { index, copies })
    }

    /// Forgets all copies.
    pub fn clear(&mut self)
        ensures { copies_of self.new ≡ no_copies }
    {
        self.index.clear();
    }

    /// Whether the line has a copy.
    pub fn has(&self, line: u32) -> bool
        ensures { result ≡ is_some (copies_of self.now line) }
    {
        self.index.slot_of(line as usize).is_some()
    }

    /// How many lines have a copy.
    pub fn count(&self) -> u32
        ensures value { result ≡ copy_count (copies_of self.now) }
        ensures sound { IsSound (copies_of self.now) }
    {
        self.index.count() as u32
    }

    /// Makes a copy of the line, which has none, with these 256 bytes.
    pub fn install(&mut self, line: u32, bytes: &[u8])
        requires line { line < LINES }
        requires absent { IsNone (copies_of self.old line) }
        requires room { copy_count (copies_of self.old) < MOST_COPIES }
        requires size { length bytes.now ≡ LINE_SIZE }
        ensures { copies_of self.new ≡ with_copy (copies_of self.old) line (Some bytes.now) }
    {
        let slot = self.index.count();
        let copy = &mut self.copies[slot];
        copy.copy_from_slice(bytes);
        self.index.add(line as usize);
    }

    /// Forgets the copy of the line, which has one.
    pub fn drop_line(&mut self, line: u32)
        requires { IsSome (copies_of self.old line) }
        ensures { copies_of self.new ≡ with_copy (copies_of self.old) line None }
    {
        let slot = slot_of(&self.index, line);
        let last = self.index.count() - 1;
        self.copies[slot] = self.copies[last];
        self.index.remove(slot);
    }

    /// A byte of the copy of the line, which has one, at a place below 256.
    pub fn get(&self, line: u32, at: u32) -> u8
        requires there { IsSome (copies_of self.now line) }
        requires within { at < LINE_SIZE }
        ensures { Some result ≡ byte_in (copies_of self.now) line at }
    {
        self.copies[slot_of(&self.index, line)][at as usize]
    }

    /// Changes a byte of the copy of the line, which has one, at a place below 256.
    pub fn put(&mut self, line: u32, at: u32, byte: u8)
        requires there { IsSome (copies_of self.old line) }
        requires within { at < LINE_SIZE }
        ensures { copies_of self.new
            ≡ with_copy (copies_of self.old) line
            (option_map (λ copy. slice_set copy at byte) (copies_of self.old line)) }
    {
        let slot = slot_of(&self.index, line);
        self.copies[slot][at as usize] = byte;
    }

    /// The bytes of the copy of the line; None exactly where it has none.
    #[inline(always)]
    pub fn find(&self, line: u32) -> Option<&[u8]>
        ensures copy { IfSome result (λ copy. copies_of self.now line ≡ Some copy.now) }
        ensures size { IfSome result (λ copy. length copy.now ≡ LINE_SIZE) }
        ensures none { IfNone result (copies_of self.now line ≡ None) }
    {
        let slot = self.index.slot_of(line as usize)?;
        Some(&self.copies[slot])
    }

    /// The bytes of the copy of the line, which has one.
    #[inline(always)]
    pub fn copy_of(&self, line: u32) -> &[u8]
        requires { IsSome (copies_of self.now line) }
        ensures copy { copies_of self.now line ≡ Some result.now }
        ensures size { length result.now ≡ LINE_SIZE }
    {
        &self.copies[slot_of(&self.index, line)]
    }

    /// Changes the bytes from a place on of the copy of the line, which has one, within its 256 bytes.
    #[inline(always)]
    pub fn lay(&mut self, line: u32, at: u32, bytes: &[u8])
        requires there { IsSome (copies_of self.old line) }
        requires within { at + length bytes.now ≤ LINE_SIZE }
        ensures { copies_of self.new
            ≡ with_copy (copies_of self.old) line
            (option_map (λ copy. laid copy at bytes.now) (copies_of self.old line)) }
    {
        let slot = slot_of(&self.index, line);
        let first = at as usize;
        self.copies[slot][first..first + bytes.len()].copy_from_slice(bytes);
    }
}

/// The slot of the copy of a line that has one.
#[inline(always)]
fn slot_of(index: &SlotIndex, line: u32) -> usize
    requires { is_key index.now.keys line ≡ true }
    ensures value { slot_in index.now.keys line ≡ Some result }
    ensures within { result < index.now.most }
{
    index.slot_of(line as usize).unwrap()
}
