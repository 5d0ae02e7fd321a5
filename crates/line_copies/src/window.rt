//! Lines as one CPU sees them.
ghost use Rattle.std.specs.Prelude.{◌≡◌, ◌<◌, ◌≤◌, ◌+◌, ◌*◌, ◌^◌, [], ◌∷◌, length, slice_index};
ghost use Rattle.byteorder.specs.Endian.{big_number, big_bytes};
ghost use Rattle.z_regs.specs.Prefix.{storage_size};
ghost use Rattle.z_regs.specs.Written.{range_at, written};
ghost use Rattle.line_table.specs.Holders.{Holdings};
ghost use Rattle.line_copies.specs.Seen.{holdings_of};
ghost use base.Fml.{GName};

use crate::CoherentLines;
use std::marker::{Brand, PhantomData};
use z_regs::Bytes;

/// Who holds which line while a window is open, and which lines it shows. It is no part of the code.
pub trait Held {
    ghost held: { Holdings };

    ghost name: { GName };
}

impl Held for Brand {
    ghost held = { record { cpus = 0; modes = [] } };

    ghost name = { 0 };
}

/// Lines, and the CPU that reaches for them.
#[derive(Drop)]
struct Reach<'a> {
    lines: &'a mut CoherentLines,
    who: u32,
}

impl Reach<'_> {
    /// The byte at an address.
    #[inline(always)]
    fn get(&self, address: u64) -> u8
        requires who { self.now.who < self.now.lines.now.cpus }
        requires inside { address < storage_size }
        ensures { result ≡ slice_index self.now.lines.now.bytes address }
    {
        self.lines.fetch(Some(self.who), address as u32)
    }

    /// The number in the `count` bytes from an address on.
    #[inline(always)]
    fn word(&self, address: u64, count: u8) -> u64
        requires who { self.now.who < self.now.lines.now.cpus }
        requires low { 1 ≤ count }
        requires high { count ≤ 8 }
        requires inside { address + count ≤ storage_size }
        ensures value { result ≡ big_number count (range_at self.now.lines.now.bytes address count) }
        ensures bytes { big_bytes count result ≡ range_at self.now.lines.now.bytes address count }
        ensures fits { result < 2 ^ (8 * count) }
    {
        self.lines.fetch_word(Some(self.who), address as u32, count)
    }

    /// Changes the byte at an address.
    #[inline(always)]
    fn put(&mut self, address: u64, byte: u8)
        requires inside { address < storage_size }
        ensures bytes { self.new.lines.now.bytes ≡ written self.old.lines.now.bytes address (byte ∷ []) }
        ensures held { holdings_of self.new.lines.now ≡ holdings_of self.old.lines.now }
        ensures who { self.new.who ≡ self.old.who }
        ensures same_reference { self.new.lines.ghost_name ≡ self.old.lines.ghost_name }
    {
        self.lines.store(address as u32, &[byte]);
    }

    /// Changes the `count` bytes from an address on to the rightmost of a number.
    #[inline(always)]
    fn put_word(&mut self, address: u64, count: u8, value: u64)
        requires low { 1 ≤ count }
        requires high { count ≤ 8 }
        requires inside { address + count ≤ storage_size }
        ensures bytes { self.new.lines.now.bytes
            ≡ written self.old.lines.now.bytes address (big_bytes count value) }
        ensures held { holdings_of self.new.lines.now ≡ holdings_of self.old.lines.now }
        ensures who { self.new.who ≡ self.old.who }
        ensures same_reference { self.new.lines.ghost_name ≡ self.old.lines.ghost_name }
    {
        self.lines.store_word(address as u32, count, value);
    }

    /// Copies the bytes from an address on.
    #[inline(always)]
    fn read_into(&self, address: u64, into: &mut [u8])
        requires who { self.now.who < self.now.lines.now.cpus }
        requires some { 1 ≤ length into.old }
        requires few { length into.old ≤ 256 }
        requires inside { address + length into.old ≤ storage_size }
        ensures { into.new ≡ range_at self.now.lines.now.bytes address (length into.old) }
    {
        self.lines.fetch_bytes(Some(self.who), address as u32, into);
    }

    /// Changes the bytes from an address on to these.
    #[inline(always)]
    fn put_all(&mut self, address: u64, items: &[u8])
        requires some { 1 ≤ length items.now }
        requires few { length items.now ≤ 256 }
        requires inside { address + length items.now ≤ storage_size }
        ensures bytes { self.new.lines.now.bytes ≡ written self.old.lines.now.bytes address items.now }
        ensures held { holdings_of self.new.lines.now ≡ holdings_of self.old.lines.now }
        ensures who { self.new.who ≡ self.old.who }
        ensures same_reference { self.new.lines.ghost_name ≡ self.old.lines.ghost_name }
    {
        self.lines.store_across(address as u32, items);
    }
}

/// Lines as one CPU sees them, for code that knows bytes alone: whatever it does, nobody gets or loses a
/// line, and all copies stay coherent.
#[derive(Drop)]
pub struct Window<'a, H: Held> {
    reach: Reach<'a>,
    of: PhantomData<H>,
    ghost holds: { holdings_of reach.lines.now ≡ H.held },
    ghost same_reference: { reach.lines.ghost_name ≡ H.name },
    ghost in_range: { reach.who < reach.lines.now.cpus },
    ghost size: { length reach.lines.now.bytes ≡ storage_size },
}

/// The lines that a window has shown, and what came of it.
#[derive(Drop)]
pub struct Handback<'a, T: Drop> {
    /// The lines.
    pub lines: &'a mut CoherentLines,
    /// What came of it.
    pub value: T,
}

impl<'a, H: Held> Window<'a, H> {
    /// The lines for this CPU.
    pub fn open(lines: &'a mut CoherentLines, who: u32) -> Window<'a, H>
        requires who { who < lines.old.cpus }
        requires held { holdings_of lines.old ≡ H.held }
        requires name { lines.ghost_name ≡ H.name }
        ensures bytes { result.reach.lines.now.bytes ≡ lines.old.bytes }
        ensures who { result.reach.who ≡ who }
        ensures size { length lines.old.bytes ≡ storage_size }
    {
        let _size = lines.size();
        Window {
            reach: Reach { lines, who },
            of: PhantomData,
        }
    }

    /// The lines again, with the bytes that were seen through the window, and with what came of it. Who holds
    /// which of them is as it was.
    pub fn close<T: Drop>(self, value: T) -> Handback<'a, T>
        ensures bytes { result.lines.now.bytes ≡ self.entry.reach.lines.now.bytes }
        ensures held { holdings_of result.lines.now ≡ H.held }
        ensures same_reference { result.lines.ghost_name ≡ H.name }
        ensures value { result.value ≡ value }
    {
        let Window { reach, .. } = self;
        let Reach { lines, .. } = reach;
        Handback { lines, value }
    }
}

impl<'a, H: Held> Bytes for Window<'a, H> {
    ghost bytes = { λ w. w.reach.lines.now.bytes };

    #[inline(always)]
    fn get(&self, address: u64) -> u8 {
        self.reach.get(address)
    }

    #[inline(always)]
    fn put(&mut self, address: u64, byte: u8) {
        self.reach.put(address, byte);
    }

    #[inline(always)]
    fn word(&self, address: u64, count: u8) -> u64 {
        self.reach.word(address, count)
    }

    #[inline(always)]
    fn put_word(&mut self, address: u64, count: u8, value: u64) {
        self.reach.put_word(address, count, value);
    }

    #[inline(always)]
    fn read_into(&self, address: u64, into: &mut [u8]) {
        self.reach.read_into(address, into);
    }

    #[inline(always)]
    fn put_all(&mut self, address: u64, items: &[u8]) {
        self.reach.put_all(address, items);
    }
}
