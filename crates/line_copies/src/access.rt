//! What one CPU fetches, or somebody who is no CPU and has no copies (None), and what is stored.
ghost use Rattle.std.specs.Prelude.{◌≡◌, ◌<◌, ◌≤◌, ◌+◌, ◌-◌, ◌*◌, ◌%◌, ◌^◌, length, slice_index, IfSome};
ghost use Rattle.z_regs.specs.Prefix.{storage_size};
ghost use Rattle.z_regs.specs.Written.{range_at, written};
ghost use Rattle.byteorder.specs.Endian.{big_number, big_bytes};
ghost use Rattle.line_table.specs.Sizes.{storage_lines};
ghost use Rattle.l1_data.specs.Sizes.{line_size};
ghost use Rattle.line_copies.specs.Seen.{holders_in};

use crate::CoherentLines;
use crate::parts::lay_everywhere;
use byteorder::{BigEndian, ByteOrder};
use l1_data::LINE_SIZE;
use z_regs::{Bytes, number_in};

/// The lines as they are seen from outside.
impl Bytes for CoherentLines {
    ghost bytes = { λ lines. lines.bytes };

    fn get(&self, address: u64) -> u8 {
        let _size = self.size();
        self.fetch(None, address as u32)
    }

    fn put(&mut self, address: u64, byte: u8) {
        let _size = self.size();
        self.store(address as u32, &[byte]);
    }

    fn word(&self, address: u64, count: u8) -> u64 {
        let _size = self.size();
        self.fetch_word(None, address as u32, count)
    }

    fn put_word(&mut self, address: u64, count: u8, value: u64) {
        let _size = self.size();
        self.store_word(address as u32, count, value);
    }

    fn read_into(&self, address: u64, into: &mut [u8]) {
        let _size = self.size();
        self.fetch_bytes(None, address as u32, into);
    }

    fn put_all(&mut self, address: u64, items: &[u8]) {
        let _size = self.size();
        self.store_across(address as u32, items);
    }
}

impl CoherentLines {
    /// The bytes of a line as a CPU sees it: its copy, where it has one, and else what all see.
    #[inline(always)]
    fn line_for(&self, who: Option<u32>, line: u32) -> &[u8]
        requires cpu { IfSome who (λ cpu. cpu < self.now.cpus) }
        requires line { line < storage_lines }
        ensures bytes { result.now ≡ range_at self.now.bytes (line * line_size) line_size }
        ensures size { length result.now ≡ line_size }
    {
        if let Some(cpu) = who {
            if let Some(copy) = self.copies[cpu as usize].find(line) {
                return copy;
            }
        }
        self.line_at(line)
    }

    /// The byte at an address, as a CPU fetches it, or somebody from outside.
    #[inline(always)]
    pub fn fetch(&self, who: Option<u32>, address: u32) -> u8
        requires cpu { IfSome who (λ cpu. cpu < self.now.cpus) }
        requires inside { address < storage_size }
        ensures { result ≡ slice_index self.now.bytes address }
    {
        self.line_for(who, address / LINE_SIZE as u32)[address as usize % LINE_SIZE]
    }

    /// The number in the `count` bytes from an address on, one to eight of them, as a CPU fetches it, or
    /// somebody from outside.
    #[inline(always)]
    pub fn fetch_word(&self, who: Option<u32>, address: u32, count: u8) -> u64
        requires cpu { IfSome who (λ cpu. cpu < self.now.cpus) }
        requires low { 1 ≤ count }
        requires high { count ≤ 8 }
        requires inside { address + count ≤ storage_size }
        ensures value { result ≡ big_number count (range_at self.now.bytes address count) }
        ensures bytes { big_bytes count result ≡ range_at self.now.bytes address count }
        ensures fits { result < 2 ^ (8 * count) }
    {
        let at = address as usize % LINE_SIZE;
        if at + usize::from(count) <= LINE_SIZE {
            return number_in(self.line_for(who, address / LINE_SIZE as u32), at, count);
        }
        self.number_across(who, address, usize::from(count))
    }

    /// The number in bytes of two lines.
    #[inline(never)]
    fn number_across(&self, who: Option<u32>, address: u32, count: usize) -> u64
        requires cpu { IfSome who (λ cpu. cpu < self.now.cpus) }
        requires low { 1 ≤ count }
        requires high { count ≤ 8 }
        requires inside { address + count ≤ storage_size }
        ensures value { result ≡ big_number count (range_at self.now.bytes address count) }
        ensures bytes { big_bytes count result ≡ range_at self.now.bytes address count }
        ensures fits { result < 2 ^ (8 * count) }
    {
        let _size = self.size();
        let mut item = [0u8; 8];
        for k in 0..count {
            item[k] = self.fetch(who, address + k as u32);
        }
        BigEndian::read_uint(&item, count)
    }

    /// Copies the bytes from an address on, one to 256 of them, as a CPU fetches them, or somebody from outside.
    #[inline(always)]
    pub fn fetch_bytes(&self, who: Option<u32>, address: u32, into: &mut [u8])
        requires cpu { IfSome who (λ cpu. cpu < self.now.cpus) }
        requires some { 1 ≤ length into.old }
        requires few { length into.old ≤ 256 }
        requires inside { address + length into.old ≤ storage_size }
        ensures { into.new ≡ range_at self.now.bytes address (length into.old) }
    {
        let room = LINE_SIZE - address as usize % LINE_SIZE;
        if into.len() <= room {
            return self.fetch_in_line(who, address, into);
        }
        self.fetch_in_two(who, address, room, into);
    }

    /// Copies bytes of one line.
    #[inline(always)]
    fn fetch_in_line(&self, who: Option<u32>, address: u32, into: &mut [u8])
        requires cpu { IfSome who (λ cpu. cpu < self.now.cpus) }
        requires inside { address < storage_size }
        requires one_line { address % line_size + length into.old ≤ line_size }
        ensures { into.new ≡ range_at self.now.bytes address (length into.old) }
    {
        let line = self.line_for(who, address / LINE_SIZE as u32);
        let at = address as usize % LINE_SIZE;
        into.copy_from_slice(&line[at..at + into.len()]);
    }

    /// Copies bytes of two lines, the first of which has so many of them.
    #[inline(never)]
    fn fetch_in_two(&self, who: Option<u32>, address: u32, room: usize, into: &mut [u8])
        requires cpu { IfSome who (λ cpu. cpu < self.now.cpus) }
        requires few { length into.old ≤ line_size }
        requires room { room ≡ line_size - address % line_size }
        requires more { room < length into.old }
        requires inside { address + length into.old ≤ storage_size }
        ensures { into.new ≡ range_at self.now.bytes address (length into.old) }
    {
        let (first, second) = into.split_at_mut(room);
        self.fetch_in_line(who, address, first);
        self.fetch_in_line(who, address + room as u32, second);
    }

    /// Changes bytes of one line: in the copy of the CPU that holds the line exclusively, and where there is
    /// none, in storage and every copy.
    #[inline(always)]
    pub fn store(&mut self, address: u32, bytes: &[u8])
        requires inside { address < storage_size }
        requires one_line { address % line_size + length bytes.now ≤ line_size }
        ensures bytes { self.new.bytes ≡ written self.old.bytes address bytes.now }
        ensures cpus { self.new.cpus ≡ self.old.cpus }
        ensures modes { self.new.modes ≡ self.old.modes }
    {
        let line = address / LINE_SIZE as u32;
        let at = address % LINE_SIZE as u32;
        match self.table.exclusive_holder(line) {
            Some(holder) => self.copies[holder as usize].lay(line, at, bytes),
            None => lay_everywhere(&mut self.storage, &mut self.copies, address, bytes),
        }
    }

    /// Changes the `count` bytes from an address on, one to eight of them, to the rightmost of a number.
    #[inline(always)]
    pub fn store_word(&mut self, address: u32, count: u8, value: u64)
        requires low { 1 ≤ count }
        requires high { count ≤ 8 }
        requires inside { address + count ≤ storage_size }
        ensures bytes { self.new.bytes ≡ written self.old.bytes address (big_bytes count value) }
        ensures cpus { self.new.cpus ≡ self.old.cpus }
        ensures modes { self.new.modes ≡ self.old.modes }
    {
        if count == 8 {
            return self.store_across(address, &value.to_be_bytes());
        }
        self.store_part(address, count, value);
    }

    /// The same, away from the way of whole doublewords.
    #[inline(never)]
    fn store_part(&mut self, address: u32, count: u8, value: u64)
        requires low { 1 ≤ count }
        requires high { count ≤ 8 }
        requires inside { address + count ≤ storage_size }
        ensures bytes { self.new.bytes ≡ written self.old.bytes address (big_bytes count value) }
        ensures cpus { self.new.cpus ≡ self.old.cpus }
        ensures modes { self.new.modes ≡ self.old.modes }
    {
        let item = value.to_be_bytes();
        match count {
            4 => self.store_across(address, &item[4..]),
            2 => self.store_across(address, &item[6..]),
            1 => self.store_across(address, &item[7..]),
            _ => self.store_across(address, &item[8 - usize::from(count)..]),
        }
    }

    /// Changes bytes of one line or of two.
    #[inline(always)]
    pub(crate) fn store_across(&mut self, address: u32, bytes: &[u8])
        requires few { length bytes.now ≤ line_size }
        requires some { 1 ≤ length bytes.now }
        requires inside { address + length bytes.now ≤ storage_size }
        ensures bytes { self.new.bytes ≡ written self.old.bytes address bytes.now }
        ensures cpus { self.new.cpus ≡ self.old.cpus }
        ensures modes { self.new.modes ≡ self.old.modes }
    {
        let _size = self.size();
        let room = LINE_SIZE - address as usize % LINE_SIZE;
        if bytes.len() <= room {
            return self.store(address, bytes);
        }
        self.store_in_two(address, room, bytes);
    }

    /// Changes bytes of two lines, the first of which has room for so many.
    #[inline(never)]
    fn store_in_two(&mut self, address: u32, room: usize, bytes: &[u8])
        requires few { length bytes.now ≤ line_size }
        requires room { room ≡ line_size - address % line_size }
        requires more { room < length bytes.now }
        requires inside { address + length bytes.now ≤ storage_size }
        requires size { length self.old.bytes ≡ storage_size }
        ensures bytes { self.new.bytes ≡ written self.old.bytes address bytes.now }
        ensures cpus { self.new.cpus ≡ self.old.cpus }
        ensures modes { self.new.modes ≡ self.old.modes }
    {
        self.store(address, &bytes[..room]);
        self.store(address + room as u32, &bytes[room..]);
    }
}
