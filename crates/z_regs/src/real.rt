//! Storage by a CPU's real addresses.
ghost use Rattle.std.specs.Prelude.{◌≡◌, ◌<◌, ◌≤◌, ◌+◌, ◌*◌, ◌%◌, ◌^◌, nat_le, length, slice_index, slice_set, IsTrue};
ghost use Rattle.byteorder.specs.Endian.{big_number, big_bytes};
ghost use Rattle.z_regs.specs.Prefix.{is_prefix, storage_size, area_size};
ghost use Rattle.z_regs.specs.Seen.{seen_by};
ghost use Rattle.z_regs.specs.Written.{range_at, written};

use crate::Bytes;
use crate::prefix::{AREA_SIZE, place_of};
use byteorder::{BigEndian, ByteOrder};

/// The most bytes of a number.
const MOST: usize = 8;

/// Storage as a CPU with this prefix, or without one, addresses it: what lies below, with two areas
/// exchanged.
///
/// Contracts see it as the list of bytes by real addresses, which has all of storage also where the CPU may
/// not use all of it.
#[derive(Drop)]
pub struct RealView<V: Bytes> {
    below: V,
    prefix: Option<u32>,
    ghost sized: { length (V.bytes below) ≡ storage_size },
    ghost prefix_in: { IsTrue (is_prefix prefix) },
}

impl<V: Bytes> RealView<V> {
    /// The view of a CPU with this prefix of all of storage.
    pub fn new(below: V, prefix: Option<u32>) -> RealView<V>
        requires sized { length (V.bytes below) ≡ storage_size }
        requires prefix_in { IsTrue (is_prefix prefix) }
        ensures below { result.below ≡ below }
        ensures prefix { result.prefix ≡ prefix }
        ensures size { length (seen_by result.prefix (V.bytes result.below)) ≡ storage_size }
    {
        RealView { below, prefix }
    }
    /// The byte at a real address.
    fn byte(&self, address: u64) -> u8
        requires { address < storage_size }
        ensures { result ≡ slice_index (seen_by self.now.prefix (V.bytes self.now.below)) address }
    {
        self.below.get(place_of(self.prefix, address))
    }

    /// Changes the byte at a real address, and no other.
    fn put_byte(&mut self, address: u64, byte: u8)
        requires { address < storage_size }
        ensures { seen_by self.new.prefix (V.bytes self.new.below) ≡
            slice_set (seen_by self.old.prefix (V.bytes self.old.below)) address byte }
    {
        self.below.put(place_of(self.prefix, address), byte);
    }

    /// The number in bytes that may lie in two areas, got one by one.
    fn number_across(&self, address: u64, count: u8) -> u64
        requires low { 1 ≤ count }
        requires high { count ≤ 8 }
        requires inside { address + count ≤ storage_size }
        ensures value { result ≡
            big_number count (range_at (seen_by self.now.prefix (V.bytes self.now.below)) address count) }
        ensures bytes { big_bytes count result ≡
            range_at (seen_by self.now.prefix (V.bytes self.now.below)) address count }
        ensures fits { result < 2 ^ (8 * count) }
    {
        let mut item = [0u8; MOST];
        for k in 0..usize::from(count) {
            item[k] = self.byte(address + k as u64);
        }
        BigEndian::read_uint(&item, usize::from(count))
    }

    /// Puts bytes that may lie in two areas, one by one.
    fn put_across(&mut self, address: u64, bytes: &[u8])
        requires { address + length bytes.now ≤ storage_size }
        ensures { seen_by self.new.prefix (V.bytes self.new.below) ≡
            written (seen_by self.old.prefix (V.bytes self.old.below)) address bytes.now }
    {
        for (k, byte) in bytes.iter().enumerate() {
            self.put_byte(address + k as u64, *byte);
        }
    }

    /// Copies bytes that may lie in two areas, one by one.
    fn read_across(&self, address: u64, into: &mut [u8])
        requires { address + length into.old ≤ storage_size }
        ensures { into.new ≡
            range_at (seen_by self.now.prefix (V.bytes self.now.below)) address (length into.old) }
    {
        for k in 0..into.len() {
            into[k] = self.byte(address + k as u64);
        }
    }
}

impl<V: Bytes> Bytes for RealView<V> {
    ghost bytes = { λ view. seen_by view.prefix (V.bytes view.below) };

    fn get(&self, address: u64) -> u8 {
        self.byte(address)
    }

    fn put(&mut self, address: u64, byte: u8) {
        self.put_byte(address, byte);
    }

    fn word(&self, address: u64, count: u8) -> u64 {
        if are_in_one_area(address, count as u64) {
            self.below.word(place_of(self.prefix, address), count)
        } else {
            self.number_across(address, count)
        }
    }

    fn put_word(&mut self, address: u64, count: u8, value: u64) {
        if are_in_one_area(address, count as u64) {
            self.below
                .put_word(place_of(self.prefix, address), count, value);
        } else {
            let item = value.to_be_bytes();
            self.put_across(address, &item[MOST - usize::from(count)..]);
        }
    }

    fn read_into(&self, address: u64, into: &mut [u8]) {
        if are_in_one_area(address, into.len() as u64) {
            self.below.read_into(place_of(self.prefix, address), into);
        } else {
            self.read_across(address, into);
        }
    }

    fn put_all(&mut self, address: u64, items: &[u8]) {
        if are_in_one_area(address, items.len() as u64) {
            self.below.put_all(place_of(self.prefix, address), items);
        } else {
            self.put_across(address, items);
        }
    }
}

/// Whether so many bytes from an address on, at most 256, lie in one area, so that no prefix takes them apart.
fn are_in_one_area(address: u64, count: u64) -> bool
    requires { count ≤ 256 }
    ensures { result ≡ nat_le (address % area_size + count) area_size }
{
    address % AREA_SIZE + count <= AREA_SIZE
}
