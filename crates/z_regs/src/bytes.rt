//! Storage as instructions see it.
ghost use Rattle.std.specs.Prelude.{◌≡◌, ◌<◌, ◌≤◌, ◌+◌, ◌*◌, ◌^◌, ℕ, List, length, slice_index, slice_set};
ghost use Rattle.byteorder.specs.Endian.{big_number, big_bytes};
ghost use Rattle.z_regs.specs.Written.{range_at, written};

/// Bytes by their addresses: shared storage, or what one CPU sees of it.
///
/// Contracts see the whole as a list of bytes. Every call requires that the addresses are below the length of
/// that list.
pub trait Bytes {
    /// All the bytes, from address 0 on.
    ghost bytes: { Self → List ℕ };

    /// The byte at an address.
    fn get(&self, address: u64) -> u8
        requires { address < length (bytes self.now) }
        ensures { result ≡ slice_index (bytes self.now) address };

    /// Changes the byte at an address, and no other.
    fn put(&mut self, address: u64, byte: u8)
        requires { address < length (bytes self.old) }
        ensures { bytes self.new ≡ slice_set (bytes self.old) address byte };

    /// The number in the `count` bytes from an address on, one to eight of them, the leftmost first.
    fn word(&self, address: u64, count: u8) -> u64
        requires low { 1 ≤ count }
        requires high { count ≤ 8 }
        requires inside { address + count ≤ length (bytes self.now) }
        ensures value { result ≡ big_number count (range_at (bytes self.now) address count) }
        ensures bytes { big_bytes count result ≡ range_at (bytes self.now) address count }
        ensures fits { result < 2 ^ (8 * count) };

    /// Changes the `count` bytes from an address on, one to eight of them, to the rightmost of a number.
    fn put_word(&mut self, address: u64, count: u8, value: u64)
        requires low { 1 ≤ count }
        requires high { count ≤ 8 }
        requires inside { address + count ≤ length (bytes self.old) }
        ensures { bytes self.new ≡ written (bytes self.old) address (big_bytes count value) };

    /// Copies the bytes from an address on, one to 256 of them, as many as `into` has.
    fn read_into(&self, address: u64, into: &mut [u8])
        requires some { 1 ≤ length into.old }
        requires few { length into.old ≤ 256 }
        requires inside { address + length into.old ≤ length (bytes self.now) }
        ensures { into.new ≡ range_at (bytes self.now) address (length into.old) };

    /// Changes the bytes from an address on to these, one to 256 of them.
    fn put_all(&mut self, address: u64, items: &[u8])
        requires some { 1 ≤ length items.now }
        requires few { length items.now ≤ 256 }
        requires inside { address + length items.now ≤ length (bytes self.old) }
        ensures { bytes self.new ≡ written (bytes self.old) address items.now };
}
