//! Bytes of storage by real addresses.
ghost use Rattle.std.specs.Prelude.{◌≡◌, ◌≤◌, ◌+◌, length, take, All, IsTrue};
ghost use Rattle.z_regs.specs.Prefix.{is_prefix, storage_size};
ghost use Rattle.tx_serial.specs.Flat.{bytes_seen, with_bytes_at, laid_over, operand_stores};
ghost use Rattle.z_regs.specs.Absolute.{IsAccessible};
ghost use Rattle.tx_attempt.specs.Performed.{StoresFirst, first_size};
ghost use Rattle.tx_attempt.specs.Storages.{storage_of};

use z_regs::{Bytes, Touches, place_of};

/// Stores bytes from a real address on.
pub fn put_all<V: Bytes>(bytes: &[u8], first: u64, prefix: Option<u32>, base: &mut V)
    requires prefix_in { IsTrue (is_prefix prefix) }
    requires end { first + length bytes.now ≤ storage_size }
    requires size { length (V.bytes base.old) ≡ storage_size }
    ensures value { storage_of (V.bytes base.new) ≡
        with_bytes_at prefix first bytes.now (storage_of (V.bytes base.old)) }
    ensures size { length (V.bytes base.new) ≡ storage_size }
{
    for k in 0..bytes.len() {
        base.put(place_of(prefix, first + k as u64), bytes[k]);
    }
}

/// Fetches bytes from a real address on.
pub fn get_all<V: Bytes>(bytes: &mut [u8], first: u64, prefix: Option<u32>, base: &V)
    requires prefix_in { IsTrue (is_prefix prefix) }
    requires end { first + length bytes.old ≤ storage_size }
    requires size { length (V.bytes base.now) ≡ storage_size }
    ensures { bytes.new ≡ bytes_seen prefix (storage_of (V.bytes base.now)) first (length bytes.old) }
{
    for k in 0..bytes.len() {
        bytes[k] = base.get(place_of(prefix, first + k as u64));
    }
}

/// Stores the bytes of the first operand, where it is stored into; no other is.
pub fn put_stored<V: Bytes>(need: &Touches, stored: &[u8; 256], prefix: Option<u32>, base: &mut V)
    requires prefix_in { IsTrue (is_prefix prefix) }
    requires first { StoresFirst need.now }
    requires accessible { All (IsAccessible prefix) need.now }
    requires size { length (V.bytes base.old) ≡ storage_size }
    ensures value { storage_of (V.bytes base.new) ≡ laid_over (storage_of (V.bytes base.old))
        (operand_stores prefix need.now (take (first_size need.now) stored.now)) }
    ensures size { length (V.bytes base.new) ≡ storage_size }
{
    if need.count() == 0 {
        return;
    }
    let first = need.at(0);
    if first.store {
        put_all(&stored[..first.length as usize], first.first, prefix, base);
    }
}
