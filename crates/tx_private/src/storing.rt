//! Bytes stored at real addresses.
ghost use Rattle.std.specs.Prelude.{◌≡◌, ◌<◌, ◌≤◌, ◌+◌, length, IsTrue};
ghost use Rattle.z_regs.specs.Prefix.{is_prefix, storage_size, absolute_of};
ghost use Rattle.tx_serial.specs.Flat.{at_put, with_bytes_at};
ghost use Rattle.z_effect.specs.After.{written};
ghost use Rattle.tx_private.specs.Bytes.{function_of};

use z_regs::{Bytes, Storage, place_of};

/// Stores a byte at a real address of a CPU with this prefix.
fn store_byte(storage: &mut Storage, prefix: Option<u32>, address: u64, byte: u8)
    requires prefix_in { IsTrue (is_prefix prefix) }
    requires inside { address < storage_size }
    requires size { length storage.old ≡ storage_size }
    ensures stored { function_of storage.new
        ≡ at_put (function_of storage.old) (absolute_of prefix address) byte }
    ensures size { length storage.new ≡ storage_size }
{
    storage.put(place_of(prefix, address), byte);
}

/// Stores bytes from a real address on.
pub fn store_bytes(storage: &mut Storage, prefix: Option<u32>, address: u64, bytes: &[u8])
    requires prefix_in { IsTrue (is_prefix prefix) }
    requires inside { address + length bytes.now ≤ storage_size }
    requires size { length storage.old ≡ storage_size }
    ensures stored { function_of storage.new
        ≡ with_bytes_at prefix address bytes.now (function_of storage.old) }
    ensures size { length storage.new ≡ storage_size }
{
    for (k, byte) in bytes.iter().enumerate() {
        store_byte(storage, prefix, address + k as u64, *byte);
    }
}

/// Stores bytes into storage in the order of real addresses.
pub fn write_bytes(seen: &mut Storage, address: u64, bytes: &[u8])
    requires inside { address + length bytes.now ≤ storage_size }
    requires size { length seen.old ≡ storage_size }
    ensures stored { seen.new ≡ written seen.old address bytes.now }
    ensures size { length seen.new ≡ storage_size }
{
    for (k, byte) in bytes.iter().enumerate() {
        seen.put(address + k as u64, *byte);
    }
}
