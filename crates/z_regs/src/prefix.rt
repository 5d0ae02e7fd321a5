//! Real and absolute addresses.
ghost use Rattle.std.specs.Prelude.{◌≡◌, ◌<◌, IsTrue};
ghost use Rattle.z_regs.specs.Prefix.{storage_size, is_prefix, absolute_of, is_accessible};

/// How many bytes storage has.
pub const STORAGE_SIZE: u64 = 1_048_576;

/// How many bytes the area has that a prefix moves.
pub const AREA_SIZE: u64 = 8_192;

/// Where the byte at a real address lies in storage, for a CPU with this prefix, or without one.
pub fn place_of(prefix: Option<u32>, address: u64) -> u64
    requires prefix_in { IsTrue (is_prefix prefix) }
    requires inside { address < storage_size }
    ensures { result ≡ absolute_of prefix address }
{
    let Some(prefix) = prefix else {
        return address;
    };
    let own = u64::from(prefix);
    if address < AREA_SIZE {
        address + own
    } else if own <= address && address < own + AREA_SIZE {
        address - own
    } else {
        address
    }
}

/// The absolute address of a real one, for a CPU with this prefix, or without one.
///
/// A prefix exchanges two areas of 8,192 bytes: the first one of storage and the one that begins at the
/// prefix. Requires a prefix that a CPU may have, and an address that the CPU may use: below 1,048,576, and
/// from 8,192 on where it has no prefix.
pub fn absolute(prefix: Option<u32>, address: u64) -> u64
    requires prefix_in { IsTrue (is_prefix prefix) }
    requires accessible { IsTrue (is_accessible prefix address) }
    ensures { result ≡ absolute_of prefix address }
{
    place_of(prefix, address)
}
