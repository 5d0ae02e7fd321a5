//! Numbers in bytes, the leftmost first.
ghost use Rattle.std.specs.Prelude.{◌≡◌, ◌<◌, ◌≤◌, ◌+◌, ◌*◌, ◌^◌, length};
ghost use Rattle.z_regs.specs.Written.{range_at};
ghost use Rattle.byteorder.specs.Endian.{big_number, big_bytes};

use byteorder::{BigEndian, ByteOrder};

/// The number in some bytes from a place on, got one by one.
fn number_at(bytes: &[u8], first: usize, count: usize) -> u64
    requires low { 1 ≤ count }
    requires high { count ≤ 8 }
    requires inside { first + count ≤ length bytes.now }
    ensures value { result ≡ big_number count (range_at bytes.now first count) }
    ensures bytes { big_bytes count result ≡ range_at bytes.now first count }
    ensures fits { result < 2 ^ (8 * count) }
{
    let mut item = [0u8; 8];
    for k in 0..count {
        item[k] = bytes[first + k];
    }
    BigEndian::read_uint(&item, count)
}

/// The number in eight bytes.
fn doubleword_at(bytes: &[u8], first: usize) -> u64
    requires { first + 8 ≤ length bytes.now }
    ensures { big_bytes 8 result ≡ range_at bytes.now first 8 }
{
    u64::from_be_bytes([
        bytes[first],
        bytes[first + 1],
        bytes[first + 2],
        bytes[first + 3],
        bytes[first + 4],
        bytes[first + 5],
        bytes[first + 6],
        bytes[first + 7],
    ])
}

/// The number in four bytes.
fn word_at(bytes: &[u8], first: usize) -> u32
    requires { first + 4 ≤ length bytes.now }
    ensures { big_bytes 4 result ≡ range_at bytes.now first 4 }
{
    u32::from_be_bytes([
        bytes[first],
        bytes[first + 1],
        bytes[first + 2],
        bytes[first + 3],
    ])
}

/// The number in two bytes.
fn halfword_at(bytes: &[u8], first: usize) -> u16
    requires { first + 2 ≤ length bytes.now }
    ensures { big_bytes 2 result ≡ range_at bytes.now first 2 }
{
    u16::from_be_bytes([bytes[first], bytes[first + 1]])
}

/// The number in `count` bytes from a place on, one to eight of them.
#[inline(always)]
pub fn number_in(bytes: &[u8], first: usize, count: u8) -> u64
    requires low { 1 ≤ count }
    requires high { count ≤ 8 }
    requires inside { first + count ≤ length bytes.now }
    ensures value { result ≡ big_number count (range_at bytes.now first count) }
    ensures bytes { big_bytes count result ≡ range_at bytes.now first count }
    ensures fits { result < 2 ^ (8 * count) }
{
    match count {
        8 => doubleword_at(bytes, first),
        4 => u64::from(word_at(bytes, first)),
        2 => u64::from(halfword_at(bytes, first)),
        1 => u64::from(bytes[first]),
        _ => number_at(bytes, first, usize::from(count)),
    }
}
