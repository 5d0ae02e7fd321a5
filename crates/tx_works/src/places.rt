//! The bytes that a turn needs, by absolute addresses.
ghost use Rattle.std.specs.Prelude.{◌≡◌, ◌+◌, ◌<◌, ◌≤◌, ◌++◌, ◌∷◌, [], All, IsTrue, List, Option, ℕ, is_some, length};
ghost use Rattle.z_regs.specs.Absolute.{absolute_ranges, IsAccessible};
ghost use Rattle.z_regs.specs.Prefix.{is_prefix, absolute_of, area_size, storage_size};
ghost use Rattle.tx_meaning.specs.Needs.{stored, interruption_ranges};

use z_regs::{Range, Touches, place_of};

/// The real addresses of what an interruption stores: its identification, the old program status word and the
/// new one, and the diagnostic block.
const IDENTIFICATION: u64 = 0x8c;

const OLD_PSW: u64 = 0x150;

const NEW_PSW: u64 = 0x1d0;

const BLOCK: u64 = 0x1800;

/// The bytes of operands.
pub fn operand_places(need: &Touches, prefix: Option<u32>) -> Touches
    requires prefix_in { IsTrue (is_prefix prefix) }
    requires few { length need.now ≤ 2 }
    requires accessible { All (IsAccessible prefix) need.now }
    ensures value { result ≡ absolute_ranges prefix need.now }
    ensures small { All (λ r. r.length ≤ 256) result }
    ensures in_storage { All (λ r. r.first + r.length ≤ storage_size) result }
{
    need.absolute(prefix)
}

/// The bytes of a diagnostic block at this real address.
pub fn block_places(address: u64, prefix: Option<u32>) -> Touches
    requires prefix_in { IsTrue (is_prefix prefix) }
    requires inside { address + 256 ≤ storage_size }
    ensures value { result ≡ absolute_ranges prefix (stored address 256 ∷ []) }
    ensures small { All (λ r. r.length ≤ 256) result }
    ensures in_storage { All (λ r. r.first + r.length ≤ storage_size) result }
{
    let mut block = Touches::none();
    block.add(Range {
        first: address,
        length: 256,
        store: true,
    });
    match prefix {
        None => block,
        Some(_) => block.absolute(prefix),
    }
}

/// Appends bytes of the first area.
fn put_low(places: &mut Touches, first: u64, size: u32, prefix: Option<u32>)
    requires prefix_in { IsTrue (is_prefix prefix) }
    requires low { first + size ≤ area_size }
    requires some { 0 < size }
    requires room { length places.old < 4 }
    ensures { places.new ≡ places.old ++ stored (absolute_of prefix first) size ∷ [] }
{
    places.add(Range {
        first: place_of(prefix, first),
        length: size,
        store: true,
    });
}

/// The bytes that an interruption stores, with a diagnostic block where there is one.
pub fn interruption_places(block: bool, prefix: Option<u32>) -> Touches
    requires { IsTrue (is_prefix prefix) }
    ensures value { (bytes : Option (List ℕ)) → is_some bytes ≡ block
        → result ≡ absolute_ranges prefix (interruption_ranges bytes) }
    ensures small { All (λ r. r.length ≤ 256) result }
    ensures in_storage { All (λ r. r.first + r.length ≤ storage_size) result }
{
    let mut places = Touches::none();
    put_low(&mut places, IDENTIFICATION, 4, prefix);
    put_low(&mut places, OLD_PSW, 16, prefix);
    put_low(&mut places, NEW_PSW, 16, prefix);
    if block {
        put_low(&mut places, BLOCK, 256, prefix);
        return places;
    }
    places
}
