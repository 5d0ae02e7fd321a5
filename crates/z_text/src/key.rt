//! A name of the listing as a number, so that a label needs no memory of its own for its name.
ghost use Rattle.std.specs.Prelude.{◌≡◌, ◌≤◌, slice_index};
ghost use Rattle.z_text.specs.Labels.{word_at, key_of, key_in_front};

use crate::fields::{count_inked, is_name};

/// The byte at a place, 0 behind the last one.
fn byte_at(name: &[u8], at: usize) -> u8
    ensures { result ≡ slice_index name.now at }
{
    if at < name.len() { name[at] } else { 0 }
}

/// The eight bytes from a place on as a number.
#[tactic(auto, unfolding(crate::specs::Labels::word_at))]
fn word_at(name: &[u8], at: usize) -> u64
    requires { at ≤ 8 }
    ensures { result ≡ word_at name.now at }
{
    u64::from_be_bytes([
        byte_at(name, at),
        byte_at(name, at + 1),
        byte_at(name, at + 2),
        byte_at(name, at + 3),
        byte_at(name, at + 4),
        byte_at(name, at + 5),
        byte_at(name, at + 6),
        byte_at(name, at + 7),
    ])
}

/// The first sixteen bytes as a number.
#[tactic(auto, unfolding(crate::specs::Labels::key_of))]
pub(crate) fn key_of(name: &[u8]) -> u128
    ensures { result ≡ key_of name.now }
{
    u128::from(word_at(name, 0)) * 0x1_0000_0000_0000_0000 + u128::from(word_at(name, 8))
}

/// The number of the name that stands at the begin of a line in capitals, if one does.
pub fn key_in_front(line: &[u8]) -> Option<u128>
    ensures { result ≡ key_in_front line.now }
{
    let name = &line[..count_inked(line)];
    if is_name(name) {
        return Some(key_of(name));
    }
    None
}
