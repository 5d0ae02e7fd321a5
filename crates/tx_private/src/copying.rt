//! Lines of storage copied, by the addresses that a CPU with some prefix sees.
ghost use Rattle.std.specs.Prelude.{◌≡◌, ◌≤◌, ◌<◌, ◌+◌, ◌*◌, ◌/◌, ◌⊎◌, ℕ, length, get_or, IsTrue};
ghost use Rattle.z_regs.specs.Prefix.{is_prefix, storage_size, absolute_of};
ghost use Rattle.z_regs.specs.Written.{range_at, written};

use line_table::LINES;
use z_regs::{Bytes, Storage, place_of};

/// The bytes of a line of storage.
pub const LINE_SIZE: u64 = 256;

/// The doublewords of a line.
const LINE_ITEMS: u64 = 32;

/// Copies eight bytes.
fn copy_item(to: &mut Storage, place: u64, from: &Storage, from_place: u64)
    requires inside { place + 8 ≤ storage_size }
    requires from_inside { from_place + 8 ≤ storage_size }
    requires size { length to.old ≡ storage_size }
    requires from_size { length from.now ≡ storage_size }
    ensures { to.new ≡ written to.old place (range_at from.now from_place 8) }
{
    to.put_word(place, 8, from.word(from_place, 8));
}

/// Storage has its size.
pub fn is_whole(storage: &Storage)
    ensures { length storage.now ≡ storage_size }
{
    let _bytes = storage.as_slice();
}

/// Copies a line.
pub fn copy_line(to: &mut Storage, line: u32, from: &Storage, from_line: u32)
    requires line { line < LINES }
    requires from_line { from_line < LINES }
    requires size { length to.old ≡ storage_size }
    requires from_size { length from.now ≡ storage_size }
    ensures copied { (k : ℕ) → k < 256
        → get_or to.new (256 * line + k) 0 ≡ get_or from.now (256 * from_line + k) 0 }
    ensures others { (j : ℕ) → (j < 256 * line) ⊎ (256 * line + 256 ≤ j)
        → get_or to.new j 0 ≡ get_or to.old j 0 }
    ensures size { length to.new ≡ storage_size }
{
    let first = LINE_SIZE * u64::from(line);
    let from_first = LINE_SIZE * u64::from(from_line);
    for item in 0..LINE_ITEMS {
        copy_item(to, first + 8 * item, from, from_first + 8 * item);
    }
}

/// The line that a CPU with this prefix sees in place of a line.
pub fn line_seen(prefix: Option<u32>, line: u32) -> u32
    requires prefix_in { IsTrue (is_prefix prefix) }
    requires line { line < LINES }
    ensures within { result < LINES }
    ensures bytes { (k : ℕ) → k < 256 → absolute_of prefix (256 * line + k) ≡ 256 * result + k }
{
    (place_of(prefix, LINE_SIZE * u64::from(line)) / LINE_SIZE) as u32
}

/// Copies a line by real addresses from storage.
fn refresh(to: &mut Storage, from: &Storage, prefix: Option<u32>, line: u32)
    requires prefix_in { IsTrue (is_prefix prefix) }
    requires line { line < LINES }
    requires size { length to.old ≡ storage_size }
    requires from_size { length from.now ≡ storage_size }
    ensures copied { (j : ℕ) → 256 * line ≤ j → j < 256 * line + 256
        → get_or to.new j 0 ≡ get_or from.now (absolute_of prefix j) 0 }
    ensures others { (j : ℕ) → (j < 256 * line) ⊎ (256 * line + 256 ≤ j)
        → get_or to.new j 0 ≡ get_or to.old j 0 }
    ensures size { length to.new ≡ storage_size }
{
    let seen = line_seen(prefix, line);
    copy_line(to, line, from, seen);
}

/// Copies lines by real addresses from storage.
pub fn refresh_lines(to: &mut Storage, from: &Storage, prefix: Option<u32>, first: u32, end: u32)
    requires prefix_in { IsTrue (is_prefix prefix) }
    requires order { first ≤ end }
    requires within { end ≤ LINES }
    requires size { length to.old ≡ storage_size }
    requires from_size { length from.now ≡ storage_size }
    ensures copied { (j : ℕ) → 256 * first ≤ j → j < 256 * end
        → get_or to.new j 0 ≡ get_or from.now (absolute_of prefix j) 0 }
    ensures others { (j : ℕ) → (j < 256 * first) ⊎ (256 * end ≤ j)
        → get_or to.new j 0 ≡ get_or to.old j 0 }
    ensures size { length to.new ≡ storage_size }
{
    for line in first..end {
        refresh(to, from, prefix, line);
    }
}
