//! The lines that a turn needs.
ghost use Rattle.std.specs.Prelude.{◌≡◌, ◌<◌, ◌≤◌, ◌+◌, ◌^◌, ◌↔◌, IsTrue, Some, slice_get, length, map, All, [], ◌&&◌};
ghost use Rattle.std.specs.List.{flat_map, list_any};
ghost use Rattle.arrayvec.specs.ArrayVec.{array_vec_len};
ghost use Rattle.z_regs.specs.Prefix.{storage_size};
ghost use Rattle.z_regs.specs.Rising.{with_number, numbers_below};
ghost use Rattle.tx_meaning.specs.Needs.{lines_of, has_line, needs_of};
ghost use Rattle.tx_needs.specs.Needs.{with_numbers, need_at};

use arrayvec::ArrayVec;
use line_table::Mode;
use tx_meaning::Need;
use z_regs::{Range, Touches};

/// The bytes of a line.
const LINE_SIZE: u64 = 256;

/// The most lines that a turn can need: those of four ranges of at most 256 bytes.
pub const MOST_NEEDS: usize = 8;

/// How many lines stand before the first that is not below this one.
fn place(lines: &[u32], line: u32) -> usize
    ensures value { result ≡ numbers_below lines.now line }
    ensures within { result ≤ length lines.now }
{
    for (at, other) in lines.iter().enumerate() {
        if *other >= line {
            return at;
        }
    }
    lines.len()
}

/// Whether the line stands at that place.
fn is_at(lines: &[u32], at: usize, line: u32) -> bool
    ensures { IsTrue result ↔ (slice_get lines.now at ≡ Some line) }
{
    match lines.get(at) {
        Some(other) => *other == line,
        None => false,
    }
}

/// Puts a line in its place among rising ones, where it is not there.
fn put(lines: &mut ArrayVec<u32, MOST_NEEDS>, line: u32)
    requires { array_vec_len lines.old < MOST_NEEDS }
    ensures value { lines.new.items ≡ with_number lines.old.items line }
    ensures room { array_vec_len lines.new ≤ array_vec_len lines.old + 1 }
{
    let at = place(lines.as_slice(), line);
    if is_at(lines.as_slice(), at, line) {
        return;
    }
    lines.insert(at, line);
}

/// Puts the lines of a range of at most 256 bytes in their places.
fn put_lines(lines: &mut ArrayVec<u32, MOST_NEEDS>, range: Range)
    requires small { range.length ≤ 256 }
    requires in_storage { range.first + range.length ≤ storage_size }
    requires room { array_vec_len lines.old + 2 ≤ MOST_NEEDS }
    ensures value { lines.new.items ≡ with_numbers lines.old.items (lines_of range) }
    ensures room { array_vec_len lines.new ≤ array_vec_len lines.old + 2 }
{
    if range.length == 0 {
        return;
    }
    let first = range.first / LINE_SIZE;
    let last = (range.first + u64::from(range.length) - 1) / LINE_SIZE;
    put(lines, first as u32);
    if first < last {
        put(lines, last as u32);
    }
}

/// The lines of ranges by absolute addresses, in rising order. There are at most four ranges, each of at most
/// 256 bytes of storage.
fn lines_in(ranges: &Touches) -> ArrayVec<u32, MOST_NEEDS>
    requires small { All (λ r. r.length ≤ 256) ranges.now }
    requires in_storage { All (λ r. r.first + r.length ≤ storage_size) ranges.now }
    ensures { result.items ≡ with_numbers [] (flat_map lines_of ranges.now) }
{
    let mut lines = ArrayVec::new();
    for i in 0..ranges.count() {
        put_lines(&mut lines, ranges.at(i));
    }
    lines
}

/// Whether the line has a byte of the range.
fn holds_line(range: Range, line: u32) -> bool
    requires { range.first + range.length < 2 ^ 64 }
    ensures { result ≡ has_line line range }
{
    if range.length == 0 {
        return false;
    }
    let line = u64::from(line);
    let first = range.first / LINE_SIZE;
    let last = (range.first + u64::from(range.length) - 1) / LINE_SIZE;
    first <= line && line <= last
}

/// Whether bytes of the line are stored by a range.
fn stores_into(range: Range, line: u32) -> bool
    requires { range.first + range.length < 2 ^ 64 }
    ensures { result ≡ (range.store && has_line line range) }
{
    range.store && holds_line(range, line)
}

/// Whether a byte of the line is stored.
fn is_stored(ranges: &Touches, line: u32) -> bool
    requires { All (λ r. r.first + r.length ≤ storage_size) ranges.now }
    ensures { result ≡ list_any (λ r. r.store && has_line line r) ranges.now }
{
    for i in 0..ranges.count() {
        if stores_into(ranges.at(i), line) {
            return true;
        }
    }
    false
}

/// The lines that ranges by absolute addresses need, in rising order. There are at most four ranges, each of at
/// most 256 bytes of storage.
#[tactic(auto, unfolding(tx_meaning::specs::Needs::needs_of))]
pub fn lines_needed(ranges: &Touches) -> ArrayVec<u32, MOST_NEEDS>
    requires small { All (λ r. r.length ≤ 256) ranges.now }
    requires in_storage { All (λ r. r.first + r.length ≤ storage_size) ranges.now }
    ensures { map (need_at ranges.now) result.items ≡ needs_of ranges.now }
{
    lines_in(ranges)
}

/// How ranges by absolute addresses need a line: exclusively where they store a byte of it, else shared.
pub fn need_for(ranges: &Touches, line: u32) -> Need
    requires { All (λ r. r.first + r.length ≤ storage_size) ranges.now }
    ensures { result ≡ need_at ranges.now line }
{
    let mode = if is_stored(ranges, line) {
        Mode::Exclusive
    } else {
        Mode::Shared
    };
    Need { line, mode }
}
