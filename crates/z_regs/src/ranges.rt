//! The bytes of storage that an instruction touches.
ghost use Rattle.std.specs.Prelude.{◌≡◌, ◌<◌, ◌≤◌, List, [], ◌∷◌, ◌++◌, length, take, slice_index_or, slice_get, Some, IsTrue, All};

use crate::prefix::{AREA_SIZE, absolute};
use std::marker::Model;

/// The most ranges that a list of them has: an instruction touches at most two, and by absolute addresses
/// each may fall into two.
const MOST: usize = 4;

/// Bytes that an instruction touches: `length` of them from the address `first` on.
#[derive(Clone, Copy, Debug, PartialEq, Eq)]
pub struct Range {
    /// The address of the first byte.
    pub first: u64,
    /// The number of bytes.
    pub length: u32,
    /// Whether the instruction may store there; else it only fetches.
    pub store: bool,
}

/// The ranges that an instruction touches, in the order of its operands, at most four. Contracts see their
/// list.
#[derive(Drop)]
pub struct Touches {
    ranges: [Range; MOST],
    count: u8,
}

impl Model for Touches {
    ghost use Rattle.std.specs.Prelude.{◌≡◌, ◌≤◌, List, length, take};
    ghost use Rattle.z_regs.specs.declared.ranges.Range.{Range};

    ghost Value = { List Range };

    ghost view = { λ t. take t.count t.ranges };

    ghost invariant = { λ t. (t.count ≤ 4) × (length t.ranges ≡ 4) };
}

impl Touches {
    ghost use Rattle.z_regs.specs.Prefix.{is_prefix};
    ghost use Rattle.z_regs.specs.Absolute.{IsAccessible, absolute_ranges, absolute_range};

    /// No range.
    pub fn none() -> Touches
        ensures { result ≡ [] }
    {
        let nowhere = Range {
            first: 0,
            length: 0,
            store: false,
        };
        Touches {
            ranges: [nowhere; MOST],
            count: 0,
        }
    }

    /// Appends a range; there must be fewer than four.
    pub fn add(&mut self, range: Range)
        requires { length self.old < 4 }
        ensures { self.new ≡ self.old ++ range ∷ [] }
    {
        self.ranges[usize::from(self.count)] = range;
        self.count += 1;
    }

    /// The number of ranges, at most four.
    pub fn count(&self) -> u8
        ensures value { result ≡ length self.now }
        ensures most { result ≤ 4 }
    {
        self.count
    }

    /// The range at an index below the count.
    pub fn at(&self, i: u8) -> Range
        requires { i < length self.now }
        ensures { slice_get self.now i ≡ Some result }
    {
        self.ranges[usize::from(i)]
    }

    /// The same bytes by absolute addresses, for a CPU with this prefix.
    ///
    /// A range that goes on from one area of 8,192 bytes into the next one becomes two. Requires at most two
    /// ranges, each of at most 256 bytes that are all accessible.
    pub fn absolute(&self, prefix: Option<u32>) -> Touches
        requires prefix_in { IsTrue (is_prefix prefix) }
        requires few { length self.now ≤ 2 }
        requires accessible { All (IsAccessible prefix) self.now }
        ensures { result ≡ absolute_ranges prefix self.now }
    {
        let Some(_) = prefix else {
            return Touches {
                ranges: self.ranges,
                count: self.count,
            };
        };
        let mut all = Touches::none();
        for i in 0..self.count() {
            all.add_absolute(self.at(i), prefix);
        }
        all
    }

    /// Appends the bytes of a range by absolute addresses.
    fn add_absolute(&mut self, range: Range, prefix: Option<u32>)
        requires prefix_in { IsTrue (is_prefix prefix) }
        requires room { length self.old ≤ 2 }
        requires accessible { IsAccessible prefix range }
        ensures { self.new ≡ self.old ++ absolute_range prefix range }
    {
        match prefix {
            None => self.add(range),
            Some(own) => self.add_moved(range, own),
        }
    }

    /// The same for a CPU whose own area begins here.
    fn add_moved(&mut self, range: Range, own: u32)
        requires prefix_in { IsTrue (is_prefix (Some own)) }
        requires room { length self.old ≤ 2 }
        requires accessible { IsAccessible (Some own) range }
        ensures { self.new ≡ self.old ++ absolute_range (Some own) range }
    {
        let here = AREA_SIZE - range.first % AREA_SIZE;
        let length = u64::from(range.length);
        let first = absolute(Some(own), range.first);
        if length <= here {
            self.add(Range { first, ..range });
            return;
        }
        self.add(Range {
            first,
            length: here as u32,
            ..range
        });
        self.add(Range {
            first: absolute(Some(own), range.first + here),
            length: (length - here) as u32,
            ..range
        });
    }
}
