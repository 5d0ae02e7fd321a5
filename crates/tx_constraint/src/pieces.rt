//! The pieces of storage that operands lie in.
ghost use Rattle.std.specs.Prelude.{◌≡◌, ◌+◌, ◌/◌, ◌%◌, ◌<◌, ◌≤◌, ℕ, nat_le, nat_lt, ◌&&◌, not, nat_eq, take};
ghost use Rattle.std.specs.List.{list_any};
ghost use Rattle.tx_constraint.specs.Bytes.{first_piece, end_piece, is_own_page, touches_own_page};
ghost use Rattle.tx_constraint.specs.Constraints.{is_split};

use crate::operations::DOUBLEWORD_SIZE;
use z_regs::{Range, Touches};

/// The bytes of a page.
const PAGE_SIZE: u64 = 4096;

/// The numbers of some pieces, from `first` on and below `end`.
#[derive(Clone, Copy)]
pub struct Pieces {
    pub first: u64,
    pub end: u64,
}

impl Pieces {
    /// Whether the piece is among them.
    fn has(self, piece: u64) -> bool
        ensures { result ≡ (nat_le self.first piece && nat_lt piece self.end) }
    {
        self.first <= piece && piece < self.end
    }
}

/// The pieces of some size that hold the operand's bytes.
pub fn pieces_of(range: Range, size: u64) -> Pieces
    requires least { 32 ≤ size }
    requires most { size ≤ 4096 }
    ensures first { result.first ≡ first_piece size range }
    ensures end { result.end ≡ end_piece size range }
    ensures order { result.first ≤ result.end }
{
    let first = range.first / size;
    if range.length == 0 {
        return Pieces { first, end: first };
    }
    let last = first + (range.first % size + u64::from(range.length) - 1) / size;
    Pieces {
        first,
        end: last + 1,
    }
}

/// Whether a page is that of the first or of the last of the 256 bytes that begin at `begin`.
fn is_own_page(begin: u64, page: u64) -> bool
    ensures { result ≡ is_own_page begin page }
{
    let first = begin / PAGE_SIZE;
    let last = first + (begin % PAGE_SIZE + 255) / PAGE_SIZE;
    page == first || page == last
}

/// Whether an operand of so many bytes lies in one doubleword, in neither of these pages.
pub fn is_apart(begin: u64, first: u64, size: u32) -> bool
    ensures { result ≡ (nat_le (first % 8 + size) 8 && not (is_own_page begin (first / 4096))) }
{
    first % DOUBLEWORD_SIZE + u64::from(size) <= DOUBLEWORD_SIZE
        && !is_own_page(begin, first / PAGE_SIZE)
}

/// Whether a byte of the operand lies in the page of the first or of the last of the 256 bytes that begin at
/// `begin`.
fn is_near(begin: u64, range: Range) -> bool
    ensures { result ≡ touches_own_page begin range }
{
    let pages = pieces_of(range, PAGE_SIZE);
    let first = begin / PAGE_SIZE;
    let last = first + (begin % PAGE_SIZE + 255) / PAGE_SIZE;
    pages.has(first) || pages.has(last)
}

/// Whether one of the operands lies so.
pub fn is_one_near(begin: u64, touches: &Touches) -> bool
    ensures { result ≡ list_any (touches_own_page begin) touches.now }
{
    for i in 0..touches.count() {
        if is_near(begin, touches.at(i)) {
            return true;
        }
    }
    false
}

/// Whether one of the operands does not lie in one piece of some size.
pub fn is_one_split(unit: u64, touches: &Touches) -> bool
    requires some { 1 ≤ unit }
    requires few { unit ≤ 32 }
    ensures { result ≡ list_any (is_split unit) touches.now }
{
    for i in 0..touches.count() {
        let range = touches.at(i);
        if range.first % unit + u64::from(range.length) > unit {
            return true;
        }
    }
    false
}
