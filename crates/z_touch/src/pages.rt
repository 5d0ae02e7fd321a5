//! Whether ranges are accessible, and whether they may be stored into.
ghost use Rattle.std.specs.Prelude.{◌≡◌, ◌+◌, ◌-◌, ◌/◌, IsTrue, nat_eq, All, map};
ghost use Rattle.std.specs.List.{list_any, list_all};
ghost use Rattle.std.specs.FinSet.{items};
ghost use Rattle.z_regs.specs.Prefix.{is_prefix};
ghost use Rattle.z_instr.specs.Operands.{IsSmall, is_inside, is_stored_into};
ghost use Rattle.z_instr.specs.Access.{accessible_pages, text_pages};
ghost use Rattle.z_touch.specs.Refusals.{span_of, unreachable};

use tx_control::codes::{ADDRESSING, PROTECTION};
use z_regs::{Guard, PAGES, Range, Touches, place_of};

/// How many bytes a page has.
pub const PAGE: u64 = 4096;

/// The page of the last byte of a range.
fn last_page(range: Range) -> u64
    requires { IsSmall (span_of range) }
    ensures { result ≡ (range.first + range.length - 1) / 4096 }
{
    range.first / PAGE + (range.first % PAGE + u64::from(range.length) - 1) / PAGE
}

/// Whether a CPU with this prefix may use a page.
pub fn is_accessible(page: u64, prefix: Option<u32>) -> bool
    ensures { result ≡ list_any (nat_eq page) (accessible_pages prefix) }
{
    match prefix {
        Some(_) => page < 256,
        None => page >= 2 && page < 256,
    }
}

/// Whether a page is a text page for a CPU with this prefix.
pub fn is_text(page: u64, prefix: Option<u32>, guard: &Guard) -> bool
    requires { IsTrue (is_prefix prefix) }
    ensures { result ≡ list_any (nat_eq page) (text_pages prefix (items guard.now)) }
{
    page < PAGES as u64 && guard.has((place_of(prefix, page * PAGE) / PAGE) as u32)
}

/// Whether all bytes of a range are accessible.
fn is_range_inside(range: Range, prefix: Option<u32>) -> bool
    requires { IsSmall (span_of range) }
    ensures { result ≡ is_inside (accessible_pages prefix) (span_of range) }
{
    is_accessible(range.first / PAGE, prefix) && is_accessible(last_page(range), prefix)
}

/// Whether a range is stored and has a byte in a text page.
fn is_range_protected(range: Range, prefix: Option<u32>, guard: &Guard) -> bool
    requires small { IsSmall (span_of range) }
    requires prefix_in { IsTrue (is_prefix prefix) }
    ensures { result ≡ is_stored_into (text_pages prefix (items guard.now)) (span_of range) }
{
    range.store
        && (is_text(range.first / PAGE, prefix, guard) || is_text(last_page(range), prefix, guard))
}

fn are_inside(ranges: &Touches, prefix: Option<u32>) -> bool
    requires { All (λ r. IsSmall (span_of r)) ranges.now }
    ensures { result ≡ list_all (λ r. is_inside (accessible_pages prefix) (span_of r)) ranges.now }
{
    for i in 0..ranges.count() {
        if !is_range_inside(ranges.at(i), prefix) {
            return false;
        }
    }
    true
}

fn is_one_protected(ranges: &Touches, prefix: Option<u32>, guard: &Guard) -> bool
    requires small { All (λ r. IsSmall (span_of r)) ranges.now }
    requires prefix_in { IsTrue (is_prefix prefix) }
    ensures { result ≡
        list_any (λ r. is_stored_into (text_pages prefix (items guard.now)) (span_of r)) ranges.now }
{
    for i in 0..ranges.count() {
        if is_range_protected(ranges.at(i), prefix, guard) {
            return true;
        }
    }
    false
}

/// The code of the exception that ranges meet on a CPU with this prefix: addressing for all of them comes
/// before protection for any, and both before what comes after.
pub fn forbidden(
    ranges: &Touches,
    prefix: Option<u32>,
    guard: &Guard,
    after: Option<u16>,
) -> Option<u16>
    requires small { All (λ r. IsSmall (span_of r)) ranges.now }
    requires prefix_in { IsTrue (is_prefix prefix) }
    ensures { result ≡
        unreachable (map span_of ranges.now) (accessible_pages prefix)
        (text_pages prefix (items guard.now)) after }
{
    if !are_inside(ranges, prefix) {
        Some(ADDRESSING)
    } else if is_one_protected(ranges, prefix, guard) {
        Some(PROTECTION)
    } else {
        after
    }
}
