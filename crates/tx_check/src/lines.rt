//! Texts line by line, and where two texts first differ.
ghost use Rattle.std.specs.Prelude.{◌≡◌, ◌≤◌, ◌+◌, ◌++◌, [], IfOk, IfSome, IfNone, IsTrue, ◌↔◌, length, drop, get_or};
ghost use Rattle.report_form.specs.Text.{IsPlace};
ghost use Rattle.tx_check.specs.Lines.{lines_of, FirstDifference};
ghost use Rattle.tx_check.specs.Sound.{joined};

use report_form::{Place, line_at, start};
use std::alloc::AllocError;

/// The line with this number, counted from 0; no byte where the text has ended before.
pub(crate) fn nth_line(text: &[u8], number: usize) -> &[u8]
    ensures { get_or (lines_of text.now) number [] ≡ result.now }
{
    let mut place = start(text);
    for _k in 0..number {
        let Some(line) = line_at(text, place) else {
            return &text[..0];
        };
        place = line.behind;
    }
    match line_at(text, place) {
        Some(line) => line.text,
        None => &text[..0],
    }
}

/// Whether two texts are the same.
fn is_same(one: &[u8], other: &[u8]) -> bool
    ensures { IsTrue result ↔ (one.now ≡ other.now) }
{
    one == other
}

/// The number, counted from 0, of the first line at which a text differs from another; None exactly where they have the
/// same lines.
fn first_difference(some: &[u8], other: &[u8]) -> Option<usize>
    ensures some { IfSome result (λ k. FirstDifference (lines_of some.now) (lines_of other.now) (k + 1)) }
    ensures within { IfSome result (λ k. k ≤ length some.now) }
    ensures none { IfNone result (lines_of some.now ≡ lines_of other.now) }
{
    let mut place = start(some);
    let mut there = start(other);
    while place.byte < some.len() {
        let Some(line) = line_at(some, place) else {
            unreachable!();
        };
        let Some(due) = line_at(other, there) else {
            return Some(place.line);
        };
        if !is_same(line.text, due.text) {
            return Some(place.line);
        }
        place = line.behind;
        there = due.behind;
    }
    if there.byte < other.len() {
        return Some(place.line);
    }
    None
}

/// The number, counted from 0, of the first line at which a report differs from another text: that has the same lines
/// from a place on, and before them those of `state`. None exactly where they have the same lines; then what stands
/// behind `state` is not gone over.
pub(crate) fn first_unexpected(
    report: &[u8],
    place: Place,
    state: Vec<u8>,
) -> Result<Option<usize>, AllocError>
    requires { IsPlace report.now place }
    ensures some { IfOk result (λ o. IfSome o (λ k. FirstDifference (lines_of report.now)
        (lines_of (state.items ++ joined (drop place.line (lines_of report.now)))) (k + 1))) }
    ensures within { IfOk result (λ o. IfSome o (λ k. k ≤ length report.now)) }
    ensures none { IfOk result (λ o. IfNone o (lines_of report.now
        ≡ lines_of (state.items ++ joined (drop place.line (lines_of report.now))))) }
{
    if is_same(&report[..place.byte], &state) {
        return Ok(None);
    }
    let mut text = state;
    text.extend_from_slice(&report[place.byte..])?;
    Ok(first_difference(report, &text))
}
