//! Lines against the rows that are due.
ghost use Rattle.std.specs.Prelude.{◌≡◌, ◌+◌, ◌∷◌, [], IfSome, IfNone, drop, replicate};
ghost use Rattle.report_form.specs.Lines.{rows_of, Fit, Finds};
ghost use Rattle.report_form.specs.Text.{lines_of, IsPlace, IsNext};

use crate::places::{Place, line_at};
use crate::rows::{Row, fits};

/// So many lines, one after the other, that tell the same.
#[derive(Clone, Copy, Debug, PartialEq, Eq)]
pub struct Part {
    /// What they tell.
    pub row: Row,
    /// How many they are.
    pub count: u64,
}

/// The place behind the line at a place, where there is one that tells what the row tells.
fn behind_row(row: Row, last: u32, text: &[u8], at: Place) -> Option<Place>
    requires { IsPlace text.now at }
    ensures some { IfSome result (λ behind. Fit last (row ∷ []) (drop at.line (lines_of text.now))) }
    ensures behind { IfSome result (λ behind. IsNext text.now at behind) }
    ensures none { IfNone result (¬ Fit last (row ∷ []) (drop at.line (lines_of text.now))) }
{
    let line = line_at(text, at)?;
    if !fits(row, last, line.text) {
        return None;
    }
    Some(line.behind)
}

/// The lines of one row from a place on: the place behind them, or the number of the first line, counted from 0, that
/// is missing or of another form.
fn follow_row(part: Part, last: u32, text: &[u8], at: Place) -> Result<Place, usize>
    requires { IsPlace text.now at }
    ensures { Finds last (replicate part.count part.row) text.now at.line result }
{
    let mut place = at;
    for _k in 0..part.count {
        let Some(behind) = behind_row(part.row, last, text, place) else {
            return Err(place.line);
        };
        place = behind;
    }
    Ok(place)
}

/// The lines of rows from a place on: the place behind them, or the number of the first line, counted from 0, that is
/// missing or of another form.
pub(crate) fn follow(parts: &[Part], last: u32, text: &[u8], at: Place) -> Result<Place, usize>
    requires { IsPlace text.now at }
    ensures { Finds last (rows_of parts.now) text.now at.line result }
{
    let mut place = at;
    for part in parts {
        match follow_row(*part, last, text, place) {
            Ok(behind) => place = behind,
            Err(fault) => return Err(fault),
        }
    }
    Ok(place)
}
