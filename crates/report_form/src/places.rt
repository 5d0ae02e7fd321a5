//! A text as its lines, which are read one after the other.
ghost use Rattle.std.specs.Prelude.{◌≡◌, ◌<◌, ◌≤◌, ◌∷◌, IfSome, IfNone, length, take, drop};
ghost use Rattle.report_form.specs.Text.{lines_of, IsPlace, IsLineAt, IsNext};

use crate::spelling::cut;

/// Where a line of a text begins.
#[derive(Clone, Copy, Debug, PartialEq, Eq)]
pub struct Place {
    /// How many lines stand in front of it.
    pub line: usize,
    /// How many bytes these have.
    pub byte: usize,
}

/// A line of a text, with its line feed.
#[derive(Clone, Copy)]
pub struct Line<'a> {
    /// Its bytes.
    pub text: &'a [u8],
    /// The place of the line behind it.
    pub behind: Place,
}

/// The begin of a text.
pub fn start(text: &[u8]) -> Place
    ensures line { result.line ≡ 0 }
    ensures place { IsPlace text.now result }
{
    Place { line: 0, byte: 0 }
}

/// How many bytes the first line of a text has, with its line feed.
fn first_size(text: &[u8]) -> usize
    requires { 0 < length text.now }
    ensures some { 0 < result }
    ensures within { result ≤ length text.now }
    ensures cut { lines_of text.now ≡ take result text.now ∷ lines_of (drop result text.now) }
{
    let Some((front, rest)) = cut(text, b'\n') else {
        return text.len();
    };
    front.len() + 1
}

/// The line at a place, None exactly at the end of the text.
pub fn line_at(text: &[u8], at: Place) -> Option<Line<'_>>
    requires { IsPlace text.now at }
    ensures some { IfSome result (λ l. IsLineAt text.now at.line l.text.now) }
    ensures behind { IfSome result (λ l. IsNext text.now at l.behind) }
    ensures none { IfNone result (length (lines_of text.now) ≤ at.line) }
{
    if at.byte >= text.len() {
        return None;
    }
    let size = first_size(&text[at.byte..]);
    let end = at.byte + size;
    Some(Line {
        text: &text[at.byte..end],
        behind: Place {
            line: at.line + 1,
            byte: end,
        },
    })
}
