//! Lines spelled in words.
ghost use Rattle.std.specs.Prelude.{◌≡◌, ℕ, List, ◌++◌, ◌∷◌, ◌↔◌, IsTrue, IfSome, IfNone};
ghost use Rattle.tx_journal.specs.Numbers.{Lacks};
ghost use Rattle.report_form.specs.Spelling.{Spelled, stop_behind};

use crate::words::is_word;
use crate::{Name, Word};

/// What stands in front of the first byte that is this one, and behind it; None exactly where it is not there.
pub(crate) fn cut(text: &[u8], stop: u8) -> Option<(&[u8], &[u8])>
    ensures some { IfSome result (λ parts. text.now ≡ parts.0.now ++ stop ∷ parts.1.now) }
    ensures first { IfSome result (λ parts. Lacks stop parts.0.now) }
    ensures none { IfNone result (Lacks stop text.now) }
{
    let at = text.iter().position(|byte| *byte == stop)?;
    Some((&text[..at], &text[at + 1..]))
}

/// The byte behind a word: the line's end behind the last one, a comma between events, else a blank.
fn stop_behind(word: Word, others: &[Word]) -> u8
    ensures { result ≡ stop_behind word others.now }
{
    if others.is_empty() {
        return b'\n';
    }
    match word {
        Word::Event(_) => b',',
        _ => b' ',
    }
}

/// Whether a line is spelled in these words, and ends there.
pub(crate) fn is_spelled(words: &[Word], line: &[u8]) -> bool
    ensures { IsTrue result ↔ Spelled words.now line.now }
{
    let Some((word, others)) = words.split_first() else {
        return line.is_empty();
    };
    let Some((front, rest)) = cut(line, stop_behind(*word, others)) else {
        return false;
    };
    if !is_word(*word, front) {
        return false;
    }
    is_spelled(others, rest)
}
