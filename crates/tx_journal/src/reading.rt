//! Reading the lines of the history.
ghost use Rattle.std.specs.Prelude.{◌≡◌, ◌≢◌, ℕ, List, ◌++◌, codes, IfSome, IfNone, IsTrue, ◌↔◌};
ghost use Rattle.std.specs.Fmt.{decimal};
ghost use Rattle.std.specs.Int.{to_be_bytes};
ghost use mir.Syntax.{w64};
ghost use Rattle.hex.specs.Hex.{encode_lower};
ghost use Rattle.tx_journal.specs.declared.lines.Detail.{Detail};
ghost use Rattle.tx_journal.specs.declared.lines.Reason.{Reason};
ghost use Rattle.tx_journal.specs.declared.lines.Line.{Line};
ghost use Rattle.tx_journal.specs.Lines.{says_nothing, says_exception, says_line, IsLineAddress, HasDetail};
ghost use Rattle.tx_journal.specs.Lines.{IsReason, IsLine, detail_text, reason_text, words_text, line_text};
ghost use Rattle.tx_journal.specs.Lines.{Spells};

use crate::EntryText;
use crate::lines::{Detail, Line, Reason};
use crate::numbers::{first_number, first_small, read_doubleword, read_halfword, read_small};
use tx_control::abort_codes::{
    EXTERNAL_INTERRUPTION, FETCH_CONFLICT, FETCH_OVERFLOW, FILTERED_EXCEPTION, NESTING_DEPTH,
    PROGRAM_INTERRUPTION, RESTRICTED_INSTRUCTION, STARVED, STORE_CONFLICT, STORE_OVERFLOW,
};
use z_regs::STORAGE_SIZE;

/// The bytes of a line of storage.
const LINE_SIZE: u64 = 256;

/// Whether aborts of this code say no more.
fn says_nothing(code: u64) -> bool
    ensures { result ≡ says_nothing code }
{
    matches!(
        code,
        EXTERNAL_INTERRUPTION
            | FETCH_OVERFLOW
            | STORE_OVERFLOW
            | RESTRICTED_INSTRUCTION
            | NESTING_DEPTH
            | STARVED..
    )
}

/// Whether aborts of this code name an exception.
fn says_exception(code: u64) -> bool
    ensures { result ≡ says_exception code }
{
    matches!(code, PROGRAM_INTERRUPTION | FILTERED_EXCEPTION)
}

/// Whether aborts of this code name a line.
fn says_line(code: u64) -> bool
    ensures { result ≡ says_line code }
{
    matches!(code, FETCH_CONFLICT | STORE_CONFLICT)
}

/// Whether a line of storage begins at this address.
fn is_line_address(address: u64) -> bool
    ensures { IsTrue result ↔ IsLineAddress address }
{
    address < STORAGE_SIZE && address % LINE_SIZE == 0
}

/// The first address of a line in sixteen hexadecimal digits; None exactly where the text is none.
fn read_address(text: &[u8]) -> Option<u64>
    ensures some { IfSome result (λ a. text.now ≡ encode_lower (to_be_bytes w64 a)) }
    ensures within { IfSome result IsLineAddress }
    ensures none { IfNone result ((a : ℕ) → IsLineAddress a → text.now ≢ encode_lower (to_be_bytes w64 a)) }
{
    let address = read_doubleword(text)?;
    if !is_line_address(address) {
        return None;
    }
    Some(address)
}

/// The detail of an abort of this code; None exactly where the text is none.
fn read_detail(code: u64, text: &[u8]) -> Option<Detail>
    ensures some { IfSome result (λ d. HasDetail code d × (text.now ≡ detail_text d)) }
    ensures none { IfNone result ((d : Detail) → HasDetail code d → text.now ≢ detail_text d) }
{
    if says_exception(code) {
        return Some(Detail::Exception(read_halfword(text)?));
    }
    if says_line(code) {
        return Some(Detail::Line(read_address(text)?));
    }
    if !says_nothing(code) || text != b"-".as_slice() {
        return None;
    }
    Some(Detail::Nothing)
}

/// The cause of an abort; None exactly where the text is none.
fn read_reason(text: &[u8]) -> Option<Reason>
    ensures some { IfSome result (λ r. IsReason r × (text.now ≡ reason_text r)) }
    ensures none { IfNone result ((r : Reason) → IsReason r → text.now ≢ reason_text r) }
{
    let (code, rest) = first_number(text)?;
    let detail = read_detail(code, rest)?;
    Some(Reason { code, detail })
}

/// A commit, of which this stands behind the letter; None exactly where the text is none.
fn read_commit(text: &[u8]) -> Option<Line>
    ensures some { IfSome result (λ l. IsLine l × (codes "C " ++ text.now ≡ words_text l)) }
    ensures none { IfNone result ((l : Line) → IsLine l → codes "C " ++ text.now ≢ words_text l) }
{
    let (cpu, rest) = first_small(text)?;
    let count = read_small(rest)?;
    Some(Line::Commit(cpu, count))
}

/// An abort, of which this stands behind the letter; None exactly where the text is none.
fn read_abort(text: &[u8]) -> Option<Line>
    ensures some { IfSome result (λ l. IsLine l × (codes "A " ++ text.now ≡ words_text l)) }
    ensures none { IfNone result ((l : Line) → IsLine l → codes "A " ++ text.now ≢ words_text l) }
{
    let (cpu, rest) = first_small(text)?;
    let (count, rest) = first_small(rest)?;
    let reason = read_reason(rest)?;
    Some(Line::Abort(cpu, count, reason))
}

/// A line without its end; None exactly where the text is none.
fn read_words(text: &[u8]) -> Option<Line>
    ensures some { IfSome result (λ l. IsLine l × (text.now ≡ words_text l)) }
    ensures none { IfNone result ((l : Line) → IsLine l → text.now ≢ words_text l) }
{
    match text {
        [b'S', b' ', rest @ ..] => Some(Line::Step(read_small(rest)?)),
        [b'C', b' ', rest @ ..] => read_commit(rest),
        [b'A', b' ', rest @ ..] => read_abort(rest),
        [b'T', b' ', rest @ ..] => Some(Line::Tdb(read_small(rest)?)),
        [b'I', b' ', rest @ ..] => Some(Line::Interrupt(read_small(rest)?)),
        _ => None,
    }
}

/// The line that a text is, with its line feed; None exactly where it is none.
fn read_line(text: &[u8]) -> Option<Line>
    ensures some { IfSome result (λ l. IsLine l × (text.now ≡ line_text l)) }
    ensures none { IfNone result ((l : Line) → IsLine l → text.now ≢ line_text l) }
{
    let words = text.strip_suffix(b"\n")?;
    read_words(words)
}

/// What the line of an entry says. The text is one line with its line feed. None exactly where it is the line
/// of no entry: all numbers are without leading zeros and fit their fields, an abort has a code that aborts
/// have, and its detail is the one that this code has: nothing, four hexadecimal digits in lower case, or the
/// sixteen of a line's first address.
pub fn read_entry(text: &[u8]) -> Option<EntryText>
    ensures some { IfSome result (Spells text.now) }
    ensures none { IfNone result ((l : Line) → IsLine l → text.now ≢ line_text l) }
{
    let line = read_line(text)?;
    Some(line.fields())
}
