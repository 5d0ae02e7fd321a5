//! The rows of a report.
ghost use Rattle.std.specs.Prelude.{◌↔◌, ◌⊎◌, IsTrue, min};
ghost use Rattle.report_form.specs.Rows.{IsRow, IsEntryLine, Either, events_words};
ghost use Rattle.report_form.specs.Spelling.{Spelled};

use crate::spelling::is_spelled;
use crate::steps::step_cpu;
use crate::words::{Name, Word};
use tx_journal::read_entry;

/// What a line of a report tells, by its place there.
#[derive(Clone, Copy, Debug, PartialEq, Eq)]
pub enum Row {
    /// What the text is.
    Title,
    /// The status of the run.
    Status,
    /// What a CPU does.
    State,
    /// Its address, its condition code and its program mask.
    Psw,
    /// Four general registers behind the number of the first.
    General(Name),
    /// Eight access registers behind the number of the first.
    Access(Name),
    /// Its live attempt, or that there is none.
    Attempt,
    /// The address of the block that it has still to store, or that there is none.
    Pending,
    /// What has been counted of it.
    Counts,
    /// Bytes of storage in so many digits.
    Bytes(u32),
    /// The fields of a diagnostic block.
    Block,
    /// An entry of the history.
    Entry,
    /// So many of the recorded events, 16 at most.
    Events(u32),
    /// The end.
    End,
}

/// The most instructions that an entry or a live attempt can tell.
const MOST_COMPLETED: u64 = 200_000;

/// Whether a line is that of an entry, of a CPU that is there, with no more instructions than there can be.
fn is_entry(last: u32, line: &[u8]) -> bool
    ensures { IsTrue result ↔ IsEntryLine last line.now }
{
    if let Some(cpu) = step_cpu(line) {
        return cpu <= last;
    }
    let Some(entry) = read_entry(line) else {
        return false;
    };
    if last < entry.cpu {
        return false;
    }
    u64::from(entry.count) <= MOST_COMPLETED
}

/// Whether a line is spelled in the one way or in the other.
fn is_either(one: &[Word], other: &[Word], line: &[u8]) -> bool
    ensures { IsTrue result ↔ Either one.now other.now line.now }
{
    if is_spelled(one, line) {
        return true;
    }
    is_spelled(other, line)
}

/// Whether a line is spelled in one of three ways.
fn is_any(one: &[Word], other: &[Word], third: &[Word], line: &[u8]) -> bool
    ensures { IsTrue result ↔ (Spelled one.now line.now ⊎ Either other.now third.now line.now) }
{
    if is_spelled(one, line) {
        return true;
    }
    is_either(other, third, line)
}

/// Whether a line gives the status.
#[tactic(auto, unfolding(crate::specs::Rows::IsRow))]
fn is_status(last: u32, line: &[u8]) -> bool
    ensures { IsTrue result ↔ IsRow last Row.Status line.now }
{
    is_either(
        &[Word::Fixed(Name::Status), Word::Fixed(Name::Zero)],
        &[Word::Fixed(Name::Status), Word::Fixed(Name::Six)],
        line,
    )
}

/// Whether a line says what a CPU does.
#[tactic(auto, unfolding(crate::specs::Rows::IsRow))]
fn is_state(last: u32, line: &[u8]) -> bool
    ensures { IsTrue result ↔ IsRow last Row.State line.now }
{
    let cpu = Word::AtMost(u64::from(last));
    is_any(
        &[Word::Fixed(Name::Cpu), cpu, Word::Fixed(Name::Halted)],
        &[Word::Fixed(Name::Cpu), cpu, Word::Fixed(Name::Running)],
        &[
            Word::Fixed(Name::Cpu),
            cpu,
            Word::Fixed(Name::Interrupted),
            Word::Digits(4),
        ],
        line,
    )
}

/// Whether a line is that of a live attempt, or of none.
#[tactic(auto, unfolding(crate::specs::Rows::IsRow))]
fn is_attempt(last: u32, line: &[u8]) -> bool
    ensures { IsTrue result ↔ IsRow last Row.Attempt line.now }
{
    is_either(
        &[Word::Fixed(Name::Transaction), Word::Fixed(Name::Nothing)],
        &[
            Word::Fixed(Name::Transaction),
            Word::Fixed(Name::Depth),
            Word::AtMost(u64::MAX),
            Word::Fixed(Name::Completed),
            Word::AtMost(MOST_COMPLETED),
        ],
        line,
    )
}

/// Whether a line is that of a block that is pending, or of none.
#[tactic(auto, unfolding(crate::specs::Rows::IsRow))]
fn is_pending(last: u32, line: &[u8]) -> bool
    ensures { IsTrue result ↔ IsRow last Row.Pending line.now }
{
    is_either(
        &[Word::Fixed(Name::Pending), Word::Fixed(Name::Nothing)],
        &[Word::Fixed(Name::Pending), Word::Digits(16)],
        line,
    )
}

/// Whether a line gives what has been counted of a CPU.
#[tactic(auto, unfolding(crate::specs::Rows::IsRow))]
fn is_counts(last: u32, line: &[u8]) -> bool
    ensures { IsTrue result ↔ IsRow last Row.Counts line.now }
{
    is_spelled(
        &[
            Word::Fixed(Name::Counts),
            Word::Fixed(Name::Turns),
            Word::AtMost(u64::MAX),
            Word::Fixed(Name::Asked),
            Word::AtMost(u64::MAX),
            Word::Fixed(Name::Rejected),
            Word::AtMost(u64::MAX),
            Word::Fixed(Name::Commits),
            Word::AtMost(u64::MAX),
            Word::Fixed(Name::Aborts),
            Word::AtMost(u64::MAX),
        ],
        line,
    )
}

/// Whether a line gives the fields of a diagnostic block.
#[tactic(auto, unfolding(crate::specs::Rows::IsRow))]
fn is_block(last: u32, line: &[u8]) -> bool
    ensures { IsTrue result ↔ IsRow last Row.Block line.now }
{
    is_spelled(
        &[
            Word::Fixed(Name::Block),
            Word::Digits(8),
            Word::Fixed(Name::Format),
            Word::AtMost(u64::MAX),
            Word::Fixed(Name::Flags),
            Word::Digits(2),
            Word::Fixed(Name::Depth),
            Word::AtMost(u64::MAX),
            Word::Fixed(Name::Code),
            Word::AtMost(u64::MAX),
            Word::Fixed(Name::Token),
            Word::Digits(16),
            Word::Fixed(Name::At),
            Word::Digits(16),
            Word::Fixed(Name::Interruption),
            Word::Digits(4),
        ],
        line,
    )
}

/// Whether a line gives so many events.
fn is_events(last: u32, count: u32, line: &[u8]) -> bool
    ensures { IsTrue result ↔ Spelled (events_words last (min count 16)) line.now }
{
    let mut words = [Word::Event(last); 18];
    words[0] = Word::Fixed(Name::Empty);
    words[1] = Word::Fixed(Name::Sched);
    is_spelled(&words[..count.min(16) as usize + 2], line)
}

/// Whether a line tells what the row tells. The last CPU has this number.
#[tactic(auto, unfolding(crate::specs::Rows::IsRow))]
pub fn fits(row: Row, last: u32, line: &[u8]) -> bool
    ensures { IsTrue result ↔ IsRow last row line.now }
{
    match row {
        Row::Title => is_spelled(&[Word::Fixed(Name::Ztx), Word::Fixed(Name::Report)], line),
        Row::Status => is_status(last, line),
        Row::State => is_state(last, line),
        Row::Psw => is_spelled(
            &[
                Word::Fixed(Name::Psw),
                Word::Digits(16),
                Word::Fixed(Name::Condition),
                Word::AtMost(u64::MAX),
                Word::Fixed(Name::Mask),
                Word::Digits(1),
            ],
            line,
        ),
        Row::General(first) => is_spelled(
            &[
                Word::Fixed(Name::General),
                Word::Fixed(first),
                Word::Digits(16),
                Word::Digits(16),
                Word::Digits(16),
                Word::Digits(16),
            ],
            line,
        ),
        Row::Access(first) => is_spelled(
            &[
                Word::Fixed(Name::Access),
                Word::Fixed(first),
                Word::Digits(8),
                Word::Digits(8),
                Word::Digits(8),
                Word::Digits(8),
                Word::Digits(8),
                Word::Digits(8),
                Word::Digits(8),
                Word::Digits(8),
            ],
            line,
        ),
        Row::Attempt => is_attempt(last, line),
        Row::Pending => is_pending(last, line),
        Row::Counts => is_counts(last, line),
        Row::Bytes(digits) => is_spelled(
            &[
                Word::Fixed(Name::Bytes),
                Word::Digits(8),
                Word::Digits(digits),
            ],
            line,
        ),
        Row::Block => is_block(last, line),
        Row::Entry => is_entry(last, line),
        Row::Events(count) => is_events(last, count, line),
        Row::End => is_spelled(&[Word::Fixed(Name::End)], line),
    }
}
