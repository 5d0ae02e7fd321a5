//! The lines of the history, in their parts.
ghost use Rattle.std.specs.Prelude.{◌≡◌};
ghost use Rattle.tx_journal.specs.Lines.{line_of, detail_of, fields_of, kind_and_cpu, detail_value};

use crate::{Entry, EntryText};
use tx_control::Why;

/// What the text of an abort says more of its cause than the abort code.
#[derive(Clone, Copy)]
pub(crate) enum Detail {
    /// Nothing.
    Nothing,
    /// The interruption code of a program exception.
    Exception(u16),
    /// The first address of the line that two CPUs wanted.
    Line(u64),
}

/// The cause of an abort as its text gives it: the abort code and the detail.
#[derive(Clone, Copy)]
pub(crate) struct Reason {
    /// The abort code.
    pub code: u64,
    /// What is said beside it.
    pub detail: Detail,
}

/// A line of the history in its parts: its kind, the CPU, completed instructions, and the cause of an abort.
#[derive(Clone, Copy)]
pub(crate) enum Line {
    /// One instruction of the CPU.
    Step(u32),
    /// A commit.
    Commit(u32, u32),
    /// An abort.
    Abort(u32, u32, Reason),
    /// The CPU's diagnostic block is stored.
    Tdb(u32),
    /// The CPU's waiting interruption is taken.
    Interrupt(u32),
}

impl Detail {
    /// What the text of an abort says of this cause: the code of an exception, without the bit that marks an
    /// aborted transaction, or the first address of a line.
    pub(crate) fn of(why: Why) -> Detail
        ensures { result ≡ detail_of why }
    {
        match why {
            Why::Program(e) | Why::Filtered(e) => Detail::Exception(e.code),
            Why::FetchConflict(line) | Why::StoreConflict(line) => {
                Detail::Line(u64::from(line) * 256)
            }
            _ => Detail::Nothing,
        }
    }

    /// The number that is said, 0 where none is.
    pub(crate) fn value(self) -> u64
        ensures { result ≡ detail_value self }
    {
        match self {
            Detail::Nothing => 0,
            Detail::Exception(code) => u64::from(code),
            Detail::Line(address) => address,
        }
    }
}

impl Line {
    /// The line of an entry.
    pub(crate) fn of(entry: &Entry) -> Line
        ensures { result ≡ line_of entry.now }
    {
        match *entry {
            Entry::Step(cpu) => Line::Step(cpu),
            Entry::Commit(cpu, count) => Line::Commit(cpu, count),
            Entry::Abort(cpu, count, why) => Line::Abort(
                cpu,
                count,
                Reason {
                    code: why.code(),
                    detail: Detail::of(why),
                },
            ),
            Entry::Tdb(cpu) => Line::Tdb(cpu),
            Entry::Interrupt(cpu) => Line::Interrupt(cpu),
        }
    }

    /// The line in numbers; what it does not say is 0.
    pub(crate) fn fields(self) -> EntryText
        ensures { result ≡ fields_of self }
    {
        match self {
            Line::Step(cpu) => fields_of_one(b'S', cpu),
            Line::Commit(cpu, count) => EntryText {
                kind: b'C',
                cpu,
                count,
                code: 0,
                detail: 0,
            },
            Line::Abort(cpu, count, reason) => EntryText {
                kind: b'A',
                cpu,
                count,
                code: reason.code,
                detail: reason.detail.value(),
            },
            Line::Tdb(cpu) => fields_of_one(b'T', cpu),
            Line::Interrupt(cpu) => fields_of_one(b'I', cpu),
        }
    }
}

/// A line that says its kind and its CPU, in numbers.
fn fields_of_one(kind: u8, cpu: u32) -> EntryText
    ensures { result ≡ kind_and_cpu kind cpu }
{
    EntryText {
        kind,
        cpu,
        count: 0,
        code: 0,
        detail: 0,
    }
}
