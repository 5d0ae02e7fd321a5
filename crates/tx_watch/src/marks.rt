//! What a picture shows, as data. Columns are counted from 0, a turn in each.
ghost use Rattle.std.specs.Prelude.{◌≡◌, []};

use std::alloc::Global;
use tx_journal::Entry;
use tx_meaning::Outcome;
use z_instr::instr::Instr;

/// What a turn is about.
#[derive(Clone, Copy)]
pub enum Deed {
    /// The instruction at an address; None where no text stands there.
    Instruction(u64, Option<Instr>),
    /// The diagnostic block that is stored at a real address.
    Block(u64),
    /// The program interruption of this code, which is taken.
    Interruption(u16),
    /// An interruption from outside.
    External,
    /// A turn that the CPU waits.
    Wait,
}

/// A turn, or an interruption from outside.
#[derive(Clone, Copy)]
pub struct Mark {
    /// Its number among all that are recorded, from 1 on.
    pub turn: u64,
    /// Its column.
    pub column: u32,
    /// The CPU.
    pub cpu: u32,
    /// What it is about.
    pub deed: Deed,
    /// What it has come to.
    pub outcome: Outcome,
}

/// An entry of the history, in the column of the turn that made it.
#[derive(Clone, Copy)]
pub struct Placed {
    /// Its number in the history, from 1 on.
    pub number: u64,
    /// Its column.
    pub column: u32,
    /// How many entries of the same turn stand above it.
    pub row: u32,
    /// The entry.
    pub entry: Entry,
}

/// How an attempt ends.
#[derive(Clone, Copy)]
pub enum End {
    /// Not in this picture.
    Open,
    /// By a commit in this column.
    Commit(u32),
    /// By an abort in this column, with its code.
    Abort(u32, u64),
}

/// An attempt of a CPU.
#[derive(Clone, Copy)]
pub struct Attempt {
    /// The CPU.
    pub cpu: u32,
    /// The column of its begin; None where that is before the picture.
    pub begin: Option<u32>,
    /// How it ends.
    pub end: End,
}

/// What a holder answers to a request for its line.
#[derive(Clone, Copy)]
pub enum Answer {
    /// A reject.
    Rejects,
    /// It gives the line up, and its attempt is aborted.
    Aborts,
}

/// A question to a holder of a line that is rejected, or that aborts the holder.
#[derive(Clone, Copy)]
pub struct Arrow {
    /// The column.
    pub column: u32,
    /// The CPU that asks.
    pub asker: u32,
    /// The CPU that is asked.
    pub holder: u32,
    /// The line.
    pub line: u32,
    /// What comes of it.
    pub answer: Answer,
}

/// The recorded turns of a window, and what came of them.
#[derive(Drop)]
pub struct Picture {
    /// How many CPUs there are.
    pub cpus: u32,
    /// The turns, one in each column.
    pub marks: Vec<Mark>,
    /// The entries that they made.
    pub entries: Vec<Placed>,
    /// The attempts that are live in the window.
    pub attempts: Vec<Attempt>,
    /// The questions.
    pub arrows: Vec<Arrow>,
}

impl Picture {
    /// Nothing as yet, of so many CPUs.
    pub fn blank(alloc: Global, cpus: u32) -> Picture
        ensures marks { result.marks.items ≡ [] }
        ensures entries { result.entries.items ≡ [] }
    {
        Picture {
            cpus,
            marks: Vec::new(alloc),
            entries: Vec::new(alloc),
            attempts: Vec::new(alloc),
            arrows: Vec::new(alloc),
        }
    }
}
