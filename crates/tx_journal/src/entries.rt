//! The entries of the serial history.

use tx_control::Why;

/// An entry of the serial history: what one CPU, by its number, did in one step. `==` says whether two
/// entries are the same.
#[derive(Clone, Copy, PartialEq, Eq)]
pub enum Entry {
    /// One instruction outside transactions, an interrupted one included.
    Step(u32),
    /// A transaction was committed: the CPU, and its completed instructions, the outermost begin and the last
    /// TEND included.
    Commit(u32, u32),
    /// A transaction was aborted: the CPU, the instructions that it had completed, the begin included, and
    /// the cause.
    Abort(u32, u32, Why),
    /// A transaction diagnostic block was stored.
    Tdb(u32),
    /// A waiting program interruption was taken.
    Interrupt(u32),
}

/// What the text of an entry says, in numbers.
#[derive(Clone, Copy, Debug, PartialEq, Eq)]
pub struct EntryText {
    /// The first letter of the line: S for a step, C for a commit, A for an abort, T for a diagnostic block,
    /// I for an interruption.
    pub kind: u8,
    /// The number of the CPU.
    pub cpu: u32,
    /// The completed instructions of a transaction, else 0.
    pub count: u32,
    /// The abort code, else 0.
    pub code: u64,
    /// The code of the exception or the first address of the line that an abort's text names, else 0.
    pub detail: u64,
}
