//! What is counted of a CPU.

/// What is counted of one CPU.
#[derive(Clone, Copy, Debug, PartialEq, Eq)]
pub struct Counts {
    /// Its counted turns.
    pub turns: u32,
    /// Its questions to holders of lines.
    pub asked: u64,
    /// Those of them that were answered by a reject.
    pub rejected: u64,
    /// Its transactions that have committed.
    pub commits: u32,
    /// Its attempts that were aborted.
    pub aborts: u32,
}
