//! What a report tells of a CPU.

use z_regs::CpuImage;

/// The live attempt of a transaction.
#[derive(Clone, Copy, Debug, PartialEq, Eq)]
pub struct Attempt {
    /// The nesting depth.
    pub depth: u32,
    /// The instructions that it has completed.
    pub completed: u32,
}

/// What has been counted of a CPU.
#[derive(Clone, Copy, Debug, PartialEq, Eq)]
pub struct Counts {
    /// Its counted turns.
    pub turns: u32,
    /// The interrogates that it has asked.
    pub asked: u64,
    /// Those of them that were answered by a reject.
    pub rejected: u64,
    /// The transactions that it has committed.
    pub commits: u32,
    /// The attempts that were aborted.
    pub aborts: u32,
}

/// A CPU as a report tells of it.
#[derive(Clone, Copy, Debug)]
pub struct Processor {
    /// Its registers and its state, which is interrupted while an interruption waits to be taken.
    pub image: CpuImage,
    /// Its live attempt.
    pub attempt: Option<Attempt>,
    /// The real address of the diagnostic block that it has still to store.
    pub pending: Option<u64>,
    /// What has been counted.
    pub counts: Counts,
    /// Whether the CPU is finished.
    pub finished: bool,
}
