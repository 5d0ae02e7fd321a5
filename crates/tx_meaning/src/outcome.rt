//! What comes of an event.

/// What an event has come to, for its CPU. Aborts of other CPUs show in the history alone.
#[derive(Clone, Copy, Debug, PartialEq, Eq)]
pub enum Outcome {
    /// An instruction is completed, a diagnostic block is stored, or an interruption is taken.
    Executed,
    /// A request for a line was rejected, and nothing was done.
    Rejected {
        /// The holder that rejected it.
        by: u32,
        /// The line.
        line: u32,
    },
    /// The attempt of this CPU was aborted, and its program runs on.
    Aborted {
        /// The abort code.
        code: u64,
    },
    /// A program interruption came.
    Interrupted {
        /// The interruption code.
        code: u16,
    },
    /// An external interruption came, and met no attempt.
    External,
    /// A turn was waited for.
    Delayed,
    /// The turn is idle: the CPU waits in the stop queue behind its head.
    Queued,
    /// The turn is idle: the stop queue is not empty, and the CPU is not in it.
    Stopped,
    /// The turn is idle: the CPU is finished.
    Halted,
    /// The turn is idle: the CPU has had all its turns.
    Spent,
}
