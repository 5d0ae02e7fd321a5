//! Who asks for a line, and what its holder answers.

use tx_control::Why;

/// What the holder of a line answers.
#[derive(Clone, Copy, PartialEq, Eq)]
pub enum Answer {
    /// It gives the line up, or for a shared request keeps it in shared mode.
    Yields,
    /// It keeps the line as it is, and the asker has to ask again.
    Rejects,
    /// Its attempt is aborted for this cause, and then it yields.
    Aborts(Why),
}

/// Who asks.
#[derive(Clone, Copy, Debug, PartialEq, Eq)]
pub struct Asker {
    /// It is the head of the stop queue.
    pub head: bool,
    /// It has a live attempt that is late.
    pub late: bool,
}
