//! What a CPU asks for, and how it is refused.

use line_table::Mode;

/// A line of storage that a turn needs, and how it has to be held.
#[derive(Clone, Copy, Debug, PartialEq, Eq)]
pub struct Need {
    /// The line.
    pub line: u32,
    /// Exclusive where a byte of it is stored, else shared.
    pub mode: Mode,
}

/// A request for a line that a holder rejected.
#[derive(Clone, Copy, Debug, PartialEq, Eq)]
pub struct Reject {
    /// The holder.
    pub by: u32,
    /// The line.
    pub line: u32,
}
