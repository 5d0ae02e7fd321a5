//! What an instruction that was executed tells.

use tx_control::Why;

/// What came of an instruction that went.
#[derive(Clone, Copy, PartialEq, Eq)]
pub enum Done {
    /// It is completed, outside transactions or inside one that goes on.
    Stepped,
    /// It is completed, outside transactions, and the program waits for so many turns, at least one.
    Paused(u32),
    /// It has begun an outermost transaction.
    Began,
    /// It has ended the outermost transaction, which has completed so many instructions, its begin and its
    /// end among them; all stores are in storage.
    Committed(u32),
    /// Outside transactions a program interruption came, with this code.
    Interrupted(u16),
    /// Inside a transaction a cause came by which it has to be aborted; nothing is aborted yet.
    Ended(Why),
}
