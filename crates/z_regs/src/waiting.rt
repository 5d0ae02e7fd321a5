//! A program interruption that a CPU with a prefix has still to take.

/// What a waiting interruption will store beside the program status word.
#[derive(Clone, Copy, Debug, PartialEq, Eq)]
pub struct Waiting {
    /// The length of the instruction in bytes; 0 where the exception came at its fetch.
    pub length: u8,
    /// The diagnostic block, where the interruption has aborted a transaction.
    pub block: Option<[u8; 256]>,
}
