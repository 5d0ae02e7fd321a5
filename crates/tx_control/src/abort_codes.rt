//! The transaction abort codes that the machine gives by itself. TABORT gives codes above the greatest of
//! these.

/// An external interruption.
pub const EXTERNAL_INTERRUPTION: u64 = 2;
/// A program interruption.
pub const PROGRAM_INTERRUPTION: u64 = 4;
/// More lines fetched than can be kept.
pub const FETCH_OVERFLOW: u64 = 7;
/// More of storage stored into than can be kept.
pub const STORE_OVERFLOW: u64 = 8;
/// Another CPU stores into a line that was fetched.
pub const FETCH_CONFLICT: u64 = 9;
/// Another CPU accesses a line that was stored into.
pub const STORE_CONFLICT: u64 = 10;
/// An instruction that transactions do not allow.
pub const RESTRICTED_INSTRUCTION: u64 = 11;
/// A program exception that is filtered.
pub const FILTERED_EXCEPTION: u64 = 12;
/// A begin at the greatest nesting depth.
pub const NESTING_DEPTH: u64 = 13;
/// Too many requests rejected. The greatest code of the machine's own.
pub const STARVED: u64 = 255;
