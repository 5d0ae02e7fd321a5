//! Why a line could not be judged.

use std::alloc::AllocError;

/// Why a line could not be judged.
#[derive(Clone, Copy)]
pub enum Fault {
    /// It has none of the forms, or a number out of its range.
    Malformed,
    /// There was no memory.
    NoMemory(AllocError),
}

impl From<AllocError> for Fault {
    fn from(error: AllocError) -> Fault {
        Fault::NoMemory(error)
    }
}
