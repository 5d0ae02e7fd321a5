//! Why a case could not be run.

use std::alloc::AllocError;

/// Why a case could not be run.
#[derive(Clone, Copy)]
pub enum Fault {
    /// There was no memory.
    NoMemory,
    /// The input has another form, in these words.
    Wrong(&'static str),
}

impl From<AllocError> for Fault {
    fn from(_error: AllocError) -> Fault {
        Fault::NoMemory
    }
}
