//! Why the input could not be answered.

use std::alloc::AllocError;

/// Why the input could not be answered.
#[derive(Clone, Copy)]
pub enum Fault {
    /// There was no memory.
    NoMemory,
    /// It has another form, in these words.
    Wrong(&'static str),
}

impl From<AllocError> for Fault {
    fn from(_error: AllocError) -> Fault {
        Fault::NoMemory
    }
}
