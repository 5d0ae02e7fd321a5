//! Want of memory, which every crate says in one way.
use std::alloc::{AllocError, AllocFailed};

/// There was no memory. A refused request for memory becomes it by `?`, also one that gives back what had no room.
#[derive(Clone, Copy, Debug, PartialEq, Eq)]
pub struct NoMemory;

impl From<AllocError> for NoMemory {
    fn from(_error: AllocError) -> NoMemory {
        NoMemory
    }
}

impl<T: Drop> From<AllocFailed<T>> for NoMemory {
    fn from(_error: AllocFailed<T>) -> NoMemory {
        NoMemory
    }
}
