//! Program exceptions, their classes, and which of them a transaction filters.
ghost use Rattle.std.specs.Prelude.{◌≡◌};
ghost use Rattle.tx_control.specs.Filtering.{class, filters};

use crate::codes::{
    ADDRESSING, FIXED_POINT_DIVIDE, FIXED_POINT_OVERFLOW, PROTECTION, SPECIAL_OPERATION,
    SPECIFICATION,
};

/// A program exception that an instruction has met.
#[derive(Clone, Copy, Debug, PartialEq, Eq)]
pub struct Exception {
    /// The interruption code, one of those in `codes`, without the bit that marks an aborted transaction.
    pub code: u16,
    /// Whether it came as the instruction was fetched.
    pub fetch: bool,
    /// The length of the instruction in bytes: 2, 4 or 6, and 0 for an exception at the fetch.
    pub length: u8,
}

/// The class of an exception in a transaction, 1 to 3. Class 1 is never filtered.
///
/// Protection, addressing and specification are in class 1 at the fetch of an instruction, and else in
/// class 2. A code that no exception has counts as class 1.
pub fn class_of(e: Exception) -> u8
    ensures { result ≡ class e.code e.fetch }
{
    match e.code {
        FIXED_POINT_OVERFLOW | FIXED_POINT_DIVIDE => 3,
        SPECIAL_OPERATION => 2,
        PROTECTION | ADDRESSING | SPECIFICATION if !e.fetch => 2,
        _ => 1,
    }
}

/// Whether exceptions of a class are filtered under a program-interruption-filtering control: 1 filters
/// class 3, 2 filters classes 2 and 3, and no other value filters anything.
pub fn is_filtered(class: u8, pifc: u8) -> bool
    ensures { result ≡ filters pifc class }
{
    match pifc {
        1 => class == 3,
        2 => class == 2 || class == 3,
        _ => false,
    }
}
