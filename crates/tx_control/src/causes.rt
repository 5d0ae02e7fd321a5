//! Why a transaction aborts.
ghost use Rattle.std.specs.Prelude.{◌≡◌};

use crate::Exception;
use crate::abort_codes::{
    EXTERNAL_INTERRUPTION, FETCH_CONFLICT, FETCH_OVERFLOW, FILTERED_EXCEPTION, NESTING_DEPTH,
    PROGRAM_INTERRUPTION, RESTRICTED_INSTRUCTION, STARVED, STORE_CONFLICT, STORE_OVERFLOW,
};

/// The cause of an abort. A line is named by its number, its first address divided by 256. `==` says whether
/// two causes are the same.
#[derive(Clone, Copy, PartialEq, Eq)]
pub enum Why {
    /// An external interruption.
    External,
    /// A program exception that is not filtered, and interrupts the program.
    Program(Exception),
    /// Another CPU wants to store into this line, from which the transaction has fetched.
    FetchConflict(u32),
    /// Another CPU wants this line, into which the transaction has stored.
    StoreConflict(u32),
    /// The transaction has fetched from more lines than can be kept.
    FetchOverflow,
    /// The transaction has stored into more of storage than can be kept.
    StoreOverflow,
    /// An instruction that transactions do not allow.
    Restricted,
    /// A program exception that is filtered, and interrupts nothing.
    Filtered(Exception),
    /// A begin inside sixteen open ones.
    Depth,
    /// Other CPUs have rejected too many requests.
    Starved,
    /// TABORT, with its abort code.
    Tabort(u64),
}

impl Why {
    ghost use Rattle.tx_control.specs.Causes.{code_number};

    /// The abort code of the cause: one of `abort_codes` for what the machine finds, and for TABORT the code
    /// that it gives.
    pub fn code(self) -> u64
        ensures { result ≡ code_number self }
    {
        match self {
            Why::External => EXTERNAL_INTERRUPTION,
            Why::Program(_) => PROGRAM_INTERRUPTION,
            Why::FetchOverflow => FETCH_OVERFLOW,
            Why::StoreOverflow => STORE_OVERFLOW,
            Why::FetchConflict(_) => FETCH_CONFLICT,
            Why::StoreConflict(_) => STORE_CONFLICT,
            Why::Restricted => RESTRICTED_INSTRUCTION,
            Why::Filtered(_) => FILTERED_EXCEPTION,
            Why::Depth => NESTING_DEPTH,
            Why::Starved => STARVED,
            Why::Tabort(code) => code,
        }
    }
}
