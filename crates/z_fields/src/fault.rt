//! What is wrong with a line.
ghost use Rattle.std.specs.Prelude.{◌≡◌};
ghost use Rattle.z_fields.specs.declared.fault.LineFault.TheVariants.{Memory, Failed};
ghost use Rattle.z_fields.specs.Kinds.{number_of, line_fault};

use std::alloc::{AllocError, AllocFailed};
use z_text::{NoMemory, TextFault};

/// What is wrong with a line, or with the whole text.
#[derive(Clone, Copy, Debug, PartialEq, Eq)]
pub enum Kind {
    /// The text has more than 16,777,216 bytes.
    ListingTooLong,
    /// The text has more than 262,144 lines.
    TooManyLines,
    /// A malformed label or operation, a label alone, or operands that are not made of tokens.
    BadToken,
    /// A number that is malformed or does not fit 64 bits.
    BadNumber,
    /// The line has more than 120 bytes.
    LineTooLong,
    /// The operation is neither an instruction nor a directive.
    UnknownMnemonic,
    /// The operands of an instruction do not have its form.
    WrongOperands,
    /// A value or a place is outside its range, or there is one thing more than there may be.
    OutOfRange,
    /// An expression has a label that has no value.
    UnknownLabel,
    /// A label is defined twice.
    DoubleLabel,
    /// A byte is placed twice.
    Overlap,
    /// A directive's operands do not have its form, a label is missing or not allowed, or a line follows the
    /// end.
    BadDirective,
    /// There is no CPU.
    NoCpu,
    /// A schedule is malformed or too long, or names a CPU that is not there.
    BadSchedule,
}

impl Kind {
    /// The number of the kind, 1 to 14.
    pub fn number(self) -> u8
        ensures { result ≡ number_of self }
    {
        match self {
            Kind::ListingTooLong => 1,
            Kind::TooManyLines => 2,
            Kind::BadToken => 3,
            Kind::BadNumber => 4,
            Kind::LineTooLong => 5,
            Kind::UnknownMnemonic => 6,
            Kind::WrongOperands => 7,
            Kind::OutOfRange => 8,
            Kind::UnknownLabel => 9,
            Kind::DoubleLabel => 10,
            Kind::Overlap => 11,
            Kind::BadDirective => 12,
            Kind::NoCpu => 13,
            Kind::BadSchedule => 14,
        }
    }
}

/// What stops the reading of a line.
#[derive(Clone, Copy, Debug, PartialEq, Eq)]
pub enum LineFault {
    /// There was no memory.
    Memory,
    /// A test failed.
    Failed(Kind),
}

impl From<AllocError> for LineFault {
    ghost from_gives = { λ _ e. e ≡ Memory };

    fn from(_error: AllocError) -> LineFault {
        LineFault::Memory
    }
}

impl<T: Drop> From<AllocFailed<T>> for LineFault {
    ghost from_gives = { λ _ e. e ≡ Memory };

    fn from(_error: AllocFailed<T>) -> LineFault {
        LineFault::Memory
    }
}

impl From<NoMemory> for LineFault {
    ghost from_gives = { λ _ e. e ≡ Memory };

    fn from(_error: NoMemory) -> LineFault {
        LineFault::Memory
    }
}

impl From<Kind> for LineFault {
    ghost from_gives = { λ kind e. e ≡ Failed kind };

    fn from(kind: Kind) -> LineFault {
        LineFault::Failed(kind)
    }
}

impl From<TextFault> for LineFault {
    ghost from_gives = { λ fault e. e ≡ line_fault fault };

    fn from(fault: TextFault) -> LineFault {
        match fault {
            TextFault::Memory => LineFault::Memory,
            TextFault::LineTooLong => LineFault::Failed(Kind::LineTooLong),
            TextFault::BadToken => LineFault::Failed(Kind::BadToken),
            TextFault::BadNumber => LineFault::Failed(Kind::BadNumber),
        }
    }
}
