//! Tokens, and what is wrong where there are none.
ghost use Rattle.std.specs.Prelude.{◌≡◌};
ghost use Rattle.z_text.specs.declared.token.TextFault.TheVariants.{Memory};

use std::alloc::{AllocError, AllocFailed};

/// What kind of token it is.
#[derive(Clone, Copy, Debug, PartialEq, Eq)]
pub enum TokenKind {
    /// A letter and letters or digits: a label, an operation, or a label's name in an operand.
    Name,
    /// Decimal digits.
    Number,
    /// Hex digits in quotes behind an X.
    Hex,
    /// A plus or a minus.
    Sign,
    /// An opening parenthesis.
    Open,
    /// A closing parenthesis.
    Close,
    /// A comma.
    Comma,
    /// An asterisk, which stands for the location of the line.
    Star,
}

/// A token: its text are the bytes of the line from `first` up to, but without, `end`.
#[derive(Clone, Copy, Debug, PartialEq, Eq)]
pub struct Token {
    /// The place of its first byte.
    pub first: usize,
    /// The place after its last byte.
    pub end: usize,
    /// What it is.
    pub kind: TokenKind,
}

/// Why a line has no tokens.
#[derive(Clone, Copy, Debug, PartialEq, Eq)]
pub enum TextFault {
    /// There was no memory.
    Memory,
    /// The line has more than 120 bytes.
    LineTooLong,
    /// A malformed label or operation, a missing operation, operands that do not split into tokens, or a byte
    /// in them that is not printed.
    BadToken,
    /// A number that is malformed or does not fit 64 bits.
    BadNumber,
}

/// Why there is no value of an expression.
#[derive(Clone, Copy, Debug, PartialEq, Eq)]
pub enum ExprFault {
    /// No expression begins there.
    BadToken,
    /// The expression has a label without a value.
    UnknownLabel,
}

impl From<AllocError> for TextFault {
    ghost from_gives = { λ _ e. e ≡ Memory };

    fn from(_error: AllocError) -> TextFault {
        TextFault::Memory
    }
}

impl<T: Drop> From<AllocFailed<T>> for TextFault {
    ghost from_gives = { λ _ e. e ≡ Memory };

    fn from(_error: AllocFailed<T>) -> TextFault {
        TextFault::Memory
    }
}
