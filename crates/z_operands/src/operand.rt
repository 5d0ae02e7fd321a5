//! What the operand field of a line is made of.

/// A part of an operand field, where each expression is one part.
#[derive(Clone, Copy, Debug, PartialEq, Eq)]
pub enum Atom {
    /// An expression, with its value if each of its labels has one.
    Value(Option<i128>),
    /// An opening parenthesis.
    Open,
    /// A closing parenthesis.
    Close,
    /// A comma.
    Comma,
    /// A sign that belongs to no expression.
    Other,
}

/// An operand, by the values of its expressions. An expression has no value where one of its labels has none.
#[derive(Clone, Copy, Debug, PartialEq, Eq)]
pub enum Operand {
    /// An expression alone.
    Plain(Option<i128>),
    /// An expression, and one in parentheses behind it.
    Short(Option<i128>, Option<i128>),
    /// An expression, and two in parentheses behind it.
    Full(Option<i128>, Option<i128>, Option<i128>),
}

/// An operand, and how many parts it has.
#[derive(Clone, Copy, Debug, PartialEq, Eq)]
pub struct Piece {
    /// The operand.
    pub operand: Operand,
    /// How many parts it has.
    pub size: usize,
}
