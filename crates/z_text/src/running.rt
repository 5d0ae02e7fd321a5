//! What is known of an expression in front of its end.
/// The sum of an expression's first terms, and whether a minus stands behind them.
#[derive(Clone, Copy, Debug, PartialEq, Eq)]
pub struct RunningSum {
    /// The sum of the terms so far.
    pub value: i128,
    /// Whether the next term is taken away.
    pub negative: bool,
}
