//! What a step of a run answers.

/// Why a run goes home.
#[derive(Clone, Copy, Debug, PartialEq, Eq)]
pub enum Reason {
    /// It was called home.
    CalledHome,
    /// It has made as many steps as it may.
    Allowance,
    /// The next instruction is made at home: it begins, ends or aborts a transaction, stores lastingly, asks for time or
    /// calls the service, it does not go, or it does not complete.
    AtHome,
    /// The next instruction needs this line, the lowest that the run does not hold in the mode that it needs.
    LineMissing(u32),
}

/// What a step comes to.
#[derive(Clone, Copy, Debug, PartialEq, Eq)]
pub enum RunStep {
    /// One instruction was made.
    Done,
    /// None was, and the run goes home.
    Leave(Reason),
}
