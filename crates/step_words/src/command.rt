//! Commands that look at a run.

/// A command.
#[derive(Clone, Copy, Debug, PartialEq, Eq)]
pub enum StepCommand {
    /// `F n`: so many events forward.
    Forward(u64),
    /// `B n`: so many events back.
    Back(u64),
    /// `G n`: to the position behind so many events.
    Go(u64),
    /// `C c`: what a CPU holds.
    Cpu(u32),
    /// `M a n`: so many bytes of storage, from an address on.
    Bytes { first: u32, count: u32 },
    /// `H`: how many entries the history has.
    History,
}
