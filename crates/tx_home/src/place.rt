//! Where a run that comes home can differ from its machine.

/// A place that is compared, in the order in which they are.
#[derive(Clone, Copy, Debug, PartialEq, Eq)]
pub enum Place {
    /// The number of the CPU's live attempt; 0 where none is live.
    Attempt,
    /// The instructions that the live attempt has completed.
    Completed,
    /// The counted turns of the CPU. The machine's value has 2^32 added where the CPU does not run, waits, or has something
    /// left to do; where it may not have so many turns more without a tick; and where its attempt has other begins, another
    /// footprint or other constraints than the run has started with.
    Turns,
    /// The head of the stop queue from 1 on, or 0 where the queue is empty; the run's value is 0.
    Head,
    /// A general register, 0 to 15.
    General(u8),
    /// An access register, 0 to 15.
    Access(u8),
    /// The address of the next instruction.
    Address,
    /// The condition code.
    Condition,
    /// The program mask.
    Mask,
    /// The prefix, or 0 where the CPU has none.
    Prefix,
    /// A line by number, below 4,096: 0, 1 where it is held shared, 2 exclusively. It differs where the machine's CPU holds
    /// it in a lesser mode than the run has needed.
    Held(u32),
    /// A page by number, below 256, that has a byte of the run's instructions or of what they stored: 1 for a text page,
    /// else 0.
    Text(u32),
    /// A byte of the run's instructions or their operands, by its absolute address: as the CPU sees it before the run's first
    /// step.
    Byte(u64),
}

/// A place in which a run and its machine are not alike.
#[derive(Clone, Copy, Debug, PartialEq, Eq)]
pub struct Unlike {
    /// Which.
    pub place: Place,
    /// What the machine has there.
    pub kept: u64,
    /// What the run has there.
    pub given: u64,
}
