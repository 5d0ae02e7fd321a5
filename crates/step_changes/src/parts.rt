//! The parts of what is shown of a CPU.
ghost use Rattle.std.specs.Prelude.{◌<◌, IsTrue};
ghost use Rattle.z_regs.specs.Prefix.{is_prefix};

use z_regs::RunState;

/// The number of a general register, or of an access register.
#[derive(Clone, Copy)]
pub struct Register {
    /// The number, 0 to 15.
    pub number: u8,
    ghost below: { number < 16 },
}

/// What a CPU holds beside its registers and the address of its next instruction.
#[derive(Clone, Copy)]
pub struct Controls {
    /// The condition code, 0 to 3.
    pub condition: u8,
    /// The program mask, four bits.
    pub mask: u8,
    /// Whether the CPU runs.
    pub state: RunState,
    /// Where the CPU's own area of storage begins, or None for a CPU without a prefix.
    pub prefix: Option<u32>,
    ghost condition_in: { condition < 4 },
    ghost mask_in: { mask < 16 },
    ghost prefix_in: { IsTrue (is_prefix prefix) },
}

/// One part of what is shown of a CPU, with a value.
#[derive(Clone, Copy)]
pub enum Part {
    /// A general register.
    General(Register, u64),
    /// An access register.
    Access(Register, u32),
    /// The address of the next instruction.
    Address(u64),
    /// The condition code, the mask, the state and the prefix.
    Control(Controls),
    /// The open begins and the completed instructions of a live attempt.
    Live(Option<(u32, u32)>),
    /// The address of the pending block.
    Pending(Option<u64>),
}
