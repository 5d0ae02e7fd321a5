//! The registers and the state of a CPU.
ghost use Rattle.std.specs.Prelude.{◌<◌, IsTrue};
ghost use Rattle.z_regs.specs.Prefix.{is_prefix};

/// What a CPU does when it has a turn.
#[derive(Clone, Copy, Debug, PartialEq, Eq)]
pub enum RunState {
    /// It runs instructions.
    Running,
    /// It has run SVC 0 and stands still.
    Halted,
    /// A program interruption with this code has stopped it.
    Interrupted(u16),
}

/// What a CPU holds between instructions.
///
/// Bits are numbered from the left, so bit 63 of a general register is its rightmost.
#[derive(Clone, Copy, Debug)]
pub struct CpuImage {
    /// The general registers 0 to 15.
    pub general: [u64; 16],
    /// The access registers 0 to 15.
    pub access: [u32; 16],
    /// The address of the next instruction.
    pub address: u64,
    /// The condition code, 0 to 3.
    pub condition: u8,
    /// The program mask, four bits.
    pub mask: u8,
    /// Whether the CPU runs.
    pub state: RunState,
    /// Where the CPU's own area of storage begins, or None for a CPU without a prefix: a multiple of 8,192
    /// from 8,192 to 1,040,384. No instruction changes it.
    pub prefix: Option<u32>,
    ghost condition_in: { condition < 4 },
    ghost mask_in: { mask < 16 },
    ghost prefix_in: { IsTrue (is_prefix prefix) },
}

impl CpuImage {
    ghost use Rattle.std.specs.Prelude.{◌≡◌};
    ghost use Rattle.z_regs.specs.Cpu.{cpu_of, started};

    /// A running CPU without a prefix at its entry address, with zeros in all registers, the condition code
    /// and the mask.
    pub fn entering(address: u64) -> CpuImage
        ensures { cpu_of result ≡ started address }
    {
        CpuImage {
            general: [0; 16],
            access: [0; 16],
            address,
            condition: 0,
            mask: 0,
            state: RunState::Running,
            prefix: None,
        }
    }
}
