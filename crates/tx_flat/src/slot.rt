//! What is kept of one CPU between entries.

use z_regs::{CpuImage, NoMemory, Waiting};

/// A diagnostic block that is still to be stored: its real address and its bytes.
#[derive(Clone, Copy)]
pub struct Block {
    pub address: u64,
    pub bytes: [u8; 256],
}

/// The CPU, the block that is pending for it, and the interruption that it has still to take.
#[derive(Clone, Copy)]
pub struct Slot {
    pub image: CpuImage,
    pub pending: Option<Block>,
    pub waiting: Option<Waiting>,
}

/// Why an entry was not applied.
#[derive(Clone, Copy, Debug, PartialEq, Eq)]
pub enum ApplyFault {
    /// There was no memory.
    Memory,
    /// The entry does not fit.
    Misfit,
}

impl From<NoMemory> for ApplyFault {
    ghost use Rattle.std.specs.Prelude.{◌≡◌};
    ghost use Rattle.tx_flat.specs.declared.slot.ApplyFault.TheVariants.{Memory};

    ghost from_gives = { λ _ e. e ≡ Memory };

    fn from(_error: NoMemory) -> ApplyFault {
        ApplyFault::Memory
    }
}
