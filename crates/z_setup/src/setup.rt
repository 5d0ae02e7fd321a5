//! What the second reading of the lines makes.
ghost use Rattle.std.specs.Prelude.{◌≡◌, ◌≤◌, length};
ghost use Rattle.z_regs.specs.Prefix.{storage_size};

use tx_journal::Show;
use tx_ladder::Parms;
use z_fields::SmallEvent;
use z_regs::CpuImage;

/// What the lines so far have made of the machine.
#[derive(Drop)]
pub struct Setup {
    /// The bytes of storage.
    pub storage: Vec<u8>,
    /// The CPUs, in the order of their numbers.
    pub cpus: Vec<CpuImage>,
    /// How many CPUs have their entries.
    pub entered: usize,
    /// What is shown.
    pub shows: Vec<Show>,
    /// The events.
    pub schedule: Vec<SmallEvent>,
    /// Whether there was a SCHED line.
    pub scheduled: bool,
    /// The numbers of the retry ladder.
    pub parms: Parms,
    ghost bytes: { length storage.items ≡ storage_size },
    ghost few: { length cpus.items ≤ 16 },
}
