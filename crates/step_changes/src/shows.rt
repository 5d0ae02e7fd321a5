//! What shows CPUs, storage and a history.
ghost use Rattle.std.specs.Prelude.{◌≡◌, ◌<◌};
ghost use Rattle.z_regs.specs.Prefix.{storage_size};
ghost use Rattle.step_changes.specs.Seen.{Shown};

use crate::seen::CpuSight;
use tx_journal::Entry;

/// What shows CPUs, storage and a history, as a machine does behind each of its events.
pub trait Shows {
    /// All that it shows, by places.
    ghost shown: { Self → Shown };

    /// How many CPUs there are.
    fn cpu_count(&self) -> u32
        ensures { result ≡ (shown self.now).count };

    /// What is shown of a CPU.
    fn cpu(&self, cpu: u32) -> CpuSight
        requires { cpu < (shown self.now).count }
        ensures { result ≡ (shown self.now).cpu cpu };

    /// The open begins and the completed instructions of the live attempt of a CPU.
    fn live(&self, cpu: u32) -> Option<(u32, u32)>
        requires { cpu < (shown self.now).count }
        ensures { result ≡ ((shown self.now).cpu cpu).live };

    /// The byte at an address.
    fn byte(&self, address: u32) -> u8
        requires { address < storage_size }
        ensures { result ≡ (shown self.now).bytes address };

    /// The entries of the history.
    fn journal(&self) -> &[Entry]
        ensures { result.now ≡ (shown self.now).history };
}
