//! What a machine shows.
ghost use Rattle.tx_machine.specs.Machine.{setting_of, state_of};
ghost use Rattle.tx_step.specs.Sights.{shown_of};

use step_changes::seen::CpuSight;
use step_changes::shows::Shows;
use tx_journal::Entry;
use tx_machine::machine::Machine;

/// A machine, as a view follows it.
#[derive(Clone, Copy)]
pub struct MachineSight<'a> {
    /// The machine.
    pub machine: &'a Machine,
}

impl<'a> Shows for MachineSight<'a> {
    ghost shown = { λ s. shown_of (setting_of s.machine.now) (state_of s.machine.now) };

    fn cpu_count(&self) -> u32 {
        self.machine.image().cpu_count()
    }

    fn cpu(&self, cpu: u32) -> CpuSight {
        CpuSight::of(
            self.machine.cpu(cpu),
            self.machine.live(cpu),
            self.machine.pending(cpu),
        )
    }

    fn live(&self, cpu: u32) -> Option<(u32, u32)> {
        self.machine.live(cpu)
    }

    fn byte(&self, address: u32) -> u8 {
        self.machine.byte(address)
    }

    fn journal(&self) -> &[Entry] {
        self.machine.journal()
    }
}
