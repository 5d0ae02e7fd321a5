//! The shared storage of a machine, as a report reads it.
ghost use Rattle.tx_serial.specs.Flat.{bytes_of};
ghost use Rattle.tx_meaning.specs.State.{flat_of};
ghost use Rattle.tx_machine.specs.Machine.{setting_of, state_of};

use report_text::SharedBytes;
use tx_machine::machine::Machine;

/// The storage that the CPUs of a machine share, as the history leaves it.
#[derive(Clone, Copy)]
pub struct MachineBytes<'a> {
    /// The machine.
    pub machine: &'a Machine,
}

impl<'a> SharedBytes for MachineBytes<'a> {
    ghost bytes = { λ b. bytes_of (flat_of (setting_of b.machine.now) (state_of b.machine.now)).storage };

    fn byte(&self, address: u32) -> u8 {
        self.machine.byte(address)
    }
}
