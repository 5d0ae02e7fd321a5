//! The counters of the generator's listing, as a machine holds them.
ghost use Rattle.std.specs.Prelude.{◌≡◌, ◌+◌, ◌≤◌};
ghost use Rattle.z_regs.specs.Prefix.{storage_size};
ghost use Rattle.tx_machine.specs.Machine.{setting_of, state_of};
ghost use Rattle.tx_report.specs.Report.{doubleword_at, counters_in};

use byteorder::{BigEndian, ByteOrder};
use tx_gen::counters;
use tx_machine::machine::Machine;

/// The doubleword in storage at an absolute address.
fn doubleword(machine: &Machine, address: u64) -> u64
    requires { address + 8 ≤ storage_size }
    ensures { result ≡ doubleword_at (setting_of machine.now) (state_of machine.now) address }
{
    let first = address as u32;
    let mut bytes = [0u8; 8];
    for i in 0..8 {
        bytes[i] = machine.byte(first + i as u32);
    }
    BigEndian::read_u64(&bytes)
}

/// The values of the four counters in the generator's listing of a number.
pub fn counter_values(machine: &Machine, number: u64) -> [u64; 4]
    ensures { result ≡ counters_in number (setting_of machine.now) (state_of machine.now) }
{
    let [first, second, third, fourth] = counters(number);
    [
        doubleword(machine, first),
        doubleword(machine, second),
        doubleword(machine, third),
        doubleword(machine, fourth),
    ]
}
