//! The whole report, the status, and the short summary.
ghost use Rattle.std.specs.Prelude.{◌≡◌, IfOk};
ghost use Rattle.tx_machine.specs.Machine.{setting_of};
ghost use Rattle.tx_report.specs.Report.{report_of, status_of, summary_of};

use crate::bytes::MachineBytes;
use crate::counters::counter_values;
use crate::processors::{cpu_count, processors};
use std::alloc::Global;
use tx_machine::machine::Machine;
use z_regs::NoMemory;

/// The status of the run: 0 where every CPU of the machine is finished, else 6.
pub fn status(machine: &Machine) -> u8
    ensures { result ≡ status_of (setting_of machine.now) machine.now.events }
{
    for cpu in 0..cpu_count(machine) {
        if !machine.finished(cpu) {
            return 6;
        }
    }
    0
}

/// The report of a machine: what its recorded events have left, its history, and these events as lines of a
/// listing. `NoMemory` comes for want of memory.
pub fn report(alloc: Global, machine: &Machine) -> Result<Vec<u8>, NoMemory>
    ensures { IfOk result (λ text. text.items ≡ report_of (setting_of machine.now) machine.now.events) }
{
    let cpus = processors(alloc, machine)?;
    let shows = machine.image().shows.as_slice();
    let storage = MachineBytes { machine };
    let history = machine.journal();
    let events = machine.events();
    let text = report_text::report(alloc, cpus.as_slice(), shows, &storage, history, events)?;
    Ok(text)
}

/// The short summary of a machine that has run the generator's listing of this number: how many CPUs there
/// are, the status, what has been counted, and the sum of the four counters that the listing has. `NoMemory`
/// comes for want of memory.
pub fn summary(alloc: Global, number: u64, machine: &Machine) -> Result<Vec<u8>, NoMemory>
    ensures { IfOk result (λ text. text.items
        ≡ summary_of number (setting_of machine.now) machine.now.events) }
{
    let cpus = processors(alloc, machine)?;
    let counters = counter_values(machine, number);
    let text = report_text::summary(alloc, number, cpus.as_slice(), &counters)?;
    Ok(text)
}
