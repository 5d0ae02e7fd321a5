//! What a report tells of the CPUs of a machine.
ghost use Rattle.std.specs.Prelude.{◌≡◌, ◌<◌, ◌≤◌, IfOk, length, map};
ghost use Rattle.report_text.specs.Shown.{shown_cpu};
ghost use Rattle.tx_machine.specs.Machine.{setting_of, state_of};
ghost use Rattle.tx_report.specs.Ends.{ends_in};
ghost use Rattle.tx_report.specs.Shown.{cpu_shown, cpus_shown};

use crate::ends::{Ends, ends_of};
use report_text::{Attempt, Counts, Processor};
use std::alloc::{AllocError, Global};
use tx_machine::machine::Machine;

/// How many CPUs a machine has.
pub fn cpu_count(machine: &Machine) -> u32
    ensures count { result ≡ length machine.now.image.cpus }
    ensures few { result ≤ 16 }
{
    machine.image().cpu_count()
}

/// A CPU as a report tells of it.
fn processor_of(machine: &Machine, cpu: u32, ends: Ends) -> Processor
    requires known { cpu < length machine.now.image.cpus }
    requires ends { ends ≡ ends_in (state_of machine.now).history cpu }
    ensures { shown_cpu result ≡ cpu_shown (setting_of machine.now) (state_of machine.now) cpu }
{
    let tally = machine.tally(cpu);
    Processor {
        image: *machine.cpu(cpu),
        attempt: machine
            .live(cpu)
            .map(|(depth, completed)| Attempt { depth, completed }),
        pending: machine.pending(cpu),
        counts: Counts {
            turns: tally.turns,
            asked: tally.asked,
            rejected: tally.rejected,
            commits: ends.commits as u32,
            aborts: ends.aborts as u32,
        },
        finished: machine.finished(cpu),
    }
}

/// The CPUs, in the order of their numbers.
pub fn processors(alloc: Global, machine: &Machine) -> Result<Vec<Processor>, AllocError>
    ensures shown { IfOk result (λ cpus. map shown_cpu cpus.items
        ≡ cpus_shown (setting_of machine.now) (state_of machine.now)) }
    ensures few { IfOk result (λ cpus. length cpus.items ≤ 16) }
{
    let count = cpu_count(machine);
    let ends = ends_of(machine.journal());
    let mut cpus = Vec::with_capacity(alloc, count as usize)?;
    for cpu in 0..count {
        cpus.push(processor_of(machine, cpu, ends[cpu as usize]))?;
    }
    Ok(cpus)
}
