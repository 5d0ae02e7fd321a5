//! The report of a run.
ghost use Rattle.std.specs.Prelude.{◌≡◌, ◌++◌, All, OnOk, IfOk, length, map};
ghost use Rattle.z_regs.specs.Prefix.{storage_size};
ghost use Rattle.tx_journal.specs.Image.{IsShown};
ghost use Rattle.report_text.specs.Shown.{shown_cpu, shown_of};
ghost use Rattle.report_text.specs.Processor.{cpus_text};
ghost use Rattle.report_text.specs.Report.{status_of, head_lines, history_lines, schedule_lines, state_part};
ghost use Rattle.report_text.specs.Report.{run_part, report_text};

use crate::digits::add_number_line;
use crate::lines::add_cpu;
use crate::storage::add_shows;
use crate::{Processor, SharedBytes};
use std::alloc::{AllocError, Global};
use tx_journal::{Entry, Event, NoMemory, Show, add_history, add_schedule};

/// The bytes of the lines of a CPU, with counts of six digits.
const CPU_ROOM: usize = 640;

/// The status of a run: 0 where every CPU is finished, else 6.
pub fn status(cpus: &[Processor]) -> u8
    ensures { result ≡ status_of (map shown_cpu cpus.now) }
{
    for cpu in cpus {
        if !cpu.finished {
            return 6;
        }
    }
    0
}

/// Adds the first two lines.
#[tactic(auto, unfolding(crate::specs::Report::head_lines))]
fn add_head(text: &mut Vec<u8>, status: u64) -> Result<(), AllocError>
    ensures { OnOk result (text.new.items ≡ text.old.items ++ head_lines status) }
{
    text.extend_from_slice(b"ZTX REPORT\n")?;
    add_number_line(text, b"STATUS ", status)
}

/// Adds the lines of the CPUs.
fn add_cpus(text: &mut Vec<u8>, cpus: &[Processor]) -> Result<(), AllocError>
    ensures { OnOk result (text.new.items ≡ text.old.items ++ cpus_text (map shown_cpu cpus.now)) }
{
    text.try_reserve(cpus.len().saturating_mul(CPU_ROOM))?;
    for (number, cpu) in cpus.iter().enumerate() {
        add_cpu(text, number as u64, cpu)?;
    }
    Ok(())
}

/// Adds the number of entries, and their lines.
#[tactic(auto, unfolding(crate::specs::Report::history_lines))]
fn add_entries(text: &mut Vec<u8>, history: &[Entry]) -> Result<(), NoMemory>
    ensures { OnOk result (text.new.items ≡ text.old.items ++ history_lines history.now) }
{
    add_number_line(text, b"HISTORY ", history.len() as u64)?;
    add_history(text, history)
}

/// Adds the number of events, and the lines that give them.
#[tactic(auto, unfolding(crate::specs::Report::schedule_lines))]
fn add_events(text: &mut Vec<u8>, events: &[Event]) -> Result<(), NoMemory>
    ensures { OnOk result (text.new.items ≡ text.old.items ++ schedule_lines events.now) }
{
    add_number_line(text, b"SCHEDULE ", events.len() as u64)?;
    add_schedule(text, events)
}

/// Adds the state at the end of the run: the status, the CPUs, and what is shown of storage.
#[tactic(auto, unfolding(crate::specs::Report::state_part))]
fn add_state_part<S: SharedBytes>(
    text: &mut Vec<u8>,
    cpus: &[Processor],
    shows: &[Show],
    storage: &S,
) -> Result<(), AllocError>
    requires size { length (S.bytes storage.now) ≡ storage_size }
    requires shown { All IsShown shows.now }
    ensures { OnOk result (text.new.items ≡ text.old.items
        ++ state_part (map shown_cpu cpus.now) shows.now (S.bytes storage.now)) }
{
    add_head(text, u64::from(status(cpus)))?;
    add_cpus(text, cpus)?;
    add_shows(text, storage, shows)
}

/// Adds how the run came about: its history and its recorded events.
#[tactic(auto, unfolding(crate::specs::Report::run_part))]
fn add_run_part(text: &mut Vec<u8>, history: &[Entry], events: &[Event]) -> Result<(), NoMemory>
    ensures { OnOk result (text.new.items ≡ text.old.items ++ run_part history.now events.now) }
{
    add_entries(text, history)?;
    add_events(text, events)?;
    text.extend_from_slice(b"END\n")?;
    Ok(())
}

/// The report of a run, by the CPUs in the order of their numbers, what is shown in the order of the listing,
/// shared storage, the serial history, and the recorded events. `NoMemory` comes for want of memory.
#[tactic(auto, unfolding(crate::specs::Report::report_text))]
pub fn report<S: SharedBytes>(
    alloc: Global,
    cpus: &[Processor],
    shows: &[Show],
    storage: &S,
    history: &[Entry],
    events: &[Event],
) -> Result<Vec<u8>, NoMemory>
    requires size { length (S.bytes storage.now) ≡ storage_size }
    requires shown { All IsShown shows.now }
    ensures { IfOk result (λ text. text.items
        ≡ report_text (shown_of cpus.now shows.now (S.bytes storage.now) history.now events.now)) }
{
    let mut text = Vec::new(alloc);
    add_state_part(&mut text, cpus, shows, storage)?;
    add_run_part(&mut text, history, events)?;
    Ok(text)
}
