//! What a machine shows, as text.
ghost use Rattle.std.specs.Prelude.{◌<◌, length};

use crate::fault::Fault;
use std::alloc::{AllocError, Global};
use tx_journal::{Entry, entry_text};
use tx_machine::{Counts, Machine};
use z_regs::{CpuImage, RunState, STORAGE_SIZE};

fn add_state(text: &mut String, state: RunState) -> Result<(), AllocError> {
    match state {
        RunState::Running => text.push_str("running"),
        RunState::Halted => text.push_str("halted"),
        RunState::Interrupted(code) => write!(text, "interrupted {code:04x}"),
    }
}

/// The general registers that are not 0.
fn add_general(text: &mut String, general: &[u64; 16]) -> Result<(), AllocError> {
    for (r, value) in general.iter().enumerate() {
        if *value != 0 {
            write!(text, ", R{r} {value:x}")?;
        }
    }
    Ok(())
}

/// The access registers that are not 0.
fn add_access(text: &mut String, access: &[u32; 16]) -> Result<(), AllocError> {
    for (r, value) in access.iter().enumerate() {
        if *value != 0 {
            write!(text, ", A{r} {value:x}")?;
        }
    }
    Ok(())
}

fn add_image(text: &mut String, image: &CpuImage) -> Result<(), AllocError> {
    add_state(text, image.state)?;
    let address = image.address;
    let condition = image.condition;
    let mask = image.mask;
    write!(text, " at {address:x}, code {condition}, mask {mask:x}")?;
    add_general(text, &image.general)?;
    add_access(text, &image.access)
}

/// What a machine says of a CPU beside its image.
#[derive(Clone, Copy)]
struct Said {
    /// How many begins are open, and how many instructions its attempt has completed.
    live: Option<(u32, u32)>,
    /// Where its diagnostic block is to be stored.
    pending: Option<u64>,
    /// The interruption that waits.
    interruption: Option<u16>,
    counts: Counts,
    ready: bool,
    finished: bool,
    spent: bool,
}

fn said_of(machine: &Machine, cpu: u32) -> Said
    requires { cpu < length machine.now.image.cpus }
{
    Said {
        live: machine.live(cpu),
        pending: machine.pending(cpu),
        interruption: machine.interruption(cpu),
        counts: machine.counts(cpu),
        ready: machine.ready(cpu),
        finished: machine.finished(cpu),
        spent: machine.spent(cpu),
    }
}

/// The attempt, the block and the interruption of a CPU, where there are any.
fn add_attempt(text: &mut String, said: &Said) -> Result<(), AllocError> {
    if let Some((depth, completed)) = said.live {
        write!(text, ", depth {depth}, completed {completed}")?;
    }
    if let Some(address) = said.pending {
        write!(text, ", block for {address:x}")?;
    }
    if let Some(code) = said.interruption {
        write!(text, ", waiting {code:04x}")?;
    }
    Ok(())
}

fn add_counts(text: &mut String, counts: &Counts) -> Result<(), AllocError> {
    let turns = counts.turns;
    let asked = counts.asked;
    let rejected = counts.rejected;
    let commits = counts.commits;
    let aborts = counts.aborts;
    write!(text, ", turns {turns}, asked {asked}, rejected {rejected}")?;
    write!(text, ", commits {commits}, aborts {aborts}")
}

/// Adds words where they hold.
fn add_where(text: &mut String, holds: bool, words: &str) -> Result<(), AllocError> {
    if holds {
        return text.push_str(words);
    }
    Ok(())
}

/// Whether a CPU is ready, finished or spent.
fn add_end(text: &mut String, said: &Said) -> Result<(), AllocError> {
    add_where(text, said.ready, ", ready")?;
    add_where(text, said.finished, ", finished")?;
    add_where(text, said.spent, ", spent")?;
    text.push('\n')
}

/// A CPU, in one line.
fn add_cpu(text: &mut String, cpu: u32, image: &CpuImage, said: &Said) -> Result<(), AllocError> {
    write!(text, "{cpu} ")?;
    add_image(text, image)?;
    add_attempt(text, said)?;
    add_counts(text, &said.counts)?;
    add_end(text, said)
}

/// The CPUs of a machine, one in a line.
fn add_cpus(text: &mut String, machine: &Machine) -> Result<(), AllocError> {
    for cpu in 0..machine.image().cpu_count() {
        let said = said_of(machine, cpu);
        add_cpu(text, cpu, machine.cpu(cpu), &said)?;
    }
    Ok(())
}

/// The head of the stop queue, where there is one.
fn add_head(text: &mut String, head: Option<u32>) -> Result<(), AllocError> {
    match head {
        Some(head) => writeln!(text, "stopped for {head}"),
        None => Ok(()),
    }
}

/// The holder and the line of the reject in the last event, where there was one.
fn add_reject(text: &mut String, reject: Option<(u32, u32)>) -> Result<(), AllocError> {
    match reject {
        Some((by, line)) => writeln!(text, "rejected by {by}, line {line}"),
        None => Ok(()),
    }
}

/// The holder and the line of the reject in the last event.
fn last_reject(machine: &Machine) -> Option<(u32, u32)> {
    let reject = machine.last_reject()?;
    Some((reject.by, reject.line))
}

/// A byte of storage; 0 outside.
fn byte_of(machine: &Machine, address: u32) -> u8 {
    if address < STORAGE_SIZE as u32 {
        machine.byte(address)
    } else {
        0
    }
}

/// A doubleword of storage that is no longer as it was.
fn add_doubleword(text: &mut String, machine: &Machine, address: u32) -> Result<(), AllocError> {
    write!(text, "{address:x}: ")?;
    for k in 0..8_u32 {
        let byte = byte_of(machine, address.wrapping_add(k));
        write!(text, "{byte:02x}")?;
    }
    text.push('\n')
}

/// Whether a byte of storage is no longer as it was.
fn is_byte_changed(machine: &Machine, address: u32) -> bool {
    let old = machine.image().storage.get(address as usize).copied();
    old != Some(byte_of(machine, address))
}

/// Whether a doubleword of storage is no longer as it was.
fn is_changed(machine: &Machine, address: u32) -> bool {
    for k in 0..8_u32 {
        if is_byte_changed(machine, address.wrapping_add(k)) {
            return true;
        }
    }
    false
}

/// The doublewords of storage that are no longer as they were.
fn add_changes(text: &mut String, machine: &Machine) -> Result<(), AllocError> {
    for k in 0..STORAGE_SIZE as u32 / 8 {
        let address = k.wrapping_mul(8);
        if is_changed(machine, address) {
            add_doubleword(text, machine, address)?;
        }
    }
    Ok(())
}

/// Adds what a machine shows, but its history.
pub fn add_shown(text: &mut String, machine: &Machine) -> Result<(), AllocError> {
    add_cpus(text, machine)?;
    add_head(text, machine.queue_head())?;
    add_reject(text, last_reject(machine))?;
    add_changes(text, machine)
}

/// Adds the line of an entry.
fn add_entry(text: &mut String, alloc: Global, entry: &Entry) -> Result<(), Fault> {
    let line = entry_text(alloc, entry).map_err(|_| Fault::NoMemory)?;
    let line = str::from_utf8(line.as_slice()).map_err(|_| Fault::Wrong("an entry is no text"))?;
    Ok(text.push_str(line)?)
}

/// Adds the length of a history, and its entries, one in a line.
pub fn add_history(text: &mut String, alloc: Global, history: &[Entry]) -> Result<(), Fault> {
    let entries = history.len();
    writeln!(text, "history {entries}")?;
    for entry in history {
        add_entry(text, alloc, entry)?;
    }
    Ok(())
}
