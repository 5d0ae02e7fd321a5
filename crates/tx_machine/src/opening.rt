//! What a machine keeps before anything has happened.
ghost use Rattle.std.specs.Prelude.{◌≡◌, ◌≤◌, [], IfOk, length, map, take};
ghost use Rattle.std.specs.Arc.{arc_value};
ghost use Rattle.z_regs.specs.Cpu.{cpu_of};
ghost use Rattle.tx_journal.specs.Content.{Content};
ghost use Rattle.line_table.specs.Holders.{nobody};
ghost use Rattle.tx_home.specs.Local.{settled};
ghost use Rattle.tx_home.specs.Parts.{local_of};
ghost use Rattle.tx_home.specs.Owned.{holders_in};
ghost use Rattle.tx_machine.specs.Opened.{AreUnused, IsUnused};

use std::alloc::Global;
use std::sync::Arc;
use tx_home::{Cpu, Lines, Program, Slot, Tally, Works};
use tx_journal::Image;
use tx_ladder::{Ladder, Parms, StopQueue};
use z_regs::{CpuImage, NoMemory};

/// A CPU that starts like this.
fn slot_of(alloc: Global, start: CpuImage, parms: Parms) -> Result<Slot, NoMemory>
    ensures cpu { IfOk result (λ slot. local_of slot.cpu ≡ settled (cpu_of start)) }
    ensures unused { IfOk result (λ slot. IsUnused parms slot) }
{
    let cpu = Cpu::open(alloc, start)?;
    Ok(Slot {
        cpu,
        ladder: Ladder::new(parms),
        tally: Tally {
            attempts: 0,
            delay: 0,
            turns: 0,
            asked: 0,
            rejected: 0,
        },
    })
}

/// A slot for each CPU.
fn slots_of(alloc: Global, cpus: &[CpuImage], parms: Parms) -> Result<Vec<Slot>, NoMemory>
    ensures { IfOk result (λ slots. AreUnused parms (map cpu_of cpus.now) slots.items) }
{
    let mut slots = Vec::new(alloc);
    for start in cpus {
        let slot = slot_of(alloc, *start, parms)?;
        slots.push(slot)?;
    }
    Ok(slots)
}

/// All that is kept of an image from which nothing has happened, with room for so many events. The error is
/// want of memory.
pub fn open_works(alloc: Global, image: &Image, most: usize) -> Result<Works, NoMemory>
    ensures slots { IfOk result (λ w. AreUnused image.now.parms image.now.cpus w.slots) }
    ensures bytes { IfOk result (λ w. w.lines.bytes ≡ image.now.storage) }
    ensures held { IfOk result (λ w. holders_in w.lines ≡ nobody) }
    ensures queue { IfOk result (λ w. w.queue ≡ []) }
    ensures history { IfOk result (λ w. w.history ≡ []) }
    ensures events { IfOk result (λ w. w.events ≡ []) }
    ensures room { IfOk result (λ w. most ≤ w.room) }
    ensures events_room { IfOk result (λ w. most ≤ w.events_room) }
{
    let cpus = image.cpu_count();
    let queue = StopQueue::open(alloc, cpus)?;
    let slots = slots_of(alloc, image.cpus.as_slice(), image.parms)?;
    let history = Vec::with_capacity(alloc, most)?;
    let events = Vec::with_capacity(alloc, most)?;
    let lines = Lines::open(alloc, image.storage.as_slice(), cpus)?;
    Ok(Works {
        slots,
        lines,
        queue,
        history,
        events,
    })
}

/// The program of an image, to be shared. The error is want of memory.
pub fn open_program(alloc: Global, image: Arc<Image>) -> Result<Arc<Program>, NoMemory>
    ensures { IfOk result (λ program. arc_value program ≡ arc_value image) }
{
    let program = Program::open(alloc, image)?;
    let shared = Arc::new(alloc, program)?;
    Ok(shared)
}
