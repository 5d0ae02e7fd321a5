//! The rest of a run, in one thread: the round behind the workers, and a run that is made again.
ghost use Rattle.std.specs.Prelude.{◌≡◌, ℕ, ◌+◌, ◌<◌, ◌≤◌, length, IfOk, IfSome, IfNone, true, false};
ghost use Rattle.std.specs.Arc.{arc_value};
ghost use Rattle.tx_schedule.specs.Machine.{opened, setting_of, state_of};
ghost use Rattle.tx_meaning.specs.Idle.{is_ready};
ghost use Rattle.tx_board.specs.Shares.{IsOfSameRun};
ghost use Rattle.tx_schedule.specs.Ran.{HasNoneReady};

use crate::board::{Board, Raced, Share};
use crate::turns::cpu_count;
use std::alloc::Global;
use std::sync::Arc;
use std::sync::ledger::Ledger;
use tx_journal::Image;
use tx_meaning::Limits;
use tx_schedule::{Machine, NoMemory, run_round};

/// The lowest ready CPU at or above a number; None exactly where there is none.
fn first_ready(machine: &Machine, from: u32) -> Option<u32>
    ensures found { IfSome result (λ cpu. (cpu < length machine.now.image.cpus) × (cpu < 16)
        × (is_ready (setting_of machine.now) (state_of machine.now) cpu ≡ true)) }
    ensures none { IfNone result ((i : ℕ) → from ≤ i → i < length machine.now.image.cpus
        → is_ready (setting_of machine.now) (state_of machine.now) i ≡ false) }
{
    for cpu in from..cpu_count(machine) {
        if machine.ready(cpu) {
            return Some(cpu);
        }
    }
    None
}

/// The ready CPU whose turn comes next in the round, from a number on; None exactly where none is ready.
fn next_ready(machine: &Machine, from: u32) -> Option<u32>
    ensures found { IfSome result (λ cpu. (cpu < length machine.now.image.cpus) × (cpu < 16)
        × (is_ready (setting_of machine.now) (state_of machine.now) cpu ≡ true)) }
    ensures none { IfNone result (HasNoneReady machine.now) }
{
    match first_ready(machine, from) {
        Some(cpu) => Some(cpu),
        None => first_ready(machine, 0),
    }
}

/// Gives turns in the round until no CPU is ready.
pub fn finish_round<L: Ledger>(board: &mut Board<L>, share: &mut Share<L>)
    ensures same { IsOfSameRun board.old.machine board.new.machine }
    ensures none { HasNoneReady board.new.machine }
{
    let mut from = 0;
    while let Some(cpu) = next_ready(board.machine(), from) {
        board.turn(share, cpu);
        from = cpu + 1;
    }
}

/// Whether a machine is of this run: it has the image and the limits.
pub fn is_of_run(machine: &Machine, image: &Image, limits: Limits) -> bool
    ensures { result ≡ true → setting_of machine.now ≡ record { image = image.now; limits = limits } }
{
    if !machine.image().same(image) {
        return false;
    }
    machine.limits() == limits
}

/// Makes the run again, without a board, in the round.
pub fn run_again(alloc: Global, image: Arc<Image>, limits: Limits) -> Result<Raced, NoMemory>
    ensures same { IfOk result (λ r.
        setting_of r.machine ≡ record { image = arc_value image; limits = limits }) }
    ensures none { IfOk result (λ r. HasNoneReady r.machine) }
    ensures counted { IfOk result (λ r. r.worked + r.finished ≡ length r.machine.events) }
    ensures homed { IfOk result (λ r. r.homed ≤ length r.machine.events) }
{
    let mut machine = Machine::open(alloc, image, limits)?;
    run_round(&mut machine);
    let finished = machine.events().len() as u64;
    Ok(Raced {
        machine,
        worked: 0,
        finished,
        homed: 0,
    })
}
