//! A run comes home.
ghost use Rattle.std.specs.Prelude.{◌≡◌, ◌≢◌, ℕ, suc, ◌+◌, ◌<◌, ◌≤◌, ◌++◌, true, None, length, replicate};
ghost use Rattle.std.specs.FinSet.{items};
ghost use Rattle.tx_journal.specs.declared.events.Event.TheVariants.{Turn};
ghost use Rattle.tx_works.specs.Parts.{local_of};
ghost use Rattle.tx_works.specs.Stranger.{GoesOnLike};
ghost use Rattle.tx_meaning.specs.Limits.{Setting};
ghost use Rattle.tx_meaning.specs.declared.outcome.Outcome.TheVariants.{Executed};
ghost use Rattle.tx_works.specs.Keeping.{keeping_from};
ghost use Rattle.tx_works.specs.Turn.{k_happen, k_turned};
ghost use Rattle.tx_works.specs.Works.{Seat, IsSameSize, kept_by};
ghost use Rattle.tx_home.specs.Places.{IsFirstUnlike, unlike_by};
ghost use Rattle.tx_home.specs.Taken.{HasRoomFor, MayTake};

use crate::comparing::{same_attempt, unlike_numbers, unlike_registers};
use crate::place::Unlike;
use crate::storage::unlike_in_storage;
use crate::taking::take;
use tx_meaning::Limits;
use tx_works::{Program, Run, Works, lent_turns_are_turns};

/// The first place in which a run differs from its machine, where the attempt of the CPU is the same as that from which the
/// run has started, or not.
fn unlike_where(
    works: &Works,
    run: &Run,
    program: &Program,
    limits: Limits,
    same: bool,
) -> Option<Unlike>
    requires cpu { run.now.cpu < length works.now.slots }
    requires like { (rest : Seat) → let kept = (kept_by rest works.now).locals run.now.cpu in same ≡ true
        → kept.attempt.cpu ≡ (local_of run.now.made.start).attempt.cpu
        → kept.attempt.count ≡ (local_of run.now.made.start).attempt.count
        → GoesOnLike (local_of run.now.made.start).attempt kept.attempt }
    ensures value { (rest : Seat) → result
        ≡ unlike_by same (items program.now.guard) limits run.now (kept_by rest works.now) }
    ensures may { (rest : Seat) → result ≡ None
        → MayTake record { image = program.now; limits = limits } run.now (kept_by rest works.now) }
{
    run.is_lent();
    let slot = &works.slots[run.cpu() as usize];
    if let Some(unlike) = unlike_numbers(slot, &works.queue, run, same, limits) {
        return Some(unlike);
    }
    if let Some(unlike) = unlike_registers(slot.cpu.image(), run.start().image()) {
        return Some(unlike);
    }
    unlike_in_storage(&works.lines, &slot.cpu, run, program)
}

/// The first place in which a run differs from its machine.
fn first_unlike(works: &Works, run: &Run, program: &Program, limits: Limits) -> Option<Unlike>
    requires cpu { run.now.cpu < length works.now.slots }
    ensures first { (rest : Seat) → IsFirstUnlike (items program.now.guard) limits run.now (kept_by rest works.now) result }
    ensures may { (rest : Seat) → result ≡ None
        → MayTake record { image = program.now; limits = limits } run.now (kept_by rest works.now) }
{
    let same = same_attempt(&works.slots[run.cpu() as usize].cpu, run.start());
    unlike_where(works, run, program, limits, same)
}

/// A run comes home, one of this machine's own or any other of a CPU that there is. Where it differs from the machine in some
/// place, the first such place is the answer, and nothing has changed. Else its steps are so many turns of the CPU, each
/// of them executed, with no reject.
pub fn home(works: &mut Works, run: &Run, program: &Program, limits: Limits) -> Option<Unlike>
    requires cpu { run.now.cpu < length works.old.slots }
    requires room { (rest : Seat) → ((kept_by rest works.old).state.numbers run.now.cpu).turns + run.now.made.steps ≤ limits.turns
        → HasRoomFor run.now.made.steps works.old }
    ensures first { (rest : Seat) → IsFirstUnlike (items program.now.guard) limits run.now (kept_by rest works.old) result }
    ensures stays { result ≢ None → works.new ≡ works.old }
    ensures taken { (rest : Seat) → let m : Setting = record { image = program.now; limits = limits } in result ≡ None
        → kept_by rest works.new ≡ keeping_from m (replicate run.now.made.steps (Turn run.now.cpu)) (kept_by rest works.old) }
    ensures each { (rest : Seat) (j : ℕ) → let m : Setting = record { image = program.now; limits = limits } in result ≡ None
        → j < run.now.made.steps
        → k_happen m (Turn run.now.cpu) (keeping_from m (replicate j (Turn run.now.cpu)) (kept_by rest works.old))
        ≡ k_turned (keeping_from m (replicate (suc j) (Turn run.now.cpu)) (kept_by rest works.old)) Executed }
    ensures events { result ≡ None → works.new.events ≡ works.old.events ++ replicate run.now.made.steps (Turn run.now.cpu) }
    ensures queue { works.new.queue ≡ works.old.queue }
    ensures size { IsSameSize works.old works.new }
{
    if let Some(unlike) = first_unlike(works, run, program, limits) {
        return Some(unlike);
    }
    lent_turns_are_turns();
    take(works, run);
    None
}
