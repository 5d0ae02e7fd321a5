//! The turns of a run, as turns of its machine's CPU.
ghost use Rattle.std.specs.Prelude.{◌≡◌, ℕ, ◌+◌, ◌*◌, ◌<◌, ◌≤◌, ◌++◌, List, length, replicate, vec_len, vec_capacity};
ghost use Rattle.tx_journal.specs.declared.events.Event.TheVariants.{Turn};
ghost use Rattle.tx_works.specs.Parts.{local_of};
ghost use Rattle.tx_works.specs.Away.{GoAway, ran};
ghost use Rattle.tx_works.specs.Stranger.{GoesOnLike, SeeAlike};
ghost use Rattle.tx_works.specs.Turns.{steps_of, with_turns};
ghost use Rattle.tx_works.specs.Marks.{mode_in};
ghost use Rattle.tx_works.specs.Own.{given, is_touched};
ghost use Rattle.tx_works.specs.Traces.{is_paged};
ghost use Rattle.tx_meaning.specs.Limits.{turn_limit};
ghost use Rattle.tx_meaning.specs.State.{is_live};
ghost use Rattle.tx_works.specs.Kept.{beside};
ghost use Rattle.tx_works.specs.RunMade.{AgreeOnPages};
ghost use Rattle.tx_works.specs.Works.{Seat, IsSameSize, kept_by};
ghost use Rattle.tx_home.specs.Taken.{HasRoomFor, with_turns_noted, left_by};

use tx_journal::{Entry, Event};
use tx_works::{Run, Works};

/// Adds an item so many times.
fn add_times<T: Copy + Drop>(items: &mut Vec<T>, item: T, times: u32)
    requires { vec_len items.old + times ≤ vec_capacity items.old }
    ensures items { items.new.items ≡ items.old.items ++ replicate times item }
    ensures capacity { vec_capacity items.new ≡ vec_capacity items.old }
{
    for _ in 0..times {
        items.push_reserved(item);
    }
}

/// So many turns of the CPU are recorded, and where no attempt is live as many steps in the history.
fn note_turns(works: &mut Works, cpu: u32, live: bool, k: u32)
    requires room { HasRoomFor k works.old }
    ensures { works.new ≡ with_turns_noted live cpu k works.old }
{
    add_times(&mut works.events, Event::Turn(cpu), k);
    if !live {
        add_times(&mut works.history, Entry::Step(cpu), k);
    }
}

/// What the steps of a run have made is given to its CPU and to the lines, and its turns are counted.
fn bring(works: &mut Works, run: &Run)
    requires cpu { run.now.cpu < length works.old.slots }
    requires turns { (rest : Seat) → ((kept_by rest works.old).state.numbers run.now.cpu).turns + run.now.made.steps ≤ turn_limit }
    requires like { (rest : Seat) → GoesOnLike (local_of run.now.made.start).attempt
        ((kept_by rest works.old).locals run.now.cpu).attempt }
    requires alike { (rest : Seat) → let t = kept_by rest works.old in SeeAlike (is_touched run.now.made.own)
        (local_of run.now.made.start).attempt.overlay (given run.now.made.own)
        (t.locals run.now.cpu).attempt.overlay t.storage }
    ensures value { (rest : Seat) (text : List ℕ) → AgreeOnPages (is_paged run.now.made.traces) run.now.text text
        → let t = kept_by rest works.old in kept_by rest works.new
        ≡ left_by run.now.cpu run.now.made.steps (ran text run.now.made.steps (beside t run.now.cpu)) t }
    ensures away { (rest : Seat) (text : List ℕ) → AgreeOnPages (is_paged run.now.made.traces) run.now.text text
        → GoAway text (mode_in run.now.made.needed) run.now.made.steps (beside (kept_by rest works.old) run.now.cpu) }
    ensures history { works.new.history ≡ works.old.history }
    ensures events { works.new.events ≡ works.old.events }
    ensures queue { works.new.queue ≡ works.old.queue }
    ensures size { IsSameSize works.old works.new }
{
    run.is_lent();
    let slot = &mut works.slots[run.cpu() as usize];
    slot.tally.turns += run.steps();
    works.lines.bring(run.cpu(), run, &mut slot.cpu);
}

/// The turns of a run are turns of its CPU: they are recorded and counted, and what they have made is there.
pub(crate) fn take(works: &mut Works, run: &Run)
    requires cpu { run.now.cpu < length works.old.slots }
    requires turns { (rest : Seat) → ((kept_by rest works.old).state.numbers run.now.cpu).turns + run.now.made.steps ≤ turn_limit }
    requires like { (rest : Seat) → GoesOnLike (local_of run.now.made.start).attempt
        ((kept_by rest works.old).locals run.now.cpu).attempt }
    requires alike { (rest : Seat) → let t = kept_by rest works.old in SeeAlike (is_touched run.now.made.own)
        (local_of run.now.made.start).attempt.overlay (given run.now.made.own)
        (t.locals run.now.cpu).attempt.overlay t.storage }
    requires room { HasRoomFor run.now.made.steps works.old }
    ensures value { (rest : Seat) (text : List ℕ) → AgreeOnPages (is_paged run.now.made.traces) run.now.text text
        → let t = kept_by rest works.old in kept_by rest works.new
        ≡ with_turns run.now.cpu run.now.made.steps (ran text run.now.made.steps (beside t run.now.cpu)) t }
    ensures away { (rest : Seat) (text : List ℕ) → AgreeOnPages (is_paged run.now.made.traces) run.now.text text
        → GoAway text (mode_in run.now.made.needed) run.now.made.steps (beside (kept_by rest works.old) run.now.cpu) }
    ensures events { works.new.events ≡ works.old.events ++ replicate run.now.made.steps (Turn run.now.cpu) }
    ensures queue { works.new.queue ≡ works.old.queue }
    ensures size { IsSameSize works.old works.new }
{
    let cpu = run.cpu();
    let live = works.slots[cpu as usize].cpu.live().is_some();
    let k = run.steps();
    note_turns(works, cpu, live, k);
    bring(works, run);
}
