//! Runs that come home to the machine.
ghost use Rattle.std.specs.Prelude.{◌≡◌, ◌≢◌, ℕ, suc, ◌<◌, ◌≤◌, ◌+◌, ◌*◌, ◌++◌, true, None, length, replicate};
ghost use Rattle.std.specs.Prelude.{◌⊎◌, []};
ghost use Rattle.std.specs.FinSet.{items};
ghost use Rattle.tx_journal.specs.declared.events.Event.TheVariants.{Turn};
ghost use Rattle.tx_serial.specs.History.{IsLegal};
ghost use Rattle.tx_meaning.specs.Hits.{hits};
ghost use Rattle.tx_meaning.specs.Heads.{head_turns};
ghost use Rattle.tx_meaning.specs.Limits.{Setting};
ghost use Rattle.tx_meaning.specs.Meaning.{meaning};
ghost use Rattle.tx_meaning.specs.State.{is_head};
ghost use Rattle.tx_meaning.specs.Stretches.{stretch_of, left, bound, attempt_turns};
ghost use Rattle.tx_meaning.specs.Stretches.{counted, is_counted_turn};
ghost use Rattle.tx_meaning.specs.Turn.{happen, turned};
ghost use Rattle.tx_meaning.specs.Views.{GoesOnWith, KeepsViews, HoldsTouched};
ghost use Rattle.tx_meaning.specs.declared.outcome.Outcome.TheVariants.{Executed};
ghost use Rattle.tx_home.specs.Keeping.{keeping};
ghost use Rattle.tx_ladder.specs.Waiting.{waits_in};
ghost use Rattle.tx_headline.specs.Queue.{QueueChanges, others_before};
ghost use Rattle.tx_opacity.specs.Opacity.{SeesOneRun};
ghost use Rattle.tx_home.specs.Places.{IsFirstUnlike};
ghost use Rattle.tx_machine.specs.Lending.{home_by, kept_of, reject_by, unlike_in, with_turns};
ghost use Rattle.tx_machine.specs.Machine.{Stands, setting_of, state_of, event_of};
ghost use Rattle.tx_machine.specs.declared.lending.Home.TheVariants.{Taken};

use crate::lending::Home;
use crate::machine::Machine;
use tx_home::{Program, Run, Unlike, Works, home};
use tx_meaning::{Limits, Reject};

/// A run comes home to all that a machine keeps, behind which so many external events may still come.
fn come_home(
    program: &Program,
    limits: Limits,
    works: &mut Works,
    left: u32,
    run: &Run,
) -> Option<Unlike>
    requires stands { Stands record { image = program.now; limits = limits } works.old left }
    requires known { run.now.cpu < length program.now.cpus }
    ensures stands { Stands record { image = program.now; limits = limits } works.new left }
    ensures first { let m : Setting = record { image = program.now; limits = limits } in
        IsFirstUnlike (items program.now.guard) limits run.now (keeping m works.old.events) result }
    ensures stays { result ≢ None → works.new ≡ works.old }
    ensures events { result ≡ None → works.new.events ≡ works.old.events ++ replicate run.now.made.steps (Turn run.now.cpu) }
    ensures grows { let m : Setting = record { image = program.now; limits = limits } in
        GoesOnWith (meaning m works.old.events).history (meaning m works.new.events).history }
    ensures queue { works.new.queue ≡ works.old.queue }
    ensures executed { (j : ℕ) → let m : Setting = record { image = program.now; limits = limits } in result ≡ None
        → j < run.now.made.steps
        → happen m (Turn run.now.cpu) (meaning m (works.old.events ++ replicate j (Turn run.now.cpu)))
        ≡ turned (meaning m (works.old.events ++ replicate (suc j) (Turn run.now.cpu))) Executed }
{
    let _left = left;
    home(works, run, program, limits)
}

/// What comes of a run of so many steps that differs in this place, or in none.
fn answer(unlike: Option<Unlike>, steps: u32) -> Home
    ensures unlike { unlike_in result ≡ unlike }
    ensures taken { unlike ≡ None → result ≡ Taken steps }
{
    match unlike {
        None => Home::Taken(steps),
        Some(Unlike { place, kept, given }) => Home::Discarded { place, kept, given },
    }
}

/// The reject in the last event, behind a run that came home so.
fn reject_behind(home: Home, reject: Option<Reject>) -> Option<Reject>
    ensures { result ≡ reject_by home reject }
{
    match home {
        Home::Taken(0) | Home::Discarded { .. } => reject,
        Home::Taken(_) => None,
    }
}

impl Machine {
    /// A run comes home, of a CPU that there is: one that was lent by this machine, or any other. Where it differs from the
    /// machine in some place, the first such place is told, with both values, and the run has made nothing. Else its steps are
    /// so many turns of its CPU, each of them executed, with no reject. In both cases no run of that CPU is away any more; it
    /// is this one that the CPU is lent by next. It takes no memory.
    ///
    /// What holds of every event holds of each of these turns, none of which is rejected, whether its CPU is the head of the
    /// stop queue or not; and what holds behind every event holds behind the last.
    pub fn home(&mut self, run: Run) -> Home
        requires { run.cpu < length self.old.image.cpus }
        ensures first { IsFirstUnlike (items self.old.image.guard) self.old.limits run (kept_of self.old) (unlike_in result) }
        ensures taken { unlike_in result ≡ None → result ≡ Taken run.made.steps }
        ensures machine { self.new ≡ home_by result run.cpu self.old }
        ensures executed { (j : ℕ) → unlike_in result ≡ None → j < run.made.steps
            → event_of (with_turns j run.cpu self.old) (Turn run.cpu)
            ≡ turned (state_of (with_turns (suc j) run.cpu self.old)) Executed }
        ensures views { (j : ℕ) → unlike_in result ≡ None → j < run.made.steps → KeepsViews (setting_of self.old)
            (state_of (with_turns j run.cpu self.old)) (state_of (with_turns (suc j) run.cpu self.old)) }
        ensures opaque { (j : ℕ) → unlike_in result ≡ None → j < run.made.steps → SeesOneRun (setting_of self.old)
            (state_of (with_turns j run.cpu self.old)) (state_of (with_turns (suc j) run.cpu self.old)) }
        ensures head { (j i : ℕ) → let before = with_turns j run.cpu self.old in unlike_in result ≡ None → j < run.made.steps
            → head_turns (setting_of self.old) before.events i
            + counted (is_counted_turn (setting_of self.old) (state_of before) (Turn run.cpu) i) ≤ 34 }
        ensures unrejected { (j : ℕ) → unlike_in result ≡ None → j < run.made.steps
            → (event_of (with_turns j run.cpu self.old) (Turn run.cpu)).reject ≡ None }
        ensures reasons { (j : ℕ) → unlike_in result ≡ None → j < run.made.steps
            → QueueChanges (setting_of self.old) (state_of (with_turns j run.cpu self.old)) (Turn run.cpu) }
        ensures head_alone { (j i : ℕ) → let before = state_of (with_turns j run.cpu self.old) in
            unlike_in result ≡ None → j < run.made.steps
            → is_counted_turn (setting_of self.old) before (Turn run.cpu) i ≡ true
            → (before.queue ≡ []) ⊎ (is_head before i ≡ true) }
        ensures legal { IsLegal self.new.image (state_of self.new).history }
        ensures grows { GoesOnWith (state_of self.old).history (state_of self.new).history }
        ensures held { HoldsTouched (setting_of self.new) (state_of self.new) }
        ensures few { (i : ℕ) →
            hits self.new.image (state_of self.new).history i ≤ self.new.image.parms.stop }
        ensures queue { (state_of self.new).queue ≡ (state_of self.old).queue }
        ensures turns { (i : ℕ) → let stretch = stretch_of (setting_of self.new) self.new.events i in
            stretch.is_open ≡ true → stretch.age + left (setting_of self.new) (state_of self.new) i
            ≤ bound self.new.image.parms + attempt_turns self.new.image.parms * stretch.externals }
        ensures some_left { (i : ℕ) → (stretch_of (setting_of self.new) self.new.events i).is_open ≡ true
            → 1 ≤ left (setting_of self.new) (state_of self.new) i }
        ensures ages { (i : ℕ) → let stretch = stretch_of (setting_of self.new) self.new.events i in
            stretch.is_open ≡ true → stretch.age
            < bound self.new.image.parms + attempt_turns self.new.image.parms * stretch.externals }
        ensures behind_few { (i : ℕ) → waits_in (state_of self.new).queue i ≡ true
            → others_before i (state_of self.new).queue < length self.new.image.cpus }
    {
        let unlike = come_home(
            &self.program,
            self.limits,
            &mut self.works,
            self.externals_left,
            &run,
        );
        let home = answer(unlike, run.steps());
        self.reject = reject_behind(home, self.reject);
        self.runs.put(run);
        home
    }
}
