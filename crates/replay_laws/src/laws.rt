//! The law of printed schedules. It is the contract of a function that does nothing.
ghost use Rattle.std.specs.Prelude.{ℕ, List, Option, ◌++◌};
ghost use Rattle.tx_journal.specs.Schedule.{schedule_text};
ghost use Rattle.ztx_answers.specs.Reports.{IsReport};
ghost use Rattle.ztx_answers.specs.Races.{IsRaceReport};
ghost use Rattle.ztx_answers.specs.Runs.{AreLimits};
ghost use Rattle.replay_laws.specs.Fed.{CanBeFed, printed_by_run};

/// A listing that gives no schedule makes the same report again, with the same status, where it is given the
/// schedule at its head that its run or its race has printed: whatever the seed is then, and with the same turns and
/// the same tick.
pub fn a_printed_schedule_gives_the_same_report()
    ensures run { (turns tick : ℕ) (seed other : Option ℕ) (input : List ℕ) (status : ℕ) (text : List ℕ)
        → AreLimits turns tick → (r : IsReport turns tick seed input status text)
        → CanBeFed input r.image (printed_by_run turns tick seed r.image)
        → IsReport turns tick other (schedule_text (printed_by_run turns tick seed r.image) ++ input) status text }
    ensures race { (turns tick : ℕ) (other : Option ℕ) (input : List ℕ) (status : ℕ) (text : List ℕ)
        → AreLimits turns tick → (r : IsRaceReport turns tick input status text)
        → CanBeFed input r.image r.events
        → IsReport turns tick other (schedule_text r.events ++ input) status text }
{}
