//! The law that joins printed schedules with the assembler. It is the contract of a function that does nothing.
ghost use Rattle.std.specs.Prelude.{ℕ, List, ◌++◌};
ghost use Rattle.tx_journal.specs.Content.{Content};
ghost use Rattle.tx_journal.specs.Schedule.{schedule_text};
ghost use Rattle.tx_journal.specs.declared.events.Event.{Event};
ghost use Rattle.z_assemble.specs.Whole.{Stands};
ghost use Rattle.schedule_laws.specs.Taken.{MayTake, with_schedule};

/// With the lines of a schedule at its head, as reports print them, a listing that gave none stands for the same
/// image with that schedule.
pub fn printed_schedules_are_taken()
    ensures { (text : List ℕ) (image : Content) (events : List Event) → MayTake text image events
        → Stands (schedule_text events ++ text) (with_schedule events image) }
{}
