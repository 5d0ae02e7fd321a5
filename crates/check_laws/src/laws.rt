//! What holds of the report of every machine. Each law is the contract of a function that changes nothing.
ghost use Rattle.std.specs.Prelude.{◌≡◌, ◌≢◌, ℕ, List, length, Result, Ok, Err};
ghost use Rattle.tx_journal.specs.declared.events.Event.{Event};
ghost use Rattle.tx_meaning.specs.Limits.{Setting};
ghost use Rattle.tx_meaning.specs.Meaning.{IsSetting, AreEvents, meaning};
ghost use Rattle.tx_report.specs.Machine.{setting_of, state_of};
ghost use Rattle.tx_report.specs.Report.{report_of};
ghost use Rattle.tx_check.specs.Answers.{IsAccepted, IsDue};
ghost use Rattle.tx_check.specs.Sound.{IsSound};
ghost use Rattle.tx_check.specs.declared.checking.CheckFault.{CheckFault};
ghost use Rattle.tx_check.specs.declared.checking.CheckFault.TheVariants.{Memory};
ghost use Rattle.check_laws.specs.Places.{HasPlaces};

use crate::facts::{has_places, is_set};
use form_laws::laws::nothing_else_is_due_of_a_sound_report;
use tx_report::Machine;

/// The report of a run is sound, where its numbers have their places. It has as many entries as the
/// history.
pub fn the_report_of_a_run_is_sound()
    ensures { (m : Setting) (events : List Event) → IsSetting m → AreEvents m events
        → HasPlaces m (meaning m events)
        → IsSound m.image (report_of m events) (length (meaning m events).history) }
{}

/// They have them in every machine, so its report is sound, and nothing is due of it but that it is accepted, beside
/// want of memory.
pub fn the_report_of_every_machine_is_sound(machine: &Machine)
    ensures sound { IsSound machine.now.image (report_of (setting_of machine.now) machine.now.events)
        (length (state_of machine.now).history) }
    ensures accepted { IsAccepted machine.now.image (report_of (setting_of machine.now) machine.now.events)
        (length (state_of machine.now).history) }
    ensures alone { (answer : Result ℕ CheckFault) → answer ≢ Err Memory
        → IsDue machine.now.image (report_of (setting_of machine.now) machine.now.events) answer
        → answer ≡ Ok (length (state_of machine.now).history) }
{
    is_set(machine);
    has_places(machine);
    nothing_else_is_due_of_a_sound_report();
}
