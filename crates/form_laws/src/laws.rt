//! The lines of reports. Each law is the contract of a function that does nothing.
ghost use Rattle.std.specs.Prelude.{◌≡◌, ◌≢◌, ◌↔◌, ℕ, List, length, Result, Ok, Err};
ghost use Rattle.tx_journal.specs.Content.{Content};
ghost use Rattle.report_form.specs.Sheet.{HasForm};
ghost use Rattle.report_text.specs.Report.{report_text};
ghost use Rattle.report_text.specs.Shown.{Shown};
ghost use Rattle.tx_check.specs.Answers.{IsAccepted, IsDue};
ghost use Rattle.tx_check.specs.Lines.{lines_of};
ghost use Rattle.tx_check.specs.Sound.{IsSound};
ghost use Rattle.tx_check.specs.declared.checking.CheckFault.{CheckFault};
ghost use Rattle.tx_check.specs.declared.checking.CheckFault.TheVariants.{Memory};
ghost use Rattle.form_laws.specs.Reportable.{CanBeReported};

use tx_check::one_answer_is_due;

/// The report of a state whose numbers have their places has the form, with as many entries and events as the
/// state.
pub fn a_report_has_the_form()
    ensures { (image : Content) (s : Shown) → CanBeReported image s
        → HasForm image (lines_of (report_text s)) (length s.history) (length s.events) }
{}

/// A sound report is accepted, and only a sound one is.
pub fn sound_reports_are_accepted()
    ensures { (image : Content) (report : List ℕ) (entries : ℕ)
        → IsSound image report entries ↔ IsAccepted image report entries }
{}

/// So of a sound report nothing is due but the number of its entries, beside want of memory.
pub fn nothing_else_is_due_of_a_sound_report()
    ensures { (image : Content) (report : List ℕ) (entries : ℕ) (answer : Result ℕ CheckFault)
        → IsSound image report entries → answer ≢ Err Memory → IsDue image report answer
        → answer ≡ Ok entries }
{
    one_answer_is_due();
}
