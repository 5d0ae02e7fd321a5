//! What holds of all lines. The law is the contract of a function that does nothing.
ghost use Rattle.std.specs.Prelude.{◌≡◌, ℕ, List};
ghost use Rattle.tx_journal.specs.Content.{Content};
ghost use Rattle.report_form.specs.Sheet.{HasForm, IsFirstFault};

/// Lines that have the form of a report have no first fault, and one number of entries and one of events; and no
/// lines have two first faults.
pub fn lines_have_a_form_or_one_fault()
    ensures none { (image : Content) (lines : List (List ℕ)) (entries events number : ℕ)
        → HasForm image lines entries events → ¬ IsFirstFault image lines number }
    ensures counts { (image : Content) (lines : List (List ℕ)) (entries events others further : ℕ)
        → HasForm image lines entries events → HasForm image lines others further
        → (entries ≡ others) × (events ≡ further) }
    ensures once { (image : Content) (lines : List (List ℕ)) (number other : ℕ)
        → IsFirstFault image lines number → IsFirstFault image lines other → number ≡ other }
{}
