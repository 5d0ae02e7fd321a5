//! What holds of all reports. Each law is the contract of a function that does nothing.
ghost use Rattle.std.specs.Prelude.{◌≡◌, ◌≢◌, ℕ, List, Result, Err};
ghost use Rattle.tx_journal.specs.Content.{Content};
ghost use Rattle.tx_check.specs.declared.checking.CheckFault.{CheckFault};
ghost use Rattle.tx_check.specs.declared.checking.CheckFault.TheVariants.{Memory};
ghost use Rattle.tx_check.specs.Answers.{IsDue};

use tx_replay::lines_have_a_history_or_one_misfit;

/// Of a report of an image at most one answer is due beside want of memory: that it is sound with so many entries,
/// or that one line leaves the form, one entry does not fit, or one line is not as expected.
pub fn one_answer_is_due()
    ensures once { (image : Content) (report : List ℕ) (some other : Result ℕ CheckFault)
        → some ≢ Err Memory → other ≢ Err Memory
        → IsDue image report some → IsDue image report other → some ≡ other }
{
    lines_have_a_history_or_one_misfit();
}
