//! What holds of all lines. Each law is the contract of a function that does nothing.
ghost use Rattle.std.specs.Prelude.{◌≡◌, ℕ, List};
ghost use Rattle.tx_journal.specs.Content.{Content};
ghost use Rattle.tx_journal.specs.declared.entries.Entry.{Entry};
ghost use Rattle.tx_serial.specs.Flat.{FlatState};
ghost use Rattle.tx_replay.specs.Replay.{IsReplay, IsFirstMisfit};

/// Lines are those of one history of an image at most, or one of them is the first that no entry has which
/// fits; never both.
pub fn lines_have_a_history_or_one_misfit()
    ensures history { (image : Content) (lines : List (List ℕ)) (some others : List Entry) (f g : FlatState)
        → IsReplay image lines some f → IsReplay image lines others g → some ≡ others }
    ensures misfit { (image : Content) (lines : List (List ℕ)) (some other : ℕ)
        → IsFirstMisfit image lines some → IsFirstMisfit image lines other → some ≡ other }
    ensures either { (image : Content) (lines : List (List ℕ)) (entries : List Entry) (f : FlatState)
        (number : ℕ) → IsReplay image lines entries f → ¬ IsFirstMisfit image lines number }
{}
