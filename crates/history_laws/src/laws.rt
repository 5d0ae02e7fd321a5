//! The text of a history is that of one history alone. Each law is the contract of a function that does nothing.
ghost use Rattle.std.specs.Prelude.{◌≡◌, List, All};
ghost use Rattle.tx_journal.specs.Content.{Content};
ghost use Rattle.tx_journal.specs.Lines.{entry_text, history_text};
ghost use Rattle.tx_journal.specs.Sound.{IsSound};
ghost use Rattle.tx_journal.specs.declared.entries.Entry.{Entry};
ghost use Rattle.tx_serial.specs.Flat.{FlatState};
ghost use Rattle.tx_serial.specs.History.{IsLegal};
ghost use Rattle.history_laws.specs.Fitting.{Fits};

/// A line of a history does not tell whether an exception came at a fetch, nor how long the instruction was. But of
/// the entries that fit on a flat state at most one has that line.
pub fn one_entry_fits_a_text()
    ensures { (f : FlatState) (some other : Entry) → IsSound some → IsSound other → Fits f some → Fits f other
        → entry_text some ≡ entry_text other → some ≡ other }
{}

/// Two legal histories of one image that have the same text are the same.
pub fn a_text_is_one_history()
    ensures { (image : Content) (some others : List Entry) → IsLegal image some → IsLegal image others
        → All IsSound some → All IsSound others → history_text some ≡ history_text others → some ≡ others }
{}
