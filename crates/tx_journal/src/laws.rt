//! What holds of all lines of the history. Each law is the contract of a function that does nothing.
ghost use Rattle.std.specs.Prelude.{◌≡◌, ℕ, List, All};
ghost use Rattle.tx_journal.specs.declared.entries.Entry.{Entry};
ghost use Rattle.tx_journal.specs.declared.entries.EntryText.{EntryText};
ghost use Rattle.tx_journal.specs.declared.lines.Line.{Line};
ghost use Rattle.tx_journal.specs.declared.events.Event.{Event};
ghost use Rattle.tx_journal.specs.Schedule.{IsNumbered, schedule_text};
ghost use Rattle.tx_journal.specs.Lines.{IsLine, line_text, line_of, entry_text, fields_of, Spells};
ghost use Rattle.tx_journal.specs.Sound.{IsSound, told};

/// No text is that of two lines, so it says one thing.
pub fn a_text_is_one_line()
    ensures line { (l m : Line) → IsLine l → IsLine m → line_text l ≡ line_text m → l ≡ m }
    ensures fields { (text : List ℕ) (t u : EntryText) → Spells text t → Spells text u → t ≡ u }
{}

/// The line of an entry that a machine can write has a reading, which gives the entry's fields, and no other.
/// So two such entries with one text are the same as far as their lines tell: they differ at most in whether
/// an exception came at a fetch and in the length of its instruction.
pub fn entries_read_back()
    ensures there { (e : Entry) → IsSound e → Spells (entry_text e) (fields_of (line_of e)) }
    ensures exact { (e : Entry) (t : EntryText) → IsSound e → Spells (entry_text e) t
        → t ≡ fields_of (line_of e) }
    ensures distinct { (e f : Entry) → IsSound e → IsSound f → entry_text e ≡ entry_text f → told e ≡ told f }
{}

/// No two lists of events have one text, so a text that prints events tells all of them.
pub fn a_text_is_one_schedule()
    ensures { (some others : List Event) → All IsNumbered some → All IsNumbered others
        → schedule_text some ≡ schedule_text others → some ≡ others }
{}
