//! The entries of every machine's history are sound. Each law is the contract of a function that does
//! nothing.
ghost use Rattle.std.specs.Prelude.{◌≡◌, ◌<◌, List, All, length};
ghost use Rattle.tx_journal.specs.Content.{Content};
ghost use Rattle.tx_journal.specs.Image.{IsImage};
ghost use Rattle.tx_journal.specs.Lines.{history_text};
ghost use Rattle.tx_journal.specs.Sound.{IsSound};
ghost use Rattle.tx_journal.specs.declared.entries.Entry.{Entry};
ghost use Rattle.tx_journal.specs.declared.events.Event.{Event};
ghost use Rattle.tx_serial.specs.Changes.{cpu_of_entry};
ghost use Rattle.tx_serial.specs.History.{IsLegal};
ghost use Rattle.tx_meaning.specs.Limits.{Setting};
ghost use Rattle.tx_meaning.specs.Meaning.{IsSetting, meaning};
ghost use Rattle.tx_meaning.specs.Views.{AreKnown};
ghost use Rattle.sound_laws.specs.Parts.{HasCause, HasAtMost};

/// Every entry of a legal history is of a CPU of the image. And its aborts have causes that a machine finds:
/// a conflict is on a line of storage, TABORT has given a code above those of the machine, and the code of an
/// exception is a halfword.
pub fn legal_entries_have_cpus_and_causes()
    ensures cpus { (image : Content) (history : List Entry) → IsImage image → IsLegal image history
        → All (λ e. cpu_of_entry e < length image.cpus) history }
    ensures causes { (image : Content) (history : List Entry) → IsImage image → IsLegal image history
        → All HasCause history }
{}

/// An attempt completes no more instructions than a CPU may have turns.
pub fn attempts_take_turns()
    ensures { (m : Setting) (events : List Event) → IsSetting m → AreKnown m events
        → All (HasAtMost m.limits.turns) (meaning m events).history }
{}

/// After all events of CPUs that there are, every entry of the history is sound.
pub fn every_entry_is_sound()
    ensures { (m : Setting) (events : List Event) → IsSetting m → AreKnown m events
        → All IsSound (meaning m events).history }
{}

/// The text of a machine's history is that of one history. Whatever the limits and the events of two machines
/// of one image are, histories with the same text are the same; and no other legal history of the image with
/// sound entries has that text.
pub fn a_machine_is_told_by_its_history()
    ensures machines { (m other : Setting) (events others : List Event) → IsSetting m → IsSetting other
        → other.image ≡ m.image → AreKnown m events → AreKnown other others
        → history_text (meaning other others).history ≡ history_text (meaning m events).history
        → (meaning other others).history ≡ (meaning m events).history }
    ensures alone { (m : Setting) (events : List Event) (history : List Entry) → IsSetting m
        → AreKnown m events → IsLegal m.image history → All IsSound history
        → history_text history ≡ history_text (meaning m events).history
        → history ≡ (meaning m events).history }
{}
