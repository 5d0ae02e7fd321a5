//! Laws of the machine over all events, by what is kept of it. Each law is the contract of a function that does
//! nothing.
ghost use Rattle.std.specs.Prelude.{◌≡◌, ℕ, ◌<◌, List, ◌++◌};
ghost use Rattle.tx_journal.specs.Image.{cpu_of_event};
ghost use Rattle.tx_journal.specs.declared.events.Event.{Event};
ghost use Rattle.tx_serial.specs.History.{IsLegal};
ghost use Rattle.tx_meaning.specs.Limits.{Setting};
ghost use Rattle.tx_meaning.specs.Meaning.{IsSetting, meaning};
ghost use Rattle.tx_meaning.specs.State.{cpus_of};
ghost use Rattle.tx_meaning.specs.Turn.{happen};
ghost use Rattle.tx_keeping.specs.Keeping.{keeping, IsTrue_to, IsHeld};
ghost use Rattle.tx_keeping.specs.Turn.{k_happen};
ghost use Rattle.tx_meaning.specs.Views.{AreKnown, GoesOnWith, KeepsViews, HoldsTouched};
ghost use Rattle.tx_keeping.specs.Told.{turned_of};

/// The machine that keeps says what the meaning of the events says: after all of them it has the same state, and
/// with each event that comes then the same outcome and the same reject. What it keeps is true: storage and the
/// CPUs are those of the history, each attempt is that of its private run, and each CPU stands on the retry ladder
/// where the history says.
pub fn what_is_kept_is_what_events_mean()
    ensures state { (m : Setting) (events : List Event) → IsSetting m → AreKnown m events
        → meaning m events ≡ (keeping m events).state }
    ensures event { (m : Setting) (events : List Event) (e : Event) → IsSetting m → AreKnown m events
        → cpu_of_event e < cpus_of m
        → happen m e (meaning m events) ≡ turned_of (k_happen m e (keeping m events)) }
    ensures kept { (m : Setting) (events : List Event) → IsSetting m → AreKnown m events
        → IsTrue_to m (keeping m events) }
{}

/// After all events the history is legal: every entry fits in its place. More events only append to it.
pub fn the_history_is_legal_and_only_grows()
    ensures legal { (m : Setting) (events : List Event) → IsSetting m → AreKnown m events
        → IsLegal m.image (meaning m events).history }
    ensures grows { (m : Setting) (events more : List Event) → IsSetting m → AreKnown m events → AreKnown m more
        → GoesOnWith (meaning m events).history (meaning m (events ++ more)).history }
{}

/// No live attempt ever sees a mixed state. Across each event, an attempt that is live, and has completed as many
/// instructions behind the event as before it, shows the same: its CPU, its stores, its open begins, its footprint
/// and every byte of the lines in it.
pub fn no_live_attempt_sees_a_mixed_state()
    ensures { (m : Setting) (events : List Event) (e : Event) → IsSetting m → AreKnown m events
        → cpu_of_event e < cpus_of m
        → KeepsViews m (meaning m events) (happen m e (meaning m events)).state }
{}

/// After all events the holders are sound: an exclusive holder of a line is alone, and no CPU holds more lines than
/// it may. What a live attempt has stored is held exclusively, and what it has fetched at least shared.
pub fn what_live_attempts_touch_is_held()
    ensures meant { (m : Setting) (events : List Event) → IsSetting m → AreKnown m events
        → HoldsTouched m (meaning m events) }
    ensures kept { (m : Setting) (events : List Event) → IsSetting m → AreKnown m events
        → IsHeld m (keeping m events) }
{}
