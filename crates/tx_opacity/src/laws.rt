//! Laws of what live attempts see. Each law is the contract of a function that does nothing.
ghost use Rattle.std.specs.Prelude.{ℕ, ◌<◌, List};
ghost use Rattle.tx_journal.specs.Image.{cpu_of_event};
ghost use Rattle.tx_journal.specs.declared.events.Event.{Event};
ghost use Rattle.tx_meaning.specs.Limits.{Setting};
ghost use Rattle.tx_meaning.specs.Meaning.{IsSetting, meaning};
ghost use Rattle.tx_meaning.specs.State.{cpus_of};
ghost use Rattle.tx_meaning.specs.Turn.{happen};
ghost use Rattle.tx_meaning.specs.Views.{AreKnown};
ghost use Rattle.tx_opacity.specs.Opacity.{SeesOneRun};

/// An attempt that is live before an event and behind it has seen the same: the run of the instructions that it
/// had completed before shows, on the storage behind the event, all that it showed on the storage before it. This
/// holds of every CPU, the one included whose attempt executes its next instruction in this event; so whatever an
/// attempt has read at any time, it could have read at once now, whether it commits later or not.
pub fn an_attempt_sees_one_run()
    ensures { (m : Setting) (events : List Event) (e : Event) → IsSetting m → AreKnown m events
        → cpu_of_event e < cpus_of m
        → SeesOneRun m (meaning m events) (happen m e (meaning m events)).state }
{}
