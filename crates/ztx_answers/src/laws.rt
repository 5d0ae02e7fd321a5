//! What holds of all answers. Each law is the contract of a function that does nothing.
ghost use Rattle.std.specs.Prelude.{◌≢◌, ℕ, List};
ghost use Rattle.tx_journal.specs.declared.events.Event.{Event};
ghost use Rattle.tx_meaning.specs.Views.{AreKnown};
ghost use Rattle.tx_meaning.specs.Limits.{Setting};
ghost use Rattle.tx_meaning.specs.Meaning.{IsSetting};
ghost use Rattle.listing_answers.specs.Due.{IsGenerated};
ghost use Rattle.run_answers.specs.Reports.{IsSummary};
ghost use Rattle.ztx_answers.specs.One.{IsSome, IsOnly};
ghost use Rattle.ztx_answers.specs.Requests.{IsAllowed, IsDue};
ghost use Rattle.run_answers.specs.Serial.{IsSerialRun};
ghost use Rattle.ztx_answers.specs.declared.requests.Request.{Request};
ghost use Rattle.ztx_answers.specs.declared.requests.Request.TheVariants.{Check};

/// Whatever the schedule, what happens is one serial history on flat storage, behind each event, and the
/// retry ladder keeps its bounds.
pub fn every_run_is_serial()
    ensures { (m : Setting) (events : List Event) → IsSetting m → AreKnown m events → IsSerialRun m events }
{}

/// For every input there is an answer, and only one: one status with one text. Of `check` this says that there is at
/// most one.
pub fn one_answer_is_due()
    ensures some { (request : Request) (input : List ℕ) → IsAllowed request → request ≢ Check
        → IsSome (IsDue request input) }
    ensures one { (request : Request) (input : List ℕ) → IsOnly (IsDue request input) }
    ensures summed { (number : ℕ) → IsSome (IsSummary number) }
    ensures one_summary { (number : ℕ) → IsOnly (IsSummary number) }
    ensures one_listing { (number : ℕ) → IsOnly (IsGenerated number) }
{
    run_answers::one_answer_is_due();
}
