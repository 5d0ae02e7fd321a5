//! Laws of answers, each the contract of a function that does nothing.
ghost use Rattle.std.specs.Prelude.{◌≡◌, ◌≢◌, ◌+◌, ◌↔◌, ℕ, Bool, IsTrue, true, false, ◌||◌};
ghost use Rattle.tx_footprint.specs.Mode.{Mode};
ghost use Rattle.tx_footprint.specs.Mode.TheVariants.{Shared};
ghost use Rattle.tx_control.specs.declared.causes.Why.{Why};
ghost use Rattle.tx_control.specs.declared.causes.Why.TheVariants.{FetchConflict, StoreConflict};
ghost use Rattle.tx_ladder.specs.Rungs.{Standing};
ghost use Rattle.interrogate.specs.declared.kinds.Answer.TheVariants.{Yields, Rejects, Aborts};
ghost use Rattle.interrogate.specs.declared.kinds.Asker.{Asker};
ghost use Rattle.interrogate.specs.Replies.{Lines, conflicts, reply, after};

/// Without a conflict the holder yields, and with one it does not: it rejects or its attempt is aborted.
pub fn every_conflict_ends()
    ensures { (live : Bool) (fetched stored : Lines) (standing : Standing) (line : ℕ) (mode : Mode)
        (asker : Asker) → (reply live fetched stored standing line mode asker ≡ Yields) ↔
        (conflicts live fetched stored line mode ≡ false) }
{}

/// The head of the stop queue is never rejected, and a late asker never by an unconstrained attempt.
pub fn who_is_never_rejected()
    ensures head { (live : Bool) (fetched stored : Lines) (standing : Standing) (line : ℕ) (mode : Mode)
        (asker : Asker) → IsTrue asker.head → reply live fetched stored standing line mode asker ≢ Rejects }
    ensures late { (live : Bool) (fetched stored : Lines) (standing : Standing) (line : ℕ) (mode : Mode)
        (asker : Asker) → IsTrue asker.late → standing.constrained ≡ false →
        reply live fetched stored standing line mode asker ≢ Rejects }
{}

/// A reject raises the rejects given by one; any other answer leaves the ladder as it is.
pub fn only_rejects_are_counted()
    ensures rejects { (standing : Standing) →
        (after Rejects standing).rejects_given ≡ standing.rejects_given + 1 }
    ensures yields { (standing : Standing) → after Yields standing ≡ standing }
    ensures aborts { (standing : Standing) (why : Why) → after (Aborts why) standing ≡ standing }
{}
