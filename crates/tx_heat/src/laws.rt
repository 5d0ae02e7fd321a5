//! Laws of conflicts. Each law is the contract of a function that does nothing.
ghost use Rattle.std.specs.Prelude.{◌≡◌, ℕ, ◌∷◌, [], List, true, false, count_by, not};
ghost use Rattle.z_regs.specs.declared.ranges.Range.{Range};
ghost use Rattle.tx_journal.specs.declared.events.Event.{Event};
ghost use Rattle.tx_meaning.specs.Limits.{Setting};
ghost use Rattle.tx_meaning.specs.Meaning.{IsSetting, meaning};
ghost use Rattle.tx_meaning.specs.Needs.{stored};
ghost use Rattle.tx_meaning.specs.State.{cpus_of};
ghost use Rattle.tx_meaning.specs.Views.{AreKnown};
ghost use Rattle.tx_heat.specs.Conflicts.{Conflict, conflicts, is_conflict_abort};
ghost use Rattle.tx_heat.specs.Sums.{sum_below};
ghost use Rattle.tx_heat.specs.Octowords.{are_apart, fetched};

/// Conflicts that are no rejects are the aborts of the history with code 9 or 10, each once.
pub fn aborts_are_those_of_the_history()
    ensures { (m : Setting) (events : List Event) → IsSetting m → AreKnown m events
        → count_by (λ (c : Conflict). not c.rejected) (conflicts m events)
        ≡ count_by is_conflict_abort (meaning m events).history }
{}

/// Conflicts that are rejects are as many as the CPUs have counted, those of all CPUs together.
pub fn rejects_are_those_that_the_cpus_count()
    ensures { (m : Setting) (events : List Event) → AreKnown m events
        → count_by (λ (c : Conflict). c.rejected) (conflicts m events)
        ≡ sum_below (cpus_of m) (λ i. ((meaning m events).numbers i).rejected) }
{}

/// In the line of addresses 9000 to 90ff hex, which is line 144: a store and a load of other octowords lie apart,
/// and of one octoword they do not, even of other bytes. A load lies apart from what was loaded, and a store does
/// not. What lies in other lines has no part in it.
pub fn octowords_are_32_bytes()
    ensures other { are_apart (fetched 36928 8 ∷ []) (stored 36864 8 ∷ []) 144 ≡ true }
    ensures same { are_apart (fetched 36864 8 ∷ []) (stored 36864 8 ∷ []) 144 ≡ false }
    ensures bytes { are_apart (fetched 36888 8 ∷ []) (stored 36864 8 ∷ []) 144 ≡ false }
    ensures next { are_apart (fetched 36896 8 ∷ []) (stored 36864 8 ∷ []) 144 ≡ true }
    ensures loads { are_apart (fetched 36864 8 ∷ []) (fetched 36864 8 ∷ []) 144 ≡ true }
    ensures store { are_apart (stored 36864 8 ∷ []) (fetched 36864 8 ∷ []) 144 ≡ false }
    ensures elsewhere { are_apart (stored 36864 8 ∷ stored 37120 8 ∷ []) (stored 36928 8 ∷ stored 37120 8 ∷ []) 144
        ≡ true }
{}
