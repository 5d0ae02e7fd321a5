//! Laws of moves in a run. Each law is the contract of a function that does nothing.
ghost use Rattle.std.specs.Prelude.{◌≡◌, ℕ, ◌+◌, ◌/◌, ◌<◌, ◌≤◌, false, List, length};
ghost use Rattle.tx_footprint.specs.Places.{stores};
ghost use Rattle.tx_journal.specs.Image.{cpu_of_event};
ghost use Rattle.tx_journal.specs.declared.events.Event.{Event};
ghost use Rattle.tx_meaning.specs.Limits.{Setting};
ghost use Rattle.tx_meaning.specs.Meaning.{IsSetting, meaning};
ghost use Rattle.tx_meaning.specs.State.{cpus_of, flat_of, footprint_of};
ghost use Rattle.tx_meaning.specs.Turn.{happen};
ghost use Rattle.tx_meaning.specs.Views.{AreKnown};
ghost use Rattle.tx_machine.specs.Wanted.{wanted};
ghost use Rattle.tx_step.specs.Traces.{Traced, forward_from, back_from};
ghost use Rattle.tx_step.specs.Moves.{Move, after_moves};

/// Going forward and then as many back is where it was, wherever so many events are ahead.
pub fn forward_and_back_is_where_it_was()
    ensures { (t : Traced) (n : ℕ) → t.position + n ≤ length t.events → back_from n (forward_from n t) ≡ t }
{}

/// Two ways to one position lead to the same, so every call shows the same behind both.
pub fn two_ways_to_a_position_show_the_same()
    ensures { (t : Traced) (one other : List Move)
        → (after_moves one t).position ≡ (after_moves other t).position
        → after_moves one t ≡ after_moves other t }
{}

/// A turn changes bytes of storage only in lines that a live attempt has stored into, and in those that the turn
/// itself has to store into; and what its CPU has stored into afterwards lies in these lines too.
pub fn a_turn_changes_what_is_touched()
    ensures bytes { (m : Setting) (events : List Event) (e : Event) (a : ℕ) → IsSetting m → AreKnown m events
        → cpu_of_event e < cpus_of m → let s = meaning m events in
        ((j : ℕ) → (footprint_of m s j).stored (a / 256) ≡ false)
        → stores (wanted m s (cpu_of_event e)) (a / 256) ≡ false
        → (flat_of m (happen m e s).state).storage a ≡ (flat_of m s).storage a }
    ensures lines { (m : Setting) (events : List Event) (e : Event) (j line : ℕ) → IsSetting m
        → AreKnown m events → cpu_of_event e < cpus_of m → let s = meaning m events in
        (footprint_of m s j).stored line ≡ false
        → (j ≡ cpu_of_event e → stores (wanted m s j) line ≡ false)
        → (footprint_of m (happen m e s).state j).stored line ≡ false }
{}
