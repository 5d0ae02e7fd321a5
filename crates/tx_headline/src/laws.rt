//! Laws of runs. Each law is the contract of a function that does nothing.
ghost use Rattle.std.specs.Prelude.{◌≡◌, ℕ, ◌+◌, ◌*◌, ◌<◌, ◌≤◌, ◌⊎◌, ◌==◌, ◌||◌, true, false, List, [], ◌∷◌, ◌++◌};
ghost use Rattle.std.specs.List.{list_any};
ghost use Rattle.tx_control.specs.Causes.{code_number};
ghost use Rattle.tx_control.specs.declared.causes.Why.{Why};
ghost use Rattle.tx_control.specs.declared.causes.Why.TheVariants.{Tabort};
ghost use Rattle.tx_headline.specs.Queue.{Joins, QueueChanges, others_before};
ghost use Rattle.tx_headline.specs.Since.{is_conflict, is_program_abort_of, entries_since, turns_after};
ghost use Rattle.tx_headline.specs.Since.{all_turns_after, IsUninterrupted, Opens, CommitsAfter};
ghost use Rattle.tx_journal.specs.declared.events.Event.{Event};
ghost use Rattle.tx_meaning.specs.Views.{AreKnown};
ghost use Rattle.tx_ladder.specs.Parameters.{usual};
ghost use Rattle.tx_ladder.specs.Waiting.{waits_in};
ghost use Rattle.tx_meaning.specs.Limits.{Setting};
ghost use Rattle.tx_meaning.specs.Meaning.{IsSetting, meaning};
ghost use Rattle.tx_meaning.specs.State.{State, is_head, cpus_of};
ghost use Rattle.tx_meaning.specs.Stretches.{Stretch, stretch_of, stretch_after, bound, attempt_turns};
ghost use Rattle.tx_meaning.specs.Stretches.{is_counted_turn, is_end_by, is_end_of, ends_transaction};
ghost use Rattle.tx_meaning.specs.Turn.{happen};

/// The age of a stretch counts turns of its CPU: the turn that opens the stretch, which is a counted one and
/// makes the age 1, and each counted turn since, as long as the stretch stays open.
pub fn ages_count_turns()
    ensures opened { (m : Setting) (s : State) (e : Event) (i : ℕ) (stretch : Stretch)
        → stretch.is_open ≡ false → (stretch_after m s e i stretch).is_open ≡ true
        → ((stretch_after m s e i stretch).age ≡ 1)
        × (((happen m e s).state.numbers i).turns ≡ (s.numbers i).turns + 1) }
    ensures longer { (m : Setting) (s : State) (e : Event) (i : ℕ) (stretch : Stretch)
        → stretch.is_open ≡ true → (stretch_after m s e i stretch).is_open ≡ true
        → (stretch_after m s e i stretch).age + (s.numbers i).turns
        ≡ stretch.age + ((happen m e s).state.numbers i).turns }
{}

/// While a stretch of a CPU is open, its age is below the bound, or below the bound and the turns of one attempt
/// more for each interruption from outside that came to the CPU in it. So in the turn whose number is the bound
/// an uninterrupted transaction has ended: there is no turn of it behind that one.
pub fn ages_stay_below_the_bound()
    ensures { (m : Setting) (events : List Event) (i : ℕ) → IsSetting m → AreKnown m events
        → (stretch_of m events i).is_open ≡ true
        → (stretch_of m events i).age
        < bound m.image.parms + attempt_turns m.image.parms * (stretch_of m events i).externals }
{}

/// The events that a machine records mean what all its events mean: those that it leaves out are turns that
/// were idle and changed nothing.
pub fn recorded_events_mean_the_same()
    ensures { (m : Setting) (events : List Event) → meaning m (meaning m events).events ≡ meaning m events }
{}

/// An event opens a constrained transaction of a CPU, and others follow. If since then no interruption from
/// outside has come to the CPU, by an event or by a tick, and no program interruption of it is among the entries
/// written since, and if the CPU has had as many counted turns as the bound, the one that opened the transaction
/// among them, then a commit of the CPU is among those entries. No transaction of the CPU ends before it. Of the
/// entries before it at most as many are conflict aborts of the CPU as lead to the stop queue, and none is
/// another abort of it. With the usual numbers these are 1,072 turns and eight aborts.
pub fn an_uninterrupted_constrained_transaction_commits()
    ensures commits { (m : Setting) (before since : List Event) (e : Event) (i : ℕ) → IsSetting m
        → AreKnown m ((before ++ e ∷ []) ++ since) → Opens m before e i
        → IsUninterrupted m (before ++ e ∷ []) since i
        → list_any (is_program_abort_of i) (entries_since m (before ++ e ∷ []) since) ≡ false
        → turns_after m before i + bound m.image.parms ≤ turns_after m ((before ++ e ∷ []) ++ since) i
        → CommitsAfter m.image.parms.stop i (entries_since m (before ++ e ∷ []) since) }
    ensures usually { (m : Setting) (before since : List Event) (e : Event) (i : ℕ) → IsSetting m
        → AreKnown m ((before ++ e ∷ []) ++ since) → m.image.parms ≡ usual → Opens m before e i
        → IsUninterrupted m (before ++ e ∷ []) since i
        → list_any (is_program_abort_of i) (entries_since m (before ++ e ∷ []) since) ≡ false
        → turns_after m before i + 1072 ≤ turns_after m ((before ++ e ∷ []) ++ since) i
        → CommitsAfter 8 i (entries_since m (before ++ e ∷ []) since) }
{}

/// Conflict aborts are those that are printed with the codes 9, 10 and 255, and program interruptions those with
/// the code 4, as long as TABORT has none of these codes: its own are above 255.
pub fn causes_have_their_codes()
    ensures conflicts { (why : Why) → ((code : ℕ) → why ≡ Tabort code → 255 < code)
        → is_conflict why ≡ (((code_number why == 9) || (code_number why == 10)) || (code_number why == 255)) }
    ensures program { (why : Why) → ((code : ℕ) → why ≡ Tabort code → 255 < code)
        → is_end_by why ≡ (code_number why == 4) }
{}

/// Why the stop queue changes. A CPU joins it at the tail where its conflict aborts have become as many as lead
/// there, and where it did not wait. The head leaves exactly where its transaction ends by a commit or by a
/// program interruption, and goes last only where it is interrupted from outside. Fewer CPUs stand before one
/// that waits than the machine has. While the queue is not empty, only its head has counted turns.
pub fn the_queue_changes_for_a_reason()
    ensures changes { (m : Setting) (events : List Event) (e : Event) → IsSetting m
        → AreKnown m (events ++ e ∷ []) → QueueChanges m (meaning m events) e }
    ensures few { (m : Setting) (events : List Event) (i : ℕ) → IsSetting m → AreKnown m events
        → waits_in (meaning m events).queue i ≡ true → others_before i (meaning m events).queue < cpus_of m }
    ensures head { (m : Setting) (s : State) (e : Event) (i : ℕ) → is_counted_turn m s e i ≡ true
        → (s.queue ≡ []) ⊎ (is_head s i ≡ true) }
{}

/// What these changes say of one CPU. If it waits behind an event and did not before, it has joined: it is a CPU of
/// the machine, and its conflict aborts have become as many as lead there. If it waited and does no longer, its
/// transaction has ended, by a commit or by a program interruption.
pub fn who_joins_and_who_leaves()
    ensures joins { (m : Setting) (s : State) (e : Event) (j : ℕ) → QueueChanges m s e
        → waits_in s.queue j ≡ false → waits_in (happen m e s).state.queue j ≡ true
        → Joins m s (happen m e s).state j }
    ensures leaves { (m : Setting) (s : State) (e : Event) (j : ℕ) → QueueChanges m s e
        → waits_in s.queue j ≡ true → waits_in (happen m e s).state.queue j ≡ false
        → ends_transaction s (happen m e s).state j ≡ true }
{}

/// Where no interruption from outside comes to any CPU, a CPU in the stop queue comes to the end of its
/// transaction, a commit or a program interruption, within 34 counted turns of the whole machine for itself and
/// for each CPU that stands before it.
pub fn everyone_in_the_queue_is_served()
    ensures { (m : Setting) (events since : List Event) (i : ℕ) → IsSetting m → AreKnown m (events ++ since)
        → ((j : ℕ) → j < cpus_of m → IsUninterrupted m events since j)
        → waits_in (meaning m events).queue i ≡ true
        → all_turns_after m events + 34 * (others_before i (meaning m events).queue + 1)
        ≤ all_turns_after m (events ++ since)
        → list_any (is_end_of i) (entries_since m events since) ≡ true }
{}
