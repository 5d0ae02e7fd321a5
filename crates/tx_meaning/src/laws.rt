//! Laws of the machine over events. Each law is the contract of a function that does nothing.
ghost use Rattle.std.specs.Prelude.{
  ◌≡◌,
  ◌≢◌,
  ℕ,
  ◌+◌,
  ◌*◌,
  ◌<◌,
  ◌≤◌,
  true,
  false,
  ◌||◌,
  if◌then◌else◌,
  List,
  ◌∷◌,
  All,
};
ghost use Rattle.std.specs.Prelude.{AllPairs, length, count_by, None, not};
ghost use Rattle.tx_serial.specs.Image.{cpu_of_event};
ghost use Rattle.tx_serial.specs.Event.{Event};
ghost use Rattle.tx_serial.specs.Event.TheVariants.{Turn};
ghost use Rattle.line_table.specs.declared.table.Mode.TheVariants.{Shared, Exclusive};
ghost use Rattle.interrogate.specs.Places.{fetches, stores};
ghost use Rattle.tx_ladder.specs.Parameters.{usual};
ghost use Rattle.tx_meaning.specs.Changes.{is_needed};
ghost use Rattle.tx_meaning.specs.Idle.{is_ready};
ghost use Rattle.tx_meaning.specs.IdleOutcomes.{is_idle_outcome};
ghost use Rattle.tx_meaning.specs.Limits.{Setting, turn_limit, tick_limit, external_limit};
ghost use Rattle.tx_meaning.specs.Meaning.{meaning, is_external};
ghost use Rattle.tx_meaning.specs.Needs.{needs_of};
ghost use Rattle.tx_meaning.specs.Queues.{QueueMoves};
ghost use Rattle.tx_meaning.specs.Room.{live_attempts, is_turn, is_turn_of};
ghost use Rattle.tx_meaning.specs.Schedules.{AreReadyTurns, IsComplete, drawn, round};
ghost use Rattle.tx_meaning.specs.State.{State, beginning, cpus_of, is_head};
ghost use Rattle.tx_meaning.specs.Stretches.{bound};
ghost use Rattle.tx_meaning.specs.Turn.{happen};
ghost use Rattle.tx_meaning.specs.declared.asking.Need.{Need};
ghost use Rattle.tx_meaning.specs.declared.limits.TheConstants.{MOST_TURNS, MOST_TICK, MOST_EXTERNALS};
ghost use Rattle.z_regs.specs.declared.ranges.Range.{Range};

/// An event lets CPUs join the stop queue at its tail, and then its head may leave or go to the tail. So
/// nobody passes a CPU in it, and it goes back only as the head. While the queue is not empty, only its head
/// has turns.
pub fn the_queue_changes_at_its_ends()
    ensures event { (m : Setting) (s : State) (e : Event) → QueueMoves s.queue (happen m e s).state.queue }
    ensures head { (m : Setting) (s : State) (i head : ℕ) (rest : List ℕ) → s.queue ≡ head ∷ rest → i ≢ head
        → is_ready m s i ≡ false }
{}

/// The head of the stop queue is never rejected.
pub fn nobody_rejects_the_head()
    ensures { (m : Setting) (s : State) (i : ℕ) → is_head s i ≡ true → (happen m (Turn i) s).reject ≡ None }
{}

/// An idle turn changes nothing, and so is neither counted nor recorded.
pub fn an_idle_turn_changes_nothing()
    ensures { (m : Setting) (s : State) (i : ℕ) → is_ready m s i ≡ false → (happen m (Turn i) s).state ≡ s }
{}

/// The outcome of a turn is an idle one exactly where its CPU is not ready.
pub fn an_outcome_says_whether_the_cpu_was_ready()
    ensures { (m : Setting) (s : State) (i : ℕ)
        → is_idle_outcome (happen m (Turn i) s).outcome ≡ not (is_ready m s i) }
{}

/// The history and the live attempts together never have more entries than there are recorded events. These
/// are
/// few: of a CPU as many turns as it has counted, of all CPUs not more than each may have, and every external
/// interruption.
pub fn what_is_written_has_bounds()
    ensures history { (m : Setting) (events : List Event) → All (λ e. cpu_of_event e < cpus_of m) events
        → length (meaning m events).history + live_attempts m (meaning m events)
        ≤ length (meaning m events).events }
    ensures counted { (m : Setting) (events : List Event) (i : ℕ)
        → count_by (is_turn_of i) (meaning m events).events ≡ ((meaning m events).numbers i).turns }
    ensures turns { (m : Setting) (events : List Event) → All (λ e. cpu_of_event e < cpus_of m) events
        → count_by is_turn (meaning m events).events ≤ cpus_of m * m.limits.turns }
    ensures externals { (m : Setting) (events : List Event)
        → count_by is_external (meaning m events).events ≡ count_by is_external events }
{}

/// For ranges of storage exactly those lines are needed that hold a byte which they fetch or store:
/// exclusively
/// where a byte is stored, else shared, in rising order, and each once.
pub fn the_lines_of_ranges_are_needed()
    ensures lines { (ranges : List Range) (line : ℕ)
        → is_needed (needs_of ranges) line ≡ (fetches ranges line || stores ranges line) }
    ensures modes { (ranges : List Range)
        → All (λ (need : Need). need.mode ≡ (if stores ranges need.line then Exclusive else Shared))
        (needs_of ranges) }
    ensures rising { (ranges : List Range)
        → AllPairs (λ (before after : Need). before.line < after.line) (needs_of ranges) }
{}

/// Drawn and round schedules consist of turns of CPUs that are ready, and are complete: behind them no CPU is
/// ready.
pub fn schedules_are_complete()
    ensures drawn { (m : Setting) (seed : ℕ) → AreReadyTurns m (drawn m seed) beginning }
    ensures drawn_to_the_end { (m : Setting) (seed : ℕ) → IsComplete m (drawn m seed) }
    ensures round { (m : Setting) → AreReadyTurns m (round m) beginning }
    ensures round_to_the_end { (m : Setting) → IsComplete m (round m) }
{}

/// With the usual numbers a constrained transaction needs at most 1,072 turns where nothing interrupts it.
pub fn the_usual_bound()
    ensures { bound usual ≡ 1072 }
{}

/// The numbers of the code are those of the definitions.
pub fn limits_are_the_defined_ones()
    ensures turns { MOST_TURNS ≡ turn_limit }
    ensures tick { MOST_TICK ≡ tick_limit }
    ensures externals { MOST_EXTERNALS ≡ external_limit }
{}
