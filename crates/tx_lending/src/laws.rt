//! Laws of turns that are made away from the machine. Each law is the contract of a function that does nothing.
ghost use Rattle.std.specs.Prelude.{◌≡◌, ℕ, suc, ◌<◌, true, false, List, Option, replicate};
ghost use Rattle.line_table.specs.declared.table.Mode.{Mode};
ghost use Rattle.z_regs.specs.declared.ranges.Range.{Range};
ghost use Rattle.z_instr.specs.declared.instr.Instr.{Instr};
ghost use Rattle.tx_journal.specs.declared.events.Event.{Event};
ghost use Rattle.tx_journal.specs.declared.events.Event.TheVariants.{Turn};
ghost use Rattle.tx_serial.specs.Flat.{Storage};
ghost use Rattle.tx_progress.specs.Doing.{executed};
ghost use Rattle.tx_progress.specs.Local.{Local, Beside};
ghost use Rattle.tx_progress.specs.Progress.{Progress, is_live};
ghost use Rattle.tx_progress.specs.Trial.{fate_by_progress};
ghost use Rattle.tx_meaning.specs.Limits.{Setting};
ghost use Rattle.tx_meaning.specs.Meaning.{IsSetting};
ghost use Rattle.tx_meaning.specs.State.{cpus_of};
ghost use Rattle.tx_meaning.specs.Views.{AreKnown};
ghost use Rattle.tx_meaning.specs.declared.outcome.Outcome.TheVariants.{Executed};
ghost use Rattle.tx_keeping.specs.Keeping.{keeping, keeping_from};
ghost use Rattle.tx_keeping.specs.Kept.{Kept, text_of, beside};
ghost use Rattle.tx_keeping.specs.Turn.{k_happen, k_turned};
ghost use Rattle.tx_lending.specs.Home.{MayComeHome, brought_home, MayBeTaken, with_taken, IsNow};
ghost use Rattle.tx_lending.specs.Stranger.{GoesOnLike, SeeAlike, gone_on, left_as, upon, waiting, waits_at, only_at};
ghost use Rattle.tx_lending.specs.Turns.{MayMake, with_turns};
ghost use Rattle.tx_lending.specs.Away.{AreDoneAlike, IsClear, GoAway, ran, touched, stored};
ghost use Rattle.tx_lending.specs.Places.{is_among, text_places, operand_places, LookAlike, over};

/// One instruction depends on what it touches. Over two storages in which a CPU sees the same bytes of its next
/// instruction, that has the same fate. Over two in which it sees the same bytes of the operands, the instruction
/// leaves the same CPU, tells the same, and lays the same stores over each storage.
pub fn one_instruction_depends_on_what_it_touches()
    ensures fate { (text : List ℕ) (s t : Storage) (q : Progress)
        → LookAlike (is_among (text_places s q)) q.overlay s t
        → fate_by_progress text t q ≡ fate_by_progress text s q }
    ensures done { (instr : Instr) (ranges : List Range) (local : Local) (s t : Storage)
        → LookAlike (is_among (operand_places ranges local.attempt)) local.attempt.overlay s t
        → AreDoneAlike s t (executed instr ranges record { local = local; storage = s })
        (executed instr ranges record { local = local; storage = t }) }
{}

/// So many turns that a CPU makes away depend on what they touch. Over another storage in which it sees, before the
/// first of them, the same bytes of all their instructions and operands, as many turns go away as well; they leave
/// the same CPU, and what they have stored is laid over that storage.
pub fn lent_turns_depend_on_what_they_touch()
    ensures makes { (text : List ℕ) (held : ℕ → Option Mode) (k : ℕ) (local : Local) (s t : Storage)
        → IsClear local.attempt → GoAway text held k record { local = local; storage = s }
        → LookAlike (touched text k record { local = local; storage = s }) local.attempt.overlay s t
        → ran text k record { local = local; storage = t } ≡ record {
          local = (ran text k record { local = local; storage = s }).local;
          storage = over (stored text k record { local = local; storage = s })
              (ran text k record { local = local; storage = s }).storage t;
        } }
    ensures away { (text : List ℕ) (held : ℕ → Option Mode) (k : ℕ) (local : Local) (s t : Storage)
        → IsClear local.attempt → GoAway text held k record { local = local; storage = s }
        → LookAlike (touched text k record { local = local; storage = s }) local.attempt.overlay s t
        → GoAway text held k record { local = local; storage = t } }
{}

/// Inside a transaction another CPU that goes on like the first makes the same turns, whatever its attempt has stored
/// before: where both see, before the first turn, the same bytes of all instructions and operands, as many of its turns
/// go away; they leave its program as they leave the other's, with what they have stored over its own stores that wait,
/// and storage as it was. What they have stored is what waits in the first at the places of their stored operands.
pub fn a_cpu_that_goes_on_alike_makes_the_same_turns()
    ensures makes { (text : List ℕ) (held : ℕ → Option Mode) (k : ℕ) (local own : Local) (s t : Storage)
        → GoesOnLike local.attempt own.attempt → is_live local.attempt ≡ true
        → GoAway text held k record { local = local; storage = s }
        → SeeAlike (touched text k record { local = local; storage = s }) local.attempt.overlay s
        own.attempt.overlay t
        → ran text k record { local = own; storage = t } ≡ record {
          local = gone_on (ran text k record { local = local; storage = s }).local
              (upon (waiting text k record { local = local; storage = s }) own.attempt.overlay) own;
          storage = t;
        } }
    ensures away { (text : List ℕ) (held : ℕ → Option Mode) (k : ℕ) (local own : Local) (s t : Storage)
        → GoesOnLike local.attempt own.attempt → is_live local.attempt ≡ true
        → GoAway text held k record { local = local; storage = s }
        → SeeAlike (touched text k record { local = local; storage = s }) local.attempt.overlay s
        own.attempt.overlay t
        → GoAway text held k record { local = own; storage = t } }
    ensures waits { (text : List ℕ) (held : ℕ → Option Mode) (k a : ℕ) (b : Beside)
        → is_live b.local.attempt ≡ true → GoAway text held k b
        → waiting text k b a ≡ only_at (waits_at text k b) (ran text k b).local.attempt.overlay a }
{}

/// Outside transactions turns go by the CPU alone. A CPU that is as the first, for which something else is left to do,
/// makes the same turns on the same storage, and that stays to be done; as many of its turns go away.
pub fn what_is_left_to_do_changes_no_turn_outside()
    ensures makes { (text : List ℕ) (held : ℕ → Option Mode) (k : ℕ) (local own : Local) (s : Storage)
        → is_live local.attempt ≡ false → own.cpu ≡ local.cpu → own.attempt ≡ local.attempt
        → GoAway text held k record { local = local; storage = s }
        → ran text k record { local = own; storage = s } ≡ record {
          local = left_as (ran text k record { local = local; storage = s }).local own;
          storage = (ran text k record { local = local; storage = s }).storage;
        } }
    ensures away { (text : List ℕ) (held : ℕ → Option Mode) (k : ℕ) (local own : Local) (s : Storage)
        → is_live local.attempt ≡ false → own.cpu ≡ local.cpu → own.attempt ≡ local.attempt
        → GoAway text held k record { local = local; storage = s }
        → GoAway text held k record { local = own; storage = s } }
{}

/// Turns that could be made away are turns of the machine. Where a CPU of the machine that keeps may have so many
/// turns, and as many go away from what it has of the CPU and of storage, then so many turns of it are recorded, and
/// leave the CPU and storage as those turns do, with an entry for each where no transaction is open. Each of them is
/// executed, with no reject.
pub fn lent_turns_are_turns()
    ensures kept { (m : Setting) (i k : ℕ) (needed : ℕ → Option Mode) (t : Kept) → MayMake m i k needed t
        → GoAway (text_of m) needed k (beside t i)
        → keeping_from m (replicate k (Turn i)) t ≡ with_turns i k (ran (text_of m) k (beside t i)) t }
    ensures each { (m : Setting) (i k : ℕ) (needed : ℕ → Option Mode) (t : Kept) → MayMake m i k needed t
        → GoAway (text_of m) needed k (beside t i) → (j : ℕ) → j < k
        → k_happen m (Turn i) (keeping_from m (replicate j (Turn i)) t)
        ≡ k_turned (keeping_from m (replicate (suc j) (Turn i)) t) Executed }
{}

/// Turns that are brought home are turns of the machine. A CPU has made so many turns on storage of its own; behind
/// all events the machine has that CPU as it was, and where the turns have looked it has the same bytes. Then the
/// events with as many turns of the CPU behind them mean what the turns have made: what they have stored is laid over
/// storage as it is now, and the CPU is as it was left. Each of those turns is executed, with no reject. So it is
/// inside a transaction where another CPU has made the turns, whose attempt goes on like that of the machine's CPU.
pub fn what_is_brought_home_is_so_many_turns()
    ensures own { (m : Setting) (events : List Event) (i k : ℕ) (own : Storage) → IsSetting m
        → AreKnown m events → i < cpus_of m → MayComeHome m i k own (keeping m events)
        → IsNow m events i k (brought_home m i k own (keeping m events)) }
    ensures taken { (m : Setting) (events : List Event) (i k : ℕ) (from : Beside) → IsSetting m
        → AreKnown m events → i < cpus_of m → MayBeTaken m i k from (keeping m events)
        → IsNow m events i k (with_taken m i k from (keeping m events)) }
{}
