//! Laws of the retry ladder. Each law is the contract of a function that does nothing.
ghost use Rattle.std.specs.Prelude.{◌≡◌, ◌≢◌, ◌↔◌, ℕ, ◌+◌, ◌*◌, ◌<◌, ◌≤◌, ◌⊎◌, true, false, List, [], Some};
ghost use Rattle.std.specs.Prelude.{None};
ghost use Rattle.std.specs.Prelude.{AllPairs};
ghost use Rattle.tx_journal.specs.declared.events.Event.{Event};
ghost use Rattle.tx_meaning.specs.Views.{AreKnown};
ghost use Rattle.tx_ladder.specs.Waiting.{waits_in};
ghost use Rattle.tx_meaning.specs.Hits.{hits};
ghost use Rattle.tx_meaning.specs.Limits.{Setting};
ghost use Rattle.tx_meaning.specs.Meaning.{IsSetting, meaning};
ghost use Rattle.tx_meaning.specs.State.{is_live, is_head};
ghost use Rattle.tx_meaning.specs.Stretches.{stretch_of, is_end_by, left, left_by, bound, attempt_turns};
ghost use Rattle.tx_meaning.specs.Stretches.{stretch_after, ends_transaction, counted, is_counted_turn};
ghost use Rattle.tx_meaning.specs.Turn.{happen};
ghost use Rattle.tx_constraint.specs.Kept.{Kept};
ghost use Rattle.tx_ladder.specs.Parameters.{Parameters, usual};
ghost use Rattle.tx_ladder.specs.Rungs.{delay_after};
ghost use Rattle.tx_meaning.specs.Heads.{head_turns};
ghost use Rattle.tx_bounds.specs.Stretches.{IsUnderWay};
ghost use Rattle.tx_serial.specs.Alike.{AgreeInText};
ghost use Rattle.tx_serial.specs.Attempt.{at_rest};
ghost use Rattle.tx_serial.specs.Fate.{Goes, Ends, fate};
ghost use Rattle.tx_serial.specs.Flat.{Storage, FlatState};
ghost use Rattle.tx_control.specs.Nesting.{is_constrained};
ghost use Rattle.tx_control.specs.declared.causes.Why.{Why};
ghost use Rattle.tx_control.specs.declared.causes.Why.TheVariants.{FetchOverflow, StoreOverflow};
ghost use Rattle.tx_progress.specs.Local.{Local};
ghost use Rattle.tx_progress.specs.Reached.{IsFollowed};
ghost use Rattle.tx_progress.specs.Trial.{fate_by_progress, place_refusal_by, overflow_refusal_by};
ghost use Rattle.z_effect.specs.One.{one};
ghost use Rattle.z_effect.specs.Outcome.{Aborts};
ghost use Rattle.z_instr.specs.Table.{entry_at};
ghost use Rattle.z_instr.specs.declared.instr.Instr.{Instr};
ghost use Rattle.z_instr.specs.declared.operand.Demand.TheVariants.{BeginConstrained};
ghost use Rattle.z_regs.specs.Cpu.{Cpu};
ghost use Rattle.z_regs.specs.Prefix.{is_prefix};
ghost use Rattle.z_regs.specs.declared.ranges.Range.{Range};

/// After every list of events the history counts for no CPU more conflict aborts than the number at which it
/// joins the stop queue. Those with so many are the CPUs of the queue, each of them once in it; and of them
/// only the head has a live attempt.
pub fn conflict_aborts_lead_to_the_stop_queue()
    ensures few { (m : Setting) (events : List Event) (i : ℕ) → IsSetting m → AreKnown m events
        → hits m.image (meaning m events).history i ≤ m.image.parms.stop }
    ensures queued { (m : Setting) (events : List Event) (i : ℕ) → IsSetting m → AreKnown m events
        → (waits_in (meaning m events).queue i ≡ true)
        ↔ (hits m.image (meaning m events).history i ≡ m.image.parms.stop) }
    ensures once { (m : Setting) (events : List Event) → IsSetting m → AreKnown m events
        → AllPairs ◌≢◌ (meaning m events).queue }
    ensures head { (m : Setting) (events : List Event) (i : ℕ) → IsSetting m → AreKnown m events
        → waits_in (meaning m events).queue i ≡ true → is_live (meaning m events) i ≡ true
        → is_head (meaning m events) i ≡ true }
{}

/// Whether a constrained begin goes, outside transactions, depends on the text, on the prefix and on the
/// address alone, and not on registers, condition code, mask or other storage: where it has gone once, it
/// goes again on a CPU with that prefix at that address, over storage with that text.
pub fn a_constrained_begin_goes_again()
    ensures { (text : List ℕ) (s t : Storage) (c d : Cpu) (i : Instr) (ranges : List Range)
        → (entry_at i.op.number).demand ≡ BeginConstrained → d.prefix ≡ c.prefix → d.address ≡ c.address
        → AgreeInText c.prefix text s t → fate text (at_rest s c) ≡ Goes i ranges
        → fate text (at_rest t d) ≡ Goes i [] }
{}

/// While a stretch of a CPU is open, from the start of its first constrained attempt to the commit or the
/// program interruption that ends the transaction, the CPU is in the middle of a constrained transaction,
/// whatever aborts its attempts. It is running, and nothing is left to be done before its next instruction;
/// between attempts that is the begin, which goes. A live attempt is constrained and not nested, waits no
/// turns, has completed from 1 to 33 instructions, and fewer of its requests were rejected than would
/// starve it. The CPU is in the stop queue exactly where it has as many conflict aborts as lead there; then
/// it waits no turns, and has a live attempt only as the head. Otherwise it waits no longer than its
/// conflict aborts ask.
pub fn an_open_stretch_is_a_transaction_under_way()
    ensures { (m : Setting) (events : List Event) (i : ℕ) → IsSetting m → AreKnown m events
        → (stretch_of m events i).is_open ≡ true → IsUnderWay m (meaning m events) i }
{}

/// While a stretch of a CPU is open, at least one turn is left to its transaction, by the count of the
/// turns that it can still need.
pub fn turns_are_left_to_an_open_stretch()
    ensures { (m : Setting) (events : List Event) (i : ℕ) → IsSetting m → AreKnown m events
        → (stretch_of m events i).is_open ≡ true → 1 ≤ left m (meaning m events) i }
{}

/// The count of the turns that a constrained transaction can still need goes down the ladder, by its
/// numbers: the conflict aborts `a`, the turns `d` to be waited, and of the live attempt the completed
/// instructions `n` and the rejected requests `r`. With the first instruction it is one below the bound.
/// One instruction more, one reject more and one turn less to be waited each lower it by one. A conflict
/// abort lowers it by two or more, on each rung and at the last. An abort from outside raises it by less
/// than the turns of one attempt.
pub fn what_is_left_goes_down_the_ladder()
    ensures begun { (p : Parameters) → 0 < p.stop → 1 + left_by p 0 0 1 0 ≡ bound p }
    ensures executed { (p : Parameters) (a d n r : ℕ) → n ≤ 33 → r < p.starve
        → left_by p a d (n + 1) r + 1 ≡ left_by p a d n r }
    ensures rejected { (p : Parameters) (a d n r : ℕ) → a < p.stop → n ≤ 33 → r < p.starve
        → left_by p a d n (r + 1) + 1 ≡ left_by p a d n r }
    ensures delayed { (p : Parameters) (a d n r : ℕ) → a < p.stop
        → left_by p a d n r + 1 ≡ left_by p a (d + 1) n r }
    ensures climbed { (p : Parameters) (a n r : ℕ) → a + 1 < p.stop → n ≤ 33 → r < p.starve
        → left_by p (a + 1) (delay_after p (a + 1)) 0 0 + 2 ≤ left_by p a 0 n r }
    ensures joined { (p : Parameters) (a n r : ℕ) → a + 1 ≡ p.stop → n ≤ 33 → r < p.starve
        → left_by p (a + 1) 0 0 0 + 2 ≤ left_by p a 0 n r }
    ensures outside { (p : Parameters) (a n r : ℕ) → n ≤ 33 → r < p.starve
        → left_by p a 0 0 0 + 1 ≤ left_by p a 0 n r + attempt_turns p }
{}

/// While a stretch of a CPU is open, the counted turns that the CPU has had in it and those that are left to
/// its transaction stay within the bound, and within the turns of one attempt more for each interruption from
/// outside that came to the CPU in it. So a constrained transaction that nothing interrupts is at its end by
/// the turn whose number is the bound: 1,072 with the usual numbers. And its end is a commit or a program
/// interruption, as an entry of the history.
pub fn a_constrained_transaction_has_few_turns()
    ensures within { (m : Setting) (events : List Event) (i : ℕ) → IsSetting m → AreKnown m events
        → (stretch_of m events i).is_open ≡ true
        → (stretch_of m events i).age + left m (meaning m events) i
        ≤ bound m.image.parms + attempt_turns m.image.parms * (stretch_of m events i).externals }
    ensures uninterrupted { (m : Setting) (events : List Event) (i : ℕ) → IsSetting m → AreKnown m events
        → (stretch_of m events i).is_open ≡ true → (stretch_of m events i).externals ≡ 0
        → (stretch_of m events i).age < bound m.image.parms }
    ensures usual { (m : Setting) (events : List Event) (i : ℕ) → IsSetting m → AreKnown m events
        → m.image.parms ≡ usual
        → (stretch_of m events i).is_open ≡ true → (stretch_of m events i).externals ≡ 0
        → (stretch_of m events i).age < 1072 }
    ensures ended { (m : Setting) (events : List Event) (e : Event) (i : ℕ)
        → (stretch_of m events i).is_open ≡ true
        → (stretch_after m (meaning m events) e i (stretch_of m events i)).is_open ≡ false
        → ends_transaction (meaning m events) (happen m e (meaning m events)).state i ≡ true }
{}

/// A CPU in the stop queue has an open stretch. As the head it has few turns: before each event it has had at
/// most 33 counted turns since it became the head or was last interrupted from outside, and so at most 34,
/// with the one that ends its transaction. (That none of them is rejected is a law of the machine's
/// definitions.)
pub fn the_head_of_the_queue_has_few_turns()
    ensures open_stretch { (m : Setting) (events : List Event) (i : ℕ) → IsSetting m → AreKnown m events
        → waits_in (meaning m events).queue i ≡ true → (stretch_of m events i).is_open ≡ true }
    ensures few { (m : Setting) (events : List Event) (i : ℕ) → IsSetting m → AreKnown m events
        → head_turns m events i ≤ 33 }
    ensures in_all { (m : Setting) (events : List Event) (e : Event) (i : ℕ) → IsSetting m → AreKnown m events
        → head_turns m events i + counted (is_counted_turn m (meaning m events) e i) ≤ 34 }
{}

/// An instruction of a constrained attempt that keeps the constraint on operands has room in the footprint:
/// all operands lie in at most four octowords, so in at most four lines and four blocks.
pub fn a_constrained_footprint_has_room()
    ensures { (f : FlatState) (i : ℕ) (local : Local) (kept : Kept) (instr : Instr) → IsFollowed f i local
        → is_prefix local.cpu.prefix ≡ true → local.attempt.constraint ≡ Some kept
        → place_refusal_by local.attempt instr ≡ None → overflow_refusal_by local.attempt instr ≡ None }
{}

/// An instruction that the constraints permit does not abort the transaction that it is executed in.
pub fn a_permitted_instruction_does_not_abort()
    ensures { (i : Instr) (c : Cpu) (depth code : ℕ) (bytes : List ℕ)
        → (entry_at i.op.number).permitted ≡ true → one i c depth bytes ≢ Aborts code }
{}

/// Where a test of its next instruction ends a constrained attempt, it does so by a program interruption, or
/// because the footprint would overflow: never as restricted, too deep or filtered. On a CPU with a prefix
/// that it may have the footprint does not overflow.
pub fn a_test_ends_a_constrained_attempt_by_a_program_interruption()
    ensures causes { (f : FlatState) (i : ℕ) (local : Local) (why : Why) → IsFollowed f i local
        → is_constrained local.attempt.nest ≡ true
        → fate_by_progress f.text f.storage local.attempt ≡ Ends why
        → (is_end_by why ≡ true) ⊎ ((why ≡ FetchOverflow) ⊎ (why ≡ StoreOverflow)) }
    ensures ends { (f : FlatState) (i : ℕ) (local : Local) (why : Why) → IsFollowed f i local
        → is_prefix local.cpu.prefix ≡ true → is_constrained local.attempt.nest ≡ true
        → fate_by_progress f.text f.storage local.attempt ≡ Ends why → is_end_by why ≡ true }
{}
