//! Laws of progress and of what is kept of a CPU. Each law is the contract of a function that does nothing.
ghost use Rattle.std.specs.Prelude.{◌≡◌, ◌≢◌, ℕ, ◌/◌, ◌<◌, ◌≤◌, suc, true, false, ◌||◌, nat_eq, is_some};
ghost use Rattle.std.specs.Prelude.{List, []};
ghost use Rattle.std.specs.Prelude.{◌∷◌, Some, None, Option, length};
ghost use Rattle.std.specs.List.{list_any};
ghost use Rattle.z_regs.specs.Cpu.{Cpu};
ghost use Rattle.z_regs.specs.Prefix.{absolute_of, is_prefix, area_size, storage_size};
ghost use Rattle.z_regs.specs.Absolute.{absolute_ranges};
ghost use Rattle.tx_footprint.specs.Places.{stores};
ghost use Rattle.z_regs.specs.declared.image.RunState.TheVariants.{Running};
ghost use Rattle.z_regs.specs.declared.ranges.Range.{Range};
ghost use Rattle.z_regs.specs.declared.waiting.Waiting.{Waiting};
ghost use Rattle.z_instr.specs.declared.instr.Instr.{Instr};
ghost use Rattle.z_instr.specs.Roles.{begins};
ghost use Rattle.z_instr.specs.Table.{entry_at};
ghost use Rattle.z_effect.specs.Outcome.{Did};
ghost use Rattle.z_effect.specs.Outcome as outcome;
ghost use Rattle.tx_control.specs.Nesting.{is_constrained};
ghost use Rattle.tx_control.specs.declared.causes.Why.{Why};
ghost use Rattle.tx_control.specs.declared.causes.Why.TheVariants.{External, FetchConflict, StoreConflict};
ghost use Rattle.tx_control.specs.declared.causes.Why.TheVariants.{Starved};
ghost use Rattle.tx_control.specs.declared.exceptions.Exception.{Exception};
ghost use Rattle.tx_footprint.specs.LineTableSizes.{storage_lines};
ghost use Rattle.tx_footprint.specs.Sizes.{line_size, block_size};
ghost use Rattle.tx_serial.specs.Entry.TheVariants.{Step, Commit, Abort, Tdb, Interrupt};
ghost use Rattle.tx_serial.specs.Alike.{track_of, touched_addresses, AreAlike};
ghost use Rattle.tx_serial.specs.Apply.{may_act};
ghost use Rattle.tx_serial.specs.Attempt.{Open, Overflowed, Missing, footprint};
ghost use Rattle.tx_serial.specs.Ending.{fits};
ghost use Rattle.tx_serial.specs.Fate.{Goes, Ends, Stops, fate};
ghost use Rattle.tx_serial.specs.Flat.{FlatState, Storage, Pending, with_bytes_at};
ghost use Rattle.tx_serial.specs.Run.{run, may_follow, mark_in, nest_after, outcome_of};
ghost use Rattle.tx_progress.specs.Doing.{executed, stopped};
ghost use Rattle.tx_progress.specs.Followed.{Advances, AreSameTo, beside_in, Leaves, GoesOnAs, KeepsTo};
ghost use Rattle.tx_progress.specs.Followed.{KeepsLimits, RunTells, TouchesMore, ChangesIn};
ghost use Rattle.tx_progress.specs.Local.{Local, flat_from, aborted, block_stored, interruption_taken};
ghost use Rattle.tx_progress.specs.Progress.{resting, seen_through, is_live};
ghost use Rattle.tx_progress.specs.Reached.{progress_of, IsFollowed};
ghost use Rattle.tx_progress.specs.Trial.{fate_by_progress, outcome_by};
ghost use Rattle.tx_progress.specs.declared.done.Done.TheVariants as done;

/// Progress follows the run. It starts at rest, counts the instructions, and shows the run's copy of storage
/// through its overlay. The fate of the next instruction and its outcome are those that the progress gives.
/// With one instruction more the progress is the advanced one, and the mark is told by the open begins.
pub fn progress_follows_the_run()
    ensures start { (f : FlatState) (i : ℕ) → progress_of (run f i 0) ≡ resting (f.cpus i) }
    ensures count { (f : FlatState) (i k : ℕ) → (run f i k).mark ≢ Missing
        → (progress_of (run f i k)).count ≡ k }
    ensures copy { (f : FlatState) (i k : ℕ)
        → (run f i k).copy ≡ seen_through (progress_of (run f i k)).overlay f.storage }
    ensures fate { (f : FlatState) (i k : ℕ) → (run f i k).mark ≡ Open
        → fate f.text (run f i k) ≡ fate_by_progress f.text f.storage (progress_of (run f i k)) }
    ensures outcome { (f : FlatState) (i k : ℕ) (instr : Instr) (ranges : List Range)
        → outcome_of instr ranges (run f i k) ≡ outcome_by f.storage instr ranges (progress_of (run f i k)) }
    ensures completed { (f : FlatState) (i k : ℕ) (instr : Instr) (ranges : List Range) (c : Cpu)
        (bytes : List ℕ) → (run f i k).mark ≡ Open → fate f.text (run f i k) ≡ Goes instr ranges
        → may_follow (run f i k).nest instr ≡ true → outcome_of instr ranges (run f i k) ≡ Did c bytes
        → Advances (run f i (suc k)) instr ranges c bytes (progress_of (run f i k))
        (mark_in (nest_after instr (run f i k).cpu.general (run f i k).nest)) }
    ensures overflowed { (f : FlatState) (i k : ℕ) (instr : Instr) (ranges : List Range) (c : Cpu)
        (bytes : List ℕ) → (run f i k).mark ≡ Open → fate f.text (run f i k) ≡ Goes instr ranges
        → may_follow (run f i k).nest instr ≡ true
        → outcome_of instr ranges (run f i k) ≡ outcome.Overflowed c bytes
        → Advances (run f i (suc k)) instr ranges c bytes (progress_of (run f i k)) Overflowed }
{}

/// What is followed of a CPU stays followed in every flat state that is the same to it: in its own parts, in
/// the list of text pages and their bytes, and in all that its run has touched, which lies in the lines of
/// its footprint.
pub fn others_stay_followed()
    ensures lines { (f : FlatState) (i k a : ℕ) → is_prefix (f.cpus i).prefix ≡ true
        → (run f i k).mark ≢ Missing → list_any (nat_eq a) (touched_addresses (run f i k)) ≡ true
        → ((footprint (run f i k)).fetched (absolute_of (f.cpus i).prefix a / line_size)
        || (footprint (run f i k)).stored (absolute_of (f.cpus i).prefix a / line_size)) ≡ true }
    ensures touched { (f g : FlatState) (i : ℕ) (local : Local) → IsFollowed f i local
        → AreAlike i (touched_addresses (run f i local.attempt.count)) f g
        → g.pending i ≡ f.pending i → g.waiting i ≡ f.waiting i → IsFollowed g i local }
    ensures same { (f g : FlatState) (i : ℕ) (local : Local) → IsFollowed f i local
        → is_prefix (f.cpus i).prefix ≡ true → AreSameTo i local.attempt.footprint f g
        → IsFollowed g i local }
    ensures run { (f g : FlatState) (i : ℕ) (local : Local) → IsFollowed f i local
        → is_prefix (f.cpus i).prefix ≡ true → AreSameTo i local.attempt.footprint f g
        → track_of (run g i local.attempt.count) ≡ track_of (run f i local.attempt.count) }
    ensures fate { (f g : FlatState) (i : ℕ) (local : Local) → IsFollowed f i local
        → is_prefix (f.cpus i).prefix ≡ true → AreSameTo i local.attempt.footprint f g
        → fate_by_progress g.text g.storage local.attempt ≡ fate_by_progress f.text f.storage local.attempt }
{}

/// The fate of the next instruction of what is followed, and its outcome, are those of its run. A test ends
/// an attempt only where one is live, and an exception stops the program only where none is.
pub fn what_is_followed_has_the_fate_of_its_run()
    ensures fate { (f : FlatState) (i : ℕ) (local : Local) → IsFollowed f i local
        → fate f.text (run f i local.attempt.count) ≡ fate_by_progress f.text f.storage local.attempt }
    ensures outcome { (f : FlatState) (i : ℕ) (local : Local) (instr : Instr) (ranges : List Range)
        → IsFollowed f i local → outcome_of instr ranges (run f i local.attempt.count)
        ≡ outcome_by f.storage instr ranges local.attempt }
    ensures ends { (f : FlatState) (i : ℕ) (local : Local) (why : Why) → IsFollowed f i local
        → fate_by_progress f.text f.storage local.attempt ≡ Ends why → is_live local.attempt ≡ true }
    ensures stops { (f : FlatState) (i : ℕ) (local : Local) (e : Exception) → IsFollowed f i local
        → fate_by_progress f.text f.storage local.attempt ≡ Stops e → is_live local.attempt ≡ false }
{}

/// What may come from outside fits, by what is followed of a live attempt: an interruption, a conflict on a
/// line of its footprint, and for a constrained transaction that asks for a line too many rejects.
pub fn causes_from_outside_fit()
    ensures external { (f : FlatState) (i : ℕ) (local : Local) → IsFollowed f i local
        → fits f.text (run f i local.attempt.count) External ≡ true }
    ensures stored { (f : FlatState) (i line : ℕ) (local : Local) → IsFollowed f i local
        → local.attempt.footprint.stored line ≡ true
        → fits f.text (run f i local.attempt.count) (StoreConflict line) ≡ true }
    ensures fetched { (f : FlatState) (i line : ℕ) (local : Local) → IsFollowed f i local
        → local.attempt.footprint.fetched line ≡ true → local.attempt.footprint.stored line ≡ false
        → fits f.text (run f i local.attempt.count) (FetchConflict line) ≡ true }
    ensures starved { (f : FlatState) (i : ℕ) (local : Local) (instr : Instr) (r : Range) (rs : List Range)
        → IsFollowed f i local → is_constrained local.attempt.nest ≡ true
        → fate_by_progress f.text f.storage local.attempt ≡ Goes instr (r ∷ rs)
        → fits f.text (run f i local.attempt.count) Starved ≡ true }
{}

/// A live attempt that is aborted, by a cause that fits, leaves what its entry makes of flat storage; so it
/// does where a test of its next instruction ends it.
pub fn an_abort_leaves_what_its_entry_does()
    ensures fitting { (text : List ℕ) (storage : Storage) (locals : ℕ → Local) (i : ℕ) (why : Why)
        → IsFollowed (flat_from text storage locals) i (locals i) → is_live (locals i).attempt ≡ true
        → fits text (run (flat_from text storage locals) i (locals i).attempt.count) why ≡ true
        → Leaves text storage locals i (Abort i (locals i).attempt.count why)
        (aborted why (locals i).attempt.cpu.address (beside_in storage locals i)) }
    ensures refused { (text : List ℕ) (storage : Storage) (locals : ℕ → Local) (i : ℕ) (why : Why)
        → IsFollowed (flat_from text storage locals) i (locals i) → is_live (locals i).attempt ≡ true
        → fate_by_progress text storage (locals i).attempt ≡ Ends why
        → Leaves text storage locals i (Abort i (locals i).attempt.count why)
        (aborted why (locals i).attempt.cpu.address (beside_in storage locals i)) }
{}

/// A block that is stored, and an interruption that is taken, leave what their entries make of flat storage.
pub fn what_was_left_to_do_is_done()
    ensures block { (text : List ℕ) (storage : Storage) (locals : ℕ → Local) (i : ℕ) (b : Pending)
        → IsFollowed (flat_from text storage locals) i (locals i) → (locals i).pending ≡ Some b
        → Leaves text storage locals i (Tdb i) (block_stored (beside_in storage locals i)) }
    ensures interruption { (text : List ℕ) (storage : Storage) (locals : ℕ → Local) (i : ℕ) (w : Waiting)
        → (locals i).pending ≡ None → (locals i).waiting ≡ Some w
        → Leaves text storage locals i (Interrupt i) (interruption_taken (beside_in storage locals i)) }
{}

/// Outside transactions, an instruction that goes and an exception that stops the program leave what the
/// entry of a step makes of flat storage; and a begin makes no entry, and opens an attempt that is followed.
pub fn a_step_leaves_what_its_entry_does()
    ensures goes { (text : List ℕ) (storage : Storage) (locals : ℕ → Local) (i : ℕ) (instr : Instr)
        (ranges : List Range) → IsFollowed (flat_from text storage locals) i (locals i)
        → may_act (flat_from text storage locals) i ≡ true → is_live (locals i).attempt ≡ false
        → begins (entry_at instr.op.number) ≡ false
        → fate_by_progress text storage (locals i).attempt ≡ Goes instr ranges
        → Leaves text storage locals i (Step i) (executed instr ranges (beside_in storage locals i)).after }
    ensures stops { (text : List ℕ) (storage : Storage) (locals : ℕ → Local) (i : ℕ) (e : Exception)
        → IsFollowed (flat_from text storage locals) i (locals i)
        → may_act (flat_from text storage locals) i ≡ true → is_live (locals i).attempt ≡ false
        → fate_by_progress text storage (locals i).attempt ≡ Stops e
        → Leaves text storage locals i (Step i) record { local = stopped e (locals i); storage = storage } }
    ensures begins { (text : List ℕ) (storage : Storage) (locals : ℕ → Local) (i : ℕ) (instr : Instr)
        (ranges : List Range) → IsFollowed (flat_from text storage locals) i (locals i)
        → may_act (flat_from text storage locals) i ≡ true → is_live (locals i).attempt ≡ false
        → begins (entry_at instr.op.number) ≡ true
        → fate_by_progress text storage (locals i).attempt ≡ Goes instr ranges
        → GoesOnAs text storage locals i (executed instr ranges (beside_in storage locals i)).after }
{}

/// Inside transactions, an instruction that goes is told of by what it leaves: the attempt goes on, with
/// nothing changed in flat storage; it is committed, as its entry says; or it has come to a cause, and the
/// abort by that leaves what its entry says, with the address of this instruction.
pub fn what_an_instruction_tells_is_so()
    ensures tells { (text : List ℕ) (storage : Storage) (locals : ℕ → Local) (i : ℕ) (instr : Instr)
        (ranges : List Range) → IsFollowed (flat_from text storage locals) i (locals i)
        → is_live (locals i).attempt ≡ true
        → fate_by_progress text storage (locals i).attempt ≡ Goes instr ranges
        → RunTells text (run (flat_from text storage locals) i (locals i).attempt.count)
        (run (flat_from text storage locals) i (suc (locals i).attempt.count)) (locals i).attempt.count
        (executed instr ranges (beside_in storage locals i)).after
        (executed instr ranges (beside_in storage locals i)).told }
    ensures stepped { (text : List ℕ) (storage : Storage) (locals : ℕ → Local) (i : ℕ) (instr : Instr)
        (ranges : List Range) → IsFollowed (flat_from text storage locals) i (locals i)
        → is_live (locals i).attempt ≡ true
        → fate_by_progress text storage (locals i).attempt ≡ Goes instr ranges
        → (executed instr ranges (beside_in storage locals i)).told ≡ done.Stepped
        → GoesOnAs text storage locals i (executed instr ranges (beside_in storage locals i)).after }
    ensures committed { (text : List ℕ) (storage : Storage) (locals : ℕ → Local) (i n : ℕ) (instr : Instr)
        (ranges : List Range) → IsFollowed (flat_from text storage locals) i (locals i)
        → is_live (locals i).attempt ≡ true
        → fate_by_progress text storage (locals i).attempt ≡ Goes instr ranges
        → (executed instr ranges (beside_in storage locals i)).told ≡ done.Committed n
        → Leaves text storage locals i (Commit i n) (executed instr ranges (beside_in storage locals
        i)).after }
    ensures ended { (text : List ℕ) (storage : Storage) (locals : ℕ → Local) (i : ℕ) (instr : Instr)
        (ranges : List Range) (why : Why) → IsFollowed (flat_from text storage locals) i (locals i)
        → is_live (locals i).attempt ≡ true
        → fate_by_progress text storage (locals i).attempt ≡ Goes instr ranges
        → (executed instr ranges (beside_in storage locals i)).told ≡ done.Ended why
        → Leaves text storage locals i
        (Abort i (executed instr ranges (beside_in storage locals i)).after.local.attempt.count why)
        (aborted why (locals i).attempt.cpu.address (executed instr ranges (beside_in storage locals
        i)).after) }
{}

/// Where nothing is live, what is followed is the CPU at rest. A live attempt has a begin that is open; its
/// CPU is running, and has the prefix that it had.
pub fn a_live_attempt_is_open()
    ensures rests { (f : FlatState) (i : ℕ) (local : Local) → IsFollowed f i local
        → is_live local.attempt ≡ false → local.attempt ≡ resting local.cpu }
    ensures nest { (f : FlatState) (i : ℕ) (local : Local) → IsFollowed f i local
        → is_live local.attempt ≡ true → local.attempt.nest ≢ [] }
    ensures running { (f : FlatState) (i : ℕ) (local : Local) → IsFollowed f i local
        → is_live local.attempt ≡ true → local.cpu.state ≡ Running }
    ensures prefix { (f : FlatState) (i : ℕ) (local : Local) → IsFollowed f i local
        → local.attempt.cpu.prefix ≡ local.cpu.prefix }
{}

/// An attempt is constrained exactly where what its constraints ask is kept; and then it keeps to them.
pub fn a_constrained_attempt_keeps_to_its_constraints()
    ensures some { (f : FlatState) (i : ℕ) (local : Local) → IsFollowed f i local
        → is_some local.attempt.constraint ≡ is_constrained local.attempt.nest }
    ensures keeps { (f : FlatState) (i : ℕ) (local : Local) → IsFollowed f i local
        → is_constrained local.attempt.nest ≡ true → KeepsTo local.cpu local.attempt }
{}

/// Every byte that an attempt has stored, also one that outlives an abort, lies in a line and a block that
/// its footprint has as stored.
pub fn stored_bytes_lie_in_the_footprint()
    ensures line { (f : FlatState) (i a byte : ℕ) (local : Local) → IsFollowed f i local
        → is_prefix local.cpu.prefix ≡ true → local.attempt.overlay a ≡ Some byte
        → local.attempt.footprint.stored (a / line_size) ≡ true }
    ensures block { (f : FlatState) (i a byte : ℕ) (local : Local) → IsFollowed f i local
        → is_prefix local.cpu.prefix ≡ true → local.attempt.overlay a ≡ Some byte
        → local.attempt.footprint.blocks (a / block_size) ≡ true }
    ensures lasting { (f : FlatState) (i a byte : ℕ) (local : Local) → IsFollowed f i local
        → is_prefix local.cpu.prefix ≡ true → local.attempt.lasting a ≡ Some byte
        → local.attempt.footprint.stored (a / line_size) ≡ true }
{}

/// The footprint of an attempt keeps the limits, and its lines are lines of storage; so every byte that it
/// has
/// stored is one of storage.
pub fn footprints_keep_the_limits()
    ensures limits { (f : FlatState) (i : ℕ) (local : Local) → IsFollowed f i local
        → KeepsLimits local.attempt.footprint }
    ensures lines { (f : FlatState) (i line : ℕ) (local : Local) → IsFollowed f i local
        → is_prefix local.cpu.prefix ≡ true
        → (local.attempt.footprint.fetched line || local.attempt.footprint.stored line) ≡ true
        → line < storage_lines }
    ensures stored { (f : FlatState) (i a byte : ℕ) (local : Local) → IsFollowed f i local
        → is_prefix local.cpu.prefix ≡ true → local.attempt.overlay a ≡ Some byte → a < storage_size }
    ensures lasting { (f : FlatState) (i a byte : ℕ) (local : Local) → IsFollowed f i local
        → is_prefix local.cpu.prefix ≡ true → local.attempt.lasting a ≡ Some byte → a < storage_size }
{}

/// An instruction that goes changes bytes of storage only in lines that its attempt has stored into or that
/// its operands are stored into, and what is left of the attempt has touched no other line than these and
/// those that it had touched. Bytes that go to a real address, as those of a block, change the lines of their
/// places alone.
pub fn changes_lie_in_stored_lines()
    ensures executed { (text : List ℕ) (storage : Storage) (locals : ℕ → Local) (i : ℕ) (instr : Instr)
        (ranges : List Range) → IsFollowed (flat_from text storage locals) i (locals i)
        → is_prefix (locals i).cpu.prefix ≡ true
        → fate_by_progress text storage (locals i).attempt ≡ Goes instr ranges
        → TouchesMore (locals i).attempt storage ranges
        (executed instr ranges (beside_in storage locals i)).after }
    ensures placed { (prefix : Option ℕ) (r : Range) (bytes : List ℕ) (storage : Storage)
        → is_prefix prefix ≡ true → r.length ≡ length bytes → r.length ≤ area_size → r.store ≡ true
        → ChangesIn (stores (absolute_ranges prefix (r ∷ []))) storage
        (with_bytes_at prefix r.first bytes storage) }
    ensures block { (storage : Storage) (locals : ℕ → Local) (i : ℕ) (b : Pending) (r : Range)
        → is_prefix (locals i).cpu.prefix ≡ true → (locals i).pending ≡ Some b → r.first ≡ b.address
        → r.length ≡ length b.bytes → r.length ≤ area_size → r.store ≡ true
        → ChangesIn (stores (absolute_ranges (locals i).cpu.prefix (r ∷ []))) storage
        (block_stored (beside_in storage locals i)).storage }
{}
