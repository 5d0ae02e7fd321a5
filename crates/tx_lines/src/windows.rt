//! What a CPU does on lines with copies, each through its own window on them: it fetches from its copies, and no mode
//! changes.
ghost use Rattle.std.specs.Prelude.{◌≡◌, ℕ, ◌<◌, List, false, true, ◌+◌, ◌^◌};
ghost use Rattle.line_copies.specs.Seen.{holdings_of};
ghost use Rattle.tx_run.specs.Local.{aborted, block_stored, interruption_taken};
ghost use Rattle.tx_run.specs.Doing.{executed};
ghost use Rattle.tx_run.specs.Progress.{is_live, seen_through};
ghost use Rattle.tx_run.specs.Parts.{local_of, beside};
ghost use Rattle.tx_run.specs.Going.{GoesThere, told_or};
ghost use Rattle.tx_run.specs.Shapes.{touched_by};
ghost use Rattle.tx_run.specs.Plans.{HasRoom, HasDoneRoom, IsPrepared};
ghost use Rattle.tx_run.specs.Away.{GoAway, ran};
ghost use Rattle.tx_run.specs.Stranger.{GoesOnLike, SeeAlike};
ghost use Rattle.tx_run.specs.Own.{bytes_at, given, is_touched};
ghost use Rattle.tx_run.specs.Traces.{is_paged};
ghost use Rattle.tx_run.specs.Marks.{mode_in};
ghost use Rattle.tx_run.specs.Made.{AgreeOnPages};

use line_copies::{CoherentLines, Handback, Held, Window};
use tx_control::Why;
use tx_run::{Cpu, Done, Plain, Run};
use z_instr::instr::Instr;
use z_regs::Touches;

/// Executes an instruction that the CPU has found to go.
#[inline(always)]
pub(crate) fn execute_in<'a, H: Held>(
    lines: &'a mut CoherentLines,
    number: u32,
    cpu: &mut Cpu,
    instr: &Instr,
    need: &Touches,
) -> Handback<'a, Done>
    requires holds { holdings_of lines.old ≡ H.held }
    requires name { lines.ghost_name ≡ H.name }
    requires number { number < lines.old.cpus }
    requires prepared { IsPrepared (local_of cpu.old).attempt instr.now need.now }
    requires count { (local_of cpu.old).attempt.count + 1 < 2 ^ 32 }
    ensures value { record { after = beside cpu.new result.lines.now.bytes; told = result.value } ≡
        executed instr.now need.now (beside cpu.old lines.old.bytes) }
    ensures code { HasDoneRoom result.value }
    ensures held { holdings_of result.lines.now ≡ holdings_of lines.old }
    ensures same_reference { result.lines.ghost_name ≡ lines.entry.ghost_name }
{
    let mut window: Window<'a, H> = Window::open(lines, number);
    let done = cpu.execute(instr, need, &mut window);
    window.close(done)
}

/// Executes a plain instruction that a CPU in a transaction has found to go. What it does not simply complete is put aside.
#[inline(always)]
pub(crate) fn execute_plainly_in<'a, H: Held>(
    lines: &'a mut CoherentLines,
    number: u32,
    cpu: &mut Cpu,
    plain: &Plain,
    aside: &mut Done,
) -> Handback<'a, bool>
    requires holds { holdings_of lines.old ≡ H.held }
    requires name { lines.ghost_name ≡ H.name }
    requires number { number < lines.old.cpus }
    requires live { is_live (local_of cpu.old).attempt ≡ true }
    requires prepared { IsPrepared (local_of cpu.old).attempt plain.now.ready.now.instr
        (touched_by plain.now.ready.now.shape.touch plain.now.first plain.now.ready.now.shape.size) }
    requires count { (local_of cpu.old).attempt.count + 1 < 2 ^ 32 }
    ensures value { record { after = beside cpu.new result.lines.now.bytes; told = told_or result.value aside.new } ≡
        executed plain.now.ready.now.instr
        (touched_by plain.now.ready.now.shape.touch plain.now.first plain.now.ready.now.shape.size)
        (beside cpu.old lines.old.bytes) }
    ensures code { HasDoneRoom (told_or result.value aside.new) }
    ensures held { holdings_of result.lines.now ≡ holdings_of lines.old }
    ensures same_reference { result.lines.ghost_name ≡ lines.entry.ghost_name }
{
    let mut window: Window<'a, H> = Window::open(lines, number);
    let simply = cpu.execute_plainly(plain, &mut window, aside);
    window.close(simply)
}

/// Executes a plain instruction that a CPU without a prefix has found to go, on storage as it is. What it does not simply
/// complete is put aside.
#[inline(always)]
pub(crate) fn execute_there_in<'a, H: Held>(
    lines: &'a mut CoherentLines,
    number: u32,
    cpu: &mut Cpu,
    plain: &Plain,
    aside: &mut Done,
) -> Handback<'a, bool>
    requires holds { holdings_of lines.old ≡ H.held }
    requires name { lines.ghost_name ≡ H.name }
    requires number { number < lines.old.cpus }
    requires prepared { IsPrepared (local_of cpu.old).attempt plain.now.ready.now.instr
        (touched_by plain.now.ready.now.shape.touch plain.now.first plain.now.ready.now.shape.size) }
    requires there { GoesThere (local_of cpu.old).attempt plain.now.ready.now.instr
        (touched_by plain.now.ready.now.shape.touch plain.now.first plain.now.ready.now.shape.size) }
    requires count { (local_of cpu.old).attempt.count + 1 < 2 ^ 32 }
    ensures value { record { after = beside cpu.new result.lines.now.bytes; told = told_or result.value aside.new } ≡
        executed plain.now.ready.now.instr
        (touched_by plain.now.ready.now.shape.touch plain.now.first plain.now.ready.now.shape.size)
        (beside cpu.old lines.old.bytes) }
    ensures code { HasDoneRoom (told_or result.value aside.new) }
    ensures held { holdings_of result.lines.now ≡ holdings_of lines.old }
    ensures same_reference { result.lines.ghost_name ≡ lines.entry.ghost_name }
{
    let mut window: Window<'a, H> = Window::open(lines, number);
    let simply = cpu.execute_there(plain, &mut window, aside);
    window.close(simply)
}

/// Aborts the live attempt of a CPU.
pub(crate) fn abort_in<'a, H: Held>(
    lines: &'a mut CoherentLines,
    number: u32,
    cpu: &mut Cpu,
    why: Why,
    at: u64,
) -> Handback<'a, u32>
    requires holds { holdings_of lines.old ≡ H.held }
    requires name { lines.ghost_name ≡ H.name }
    requires number { number < lines.old.cpus }
    requires live { is_live (local_of cpu.old).attempt ≡ true }
    requires code { HasRoom why }
    ensures count { result.value ≡ (local_of cpu.old).attempt.count }
    ensures value { beside cpu.new result.lines.now.bytes ≡ aborted why at (beside cpu.old lines.old.bytes) }
    ensures held { holdings_of result.lines.now ≡ holdings_of lines.old }
    ensures same_reference { result.lines.ghost_name ≡ lines.entry.ghost_name }
{
    let mut window: Window<'a, H> = Window::open(lines, number);
    let count = cpu.abort(why, at, &mut window);
    window.close(count)
}

/// Stores the block that is pending for a CPU.
pub(crate) fn store_block_in<'a, H: Held>(
    lines: &'a mut CoherentLines,
    number: u32,
    cpu: &mut Cpu,
) -> Handback<'a, ()>
    requires holds { holdings_of lines.old ≡ H.held }
    requires name { lines.ghost_name ≡ H.name }
    requires number { number < lines.old.cpus }
    ensures value { beside cpu.new result.lines.now.bytes ≡ block_stored (beside cpu.old lines.old.bytes) }
    ensures held { holdings_of result.lines.now ≡ holdings_of lines.old }
    ensures same_reference { result.lines.ghost_name ≡ lines.entry.ghost_name }
{
    let mut window: Window<'a, H> = Window::open(lines, number);
    cpu.store_block(&mut window);
    window.close(())
}

/// A CPU without a live attempt takes the interruption that waits for it.
pub(crate) fn take_in<'a, H: Held>(
    lines: &'a mut CoherentLines,
    number: u32,
    cpu: &mut Cpu,
) -> Handback<'a, ()>
    requires holds { holdings_of lines.old ≡ H.held }
    requires name { lines.ghost_name ≡ H.name }
    requires number { number < lines.old.cpus }
    requires rests { is_live (local_of cpu.old).attempt ≡ false }
    ensures value { beside cpu.new result.lines.now.bytes
        ≡ interruption_taken (beside cpu.old lines.old.bytes) }
    ensures held { holdings_of result.lines.now ≡ holdings_of lines.old }
    ensures same_reference { result.lines.ghost_name ≡ lines.entry.ghost_name }
{
    let mut window: Window<'a, H> = Window::open(lines, number);
    cpu.take(&mut window);
    window.close(())
}

/// Gives what the steps of a run have made to a CPU and to the lines.
pub(crate) fn bring_in<'a, H: Held>(
    lines: &'a mut CoherentLines,
    number: u32,
    run: &Run,
    into: &mut Cpu,
) -> Handback<'a, ()>
    requires holds { holdings_of lines.old ≡ H.held }
    requires name { lines.ghost_name ≡ H.name }
    requires number { number < lines.old.cpus }
    requires like { GoesOnLike (local_of run.now.made.start).attempt (local_of into.old).attempt }
    requires alike { SeeAlike (is_touched run.now.made.own) (local_of run.now.made.start).attempt.overlay
        (given run.now.made.own) (local_of into.old).attempt.overlay (bytes_at lines.old.bytes) }
    ensures value { (text : List ℕ) → AgreeOnPages (is_paged run.now.made.traces) run.now.text text
        → beside into.new result.lines.now.bytes ≡ ran text run.now.made.steps (beside into.old lines.old.bytes) }
    ensures away { (text : List ℕ) → AgreeOnPages (is_paged run.now.made.traces) run.now.text text
        → GoAway text (mode_in run.now.made.needed) run.now.made.steps (beside into.old lines.old.bytes) }
    ensures count { (local_of into.new).attempt.count ≡ (local_of run.now.made.reached).attempt.count }
    ensures held { holdings_of result.lines.now ≡ holdings_of lines.old }
    ensures same_reference { result.lines.ghost_name ≡ lines.entry.ghost_name }
{
    let mut window: Window<'a, H> = Window::open(lines, number);
    run.give(into, &mut window);
    window.close(())
}
