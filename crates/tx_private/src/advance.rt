//! One instruction more.
ghost use Rattle.std.specs.Prelude.{◌≡◌, ◌≢◌, ◌≤◌, ◌<◌, [], All, Ok, length, true, false};
ghost use Rattle.std.specs.FinSet.{items};
ghost use Rattle.z_instr.specs.Table.{entry_at};
ghost use Rattle.z_instr.specs.Roles.{begins as begins_one};
ghost use Rattle.z_regs.specs.Cpu.{cpu_of};
ghost use Rattle.z_regs.specs.Prefix.{storage_size};
ghost use Rattle.z_effect.specs.One.{length_of};
ghost use Rattle.z_effect.specs.After.{AreInside, ranges_of, storage_after};
ghost use Rattle.tx_control.specs.Nesting.{is_constrained};
ghost use Rattle.tx_constraint.specs.Kept.{kept_at, added};
ghost use Rattle.tx_constraint.specs.Octowords.{with_octowords};
ghost use Rattle.tx_footprint.specs.Places.{IsInStorage};
ghost use Rattle.tx_footprint.specs.Touched.{sets_of, touching, fit_of};
ghost use Rattle.tx_serial.specs.Run.{nest_after as nest_behind_of, mark_in, may_follow};
ghost use Rattle.z_instr.specs.Roles.{stores_lastingly};
ghost use Rattle.tx_serial.specs.Run.{after_fate, more};
ghost use Rattle.tx_private.specs.Done.{outcome_at, is_lasting_kind};
ghost use Rattle.tx_serial.specs.Fate.{fate};
ghost use Rattle.tx_private.specs.Moved.{HasMoved, MayGo, mark_behind as mark_after};
ghost use Rattle.tx_private.specs.Shows.{mark_of, Shows, Shown, IsRun, SomeRun};
ghost use Rattle.tx_serial.specs.Attempt.{Run, Open};
ghost use Rattle.tx_serial.specs.Flat.{Storage as Bytes};
ghost use Rattle.tx_private.specs.declared.execution.Completion.{Completion as Done};

use crate::attempt::{Attempt, Mark, Told};
use crate::coming::{Next, coming};
use crate::execution::{Completion, execute};
use crate::refusals::{Admitted, constrains};
use tx_constraint::Constraint;
use tx_control::Nest;
use tx_footprint::Footprint;
use z_effect::opened;
use z_instr::format::length_in;
use z_instr::instr::Instr;
use z_instr::kind::{Kind, Transaction};
use z_instr::lookup::{kind_of, line};
use z_instr::op::Op;
use z_instr::roles::{begins, is_end};
use z_regs::{CpuImage, Guard, Storage, Touches};

/// Whether a kind is NTSTG.
fn stores_for_good(kind: Kind) -> bool
    ensures { result ≡ is_lasting_kind kind }
{
    let Kind::Transaction(kind) = kind else {
        return false;
    };
    matches!(kind, Transaction::StoreLasting)
}

/// Whether the operation is NTSTG, whose stores outlive an abort.
fn is_lasting(op: Op) -> bool
    ensures { result ≡ stores_lastingly (entry_at op.number) }
{
    stores_for_good(kind_of(op))
}

/// The store of NTSTG is made in the copy with lasting stores too; every other instruction leaves it.
fn last(lasting: &mut Storage, instr: &Instr, before: &CpuImage, depth: u32)
    requires size { length lasting.old ≡ storage_size }
    requires inside { AreInside (ranges_of instr.now (cpu_of before.now)) lasting.old }
    requires depth { depth ≤ 16 }
    ensures stored { stores_lastingly (entry_at instr.now.op.number) ≡ true → lasting.new
        ≡ storage_after (ranges_of instr.now (cpu_of before.now)) lasting.old
        (outcome_at depth instr.now (cpu_of before.now) lasting.old) }
    ensures same { stores_lastingly (entry_at instr.now.op.number) ≡ false → lasting.new ≡ lasting.old }
{
    if is_lasting(instr.op) {
        let mut again = *before;
        let _completion = execute(instr, &mut again, lasting, depth);
    }
}

/// The lines and blocks of an instruction's operands, by absolute addresses, are touched too. The begin that
/// opens an attempt has none.
fn touch(footprint: &mut Footprint, nest: &Nest, absolute: &Touches)
    requires inside { All IsInStorage absolute.now }
    requires fits { nest.now ≢ [] → fit_of (touching (sets_of footprint.old) absolute.now) ≡ Ok tt }
    requires none { nest.now ≡ [] → absolute.now ≡ [] }
    ensures { sets_of footprint.new ≡ touching (sets_of footprint.old) absolute.now }
{
    if nest.depth() > 0 {
        footprint.add(absolute);
    }
}

/// What is kept for the constraints: the begin at an address, or in a constrained transaction one instruction
/// more.
fn limit(constraint: &mut Constraint, nest: &Nest, at: u64, touches: &Touches)
    requires few { is_constrained nest.now ≡ true → constraint.old.count ≤ 32 }
    requires admitted { is_constrained nest.now ≡ true
        → length (with_octowords constraint.old.octowords touches.now) ≤ 4 }
    ensures begins { nest.now ≡ [] → constraint.new ≡ kept_at at }
    ensures adds { is_constrained nest.now ≡ true → constraint.new ≡ added constraint.old touches.now }
{
    if nest.depth() == 0 {
        *constraint = Constraint::begin(at);
    } else if constrains(nest) {
        constraint.add(touches);
    }
}

/// The open begins behind an instruction: one more behind a begin, and one less behind an end.
fn open_or_close(nest: &mut Nest, instr: &Instr, before: &CpuImage)
    requires { begins_one (entry_at instr.now.op.number) ≡ true → length nest.old < 16 }
    ensures { nest.new ≡ nest_behind_of instr.now before.now.general nest.old }
{
    if begins(instr.op) {
        nest.enter(opened(instr, before));
    } else if is_end(instr.op) && nest.depth() > 0 {
        nest.leave();
    }
}

/// A transaction is committed where no begin is open.
fn mark_with(nest: &Nest) -> Mark
    ensures { mark_of result ≡ mark_in nest.now }
{
    if nest.depth() == 0 {
        Mark::Committed
    } else {
        Mark::Open
    }
}

/// The mark behind an instruction.
fn mark_behind(completion: Completion, nest: &Nest) -> Mark
    ensures { mark_of result ≡ mark_after completion nest.now }
{
    match completion {
        Completion::Completed => mark_with(nest),
        Completion::Overflowed => Mark::Overflowed,
        Completion::Divides => Mark::Missing,
        Completion::Aborts(_) => Mark::Missing,
    }
}

/// The first instruction is the begin.
fn first_of(nest: &Nest, begin: Told, told: Told) -> Told
    ensures begins { nest.now ≡ [] → result ≡ told }
    ensures stays { nest.now ≢ [] → result ≡ begin }
{
    if nest.depth() == 0 { told } else { begin }
}

/// An instruction that has passed all tests is executed, and all that is kept goes on.
fn go(a: &mut Attempt, instr: &Instr, admitted: &Admitted)
    requires { MayGo instr.now admitted.now.touches admitted.now.absolute a.old }
    ensures moved { (done : Done) × HasMoved instr.now admitted.now.touches admitted.now.absolute done a.old a.new }
    ensures turned { a.new.turned ≡ a.old.turned }
{
    let before = a.image;
    let depth = a.nest.depth();
    let told = Told {
        at: before.address,
        length: length_in(line(instr.op).form),
    };
    let completion = execute(instr, &mut a.image, &mut a.seen, depth);
    last(&mut a.lasting, instr, &before, depth);
    touch(&mut a.footprint, &a.nest, &admitted.absolute);
    limit(
        &mut a.constraint,
        &a.nest,
        before.address,
        &admitted.touches,
    );
    a.begin = first_of(&a.nest, a.begin, told);
    a.last = told;
    open_or_close(&mut a.nest, instr, &before);
    a.mark = mark_behind(completion, &a.nest);
}

/// Only a begin may be the first.
fn may_come(nest: &Nest, instr: &Instr) -> bool
    ensures { result ≡ may_follow nest.now instr.now }
{
    nest.depth() > 0 || begins(instr.op)
}

/// One instruction more of a run that is open.
fn advance_open(a: &mut Attempt, guard: &Guard)
    requires { Shown a.old }
    ensures run { (base : Bytes) (p : Run) → Shows base a.old p → p.mark ≡ Open
        → IsRun base a.new (after_fate (fate (items guard.now) p) p) }
    ensures turned { a.new.turned ≡ a.old.turned }
{
    match coming(a, guard) {
        Next::Goes(instr, admitted) => {
            if may_come(&a.nest, &instr) {
                go(a, &instr, &admitted);
            } else {
                a.mark = Mark::Missing;
            }
        }
        Next::Ends(_) => a.mark = Mark::Missing,
        Next::Stops(_) => a.mark = Mark::Missing,
    }
}

/// One instruction more, where the transaction is open and the instruction goes; else there is no such run.
pub fn advance(a: &mut Attempt, guard: &Guard)
    requires { SomeRun a.old }
    ensures run { (base : Bytes) (p : Run) → IsRun base a.old p → IsRun base a.new (more (items guard.now) p) }
    ensures turned { a.new.turned ≡ a.old.turned }
{
    match a.mark {
        Mark::Open => advance_open(a, guard),
        Mark::Committed => a.mark = Mark::Missing,
        Mark::Overflowed => a.mark = Mark::Missing,
        Mark::Missing => {}
    }
}
