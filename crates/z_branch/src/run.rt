//! One instruction.
ghost use Rattle.std.specs.Prelude.{◌≡◌, ℕ, true};
ghost use Rattle.z_regs.specs.Cpu.{cpu_of};
ghost use Rattle.z_instr.specs.Table.{kind_at};
ghost use Rattle.z_effect.specs.Facts.{is_branch};
ghost use Rattle.z_effect.specs.BranchEffect.{branch_effect};
ghost use Rattle.z_effect.specs.After.{Sets, Executes};

use crate::families;
use tx_control::Exception;
use z_arith::Width;
use z_instr::format::length_in;
use z_instr::instr::Instr;
use z_instr::kind::{Branch, Kind, Place};
use z_instr::lookup::{kind_in, kind_of, line};
use z_instr::op::Op;
use z_regs::{Bytes, CpuImage};

/// Whether this crate executes an operation: whether it says where to go on.
pub fn is_mine(op: Op) -> bool
    ensures { result ≡ is_branch (kind_at op.number) }
{
    matches!(kind_of(op), Kind::Branch(_))
}

/// Does what the kind says.
#[inline(never)]
fn run_any(branch: &Branch, n: u8, instr: &Instr, image: &mut CpuImage)
    ensures { Sets (branch_effect branch.now n instr.now (cpu_of image.old)) n (cpu_of image.old)
        (cpu_of image.new) (Ok tt) }
{
    match *branch {
        Branch::OnCondition(place) => families::on_condition(place, n, instr, image),
        Branch::OnCount(place, w) => families::on_count(place, w, n, instr, image),
        Branch::AndSave(place) => families::and_save(place, n, instr, image),
        Branch::OnCompare(order, w) => families::on_compare(order, w, n, instr, image),
        Branch::OnCompareImmediate => families::on_compare_immediate(n, instr, image),
        Branch::ServiceCall => families::service_call(n, instr, image),
    }
}

/// The same, where relative branches on the code and on the count of a doubleword, which are frequent, have a way of their
/// own.
#[inline(always)]
fn run(branch: &Branch, n: u8, instr: &Instr, image: &mut CpuImage)
    ensures { Sets (branch_effect branch.now n instr.now (cpu_of image.old)) n (cpu_of image.old)
        (cpu_of image.new) (Ok tt) }
{
    match *branch {
        Branch::OnCondition(Place::Relative) => {
            families::on_condition(Place::Relative, n, instr, image)
        }
        Branch::OnCount(Place::Relative, Width::Double) => {
            families::on_count(Place::Relative, Width::Double, n, instr, image)
        }
        _ => run_any(branch, n, instr, image),
    }
}

/// Executes an instruction whose operation has this kind, and which says where to go on. It touches no storage
/// and raises no exception.
///
/// Registers, condition code, program mask, state and the address of the next instruction become those that
/// the definition of one instruction gives, at any nesting depth.
#[inline(always)]
pub fn execute_kind<V: Bytes>(
    kind: &Branch,
    instr: &Instr,
    image: &mut CpuImage,
    _view: &mut V,
) -> Result<(), Exception>
    requires kind { kind_at instr.now.op.number ≡ Kind.Branch kind.now }
    ensures does { (depth : ℕ) → Executes depth instr.now (cpu_of image.old) (cpu_of image.new)
        (V.bytes _view.old) (V.bytes _view.new) result }
    ensures view { V.bytes _view.new ≡ V.bytes _view.old }
{
    let n = length_in(line(instr.op).form);
    run(kind, n, instr, image);
    Ok(())
}

/// Executes an instruction for which [`is_mine`] holds, as [`execute_kind`] does.
pub fn execute<V: Bytes>(instr: &Instr, image: &mut CpuImage, view: &mut V) -> Result<(), Exception>
    requires mine { is_branch (kind_at instr.now.op.number) ≡ true }
    ensures does { (depth : ℕ) → Executes depth instr.now (cpu_of image.old) (cpu_of image.new)
        (V.bytes view.old) (V.bytes view.new) result }
    ensures view { V.bytes view.new ≡ V.bytes view.old }
{
    match kind_in(instr.op) {
        Kind::Branch(kind) => execute_kind(kind, instr, image, view),
        _ => unreachable!(),
    }
}
