//! One instruction.
ghost use Rattle.std.specs.Prelude.{◌≡◌, ℕ, true};
ghost use Rattle.z_regs.specs.Cpu.{cpu_of};
ghost use Rattle.z_instr.specs.Table.{kind_at};
ghost use Rattle.z_effect.specs.Facts.{is_general};
ghost use Rattle.z_effect.specs.GeneralEffect.{general_effect};
ghost use Rattle.z_effect.specs.After.{Sets, Executes};

use crate::{controls, halfwords, pairs, results};
use tx_control::Exception;
use z_arith::Width;
use z_instr::format::length_in;
use z_instr::instr::Instr;
use z_instr::kind::{General, Kind, Operation, Part, Source};
use z_instr::lookup::{kind_in, kind_of, line};
use z_instr::op::Op;
use z_instr::operand::Size;
use z_regs::{Bytes, CpuImage};

/// Whether an operation has no operand in storage, does not branch and is not about transactions: whether
/// [`execute`] is for it.
pub fn is_mine(op: Op) -> bool
    ensures { result ≡ is_general (kind_at op.number) }
{
    matches!(kind_of(op), Kind::General(_))
}

/// Does what a kind says to an instruction's registers.
#[inline(never)]
fn run_any(kind: &General, n: u8, instr: &Instr, image: &mut CpuImage) -> Result<(), Exception>
    ensures { Sets (general_effect kind.now n instr.now (cpu_of image.old)) n (cpu_of image.old)
        (cpu_of image.new) result }
{
    match *kind {
        General::Compute(Operation::Load, w, source) => results::load(w, source, n, instr, image),
        General::Compute(operation, w, source) => {
            results::compute(operation, w, source, n, instr, image)
        }
        General::Compare(order, w, source) => results::compare(order, w, source, n, instr, image),
        General::LowHalfword(logic) => halfwords::low_halfword(logic, n, instr, image),
        General::InsertHalfword => halfwords::insert(n, instr, image),
        General::TestHalfword => halfwords::test(n, instr, image),
        General::ShiftFirst(shift) => results::shift_first(shift, n, instr, image),
        General::ShiftThird(shift, w) => results::shift_third(shift, w, n, instr, image),
        General::Address => controls::load_address(n, instr, image),
        General::Target => controls::load_target(n, instr, image),
        General::MultiplyWord => pairs::multiply_word(n, instr, image),
        General::MultiplyLogical => pairs::multiply_logical(n, instr, image),
        General::DivideWord => pairs::divide_word(n, instr, image),
        General::DivideDouble => pairs::divide_double(n, instr, image),
        General::DivideLogical => pairs::divide_logical(n, instr, image),
        General::FindLeftmostOne => pairs::find_leftmost_one(n, instr, image),
        General::LoadSelected => controls::load_selected(n, instr, image),
        General::InsertProgramMask => controls::insert_mask(n, instr, image),
        General::SetProgramMask => controls::set_mask(n, instr, image),
        General::ExtractAccess => controls::extract_access(n, instr, image),
        General::SetAccess => controls::set_access(n, instr, image),
    }
}

/// The same, where loading a register and adding an immediate to one, which are frequent, have a way of their own.
#[inline(always)]
fn run(kind: &General, n: u8, instr: &Instr, image: &mut CpuImage) -> Result<(), Exception>
    ensures { Sets (general_effect kind.now n instr.now (cpu_of image.old)) n (cpu_of image.old)
        (cpu_of image.new) result }
{
    match *kind {
        General::Compute(
            Operation::Load,
            Width::Double,
            Source::Second(Part::Plain(Size::Doubleword)),
        ) => {
            let source = Source::Second(Part::Plain(Size::Doubleword));
            results::load(Width::Double, source, n, instr, image)
        }
        General::Compute(Operation::Add, Width::Double, Source::Immediate) => {
            results::add_immediate(n, instr, image)
        }
        _ => run_any(kind, n, instr, image),
    }
}

/// Executes an instruction whose operation has this kind: changes registers, condition code, program mask and
/// address as the architecture says, and nothing in storage.
///
/// The error is a fixed-point overflow exception, after all is done, where the result overflows and the
/// leftmost bit of the program mask is one; or a fixed-point divide exception, with all as before. Whether R1
/// of a pair is even is not looked at.
#[inline(always)]
pub fn execute_kind<V: Bytes>(
    kind: &General,
    instr: &Instr,
    image: &mut CpuImage,
    _view: &mut V,
) -> Result<(), Exception>
    requires kind { kind_at instr.now.op.number ≡ Kind.General kind.now }
    ensures does { (depth : ℕ) → Executes depth instr.now (cpu_of image.old) (cpu_of image.new)
        (V.bytes _view.old) (V.bytes _view.new) result }
    ensures view { V.bytes _view.new ≡ V.bytes _view.old }
{
    let n = length_in(line(instr.op).form);
    run(kind, n, instr, image)
}

/// Executes an instruction for which [`is_mine`] holds, as [`execute_kind`] does.
pub fn execute<V: Bytes>(instr: &Instr, image: &mut CpuImage, view: &mut V) -> Result<(), Exception>
    requires mine { is_general (kind_at instr.now.op.number) ≡ true }
    ensures does { (depth : ℕ) → Executes depth instr.now (cpu_of image.old) (cpu_of image.new)
        (V.bytes view.old) (V.bytes view.new) result }
    ensures view { V.bytes view.new ≡ V.bytes view.old }
{
    match kind_in(instr.op) {
        Kind::General(kind) => execute_kind(kind, instr, image, view),
        _ => unreachable!(),
    }
}
