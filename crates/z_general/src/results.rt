//! Instructions that put one result into R1, or compare.
ghost use Rattle.std.specs.Prelude.{◌≡◌, ◌<◌};
ghost use Rattle.z_regs.specs.Cpu.{cpu_of};
ghost use Rattle.z_instr.specs.declared.kind.General.TheVariants as general;
ghost use Rattle.z_instr.specs.declared.kind.Operation.TheVariants.{Add, Load};
ghost use Rattle.z_instr.specs.declared.kind.Source.TheVariants.{Immediate};
ghost use Rattle.z_arith.specs.declared.Width.TheVariants.{Double};
ghost use Rattle.z_effect.specs.GeneralEffect.{general_effect};
ghost use Rattle.z_effect.specs.After.{Sets};

use crate::controls::finish_with;
use crate::operands::{amount, first_operand, second_operand};
use tx_control::Exception;
use z_arith::{Shift, Width, add};
use z_effect::{advance, combine, operand, put, settle};
use z_instr::instr::Instr;
use z_instr::kind::{Operation, Order, Source};
use z_regs::CpuImage;

/// Puts the result of an operation into R1.
#[tactic(auto, unfolding(z_effect::specs::GeneralEffect::general_effect))]
pub fn compute(
    operation: Operation,
    w: Width,
    source: Source,
    n: u8,
    instr: &Instr,
    image: &mut CpuImage,
) -> Result<(), Exception>
    ensures { Sets (general_effect (general.Compute operation w source) n instr.now (cpu_of image.old)) n
        (cpu_of image.old) (cpu_of image.new) result }
{
    let a = first_operand(source, w, instr, image);
    let b = second_operand(source, w, instr, image);
    let answer = combine(operation, w, image.condition, a, b);
    settle(instr, image, n, w, answer)
}

/// Puts the second operand into R1.
#[inline(always)]
#[tactic(auto, unfolding(z_effect::specs::GeneralEffect::general_effect, z_effect::specs::Operations::combined))]
pub fn load(
    w: Width,
    source: Source,
    n: u8,
    instr: &Instr,
    image: &mut CpuImage,
) -> Result<(), Exception>
    ensures { Sets (general_effect (general.Compute Load w source) n instr.now (cpu_of image.old)) n
        (cpu_of image.old) (cpu_of image.new) result }
{
    let second = second_operand(source, w, instr, image);
    put(image, w, instr.r1, second);
    advance(image, n);
    Ok(())
}

/// Adds the immediate to R1, a doubleword.
#[inline(never)]
#[tactic(auto, unfolding(z_effect::specs::GeneralEffect::general_effect, z_effect::specs::Operations::combined))]
pub fn add_immediate(n: u8, instr: &Instr, image: &mut CpuImage) -> Result<(), Exception>
    ensures { Sets (general_effect (general.Compute Add Double Immediate) n instr.now (cpu_of image.old)) n
        (cpu_of image.old) (cpu_of image.new) result }
{
    let a = first_operand(Source::Immediate, Width::Double, instr, image);
    let b = second_operand(Source::Immediate, Width::Double, instr, image);
    let answer = add(Width::Double, a, b);
    settle(instr, image, n, Width::Double, answer)
}

/// Compares both operands.
#[tactic(auto, unfolding(z_effect::specs::GeneralEffect::general_effect))]
pub fn compare(
    order: Order,
    w: Width,
    source: Source,
    n: u8,
    instr: &Instr,
    image: &mut CpuImage,
) -> Result<(), Exception>
    ensures { Sets (general_effect (general.Compare order w source) n instr.now (cpu_of image.old)) n
        (cpu_of image.old) (cpu_of image.new) result }
{
    let a = first_operand(source, w, instr, image);
    let b = second_operand(source, w, instr, image);
    finish_with(z_effect::compare(order, w, a, b), n, image)
}

/// Shifts the word in R1.
#[tactic(auto, unfolding(z_effect::specs::GeneralEffect::general_effect))]
pub fn shift_first(kind: Shift, n: u8, instr: &Instr, image: &mut CpuImage) -> Result<(), Exception>
    ensures { Sets (general_effect (general.ShiftFirst kind) n instr.now (cpu_of image.old)) n
        (cpu_of image.old) (cpu_of image.new) result }
{
    let value = operand(image, Width::Word, instr.r1);
    let far = amount(instr, image);
    let answer = z_effect::shift(kind, Width::Word, image.condition, value, far);
    settle(instr, image, n, Width::Word, answer)
}

/// Shifts R3 into R1.
#[tactic(auto, unfolding(z_effect::specs::GeneralEffect::general_effect))]
pub fn shift_third(
    kind: Shift,
    w: Width,
    n: u8,
    instr: &Instr,
    image: &mut CpuImage,
) -> Result<(), Exception>
    ensures { Sets (general_effect (general.ShiftThird kind w) n instr.now (cpu_of image.old)) n
        (cpu_of image.old) (cpu_of image.new) result }
{
    let value = operand(image, w, instr.r3);
    let far = amount(instr, image);
    let answer = z_effect::shift(kind, w, image.condition, value, far);
    settle(instr, image, n, w, answer)
}
