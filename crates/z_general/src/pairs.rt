//! Instructions with results in R1 and the register after it.
ghost use Rattle.std.specs.Prelude.{◌≡◌, ◌<◌, ◌^◌};
ghost use Rattle.z_arith.specs.Whole.{bits};
ghost use Rattle.z_regs.specs.Cpu.{cpu_of};
ghost use Rattle.z_instr.specs.declared.kind.General.TheVariants as general;
ghost use Rattle.z_effect.specs.Registers.{with_pair, advanced};
ghost use Rattle.z_effect.specs.GeneralEffect.{general_effect};
ghost use Rattle.z_effect.specs.Outcome.{done};
ghost use Rattle.z_effect.specs.After.{Sets};

use crate::controls::{finish, finish_with};
use tx_control::Exception;
use tx_control::codes::FIXED_POINT_DIVIDE;
use z_arith::{self, Width};
use z_effect::{after, exception, operand, put_pair, register};
use z_instr::instr::Instr;
use z_regs::CpuImage;

/// Puts two results into R1 and the register after it, and goes on.
fn finish_pair(
    w: Width,
    first: u64,
    second: u64,
    n: u8,
    instr: &Instr,
    image: &mut CpuImage,
) -> Result<(), Exception>
    requires first_in { first < 2 ^ bits w }
    requires second_in { second < 2 ^ bits w }
    ensures { Sets (done (advanced n (with_pair w instr.now.r1 first second (cpu_of image.old)))) n
        (cpu_of image.old) (cpu_of image.new) result }
{
    put_pair(image, w, instr.r1, first, second);
    finish(image, n)
}

/// The product of two words with a sign.
#[tactic(auto, unfolding(z_effect::specs::GeneralEffect::general_effect))]
pub fn multiply_word(n: u8, instr: &Instr, image: &mut CpuImage) -> Result<(), Exception>
    ensures { Sets (general_effect general.MultiplyWord n instr.now (cpu_of image.old)) n (cpu_of image.old)
        (cpu_of image.new) result }
{
    let a = operand(image, Width::Word, after(instr.r1)) as u32;
    let b = operand(image, Width::Word, instr.r2) as u32;
    let product = z_arith::multiply_word(a, b);
    let left = product / 0x1_0000_0000;
    let right = product % 0x1_0000_0000;
    finish_pair(Width::Word, left, right, n, instr, image)
}

/// The product of two doublewords without a sign.
#[tactic(auto, unfolding(z_effect::specs::GeneralEffect::general_effect))]
pub fn multiply_logical(n: u8, instr: &Instr, image: &mut CpuImage) -> Result<(), Exception>
    ensures { Sets (general_effect general.MultiplyLogical n instr.now (cpu_of image.old)) n
        (cpu_of image.old) (cpu_of image.new) result }
{
    let a = register(image, after(instr.r1));
    let b = register(image, instr.r2);
    let (left, right) = z_arith::multiply_logical(a, b);
    finish_pair(Width::Double, left, right, n, instr, image)
}

/// Two words, as one number with a sign, by a word.
#[tactic(auto, unfolding(z_effect::specs::GeneralEffect::general_effect))]
pub fn divide_word(n: u8, instr: &Instr, image: &mut CpuImage) -> Result<(), Exception>
    ensures { Sets (general_effect general.DivideWord n instr.now (cpu_of image.old)) n (cpu_of image.old)
        (cpu_of image.new) result }
{
    let left = operand(image, Width::Word, instr.r1);
    let right = operand(image, Width::Word, after(instr.r1));
    let divisor = operand(image, Width::Word, instr.r2) as u32;
    match z_arith::divide_word(left * 0x1_0000_0000 + right, divisor) {
        Ok((remainder, quotient)) => {
            let (first, second) = (u64::from(remainder), u64::from(quotient));
            finish_pair(Width::Word, first, second, n, instr, image)
        }
        Err(_) => Err(exception(FIXED_POINT_DIVIDE, n)),
    }
}

/// A doubleword by a doubleword, both with a sign.
#[tactic(auto, unfolding(z_effect::specs::GeneralEffect::general_effect))]
pub fn divide_double(n: u8, instr: &Instr, image: &mut CpuImage) -> Result<(), Exception>
    ensures { Sets (general_effect general.DivideDouble n instr.now (cpu_of image.old)) n (cpu_of image.old)
        (cpu_of image.new) result }
{
    let dividend = register(image, after(instr.r1));
    match z_arith::divide_double(dividend, register(image, instr.r2)) {
        Ok((remainder, quotient)) => {
            finish_pair(Width::Double, remainder, quotient, n, instr, image)
        }
        Err(_) => Err(exception(FIXED_POINT_DIVIDE, n)),
    }
}

/// Two doublewords, as one number without a sign, by a doubleword.
#[tactic(auto, unfolding(z_effect::specs::GeneralEffect::general_effect))]
pub fn divide_logical(n: u8, instr: &Instr, image: &mut CpuImage) -> Result<(), Exception>
    ensures { Sets (general_effect general.DivideLogical n instr.now (cpu_of image.old)) n (cpu_of image.old)
        (cpu_of image.new) result }
{
    let left = register(image, instr.r1);
    let right = register(image, after(instr.r1));
    match z_arith::divide_logical(left, right, register(image, instr.r2)) {
        Ok((remainder, quotient)) => {
            finish_pair(Width::Double, remainder, quotient, n, instr, image)
        }
        Err(_) => Err(exception(FIXED_POINT_DIVIDE, n)),
    }
}

/// The first one of R2.
#[tactic(auto, unfolding(z_effect::specs::GeneralEffect::general_effect))]
pub fn find_leftmost_one(n: u8, instr: &Instr, image: &mut CpuImage) -> Result<(), Exception>
    ensures { Sets (general_effect general.FindLeftmostOne n instr.now (cpu_of image.old)) n
        (cpu_of image.old) (cpu_of image.new) result }
{
    let (zeros, rest, code) = z_arith::leftmost_one(register(image, instr.r2));
    put_pair(image, Width::Double, instr.r1, zeros, rest);
    finish_with(code, n, image)
}
