//! Instructions on bits 48 to 63 of R1.
ghost use Rattle.std.specs.Prelude.{◌≡◌, ◌<◌, ◌^◌};
ghost use Rattle.z_arith.specs.Whole.{modulo};
ghost use Rattle.z_regs.specs.Cpu.{cpu_of};
ghost use Rattle.z_instr.specs.declared.kind.General.TheVariants as general;
ghost use Rattle.z_effect.specs.Operations.{logic_of};
ghost use Rattle.z_effect.specs.GeneralEffect.{general_effect, halfword as halfword_of, with_halfword};
ghost use Rattle.z_effect.specs.After.{Sets};

use crate::controls::{finish, finish_with};
use tx_control::Exception;
use z_arith::{doubleword, test_halfword};
use z_effect::{logic, register, zero_code};
use z_instr::instr::Instr;
use z_instr::kind::Logic;
use z_regs::CpuImage;

/// The rightmost halfword of R1.
fn halfword(instr: &Instr, image: &CpuImage) -> u16
    ensures { result ≡ halfword_of instr.now (cpu_of image.now) }
{
    (register(image, instr.r1) % 0x1_0000) as u16
}

/// The immediate as a halfword.
fn immediate_halfword(instr: &Instr) -> u16
    ensures { result ≡ modulo 16 instr.now.imm }
{
    (doubleword(instr.imm) % 0x1_0000) as u16
}

/// Puts a halfword into the rightmost bits of R1; bits 0 to 47 stay.
fn put_halfword(instr: &Instr, image: &mut CpuImage, value: u64)
    requires { value < 2 ^ 16 }
    ensures { cpu_of image.new ≡ with_halfword instr.now value (cpu_of image.old) }
{
    let old = register(image, instr.r1);
    image.general[usize::from(instr.r1)] = old / 0x1_0000 * 0x1_0000 + value;
}

/// The result of an operation on the halfword and the immediate.
fn combined_halfword(kind: Logic, instr: &Instr, image: &CpuImage) -> u64
    ensures value { result ≡ logic_of kind (halfword_of instr.now (cpu_of image.now))
        (modulo 16 instr.now.imm) }
    ensures fits { result < 2 ^ 16 }
{
    let a = halfword(instr, image);
    let b = immediate_halfword(instr);
    logic(kind, u64::from(a), u64::from(b))
}

/// Puts a result of the halfword and the immediate in its place.
#[tactic(auto, unfolding(z_effect::specs::GeneralEffect::general_effect))]
pub fn low_halfword(
    kind: Logic,
    n: u8,
    instr: &Instr,
    image: &mut CpuImage,
) -> Result<(), Exception>
    ensures { Sets (general_effect (general.LowHalfword kind) n instr.now (cpu_of image.old)) n
        (cpu_of image.old) (cpu_of image.new) result }
{
    let value = combined_halfword(kind, instr, image);
    put_halfword(instr, image, value);
    finish_with(zero_code(value), n, image)
}

/// Puts the immediate in the halfword's place.
#[tactic(auto, unfolding(z_effect::specs::GeneralEffect::general_effect))]
pub fn insert(n: u8, instr: &Instr, image: &mut CpuImage) -> Result<(), Exception>
    ensures { Sets (general_effect general.InsertHalfword n instr.now (cpu_of image.old)) n (cpu_of image.old)
        (cpu_of image.new) result }
{
    put_halfword(instr, image, u64::from(immediate_halfword(instr)));
    finish(image, n)
}

/// Tests those bits of the halfword that the immediate selects.
#[tactic(auto, unfolding(z_effect::specs::GeneralEffect::general_effect))]
pub fn test(n: u8, instr: &Instr, image: &mut CpuImage) -> Result<(), Exception>
    ensures { Sets (general_effect general.TestHalfword n instr.now (cpu_of image.old)) n (cpu_of image.old)
        (cpu_of image.new) result }
{
    let code = test_halfword(halfword(instr, image), immediate_halfword(instr));
    finish_with(code, n, image)
}
