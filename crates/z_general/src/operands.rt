//! The operands of an instruction without an operand in storage.
ghost use Rattle.std.specs.Prelude.{◌≡◌, ◌<◌, ◌^◌, ◌%◌};
ghost use Rattle.z_arith.specs.Whole.{bits};
ghost use Rattle.z_regs.specs.Cpu.{cpu_of};
ghost use Rattle.z_effect.specs.Operations.{bits_in};
ghost use Rattle.z_effect.specs.GeneralEffect.{first_operand as first_of, second_operand as second_of};
ghost use Rattle.z_effect.specs.GeneralEffect.{amount as amount_of};

use z_arith::Width;
use z_effect::{extend, immediate, operand, register};
use z_instr::addresses::first_address;
use z_instr::instr::Instr;
use z_instr::kind::{Source, size_in};
use z_instr::operand::Size;
use z_regs::CpuImage;

/// The first operand.
pub fn first_operand(source: Source, w: Width, instr: &Instr, image: &CpuImage) -> u64
    ensures value { result ≡ first_of source w instr.now (cpu_of image.now) }
    ensures fits { result < 2 ^ bits w }
{
    match source {
        Source::Third => operand(image, w, instr.r2),
        Source::Second(_) | Source::Immediate => operand(image, w, instr.r1),
    }
}

/// The rightmost piece of a doubleword.
fn piece(size: Size, pattern: u64) -> u64
    ensures value { result ≡ pattern % 2 ^ bits_in size }
    ensures fits { result < 2 ^ bits_in size }
{
    match size {
        Size::Byte => pattern % 0x100,
        Size::Halfword => pattern % 0x1_0000,
        Size::Word => pattern % 0x1_0000_0000,
        Size::Doubleword => pattern,
    }
}

/// The second operand.
pub fn second_operand(source: Source, w: Width, instr: &Instr, image: &CpuImage) -> u64
    ensures value { result ≡ second_of source w instr.now (cpu_of image.now) }
    ensures fits { result < 2 ^ bits w }
{
    match source {
        Source::Second(part) => extend(w, part, piece(size_in(part), register(image, instr.r2))),
        Source::Third => operand(image, w, instr.r3),
        Source::Immediate => immediate(w, instr.imm),
    }
}

/// How far a shift goes: the rightmost six bits of the address.
pub fn amount(instr: &Instr, image: &CpuImage) -> u32
    ensures value { result ≡ amount_of instr.now (cpu_of image.now) }
    ensures below { result < 64 }
{
    (first_address(instr, &image.general) % 64) as u32
}
