//! Instructions that load an address or a register, and those on the program mask and access registers.
ghost use Rattle.std.specs.Prelude.{◌≡◌, ◌<◌};
ghost use Rattle.z_regs.specs.Cpu.{cpu_of};
ghost use Rattle.z_instr.specs.declared.kind.General.TheVariants as general;
ghost use Rattle.z_effect.specs.Registers.{advanced, with_condition};
ghost use Rattle.z_effect.specs.GeneralEffect.{general_effect};
ghost use Rattle.z_effect.specs.Outcome.{done};
ghost use Rattle.z_effect.specs.After.{Sets};

use tx_control::Exception;
use z_arith::Width;
use z_effect::{advance, operand, put, register};
use z_instr::addresses::{first_address, is_selected};
use z_instr::instr::Instr;
use z_regs::CpuImage;

/// Goes on behind an instruction that can have no exception.
pub fn finish(image: &mut CpuImage, n: u8) -> Result<(), Exception>
    ensures { Sets (done (advanced n (cpu_of image.old))) n (cpu_of image.old) (cpu_of image.new) result }
{
    advance(image, n);
    Ok(())
}

/// Sets the condition code, and goes on.
pub fn finish_with(condition: u8, n: u8, image: &mut CpuImage) -> Result<(), Exception>
    requires { condition < 4 }
    ensures { Sets (done (advanced n (with_condition condition (cpu_of image.old)))) n (cpu_of image.old)
        (cpu_of image.new) result }
{
    image.condition = condition;
    finish(image, n)
}

/// Puts the address into R1.
#[tactic(auto, unfolding(z_effect::specs::GeneralEffect::general_effect))]
pub fn load_address(n: u8, instr: &Instr, image: &mut CpuImage) -> Result<(), Exception>
    ensures { Sets (general_effect general.Address n instr.now (cpu_of image.old)) n (cpu_of image.old)
        (cpu_of image.new) result }
{
    let address = first_address(instr, &image.general);
    put(image, Width::Double, instr.r1, address);
    finish(image, n)
}

/// Puts the address of the target into R1.
#[tactic(auto, unfolding(z_effect::specs::GeneralEffect::general_effect))]
pub fn load_target(n: u8, instr: &Instr, image: &mut CpuImage) -> Result<(), Exception>
    ensures { Sets (general_effect general.Target n instr.now (cpu_of image.old)) n (cpu_of image.old)
        (cpu_of image.new) result }
{
    let target = z_effect::target(instr, image);
    put(image, Width::Double, instr.r1, target);
    finish(image, n)
}

/// Puts R2 into R1 where the mask selects the code.
#[tactic(auto, unfolding(z_effect::specs::GeneralEffect::general_effect))]
pub fn load_selected(n: u8, instr: &Instr, image: &mut CpuImage) -> Result<(), Exception>
    ensures { Sets (general_effect general.LoadSelected n instr.now (cpu_of image.old)) n (cpu_of image.old)
        (cpu_of image.new) result }
{
    if is_selected(instr.mask, image.condition) {
        let value = register(image, instr.r2);
        put(image, Width::Double, instr.r1, value);
        finish(image, n)
    } else {
        finish(image, n)
    }
}

/// Puts two zeros, the code and the program mask into bits 32 to 39 of R1.
#[tactic(auto, unfolding(z_effect::specs::GeneralEffect::general_effect))]
pub fn insert_mask(n: u8, instr: &Instr, image: &mut CpuImage) -> Result<(), Exception>
    ensures { Sets (general_effect general.InsertProgramMask n instr.now (cpu_of image.old)) n
        (cpu_of image.old) (cpu_of image.new) result }
{
    let byte = u64::from(image.condition * 16 + image.mask);
    let right = register(image, instr.r1) % 0x100_0000;
    put(image, Width::Word, instr.r1, byte * 0x100_0000 + right);
    finish(image, n)
}

/// Takes the code from bits 34 and 35 of R1, and the program mask from bits 36 to 39.
#[tactic(auto, unfolding(z_effect::specs::GeneralEffect::general_effect))]
pub fn set_mask(n: u8, instr: &Instr, image: &mut CpuImage) -> Result<(), Exception>
    ensures { Sets (general_effect general.SetProgramMask n instr.now (cpu_of image.old)) n (cpu_of image.old)
        (cpu_of image.new) result }
{
    let value = register(image, instr.r1);
    image.mask = (value / 0x100_0000 % 16) as u8;
    image.condition = (value / 0x1000_0000 % 4) as u8;
    finish(image, n)
}

/// Puts access register R2 into the word of R1.
#[tactic(auto, unfolding(z_effect::specs::GeneralEffect::general_effect))]
pub fn extract_access(n: u8, instr: &Instr, image: &mut CpuImage) -> Result<(), Exception>
    ensures { Sets (general_effect general.ExtractAccess n instr.now (cpu_of image.old)) n (cpu_of image.old)
        (cpu_of image.new) result }
{
    let value = u64::from(image.access[usize::from(instr.r2)]);
    put(image, Width::Word, instr.r1, value);
    finish(image, n)
}

/// Puts the word of R2 into access register R1.
#[tactic(auto, unfolding(z_effect::specs::GeneralEffect::general_effect))]
pub fn set_access(n: u8, instr: &Instr, image: &mut CpuImage) -> Result<(), Exception>
    ensures { Sets (general_effect general.SetAccess n instr.now (cpu_of image.old)) n (cpu_of image.old)
        (cpu_of image.new) result }
{
    let value = operand(image, Width::Word, instr.r2);
    image.access[usize::from(instr.r1)] = value as u32;
    finish(image, n)
}
