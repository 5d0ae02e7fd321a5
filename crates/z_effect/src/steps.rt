//! Steps on a CPU that instructions share.
ghost use Rattle.std.specs.Prelude.{◌≡◌, ◌<◌, ◌^◌, ℕ, List};
ghost use Rattle.z_arith.specs.Whole.{bits};
ghost use Rattle.z_regs.specs.Cpu.{cpu_of};
ghost use Rattle.z_effect.specs.Registers.{register as value_of, operand_in, after as number_after, target as target_of, with_register, with_pair, with_condition, next_address as address_behind, advanced};
ghost use Rattle.z_effect.specs.GeneralEffect.{answered};
ghost use Rattle.z_effect.specs.Outcome.{ended};
ghost use Rattle.z_effect.specs.After.{Sets, exception as exception_of};

use tx_control::Exception;
use tx_control::codes::FIXED_POINT_OVERFLOW;
use z_arith::{Answer, Width, doubleword, low};
use z_instr::instr::Instr;
use z_regs::CpuImage;

/// A general register, 0 to 15.
pub fn register(image: &CpuImage, r: u8) -> u64
    requires { r < 16 }
    ensures { result ≡ value_of (cpu_of image.now) r }
{
    image.general[usize::from(r)]
}

/// The word of a general register, or all of it.
pub fn operand(image: &CpuImage, w: Width, r: u8) -> u64
    requires { r < 16 }
    ensures value { result ≡ operand_in w (cpu_of image.now) r }
    ensures fits { result < 2 ^ bits w }
{
    low(w, register(image, r))
}

/// The number of the register after another one, 0 after 15: the second one of a pair.
pub fn after(r: u8) -> u8
    requires { r < 16 }
    ensures { result ≡ number_after r }
{
    (r + 1) % 16
}

/// Puts a value into a general register; a word leaves bits 0 to 31.
pub fn put(image: &mut CpuImage, w: Width, r: u8, value: u64)
    requires register_in { r < 16 }
    requires value_in { value < 2 ^ bits w }
    ensures { cpu_of image.new ≡ with_register w r value (cpu_of image.old) }
{
    let old = register(image, r);
    let new = match w {
        Width::Word => old / 0x1_0000_0000 * 0x1_0000_0000 + value,
        Width::Double => value,
    };
    image.general[usize::from(r)] = new;
}

/// Puts a value into a general register and one into the register after it.
pub fn put_pair(image: &mut CpuImage, w: Width, r: u8, first: u64, second: u64)
    requires register_in { r < 16 }
    requires first_in { first < 2 ^ bits w }
    requires second_in { second < 2 ^ bits w }
    ensures { cpu_of image.new ≡ with_pair w r first second (cpu_of image.old) }
{
    put(image, w, r, first);
    put(image, w, after(r), second);
}

/// The address of what stands some halfwords from the instruction, modulo 2^64.
pub fn target(instr: &Instr, image: &CpuImage) -> u64
    ensures { result ≡ target_of instr.now (cpu_of image.now) }
{
    image
        .address
        .wrapping_add(doubleword(instr.imm).wrapping_mul(2))
}

/// The address behind an instruction of `n` bytes.
pub fn next_address(image: &CpuImage, n: u8) -> u64
    ensures { result ≡ address_behind n (cpu_of image.now) }
{
    image.address.wrapping_add(u64::from(n))
}

/// Goes on behind an instruction of `n` bytes.
pub fn advance(image: &mut CpuImage, n: u8)
    ensures { cpu_of image.new ≡ advanced n (cpu_of image.old) }
{
    image.address = next_address(image, n);
}

/// Sets the condition code and goes on behind an instruction of `n` bytes. Where there is overflow and the
/// leftmost bit of the program mask is one, the answer is a fixed-point overflow exception.
pub fn conclude(image: &mut CpuImage, n: u8, condition: u8, overflow: bool) -> Result<(), Exception>
    requires { condition < 4 }
    ensures { (bytes : List ℕ) →
        Sets (ended overflow (advanced n (with_condition condition (cpu_of image.old))) bytes) n
        (cpu_of image.old) (cpu_of image.new) result }
{
    image.condition = condition;
    advance(image, n);
    if overflow && image.mask >= 8 {
        return Err(exception(FIXED_POINT_OVERFLOW, n));
    }
    Ok(())
}

/// The exception with this code of an instruction of `n` bytes, which does not come at its fetch.
pub fn exception(code: u16, n: u8) -> Exception
    ensures { result ≡ exception_of code n }
{
    Exception {
        code,
        fetch: false,
        length: n,
    }
}

/// Puts a result into R1, and concludes.
pub fn settle(
    instr: &Instr,
    image: &mut CpuImage,
    n: u8,
    w: Width,
    answer: Answer,
) -> Result<(), Exception>
    requires value_in { answer.value < 2 ^ bits w }
    requires condition_in { answer.condition < 4 }
    ensures { Sets (answered n w answer instr.now (cpu_of image.old)) n (cpu_of image.old)
        (cpu_of image.new) result }
{
    put(image, w, instr.r1, answer.value);
    conclude(image, n, answer.condition, answer.overflow)
}
