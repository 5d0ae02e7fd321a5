//! The diagnostic block.
ghost use Rattle.std.specs.Prelude.{◌≡◌, ◌<◌, length, is_some};
ghost use Rattle.tx_control.specs.Nesting.{is_constrained};
ghost use Rattle.tx_abort.specs.Block.{block as whole_block, flags, length_in, code_in, register_fields};
ghost use Rattle.tx_abort.specs.Writes.{with_fields};

use crate::causes::{code_of, conflict_of, exception_of};
use crate::fields::{
    ADDRESS, BLOCK_SIZE, CODE, DEPTH, EXCEPTION, FLAGS, FORMAT, INSTRUCTION_LENGTH, REGISTERS,
    TOKEN,
};
use tx_control::{Exception, Nest, Why};
use z_regs::CpuImage;

/// Format 1, the only one.
const FORMAT_1: u64 = 1;

/// The flag of a valid conflict token.
const TOKEN_IS_VALID: u64 = 0x80;

/// The flag of a constrained transaction.
const IS_CONSTRAINED: u64 = 0x40;

/// The flags of a block.
fn flags_of(is_conflict: bool, is_constrained: bool) -> u64
    ensures value { result ≡ flags is_conflict is_constrained }
    ensures small { result < 256 }
{
    let token = if is_conflict { TOKEN_IS_VALID } else { 0 };
    let kind = if is_constrained { IS_CONSTRAINED } else { 0 };
    token + kind
}

/// The length of the instruction that met the exception, 0 without one.
fn length_of(exception: Option<Exception>) -> u8
    ensures { result ≡ length_in exception }
{
    match exception {
        Some(exception) => exception.length,
        None => 0,
    }
}

/// The code of the exception, 0 without one.
fn exception_code(exception: Option<Exception>) -> u16
    ensures { result ≡ code_in exception }
{
    match exception {
        Some(exception) => exception.code,
        None => 0,
    }
}

/// Writes the general registers.
fn put_registers(block: &mut [u8; BLOCK_SIZE], general: &[u64; 16])
    ensures { block.new ≡ with_fields (register_fields general.now) block.old }
{
    for r in 0..16 {
        REGISTERS.behind(r).put(block, general[r]);
    }
}

/// The diagnostic block of an abort, made of the CPU as it is before any register is brought back. `nest` has
/// the open begins, at least one, and `at` is the address that the block tells: that of the instruction which
/// caused the abort, or of the next one where the cause came from outside.
///
/// An abort that interrupts the program leaves the same bytes as the block of its interruption.
pub fn block_of(why: Why, nest: &Nest, image: &CpuImage, at: u64) -> [u8; BLOCK_SIZE]
    requires { 0 < length nest.now }
    ensures { result ≡ whole_block why nest.now image.now.general at }
{
    let conflict = conflict_of(why);
    let exception = exception_of(why);
    let mut block = [0; BLOCK_SIZE];
    FORMAT.put(&mut block, FORMAT_1);
    FLAGS.put(&mut block, flags_of(conflict.is_some(), nest.constrained()));
    DEPTH.put(&mut block, u64::from(nest.depth()));
    CODE.put(&mut block, code_of(why));
    TOKEN.put(&mut block, conflict.unwrap_or(0));
    ADDRESS.put(&mut block, at);
    INSTRUCTION_LENGTH.put(&mut block, u64::from(length_of(exception)));
    EXCEPTION.put(&mut block, u64::from(exception_code(exception)));
    put_registers(&mut block, &image.general);
    block
}
