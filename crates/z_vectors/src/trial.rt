//! One instruction, from its bytes to what it leaves.
ghost use Rattle.std.specs.Prelude.{◌≡◌, List, ℕ, length, true};
ghost use Rattle.z_regs.specs.Prefix.{storage_size};
ghost use Rattle.z_regs.specs.Cpu.{cpu_of};
ghost use Rattle.z_instr.specs.Table.{kind_at};
ghost use Rattle.z_effect.specs.Facts.{is_storage};
ghost use Rattle.z_effect.specs.After.{AreInside, ranges_of};

use crate::view::Watched;
use tx_control::Exception;
use tx_control::codes::{FIXED_POINT_OVERFLOW, OPERATION};
use vector_lines::Code;
use z_instr::instr::Instr;
use z_regs::{CpuImage, Guard, PAGES};
use z_touch::touches;

/// What an instruction answers: the CPU behind it, and the code of the exception that came, if one did.
#[derive(Clone, Copy)]
pub struct Answer {
    pub image: CpuImage,
    pub exception: Option<u16>,
}

/// The instruction is for none of the crates: it is about transactions.
#[derive(Clone, Copy)]
pub struct NobodysOperation;

/// The pages that hold a byte of an instruction, as text pages.
fn pages_of(address: u64, code: &Code) -> Guard {
    let mut guard = Guard::none();
    let last = address.wrapping_add(u64::from(code.length() - 1));
    for byte in [address, last] {
        let page = byte / 4096;
        if page < PAGES as u64 {
            guard.add(page as u32);
        }
    }
    guard
}

/// The CPU behind an instruction that an exception has stopped before it was completed: only the address has
/// moved.
fn behind_exception(mut image: CpuImage, code: u16, length: u8) -> Answer {
    image.address = image.address.wrapping_add(u64::from(length));
    Answer {
        image,
        exception: Some(code),
    }
}

/// The CPU behind an instruction that has been executed: an overflow comes when it is complete, a divide
/// exception leaves the address.
fn behind_execution(image: CpuImage, outcome: Result<(), Exception>) -> Answer {
    match outcome {
        Ok(()) => Answer {
            image,
            exception: None,
        },
        Err(exception) if exception.code == FIXED_POINT_OVERFLOW => Answer {
            image,
            exception: Some(exception.code),
        },
        Err(exception) => behind_exception(image, exception.code, exception.length),
    }
}

/// Executes an instruction that may touch its operands, by the crate whose it is.
fn execute(
    instr: &Instr,
    mut image: CpuImage,
    view: &mut Watched,
) -> Result<Answer, NobodysOperation>
    requires { (s : List ℕ) → length s ≡ storage_size → is_storage (kind_at instr.now.op.number) ≡ true →
        AreInside (ranges_of instr.now (cpu_of image)) s }
{
    if z_general::is_mine(instr.op) {
        let outcome = z_general::execute(instr, &mut image, view);
        return Ok(behind_execution(image, outcome));
    }
    if z_branch::is_mine(instr.op) {
        let outcome = z_branch::execute(instr, &mut image, view);
        return Ok(behind_execution(image, outcome));
    }
    if z_storage::is_mine(instr.op) {
        let outcome = z_storage::execute(instr, &mut image, view);
        return Ok(behind_execution(image, outcome));
    }
    Err(NobodysOperation)
}

/// What the bytes do to a CPU and to storage, outside of any transaction, where only the pages of the bytes
/// hold text.
pub fn attempt(
    code: &Code,
    image: CpuImage,
    view: &mut Watched,
) -> Result<Answer, NobodysOperation> {
    let Some(instr) = code.instr() else {
        return Ok(behind_exception(image, OPERATION, code.length()));
    };
    let guard = pages_of(image.address, code);
    match touches(&instr, &image, &guard, 0) {
        Ok(_) => execute(&instr, image, view),
        Err(exception) => Ok(behind_exception(image, exception.code, exception.length)),
    }
}
