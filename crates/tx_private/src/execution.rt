//! One instruction executed, by the crate whose it is.
ghost use Rattle.std.specs.Prelude.{◌≡◌, ◌≤◌, ◌+◌, ℕ, length};
ghost use Rattle.byteorder.specs.Endian.{big_bytes};
ghost use Rattle.z_instr.specs.Operands.{first_address as first_address_of};
ghost use Rattle.z_regs.specs.Cpu.{cpu_of};
ghost use Rattle.z_regs.specs.Prefix.{storage_size};
ghost use Rattle.z_effect.specs.Registers.{register as value_of};
ghost use Rattle.z_instr.specs.Table.{kind_at};
ghost use Rattle.z_effect.specs.Outcome.{Outcome};
ghost use Rattle.z_effect.specs.After.{AreInside, ranges_of, answer_of, told, written};
ghost use Rattle.z_instr.specs.declared.kind.Kind.TheVariants as kinds;
ghost use Rattle.tx_private.specs.Done.{completion_of, IsExecuted};

use crate::storing::write_bytes;
use byteorder::{BigEndian, ByteOrder};
use tx_control::Exception;
use tx_control::codes::FIXED_POINT_OVERFLOW;
use z_effect::{register, transact};
use z_instr::addresses::first_address;
use z_instr::format::length_in;
use z_instr::instr::Instr;
use z_instr::kind::{Kind, Transaction};
use z_instr::lookup::{kind_of, line};
use z_regs::{CpuImage, Storage};

/// How an instruction has come to its end.
#[derive(Clone, Copy)]
pub enum Completion {
    /// It has done all.
    Completed,
    /// It has done all, and a fixed-point overflow exception comes.
    Overflowed,
    /// It has done nothing, since a division does not fit.
    Divides,
    /// It has done nothing, and aborts the transaction with this code.
    Aborts(u64),
}

/// By the answer of a call that executes instructions.
fn ended_by(answer: Result<(), Exception>) -> Completion
    ensures { (n : ℕ) (o : Outcome) → told answer ≡ answer_of n o → result ≡ completion_of o }
{
    match answer {
        Ok(()) => Completion::Completed,
        Err(exception) if exception.code == FIXED_POINT_OVERFLOW => Completion::Overflowed,
        Err(_) => Completion::Divides,
    }
}

/// Stores R1 of NTSTG.
fn store_register(instr: &Instr, image: &CpuImage, seen: &mut Storage)
    requires inside { first_address_of instr.now image.now.general + 8 ≤ storage_size }
    requires size { length seen.old ≡ storage_size }
    ensures stored { seen.new ≡ written seen.old (first_address_of instr.now image.now.general)
        (big_bytes 8 (value_of (cpu_of image.now) instr.now.r1)) }
    ensures size { length seen.new ≡ storage_size }
{
    let mut doubleword = [0; 8];
    BigEndian::write_u64(&mut doubleword, register(image, instr.r1));
    write_bytes(seen, first_address(instr, &image.general), &doubleword);
}

/// One of the seven about transactions.
fn execute_transaction(
    kind: Transaction,
    instr: &Instr,
    image: &mut CpuImage,
    seen: &mut Storage,
    depth: u32,
) -> Completion
    requires kind { kind_at instr.now.op.number ≡ kinds.Transaction kind }
    requires size { length seen.old ≡ storage_size }
    requires inside { AreInside (ranges_of instr.now (cpu_of image.old)) seen.old }
    requires depth { depth ≤ 16 }
    ensures done { IsExecuted depth instr.now (cpu_of image.old) (cpu_of image.new) seen.old seen.new result }
    ensures size { length seen.new ≡ storage_size }
{
    let n = length_in(line(instr.op).form);
    match kind {
        Transaction::Abort => Completion::Aborts(first_address(instr, &image.general)),
        Transaction::StoreLasting => {
            store_register(instr, image, seen);
            transact(kind, instr, image, n, depth);
            Completion::Completed
        }
        _ => {
            transact(kind, instr, image, n, depth);
            Completion::Completed
        }
    }
}

/// Executes an instruction whose operands lie in storage, at a nesting depth. `seen` is storage in the order
/// of the CPU's real addresses.
pub fn execute(instr: &Instr, image: &mut CpuImage, seen: &mut Storage, depth: u32) -> Completion
    requires size { length seen.old ≡ storage_size }
    requires inside { AreInside (ranges_of instr.now (cpu_of image.old)) seen.old }
    requires depth { depth ≤ 16 }
    ensures done { IsExecuted depth instr.now (cpu_of image.old) (cpu_of image.new) seen.old seen.new result }
    ensures size { length seen.new ≡ storage_size }
{
    match kind_of(instr.op) {
        Kind::General(kind) => ended_by(z_general::execute_kind(&kind, instr, image, seen)),
        Kind::Storage(kind) => ended_by(z_storage::execute_kind(&kind, instr, image, seen)),
        Kind::Branch(kind) => ended_by(z_branch::execute_kind(&kind, instr, image, seen)),
        Kind::Transaction(kind) => execute_transaction(kind, instr, image, seen, depth),
    }
}
