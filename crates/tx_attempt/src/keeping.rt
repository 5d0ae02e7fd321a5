//! Instructions that store a register, which need no byte of storage.
ghost use Rattle.std.specs.Prelude.{◌≡◌, ◌≤◌, ℕ, List, length, true};
ghost use Rattle.z_regs.specs.Cpu.{cpu_of};
ghost use Rattle.z_instr.specs.Table.{kind_at};
ghost use Rattle.z_instr.specs.declared.kind.Storage.TheVariants.{Store};
ghost use Rattle.z_instr.specs.declared.operand.Size.TheVariants.{Doubleword};
ghost use Rattle.z_effect.specs.One.{one};
ghost use Rattle.tx_attempt.specs.declared.performing.Ended.TheVariants.{Completed};
ghost use Rattle.tx_attempt.specs.Performed.{IsKeptApart};
ghost use Rattle.tx_attempt.specs.declared.performing.Ended.TheVariants.{Completed};

use crate::performing::Ended;
use byteorder::{BigEndian, ByteOrder};
use z_effect::{advance, register};
use z_instr::format::length_in;
use z_instr::instr::Instr;
use z_instr::kind::{Kind, Storage};
use z_instr::lookup::line;
use z_instr::operand::Size;
use z_regs::CpuImage;

/// Whether an operation of this kind stores the doubleword of R1, and does no more, as STG does; where it is true,
/// `keep_register` executes the operation.
pub fn stores_register(kind: &Kind) -> bool
    ensures { result ≡ true → kind.now ≡ Kind.Storage (Store Doubleword) }
{
    matches!(kind, Kind::Storage(Storage::Store(Size::Doubleword)))
}

/// Executes an instruction that stores the doubleword of R1, whatever storage has: one whose kind `stores_register`
/// finds to be such. It is completed, the CPU goes on behind it, and the eight bytes that it stores are kept apart at
/// the head of `stored`, which must have room for them. Who calls it has seen that the operand is accessible.
#[inline(always)]
pub fn keep_register(instr: &Instr, image: &mut CpuImage, stored: &mut [u8]) -> Ended
    requires kind { kind_at instr.now.op.number ≡ Kind.Storage (Store Doubleword) }
    requires room { 8 ≤ length stored.old }
    ensures done { (depth : ℕ) (bytes : List ℕ) → IsKeptApart (one instr.now (cpu_of image.old) depth bytes) 8
        (cpu_of image.old) (cpu_of image.new) stored.new result }
    ensures completed { result ≡ Completed }
    ensures size { length stored.new ≡ length stored.old }
{
    let value = register(image, instr.r1);
    advance(image, length_in(line(instr.op).form));
    BigEndian::write_u64(stored, value);
    Ended::Completed
}
