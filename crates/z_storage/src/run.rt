//! One instruction.
ghost use Rattle.std.specs.Prelude.{◌≡◌, ℕ, length, slice_index, true};
ghost use Rattle.z_regs.specs.Prefix.{storage_size};
ghost use Rattle.z_instr.specs.Facts.{has_two_lists};
ghost use Rattle.z_instr.specs.Ranges.{is_within, bounds};
ghost use Rattle.z_regs.specs.Cpu.{cpu_of};
ghost use Rattle.z_instr.specs.Table.{kind_at};
ghost use Rattle.z_effect.specs.Facts.{is_storage};
ghost use Rattle.z_instr.specs.Kinds.{storage_operands};
ghost use Rattle.z_effect.specs.After.{AreInside, IsBeside, ranges_of, Executes};
ghost use Rattle.z_storage.specs.Performs.{ranges, Performs};

use crate::{fetched, lists, registers, stored};
use tx_control::Exception;
use z_arith::Width;
use z_instr::format::length_in;
use z_instr::instr::Instr;
use z_instr::kind::{Kind, Operation, Part, Storage};
use z_instr::lookup::{kind_in, kind_of, line};
use z_instr::op::Op;
use z_instr::operand::Size;
use z_regs::{Bytes, CpuImage};

/// Whether an operation has an operand in storage and is not about transactions: whether [`execute`] is for
/// it.
pub fn is_mine(op: Op) -> bool
    ensures { result ≡ is_storage (kind_at op.number) }
{
    matches!(kind_of(op), Kind::Storage(_))
}

/// Does what a kind says to an instruction's registers and storage.
#[inline(never)]
fn run_any<V: Bytes>(
    kind: &Storage,
    n: u8,
    instr: &Instr,
    image: &mut CpuImage,
    view: &mut V,
) -> Result<(), Exception>
    requires size { length (V.bytes view.old) ≡ storage_size }
    requires lists { has_two_lists (storage_operands kind.now) ≡ true → is_within (bounds 0 256) instr.now.imm ≡
        true }
    requires inside { AreInside (ranges kind.now instr.now (cpu_of image.old)) (V.bytes view.old) }
    ensures { Performs kind.now n instr.now (cpu_of image.old) (cpu_of image.new) (V.bytes view.old)
        (V.bytes view.new) result }
{
    match *kind {
        Storage::Compute(Operation::Load, w, part) => fetched::load(w, part, n, instr, image, view),
        Storage::Compute(operation, w, part) => {
            fetched::compute(operation, w, part, n, instr, image, view)
        }
        Storage::Compare(order, w, part) => {
            fetched::compare_register(order, w, part, n, instr, image, view)
        }
        Storage::CompareImmediate(order, w, part) => {
            fetched::compare_immediate(order, w, part, n, instr, image, view)
        }
        Storage::TestUnderMask => fetched::test_byte(n, instr, image, view),
        Storage::InsertByte => fetched::insert_byte(n, instr, image, view),
        Storage::Store(size) => stored::store_register(size, n, instr, image, view),
        Storage::StoreImmediate(size) => stored::store_immediate(size, n, instr, image, view),
        Storage::ByteLogic(logic) => stored::byte_logic(logic, n, instr, image, view),
        Storage::AddImmediate(w) => stored::add_immediate(w, n, instr, image, view),
        Storage::LoadMany(w) => registers::load_many(w, n, instr, image, view),
        Storage::StoreMany(w) => registers::store_many(w, n, instr, image, view),
        Storage::CompareAndSwap(w) => stored::compare_and_swap(w, n, instr, image, view),
        Storage::LoadAnd(operation, w) => stored::load_and(operation, w, n, instr, image, view),
        Storage::LoadSelected => fetched::load_selected(n, instr, image, view),
        Storage::StoreSelected => stored::store_selected(n, instr, image, view),
        Storage::ByteByByte(combination) => {
            lists::byte_by_byte(combination, n, instr, image, view)
        }
        Storage::CompareBytes => lists::compare_bytes(n, instr, image, view),
    }
}

/// The same, where loading and storing a doubleword, which are frequent, have a way of their own.
#[inline(always)]
fn run<V: Bytes>(
    kind: &Storage,
    n: u8,
    instr: &Instr,
    image: &mut CpuImage,
    view: &mut V,
) -> Result<(), Exception>
    requires size { length (V.bytes view.old) ≡ storage_size }
    requires lists { has_two_lists (storage_operands kind.now) ≡ true → is_within (bounds 0 256) instr.now.imm ≡
        true }
    requires inside { AreInside (ranges kind.now instr.now (cpu_of image.old)) (V.bytes view.old) }
    ensures { Performs kind.now n instr.now (cpu_of image.old) (cpu_of image.new) (V.bytes view.old)
        (V.bytes view.new) result }
{
    match *kind {
        Storage::Compute(Operation::Load, Width::Double, Part::Plain(Size::Doubleword)) => {
            fetched::load(
                Width::Double,
                Part::Plain(Size::Doubleword),
                n,
                instr,
                image,
                view,
            )
        }
        Storage::Store(Size::Doubleword) => {
            stored::store_register(Size::Doubleword, n, instr, image, view)
        }
        _ => run_any(kind, n, instr, image, view),
    }
}

/// Executes an instruction whose operation has this kind: changes registers, condition code, address and the
/// stored operand as the architecture says, and no other byte of storage.
///
/// `view` has 1,048,576 bytes, and all operands lie in them; `z_touch` tests that. Numbers in storage have
/// their leftmost byte first. The error is a fixed-point overflow exception, after all is done, where the
/// result overflows and the leftmost bit of the program mask is one.
#[inline(always)]
pub fn execute_kind<V: Bytes>(
    kind: &Storage,
    instr: &Instr,
    image: &mut CpuImage,
    view: &mut V,
) -> Result<(), Exception>
    requires kind { kind_at instr.now.op.number ≡ Kind.Storage kind.now }
    requires size { length (V.bytes view.old) ≡ storage_size }
    requires inside { AreInside (ranges_of instr.now (cpu_of image.old)) (V.bytes view.old) }
    ensures does { (depth : ℕ) → Executes depth instr.now (cpu_of image.old) (cpu_of image.new)
        (V.bytes view.old) (V.bytes view.new) result }
    ensures beside { (k : ℕ) → IsBeside k (ranges_of instr.now (cpu_of image.old)) →
        slice_index (V.bytes view.new) k ≡ slice_index (V.bytes view.old) k }
    ensures size { length (V.bytes view.new) ≡ storage_size }
{
    let n = length_in(line(instr.op).form);
    run(kind, n, instr, image, view)
}

/// Executes an instruction for which [`is_mine`] holds, as [`execute_kind`] does.
pub fn execute<V: Bytes>(instr: &Instr, image: &mut CpuImage, view: &mut V) -> Result<(), Exception>
    requires mine { is_storage (kind_at instr.now.op.number) ≡ true }
    requires size { length (V.bytes view.old) ≡ storage_size }
    requires inside { AreInside (ranges_of instr.now (cpu_of image.old)) (V.bytes view.old) }
    ensures does { (depth : ℕ) → Executes depth instr.now (cpu_of image.old) (cpu_of image.new)
        (V.bytes view.old) (V.bytes view.new) result }
    ensures beside { (k : ℕ) → IsBeside k (ranges_of instr.now (cpu_of image.old)) →
        slice_index (V.bytes view.new) k ≡ slice_index (V.bytes view.old) k }
    ensures size { length (V.bytes view.new) ≡ storage_size }
{
    match kind_in(instr.op) {
        Kind::Storage(kind) => execute_kind(kind, instr, image, view),
        _ => unreachable!(),
    }
}
