//! Operations that fetch one item of storage and store nothing.
ghost use Rattle.std.specs.Prelude.{◌≡◌, length};
ghost use Rattle.z_regs.specs.Prefix.{storage_size};
ghost use Rattle.z_regs.specs.Cpu.{cpu_of};
ghost use Rattle.z_instr.specs.declared.kind.Operation.TheVariants.{Load};
ghost use Rattle.z_instr.specs.declared.kind.Storage.TheVariants.{Compute, Compare, CompareImmediate};
ghost use Rattle.z_instr.specs.declared.kind.Storage.TheVariants.{TestUnderMask, InsertByte, LoadSelected};
ghost use Rattle.z_effect.specs.After.{AreInside};
ghost use Rattle.z_storage.specs.Performs.{ranges, Performs};

use crate::access::{fetch, fetch_byte, fetch_piece, immediate_byte};
use tx_control::Exception;
use z_arith::{Width, test_under_mask};
use z_effect::{advance, combine, compare, immediate, operand, put, register, settle};
use z_instr::addresses::{first_address, is_selected};
use z_instr::instr::Instr;
use z_instr::kind::{Operation, Order, Part};
use z_instr::operand::Size;
use z_regs::{Bytes, CpuImage};

/// Puts a result of R1 and the operand into R1.
#[tactic(auto, using(crate::proofs::Ranges::fetched_stays), unfolding(z_effect::specs::StorageEffect::storage_effect, z_instr::specs::Operands::spans_in))]
pub fn compute<V: Bytes>(
    operation: Operation,
    w: Width,
    part: Part,
    n: u8,
    instr: &Instr,
    image: &mut CpuImage,
    view: &V,
) -> Result<(), Exception>
    requires size { length (V.bytes view.now) ≡ storage_size }
    requires inside { AreInside (ranges (Compute operation w part) instr.now (cpu_of image.old))
        (V.bytes view.now) }
    ensures { Performs (Compute operation w part) n instr.now (cpu_of image.old) (cpu_of image.new)
        (V.bytes view.now) (V.bytes view.now) result }
{
    let first = operand(image, w, instr.r1);
    let second = fetch_piece(view, first_address(instr, &image.general), w, part);
    let answer = combine(operation, w, image.condition, first, second);
    settle(instr, image, n, w, answer)
}

/// Puts the operand into R1.
#[inline(always)]
#[tactic(auto, using(crate::proofs::Ranges::fetched_stays), unfolding(z_effect::specs::StorageEffect::storage_effect, z_effect::specs::Operations::combined, z_instr::specs::Operands::spans_in))]
pub fn load<V: Bytes>(
    w: Width,
    part: Part,
    n: u8,
    instr: &Instr,
    image: &mut CpuImage,
    view: &V,
) -> Result<(), Exception>
    requires size { length (V.bytes view.now) ≡ storage_size }
    requires inside { AreInside (ranges (Compute Load w part) instr.now (cpu_of image.old)) (V.bytes view.now) }
    ensures { Performs (Compute Load w part) n instr.now (cpu_of image.old) (cpu_of image.new)
        (V.bytes view.now) (V.bytes view.now) result }
{
    let second = fetch_piece(view, first_address(instr, &image.general), w, part);
    put(image, w, instr.r1, second);
    advance(image, n);
    Ok(())
}

/// Compares R1 with the operand.
#[tactic(auto, using(crate::proofs::Ranges::fetched_stays), unfolding(z_effect::specs::StorageEffect::storage_effect, z_instr::specs::Operands::spans_in))]
pub fn compare_register<V: Bytes>(
    order: Order,
    w: Width,
    part: Part,
    n: u8,
    instr: &Instr,
    image: &mut CpuImage,
    view: &V,
) -> Result<(), Exception>
    requires size { length (V.bytes view.now) ≡ storage_size }
    requires inside { AreInside (ranges (Compare order w part) instr.now (cpu_of image.old))
        (V.bytes view.now) }
    ensures { Performs (Compare order w part) n instr.now (cpu_of image.old) (cpu_of image.new)
        (V.bytes view.now) (V.bytes view.now) result }
{
    let second = fetch_piece(view, first_address(instr, &image.general), w, part);
    image.condition = compare(order, w, operand(image, w, instr.r1), second);
    advance(image, n);
    Ok(())
}

/// Compares the operand with the immediate.
#[tactic(auto, using(crate::proofs::Ranges::fetched_stays), unfolding(z_effect::specs::StorageEffect::storage_effect, z_instr::specs::Operands::spans_in))]
pub fn compare_immediate<V: Bytes>(
    order: Order,
    w: Width,
    part: Part,
    n: u8,
    instr: &Instr,
    image: &mut CpuImage,
    view: &V,
) -> Result<(), Exception>
    requires size { length (V.bytes view.now) ≡ storage_size }
    requires inside { AreInside (ranges (CompareImmediate order w part) instr.now (cpu_of image.old))
        (V.bytes view.now) }
    ensures { Performs (CompareImmediate order w part) n instr.now (cpu_of image.old) (cpu_of image.new)
        (V.bytes view.now) (V.bytes view.now) result }
{
    let first = fetch_piece(view, first_address(instr, &image.general), w, part);
    image.condition = compare(order, w, first, immediate(w, instr.imm));
    advance(image, n);
    Ok(())
}

/// Tests those bits of the byte that the immediate selects.
#[tactic(auto, using(crate::proofs::Ranges::fetched_stays), unfolding(z_effect::specs::StorageEffect::storage_effect, z_instr::specs::Operands::spans_in))]
pub fn test_byte<V: Bytes>(
    n: u8,
    instr: &Instr,
    image: &mut CpuImage,
    view: &V,
) -> Result<(), Exception>
    requires size { length (V.bytes view.now) ≡ storage_size }
    requires inside { AreInside (ranges TestUnderMask instr.now (cpu_of image.old)) (V.bytes view.now) }
    ensures { Performs TestUnderMask n instr.now (cpu_of image.old) (cpu_of image.new) (V.bytes view.now)
        (V.bytes view.now) result }
{
    let byte = fetch_byte(view, first_address(instr, &image.general));
    image.condition = test_under_mask(byte, immediate_byte(instr));
    advance(image, n);
    Ok(())
}

/// Puts the byte into bits 56 to 63 of R1.
#[tactic(auto, unfolding(z_effect::specs::StorageEffect::storage_effect, z_instr::specs::Operands::spans_in))]
pub fn insert_byte<V: Bytes>(
    n: u8,
    instr: &Instr,
    image: &mut CpuImage,
    view: &V,
) -> Result<(), Exception>
    requires size { length (V.bytes view.now) ≡ storage_size }
    requires inside { AreInside (ranges InsertByte instr.now (cpu_of image.old)) (V.bytes view.now) }
    ensures { Performs InsertByte n instr.now (cpu_of image.old) (cpu_of image.new) (V.bytes view.now)
        (V.bytes view.now) result }
{
    let byte = fetch_byte(view, first_address(instr, &image.general));
    let old = register(image, instr.r1);
    put(
        image,
        Width::Double,
        instr.r1,
        old / 256 * 256 + u64::from(byte),
    );
    advance(image, n);
    Ok(())
}

/// Loads the doubleword into R1 where the mask selects the code; else fetches nothing.
#[tactic(auto, unfolding(z_effect::specs::StorageEffect::storage_effect, z_instr::specs::Operands::spans_in))]
pub fn load_selected<V: Bytes>(
    n: u8,
    instr: &Instr,
    image: &mut CpuImage,
    view: &V,
) -> Result<(), Exception>
    requires size { length (V.bytes view.now) ≡ storage_size }
    requires inside { AreInside (ranges LoadSelected instr.now (cpu_of image.old)) (V.bytes view.now) }
    ensures { Performs LoadSelected n instr.now (cpu_of image.old) (cpu_of image.new) (V.bytes view.now)
        (V.bytes view.now) result }
{
    if !is_selected(instr.mask, image.condition) {
        advance(image, n);
        return Ok(());
    }
    let value = fetch(view, first_address(instr, &image.general), Size::Doubleword);
    put(image, Width::Double, instr.r1, value);
    advance(image, n);
    Ok(())
}
