//! Operations that store one item of storage.
ghost use Rattle.std.specs.Prelude.{◌≡◌, length};
ghost use Rattle.z_regs.specs.Prefix.{storage_size};
ghost use Rattle.z_regs.specs.Cpu.{cpu_of};
ghost use Rattle.z_instr.specs.declared.kind.Storage.TheVariants.{Store, StoreImmediate, ByteLogic};
ghost use Rattle.z_instr.specs.declared.kind.Storage.TheVariants.{AddImmediate, CompareAndSwap, LoadAnd};
ghost use Rattle.z_instr.specs.declared.kind.Storage.TheVariants.{StoreSelected};
ghost use Rattle.z_effect.specs.After.{AreInside};
ghost use Rattle.z_storage.specs.Performs.{ranges, Performs};

use crate::access::{fetch_byte, fetch_item, immediate_byte, store};
use tx_control::Exception;
use z_arith::{Width, add};
use z_effect::{advance, combine, conclude, immediate, logic, operand, put, register, zero_code};
use z_instr::addresses::{first_address, is_selected};
use z_instr::instr::Instr;
use z_instr::kind::{Logic, Operation, item};
use z_instr::operand::Size;
use z_regs::{Bytes, CpuImage};

/// Stores the rightmost bytes of R1.
#[inline(always)]
#[tactic(auto, using(crate::proofs::Ranges::whole_item), unfolding(z_effect::specs::StorageEffect::storage_effect, z_instr::specs::Operands::spans_in))]
pub fn store_register<V: Bytes>(
    size: Size,
    n: u8,
    instr: &Instr,
    image: &mut CpuImage,
    view: &mut V,
) -> Result<(), Exception>
    requires size { length (V.bytes view.old) ≡ storage_size }
    requires inside { AreInside (ranges (Store size) instr.now (cpu_of image.old)) (V.bytes view.old) }
    ensures { Performs (Store size) n instr.now (cpu_of image.old) (cpu_of image.new) (V.bytes view.old)
        (V.bytes view.new) result }
{
    let address = first_address(instr, &image.general);
    store(view, address, size, register(image, instr.r1));
    advance(image, n);
    Ok(())
}

/// Stores the immediate.
#[tactic(auto, using(crate::proofs::Ranges::whole_item), unfolding(z_effect::specs::StorageEffect::storage_effect, z_instr::specs::Operands::spans_in))]
pub fn store_immediate<V: Bytes>(
    size: Size,
    n: u8,
    instr: &Instr,
    image: &mut CpuImage,
    view: &mut V,
) -> Result<(), Exception>
    requires size { length (V.bytes view.old) ≡ storage_size }
    requires inside { AreInside (ranges (StoreImmediate size) instr.now (cpu_of image.old))
        (V.bytes view.old) }
    ensures { Performs (StoreImmediate size) n instr.now (cpu_of image.old) (cpu_of image.new)
        (V.bytes view.old) (V.bytes view.new) result }
{
    let address = first_address(instr, &image.general);
    store(view, address, size, immediate(Width::Double, instr.imm));
    advance(image, n);
    Ok(())
}

/// Stores a result of the byte and the immediate; the code tells whether it is zero.
#[tactic(auto, using(crate::proofs::Ranges::whole_item), unfolding(z_effect::specs::StorageEffect::storage_effect, z_instr::specs::Operands::spans_in))]
pub fn byte_logic<V: Bytes>(
    kind: Logic,
    n: u8,
    instr: &Instr,
    image: &mut CpuImage,
    view: &mut V,
) -> Result<(), Exception>
    requires size { length (V.bytes view.old) ≡ storage_size }
    requires inside { AreInside (ranges (ByteLogic kind) instr.now (cpu_of image.old)) (V.bytes view.old) }
    ensures { Performs (ByteLogic kind) n instr.now (cpu_of image.old) (cpu_of image.new) (V.bytes view.old)
        (V.bytes view.new) result }
{
    let address = first_address(instr, &image.general);
    let byte = fetch_byte(view, address);
    let value = logic(kind, u64::from(byte), u64::from(immediate_byte(instr)));
    store(view, address, Size::Byte, value);
    image.condition = zero_code(value);
    advance(image, n);
    Ok(())
}

/// Adds the immediate to the operand, as numbers with a sign.
#[tactic(auto, using(crate::proofs::Ranges::stored_item), unfolding(z_effect::specs::StorageEffect::storage_effect, z_instr::specs::Operands::spans_in))]
pub fn add_immediate<V: Bytes>(
    w: Width,
    n: u8,
    instr: &Instr,
    image: &mut CpuImage,
    view: &mut V,
) -> Result<(), Exception>
    requires size { length (V.bytes view.old) ≡ storage_size }
    requires inside { AreInside (ranges (AddImmediate w) instr.now (cpu_of image.old)) (V.bytes view.old) }
    ensures { Performs (AddImmediate w) n instr.now (cpu_of image.old) (cpu_of image.new) (V.bytes view.old)
        (V.bytes view.new) result }
{
    let address = first_address(instr, &image.general);
    let answer = add(w, fetch_item(view, address, w), immediate(w, instr.imm));
    store(view, address, item(w), answer.value);
    conclude(image, n, answer.condition, answer.overflow)
}

/// Stores R3 where R1 equals the operand; else loads the operand into R1.
#[tactic(auto, using(crate::proofs::Ranges::whole_item), unfolding(z_effect::specs::StorageEffect::storage_effect, z_instr::specs::Operands::spans_in))]
pub fn compare_and_swap<V: Bytes>(
    w: Width,
    n: u8,
    instr: &Instr,
    image: &mut CpuImage,
    view: &mut V,
) -> Result<(), Exception>
    requires size { length (V.bytes view.old) ≡ storage_size }
    requires inside { AreInside (ranges (CompareAndSwap w) instr.now (cpu_of image.old)) (V.bytes view.old) }
    ensures { Performs (CompareAndSwap w) n instr.now (cpu_of image.old) (cpu_of image.new) (V.bytes view.old)
        (V.bytes view.new) result }
{
    let address = first_address(instr, &image.general);
    let second = fetch_item(view, address, w);
    if operand(image, w, instr.r1) == second {
        store(view, address, item(w), register(image, instr.r3));
        image.condition = 0;
        advance(image, n);
        Ok(())
    } else {
        put(image, w, instr.r1, second);
        image.condition = 1;
        advance(image, n);
        Ok(())
    }
}

/// Loads the operand into R1 and stores a result of it and R3.
#[tactic(auto, using(crate::proofs::Ranges::stored_item), unfolding(z_effect::specs::StorageEffect::storage_effect, z_instr::specs::Operands::spans_in))]
pub fn load_and<V: Bytes>(
    operation: Operation,
    w: Width,
    n: u8,
    instr: &Instr,
    image: &mut CpuImage,
    view: &mut V,
) -> Result<(), Exception>
    requires size { length (V.bytes view.old) ≡ storage_size }
    requires inside { AreInside (ranges (LoadAnd operation w) instr.now (cpu_of image.old))
        (V.bytes view.old) }
    ensures { Performs (LoadAnd operation w) n instr.now (cpu_of image.old) (cpu_of image.new)
        (V.bytes view.old) (V.bytes view.new) result }
{
    let address = first_address(instr, &image.general);
    let old = fetch_item(view, address, w);
    let third = operand(image, w, instr.r3);
    let answer = combine(operation, w, image.condition, old, third);
    store(view, address, item(w), answer.value);
    put(image, w, instr.r1, old);
    conclude(image, n, answer.condition, answer.overflow)
}

/// Stores R1 where the mask selects the code; else stores nothing.
#[tactic(auto, using(crate::proofs::Ranges::whole_item), unfolding(z_effect::specs::StorageEffect::storage_effect, z_instr::specs::Operands::spans_in))]
pub fn store_selected<V: Bytes>(
    n: u8,
    instr: &Instr,
    image: &mut CpuImage,
    view: &mut V,
) -> Result<(), Exception>
    requires size { length (V.bytes view.old) ≡ storage_size }
    requires inside { AreInside (ranges StoreSelected instr.now (cpu_of image.old)) (V.bytes view.old) }
    ensures { Performs StoreSelected n instr.now (cpu_of image.old) (cpu_of image.new) (V.bytes view.old)
        (V.bytes view.new) result }
{
    if is_selected(instr.mask, image.condition) {
        let address = first_address(instr, &image.general);
        store(view, address, Size::Doubleword, register(image, instr.r1));
    }
    advance(image, n);
    Ok(())
}
