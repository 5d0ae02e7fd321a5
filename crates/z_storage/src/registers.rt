//! Operations that load or store several registers, 0 after 15.
ghost use Rattle.std.specs.Prelude.{◌≡◌, ◌<◌, ◌≤◌, ◌+◌, ◌*◌, length, true};
ghost use Rattle.z_regs.specs.Prefix.{storage_size};
ghost use Rattle.z_instr.specs.Operands.{bytes_of};
ghost use Rattle.z_regs.specs.Cpu.{cpu_of};
ghost use Rattle.z_arith.specs.declared.Width.TheVariants.{Double};
ghost use Rattle.z_instr.specs.declared.operand.Size.TheVariants.{Doubleword};
ghost use Rattle.z_instr.specs.declared.kind.Storage.TheVariants.{LoadMany, StoreMany};
ghost use Rattle.z_effect.specs.Registers.{register as value_of, with_register};
ghost use Rattle.z_effect.specs.StorageEffect.{items, stored, with_items};
ghost use Rattle.z_instr.specs.Kinds.{item as item_of};
ghost use Rattle.z_effect.specs.After.{AreInside, range_at, written};
ghost use Rattle.z_storage.specs.Performs.{ranges, Performs};

use tx_control::Exception;
use z_arith::Width;
use z_effect::{advance, put, register};
use z_instr::addresses::{first_address, registers_named};
use z_instr::instr::Instr;
use z_instr::kind::item;
use z_regs::{Bytes, CpuImage, number_in};

/// The most bytes that sixteen registers have.
const MOST_BYTES: usize = 128;

/// Whether these registers are whole, and none of them is behind register 15.
fn is_row(w: Width, first: u8, count: u8) -> bool
    requires first_in { first < 16 }
    requires few { count < 17 }
    ensures double { result ≡ true → w ≡ Double }
    ensures within { result ≡ true → first + count ≤ 16 }
    ensures row { w ≡ Double → first + count ≤ 16 → result ≡ true }
{
    match w {
        Width::Word => false,
        Width::Double => first + count <= 16,
    }
}

/// The address of an item behind `k` others.
fn place(address: u64, w: Width, k: u8) -> u64
    requires { address + k * bytes_of (item_of w) ≤ storage_size }
    ensures { result ≡ address + k * bytes_of (item_of w) }
{
    match w {
        Width::Word => address + u64::from(k) * 4,
        Width::Double => address + u64::from(k) * 8,
    }
}

/// Puts an item at a place among bytes.
fn put_item(into: &mut [u8], at: usize, w: Width, value: u64)
    requires { at + bytes_of (item_of w) ≤ length into.old }
    ensures { into.new ≡ written into.old at (stored (item_of w) value) }
{
    let bytes = value.to_be_bytes();
    match w {
        Width::Word => into[at..at + 4].copy_from_slice(&bytes[4..]),
        Width::Double => into[at..at + 8].copy_from_slice(&bytes),
    }
}

/// Puts the items of some registers, from the register `first` on, at the beginning of bytes.
fn put_items(w: Width, first: u8, count: u8, image: &CpuImage, into: &mut [u8])
    requires first_in { first < 16 }
    requires few { count < 17 }
    requires room { count * bytes_of (item_of w) ≤ length into.old }
    ensures { into.new ≡ written into.old 0 (items count w first (cpu_of image.now)) }
{
    for k in 0..count {
        let value = register(image, (first + k) % 16);
        put_item(into, place(0, w, k) as usize, w, value);
    }
}

/// A general register by its place.
#[inline(always)]
fn register_at(image: &CpuImage, r: usize) -> u64
    requires { r < 16 }
    ensures { result ≡ value_of (cpu_of image.now) r }
{
    image.general[r]
}

/// Puts a doubleword at a place among bytes.
#[inline(always)]
fn put_at(into: &mut [u8], at: usize, value: u64)
    requires { at + 8 ≤ length into.old }
    ensures { into.new ≡ written into.old at (stored Doubleword value) }
{
    into[at..at + 8].copy_from_slice(&value.to_be_bytes());
}

/// Puts a row of registers, from the register `first` on, at the beginning of bytes.
fn put_row(first: u8, count: u8, image: &CpuImage, into: &mut [u8])
    requires within { first + count ≤ 16 }
    requires room { count * 8 ≤ length into.old }
    ensures { into.new ≡ written into.old 0 (items count Double first (cpu_of image.now)) }
{
    let start = usize::from(first);
    for k in 0..usize::from(count) {
        put_at(into, k * 8, register_at(image, start + k));
    }
}

/// Puts the items of some registers at the beginning of bytes: all alike where they are a row, else each by itself.
fn put_registers(w: Width, first: u8, count: u8, image: &CpuImage, into: &mut [u8])
    requires first_in { first < 16 }
    requires few { count < 17 }
    requires room { count * bytes_of (item_of w) ≤ length into.old }
    ensures { into.new ≡ written into.old 0 (items count w first (cpu_of image.now)) }
{
    if is_row(w, first, count) {
        put_row(first, count, image, into);
    } else {
        put_items(w, first, count, image, into);
    }
}

/// Stores the items of some registers, from the register `first` on.
fn store_registers<V: Bytes>(
    w: Width,
    first: u8,
    count: u8,
    image: &CpuImage,
    address: u64,
    view: &mut V,
)
    requires first_in { first < 16 }
    requires some { 1 ≤ count }
    requires few { count < 17 }
    requires inside { address + count * bytes_of (item_of w) ≤ length (V.bytes view.old) }
    ensures { V.bytes view.new ≡ written (V.bytes view.old) address (items count w first (cpu_of image.now)) }
{
    let mut bytes = [0; MOST_BYTES];
    put_registers(w, first, count, image, &mut bytes);
    view.put_all(address, &bytes[..place(0, w, count) as usize]);
}

/// Loads items, which stand at the beginning of bytes, into some registers, from the register `first` on.
fn take_items(w: Width, first: u8, count: u8, image: &mut CpuImage, from: &[u8])
    requires first_in { first < 16 }
    requires few { count < 17 }
    requires room { count * bytes_of (item_of w) ≤ length from.now }
    ensures { cpu_of image.new ≡
        with_items count w first (range_at from.now 0 (count * bytes_of (item_of w))) (cpu_of image.old) }
{
    for k in 0..count {
        let value = number_in(from, place(0, w, k) as usize, item(w).bytes());
        put(image, w, (first + k) % 16, value);
    }
}

/// Changes a general register.
#[inline(always)]
fn set_register(image: &mut CpuImage, r: usize, value: u64)
    requires { r < 16 }
    ensures { cpu_of image.new ≡ with_register Double r value (cpu_of image.old) }
{
    image.general[r] = value;
}

/// Loads doublewords, which stand at the beginning of bytes, into a row of registers, from the register `first` on.
fn take_row(first: u8, count: u8, image: &mut CpuImage, from: &[u8])
    requires within { first + count ≤ 16 }
    requires room { count * 8 ≤ length from.now }
    ensures { cpu_of image.new ≡
        with_items count Double first (range_at from.now 0 (count * 8)) (cpu_of image.old) }
{
    let start = usize::from(first);
    for k in 0..usize::from(count) {
        let value = number_in(from, k * 8, 8);
        set_register(image, start + k, value);
    }
}

/// Loads items, which stand at the beginning of bytes, into some registers: all alike where they are a row, else
/// each by itself.
fn take_registers(w: Width, first: u8, count: u8, image: &mut CpuImage, from: &[u8])
    requires first_in { first < 16 }
    requires few { count < 17 }
    requires room { count * bytes_of (item_of w) ≤ length from.now }
    ensures { cpu_of image.new ≡
        with_items count w first (range_at from.now 0 (count * bytes_of (item_of w))) (cpu_of image.old) }
{
    if is_row(w, first, count) {
        take_row(first, count, image, from);
    } else {
        take_items(w, first, count, image, from);
    }
}

/// Loads items into some registers, from the register `first` on.
fn load_registers<V: Bytes>(
    w: Width,
    first: u8,
    count: u8,
    image: &mut CpuImage,
    address: u64,
    view: &V,
)
    requires first_in { first < 16 }
    requires some { 1 ≤ count }
    requires few { count < 17 }
    requires inside { address + count * bytes_of (item_of w) ≤ length (V.bytes view.now) }
    ensures { cpu_of image.new ≡
        with_items count w first (range_at (V.bytes view.now) address (count * bytes_of (item_of w)))
        (cpu_of image.old) }
{
    let mut room = [0; MOST_BYTES];
    let bytes = &mut room[..place(0, w, count) as usize];
    view.read_into(address, bytes);
    take_registers(w, first, count, image, bytes);
}

/// Loads the registers from R1 up to R3.
#[tactic(auto, unfolding(z_effect::specs::StorageEffect::storage_effect, z_instr::specs::Operands::spans_in))]
pub fn load_many<V: Bytes>(
    w: Width,
    n: u8,
    instr: &Instr,
    image: &mut CpuImage,
    view: &V,
) -> Result<(), Exception>
    requires size { length (V.bytes view.now) ≡ storage_size }
    requires inside { AreInside (ranges (LoadMany w) instr.now (cpu_of image.old)) (V.bytes view.now) }
    ensures { Performs (LoadMany w) n instr.now (cpu_of image.old) (cpu_of image.new) (V.bytes view.now)
        (V.bytes view.now) result }
{
    let address = first_address(instr, &image.general);
    load_registers(w, instr.r1, registers_named(instr), image, address, view);
    advance(image, n);
    Ok(())
}

/// Stores the registers from R1 up to R3.
#[tactic(auto, using(crate::proofs::Items::whole_items), unfolding(z_effect::specs::StorageEffect::storage_effect, z_instr::specs::Operands::spans_in))]
pub fn store_many<V: Bytes>(
    w: Width,
    n: u8,
    instr: &Instr,
    image: &mut CpuImage,
    view: &mut V,
) -> Result<(), Exception>
    requires size { length (V.bytes view.old) ≡ storage_size }
    requires inside { AreInside (ranges (StoreMany w) instr.now (cpu_of image.old)) (V.bytes view.old) }
    ensures { Performs (StoreMany w) n instr.now (cpu_of image.old) (cpu_of image.new) (V.bytes view.old)
        (V.bytes view.new) result }
{
    let address = first_address(instr, &image.general);
    store_registers(w, instr.r1, registers_named(instr), image, address, view);
    advance(image, n);
    Ok(())
}
