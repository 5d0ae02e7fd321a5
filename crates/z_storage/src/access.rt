//! Numbers in storage, the leftmost byte first, and the byte of an immediate.
ghost use Rattle.std.specs.Prelude.{◌≡◌, ◌<◌, ◌≤◌, ◌+◌, ◌^◌, length};
ghost use Rattle.z_regs.specs.Prefix.{storage_size};
ghost use Rattle.z_instr.specs.Operands.{bytes_of};
ghost use Rattle.z_instr.specs.declared.operand.Size.TheVariants.{Byte};
ghost use Rattle.z_arith.specs.Whole.{bits, modulo};
ghost use Rattle.z_effect.specs.Operations.{bits_in};
ghost use Rattle.z_instr.specs.Kinds.{size_of};
ghost use Rattle.z_effect.specs.StorageEffect.{number, piece, stored};
ghost use Rattle.z_instr.specs.Kinds.{item as item_of};
ghost use Rattle.z_effect.specs.After.{range_at, written};

use z_arith::{Width, doubleword};
use z_effect::extend;
use z_instr::instr::Instr;
use z_instr::kind::{Part, size_in};
use z_instr::operand::Size;
use z_regs::Bytes;

/// The number in an item of storage.
#[inline(always)]
pub fn fetch<V: Bytes>(view: &V, address: u64, size: Size) -> u64
    requires size { length (V.bytes view.now) ≡ storage_size }
    requires inside { address + bytes_of size ≤ length (V.bytes view.now) }
    ensures value { result ≡ number size (range_at (V.bytes view.now) address (bytes_of size)) }
    ensures fits { result < 2 ^ bits_in size }
{
    view.word(address, size.bytes())
}

/// The number in an item that has a register's width.
#[inline(always)]
pub fn fetch_item<V: Bytes>(view: &V, address: u64, w: Width) -> u64
    requires size { length (V.bytes view.now) ≡ storage_size }
    requires inside { address + bytes_of (item_of w) ≤ length (V.bytes view.now) }
    ensures value { result ≡ number (item_of w) (range_at (V.bytes view.now) address (bytes_of (item_of w))) }
    ensures fits { result < 2 ^ bits w }
{
    match w {
        Width::Word => fetch(view, address, Size::Word),
        Width::Double => fetch(view, address, Size::Doubleword),
    }
}

/// The number in an item, brought to a width.
#[inline(always)]
pub fn fetch_piece<V: Bytes>(view: &V, address: u64, w: Width, part: Part) -> u64
    requires size { length (V.bytes view.now) ≡ storage_size }
    requires inside { address + bytes_of (size_of part) ≤ length (V.bytes view.now) }
    ensures value { result ≡ piece w part (range_at (V.bytes view.now) address (bytes_of (size_of part))) }
    ensures fits { result < 2 ^ bits w }
{
    extend(w, part, fetch(view, address, size_in(part)))
}

/// A byte of storage.
#[inline(always)]
pub fn fetch_byte<V: Bytes>(view: &V, address: u64) -> u8
    requires size { length (V.bytes view.now) ≡ storage_size }
    requires inside { address + 1 ≤ length (V.bytes view.now) }
    ensures { result ≡ number Byte (range_at (V.bytes view.now) address 1) }
{
    fetch(view, address, Size::Byte) as u8
}

/// The rightmost byte of the immediate.
pub fn immediate_byte(instr: &Instr) -> u8
    ensures { result ≡ modulo 8 instr.now.imm }
{
    (doubleword(instr.imm) % 256) as u8
}

/// Stores the rightmost bytes of a number, as many as the item has.
#[inline(always)]
pub fn store<V: Bytes>(view: &mut V, address: u64, size: Size, value: u64)
    requires size { length (V.bytes view.old) ≡ storage_size }
    requires inside { address + bytes_of size ≤ length (V.bytes view.old) }
    ensures { V.bytes view.new ≡ written (V.bytes view.old) address (stored size value) }
{
    view.put_word(address, size.bytes(), value);
}
