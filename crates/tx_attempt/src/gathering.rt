//! Stores of an instruction that an attempt holds back.
ghost use Rattle.std.specs.Prelude.{◌≡◌, ◌≤◌, ◌+◌, ◌%◌, length, IsTrue};
ghost use Rattle.z_regs.specs.Prefix.{is_prefix, storage_size};
ghost use Rattle.store_cache.specs.Entries.{stores_of};
ghost use Rattle.byteorder.specs.Endian.{big_bytes};
ghost use Rattle.store_cache.specs.Stores.{lasting_bytes};
ghost use Rattle.tx_serial.specs.Flat.{stores_at};
ghost use Rattle.tx_progress.specs.Progress.{laying};
ghost use Rattle.std.specs.Prelude.{take, slice_get, get_or, All, Some, true};
ghost use Rattle.z_regs.specs.Absolute.{IsAccessible};
ghost use Rattle.z_instr.specs.Table.{entry_at};
ghost use Rattle.tx_serial.specs.Flat.{operand_stores};
ghost use Rattle.tx_serial.specs.Run.{lasting_of};
ghost use Rattle.z_instr.specs.Roles.{stores_lastingly as lasts};
ghost use Rattle.tx_attempt.specs.Performed.{StoresFirst, first_size, no_range};
ghost use Rattle.tx_attempt.specs.Gathered.{HasRoomFor, IsDoubleword, with_gathered};

use store_cache::{BLOCK_SIZE, StoreCache};
use z_instr::instr::Instr;
use z_instr::kind::{Kind, Transaction};
use z_instr::lookup::line;
use z_instr::op::Op;
use z_regs::{Range, Touches, place_of};

/// Gathers bytes that are stored from a real address on, block by block.
#[inline(never)]
fn gather_pieces(stores: &mut StoreCache, bytes: &[u8], first: u64, prefix: Option<u32>)
    requires prefix_in { IsTrue (is_prefix prefix) }
    requires end { first + length bytes.now ≤ storage_size }
    requires room { HasRoomFor (stores_of stores.old).overlay prefix first (length bytes.now) }
    ensures { stores_of stores.new ≡ with_gathered prefix first bytes.now (stores_of stores.old) }
{
    let mut done = 0;
    while done < bytes.len() {
        let from = first + done as u64;
        let count = (bytes.len() - done).min(BLOCK_SIZE - from as usize % BLOCK_SIZE);
        stores.store_bytes(place_of(prefix, from), &bytes[done..done + count]);
        done += count;
    }
}

/// Gathers bytes that are stored from a real address on, at once where they lie in one block.
#[inline(always)]
pub fn gather(stores: &mut StoreCache, bytes: &[u8], first: u64, prefix: Option<u32>)
    requires prefix_in { IsTrue (is_prefix prefix) }
    requires end { first + length bytes.now ≤ storage_size }
    requires room { HasRoomFor (stores_of stores.old).overlay prefix first (length bytes.now) }
    ensures { stores_of stores.new ≡ with_gathered prefix first bytes.now (stores_of stores.old) }
{
    let count = bytes.len();
    if count == 0 || count > BLOCK_SIZE - first as usize % BLOCK_SIZE {
        return gather_pieces(stores, bytes, first, prefix);
    }
    stores.store_bytes(place_of(prefix, first), bytes);
}

/// Gathers a doubleword that NTSTG stores at a real address.
pub fn gather_lasting(stores: &mut StoreCache, value: u64, first: u64, prefix: Option<u32>)
    requires prefix_in { IsTrue (is_prefix prefix) }
    requires end { first + 8 ≤ storage_size }
    requires boundary { first % 8 ≡ 0 }
    requires room { HasRoomFor (stores_of stores.old).overlay prefix first 8 }
    ensures overlay { (stores_of stores.new).overlay ≡
        laying (stores_of stores.old).overlay (stores_at prefix first (big_bytes 8 value)) }
    ensures lasting { lasting_bytes (stores_of stores.new).lasting ≡
        laying (lasting_bytes (stores_of stores.old).lasting) (stores_at prefix first (big_bytes 8 value)) }
{
    stores.ntstg(place_of(prefix, first), value);
}

/// Whether the stores of the operation outlive an abort: it is NTSTG.
fn stores_lastingly(op: Op) -> bool
    ensures { result ≡ lasts (entry_at op.number) }
{
    matches!(line(op).kind, Kind::Transaction(Transaction::StoreLasting))
}

/// Gathers what an instruction stores in its first operand; no other is ever stored into. Of NTSTG that is
/// `source`.
pub fn gather_stores(
    stores: &mut StoreCache,
    instr: &Instr,
    need: &Touches,
    stored: &[u8],
    source: u64,
    prefix: Option<u32>,
)
    requires size { (get_or need.now 0 no_range).length ≤ length stored.now }
    requires prefix_in { IsTrue (is_prefix prefix) }
    requires first { StoresFirst need.now }
    requires accessible { All (IsAccessible prefix) need.now }
    requires room { (r : Range) → slice_get need.now 0 ≡ Some r → r.store ≡ true
        → HasRoomFor (stores_of stores.old).overlay prefix r.first r.length }
    requires lasting { lasts (entry_at instr.now.op.number) ≡ true
        → IsDoubleword need.now stored.now source }
    ensures overlay { (stores_of stores.new).overlay ≡ laying (stores_of stores.old).overlay
        (operand_stores prefix need.now (take (first_size need.now) stored.now)) }
    ensures lasting { lasting_bytes (stores_of stores.new).lasting ≡
        laying (lasting_bytes (stores_of stores.old).lasting) (lasting_of instr.now
        (operand_stores prefix need.now (take (first_size need.now) stored.now))) }
{
    if need.count() == 0 {
        return;
    }
    let first = need.at(0);
    if !first.store {
        return;
    }
    if stores_lastingly(instr.op) {
        gather_lasting(stores, source, first.first, prefix);
    } else {
        gather(
            stores,
            &stored[..first.length as usize],
            first.first,
            prefix,
        );
    }
}

/// Gathers what NTSTG stores: the doubleword that is its only operand, of this value.
#[inline(always)]
pub fn gather_doubleword(
    stores: &mut StoreCache,
    instr: &Instr,
    need: &Touches,
    stored: &[u8],
    value: u64,
    prefix: Option<u32>,
)
    requires lasts { lasts (entry_at instr.now.op.number) ≡ true }
    requires doubleword { IsDoubleword need.now stored.now value }
    requires prefix_in { IsTrue (is_prefix prefix) }
    requires accessible { All (IsAccessible prefix) need.now }
    requires room { (r : Range) → slice_get need.now 0 ≡ Some r → r.store ≡ true
        → HasRoomFor (stores_of stores.old).overlay prefix r.first r.length }
    ensures overlay { (stores_of stores.new).overlay ≡ laying (stores_of stores.old).overlay
        (operand_stores prefix need.now (take (first_size need.now) stored.now)) }
    ensures lasting { lasting_bytes (stores_of stores.new).lasting ≡
        laying (lasting_bytes (stores_of stores.old).lasting) (lasting_of instr.now
        (operand_stores prefix need.now (take (first_size need.now) stored.now))) }
{
    gather_lasting(stores, value, need.at(0).first, prefix);
}

/// Gathers what an instruction that is not about transactions stores in its first operand.
#[inline(always)]
pub fn gather_first(stores: &mut StoreCache, need: &Touches, stored: &[u8], prefix: Option<u32>)
    requires size { (get_or need.now 0 no_range).length ≤ length stored.now }
    requires prefix_in { IsTrue (is_prefix prefix) }
    requires first { StoresFirst need.now }
    requires accessible { All (IsAccessible prefix) need.now }
    requires room { (r : Range) → slice_get need.now 0 ≡ Some r → r.store ≡ true
        → HasRoomFor (stores_of stores.old).overlay prefix r.first r.length }
    ensures { stores_of stores.new ≡ record (stores_of stores.old) {
      overlay = laying (stores_of stores.old).overlay
          (operand_stores prefix need.now (take (first_size need.now) stored.now));
    } }
{
    if need.count() == 0 {
        return;
    }
    let first = need.at(0);
    if first.store {
        gather(
            stores,
            &stored[..first.length as usize],
            first.first,
            prefix,
        );
    }
}
