//! Marked items of entries, laid over storage and unmarked.

ghost use Rattle.std.specs.Prelude.{◌≡◌, ℕ, ◌+◌, ◌*◌, ◌%◌, ◌<◌, ◌≤◌, length, slice_index_or, true, false};
ghost use Rattle.z_regs.specs.Written.{written};
ghost use Rattle.store_cache.specs.Overlay.{bytes_through};
ghost use Rattle.store_cache.specs.Stores.{lasting_bytes};
ghost use Rattle.store_cache.specs.Entries.{items_of};

use crate::cache::{BLOCK_SIZE, DOUBLEWORDS};
use crate::copying::eight;
use bit_set::BitSet;
use slot_index::SlotIndex;
use z_regs::{Bytes, STORAGE_SIZE};

/// Stores the marked bytes of the entries, as many at a time as follow one another in half a block.
pub fn lay_bytes<V: Bytes>(index: &SlotIndex, bytes: &[u8], marks: &BitSet, into: &mut V)
    requires storage { length (V.bytes into.old) ≡ STORAGE_SIZE }
    requires limit { index.now.limit * BLOCK_SIZE ≤ STORAGE_SIZE }
    requires bytes { index.now.most * BLOCK_SIZE ≤ length bytes.now }
    requires marks { index.now.most * BLOCK_SIZE ≤ length marks.now }
    ensures { V.bytes into.new
        ≡ bytes_through (items_of BLOCK_SIZE index.now.keys bytes.now marks.now) (V.bytes into.old) }
{
    let end = index.count() * BLOCK_SIZE;
    let mut from = 0;
    while let Some(cell) = marks.next(from, end) {
        let address = index.key_at(cell / BLOCK_SIZE) * BLOCK_SIZE + cell % BLOCK_SIZE;
        let count = marks.run_from(cell);
        lay_run(into, address, &bytes[cell..cell + count]);
        from = cell + count;
    }
}

/// Stores bytes.
#[inline(always)]
fn lay_run<V: Bytes>(into: &mut V, address: usize, run: &[u8])
    requires some { 1 ≤ length run.now }
    requires few { length run.now ≤ 256 }
    requires inside { address + length run.now ≤ length (V.bytes into.old) }
    ensures { V.bytes into.new ≡ written (V.bytes into.old) address run.now }
{
    if run.len() == 8 {
        into.put_all(address as u64, &eight(run));
    } else {
        into.put_all(address as u64, run);
    }
}

/// Stores the marked doublewords of the entries.
pub fn lay_values<V: Bytes>(index: &SlotIndex, values: &[u64], marks: &BitSet, into: &mut V)
    requires storage { length (V.bytes into.old) ≡ STORAGE_SIZE }
    requires limit { index.now.limit * BLOCK_SIZE ≤ STORAGE_SIZE }
    requires values { index.now.most * DOUBLEWORDS ≤ length values.now }
    requires marks { index.now.most * DOUBLEWORDS ≤ length marks.now }
    ensures { V.bytes into.new
        ≡ bytes_through (lasting_bytes (items_of DOUBLEWORDS index.now.keys values.now marks.now))
        (V.bytes into.old) }
{
    let end = index.count() * DOUBLEWORDS;
    let mut from = 0;
    while let Some(cell) = marks.next(from, end) {
        let block = index.key_at(cell / DOUBLEWORDS);
        let doubleword = block * DOUBLEWORDS + cell % DOUBLEWORDS;
        into.put_word(doubleword as u64 * 8, 8, values[cell]);
        from = cell + 1;
    }
}
