//! Storage that takes over what a run or an instruction has stored, and copies that become storage again.
ghost use Rattle.std.specs.Prelude.{◌≡◌, ◌≤◌, ◌<◌, ◌+◌, ◌&&◌, ℕ, Bool, length, List, IsTrue};
ghost use Rattle.std.specs.Prelude.{All, false, not, None};
ghost use Rattle.tx_serial.specs.Flat.{with_bytes_at};
ghost use Rattle.tx_footprint.specs.Places.{IsInStorage, has_place, stores};
ghost use Rattle.tx_footprint.specs.Sizes.{line_size};
ghost use Rattle.tx_footprint.specs.Touched.{sets_of};
ghost use Rattle.tx_private.specs.Bytes.{function_of};
ghost use Rattle.z_regs.specs.Prefix.{is_prefix, storage_size};
ghost use Rattle.z_regs.specs.Seen.{seen_by};
ghost use Rattle.tx_private.specs.Ready.{IsReady, IsTurned};
ghost use Rattle.tx_flat.specs.Near.{Near, AreKept};
ghost use Rattle.bit_set.specs.Counts.{but_at};

use line_table::LINES;
use tx_private::attempt::Attempt;
use tx_private::copying::{LINE_SIZE, copy_line, is_whole, line_seen, refresh_lines};
use tx_private::storing::store_bytes;
use z_regs::{Range, Storage, Touches};

/// The copies are storage again, whatever they are.
pub fn give_up(a: &mut Attempt, storage: &Storage)
    ensures { IsReady storage.now a.new }
{
    is_whole(storage);
    is_whole(&a.seen);
    is_whole(&a.lasting);
    refresh_lines(&mut a.seen, storage, None, 0, LINES as u32);
    refresh_lines(&mut a.lasting, storage, None, 0, LINES as u32);
    a.turned = None;
}

/// Storage and the copy with lasting stores get a line, by absolute addresses, of the run's copy.
fn keep_line(a: &mut Attempt, storage: &mut Storage, line: u32)
    requires prefix_in { IsTrue (is_prefix a.old.turned) }
    requires line { line < LINES }
    requires size { length storage.old ≡ storage_size }
    ensures kept { (test : ℕ → Bool) → AreKept a.old.turned test a.old.seen storage.old a.old.lasting
        → AreKept a.old.turned (but_at test line false) a.old.seen storage.new a.new.lasting }
    ensures rest { a.new ≡ record a.old { lasting = a.new.lasting } }
    ensures size { length storage.new ≡ storage_size }
{
    is_whole(&a.seen);
    is_whole(&a.lasting);
    let seen = line_seen(a.turned, line);
    copy_line(storage, line, &a.seen, seen);
    copy_line(&mut a.lasting, seen, &a.seen, seen);
}

/// They get the lines that a range, by absolute addresses, stores into.
fn keep_range(a: &mut Attempt, storage: &mut Storage, range: Range)
    requires prefix_in { IsTrue (is_prefix a.old.turned) }
    requires inside { IsInStorage range }
    requires size { length storage.old ≡ storage_size }
    ensures kept { (test : ℕ → Bool) → AreKept a.old.turned test a.old.seen storage.old a.old.lasting
        → AreKept a.old.turned (λ line. test line && not (range.store && has_place line_size range line))
        a.old.seen storage.new a.new.lasting }
    ensures rest { a.new ≡ record a.old { lasting = a.new.lasting } }
    ensures size { length storage.new ≡ storage_size }
{
    if !range.store {
        return;
    }
    if range.length == 0 {
        return;
    }
    let last = range.first + u64::from(range.length) - 1;
    let first = (range.first / LINE_SIZE) as u32;
    let end = (last / LINE_SIZE) as u32 + 1;
    for line in first..end {
        keep_line(a, storage, line);
    }
}

/// Storage becomes the run's copy, in the order of absolute addresses, and both copies are storage again, where
/// they differ from it in lines alone into which these ranges, by absolute addresses, store.
pub fn keep_ranges(a: &mut Attempt, storage: &mut Storage, absolute: &Touches)
    requires prefix_in { IsTrue (is_prefix a.old.turned) }
    requires inside { All IsInStorage absolute.now }
    requires size { length storage.old ≡ storage_size }
    requires seen { Near a.old.turned (stores absolute.now) storage.old a.old.seen }
    requires lasting { Near a.old.turned (stores absolute.now) storage.old a.old.lasting }
    ensures kept { storage.new ≡ seen_by a.old.turned a.old.seen }
    ensures ready { IsReady storage.new a.new }
    ensures size { length storage.new ≡ storage_size }
{
    is_whole(&a.seen);
    is_whole(&a.lasting);
    for i in 0..absolute.count() {
        keep_range(a, storage, absolute.at(i));
    }
    is_whole(&a.lasting);
}

/// The same, where they differ from it in lines alone that were stored.
pub fn keep_stored(a: &mut Attempt, storage: &mut Storage)
    requires prefix_in { IsTrue (is_prefix a.old.turned) }
    requires size { length storage.old ≡ storage_size }
    requires seen { Near a.old.turned (sets_of a.old.footprint).stored storage.old a.old.seen }
    requires lasting { Near a.old.turned (sets_of a.old.footprint).stored storage.old a.old.lasting }
    ensures kept { storage.new ≡ seen_by a.old.turned a.old.seen }
    ensures ready { IsReady storage.new a.new }
    ensures size { length storage.new ≡ storage_size }
{
    is_whole(&a.seen);
    is_whole(&a.lasting);
    let mut from = 0;
    while let Some(line) = a.footprint.next_stored(from) {
        keep_line(a, storage, line);
        from = line + 1;
    }
    is_whole(&a.lasting);
}

/// The copy with lasting stores becomes the run's copy, and the other way round.
pub fn forget_plain_stores(a: &mut Attempt)
    ensures { a.new ≡ record a.old { seen = a.old.lasting; lasting = a.old.seen } }
{
    std::mem::swap(&mut a.seen, &mut a.lasting);
}

/// A line of both copies is that of storage again.
fn restore_line(a: &mut Attempt, storage: &Storage, line: u32)
    requires prefix_in { IsTrue (is_prefix a.old.turned) }
    requires line { line < LINES }
    requires size { length storage.now ≡ storage_size }
    ensures seen { (test : ℕ → Bool) → Near a.old.turned test storage.now a.old.seen
        → Near a.old.turned (but_at test line false) storage.now a.new.seen }
    ensures lasting { (test : ℕ → Bool) → Near a.old.turned test storage.now a.old.lasting
        → Near a.old.turned (but_at test line false) storage.now a.new.lasting }
    ensures rest { a.new ≡ record a.old { seen = a.new.seen; lasting = a.new.lasting } }
{
    is_whole(&a.seen);
    is_whole(&a.lasting);
    let seen = line_seen(a.turned, line);
    copy_line(&mut a.seen, seen, storage, line);
    copy_line(&mut a.lasting, seen, storage, line);
}

/// The copies are storage again, where they differ from it in lines alone that were stored.
pub fn restore(a: &mut Attempt, storage: &Storage)
    requires prefix_in { IsTrue (is_prefix a.old.turned) }
    requires seen { Near a.old.turned (sets_of a.old.footprint).stored storage.now a.old.seen }
    requires lasting { Near a.old.turned (sets_of a.old.footprint).stored storage.now a.old.lasting }
    ensures { IsReady storage.now a.new }
{
    is_whole(storage);
    is_whole(&a.seen);
    is_whole(&a.lasting);
    let mut from = 0;
    while let Some(line) = a.footprint.next_stored(from) {
        restore_line(a, storage, line);
        from = line + 1;
    }
    is_whole(&a.seen);
    is_whole(&a.lasting);
}

/// Bytes that were stored into storage, from a real address on, go into the copies too.
pub fn follow_bytes(a: &mut Attempt, prefix: Option<u32>, address: u64, bytes: &[u8])
    requires prefix_in { IsTrue (is_prefix prefix) }
    requires inside { address + length bytes.now ≤ storage_size }
    ensures { (old new : List ℕ) → IsTurned None old a.old → length new ≡ storage_size
        → function_of new ≡ with_bytes_at prefix address bytes.now (function_of old) → IsReady new a.new }
{
    is_whole(&a.seen);
    is_whole(&a.lasting);
    store_bytes(&mut a.seen, prefix, address, bytes);
    store_bytes(&mut a.lasting, prefix, address, bytes);
}
