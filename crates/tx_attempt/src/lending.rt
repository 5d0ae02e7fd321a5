//! Storage lends the places of operands to an attempt: while an instruction is performed, the bytes that the attempt
//! sees there stand in storage, and then those of storage come back.
ghost use Rattle.std.specs.Prelude.{List, ℕ, true, ◌≡◌, ◌≤◌, ◌+◌, length, slice_get, get_or};
ghost use Rattle.std.specs.Prelude.{IsTrue, All, None};
ghost use Rattle.z_regs.specs.Prefix.{is_prefix, storage_size};
ghost use Rattle.z_regs.specs.Absolute.{IsAccessible};
ghost use Rattle.z_effect.specs.After.{range_at, written};
ghost use Rattle.store_cache.specs.Entries.{stores_of};
ghost use Rattle.tx_serial.specs.Flat.{bytes_seen};
ghost use Rattle.tx_progress.specs.Progress.{seen_through};
ghost use Rattle.tx_attempt.specs.Storages.{storage_of};
ghost use Rattle.tx_attempt.specs.Performed.{no_range, IsFetched};

use crate::attempt::Attempt;
use crate::performing::MOST_BYTES;
use z_regs::{Bytes, Range, Touches, place_of};

/// The operand with that number; no bytes where there is none.
pub fn operand(need: &Touches, number: u8) -> Range
    ensures { result ≡ get_or need.now number no_range }
{
    if number < need.count() {
        return need.at(number);
    }
    Range {
        first: 0,
        length: 0,
        store: false,
    }
}

/// Whether the CPU sees these operands, at most two, as they are in storage: there are none, or it has no prefix,
/// and its attempt has stored nothing in their blocks.
#[inline(always)]
pub fn are_bare(attempt: &Attempt, need: &Touches, prefix: Option<u32>) -> bool
    requires few { length need.now ≤ 2 }
    requires accessible { All (IsAccessible prefix) need.now }
    ensures { result ≡ true → (s : List ℕ) → All (IsFetched prefix
        (seen_through (stores_of attempt.now.stores).overlay (storage_of s)) s) need.now }
{
    if need.count() == 0 {
        return true;
    }
    if prefix.is_some() {
        return false;
    }
    let first = need.at(0);
    if !attempt.is_bare(first.first, first.length) {
        return false;
    }
    if need.count() == 1 {
        return true;
    }
    let second = need.at(1);
    attempt.is_bare(second.first, second.length)
}

/// The bytes of storage from an address on, at most 256.
#[inline(always)]
pub fn fetch<V: Bytes>(bytes: &mut [u8], first: u64, base: &V)
    requires few { length bytes.old ≤ 256 }
    requires end { first + length bytes.old ≤ length (V.bytes base.now) }
    ensures { bytes.new ≡ range_at (V.bytes base.now) first (length bytes.old) }
{
    if !bytes.is_empty() {
        base.read_into(first, bytes);
    }
}

/// The bytes that the attempt sees from a real address on, looked up one by one.
#[inline(always)]
fn see_bytes<V: Bytes>(
    attempt: &Attempt,
    bytes: &mut [u8],
    first: u64,
    prefix: Option<u32>,
    base: &V,
)
    requires prefix_in { IsTrue (is_prefix prefix) }
    requires end { first + length bytes.old ≤ storage_size }
    requires size { length (V.bytes base.now) ≡ storage_size }
    ensures { bytes.new ≡ bytes_seen prefix (seen_through (stores_of attempt.now.stores).overlay
        (storage_of (V.bytes base.now))) first (length bytes.old) }
{
    for k in 0..bytes.len() {
        bytes[k] = attempt.seen(place_of(prefix, first + k as u64), base);
    }
}

/// The bytes that the attempt of a CPU without a prefix sees from a real address on: those that it stored last where it has
/// stored each of them, and they lie in one block.
fn see_stored<V: Bytes>(
    attempt: &Attempt,
    bytes: &mut [u8],
    first: u64,
    prefix: Option<u32>,
    base: &V,
)
    requires none { prefix ≡ None }
    requires end { first + length bytes.old ≤ storage_size }
    requires size { length (V.bytes base.now) ≡ storage_size }
    ensures { bytes.new ≡ bytes_seen prefix (seen_through (stores_of attempt.now.stores).overlay
        (storage_of (V.bytes base.now))) first (length bytes.old) }
{
    if bytes.is_empty() {
        return;
    }
    match attempt.stored_run(first, bytes.len()) {
        Some(stored) => bytes.copy_from_slice(stored),
        None => see_bytes(attempt, bytes, first, prefix, base),
    }
}

/// The bytes that the attempt sees from a real address on, at most 256: those of storage where it has stored nothing
/// in their blocks.
pub fn see<V: Bytes>(attempt: &Attempt, bytes: &mut [u8], first: u64, prefix: Option<u32>, base: &V)
    requires few { length bytes.old ≤ 256 }
    requires prefix_in { IsTrue (is_prefix prefix) }
    requires end { first + length bytes.old ≤ storage_size }
    requires size { length (V.bytes base.now) ≡ storage_size }
    ensures { bytes.new ≡ bytes_seen prefix (seen_through (stores_of attempt.now.stores).overlay
        (storage_of (V.bytes base.now))) first (length bytes.old) }
{
    if prefix.is_some() {
        return see_bytes(attempt, bytes, first, prefix, base);
    }
    if !attempt.is_bare(first, bytes.len() as u32) {
        return see_stored(attempt, bytes, first, prefix, base);
    }
    fetch(bytes, first, base);
}

/// The bytes, at most 256, change places with those of storage from an address on.
#[inline(always)]
pub fn exchange<V: Bytes>(bytes: &mut [u8], first: u64, base: &mut V)
    requires few { length bytes.old ≤ 256 }
    requires end { first + length bytes.old ≤ length (V.bytes base.old) }
    ensures bytes { bytes.new ≡ range_at (V.bytes base.old) first (length bytes.old) }
    ensures storage { V.bytes base.new ≡ written (V.bytes base.old) first bytes.old }
{
    if bytes.is_empty() {
        return;
    }
    let mut room = [0; MOST_BYTES];
    let kept = &mut room[..bytes.len()];
    kept.copy_from_slice(bytes);
    base.read_into(first, bytes);
    base.put_all(first, kept);
}
