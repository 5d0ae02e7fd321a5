//! The bytes of a run: storage as the run has made it, and each byte that it has touched as it was before.
ghost use Rattle.std.specs.Prelude.{◌≡◌, ℕ, ◌+◌, ◌/◌, ◌<◌, ◌≤◌, true, false, ◌||◌, nat_eq, All, length, IsTrue};
ghost use Rattle.std.specs.Prelude.{IfSome, None, if◌then◌else◌, vec_len, vec_capacity};
ghost use Rattle.std.specs.List.{flat_map, slice_index_or};
ghost use Rattle.byteorder.specs.Endian.{big_bytes};
ghost use Rattle.z_regs.specs.Prefix.{storage_size, is_prefix};
ghost use Rattle.z_regs.specs.Written.{range_at};
ghost use Rattle.line_table.specs.Sizes.{storage_lines};
ghost use Rattle.bit_set.specs.Bits.{lies_in};
ghost use Rattle.z_instr.specs.Operands.{from_up};
ghost use Rattle.tx_lending.specs.Places.{is_among, places_from};
ghost use Rattle.tx_marks.specs.Own.{bytes_at, is_touched, given, line_bytes};

use crate::paged::PagedSet;
use crate::placing::stay;
use std::alloc::Global;
use std::marker::Model;
use z_regs::{Bytes, NoMemory, STORAGE_SIZE, Storage, Touches, place_of};

/// The bytes of a line.
const LINE_SIZE: usize = 256;

/// The bytes of a run, and which of them it has touched, each of these with its value before.
#[derive(Drop)]
pub struct OwnBytes {
    /// Storage as it is now.
    pub now: Storage,
    before: Storage,
    touched: PagedSet,
}

impl Model for OwnBytes {
    ghost use Rattle.std.specs.Prelude.{◌≡◌, length};
    ghost use Rattle.z_regs.specs.Prefix.{storage_size};
    ghost use Rattle.tx_marks.specs.Own.{Own};

    ghost Value = { Own };

    ghost view = { λ b. record { now = b.now; before = b.before; touched = b.touched } };

    ghost invariant = { λ b. (length b.before ≡ storage_size) × (length b.touched ≡ storage_size) };
}

/// Puts the bytes of other storage at all places of a set.
fn lay(now: &mut Storage, before: &Storage, places: &PagedSet)
    requires size { length places.now ≡ storage_size }
    ensures { (a : ℕ) → bytes_at now.new a ≡
        (if slice_index_or places.now a false then bytes_at before.now a else bytes_at now.old a) }
{
    let bytes = before.as_slice();
    let _size = now.as_slice();
    let mut from = 0;
    while let Some(at) = places.next(from) {
        now.put(at as u64, bytes[at]);
        from = at + 1;
    }
}

/// Storage of these bytes in a vector that has room for them.
fn filled(room: Vec<u8>, bytes: &[u8]) -> Storage
    requires empty { vec_len room ≡ 0 }
    requires room { storage_size ≤ vec_capacity room }
    requires size { length bytes.now ≡ storage_size }
    ensures { result ≡ bytes.now }
{
    let mut room = room;
    let _reserved = room.extend_from_slice(bytes);
    Storage::of(room)
}

/// Memory for the bytes of a run, to which nothing is written yet.
#[derive(Drop)]
pub struct OwnRoom {
    now: Vec<u8>,
    before: Vec<u8>,
    touched: PagedSet,
    ghost now_empty: { vec_len now ≡ 0 },
    ghost now_room: { storage_size ≤ vec_capacity now },
    ghost before_empty: { vec_len before ≡ 0 },
    ghost before_room: { storage_size ≤ vec_capacity before },
    ghost size: { length touched ≡ storage_size },
    ghost none: { (a : ℕ) → slice_index_or touched a false ≡ false },
}

impl OwnRoom {
    /// Memory for the bytes of a run. The error is want of memory.
    pub fn reserve(alloc: Global) -> Result<OwnRoom, NoMemory> {
        let now = Vec::with_capacity(alloc, STORAGE_SIZE as usize)?;
        let before = Vec::with_capacity(alloc, STORAGE_SIZE as usize)?;
        let touched = PagedSet::open(alloc)?;
        Ok(OwnRoom {
            now,
            before,
            touched,
        })
    }

    /// A run's storage with these bytes, which are 1,048,576, none of them touched. It takes no memory.
    pub fn fill(self, bytes: &[u8]) -> OwnBytes
        requires { length bytes.now ≡ storage_size }
        ensures bytes { result.now ≡ bytes.now }
        ensures untouched { (a : ℕ) → is_touched result a ≡ false }
    {
        let OwnRoom {
            now,
            before,
            touched,
        } = self;
        OwnBytes {
            now: filled(now, bytes),
            before: filled(before, bytes),
            touched,
        }
    }
}

impl OwnBytes {
    /// Marks the byte at a place as touched; where it was not, its value is kept.
    pub fn touch(&mut self, place: u64)
        requires { place < storage_size }
        ensures now { self.new.now ≡ self.old.now }
        ensures given { (a : ℕ) → given self.new a ≡ given self.old a }
        ensures touched { (a : ℕ) → is_touched self.new a ≡ (is_touched self.old a || nat_eq a place) }
    {
        let at = place as usize;
        if self.touched.has(at) {
            return;
        }
        self.before.put(place, self.now.as_slice()[at]);
        self.touched.insert(at);
    }

    /// Whether it is seen at one look that so many bytes from a real address on are touched, for a CPU with this prefix.
    #[inline(always)]
    fn are_touched(&self, prefix: Option<u32>, first: u64, length: u32) -> bool
        requires prefix_in { IsTrue (is_prefix prefix) }
        requires inside { first + length ≤ storage_size }
        ensures { result ≡ true → (a : ℕ) → is_among (places_from prefix first length) a ≡ true
            → is_touched self.entry.now a ≡ true }
    {
        let end = first + u64::from(length);
        stay(prefix, first, length) && self.touched.has_run(first as usize, end as usize)
    }

    /// Whether it is seen at one look that none of so many bytes from a real address on is touched, for a CPU with this prefix.
    fn are_untouched(&self, prefix: Option<u32>, first: u64, length: u32) -> bool
        requires prefix_in { IsTrue (is_prefix prefix) }
        requires inside { first + length ≤ storage_size }
        ensures places { result ≡ true → places_from prefix first length ≡ from_up first length }
        ensures none { result ≡ true → (a : ℕ) → first ≤ a → a < first + length
            → is_touched self.entry.now a ≡ false }
    {
        let end = first + u64::from(length);
        stay(prefix, first, length) && self.touched.has_none(first as usize, end as usize)
    }

    /// Marks the bytes at so many places as touched, none of which is; their values are kept.
    fn touch_run(&mut self, first: u64, length: u32)
        requires some { 0 < length }
        requires inside { first + length ≤ storage_size }
        requires none { (a : ℕ) → first ≤ a → a < first + length → is_touched self.old a ≡ false }
        ensures now { self.new.now ≡ self.old.now }
        ensures given { (a : ℕ) → given self.new a ≡ given self.old a }
        ensures touched { (a : ℕ) → is_touched self.new a
            ≡ (is_touched self.old a || lies_in first (first + length) a) }
    {
        let from = first as usize;
        let end = from + length as usize;
        let bytes = &self.now.as_slice()[from..end];
        self.before.lay(from, bytes);
        self.touched.insert_run(from, end);
    }

    /// Marks so many bytes from a real address on as touched, for a CPU with this prefix.
    #[inline(always)]
    pub fn touch_places(&mut self, prefix: Option<u32>, first: u64, length: u32)
        requires prefix_in { IsTrue (is_prefix prefix) }
        requires inside { first + length ≤ storage_size }
        ensures now { self.new.now ≡ self.old.now }
        ensures given { (a : ℕ) → given self.new a ≡ given self.old a }
        ensures touched { (a : ℕ) → is_touched self.new a
            ≡ (is_touched self.old a || is_among (places_from prefix first length) a) }
    {
        if length == 0 || self.are_touched(prefix, first, length) {
            return;
        }
        self.touch_more(prefix, first, length);
    }

    /// Marks so many bytes from a real address on as touched, of which some may be touched already.
    #[inline(never)]
    fn touch_more(&mut self, prefix: Option<u32>, first: u64, length: u32)
        requires some { 0 < length }
        requires prefix_in { IsTrue (is_prefix prefix) }
        requires inside { first + length ≤ storage_size }
        ensures now { self.new.now ≡ self.old.now }
        ensures given { (a : ℕ) → given self.new a ≡ given self.old a }
        ensures touched { (a : ℕ) → is_touched self.new a
            ≡ (is_touched self.old a || is_among (places_from prefix first length) a) }
    {
        if self.are_untouched(prefix, first, length) {
            self.touch_run(first, length);
            return;
        }
        for k in 0..length {
            self.touch(place_of(prefix, first + u64::from(k)));
        }
    }

    /// Marks the bytes of operands, by real addresses, as touched.
    #[inline(always)]
    pub fn touch_operands(&mut self, prefix: Option<u32>, need: &Touches)
        requires prefix_in { IsTrue (is_prefix prefix) }
        requires inside { All (λ r. r.first + r.length ≤ storage_size) need.now }
        ensures now { self.new.now ≡ self.old.now }
        ensures given { (a : ℕ) → given self.new a ≡ given self.old a }
        ensures touched { (a : ℕ) → is_touched self.new a ≡ (is_touched self.old a
            || is_among (flat_map (λ r. places_from prefix r.first r.length) need.now) a) }
    {
        for i in 0..need.count() {
            let range = need.at(i);
            self.touch_places(prefix, range.first, range.length);
        }
    }

    /// The bytes of a line are these. None is touched yet.
    pub fn copy_line(&mut self, line: u32, bytes: &[u8])
        requires line { line < storage_lines }
        requires size { length bytes.now ≡ 256 }
        ensures now { (a : ℕ) → bytes_at self.new.now a ≡
            (if nat_eq (a / 256) line then line_bytes bytes.now a else bytes_at self.old.now a) }
        ensures touched { self.new.touched ≡ self.old.touched }
    {
        let _size = self.now.as_slice();
        self.now.lay(line as usize * LINE_SIZE, bytes);
    }

    /// Every touched byte is again as it was before, and none is touched any more.
    pub fn put_back(&mut self)
        ensures given { (a : ℕ) → given self.new a ≡ given self.old a }
        ensures now { (a : ℕ) → bytes_at self.new.now a ≡ given self.old a }
        ensures untouched { (a : ℕ) → is_touched self.new a ≡ false }
    {
        lay(&mut self.now, &self.before, &self.touched);
        self.touched.clear();
    }

    /// The bytes stay as they are, and none is touched any more.
    pub fn forget(&mut self)
        ensures now { self.new.now ≡ self.old.now }
        ensures untouched { (a : ℕ) → is_touched self.new a ≡ false }
    {
        self.touched.clear();
    }

    /// The lowest touched place from this one on, and its byte before it was touched; None exactly where there
    /// is none.
    pub fn next(&self, from: u64) -> Option<(u64, u8)>
        ensures found { IfSome result (λ p. (from ≤ p.0)
            × ((is_touched self.entry.now p.0 ≡ true) × (p.1 ≡ given self.entry.now p.0))) }
        ensures inside { IfSome result (λ p. p.0 < storage_size) }
        ensures first { IfSome result (λ p. (a : ℕ) → from ≤ a → a < p.0 → is_touched self.entry.now a ≡ false) }
        ensures none { result ≡ None → (a : ℕ) → from ≤ a → is_touched self.entry.now a ≡ false }
    {
        let at = self.touched.next(from as usize)?;
        Some((at as u64, self.before.as_slice()[at]))
    }

    /// The number in the eight bytes from a place on, each that is touched as it was before. Of any other it has the byte that
    /// was kept there last.
    pub fn before(&self, at: u64) -> u64
        requires { at + 8 ≤ storage_size }
        ensures { big_bytes 8 result ≡ range_at self.entry.now.before at 8 }
    {
        self.before.word(at, 8)
    }
}
