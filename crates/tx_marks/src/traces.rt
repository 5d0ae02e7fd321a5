//! What the steps of a run leave in storage: the bytes that they have stored, and the pages of these and of their
//! instructions.
ghost use Rattle.std.specs.Prelude.{◌≡◌, ℕ, ◌+◌, ◌<◌, ◌≤◌, true, false, ◌||◌, nat_eq, All, IsTrue, IfOk, IfSome, None};
ghost use Rattle.std.specs.Prelude.{if◌then◌else◌};
ghost use Rattle.std.specs.List.{filter, flat_map};
ghost use Rattle.z_regs.specs.Prefix.{storage_size, is_prefix};
ghost use Rattle.tx_lending.specs.Places.{is_among, places_from};
ghost use Rattle.tx_marks.specs.Traces.{is_stored, is_paged, lies_on, has_page};

use crate::paged::{clear_set, open_set};
use crate::placing::stay;
use bit_set::BitSet;
use std::alloc::Global;
use std::marker::Model;
use z_regs::{NoMemory, Range, STORAGE_SIZE, Touches, place_of};

/// The bytes of a page.
const PAGE_SIZE: u64 = 4096;

/// The pages of storage.
const PAGES: usize = 256;

/// The bytes that steps have stored, and the pages of these and of their instructions.
#[derive(Drop)]
pub struct Traces {
    stored: BitSet,
    pages: BitSet,
}

impl Model for Traces {
    ghost use Rattle.std.specs.Prelude.{◌≡◌, length};
    ghost use Rattle.z_regs.specs.Prefix.{storage_size};
    ghost use Rattle.tx_marks.specs.Traces.{Traces};

    ghost Value = { Traces };

    ghost view = { λ t. record { stored = t.stored; pages = t.pages } };

    ghost invariant = { λ t. (length t.stored ≡ storage_size) × (length t.pages ≡ 256) };
}

impl Traces {
    /// No traces. The error is want of memory.
    pub fn open(alloc: Global) -> Result<Traces, NoMemory>
        ensures stored { IfOk result (λ t. (a : ℕ) → is_stored t a ≡ false) }
        ensures pages { IfOk result (λ t. (page : ℕ) → is_paged t page ≡ false) }
    {
        let stored = open_set(alloc, STORAGE_SIZE as usize / 64)?;
        let pages = open_set(alloc, PAGES / 64)?;
        Ok(Traces { stored, pages })
    }

    /// There are no traces any more.
    pub fn clear(&mut self)
        ensures stored { (a : ℕ) → is_stored self.new a ≡ false }
        ensures pages { (page : ℕ) → is_paged self.new page ≡ false }
    {
        clear_set(&mut self.stored);
        clear_set(&mut self.pages);
    }

    /// Marks the page of a place.
    fn mark_page(&mut self, place: u64)
        requires { place < storage_size }
        ensures stored { self.new.stored ≡ self.old.stored }
        ensures pages { (page : ℕ) → is_paged self.new page ≡ (is_paged self.old page || lies_on page place) }
    {
        self.pages.insert((place / PAGE_SIZE) as usize);
    }

    /// Marks the byte at a place as stored.
    fn mark_store(&mut self, place: u64)
        requires { place < storage_size }
        ensures stored { (a : ℕ) → is_stored self.new a ≡ (is_stored self.old a || nat_eq a place) }
        ensures pages { self.new.pages ≡ self.old.pages }
    {
        self.stored.insert(place as usize);
    }

    /// Marks the pages of so many bytes from a real address on, for a CPU with this prefix.
    #[inline(always)]
    pub fn mark_pages(&mut self, prefix: Option<u32>, first: u64, length: u32)
        requires prefix_in { IsTrue (is_prefix prefix) }
        requires inside { first + length ≤ storage_size }
        ensures stored { self.new.stored ≡ self.old.stored }
        ensures pages { (page : ℕ) → is_paged self.new page
            ≡ (is_paged self.old page || has_page (places_from prefix first length) page) }
    {
        if length == 0 {
            return;
        }
        if stay(prefix, first, length) {
            let last = first + u64::from(length) - 1;
            if first / PAGE_SIZE == last / PAGE_SIZE {
                self.mark_page(first);
                return;
            }
            self.pages.insert_run(
                (first / PAGE_SIZE) as usize,
                (last / PAGE_SIZE) as usize + 1,
            );
            return;
        }
        for k in 0..length {
            self.mark_page(place_of(prefix, first + u64::from(k)));
        }
    }

    /// Marks so many bytes from a real address on as stored.
    fn mark_stores(&mut self, prefix: Option<u32>, first: u64, length: u32)
        requires prefix_in { IsTrue (is_prefix prefix) }
        requires inside { first + length ≤ storage_size }
        ensures stored { (a : ℕ) → is_stored self.new a
            ≡ (is_stored self.old a || is_among (places_from prefix first length) a) }
        ensures pages { self.new.pages ≡ self.old.pages }
    {
        if stay(prefix, first, length) {
            let end = first + u64::from(length);
            self.stored.insert_run(first as usize, end as usize);
            return;
        }
        for k in 0..length {
            self.mark_store(place_of(prefix, first + u64::from(k)));
        }
    }

    /// Marks the bytes of an operand and their pages, where it is stored.
    fn mark_operand(&mut self, prefix: Option<u32>, range: &Range)
        requires prefix_in { IsTrue (is_prefix prefix) }
        requires inside { range.now.first + range.now.length ≤ storage_size }
        ensures stored { (a : ℕ) → is_stored self.new a ≡ (is_stored self.old a
            || (if range.now.store then is_among (places_from prefix range.now.first range.now.length) a else false)) }
        ensures pages { (page : ℕ) → is_paged self.new page ≡ (is_paged self.old page
            || (if range.now.store then has_page (places_from prefix range.now.first range.now.length) page
            else false)) }
    {
        if range.store {
            self.mark_stores(prefix, range.first, range.length);
            self.mark_pages(prefix, range.first, range.length);
        }
    }

    /// Marks the bytes of the operands that are stored, and their pages.
    #[inline(always)]
    pub fn mark_operands(&mut self, prefix: Option<u32>, need: &Touches)
        requires prefix_in { IsTrue (is_prefix prefix) }
        requires inside { All (λ r. r.first + r.length ≤ storage_size) need.now }
        ensures stored { (a : ℕ) → is_stored self.new a ≡ (is_stored self.old a
            || is_among (flat_map (λ r. places_from prefix r.first r.length) (filter (λ r. r.store) need.now)) a) }
        ensures pages { (page : ℕ) → is_paged self.new page ≡ (is_paged self.old page
            || has_page (flat_map (λ r. places_from prefix r.first r.length) (filter (λ r. r.store) need.now)) page) }
    {
        for i in 0..need.count() {
            let range = need.at(i);
            self.mark_operand(prefix, &range);
        }
    }

    /// The lowest place from this one on whose byte was stored; None exactly where there is none.
    pub fn next_stored(&self, from: u64) -> Option<u64>
        ensures found { IfSome result (λ at. (from ≤ at) × (is_stored self.now at ≡ true)) }
        ensures inside { IfSome result (λ at. at < storage_size) }
        ensures first { IfSome result (λ at. (a : ℕ) → from ≤ a → a < at → is_stored self.now a ≡ false) }
        ensures none { result ≡ None → (a : ℕ) → from ≤ a → is_stored self.now a ≡ false }
    {
        let at = self.stored.next(from as usize, STORAGE_SIZE as usize)?;
        Some(at as u64)
    }

    /// How many bytes from a stored one on are taken at once: eight where all of these were stored, and else one.
    pub fn stored_from(&self, at: u64) -> usize
        requires inside { at < storage_size }
        requires marked { is_stored self.now at ≡ true }
        ensures some { 0 < result }
        ensures few { result ≤ 8 }
        ensures within { at + result ≤ storage_size }
        ensures stored { (a : ℕ) → at ≤ a → a < at + result → is_stored self.now a ≡ true }
        ensures eight { at + 8 ≤ storage_size → ((a : ℕ) → at ≤ a → a < at + 8 → is_stored self.now a ≡ true)
            → result ≡ 8 }
        ensures more { 1 < result → result ≡ 8 }
    {
        let first = at as usize;
        if at <= STORAGE_SIZE - 8 && self.stored.has_run(first, first + 8) {
            return 8;
        }
        1
    }

    /// The lowest marked page from this one on; None exactly where there is none.
    pub fn next_page(&self, from: u32) -> Option<u32>
        ensures found { IfSome result (λ page. (from ≤ page) × (is_paged self.now page ≡ true)) }
        ensures inside { IfSome result (λ page. page < 256) }
        ensures first { IfSome result (λ page. (p : ℕ) → from ≤ p → p < page → is_paged self.now p ≡ false) }
        ensures none { result ≡ None → (p : ℕ) → from ≤ p → is_paged self.now p ≡ false }
    {
        let page = self.pages.next(from as usize, PAGES)?;
        Some(page as u32)
    }
}
