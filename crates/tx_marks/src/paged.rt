//! A set of places of storage, in which the next one is found by the pages that have some.
ghost use Rattle.std.specs.Prelude.{◌≡◌, ℕ, ◌*◌, ◌<◌, ◌≤◌, ◌↔◌, ◌||◌, true, false, length, slice_set};
ghost use Rattle.std.specs.Prelude.{IsTrue, IfOk, IfSome, IfNone};
ghost use Rattle.std.specs.List.{slice_index_or};
ghost use Rattle.bit_set.specs.Bits.{IsNext, NoneMarked, lies_in};
ghost use Rattle.z_regs.specs.Prefix.{storage_size};

use bit_set::BitSet;
use std::alloc::Global;
use std::marker::Model;
use z_regs::{NoMemory, STORAGE_SIZE};

/// The bytes of a page.
const PAGE_SIZE: usize = 4096;

/// The pages of storage.
const PAGES: usize = 256;

/// A set with room for so many words of 64 numbers, and none in it.
pub(crate) fn open_set(alloc: Global, words: usize) -> Result<BitSet, NoMemory>
    ensures size { IfOk result (λ set. length set ≡ 64 * words) }
    ensures none { IfOk result (λ set. (k : ℕ) → slice_index_or set k false ≡ false) }
{
    let set = BitSet::open(alloc, words)?;
    Ok(set)
}

/// Takes all numbers out of a set.
pub(crate) fn clear_set(set: &mut BitSet)
    ensures size { length set.new ≡ length set.old }
    ensures none { (k : ℕ) → slice_index_or set.new k false ≡ false }
{
    set.clear();
}

/// Places of storage, and the pages that have some of them: the next place is looked for in these pages alone.
#[derive(Drop)]
pub struct PagedSet {
    places: BitSet,
    pages: BitSet,
}

impl Model for PagedSet {
    ghost use Rattle.std.specs.Prelude.{◌≡◌, Bool, List, length};
    ghost use Rattle.z_regs.specs.Prefix.{storage_size};
    ghost use Rattle.tx_marks.specs.Paged.{LieIn};

    ghost Value = { List Bool };

    ghost view = { λ s. s.places };

    ghost invariant = { λ s. (length s.places ≡ storage_size) × ((length s.pages ≡ 256)
        × LieIn s.pages s.places) };
}

impl PagedSet {
    /// The empty set. The error is want of memory.
    pub fn open(alloc: Global) -> Result<PagedSet, NoMemory>
        ensures size { IfOk result (λ set. length set ≡ storage_size) }
        ensures none { IfOk result (λ set. (k : ℕ) → slice_index_or set k false ≡ false) }
    {
        let places = open_set(alloc, STORAGE_SIZE as usize / 64)?;
        let pages = open_set(alloc, PAGES / 64)?;
        Ok(PagedSet { places, pages })
    }

    /// Whether the place is in the set.
    pub fn has(&self, at: usize) -> bool
        requires { at < length self.now }
        ensures { result ≡ slice_index_or self.now at false }
    {
        self.places.has(at)
    }

    /// Adds a place.
    pub fn insert(&mut self, at: usize)
        requires { at < length self.old }
        ensures { self.new ≡ slice_set self.old at true }
    {
        self.places.insert(at);
        self.pages.insert(at / PAGE_SIZE);
    }

    /// Takes all places away.
    pub fn clear(&mut self)
        ensures size { length self.new ≡ length self.old }
        ensures none { (k : ℕ) → slice_index_or self.new k false ≡ false }
    {
        clear_set(&mut self.places);
        clear_set(&mut self.pages);
    }

    /// The lowest place of the set from `from` on, which is often `from` itself.
    #[inline(always)]
    pub fn next(&self, from: usize) -> Option<usize>
        ensures found { IfSome result (λ at. IsNext self.now from storage_size at) }
        ensures none { IfNone result (NoneMarked self.now from storage_size) }
    {
        if from < PAGES * PAGE_SIZE && self.places.has(from) {
            return Some(from);
        }
        self.next_behind(from)
    }

    /// The same, looked for. Only its own page is read, and those behind it that have some.
    #[inline(never)]
    fn next_behind(&self, from: usize) -> Option<usize>
        ensures found { IfSome result (λ at. IsNext self.now from storage_size at) }
        ensures none { IfNone result (NoneMarked self.now from storage_size) }
    {
        let mut at = from;
        while at < PAGES * PAGE_SIZE {
            let end = at / PAGE_SIZE * PAGE_SIZE + PAGE_SIZE;
            let found = self.places.next(at, end);
            if found.is_some() {
                return found;
            }
            let page = self.pages.next(end / PAGE_SIZE, PAGES)?;
            at = page * PAGE_SIZE;
        }
        None
    }

    /// Adds all places from `from` on and below `end`.
    pub fn insert_run(&mut self, from: usize, end: usize)
        requires some { from < end }
        requires within { end ≤ length self.old }
        ensures size { length self.new ≡ length self.old }
        ensures marks { (k : ℕ) → slice_index_or self.new k false
            ≡ (slice_index_or self.old k false || lies_in from end k) }
    {
        self.places.insert_run(from, end);
        self.pages
            .insert_run(from / PAGE_SIZE, (end - 1) / PAGE_SIZE + 1);
    }

    /// Whether no place from `from` on and below `end` is in the set.
    pub fn has_none(&self, from: usize, end: usize) -> bool
        requires { end ≤ length self.now }
        ensures { IsTrue result ↔ NoneMarked self.now from end }
    {
        self.places.next(from, end).is_none()
    }

    /// Whether all places from `from` on and below `end` are in the set.
    pub fn has_run(&self, from: usize, end: usize) -> bool
        requires order { from ≤ end }
        requires within { end ≤ length self.now }
        ensures { IsTrue result ↔ ((k : ℕ) → from ≤ k → k < end → slice_index_or self.now k false ≡ true) }
    {
        self.places.has_run(from, end)
    }
}
