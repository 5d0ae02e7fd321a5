//! Octowords of storage: which of them ranges have, and which an attempt has touched.
ghost use Rattle.std.specs.Prelude.{◌≡◌, ℕ, ◌+◌, ◌-◌, ◌*◌, ◌/◌, ◌<◌, ◌≤◌, ◌++◌, ◌||◌, ◌&&◌, [], All, List, IfOk, length, true, false};
ghost use Rattle.z_regs.specs.Prefix.{storage_size};
ghost use Rattle.z_regs.specs.declared.ranges.Range.{Range};
ghost use Rattle.line_table.specs.Sizes.{storage_lines};
ghost use Rattle.tx_footprint.specs.Places.{has_place, stores, lies_in};
ghost use Rattle.tx_heat.specs.Marks.{AreMarksOf, is_marked};
ghost use Rattle.tx_heat.specs.Octowords.{storage_octowords, octoword_size, asks, meets, are_apart};

use bit_set::BitSet;
use std::alloc::{AllocError, Global};
use std::marker::Model;
use z_regs::{Range, Touches};

/// The bytes of an octoword.
const OCTOWORD: u64 = 32;

/// The bytes of a line.
const LINE: u64 = 256;

/// The octowords of a line.
const IN_LINE: u32 = 8;

/// The words of a set of all octowords of storage.
const WORDS: usize = 512;

/// The octowords that an attempt has touched, and those of them that it has stored into: a bit for each octoword of
/// storage. Contracts see marks.
#[derive(Drop)]
pub struct Octowords {
    touched: BitSet,
    stored: BitSet,
}

impl Model for Octowords {
    ghost use Rattle.tx_heat.specs.Marks.{Marks, AreWhole};

    ghost Value = { Marks };

    ghost view = { λ o. record { touched = o.touched; stored = o.stored } };

    ghost invariant = { λ o. AreWhole record { touched = o.touched; stored = o.stored } };
}

/// The numbers from `first` on and below `end`.
#[derive(Clone, Copy)]
struct Span {
    first: usize,
    end: usize,
}

/// The places of this size that a range with bytes has.
fn span_of(range: Range, size: u64) -> Span
    requires size { 0 < size }
    requires bytes { 0 < range.length }
    requires inside { range.first + range.length ≤ storage_size }
    ensures places { (k : ℕ) → lies_in result.first result.end k ≡ has_place size range k }
    ensures order { result.first ≤ result.end }
    ensures end { result.end ≡ (range.first + range.length - 1) / size + 1 }
{
    let last = range.first + u64::from(range.length) - 1;
    Span {
        first: (range.first / size) as usize,
        end: (last / size) as usize + 1,
    }
}

/// Whether the range has a byte of the place of this size.
fn reaches(range: Range, size: u64, place: u32) -> bool
    requires size { 0 < size }
    requires inside { range.first + range.length ≤ storage_size }
    ensures { result ≡ has_place size range place }
{
    if range.length == 0 {
        return false;
    }
    let span = span_of(range, size);
    let at = place as usize;
    span.first <= at && at < span.end
}

/// Whether the range is stored into, and has a byte of the line.
fn stores_line(range: Range, line: u32) -> bool
    requires { range.first + range.length ≤ storage_size }
    ensures { result ≡ (range.store && has_place 256 range line) }
{
    range.store && reaches(range, LINE, line)
}

/// Whether one of the ranges is stored into, and has a byte of the line.
fn is_stored(ranges: &Touches, line: u32) -> bool
    requires { All (λ r. r.first + r.length ≤ storage_size) ranges.now }
    ensures { result ≡ stores ranges.now line }
{
    for i in 0..ranges.count() {
        if stores_line(ranges.at(i), line) {
            return true;
        }
    }
    false
}

/// Adds the octowords of a range to those that were touched, and where it is stored into, to those that were stored
/// into.
fn mark_range(touched: &mut BitSet, stored: &mut BitSet, range: Range)
    requires touched { length touched.old ≡ storage_octowords }
    requires stored { length stored.old ≡ storage_octowords }
    requires inside { range.first + range.length ≤ storage_size }
    ensures touched_size { length touched.new ≡ storage_octowords }
    ensures stored_size { length stored.new ≡ storage_octowords }
    ensures touched { (k : ℕ) → is_marked touched.new k
        ≡ (is_marked touched.old k || has_place octoword_size range k) }
    ensures stored { (k : ℕ) → is_marked stored.new k
        ≡ (is_marked stored.old k || (range.store && has_place octoword_size range k)) }
{
    if range.length == 0 {
        return;
    }
    let span = span_of(range, OCTOWORD);
    touched.insert_run(span.first, span.end);
    if range.store {
        stored.insert_run(span.first, span.end);
    }
}

/// Adds the octowords of ranges to those that were touched, and of ranges that are stored into to those that were
/// stored into.
fn mark(touched: &mut BitSet, stored: &mut BitSet, ranges: &Touches)
    requires touched { length touched.old ≡ storage_octowords }
    requires stored { length stored.old ≡ storage_octowords }
    requires inside { All (λ r. r.first + r.length ≤ storage_size) ranges.now }
    ensures touched_size { length touched.new ≡ storage_octowords }
    ensures stored_size { length stored.new ≡ storage_octowords }
    ensures touched { (k : ℕ) → is_marked touched.new k ≡ (is_marked touched.old k || meets true ranges.now k) }
    ensures stored { (k : ℕ) → is_marked stored.new k ≡ (is_marked stored.old k || meets false ranges.now k) }
{
    for i in 0..ranges.count() {
        mark_range(touched, stored, ranges.at(i));
    }
}

/// Whether an octoword of the line is both in the range and in the set.
fn shares(range: Range, set: &BitSet, line: u32) -> bool
    requires inside { range.first + range.length ≤ storage_size }
    requires size { length set.now ≡ storage_octowords }
    requires line { line < storage_lines }
    ensures found { result ≡ true → (k : ℕ) × (k < 8) × (has_place octoword_size range (8 * line + k) ≡ true)
        × (is_marked set.now (8 * line + k) ≡ true) }
    ensures none { result ≡ false → (k : ℕ) → k < 8
        → (has_place octoword_size range (8 * line + k) && is_marked set.now (8 * line + k)) ≡ false }
{
    if range.length == 0 {
        return false;
    }
    let span = span_of(range, OCTOWORD);
    let first = (IN_LINE * line) as usize;
    let from = span.first.max(first);
    let end = span.end.min(first + IN_LINE as usize);
    set.next(from, end).is_some()
}

/// Whether an octoword of the line is both asked for and in the set.
fn is_shared(asked: &Touches, set: &BitSet, line: u32) -> bool
    requires inside { All (λ r. r.first + r.length ≤ storage_size) asked.now }
    requires size { length set.now ≡ storage_octowords }
    requires line { line < storage_lines }
    ensures found { result ≡ true → (k : ℕ) × (k < 8) × (asks asked.now (8 * line + k) ≡ true)
        × (is_marked set.now (8 * line + k) ≡ true) }
    ensures none { result ≡ false → (k : ℕ) → k < 8
        → (asks asked.now (8 * line + k) && is_marked set.now (8 * line + k)) ≡ false }
{
    for i in 0..asked.count() {
        if shares(asked.at(i), set, line) {
            return true;
        }
    }
    false
}

impl Octowords {
    /// None. The error is want of memory.
    pub fn none(alloc: Global) -> Result<Octowords, AllocError>
        ensures { IfOk result (λ marks. AreMarksOf marks []) }
    {
        let touched = BitSet::open(alloc, WORDS)?;
        let stored = BitSet::open(alloc, WORDS)?;
        Ok(Octowords { touched, stored })
    }

    /// Takes all away.
    pub fn clear(&mut self)
        ensures { AreMarksOf self.new [] }
    {
        self.touched.clear();
        self.stored.clear();
    }

    /// Adds those of ranges.
    pub fn add(&mut self, ranges: &Touches)
        requires { All (λ r. r.first + r.length ≤ storage_size) ranges.now }
        ensures { (past : List Range) → AreMarksOf self.old past → AreMarksOf self.new (past ++ ranges.now) }
    {
        mark(&mut self.touched, &mut self.stored, ranges);
    }

    /// Whether what is asked for lies apart, in the line, from what stands against it: all of these octowords where
    /// the line is asked for exclusively, else those that were stored into.
    pub fn are_apart(&self, asked: &Touches, line: u32) -> bool
        requires inside { All (λ r. r.first + r.length ≤ storage_size) asked.now }
        requires line { line < storage_lines }
        ensures { (past : List Range) → AreMarksOf self.now past → result ≡ are_apart asked.now past line }
    {
        if is_stored(asked, line) {
            return !is_shared(asked, &self.touched, line);
        }
        !is_shared(asked, &self.stored, line)
    }
}
