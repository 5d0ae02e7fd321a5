//! Places of storage that ranges of absolute addresses touch: lines and blocks, counted and marked in sets.

ghost use Rattle.std.specs.Prelude.{◌≡◌, ℕ, ◌+◌, ◌-◌, ◌/◌, ◌<◌, ◌≤◌, ◌||◌, All, List, length, take, slice_index_or};
ghost use Rattle.std.specs.Prelude.{◌^◌, slice_set, true, false, not};
ghost use Rattle.bit_set.specs.Counts.{count_below};
ghost use Rattle.tx_footprint.specs.Places.{IsInStorage, size_of, places_of, records, covers, touched_by};
ghost use Rattle.tx_footprint.specs.Places.{lies_in, marked_or_touched};

use bit_set::BitSet;
use z_regs::{Range, Touches};

/// The bytes of a line.
pub const LINE_SIZE: u64 = 256;

/// The bytes of a block.
pub const BLOCK_SIZE: u64 = 128;

/// The blocks of storage.
pub const BLOCKS: usize = 8192;

/// The kinds of place that a footprint keeps a set of.
#[derive(Clone, Copy)]
pub enum Kind {
    /// Lines that were fetched or stored.
    Line,
    /// Lines that were fetched.
    FetchedLine,
    /// Lines that were stored.
    StoredLine,
    /// Blocks that were stored.
    StoredBlock,
}

/// The numbers from `first` on and below `end`.
#[derive(Clone, Copy)]
pub struct Span {
    pub first: usize,
    pub end: usize,
}

impl Span {
    /// Whether the number is in the span.
    fn has(self, k: usize) -> bool
        ensures { result ≡ lies_in self.first self.end k }
    {
        self.first <= k && k < self.end
    }
}

/// The bytes of a place.
fn size(kind: Kind) -> u64
    ensures { result ≡ size_of kind }
{
    match kind {
        Kind::Line => LINE_SIZE,
        Kind::FetchedLine => LINE_SIZE,
        Kind::StoredLine => LINE_SIZE,
        Kind::StoredBlock => BLOCK_SIZE,
    }
}

/// Whether places of this kind are recorded for ranges that are fetched or stored.
fn is_recorded(kind: Kind, store: bool) -> bool
    ensures { result ≡ records kind store }
{
    match kind {
        Kind::Line => true,
        Kind::FetchedLine => !store,
        Kind::StoredLine => store,
        Kind::StoredBlock => store,
    }
}

/// The places of one kind that a range touches.
pub fn span_of(range: Range, kind: Kind) -> Span
    requires { IsInStorage range }
    ensures places { (k : ℕ) → lies_in result.first result.end k ≡ covers kind range k }
    ensures order { result.first ≤ result.end }
    ensures within { result.end ≤ places_of kind }
{
    let nowhere = Span { first: 0, end: 0 };
    if !is_recorded(kind, range.store) {
        return nowhere;
    }
    if range.length == 0 {
        return nowhere;
    }
    let last = range.first + u64::from(range.length) - 1;
    Span {
        first: (range.first / size(kind)) as usize,
        end: (last / size(kind)) as usize + 1,
    }
}

/// Whether a range has bytes, all in one block.
#[inline(always)]
pub fn is_in_block(range: Range) -> bool
    requires { IsInStorage range }
    ensures some { result ≡ true → 0 < range.length }
    ensures block { result ≡ true → (range.first + range.length - 1) / 128 ≡ range.first / 128 }
{
    if range.length == 0 {
        return false;
    }
    let last = range.first + u64::from(range.length) - 1;
    last / BLOCK_SIZE == range.first / BLOCK_SIZE
}

/// A bound on how many places of any one kind the ranges touch, by their lengths alone.
pub fn most_places(touches: &Touches) -> u32
    ensures places { (kind : Kind) → count_below (places_of kind) (touched_by kind touches.now) ≤ result }
    ensures few { result ≤ 2 ^ 28 }
{
    let mut most = 0;
    for i in 0..touches.count() {
        most += touches.at(i).length / BLOCK_SIZE as u32 + 2;
    }
    most
}

/// Whether one of the first `before` ranges touches the place.
fn is_touched_before(touches: &Touches, before: u8, kind: Kind, place: usize) -> bool
    requires some { before ≤ length touches.now }
    requires in_storage { All IsInStorage touches.now }
    ensures { result ≡ touched_by kind (take before touches.now) place }
{
    for i in 0..before {
        let span = span_of(touches.at(i), kind);
        if span.has(place) {
            return true;
        }
    }
    false
}

/// Whether the place is neither in the set nor touched by one of the first `before` ranges.
fn is_new(set: &BitSet, touches: &Touches, before: u8, kind: Kind, place: usize) -> bool
    requires within { place < length set.now }
    requires some { before ≤ length touches.now }
    requires in_storage { All IsInStorage touches.now }
    ensures { result ≡ not (marked_or_touched set.now kind (take before touches.now) place) }
{
    if set.has(place) {
        return false;
    }
    !is_touched_before(touches, before, kind, place)
}

/// How many places range `i` touches that are neither in the set nor touched by an earlier range.
fn added_by(set: &BitSet, touches: &Touches, i: u8, kind: Kind) -> u32
    requires size { length set.now ≡ places_of kind }
    requires some { i < length touches.now }
    requires in_storage { All IsInStorage touches.now }
    ensures { let places = places_of kind in
        result + count_below places (marked_or_touched set.now kind (take i touches.now))
        ≡ count_below places (marked_or_touched set.now kind (take (i + 1) touches.now)) }
{
    let span = span_of(touches.at(i), kind);
    let mut added = 0;
    for place in span.first..span.end {
        added += u32::from(is_new(set, touches, i, kind, place));
    }
    added
}

/// How many places the ranges touch that are not in the set, each counted once.
pub fn added(set: &BitSet, touches: &Touches, kind: Kind) -> u32
    requires size { length set.now ≡ places_of kind }
    requires in_storage { All IsInStorage touches.now }
    ensures { let places = places_of kind in
        result + count_below places (λ place. slice_index_or set.now place false)
        ≡ count_below places (marked_or_touched set.now kind touches.now) }
{
    let mut added = 0;
    for i in 0..touches.count() {
        added += added_by(set, touches, i, kind);
    }
    added
}

/// Adds the numbers of a span to the set.
pub fn mark_span(set: &mut BitSet, span: Span)
    requires order { span.first ≤ span.end }
    requires within { span.end ≤ length set.old }
    ensures size { length set.new ≡ length set.old }
    ensures marks { (k : ℕ) → slice_index_or set.new k
        false ≡ (slice_index_or set.old k false || lies_in span.first span.end k) }
{
    for place in span.first..span.end {
        set.insert(place);
    }
}

/// Adds the places that the ranges touch to the set.
pub fn mark(set: &mut BitSet, touches: &Touches, kind: Kind)
    requires size { length set.old ≡ places_of kind }
    requires in_storage { All IsInStorage touches.now }
    ensures size { length set.new ≡ length set.old }
    ensures marks { (k : ℕ) → slice_index_or set.new k false ≡ marked_or_touched set.old kind touches.now k }
{
    for i in 0..touches.count() {
        mark_span(set, span_of(touches.at(i), kind));
    }
}

/// Adds a number to the set, and tells whether it was not there before.
#[inline(always)]
pub fn insert_new(set: &mut BitSet, place: usize) -> bool
    requires { place < length set.old }
    ensures marks { set.new ≡ slice_set set.old place true }
    ensures new { result ≡ not (slice_index_or set.old place false) }
{
    let new = !set.has(place);
    if new {
        set.insert(place);
    }
    new
}

/// Adds the numbers of a span to the set, and tells how many of them were not there before.
pub fn mark_span_new(set: &mut BitSet, span: Span) -> u32
    requires order { span.first ≤ span.end }
    requires within { span.end ≤ length set.old }
    requires few { length set.old ≤ BLOCKS }
    ensures size { length set.new ≡ length set.old }
    ensures marks { (k : ℕ) → slice_index_or set.new k
        false ≡ (slice_index_or set.old k false || lies_in span.first span.end k) }
    ensures new { let places = length set.old in
        result + count_below places (λ place. slice_index_or set.old place false)
        ≡ count_below places (λ place. slice_index_or set.new place false) }
{
    let mut new = 0;
    for place in span.first..span.end {
        new += u32::from(insert_new(set, place));
    }
    new
}

/// Adds the places that the ranges touch to the set, and tells how many of them were not there before,
/// each counted once.
pub fn mark_new(set: &mut BitSet, touches: &Touches, kind: Kind) -> u32
    requires size { length set.old ≡ places_of kind }
    requires in_storage { All IsInStorage touches.now }
    ensures size { length set.new ≡ length set.old }
    ensures marks { (k : ℕ) → slice_index_or set.new k false ≡ marked_or_touched set.old kind touches.now k }
    ensures new { let places = places_of kind in
        result + count_below places (λ place. slice_index_or set.old place false)
        ≡ count_below places (λ place. slice_index_or set.new place false) }
{
    let mut new = 0;
    for i in 0..touches.count() {
        new += mark_span_new(set, span_of(touches.at(i), kind));
    }
    new
}
