//! The footprint, over sets of lines and blocks.
ghost use Rattle.std.specs.Prelude.{◌≡◌, ℕ, ◌+◌, ◌-◌, ◌/◌, ◌<◌, ◌≤◌, ◌↔◌, All, IsTrue, IfOk, IfSome, IfNone, Ok, Err, [], ◌∷◌};
ghost use Rattle.bit_set.specs.Bits.{IsNext, NoneMarked};
ghost use Rattle.tx_footprint.specs.Places.{IsInStorage};
ghost use Rattle.tx_footprint.specs.Touched.{Touched, untouched, touching, line_count, block_count, fit_of};
ghost use Rattle.tx_footprint.specs.Touched.{sets_of};

pub use crate::places::BLOCKS;
use crate::places::{
    BLOCK_SIZE, Kind, LINE_SIZE, added, insert_new, is_in_block, mark, mark_new, mark_span,
    mark_span_new, most_places, span_of,
};
use bit_set::BitSet;
use line_table::{LINES, MOST_HELD};
use std::alloc::Global;
use std::marker::Model;
use z_regs::{NoMemory, Range, Touches};

/// How many lines a footprint may have; as many as a CPU may hold.
pub const MOST_LINES: u32 = MOST_HELD;

/// How many stored blocks a footprint may have.
pub const MOST_BLOCKS: u32 = 64;

/// Why ranges do not fit into a footprint.
#[derive(Clone, Copy, Debug, PartialEq, Eq)]
pub enum Overflow {
    /// There would be too many lines.
    Fetch,
    /// There would be too many stored blocks.
    Store,
}

/// What an attempt has touched: the lines that it fetched, the lines that it stored and the blocks
/// that it stored. It never has more than `MOST_LINES` lines and `MOST_BLOCKS` stored blocks.
#[derive(Drop)]
pub struct Footprint {
    touched: BitSet,
    fetched: BitSet,
    stored: BitSet,
    blocks: BitSet,
    line_count: u32,
    block_count: u32,
}

impl Model for Footprint {
    ghost use Rattle.tx_footprint.specs.Touched.{Touched, IsKept};

    ghost Value = { Touched };

    ghost view = { λ f. record { fetched = f.fetched; stored = f.stored; blocks = f.blocks } };

    ghost invariant = { λ f. IsKept f.touched f.fetched f.stored f.blocks f.line_count f.block_count };
}

impl Footprint {
    /// A footprint of nothing, with room for all that later calls need.
    pub fn open(alloc: Global) -> Result<Footprint, NoMemory>
        ensures { IfOk result (λ footprint. sets_of footprint ≡ untouched) }
    {
        let touched = BitSet::open(alloc, LINES / 64)?;
        let fetched = BitSet::open(alloc, LINES / 64)?;
        let stored = BitSet::open(alloc, LINES / 64)?;
        let blocks = BitSet::open(alloc, BLOCKS / 64)?;
        Ok(Footprint {
            touched,
            fetched,
            stored,
            blocks,
            line_count: 0,
            block_count: 0,
        })
    }

    /// Forgets all that was touched.
    pub fn clear(&mut self)
        ensures { sets_of self.new ≡ untouched }
    {
        self.touched.clear();
        self.fetched.clear();
        self.stored.clear();
        self.blocks.clear();
        self.line_count = 0;
        self.block_count = 0;
    }

    /// Whether the footprint would keep its limits with these ranges, by absolute addresses, too. `Fetch`
    /// exactly where it would have too many lines; else `Store` exactly where it would have too many stored
    /// blocks.
    pub fn fits(&self, touches: &Touches) -> Result<(), Overflow>
        requires { All IsInStorage touches.now }
        ensures exact { result ≡ fit_of (touching (sets_of self.now) touches.now) }
        ensures fetch { (result ≡ Err Overflow.Fetch)
            ↔ (MOST_LINES < line_count (touching (sets_of self.now) touches.now)) }
    {
        let most = most_places(touches);
        if self.line_count + most <= MOST_LINES && self.block_count + most <= MOST_BLOCKS {
            return Ok(());
        }
        if self.line_count + added(&self.touched, touches, Kind::Line) > MOST_LINES {
            return Err(Overflow::Fetch);
        }
        if self.block_count + added(&self.blocks, touches, Kind::StoredBlock) > MOST_BLOCKS {
            return Err(Overflow::Store);
        }
        Ok(())
    }

    /// The ranges, by absolute addresses, are touched too.
    pub fn add(&mut self, touches: &Touches)
        requires in_storage { All IsInStorage touches.now }
        requires fits { fit_of (touching (sets_of self.old) touches.now) ≡ Ok tt }
        ensures { sets_of self.new ≡ touching (sets_of self.old) touches.now }
    {
        if touches.count() == 0 {
            return;
        }
        if touches.count() == 1 {
            return self.add_one(touches.at(0));
        }
        self.line_count += mark_new(&mut self.touched, touches, Kind::Line);
        self.block_count += mark_new(&mut self.blocks, touches, Kind::StoredBlock);
        mark(&mut self.fetched, touches, Kind::FetchedLine);
        mark(&mut self.stored, touches, Kind::StoredLine);
    }

    /// A range that lies in one block is touched too: one line, and one block where it is stored.
    #[inline(always)]
    fn add_in_block(&mut self, range: Range)
        requires some { 0 < range.length }
        requires block { (range.first + range.length - 1) / 128 ≡ range.first / 128 }
        requires in_storage { IsInStorage range }
        requires fits { fit_of (touching (sets_of self.old) (range ∷ [])) ≡ Ok tt }
        ensures { sets_of self.new ≡ touching (sets_of self.old) (range ∷ []) }
    {
        let line = (range.first / LINE_SIZE) as usize;
        self.line_count += u32::from(insert_new(&mut self.touched, line));
        if range.store {
            self.stored.insert(line);
            let block = (range.first / BLOCK_SIZE) as usize;
            self.block_count += u32::from(insert_new(&mut self.blocks, block));
        } else {
            self.fetched.insert(line);
        }
    }

    /// A range is touched too, wherever it lies.
    #[inline(never)]
    fn add_spans(&mut self, range: Range)
        requires in_storage { IsInStorage range }
        requires fits { fit_of (touching (sets_of self.old) (range ∷ [])) ≡ Ok tt }
        ensures { sets_of self.new ≡ touching (sets_of self.old) (range ∷ []) }
    {
        self.line_count += mark_span_new(&mut self.touched, span_of(range, Kind::Line));
        self.block_count += mark_span_new(&mut self.blocks, span_of(range, Kind::StoredBlock));
        mark_span(&mut self.fetched, span_of(range, Kind::FetchedLine));
        mark_span(&mut self.stored, span_of(range, Kind::StoredLine));
    }

    /// One range, by absolute addresses, is touched too.
    pub fn add_one(&mut self, range: Range)
        requires in_storage { IsInStorage range }
        requires fits { fit_of (touching (sets_of self.old) (range ∷ [])) ≡ Ok tt }
        ensures { sets_of self.new ≡ touching (sets_of self.old) (range ∷ []) }
    {
        if is_in_block(range) {
            return self.add_in_block(range);
        }
        self.add_spans(range);
    }

    /// Whether both have fetched and stored the same lines and stored the same blocks.
    pub fn same(&self, other: &Footprint) -> bool
        ensures { IsTrue result ↔ (sets_of self.now ≡ sets_of other.now) }
    {
        if !self.fetched.same(&other.fetched) {
            return false;
        }
        if !self.stored.same(&other.stored) {
            return false;
        }
        self.blocks.same(&other.blocks)
    }

    /// Makes this footprint equal to the other.
    pub fn copy_from(&mut self, other: &Footprint)
        ensures { self.new ≡ other.now }
    {
        self.touched.copy_from(&other.touched);
        self.fetched.copy_from(&other.fetched);
        self.stored.copy_from(&other.stored);
        self.blocks.copy_from(&other.blocks);
        self.line_count = other.line_count;
        self.block_count = other.block_count;
    }

    /// Whether the line was fetched.
    pub fn fetched(&self, line: u32) -> bool
        requires { line < LINES }
        ensures { result ≡ (sets_of self.now).fetched line }
    {
        self.fetched.has(line as usize)
    }

    /// Whether the line was stored.
    pub fn stored(&self, line: u32) -> bool
        requires { line < LINES }
        ensures { result ≡ (sets_of self.now).stored line }
    {
        self.stored.has(line as usize)
    }

    /// The first line from this one on that was stored; None exactly where none was.
    pub fn next_stored(&self, from: u32) -> Option<u32>
        ensures found { IfSome result (λ line. IsNext self.now.stored from LINES line) }
        ensures none { IfNone result (NoneMarked self.now.stored from LINES) }
    {
        let line = self.stored.next(from as usize, LINES)?;
        Some(line as u32)
    }

    /// How many lines there are, each counted once whether it was fetched or stored or both.
    pub fn lines(&self) -> u32
        ensures value { result ≡ line_count (sets_of self.now) }
        ensures within { result ≤ MOST_LINES }
    {
        self.line_count
    }

    /// How many blocks were stored.
    pub fn blocks(&self) -> u32
        ensures value { result ≡ block_count (sets_of self.now) }
        ensures within { result ≤ MOST_BLOCKS }
    {
        self.block_count
    }
}
