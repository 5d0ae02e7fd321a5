//! Lines, each with a mode or without.
ghost use Rattle.std.specs.Prelude.{◌≡◌, ℕ, ◌+◌, ◌<◌, ◌≤◌, [], ◌∷◌, All, IfOk, IfSome, Some, None};
ghost use Rattle.z_regs.specs.Prefix.{storage_size};
ghost use Rattle.line_table.specs.Sizes.{storage_lines};
ghost use Rattle.tx_lending.specs.Asking.{is_there};
ghost use Rattle.tx_lending.specs.Needs.{needs_of};
ghost use Rattle.tx_marks.specs.Marks.{mode_in, with_need, with_needs, first_missing};

use crate::paged::{clear_set, open_set};
use bit_set::BitSet;
use line_table::{LINES, Mode};
use std::alloc::Global;
use std::marker::Model;
use tx_lending::Need;
use tx_needs::{lines_needed, need_for};
use z_regs::{NoMemory, Touches};

/// The bytes of a line.
const LINE_SIZE: u64 = 256;

/// Which lines of storage have a mode, and which one: a run's own lines.
#[derive(Drop)]
pub struct LineMarks {
    any: BitSet,
    exclusive: BitSet,
}

impl Model for LineMarks {
    ghost use Rattle.tx_marks.specs.Marks.{Marks, AreKept};

    ghost Value = { Marks };

    ghost view = { λ m. record { any = m.any; exclusive = m.exclusive } };

    ghost invariant = { λ m. AreKept m.any m.exclusive };
}

/// How the only line of ranges is needed, where they are one range by absolute addresses that lies in a line.
#[inline(always)]
fn one_need(ranges: &Touches) -> Option<Need>
    requires { All (λ r. r.first + r.length ≤ storage_size) ranges.now }
    ensures need { IfSome result (λ need. needs_of ranges.now ≡ need ∷ []) }
    ensures line { IfSome result (λ need. need.line < storage_lines) }
{
    if ranges.count() != 1 {
        return None;
    }
    let range = ranges.at(0);
    if range.length == 0 {
        return None;
    }
    if range.first % LINE_SIZE + u64::from(range.length) > LINE_SIZE {
        return None;
    }
    let mode = if range.store {
        Mode::Exclusive
    } else {
        Mode::Shared
    };
    Some(Need {
        line: (range.first / LINE_SIZE) as u32,
        mode,
    })
}

impl LineMarks {
    /// No line has a mode. The error is want of memory.
    pub fn open(alloc: Global) -> Result<LineMarks, NoMemory>
        ensures { IfOk result (λ m. (line : ℕ) → mode_in m line ≡ None) }
    {
        let any = open_set(alloc, LINES / 64)?;
        let exclusive = open_set(alloc, LINES / 64)?;
        Ok(LineMarks { any, exclusive })
    }

    /// No line has a mode any more.
    pub fn clear(&mut self)
        ensures { (line : ℕ) → mode_in self.new line ≡ None }
    {
        clear_set(&mut self.any);
        clear_set(&mut self.exclusive);
    }

    /// The mode of a line, where it has one.
    pub fn mode(&self, line: u32) -> Option<Mode>
        requires { line < storage_lines }
        ensures { result ≡ mode_in self.now line }
    {
        let line = line as usize;
        if self.exclusive.has(line) {
            Some(Mode::Exclusive)
        } else if self.any.has(line) {
            Some(Mode::Shared)
        } else {
            None
        }
    }

    /// Whether a line is there as it is needed: in that mode, or exclusively.
    fn is_there(&self, need: Need) -> bool
        requires { need.line < storage_lines }
        ensures { result ≡ is_there need.mode (mode_in self.now need.line) }
    {
        match self.mode(need.line) {
            None => false,
            Some(Mode::Exclusive) => true,
            Some(Mode::Shared) => matches!(need.mode, Mode::Shared),
        }
    }

    /// A line has the mode that is needed, or still the stronger one that it has.
    pub fn add(&mut self, need: Need)
        requires { need.line < storage_lines }
        ensures { (line : ℕ) → mode_in self.new line ≡ with_need need (mode_in self.old) line }
    {
        let line = need.line as usize;
        self.any.insert(line);
        match need.mode {
            Mode::Shared => {}
            Mode::Exclusive => self.exclusive.insert(line),
        }
    }

    /// The lines that ranges by absolute addresses need have the modes that these need, or still stronger ones.
    /// There are at most four ranges, each of at most 256 bytes of storage.
    #[inline(always)]
    pub fn add_all(&mut self, ranges: &Touches)
        requires small { All (λ r. r.length ≤ 256) ranges.now }
        requires in_storage { All (λ r. r.first + r.length ≤ storage_size) ranges.now }
        ensures { (line : ℕ) → mode_in self.new line ≡ with_needs (needs_of ranges.now) (mode_in self.old) line }
    {
        if ranges.count() == 0 {
            return;
        }
        match one_need(ranges) {
            Some(need) => self.add(need),
            None => self.add_each(ranges),
        }
    }

    /// The same, line by line.
    #[inline(never)]
    fn add_each(&mut self, ranges: &Touches)
        requires small { All (λ r. r.length ≤ 256) ranges.now }
        requires in_storage { All (λ r. r.first + r.length ≤ storage_size) ranges.now }
        ensures { (line : ℕ) → mode_in self.new line ≡ with_needs (needs_of ranges.now) (mode_in self.old) line }
    {
        let needed = lines_needed(ranges);
        let lines = needed.as_slice();
        for line in lines {
            self.add(need_for(ranges, *line));
        }
    }

    /// The lowest line that such ranges need and that is not there as they need it; None exactly where all are.
    #[inline(always)]
    pub fn missing(&self, ranges: &Touches) -> Option<u32>
        requires small { All (λ r. r.length ≤ 256) ranges.now }
        requires in_storage { All (λ r. r.first + r.length ≤ storage_size) ranges.now }
        ensures { result ≡ first_missing (needs_of ranges.now) (mode_in self.now) }
    {
        if ranges.count() == 0 {
            return None;
        }
        match one_need(ranges) {
            Some(need) => self.missing_one(need),
            None => self.missing_of(ranges),
        }
    }

    /// The line that is needed, where it is not there so.
    fn missing_one(&self, need: Need) -> Option<u32>
        requires { need.line < storage_lines }
        ensures { result ≡ first_missing (need ∷ []) (mode_in self.now) }
    {
        if self.is_there(need) {
            return None;
        }
        Some(need.line)
    }

    /// The lowest line that ranges need and that is not there as they need it, looked for line by line.
    #[inline(never)]
    fn missing_of(&self, ranges: &Touches) -> Option<u32>
        requires small { All (λ r. r.length ≤ 256) ranges.now }
        requires in_storage { All (λ r. r.first + r.length ≤ storage_size) ranges.now }
        ensures { result ≡ first_missing (needs_of ranges.now) (mode_in self.now) }
    {
        let needed = lines_needed(ranges);
        let lines = needed.as_slice();
        for line in lines {
            if !self.is_there(need_for(ranges, *line)) {
                return Some(*line);
            }
        }
        None
    }

    /// The lowest line from this one on that has a mode, and its mode; None exactly where there is none.
    pub fn next(&self, from: u32) -> Option<(u32, Mode)>
        ensures found { IfSome result (λ p. (from ≤ p.0) × (mode_in self.now p.0 ≡ Some p.1)) }
        ensures inside { IfSome result (λ p. p.0 < storage_lines) }
        ensures first { IfSome result (λ p. (line : ℕ) → from ≤ line → line < p.0 → mode_in self.now line ≡ None) }
        ensures none { result ≡ None → (line : ℕ) → from ≤ line → mode_in self.now line ≡ None }
    {
        let line = self.any.next(from as usize, LINES)?;
        let mode = if self.exclusive.has(line) {
            Mode::Exclusive
        } else {
            Mode::Shared
        };
        Some((line as u32, mode))
    }
}
