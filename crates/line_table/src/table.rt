//! The table of lines and their holders.
ghost use Rattle.std.specs.Prelude.{◌≡◌, ◌≢◌, ℕ, ◌<◌, ◌≤◌, true, [], Some, None, IfOk, IfSome, IfNone};
ghost use Rattle.line_table.specs.Holders.{Holdings, nobody, holding, lines_held, against, IsSound};
ghost use Rattle.line_table.specs.Holders.{IsFirstHeld, mode_in};
ghost use Rattle.line_table.specs.Rows.{mode_from};

use bit_set::BitSet;
use std::alloc::Global;
use std::marker::Model;
use z_regs::NoMemory;

/// The lines of storage, of 256 bytes each.
pub const LINES: usize = 4096;

/// How many lines a CPU may hold.
pub const MOST_HELD: u32 = 384;

/// How a CPU holds a line.
#[derive(Clone, Copy, Debug, PartialEq, Eq)]
pub enum Mode {
    /// To fetch from it; others may hold it so too.
    Shared,
    /// To store into it; nobody else holds it.
    Exclusive,
}

/// Which CPU holds which line, and how. An exclusive holder of a line is its only holder, and no CPU
/// holds more than `MOST_HELD` lines.
#[derive(Drop)]
pub struct LineTable {
    width: usize,
    held: BitSet,
    holders: BitSet,
    exclusive: BitSet,
    counts: Vec<u32>,
}

impl Model for LineTable {
    ghost use Rattle.std.specs.Prelude.{vec_len};
    ghost use Rattle.line_table.specs.Holders.{Holdings};
    ghost use Rattle.line_table.specs.Rows.{IsKept, modes_of};

    ghost Value = { Holdings };

    ghost view = { λ t. let cpus = vec_len t.counts in
        record { cpus = cpus; modes = modes_of cpus t.held t.exclusive } };

    ghost invariant = { λ t. IsKept t.width t.held t.holders t.exclusive t.counts.items };
}

impl LineTable {
    /// A table for CPUs 0 to `cpus` - 1, in which nobody holds anything.
    pub fn open(alloc: Global, cpus: u32) -> Result<LineTable, NoMemory>
        ensures cpus { IfOk result (λ table. table.cpus ≡ cpus) }
        ensures empty { IfOk result (λ table. mode_in table ≡ nobody) }
    {
        let words = (cpus as usize).div_ceil(64);
        let held = BitSet::open(alloc, LINES / 64 * cpus as usize)?;
        let holders = BitSet::open(alloc, LINES * words)?;
        let exclusive = BitSet::open(alloc, LINES / 64)?;
        let counts = vec![in alloc; 0; cpus as usize]?;
        Ok(LineTable {
            width: words * 64,
            held,
            holders,
            exclusive,
            counts,
        })
    }

    /// How the CPU holds the line; None exactly where it does not.
    pub fn mode_of(&self, cpu: u32, line: u32) -> Option<Mode>
        requires cpu { cpu < self.now.cpus }
        requires line { line < LINES }
        ensures value { result ≡ mode_in self.now cpu line }
        ensures sound { IsSound (mode_in self.now) }
    {
        if !self.held.has(cpu as usize * LINES + line as usize) {
            return None;
        }
        if self.exclusive.has(line as usize) {
            Some(Mode::Exclusive)
        } else {
            Some(Mode::Shared)
        }
    }

    /// How many lines the CPU holds.
    pub fn held(&self, cpu: u32) -> u32
        requires { cpu < self.now.cpus }
        ensures value { result ≡ lines_held (mode_in self.now) cpu }
        ensures within { result ≤ MOST_HELD }
    {
        self.counts[cpu as usize]
    }

    /// The lowest CPU at or above `from` that holds the line.
    pub fn next_holder(&self, line: u32, from: u32) -> Option<u32>
        requires { line < LINES }
        ensures found { IfSome result (λ cpu. IsFirstHeld (λ c. mode_in self.now c line) from cpu) }
        ensures in_range { IfSome result (λ cpu. cpu < self.now.cpus) }
        ensures none { IfNone result ((cpu : ℕ) → from ≤ cpu → mode_in self.now cpu line ≡ None) }
    {
        let row = line as usize * self.width;
        let place = self
            .holders
            .next(row + from as usize, row + self.counts.len())?;
        Some((place - row) as u32)
    }

    /// The lowest line at or above `from` that the CPU holds.
    pub fn next_line(&self, cpu: u32, from: u32) -> Option<u32>
        requires { cpu < self.now.cpus }
        ensures found { IfSome result (λ line. IsFirstHeld (mode_in self.now cpu) from line) }
        ensures in_range { IfSome result (λ line. line < LINES) }
        ensures none { IfNone result ((line : ℕ) → from ≤ line → mode_in self.now cpu line ≡ None) }
    {
        let row = cpu as usize * LINES;
        let place = self.held.next(row + from as usize, row + LINES)?;
        Some((place - row) as u32)
    }

    /// The CPU holds the line in this mode from now on.
    pub fn grant(&mut self, cpu: u32, line: u32, mode: Mode)
        requires cpu { cpu < self.old.cpus }
        requires line { line < LINES }
        requires free { against self.old.cpus (mode_in self.old) cpu line mode ≡ [] }
        requires room { mode_in self.old cpu line ≡ None → lines_held (mode_in self.old) cpu < MOST_HELD }
        ensures cpus { self.new.cpus ≡ self.old.cpus }
        ensures held { mode_in self.new ≡ holding (mode_in self.old) cpu line (Some mode) }
    {
        let place = cpu as usize * LINES + line as usize;
        let more = u32::from(!self.held.has(place));
        self.held.insert(place);
        self.holders
            .insert(line as usize * self.width + cpu as usize);
        self.exclusive.put(line as usize, is_exclusive(mode));
        self.counts[cpu as usize] += more;
    }

    /// The CPU holds the line no longer.
    pub fn give_up(&mut self, cpu: u32, line: u32)
        requires cpu { cpu < self.old.cpus }
        requires line { line < LINES }
        requires held { mode_in self.old cpu line ≢ None }
        ensures cpus { self.new.cpus ≡ self.old.cpus }
        ensures held { mode_in self.new ≡ holding (mode_in self.old) cpu line None }
    {
        self.held.remove(cpu as usize * LINES + line as usize);
        self.holders
            .remove(line as usize * self.width + cpu as usize);
        self.exclusive.remove(line as usize);
        self.counts[cpu as usize] -= 1;
    }

    /// The CPU holds the line in shared mode from now on.
    pub fn demote(&mut self, cpu: u32, line: u32)
        requires cpu { cpu < self.old.cpus }
        requires line { line < LINES }
        requires held { mode_in self.old cpu line ≢ None }
        ensures cpus { self.new.cpus ≡ self.old.cpus }
        ensures held { mode_in self.new ≡ holding (mode_in self.old) cpu line (Some Mode.Shared) }
    {
        self.exclusive.remove(line as usize);
    }
}

/// Whether the mode is exclusive.
fn is_exclusive(mode: Mode) -> bool
    ensures { mode_from true result ≡ Some mode }
{
    match mode {
        Mode::Shared => false,
        Mode::Exclusive => true,
    }
}
