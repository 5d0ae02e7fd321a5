//! The lines that live attempts may have stored into. Only in these do bytes of storage change.
ghost use Rattle.std.specs.Prelude.{◌≡◌, ℕ, ◌+◌, ◌≤◌, ◌&&◌, All, IfOk, [], true, slice_get, length};
ghost use Rattle.z_regs.specs.Prefix.{storage_size};
ghost use Rattle.tx_footprint.specs.Places.{has_place, stores};
ghost use Rattle.step_changes.specs.Due.{due_lines, goes_on, is_due};
ghost use Rattle.step_changes.specs.Stored.{has, completed_in, completed_of, may_be_live, in_span, in_spans};

use crate::seen::CpuSight;
use crate::shows::Shows;
use std::alloc::{AllocError, Global};
use std::marker::Model;
use z_regs::{Range, Touches};

/// The bytes of a line.
const LINE: u64 = 256;

/// A line that the live attempt of a CPU may have stored into.
#[derive(Clone, Copy)]
pub struct StoredLine {
    /// The CPU.
    pub cpu: u32,
    /// The line.
    pub line: u32,
}

/// What an event asks for.
#[derive(Drop)]
pub struct Asked {
    /// Its CPU.
    pub cpu: u32,
    /// The ranges of storage that a turn of the CPU has to fetch or store then.
    pub touches: Touches,
}

/// Lines that live attempts may have stored into. Contracts see their list.
#[derive(Drop)]
pub struct StoredLines {
    lines: Vec<StoredLine>,
}

impl Model for StoredLines {
    ghost use Rattle.std.specs.Prelude.{List};
    ghost use Rattle.step_changes.specs.declared.stored.StoredLine.{StoredLine};

    ghost Value = { List StoredLine };

    ghost view = { λ s. s.lines.items };
}

/// How many instructions an attempt has completed; 0 where none is live.
fn completed(live: Option<(u32, u32)>) -> u32
    ensures { result ≡ completed_in live }
{
    match live {
        None => 0,
        Some(levels) => levels.1,
    }
}

/// The same of a CPU that was seen; 0 where there is no such CPU.
fn completed_before(cpus: &[CpuSight], cpu: u32) -> u32
    ensures { result ≡ completed_of (slice_get cpus.now cpu) }
{
    match cpus.get(cpu as usize) {
        None => 0,
        Some(sight) => completed(sight.live()),
    }
}

/// Whether a CPU may have a live attempt: it was seen with one, or it was not seen at all.
fn may_be_live(cpus: &[CpuSight], cpu: u32) -> bool
    ensures { result ≡ may_be_live cpus.now cpu }
{
    match cpus.get(cpu as usize) {
        None => true,
        Some(sight) => completed(sight.live()) > 0,
    }
}

/// Whether a line is between the first and the last of those that a range stores into.
fn in_span(range: Range, line: u32) -> bool
    ensures { result ≡ in_span range line }
{
    let first = range.first / LINE;
    let lines = (range.first % LINE + u64::from(range.length) + 255) / LINE;
    let line = u64::from(line);
    range.store && first <= line && line < first + lines
}

/// The same of some ranges.
fn in_spans(touches: &Touches, line: u32) -> bool
    ensures { result ≡ in_spans touches.now line }
{
    for i in 0..touches.count() {
        if in_span(touches.at(i), line) {
            return true;
        }
    }
    false
}

/// Whether the attempt of a CPU goes on: it was seen live, and is live now.
fn goes_on<S: Shows>(cpus: &[CpuSight], machine: &S, cpu: u32) -> bool
    requires { length cpus.now ≡ (S.shown machine.now).count }
    ensures { result ≡ goes_on cpus.now (S.shown machine.now) cpu }
{
    completed_before(cpus, cpu) > 0 && completed(machine.live(cpu)) > 0
}

/// Whether a line may have changed in an event, since the CPUs were seen so.
fn is_due<S: Shows>(cpus: &[CpuSight], machine: &S, asked: &Asked, line: &StoredLine) -> bool
    requires { length cpus.now ≡ (S.shown machine.now).count }
    ensures { result ≡ is_due cpus.now (S.shown machine.now) asked.now line.now }
{
    (line.cpu == asked.cpu && in_spans(&asked.touches, line.line))
        || !goes_on(cpus, machine, line.cpu)
}

impl StoredLines {
    /// None.
    pub fn none(alloc: Global) -> StoredLines
        ensures { result ≡ [] }
    {
        StoredLines {
            lines: Vec::new(alloc),
        }
    }

    /// Whether a line is among those of a CPU.
    fn has(&self, cpu: u32, line: u32) -> bool
        ensures { result ≡ has self.now cpu line }
    {
        self.lines.iter().any(|l| l.cpu == cpu && l.line == line)
    }

    /// One line more, where it is not there. The error is want of memory.
    fn add(&mut self, cpu: u32, line: u32) -> Result<(), AllocError>
        ensures there { IfOk result (λ _. has self.new cpu line ≡ true) }
        ensures others { IfOk result (λ _. (i n : ℕ) → has self.old i n ≡ true → has self.new i n ≡ true) }
    {
        if self.has(cpu, line) {
            return Ok(());
        }
        self.lines.push(StoredLine { cpu, line })?;
        Ok(())
    }

    /// The lines that a CPU stores into by a range. The error is want of memory.
    fn add_range(&mut self, cpu: u32, range: Range) -> Result<(), AllocError>
        requires { range.first + range.length ≤ storage_size }
        ensures there { IfOk result (λ _. (n : ℕ) → (range.store && has_place 256 range n) ≡ true
            → has self.new cpu n ≡ true) }
        ensures others { IfOk result (λ _. (i n : ℕ) → has self.old i n ≡ true → has self.new i n ≡ true) }
    {
        if !range.store {
            return Ok(());
        }
        let first = (range.first / LINE) as u32;
        let end = ((range.first + u64::from(range.length) + 255) / LINE) as u32;
        for line in first..end {
            self.add(cpu, line)?;
        }
        Ok(())
    }

    /// The lines that a CPU stores into by ranges of storage. The error is want of memory.
    pub fn add_touches(&mut self, cpu: u32, touches: &Touches) -> Result<(), AllocError>
        requires { All (λ r. r.first + r.length ≤ storage_size) touches.now }
        ensures there { IfOk result (λ _. (n : ℕ) → stores touches.now n ≡ true → has self.new cpu n ≡ true) }
        ensures others { IfOk result (λ _. (i n : ℕ) → has self.old i n ≡ true → has self.new i n ≡ true) }
    {
        for i in 0..touches.count() {
            self.add_range(cpu, touches.at(i))?;
        }
        Ok(())
    }

    /// Only lines of CPUs that may have live attempts are kept.
    pub fn keep_live(&mut self, cpus: &[CpuSight])
        ensures { (i n : ℕ) → may_be_live cpus.now i ≡ true → has self.old i n ≡ true → has self.new i n ≡ true }
    {
        self.lines.retain(|l| may_be_live(cpus, l.cpu));
    }

    /// The lines that may have changed in an event, since the CPUs were seen so. The error is want of memory.
    pub fn changed<S: Shows>(
        &self,
        alloc: Global,
        machine: &S,
        cpus: &[CpuSight],
        asked: &Asked,
    ) -> Result<Vec<u32>, AllocError>
        requires { length cpus.now ≡ (S.shown machine.now).count }
        ensures { IfOk result (λ lines. lines.items ≡ due_lines cpus.now (S.shown machine.now) asked.now self.now) }
    {
        self.lines
            .iter()
            .filter(|l| is_due(cpus, machine, asked, l))
            .map(|l| l.line)
            .collect(alloc)
    }
}
