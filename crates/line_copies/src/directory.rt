//! Who holds which line, with each line's exclusive holder at hand.
ghost use Rattle.std.specs.Prelude.{◌≡◌, ◌≢◌, ℕ, ◌^◌, ◌<◌, ◌≤◌, [], None, Some, IfOk, IfSome, IfNone};
ghost use Rattle.line_table.specs.Sizes.{storage_lines, held_limit};
ghost use Rattle.line_table.specs.Holders.{nobody, holding, against, lines_held, mode_in, IsFirstHeld, IsSound};
ghost use Rattle.line_table.specs.declared.table.Mode.TheVariants.{Shared};
ghost use Rattle.line_copies.specs.Coherence.{exclusive_holder};
ghost use Rattle.line_copies.specs.Directory.{number_of};

use line_table::{LINES, LineTable, Mode};
use std::alloc::Global;
use std::marker::Model;
use z_regs::NoMemory;

/// The table of holders, and for each line the number of the CPU that holds it exclusively, counted from 1, or 0
/// where none does. Contracts see the table.
#[derive(Drop)]
pub(crate) struct Directory {
    table: LineTable,
    exclusive: Vec<u32>,
}

impl Model for Directory {
    ghost use Rattle.line_table.specs.Holders.{Holdings};
    ghost use Rattle.line_copies.specs.Directory.{AreExclusive};

    ghost Value = { Holdings };

    ghost view = { λ d. d.table };

    ghost invariant = { λ d. AreExclusive d.table d.exclusive.items };
}

impl Directory {
    /// A table for CPUs 0 to `cpus` - 1, in which nobody holds a line.
    pub(crate) fn open(alloc: Global, cpus: u32) -> Result<Directory, NoMemory>
        ensures cpus { IfOk result (λ d. d.cpus ≡ cpus) }
        ensures empty { IfOk result (λ d. mode_in d ≡ nobody) }
    {
        let table = LineTable::open(alloc, cpus)?;
        let exclusive = vec![in alloc; 0; LINES]?;
        Ok(Directory { table, exclusive })
    }

    /// The CPU that holds a line exclusively.
    #[inline(always)]
    pub(crate) fn exclusive_holder(&self, line: u32) -> Option<u32>
        requires { line < storage_lines }
        ensures { result ≡ exclusive_holder self.now.cpus (λ cpu. mode_in self.now cpu line) }
    {
        match self.exclusive[line as usize] {
            0 => None,
            number => Some(number - 1),
        }
    }

    /// How the CPU holds the line; None exactly where it does not.
    pub(crate) fn mode_of(&self, cpu: u32, line: u32) -> Option<Mode>
        requires cpu { cpu < self.now.cpus }
        requires line { line < storage_lines }
        ensures value { result ≡ mode_in self.now cpu line }
        ensures sound { IsSound (mode_in self.now) }
    {
        self.table.mode_of(cpu, line)
    }

    /// How many lines the CPU holds.
    pub(crate) fn held(&self, cpu: u32) -> u32
        requires { cpu < self.now.cpus }
        ensures value { result ≡ lines_held (mode_in self.now) cpu }
        ensures within { result ≤ held_limit }
    {
        self.table.held(cpu)
    }

    /// The lowest CPU at or above `from` that holds the line.
    pub(crate) fn next_holder(&self, line: u32, from: u32) -> Option<u32>
        requires { line < storage_lines }
        ensures found { IfSome result (λ cpu. IsFirstHeld (λ c. mode_in self.now c line) from cpu) }
        ensures in_range { IfSome result (λ cpu. cpu < self.now.cpus) }
        ensures none { IfNone result ((cpu : ℕ) → from ≤ cpu → mode_in self.now cpu line ≡ None) }
    {
        self.table.next_holder(line, from)
    }

    /// The lowest line at or above `from` that the CPU holds.
    pub(crate) fn next_line(&self, cpu: u32, from: u32) -> Option<u32>
        requires { cpu < self.now.cpus }
        ensures found { IfSome result (λ line. IsFirstHeld (mode_in self.now cpu) from line) }
        ensures in_range { IfSome result (λ line. line < storage_lines) }
        ensures none { IfNone result ((line : ℕ) → from ≤ line → mode_in self.now cpu line ≡ None) }
    {
        self.table.next_line(cpu, from)
    }

    /// The CPU holds the line in shared mode from now on.
    pub(crate) fn demote(&mut self, cpu: u32, line: u32)
        requires cpu { cpu < self.old.cpus }
        requires line { line < storage_lines }
        requires held { mode_in self.old cpu line ≢ None }
        ensures cpus { self.new.cpus ≡ self.old.cpus }
        ensures held { mode_in self.new ≡ holding (mode_in self.old) cpu line (Some Shared) }
    {
        self.table.demote(cpu, line);
        self.exclusive[line as usize] = find_exclusive(&self.table, line);
    }

    /// The CPU holds the line no longer.
    pub(crate) fn give_up(&mut self, cpu: u32, line: u32)
        requires cpu { cpu < self.old.cpus }
        requires line { line < storage_lines }
        requires held { mode_in self.old cpu line ≢ None }
        ensures cpus { self.new.cpus ≡ self.old.cpus }
        ensures held { mode_in self.new ≡ holding (mode_in self.old) cpu line None }
    {
        self.table.give_up(cpu, line);
        self.exclusive[line as usize] = find_exclusive(&self.table, line);
    }

    /// The CPU holds the line in this mode from now on.
    pub(crate) fn grant(&mut self, cpu: u32, line: u32, mode: Mode)
        requires cpu { cpu < self.old.cpus }
        requires line { line < storage_lines }
        requires free { against self.old.cpus (mode_in self.old) cpu line mode ≡ [] }
        requires room { mode_in self.old cpu line ≡ None → lines_held (mode_in self.old) cpu < held_limit }
        ensures cpus { self.new.cpus ≡ self.old.cpus }
        ensures held { mode_in self.new ≡ holding (mode_in self.old) cpu line (Some mode) }
    {
        self.table.grant(cpu, line, mode);
        self.exclusive[line as usize] = find_exclusive(&self.table, line);
    }
}

/// The number of the CPU that holds a line exclusively, counted from 1, looked for among its holders; 0 where none
/// does.
fn find_exclusive(table: &LineTable, line: u32) -> u32
    requires few { table.now.cpus < 2 ^ 32 }
    requires line { line < storage_lines }
    ensures { result ≡ number_of (exclusive_holder table.now.cpus (λ cpu. mode_in table.now cpu line)) }
{
    let Some(holder) = table.next_holder(line, 0) else {
        return 0;
    };
    match table.mode_of(holder, line) {
        Some(Mode::Exclusive) => holder + 1,
        Some(Mode::Shared) => 0,
        None => 0,
    }
}
