//! Storage, who holds its lines, and the copies of those lines.
ghost use Rattle.std.specs.Prelude.{◌≡◌, ◌≢◌, ℕ, ◌*◌, ◌<◌, ◌≤◌, [], None, Some, IfOk, IfSome, IfNone};
ghost use Rattle.std.specs.Prelude.{length, slice_index};
ghost use Rattle.z_regs.specs.Prefix.{storage_size};
ghost use Rattle.z_regs.specs.Written.{range_at};
ghost use Rattle.line_table.specs.Sizes.{storage_lines, held_limit};
ghost use Rattle.line_table.specs.Holders.{nobody, holding, against, lines_held, IsFirstHeld, IsSound};
ghost use Rattle.line_table.specs.declared.table.Mode.TheVariants.{Shared};
ghost use Rattle.l1_data.specs.Sizes.{line_size};
ghost use Rattle.line_copies.specs.Seen.{holders_in, copied};

use crate::directory::Directory;
use crate::parts::{copy_from_storage, write_back};
use l1_data::{L1, LINE_SIZE};
use line_table::Mode;
use std::alloc::Global;
use std::marker::Model;
use z_regs::{NoMemory, Storage};

/// The bytes of storage, which CPU holds which of its lines, and the copies that each CPU has of the lines
/// that it holds. A copy that is held exclusively may be newer than storage; contracts see storage with these
/// laid over it.
#[derive(Drop)]
pub struct CoherentLines {
    pub(crate) storage: Storage,
    pub(crate) table: Directory,
    pub(crate) copies: Vec<L1>,
}

impl Model for CoherentLines {
    ghost use Rattle.line_copies.specs.Seen.{Seen, IsKept, seen_bytes};

    ghost Value = { Seen };

    ghost view = { λ l. record {
      bytes = seen_bytes l.storage l.table l.copies.items;
      cpus = l.table.cpus;
      modes = l.table.modes;
    } };

    ghost invariant = { λ l. IsKept l.storage l.table l.copies.items };
}

impl CoherentLines {
    /// Storage that holds these bytes, which are 1,048,576, for CPUs 0 to `cpus` - 1, in which nobody holds a
    /// line or has a copy of one. The error is want of memory.
    pub fn open(alloc: Global, bytes: &[u8], cpus: u32) -> Result<CoherentLines, NoMemory>
        requires { length bytes.now ≡ storage_size }
        ensures bytes { IfOk result (λ lines. lines.bytes ≡ bytes.now) }
        ensures cpus { IfOk result (λ lines. lines.cpus ≡ cpus) }
        ensures nobody { IfOk result (λ lines. holders_in lines ≡ nobody) }
    {
        let storage = Storage::open(alloc, bytes)?;
        let table = Directory::open(alloc, cpus)?;
        let copies = no_copies(alloc, cpus)?;
        let _size = storage.as_slice();
        Ok(CoherentLines {
            storage,
            table,
            copies,
        })
    }

    /// How many bytes there are.
    pub fn size(&self) -> usize
        ensures value { result ≡ storage_size }
        ensures bytes { length self.now.bytes ≡ storage_size }
    {
        self.storage.as_slice().len()
    }

    /// The bytes of a line as they are seen: the copy of the CPU that holds it exclusively, else those of
    /// storage.
    #[inline(always)]
    pub fn line_at(&self, line: u32) -> &[u8]
        requires { line < storage_lines }
        ensures bytes { result.now ≡ range_at self.now.bytes (line * line_size) line_size }
        ensures size { length result.now ≡ line_size }
    {
        match self.table.exclusive_holder(line) {
            Some(holder) => self.copies[holder as usize].copy_of(line),
            None => {
                let first = line as usize * LINE_SIZE;
                &self.storage.as_slice()[first..first + LINE_SIZE]
            }
        }
    }

    /// The byte at an address.
    pub fn byte(&self, address: u32) -> u8
        requires { address < storage_size }
        ensures { result ≡ slice_index self.now.bytes address }
    {
        self.line_at(address / LINE_SIZE as u32)[address as usize % LINE_SIZE]
    }

    /// How the CPU holds the line; None exactly where it does not.
    pub fn mode_of(&self, cpu: u32, line: u32) -> Option<Mode>
        requires cpu { cpu < self.now.cpus }
        requires line { line < storage_lines }
        ensures value { result ≡ holders_in self.now cpu line }
        ensures sound { IsSound (holders_in self.now) }
    {
        self.table.mode_of(cpu, line)
    }

    /// How many lines the CPU holds, and has copies of.
    pub fn held(&self, cpu: u32) -> u32
        requires { cpu < self.now.cpus }
        ensures value { result ≡ lines_held (holders_in self.now) cpu }
        ensures within { result ≤ held_limit }
    {
        self.table.held(cpu)
    }

    /// The lowest CPU at or above `from` that holds the line.
    pub fn next_holder(&self, line: u32, from: u32) -> Option<u32>
        requires { line < storage_lines }
        ensures found { IfSome result (λ cpu. IsFirstHeld (λ c. holders_in self.now c line) from cpu) }
        ensures in_range { IfSome result (λ cpu. cpu < self.now.cpus) }
        ensures none { IfNone result ((cpu : ℕ) → from ≤ cpu → holders_in self.now cpu line ≡ None) }
    {
        self.table.next_holder(line, from)
    }

    /// The lowest line at or above `from` that the CPU holds.
    pub fn next_line(&self, cpu: u32, from: u32) -> Option<u32>
        requires { cpu < self.now.cpus }
        ensures found { IfSome result (λ line. IsFirstHeld (holders_in self.now cpu) from line) }
        ensures in_range { IfSome result (λ line. line < storage_lines) }
        ensures none { IfNone result ((line : ℕ) → from ≤ line → holders_in self.now cpu line ≡ None) }
    {
        self.table.next_line(cpu, from)
    }

    /// The CPU holds the line in shared mode from now on. What it has stored into its copy goes into storage.
    pub fn demote(&mut self, cpu: u32, line: u32)
        requires cpu { cpu < self.old.cpus }
        requires line { line < storage_lines }
        requires held { holders_in self.old cpu line ≢ None }
        ensures bytes { self.new.bytes ≡ self.old.bytes }
        ensures cpus { self.new.cpus ≡ self.old.cpus }
        ensures held { holders_in self.new ≡ holding (holders_in self.old) cpu line (Some Shared) }
    {
        write_back(&mut self.storage, &self.table, &self.copies, cpu, line);
        self.table.demote(cpu, line);
    }

    /// The CPU holds the line no longer, and its copy is gone. What it has stored into it goes into storage.
    pub fn give_up(&mut self, cpu: u32, line: u32)
        requires cpu { cpu < self.old.cpus }
        requires line { line < storage_lines }
        requires held { holders_in self.old cpu line ≢ None }
        ensures bytes { self.new.bytes ≡ self.old.bytes }
        ensures cpus { self.new.cpus ≡ self.old.cpus }
        ensures held { holders_in self.new ≡ holding (holders_in self.old) cpu line None }
    {
        write_back(&mut self.storage, &self.table, &self.copies, cpu, line);
        self.table.give_up(cpu, line);
        self.copies[cpu as usize].drop_line(line);
    }

    /// The CPU holds the line in this mode from now on. If it did not hold it, it gets a copy from storage.
    pub fn grant(&mut self, cpu: u32, line: u32, mode: Mode)
        requires cpu { cpu < self.old.cpus }
        requires line { line < storage_lines }
        requires free { against self.old.cpus (holders_in self.old) cpu line mode ≡ [] }
        requires room { holders_in self.old cpu line ≡ None
            → lines_held (holders_in self.old) cpu < held_limit }
        ensures bytes { self.new.bytes ≡ self.old.bytes }
        ensures cpus { self.new.cpus ≡ self.old.cpus }
        ensures held { holders_in self.new ≡ holding (holders_in self.old) cpu line (Some mode) }
    {
        write_back(&mut self.storage, &self.table, &self.copies, cpu, line);
        copy_from_storage(&self.storage, &mut self.copies[cpu as usize], line);
        self.table.grant(cpu, line, mode);
    }
}

/// A set of copies for each of so many CPUs, with no copy in it.
fn no_copies(alloc: Global, cpus: u32) -> Result<Vec<L1>, NoMemory>
    ensures size { IfOk result (λ copies. length copies.items ≡ cpus) }
    ensures none { IfOk result (λ copies. (cpu line : ℕ) → copied copies.items cpu line ≡ None) }
{
    let mut copies = Vec::new(alloc);
    for _ in 0..cpus {
        let l1 = L1::open(alloc)?;
        copies.push(l1)?;
    }
    Ok(copies)
}
