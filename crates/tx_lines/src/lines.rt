//! Storage, and who holds its lines.
ghost use Rattle.std.specs.Prelude.{◌≡◌, ◌≢◌, ℕ, ◌<◌, ◌≤◌, [], Some, None, IfOk, IfSome, IfNone, length, slice_index};
ghost use Rattle.std.specs.Prelude.{false, true, is_some, slice_get, not, ◌==◌, ◌&&◌, ◌+◌, ◌^◌};
ghost use Rattle.z_regs.specs.Prefix.{storage_size};
ghost use Rattle.line_table.specs.Sizes.{storage_lines};
ghost use Rattle.line_table.specs.Holders.{nobody, holding, against, is_against, lines_held, IsSound};
ghost use Rattle.tx_footprint.specs.Touched.{sets_of};
ghost use Rattle.tx_meaning.specs.Asking.{is_there};
ghost use Rattle.tx_meaning.specs.Changes.{left_to, granting, spare_line, is_spare, has_room, giving_up};
ghost use Rattle.tx_run.specs.Local.{aborted, block_stored, interruption_taken};
ghost use Rattle.tx_run.specs.Doing.{executed};
ghost use Rattle.tx_run.specs.Progress.{is_live};
ghost use Rattle.tx_run.specs.Parts.{local_of};
ghost use Rattle.tx_run.specs.Going.{GoesThere, told_or};
ghost use Rattle.tx_run.specs.Shapes.{touched_by};
ghost use Rattle.tx_run.specs.Plans.{HasRoom, HasDoneRoom, IsPrepared};
ghost use Rattle.tx_lines.specs.Owned.{Owned, holders_in, with_lines};
ghost use Rattle.tx_lines.specs.Spare.{is_unused, lowest_spare, granted};
ghost use Rattle.tx_lines.specs.Next.{next_against, stands_against};

use crate::windows::{
    abort_in, execute_in, execute_plainly_in, execute_there_in, store_block_in, take_in,
};
use line_copies::{CoherentLines, Handback};
use line_table::{MOST_HELD, Mode};
use std::alloc::Global;
use std::marker::{Brand, Model};
use tx_control::Why;
use tx_footprint::Footprint;
use tx_meaning::Need;
use tx_run::{Cpu, Done, Plain};
use z_instr::instr::Instr;
use z_regs::{NoMemory, Touches};

/// The bytes of storage, which CPU holds which of its lines, and the copies that CPUs have of those. The bytes are
/// as they are seen, the copies that are held exclusively laid over storage.
#[derive(Drop)]
pub struct Lines {
    pub(crate) lines: CoherentLines,
}

impl Model for Lines {
    ghost use Rattle.std.specs.Prelude.{◌≤◌};
    ghost use Rattle.tx_lines.specs.Owned.{Owned};

    ghost Value = { Owned };

    ghost view = { λ l. record { bytes = l.lines.bytes; cpus = l.lines.cpus; modes = l.lines.modes } };

    ghost invariant = { λ l. l.lines.cpus ≤ 16 };
}

impl Lines {
    /// Storage that holds these bytes, which are 1,048,576, for CPUs 0 to `cpus` - 1, at most sixteen, in which
    /// nobody holds a line. The error is want of memory.
    pub fn open(alloc: Global, bytes: &[u8], cpus: u32) -> Result<Lines, NoMemory>
        requires size { length bytes.now ≡ storage_size }
        requires few { cpus ≤ 16 }
        ensures bytes { IfOk result (λ lines. lines.bytes ≡ bytes.now) }
        ensures cpus { IfOk result (λ lines. lines.cpus ≡ cpus) }
        ensures nobody { IfOk result (λ lines. holders_in lines ≡ nobody) }
    {
        let lines = CoherentLines::open(alloc, bytes, cpus)?;
        Ok(Lines { lines })
    }

    /// The byte at an address.
    pub fn byte(&self, address: u32) -> u8
        requires { address < storage_size }
        ensures { result ≡ slice_index self.now.bytes address }
    {
        self.lines.byte(address)
    }

    /// How the CPU holds the line; None exactly where it does not.
    pub fn mode_of(&self, cpu: u32, line: u32) -> Option<Mode>
        requires cpu { cpu < self.now.cpus }
        requires line { line < storage_lines }
        ensures { result ≡ holders_in self.now cpu line }
    {
        self.lines.mode_of(cpu, line)
    }

    /// Whether the CPU holds a line as it needs it: in that mode, or exclusively.
    pub fn is_there(&self, cpu: u32, need: Need) -> bool
        requires cpu { cpu < self.now.cpus }
        requires line { need.line < storage_lines }
        ensures value { result ≡ is_there need.mode (holders_in self.now cpu need.line) }
        ensures sound { IsSound (holders_in self.now) }
    {
        match self.lines.mode_of(cpu, need.line) {
            None => false,
            Some(Mode::Exclusive) => true,
            Some(Mode::Shared) => matches!(need.mode, Mode::Shared),
        }
    }

    /// A holder yields a line: for a shared request it keeps it in shared mode, for an exclusive one it
    /// gives it up. It must hold the line.
    pub fn yield_line(&mut self, holder: u32, line: u32, wanted: Mode)
        requires cpu { holder < self.old.cpus }
        requires line { line < storage_lines }
        requires held { holders_in self.old holder line ≢ None }
        ensures bytes { self.new.bytes ≡ self.old.bytes }
        ensures cpus { self.new.cpus ≡ self.old.cpus }
        ensures held { holders_in self.new ≡ holding (holders_in self.old) holder line (left_to wanted) }
    {
        match wanted {
            Mode::Shared => self.lines.demote(holder, line),
            Mode::Exclusive => self.lines.give_up(holder, line),
        }
    }

    /// Whether a holder of a line stands against a CPU's request for it: any other one against an exclusive
    /// request, only an exclusive one against a shared request.
    fn stands_against(&self, holder: u32, cpu: u32, need: Need) -> bool
        requires cpu { holder < self.now.cpus }
        requires line { need.line < storage_lines }
        requires held { is_some (holders_in self.now holder need.line) ≡ true }
        ensures { result ≡ stands_against (holders_in self.now) cpu need.line need.mode holder }
    {
        if holder == cpu {
            return false;
        }
        match need.mode {
            Mode::Exclusive => true,
            Mode::Shared => matches!(self.lines.mode_of(holder, need.line), Some(Mode::Exclusive)),
        }
    }

    /// The lowest CPU at or above `from` whose hold stands against a CPU's request for a line; None exactly
    /// where there is none.
    #[inline(always)]
    pub fn next_against(&self, cpu: u32, need: Need, from: u32) -> Option<u32>
        requires line { need.line < storage_lines }
        requires from { from ≤ self.now.cpus }
        ensures { result ≡ next_against self.now.cpus (holders_in self.now) cpu need.line need.mode from }
    {
        let mut at = from;
        while let Some(other) = self.lines.next_holder(need.line, at) {
            if self.stands_against(other, cpu, need) {
                return Some(other);
            }
            at = other + 1;
        }
        None
    }

    /// Whether a CPU may give a line up that it holds: its attempt has not touched it, and this turn does not
    /// need it.
    fn is_free(&self, line: u32, footprint: &Footprint, needed: &[u32]) -> bool
        requires { line < storage_lines }
        ensures { result ≡ is_unused (sets_of footprint.now) needed.now line }
    {
        if footprint.fetched(line) || footprint.stored(line) {
            return false;
        }
        !needed.contains(&line)
    }

    /// The lowest line that the CPU holds and may give up: neither its attempt nor this turn needs it. None
    /// exactly where there is none.
    pub fn spare(&self, cpu: u32, footprint: &Footprint, needed: &[u32]) -> Option<u32>
        requires { cpu < self.now.cpus }
        ensures value { result ≡ lowest_spare (holders_in self.now) cpu (sets_of footprint.now) needed.now }
        ensures in_range { IfSome result (λ line. line < storage_lines) }
        ensures held { IfSome result (λ line. is_some (holders_in self.now cpu line) ≡ true) }
    {
        let mut at = 0;
        while let Some(line) = self.lines.next_line(cpu, at) {
            if self.is_free(line, footprint, needed) {
                return Some(line);
            }
            at = line + 1;
        }
        None
    }

    /// The CPU holds the line from now on as it needs it. Nobody else may stand against that. Where it holds as
    /// many lines as it may, it gives up the lowest that neither its attempt nor this turn needs, which there
    /// must be.
    pub fn grant(&mut self, cpu: u32, need: Need, footprint: &Footprint, needed: &[u32])
        requires cpu { cpu < self.old.cpus }
        requires line { need.line < storage_lines }
        requires free { against self.old.cpus (holders_in self.old) cpu need.line need.mode ≡ [] }
        requires spare { has_room (holders_in self.old) cpu need.line ≡ false
            → is_some (lowest_spare (holders_in self.old) cpu (sets_of footprint.now) needed.now) ≡ true }
        ensures bytes { self.new.bytes ≡ self.old.bytes }
        ensures cpus { self.new.cpus ≡ self.old.cpus }
        ensures held { holders_in self.new ≡ granted cpu (sets_of footprint.now) needed.now need (holders_in self.old) }
    {
        if self.has_room(cpu, need.line) {
            self.lines.grant(cpu, need.line, need.mode);
            return;
        }
        if let Some(line) = self.spare(cpu, footprint, needed) {
            self.lines.give_up(cpu, line);
            self.lines.grant(cpu, need.line, need.mode);
        }
    }

    /// Whether the CPU may hold the line, as far as numbers say.
    fn has_room(&self, cpu: u32, line: u32) -> bool
        requires cpu { cpu < self.now.cpus }
        requires line { line < storage_lines }
        ensures value { result ≡ has_room (holders_in self.now) cpu line }
        ensures sound { IsSound (holders_in self.now) }
    {
        self.lines.mode_of(cpu, line).is_some() || self.lines.held(cpu) < MOST_HELD
    }

    /// Executes an instruction that the CPU has found to go, with its operands, and tells what came of it. Where
    /// it ends its transaction by a cause, nothing is aborted yet.
    #[inline(always)]
    pub fn execute(&mut self, number: u32, cpu: &mut Cpu, instr: &Instr, need: &Touches) -> Done
        requires number { number < self.old.cpus }
        requires prepared { IsPrepared (local_of cpu.old).attempt instr.now need.now }
        requires count { (local_of cpu.old).attempt.count + 1 < 2 ^ 32 }
        ensures value { record { after = with_lines cpu.new self.new; told = result } ≡
            executed instr.now need.now (with_lines cpu.old self.old) }
        ensures code { HasDoneRoom result }
        ensures cpus { self.new.cpus ≡ self.old.cpus }
        ensures held { holders_in self.new ≡ holders_in self.old }
    {
        let Handback { value, .. } = execute_in::<Brand>(&mut self.lines, number, cpu, instr, need);
        value
    }

    /// Executes a plain instruction as `execute` does, where an attempt of the CPU is known to be live. True where it is simply
    /// completed; else `aside` has what it tells.
    #[inline(always)]
    pub fn execute_plainly(
        &mut self,
        number: u32,
        cpu: &mut Cpu,
        plain: &Plain,
        aside: &mut Done,
    ) -> bool
        requires number { number < self.old.cpus }
        requires live { is_live (local_of cpu.old).attempt ≡ true }
        requires prepared { IsPrepared (local_of cpu.old).attempt plain.now.ready.now.instr
            (touched_by plain.now.ready.now.shape.touch plain.now.first plain.now.ready.now.shape.size) }
        requires count { (local_of cpu.old).attempt.count + 1 < 2 ^ 32 }
        ensures value { record { after = with_lines cpu.new self.new; told = told_or result aside.new } ≡
            executed plain.now.ready.now.instr
            (touched_by plain.now.ready.now.shape.touch plain.now.first plain.now.ready.now.shape.size)
            (with_lines cpu.old self.old) }
        ensures code { HasDoneRoom (told_or result aside.new) }
        ensures cpus { self.new.cpus ≡ self.old.cpus }
        ensures held { holders_in self.new ≡ holders_in self.old }
    {
        let Handback { value, .. } = execute_plainly_in::<Brand>(
            &mut self.lines,
            number,
            cpu,
            plain,
            aside,
        );
        value
    }

    /// Executes a plain instruction as `execute` does, on storage as it is, for a CPU without a prefix: one that is not about
    /// transactions, and of which an attempt, where one is live, sees the operand there and stores nothing into it. True where
    /// it is simply completed; else `aside` has what it tells.
    #[inline(always)]
    pub fn execute_there(
        &mut self,
        number: u32,
        cpu: &mut Cpu,
        plain: &Plain,
        aside: &mut Done,
    ) -> bool
        requires number { number < self.old.cpus }
        requires prepared { IsPrepared (local_of cpu.old).attempt plain.now.ready.now.instr
            (touched_by plain.now.ready.now.shape.touch plain.now.first plain.now.ready.now.shape.size) }
        requires there { GoesThere (local_of cpu.old).attempt plain.now.ready.now.instr
            (touched_by plain.now.ready.now.shape.touch plain.now.first plain.now.ready.now.shape.size) }
        requires count { (local_of cpu.old).attempt.count + 1 < 2 ^ 32 }
        ensures value { record { after = with_lines cpu.new self.new; told = told_or result aside.new } ≡
            executed plain.now.ready.now.instr
            (touched_by plain.now.ready.now.shape.touch plain.now.first plain.now.ready.now.shape.size)
            (with_lines cpu.old self.old) }
        ensures code { HasDoneRoom (told_or result aside.new) }
        ensures cpus { self.new.cpus ≡ self.old.cpus }
        ensures held { holders_in self.new ≡ holders_in self.old }
    {
        let Handback { value, .. } = execute_there_in::<Brand>(
            &mut self.lines,
            number,
            cpu,
            plain,
            aside,
        );
        value
    }

    /// Aborts the live attempt of a CPU by this cause; `at` is the address that the diagnostic block tells. What
    /// NTSTG stored goes into storage. Gives how many instructions the attempt had completed.
    pub fn abort(&mut self, number: u32, cpu: &mut Cpu, why: Why, at: u64) -> u32
        requires number { number < self.old.cpus }
        requires live { is_live (local_of cpu.old).attempt ≡ true }
        requires code { HasRoom why }
        ensures count { result ≡ (local_of cpu.old).attempt.count }
        ensures value { with_lines cpu.new self.new ≡ aborted why at (with_lines cpu.old self.old) }
        ensures cpus { self.new.cpus ≡ self.old.cpus }
        ensures held { holders_in self.new ≡ holders_in self.old }
    {
        let Handback { value, .. } = abort_in::<Brand>(&mut self.lines, number, cpu, why, at);
        value
    }

    /// Stores the block that is pending for a CPU; nothing is pending afterwards.
    pub fn store_block(&mut self, number: u32, cpu: &mut Cpu)
        requires number { number < self.old.cpus }
        ensures value { with_lines cpu.new self.new ≡ block_stored (with_lines cpu.old self.old) }
        ensures cpus { self.new.cpus ≡ self.old.cpus }
        ensures held { holders_in self.new ≡ holders_in self.old }
    {
        store_block_in::<Brand>(&mut self.lines, number, cpu);
    }

    /// A CPU without a live attempt takes the interruption that waits for it.
    pub fn take(&mut self, number: u32, cpu: &mut Cpu)
        requires number { number < self.old.cpus }
        requires rests { is_live (local_of cpu.old).attempt ≡ false }
        ensures value { with_lines cpu.new self.new ≡ interruption_taken (with_lines cpu.old self.old) }
        ensures cpus { self.new.cpus ≡ self.old.cpus }
        ensures held { holders_in self.new ≡ holders_in self.old }
    {
        take_in::<Brand>(&mut self.lines, number, cpu);
    }
}
