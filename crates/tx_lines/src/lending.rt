//! Lines that are lent with a CPU, and what a run has made of them.
ghost use Rattle.std.specs.Prelude.{◌≡◌, ◌≢◌, ℕ, ◌<◌, ◌/◌, length, true, List, None, IfSome};
ghost use Rattle.line_table.specs.Sizes.{storage_lines};
ghost use Rattle.z_regs.specs.Prefix.{storage_size};
ghost use Rattle.tx_run.specs.Progress.{seen_through};
ghost use Rattle.tx_run.specs.Parts.{local_of};
ghost use Rattle.tx_run.specs.Away.{GoAway, ran};
ghost use Rattle.tx_run.specs.Stranger.{GoesOnLike, SeeAlike};
ghost use Rattle.tx_run.specs.Own.{given, is_touched, line_bytes};
ghost use Rattle.tx_run.specs.Traces.{below, is_paged};
ghost use Rattle.tx_run.specs.Made.{AgreeOnPages};
ghost use Rattle.tx_run.specs.Marks.{mode_in};
ghost use Rattle.tx_lines.specs.Lent.{HasLines};
ghost use Rattle.tx_lines.specs.Owned.{holders_in, storage_in, with_lines};

use crate::lines::Lines;
use crate::windows::bring_in;
use std::marker::Brand;
use tx_meaning::Need;
use tx_run::{Cpu, Difference, Run};

impl Lines {
    /// The bytes of a line.
    fn line_at(&self, line: u32) -> &[u8]
        requires { line < storage_lines }
        ensures size { length result.now ≡ 256 }
        ensures bytes { (a : ℕ) → a / 256 ≡ line → line_bytes result.now a ≡ storage_in self.now a }
    {
        let _size = self.lines.size();
        self.lines.line_at(line)
    }

    /// Gives a run that has no line yet all lines that the CPU holds, in their modes, with their bytes; those of text pages stay
    /// the image's. The run has made no step.
    pub fn lend(&self, cpu: u32, run: &mut Run)
        requires cpu { cpu < self.now.cpus }
        requires none { run.old.made.steps ≡ 0 }
        requires empty { (line : ℕ) → mode_in run.old.held line ≡ None }
        ensures { HasLines (holders_in self.now cpu) (storage_in self.now) run.old run.new }
    {
        let mut from = 0;
        while let Some(line) = self.lines.next_line(cpu, from) {
            if let Some(mode) = self.lines.mode_of(cpu, line) {
                run.hold(Need { line, mode }, self.line_at(line));
            }
            from = line + 1;
        }
    }

    /// The lowest byte that a run has touched and that the CPU sees otherwise than the CPU that was lent has seen it before the
    /// first step; None exactly where it sees all of them alike.
    pub fn first_difference(&self, run: &Run, cpu: &Cpu) -> Option<Difference>
        ensures within { IfSome result (λ d. d.address < storage_size) }
        ensures touched { IfSome result (λ d. is_touched run.now.made.own d.address ≡ true) }
        ensures kept { IfSome result (λ d. d.kept ≡ seen_through (local_of cpu.now).attempt.overlay
            (storage_in self.now) d.address) }
        ensures given { IfSome result (λ d. d.given ≡ seen_through (local_of run.now.made.start).attempt.overlay
            (given run.now.made.own) d.address) }
        ensures differs { IfSome result (λ d. d.kept ≢ d.given) }
        ensures first { IfSome result (λ d. SeeAlike (below (is_touched run.now.made.own) d.address)
            (local_of run.now.made.start).attempt.overlay (given run.now.made.own)
            (local_of cpu.now).attempt.overlay (storage_in self.now)) }
        ensures none { result ≡ None → SeeAlike (is_touched run.now.made.own)
            (local_of run.now.made.start).attempt.overlay (given run.now.made.own)
            (local_of cpu.now).attempt.overlay (storage_in self.now) }
    {
        let _size = self.lines.size();
        run.first_difference(cpu, &self.lines)
    }

    /// Gives what the steps of a run have made to the CPU of this number and to storage. The CPU goes on like the one that was lent, and sees the
    /// same wherever the steps have looked. Then it has made as many turns as the run has steps, each of which could have been
    /// made away, with the lines that the run has needed: turns by any text pages that are those of the run's image where the
    /// steps have looked. No mode changes.
    pub fn bring(&mut self, number: u32, run: &Run, into: &mut Cpu)
        requires number { number < self.old.cpus }
        requires like { GoesOnLike (local_of run.now.made.start).attempt (local_of into.old).attempt }
        requires alike { SeeAlike (is_touched run.now.made.own) (local_of run.now.made.start).attempt.overlay
            (given run.now.made.own) (local_of into.old).attempt.overlay (storage_in self.old) }
        ensures value { (text : List ℕ) → AgreeOnPages (is_paged run.now.made.traces) run.now.text text
            → with_lines into.new self.new ≡ ran text run.now.made.steps (with_lines into.old self.old) }
        ensures away { (text : List ℕ) → AgreeOnPages (is_paged run.now.made.traces) run.now.text text
            → GoAway text (mode_in run.now.made.needed) run.now.made.steps (with_lines into.old self.old) }
        ensures count { (local_of into.new).attempt.count ≡ (local_of run.now.made.reached).attempt.count }
        ensures cpus { self.new.cpus ≡ self.old.cpus }
        ensures held { holders_in self.new ≡ holders_in self.old }
    {
        bring_in::<Brand>(&mut self.lines, number, run, into);
    }
}
