//! What is kept of one CPU while a run is followed.
ghost use Rattle.std.specs.Prelude.{◌≡◌, ◌<◌, ◌++◌, [], List, All, IfOk, false, length, nat_lt};
ghost use Rattle.z_regs.specs.declared.ranges.Range.{Range};
ghost use Rattle.line_table.specs.Sizes.{storage_lines};
ghost use Rattle.tx_schedule.specs.Machine.{setting_of, state_of};
ghost use Rattle.tx_schedule.specs.Wanted.{wanted};
ghost use Rattle.tx_heat.specs.Marks.{AreMarksOf};
ghost use Rattle.tx_heat.specs.Octowords.{are_apart};
ghost use Rattle.tx_heat.specs.Watched.{AreInside, IsUnused};

use crate::octowords::Octowords;
use std::alloc::{AllocError, Global};
use std::marker::Model;
use tx_schedule::Machine;
use z_regs::Touches;

/// The octowords of a CPU's attempt, how many instructions that has completed, 0 where none is live, and ranges that the
/// CPU asks for. Contracts see all of it.
#[derive(Drop)]
pub struct Track {
    marks: Octowords,
    completed: u32,
    asked: Touches,
    known: bool,
}

impl Model for Track {
    ghost use Rattle.tx_heat.specs.Watched.{Tracked, AreInside};

    ghost Value = { Tracked };

    ghost view = { λ t. record { marks = t.marks; completed = t.completed; asked = t.asked; known = t.known } };

    ghost invariant = { λ t. AreInside t.asked };
}

impl Track {
    /// No attempt is live, and nothing known. The error is want of memory.
    pub fn none(alloc: Global) -> Result<Track, AllocError>
        ensures { IfOk result (λ track. IsUnused track) }
    {
        let marks = Octowords::none(alloc)?;
        Ok(Track {
            marks,
            completed: 0,
            asked: Touches::none(),
            known: false,
        })
    }

    /// How many instructions the attempt has completed; 0 exactly where none is live.
    pub fn completed(&self) -> u32
        ensures { result ≡ self.now.completed }
    {
        self.completed
    }

    /// Whether it is known what the CPU asks for next.
    pub fn is_known(&self) -> bool
        ensures { result ≡ self.now.known }
    {
        self.known
    }

    /// The ranges that the CPU asks for.
    pub fn asked(&self) -> &Touches
        ensures value { result.now ≡ self.now.asked }
        ensures inside { AreInside result.now }
    {
        &self.asked
    }

    /// Finds out what the CPU asks for next.
    pub fn ask(&mut self, machine: &Machine, cpu: u32)
        requires { cpu < length machine.now.image.cpus }
        ensures { self.new
            ≡ record self.old { asked = wanted (setting_of machine.now) (state_of machine.now) cpu } }
    {
        self.asked = machine.wanted(cpu);
    }

    /// The attempt is over.
    pub fn clear(&mut self)
        ensures { IsUnused self.new }
    {
        self.marks.clear();
        self.completed = 0;
        self.known = false;
    }

    /// The attempt has completed no more, so its CPU asks for the same; where none is live, that is not known.
    pub fn stay(&mut self)
        ensures { self.new ≡ record self.old { known = nat_lt 0 self.old.completed } }
    {
        self.known = self.completed > 0;
    }

    /// An attempt is begun, and has touched nothing yet.
    pub fn begin(&mut self, completed: u32)
        ensures { self.new ≡ record self.old { completed = completed; known = false } }
    {
        self.completed = completed;
        self.known = false;
    }

    /// The attempt has completed more, and touched what its CPU asked for; what that asks for next is not known.
    pub fn go_on(&mut self, completed: u32)
        ensures marks { (past : List Range) → AreMarksOf self.old.marks past
            → AreMarksOf self.new.marks (past ++ self.old.asked) }
        ensures completed { self.new.completed ≡ completed }
        ensures known { self.new.known ≡ false }
    {
        self.marks.add(&self.asked);
        self.completed = completed;
        self.known = false;
    }

    /// Whether what is asked for lies apart, in the line, from what stands against it.
    pub fn are_apart(&self, asked: &Touches, line: u32) -> bool
        requires inside { AreInside asked.now }
        requires line { line < storage_lines }
        ensures { (past : List Range) → AreMarksOf self.now.marks past
            → result ≡ are_apart asked.now past line }
    {
        self.marks.are_apart(asked, line)
    }
}
