//! Loans of a CPU that holds many lines, one after the other, for somebody who looks at a clock.
//!
//! A machine of one CPU touches its lines, each by a load and a store; then it goes on in a loop of loads, additions and stores
//! on the first eight of them. There it is lent, makes some steps away, and comes home, again and again.

use crate::machines::{image_of, make_turns, open};
use anyhow::{Context, Result};
use std::alloc::{AllocError, Global};
use std::sync::Arc;
use tx_journal::Image;
use tx_machine::{Home, Lend, Machine};
use tx_meaning::Limits;
use tx_meaning::limits::MOST_TURNS;
use tx_run::{Run, RunStep};

/// How many machines there are, one after the other.
const MACHINES: u32 = 16;

/// The most lines that the CPU holds, which is as many as it may.
pub const MOST_LINES: u32 = 384;

/// The most steps of a run.
pub const MOST_STEPS: u32 = 64;

/// The most loans of a machine, whose turns suffice for as many steps each.
pub const MOST_LOANS: u32 = 3000;

/// The turns that the CPU has for each line that it touches.
const TURNS_A_LINE: u32 = 5;

/// How many lines the loop goes through, where there are as many.
const LOOPED: u32 = 8;

/// The first part of the program.
const TOUCH: &str = "TOUCH LG 1,0(5)
 AGHI 1,1
 STG 1,0(5)
 AGHI 5,256
 BRCTG 3,TOUCH
";

/// How often and how the CPU of a machine is lent.
#[derive(Clone, Copy)]
pub struct Loans {
    /// How many lines it holds, 1 to [`MOST_LINES`].
    pub lines: u32,
    /// How many steps each run makes, at most [`MOST_STEPS`].
    pub steps: u32,
    /// How often it is lent, at most [`MOST_LOANS`] times.
    pub count: u32,
}

/// Adds a load, an addition and a store in the line of this number, the first of which has a label.
fn add_counting(text: &mut String, line: u32) -> Result<(), AllocError> {
    let label = if line == 0 { "ON" } else { "" };
    let place = line.saturating_mul(256);
    writeln!(
        text,
        "{label} LG 1,{place}(6)\n AGHI 1,1\n STG 1,{place}(6)"
    )
}

/// Adds the listing of a CPU that touches so many lines.
fn add_listing(text: &mut String, lines: u32) -> Result<(), AllocError> {
    writeln!(text, " CPU TOUCH\n REG 0,3,{lines}")?;
    writeln!(text, " REG 0,5,X'10000'\n REG 0,6,X'10000'")?;
    text.push_str(TOUCH)?;
    for line in 0..LOOPED.min(lines) {
        add_counting(text, line)?;
    }
    writeln!(text, " J ON")
}

/// Makes up to so many steps away.
fn make_steps(run: &mut Run, steps: u32) {
    for _ in 0..steps {
        if run.step(false) != RunStep::Done {
            return;
        }
    }
}

/// Lends the CPU, and brings it home behind up to so many steps. Whether just as many turns were taken.
fn lend_once(machine: &mut Machine, steps: u32) -> bool {
    if machine.image().cpu_count() == 0 {
        return false;
    }
    let Lend::Run(mut run) = machine.lend(0) else {
        return false;
    };
    make_steps(&mut run, steps);
    if run.cpu() >= machine.image().cpu_count() {
        return false;
    }
    machine.home(run) == Home::Taken(steps)
}

impl Loans {
    /// All loans of a machine. How many of the runs were taken with all their steps.
    fn lend(&self, machine: &mut Machine) -> u32 {
        let mut taken = 0u32;
        for _ in 0..self.count {
            if lend_once(machine, self.steps) {
                taken = taken.saturating_add(1);
            }
        }
        taken
    }

    /// All loans of a machine, behind the turns that touch its lines. How many of the runs were taken with all their steps;
    /// None where a turn was not executed.
    fn touch_and_lend(&self, machine: &mut Machine) -> Option<u32> {
        if !make_turns(machine, 0, self.lines.saturating_mul(TURNS_A_LINE)) {
            return None;
        }
        Some(self.lend(machine))
    }

    /// All loans of one machine of an image.
    fn lend_one(&self, alloc: Global, image: &Arc<Image>) -> Result<Option<u32>> {
        let limits = Limits {
            turns: MOST_TURNS,
            tick: 0,
            externals: 0,
        };
        let mut machine = open(alloc, image, limits)?;
        Ok(self.touch_and_lend(&mut machine))
    }

    /// All loans of all machines. How many of the runs were taken with all their steps.
    fn lend_all(&self, alloc: Global) -> Result<u32> {
        let mut listing = String::new(alloc);
        add_listing(&mut listing, self.lines)?;
        let image = image_of(alloc, listing.as_str())?;
        let mut taken = 0u32;
        for _ in 0..MACHINES {
            let more = self.lend_one(alloc, &image)?;
            taken = taken.saturating_add(more.context("a turn was not executed")?);
        }
        Ok(taken)
    }

    /// Makes all loans, and adds a line that says how many there were, and how many of the runs were taken with all their steps.
    pub fn add(&self, text: &mut String, alloc: Global) -> Result<()> {
        let taken = self.lend_all(alloc)?;
        let loans = MACHINES.saturating_mul(self.count);
        writeln!(text, "{loans} loans, {taken} taken")?;
        Ok(())
    }
}
