//! One walk of two machines.
ghost use Rattle.std.specs.Prelude.{◌<◌, length};

use crate::machines::make_turns;
use crate::plain::due_to;
use std::alloc::{AllocError, Global};
use tx_journal::{Entry, Event};
use tx_machine::{Home, Lend, Machine, Place};
use tx_run::{Run, RunStep};

/// How many moves a walk has.
const MOVES: u32 = 90;

/// The bytes that are looked at.
const FIRST: u32 = 0x9000;

/// How many of them there are.
const LOOKED_AT: u32 = 0x400;

/// Which answers were met.
#[derive(Clone, Copy)]
pub struct Met {
    lent: bool,
    refused: bool,
    taken: bool,
    taken_inside: bool,
    empty: bool,
    by_turns: bool,
    by_attempt: bool,
    by_line: bool,
}

/// A word for whether something was met.
fn word(met: bool) -> &'static str {
    if met { "yes" } else { "no" }
}

impl Met {
    /// Nothing was met.
    pub fn nothing() -> Met {
        Met {
            lent: false,
            refused: false,
            taken: false,
            taken_inside: false,
            empty: false,
            by_turns: false,
            by_attempt: false,
            by_line: false,
        }
    }

    /// Adds a line for each answer.
    pub fn add(&self, text: &mut String) -> Result<(), AllocError> {
        writeln!(text, "lent {}", word(self.lent))?;
        writeln!(text, "refused {}", word(self.refused))?;
        writeln!(text, "taken with steps {}", word(self.taken))?;
        writeln!(
            text,
            "taken inside a transaction {}",
            word(self.taken_inside)
        )?;
        writeln!(text, "taken without steps {}", word(self.empty))?;
        writeln!(text, "discarded by turns {}", word(self.by_turns))?;
        writeln!(text, "discarded by the attempt {}", word(self.by_attempt))?;
        writeln!(text, "discarded by a line {}", word(self.by_line))
    }

    /// A run came home so.
    fn came(&mut self, home: Home, inside: bool) {
        match home {
            Home::Taken(0) => self.empty = true,
            Home::Taken(_) => {
                self.taken = true;
                self.taken_inside |= inside;
            }
            Home::Discarded {
                place: Place::Turns,
                ..
            } => self.by_turns = true,
            Home::Discarded {
                place: Place::Attempt | Place::Completed,
                ..
            } => self.by_attempt = true,
            Home::Discarded {
                place: Place::Held(_),
                ..
            } => self.by_line = true,
            Home::Discarded { .. } => {}
        }
    }
}

/// Numbers that look random, by shifts.
#[derive(Clone, Copy)]
struct Draws {
    /// The one before, never 0.
    state: u64,
}

impl Draws {
    /// Those that begin behind a number.
    fn from(number: u64) -> Draws {
        Draws {
            state: number.saturating_mul(2).saturating_add(1),
        }
    }

    /// The next one.
    fn draw(&mut self) -> u64 {
        let mut drawn = self.state;
        drawn ^= drawn << 13;
        drawn ^= drawn >> 7;
        drawn ^= drawn << 17;
        self.state = drawn;
        drawn
    }
}

/// A machine that lends its CPUs, one that does not, and the runs that are away.
#[derive(Drop)]
struct Walk<'a> {
    lending: &'a mut Machine,
    plain: &'a mut Machine,
    away: Vec<Option<Run>>,
    draws: Draws,
}

/// Whether two histories are the same.
fn same_entries(one: &[Entry], other: &[Entry]) -> bool {
    one == other
}

/// Whether two machines show the same of a CPU.
fn same_cpu(one: &Machine, other: &Machine, cpu: u32) -> bool
    requires one { cpu < length one.now.image.cpus }
    requires other { cpu < length other.now.image.cpus }
{
    let (first, second) = (one.cpu(cpu), other.cpu(cpu));
    first.general == second.general
        && first.access == second.access
        && first.address == second.address
        && first.condition == second.condition
        && first.mask == second.mask
        && first.state == second.state
        && one.live(cpu) == other.live(cpu)
        && one.pending(cpu) == other.pending(cpu)
        && one.tally(cpu) == other.tally(cpu)
}

/// Whether two machines show the same bytes.
fn same_bytes(one: &Machine, other: &Machine) -> bool {
    for place in 0..LOOKED_AT {
        if one.byte(FIRST + place) != other.byte(FIRST + place) {
            return false;
        }
    }
    true
}

/// Whether two machines show the same.
fn same(one: &Machine, other: &Machine) -> bool {
    let cpus = one.image().cpu_count();
    if cpus != other.image().cpu_count() || one.events() != other.events() {
        return false;
    }
    for cpu in 0..cpus {
        if !same_cpu(one, other, cpu) {
            return false;
        }
    }
    one.last_reject() == other.last_reject()
        && same_entries(one.journal(), other.journal())
        && same_bytes(one, other)
}

/// Places for so many runs, none of which is away.
fn places_for(alloc: Global, cpus: u32) -> Result<Vec<Option<Run>>, AllocError> {
    let mut away = Vec::new(alloc);
    for _ in 0..cpus {
        away.push(None)?;
    }
    Ok(away)
}

/// A walk of two machines of one image, by this number. Whether both show the same behind it, and all was due.
pub fn make_walk(
    alloc: Global,
    lending: &mut Machine,
    plain: &mut Machine,
    number: u64,
    met: &mut Met,
) -> Result<bool, AllocError> {
    let away = places_for(alloc, lending.image().cpu_count())?;
    let draws = Draws::from(number);
    let mut walk = Walk {
        lending,
        plain,
        away,
        draws,
    };
    Ok(walk.go(met))
}

impl<'a> Walk<'a> {
    /// A turn of a CPU of both machines. Whether the same comes of it.
    fn turn(&mut self, cpu: u32) -> bool {
        if cpu >= self.lending.image().cpu_count() || cpu >= self.plain.image().cpu_count() {
            return false;
        }
        let first = self.lending.event(Event::Turn(cpu));
        let second = self.plain.event(Event::Turn(cpu));
        first == second
    }

    /// The CPU is lent, where it may be.
    fn lend(&mut self, cpu: u32, met: &mut Met) -> bool {
        if cpu >= self.lending.image().cpu_count() {
            return false;
        }
        let Some(place) = self.away.get_mut(cpu as usize) else {
            return false;
        };
        match self.lending.lend(cpu) {
            Lend::Refused(_) => met.refused = true,
            Lend::Run(run) => {
                met.lent = true;
                *place = Some(run);
            }
        }
        true
    }

    /// The run of the CPU makes some steps, where it is away.
    fn step(&mut self, cpu: u32) -> bool {
        let Some(Some(run)) = self.away.get_mut(cpu as usize) else {
            return true;
        };
        for _ in 0..4u32 {
            if run.step(false) != RunStep::Done {
                break;
            }
        }
        true
    }

    /// The run of the CPU comes home, where it is away. Whether what is told is due, and as many turns are executed.
    fn home(&mut self, cpu: u32, met: &mut Met) -> bool {
        if cpu >= self.lending.image().cpu_count() || cpu >= self.plain.image().cpu_count() {
            return false;
        }
        let Some(place) = self.away.get_mut(cpu as usize) else {
            return false;
        };
        let Some(run) = place.take() else {
            return true;
        };
        if run.cpu() != cpu {
            return false;
        }
        let due = due_to(self.plain, &run, cpu);
        let inside = self.plain.live(cpu).is_some();
        let told = self.lending.home(run);
        met.came(told, inside);
        if !due.allows(told) {
            return false;
        }
        match told {
            Home::Taken(turns) => make_turns(self.plain, cpu, turns),
            Home::Discarded { .. } => true,
        }
    }

    /// A move, as a number says that is drawn.
    fn make_move(&mut self, met: &mut Met) -> bool {
        let drawn = self.draws.draw();
        let cpu = (drawn / 64 % u64::from(self.lending.image().cpu_count())) as u32;
        match drawn % 4 {
            0 => self.turn(cpu),
            1 => self.lend(cpu, met),
            2 => self.step(cpu),
            _ => self.home(cpu, met),
        }
    }

    /// All moves of the walk; then all runs come home. Whether both machines show the same, and all was due.
    fn go(&mut self, met: &mut Met) -> bool {
        for _ in 0..MOVES {
            if !self.make_move(met) {
                return false;
            }
        }
        for cpu in 0..self.lending.image().cpu_count() {
            if !self.home(cpu, met) {
                return false;
            }
        }
        same(self.lending, self.plain)
    }
}
