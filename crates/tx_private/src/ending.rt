//! How an attempt ends that does not commit.
ghost use Rattle.std.specs.Prelude.{◌≡◌, ◌≤◌, ◌&&◌, nat_lt, length};
ghost use Rattle.std.specs.FinSet.{items};
ghost use Rattle.line_table.specs.Sizes.{storage_lines};
ghost use Rattle.z_regs.specs.Cpu.{cpu_of};
ghost use Rattle.z_regs.specs.Prefix.{storage_size};
ghost use Rattle.z_effect.specs.After.{AreInside, ranges_of};
ghost use Rattle.tx_footprint.specs.Touched.{sets_of};
ghost use Rattle.tx_serial.specs.Attempt.{Run};
ghost use Rattle.tx_serial.specs.Ending.{outcome_cause, fate_cause, ending as ending_of, comes_from_outside};
ghost use Rattle.tx_serial.specs.Ending.{has_operands, is_open, is_cause, fits as fits_run};
ghost use Rattle.tx_serial.specs.Fate.{fate};
ghost use Rattle.tx_serial.specs.Flat.{Storage as Bytes};
ghost use Rattle.tx_private.specs.Coming.{fate_of};
ghost use Rattle.tx_private.specs.Done.{outcome_at};
ghost use Rattle.tx_private.specs.Shows.{Shows, Shown, IsRun, SomeRun};

use crate::attempt::{Attempt, Mark};
use crate::coming::{Next, cause_in, coming};
use crate::copying::is_whole;
use crate::execution::{Completion, execute};
use crate::refusals::constrains;
use line_table::LINES;
use tx_control::codes::{FIXED_POINT_DIVIDE, FIXED_POINT_OVERFLOW};
use tx_control::{Nest, Why};
use tx_footprint::Footprint;
use z_effect::exception;
use z_instr::format::length_in;
use z_instr::instr::Instr;
use z_instr::lookup::line;
use z_regs::{CpuImage, Guard, Storage};

/// The cause by which an instruction that goes ends the attempt, where it does: a division that does not
/// fit, or TABORT. It is tried on storage of any bytes: that it ends by a cause of its own does not depend on
/// them.
fn tried(nest: &Nest, image: &CpuImage, trial: &mut Storage, instr: &Instr) -> Option<Why>
    requires size { length trial.old ≡ storage_size }
    requires inside { AreInside (ranges_of instr.now (cpu_of image.now)) trial.old }
    ensures { result ≡ outcome_cause nest.now instr.now
        (outcome_at (length nest.now) instr.now (cpu_of image.now) trial.old) }
{
    let mut image = *image;
    match execute(instr, &mut image, trial, nest.depth()) {
        Completion::Completed => None,
        Completion::Overflowed => None,
        Completion::Divides => {
            let length = length_in(line(instr.op).form);
            Some(cause_in(nest, exception(FIXED_POINT_DIVIDE, length)))
        }
        Completion::Aborts(code) => Some(Why::Tabort(code)),
    }
}

/// The cause by which the next instruction ends an open attempt, where it does.
fn cause_of_next(a: &mut Attempt, guard: &Guard) -> Option<Why>
    requires { Shown a.old }
    ensures value { (base : Bytes) (p : Run) → Shows base a.old p
        → result ≡ fate_cause p (fate (items guard.now) p) }
    ensures rest { a.new ≡ record a.old { trial = a.new.trial } }
{
    match coming(a, guard) {
        Next::Ends(why) => Some(why),
        Next::Stops(_) => None,
        Next::Goes(instr, _) => {
            is_whole(&a.trial);
            tried(&a.nest, &a.image, &mut a.trial, &instr)
        }
    }
}

/// The cause by which an attempt ends by itself, where there is one.
pub fn ending(a: &mut Attempt, guard: &Guard) -> Option<Why>
    requires { SomeRun a.old }
    ensures value { (base : Bytes) (p : Run) → IsRun base a.old p → result ≡ ending_of (items guard.now) p }
    ensures rest { a.new ≡ record a.old { trial = a.new.trial } }
{
    match a.mark {
        Mark::Open => cause_of_next(a, guard),
        Mark::Overflowed => Some(cause_in(&a.nest, exception(FIXED_POINT_OVERFLOW, a.last.length))),
        Mark::Committed => None,
        Mark::Missing => None,
    }
}

/// Whether a line was stored; no line behind the end of storage was.
fn stored(footprint: &Footprint, line: u32) -> bool
    ensures { result ≡ (nat_lt line storage_lines && (sets_of footprint.now).stored line) }
{
    (line as usize) < LINES && footprint.stored(line)
}

/// Whether a line was fetched.
fn fetched(footprint: &Footprint, line: u32) -> bool
    ensures { result ≡ (nat_lt line storage_lines && (sets_of footprint.now).fetched line) }
{
    (line as usize) < LINES && footprint.fetched(line)
}

/// Whether the next instruction asks for some line.
fn asks(next: &Next) -> bool
    ensures { result ≡ has_operands (fate_of next.now) }
{
    match next {
        Next::Goes(_, admitted) => admitted.touches.count() > 0,
        Next::Ends(_) => false,
        Next::Stops(_) => false,
    }
}

/// Whether the cause may come from outside while the run is open: an interruption, a conflict on a line that
/// the run has touched, or too many rejected requests.
fn comes(a: &Attempt, guard: &Guard, why: Why) -> bool
    requires { Shown a.now }
    ensures { (base : Bytes) (p : Run) → Shows base a.now p
        → result ≡ comes_from_outside (items guard.now) p why }
{
    match why {
        Why::External => true,
        Why::StoreConflict(line) => stored(&a.footprint, line),
        Why::FetchConflict(line) => fetched(&a.footprint, line) && !stored(&a.footprint, line),
        Why::Starved => constrains(&a.nest) && asks(&coming(a, guard)),
        _ => false,
    }
}

/// Whether the mark is that of an open transaction, and the cause may come from outside.
fn may_come_from_outside(a: &Attempt, guard: &Guard, why: Why) -> bool
    requires { SomeRun a.now }
    ensures { (base : Bytes) (p : Run) → IsRun base a.now p
        → result ≡ (is_open p.mark && comes_from_outside (items guard.now) p why) }
{
    match a.mark {
        Mark::Open => comes(a, guard, why),
        Mark::Committed => false,
        Mark::Overflowed => false,
        Mark::Missing => false,
    }
}

/// Whether a cause is this one.
fn is_this(own: Option<Why>, why: Why) -> bool
    ensures { result ≡ is_cause own why }
{
    match own {
        Some(cause) => cause == why,
        None => false,
    }
}

/// Whether an attempt may end by the cause: by itself, or while it is open from outside.
pub fn fits(a: &mut Attempt, guard: &Guard, why: Why) -> bool
    requires { SomeRun a.old }
    ensures value { (base : Bytes) (p : Run) → IsRun base a.old p
        → result ≡ fits_run (items guard.now) p why }
    ensures rest { a.new ≡ record a.old { trial = a.new.trial } }
{
    let from_outside = may_come_from_outside(a, guard, why);
    let own = ending(a, guard);
    is_this(own, why) || from_outside
}
