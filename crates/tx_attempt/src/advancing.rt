//! What is asked of the CPU before an instruction, and what one instruction more changes of the begins, the
//! footprint and the constraints of an attempt.
ghost use Rattle.std.specs.Prelude.{◌≡◌, ◌<◌, ◌≤◌, ℕ, List, length, true, is_some, Some};
ghost use Rattle.z_instr.specs.Roles.{begins as is_begun, is_end as ends};
ghost use Rattle.z_instr.specs.Table.{entry_at};
ghost use Rattle.tx_constraint.specs.Kept.{Kept};
ghost use Rattle.tx_constraint.specs.Octowords.{with_octowords};
ghost use Rattle.tx_serial.specs.Run.{nest_after};
ghost use Rattle.std.specs.Prelude.{IsTrue, All, Ok};
ghost use Rattle.z_regs.specs.Cpu.{cpu_of};
ghost use Rattle.z_regs.specs.Prefix.{is_prefix};
ghost use Rattle.z_regs.specs.Absolute.{IsAccessible, absolute_ranges};
ghost use Rattle.tx_footprint.specs.Touched.{sets_of, touching, fit_of};
ghost use Rattle.tx_attempt.specs.Advancing.{grown, opened_by, IsBefore};

use tx_constraint::Constraint;
use tx_control::{Begin, Nest};
use tx_footprint::Footprint;
use z_effect::{opened, register};
use z_instr::instr::Instr;
use z_instr::laws::operands_are_small;
use z_instr::roles::{begins, is_end};
use z_regs::{CpuImage, Touches};

/// What an attempt asks of the CPU as it was before an instruction.
#[derive(Clone, Copy)]
pub struct Before {
    /// The prefix.
    pub prefix: Option<u32>,
    /// The register that NTSTG would store.
    pub source: u64,
    /// The begin that the instruction opens, where it opens one.
    pub opens: Option<Begin>,
}

impl Before {
    /// What is asked of this CPU before the instruction.
    pub fn of(instr: &Instr, image: &CpuImage) -> Before
        ensures { IsBefore result instr.now (cpu_of image.now) }
    {
        operands_are_small();
        Before {
            prefix: image.prefix,
            source: register(image, instr.r1),
            opens: opening(instr, image),
        }
    }
}

/// The begin that the instruction opens, where it opens one.
fn opening(instr: &Instr, image: &CpuImage) -> Option<Begin>
    ensures { result ≡ opened_by instr.now image.now.general }
{
    if begins(instr.op) {
        return Some(opened(instr, image));
    }
    None
}

/// Opens one more begin, or closes the last one, where the instruction does. None closes the only one that is
/// open.
#[inline(always)]
pub fn change_nest(nest: &mut Nest, instr: &Instr, opens: Option<Begin>)
    requires begins { is_some opens ≡ is_begun (entry_at instr.now.op.number) }
    requires depth { is_begun (entry_at instr.now.op.number) ≡ true → length nest.old < 16 }
    requires leaves { ends (entry_at instr.now.op.number) ≡ true → 1 < length nest.old }
    ensures { (general : List ℕ) → opens ≡ opened_by instr.now general
        → nest.new ≡ nest_after instr.now general nest.old }
{
    if let Some(level) = opens {
        nest.enter(level);
        return;
    }
    if nest.depth() > 1 && is_end(instr.op) {
        nest.leave();
    }
}

/// The operands, at most two, are touched too, by their absolute addresses.
#[cold]
fn touch_all(footprint: &mut Footprint, need: &Touches, prefix: Option<u32>)
    requires prefix_in { IsTrue (is_prefix prefix) }
    requires few { length need.now ≤ 2 }
    requires accessible { All (IsAccessible prefix) need.now }
    requires fits { fit_of (touching (sets_of footprint.old) (absolute_ranges prefix need.now)) ≡ Ok tt }
    ensures { sets_of footprint.new ≡ touching (sets_of footprint.old) (absolute_ranges prefix need.now) }
{
    footprint.add(&need.absolute(prefix));
}

/// The operands, at most two, are touched too.
#[inline(always)]
pub fn touch(footprint: &mut Footprint, need: &Touches, prefix: Option<u32>)
    requires prefix_in { IsTrue (is_prefix prefix) }
    requires few { length need.now ≤ 2 }
    requires accessible { All (IsAccessible prefix) need.now }
    requires fits { fit_of (touching (sets_of footprint.old) (absolute_ranges prefix need.now)) ≡ Ok tt }
    ensures { sets_of footprint.new ≡ touching (sets_of footprint.old) (absolute_ranges prefix need.now) }
{
    if need.count() == 0 {
        return;
    }
    if prefix.is_some() || need.count() > 1 {
        return touch_all(footprint, need, prefix);
    }
    footprint.add_one(need.at(0));
}

/// Counts the instruction and its operands in a constrained attempt.
pub fn add_operands(constraint: &mut Option<Constraint>, need: &Touches)
    requires few { (k : Kept) → constraint.old ≡ Some k → k.count < 32 }
    requires octowords { (k : Kept) → constraint.old ≡ Some k
        → length (with_octowords k.octowords need.now) ≤ 4 }
    ensures { constraint.new ≡ grown need.now constraint.old }
{
    match constraint {
        None => {}
        Some(kept) => kept.add(need),
    }
}
