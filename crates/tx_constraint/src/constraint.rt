//! What a constrained attempt has done so far, as far as its constraints ask.
ghost use Rattle.std.specs.Prelude.{◌≡◌, ◌≤◌, ◌↔◌, IsTrue, OnOk, length, Bool, true, None, [], ◌∷◌};
ghost use Rattle.z_instr.specs.declared.instr.Instr.{Instr};
ghost use Rattle.tx_constraint.specs.Octowords.{with_octowords};
ghost use Rattle.tx_constraint.specs.Constraints.{verdict, lies_near};
ghost use Rattle.tx_constraint.specs.Kept.{Kept, kept_at, added, next_text_breach, next_operand_breach, AreSame};

use crate::octowords::Octowords;
use crate::operations::{OCTOWORD_SIZE, instruction_length, is_permitted, unit};
use crate::pieces::{is_apart, is_one_near, is_one_split};
use std::marker::Model;
use z_instr::instr::Instr;
use z_instr::roles::is_end;
use z_regs::Touches;

/// How many instructions an attempt may have, TBEGINC and TEND not counted.
pub const MOST_INSTRUCTIONS: u32 = 32;

/// The bytes that begin with TBEGINC and hold all instructions.
const MOST_BYTES: u64 = 256;

/// The bytes of the longest instructions.
const LONGEST: u64 = 6;

/// What a constrained attempt has done since its TBEGINC: how many instructions it has run, and the octowords
/// of their operands.
#[derive(Drop)]
pub struct Constraint {
    begin: u64,
    count: u32,
    octowords: Octowords,
}

impl Model for Constraint {
    ghost use Rattle.std.specs.Prelude.{◌≤◌};
    ghost use Rattle.tx_constraint.specs.Kept.{Kept};

    ghost Value = { Kept };

    ghost view = { λ c. record { begin = c.begin; count = c.count; octowords = c.octowords } };

    ghost invariant = { λ c. c.count ≤ 33 };
}

/// Whether the instruction at `at` lies in the 256 bytes that begin at `begin`. Its length is asked for only where the
/// longest one would not.
fn is_near(begin: u64, instr: &Instr, at: u64) -> bool
    ensures { result ≡ lies_near begin instr.now at }
{
    if at < begin {
        return false;
    }
    let distance = at - begin;
    distance <= MOST_BYTES - LONGEST || distance <= MOST_BYTES - instruction_length(instr)
}

impl Constraint {
    /// An attempt that begins with the TBEGINC at this address.
    pub fn begin(at: u64) -> Constraint
        ensures { result ≡ kept_at at }
    {
        Constraint {
            begin: at,
            count: 0,
            octowords: Octowords::none(),
        }
    }

    /// Whether the attempt may have the instruction at `at` next, as far as constraints 1 to 3 say: there are
    /// at most 32 instructions, TEND not counted; the instruction lies in the 256 bytes that begin with
    /// TBEGINC; and it is permitted, and does not branch back. An error is the lowest number of these that it
    /// would break.
    #[inline(always)]
    #[tactic(auto, unfolding(crate::specs::Kept::next_text_breach))]
    pub fn admit_text(&self, instr: &Instr, at: u64) -> Result<(), u8>
        ensures { result ≡ verdict (next_text_breach self.now instr.now at) }
    {
        if self.count >= MOST_INSTRUCTIONS && !is_end(instr.op) {
            return Err(1);
        }
        if !is_near(self.begin, instr, at) {
            return Err(2);
        }
        if !is_permitted(instr) {
            return Err(3);
        }
        Ok(())
    }

    /// Whether the attempt may have the instruction with these operands next, as far as constraints 4 to 7
    /// say: all operands lie in at most four octowords; none has a byte in a page of the 256 bytes that begin
    /// with TBEGINC; and each lies in one doubleword, or for an operation on several registers in one
    /// octoword. An error is the lowest number of these that it would break; it is never 6.
    #[tactic(auto, unfolding(crate::specs::Kept::next_operand_breach))]
    pub fn admit_operands(&self, instr: &Instr, touches: &Touches) -> Result<(), u8>
        ensures value { result ≡ verdict (next_operand_breach self.now instr.now touches.now) }
        ensures room { OnOk result (length (with_octowords self.now.octowords touches.now) ≤ 4) }
    {
        if !self.octowords.has_room(touches) {
            return Err(4);
        }
        if is_one_near(self.begin, touches) {
            return Err(5);
        }
        if is_one_split(unit(instr), touches) {
            return Err(7);
        }
        Ok(())
    }

    /// Whether it is seen at once that constraints 4 to 7 admit an operand of so many bytes, or none, of whatever
    /// instruction: it lies in one doubleword, in no page of the 256 bytes that begin with TBEGINC, and there is
    /// room for one more octoword or its octoword is there. Where it is not seen, `admit_operands` says more.
    #[inline(always)]
    pub fn admits_operand(&self, first: u64, size: u32) -> bool
        ensures one { (i : Instr) (store : Bool) → result ≡ true
            → next_operand_breach self.now i (record { first = first; length = size; store = store } ∷ []) ≡ None }
        ensures none { (i : Instr) → next_operand_breach self.now i [] ≡ None }
    {
        let is_full = self.octowords.is_full();
        if size == 0 {
            return true;
        }
        if !is_apart(self.begin, first, size) {
            return false;
        }
        !is_full || self.octowords.has(first / OCTOWORD_SIZE)
    }

    /// The attempt has run one more instruction, with these operands; it was admitted.
    pub fn add(&mut self, touches: &Touches)
        requires few { self.old.count ≤ MOST_INSTRUCTIONS }
        requires admitted { length (with_octowords self.old.octowords touches.now) ≤ 4 }
        ensures { self.new ≡ added self.old touches.now }
    {
        let _has_room = self.octowords.add_all(touches);
        self.count += 1;
    }

    /// Whether both have the same TBEGINC and the same octowords.
    pub fn same(&self, other: &Constraint) -> bool
        ensures { IsTrue result ↔ AreSame self.now other.now }
    {
        if self.begin != other.begin {
            return false;
        }
        self.octowords.are(&other.octowords)
    }

    /// Makes this equal to the other.
    pub fn copy_from(&mut self, other: &Constraint)
        ensures { self.new ≡ other.now }
    {
        self.begin = other.begin;
        self.count = other.count;
        self.octowords.copy_from(&other.octowords);
    }
}
