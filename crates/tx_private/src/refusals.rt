//! The tests of the next instruction behind its fetch, in their order.
ghost use Rattle.std.specs.Prelude.{◌≡◌, [], ◌∷◌, All};
ghost use Rattle.std.specs.FinSet.{items};
ghost use Rattle.z_instr.specs.Table.{entry_at};
ghost use Rattle.z_regs.specs.Absolute.{absolute_ranges};
ghost use Rattle.z_instr.specs.declared.instr.Instr.{Instr as Instruction};
ghost use Rattle.tx_footprint.specs.Places.{IsInStorage};
ghost use Rattle.z_touch.specs.Refusals.{refused};
ghost use Rattle.tx_control.specs.Nesting.{is_constrained};
ghost use Rattle.tx_serial.specs.Attempt.{Run};
ghost use Rattle.tx_serial.specs.Flat.{Storage as Bytes};
ghost use Rattle.tx_serial.specs.Fate.{text_refusal, restricted_refusal, specified_refusal, depth_refusal};
ghost use Rattle.tx_serial.specs.Fate.{operand_refusal, place_refusal, overflow_refusal, operands};
ghost use Rattle.tx_serial.specs.Fate.{first_refusal, tests, is_restricted};
ghost use Rattle.tx_private.specs.Shows.{Shows, Shown};
ghost use Rattle.tx_private.specs.Refused.{refusal_of, found, AnswersTest, Admits};

use crate::attempt::Attempt;
use tx_control::codes::TRANSACTION_CONSTRAINT;
use tx_control::{Exception, Nest, Why};
use tx_footprint::Overflow;
use z_instr::format::length_in;
use z_instr::instr::Instr;
use z_instr::lookup::line;
use z_instr::op::Op;
use z_instr::roles::{begins, sets_access_register};
use z_regs::{Guard, Touches};
use z_touch::{specified, touches};

/// What a test finds wrong: a program exception, or a cause of its own by which a transaction aborts.
#[derive(Clone, Copy)]
pub enum Refused {
    Excepts(Exception),
    Because(Why),
}

/// The exception of an instruction with this code, which does not come at its fetch.
fn exception(instr: &Instr, code: u16) -> Exception
    ensures { result ≡ refused instr.now code }
{
    Exception {
        code,
        fetch: false,
        length: length_in(line(instr.op).form),
    }
}

/// Whether the open begins are those of a constrained transaction.
pub fn constrains(nest: &Nest) -> bool
    ensures { result ≡ is_constrained nest.now }
{
    nest.depth() > 0 && nest.constrained()
}

/// Constraints 1 to 3.
fn text_test(a: &Attempt, instr: &Instr) -> Option<Refused>
    ensures { (base : Bytes) (p : Run) → Shows base a.now p → found result ≡ text_refusal p instr.now }
{
    if !constrains(&a.nest) {
        return None;
    }
    match a.constraint.admit_text(instr, a.image.address) {
        Ok(()) => None,
        Err(_) => Some(Refused::Excepts(exception(instr, TRANSACTION_CONSTRAINT))),
    }
}

/// Whether the open begins refuse an operation.
fn restricts(nest: &Nest, op: Op) -> bool
    ensures { result ≡ is_restricted nest.now (entry_at op.number) }
{
    if nest.depth() == 0 {
        return false;
    }
    line(op).usage.is_restricted() || (sets_access_register(op) && !nest.effective_a())
}

/// What every transaction refuses, and a change of access registers that the begins do not allow.
fn restricted_test(a: &Attempt, instr: &Instr) -> Option<Refused>
    ensures { (base : Bytes) (p : Run) → Shows base a.now p → found result ≡ restricted_refusal p instr.now }
{
    if restricts(&a.nest, instr.op) {
        Some(Refused::Because(Why::Restricted))
    } else {
        None
    }
}

/// Special operation, then specification.
fn specified_test(a: &Attempt, instr: &Instr) -> Option<Refused>
    ensures { (base : Bytes) (p : Run) → Shows base a.now p → found result ≡ specified_refusal p instr.now }
{
    match specified(instr, &a.image, a.nest.depth()) {
        Ok(()) => None,
        Err(exception) => Some(Refused::Excepts(exception)),
    }
}

/// A begin inside sixteen others.
fn depth_test(a: &Attempt, instr: &Instr) -> Option<Refused>
    ensures { (base : Bytes) (p : Run) → Shows base a.now p → found result ≡ depth_refusal p instr.now }
{
    if begins(instr.op) && a.nest.depth() >= 16 {
        Some(Refused::Because(Why::Depth))
    } else {
        None
    }
}

/// Addressing for each operand, protection for each stored one, and the number of a service call; else the
/// operands. Special operation and specification have been tested.
fn operand_test(a: &Attempt, guard: &Guard, instr: &Instr) -> Result<Touches, Refused>
    requires { (base : Bytes) (p : Run) → Shows base a.now p → specified_refusal p instr.now ≡ None }
    ensures { (base : Bytes) (p : Run) → Shows base a.now p
        → AnswersTest (operand_refusal (items guard.now) p instr.now)
        (operands instr.now p.cpu) result }
{
    match touches(instr, &a.image, guard, a.nest.depth()) {
        Ok(touches) => Ok(touches),
        Err(exception) => Err(Refused::Excepts(exception)),
    }
}

/// Constraints 4 to 7.
fn place_test(a: &Attempt, instr: &Instr, touches: &Touches) -> Option<Refused>
    requires { (base : Bytes) (p : Run) → Shows base a.now p → touches.now ≡ operands instr.now p.cpu }
    ensures { (base : Bytes) (p : Run) → Shows base a.now p → found result ≡ place_refusal p instr.now }
{
    if !constrains(&a.nest) {
        return None;
    }
    match a.constraint.admit_operands(instr, touches) {
        Ok(()) => None,
        Err(_) => Some(Refused::Excepts(exception(instr, TRANSACTION_CONSTRAINT))),
    }
}

/// More lines, or more stored blocks, than a transaction may touch. The operands are by absolute addresses.
fn overflow_test(a: &Attempt, absolute: &Touches) -> Option<Refused>
    requires { All IsInStorage absolute.now }
    ensures { (base : Bytes) (p : Run) (i : Instruction) → Shows base a.now p
        → absolute.now ≡ absolute_ranges p.cpu.prefix (operands i p.cpu)
        → found result ≡ overflow_refusal p i }
{
    if a.nest.depth() == 0 {
        return None;
    }
    match a.footprint.fits(absolute) {
        Ok(()) => None,
        Err(Overflow::Fetch) => Some(Refused::Because(Why::FetchOverflow)),
        Err(Overflow::Store) => Some(Refused::Because(Why::StoreOverflow)),
    }
}

/// The operands of an instruction that no test refuses, by real and by absolute addresses.
#[derive(Drop)]
pub struct Admitted {
    pub touches: Touches,
    pub absolute: Touches,
}

/// Constraints on the text, what transactions restrict, special operation and specification, and the depth.
fn tested_before(a: &Attempt, instr: &Instr) -> Option<Refused>
    ensures { (base : Bytes) (p : Run) → Shows base a.now p
        → found result ≡ first_refusal (text_refusal p instr.now
        ∷ restricted_refusal p instr.now ∷ specified_refusal p instr.now ∷ depth_refusal p instr.now ∷ []) }
{
    if let Some(refused) = text_test(a, instr) {
        return Some(refused);
    }
    if let Some(refused) = restricted_test(a, instr) {
        return Some(refused);
    }
    if let Some(refused) = specified_test(a, instr) {
        return Some(refused);
    }
    depth_test(a, instr)
}

/// The operands by absolute addresses, constraints on them, and overflow.
fn tested_behind(
    a: &Attempt,
    guard: &Guard,
    instr: &Instr,
    touches: Touches,
) -> Result<Admitted, Refused>
    requires shown { Shown a.now }
    requires operands { (base : Bytes) (p : Run) → Shows base a.now p
        → AnswersTest (operand_refusal (items guard.now) p instr.now) (operands instr.now p.cpu)
        (Ok touches) }
    ensures { (base : Bytes) (p : Run) → Shows base a.now p → Admits (place_refusal p instr.now
        ∷ overflow_refusal p instr.now ∷ []) p instr.now result }
{
    if let Some(refused) = place_test(a, instr, &touches) {
        return Err(refused);
    }
    let absolute = touches.absolute(a.image.prefix);
    match overflow_test(a, &absolute) {
        Some(refused) => Err(refused),
        None => Ok(Admitted { touches, absolute }),
    }
}

/// All tests behind the fetch, in their order: the first that refuses decides.
pub fn tested(a: &Attempt, guard: &Guard, instr: &Instr) -> Result<Admitted, Refused>
    requires { Shown a.now }
    ensures { (base : Bytes) (p : Run) → Shows base a.now p
        → Admits (tests (items guard.now) p instr.now) p instr.now result }
{
    match tested_before(a, instr) {
        Some(refused) => Err(refused),
        None => match operand_test(a, guard, instr) {
            Err(refused) => Err(refused),
            Ok(touches) => tested_behind(a, guard, instr, touches),
        },
    }
}
