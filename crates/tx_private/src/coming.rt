//! What becomes of the next instruction.
ghost use Rattle.std.specs.Prelude.{◌≡◌};
ghost use Rattle.std.specs.FinSet.{items};
ghost use Rattle.tx_serial.specs.Attempt.{Run};
ghost use Rattle.tx_serial.specs.Flat.{Storage as Bytes};
ghost use Rattle.tx_serial.specs.Fate.{cause_in as cause_under, fate_after};
ghost use Rattle.tx_private.specs.Shows.{Shows, Shown};
ghost use Rattle.tx_private.specs.Refused.{refusal_of};
ghost use Rattle.tx_private.specs.Coming.{Comes, fate_of};

use crate::attempt::Attempt;
use crate::reading::read;
use crate::refusals::{Admitted, Refused, tested};
use tx_control::{Exception, Nest, Why, class_of, is_filtered};
use z_instr::instr::Instr;
use z_regs::Guard;

/// The next instruction goes, with its operands; it ends the transaction; or it stops the program, outside
/// transactions.
#[derive(Drop)]
pub enum Next {
    Goes(Instr, Admitted),
    Ends(Why),
    Stops(Exception),
}

/// The cause by which a transaction aborts at an exception: one that is filtered, or one that interrupts the
/// program.
#[tactic(auto, unfolding(tx_serial::specs::Fate::cause_in))]
pub fn cause_in(nest: &Nest, exception: Exception) -> Why
    ensures { result ≡ cause_under nest.now exception }
{
    if is_filtered(class_of(exception), nest.effective_pifc()) {
        Why::Filtered(exception)
    } else {
        Why::Program(exception)
    }
}

/// What comes of a refusal under the open begins.
fn after(nest: &Nest, refused: Refused) -> Next
    ensures { fate_of result ≡ fate_after nest.now (refusal_of refused) }
{
    match refused {
        Refused::Because(why) => Next::Ends(why),
        Refused::Excepts(exception) => {
            if nest.depth() == 0 {
                Next::Stops(exception)
            } else {
                Next::Ends(cause_in(nest, exception))
            }
        }
    }
}

/// The next instruction, by its fetch and all tests behind it.
pub fn coming(a: &Attempt, guard: &Guard) -> Next
    requires { Shown a.now }
    ensures { (base : Bytes) (p : Run) → Shows base a.now p → Comes (items guard.now) p result }
{
    match read(&a.readings, &a.seen, &a.image, guard) {
        Err(exception) => after(&a.nest, Refused::Excepts(exception)),
        Ok(instr) => match tested(a, guard, &instr) {
            Ok(admitted) => Next::Goes(instr, admitted),
            Err(refused) => after(&a.nest, refused),
        },
    }
}
