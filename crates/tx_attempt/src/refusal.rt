//! What a test of the next instruction finds wrong.
ghost use Rattle.std.specs.Prelude.{◌≡◌};
ghost use Rattle.z_touch.specs.Refusals.{refused};
ghost use Rattle.tx_control.specs.Codes.{transaction_constraint_code};
ghost use Rattle.tx_serial.specs.Fate.{cause_in as cause_under, Excepts};
ghost use Rattle.tx_attempt.specs.Refused.{refusal_of};

use tx_control::codes::TRANSACTION_CONSTRAINT;
use tx_control::{Exception, Nest, Why, class_of, is_filtered};
use z_effect::exception;
use z_instr::format::length_in;
use z_instr::instr::Instr;
use z_instr::lookup::line;

/// What a test finds wrong.
#[derive(Clone, Copy)]
pub enum Refusal {
    /// A program exception.
    Excepts(Exception),
    /// A cause of its own by which a transaction aborts.
    Because(Why),
}

/// The exception of an instruction that breaks a constraint.
pub fn breach(instr: &Instr) -> Refusal
    ensures { refusal_of result ≡ Excepts (refused instr.now transaction_constraint_code) }
{
    let length = length_in(line(instr.op).form);
    Refusal::Excepts(exception(TRANSACTION_CONSTRAINT, length))
}

/// The cause by which an exception aborts a transaction, under these begins.
#[tactic(auto, unfolding(tx_serial::specs::Fate::cause_in))]
pub fn cause_in(nest: &Nest, e: Exception) -> Why
    ensures { result ≡ cause_under nest.now e }
{
    if is_filtered(class_of(e), nest.effective_pifc()) {
        Why::Filtered(e)
    } else {
        Why::Program(e)
    }
}
