//! The numbers of the retry ladder, by their names.
ghost use Rattle.std.specs.Prelude.{◌≡◌, IsTrue};
ghost use Rattle.z_reading.specs.Listing.{to_nat};
ghost use Rattle.z_setup.specs.Machine.{parameter_named, is_between, is_choice, with_parameter};

use tx_ladder::{Choice, DELAY, FIRM, LATE, Parms, REJECT, STARVE, STOP};

/// A number of the retry ladder.
#[derive(Clone, Copy, Debug, PartialEq, Eq)]
pub enum Parameter {
    /// The rejects that an attempt may give.
    Reject,
    /// The rejects that a late attempt may give.
    Firm,
    /// The conflict aborts from which an attempt is late.
    Late,
    /// The rejected requests after which an attempt is aborted.
    Starve,
    /// The conflict aborts that lead to the stop queue.
    Stop,
    /// The greatest number of turns that are waited.
    Delay,
}

/// The number of this name, in capitals.
#[tactic(auto, unfolding(crate::specs::Machine::parameter_named))]
pub(crate) fn parameter_named(name: &[u8]) -> Option<Parameter>
    ensures { result ≡ parameter_named name.now }
{
    if name == b"REJECT".as_slice() {
        return Some(Parameter::Reject);
    }
    if name == b"STARVE".as_slice() {
        return Some(Parameter::Starve);
    }
    match name {
        b"FIRM" => Some(Parameter::Firm),
        b"LATE" => Some(Parameter::Late),
        b"STOP" => Some(Parameter::Stop),
        b"DELAY" => Some(Parameter::Delay),
        _ => None,
    }
}

fn is_between(choice: Choice, value: i128) -> bool
    ensures { result ≡ is_between choice.least choice.most value }
{
    i128::from(choice.least) <= value && value <= i128::from(choice.most)
}

/// Whether the number may have the value.
pub(crate) fn is_choice(parameter: Parameter, value: i128) -> bool
    ensures { result ≡ is_choice parameter value }
{
    match parameter {
        Parameter::Reject => is_between(REJECT, value),
        Parameter::Firm => is_between(FIRM, value),
        Parameter::Late => is_between(LATE, value),
        Parameter::Starve => is_between(STARVE, value),
        Parameter::Stop => is_between(STOP, value),
        Parameter::Delay => is_between(DELAY, value),
    }
}

/// Gives the number a value that it may have.
pub(crate) fn set_parameter(parms: &mut Parms, parameter: Parameter, value: i128)
    requires { IsTrue (is_choice parameter value) }
    ensures { parms.new ≡ with_parameter parameter (to_nat value) parms.old }
{
    match parameter {
        Parameter::Reject => parms.reject = value as u32,
        Parameter::Firm => parms.firm = value as u32,
        Parameter::Late => parms.late = value as u32,
        Parameter::Starve => parms.starve = value as u32,
        Parameter::Stop => parms.stop = value as u32,
        Parameter::Delay => parms.delay = value as u32,
    }
}
