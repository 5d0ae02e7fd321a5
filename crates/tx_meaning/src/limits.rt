//! How long a machine may run.
ghost use Rattle.tx_meaning.specs.Limits.{RunLimits, AreAllowed};

use std::marker::Model;

/// The most counted turns of a CPU, which is also the usual number.
pub const MOST_TURNS: u32 = 200_000;

/// The longest time between two ticks.
pub const MOST_TICK: u32 = 1_000_000;

/// The most external events.
pub const MOST_EXTERNALS: u32 = 4_194_304;

/// How long a machine may run, and how often it is interrupted from outside. Contracts see plain numbers.
#[derive(Clone, Copy, Debug, PartialEq, Eq)]
pub struct Limits {
    /// The counted turns that each CPU may have, from 1 to [`MOST_TURNS`].
    pub turns: u32,
    /// The counted turns from one tick of a CPU to the next, at most [`MOST_TICK`]; 0 where no turn is a tick.
    pub tick: u32,
    /// The external events that there may be, at most [`MOST_EXTERNALS`].
    pub externals: u32,
}

impl Model for Limits {
    ghost use Rattle.tx_meaning.specs.Limits.{RunLimits};

    ghost Value = { RunLimits };

    ghost use Rattle.tx_meaning.specs.Limits.{AreAllowed};

    ghost view = { λ l. record { turns = l.turns; tick = l.tick; externals = l.externals } };

    ghost invariant = { λ l. AreAllowed record { turns = l.turns; tick = l.tick; externals = l.externals } };

    ghost inverse = { λ v. record { turns = v.turns; tick = v.tick; externals = v.externals } };
}
