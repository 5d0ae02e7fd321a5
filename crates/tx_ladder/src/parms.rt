//! The six numbers of the retry ladder, which a listing may set.
ghost use Rattle.std.specs.Prelude.{◌≡◌};

use std::marker::Model;

/// The values that one of the six numbers may have.
#[derive(Clone, Copy, Debug, PartialEq, Eq)]
pub struct Choice {
    /// The least value.
    pub least: u32,
    /// The greatest value.
    pub most: u32,
    /// The value where a listing sets none.
    pub usual: u32,
}

/// The greatest limit of rejects, for every attempt.
pub const MOST_REJECTS: u32 = 1000;

/// The most conflict aborts that a number may speak of.
pub const MOST_ABORTS: u32 = 16;

/// How many rejects an attempt may give before it has to give way to an asker.
pub const REJECT: Choice = Choice {
    least: 0,
    most: MOST_REJECTS,
    usual: 8,
};

/// The same for a late attempt.
pub const FIRM: Choice = Choice {
    least: 0,
    most: MOST_REJECTS,
    usual: 64,
};

/// The conflict aborts from which a constrained attempt is late.
pub const LATE: Choice = Choice {
    least: 1,
    most: MOST_ABORTS,
    usual: 4,
};

/// The rejected request at which a constrained attempt is aborted as starved.
pub const STARVE: Choice = Choice {
    least: 1,
    most: 1000,
    usual: 64,
};

/// The conflict abort at which a CPU joins the stop queue instead of waiting.
pub const STOP: Choice = Choice {
    least: 1,
    most: MOST_ABORTS,
    usual: 8,
};

/// The greatest number of turns that a CPU waits after a conflict abort.
pub const DELAY: Choice = Choice {
    least: 0,
    most: 32768,
    usual: 128,
};

/// The numbers of the retry ladder, each in its range. Contracts see them as plain numbers.
///
/// The ranges and the usual values are choices of this project.
#[derive(Clone, Copy, Debug, PartialEq, Eq)]
pub struct Parms {
    /// How many rejects an attempt may give, as [`REJECT`] allows.
    pub reject: u32,
    /// How many rejects a late attempt may give, as [`FIRM`] allows.
    pub firm: u32,
    /// From how many conflict aborts on a constrained attempt is late, as [`LATE`] allows.
    pub late: u32,
    /// At which rejected request a constrained attempt is aborted, as [`STARVE`] allows.
    pub starve: u32,
    /// At which conflict abort a CPU joins the stop queue, as [`STOP`] allows.
    pub stop: u32,
    /// How many turns a CPU waits at most after a conflict abort, as [`DELAY`] allows.
    pub delay: u32,
}

impl Model for Parms {
    ghost use Rattle.tx_ladder.specs.Parameters.{Parameters, parameters, IsAllowed};

    ghost Value = { Parameters };

    ghost view = { λ p. parameters p.reject p.firm p.late p.starve p.stop p.delay };

    ghost invariant = { λ p. IsAllowed (parameters p.reject p.firm p.late p.starve p.stop p.delay) };

    ghost inverse = { λ v. record {
      reject = v.reject;
      firm = v.firm;
      late = v.late;
      starve = v.starve;
      stop = v.stop;
      delay = v.delay;
    } };
}

impl Parms {
    ghost use Rattle.tx_ladder.specs.Parameters.{usual};

    /// The numbers where a listing sets none.
    pub fn usual() -> Parms
        ensures { result ≡ usual }
    {
        Parms {
            reject: REJECT.usual,
            firm: FIRM.usual,
            late: LATE.usual,
            starve: STARVE.usual,
            stop: STOP.usual,
            delay: DELAY.usual,
        }
    }
}
