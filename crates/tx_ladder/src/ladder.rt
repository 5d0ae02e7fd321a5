//! The retry ladder of one CPU.
ghost use Rattle.std.specs.Prelude.{◌≡◌, ◌+◌, ◌<◌, ◌≤◌, ◌↔◌, Bool, false, IsTrue};
ghost use Rattle.tx_ladder.specs.Rungs.{Standing, fresh, begun, descended};
ghost use Rattle.tx_ladder.specs.Rungs.{is_late, reject_limit, may_reject, rejecting, rejected, is_starved};
ghost use Rattle.tx_ladder.specs.Rungs.{after_conflict, next_rung};

use crate::Parms;
use std::marker::Model;

/// After `a` conflict aborts a CPU waits for this number to the power `a` turns, or for as many as
/// its numbers allow where that is less.
pub const DELAY_BASE: u32 = 2;

/// What comes after an attempt that was aborted by a conflict.
#[derive(Clone, Copy, Debug, PartialEq, Eq)]
pub enum Next {
    /// The attempt was not constrained: nothing.
    Plain,
    /// The CPU waits for so many turns, none where its numbers allow no delay.
    Delay(u32),
    /// The CPU joins the stop queue.
    Queue,
}

/// Where one CPU stands: its numbers, the conflict aborts of its constrained transaction, and of its
/// live attempt the kind, the rejects that it gave, and its requests that were rejected.
#[derive(Drop)]
pub struct Ladder {
    parms: Parms,
    aborts: u32,
    constrained: bool,
    rejects_given: u32,
    requests_rejected: u32,
}

impl Model for Ladder {
    ghost use Rattle.std.specs.Prelude.{◌≤◌};
    ghost use Rattle.tx_ladder.specs.Rungs.{Standing, IsWithin};

    ghost Value = { Standing };

    ghost view = { λ l. record {
      parms = l.parms;
      aborts = l.aborts;
      constrained = l.constrained;
      rejects_given = l.rejects_given;
      requests_rejected = l.requests_rejected;
    } };

    ghost invariant = { λ l. IsWithin l.parms l.aborts l.rejects_given };
}

impl Ladder {
    /// The ladder of a CPU that has suffered no conflict, before its first attempt.
    pub fn new(parms: Parms) -> Ladder
        ensures { result ≡ fresh parms }
    {
        Ladder {
            parms,
            aborts: 0,
            constrained: false,
            rejects_given: 0,
            requests_rejected: 0,
        }
    }

    /// An attempt starts. It has given no reject and none of its requests was rejected; the conflict
    /// aborts stay.
    pub fn begin(&mut self, constrained: bool)
        ensures { self.new ≡ begun constrained self.old }
    {
        self.constrained = constrained;
        self.rejects_given = 0;
        self.requests_rejected = 0;
    }

    /// The conflict aborts of this CPU since its last constrained transaction ended.
    pub fn aborts(&self) -> u32
        ensures value { result ≡ self.now.aborts }
        ensures within { result ≤ self.now.parms.stop }
    {
        self.aborts
    }

    /// Whether the live attempt, of which `begin` told, is constrained.
    pub fn is_constrained(&self) -> bool
        ensures { result ≡ self.now.constrained }
    {
        self.constrained
    }

    /// Whether the live attempt is late: it is constrained, and its CPU has suffered as many conflict
    /// aborts as make an attempt late.
    pub fn is_late(&self) -> bool
        ensures { result ≡ is_late self.now }
    {
        let parms = &self.parms;
        self.constrained && parms.late <= self.aborts
    }

    /// Whether the live attempt may reject one more request that conflicts with it, as far as this
    /// depends on the holder alone.
    pub fn may_reject(&self) -> bool
        ensures { result ≡ may_reject self.now }
    {
        self.rejects_given < self.limit()
    }

    /// How many rejects the live attempt may give.
    fn limit(&self) -> u32
        ensures { result ≡ reject_limit self.now }
    {
        let parms = &self.parms;
        if self.is_late() {
            parms.firm
        } else {
            parms.reject
        }
    }

    /// The live attempt has rejected a request.
    pub fn gave_reject(&mut self)
        requires { IsTrue (may_reject self.old) }
        ensures { self.new ≡ rejecting self.old }
    {
        self.rejects_given += 1;
    }

    /// A request of the live attempt was rejected. Says whether the attempt is starved by that: it is
    /// constrained, and this was the rejected request at which its numbers abort it. The count stops
    /// at the last value of its type, far above all of these numbers.
    pub fn was_rejected(&mut self) -> bool
        ensures counted { self.new ≡ rejected self.old }
        ensures starved { result ≡ is_starved (rejected self.old) }
    {
        self.requests_rejected = self.requests_rejected.saturating_add(1);
        let parms = &self.parms;
        self.constrained && self.requests_rejected == parms.starve
    }

    /// The live attempt was aborted by a conflict, or as starved. Says what comes next.
    pub fn conflict(&mut self) -> Next
        requires { IsTrue self.old.constrained → self.old.aborts < self.old.parms.stop }
        ensures next { result ≡ next_rung self.old }
        ensures plain { (result ≡ Next.Plain) ↔ (self.old.constrained ≡ false) }
        ensures queue { let stop = self.old.parms.stop in
            (result ≡ Next.Queue) ↔ (IsTrue self.old.constrained × (self.new.aborts ≡ stop)) }
        ensures raised { self.new ≡ after_conflict self.old }
    {
        if !self.constrained {
            return Next::Plain;
        }
        self.aborts += 1;
        let parms = &self.parms;
        if self.aborts == parms.stop {
            return Next::Queue;
        }
        Next::Delay(DELAY_BASE.pow(self.aborts).min(parms.delay))
    }

    /// The constrained transaction has committed.
    pub fn commit(&mut self)
        ensures { self.new ≡ descended self.old }
    {
        self.aborts = 0;
    }

    /// The constrained transaction has ended in a program interruption.
    pub fn interrupted(&mut self)
        ensures { self.new ≡ descended self.old }
    {
        self.aborts = 0;
    }
}
