//! What a machine keeps of one CPU.
ghost use Rattle.std.specs.Prelude.{◌≡◌};

use std::marker::Model;
use tx_ladder::Ladder;
use tx_lines::Cpu;

/// What is counted of one CPU.
#[derive(Clone, Copy, Debug, PartialEq, Eq)]
pub struct Tally {
    /// The attempts that it has started.
    pub attempts: u32,
    /// The turns that it still waits.
    pub delay: u32,
    /// Its counted turns.
    pub turns: u32,
    /// Its questions to holders of lines.
    pub asked: u64,
    /// Those of them that were answered by a reject.
    pub rejected: u64,
}

/// A CPU with its attempt, its place on the retry ladder, and what is counted of it.
#[derive(Drop)]
pub struct Slot {
    pub cpu: Cpu,
    pub ladder: Ladder,
    pub tally: Tally,
}

impl Model for Slot {
    ghost use Rattle.tx_works.specs.Works.{Seat};
    ghost use Rattle.tx_works.specs.Ready.{IsCounted};

    ghost Value = { Seat };

    ghost view = { λ s. record { cpu = s.cpu; ladder = s.ladder; tally = s.tally } };

    ghost invariant = { λ s. IsCounted record { cpu = s.cpu; ladder = s.ladder; tally = s.tally } };
}
