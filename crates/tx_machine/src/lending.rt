//! Runs that leave the machine.
ghost use Rattle.std.specs.Prelude.{◌≡◌, ◌<◌, length};
ghost use Rattle.tx_home.specs.Lending.{IsLentBy};
ghost use Rattle.tx_machine.specs.Lending.{IfLent, kept_of, kept_because, lent_by, refusal_in};
ghost use Rattle.tx_machine.specs.Machine.{Seen};

use crate::machine::Machine;
use tx_home::{Place, Refusal, Run, lend, why_kept};

/// What comes of asking for a CPU.
#[derive(Drop)]
pub enum Lend {
    /// A run of the CPU.
    Run(Run),
    /// Why it is not lent.
    Refused(Refusal),
}

/// What comes of a run that is brought home.
#[derive(Clone, Copy, Debug, PartialEq, Eq)]
pub enum Home {
    /// Its steps are so many turns of its CPU.
    Taken(u32),
    /// It differs from the machine, and has made nothing.
    Discarded {
        /// The first place that differs.
        place: Place,
        /// What the machine has there.
        kept: u64,
        /// What the run has there.
        given: u64,
    },
}

impl Machine {
    /// Lends a CPU that there is: a run of it, with the lines that it holds and their bytes, which may make as many steps as it
    /// has turns left before the next tick, at most 64. The machine stays whole, but for the mark that this run is away. Else
    /// the first reason that holds: its next turn would be idle; it waits for turns; a block or an interruption is left to do;
    /// its next counted turn is a tick; the stop queue is not empty; its run is away. It takes no memory.
    pub fn lend(&mut self, cpu: u32) -> Lend
        requires { cpu < length self.old.image.cpus }
        ensures refused { refusal_in result ≡ kept_because self.old cpu }
        ensures lent { IfLent result (IsLentBy self.old.limits (kept_of self.old) cpu) }
        ensures machine { self.new ≡ lent_by result cpu self.old }
    {
        if let Some(why) = why_kept(&self.works, cpu, self.limits) {
            return Lend::Refused(why);
        }
        let Some(mut run) = self.runs.take(cpu) else {
            return Lend::Refused(Refusal::Away);
        };
        lend(&self.works, &mut run, self.limits);
        Lend::Run(run)
    }
}
