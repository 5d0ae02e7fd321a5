//! What can be run by a schedule: a machine, or what follows one event by event.
ghost use Rattle.std.specs.Prelude.{◌≡◌, ◌<◌, true, length, count_by};
ghost use Rattle.tx_journal.specs.Image.{cpu_of_event};
ghost use Rattle.tx_journal.specs.declared.events.Event.TheVariants.{Turn};
ghost use Rattle.tx_meaning.specs.Idle.{is_ready};
ghost use Rattle.tx_meaning.specs.Meaning.{is_external};
ghost use Rattle.tx_machine.specs.Machine.{Seen, setting_of, state_of, event_of, after};

use tx_journal::Event;
use tx_machine::machine::Machine;

/// A machine, or what has one and makes its events.
pub trait Runnable {
    /// The machine, as contracts see it.
    ghost seen: { Self → Seen };

    /// The machine.
    fn machine(&self) -> &Machine
        ensures { result.now ≡ seen self.now };

    /// One event more, of a CPU that there is; an external one only while some are left.
    fn take_event(&mut self, e: Event)
        requires known { cpu_of_event e < length (seen self.old).image.cpus }
        requires external { is_external e ≡ true
            → count_by is_external (seen self.old).events < (seen self.old).limits.externals }
        ensures machine { seen self.new ≡ after (seen self.old) e }
        ensures state { state_of (seen self.new) ≡ (event_of (seen self.old) e).state };

    /// One turn more, of a CPU that is ready.
    fn take_turn(&mut self, cpu: u32)
        requires known { cpu < length (seen self.old).image.cpus }
        requires ready { is_ready (setting_of (seen self.old)) (state_of (seen self.old)) cpu ≡ true }
        ensures machine { seen self.new ≡ after (seen self.old) (Turn cpu) }
        ensures state { state_of (seen self.new) ≡ (event_of (seen self.old) (Turn cpu)).state };
}

impl Runnable for Machine {
    ghost seen = { λ machine. machine };

    fn machine(&self) -> &Machine {
        self
    }

    fn take_event(&mut self, e: Event) {
        let _outcome = self.event(e);
    }

    #[inline(always)]
    fn take_turn(&mut self, cpu: u32) {
        let _outcome = self.turn(cpu);
    }
}
