//! Events in one byte each, for as long as a listing may still be refused.
ghost use Rattle.std.specs.Prelude.{◌≡◌, ◌<◌, IfOk, map};
ghost use Rattle.z_fields.specs.Schedule.{event_of};
ghost use Rattle.z_fields.specs.SmallEvent.{event_in};

use std::alloc::{AllocError, Global};
use tx_journal::Event;

/// An event of a CPU below 16 in one byte: the number of the CPU, and 16 more for an external interruption.
#[derive(Clone, Copy, Debug)]
pub struct SmallEvent {
    code: u8,
}

impl SmallEvent {
    fn turn(cpu: u32) -> SmallEvent
        requires { cpu < 16 }
        ensures { event_in result ≡ Event.Turn cpu }
    {
        SmallEvent { code: cpu as u8 }
    }

    fn external(cpu: u32) -> SmallEvent
        requires { cpu < 16 }
        ensures { event_in result ≡ Event.External cpu }
    {
        SmallEvent {
            code: 16 + cpu as u8,
        }
    }

    /// A turn of a CPU, or an external interruption of it.
    pub(crate) fn new(external: bool, cpu: u32) -> SmallEvent
        requires { cpu < 16 }
        ensures { event_in result ≡ event_of external cpu }
    {
        if external {
            SmallEvent::external(cpu)
        } else {
            SmallEvent::turn(cpu)
        }
    }

    #[tactic(auto, unfolding(crate::specs::SmallEvent::event_in))]
    fn event(self) -> Event
        ensures { result ≡ event_in self }
    {
        if self.code < 16 {
            return Event::Turn(u32::from(self.code));
        }
        Event::External(u32::from(self.code - 16))
    }
}

/// The same events, each in the room of any event.
pub fn all_events(alloc: Global, events: &[SmallEvent]) -> Result<Vec<Event>, AllocError>
    ensures { IfOk result (λ v. v.items ≡ map event_in events.now) }
{
    let mut all = Vec::with_capacity(alloc, events.len())?;
    for event in events {
        all.push(event.event())?;
    }
    Ok(all)
}
