//! The parts of an image.
ghost use Rattle.std.specs.Prelude.{◌≡◌};

use std::marker::Model;
use tx_journal::{Event, Image, Show};
use tx_ladder::Parms;
use z_regs::{CpuImage, Guard};

/// What a listing stands for. Contracts see it as they see an [`Image`], which it becomes where its parts fit
/// together.
#[derive(Drop)]
pub struct Parts {
    /// All of storage, from address 0 on.
    pub storage: Vec<u8>,
    /// The pages that hold a byte of an instruction.
    pub guard: Guard,
    /// The addresses of the instructions, in rising order.
    pub starts: Vec<u32>,
    /// The CPUs, in the order of their numbers.
    pub cpus: Vec<CpuImage>,
    /// What is shown, in the order of the listing.
    pub shows: Vec<Show>,
    /// The events, in order.
    pub schedule: Vec<Event>,
    /// Whether the listing gives a schedule.
    pub scheduled: bool,
    /// The numbers of the retry ladder.
    pub parms: Parms,
}

impl Model for Parts {
    ghost use Rattle.tx_journal.specs.Content.{Content, content_code, content};

    ghost Value = { Content };

    ghost coded = { content_code };

    ghost view = { λ i. content i.storage.items i.guard i.starts.items i.cpus.items i.shows.items
        i.schedule.items
        i.scheduled i.parms };
}

impl Parts {
    ghost use Rattle.tx_journal.specs.Image.{IsImage};

    /// The image of these parts.
    pub fn into_image(self) -> Image
        requires { IsImage self }
        ensures { result ≡ self }
    {
        let Parts {
            storage,
            guard,
            starts,
            cpus,
            shows,
            schedule,
            scheduled,
            parms,
        } = self;
        Image::new(
            storage, guard, starts, cpus, shows, schedule, scheduled, parms,
        )
    }
}
