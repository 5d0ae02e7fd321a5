//! What is shown of one CPU.
ghost use Rattle.std.specs.Prelude.{◌≡◌, ◌<◌, IsTrue, length};
ghost use Rattle.z_regs.specs.Cpu.{cpu_of};
ghost use Rattle.step_changes.specs.Parts.{with_part};

use crate::parts::{Controls, Part};
use std::marker::Model;
use z_regs::CpuImage;

/// What is shown of one CPU. Contracts see it as data.
#[derive(Drop)]
pub struct CpuSight {
    image: CpuImage,
    live: Option<(u32, u32)>,
    pending: Option<u64>,
}

impl Model for CpuSight {
    ghost use Rattle.std.specs.Prelude.{◌≡◌, length};
    ghost use Rattle.step_changes.specs.Seen.{CpuSeen};
    ghost use Rattle.z_regs.specs.Cpu.{cpu_of};

    ghost Value = { CpuSeen };

    ghost view = { λ s. record { cpu = cpu_of s.image; live = s.live; pending = s.pending } };

    ghost invariant = { λ s. (length s.image.general ≡ 16) × (length s.image.access ≡ 16) };
}

/// What an image holds beside its registers and the address of its next instruction.
pub fn controls_of(image: &CpuImage) -> Controls
    ensures { (result.condition ≡ image.now.condition) × (result.mask ≡ image.now.mask)
        × (result.state ≡ image.now.state) × (result.prefix ≡ image.now.prefix) }
{
    Controls {
        condition: image.condition,
        mask: image.mask,
        state: image.state,
        prefix: image.prefix,
    }
}

/// Whether an image has these.
fn has_controls(image: &CpuImage, controls: &Controls) -> bool
    ensures { IsTrue result → (image.now.condition ≡ controls.now.condition) × (image.now.mask ≡ controls.now.mask)
        × (image.now.state ≡ controls.now.state) × (image.now.prefix ≡ controls.now.prefix) }
{
    image.condition == controls.condition
        && image.mask == controls.mask
        && image.state == controls.state
        && image.prefix == controls.prefix
}

impl CpuSight {
    /// These three.
    pub fn of(image: &CpuImage, live: Option<(u32, u32)>, pending: Option<u64>) -> CpuSight
        ensures { result ≡ record { cpu = cpu_of image.now; live = live; pending = pending } }
    {
        let _registers = (image.general[0], image.access[0]);
        CpuSight {
            image: *image,
            live,
            pending,
        }
    }

    /// Whether it has this part.
    pub fn has(&self, part: &Part) -> bool
        ensures { IsTrue result → with_part self.now part.now ≡ self.now }
    {
        match part {
            Part::General(r, value) => self.image.general[r.number as usize] == *value,
            Part::Access(r, value) => self.image.access[r.number as usize] == *value,
            Part::Address(address) => self.image.address == *address,
            Part::Control(controls) => has_controls(&self.image, controls),
            Part::Live(live) => self.live == *live,
            Part::Pending(pending) => self.pending == *pending,
        }
    }

    /// The part by which it comes back once another has been put into its place.
    pub fn part_before(&self, new: &Part) -> Part
        ensures { with_part (with_part self.now new.now) result ≡ self.now }
    {
        match new {
            Part::General(r, _) => Part::General(*r, self.image.general[r.number as usize]),
            Part::Access(r, _) => Part::Access(*r, self.image.access[r.number as usize]),
            Part::Address(_) => Part::Address(self.image.address),
            Part::Control(_) => Part::Control(controls_of(&self.image)),
            Part::Live(_) => Part::Live(self.live),
            Part::Pending(_) => Part::Pending(self.pending),
        }
    }

    /// Puts a part into its place.
    pub fn put(&mut self, part: &Part)
        ensures { self.new ≡ with_part self.old part.now }
    {
        match part {
            Part::General(r, value) => self.image.general[r.number as usize] = *value,
            Part::Access(r, value) => self.image.access[r.number as usize] = *value,
            Part::Address(address) => self.image.address = *address,
            Part::Control(controls) => {
                self.image.condition = controls.condition;
                self.image.mask = controls.mask;
                self.image.state = controls.state;
                self.image.prefix = controls.prefix;
            }
            Part::Live(live) => self.live = *live,
            Part::Pending(pending) => self.pending = *pending,
        }
    }

    /// What the CPU holds.
    pub fn image(&self) -> &CpuImage
        ensures value { cpu_of result.now ≡ self.now.cpu }
        ensures registers { (length self.now.cpu.general ≡ 16) × (length self.now.cpu.access ≡ 16) }
    {
        &self.image
    }

    /// The open begins and the completed instructions of its live attempt.
    pub fn live(&self) -> Option<(u32, u32)>
        ensures { result ≡ self.now.live }
    {
        self.live
    }

    /// The address of its pending block.
    pub fn pending(&self) -> Option<u64>
        ensures { result ≡ self.now.pending }
    {
        self.pending
    }
}
