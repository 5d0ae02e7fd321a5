//! What a machine sees to by its types, read part by part.
ghost use Rattle.std.specs.Prelude.{◌≡◌, ℕ, ◌<◌, ◌^◌, length};
ghost use Rattle.z_regs.specs.Cpu.{cpu_of};
ghost use Rattle.z_regs.specs.Prefix.{storage_size};
ghost use Rattle.tx_meaning.specs.Meaning.{IsSetting, AreEvents};
ghost use Rattle.tx_meaning.specs.State.{flat_of};
ghost use Rattle.tx_report.specs.Machine.{setting_of, state_of};
ghost use Rattle.check_laws.specs.Places.{HasRegisters, HasPlace, HasPlaces};

use tx_report::Machine;
use z_regs::CpuImage;

/// How many bytes storage has.
const STORAGE_BYTES: u32 = 1_048_576;

/// A machine has an image and limits, and its events are such as there may be.
pub(crate) fn is_set(machine: &Machine)
    ensures setting { IsSetting (setting_of machine.now) }
    ensures events { AreEvents (setting_of machine.now) machine.now.events }
{
    let _count = machine.image().cpu_count();
    let _limits = machine.limits();
    let _events = machine.events();
    let _left = machine.externals_left();
}

/// There are sixteen general registers.
fn are_sixteen(values: &[u64; 16])
    ensures { length values.now ≡ 16 }
{}

/// There are sixteen access registers.
fn are_sixteen_words(values: &[u32; 16])
    ensures { length values.now ≡ 16 }
{}

/// A CPU has sixteen registers of each kind.
fn has_registers(image: &CpuImage)
    ensures { HasRegisters (cpu_of image.now) }
{
    are_sixteen(&image.general);
    are_sixteen_words(&image.access);
}

/// What is told of a CPU has its place.
fn has_place(machine: &Machine, cpu: u32)
    requires { cpu < length machine.now.image.cpus }
    ensures { HasPlace (setting_of machine.now) (state_of machine.now) cpu }
{
    has_registers(machine.cpu(cpu));
    let _tally = machine.tally(cpu);
}

/// What is told of each CPU has its place.
fn cpus_have_places(machine: &Machine)
    ensures { (i : ℕ) → i < length machine.now.image.cpus
        → HasPlace (setting_of machine.now) (state_of machine.now) i }
{
    let count = machine.image().cpu_count();
    for cpu in 0..count {
        has_place(machine, cpu);
    }
}

/// Storage holds bytes.
fn storage_holds_bytes(machine: &Machine)
    ensures { (a : ℕ) → a < storage_size
        → (flat_of (setting_of machine.now) (state_of machine.now)).storage a < 256 }
{
    for address in 0..STORAGE_BYTES {
        let _byte = machine.byte(address);
    }
}

/// All that a report tells of a machine has its place.
pub(crate) fn has_places(machine: &Machine)
    ensures { HasPlaces (setting_of machine.now) (state_of machine.now) }
{
    cpus_have_places(machine);
    storage_holds_bytes(machine);
}
