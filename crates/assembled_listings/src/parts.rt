//! The parts of an image, as text.

use std::alloc::AllocError;
use tx_journal::{Event, Image, Show};
use z_regs::{CpuImage, PAGES};

fn add_starts(text: &mut String, starts: &[u32]) -> Result<(), AllocError> {
    text.push_str("starts")?;
    for start in starts {
        write!(text, " {start:x}")?;
    }
    Ok(())
}

fn add_pages(text: &mut String, image: &Image) -> Result<(), AllocError> {
    text.push_str("; pages")?;
    for page in 0..PAGES as u32 {
        if image.guard.has(page) {
            write!(text, " {page:x}")?;
        }
    }
    Ok(())
}

/// The general registers that are not 0.
fn add_registers(text: &mut String, general: &[u64; 16]) -> Result<(), AllocError> {
    for (r, value) in general.iter().enumerate() {
        if *value != 0 {
            write!(text, " {r}={value:x}")?;
        }
    }
    Ok(())
}

fn add_cpu(text: &mut String, cpu: &CpuImage) -> Result<(), AllocError> {
    let address = cpu.address;
    write!(text, "; cpu {address:x}")?;
    add_registers(text, &cpu.general)?;
    match cpu.prefix {
        Some(prefix) => write!(text, " prefix {prefix:x}"),
        None => Ok(()),
    }
}

fn add_cpus(text: &mut String, cpus: &[CpuImage]) -> Result<(), AllocError> {
    for cpu in cpus {
        add_cpu(text, cpu)?;
    }
    Ok(())
}

fn add_show(text: &mut String, show: &Show) -> Result<(), AllocError> {
    let first = show.first;
    let length = show.length;
    let name = if show.fields { "tdb" } else { "show" };
    write!(text, "; {name} {first:x} {length}")
}

fn add_shows(text: &mut String, shows: &[Show]) -> Result<(), AllocError> {
    for show in shows {
        add_show(text, show)?;
    }
    Ok(())
}

fn add_event(text: &mut String, event: Event) -> Result<(), AllocError> {
    match event {
        Event::Turn(cpu) => write!(text, " {cpu}"),
        Event::External(cpu) => write!(text, " X{cpu}"),
    }
}

/// An event that comes so many times, one after the other.
fn add_run(text: &mut String, event: Event, times: usize) -> Result<(), AllocError> {
    add_event(text, event)?;
    if times != 1 {
        write!(text, "*{times}")?;
    }
    Ok(())
}

fn add_events(text: &mut String, events: &[Event]) -> Result<(), AllocError> {
    text.push_str("; events")?;
    for run in events.chunk_by(|event, next| event == next) {
        if let Some(event) = run.first() {
            add_run(text, *event, run.len())?;
        }
    }
    Ok(())
}

fn add_parms(text: &mut String, image: &Image) -> Result<(), AllocError> {
    let reject = image.parms.reject;
    let firm = image.parms.firm;
    let late = image.parms.late;
    let starve = image.parms.starve;
    let stop = image.parms.stop;
    let delay = image.parms.delay;
    write!(
        text,
        "; parms {reject} {firm} {late} {starve} {stop} {delay}"
    )
}

/// A byte that is not 0, behind its address where the one before it is 0.
fn add_byte(text: &mut String, address: usize, byte: u8, goes_on: bool) -> Result<(), AllocError> {
    if !goes_on {
        write!(text, " {address:x}:")?;
    }
    write!(text, "{byte:02x}")
}

/// The bytes of storage that are not 0, each run of them behind its address.
fn add_bytes(text: &mut String, storage: &[u8]) -> Result<(), AllocError> {
    text.push_str("; bytes")?;
    let mut goes_on = false;
    for (address, byte) in storage.iter().enumerate() {
        if *byte != 0 {
            add_byte(text, address, *byte, goes_on)?;
        }
        goes_on = *byte != 0;
    }
    Ok(())
}

/// Adds the parts of an image, in one line.
pub fn add_image(text: &mut String, image: &Image) -> Result<(), AllocError> {
    add_starts(text, &image.starts)?;
    add_pages(text, image)?;
    add_cpus(text, &image.cpus)?;
    add_shows(text, &image.shows)?;
    if image.scheduled {
        add_events(text, &image.schedule)?;
    }
    add_parms(text, image)?;
    add_bytes(text, &image.storage)?;
    text.push_str("\n")
}
