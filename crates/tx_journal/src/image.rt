//! What a listing stands for and a machine starts from.
ghost use Rattle.std.specs.Prelude.{◌≡◌, ◌↔◌, ◌≤◌, IsTrue, length, map};
ghost use Rattle.z_regs.specs.Cpu.{cpu_of};

use crate::Event;
use std::marker::Model;
use tx_ladder::Parms;
use z_regs::{CpuImage, Guard, PAGES};

/// Bytes of storage that a report shows.
#[derive(Clone, Copy, Debug, PartialEq, Eq)]
pub struct Show {
    /// The address of the first byte.
    pub first: u32,
    /// The number of bytes, at least 1.
    pub length: u32,
    /// Whether they are shown as the fields of a transaction diagnostic block, which has 256 bytes; else as
    /// plain bytes.
    pub fields: bool,
}

/// What a machine starts from. Contracts see the fields as plain data: each vector as a list, the guard as
/// the set of its pages, and the CPUs without the proofs of their ranges.
///
/// An image is made by [`Image::new`], or by naming the fields; either asks for one fact, `IsImage` of what
/// the fields hold. It has these parts:
///
/// - storage of 1,048,576 bytes, of which the first 8,192 are zero;
/// - the addresses of instructions in rising order, each with bytes that have a reading, and exactly the
///   pages of these bytes;
/// - 1 to 16 CPUs that run, each with an entry address in storage, condition code and program mask 0 and
///   zeros in its access registers; no two with one prefix, and no prefix whose area of two pages holds a
///   text page;
/// - at most 64 ranges to be shown, with at most 65,536 bytes together, each of them accessible and not
///   empty;
/// - a schedule of at most 4,194,304 events of these CPUs.
#[derive(Drop)]
pub struct Image {
    /// All of storage, from address 0 on.
    pub storage: Vec<u8>,
    /// The text pages.
    pub guard: Guard,
    /// The addresses of the assembled instructions, in rising order.
    pub starts: Vec<u32>,
    /// The CPUs, in the order of their numbers.
    pub cpus: Vec<CpuImage>,
    /// What is shown, in the order of the listing.
    pub shows: Vec<Show>,
    /// The given events, in order.
    pub schedule: Vec<Event>,
    /// Whether the listing gives a schedule.
    pub scheduled: bool,
    /// The numbers of the retry ladder.
    pub parms: Parms,
}

impl Model for Image {
    ghost use Rattle.tx_journal.specs.Content.{Content, content_code, content};

    ghost Value = { Content };

    ghost coded = { content_code };

    ghost use Rattle.tx_journal.specs.Image.{IsImage};

    ghost view = { λ i. content i.storage.items i.guard i.starts.items i.cpus.items i.shows.items
        i.schedule.items i.scheduled i.parms };

    ghost invariant = { λ i. IsImage (content i.storage.items i.guard i.starts.items i.cpus.items
        i.shows.items i.schedule.items i.scheduled i.parms) };
}

impl Image {
    ghost use Rattle.tx_journal.specs.Content.{content};
    ghost use Rattle.tx_journal.specs.Image.{IsImage};

    /// The image of these parts.
    pub fn new(
        storage: Vec<u8>,
        guard: Guard,
        starts: Vec<u32>,
        cpus: Vec<CpuImage>,
        shows: Vec<Show>,
        schedule: Vec<Event>,
        scheduled: bool,
        parms: Parms,
    ) -> Image
        requires { IsImage (content storage.items guard starts.items cpus.items shows.items schedule.items
            scheduled parms) }
        ensures { result ≡ content storage.items guard starts.items cpus.items shows.items schedule.items
            scheduled parms }
    {
        Image {
            storage,
            guard,
            starts,
            cpus,
            shows,
            schedule,
            scheduled,
            parms,
        }
    }

    /// The number of CPUs, 1 to 16. A caller learns here what holds of every image.
    pub fn cpu_count(&self) -> u32
        ensures count { result ≡ length self.now.cpus }
        ensures image { IsImage self.now }
    {
        self.cpus.len() as u32
    }

    /// Whether two images hold the same.
    pub fn same(&self, other: &Image) -> bool
        ensures { IsTrue result ↔ (self.now ≡ other.now) }
    {
        if self.scheduled != other.scheduled {
            return false;
        }
        if self.parms != other.parms {
            return false;
        }
        if self.storage.as_slice() != other.storage.as_slice() {
            return false;
        }
        if !are_same_pages(&self.guard, &other.guard) {
            return false;
        }
        if self.starts.as_slice() != other.starts.as_slice() {
            return false;
        }
        if !are_same_cpus(self.cpus.as_slice(), other.cpus.as_slice()) {
            return false;
        }
        if !are_same_shows(self.shows.as_slice(), other.shows.as_slice()) {
            return false;
        }
        are_same_events(self.schedule.as_slice(), other.schedule.as_slice())
    }
}

/// Whether two sets have the same pages.
fn are_same_pages(some: &Guard, others: &Guard) -> bool
    ensures { IsTrue result ↔ (some.now ≡ others.now) }
{
    for page in 0..PAGES as u32 {
        if some.has(page) != others.has(page) {
            return false;
        }
    }
    true
}

/// Whether two CPUs hold the same.
fn is_same_cpu(one: &CpuImage, other: &CpuImage) -> bool
    ensures { IsTrue result ↔ (cpu_of one.now ≡ cpu_of other.now) }
{
    if one.general != other.general {
        return false;
    }
    if one.access != other.access {
        return false;
    }
    if one.address != other.address {
        return false;
    }
    if one.condition != other.condition {
        return false;
    }
    if one.mask != other.mask {
        return false;
    }
    if one.state != other.state {
        return false;
    }
    one.prefix == other.prefix
}

/// Whether there are the same CPUs, in the same order.
fn are_same_cpus(some: &[CpuImage], others: &[CpuImage]) -> bool
    ensures { IsTrue result ↔ (map cpu_of some.now ≡ map cpu_of others.now) }
{
    if some.len() != others.len() {
        return false;
    }
    for (i, one) in some.iter().enumerate() {
        if !is_same_cpu(one, &others[i]) {
            return false;
        }
    }
    true
}

/// Whether the same bytes are shown, in the same order.
fn are_same_shows(some: &[Show], others: &[Show]) -> bool
    ensures { IsTrue result ↔ (some.now ≡ others.now) }
{
    some == others
}

/// Whether there are the same events, in the same order.
fn are_same_events(some: &[Event], others: &[Event]) -> bool
    ensures { IsTrue result ↔ (some.now ≡ others.now) }
{
    some == others
}
