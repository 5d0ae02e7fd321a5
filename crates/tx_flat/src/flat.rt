//! The slow machine on flat storage: an image, and one entry of the history after the other.
ghost use Rattle.std.specs.Prelude.{◌≡◌, ◌<◌, ◌≤◌, ℕ, true, false, IfOk, length, map};
ghost use Rattle.std.specs.FinSet.{contains, insert};
ghost use Rattle.z_regs.specs.Cpu.{cpu_of};
ghost use Rattle.z_regs.specs.Prefix.{storage_size};
ghost use Rattle.tx_serial.specs.Changes.{cpu_of_entry as cpu_in};
ghost use Rattle.tx_serial.specs.History.{start_of};
ghost use Rattle.tx_flat.specs.Machine.{state_of, slot_parts, fresh, code_waiting, Applies};
ghost use Rattle.tx_flat.specs.Open.{IsOpen};
ghost use Rattle.tx_private.specs.Ready.{IsReady};
ghost use Rattle.tx_serial.specs.Attempt.{Open};
ghost use Rattle.tx_serial.specs.Ending.{ending};
ghost use Rattle.tx_serial.specs.Flat.{address_of, bytes_of};
ghost use Rattle.tx_serial.specs.Run.{run};

use crate::causes::own_cause;
use crate::dispatch::apply_to;
use crate::interruption::code_of;
use crate::showing::{OpenRun, open_run};
use crate::slot::{ApplyFault, Slot};
use std::alloc::Global;
use std::marker::Model;
use tx_control::Why;
use tx_journal::{Entry, Image};
use tx_private::attempt::Attempt;
use tx_private::copying::is_whole;
use tx_private::known::Readings;
use tx_private::running::fresh;
use z_regs::{CpuImage, Guard, NoMemory, PAGES, Storage};

/// Storage and its text pages, and of each CPU its registers and its state, the diagnostic block that is
/// pending for it and the interruption that it has still to take. Contracts speak of the flat state made of
/// these (`state_of`).
///
/// It has copies of storage to work on, which are kept the same between entries, so that an entry costs no copy
/// of all of storage where its CPU has no prefix.
///
/// The type keeps that no text page ever changes: where a CPU has a prefix, its area holds no text, and
/// neither does what is still to be stored come to lie in text.
#[derive(Drop)]
pub struct Flat {
    storage: Storage,
    guard: Guard,
    slots: Vec<Slot>,
    work: Attempt,
}

impl Model for Flat {
    ghost use Rattle.tx_flat.specs.Machine.{Parts, parts_of};

    ghost Value = { Parts };

    ghost use Rattle.tx_flat.specs.Machine.{IsSound};
    ghost use Rattle.tx_private.specs.Ready.{IsReady};

    ghost view = { λ f. parts_of f.storage f.guard f.slots.items };

    ghost invariant = { λ f. IsSound (parts_of f.storage f.guard f.slots.items)
        × IsReady f.storage f.work };
}

/// The CPU of an entry.
fn cpu_of_entry(entry: Entry) -> u32
    ensures { result ≡ cpu_in entry }
{
    match entry {
        Entry::Step(cpu) => cpu,
        Entry::Commit(cpu, _) => cpu,
        Entry::Abort(cpu, _, _) => cpu,
        Entry::Tdb(cpu) => cpu,
        Entry::Interrupt(cpu) => cpu,
    }
}

/// Adds a page, below 256, where it is among others.
fn add_where_there(pages: &mut Guard, guard: &Guard, page: u32)
    requires { page < PAGES }
    ensures there { contains guard.now page ≡ true → pages.new ≡ insert pages.old page }
    ensures missing { contains guard.now page ≡ false → pages.new ≡ pages.old }
    ensures none { (q : ℕ) → PAGES ≤ q → contains guard.now q ≡ false }
{
    if guard.has(page) {
        pages.add(page);
    }
}

/// The same pages.
fn same_pages(guard: &Guard) -> Guard
    ensures { result ≡ guard.now }
{
    let mut pages = Guard::none();
    for page in 0..PAGES as u32 {
        add_where_there(&mut pages, guard, page);
    }
    pages
}

/// CPUs for which nothing is pending and nothing waits.
fn fresh_slots(alloc: Global, cpus: &[CpuImage]) -> Result<Vec<Slot>, NoMemory>
    ensures { IfOk result (λ slots. map slot_parts slots.items ≡ map fresh (map cpu_of cpus.now)) }
{
    let mut slots = Vec::new(alloc);
    for image in cpus {
        let slot = Slot {
            image: *image,
            pending: None,
            waiting: None,
        };
        slots.push(slot)?;
    }
    Ok(slots)
}

/// Copies of storage to work on, with the instructions of an image.
fn copies_of(alloc: Global, storage: &Storage, image: &Image) -> Result<Attempt, NoMemory>
    requires { length storage.now ≡ storage_size }
    ensures { IfOk result (λ work. IsReady storage.now work) }
{
    let readings = Readings::open(alloc, image)?;
    fresh(alloc, storage, readings)
}

/// The address of the block that is pending.
fn block_address(slot: &Slot) -> Option<u64>
    ensures { result ≡ address_of (slot_parts slot.now).pending }
{
    Some(slot.pending.as_ref()?.address)
}

/// The code of the interruption that waits.
fn waiting_code(slot: &Slot) -> Option<u16>
    ensures { result ≡ code_waiting (slot_parts slot.now).cpu (slot_parts slot.now).waiting }
{
    slot.waiting.as_ref()?;
    Some(code_of(slot.image.state))
}

impl Flat {
    ghost use Rattle.std.specs.Prelude.{◌≡◌, ◌≢◌, ◌<◌, IfOk, IfSome, IfNone, length};
    ghost use Rattle.tx_flat.specs.Machine.{state_of, code_waiting, Applies};
    ghost use Rattle.tx_flat.specs.Open.{IsOpen};
    ghost use Rattle.tx_serial.specs.Attempt.{Open};
    ghost use Rattle.z_regs.specs.Cpu.{cpu_of};
    ghost use Rattle.tx_serial.specs.Ending.{ending};
    ghost use Rattle.tx_serial.specs.Flat.{address_of, bytes_of};
    ghost use Rattle.tx_serial.specs.Run.{run};

    /// The machine as an image starts it. `NoMemory` comes for want of memory.
    pub fn open(alloc: Global, image: &Image) -> Result<Flat, NoMemory>
        ensures state { IfOk result (λ flat. state_of flat ≡ start_of image.now) }
        ensures cpus { IfOk result (λ flat. length flat.slots ≡ length image.now.cpus) }
    {
        let storage = Storage::open(alloc, image.storage.as_slice())?;
        let guard = same_pages(&image.guard);
        let slots = fresh_slots(alloc, image.cpus.as_slice())?;
        is_whole(&storage);
        let work = copies_of(alloc, &storage, image)?;
        Ok(Flat {
            storage,
            guard,
            slots,
            work,
        })
    }

    /// One entry of the history. Nothing changes where it does not fit.
    pub fn apply(&mut self, entry: Entry) -> Result<(), ApplyFault>
        ensures applied { Applies entry self.old self.new result }
        ensures cpus { length self.new.slots ≡ length self.old.slots }
    {
        let cpu = cpu_of_entry(entry) as usize;
        if cpu >= self.slots.len() {
            return Err(ApplyFault::Misfit);
        }
        is_whole(&self.storage);
        let slot = &mut self.slots[cpu];
        apply_to(&mut self.work, &mut self.storage, &self.guard, slot, entry)
    }

    /// The cause by which the attempt of so many instructions of a CPU that is there ends by itself, None exactly
    /// where it does not. Nothing changes.
    pub fn own_cause(&mut self, cpu: u32, count: u32) -> Option<Why>
        requires { cpu < length self.old.slots }
        ensures value { result ≡ ending (state_of self.old).text (run (state_of self.old) cpu count) }
        ensures unchanged { self.new ≡ self.old }
    {
        is_whole(&self.storage);
        let image = self.slots[cpu as usize].image;
        own_cause(&mut self.work, &self.storage, &image, &self.guard, count)
    }

    /// The run of so many instructions of a CPU that is there, None exactly where it is not open. Nothing changes.
    /// `NoMemory` comes for want of memory.
    pub fn open_run(&self, alloc: Global, cpu: u32, count: u32) -> Result<Option<OpenRun>, NoMemory>
        requires { cpu < length self.now.slots }
        ensures open { IfOk result (λ o. IfSome o (λ r.
            IsOpen (run (state_of self.now) cpu count) (cpu_of r.image) r.depth)) }
        ensures none { IfOk result (λ o. IfNone o ((run (state_of self.now) cpu count).mark ≢ Open)) }
    {
        is_whole(&self.storage);
        let image = &self.slots[cpu as usize].image;
        open_run(alloc, &self.storage, image, &self.guard, count)
    }

    /// How many CPUs there are.
    pub fn cpu_count(&self) -> u32
        ensures { result ≡ length self.now.slots }
    {
        self.slots.len() as u32
    }

    /// A CPU that is there.
    pub fn cpu(&self, cpu: u32) -> &CpuImage
        requires { cpu < length self.now.slots }
        ensures { cpu_of result.now ≡ (state_of self.now).cpus cpu }
    {
        &self.slots[cpu as usize].image
    }

    /// The byte at an absolute address.
    pub fn byte(&self, address: u32) -> u8
        requires { address < storage_size }
        ensures { result ≡ (state_of self.now).storage address }
    {
        self.storage.as_slice()[address as usize]
    }

    /// All of storage.
    #[tactic(auto, using(tx_private::proofs::Laid::listed))]
    pub fn storage(&self) -> &Storage
        ensures { result.now ≡ bytes_of (state_of self.now).storage }
    {
        is_whole(&self.storage);
        &self.storage
    }

    /// The real address of the block that is pending for a CPU, None exactly where none is.
    pub fn pending(&self, cpu: u32) -> Option<u64>
        requires { cpu < length self.now.slots }
        ensures { result ≡ address_of ((state_of self.now).pending cpu) }
    {
        block_address(&self.slots[cpu as usize])
    }

    /// The code of the interruption that a CPU has still to take, None exactly where none waits.
    pub fn interruption(&self, cpu: u32) -> Option<u16>
        requires { cpu < length self.now.slots }
        ensures { result ≡ code_waiting ((state_of self.now).cpus cpu) ((state_of self.now).waiting cpu) }
    {
        waiting_code(&self.slots[cpu as usize])
    }
}
