//! A program whose instructions have been read.
ghost use Rattle.std.specs.Prelude.{◌≡◌, ℕ, ◌+◌, ◌*◌, ◌≤◌, List, [], length, Some, IfOk, IfSome, OnOk, slice_index, slice_get};
ghost use Rattle.std.specs.List.{slice_index_or};
ghost use Rattle.std.specs.Arc.{arc_value};
ghost use Rattle.z_regs.specs.Prefix.{storage_size};
ghost use Rattle.z_instr.specs.Computing.{reading_of};
ghost use Rattle.z_instr.specs.Layout.{length_by};
ghost use Rattle.std.specs.FinSet.{items};
ghost use Rattle.tx_program.specs.Programs.{read_at};
ghost use Rattle.tx_program.specs.Shapes.{IsReady};
ghost use Rattle.tx_program.specs.Numbered.{AreRead};

use crate::ready::{Ready, is_fetched, make_ready};
use std::alloc::Global;
use std::marker::Model;
use std::sync::Arc;
use tx_journal::Image;
use z_decode::{decode, length_of};
use z_instr::instr::Instr;
use z_instr::laws::reading_computes;
use z_regs::{Guard, NoMemory, STORAGE_SIZE};

/// The halfwords of storage; an instruction begins at one of them.
const HALFWORDS: usize = STORAGE_SIZE as usize / 2;

/// An image whose assembled instructions have been read, so that none of them is read anew in each turn. Contracts
/// see the image.
#[derive(Drop)]
pub struct Program {
    image: Arc<Image>,
    numbers: Vec<u32>,
    readies: Vec<Ready>,
}

impl Model for Program {
    ghost use Rattle.std.specs.Arc.{arc_value};
    ghost use Rattle.tx_journal.specs.Content.{Content, content_code};
    ghost use Rattle.std.specs.FinSet.{items};
    ghost use Rattle.tx_program.specs.Numbered.{AreRead};

    ghost Value = { Content };

    ghost coded = { content_code };

    ghost view = { λ p. arc_value p.image };

    ghost invariant = { λ p. AreRead (arc_value p.image).storage (items (arc_value p.image).guard)
        p.numbers.items p.readies.items };
}

/// The instruction that bytes read as, which are as many as the first of them says.
pub fn read(bytes: &[u8]) -> Option<Instr>
    requires { length bytes.now ≡ length_by (slice_index bytes.now 0) }
    ensures { result ≡ reading_of bytes.now }
{
    reading_computes();
    match decode(bytes) {
        Ok(instr) => Some(instr),
        Err(_) => None,
    }
}

/// The instruction that the bytes of storage from an address on read as, at least six bytes before its end.
fn read_from(storage: &[u8], place: usize) -> Option<Instr>
    requires { place + 6 ≤ length storage.now }
    ensures { result ≡ read_at storage.now place }
{
    let length = usize::from(length_of(storage[place]));
    read(&storage[place..place + length])
}

/// Reads the instruction that begins at an address, at least six bytes before the end of storage.
fn ready_at(storage: &[u8], guard: &Guard, place: usize) -> Option<Ready>
    requires size { length storage.now ≡ storage_size }
    requires place { place + 6 ≤ length storage.now }
    ensures { IfSome result (λ r. IsReady storage.now (items guard.now) place r) }
{
    let length = length_of(storage[place]);
    let instr = read_from(storage, place)?;
    let fetched = is_fetched(place as u64, guard, length);
    Some(make_ready(instr, fetched))
}

/// Reads the instruction that begins at an address, and gives it the next number.
fn add(
    storage: &[u8],
    guard: &Guard,
    start: u32,
    numbers: &mut Vec<u32>,
    readies: &mut Vec<Ready>,
) -> Result<(), NoMemory>
    requires size { length storage.now ≡ storage_size }
    requires read { AreRead storage.now (items guard.now) numbers.old.items readies.old.items }
    ensures { OnOk result (AreRead storage.now (items guard.now) numbers.new.items readies.new.items) }
{
    let place = start as usize;
    if place % 2 == 1 || place + 6 > storage.len() || readies.len() >= HALFWORDS {
        return Ok(());
    }
    let Some(ready) = ready_at(storage, guard, place) else {
        return Ok(());
    };
    readies.push(ready)?;
    numbers[place / 2] = readies.len() as u32;
    Ok(())
}

/// Reads the assembled instructions of an image.
fn add_all(image: &Image, numbers: &mut Vec<u32>, readies: &mut Vec<Ready>) -> Result<(), NoMemory>
    requires { AreRead image.now.storage (items image.now.guard) numbers.old.items readies.old.items }
    ensures { OnOk result (AreRead image.now.storage (items image.now.guard) numbers.new.items
        readies.new.items) }
{
    let _cpus = image.cpu_count();
    for start in image.starts.as_slice() {
        add(&image.storage, &image.guard, *start, numbers, readies)?;
    }
    Ok(())
}

/// Halfwords of which none has a number; they are those of all storage.
fn unread(alloc: Global, halfwords: usize) -> Result<Vec<u32>, NoMemory>
    requires { 2 * halfwords ≡ storage_size }
    ensures { IfOk result (λ numbers. (storage text : List ℕ) → AreRead storage text numbers.items []) }
{
    let numbers = vec![in alloc; 0u32; halfwords]?;
    Ok(numbers)
}

/// The number of a halfword, 0 for none.
fn number_of(numbers: &[u32], half: usize) -> usize
    ensures { result ≡ slice_index_or numbers.now half 0 }
{
    match numbers.get(half) {
        None => 0,
        Some(number) => *number as usize,
    }
}

/// The instruction at an index, where there is one.
fn nth(readies: &[Ready], index: usize) -> Option<&Ready>
    ensures { IfSome result (λ r. slice_get readies.now index ≡ Some r.now) }
{
    readies.get(index)
}

impl Program {
    /// The program of an image. The error is want of memory.
    pub fn open(alloc: Global, image: Arc<Image>) -> Result<Program, NoMemory>
        ensures { IfOk result (λ program. program ≡ arc_value image) }
    {
        let mut numbers = unread(alloc, HALFWORDS)?;
        let mut readies = Vec::new(alloc);
        add_all(&image, &mut numbers, &mut readies)?;
        Ok(Program {
            image,
            numbers,
            readies,
        })
    }

    /// The image.
    pub fn image(&self) -> &Image
        ensures { result.now ≡ self.now }
    {
        &self.image
    }

    /// The image, shared.
    pub fn shared(&self) -> &Arc<Image>
        ensures { arc_value result.now ≡ self.now }
    {
        &self.image
    }

    /// The bytes of its storage.
    pub fn bytes(&self) -> &[u8]
        ensures value { result.now ≡ self.now.storage }
        ensures size { length self.now.storage ≡ storage_size }
    {
        let _cpus = self.image.cpu_count();
        self.image.storage.as_slice()
    }

    /// Its text pages.
    pub fn guard(&self) -> &Guard
        ensures { result.now ≡ self.now.guard }
    {
        &self.image.guard
    }

    /// The instruction that was read at an absolute address, where there is one.
    pub fn known(&self, place: u64) -> Option<&Ready>
        ensures { IfSome result (λ r. IsReady self.now.storage (items self.now.guard) place r.now) }
    {
        if place % 2 == 1 {
            return None;
        }
        let number = number_of(&self.numbers, place as usize / 2);
        if number == 0 {
            return None;
        }
        nth(&self.readies, number - 1)
    }
}
