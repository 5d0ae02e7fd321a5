//! Instructions that were read before, by the addresses where they stand.
ghost use Rattle.std.specs.Prelude.{◌≡◌, ◌≤◌, ◌+◌, true, Some, length, take};
ghost use Rattle.z_instr.specs.Computing.{reading_of};

use std::alloc::Global;
use tx_journal::Image;
use z_decode::{decode, length_of};
use z_instr::instr::Instr;
use z_regs::NoMemory;

/// How many instructions are kept; two whose addresses are so many halfwords apart have one place.
const PLACES: usize = 4096;

/// An instruction and its bytes, the first `length` of these.
#[derive(Clone, Copy)]
pub struct Known {
    bytes: [u8; 6],
    length: u8,
    instr: Instr,
    ghost short: { length ≤ 6 },
    ghost reads: { reading_of (take length bytes) ≡ Some instr },
}

/// Instructions that have been read once, so that none of them is read anew at each step. What stands in storage may
/// have changed since, so bytes are compared with those that were read. Contracts see nothing of them.
#[derive(Drop)]
pub struct Readings {
    places: Vec<Option<Known>>,
}

/// The place of an instruction that begins at an address.
fn place_of(address: u64) -> usize {
    (address / 2 % PLACES as u64) as usize
}

/// The instruction that begins at an address, at least six bytes before the end of storage, where one can be read.
fn known_at(storage: &[u8], at: usize) -> Option<Known>
    requires { at + 6 ≤ length storage.now }
{
    let bytes = [
        storage[at],
        storage[at + 1],
        storage[at + 2],
        storage[at + 3],
        storage[at + 4],
        storage[at + 5],
    ];
    let length = length_of(bytes[0]);
    match decode(&bytes[..usize::from(length)]) {
        Ok(instr) => Some(Known {
            bytes,
            length,
            instr,
        }),
        Err(_) => None,
    }
}

/// Keeps the instruction that begins at an address, in place of another that was kept there.
fn keep(places: &mut [Option<Known>], storage: &[u8], start: u32) {
    let at = start as usize;
    let place = place_of(u64::from(start));
    if at + 6 > storage.len() || place >= places.len() {
        return;
    }
    places[place] = known_at(storage, at);
}

/// Whether bytes are those of the instruction.
fn is_of(known: &Known, bytes: &[u8]) -> bool
    ensures { result ≡ true → take known.now.length known.now.bytes ≡ bytes.now }
{
    let own = &known.bytes[..usize::from(known.length)];
    own == bytes
}

impl Readings {
    ghost use Rattle.std.specs.Prelude.{◌≡◌, Some, IfSome};
    ghost use Rattle.z_instr.specs.Computing.{reading_of};

    /// None.
    pub fn none(alloc: Global) -> Readings {
        Readings {
            places: Vec::new(alloc),
        }
    }

    /// Those of an image's assembled instructions, as many as there is room for. The error is want of memory.
    pub fn open(alloc: Global, image: &Image) -> Result<Readings, NoMemory> {
        let mut places = vec![in alloc; None; PLACES]?;
        for start in image.starts.as_slice() {
            keep(&mut places, &image.storage, *start);
        }
        Ok(Readings { places })
    }

    /// The instruction that bytes at an address read as, where it was read before.
    pub fn find(&self, address: u64, bytes: &[u8]) -> Option<Instr>
        ensures { IfSome result (λ instr. reading_of bytes.now ≡ Some instr) }
    {
        let known = self.places.get(place_of(address))?.as_ref()?;
        if is_of(known, bytes) {
            Some(known.instr)
        } else {
            None
        }
    }
}
