//! The next instruction, from its bytes.
ghost use Rattle.std.specs.Prelude.{◌≡◌, ◌<◌, ◌≤◌, ◌+◌, length, slice_index, take, drop};
ghost use Rattle.std.specs.FinSet.{items};
ghost use Rattle.z_regs.specs.Cpu.{cpu_of};
ghost use Rattle.z_regs.specs.Prefix.{storage_size};
ghost use Rattle.z_instr.specs.Layout.{length_by};
ghost use Rattle.z_instr.specs.Computing.{reading_of};
ghost use Rattle.tx_private.specs.Reading.{ReadsAs};

use crate::known::Readings;
use tx_control::Exception;
use tx_control::codes::OPERATION;
use z_decode::{decode, length_of};
use z_instr::instr::Instr;
use z_regs::{Bytes, CpuImage, Guard, STORAGE_SIZE, Storage};
use z_touch::fetchable;

/// The byte at an address in storage; behind its end any byte does.
fn first_byte(seen: &Storage, address: u64) -> u8
    requires { length seen.now ≡ storage_size }
    ensures { address < storage_size → result ≡ slice_index seen.now address }
{
    if address < STORAGE_SIZE {
        seen.get(address)
    } else {
        0
    }
}

/// The instruction that the bytes at an address read as, if they do.
fn instruction_of(readings: &Readings, address: u64, bytes: &[u8]) -> Option<Instr>
    requires { length bytes.now ≡ length_by (slice_index bytes.now 0) }
    ensures { result ≡ reading_of bytes.now }
{
    if let Some(instr) = readings.find(address, bytes) {
        return Some(instr);
    }
    match decode(bytes) {
        Ok(instr) => Some(instr),
        Err(_) => None,
    }
}

/// The instruction that so many bytes from an address on read as, if they do.
fn decode_at(readings: &Readings, seen: &Storage, address: u64, n: u8) -> Option<Instr>
    requires size { length seen.now ≡ storage_size }
    requires inside { address + n ≤ storage_size }
    requires length { n ≡ length_by (slice_index seen.now address) }
    ensures { result ≡ reading_of (take n (drop address seen.now)) }
{
    let start = address as usize;
    let end = start + usize::from(n);
    let all = seen.as_slice();
    instruction_of(readings, address, &all[start..end])
}

/// The instruction at the CPU's address, or the exception that comes as it is fetched or read. `seen` is
/// storage in the order of the CPU's real addresses.
pub fn read(
    readings: &Readings,
    seen: &Storage,
    image: &CpuImage,
    guard: &Guard,
) -> Result<Instr, Exception>
    requires { length seen.now ≡ storage_size }
    ensures { ReadsAs (items guard.now) seen.now (cpu_of image.now) result }
{
    let length = length_of(first_byte(seen, image.address));
    match fetchable(image, guard, length) {
        Err(exception) => Err(exception),
        Ok(()) => match decode_at(readings, seen, image.address, length) {
            Some(instr) => Ok(instr),
            None => Err(Exception {
                code: OPERATION,
                fetch: false,
                length,
            }),
        },
    }
}
