//! The test of a fetch.
ghost use Rattle.std.specs.Prelude.{◌≡◌, ◌<◌, map};
ghost use Rattle.std.specs.FinSet.{items};
ghost use Rattle.z_instr.specs.Access.{accessible_pages, text_pages, unfetched, byte_unfetched, first_some};
ghost use Rattle.z_instr.specs.Operands.{from_up};
ghost use Rattle.z_touch.specs.Refusals.{fetch_answer};

use crate::pages::{PAGE, is_accessible, is_text};
use tx_control::Exception;
use tx_control::codes::{ADDRESSING, PROTECTION, SPECIFICATION};
use z_regs::{CpuImage, Guard, STORAGE_SIZE};

/// The code of the exception at the fetch of one byte.
fn byte_refused(address: u64, image: &CpuImage, guard: &Guard) -> Option<u16>
    ensures { result ≡
        byte_unfetched (accessible_pages image.now.prefix)
        (text_pages image.now.prefix (items guard.now)) address }
{
    let page = address / PAGE;
    if !is_accessible(page, image.prefix) {
        Some(ADDRESSING)
    } else if !is_text(page, image.prefix, guard) {
        Some(PROTECTION)
    } else {
        None
    }
}

/// The code of the exception at the fetch of so many bytes. Of bytes in one page the first decides.
fn bytes_refused(image: &CpuImage, guard: &Guard, length: u8) -> Option<u16>
    requires { 0 < length }
    ensures { result ≡
        first_some (map
        (byte_unfetched (accessible_pages image.now.prefix) (text_pages image.now.prefix (items guard.now)))
        (from_up image.now.address length)) }
{
    if image.address >= STORAGE_SIZE {
        return Some(ADDRESSING);
    }
    if image.address % PAGE + u64::from(length) <= PAGE {
        return byte_refused(image.address, image, guard);
    }
    for k in 0..length {
        if let Some(code) = byte_refused(image.address + u64::from(k), image, guard) {
            return Some(code);
        }
    }
    None
}

/// The code of the exception at the fetch of so many bytes.
#[tactic(auto, unfolding(z_instr::specs::Access::unfetched))]
fn refused(image: &CpuImage, guard: &Guard, length: u8) -> Option<u16>
    requires { 0 < length }
    ensures { result ≡
        unfetched (accessible_pages image.now.prefix)
        (text_pages image.now.prefix (items guard.now)) image.now.address length }
{
    if image.address % 2 == 1 {
        return Some(SPECIFICATION);
    }
    bytes_refused(image, guard, length)
}

/// Whether an instruction of so many bytes, 2, 4 or 6, can be fetched at the CPU's address, and else the
/// exception, which comes at the fetch and has no length: specification at an odd address; then, for each
/// byte from the first, addressing where the CPU may not use it, and protection where it lies in no text
/// page.
///
/// `guard` has the text pages of storage.
pub fn fetchable(image: &CpuImage, guard: &Guard, length: u8) -> Result<(), Exception>
    requires { 0 < length }
    ensures { result ≡
        fetch_answer
        (unfetched (accessible_pages image.now.prefix)
        (text_pages image.now.prefix (items guard.now)) image.now.address length) }
{
    match refused(image, guard, length) {
        None => Ok(()),
        Some(code) => Err(Exception {
            code,
            fetch: true,
            length: 0,
        }),
    }
}
