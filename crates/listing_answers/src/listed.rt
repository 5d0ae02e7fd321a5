//! What is due to a listing whose instructions are asked for.
ghost use Rattle.std.specs.Prelude.{◌≡◌, IfOk};
ghost use Rattle.z_list.specs.Listing.{list_of};
ghost use Rattle.listing_answers.specs.Due.{IsDueToList, IsStatus};

use crate::answer::Answer;
use crate::refused::refuse;
use std::alloc::Global;
use tx_journal::Image;
use z_assemble::assemble;
use z_list::listing;
use z_regs::NoMemory;

/// The instructions of an image, as text.
fn disassemble(alloc: Global, image: &Image) -> Result<Answer, NoMemory>
    ensures status { IfOk result (λ answer. answer.status ≡ 0) }
    ensures text { IfOk result (λ answer. answer.text.items ≡ list_of image.now) }
{
    let text = listing(alloc, image)?;
    Ok(Answer { status: 0, text })
}

/// What `list` answers to the bytes of a listing: its instructions, or its first fault.
pub fn list(alloc: Global, input: &[u8]) -> Result<Answer, NoMemory>
    ensures due { IfOk result (λ answer. IsDueToList input.now answer.status answer.text.items) }
    ensures statuses { IfOk result (λ answer. IsStatus answer.status) }
{
    match assemble(alloc, input) {
        Ok(image) => disassemble(alloc, &image),
        Err(fault) => refuse(alloc, fault),
    }
}
