//! What is due for a number: the generator's listing; and the image of that.
ghost use Rattle.std.specs.Prelude.{IfOk};
ghost use Rattle.tx_gen.specs.Programs.{listing_of};
ghost use Rattle.z_assemble.specs.Whole.{Stands};
ghost use Rattle.listing_answers.specs.Due.{IsGenerated, IsStatus};

use crate::answer::Answer;
use listing_laws::laws::generated_listings_have_images;
use std::alloc::Global;
use tx_journal::Image;
use z_assemble::{AssembleFault, assemble};
use z_regs::NoMemory;

/// What `generate` answers: the generator's listing for the number.
pub fn generate(alloc: Global, number: u64) -> Result<Answer, NoMemory>
    ensures due { IfOk result (λ answer. IsGenerated number answer.status answer.text.items) }
    ensures statuses { IfOk result (λ answer. IsStatus answer.status) }
{
    let text = tx_gen::generate(alloc, number)?;
    Ok(Answer { status: 0, text })
}

/// The image of the generator's listing for a number.
pub fn image_for(alloc: Global, number: u64) -> Result<Image, NoMemory>
    ensures { IfOk result (λ image. Stands (listing_of number) image) }
{
    let listing = tx_gen::generate(alloc, number)?;
    generated_listings_have_images();
    match assemble(alloc, listing.as_slice()) {
        Ok(image) => Ok(image),
        Err(AssembleFault::Memory) => Err(NoMemory),
        Err(AssembleFault::Listing(_)) => unreachable!(),
    }
}
