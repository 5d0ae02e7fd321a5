//! What is due to a text that is no listing.
ghost use Rattle.std.specs.Prelude.{◌≡◌, ℕ, List, IfOk};
ghost use Rattle.z_assemble.specs.Whole.{HasFault};
ghost use Rattle.z_assemble.specs.Words.{fault_line};
ghost use Rattle.listing_answers.specs.Due.{IsRefusal, long_fault};

use crate::answer::Answer;
use std::alloc::Global;
use z_assemble::{AssembleFault, ListingFault, fault_line};
use z_regs::NoMemory;

/// The line of a fault.
fn refuse_fault(alloc: Global, fault: ListingFault) -> Result<Answer, NoMemory>
    ensures status { IfOk result (λ answer. answer.status ≡ 5) }
    ensures text { IfOk result (λ answer. answer.text.items ≡ fault_line fault) }
{
    let line = fault_line(alloc, fault)?;
    Ok(Answer {
        status: 5,
        text: line.into_bytes(),
    })
}

/// What is answered where a text was not assembled: the line of its first fault, or that there was no memory.
pub fn refuse(alloc: Global, fault: AssembleFault) -> Result<Answer, NoMemory>
    ensures status { IfOk result (λ answer. answer.status ≡ 5) }
    ensures refusal { IfOk result (λ answer. (input : List ℕ) → HasFault input fault
        → IsRefusal input answer.status answer.text.items) }
{
    match fault {
        AssembleFault::Memory => Err(NoMemory),
        AssembleFault::Listing(fault) => refuse_fault(alloc, fault),
    }
}

/// The line of the fault of a listing that has too many bytes.
pub fn refuse_long_listing(alloc: Global) -> Result<Answer, NoMemory>
    ensures status { IfOk result (λ answer. answer.status ≡ 5) }
    ensures text { IfOk result (λ answer. answer.text.items ≡ fault_line long_fault) }
{
    refuse_fault(alloc, ListingFault { line: 0, kind: 1 })
}
