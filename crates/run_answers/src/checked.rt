//! What is due to a listing with a report behind it, which is judged by the history that it tells.
ghost use Rattle.std.specs.Prelude.{◌≡◌, ◌<◌, ◌≤◌, ◌-◌, ◌^◌, ℕ, List, Err, IfOk, length};
ghost use Rattle.z_assemble.specs.Whole.{Stands};
ghost use Rattle.run_answers.specs.Checks.{IsDueToCheck, IsVerdict, Says, checked_line, refused_line};
ghost use Rattle.listing_answers.specs.Due.{IsAnyStatus};

use input_parts::part;
use listing_answers::{Answer, NoMemory, refuse};
use std::alloc::Global;
use tx_check::{CheckFault, check};
use tx_journal::Image;
use z_assemble::assemble;

/// The line with which a report begins.
const REPORT_MARK: &[u8] = b"ZTX REPORT";

/// What is said of a report that is accepted, with so many entries.
fn accept(alloc: Global, entries: u32) -> Result<Answer, NoMemory>
    ensures status { IfOk result (λ answer. answer.status ≡ 0) }
    ensures text { IfOk result (λ answer. answer.text.items ≡ checked_line entries) }
{
    let line = format!(in alloc; "CHECKED {entries}\n")?;
    Ok(Answer {
        status: 0,
        text: line.into_bytes(),
    })
}

/// What is said of a report that is refused at the line or the entry with this number.
fn refuse_at(alloc: Global, place: &str, number: u32) -> Result<Answer, NoMemory>
    ensures status { IfOk result (λ answer. answer.status ≡ 7) }
    ensures text { IfOk result (λ answer. answer.text.items ≡ refused_line place.now number) }
{
    let line = format!(in alloc; "ztx: report refused: {place} {number}\n")?;
    Ok(Answer {
        status: 7,
        text: line.into_bytes(),
    })
}

/// What is said of a report that is refused.
fn refuse_report(alloc: Global, fault: CheckFault) -> Result<Answer, NoMemory>
    ensures says { IfOk result (λ answer. Says (Err fault) answer.status answer.text.items) }
    ensures status { IfOk result (λ answer. answer.status ≡ 7) }
{
    match fault {
        CheckFault::Memory => Err(NoMemory),
        CheckFault::Form(line) => refuse_at(alloc, "form line", line),
        CheckFault::Entry(entry) => refuse_at(alloc, "entry", entry),
        CheckFault::State(line) => refuse_at(alloc, "state line", line),
    }
}

/// What is said of a report by the image of its listing.
fn judge(alloc: Global, image: &Image, report: &[u8]) -> Result<Answer, NoMemory>
    requires few { length report.now < 2 ^ 32 - 1 }
    ensures verdict { IfOk result (λ answer. (listing : List ℕ) → Stands listing image.now
        → IsVerdict listing report.now answer.status answer.text.items) }
    ensures statuses { IfOk result (λ answer. IsAnyStatus answer.status) }
{
    match check(alloc, image, report) {
        Ok(entries) => accept(alloc, entries),
        Err(fault) => refuse_report(alloc, fault),
    }
}

/// What `check` answers to an input that is not too long: a listing, and a report that begins with the first line that
/// is `ZTX REPORT`, or an empty one. It is the listing's first fault; or how many entries the report's history has,
/// where the report is sound; or the line or the entry at which it is not.
pub fn check_report(alloc: Global, input: &[u8]) -> Result<Answer, NoMemory>
    requires short { length input.now ≤ 134217728 }
    ensures due { IfOk result (λ answer. IsDueToCheck input.now answer.status answer.text.items) }
    ensures statuses { IfOk result (λ answer. IsAnyStatus answer.status) }
{
    let parts = part(input, REPORT_MARK);
    match assemble(alloc, parts.listing) {
        Ok(image) => judge(alloc, &image, parts.marked),
        Err(fault) => refuse(alloc, fault),
    }
}
