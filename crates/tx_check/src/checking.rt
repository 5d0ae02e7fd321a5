//! Whether a report is sound, and else where it first is not.
ghost use Rattle.std.specs.Prelude.{◌≡◌, ◌<◌, ◌+◌, ◌-◌, ◌^◌, ◌++◌, IfOk, IfErr, length, map, take, drop};
ghost use Rattle.report_form.specs.Sheet.{IsSheet, HasPlaces, history_at};
ghost use Rattle.report_form.specs.Text.{IsPlace};
ghost use Rattle.z_regs.specs.Prefix.{storage_size};
ghost use Rattle.report_text.specs.Report.{state_part};
ghost use Rattle.tx_flat.specs.Machine.{state_of};
ghost use Rattle.tx_check.specs.Seen.{shown_seen};
ghost use Rattle.tx_check.specs.Sound.{joined};
ghost use Rattle.tx_replay.specs.Replay.{IsReplayed};
ghost use Rattle.tx_check.specs.Lines.{lines_of};
ghost use Rattle.tx_check.specs.Sound.{IsSound};
ghost use Rattle.tx_check.specs.Answers.{IsRefused, IsAccepted, IsDueText, HasNoForm, HasNoHistory};

use crate::lines::first_unexpected;
use crate::telling::seen_cpus;
use crate::writing::{Seen, add_state};
use report_form::{FormFault, Sheet, read};
use std::alloc::{AllocError, Global};
use tx_journal::Image;
use tx_replay::{ReplayFault, Replayed, replay};
use z_regs::{NoMemory, Storage};

/// Why a report is refused. Lines and entries are counted from 1.
#[derive(Clone, Copy, Debug, PartialEq, Eq)]
pub enum CheckFault {
    /// There was no memory.
    Memory,
    /// The first line that is missing, of another form or too many.
    Form(u32),
    /// The form is right, and this is the first entry whose line no entry has that could come there.
    Entry(u32),
    /// Form and history are right, and this is the first line that is not what the history leaves.
    State(u32),
}

/// Where the entries of a report stand, or the first line that leaves the form.
fn sheet_of(alloc: Global, image: &Image, report: &[u8]) -> Result<Sheet, CheckFault>
    requires { length report.now < 2 ^ 32 - 1 }
    ensures sheet { IfOk result (λ s. IsSheet image.now (lines_of report.now) s) }
    ensures places { IfOk result (λ s. HasPlaces report.now s) }
    ensures fault { IfErr result (λ fault. HasNoForm image.now (lines_of report.now) fault) }
{
    match read(alloc, image, report) {
        Ok(sheet) => Ok(sheet),
        Err(FormFault::Memory) => Err(CheckFault::Memory),
        Err(FormFault::Line(number)) => Err(CheckFault::Form(number as u32)),
    }
}

/// What the history in a report leaves; or the first entry that does not fit.
fn history_of(
    alloc: Global,
    image: &Image,
    report: &[u8],
    sheet: Sheet,
) -> Result<Replayed, CheckFault>
    requires few { length report.now < 2 ^ 32 - 1 }
    requires sheet { IsSheet image.now (lines_of report.now) sheet }
    requires place { IsPlace report.now sheet.history }
    ensures replayed { IfOk result (λ r. IsReplayed image.now
        (take sheet.entries (drop (history_at image.now + 1) (lines_of report.now))) (state_of r.flat) r.ends) }
    ensures cpus { IfOk result (λ r. length r.flat.slots ≡ length image.now.cpus) }
    ensures fault { IfErr result (λ fault. HasNoHistory image.now (lines_of report.now) fault) }
{
    match replay(alloc, image, &report[sheet.history.byte..], sheet.entries) {
        Ok(replayed) => Ok(replayed),
        Err(ReplayFault::Memory) => Err(CheckFault::Memory),
        Err(ReplayFault::Entry(number)) => Err(CheckFault::Entry(number as u32)),
    }
}

/// The state.
fn written(
    alloc: Global,
    image: &Image,
    cpus: &[Seen],
    storage: &Storage,
) -> Result<Vec<u8>, AllocError>
    requires { length storage.now ≡ storage_size }
    ensures { IfOk result (λ text. text.items
        ≡ state_part (map shown_seen cpus.now) image.now.shows storage.now) }
{
    let _count = image.cpu_count();
    let mut text = Vec::new(alloc);
    add_state(&mut text, cpus, image.shows.as_slice(), storage)?;
    Ok(text)
}

/// The state that is expected in front of the history of a report. The report's own history and events stand behind it
/// in the report that is expected.
fn expected_state(
    alloc: Global,
    image: &Image,
    report: &[u8],
    sheet: Sheet,
    replayed: &Replayed,
) -> Result<Vec<u8>, NoMemory>
    requires sheet { IsSheet image.now (lines_of report.now) sheet }
    requires places { HasPlaces report.now sheet }
    requires replayed { IsReplayed image.now
        (take sheet.entries (drop (history_at image.now + 1) (lines_of report.now))) (state_of replayed.now.flat)
        replayed.now.ends }
    requires cpus { length replayed.now.flat.slots ≡ length image.now.cpus }
    ensures { IfOk result (λ state. IsDueText image.now (lines_of report.now) sheet.entries
        (state.items ++ joined (drop sheet.count.line (lines_of report.now)))) }
{
    let cpus = seen_cpus(alloc, image, report, sheet, replayed)?;
    let storage = replayed.flat.storage();
    let text = written(alloc, image, cpus.as_slice(), storage)?;
    Ok(text)
}

/// The number of entries of a report that is sound: it has the form of a report of the image, its entries are a
/// legal history, and all else that it tells is what this history leaves, but for turns, questions, rejects and the
/// recorded events, which may be any. `Form`, `Entry` and `State` come in this order, each at the first place; and
/// `Memory` for want of memory.
pub fn check(alloc: Global, image: &Image, report: &[u8]) -> Result<u32, CheckFault>
    requires few { length report.now < 2 ^ 32 - 1 }
    ensures sound { IfOk result (λ entries. IsSound image.now report.now entries) }
    ensures accepted { IfOk result (λ entries. IsAccepted image.now report.now entries) }
    ensures fault { IfErr result (λ fault. IsRefused image.now report.now fault) }
{
    let sheet = sheet_of(alloc, image, report)?;
    let replayed = history_of(alloc, image, report, sheet)?;
    let state = expected_state(alloc, image, report, sheet, &replayed);
    drop(replayed);
    let Ok(state) = state else {
        return Err(CheckFault::Memory);
    };
    let Ok(place) = first_unexpected(report, sheet.count, state) else {
        return Err(CheckFault::Memory);
    };
    match place {
        Some(place) => Err(CheckFault::State(place as u32 + 1)),
        None => Ok(sheet.entries as u32),
    }
}
