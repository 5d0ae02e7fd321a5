//! Lines, pages and bytes that a run that comes home has needed, compared with those of its machine.
ghost use Rattle.std.specs.Prelude.{◌≡◌, ℕ, ◌<◌, None, Some, true, if◌then◌else◌, nat_eq};
ghost use Rattle.std.specs.FinSet.{items};
ghost use Rattle.std.specs.List.{list_any};
ghost use Rattle.line_table.specs.declared.table.Mode.{Mode};
ghost use Rattle.tx_works.specs.Parts.{local_of};
ghost use Rattle.tx_works.specs.Stranger.{SeeAlike};
ghost use Rattle.tx_works.specs.Owned.{holders_in, storage_in};
ghost use Rattle.tx_works.specs.Marks.{mode_in};
ghost use Rattle.tx_works.specs.Own.{given, is_touched};
ghost use Rattle.tx_works.specs.Traces.{is_paged};
ghost use Rattle.tx_meaning.specs.Asking.{is_there};
ghost use Rattle.tx_works.specs.RunMade.{AgreeOnPages};
ghost use Rattle.tx_home.specs.Places.{at, in_bytes, in_lines, in_pages, in_storage, lacking, mode_value, page_value};
ghost use Rattle.tx_home.specs.declared.place.Place.TheVariants.{Text};

use crate::comparing::at;
use crate::place::{Place, Unlike};
use line_table::Mode;
use tx_works::{Cpu, Lines, Program, Run};
use z_regs::Guard;

/// A mode as a number.
fn mode_value(mode: Option<Mode>) -> u64
    ensures { result ≡ mode_value mode }
{
    match mode {
        None => 0,
        Some(Mode::Shared) => 1,
        Some(Mode::Exclusive) => 2,
    }
}

/// A line, where it is held in a lesser mode than it was needed.
fn lacking(line: u32, kept: Option<Mode>, needed: Mode) -> Option<Unlike>
    ensures value { result ≡ lacking line kept (Some needed) }
    ensures held { result ≡ None → (mode : Mode) → is_there mode (Some needed) ≡ true → is_there mode kept ≡ true }
{
    let kept = mode_value(kept);
    let given = mode_value(Some(needed));
    if kept >= given {
        return None;
    }
    Some(Unlike {
        place: Place::Held(line),
        kept,
        given,
    })
}

/// The first line that the CPU holds in a lesser mode than the run has needed.
fn unlike_lines(lines: &Lines, run: &Run) -> Option<Unlike>
    requires { run.now.cpu < lines.now.cpus }
    ensures value { result ≡ in_lines (holders_in lines.now run.now.cpu) run.now.made.needed }
    ensures held { result ≡ None → (line : ℕ) (mode : Mode) → is_there mode (mode_in run.now.made.needed line) ≡ true
        → is_there mode (holders_in lines.now run.now.cpu line) ≡ true }
{
    let mut from = 0;
    while let Some((line, mode)) = run.next_need(from) {
        if let Some(unlike) = lacking(line, lines.mode_of(run.cpu(), line), mode) {
            return Some(unlike);
        }
        from = line + 1;
    }
    None
}

/// A test as a number.
fn flag(holds: bool) -> u64
    ensures { result ≡ (if holds then 1 else 0) }
{
    if holds {
        return 1;
    }
    0
}

/// Whether a page is a text page, as a number.
fn page_value(guard: &Guard, page: u32) -> u64
    ensures { result ≡ page_value (items guard.now) page }
{
    flag(guard.has(page))
}

/// A page, where it is a text page for the one and not for the other.
fn unlike_page(guard: &Guard, page: u32, is_text: bool) -> Option<Unlike>
    ensures value { result ≡ at (Text page) (page_value (items guard.now) page) (if is_text then 1 else 0) }
    ensures same { result ≡ None → list_any (nat_eq page) (items guard.now) ≡ is_text }
{
    at(Place::Text(page), page_value(guard, page), flag(is_text))
}

/// The first page of the run's instructions and stores that is a text page for the one and not for the other.
fn unlike_pages(guard: &Guard, run: &Run) -> Option<Unlike>
    ensures value { result ≡ in_pages (items guard.now) run.now }
    ensures same { result ≡ None → AgreeOnPages (is_paged run.now.made.traces) run.now.text (items guard.now) }
{
    let mut from = 0;
    while let Some((page, is_text)) = run.next_page(from) {
        if let Some(unlike) = unlike_page(guard, page, is_text) {
            return Some(unlike);
        }
        from = page + 1;
    }
    None
}

/// The first byte of the run's instructions and operands that the CPU sees otherwise.
fn unlike_bytes(lines: &Lines, cpu: &Cpu, run: &Run) -> Option<Unlike>
    ensures value { result ≡ in_bytes run.now (local_of cpu.now) (storage_in lines.now) }
    ensures same { result ≡ None → SeeAlike (is_touched run.now.made.own)
        (local_of run.now.made.start).attempt.overlay (given run.now.made.own)
        (local_of cpu.now).attempt.overlay (storage_in lines.now) }
{
    let difference = lines.first_difference(run, cpu)?;
    Some(Unlike {
        place: Place::Byte(difference.address),
        kept: u64::from(difference.kept),
        given: u64::from(difference.given),
    })
}

/// The first line, page or byte that differs.
pub(crate) fn unlike_in_storage(
    lines: &Lines,
    cpu: &Cpu,
    run: &Run,
    program: &Program,
) -> Option<Unlike>
    requires { run.now.cpu < lines.now.cpus }
    ensures value { result ≡ in_storage (items program.now.guard) run.now (holders_in lines.now run.now.cpu)
        (local_of cpu.now) (storage_in lines.now) }
    ensures held { result ≡ None → (line : ℕ) (mode : Mode) → is_there mode (mode_in run.now.made.needed line) ≡ true
        → is_there mode (holders_in lines.now run.now.cpu line) ≡ true }
    ensures pages { result ≡ None → AgreeOnPages (is_paged run.now.made.traces) run.now.text (items program.now.guard) }
    ensures alike { result ≡ None → SeeAlike (is_touched run.now.made.own)
        (local_of run.now.made.start).attempt.overlay (given run.now.made.own)
        (local_of cpu.now).attempt.overlay (storage_in lines.now) }
{
    if let Some(unlike) = unlike_lines(lines, run) {
        return Some(unlike);
    }
    if let Some(unlike) = unlike_pages(program.guard(), run) {
        return Some(unlike);
    }
    unlike_bytes(lines, cpu, run)
}
