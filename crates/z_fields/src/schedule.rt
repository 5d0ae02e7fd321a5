//! The events that SCHED gives.
ghost use Rattle.std.specs.Prelude.{◌≡◌, ◌≤◌, ◌<◌, ◌+◌, ◌++◌, ◌∷◌, [], length, replicate, map, IfOk, IfSome};
ghost use Rattle.std.specs.Prelude.{Ok};
ghost use Rattle.std.specs.List.{prefix_len};
ghost use Rattle.z_fields.specs.Schedule.{make_run, turns_in, run_of, is_before_star, with_run};
ghost use Rattle.z_fields.specs.SmallEvent.{event_in};
ghost use Rattle.z_fields.specs.Schedule.{with_item, with_items, scheduled};
ghost use Rattle.z_fields.specs.Steps.{Gives};

use crate::fault::{Kind, LineFault};
use crate::lines::{pieces_by, shortened};
use crate::number::decimal;
use crate::small_event::SmallEvent;
use std::alloc::{AllocError, Global};

/// The most events that a listing may give.
pub const MOST_EVENTS: usize = 4_194_304;

/// What an item of a schedule says.
#[derive(Clone, Copy, Debug, PartialEq, Eq)]
pub struct Run {
    /// Whether it is an external interruption; else turns.
    pub external: bool,
    /// The CPU.
    pub cpu: u64,
    /// How many events it is.
    pub count: u64,
}

fn make_run(external: bool, cpu: Option<u64>, count: Option<u64>) -> Option<Run>
    ensures { result ≡ make_run external cpu count }
{
    let cpu = cpu?;
    let count = count?;
    Some(Run {
        external,
        cpu,
        count,
    })
}

fn count_before_star(item: &[u8]) -> usize
    ensures is { result ≡ prefix_len is_before_star item.now }
    ensures within { result ≤ length item.now }
{
    item.iter().take_while(|b| **b != b'*').count()
}

fn turns_in(stars: usize, item: &[u8]) -> Option<Run>
    ensures { result ≡ turns_in stars item.now }
{
    if stars < item.len() {
        let cpu = decimal(&item[..stars]);
        let count = decimal(&item[stars + 1..]);
        return make_run(false, cpu, count);
    }
    make_run(false, decimal(item), Some(1))
}

/// What an item says, if it has a form.
#[tactic(auto, unfolding(crate::specs::Schedule::run_of))]
fn run_of(item: &[u8]) -> Option<Run>
    ensures { result ≡ run_of item.now }
{
    match item {
        [] => None,
        [b'X', cpu @ ..] => make_run(true, decimal(cpu), Some(1)),
        _ => turns_in(count_before_star(item), item),
    }
}

fn push_many(events: &mut Vec<SmallEvent>, count: u64, event: SmallEvent) -> Result<(), LineFault>
    ensures { Gives result (Ok (map event_in events.old.items ++ replicate count (event_in event)))
        (map event_in events.new.items) }
{
    for turn in 0..count {
        events.push(event)?;
    }
    Ok(())
}

fn with_run(cpus: usize, run: Option<Run>, events: &mut Vec<SmallEvent>) -> Result<(), LineFault>
    requires { cpus ≤ 16 }
    ensures { Gives result (with_run cpus run (map event_in events.old.items)) (map event_in events.new.items) }
{
    let Some(run) = run else {
        return Err(LineFault::Failed(Kind::BadSchedule));
    };
    if run.cpu >= cpus as u64 || run.count == 0 {
        return Err(LineFault::Failed(Kind::BadSchedule));
    }
    if events.len() > MOST_EVENTS || run.count > (MOST_EVENTS - events.len()) as u64 {
        return Err(LineFault::Failed(Kind::BadSchedule));
    }
    push_many(
        events,
        run.count,
        SmallEvent::new(run.external, run.cpu as u32),
    )
}

fn with_item(cpus: usize, item: &[u8], events: &mut Vec<SmallEvent>) -> Result<(), LineFault>
    requires { cpus ≤ 16 }
    ensures { Gives result (with_item cpus item.now (map event_in events.old.items))
        (map event_in events.new.items) }
{
    with_run(cpus, run_of(shortened(item)), events)
}

fn with_items(cpus: usize, items: &[&[u8]], events: &mut Vec<SmallEvent>) -> Result<(), LineFault>
    requires { cpus ≤ 16 }
    ensures { Gives result (with_items cpus (map (λ l. l.now) items.now) (map event_in events.old.items))
        (map event_in events.new.items) }
{
    for item in items {
        with_item(cpus, item, events)?;
    }
    Ok(())
}

fn with_comma(alloc: Global, field: &[u8]) -> Result<Vec<u8>, AllocError>
    ensures { IfOk result (λ v. v.items ≡ field.now ++ 44 ∷ []) }
{
    let mut text = Vec::from_slice(alloc, field)?;
    text.push(b',')?;
    Ok(text)
}

/// Pushes the events of a field.
#[tactic(auto, unfolding(crate::specs::Schedule::scheduled))]
pub fn push_events(
    alloc: Global,
    cpus: usize,
    field: &[u8],
    events: &mut Vec<SmallEvent>,
) -> Result<(), LineFault>
    requires { cpus ≤ 16 }
    ensures { Gives result (scheduled cpus field.now (map event_in events.old.items))
        (map event_in events.new.items) }
{
    let text = with_comma(alloc, field)?;
    let items = pieces_by(alloc, b',', &text)?;
    with_items(cpus, &items, events)
}
