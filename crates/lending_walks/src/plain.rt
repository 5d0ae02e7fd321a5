//! Where a run differs from a machine, by what both show.
ghost use Rattle.std.specs.Prelude.{◌<◌, length};

use tx_machine::{Home, Machine, Place};
use tx_run::Run;
use z_regs::CpuImage;

/// Two values of a place.
type Values = (Place, u64, u64);

/// The two values, where they are not the same.
fn unlike(place: Place, kept: u64, given: u64) -> Option<Values> {
    if kept == given {
        return None;
    }
    Some((place, kept, given))
}

/// The first register that differs.
fn unlike_registers(kept: &CpuImage, given: &CpuImage) -> Option<Values> {
    for number in 0..16u8 {
        let at = usize::from(number);
        let found = unlike(Place::General(number), kept.general[at], given.general[at]);
        if found.is_some() {
            return found;
        }
    }
    for number in 0..16u8 {
        let at = usize::from(number);
        let given = u64::from(given.access[at]);
        let found = unlike(Place::Access(number), u64::from(kept.access[at]), given);
        if found.is_some() {
            return found;
        }
    }
    unlike(Place::Address, kept.address, given.address)
        .or(unlike(
            Place::Condition,
            u64::from(kept.condition),
            u64::from(given.condition),
        ))
        .or(unlike(Place::Mask, u64::from(kept.mask), u64::from(given.mask)))
}

/// The first number before the counted turns that differs.
fn unlike_attempt(machine: &Machine, run: &Run, cpu: u32) -> Option<Values>
    requires { cpu < length machine.now.image.cpus }
{
    let (attempt, completed) = match machine.live(cpu) {
        None => (0, 0),
        Some((_, completed)) => (machine.tally(cpu).attempts, completed),
    };
    let given = match run.start().live() {
        None => 0,
        Some((_, completed)) => completed,
    };
    unlike(Place::Attempt, u64::from(attempt), u64::from(run.attempt())).or(unlike(
        Place::Completed,
        u64::from(completed),
        u64::from(given),
    ))
}

/// What is due to a run, as far as a machine shows it.
#[derive(Clone, Copy)]
pub struct Due {
    /// The first place before the counted turns that differs.
    before: Option<Values>,
    /// The machine's counted turns of the CPU.
    turns: u64,
    /// Whether the run was lent with as many.
    same_turns: bool,
    /// The first place behind them, and before the lines, that differs.
    behind: Option<Values>,
    /// The steps of the run.
    steps: u32,
}

/// The head of the stop queue, where there is one.
fn unlike_head(machine: &Machine) -> Option<Values> {
    let head = machine.queue_head()?;
    Some((Place::Head, u64::from(head).saturating_add(1), 0))
}

/// What is due to a run of a CPU of a machine.
pub fn due_to(machine: &Machine, run: &Run, cpu: u32) -> Due
    requires { cpu < length machine.now.image.cpus }
{
    let turns = u64::from(machine.tally(cpu).turns);
    Due {
        before: unlike_attempt(machine, run, cpu),
        turns,
        same_turns: turns == u64::from(run.turns()),
        behind: unlike_head(machine).or(unlike_registers(machine.cpu(cpu), run.start().image())),
        steps: run.steps(),
    }
}

impl Due {
    /// Whether this may be told: the first place that differs, with its values; or that the turns are out of reach, which
    /// does not show; and that a run is taken only where no place is seen to differ.
    pub fn allows(&self, told: Home) -> bool {
        if let Some(due) = self.before {
            return is_told(told, due);
        }
        if is_turns(told, self.turns) {
            return true;
        }
        if !self.same_turns {
            return false;
        }
        match self.behind {
            Some(due) => is_told(told, due),
            None => is_of_storage(told, self.steps),
        }
    }
}

/// Whether these values of a place were told.
fn is_told(told: Home, due: Values) -> bool {
    let (due_place, due_kept, due_given) = due;
    match told {
        Home::Taken(_) => false,
        Home::Discarded { place, kept, given } => {
            place == due_place && kept == due_kept && given == due_given
        }
    }
}

/// Whether the counted turns were told, so many of them, or as many out of reach.
fn is_turns(told: Home, turns: u64) -> bool {
    match told {
        Home::Taken(_) => false,
        Home::Discarded { place, kept, .. } => {
            place == Place::Turns && (kept & 0xFFFF_FFFF) == turns
        }
    }
}

/// Whether so many turns were taken, or a line, a page or a byte was told with two values.
fn is_of_storage(told: Home, steps: u32) -> bool {
    match told {
        Home::Taken(taken) => taken == steps,
        Home::Discarded { place, kept, given } => {
            kept != given && matches!(place, Place::Held(_) | Place::Text(_) | Place::Byte(_))
        }
    }
}
