//! What lies behind the lock: a machine, and a ledger of the events that it has recorded.
ghost use Rattle.std.specs.Prelude.{◌≡◌, ℕ, ◌+◌, ◌-◌, ◌<◌, ◌≤◌, true, None, [], length, sum_by, take, IfOk, vec_len};
ghost use Rattle.std.specs.Prelude.{slice_index_or};
ghost use Rattle.std.specs.List.{All};
ghost use Rattle.tx_journal.specs.declared.events.Event.TheVariants.{Turn};
ghost use Rattle.tx_schedule.specs.Machine.{after, event_of, setting_of, state_of, most_events};
ghost use Rattle.tx_meaning.specs.Idle.{is_ready};
ghost use Rattle.std.specs.FinSet.{items};
ghost use Rattle.tx_schedule.specs.HomeLending.{IsLentBy};
ghost use Rattle.tx_schedule.specs.Places.{IsFirstUnlike};
ghost use Rattle.tx_schedule.specs.Lending.{IfLent, kept_of, kept_because, lent_by, refusal_in, home_by, unlike_in};
ghost use Rattle.tx_schedule.specs.DeclaredLending.Home.TheVariants.{Taken};
ghost use Rattle.tx_board.specs.Shares.{shares_for, recorded_by, taken_in};

use crate::turns::{bring_home, cpu_count, is_idle, lend_cpu, make_turn, taken_in};
use std::alloc::Global;
use std::marker::PhantomData;
use std::sync::ledger;
use std::sync::ledger::Ledger;
use tx_meaning::Outcome;
use tx_schedule::{Home, Lend, Machine, NoMemory, Run};

/// A ledger that is not opened yet.
#[derive(Drop)]
pub struct Blank<L: Ledger> {
    blank: ledger::Blank,
    of: PhantomData<L>,
    ghost named: { blank.name ≡ L.name },
    ghost parted: { blank.parts ≡ L.parts },
}

impl<L: Ledger> Blank<L> {
    /// The ledger that L names.
    pub fn new(blank: ledger::Blank) -> Blank<L>
        requires name { blank.name ≡ L.name }
        requires parts { blank.parts ≡ L.parts }
    {
        Blank {
            blank,
            of: PhantomData,
        }
    }
}

/// A part of a board's total: the events that one thread has made.
#[derive(Drop)]
pub struct Share<L: Ledger> {
    turns: u64,
    part: ledger::Share<L>,
    ghost one: { part.parts ≡ 1 },
    ghost counted: { part.amount ≡ turns },
}

/// A machine with the total of a ledger, which is the number of events that the machine has recorded. Nothing
/// takes away from a total, so a board never gets an earlier machine back. The turns that were made away and brought home
/// are among those events.
#[derive(Drop)]
pub struct Board<L: Ledger> {
    machine: Machine,
    book: ledger::Book<L>,
    homed: u64,
    ghost counted: { book.total ≡ length machine.events },
    ghost brought: { homed ≤ length machine.events },
}

/// What a race has come to.
#[derive(Drop)]
pub struct Raced {
    /// The machine behind the race.
    pub machine: Machine,
    /// The recorded events that the workers made.
    pub worked: u64,
    /// Those that the thread which called made behind them.
    pub finished: u64,
    /// The turns among both that were brought home.
    pub homed: u64,
}

/// A share of nothing, cut off from the rest.
fn cut<L: Ledger>(rest: &mut ledger::Share<L>) -> Share<L>
    requires some { 0 < rest.old.parts }
    requires nothing { rest.old.amount ≡ 0 }
    ensures share { result.turns ≡ 0 }
    ensures parts { rest.new.parts + 1 ≡ rest.old.parts }
    ensures amount { rest.new.amount ≡ 0 }
{
    let part = rest.split_off(1, 0);
    Share { turns: 0, part }
}

/// All of a ledger with nothing in it, as shares of one part each.
fn shares_of<L: Ledger>(
    alloc: Global,
    whole: ledger::Share<L>,
    count: u32,
) -> Result<Vec<Share<L>>, NoMemory>
    requires parts { whole.parts ≡ count }
    requires nothing { whole.amount ≡ 0 }
    ensures count { IfOk result (λ shares. vec_len shares ≡ count) }
    ensures nothing { IfOk result (λ shares. All (λ share. share.turns ≡ 0) shares.items) }
{
    let mut rest = whole;
    let mut shares = Vec::new(alloc);
    for _number in 0..count {
        let share = cut(&mut rest);
        shares.push(share)?;
    }
    Ok(shares)
}

impl<L: Ledger> Board<L> {
    /// A board with a machine from which nothing has happened, and its shares of nothing: one for each CPU, and a
    /// last one. The error is want of memory.
    pub fn open(
        alloc: Global,
        machine: Machine,
        blank: Blank<L>,
    ) -> Result<(Board<L>, Vec<Share<L>>), NoMemory>
        requires unused { machine.events ≡ [] }
        requires parts { L.parts ≡ shares_for machine.image }
        ensures machine { IfOk result (λ r. r.0.machine ≡ machine) }
        ensures homed { IfOk result (λ r. r.0.homed ≡ 0) }
        ensures count { IfOk result (λ r. vec_len r.1 ≡ shares_for machine.image) }
        ensures nothing { IfOk result (λ r. All (λ share. share.turns ≡ 0) r.1.items) }
    {
        let Blank { blank, of: _ } = blank;
        let count = cpu_count(&machine) + 1;
        let (book, whole) = blank.open::<L>();
        let shares = shares_of(alloc, whole, count)?;
        let board = Board {
            machine,
            book,
            homed: 0,
        };
        Ok((board, shares))
    }

    /// The machine.
    pub fn machine(&self) -> &Machine
        ensures { result.now ≡ self.now.machine }
    {
        &self.machine
    }

    /// One turn of a CPU. It is counted in the total and in the share, unless it is idle.
    pub fn turn(&mut self, share: &mut Share<L>, cpu: u32) -> Outcome
        requires { cpu < length self.old.machine.image.cpus }
        ensures machine { self.new.machine ≡ after self.old.machine (Turn cpu) }
        ensures outcome { result ≡ (event_of self.old.machine (Turn cpu)).outcome }
        ensures share { share.new.turns ≡ share.old.turns + recorded_by result }
        ensures homed { self.new.homed ≡ self.old.homed }
        ensures ready { let m = self.old.machine in is_ready (setting_of m) (state_of m) cpu ≡ true
            → length self.new.machine.events ≡ length m.events + 1 }
        ensures most { length self.new.machine.events ≤ most_events (setting_of self.new.machine) }
    {
        let outcome = make_turn(&mut self.machine, cpu);
        if !is_idle(outcome) {
            self.book.add(&mut share.part, 1);
            self.book.audit(&mut share.part);
            share.turns += 1;
        }
        outcome
    }

    /// Lends a CPU of the machine, or says why not. Nothing is counted.
    pub fn lend(&mut self, cpu: u32) -> Lend
        requires { cpu < length self.old.machine.image.cpus }
        ensures refused { refusal_in result ≡ kept_because self.old.machine cpu }
        ensures lent { IfLent result (IsLentBy self.old.machine.limits (kept_of self.old.machine) cpu) }
        ensures machine { self.new.machine ≡ lent_by result cpu self.old.machine }
        ensures homed { self.new.homed ≡ self.old.homed }
    {
        lend_cpu(&mut self.machine, cpu)
    }

    /// A run comes home to the machine. Where it is taken, its turns are counted in the total, in the share, and among those
    /// that were brought home.
    pub fn home(&mut self, share: &mut Share<L>, run: Run) -> Home
        requires { run.cpu < length self.old.machine.image.cpus }
        ensures first { IsFirstUnlike (items self.old.machine.image.guard) self.old.machine.limits run
            (kept_of self.old.machine) (unlike_in result) }
        ensures taken { unlike_in result ≡ None → result ≡ Taken run.made.steps }
        ensures machine { self.new.machine ≡ home_by result run.cpu self.old.machine }
        ensures share { share.new.turns ≡ share.old.turns + taken_in result }
        ensures homed { self.new.homed ≡ self.old.homed + taken_in result }
    {
        let home = bring_home(&mut self.machine, run);
        let taken = taken_in(home);
        self.book.add(&mut share.part, taken);
        self.book.audit(&mut share.part);
        share.turns += taken;
        self.homed += taken;
        home
    }

    /// What the race has come to, behind all its turns. The shares are all that `open` gave, in that order.
    pub fn close(self, shares: Vec<Share<L>>) -> Raced
        requires all { vec_len shares ≡ L.parts }
        requires some { 0 < vec_len shares }
        ensures machine { result.machine ≡ self.machine }
        ensures finished { (other : Share L)
            → result.finished ≡ (slice_index_or shares.items (vec_len shares - 1) other).turns }
        ensures worked { result.worked ≡ sum_by (λ share. share.turns) (take (vec_len shares - 1) shares.items) }
        ensures counted { result.worked + result.finished ≡ length result.machine.events }
        ensures homed { (result.homed ≡ self.homed) × (result.homed ≤ length result.machine.events) }
    {
        let Board {
            machine,
            mut book,
            homed,
        } = self;
        let mut shares = shares;
        let recorded = machine.events().len();
        let Share {
            turns: finished,
            part: mut all,
        } = shares.pop().unwrap();
        let mut worked = 0u64;
        book.audit(&mut all);
        for share in shares {
            let Share { turns, part } = share;
            all.merge(part);
            book.audit(&mut all);
            worked += turns;
        }
        book.audit(&mut all);
        Raced {
            machine,
            worked,
            finished,
            homed,
        }
    }
}
