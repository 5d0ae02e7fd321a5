//! What a CPU does in its turn, once its lines are there.
ghost use Rattle.std.specs.Prelude.{◌≡◌, ◌<◌, true, false, None, length};
ghost use Rattle.tx_lines.specs.Plans.{HasRoom};
ghost use Rattle.tx_progress.specs.Doing.{stopped};
ghost use Rattle.tx_progress.specs.Local.{block_stored, interruption_taken};
ghost use Rattle.tx_meaning.specs.State.{is_live};
ghost use Rattle.tx_meaning.specs.Turn.{outcome_of_abort};
ghost use Rattle.tx_meaning.specs.declared.outcome.Outcome.TheVariants.{Executed};
ghost use Rattle.tx_keeping.specs.Kept.{beside};
ghost use Rattle.tx_keeping.specs.Moves.{k_storing, k_taking};
ghost use Rattle.tx_keeping.specs.Turn.{k_ends_by, k_stopping, k_turned};
ghost use Rattle.tx_works.specs.Ready.{MayEndBy};
ghost use Rattle.tx_works.specs.Steps.{k_left};
ghost use Rattle.tx_works.specs.Turned.{turned_as};
ghost use Rattle.tx_works.specs.Works.{Seat, kept_by, IsSameSize, KeepsBooks};

use crate::works::Works;
use tx_control::{Exception, Why};
use tx_journal::Entry;
use tx_meaning::{Outcome, Reject};

/// What came of an event, and the reject in it, where there was one.
#[derive(Clone, Copy)]
pub struct Turned {
    /// What the event has come to, for its CPU.
    pub outcome: Outcome,
    /// The reject.
    pub reject: Option<Reject>,
}

/// The bit of an interruption code that tells of an aborted transaction.
const ABORTED_BIT: u16 = 0x0200;

/// An event without a reject.
pub fn without_reject(outcome: Outcome) -> Turned
    ensures { result ≡ record { outcome = outcome; reject = None } }
{
    Turned {
        outcome,
        reject: None,
    }
}

/// What an abort for this cause is to the program.
fn outcome_of_abort(why: Why) -> Outcome
    requires { HasRoom why }
    ensures { result ≡ outcome_of_abort why }
{
    if let Why::Program(e) = why {
        return Outcome::Interrupted {
            code: e.code + ABORTED_BIT,
        };
    }
    Outcome::Aborted { code: why.code() }
}

impl Works {
    /// Whether an attempt of the CPU is live.
    pub(crate) fn is_live(&self, cpu: u32) -> bool
        requires { cpu < length self.now.slots }
        ensures { (rest : Seat) → result ≡ is_live (kept_by rest self.now).state cpu }
    {
        let slot = &self.slots[cpu as usize];
        slot.cpu.live().is_some()
    }

    /// The live attempt of the CPU itself ends by this cause.
    #[inline(never)]
    pub(crate) fn end_by(&mut self, cpu: u32, why: Why, at: u64, turned: &mut Turned)
        requires cpu { cpu < length self.old.slots }
        requires live { (rest : Seat) → is_live (kept_by rest self.old).state cpu ≡ true }
        requires code { HasRoom why }
        requires climbs { (rest : Seat) → MayEndBy why (kept_by rest self.old) cpu }
        requires room { length self.old.history < self.old.room }
        ensures value { (rest : Seat) → turned_as (kept_by rest self.new) turned.new ≡
            k_ends_by cpu why at (kept_by rest self.old) }
        ensures size { IsSameSize self.old self.new }
    {
        self.abort(cpu, why, at);
        *turned = without_reject(outcome_of_abort(why));
    }

    /// The block that is pending for the CPU is stored.
    fn put_block(&mut self, cpu: u32)
        requires { cpu < length self.old.slots }
        ensures value { (rest : Seat) → let k = kept_by rest self.old in
            kept_by rest self.new ≡ k_left cpu (block_stored (beside k cpu)) k }
        ensures books { KeepsBooks self.old self.new }
    {
        let slot = &mut self.slots[cpu as usize];
        self.lines.store_block(cpu, &mut slot.cpu);
    }

    /// The block that is pending for the CPU is stored, and this is written down.
    #[inline(never)]
    pub(crate) fn store_block(&mut self, cpu: u32) -> Turned
        requires cpu { cpu < length self.old.slots }
        requires room { length self.old.history < self.old.room }
        ensures value { (rest : Seat) → turned_as (kept_by rest self.new) result ≡
            k_turned (k_storing cpu (kept_by rest self.old)) Executed }
        ensures size { IsSameSize self.old self.new }
    {
        self.put_block(cpu);
        self.write(Entry::Tdb(cpu));
        without_reject(Outcome::Executed)
    }

    /// The interruption that waits for the CPU comes.
    fn interrupt(&mut self, cpu: u32)
        requires cpu { cpu < length self.old.slots }
        requires live { (rest : Seat) → is_live (kept_by rest self.old).state cpu ≡ false }
        ensures value { (rest : Seat) → let k = kept_by rest self.old in
            kept_by rest self.new ≡ k_left cpu (interruption_taken (beside k cpu)) k }
        ensures books { KeepsBooks self.old self.new }
    {
        let slot = &mut self.slots[cpu as usize];
        self.lines.take(cpu, &mut slot.cpu);
    }

    /// The interruption that waits for the CPU is taken, and this is written down. No attempt is live.
    #[inline(never)]
    pub(crate) fn take(&mut self, cpu: u32) -> Turned
        requires cpu { cpu < length self.old.slots }
        requires live { (rest : Seat) → is_live (kept_by rest self.old).state cpu ≡ false }
        requires room { length self.old.history < self.old.room }
        ensures value { (rest : Seat) → turned_as (kept_by rest self.new) result ≡
            k_turned (k_taking cpu (kept_by rest self.old)) Executed }
        ensures size { IsSameSize self.old self.new }
    {
        self.interrupt(cpu);
        self.write(Entry::Interrupt(cpu));
        without_reject(Outcome::Executed)
    }

    /// An exception stops the program of the CPU before anything has changed.
    fn halt(&mut self, cpu: u32, e: Exception)
        requires cpu { cpu < length self.old.slots }
        requires live { (rest : Seat) → is_live (kept_by rest self.old).state cpu ≡ false }
        ensures value { (rest : Seat) → let k = kept_by rest self.old in
            kept_by rest self.new
            ≡ k_left cpu (record { local = stopped e (k.locals cpu); storage = k.storage }) k }
        ensures books { KeepsBooks self.old self.new }
    {
        let slot = &mut self.slots[cpu as usize];
        slot.cpu.stop(e);
    }

    /// An exception stops the program of the CPU before anything has changed, and this is written down. No
    /// attempt is live.
    #[inline(never)]
    pub(crate) fn stop(&mut self, cpu: u32, e: Exception) -> Turned
        requires cpu { cpu < length self.old.slots }
        requires live { (rest : Seat) → is_live (kept_by rest self.old).state cpu ≡ false }
        requires room { length self.old.history < self.old.room }
        ensures value { (rest : Seat) → let k = kept_by rest self.old in turned_as (kept_by rest self.new) result ≡
            k_stopping cpu (record { local = stopped e (k.locals cpu); storage = k.storage }) k e.code }
        ensures size { IsSameSize self.old self.new }
    {
        self.halt(cpu, e);
        self.write(Entry::Step(cpu));
        without_reject(Outcome::Interrupted { code: e.code })
    }
}
