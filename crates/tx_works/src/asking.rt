//! How a CPU asks the holders of a line for it.
ghost use Rattle.std.specs.Prelude.{◌≡◌, ◌≢◌, ℕ, ◌*◌, ◌<◌, ◌≤◌, true, false, None, [], length, is_some};
ghost use Rattle.std.specs.Prelude.{◌&&◌, IfSome};
ghost use Rattle.line_table.specs.Sizes.{storage_lines};
ghost use Rattle.line_table.specs.Holders.{is_against, against};
ghost use Rattle.interrogate.specs.Replies.{after, reply};
ghost use Rattle.tx_ladder.specs.Rungs.{is_starved};
ghost use Rattle.tx_progress.specs.Progress.{is_live};
ghost use Rattle.tx_lines.specs.Parts.{local_of};
ghost use Rattle.tx_lines.specs.Owned.{holders_in};
ghost use Rattle.tx_lines.specs.Next.{next_against};
ghost use Rattle.tx_meaning.specs.State.{is_live as is_cpu_live, is_first, is_head};
ghost use Rattle.tx_keeping.specs.Kept.{kept_asker, kept_footprint};
ghost use Rattle.tx_keeping.specs.Moves.{k_asking, k_rejected, k_yielding};
ghost use Rattle.tx_keeping.specs.Asking.{k_ask_one, k_ask_each};
ghost use Rattle.tx_works.specs.Works.{Seat, IsSameSize, kept_by};
ghost use Rattle.tx_works.specs.Asks.{with_question, with_reject, reply_of, k_answered};
ghost use Rattle.tx_works.specs.Asks.{MayCount, IsReady, AskLeaves, asked_by, rejected_in, is_cpu_starved};

use crate::slot::Slot;
use crate::works::Works;
use interrogate::{Answer, Asker, answer};
use tx_lines::Cpu;
use tx_meaning::{Need, Reject};

/// A request that was rejected.
#[derive(Clone, Copy)]
pub struct Refused {
    /// Which, and by whom.
    pub reject: Reject,
    /// Whether that starves the live attempt of the CPU that asked.
    pub starved: bool,
}

/// Whether an attempt is live.
pub(crate) fn has_live(cpu: &Cpu) -> bool
    ensures { result ≡ is_live (local_of cpu.now).attempt }
{
    cpu.live().is_some()
}

/// Whether an attempt of the CPU is live.
pub(crate) fn has_attempt(slot: &Slot) -> bool
    ensures { result ≡ is_live (local_of slot.now.cpu).attempt }
{
    has_live(&slot.cpu)
}

/// Counts a question of the CPU.
fn count_question(slot: &mut Slot)
    requires { slot.old.tally.asked < 128 * slot.old.tally.turns }
    ensures value { slot.new ≡ with_question slot.old }
    ensures room { slot.new.tally.rejected < slot.new.tally.asked }
{
    slot.tally.asked += 1;
}

/// Counts a reject of the CPU's request, for its live attempt too. Whether that attempt is starved.
fn count_reject(slot: &mut Slot) -> bool
    requires { slot.old.tally.rejected < slot.old.tally.asked }
    ensures value { slot.new ≡ with_reject slot.old }
    ensures starved { result ≡ (is_live (local_of slot.new.cpu).attempt && is_starved slot.new.ladder) }
{
    slot.tally.rejected += 1;
    if !has_live(&slot.cpu) {
        return false;
    }
    slot.ladder.was_rejected()
}

/// What the CPU answers to this asker's request for a line. A reject is counted in its ladder.
fn answer_by(slot: &mut Slot, need: Need, asker: Asker) -> Answer
    requires { need.line < storage_lines }
    ensures value { result ≡ reply_of slot.old need asker }
    ensures counted { slot.new ≡ record slot.old { ladder = after result slot.old.ladder } }
{
    let live = has_live(&slot.cpu);
    let footprint = slot.cpu.footprint();
    answer(
        live,
        footprint,
        &mut slot.ladder,
        need.line,
        need.mode,
        asker,
    )
}

impl Works {
    /// Whether the CPU is the head of the stop queue.
    fn is_head(&self, cpu: u32) -> bool
        ensures { result ≡ is_first cpu self.now.queue }
    {
        match self.queue.head() {
            Some(head) => head == cpu,
            None => false,
        }
    }

    /// The CPU as it asks.
    fn asker(&self, cpu: u32) -> Asker
        requires { cpu < length self.now.slots }
        ensures { (rest : Seat) → result ≡ kept_asker (kept_by rest self.now) cpu }
    {
        let head = self.is_head(cpu);
        let slot = &self.slots[cpu as usize];
        let late = has_attempt(slot) && slot.ladder.is_late();
        Asker { head, late }
    }

    /// Counts a question of the CPU.
    fn ask_once_more(&mut self, cpu: u32)
        requires cpu { cpu < length self.old.slots }
        requires counts { (rest : Seat) → MayCount 1 ((kept_by rest self.old).state.numbers cpu) }
        ensures kept { (rest : Seat) → kept_by rest self.new ≡ k_asking cpu (kept_by rest self.old) }
        ensures room { (rest : Seat) → let n = (kept_by rest self.new).state.numbers cpu in n.rejected <
            n.asked }
        ensures lines { self.new.lines ≡ self.old.lines }
        ensures history { self.new.history ≡ self.old.history }
        ensures size { IsSameSize self.old self.new }
    {
        count_question(&mut self.slots[cpu as usize]);
    }

    /// What the holder answers to this asker's request. A reject is counted for the holder.
    fn answer_of(&mut self, holder: u32, need: Need, asker: Asker) -> Answer
        requires holder { holder < length self.old.slots }
        requires line { need.line < storage_lines }
        ensures value { (rest : Seat) → let k = kept_by rest self.old in
            result ≡ reply (is_cpu_live k.state holder) (kept_footprint k holder).fetched
            (kept_footprint k holder).stored (k.standings holder) need.line need.mode asker }
        ensures kept { (rest : Seat) → kept_by rest self.new ≡ k_answered result holder
            (kept_by rest self.old) }
        ensures lines { self.new.lines ≡ self.old.lines }
        ensures history { self.new.history ≡ self.old.history }
        ensures size { IsSameSize self.old self.new }
    {
        answer_by(&mut self.slots[holder as usize], need, asker)
    }

    /// The request of the CPU was rejected. Whether that starves its attempt.
    fn take_reject(&mut self, cpu: u32) -> bool
        requires cpu { cpu < length self.old.slots }
        requires room { (rest : Seat) → let n = (kept_by rest self.old).state.numbers cpu in n.rejected <
            n.asked }
        ensures kept { (rest : Seat) → kept_by rest self.new ≡ k_rejected cpu (kept_by rest self.old) }
        ensures starved { (rest : Seat) → result ≡ is_cpu_starved (kept_by rest self.new) cpu }
        ensures size { IsSameSize self.old self.new }
    {
        count_reject(&mut self.slots[cpu as usize])
    }

    /// The holder yields the line as it is needed.
    #[inline(never)]
    fn yield_line(&mut self, holder: u32, need: Need)
        requires holder { holder < length self.old.slots }
        requires line { need.line < storage_lines }
        requires stands { is_against need.mode (holders_in self.old.lines holder need.line) ≡ true }
        ensures kept { (rest : Seat) → kept_by rest self.new
            ≡ k_yielding holder need.line need.mode (kept_by rest self.old) }
        ensures size { IsSameSize self.old self.new }
    {
        self.lines.yield_line(holder, need.line, need.mode);
    }

    /// The address of the next instruction of the CPU.
    pub(crate) fn next_address(&self, cpu: u32) -> u64
        requires { cpu < length self.now.slots }
        ensures { (rest : Seat) → result ≡ ((kept_by rest self.now).locals cpu).attempt.cpu.address }
    {
        self.slots[cpu as usize].cpu.image().address
    }

    /// One question: a CPU asks a holder for a line, as it needs it. The reject, if the holder rejects the
    /// request; else the holder stands against it no longer.
    #[inline(always)]
    pub fn ask(&mut self, cpu: u32, need: Need, holder: u32) -> Option<Refused>
        requires cpu { cpu < length self.old.slots }
        requires holder { holder < length self.old.slots }
        requires other { holder ≢ cpu }
        requires line { need.line < storage_lines }
        requires stands { is_against need.mode (holders_in self.old.lines holder need.line) ≡ true }
        requires ready { (rest : Seat) → IsReady 1 cpu self.old (kept_by rest self.old) }
        ensures kept { (rest : Seat) → asked_by rest self.new (rejected_in result)
            ≡ k_ask_one cpu need holder (kept_by rest self.old) }
        ensures starved { (rest : Seat) → IfSome result
            (λ r. r.starved ≡ is_cpu_starved (kept_by rest self.new) cpu) }
        ensures size { IsSameSize self.old self.new }
    {
        let asker = self.asker(cpu);
        self.ask_once_more(cpu);
        match self.answer_of(holder, need, asker) {
            Answer::Yields => {
                self.yield_line(holder, need);
                None
            }
            Answer::Rejects => {
                let starved = self.take_reject(cpu);
                let reject = Reject {
                    by: holder,
                    line: need.line,
                };
                Some(Refused { reject, starved })
            }
            Answer::Aborts(why) => {
                let at = self.next_address(holder);
                self.abort(holder, why, at);
                self.yield_line(holder, need);
                None
            }
        }
    }

    /// The lowest CPU at or above `from` whose hold stands against a CPU's request for a line.
    #[inline(always)]
    fn next_against(&self, cpu: u32, need: Need, from: u32) -> Option<u32>
        requires line { need.line < storage_lines }
        requires from { from ≤ length self.now.slots }
        ensures value { result
            ≡ next_against (length self.now.slots) (holders_in self.now.lines) cpu need.line need.mode from }
        ensures few { length self.now.slots ≤ 16 }
    {
        self.lines.next_against(cpu, need, from)
    }

    /// A CPU asks all others that stand against its request for a line, until one rejects it. The reject,
    /// if one does; else nobody stands against the request any more.
    #[inline(always)]
    pub fn ask_all(&mut self, cpu: u32, need: Need) -> Option<Refused>
        requires cpu { cpu < length self.old.slots }
        requires line { need.line < storage_lines }
        requires ready { (rest : Seat) → IsReady 16 cpu self.old (kept_by rest self.old) }
        ensures kept { (rest : Seat) → asked_by rest self.new (rejected_in result) ≡ k_ask_each cpu need
            (against (length self.old.slots) (holders_in self.old.lines) cpu need.line need.mode)
            (kept_by rest self.old) }
        ensures size { IsSameSize self.old self.new }
        ensures free { result ≡ None
            → against (length self.new.slots) (holders_in self.new.lines) cpu need.line need.mode ≡ [] }
        ensures leaves { (rest : Seat)
            → AskLeaves (length self.old.slots) 16 cpu (kept_by rest self.old) (kept_by rest self.new) }
        ensures refused { (rest : Seat) → is_some result ≡ true
            → is_head (kept_by rest self.new).state cpu ≡ false }
        ensures starved { (rest : Seat) → IfSome result
            (λ r. r.starved ≡ is_cpu_starved (kept_by rest self.new) cpu) }
    {
        let mut at = 0;
        while let Some(holder) = self.next_against(cpu, need, at) {
            let refused = self.ask(cpu, need, holder);
            if refused.is_some() {
                return refused;
            }
            at = holder + 1;
        }
        None
    }
}
