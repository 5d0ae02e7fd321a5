//! What a CPU does in its turn: the lines first.
ghost use Rattle.std.specs.Prelude.{◌≡◌, ◌+◌, ◌<◌, ◌≤◌, ◌∷◌, [], All, IsTrue, ℕ, List, Option, true, false, IfSome, is_some, None, length};
ghost use Rattle.z_regs.specs.Absolute.{absolute_ranges};
ghost use Rattle.z_regs.specs.Prefix.{is_prefix, storage_size};
ghost use Rattle.tx_lines.specs.Plans.{IsPrepared, HasPlanRoom, fate_of};
ghost use Rattle.tx_lines.specs.Quiet.{IsQuiet};
ghost use Rattle.tx_program.specs.Shapes.{is_placed, is_reached};
ghost use Rattle.tx_serial.specs.Fate.{Goes};
ghost use Rattle.std.specs.FinSet.{items};
ghost use Rattle.tx_serial.specs.Flat.{address_of};
ghost use Rattle.tx_progress.specs.Progress.{resting};
ghost use Rattle.tx_progress.specs.Trial.{fate_by_progress};
ghost use Rattle.tx_meaning.specs.Limits.{Setting, RunLimits};
ghost use Rattle.tx_meaning.specs.Needs.{operand_needs, stored, interruption_ranges};
ghost use Rattle.tx_meaning.specs.State.{is_live, is_head, cpus_of};
ghost use Rattle.tx_meaning.specs.declared.outcome.Outcome.TheVariants.{Executed};
ghost use Rattle.tx_keeping.specs.Kept.{text_of};
ghost use Rattle.tx_keeping.specs.Moves.{k_storing, k_taking};
ghost use Rattle.tx_keeping.specs.Turn.{k_refused_turn, k_with_lines, k_executing, k_turned, k_attempting};
ghost use Rattle.tx_keeping.specs.Turn.{k_external, k_acting};
ghost use Rattle.tx_keeping.specs.Asking.{k_get_lines};
ghost use Rattle.tx_works.specs.Asks.{is_cpu_starved, asked_by, rejected_in};
ghost use Rattle.tx_works.specs.Executing.{operand_by};
ghost use Rattle.tx_works.specs.InTurn.{MayAct, block_awaited};
ghost use Rattle.tx_works.specs.Ready.{MayAsk, MayHold, MayTurn, HasTurn, IsInReach, image_storage, owed};
ghost use Rattle.tx_works.specs.Turned.{turned_as};
ghost use Rattle.tx_works.specs.Wanted.{MayWant, operands_of, wanted_by};
ghost use Rattle.tx_works.specs.Works.{Seat, kept_by, seats_of, IsSameSize};

use crate::acting::{Turned, without_reject};
use crate::asking::Refused;
use crate::places::{block_places, interruption_places, operand_places};
use crate::works::Works;
use tx_control::Why;
use tx_lines::{Plain, Plan, Program, operands_at};
use tx_meaning::{Outcome, Reject};
use z_instr::instr::Instr;
use z_regs::Touches;

impl Works {
    /// A request of the CPU was rejected, and its attempt is starved by that: it is aborted.
    #[cold]
    #[inline(never)]
    fn starve(&mut self, cpu: u32, reject: Reject, turned: &mut Turned)
        requires cpu { cpu < length self.old.slots }
        requires asks { (rest : Seat) → MayAsk (length self.old.slots) cpu (kept_by rest self.old) }
        requires behind { (rest : Seat) → is_head (kept_by rest self.old).state cpu ≡ false }
        requires starved { (rest : Seat) → is_cpu_starved (kept_by rest self.old) cpu ≡ true }
        requires room { length self.old.history < self.old.room }
        ensures value { (rest : Seat) → let k = kept_by rest self.old in
            turned_as (kept_by rest self.new) turned.new ≡ k_refused_turn (is_cpu_starved k cpu) cpu reject k }
        ensures size { IsSameSize self.old self.new }
    {
        let at = self.next_address(cpu);
        self.end_by(cpu, Why::Starved, at, turned);
        turned.reject = Some(reject);
    }

    /// A request of the CPU was rejected: its turn is at its end, and a starved attempt is aborted.
    #[inline(always)]
    fn refuse(&mut self, cpu: u32, refused: Refused, turned: &mut Turned)
        requires cpu { cpu < length self.old.slots }
        requires asks { (rest : Seat) → MayAsk (length self.old.slots) cpu (kept_by rest self.old) }
        requires behind { (rest : Seat) → is_head (kept_by rest self.old).state cpu ≡ false }
        requires starved { (rest : Seat) → refused.starved ≡ is_cpu_starved (kept_by rest self.old) cpu }
        requires room { length self.old.history < self.old.room }
        ensures value { (rest : Seat) → let k = kept_by rest self.old in
            turned_as (kept_by rest self.new) turned.new ≡
            k_refused_turn (is_cpu_starved k cpu) cpu refused.reject k }
        ensures size { IsSameSize self.old self.new }
    {
        let reject = refused.reject;
        if refused.starved {
            return self.starve(cpu, reject, turned);
        }
        *turned = Turned {
            outcome: Outcome::Rejected {
                by: reject.by,
                line: reject.line,
            },
            reject: Some(reject),
        };
    }

    /// The prefix of the CPU.
    fn prefix(&self, cpu: u32) -> Option<u32>
        requires { cpu < length self.now.slots }
        ensures value { (rest : Seat) → result ≡ ((kept_by rest self.now).locals cpu).attempt.cpu.prefix }
        ensures prefix_in { IsTrue (is_prefix result) }
    {
        self.slots[cpu as usize].cpu.image().prefix
    }

    /// The CPU gets the lines of operands, by absolute addresses.
    #[inline(never)]
    fn get_places(&mut self, cpu: u32, need: &Touches, prefix: Option<u32>) -> Option<Refused>
        requires cpu { cpu < length self.old.slots }
        requires own { (rest : Seat) → prefix ≡ ((kept_by rest self.old).locals cpu).attempt.cpu.prefix }
        requires prefix_in { IsTrue (is_prefix prefix) }
        requires reach { (rest : Seat) →
            IsInReach ((kept_by rest self.old).locals cpu).attempt.cpu.prefix need.now }
        requires holds { (rest : Seat) → let k = kept_by rest self.old in
            MayHold cpu (operand_needs (k.locals cpu).attempt.cpu.prefix need.now) k }
        requires acts { (rest : Seat) → MayAct cpu self.old rest }
        ensures kept { (rest : Seat) (m : Setting) → cpus_of m ≡ length self.old.slots
            → let k = kept_by rest self.old in asked_by rest self.new (rejected_in result)
            ≡ k_get_lines m cpu (operand_needs (k.locals cpu).attempt.cpu.prefix need.now) k }
        ensures size { IsSameSize self.old self.new }
        ensures own { (rest : Seat)
            → (kept_by rest self.new).locals cpu ≡ (kept_by rest self.old).locals cpu }
        ensures asks { (rest : Seat) → MayAsk (length self.new.slots) cpu (kept_by rest self.new) }
        ensures owed_no_more { (rest : Seat)
            → owed self.new (kept_by rest self.new) ≤ owed self.old (kept_by rest self.old) }
        ensures turn { (rest : Seat) → HasTurn (seats_of rest self.new.slots cpu) 0 }
        ensures refused { (rest : Seat) → is_some result ≡ true
            → is_head (kept_by rest self.new).state cpu ≡ false }
        ensures starved { (rest : Seat) → IfSome result
            (λ r. r.starved ≡ is_cpu_starved (kept_by rest self.new) cpu) }
    {
        let places = operand_places(need, prefix);
        self.get_lines(cpu, &places)
    }

    /// The CPU gets the lines of operands. Without a prefix these stand where their addresses say. The reject, if one of
    /// its requests is rejected; else the lines are there.
    #[inline(always)]
    fn get_operands(&mut self, cpu: u32, need: &Touches) -> Option<Refused>
        requires cpu { cpu < length self.old.slots }
        requires reach { (rest : Seat) →
            IsInReach ((kept_by rest self.old).locals cpu).attempt.cpu.prefix need.now }
        requires holds { (rest : Seat) → let k = kept_by rest self.old in
            MayHold cpu (operand_needs (k.locals cpu).attempt.cpu.prefix need.now) k }
        requires acts { (rest : Seat) → MayAct cpu self.old rest }
        ensures kept { (rest : Seat) (m : Setting) → cpus_of m ≡ length self.old.slots
            → let k = kept_by rest self.old in asked_by rest self.new (rejected_in result)
            ≡ k_get_lines m cpu (operand_needs (k.locals cpu).attempt.cpu.prefix need.now) k }
        ensures size { IsSameSize self.old self.new }
        ensures own { (rest : Seat)
            → (kept_by rest self.new).locals cpu ≡ (kept_by rest self.old).locals cpu }
        ensures asks { (rest : Seat) → MayAsk (length self.new.slots) cpu (kept_by rest self.new) }
        ensures owed_no_more { (rest : Seat)
            → owed self.new (kept_by rest self.new) ≤ owed self.old (kept_by rest self.old) }
        ensures turn { (rest : Seat) → HasTurn (seats_of rest self.new.slots cpu) 0 }
        ensures refused { (rest : Seat) → is_some result ≡ true
            → is_head (kept_by rest self.new).state cpu ≡ false }
        ensures starved { (rest : Seat) → IfSome result
            (λ r. r.starved ≡ is_cpu_starved (kept_by rest self.new) cpu) }
    {
        if need.count() == 0 {
            return None;
        }
        let prefix = self.prefix(cpu);
        match prefix {
            None => self.get_lines(cpu, need),
            Some(_) => self.get_places(cpu, need, prefix),
        }
    }

    /// An instruction that goes: it is executed where the lines of its operands are there.
    #[inline(always)]
    fn go(&mut self, cpu: u32, instr: &Instr, need: &Touches, turned: &mut Turned)
        requires cpu { cpu < length self.old.slots }
        requires prepared { (rest : Seat) →
            IsPrepared ((kept_by rest self.old).locals cpu).attempt instr.now need.now }
        requires reach { (rest : Seat) →
            IsInReach ((kept_by rest self.old).locals cpu).attempt.cpu.prefix need.now }
        requires holds { (rest : Seat) → let k = kept_by rest self.old in
            MayHold cpu (operand_needs (k.locals cpu).attempt.cpu.prefix need.now) k }
        requires rested { (rest : Seat) → let k = kept_by rest self.old in is_live k.state cpu ≡ false
            → (k.locals cpu).attempt ≡ resting (k.locals cpu).cpu }
        requires acts { (rest : Seat) → MayAct cpu self.old rest }
        ensures value { (rest : Seat) (m : Setting) → cpus_of m ≡ length self.old.slots
            → let k = kept_by rest self.old in turned_as (kept_by rest self.new) turned.new ≡
            k_with_lines m cpu (operand_needs (k.locals cpu).attempt.cpu.prefix need.now) k
            (k_executing cpu instr.now need.now) }
        ensures size { IsSameSize self.old self.new }
    {
        match self.get_operands(cpu, need) {
            Some(refused) => self.refuse(cpu, refused, turned),
            None => self.execute(cpu, instr, need, turned),
        }
    }

    /// A plain instruction that goes, and whose line may have to be asked for.
    #[inline(never)]
    fn go_asking(&mut self, cpu: u32, plain: &Plain, turned: &mut Turned)
        requires cpu { cpu < length self.old.slots }
        requires prepared { (rest : Seat) →
            IsPrepared ((kept_by rest self.old).locals cpu).attempt plain.now.ready.now.instr
            (operand_by plain.now.ready.now.shape plain.now.first) }
        requires bare { (rest : Seat) → ((kept_by rest self.old).locals cpu).attempt.cpu.prefix ≡ None }
        requires placed { is_placed plain.now.ready.now.shape plain.now.first ≡ true }
        requires holds { (rest : Seat) → let k = kept_by rest self.old in
            MayHold cpu (operand_needs (k.locals cpu).attempt.cpu.prefix (operand_by
            plain.now.ready.now.shape plain.now.first)) k }
        requires rested { (rest : Seat) → let k = kept_by rest self.old in is_live k.state cpu ≡ false
            → (k.locals cpu).attempt ≡ resting (k.locals cpu).cpu }
        requires acts { (rest : Seat) → MayAct cpu self.old rest }
        ensures value { (rest : Seat) (m : Setting) → cpus_of m ≡ length self.old.slots
            → let k = kept_by rest self.old in
            let need = operand_by plain.now.ready.now.shape plain.now.first in
            turned_as (kept_by rest self.new) turned.new ≡
            k_with_lines m cpu (operand_needs (k.locals cpu).attempt.cpu.prefix need) k
            (k_executing cpu plain.now.ready.now.instr need) }
        ensures size { IsSameSize self.old self.new }
    {
        match self.get_operand(cpu, plain.ready.shape, plain.first) {
            Some(refused) => self.refuse(cpu, refused, turned),
            None => self.execute_apart(cpu, plain, turned),
        }
    }

    /// A plain instruction that goes: it is executed at once where the line of its operand is there.
    #[inline(always)]
    fn go_plainly(&mut self, cpu: u32, plain: &Plain, program: &Program, turned: &mut Turned)
        requires cpu { cpu < length self.old.slots }
        requires turns { (rest : Seat) (limits : RunLimits) →
            MayTurn (record { image = program.now; limits = limits }) cpu (kept_by rest self.old) }
        requires acts { (rest : Seat) → MayAct cpu self.old rest }
        requires cpus { length program.now.cpus ≡ length self.old.slots }
        requires quiet { (rest : Seat) → IsQuiet ((kept_by rest self.old).locals cpu) }
        requires goes { (rest : Seat) (limits : RunLimits) →
            let m : Setting = record { image = program.now; limits = limits } in
            fate_by_progress (text_of m) (image_storage m) ((kept_by rest self.old).locals cpu).attempt ≡
            Goes plain.now.ready.now.instr
            (operand_by plain.now.ready.now.shape plain.now.first) }
        requires reached { is_reached plain.now.ready.now.shape plain.now.first (items program.now.guard) ≡ true }
        ensures value { (rest : Seat) (limits : RunLimits) →
            let m : Setting = record { image = program.now; limits = limits } in let k = kept_by rest self.old in
            turned_as (kept_by rest self.new) turned.new ≡
            k_attempting m cpu k (fate_by_progress (text_of m) k.storage (k.locals cpu).attempt) }
        ensures size { IsSameSize self.old self.new }
    {
        if self.holds_operand(cpu, plain.ready.shape, plain.first) {
            return self.perform_plainly(cpu, plain, turned);
        }
        self.go_asking(cpu, plain, turned);
    }

    /// The block that is pending for the CPU is stored, where its lines are there.
    #[inline(never)]
    fn store_pending(&mut self, cpu: u32, address: u64, turned: &mut Turned)
        requires cpu { cpu < length self.old.slots }
        requires inside { address + 256 ≤ storage_size }
        requires holds { (rest : Seat) → let k = kept_by rest self.old in
            MayHold cpu (operand_needs (k.locals cpu).attempt.cpu.prefix (stored address 256 ∷ [])) k }
        requires acts { (rest : Seat) → MayAct cpu self.old rest }
        ensures value { (rest : Seat) (m : Setting) → cpus_of m ≡ length self.old.slots
            → let k = kept_by rest self.old in turned_as (kept_by rest self.new) turned.new ≡
            k_with_lines m cpu (operand_needs (k.locals cpu).attempt.cpu.prefix (stored address 256 ∷ [])) k
            (λ t. k_turned (k_storing cpu t) Executed) }
        ensures size { IsSameSize self.old self.new }
    {
        let prefix = self.prefix(cpu);
        let places = block_places(address, prefix);
        match self.get_lines(cpu, &places) {
            Some(refused) => self.refuse(cpu, refused, turned),
            None => *turned = self.store_block(cpu),
        }
    }

    /// The interruption that waits for the CPU is taken, where its lines are there. `block` says whether it
    /// has a diagnostic block.
    #[inline(never)]
    fn take_waiting(&mut self, cpu: u32, block: bool, turned: &mut Turned)
        requires cpu { cpu < length self.old.slots }
        requires rests { (rest : Seat) → is_live (kept_by rest self.old).state cpu ≡ false }
        requires holds { (rest : Seat) (bytes : Option (List ℕ)) → is_some bytes ≡ block
            → let k = kept_by rest self.old in
            MayHold cpu (operand_needs (k.locals cpu).attempt.cpu.prefix (interruption_ranges bytes)) k }
        requires acts { (rest : Seat) → MayAct cpu self.old rest }
        ensures value { (rest : Seat) (m : Setting) (bytes : Option (List ℕ)) → is_some bytes ≡ block
            → cpus_of m ≡ length self.old.slots
            → let k = kept_by rest self.old in turned_as (kept_by rest self.new) turned.new ≡
            k_with_lines m cpu (operand_needs (k.locals cpu).attempt.cpu.prefix (interruption_ranges bytes)) k
            (λ t. k_turned (k_taking cpu t) Executed) }
        ensures size { IsSameSize self.old self.new }
    {
        let prefix = self.prefix(cpu);
        let places = interruption_places(block, prefix);
        match self.get_lines(cpu, &places) {
            Some(refused) => self.refuse(cpu, refused, turned),
            None => *turned = self.take(cpu),
        }
    }

    /// What comes of the next instruction of the CPU.
    #[tactic(auto, unfolding(tx_serial::specs::History::start_of))]
    fn plan(&self, cpu: u32, program: &Program) -> Plan
        requires { cpu < length self.now.slots }
        ensures value { (rest : Seat) (limits : RunLimits) →
            let m : Setting = record { image = program.now; limits = limits } in
            fate_of result ≡ fate_by_progress (text_of m) (image_storage m)
            ((kept_by rest self.now).locals cpu).attempt }
        ensures code { HasPlanRoom result }
    {
        self.slots[cpu as usize].cpu.prepare(program)
    }

    /// The next instruction of the CPU, by its plan.
    #[inline(never)]
    fn attempt_planned(&mut self, cpu: u32, program: &Program, turned: &mut Turned)
        requires cpu { cpu < length self.old.slots }
        requires turns { (rest : Seat) (limits : RunLimits) →
            MayTurn (record { image = program.now; limits = limits }) cpu (kept_by rest self.old) }
        requires acts { (rest : Seat) → MayAct cpu self.old rest }
        requires cpus { length program.now.cpus ≡ length self.old.slots }
        ensures value { (rest : Seat) (limits : RunLimits) →
            let m : Setting = record { image = program.now; limits = limits } in let k = kept_by rest self.old in
            turned_as (kept_by rest self.new) turned.new ≡
            k_attempting m cpu k (fate_by_progress (text_of m) k.storage (k.locals cpu).attempt) }
        ensures size { IsSameSize self.old self.new }
    {
        let plan = self.plan(cpu, program);
        match &plan {
            Plan::Go { instr, need } => self.go(cpu, instr, need, turned),
            Plan::Ends(why) => {
                let at = self.next_address(cpu);
                self.end_by(cpu, *why, at, turned);
            }
            Plan::Stops(e) => *turned = self.stop(cpu, *e),
        }
    }

    /// The next instruction of the CPU. One on two blocks of bytes that is seen at once to go needs no plan; any other is planned
    /// first.
    #[inline(never)]
    fn attempt(&mut self, cpu: u32, program: &Program, turned: &mut Turned)
        requires cpu { cpu < length self.old.slots }
        requires turns { (rest : Seat) (limits : RunLimits) →
            MayTurn (record { image = program.now; limits = limits }) cpu (kept_by rest self.old) }
        requires acts { (rest : Seat) → MayAct cpu self.old rest }
        requires cpus { length program.now.cpus ≡ length self.old.slots }
        ensures value { (rest : Seat) (limits : RunLimits) →
            let m : Setting = record { image = program.now; limits = limits } in let k = kept_by rest self.old in
            turned_as (kept_by rest self.new) turned.new ≡
            k_attempting m cpu k (fate_by_progress (text_of m) k.storage (k.locals cpu).attempt) }
        ensures size { IsSameSize self.old self.new }
    {
        if let Some(pair) = self.pair(cpu, program) {
            let mut need = Touches::none();
            pair.add_ranges(&mut need);
            return self.go(cpu, pair.instr, &need, turned);
        }
        self.attempt_planned(cpu, program, turned);
    }

    /// An external interruption comes to the CPU: it aborts a live attempt, and the head of the stop queue goes
    /// to the tail.
    #[inline(never)]
    pub(crate) fn external(&mut self, cpu: u32) -> Turned
        requires cpu { cpu < length self.old.slots }
        requires room { length self.old.history < self.old.room }
        ensures value { (rest : Seat) → turned_as (kept_by rest self.new) result ≡
            k_external cpu (kept_by rest self.old) }
        ensures size { IsSameSize self.old self.new }
    {
        if self.is_live(cpu) {
            let at = self.next_address(cpu);
            let mut ended = without_reject(Outcome::External);
            self.end_by(cpu, Why::External, at, &mut ended);
            self.to_tail(cpu);
            return ended;
        }
        self.to_tail(cpu);
        without_reject(Outcome::External)
    }

    /// A tick comes with the turn of the CPU.
    #[inline(never)]
    pub(crate) fn tick(&mut self, cpu: u32, turned: &mut Turned)
        requires cpu { cpu < length self.old.slots }
        requires room { length self.old.history < self.old.room }
        ensures value { (rest : Seat) → turned_as (kept_by rest self.new) turned.new ≡
            k_external cpu (kept_by rest self.old) }
        ensures size { IsSameSize self.old self.new }
    {
        *turned = self.external(cpu);
    }

    /// The real address of the block that is pending for the CPU.
    fn pending(&self, cpu: u32) -> Option<u64>
        requires { cpu < length self.now.slots }
        ensures { (rest : Seat) → result ≡ address_of ((kept_by rest self.now).locals cpu).pending }
    {
        self.slots[cpu as usize].cpu.pending()
    }

    /// Whether an interruption waits for the CPU, and whether that has a diagnostic block.
    fn awaited(&self, cpu: u32) -> Option<bool>
        requires { cpu < length self.now.slots }
        ensures { (rest : Seat) → result ≡ block_awaited ((kept_by rest self.now).locals cpu).waiting }
    {
        let waiting = self.slots[cpu as usize].cpu.waiting().as_ref()?;
        Some(waiting.block.is_some())
    }

    /// What is left to do comes before the next instruction: a block that is pending, then an interruption.
    #[inline(never)]
    fn act_in_order(&mut self, cpu: u32, program: &Program, turned: &mut Turned)
        requires cpu { cpu < length self.old.slots }
        requires turns { (rest : Seat) (limits : RunLimits) →
            MayTurn (record { image = program.now; limits = limits }) cpu (kept_by rest self.old) }
        requires acts { (rest : Seat) → MayAct cpu self.old rest }
        requires cpus { length program.now.cpus ≡ length self.old.slots }
        ensures value { (rest : Seat) (limits : RunLimits) →
            let m : Setting = record { image = program.now; limits = limits } in
            let k = kept_by rest self.old in turned_as (kept_by rest self.new) turned.new ≡
            k_acting m cpu k (k.locals cpu).pending (k.locals cpu).waiting }
        ensures size { IsSameSize self.old self.new }
    {
        if let Some(address) = self.pending(cpu) {
            return self.store_pending(cpu, address, turned);
        }
        if let Some(block) = self.awaited(cpu) {
            return self.take_waiting(cpu, block, turned);
        }
        self.attempt(cpu, program, turned);
    }

    /// A turn that is neither a tick nor waits. Mostly nothing is left to do before the next instruction, and that is plain, which
    /// is seen at once.
    #[inline(always)]
    pub(crate) fn act(&mut self, cpu: u32, program: &Program, turned: &mut Turned)
        requires cpu { cpu < length self.old.slots }
        requires turns { (rest : Seat) (limits : RunLimits) →
            MayTurn (record { image = program.now; limits = limits }) cpu (kept_by rest self.old) }
        requires acts { (rest : Seat) → MayAct cpu self.old rest }
        requires cpus { length program.now.cpus ≡ length self.old.slots }
        ensures value { (rest : Seat) (limits : RunLimits) →
            let m : Setting = record { image = program.now; limits = limits } in
            let k = kept_by rest self.old in turned_as (kept_by rest self.new) turned.new ≡
            k_acting m cpu k (k.locals cpu).pending (k.locals cpu).waiting }
        ensures size { IsSameSize self.old self.new }
    {
        match self.plain(cpu, program) {
            Some(plain) => self.go_plainly(cpu, &plain, program, turned),
            None => self.act_in_order(cpu, program, turned),
        }
    }

    /// The bytes that the next instruction of the CPU touches, by absolute addresses; none where it does not
    /// go.
    fn operands_wanted(&self, cpu: u32, program: &Program) -> Touches
        requires cpu { cpu < length self.now.slots }
        requires wants { (rest : Seat) (limits : RunLimits) → let k = kept_by rest self.now in
            MayWant (record { image = program.now; limits = limits }) k.storage (k.locals cpu) }
        ensures value { (rest : Seat) (limits : RunLimits) →
            let m : Setting = record { image = program.now; limits = limits } in
            let k = kept_by rest self.now in let l = k.locals cpu in
            result ≡ absolute_ranges l.attempt.cpu.prefix
            (operands_of (fate_by_progress (text_of m) k.storage l.attempt)) }
        ensures small { All (λ r. r.length ≤ 256) result }
        ensures in_storage { All (λ r. r.first + r.length ≤ storage_size) result }
    {
        if self.touches_nothing(cpu, program) {
            return Touches::none();
        }
        if let Some(plain) = self.plain(cpu, program) {
            return operands_at(plain.ready.shape, plain.first);
        }
        let prefix = self.prefix(cpu);
        match self.plan(cpu, program) {
            Plan::Go { need, .. } => operand_places(&need, prefix),
            Plan::Ends(_) => Touches::none(),
            Plan::Stops(_) => Touches::none(),
        }
    }

    /// The bytes that the next turn of the CPU has to fetch or store, by absolute addresses, where it is not
    /// idle, no tick comes with it, and the program does not wait.
    pub fn wanted(&self, cpu: u32, program: &Program) -> Touches
        requires cpu { cpu < length self.now.slots }
        requires wants { (rest : Seat) (limits : RunLimits) → let k = kept_by rest self.now in
            MayWant (record { image = program.now; limits = limits }) k.storage (k.locals cpu) }
        ensures value { (rest : Seat) (limits : RunLimits) → let k = kept_by rest self.now in
            result ≡ wanted_by (record { image = program.now; limits = limits }) k.storage (k.locals cpu) }
        ensures small { All (λ r. r.length ≤ 256) result }
        ensures in_storage { All (λ r. r.first + r.length ≤ storage_size) result }
    {
        let prefix = self.prefix(cpu);
        if let Some(address) = self.pending(cpu) {
            return block_places(address, prefix);
        }
        if let Some(block) = self.awaited(cpu) {
            return interruption_places(block, prefix);
        }
        self.operands_wanted(cpu, program)
    }
}
