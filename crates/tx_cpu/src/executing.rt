//! The CPU executes an instruction.
ghost use Rattle.z_instr.specs.Roles.{begins as is_begun, is_end as is_ended, block_named};
ghost use Rattle.z_instr.specs.Table.{entry_at, kind_at};
ghost use Rattle.z_instr.specs.declared.kind.Storage.TheVariants.{Store};
ghost use Rattle.z_instr.specs.declared.kind.Transaction.TheVariants.{End, StoreLasting};
ghost use Rattle.z_instr.specs.declared.operand.Size.TheVariants.{Doubleword};
ghost use Rattle.tx_attempt.specs.Performed.{no_range, first_size, is_transaction, StoresNone, IsKeptApart, IsLeftOutside};
ghost use Rattle.tx_attempt.specs.Advancing.{MayStep};
ghost use Rattle.std.specs.Prelude.{get_or, ℕ, List, [], Some, ◌+◌, ◌≤◌, ◌^◌, ◌&&◌, nat_eq};
ghost use Rattle.std.specs.Prelude.{◌≡◌, ◌<◌, IsTrue, length, true, false, All};
ghost use Rattle.z_regs.specs.Cpu as registers;
ghost use Rattle.z_regs.specs.Prefix.{is_prefix, storage_size};
ghost use Rattle.z_effect.specs.Outcome.{Outcome};
ghost use Rattle.z_effect.specs.TransactionEffect.{delay_given};
ghost use Rattle.z_regs.specs.declared.ranges.Range.{Range};
ghost use Rattle.z_instr.specs.declared.instr.Instr.{Instr};
ghost use Rattle.tx_progress.specs.Progress.{is_live};
ghost use Rattle.tx_attempt.specs.declared.performing.Ended.TheVariants.{Completed};
ghost use Rattle.tx_progress.specs.declared.done.Done.TheVariants.{Stepped, Committed};
ghost use Rattle.tx_progress.specs.Doing.{executed, executed_where, inside, outside, done_outside, told_of};
ghost use Rattle.tx_progress.specs.Trial.{outcome_by};
ghost use Rattle.tx_serial.specs.Fate.{operands};
ghost use Rattle.tx_program.specs.Shapes.{touched_by, is_placed};
ghost use Rattle.std.specs.Prelude.{None};
ghost use Rattle.z_regs.specs.Absolute.{IsAccessible};
ghost use Rattle.tx_cpu.specs.Parts.{local_of, beside};
ghost use Rattle.tx_attempt.specs.Storages.{storage_of};
ghost use Rattle.tx_cpu.specs.Going.{MayGo, GoesThere, IsSeenThere, told_or};
ghost use Rattle.tx_cpu.specs.Plans.{IsPrepared, HasDoneRoom};

use crate::one::Cpu;
use crate::outside::{
    delay_after, end_outside, perform_outside, perform_there, told, wait_outside,
};
use crate::plain::{Plain, add_operand, advance_there, operands_at};
use tx_attempt::{
    Before, Ended, MOST_BYTES, cause_in, execute_seen, keep_register, operand, perform,
    stores_register, transaction_of,
};
use tx_control::Why;
use tx_control::codes::{FIXED_POINT_DIVIDE, FIXED_POINT_OVERFLOW};
use tx_program::Touch;
use tx_progress::done::Done;
use z_effect::{exception, register};
use z_instr::format::length_in;
use z_instr::instr::Instr;
use z_instr::kind::{Kind, Transaction};
use z_instr::lookup::{kind_in, line};
use z_instr::roles::{begins, is_end};
use z_regs::{Bytes, RunState, Touches};

/// Whether an instruction outside transactions that has ended so, and has left the CPU in this state, is simply completed.
#[inline(always)]
fn is_simple(ended: Ended, state: RunState) -> bool
    ensures completed { result ≡ true → ended ≡ Completed }
    ensures told { result ≡ true → told_of state 0 ≡ Stepped }
{
    match ended {
        Ended::Completed => match state {
            RunState::Interrupted(_) => false,
            RunState::Running => true,
            RunState::Halted => true,
        },
        _ => false,
    }
}

impl Cpu {
    /// An instruction outside transactions has ended so, behind which the program waits so many turns: the CPU is interrupted
    /// where it has ended by an exception. Gives what is told of it.
    #[inline(always)]
    fn leave_outside(&mut self, instr: &Instr, ended: Ended, turns: u32) -> Done
        requires rests { is_live (local_of self.old).attempt ≡ false }
        ensures { (c : registers.Cpu) (o : Outcome) (need : List Range) (before after : List ℕ)
            → IsLeftOutside need c self.old.image before after ended o → turns ≡ delay_given instr.now c
            → record { after = beside self.new after; told = result } ≡ done_outside instr.now
            (beside (record self.old { image = c }) before) (outside instr.now need
            (beside (record self.old { image = c }) before) o) }
    {
        self.attempt.is_sound();
        let length = length_in(line(instr.op).form);
        end_outside(&mut self.image, ended, length);
        wait_outside(&mut self.waiting, self.image.prefix, length, ended);
        told(self.image.state, turns)
    }

    /// Executes an instruction outside transactions that begins none.
    #[inline(always)]
    fn execute_outside<V: Bytes>(&mut self, instr: &Instr, need: &Touches, base: &mut V) -> Done
        requires rests { is_live (local_of self.old).attempt ≡ false }
        requires need { need.now ≡ operands instr.now (local_of self.old).attempt.cpu }
        requires accessible { All (IsAccessible (local_of self.old).attempt.cpu.prefix) need.now }
        requires size { length (V.bytes base.old) ≡ storage_size }
        ensures value { record { after = beside self.new (V.bytes base.new); told = result } ≡
            executed_where false false instr.now need.now (beside self.old (V.bytes base.old))
            (outcome_by (storage_of (V.bytes base.old)) instr.now need.now (local_of self.old).attempt) }
        ensures size { length (V.bytes base.new) ≡ storage_size }
    {
        self.attempt.is_sound();
        let kind = kind_in(instr.op);
        let turns = delay_after(kind, instr, &self.image);
        let ended = perform_outside(&self.attempt, kind, instr, need, &mut self.image, base);
        self.leave_outside(instr, ended, turns)
    }

    /// Executes the outermost begin.
    fn execute_begin<V: Bytes>(&mut self, instr: &Instr, need: &Touches, base: &mut V) -> Done
        requires rests { is_live (local_of self.old).attempt ≡ false }
        requires begins { is_begun (entry_at instr.now.op.number) ≡ true }
        requires need { need.now ≡ operands instr.now (local_of self.old).attempt.cpu }
        requires accessible { All (IsAccessible (local_of self.old).attempt.cpu.prefix) need.now }
        requires block { (a : ℕ) → block_named instr.now (local_of self.old).attempt.cpu.general ≡ Some a
            → a + 256 ≤ storage_size }
        requires place { (local_of self.old).attempt.cpu.address < storage_size }
        requires size { length (V.bytes base.old) ≡ storage_size }
        ensures value { record { after = beside self.new (V.bytes base.new); told = result } ≡
            executed_where false true instr.now need.now (beside self.old (V.bytes base.old))
            (outcome_by (storage_of (V.bytes base.old)) instr.now need.now (local_of self.old).attempt) }
        ensures size { length (V.bytes base.new) ≡ storage_size }
    {
        self.attempt.is_sound();
        let kind = kind_in(instr.op);
        self.saved = self.image;
        perform(
            &self.attempt,
            kind,
            instr,
            need,
            &mut self.image,
            &mut [0; 0],
            base,
        );
        self.attempt.begin(instr, &self.saved);
        Done::Began
    }

    /// Whether the instruction ends the last begin that is open.
    fn is_last(&self, instr: &Instr) -> bool
        ensures { result ≡
            (is_ended (entry_at instr.now.op.number) && nat_eq (length self.now.attempt.nest) 1) }
    {
        is_end(instr.op) && self.attempt.nest().depth() == 1
    }

    /// Executes an instruction inside a transaction that may be about transactions, with room for the bytes of its first
    /// operand.
    #[inline(never)]
    fn execute_nested<V: Bytes>(
        &mut self,
        kind: &Kind,
        instr: &Instr,
        need: &Touches,
        stored: &mut [u8],
        base: &mut V,
    ) -> Done
        requires kind { kind.now ≡ kind_at instr.now.op.number }
        requires live { is_live (local_of self.old).attempt ≡ true }
        requires goes { MayGo self.old.attempt self.old.image instr.now need.now }
        requires count { (local_of self.old).attempt.count + 1 < 2 ^ 32 }
        requires room { (get_or need.now 0 no_range).length ≤ length stored.old }
        requires size { length (V.bytes base.old) ≡ storage_size }
        ensures value { record { after = beside self.new (V.bytes base.new); told = result } ≡
            inside instr.now need.now (beside self.old (V.bytes base.old))
            (outcome_by (storage_of (V.bytes base.old)) instr.now need.now (local_of self.old).attempt) }
        ensures size { length (V.bytes base.new) ≡ storage_size }
    {
        self.attempt.is_sound();
        let before = Before::of(instr, &self.image);
        let ended = perform(
            &self.attempt,
            kind,
            instr,
            need,
            &mut self.image,
            stored,
            base,
        );
        match ended {
            Ended::Completed => {
                if self.is_last(instr) {
                    let count = self.attempt.count() + 1;
                    self.attempt.commit(base);
                    return Done::Committed(count);
                }
                self.attempt.advance(instr, need, stored, &before);
                self.attempt.is_sound();
                Done::Stepped
            }
            Ended::Exceeded => {
                self.attempt.advance(instr, need, stored, &before);
                let overflow = exception(FIXED_POINT_OVERFLOW, length_in(line(instr.op).form));
                Done::Ended(cause_in(self.attempt.nest(), overflow))
            }
            Ended::Suppressed => {
                let divide = exception(FIXED_POINT_DIVIDE, length_in(line(instr.op).form));
                Done::Ended(cause_in(self.attempt.nest(), divide))
            }
            Ended::Aborting(code) => Done::Ended(Why::Tabort(code)),
        }
    }

    /// Executes NTSTG inside a transaction, which is always completed: nothing is asked of begins.
    #[inline(never)]
    fn execute_lasting<V: Bytes>(&mut self, instr: &Instr, need: &Touches, base: &mut V)
        requires kind { kind_at instr.now.op.number ≡ Kind.Transaction StoreLasting }
        requires live { is_live (local_of self.old).attempt ≡ true }
        requires goes { MayGo self.old.attempt self.old.image instr.now need.now }
        requires count { (local_of self.old).attempt.count + 1 < 2 ^ 32 }
        requires size { length (V.bytes base.old) ≡ storage_size }
        ensures value { record { after = beside self.new (V.bytes base.new); told = Stepped } ≡
            inside instr.now need.now (beside self.old (V.bytes base.old))
            (outcome_by (storage_of (V.bytes base.old)) instr.now need.now (local_of self.old).attempt) }
        ensures size { length (V.bytes base.new) ≡ storage_size }
    {
        self.attempt.is_sound();
        let prefix = self.image.prefix;
        let source = register(&self.image, instr.r1);
        let mut stored = [0; 8];
        let kind = Kind::Transaction(Transaction::StoreLasting);
        let image = &mut self.image;
        perform(&self.attempt, &kind, instr, need, image, &mut stored, base);
        self.attempt
            .advance_lasting(instr, need, &stored, source, prefix);
        self.attempt.is_sound();
    }

    /// Executes a TEND that ends the last begin that is open: the attempt is committed. Gives how
    /// many instructions it had completed, with this one.
    #[inline(never)]
    fn execute_last<V: Bytes>(&mut self, instr: &Instr, need: &Touches, base: &mut V) -> u32
        requires kind { kind_at instr.now.op.number ≡ Kind.Transaction End }
        requires last { length self.old.attempt.nest ≡ 1 }
        requires live { is_live (local_of self.old).attempt ≡ true }
        requires goes { MayGo self.old.attempt self.old.image instr.now need.now }
        requires count { (local_of self.old).attempt.count + 1 < 2 ^ 32 }
        requires size { length (V.bytes base.old) ≡ storage_size }
        ensures value { record { after = beside self.new (V.bytes base.new); told = Committed result } ≡
            inside instr.now need.now (beside self.old (V.bytes base.old))
            (outcome_by (storage_of (V.bytes base.old)) instr.now need.now (local_of self.old).attempt) }
        ensures size { length (V.bytes base.new) ≡ storage_size }
    {
        let kind = Kind::Transaction(Transaction::End);
        let image = &mut self.image;
        perform(&self.attempt, &kind, instr, need, image, &mut [0; 0], base);
        let count = self.attempt.count() + 1;
        self.attempt.commit(base);
        count
    }

    /// Executes an instruction about transactions inside one, and says whether it is simply completed; else `aside` has what came
    /// of it. NTSTG, and a TEND that commits, have ways of their own.
    #[inline(always)]
    fn execute_about<V: Bytes>(
        &mut self,
        transaction: Transaction,
        kind: &Kind,
        instr: &Instr,
        need: &Touches,
        base: &mut V,
        aside: &mut Done,
    ) -> bool
        requires transaction { kind_at instr.now.op.number ≡ Kind.Transaction transaction }
        requires kind { kind.now ≡ kind_at instr.now.op.number }
        requires live { is_live (local_of self.old).attempt ≡ true }
        requires goes { MayGo self.old.attempt self.old.image instr.now need.now }
        requires count { (local_of self.old).attempt.count + 1 < 2 ^ 32 }
        requires size { length (V.bytes base.old) ≡ storage_size }
        ensures value { record { after = beside self.new (V.bytes base.new); told = told_or result aside.new } ≡
            inside instr.now need.now (beside self.old (V.bytes base.old))
            (outcome_by (storage_of (V.bytes base.old)) instr.now need.now (local_of self.old).attempt) }
        ensures size { length (V.bytes base.new) ≡ storage_size }
    {
        match transaction {
            Transaction::StoreLasting => {
                self.execute_lasting(instr, need, base);
                true
            }
            Transaction::End if self.attempt.nest().depth() == 1 => {
                *aside = Done::Committed(self.execute_last(instr, need, base));
                false
            }
            _ => {
                *aside = self.execute_nested(kind, instr, need, &mut [0; 8], base);
                false
            }
        }
    }

    /// An instruction inside a transaction that is not about transactions has ended so, with the bytes of its first operand: the
    /// attempt has it, unless it is suppressed. Gives what is told of it. The CPU had this prefix before it.
    #[inline(never)]
    fn end_inside(
        &mut self,
        instr: &Instr,
        need: &Touches,
        stored: &[u8],
        prefix: Option<u32>,
        ended: Ended,
    ) -> Done
        requires live { is_live (local_of self.old).attempt ≡ true }
        requires count { (local_of self.old).attempt.count + 1 < 2 ^ 32 }
        requires plain { is_transaction (kind_at instr.now.op.number) ≡ false }
        requires prefix_in { IsTrue (is_prefix prefix) }
        requires room { (get_or need.now 0 no_range).length ≤ length stored.now }
        requires accessible { All (IsAccessible prefix) need.now }
        requires goes_on { MayStep self.old.attempt prefix need.now }
        ensures { (c : registers.Cpu) (o : Outcome) (bytes : List ℕ) → c.prefix ≡ prefix
            → IsKeptApart o (first_size need.now) c self.old.image stored.now ended
            → record { after = beside self.new bytes; told = result } ≡ inside instr.now need.now
            (beside (record self.old { image = c }) bytes) o }
    {
        match ended {
            Ended::Completed => {
                self.attempt.advance_plainly(need, stored, prefix);
                self.attempt.is_sound();
                Done::Stepped
            }
            Ended::Exceeded => {
                self.attempt.advance_plainly(need, stored, prefix);
                let overflow = exception(FIXED_POINT_OVERFLOW, length_in(line(instr.op).form));
                Done::Ended(cause_in(self.attempt.nest(), overflow))
            }
            Ended::Suppressed => {
                let divide = exception(FIXED_POINT_DIVIDE, length_in(line(instr.op).form));
                Done::Ended(cause_in(self.attempt.nest(), divide))
            }
            Ended::Aborting(code) => Done::Ended(Why::Tabort(code)),
        }
    }

    /// Executes an instruction inside a transaction that is not about transactions, with room for the bytes of its first
    /// operand, and says whether it is simply completed; else `aside` has what came of it. Such an instruction opens and closes
    /// no begin, so nothing is asked of the CPU before it but its prefix.
    #[inline(never)]
    fn execute_with<V: Bytes>(
        &mut self,
        kind: &Kind,
        instr: &Instr,
        need: &Touches,
        stored: &mut [u8],
        base: &mut V,
        aside: &mut Done,
    ) -> bool
        requires kind { kind.now ≡ kind_at instr.now.op.number }
        requires plain { is_transaction (kind_at instr.now.op.number) ≡ false }
        requires live { is_live (local_of self.old).attempt ≡ true }
        requires goes { MayGo self.old.attempt self.old.image instr.now need.now }
        requires count { (local_of self.old).attempt.count + 1 < 2 ^ 32 }
        requires room { (get_or need.now 0 no_range).length ≤ length stored.old }
        requires size { length (V.bytes base.old) ≡ storage_size }
        ensures value { record { after = beside self.new (V.bytes base.new); told = told_or result aside.new } ≡
            inside instr.now need.now (beside self.old (V.bytes base.old))
            (outcome_by (storage_of (V.bytes base.old)) instr.now need.now (local_of self.old).attempt) }
        ensures size { length (V.bytes base.new) ≡ storage_size }
    {
        self.attempt.is_sound();
        let prefix = self.image.prefix;
        let ended = execute_seen(
            &self.attempt,
            kind,
            instr,
            need,
            &mut self.image,
            stored,
            base,
        );
        match ended {
            Ended::Completed => {
                self.attempt.advance_plainly(need, stored, prefix);
                self.attempt.is_sound();
                true
            }
            _ => {
                *aside = self.end_inside(instr, need, stored, prefix, ended);
                false
            }
        }
    }

    /// The same, with the room that the first operand needs. Most instructions have no operand in storage, or one of at most
    /// eight bytes.
    #[inline(always)]
    fn execute_sized<V: Bytes>(
        &mut self,
        kind: &Kind,
        instr: &Instr,
        need: &Touches,
        base: &mut V,
        aside: &mut Done,
    ) -> bool
        requires kind { kind.now ≡ kind_at instr.now.op.number }
        requires plain { is_transaction (kind_at instr.now.op.number) ≡ false }
        requires live { is_live (local_of self.old).attempt ≡ true }
        requires goes { MayGo self.old.attempt self.old.image instr.now need.now }
        requires count { (local_of self.old).attempt.count + 1 < 2 ^ 32 }
        requires size { length (V.bytes base.old) ≡ storage_size }
        ensures value { record { after = beside self.new (V.bytes base.new); told = told_or result aside.new } ≡
            inside instr.now need.now (beside self.old (V.bytes base.old))
            (outcome_by (storage_of (V.bytes base.old)) instr.now need.now (local_of self.old).attempt) }
        ensures size { length (V.bytes base.new) ≡ storage_size }
    {
        let most = operand(need, 0).length;
        if most == 0 {
            return self.execute_with(kind, instr, need, &mut [0; 0], base, aside);
        }
        if most <= 8 {
            return self.execute_with(kind, instr, need, &mut [0; 8], base, aside);
        }
        self.execute_with(kind, instr, need, &mut [0; MOST_BYTES], base, aside)
    }

    /// Executes STG inside a transaction, which is always completed: its register is kept apart, whatever storage has.
    #[inline(never)]
    fn execute_store(&mut self, instr: &Instr, need: &Touches)
        requires kind { kind_at instr.now.op.number ≡ Kind.Storage (Store Doubleword) }
        requires live { is_live (local_of self.old).attempt ≡ true }
        requires goes { MayGo self.old.attempt self.old.image instr.now need.now }
        requires count { (local_of self.old).attempt.count + 1 < 2 ^ 32 }
        ensures { (bytes : List ℕ) → record { after = beside self.new bytes; told = Stepped } ≡
            inside instr.now need.now (beside self.old bytes)
            (outcome_by (storage_of bytes) instr.now need.now (local_of self.old).attempt) }
    {
        self.attempt.is_sound();
        let prefix = self.image.prefix;
        let mut stored = [0; 8];
        keep_register(instr, &mut self.image, &mut stored);
        self.attempt.advance_plainly(need, &stored, prefix);
        self.attempt.is_sound();
    }

    /// Executes an instruction inside a transaction, and says whether it is simply completed; else `aside` has what came of it.
    #[inline(always)]
    fn execute_inside<V: Bytes>(
        &mut self,
        kind: &Kind,
        instr: &Instr,
        need: &Touches,
        base: &mut V,
        aside: &mut Done,
    ) -> bool
        requires kind { kind.now ≡ kind_at instr.now.op.number }
        requires live { is_live (local_of self.old).attempt ≡ true }
        requires goes { MayGo self.old.attempt self.old.image instr.now need.now }
        requires count { (local_of self.old).attempt.count + 1 < 2 ^ 32 }
        requires size { length (V.bytes base.old) ≡ storage_size }
        ensures value { record { after = beside self.new (V.bytes base.new); told = told_or result aside.new } ≡
            inside instr.now need.now (beside self.old (V.bytes base.old))
            (outcome_by (storage_of (V.bytes base.old)) instr.now need.now (local_of self.old).attempt) }
        ensures size { length (V.bytes base.new) ≡ storage_size }
    {
        if let Some(transaction) = transaction_of(kind) {
            return self.execute_about(transaction, kind, instr, need, base, aside);
        }
        self.execute_sized(kind, instr, need, base, aside)
    }

    /// Executes an instruction inside a transaction, and tells what came of it.
    #[inline(always)]
    fn execute_told<V: Bytes>(&mut self, instr: &Instr, need: &Touches, base: &mut V) -> Done
        requires live { is_live (local_of self.old).attempt ≡ true }
        requires goes { MayGo self.old.attempt self.old.image instr.now need.now }
        requires count { (local_of self.old).attempt.count + 1 < 2 ^ 32 }
        requires size { length (V.bytes base.old) ≡ storage_size }
        ensures value { record { after = beside self.new (V.bytes base.new); told = result } ≡
            inside instr.now need.now (beside self.old (V.bytes base.old))
            (outcome_by (storage_of (V.bytes base.old)) instr.now need.now (local_of self.old).attempt) }
        ensures size { length (V.bytes base.new) ≡ storage_size }
    {
        let mut aside = Done::Stepped;
        if self.execute_inside(kind_in(instr.op), instr, need, base, &mut aside) {
            return Done::Stepped;
        }
        aside
    }

    /// Executes an instruction as `execute` does, where an attempt is known to be live.
    #[inline(always)]
    fn execute_live<V: Bytes>(&mut self, instr: &Instr, need: &Touches, base: &mut V) -> Done
        requires live { is_live (local_of self.old).attempt ≡ true }
        requires prepared { IsPrepared (local_of self.old).attempt instr.now need.now }
        requires count { (local_of self.old).attempt.count + 1 < 2 ^ 32 }
        requires size { length (V.bytes base.old) ≡ storage_size }
        ensures value { record { after = beside self.new (V.bytes base.new); told = result } ≡
            executed instr.now need.now (beside self.old (V.bytes base.old)) }
        ensures code { HasDoneRoom result }
        ensures size { length (V.bytes base.new) ≡ storage_size }
    {
        self.attempt.is_sound();
        self.execute_told(instr, need, base)
    }

    /// Executes a plain instruction inside a transaction, and tells what came of it as `execute` does: that it is simply completed,
    /// by true, and else what `aside` has then. STG has a way of its own.
    #[inline(always)]
    pub fn execute_plainly<V: Bytes>(
        &mut self,
        plain: &Plain,
        base: &mut V,
        aside: &mut Done,
    ) -> bool
        requires live { is_live (local_of self.old).attempt ≡ true }
        requires prepared { IsPrepared (local_of self.old).attempt plain.now.ready.now.instr
            (touched_by plain.now.ready.now.shape.touch plain.now.first plain.now.ready.now.shape.size) }
        requires count { (local_of self.old).attempt.count + 1 < 2 ^ 32 }
        requires size { length (V.bytes base.old) ≡ storage_size }
        ensures value { record { after = beside self.new (V.bytes base.new); told = told_or result aside.new } ≡
            executed plain.now.ready.now.instr
            (touched_by plain.now.ready.now.shape.touch plain.now.first plain.now.ready.now.shape.size)
            (beside self.old (V.bytes base.old)) }
        ensures code { HasDoneRoom (told_or result aside.new) }
        ensures size { length (V.bytes base.new) ≡ storage_size }
    {
        self.attempt.is_sound();
        let instr = &plain.ready.instr;
        let kind = kind_in(instr.op);
        let mut need = Touches::none();
        add_operand(&mut need, plain.ready.shape, plain.first);
        if stores_register(kind) {
            self.execute_store(instr, &need);
            return true;
        }
        self.execute_inside(kind, instr, &need, base, aside)
    }

    /// Whether an attempt, where one is live, sees the operand of a plain instruction as it is in storage, and nothing is stored
    /// into it.
    #[inline(always)]
    fn sees_there(&self, plain: &Plain) -> bool
        requires bare { (local_of self.now).attempt.cpu.prefix ≡ None }
        requires placed { is_placed plain.now.ready.now.shape plain.now.first ≡ true }
        ensures { result ≡ true → is_live (local_of self.now).attempt ≡ true → IsSeenThere (local_of self.now).attempt
            (touched_by plain.now.ready.now.shape.touch plain.now.first plain.now.ready.now.shape.size) }
    {
        if !self.attempt.is_live() {
            return true;
        }
        match plain.ready.shape.touch {
            Touch::Nothing => true,
            Touch::Fetch => self.attempt.is_bare(plain.first, plain.ready.shape.size),
            Touch::Store => false,
            Touch::Other => false,
        }
    }

    /// Whether a plain instruction may be executed on storage as it is, for a CPU without a prefix: it is not about transactions,
    /// and an attempt that is live has stored nothing in the blocks of its operand, into which nothing is stored.
    #[inline(always)]
    pub fn goes_there(&self, plain: &Plain) -> bool
        requires bare { (local_of self.now).attempt.cpu.prefix ≡ None }
        requires placed { is_placed plain.now.ready.now.shape plain.now.first ≡ true }
        ensures { result ≡ true → GoesThere (local_of self.now).attempt plain.now.ready.now.instr
            (touched_by plain.now.ready.now.shape.touch plain.now.first plain.now.ready.now.shape.size) }
    {
        if transaction_of(kind_in(plain.ready.instr.op)).is_some() {
            return false;
        }
        self.sees_there(plain)
    }

    /// A plain instruction inside a transaction has ended so on storage as it is, where the CPU has no prefix. True where it
    /// is simply completed; else `aside` has what it tells. Its operand is made where something is asked of it.
    #[inline(always)]
    fn leave_inside(&mut self, plain: &Plain, ended: Ended, aside: &mut Done) -> bool
        requires live { is_live (local_of self.old).attempt ≡ true }
        requires count { (local_of self.old).attempt.count + 1 < 2 ^ 32 }
        requires plain { is_transaction (kind_at plain.now.ready.now.instr.op.number) ≡ false }
        requires fetches { StoresNone
            (touched_by plain.now.ready.now.shape.touch plain.now.first plain.now.ready.now.shape.size) }
        requires accessible { All (IsAccessible None)
            (touched_by plain.now.ready.now.shape.touch plain.now.first plain.now.ready.now.shape.size) }
        requires goes_on { MayStep self.old.attempt None
            (touched_by plain.now.ready.now.shape.touch plain.now.first plain.now.ready.now.shape.size) }
        ensures { (c : registers.Cpu) (o : Outcome) (bytes : List ℕ) →
            let need = touched_by plain.now.ready.now.shape.touch plain.now.first plain.now.ready.now.shape.size in
            c.prefix ≡ None → IsKeptApart o (first_size need) c self.old.image [] ended
            → record { after = beside self.new bytes; told = told_or result aside.new } ≡ inside plain.now.ready.now.instr need
            (beside (record self.old { image = c }) bytes) o }
    {
        match ended {
            Ended::Completed => {
                advance_there(&mut self.attempt, plain.ready.shape, plain.first);
                self.attempt.is_sound();
                true
            }
            _ => {
                let need = operands_at(plain.ready.shape, plain.first);
                *aside = self.end_inside(&plain.ready.instr, &need, &[0; MOST_BYTES], None, ended);
                false
            }
        }
    }

    /// An instruction outside transactions that has ended so, and is not simply completed. `aside` has what it tells then.
    #[cold]
    #[inline(never)]
    fn leave_aside(&mut self, instr: &Instr, ended: Ended, aside: &mut Done)
        requires rests { is_live (local_of self.old).attempt ≡ false }
        ensures { (c : registers.Cpu) (o : Outcome) (need : List Range) (before after : List ℕ)
            → IsLeftOutside need c self.old.image before after ended o → 0 ≡ delay_given instr.now c
            → record { after = beside self.new after; told = aside.new } ≡ done_outside instr.now
            (beside (record self.old { image = c }) before) (outside instr.now need
            (beside (record self.old { image = c }) before) o) }
    {
        *aside = self.leave_outside(instr, ended, 0);
    }

    /// An instruction outside transactions has ended so, behind which the program does not wait. True where it is simply
    /// completed; else `aside` has what it tells.
    #[inline(always)]
    fn leave_simply(&mut self, instr: &Instr, ended: Ended, aside: &mut Done) -> bool
        requires rests { is_live (local_of self.old).attempt ≡ false }
        ensures { (c : registers.Cpu) (o : Outcome) (need : List Range) (before after : List ℕ)
            → IsLeftOutside need c self.old.image before after ended o → 0 ≡ delay_given instr.now c
            → record { after = beside self.new after; told = told_or result aside.new } ≡ done_outside instr.now
            (beside (record self.old { image = c }) before) (outside instr.now need
            (beside (record self.old { image = c }) before) o) }
    {
        self.attempt.is_sound();
        if is_simple(ended, self.image.state) {
            return true;
        }
        self.leave_aside(instr, ended, aside);
        false
    }

    /// Executes a plain instruction on storage as it is, and tells what came of it as `execute` does: that it is simply completed,
    /// by true, and else what `aside` has then. The CPU has no prefix, and the instruction is not about transactions; where an
    /// attempt is live, it sees the operand there, and nothing is stored.
    #[inline(always)]
    pub fn execute_there<V: Bytes>(&mut self, plain: &Plain, base: &mut V, aside: &mut Done) -> bool
        requires prepared { IsPrepared (local_of self.old).attempt plain.now.ready.now.instr
            (touched_by plain.now.ready.now.shape.touch plain.now.first plain.now.ready.now.shape.size) }
        requires there { GoesThere (local_of self.old).attempt plain.now.ready.now.instr
            (touched_by plain.now.ready.now.shape.touch plain.now.first plain.now.ready.now.shape.size) }
        requires count { (local_of self.old).attempt.count + 1 < 2 ^ 32 }
        requires size { length (V.bytes base.old) ≡ storage_size }
        ensures value { record { after = beside self.new (V.bytes base.new); told = told_or result aside.new } ≡
            executed plain.now.ready.now.instr
            (touched_by plain.now.ready.now.shape.touch plain.now.first plain.now.ready.now.shape.size)
            (beside self.old (V.bytes base.old)) }
        ensures code { HasDoneRoom (told_or result aside.new) }
        ensures size { length (V.bytes base.new) ≡ storage_size }
    {
        self.attempt.is_sound();
        let instr = &plain.ready.instr;
        let need = operands_at(plain.ready.shape, plain.first);
        let ended = perform_there(kind_in(instr.op), instr, &need, &mut self.image, base);
        if self.attempt.is_live() {
            return self.leave_inside(plain, ended, aside);
        }
        self.leave_simply(instr, ended, aside)
    }

    /// Executes an instruction that `prepare` has found to go, with its operands, and tells what came of it.
    /// Where it ends its transaction by a cause, nothing is aborted yet, and a program exception among these
    /// leaves room for the bit that an abort adds to its code.
    #[inline(always)]
    pub fn execute<V: Bytes>(&mut self, instr: &Instr, need: &Touches, base: &mut V) -> Done
        requires prepared { IsPrepared (local_of self.old).attempt instr.now need.now }
        requires count { (local_of self.old).attempt.count + 1 < 2 ^ 32 }
        requires size { length (V.bytes base.old) ≡ storage_size }
        ensures value { record { after = beside self.new (V.bytes base.new); told = result } ≡
            executed instr.now need.now (beside self.old (V.bytes base.old)) }
        ensures code { HasDoneRoom result }
        ensures size { length (V.bytes base.new) ≡ storage_size }
    {
        self.attempt.is_sound();
        if self.attempt.is_live() {
            return self.execute_live(instr, need, base);
        }
        if begins(instr.op) {
            return self.execute_begin(instr, need, base);
        }
        self.execute_outside(instr, need, base)
    }
}
