//! The CPU.
ghost use Rattle.std.specs.Prelude.{ℕ, List, [], Some, ◌+◌};
ghost use Rattle.std.specs.Prelude.{◌≡◌, ◌<◌, ◌↔◌, IsTrue, IfOk, is_some, length, true, false};
ghost use Rattle.z_regs.specs.Cpu.{cpu_of};
ghost use Rattle.z_regs.specs.Prefix.{storage_size};
ghost use Rattle.z_regs.specs.declared.ranges.Range.{Range};
ghost use Rattle.z_instr.specs.declared.instr.Instr.{Instr};
ghost use Rattle.tx_footprint.specs.Touched.{sets_of};
ghost use Rattle.tx_progress.specs.Progress.{is_live, resting, seen_through};
ghost use Rattle.tx_progress.specs.Local.{settled, aborted, block_stored, interruption_taken};
ghost use Rattle.tx_progress.specs.Doing.{stopped};
ghost use Rattle.tx_progress.specs.Trial.{fate_by_progress};
ghost use Rattle.tx_serial.specs.Fate.{Goes};
ghost use Rattle.tx_cpu.specs.Pairs.{pair_ranges};
ghost use Rattle.tx_cpu.specs.Quiet.{IsQuiet};
ghost use Rattle.tx_program.specs.Shapes.{touched_by, is_reached};
ghost use Rattle.std.specs.Prelude.{IfSome, None, ◌/◌};
ghost use Rattle.std.specs.FinSet.{items};
ghost use Rattle.tx_cpu.specs.Parts.{local_of, beside, goes_on_as};
ghost use Rattle.store_cache.specs.Overlay.{has_block, with_one};
ghost use Rattle.tx_attempt.specs.Storages.{storage_of};
ghost use Rattle.tx_cpu.specs.Plans.{fate_of, levels_of, HasRoom, HasPlanRoom};
ghost use Rattle.tx_serial.specs.Flat.{address_of};
ghost use Rattle.tx_cpu.specs.Plans.{IsPlanPrepared};
ghost use Rattle.tx_attempt.specs.Same.{AreSameAttempts};
ghost use Rattle.tx_constraint.specs.Kept.{Kept};

use crate::interruption::{leave, load, store, waiting_after, waiting_with};
use crate::paired::{Pair, pair_next};
use crate::pending::{Block, pending_after};
use crate::plain::{Plain, plain_next, touches_nothing};
use crate::plan::{Plan, next_plan};
use std::alloc::Global;
use std::marker::Model;
use tx_abort::block_of;
use tx_attempt::{Attempt, put_all};
use tx_control::{Exception, Why};
use tx_footprint::Footprint;
use tx_program::Program;
use z_effect::interrupt;
use z_instr::instr::Instr;
use z_regs::{Bytes, CpuImage, NoMemory, Waiting};

/// One CPU. Contracts speak of what is kept of it (`local_of`): the CPU as the history leaves it, its
/// attempt, the block that is pending for it and the interruption that waits.
#[derive(Drop)]
pub struct Cpu {
    pub(crate) image: CpuImage,
    pub(crate) saved: CpuImage,
    pub(crate) attempt: Attempt,
    pending: Option<Block>,
    pub(crate) waiting: Option<Waiting>,
}

impl Model for Cpu {
    ghost use Rattle.z_regs.specs.Cpu.{cpu_of};
    ghost use Rattle.tx_cpu.specs.Parts.{Parts, IsInside};

    ghost Value = { Parts };

    ghost use Rattle.tx_cpu.specs.Blocks.{pending_of};

    ghost view = { λ c. record {
      image = cpu_of c.image;
      saved = cpu_of c.saved;
      attempt = c.attempt;
      pending = pending_of c.pending;
      waiting = c.waiting;
    } };

    ghost invariant = { λ c. IsInside (pending_of c.pending) };
}

impl Cpu {
    /// A CPU without an attempt, for which nothing is left to do.
    pub fn open(alloc: Global, start: CpuImage) -> Result<Cpu, NoMemory>
        ensures { IfOk result (λ cpu. local_of cpu ≡ settled (cpu_of start)) }
    {
        Ok(Cpu {
            image: start,
            saved: start,
            attempt: Attempt::open(alloc)?,
            pending: None,
            waiting: None,
        })
    }

    /// The CPU as it is now, in its attempt where one is live.
    pub fn image(&self) -> &CpuImage
        ensures { cpu_of result.now ≡ (local_of self.now).attempt.cpu }
    {
        &self.image
    }

    /// How many begins are open, and how many instructions the attempt has completed; None exactly where no
    /// attempt is live.
    pub fn live(&self) -> Option<(u32, u32)>
        ensures { result ≡ levels_of (local_of self.now).attempt }
    {
        if !self.attempt.is_live() {
            return None;
        }
        Some((self.attempt.nest().depth(), self.attempt.count()))
    }

    /// Whether a constrained attempt is live.
    pub fn constrained(&self) -> bool
        ensures { result ≡ is_some (local_of self.now).attempt.constraint }
    {
        self.attempt.is_constrained()
    }

    /// What the attempt has touched; nothing where none is live.
    pub fn footprint(&self) -> &Footprint
        ensures { sets_of result.now ≡ (local_of self.now).attempt.footprint }
    {
        self.attempt.footprint()
    }

    /// The real address of the block that is pending, where there is one.
    pub fn pending(&self) -> Option<u64>
        ensures { result ≡ address_of (local_of self.now).pending }
    {
        Some(self.pending.as_ref()?.address)
    }

    /// The interruption that waits, where there is one.
    pub fn waiting(&self) -> &Option<Waiting>
        ensures { result.now ≡ (local_of self.now).waiting }
    {
        &self.waiting
    }

    /// What comes of the next instruction. Its bytes are those of the program's storage, where they are as long as
    /// the program runs. An instruction that goes may be executed then.
    pub fn prepare(&self, program: &Program) -> Plan
        ensures value { fate_of result ≡ fate_by_progress (items program.now.guard)
            (storage_of program.now.storage) (local_of self.now).attempt }
        ensures code { HasPlanRoom result }
        ensures prepared { IsPlanPrepared (local_of self.now).attempt result }
    {
        next_plan(&self.attempt, &self.image, program)
    }

    /// The next instruction, where nothing unusual is the case: nothing is left to do before it, the CPU has no
    /// prefix, and the instruction has been read before, goes, and fetches or stores no more than some bytes in one
    /// line. Inside a transaction it is no begin, and no begin names a block.
    #[inline(always)]
    pub fn plain<'a>(&self, program: &'a Program) -> Option<Plain<'a>>
        ensures quiet { IfSome result (λ p. IsQuiet (local_of self.now)) }
        ensures goes { IfSome result (λ p. fate_by_progress (items program.now.guard)
            (storage_of program.now.storage) (local_of self.now).attempt ≡ Goes p.ready.now.instr
            (touched_by p.ready.now.shape.touch p.first p.ready.now.shape.size)) }
        ensures reached { IfSome result (λ p. is_reached p.ready.now.shape p.first (items program.now.guard)
            ≡ true) }
    {
        if self.pending.is_some() || self.waiting.is_some() {
            return None;
        }
        if self.image.prefix.is_some() {
            return None;
        }
        plain_next(&self.attempt, &self.image, program)
    }

    /// The next instruction, where it has two blocks of bytes in storage, as MVC, NC and CLC have, the CPU is outside
    /// transactions and has no prefix, and it is seen at once that the instruction goes: it has been read before, its own bytes
    /// lie in one text page, and the blocks where they may be touched. None also of some that go.
    #[inline(always)]
    pub fn pair<'a>(&self, program: &'a Program) -> Option<Pair<'a>>
        ensures { IfSome result (λ p. fate_by_progress (items program.now.guard) (storage_of program.now.storage)
            (local_of self.now).attempt ≡ Goes p.instr.now (pair_ranges p.store p.first p.second p.size)) }
    {
        pair_next(&self.attempt, &self.image, program)
    }

    /// Whether the next instruction is known to have no operand, so that it touches nothing, whatever comes of it: the CPU
    /// has no prefix, and the instruction has been read before.
    pub fn touches_nothing(&self, program: &Program) -> bool
        ensures { (i : Instr) (need : List Range) → result ≡ true → fate_by_progress (items program.now.guard)
            (storage_of program.now.storage) (local_of self.now).attempt ≡ Goes i need → need ≡ [] }
    {
        touches_nothing(&self.attempt, &self.image, program)
    }

    /// The byte that the CPU sees over `base` at an absolute address.
    pub fn seen<V: Bytes>(&self, address: u64, base: &V) -> u8
        requires { address < length (V.bytes base.now) }
        ensures { result ≡
            seen_through (local_of self.now).attempt.overlay (storage_of (V.bytes base.now)) address }
    {
        self.attempt.seen(address, base)
    }

    /// Whether both have the same open begins and the same footprint, and in constrained attempts the same
    /// TBEGINC and the same octowords.
    pub fn same_attempt(&self, other: &Cpu) -> bool
        ensures { IsTrue result ↔
            AreSameAttempts (local_of self.now).attempt (local_of other.now).attempt }
    {
        self.attempt.same(&other.attempt)
    }

    /// What holds of every CPU: where no attempt is live, nothing is left of an earlier one, so that no store waits; where
    /// one is, a begin is open; stores that wait lie in blocks of the footprint; and constraints count one instruction less
    /// than are completed, since TBEGINC is none of them.
    pub fn is_sound(&self)
        ensures rests { is_live (local_of self.now).attempt ≡ false
            → (local_of self.now).attempt ≡ resting (local_of self.now).attempt.cpu }
        ensures opens { is_live (local_of self.now).attempt ≡ true → 0 < length (local_of self.now).attempt.nest }
        ensures blocks { (block : ℕ) → has_block (local_of self.now).attempt.overlay block ≡ true
            → (local_of self.now).attempt.footprint.blocks block ≡ true }
        ensures counted { (k : Kept) → (local_of self.now).attempt.constraint ≡ Some k
            → k.count + 1 ≡ (local_of self.now).attempt.count }
    {
        self.attempt.is_sound();
    }

    /// Makes this CPU equal to the other, with its attempt and what is left to do.
    pub fn copy_from(&mut self, other: &Cpu)
        ensures { local_of self.new ≡ local_of other.now }
    {
        self.image = other.image;
        self.saved = other.saved;
        self.attempt.copy_from(&other.attempt);
        self.pending = other.pending;
        self.waiting = other.waiting;
    }

    /// Goes on as the other CPU: inside a transaction with the same begins, footprint and constraints, as much completed, and
    /// the other's registers; outside as the other CPU is. What this attempt has stored stays, in blocks that the other's footprint
    /// has, and so does what an abort would leave, and what is left to do.
    pub fn go_on_as(&mut self, other: &Cpu)
        requires alike { is_live (local_of self.old).attempt ≡ is_live (local_of other.now).attempt }
        requires covered { (block : ℕ) → has_block (local_of self.old).attempt.overlay block ≡ true
            → (local_of other.now).attempt.footprint.blocks block ≡ true }
        ensures { local_of self.new ≡ goes_on_as (local_of other.now) (local_of self.old) }
    {
        self.image = other.image;
        self.attempt.is_sound();
        other.attempt.is_sound();
        if other.attempt.is_live() {
            self.attempt.go_on_as(&other.attempt);
        }
    }

    /// The last byte that the attempt has stored at an absolute address; None exactly where none was stored. It lies in storage,
    /// in a block of the footprint.
    pub fn stored(&self, address: u64) -> Option<u8>
        ensures value { result ≡ (local_of self.now).attempt.overlay address }
        ensures block { IfSome result (λ byte. (local_of self.now).attempt.footprint.blocks (address / 128) ≡ true) }
        ensures within { IfSome result (λ byte. address < storage_size) }
    {
        self.attempt.stored(address)
    }

    /// The attempt stores one byte more at an absolute address, in a block that its footprint has.
    pub fn add_store(&mut self, address: u64, byte: u8)
        requires within { address < storage_size }
        requires block { (local_of self.old).attempt.footprint.blocks (address / 128) ≡ true }
        ensures { local_of self.new ≡ record (local_of self.old) {
          attempt = record (local_of self.old).attempt {
            overlay = with_one (local_of self.old).attempt.overlay address byte;
          };
        } }
    {
        self.attempt.add_store(address, byte);
    }

    /// Outside transactions, an exception stops the program before anything has changed.
    pub fn stop(&mut self, e: Exception)
        requires { is_live (local_of self.old).attempt ≡ false }
        ensures { local_of self.new ≡ stopped e (local_of self.old) }
    {
        self.attempt.is_sound();
        interrupt(&mut self.image, e);
        self.waiting = waiting_with(self.image.prefix, e.length, None);
    }

    /// Aborts the attempt by this cause; `at` is the address that the diagnostic block tells. Gives how many
    /// instructions the attempt had completed.
    pub fn abort<V: Bytes>(&mut self, why: Why, at: u64, base: &mut V) -> u32
        requires live { is_live (local_of self.old).attempt ≡ true }
        requires code { HasRoom why }
        requires size { length (V.bytes base.old) ≡ storage_size }
        ensures count { result ≡ (local_of self.old).attempt.count }
        ensures value { beside self.new (V.bytes base.new) ≡
            aborted why at (beside self.old (V.bytes base.old)) }
        ensures size { length (V.bytes base.new) ≡ storage_size }
    {
        self.attempt.is_sound();
        let count = self.attempt.count();
        let nest = self.attempt.nest();
        let block = block_of(why, nest, &self.image, at);
        let mask = nest.mask();
        self.pending = pending_after(nest.block(), block);
        self.waiting = waiting_after(self.image.prefix, block, why);
        leave(
            &mut self.image,
            &self.saved,
            mask,
            self.attempt.resumes_at(),
            why,
        );
        self.attempt.abort(base);
        count
    }

    /// Stores the block that is pending, where there is one.
    pub fn store_block<V: Bytes>(&mut self, base: &mut V)
        requires { length (V.bytes base.old) ≡ storage_size }
        ensures value { beside self.new (V.bytes base.new) ≡
            block_stored (beside self.old (V.bytes base.old)) }
        ensures size { length (V.bytes base.new) ≡ storage_size }
    {
        let settled = self.attempt.settled(&self.saved, &self.image);
        let prefix = settled.prefix;
        match self.pending {
            None => {}
            Some(block) => {
                put_all(&block.bytes, block.address, prefix, base);
                self.pending = None;
            }
        }
    }

    /// Takes the interruption that waits, where there is one; no attempt is live.
    pub fn take<V: Bytes>(&mut self, base: &mut V)
        requires rests { is_live (local_of self.old).attempt ≡ false }
        requires size { length (V.bytes base.old) ≡ storage_size }
        ensures value { beside self.new (V.bytes base.new) ≡
            interruption_taken (beside self.old (V.bytes base.old)) }
        ensures size { length (V.bytes base.new) ≡ storage_size }
    {
        self.attempt.is_sound();
        match self.waiting {
            None => {}
            Some(waiting) => {
                store(&self.image, &waiting, base);
                load(&mut self.image, base);
                self.waiting = None;
            }
        }
    }
}
