//! What the seven transaction instructions do to a CPU, apart from beginning and ending transactions.
ghost use Rattle.std.specs.Prelude.{◌≡◌, ◌≤◌, true};
ghost use Rattle.z_instr.specs.Table.{entry_at};
ghost use Rattle.z_regs.specs.Cpu.{cpu_of};
ghost use Rattle.z_effect.specs.After.{cpu_after};
ghost use Rattle.z_instr.specs.Reading.{modulo};
ghost use Rattle.z_instr.specs.Ranges.{is_within, half};
ghost use Rattle.z_instr.specs.Roles.{begins};
ghost use Rattle.tx_control.specs.Begins.{asked_by};
ghost use Rattle.z_effect.specs.Beginning.{is_constrained, begin_of};
ghost use Rattle.z_effect.specs.Interrupted.{interrupted_by};
ghost use Rattle.z_effect.specs.TransactionEffect.{transaction_effect, delay_of};

use crate::steps::{advance, operand, put};
use tx_control::{Begin, Exception};
use z_arith::Width;
use z_instr::instr::Instr;
use z_instr::kind::Transaction;
use z_instr::laws::immediates_are_plain;
use z_instr::lookup::line;
use z_instr::op::Op;
use z_instr::operand::Demand;
use z_instr::roles::block_named;
use z_regs::{CpuImage, RunState};

/// The most delay turns that an assist gives, as a power of two.
const GREATEST_POWER: u64 = 6;

/// What a transaction instruction of `n` bytes does to the CPU at a nesting depth, at most 16. An abort
/// changes nothing; the store of NTSTG, the levels of the nest and the delay are the caller's.
#[tactic(auto, unfolding(crate::specs::TransactionEffect::transaction_effect))]
pub fn transact(kind: Transaction, instr: &Instr, image: &mut CpuImage, n: u8, depth: u32)
    requires { depth ≤ 16 }
    ensures { cpu_of image.new ≡
        cpu_after (cpu_of image.old) (transaction_effect kind n instr.now (cpu_of image.old) depth) }
{
    match kind {
        Transaction::Begin | Transaction::BeginConstrained => {
            image.condition = 0;
            advance(image, n);
        }
        Transaction::End => {
            image.condition = if depth == 0 { 2 } else { 0 };
            advance(image, n);
        }
        Transaction::ExtractDepth => {
            put(image, Width::Word, instr.r1, u64::from(depth));
            advance(image, n);
        }
        Transaction::StoreLasting | Transaction::Assist => advance(image, n),
        Transaction::Abort => {}
    }
}

/// How many delay turns PPA gives outside transactions: with 1 in M3 and a count in the word of R1, two to
/// the power of the count and at most 64, but none for 0; with another M3 none.
#[tactic(auto, unfolding(crate::specs::TransactionEffect::delay_of))]
pub fn delay(instr: &Instr, image: &CpuImage) -> u32
    ensures { result ≡ delay_of instr.now (cpu_of image.now) }
{
    let count = operand(image, Width::Word, instr.r1);
    if instr.mask != 1 || count == 0 {
        return 0;
    }
    1 << count.min(GREATEST_POWER)
}

/// Whether the operation is TBEGINC.
fn begins_constrained(op: Op) -> bool
    ensures { result ≡ is_constrained (entry_at op.number).demand }
{
    matches!(line(op).kind.demand(), Demand::BeginConstrained)
}

/// The level that an immediate without a sign asks for.
fn asked(instr: &Instr, block: Option<u64>, constrained: bool) -> Begin
    requires { is_within half instr.now.imm ≡ true }
    ensures { result ≡ asked_by (modulo 16 instr.now.imm) block constrained }
{
    Begin::of(instr.imm as u16, block, constrained)
}

/// The level that a TBEGIN or TBEGINC opens.
pub fn opened(instr: &Instr, image: &CpuImage) -> Begin
    requires { begins (entry_at instr.now.op.number) ≡ true }
    ensures { result ≡ begin_of instr.now image.now.general }
{
    immediates_are_plain();
    let block = block_named(instr, &image.general);
    asked(instr, block, begins_constrained(instr.op))
}

/// A program interruption outside transactions by an exception that comes before the instruction has changed
/// anything.
pub fn interrupt(image: &mut CpuImage, exception: Exception)
    ensures { cpu_of image.new ≡ interrupted_by exception (cpu_of image.old) }
{
    advance(image, exception.length);
    image.state = RunState::Interrupted(exception.code);
}
