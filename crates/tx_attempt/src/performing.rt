//! Instructions performed on the bytes of their operands.
ghost use Rattle.std.specs.Prelude.{◌≡◌, ◌≤◌, ℕ, length, map, take, get_or, All, false, true};
ghost use Rattle.z_regs.specs.Cpu.{cpu_of};
ghost use Rattle.z_regs.specs.Prefix.{storage_size};
ghost use Rattle.z_regs.specs.Absolute.{IsAccessible};
ghost use Rattle.z_touch.specs.Refusals.{span_of};
ghost use Rattle.z_effect.specs.After.{AreInside, touched, cpu_after};
ghost use Rattle.z_instr.specs.Table.{kind_at};
ghost use Rattle.z_effect.specs.One.{one};
ghost use Rattle.tx_serial.specs.Fate.{operands};
ghost use Rattle.tx_attempt.specs.Storages.{storage_of};
ghost use Rattle.tx_attempt.specs.Performed.{ended_in, IsLeft, trimmed, outcome_from, first_size};
ghost use Rattle.tx_serial.specs.Flat.{Storage, operand_bytes};
ghost use Rattle.tx_attempt.specs.Performed.{IsFetched, IsKeptApart};
ghost use Rattle.tx_attempt.specs.Performed.{is_transaction, transaction_in, lasting_size, no_range};
ghost use Rattle.tx_attempt.specs.Tracked.{progress};
ghost use Rattle.tx_attempt.specs.Gathered.{IsDoubleword};
ghost use Rattle.tx_attempt.specs.Gathered.{IsStoredDoubleword};
ghost use Rattle.z_instr.specs.Roles.{stores_lastingly};
ghost use Rattle.z_effect.specs.Registers.{register as register_of};
ghost use Rattle.z_instr.specs.Table.{entry_at};
ghost use Rattle.tx_progress.specs.Trial.{outcome_by};
ghost use Rattle.z_effect.specs.One.{length_of};
ghost use Rattle.z_effect.specs.TransactionEffect.{transaction_effect};

use crate::attempt::Attempt;
use crate::keeping::{keep_register, stores_register};
use crate::lending::{are_bare, exchange, fetch, operand, see};
use byteorder::{BigEndian, ByteOrder};
use tx_control::Exception;
use tx_control::codes::FIXED_POINT_DIVIDE;
use z_effect::{register, transact};
use z_instr::addresses::first_address;
use z_instr::format::length_in;
use z_instr::instr::Instr;
use z_instr::kind::{Kind, Transaction};
use z_instr::lookup::line;
use z_regs::{Bytes, CpuImage, Touches};

/// The most bytes that an operand has.
pub const MOST_BYTES: usize = 256;

/// How an instruction ended.
#[derive(Clone, Copy)]
pub enum Ended {
    /// It is completed.
    Completed,
    /// It is completed, with a fixed-point overflow exception.
    Exceeded,
    /// It is suppressed by a fixed-point divide exception.
    Suppressed,
    /// It aborts its transaction with this code.
    Aborting(u64),
}

/// How an instruction ended, by the answer of the call that executed it.
fn end_of(answer: Result<(), Exception>) -> Ended
    ensures { result ≡ ended_in answer }
{
    match answer {
        Ok(()) => Ended::Completed,
        Err(e) => {
            if e.code == FIXED_POINT_DIVIDE {
                Ended::Suppressed
            } else {
                Ended::Exceeded
            }
        }
    }
}

/// Executes an instruction that is not about transactions on storage as it is.
#[inline(always)]
pub fn execute_plain<V: Bytes>(
    kind: &Kind,
    instr: &Instr,
    need: &Touches,
    image: &mut CpuImage,
    base: &mut V,
) -> Ended
    requires kind { kind.now ≡ kind_at instr.now.op.number }
    requires plain { is_transaction (kind_at instr.now.op.number) ≡ false }
    requires need { need.now ≡ operands instr.now (cpu_of image.old) }
    requires inside { AreInside (map span_of need.now) (V.bytes base.old) }
    requires size { length (V.bytes base.old) ≡ storage_size }
    ensures left { (depth : ℕ) → IsLeft (one instr.now (cpu_of image.old) depth
        (touched (map span_of need.now) (V.bytes base.old))) need.now (cpu_of image.old) (cpu_of image.new)
        (V.bytes base.old) (V.bytes base.new) result }
    ensures size { length (V.bytes base.new) ≡ storage_size }
{
    match kind {
        Kind::Storage(kind) => end_of(z_storage::execute_kind(kind, instr, image, base)),
        Kind::General(kind) => end_of(z_general::execute_kind(kind, instr, image, base)),
        Kind::Branch(kind) => end_of(z_branch::execute_kind(kind, instr, image, base)),
        Kind::Transaction(_) => unreachable!(),
    }
}

/// Executes an instruction about transactions, apart from beginning and ending them.
fn execute_transaction(
    kind: Transaction,
    instr: &Instr,
    image: &mut CpuImage,
    depth: u32,
    stored: &mut [u8],
) -> Ended
    requires depth { depth ≤ 16 }
    requires room { lasting_size kind ≤ length stored.old }
    ensures size { length stored.new ≡ length stored.old }
    ensures value { outcome_from result (cpu_of image.new) (take (lasting_size kind) stored.new) ≡
        transaction_effect kind (length_of instr.now) instr.now (cpu_of image.old) depth }
    ensures image { cpu_of image.new ≡ cpu_after (cpu_of image.old)
        (transaction_effect kind (length_of instr.now) instr.now (cpu_of image.old) depth) }
{
    let length = length_in(line(instr.op).form);
    let source = register(image, instr.r1);
    let abort_code = first_address(instr, &image.general);
    transact(kind, instr, image, length, depth);
    match kind {
        Transaction::Abort => Ended::Aborting(abort_code),
        Transaction::StoreLasting => {
            BigEndian::write_u64(stored, source);
            Ended::Completed
        }
        Transaction::Begin => Ended::Completed,
        Transaction::BeginConstrained => Ended::Completed,
        Transaction::End => Ended::Completed,
        Transaction::ExtractDepth => Ended::Completed,
        Transaction::Assist => Ended::Completed,
    }
}

/// What a transaction instruction does; None of any other.
pub fn transaction_of(kind: &Kind) -> Option<Transaction>
    ensures { result ≡ transaction_in kind.now }
{
    match kind {
        Kind::Transaction(kind) => Some(*kind),
        Kind::General(_) => None,
        Kind::Storage(_) => None,
        Kind::Branch(_) => None,
    }
}

/// Executes an instruction that is not about transactions on storage as it is, and keeps apart the doubleword that
/// is its first operand then, where it stores there. Storage stays.
#[inline(never)]
fn execute_doubleword<V: Bytes>(
    kind: &Kind,
    instr: &Instr,
    need: &Touches,
    image: &mut CpuImage,
    stored: &mut [u8],
    base: &mut V,
) -> Ended
    requires kind { kind.now ≡ kind_at instr.now.op.number }
    requires plain { is_transaction (kind_at instr.now.op.number) ≡ false }
    requires need { need.now ≡ operands instr.now (cpu_of image.old) }
    requires room { (get_or need.now 0 no_range).length ≤ length stored.old }
    requires eight { (get_or need.now 0 no_range).length ≡ 8 }
    requires accessible { All (IsAccessible image.old.prefix) need.now }
    requires size { length (V.bytes base.old) ≡ storage_size }
    ensures done { (seen : Storage) (depth : ℕ)
        → All (IsFetched image.old.prefix seen (V.bytes base.old)) need.now → IsKeptApart
        (one instr.now (cpu_of image.old) depth (operand_bytes image.old.prefix seen need.now))
        (first_size need.now) (cpu_of image.old) (cpu_of image.new) stored.new result }
    ensures same { V.bytes base.new ≡ V.bytes base.old }
    ensures size { length stored.new ≡ length stored.old }
{
    let first = operand(need, 0);
    let kept = base.word(first.first, 8);
    let ended = execute_plain(kind, instr, need, image, base);
    let item = base.word(first.first, 8);
    base.put_word(first.first, 8, kept);
    BigEndian::write_u64(stored, item);
    ended
}

/// The same of an instruction whose first operand has any size.
#[inline(never)]
fn execute_apart<V: Bytes>(
    kind: &Kind,
    instr: &Instr,
    need: &Touches,
    image: &mut CpuImage,
    stored: &mut [u8],
    base: &mut V,
) -> Ended
    requires kind { kind.now ≡ kind_at instr.now.op.number }
    requires plain { is_transaction (kind_at instr.now.op.number) ≡ false }
    requires need { need.now ≡ operands instr.now (cpu_of image.old) }
    requires room { (get_or need.now 0 no_range).length ≤ length stored.old }
    requires accessible { All (IsAccessible image.old.prefix) need.now }
    requires size { length (V.bytes base.old) ≡ storage_size }
    ensures done { (seen : Storage) (depth : ℕ)
        → All (IsFetched image.old.prefix seen (V.bytes base.old)) need.now → IsKeptApart
        (one instr.now (cpu_of image.old) depth (operand_bytes image.old.prefix seen need.now))
        (first_size need.now) (cpu_of image.old) (cpu_of image.new) stored.new result }
    ensures same { V.bytes base.new ≡ V.bytes base.old }
    ensures size { length stored.new ≡ length stored.old }
{
    let first = operand(need, 0);
    let here = &mut stored[..first.length as usize];
    fetch(here, first.first, base);
    let ended = execute_plain(kind, instr, need, image, base);
    exchange(here, first.first, base);
    ended
}

/// The same in the shortest way: of an instruction that stores nothing, nothing is kept apart.
#[inline(always)]
fn execute_there<V: Bytes>(
    kind: &Kind,
    instr: &Instr,
    need: &Touches,
    image: &mut CpuImage,
    stored: &mut [u8],
    base: &mut V,
) -> Ended
    requires kind { kind.now ≡ kind_at instr.now.op.number }
    requires plain { is_transaction (kind_at instr.now.op.number) ≡ false }
    requires need { need.now ≡ operands instr.now (cpu_of image.old) }
    requires room { (get_or need.now 0 no_range).length ≤ length stored.old }
    requires accessible { All (IsAccessible image.old.prefix) need.now }
    requires size { length (V.bytes base.old) ≡ storage_size }
    ensures done { (seen : Storage) (depth : ℕ)
        → All (IsFetched image.old.prefix seen (V.bytes base.old)) need.now → IsKeptApart
        (one instr.now (cpu_of image.old) depth (operand_bytes image.old.prefix seen need.now))
        (first_size need.now) (cpu_of image.old) (cpu_of image.new) stored.new result }
    ensures same { V.bytes base.new ≡ V.bytes base.old }
    ensures size { length stored.new ≡ length stored.old }
{
    let first = operand(need, 0);
    if !first.store {
        return execute_plain(kind, instr, need, image, base);
    }
    if first.length == 8 {
        return execute_doubleword(kind, instr, need, image, stored, base);
    }
    execute_apart(kind, instr, need, image, stored, base)
}

/// Executes an instruction that is not about transactions on the bytes that the attempt sees of its operands,
/// and keeps apart what is stored in the first of them; no other is ever stored into. Storage stays.
#[inline(never)]
fn execute_lent<V: Bytes>(
    attempt: &Attempt,
    kind: &Kind,
    instr: &Instr,
    need: &Touches,
    image: &mut CpuImage,
    stored: &mut [u8],
    base: &mut V,
) -> Ended
    requires kind { kind.now ≡ kind_at instr.now.op.number }
    requires plain { is_transaction (kind_at instr.now.op.number) ≡ false }
    requires need { need.now ≡ operands instr.now (cpu_of image.old) }
    requires room { (get_or need.now 0 no_range).length ≤ length stored.old }
    requires accessible { All (IsAccessible image.old.prefix) need.now }
    requires size { length (V.bytes base.old) ≡ storage_size }
    ensures value { outcome_from result (cpu_of image.new) (take (first_size need.now) stored.new) ≡
        trimmed (first_size need.now) (outcome_by (storage_of (V.bytes base.old)) instr.now need.now
        (progress attempt.now (cpu_of image.old))) }
    ensures image { cpu_of image.new ≡ cpu_after (cpu_of image.old) (outcome_by
        (storage_of (V.bytes base.old)) instr.now need.now (progress attempt.now (cpu_of image.old))) }
    ensures same { V.bytes base.new ≡ V.bytes base.old }
    ensures size { length stored.new ≡ length stored.old }
{
    let prefix = image.prefix;
    let first = operand(need, 0);
    let second = operand(need, 1);
    let mut other = [0; MOST_BYTES];
    let here = &mut stored[..first.length as usize];
    let there = &mut other[..second.length as usize];
    see(attempt, here, first.first, prefix, base);
    see(attempt, there, second.first, prefix, base);
    exchange(there, second.first, base);
    exchange(here, first.first, base);
    let ended = execute_plain(kind, instr, need, image, base);
    exchange(here, first.first, base);
    exchange(there, second.first, base);
    ended
}

/// The same of an instruction that has no second operand.
#[inline(never)]
fn execute_lent_one<V: Bytes>(
    attempt: &Attempt,
    kind: &Kind,
    instr: &Instr,
    need: &Touches,
    image: &mut CpuImage,
    stored: &mut [u8],
    base: &mut V,
) -> Ended
    requires kind { kind.now ≡ kind_at instr.now.op.number }
    requires plain { is_transaction (kind_at instr.now.op.number) ≡ false }
    requires need { need.now ≡ operands instr.now (cpu_of image.old) }
    requires one { length need.now ≤ 1 }
    requires room { (get_or need.now 0 no_range).length ≤ length stored.old }
    requires accessible { All (IsAccessible image.old.prefix) need.now }
    requires size { length (V.bytes base.old) ≡ storage_size }
    ensures value { outcome_from result (cpu_of image.new) (take (first_size need.now) stored.new) ≡
        trimmed (first_size need.now) (outcome_by (storage_of (V.bytes base.old)) instr.now need.now
        (progress attempt.now (cpu_of image.old))) }
    ensures image { cpu_of image.new ≡ cpu_after (cpu_of image.old) (outcome_by
        (storage_of (V.bytes base.old)) instr.now need.now (progress attempt.now (cpu_of image.old))) }
    ensures same { V.bytes base.new ≡ V.bytes base.old }
    ensures size { length stored.new ≡ length stored.old }
{
    let prefix = image.prefix;
    let first = operand(need, 0);
    let here = &mut stored[..first.length as usize];
    see(attempt, here, first.first, prefix, base);
    exchange(here, first.first, base);
    let ended = execute_plain(kind, instr, need, image, base);
    exchange(here, first.first, base);
    ended
}

/// The same. Where the attempt sees the operands as they are in storage, they are not lent.
#[inline(always)]
pub fn execute_seen<V: Bytes>(
    attempt: &Attempt,
    kind: &Kind,
    instr: &Instr,
    need: &Touches,
    image: &mut CpuImage,
    stored: &mut [u8],
    base: &mut V,
) -> Ended
    requires kind { kind.now ≡ kind_at instr.now.op.number }
    requires plain { is_transaction (kind_at instr.now.op.number) ≡ false }
    requires need { need.now ≡ operands instr.now (cpu_of image.old) }
    requires room { (get_or need.now 0 no_range).length ≤ length stored.old }
    requires accessible { All (IsAccessible image.old.prefix) need.now }
    requires size { length (V.bytes base.old) ≡ storage_size }
    ensures value { outcome_from result (cpu_of image.new) (take (first_size need.now) stored.new) ≡
        trimmed (first_size need.now) (outcome_by (storage_of (V.bytes base.old)) instr.now need.now
        (progress attempt.now (cpu_of image.old))) }
    ensures image { cpu_of image.new ≡ cpu_after (cpu_of image.old) (outcome_by
        (storage_of (V.bytes base.old)) instr.now need.now (progress attempt.now (cpu_of image.old))) }
    ensures same { V.bytes base.new ≡ V.bytes base.old }
    ensures size { length stored.new ≡ length stored.old }
{
    if stores_register(kind) {
        return keep_register(instr, image, stored);
    }
    if are_bare(attempt, need, image.prefix) {
        return execute_there(kind, instr, need, image, stored, base);
    }
    if need.count() < 2 {
        return execute_lent_one(attempt, kind, instr, need, image, stored, base);
    }
    execute_lent(attempt, kind, instr, need, image, stored, base)
}

/// Performs an instruction on the bytes that the attempt sees of its operands, so that only the CPU is
/// changed, and keeps apart what is stored in its first operand; no other is ever stored into. There must be
/// room for all of the first operand.
#[inline(always)]
pub fn perform<V: Bytes>(
    attempt: &Attempt,
    kind: &Kind,
    instr: &Instr,
    need: &Touches,
    image: &mut CpuImage,
    stored: &mut [u8],
    base: &mut V,
) -> Ended
    requires kind { kind.now ≡ kind_at instr.now.op.number }
    requires need { need.now ≡ operands instr.now (cpu_of image.old) }
    requires room { (get_or need.now 0 no_range).length ≤ length stored.old }
    requires accessible { All (IsAccessible image.old.prefix) need.now }
    requires size { length (V.bytes base.old) ≡ storage_size }
    ensures value { outcome_from result (cpu_of image.new) (take (first_size need.now) stored.new) ≡
        trimmed (first_size need.now) (outcome_by (storage_of (V.bytes base.old)) instr.now need.now
        (progress attempt.now (cpu_of image.old))) }
    ensures image { cpu_of image.new ≡ cpu_after (cpu_of image.old) (outcome_by
        (storage_of (V.bytes base.old)) instr.now need.now (progress attempt.now (cpu_of image.old))) }
    ensures lasting { stores_lastingly (entry_at instr.now.op.number) ≡ true → IsStoredDoubleword need.now
        → IsDoubleword need.now stored.new (register_of (cpu_of image.old) instr.now.r1) }
    ensures same { V.bytes base.new ≡ V.bytes base.old }
    ensures size { length stored.new ≡ length stored.old }
{
    let depth = attempt.nest().depth();
    match transaction_of(kind) {
        Some(transaction) => execute_transaction(transaction, instr, image, depth, stored),
        None => execute_seen(attempt, kind, instr, need, image, stored, base),
    }
}
