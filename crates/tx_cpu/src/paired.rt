//! The next instruction outside transactions where it has two blocks of bytes in storage, and nothing unusual is the case.
ghost use Rattle.std.specs.Prelude.{◌≡◌, ◌<◌, ◌≤◌, ◌+◌, ◌-◌, ◌/◌, IfSome, true, false, nat_eq, None, [], ℕ};
ghost use Rattle.std.specs.List.{list_any};
ghost use Rattle.std.specs.FinSet.{items};
ghost use Rattle.z_regs.specs.Cpu.{cpu_of};
ghost use Rattle.z_regs.specs.Prefix.{storage_size};
ghost use Rattle.z_instr.specs.Access.{accessible_pages, text_pages, unfetched};
ghost use Rattle.z_instr.specs.Operands.{length_of};
ghost use Rattle.z_instr.specs.Ranges.{is_within, bounds};
ghost use Rattle.z_instr.specs.Table.{entry_at};
ghost use Rattle.tx_serial.specs.Fate.{Goes};
ghost use Rattle.tx_progress.specs.Trial.{fate_by_progress};
ghost use Rattle.tx_attempt.specs.Tracked.{progress};
ghost use Rattle.tx_attempt.specs.Storages.{storage_of};
ghost use Rattle.tx_cpu.specs.Pairs.{IsPaired, IsPairOf, IsOpenPair, pair_ranges};

use tx_attempt::Attempt;
use tx_program::Program;
use z_instr::addresses::{first_address, second_address};
use z_instr::instr::Instr;
use z_instr::kind::{Kind, Storage};
use z_instr::laws::{columns_follow_from_kinds, immediates_are_plain};
use z_instr::lookup::kind_in;
use z_instr::op::Op;
use z_regs::{AREA_SIZE, CpuImage, Guard, Range, STORAGE_SIZE, Touches};

const PAGE_SIZE: u64 = 4096;

/// The most bytes that a block has.
const MOST: u64 = 256;

/// The most bytes that an instruction has.
const LONGEST: u64 = 6;

/// An instruction that goes, with two blocks of bytes in storage.
#[derive(Drop)]
pub struct Pair<'a> {
    /// The instruction.
    pub instr: &'a Instr,
    /// The address of its first block.
    pub first: u64,
    /// The address of its second block, which is fetched.
    pub second: u64,
    /// How many bytes each block has.
    pub size: u32,
    /// Whether the first block is stored; else it is fetched.
    pub store: bool,
}

impl<'a> Pair<'a> {
    /// Adds both blocks to a list that is empty.
    #[inline(always)]
    pub fn add_ranges(&self, need: &mut Touches)
        requires { need.old ≡ [] }
        ensures { need.new ≡ pair_ranges self.now.store self.now.first self.now.second self.now.size }
    {
        need.add(Range {
            first: self.first,
            length: self.size,
            store: self.store,
        });
        need.add(Range {
            first: self.second,
            length: self.size,
            store: false,
        });
    }
}

/// Whether an operation on two blocks of bytes stores the first of them; None where it is no such operation.
#[inline(always)]
fn stores_first(op: Op) -> Option<bool>
    ensures { IfSome result (λ store. IsPaired store (entry_at op.number)) }
{
    columns_follow_from_kinds();
    match kind_in(op) {
        Kind::Storage(Storage::ByteByByte(_)) => Some(true),
        Kind::Storage(Storage::CompareBytes) => Some(false),
        _ => None,
    }
}

/// How many bytes each of the two blocks has.
#[inline(always)]
fn size_of(instr: &Instr) -> u32
    requires { is_within (bounds 0 256) instr.now.imm ≡ true }
    ensures value { result ≡ length_of instr.now }
    ensures some { 0 < result }
    ensures most { result ≤ 256 }
{
    instr.imm as u32 + 1
}

/// Whether a CPU without a prefix may use all bytes of the largest block at an address.
#[inline(always)]
fn is_usable(address: u64) -> bool
    ensures low { result ≡ true → AREA_SIZE ≤ address }
    ensures ends { result ≡ true → address + MOST ≤ storage_size }
{
    address >= AREA_SIZE && address <= STORAGE_SIZE - MOST
}

/// Whether a CPU without a prefix fetches the bytes of an instruction, of whatever length, from one text page.
#[inline(always)]
fn is_fetched(address: u64, guard: &Guard) -> bool
    ensures { (n : ℕ) → result ≡ true → 0 < n → n ≤ LONGEST
        → unfetched (accessible_pages None) (text_pages None (items guard.now)) address n ≡ None }
{
    if !is_usable(address) {
        return false;
    }
    if address % 2 == 1 {
        return false;
    }
    if address % PAGE_SIZE > PAGE_SIZE - LONGEST {
        return false;
    }
    guard.has((address / PAGE_SIZE) as u32)
}

/// Whether a block has no byte in a text page.
#[inline(always)]
fn is_free(first: u64, size: u32, guard: &Guard) -> bool
    requires ends { first + size ≤ storage_size }
    requires some { 0 < size }
    ensures first { result ≡ true → list_any (nat_eq (first / 4096)) (items guard.now) ≡ false }
    ensures last { result ≡ true → list_any (nat_eq ((first + size - 1) / 4096)) (items guard.now) ≡ false }
{
    let last = first + u64::from(size) - 1;
    !guard.has((first / PAGE_SIZE) as u32) && !guard.has((last / PAGE_SIZE) as u32)
}

/// Whether both blocks of an instruction may be touched.
#[inline(always)]
fn are_open(pair: &Pair, guard: &Guard) -> bool
    requires some { 0 < pair.now.size }
    requires most { pair.now.size ≤ 256 }
    ensures { result ≡ true → IsOpenPair pair.now.store pair.now.first pair.now.second pair.now.size
        (items guard.now) }
{
    if !is_usable(pair.first) || !is_usable(pair.second) {
        return false;
    }
    !pair.store || is_free(pair.first, pair.size, guard)
}

/// The two blocks of bytes of an instruction that has two and demands nothing; else None.
#[inline(always)]
fn pair_of<'a>(instr: &'a Instr, image: &CpuImage) -> Option<Pair<'a>>
    ensures same { IfSome result (λ p. p.instr.now ≡ instr.now) }
    ensures value { IfSome result (λ p. IsPairOf instr.now image.now.general p.store p.first p.second p.size) }
{
    immediates_are_plain();
    let store = stores_first(instr.op)?;
    Some(Pair {
        instr,
        first: first_address(instr, &image.general),
        second: second_address(instr, &image.general),
        size: size_of(instr),
        store,
    })
}

/// The next instruction of a CPU without a prefix, outside transactions, where it has been read before, has two blocks of
/// bytes in storage, and goes. None also of some that go.
#[inline(always)]
pub fn pair_next<'a>(attempt: &Attempt, image: &CpuImage, program: &'a Program) -> Option<Pair<'a>>
    ensures { IfSome result (λ p. fate_by_progress (items program.now.guard) (storage_of program.now.storage)
        (progress attempt.now (cpu_of image.now)) ≡ Goes p.instr.now (pair_ranges p.store p.first p.second p.size)) }
{
    attempt.is_sound();
    if attempt.is_live() || image.prefix.is_some() {
        return None;
    }
    let ready = program.known(image.address)?;
    let pair = pair_of(&ready.instr, image)?;
    let guard = program.guard();
    if !is_fetched(image.address, guard) || !are_open(&pair, guard) {
        return None;
    }
    Some(pair)
}
