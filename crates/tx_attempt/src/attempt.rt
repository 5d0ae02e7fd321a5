//! The attempt of a CPU.
ghost use Rattle.std.specs.Prelude.{◌≡◌, ◌<◌, ◌≤◌, ◌+◌, ℕ, IfOk, nat_lt, length, is_some, unwrap_or};
ghost use Rattle.std.specs.Prelude.{slice_index};
ghost use Rattle.std.specs.Prelude.{true, Some, []};
ghost use Rattle.z_instr.specs.Roles.{begins as is_begun, block_named};
ghost use Rattle.z_instr.specs.Table.{entry_at, kind_at};
ghost use Rattle.tx_progress.specs.Progress.{advanced};
ghost use Rattle.std.specs.Prelude.{take, get_or, ◌^◌};
ghost use Rattle.tx_serial.specs.Flat.{operand_stores};
ghost use Rattle.z_instr.specs.Roles.{stores_lastingly as lasts};
ghost use Rattle.tx_attempt.specs.Advancing.{MayAdvance, IsBefore, WasBefore, MayStep};
ghost use Rattle.tx_attempt.specs.Gathered.{IsDoubleword};
ghost use Rattle.tx_attempt.specs.Performed.{first_size, no_range, is_transaction, StoresNone};
ghost use Rattle.z_instr.specs.declared.instr.Instr.{Instr};
ghost use Rattle.z_regs.specs.Cpu.{Cpu};
ghost use Rattle.z_regs.specs.Prefix.{storage_size};
ghost use Rattle.store_cache.specs.Entries.{stores_of};
ghost use Rattle.store_cache.specs.Stores.{lasting_bytes};
ghost use Rattle.tx_footprint.specs.Touched.{sets_of};
ghost use Rattle.tx_control.specs.Nesting.{outermost_mask, outermost_block};
ghost use Rattle.tx_progress.specs.Progress.{resting, seen_through};
ghost use Rattle.store_cache.specs.Overlay.{has_block, with_one};
ghost use Rattle.std.specs.Prelude.{◌/◌};
ghost use Rattle.tx_attempt.specs.Tracked.{Tracked, IsSound, progress, goes_on_as};
ghost use Rattle.tx_attempt.specs.Storages.{storage_of};
ghost use Rattle.tx_attempt.specs.Same.{AreSameParts, AreSameConstraints};
ghost use Rattle.std.specs.Prelude.{◌↔◌, IsTrue, All, if◌then◌else◌};
ghost use Rattle.z_regs.specs.Cpu.{cpu_of};
ghost use Rattle.z_regs.specs.Prefix.{is_prefix, absolute_of};
ghost use Rattle.z_regs.specs.Absolute.{IsAccessible, absolute_ranges};
ghost use Rattle.tx_constraint.specs.Kept.{next_text_breach, next_operand_breach};
ghost use Rattle.tx_footprint.specs.Touched.{touching, line_count, block_count};
ghost use Rattle.tx_serial.specs.Flat.{bytes_seen};
ghost use Rattle.tx_serial.specs.Fate.{overflow_in};
ghost use Rattle.tx_progress.specs.Trial.{constraint_refusal};
ghost use Rattle.tx_attempt.specs.Refused.{found};
ghost use Rattle.tx_attempt.specs.Plain.{IsPlain};
ghost use Rattle.std.specs.Prelude.{IfSome, IfNone, None, false, Bool, List, ◌∷◌, ◌%◌};

use crate::advancing::{Before, add_operands, change_nest, touch};
use crate::gathering::{gather_doubleword, gather_first, gather_stores};
use crate::refusal::{Refusal, breach};
use std::alloc::Global;
use std::marker::Model;
use store_cache::{BLOCK_SIZE, StoreCache};
use tx_constraint::Constraint;
use tx_control::{Nest, Why};
use tx_footprint::{Footprint, MOST_BLOCKS, MOST_LINES, Overflow};
use z_effect::opened;
use z_instr::format::length_in;
use z_instr::instr::Instr;
use z_instr::lookup::line;
use z_regs::{AREA_SIZE, Bytes, CpuImage, NoMemory, STORAGE_SIZE, Touches, place_of};

/// All that is kept of an attempt but the CPU.
#[derive(Drop)]
pub struct Attempt {
    nest: Nest,
    footprint: Footprint,
    constraint: Option<Constraint>,
    stores: StoreCache,
    count: u32,
    resumes_at: u64,
}

impl Model for Attempt {
    ghost use Rattle.tx_attempt.specs.Tracked.{Tracked, IsSound};

    ghost Value = { Tracked };

    ghost view = { λ a. record {
      nest = a.nest;
      footprint = a.footprint;
      constraint = a.constraint;
      stores = a.stores;
      count = a.count;
      resumes_at = a.resumes_at;
    } };

    ghost invariant = { λ a. IsSound (record {
      nest = a.nest;
      footprint = a.footprint;
      constraint = a.constraint;
      stores = a.stores;
      count = a.count;
      resumes_at = a.resumes_at;
    }) };
}

/// Whether both constraints are those of attempts with one TBEGINC and the same octowords, or there are none.
fn are_same_constraints(one: &Option<Constraint>, other: &Option<Constraint>) -> bool
    ensures { IsTrue result ↔ AreSameConstraints one.now other.now }
{
    match one {
        None => other.is_none(),
        Some(constraint) => match other {
            None => false,
            Some(another) => constraint.same(another),
        },
    }
}

/// Makes what constraints ask equal to what others ask.
fn copy_constraint(to: &mut Option<Constraint>, from: &Option<Constraint>)
    ensures { to.new ≡ from.now }
{
    match from {
        None => *to = None,
        Some(constraint) => {
            let mut copy = Constraint::begin(0);
            copy.copy_from(constraint);
            *to = Some(copy);
        }
    }
}

impl Attempt {
    /// No attempt, with room for all that later calls need.
    pub fn open(alloc: Global) -> Result<Attempt, NoMemory>
        ensures { IfOk result (λ attempt. (c : Cpu) → progress attempt c ≡ resting c) }
    {
        let footprint = Footprint::open(alloc)?;
        let stores = StoreCache::open(alloc)?;
        Ok(Attempt {
            nest: Nest::none(),
            footprint,
            constraint: None,
            stores,
            count: 0,
            resumes_at: 0,
        })
    }

    /// What holds of every attempt: before the first instruction there is nothing, and behind it a begin is
    /// open. The block that the outermost begin names lies in storage.
    pub fn is_sound(&self)
        ensures sound { IsSound self.now }
        ensures rests { self.now.count ≡ 0 → (c : Cpu) → progress self.now c ≡ resting c }
        ensures opens { 0 < self.now.count → 0 < length self.now.nest }
        ensures block { (a : ℕ) → outermost_block self.now.nest ≡ Some a → a + 256 ≤ storage_size }
    {
        let _count = self.count;
    }

    /// Whether there is an attempt.
    pub fn is_live(&self) -> bool
        ensures { result ≡ nat_lt 0 self.now.count }
    {
        self.count > 0
    }

    /// How many instructions are completed, the begin among them.
    pub fn count(&self) -> u32
        ensures { result ≡ self.now.count }
    {
        self.count
    }

    /// The open begins.
    pub fn nest(&self) -> &Nest
        ensures { result.now ≡ self.now.nest }
    {
        &self.nest
    }

    /// What the attempt has touched.
    pub fn footprint(&self) -> &Footprint
        ensures { result.now ≡ self.now.footprint }
    {
        &self.footprint
    }

    /// Where the program goes on after an abort.
    pub fn resumes_at(&self) -> u64
        ensures { result ≡ self.now.resumes_at }
    {
        self.resumes_at
    }

    /// Whether a constrained attempt is live.
    pub fn is_constrained(&self) -> bool
        ensures { result ≡ is_some self.now.constraint }
    {
        self.constraint.is_some()
    }

    /// The CPU as the history leaves it: as it was saved where an attempt is live.
    pub fn settled<'a>(&self, saved: &'a CpuImage, image: &'a CpuImage) -> &'a CpuImage
        ensures { cpu_of result.now ≡ (if nat_lt 0 self.now.count then cpu_of saved.now else cpu_of
            image.now) }
    {
        if self.count > 0 { saved } else { image }
    }

    /// The byte of the program `k` bytes behind an address, as the attempt sees it over the text's storage;
    /// zero
    /// where there is none.
    fn text_byte(&self, first: u64, k: u8, prefix: Option<u32>, text: &[u8]) -> u8
        requires prefix_in { IsTrue (is_prefix prefix) }
        requires size { length text.now ≡ storage_size }
        ensures { result ≡ seen_through (stores_of self.now.stores).overlay (storage_of text.now)
            (absolute_of prefix (first + k)) }
    {
        let stores = &self.stores;
        if first >= STORAGE_SIZE {
            return 0;
        }
        let address = first + u64::from(k);
        if address >= STORAGE_SIZE {
            return 0;
        }
        let place = place_of(prefix, address);
        match stores.byte(place) {
            Some(byte) => byte,
            None => text[place as usize],
        }
    }

    /// Whether the attempt has stored a byte in the block of an address, or in that of the last of six bytes.
    pub fn has_stored(&self, place: u64) -> bool
        requires { place + 6 ≤ storage_size }
        ensures { result ≡ false → (k : ℕ) → k < 6 → (stores_of self.now.stores).overlay (place + k) ≡ None }
    {
        if self.stores.blocks() == 0 {
            return false;
        }
        let first = place / BLOCK_SIZE as u64;
        let last = (place + 5) / BLOCK_SIZE as u64;
        if self.stores.has_block(first as u32) {
            return true;
        }
        last != first && self.stores.has_block(last as u32)
    }

    /// Whether the attempt has stored nothing in the blocks of some bytes, by absolute addresses.
    #[inline(always)]
    pub fn is_bare(&self, first: u64, length: u32) -> bool
        requires { first + length ≤ storage_size }
        ensures { result ≡ true → (k : ℕ) → k < length
            → (stores_of self.now.stores).overlay (first + k) ≡ None }
    {
        if self.stores.blocks() == 0 {
            return true;
        }
        let block = BLOCK_SIZE as u64;
        let end = (first + u64::from(length) + block - 1) / block;
        for at in first / block..end {
            if self.stores.has_block(at as u32) {
                return false;
            }
        }
        true
    }

    /// The absolute address of the six bytes from a real address on, where they lie one after the other in storage
    /// and the attempt has stored nothing near them; else None.
    pub fn text_place(&self, first: u64, prefix: Option<u32>) -> Option<u64>
        requires { IsTrue (is_prefix prefix) }
        ensures { IfSome result (λ place. IsPlain (stores_of self.now.stores).overlay prefix first place) }
    {
        if first >= STORAGE_SIZE || first % AREA_SIZE > AREA_SIZE - 6 {
            return None;
        }
        let place = place_of(prefix, first);
        if place > STORAGE_SIZE - 6 || self.has_stored(place) {
            return None;
        }
        Some(place)
    }

    /// The six bytes of the program from an address on.
    pub fn text_bytes(&self, first: u64, prefix: Option<u32>, text: &[u8]) -> [u8; 6]
        requires prefix_in { IsTrue (is_prefix prefix) }
        requires size { length text.now ≡ storage_size }
        ensures { result ≡ bytes_seen prefix (seen_through (stores_of self.now.stores).overlay (storage_of
            text.now)) first 6 }
    {
        let mut bytes = [0; 6];
        for k in 0..6u8 {
            bytes[k as usize] = self.text_byte(first, k, prefix, text);
        }
        bytes
    }

    /// Whether constraints let the attempt have the instruction at an address next.
    pub fn admit_text(&self, instr: &Instr, at: u64) -> Result<(), Refusal>
        ensures { found result ≡
            constraint_refusal (λ kept. next_text_breach kept instr.now at) instr.now self.now.constraint }
    {
        let Some(constraint) = &self.constraint else {
            return Ok(());
        };
        match constraint.admit_text(instr, at) {
            Ok(()) => Ok(()),
            Err(_) => Err(breach(instr)),
        }
    }

    /// Whether constraints let the attempt have the instruction with these operands next.
    pub fn admit_operands(&self, instr: &Instr, need: &Touches) -> Result<(), Refusal>
        ensures { found result ≡
            constraint_refusal (λ kept. next_operand_breach kept instr.now need.now) instr.now
            self.now.constraint }
    {
        let Some(constraint) = &self.constraint else {
            return Ok(());
        };
        match constraint.admit_operands(instr, need) {
            Ok(()) => Ok(()),
            Err(_) => Err(breach(instr)),
        }
    }

    /// Whether constraints let the attempt have the instruction at an address next, with these operands.
    pub fn keeps_constraints(&self, instr: &Instr, at: u64, need: &Touches) -> bool
        ensures text { result ≡ true →
            constraint_refusal (λ kept. next_text_breach kept instr.now at) instr.now self.now.constraint ≡ None }
        ensures place { result ≡ true →
            constraint_refusal (λ kept. next_operand_breach kept instr.now need.now) instr.now
            self.now.constraint ≡ None }
    {
        let Some(constraint) = &self.constraint else {
            return true;
        };
        if constraint.admit_text(instr, at).is_err() {
            return false;
        }
        constraint.admit_operands(instr, need).is_ok()
    }

    /// Whether it is seen at once that constraints let the attempt have the instruction at an address next, with an
    /// operand of so many bytes, or none.
    #[inline(always)]
    pub fn admits_at_once(&self, instr: &Instr, at: u64, first: u64, size: u32) -> bool
        ensures text { result ≡ true →
            constraint_refusal (λ kept. next_text_breach kept instr.now at) instr.now self.now.constraint ≡ None }
        ensures one { (store : Bool) → result ≡ true →
            constraint_refusal (λ kept. next_operand_breach kept instr.now
            (record { first = first; length = size; store = store } ∷ [])) instr.now self.now.constraint ≡ None }
        ensures none { result ≡ true →
            constraint_refusal (λ kept. next_operand_breach kept instr.now []) instr.now self.now.constraint ≡ None }
    {
        let Some(constraint) = &self.constraint else {
            return true;
        };
        if constraint.admit_text(instr, at).is_err() {
            return false;
        }
        constraint.admits_operand(first, size)
    }

    /// Whether the attempt may touch these operands too, which are accessible.
    pub fn admit_touches(&self, need: &Touches, prefix: Option<u32>) -> Result<(), Refusal>
        requires prefix_in { IsTrue (is_prefix prefix) }
        requires few { length need.now ≤ 2 }
        requires accessible { All (IsAccessible prefix) need.now }
        ensures { found result ≡ overflow_in self.now.nest
            (touching (sets_of self.now.footprint) (absolute_ranges prefix need.now)) }
    {
        if self.nest.depth() == 0 {
            return Ok(());
        }
        match self.footprint.fits(&need.absolute(prefix)) {
            Ok(()) => Ok(()),
            Err(Overflow::Fetch) => Err(Refusal::Because(Why::FetchOverflow)),
            Err(Overflow::Store) => Err(Refusal::Because(Why::StoreOverflow)),
        }
    }

    /// The byte that the attempt sees over `base`.
    pub fn seen<V: Bytes>(&self, address: u64, base: &V) -> u8
        requires { address < length (V.bytes base.now) }
        ensures { result ≡
            seen_through (stores_of self.now.stores).overlay (storage_of (V.bytes base.now)) address }
    {
        match self.stores.byte(address) {
            Some(byte) => byte,
            None => base.get(address),
        }
    }

    /// The bytes that the attempt stored last from an absolute address on, `count` of them, one at least. None where one of them
    /// was not stored; of bytes in one block it comes nowhere else.
    pub fn stored_run(&self, address: u64, count: usize) -> Option<&[u8]>
        requires { 0 < count }
        ensures size { IfSome result (λ bytes. length bytes.now ≡ count) }
        ensures bytes { IfSome result (λ bytes. (k : ℕ) → k < count
            → (stores_of self.now.stores).overlay (address + k) ≡ Some (slice_index bytes.now k)) }
        ensures none { IfNone result (address % BLOCK_SIZE + count ≤ BLOCK_SIZE
            → ((k : ℕ) → k < count → is_some ((stores_of self.now.stores).overlay (address + k)) ≡ true) → ⊥) }
    {
        self.stores.run(address, count)
    }

    /// Whether the same begins are open, the same was touched, and the same is asked by constraints.
    pub fn same(&self, other: &Attempt) -> bool
        ensures { IsTrue result ↔ AreSameParts self.now other.now }
    {
        if !self.nest.same(&other.nest) {
            return false;
        }
        if !self.footprint.same(&other.footprint) {
            return false;
        }
        are_same_constraints(&self.constraint, &other.constraint)
    }

    /// Makes this equal to the other.
    pub fn copy_from(&mut self, other: &Attempt)
        ensures progress { (c : Cpu) → progress self.new c ≡ progress other.now c }
        ensures count { self.new.count ≡ other.now.count }
    {
        self.is_sound();
        other.is_sound();
        if !self.is_live() && !other.is_live() {
            return;
        }
        self.nest.copy_from(&other.nest);
        self.footprint.copy_from(&other.footprint);
        copy_constraint(&mut self.constraint, &other.constraint);
        self.stores.copy_from(&other.stores);
        self.count = other.count;
        self.resumes_at = other.resumes_at;
    }

    /// Goes on as a live attempt does: the same begins are open, the same was touched and is asked by constraints, and as much
    /// is completed. What this one has stored stays, in blocks that the other's footprint has, and so does where the program
    /// goes on after an abort.
    pub fn go_on_as(&mut self, other: &Attempt)
        requires live { 0 < other.now.count }
        requires covered { (block : ℕ) → has_block (stores_of self.old.stores).overlay block ≡ true
            → (sets_of other.now.footprint).blocks block ≡ true }
        ensures progress { (c : Cpu) → progress self.new c ≡ goes_on_as (progress other.now c) (progress self.old c) }
        ensures count { self.new.count ≡ other.now.count }
    {
        other.is_sound();
        self.nest.copy_from(&other.nest);
        self.footprint.copy_from(&other.footprint);
        copy_constraint(&mut self.constraint, &other.constraint);
        self.count = other.count;
    }

    /// The last byte that the attempt has stored at an absolute address; None exactly where none was stored. Its block is in
    /// the footprint, and lies in storage.
    pub fn stored(&self, address: u64) -> Option<u8>
        ensures value { result ≡ (stores_of self.now.stores).overlay address }
        ensures block { IfSome result (λ byte. (sets_of self.now.footprint).blocks (address / BLOCK_SIZE) ≡ true) }
        ensures within { IfSome result (λ byte. address < storage_size) }
    {
        self.stores.byte(address)
    }

    /// Stores one byte more at an absolute address, in a block that the footprint has.
    pub fn add_store(&mut self, address: u64, byte: u8)
        requires within { address < storage_size }
        requires block { (sets_of self.old.footprint).blocks (address / BLOCK_SIZE) ≡ true }
        ensures progress { (c : Cpu) → progress self.new c ≡ record (progress self.old c) {
          overlay = with_one (stores_of self.old.stores).overlay address byte;
        } }
        ensures count { self.new.count ≡ self.old.count }
    {
        let _few = self.footprint.blocks();
        self.stores.store(address, byte);
    }

    /// Begins an attempt by the outermost begin, which has no operands; before it the CPU was so.
    pub fn begin(&mut self, instr: &Instr, before: &CpuImage)
        requires rests { self.old.count ≡ 0 }
        requires begins { is_begun (entry_at instr.now.op.number) ≡ true }
        requires block { (a : ℕ) → block_named instr.now before.now.general ≡ Some a
            → a + 256 ≤ storage_size }
        requires place { before.now.address < storage_size }
        ensures value { (c : Cpu) → progress self.new c ≡
            advanced instr.now [] c [] (resting (cpu_of before.now)) }
        ensures count { self.new.count ≡ 1 }
    {
        let level = opened(instr, before);
        let at = before.address;
        self.nest.enter(level);
        self.count = 1;
        if level.constrained {
            self.constraint = Some(Constraint::begin(at));
            self.resumes_at = at;
        } else {
            self.constraint = None;
            self.resumes_at = at + u64::from(length_in(line(instr.op).form));
        }
    }

    /// One instruction more is completed in a live attempt, which has stored these bytes and leaves a begin
    /// open; this is known of the CPU as it was before it.
    #[inline(always)]
    pub fn advance(&mut self, instr: &Instr, need: &Touches, stored: &[u8], before: &Before)
        requires live { 0 < self.old.count }
        requires count { self.old.count + 1 < 2 ^ 32 }
        requires known { WasBefore before.now instr.now need.now }
        requires prefix_in { IsTrue (is_prefix before.now.prefix) }
        requires size { (get_or need.now 0 no_range).length ≤ length stored.now }
        requires accessible { All (IsAccessible before.now.prefix) need.now }
        requires goes_on { MayAdvance self.old instr.now before.now.prefix need.now }
        requires lasting { lasts (entry_at instr.now.op.number) ≡ true
            → IsDoubleword need.now stored.now before.now.source }
        ensures value { (x c : Cpu) → IsBefore before.now instr.now x →
            progress self.new c ≡ advanced instr.now need.now c
            (operand_stores before.now.prefix need.now (take (first_size need.now) stored.now))
            (progress self.old x) }
        ensures live { 0 < self.new.count }
    {
        gather_stores(
            &mut self.stores,
            instr,
            need,
            stored,
            before.source,
            before.prefix,
        );
        touch(&mut self.footprint, need, before.prefix);
        change_nest(&mut self.nest, instr, before.opens);
        add_operands(&mut self.constraint, need);
        self.count += 1;
    }

    /// One NTSTG more is completed in a live attempt, which has stored these bytes, of that value; the CPU had this prefix
    /// before it.
    #[inline(always)]
    pub fn advance_lasting(
        &mut self,
        instr: &Instr,
        need: &Touches,
        stored: &[u8],
        value: u64,
        prefix: Option<u32>,
    )
        requires live { 0 < self.old.count }
        requires count { self.old.count + 1 < 2 ^ 32 }
        requires prefix_in { IsTrue (is_prefix prefix) }
        requires lasts { lasts (entry_at instr.now.op.number) ≡ true }
        requires doubleword { IsDoubleword need.now stored.now value }
        requires accessible { All (IsAccessible prefix) need.now }
        requires goes_on { MayAdvance self.old instr.now prefix need.now }
        ensures value { (x c : Cpu) → x.prefix ≡ prefix → progress self.new c ≡ advanced instr.now need.now c
            (operand_stores prefix need.now (take (first_size need.now) stored.now)) (progress self.old x) }
        ensures live { 0 < self.new.count }
    {
        gather_doubleword(&mut self.stores, instr, need, stored, value, prefix);
        touch(&mut self.footprint, need, prefix);
        add_operands(&mut self.constraint, need);
        self.count += 1;
    }

    /// One instruction more, which is not about transactions, is completed in a live attempt, and has stored these bytes;
    /// the CPU had this prefix before it.
    #[inline(always)]
    pub fn advance_plainly(&mut self, need: &Touches, stored: &[u8], prefix: Option<u32>)
        requires live { 0 < self.old.count }
        requires count { self.old.count + 1 < 2 ^ 32 }
        requires prefix_in { IsTrue (is_prefix prefix) }
        requires size { (get_or need.now 0 no_range).length ≤ length stored.now }
        requires accessible { All (IsAccessible prefix) need.now }
        requires goes_on { MayStep self.old prefix need.now }
        ensures value { (i : Instr) (x c : Cpu) → is_transaction (kind_at i.op.number) ≡ false → x.prefix ≡ prefix →
            progress self.new c ≡ advanced i need.now c
            (operand_stores prefix need.now (take (first_size need.now) stored.now)) (progress self.old x) }
        ensures live { 0 < self.new.count }
    {
        gather_first(&mut self.stores, need, stored, prefix);
        touch(&mut self.footprint, need, prefix);
        add_operands(&mut self.constraint, need);
        self.count += 1;
    }

    /// One instruction more, which is not about transactions and stores nothing, is completed in a live attempt; the CPU had
    /// this prefix before it.
    #[inline(always)]
    pub fn advance_without_stores(&mut self, need: &Touches, prefix: Option<u32>)
        requires live { 0 < self.old.count }
        requires count { self.old.count + 1 < 2 ^ 32 }
        requires prefix_in { IsTrue (is_prefix prefix) }
        requires fetches { StoresNone need.now }
        requires accessible { All (IsAccessible prefix) need.now }
        requires goes_on { MayStep self.old prefix need.now }
        ensures value { (i : Instr) (x c : Cpu) (bytes : List ℕ) → is_transaction (kind_at i.op.number) ≡ false
            → x.prefix ≡ prefix → progress self.new c ≡ advanced i need.now c (operand_stores prefix need.now bytes)
            (progress self.old x) }
        ensures live { 0 < self.new.count }
    {
        touch(&mut self.footprint, need, prefix);
        add_operands(&mut self.constraint, need);
        self.count += 1;
    }

    /// Ends the attempt: all its stores go into storage.
    pub fn commit<V: Bytes>(&mut self, base: &mut V)
        requires { length (V.bytes base.old) ≡ storage_size }
        ensures rests { (c : Cpu) → progress self.new c ≡ resting c }
        ensures bytes { storage_of (V.bytes base.new) ≡
            seen_through (stores_of self.old.stores).overlay (storage_of (V.bytes base.old)) }
        ensures size { length (V.bytes base.new) ≡ storage_size }
    {
        self.stores.commit(base);
        self.nest.clear();
        self.footprint.clear();
        self.constraint = None;
        self.count = 0;
        self.resumes_at = 0;
    }

    /// Ends the attempt: of its stores only what NTSTG stored goes into storage.
    pub fn abort<V: Bytes>(&mut self, base: &mut V)
        requires { length (V.bytes base.old) ≡ storage_size }
        ensures rests { (c : Cpu) → progress self.new c ≡ resting c }
        ensures bytes { storage_of (V.bytes base.new) ≡
            seen_through (lasting_bytes (stores_of self.old.stores).lasting) (storage_of (V.bytes base.old)) }
        ensures size { length (V.bytes base.new) ≡ storage_size }
    {
        self.stores.abort(base);
        self.nest.clear();
        self.footprint.clear();
        self.constraint = None;
        self.count = 0;
        self.resumes_at = 0;
    }

    /// Whether the footprint has room for one more line and two more blocks.
    pub fn has_room(&self) -> bool
        ensures lines { result ≡ true → line_count (sets_of self.now.footprint) + 1 ≤ 384 }
        ensures blocks { result ≡ true → block_count (sets_of self.now.footprint) + 2 ≤ 64 }
    {
        self.footprint.lines() < MOST_LINES && self.footprint.blocks() + 2 <= MOST_BLOCKS
    }
}
