//! The next instruction where nothing unusual is the case.
ghost use Rattle.std.specs.Prelude.{◌≡◌, ◌<◌, ◌≤◌, ◌+◌, ◌^◌, ◌/◌, ◌%◌, IfSome, true, false, nat_eq, not, None, Ok, All, List, [], ◌∷◌, ℕ};
ghost use Rattle.std.specs.List.{list_any};
ghost use Rattle.std.specs.FinSet.{items};
ghost use Rattle.z_regs.specs.Absolute.{IsAccessible};
ghost use Rattle.z_regs.specs.Cpu.{Cpu, cpu_of};
ghost use Rattle.z_regs.specs.Prefix.{storage_size};
ghost use Rattle.z_regs.specs.declared.ranges.Range.{Range};
ghost use Rattle.z_instr.specs.declared.instr.Instr.{Instr};
ghost use Rattle.z_instr.specs.Operands.{bytes_of, first_address as address_by};
ghost use Rattle.z_instr.specs.Table.{entry_at, kind_at};
ghost use Rattle.tx_constraint.specs.Kept.{next_text_breach, next_operand_breach};
ghost use Rattle.tx_footprint.specs.Touched.{sets_of, touching, fit_of};
ghost use Rattle.tx_serial.specs.Fate.{Goes};
ghost use Rattle.tx_progress.specs.Trial.{fate_by_progress, constraint_refusal};
ghost use Rattle.tx_cpu.specs.Admits.{Admits, KeepsLimits};
ghost use Rattle.tx_serial.specs.Flat.{operand_stores};
ghost use Rattle.tx_progress.specs.Progress.{advanced};
ghost use Rattle.tx_attempt.specs.Advancing.{MayStep};
ghost use Rattle.tx_attempt.specs.Performed.{is_transaction, StoresNone};
ghost use Rattle.tx_attempt.specs.Tracked.{progress};
ghost use Rattle.tx_attempt.specs.Storages.{storage_of};
ghost use Rattle.tx_program.specs.Shapes.{is_in_line as lies_in_line, is_open as lies_open, is_reached as lies_reached};
ghost use Rattle.tx_program.specs.Shapes.{touched_by, is_placed, is_nothing, is_admitted as goes_inside};

use tx_attempt::Attempt;
use tx_program::{Program, Ready, Shape, Touch};
use z_instr::addresses::first_address;
use z_instr::operand::Size;
use z_regs::{AREA_SIZE, CpuImage, Guard, Range, STORAGE_SIZE, Touches};

/// The bytes of a line, and those of a page.
const LINE_SIZE: u64 = 256;

const PAGE_SIZE: u64 = 4096;

/// An instruction that goes, and the address of its operand.
#[derive(Drop)]
pub struct Plain<'a> {
    /// The instruction.
    pub ready: &'a Ready,
    /// Its first address.
    pub first: u64,
}

/// Whether an operand that is touched so is stored; None where there is none.
#[inline(always)]
fn stores_by(touch: Touch) -> Option<bool>
    ensures some { (first size : ℕ) → IfSome result (λ store. touched_by touch first size
        ≡ record { first = first; length = size; store = store } ∷ []) }
    ensures none { (first size : ℕ) → result ≡ None → touched_by touch first size ≡ [] }
{
    match touch {
        Touch::Nothing | Touch::Other => None,
        Touch::Fetch => Some(false),
        Touch::Store => Some(true),
    }
}

/// Adds the operand of an instruction of that shape, where it has one, to a list that is empty: so no list is handed on by
/// value.
#[inline(always)]
pub fn add_operand(need: &mut Touches, shape: Shape, first: u64)
    requires { need.old ≡ [] }
    ensures { need.new ≡ touched_by shape.touch first shape.size }
{
    if let Some(store) = stores_by(shape.touch) {
        need.add(Range {
            first,
            length: shape.size,
            store,
        });
    }
}

/// The operands of an instruction of that shape.
pub fn operands_at(shape: Shape, first: u64) -> Touches
    ensures { result ≡ touched_by shape.touch first shape.size }
{
    let mut need = Touches::none();
    add_operand(&mut need, shape, first);
    need
}

/// Whether an address is on the boundary of an item.
fn is_on(address: u64, boundary: Size) -> bool
    ensures { result ≡ nat_eq (address % bytes_of boundary) 0 }
{
    match boundary {
        Size::Byte => true,
        Size::Halfword => address % 2 == 0,
        Size::Word => address % 4 == 0,
        Size::Doubleword => address % 8 == 0,
    }
}

/// Whether some bytes lie in one line of storage that a CPU without a prefix may use.
fn is_in_line(first: u64, size: u32) -> bool
    ensures { result ≡ lies_in_line first size }
{
    first >= AREA_SIZE && first < STORAGE_SIZE && first % LINE_SIZE + u64::from(size) <= LINE_SIZE
}

/// Whether an address lies in no text page.
fn is_free(address: u64, guard: &Guard) -> bool
    requires { address < storage_size }
    ensures { result ≡ not (list_any (nat_eq (address / 4096)) (items guard.now)) }
{
    !guard.has((address / PAGE_SIZE) as u32)
}

/// Whether an operand may be touched so.
fn is_open(touch: Touch, first: u64, size: u32, guard: &Guard) -> bool
    ensures { result ≡ lies_open touch first size (items guard.now) }
{
    match touch {
        Touch::Nothing => true,
        Touch::Fetch => is_in_line(first, size),
        Touch::Store => {
            if !is_in_line(first, size) {
                return false;
            }
            is_free(first, guard)
        }
        Touch::Other => false,
    }
}

/// Whether an operand of that shape may be touched.
fn is_reached(shape: Shape, first: u64, guard: &Guard) -> bool
    ensures { result ≡ lies_reached shape first (items guard.now) }
{
    is_on(first, shape.boundary) && is_open(shape.touch, first, shape.size, guard)
}

/// Whether an instruction has no operand, and demands nothing of which more would have to be known.
fn has_no_operand(ready: &Ready) -> bool
    ensures { result ≡ is_nothing ready.now.shape.touch }
{
    matches!(ready.shape.touch, Touch::Nothing)
}

/// The address of an operand that may be touched. Where there is no operand none is computed, and it is 0.
#[inline(always)]
fn reached(ready: &Ready, image: &CpuImage, guard: &Guard) -> Option<u64>
    ensures reached { IfSome result (λ first. lies_reached ready.now.shape first (items guard.now) ≡ true) }
    ensures first { IfSome result (λ first. is_nothing ready.now.shape.touch ≡ false
        → first ≡ address_by ready.now.instr image.now.general) }
{
    if has_no_operand(ready) {
        return Some(0);
    }
    let first = first_address(&ready.instr, &image.general);
    if !is_reached(ready.shape, first, guard) {
        return None;
    }
    Some(first)
}

/// Whether the constraints of an attempt, where it has any, admit an instruction at an address, with its operand.
fn keeps_constraints(attempt: &Attempt, ready: &Ready, at: u64, first: u64) -> bool
    ensures text { result ≡ true → constraint_refusal (λ kept. next_text_breach kept ready.now.instr at)
        ready.now.instr attempt.now.constraint ≡ None }
    ensures place { result ≡ true → constraint_refusal (λ kept. next_operand_breach kept ready.now.instr
        (touched_by ready.now.shape.touch first ready.now.shape.size)) ready.now.instr attempt.now.constraint
        ≡ None }
{
    let need = operands_at(ready.shape, first);
    attempt.keeps_constraints(&ready.instr, at, &need)
}

/// Whether the footprint keeps its limits with an operand that lies in one line, where it has to be counted.
fn fits_counted(attempt: &Attempt, shape: Shape, first: u64) -> bool
    requires { is_placed shape first ≡ true }
    ensures { result ≡ true → fit_of (touching (sets_of attempt.now.footprint)
        (touched_by shape.touch first shape.size)) ≡ Ok tt }
{
    let need = operands_at(shape, first);
    attempt.footprint().fits(&need).is_ok()
}

/// Whether the footprint keeps its limits with an operand that lies in one line.
fn fits(attempt: &Attempt, shape: Shape, first: u64) -> bool
    requires { is_placed shape first ≡ true }
    ensures { result ≡ true → fit_of (touching (sets_of attempt.now.footprint)
        (touched_by shape.touch first shape.size)) ≡ Ok tt }
{
    if attempt.has_room() {
        return true;
    }
    fits_counted(attempt, shape, first)
}

/// Whether constraints and footprint let an attempt have an instruction at an address, with an operand that lies in one
/// line. Asked only where that is not seen at once.
#[cold]
#[inline(never)]
fn keeps_limits_counted(attempt: &Attempt, ready: &Ready, at: u64, first: u64) -> bool
    requires { is_placed ready.now.shape first ≡ true }
    ensures { result ≡ true → KeepsLimits attempt.now ready.now.instr at
        (touched_by ready.now.shape.touch first ready.now.shape.size) }
{
    if !keeps_constraints(attempt, ready, at, first) {
        return false;
    }
    fits(attempt, ready.shape, first)
}

/// Whether it is seen at once that they do: nothing has to be counted, and no list of operands is made.
#[inline(always)]
fn keeps_limits_at_once(attempt: &Attempt, ready: &Ready, at: u64, first: u64) -> bool
    requires { is_placed ready.now.shape first ≡ true }
    ensures { result ≡ true → KeepsLimits attempt.now ready.now.instr at
        (touched_by ready.now.shape.touch first ready.now.shape.size) }
{
    if !attempt.has_room() {
        return false;
    }
    attempt.admits_at_once(&ready.instr, at, first, ready.shape.size)
}

/// Whether constraints and footprint let an attempt have an instruction at an address, with an operand that lies in one
/// line.
#[inline(always)]
fn keeps_limits(attempt: &Attempt, ready: &Ready, at: u64, first: u64) -> bool
    requires { is_placed ready.now.shape first ≡ true }
    ensures { result ≡ true → KeepsLimits attempt.now ready.now.instr at
        (touched_by ready.now.shape.touch first ready.now.shape.size) }
{
    if keeps_limits_at_once(attempt, ready, at, first) {
        return true;
    }
    keeps_limits_counted(attempt, ready, at, first)
}

/// Whether a live attempt admits the next instruction of its CPU, whose operand is reached.
#[inline(always)]
fn admits_inside(attempt: &Attempt, image: &CpuImage, ready: &Ready, first: u64) -> bool
    requires prefix { image.now.prefix ≡ None }
    requires ends { image.now.address + 6 ≤ storage_size }
    requires admitted { ready.now.admitted ≡ goes_inside (entry_at ready.now.instr.op.number) }
    requires placed { is_placed ready.now.shape first ≡ true }
    ensures { result ≡ true → Admits (progress attempt.now (cpu_of image.now)) ready.now.instr
        (touched_by ready.now.shape.touch first ready.now.shape.size) }
{
    if attempt.has_stored(image.address) {
        return false;
    }
    if !ready.admitted {
        return false;
    }
    keeps_limits(attempt, ready, image.address, first)
}

/// Whether the attempt admits the next instruction of its CPU, whose operand is reached; it does where none is live.
#[inline(always)]
fn admits(attempt: &Attempt, image: &CpuImage, ready: &Ready, first: u64) -> bool
    requires prefix { image.now.prefix ≡ None }
    requires ends { image.now.address + 6 ≤ storage_size }
    requires admitted { ready.now.admitted ≡ goes_inside (entry_at ready.now.instr.op.number) }
    requires placed { is_placed ready.now.shape first ≡ true }
    ensures { result ≡ true → Admits (progress attempt.now (cpu_of image.now)) ready.now.instr
        (touched_by ready.now.shape.touch first ready.now.shape.size) }
{
    attempt.is_sound();
    if !attempt.is_live() {
        return true;
    }
    admits_inside(attempt, image, ready, first)
}

/// The next instruction of a CPU without a prefix, where it has been read before, fetches or stores no more than some
/// bytes in one line, and goes.
#[inline(always)]
pub fn plain_next<'a>(
    attempt: &Attempt,
    image: &CpuImage,
    program: &'a Program,
) -> Option<Plain<'a>>
    requires { image.now.prefix ≡ None }
    ensures goes { IfSome result (λ p. fate_by_progress (items program.now.guard) (storage_of program.now.storage)
        (progress attempt.now (cpu_of image.now)) ≡ Goes p.ready.now.instr
        (touched_by p.ready.now.shape.touch p.first p.ready.now.shape.size)) }
    ensures reached { IfSome result (λ p. lies_reached p.ready.now.shape p.first (items program.now.guard) ≡ true) }
{
    let ready = program.known(image.address)?;
    let first = reached(ready, image, program.guard())?;
    if !admits(attempt, image, ready, first) {
        return None;
    }
    Some(Plain { ready, first })
}

/// Whether the attempt sees the bytes of the next instruction of its CPU as they are in storage.
fn sees_instruction(attempt: &Attempt, image: &CpuImage) -> bool
    requires { image.now.address + 6 ≤ storage_size }
    ensures { result ≡ true → (k : ℕ) → k < 6 → (progress attempt.now (cpu_of image.now)).overlay (image.now.address + k)
        ≡ None }
{
    attempt.is_sound();
    !attempt.is_live() || !attempt.has_stored(image.address)
}

/// Whether the next instruction of a CPU is known to have no operand: the CPU has no prefix, and the instruction has been
/// read before. Where it goes, it touches nothing.
pub fn touches_nothing(attempt: &Attempt, image: &CpuImage, program: &Program) -> bool
    ensures { (i : Instr) (need : List Range) → result ≡ true → fate_by_progress (items program.now.guard)
        (storage_of program.now.storage) (progress attempt.now (cpu_of image.now)) ≡ Goes i need → need ≡ [] }
{
    if image.prefix.is_some() {
        return false;
    }
    match program.known(image.address) {
        None => false,
        Some(ready) => has_no_operand(ready) && sees_instruction(attempt, image),
    }
}

/// One plain instruction more, which is not about transactions and stores nothing, is completed in a live attempt of a CPU
/// without a prefix.
#[inline(always)]
pub fn advance_there(attempt: &mut Attempt, shape: Shape, first: u64)
    requires live { 0 < attempt.old.count }
    requires count { attempt.old.count + 1 < 2 ^ 32 }
    requires fetches { StoresNone (touched_by shape.touch first shape.size) }
    requires accessible { All (IsAccessible None) (touched_by shape.touch first shape.size) }
    requires goes_on { MayStep attempt.old None (touched_by shape.touch first shape.size) }
    ensures value { (i : Instr) (x c : Cpu) (bytes : List ℕ) → let need = touched_by shape.touch first shape.size in
        is_transaction (kind_at i.op.number) ≡ false → x.prefix ≡ None → progress attempt.new c
        ≡ advanced i need c (operand_stores None need bytes) (progress attempt.old x) }
    ensures live { 0 < attempt.new.count }
{
    match shape.touch {
        Touch::Nothing => attempt.advance_without_stores(&Touches::none(), None),
        _ => {
            let need = operands_at(shape, first);
            attempt.advance_without_stores(&need, None);
        }
    }
}
