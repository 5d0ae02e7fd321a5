//! Operations on the bytes of two operands in storage, which may overlap in any way (Principles of Operation,
//! "Move", "And", "Compare Logical": operands are processed a byte at a time, from the left).
ghost use Rattle.std.specs.Prelude.{◌≡◌, ◌<◌, ◌≤◌, ◌+◌, ℕ, List, true, ◌||◌, length, nat_eq, nat_le};
ghost use Rattle.z_regs.specs.Prefix.{storage_size};
ghost use Rattle.std.specs.List.{list_all};
ghost use Rattle.z_instr.specs.Operands.{length_of};
ghost use Rattle.z_instr.specs.Ranges.{is_within, bounds};
ghost use Rattle.z_regs.specs.Cpu.{cpu_of};
ghost use Rattle.z_instr.specs.declared.kind.Storage.TheVariants.{ByteByByte, CompareBytes};
ghost use Rattle.z_instr.specs.declared.kind.Combination.TheVariants.{Move, Logic as Bitwise};
ghost use Rattle.z_effect.specs.StorageEffect.{mixed, lead, results, with_code_of, order_of_bytes};
ghost use Rattle.z_effect.specs.After.{range_at, written, AreInside};
ghost use Rattle.z_storage.specs.Performs.{ranges, Performs};

use tx_control::Exception;
use z_arith::Width;
use z_effect::{advance, compare, logic};
use z_instr::addresses::{first_address, second_address};
use z_instr::instr::Instr;
use z_instr::kind::{Combination, Logic, Order};
use z_regs::{Bytes, CpuImage, number_in};

/// The most bytes that an operand has.
const MOST_BYTES: usize = 256;

/// How many bytes each operand has, 1 to 256.
fn bytes_named(instr: &Instr) -> u64
    requires { is_within (bounds 0 256) instr.now.imm ≡ true }
    ensures count { result ≡ length_of instr.now }
    ensures some { 1 ≤ result }
    ensures few { result ≤ 256 }
{
    instr.imm as u64 + 1
}

/// What becomes of a byte of the first operand and one of the second.
fn mix(combination: Combination, first: u8, second: u8) -> u8
    ensures { result ≡ mixed combination first second }
{
    match combination {
        Combination::Move => second,
        Combination::Logic(kind) => logic(kind, u64::from(first), u64::from(second)) as u8,
    }
}

/// Makes `count` bytes of the target, from the left, each of a byte of both operands as it is by then. The
/// answer is whether all results are zero.
fn combine_bytes<V: Bytes>(
    combination: Combination,
    view: &mut V,
    target: u64,
    source: u64,
    count: u64,
) -> bool
    requires size { length (V.bytes view.old) ≡ storage_size }
    requires target_in { target + count ≤ storage_size }
    requires source_in { source + count ≤ storage_size }
    ensures stored { V.bytes view.new ≡
        written (V.bytes view.old) target (results count combination (lead count target source)
        (range_at (V.bytes view.old) target count) (range_at (V.bytes view.old) source count)) }
    ensures zero { result ≡ list_all (λ b. nat_eq b 0) (results count combination (lead count target source)
        (range_at (V.bytes view.old) target count) (range_at (V.bytes view.old) source count)) }
{
    let mut zero = true;
    for k in 0..count {
        let byte = mix(combination, view.get(target + k), view.get(source + k));
        view.put(target + k, byte);
        zero &= byte == 0;
    }
    zero
}

/// Whether no byte that is stored from the left is one that is fetched later.
fn are_apart(target: u64, source: u64, count: u64) -> bool
    requires { source + count ≤ storage_size }
    ensures { result ≡ (nat_le target source || nat_le (source + count) target) }
{
    target <= source || source + count <= target
}

/// Combines one to eight bytes of two operands as numbers. The answer is whether all results are zero.
#[inline(always)]
fn combine_item<V: Bytes>(kind: Logic, view: &mut V, target: u64, source: u64, count: u8) -> bool
    requires low { 1 ≤ count }
    requires high { count ≤ 8 }
    requires target_in { target + count ≤ length (V.bytes view.old) }
    requires source_in { source + count ≤ length (V.bytes view.old) }
    ensures stored { V.bytes view.new ≡
        written (V.bytes view.old) target (results count (Bitwise kind) count
        (range_at (V.bytes view.old) target count) (range_at (V.bytes view.old) source count)) }
    ensures zero { result ≡ list_all (λ b. nat_eq b 0) (results count (Bitwise kind) count
        (range_at (V.bytes view.old) target count) (range_at (V.bytes view.old) source count)) }
{
    let first = view.word(target, count);
    let second = view.word(source, count);
    let value = logic(kind, first, second);
    view.put_word(target, count, value);
    value == 0
}

/// Combines `count` bytes of two operands, eight at a time and then the rest. The answer is whether all results
/// are zero.
fn combine_apart<V: Bytes>(kind: Logic, view: &mut V, target: u64, source: u64, count: u64) -> bool
    requires size { length (V.bytes view.old) ≡ storage_size }
    requires target_in { target + count ≤ storage_size }
    requires source_in { source + count ≤ storage_size }
    requires apart { (nat_le target source || nat_le (source + count) target) ≡ true }
    ensures stored { V.bytes view.new ≡
        written (V.bytes view.old) target (results count (Bitwise kind) count
        (range_at (V.bytes view.old) target count) (range_at (V.bytes view.old) source count)) }
    ensures zero { result ≡ list_all (λ b. nat_eq b 0) (results count (Bitwise kind) count
        (range_at (V.bytes view.old) target count) (range_at (V.bytes view.old) source count)) }
{
    let whole = count / 8;
    let mut zero = true;
    for k in 0..whole {
        let item = combine_item(kind, view, target + 8 * k, source + 8 * k, 8);
        zero &= item;
    }
    let rest = (count % 8) as u8;
    if rest == 0 {
        return zero;
    }
    let last = combine_item(kind, view, target + 8 * whole, source + 8 * whole, rest);
    zero & last
}

/// Combines `count` bytes as if one by one from the left: eight at a time where that is the same. The answer is
/// whether all results are zero.
fn combine_logic<V: Bytes>(kind: Logic, view: &mut V, target: u64, source: u64, count: u64) -> bool
    requires size { length (V.bytes view.old) ≡ storage_size }
    requires target_in { target + count ≤ storage_size }
    requires source_in { source + count ≤ storage_size }
    ensures stored { V.bytes view.new ≡
        written (V.bytes view.old) target (results count (Bitwise kind) (lead count target source)
        (range_at (V.bytes view.old) target count) (range_at (V.bytes view.old) source count)) }
    ensures zero { result ≡ list_all (λ b. nat_eq b 0) (results count (Bitwise kind) (lead count target source)
        (range_at (V.bytes view.old) target count) (range_at (V.bytes view.old) source count)) }
{
    if are_apart(target, source, count) {
        combine_apart(kind, view, target, source, count)
    } else {
        combine_bytes(Combination::Logic(kind), view, target, source, count)
    }
}

/// Moves `count` bytes, all at once.
fn move_apart<V: Bytes>(view: &mut V, target: u64, source: u64, count: u64)
    requires some { 1 ≤ count }
    requires few { count ≤ 256 }
    requires target_in { target + count ≤ length (V.bytes view.old) }
    requires source_in { source + count ≤ length (V.bytes view.old) }
    ensures { V.bytes view.new ≡
        written (V.bytes view.old) target (range_at (V.bytes view.old) source count) }
{
    let mut item = [0; MOST_BYTES];
    let bytes = &mut item[..count as usize];
    view.read_into(source, bytes);
    view.put_all(target, bytes);
}

/// Moves `count` bytes as if one by one from the left: all at once where that is the same.
fn move_bytes<V: Bytes>(view: &mut V, target: u64, source: u64, count: u64)
    requires some { 1 ≤ count }
    requires few { count ≤ 256 }
    requires size { length (V.bytes view.old) ≡ storage_size }
    requires target_in { target + count ≤ storage_size }
    requires source_in { source + count ≤ storage_size }
    ensures { V.bytes view.new ≡
        written (V.bytes view.old) target (results count Move (lead count target source)
        (range_at (V.bytes view.old) target count) (range_at (V.bytes view.old) source count)) }
{
    if are_apart(target, source, count) {
        move_apart(view, target, source, count);
    } else {
        let _zero = combine_bytes(Combination::Move, view, target, source, count);
    }
}

/// Compares one to eight bytes of two lists, from a place on, as the numbers that they are, which have the order of
/// their bytes.
#[inline(always)]
fn order_of_item(first: &[u8], second: &[u8], at: usize, count: u8) -> u8
    requires low { 1 ≤ count }
    requires high { count ≤ 8 }
    requires first_in { at + count ≤ length first.now }
    requires second_in { at + count ≤ length second.now }
    ensures order { result ≡ order_of_bytes (range_at first.now at count) (range_at second.now at count) }
    ensures code { result < 4 }
{
    let a = number_in(first, at, count);
    let b = number_in(second, at, count);
    if a == b {
        return 0;
    }
    compare(Order::Logical, Width::Double, a, b)
}

/// Compares two lists of as many bytes from the left, eight at a time and then the rest: 0 equal, 1 where the first list
/// is low, 2 where it is high.
fn order_of_lists(first: &[u8], second: &[u8]) -> u8
    requires alike { length first.now ≡ length second.now }
    ensures order { result ≡ order_of_bytes first.now second.now }
    ensures code { result < 4 }
{
    let count = first.len();
    let whole = count / 8;
    for k in 0..whole {
        let order = order_of_item(first, second, 8 * k, 8);
        if order != 0 {
            return order;
        }
    }
    let rest = (count % 8) as u8;
    if rest > 0 {
        return order_of_item(first, second, 8 * whole, rest);
    }
    0
}

/// Compares `count` bytes from the left, which are fetched at once: 0 equal, 1 where the first list is low, 2 where
/// it is high.
fn order_in<V: Bytes>(view: &V, first: u64, second: u64, count: u64) -> u8
    requires some { 1 ≤ count }
    requires few { count ≤ 256 }
    requires first_in { first + count ≤ length (V.bytes view.now) }
    requires second_in { second + count ≤ length (V.bytes view.now) }
    ensures order { result ≡ order_of_bytes (range_at (V.bytes view.now) first count)
        (range_at (V.bytes view.now) second count) }
    ensures code { result < 4 }
{
    let mut bytes = [0; MOST_BYTES];
    let items = &mut bytes[..count as usize];
    view.read_into(first, items);
    let mut others = [0; MOST_BYTES];
    let other_items = &mut others[..count as usize];
    view.read_into(second, other_items);
    order_of_lists(items, other_items)
}

/// Sets the code by whether all results are zero, where a combination sets it.
fn set_code(combination: Combination, zero: bool, image: &mut CpuImage)
    ensures { (made : List ℕ) → zero ≡ list_all (λ b. nat_eq b 0) made → cpu_of image.new ≡
        with_code_of combination made (cpu_of image.old) }
{
    if let Combination::Logic(_) = combination {
        image.condition = if zero { 0 } else { 1 };
    }
}

/// Makes `count` bytes of the target, from the left, each of a byte of both operands as it is by then, and sets
/// the code where a combination sets it.
fn combine<V: Bytes>(
    combination: Combination,
    image: &mut CpuImage,
    view: &mut V,
    target: u64,
    source: u64,
    count: u64,
)
    requires some { 1 ≤ count }
    requires few { count ≤ 256 }
    requires size { length (V.bytes view.old) ≡ storage_size }
    requires target_in { target + count ≤ storage_size }
    requires source_in { source + count ≤ storage_size }
    ensures stored { V.bytes view.new ≡
        written (V.bytes view.old) target (results count combination (lead count target source)
        (range_at (V.bytes view.old) target count) (range_at (V.bytes view.old) source count)) }
    ensures code { cpu_of image.new ≡ with_code_of combination (results count combination
        (lead count target source) (range_at (V.bytes view.old) target count)
        (range_at (V.bytes view.old) source count)) (cpu_of image.old) }
{
    match combination {
        Combination::Move => move_bytes(view, target, source, count),
        Combination::Logic(kind) => {
            let zero = combine_logic(kind, view, target, source, count);
            set_code(combination, zero, image);
        }
    }
}

/// MVC, NC, OC and XC, the instruction having `n` bytes. From the left, each byte of the first operand
/// becomes that of the combination with the byte of the second, where later bytes see the results of earlier
/// ones. The code becomes 0 where all results are zero and 1 where one is not; a move leaves it. There is no
/// error.
#[tactic(auto, unfolding(z_instr::specs::Operands::spans_in))]
pub fn byte_by_byte<V: Bytes>(
    combination: Combination,
    n: u8,
    instr: &Instr,
    image: &mut CpuImage,
    view: &mut V,
) -> Result<(), Exception>
    requires size { length (V.bytes view.old) ≡ storage_size }
    requires code { is_within (bounds 0 256) instr.now.imm ≡ true }
    requires inside { AreInside (ranges (ByteByByte combination) instr.now (cpu_of image.old))
        (V.bytes view.old) }
    ensures { Performs (ByteByByte combination) n instr.now (cpu_of image.old) (cpu_of image.new)
        (V.bytes view.old) (V.bytes view.new) result }
{
    let target = first_address(instr, &image.general);
    let source = second_address(instr, &image.general);
    combine(combination, image, view, target, source, bytes_named(instr));
    advance(image, n);
    Ok(())
}

/// CLC, the instruction having `n` bytes. The leftmost bytes that differ decide: the code becomes 1 where
/// that of the first operand is low, 2 where it is high, 0 where none differ. Storage stays. There is no
/// error.
#[tactic(auto, unfolding(z_effect::specs::StorageEffect::storage_effect, z_instr::specs::Operands::spans_in))]
pub fn compare_bytes<V: Bytes>(
    n: u8,
    instr: &Instr,
    image: &mut CpuImage,
    view: &V,
) -> Result<(), Exception>
    requires size { length (V.bytes view.now) ≡ storage_size }
    requires code { is_within (bounds 0 256) instr.now.imm ≡ true }
    requires inside { AreInside (ranges CompareBytes instr.now (cpu_of image.old)) (V.bytes view.now) }
    ensures { Performs CompareBytes n instr.now (cpu_of image.old) (cpu_of image.new) (V.bytes view.now)
        (V.bytes view.now) result }
{
    let first = first_address(instr, &image.general);
    let second = second_address(instr, &image.general);
    image.condition = order_in(view, first, second, bytes_named(instr));
    advance(image, n);
    Ok(())
}
