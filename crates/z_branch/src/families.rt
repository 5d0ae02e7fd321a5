//! What each kind does. No kind here raises an exception, and the destination is that of the CPU as it was.
ghost use Rattle.std.specs.Prelude.{◌≡◌, ◌<◌, ◌^◌};
ghost use Rattle.z_arith.specs.Whole.{bits};
ghost use Rattle.z_instr.specs.Operands.{selects};
ghost use Rattle.z_regs.specs.Cpu.{cpu_of};
ghost use Rattle.z_effect.specs.Registers.{target as target_of};
ghost use Rattle.z_instr.specs.declared.kind.Branch.TheVariants.{OnCondition, OnCount, AndSave, OnCompare};
ghost use Rattle.z_instr.specs.declared.kind.Branch.TheVariants.{OnCompareImmediate, ServiceCall};
ghost use Rattle.z_effect.specs.BranchEffect.{branch_effect, destination as destination_of, going, counted};
ghost use Rattle.z_effect.specs.After.{Sets};

use z_arith::{Width, low};
use z_effect::{advance, compare, immediate, next_address, operand, put, register, target};
use z_instr::addresses::{first_address, is_selected};
use z_instr::instr::Instr;
use z_instr::kind::{Order, Place};
use z_regs::{CpuImage, RunState};

/// Where a branch goes, if anywhere.
fn destination(place: Place, instr: &Instr, image: &CpuImage) -> Option<u64>
    ensures { result ≡ destination_of place instr.now (cpu_of image.now) }
{
    match place {
        Place::Register if instr.r2 == 0 => None,
        Place::Register => Some(register(image, instr.r2)),
        Place::Address => Some(first_address(instr, &image.general)),
        Place::Relative => Some(target(instr, image)),
    }
}

/// Goes on at the destination where the branch is taken and there is one, else behind the instruction of `n`
/// bytes.
fn go(image: &mut CpuImage, n: u8, is_taken: bool, destination: Option<u64>)
    ensures { cpu_of image.new ≡ going n is_taken destination (cpu_of image.old) }
{
    match destination {
        Some(address) if is_taken => image.address = address,
        _ => advance(image, n),
    }
}

/// R1 less one.
fn count_down(w: Width, instr: &Instr, image: &CpuImage) -> u64
    ensures value { result ≡ counted w instr.now (cpu_of image.now) }
    ensures fits { result < 2 ^ bits w }
{
    let less = operand(image, w, instr.r1).wrapping_sub(1);
    low(w, less)
}

/// Branches where the mask selects the code.
#[inline(always)]
#[tactic(auto, unfolding(z_effect::specs::BranchEffect::branch_effect))]
pub fn on_condition(place: Place, n: u8, instr: &Instr, image: &mut CpuImage)
    ensures { Sets (branch_effect (OnCondition place) n instr.now (cpu_of image.old)) n (cpu_of image.old)
        (cpu_of image.new) (Ok tt) }
{
    let to = destination(place, instr, image);
    let is_taken = is_selected(instr.mask, image.condition);
    go(image, n, is_taken, to);
}

/// Counts R1 down and branches where it is not zero.
#[inline(always)]
#[tactic(auto, unfolding(z_effect::specs::BranchEffect::branch_effect))]
pub fn on_count(place: Place, w: Width, n: u8, instr: &Instr, image: &mut CpuImage)
    ensures { Sets (branch_effect (OnCount place w) n instr.now (cpu_of image.old)) n (cpu_of image.old)
        (cpu_of image.new) (Ok tt) }
{
    let to = destination(place, instr, image);
    let less = count_down(w, instr, image);
    put(image, w, instr.r1, less);
    go(image, n, less != 0, to);
}

/// Puts the next address into R1 and branches.
#[tactic(auto, unfolding(z_effect::specs::BranchEffect::branch_effect))]
pub fn and_save(place: Place, n: u8, instr: &Instr, image: &mut CpuImage)
    ensures { Sets (branch_effect (AndSave place) n instr.now (cpu_of image.old)) n (cpu_of image.old)
        (cpu_of image.new) (Ok tt) }
{
    let to = destination(place, instr, image);
    let next = next_address(image, n);
    put(image, Width::Double, instr.r1, next);
    go(image, n, true, to);
}

/// Goes on at the target where the mask selects this code, else behind the instruction of `n` bytes.
fn go_where_selected(code: u8, n: u8, instr: &Instr, image: &mut CpuImage)
    requires { code < 4 }
    ensures { cpu_of image.new ≡ going n (selects instr.now.mask code)
        (Some (target_of instr.now (cpu_of image.old))) (cpu_of image.old) }
{
    let to = Some(target(instr, image));
    go(image, n, is_selected(instr.mask, code), to);
}

/// Branches where the mask selects the code that comparing R1 with R2 would set.
#[tactic(auto, unfolding(z_effect::specs::BranchEffect::branch_effect))]
pub fn on_compare(order: Order, w: Width, n: u8, instr: &Instr, image: &mut CpuImage)
    ensures { Sets (branch_effect (OnCompare order w) n instr.now (cpu_of image.old)) n (cpu_of image.old)
        (cpu_of image.new) (Ok tt) }
{
    let first = operand(image, w, instr.r1);
    let second = operand(image, w, instr.r2);
    go_where_selected(compare(order, w, first, second), n, instr, image);
}

/// Branches where the mask selects the code that comparing R1 with the byte would set.
#[tactic(auto, unfolding(z_effect::specs::BranchEffect::branch_effect))]
pub fn on_compare_immediate(n: u8, instr: &Instr, image: &mut CpuImage)
    ensures { Sets (branch_effect OnCompareImmediate n instr.now (cpu_of image.old)) n (cpu_of image.old)
        (cpu_of image.new) (Ok tt) }
{
    let first = register(image, instr.r1);
    let byte = immediate(Width::Double, i64::from(instr.d2));
    let code = compare(Order::Signed, Width::Double, first, byte);
    go_where_selected(code, n, instr, image);
}

/// Halts the CPU behind the instruction.
#[tactic(auto, unfolding(z_effect::specs::BranchEffect::branch_effect))]
pub fn service_call(n: u8, instr: &Instr, image: &mut CpuImage)
    ensures { Sets (branch_effect ServiceCall n instr.now (cpu_of image.old)) n (cpu_of image.old)
        (cpu_of image.new) (Ok tt) }
{
    advance(image, n);
    image.state = RunState::Halted;
}
