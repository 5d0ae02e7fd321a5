//! What is known of an instruction once it is read.
ghost use Rattle.std.specs.Prelude.{◌≡◌, ◌<◌, true, None};
ghost use Rattle.z_instr.specs.Facts.{is_begin};
ghost use Rattle.z_instr.specs.Ranges.{is_within, half};
ghost use Rattle.std.specs.FinSet.{items};
ghost use Rattle.z_instr.specs.Access.{accessible_pages, text_pages, unfetched};
ghost use Rattle.z_instr.specs.Table.{entry_at};
ghost use Rattle.tx_program.specs.Shapes.{no_shape, shape_in, boundary_size, shape_by, IsShaped};
ghost use Rattle.tx_program.specs.Shapes.{is_admitted as goes_inside, is_bare_begin as begins_bare};

use z_instr::addresses::registers_named;
use z_instr::instr::Instr;
use z_instr::laws::immediates_are_plain;
use z_instr::lookup::line;
use z_instr::op::Op;
use z_instr::operand::{Demand, Operands, Size};
use z_instr::roles::{begins, sets_access_register};
use z_regs::{CpuImage, Guard};
use z_touch::fetchable;

/// How an instruction touches storage.
#[derive(Clone, Copy, Debug, PartialEq, Eq)]
pub enum Touch {
    /// Not at all.
    Nothing,
    /// It fetches bytes from its first address on.
    Fetch,
    /// It stores bytes from its first address on.
    Store,
    /// In some other way, or it demands more than a boundary, or it begins a transaction and names a block, or it
    /// cannot be fetched without a prefix.
    Other,
}

/// The operand of an instruction: how many bytes it has, and the boundary on which it has to stand.
#[derive(Clone, Copy)]
pub struct Shape {
    /// How it is touched.
    pub touch: Touch,
    /// The number of its bytes.
    pub size: u32,
    /// The item on whose boundary it stands.
    pub boundary: Size,
}

/// An instruction that is read, with the shape of its operand.
#[derive(Clone, Copy)]
pub struct Ready {
    /// The instruction.
    pub instr: Instr,
    /// The shape of its operand.
    pub shape: Shape,
    /// Whether every transaction may have it, however deep: no begin is so.
    pub admitted: bool,
}

/// The shape of which nothing is known.
fn unknown() -> Shape
    ensures { result ≡ no_shape }
{
    Shape {
        touch: Touch::Other,
        size: 0,
        boundary: Size::Byte,
    }
}

/// An operand of so many bytes.
fn operand(touch: Touch, size: u32, boundary: Size) -> Shape
    ensures { result ≡ record { touch = touch; size = size; boundary = boundary } }
{
    Shape {
        touch,
        size,
        boundary,
    }
}

/// The shape of such operands.
fn shape_of(operands: Operands, boundary: Size, instr: &Instr) -> Shape
    ensures { result ≡ shape_in operands boundary instr.now }
{
    let count = u32::from(registers_named(instr));
    match operands {
        Operands::Absent => operand(Touch::Nothing, 0, boundary),
        Operands::Fetched(size) => operand(Touch::Fetch, u32::from(size.bytes()), boundary),
        Operands::Stored(size) => operand(Touch::Store, u32::from(size.bytes()), boundary),
        Operands::FetchedMany(size) => {
            operand(Touch::Fetch, count * u32::from(size.bytes()), boundary)
        }
        Operands::StoredMany(size) => {
            operand(Touch::Store, count * u32::from(size.bytes()), boundary)
        }
        _ => unknown(),
    }
}

/// The item of the operands.
fn item_of(operands: Operands) -> Size
    ensures { result ≡ boundary_size operands }
{
    match operands {
        Operands::Stored(size) | Operands::Fetched(size) => size,
        _ => Size::Byte,
    }
}

/// Whether a begin names no block, and a filtering of program interruptions that there is.
fn is_bare_begin(instr: &Instr) -> bool
    requires { is_within half instr.now.imm ≡ true }
    ensures { result ≡ begins_bare instr.now }
{
    instr.b == 0 && instr.imm as u64 % 4 != 3
}

/// The shape of an instruction with this demand and such operands.
fn shape_with(demand: Demand, operands: Operands, instr: &Instr) -> Shape
    requires { is_begin demand ≡ true → is_within half instr.now.imm ≡ true }
    ensures { result ≡ shape_by demand operands instr.now }
{
    match demand {
        Demand::Nothing => shape_of(operands, Size::Byte, instr),
        Demand::Boundary => shape_of(operands, item_of(operands), instr),
        Demand::Begin if is_bare_begin(instr) => shape_of(operands, Size::Byte, instr),
        Demand::BeginConstrained if instr.b == 0 => shape_of(operands, Size::Byte, instr),
        _ => unknown(),
    }
}

/// Whether a transaction may have an operation whatever its begins allow, and however many they are.
fn is_admitted(op: Op) -> bool
    ensures { result ≡ goes_inside (entry_at op.number) }
{
    !(line(op).usage.is_restricted() || sets_access_register(op) || begins(op))
}

/// Whether a CPU without a prefix can fetch so many bytes from an address on.
pub fn is_fetched(address: u64, guard: &Guard, length: u8) -> bool
    requires { 0 < length }
    ensures { result ≡ true → unfetched (accessible_pages None) (text_pages None (items guard.now)) address length
        ≡ None }
{
    match fetchable(&CpuImage::entering(address), guard, length) {
        Ok(()) => true,
        Err(_) => false,
    }
}

/// What is known of an instruction, which can be fetched where `fetched` says so.
pub fn make_ready(instr: Instr, fetched: bool) -> Ready
    ensures instr { result.instr ≡ instr }
    ensures shaped { IsShaped fetched result }
{
    immediates_are_plain();
    let admitted = is_admitted(instr.op);
    if fetched {
        let kind = line(instr.op).kind;
        let shape = shape_with(kind.demand(), kind.operands(), &instr);
        return Ready {
            instr,
            shape,
            admitted,
        };
    }
    Ready {
        instr,
        shape: unknown(),
        admitted,
    }
}
