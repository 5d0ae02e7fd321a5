//! What an instruction demands of its fields, its address and the nesting depth.
ghost use Rattle.std.specs.Prelude.{◌≡◌, ◌<◌, true};
ghost use Rattle.std.specs.Prelude.{None};
ghost use Rattle.z_instr.specs.Operands.{bytes_of, boundary, unspecified_in, unspecified, where_wrong, specification};
ghost use Rattle.z_instr.specs.Facts.{is_begin};
ghost use Rattle.z_instr.specs.Ranges.{is_within, half};
ghost use Rattle.z_touch.specs.Refusals.{answer, refused};

use tx_control::Exception;
use tx_control::codes::{SPECIAL_OPERATION, SPECIFICATION};
use z_instr::addresses::first_address;
use z_instr::format::length_in;
use z_instr::instr::Instr;
use z_instr::laws::immediates_are_plain;
use z_instr::lookup::line;
use z_instr::operand::{Demand, Operands};
use z_regs::CpuImage;

fn boundary_of(operands: Operands) -> u64
    ensures { result ≡ boundary operands }
{
    match operands {
        Operands::Stored(size) | Operands::Fetched(size) => u64::from(size.bytes()),
        _ => 1,
    }
}

/// The exception that an instruction meets before it is executed.
pub fn exception(instr: &Instr, code: u16) -> Exception
    ensures { result ≡ refused instr.now code }
{
    Exception {
        code,
        fetch: false,
        length: length_in(line(instr.op).form),
    }
}

fn specification_where(wrong: bool) -> Option<u16>
    ensures { result ≡ where_wrong wrong specification None }
{
    if wrong { Some(SPECIFICATION) } else { None }
}

/// The code of the first exception among special operation and specification.
#[tactic(auto, unfolding(z_instr::specs::Operands::unspecified_in))]
fn unmet(
    demand: Demand,
    operands: Operands,
    instr: &Instr,
    image: &CpuImage,
    depth: u32,
) -> Option<u16>
    requires begins { is_begin demand ≡ true → is_within half instr.now.imm ≡ true }
    ensures { result ≡ unspecified_in demand operands instr.now image.now.general depth }
{
    match demand {
        Demand::Nothing | Demand::ServiceZero => None,
        Demand::EvenPair => specification_where(instr.r1 % 2 == 1),
        Demand::Boundary => {
            specification_where(first_address(instr, &image.general) % boundary_of(operands) != 0)
        }
        Demand::AbortCode if depth == 0 => Some(SPECIAL_OPERATION),
        Demand::AbortCode => specification_where(first_address(instr, &image.general) < 256),
        Demand::Begin => specification_where(
            instr.imm as u64 % 4 == 3
                || (instr.b != 0 && first_address(instr, &image.general) % 8 != 0),
        ),
        Demand::BeginConstrained => specification_where(instr.b != 0),
    }
}

/// The exception among special operation and specification that the instruction meets at this nesting depth,
/// if any; special operation comes first.
pub fn specified(instr: &Instr, image: &CpuImage, depth: u32) -> Result<(), Exception>
    ensures { result ≡ answer (unspecified instr.now image.now.general depth) instr.now tt }
{
    immediates_are_plain();
    let line = line(instr.op);
    match unmet(
        line.kind.demand(),
        line.kind.operands(),
        instr,
        image,
        depth,
    ) {
        None => Ok(()),
        Some(code) => Err(exception(instr, code)),
    }
}
