//! What an instruction touches, or the exception that comes before it is executed.
ghost use Rattle.std.specs.Prelude.{◌≡◌, true, All, map};
ghost use Rattle.std.specs.FinSet.{items};
ghost use Rattle.z_instr.specs.Operands.{IsSmall, spans, inaccessible};
ghost use Rattle.z_instr.specs.Facts.{is_service};
ghost use Rattle.z_instr.specs.Ranges.{is_within, bounds};
ghost use Rattle.z_instr.specs.Access.{accessible_pages, text_pages};
ghost use Rattle.z_regs.specs.Cpu.{cpu_of};
ghost use Rattle.z_touch.specs.Refusals.{range_of, span_of, denial, answer, refusal};

use crate::demands::{exception, specified};
use crate::operands::{operands_in, single};
use crate::pages::forbidden;
use tx_control::Exception;
use tx_control::codes::OPERATION;
use z_instr::addresses::first_address;
use z_instr::instr::Instr;
use z_instr::laws::{immediates_are_plain, operands_are_small};
use z_instr::lookup::line;
use z_instr::operand::Demand;
use z_regs::{CpuImage, Guard, Touches};

/// The code of the first exception among addressing, protection and, for a service call, operation.
///
/// At depth 0 the block that a begin names is tested in place of the operands, as 256 stored bytes.
fn denied(
    demand: Demand,
    operands: &Touches,
    instr: &Instr,
    image: &CpuImage,
    guard: &Guard,
    depth: u32,
) -> Option<u16>
    requires small { All (λ r. IsSmall (span_of r)) operands.now }
    requires services { is_service demand ≡ true → is_within (bounds 0 256) instr.now.imm ≡ true }
    ensures { result ≡
        denial demand (map span_of operands.now) instr.now image.now.general depth
        (accessible_pages image.now.prefix) (text_pages image.now.prefix (items guard.now)) }
{
    match demand {
        Demand::Begin if depth == 0 && instr.b != 0 => {
            let block = single(first_address(instr, &image.general), 256, true);
            forbidden(&block, image.prefix, guard, None)
        }
        Demand::ServiceZero if instr.imm != 0 => forbidden(
            operands,
            image.prefix,
            guard,
            Some(OPERATION),
        ),
        _ => forbidden(operands, image.prefix, guard, None),
    }
}

/// The ranges that an instruction touches, by real addresses, in the order of its operands. Nothing is tested.
pub fn ranges(instr: &Instr, image: &CpuImage) -> Touches
    ensures { result ≡ map range_of (spans instr.now image.now.general image.now.condition) }
{
    immediates_are_plain();
    operands_in(line(instr.op).kind.operands(), instr, image)
}

/// Whether an instruction that meets neither special operation nor specification may touch its ranges, which
/// are `operands`, and else the first exception: addressing for each operand, protection for each stored one,
/// or operation for a service call with a number other than 0.
///
/// `guard` has the text pages of storage, and `depth` is the number of open transactions.
pub fn accessible(
    instr: &Instr,
    operands: &Touches,
    image: &CpuImage,
    guard: &Guard,
    depth: u32,
) -> Result<(), Exception>
    requires { operands.now ≡ map range_of (spans instr.now image.now.general image.now.condition) }
    ensures { result ≡
        answer (inaccessible instr.now image.now.general image.now.condition depth
        (accessible_pages image.now.prefix) (text_pages image.now.prefix (items guard.now))) instr.now tt }
{
    immediates_are_plain();
    operands_are_small();
    match denied(
        line(instr.op).kind.demand(),
        operands,
        instr,
        image,
        guard,
        depth,
    ) {
        None => Ok(()),
        Some(code) => Err(exception(instr, code)),
    }
}

/// The ranges that an instruction touches, in the order of its operands, or the first exception that it meets
/// before it is executed: special operation, specification, addressing for each operand, protection for each
/// stored one, or operation for a service call with a number other than 0.
///
/// Ranges are by real addresses. `guard` has the text pages of storage, and `depth` is the number of open
/// transactions. The exception does not come at the fetch, and has the length of the instruction.
pub fn touches(
    instr: &Instr,
    image: &CpuImage,
    guard: &Guard,
    depth: u32,
) -> Result<Touches, Exception>
    ensures { result ≡
        answer (refusal instr.now (cpu_of image.now) depth (items guard.now)) instr.now
        (map range_of (spans instr.now image.now.general image.now.condition)) }
{
    specified(instr, image, depth)?;
    let operands = ranges(instr, image);
    accessible(instr, &operands, image, guard, depth)?;
    Ok(operands)
}
