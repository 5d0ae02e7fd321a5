//! The ranges of storage that an instruction touches.
ghost use Rattle.std.specs.Prelude.{◌≡◌, ◌<◌, true, false, [], ◌∷◌, map};
ghost use Rattle.z_instr.specs.Operands.{span, spans_in, selects, registers_between, length_of, first_address as first_of, second_address as second_of};
ghost use Rattle.z_instr.specs.Facts.{has_two_lists};
ghost use Rattle.z_instr.specs.Ranges.{is_within, bounds};
ghost use Rattle.z_touch.specs.Refusals.{range_of};

use z_instr::addresses::{first_address, is_selected, registers_named, second_address};
use z_instr::instr::Instr;
use z_instr::operand::Operands;
use z_regs::{CpuImage, Range, Touches};

/// One range.
pub fn single(first: u64, length: u32, store: bool) -> Touches
    ensures { result ≡ range_of (span first length store) ∷ [] }
{
    let mut touches = Touches::none();
    touches.add(Range {
        first,
        length,
        store,
    });
    touches
}

/// The ranges at both addresses, as long as the length code says and one.
fn two_lists(instr: &Instr, image: &CpuImage, store: bool) -> Touches
    requires { is_within (bounds 0 256) instr.now.imm ≡ true }
    ensures { result ≡ range_of (span (first_of instr.now image.now.general) (length_of instr.now) store) ∷
        range_of (span (second_of instr.now image.now.general) (length_of instr.now) false) ∷ [] }
{
    let length = instr.imm as u32 + 1;
    let mut touches = single(first_address(instr, &image.general), length, store);
    touches.add(Range {
        first: second_address(instr, &image.general),
        length,
        store: false,
    });
    touches
}

/// The ranges of an instruction with such operands, in their order.
#[tactic(auto, unfolding(z_instr::specs::Operands::spans_in))]
pub fn operands_in(operands: Operands, instr: &Instr, image: &CpuImage) -> Touches
    requires lists { has_two_lists operands ≡ true → is_within (bounds 0 256) instr.now.imm ≡ true }
    ensures { result ≡ map range_of (spans_in operands instr.now image.now.general image.now.condition) }
{
    match operands {
        Operands::Absent => Touches::none(),
        Operands::Fetched(size) => single(
            first_address(instr, &image.general),
            u32::from(size.bytes()),
            false,
        ),
        Operands::Stored(size) => single(
            first_address(instr, &image.general),
            u32::from(size.bytes()),
            true,
        ),
        Operands::FetchedMany(size) => {
            let length = u32::from(registers_named(instr)) * u32::from(size.bytes());
            single(first_address(instr, &image.general), length, false)
        }
        Operands::StoredMany(size) => {
            let length = u32::from(registers_named(instr)) * u32::from(size.bytes());
            single(first_address(instr, &image.general), length, true)
        }
        Operands::FetchedSelected if is_selected(instr.mask, image.condition) => {
            single(first_address(instr, &image.general), 8, false)
        }
        Operands::StoredSelected if is_selected(instr.mask, image.condition) => {
            single(first_address(instr, &image.general), 8, true)
        }
        Operands::FetchedSelected | Operands::StoredSelected => Touches::none(),
        Operands::StoredAndFetched => two_lists(instr, image, true),
        Operands::BothFetched => two_lists(instr, image, false),
    }
}
