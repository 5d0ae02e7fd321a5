//! Where the bytes of operands lie.
ghost use Rattle.std.specs.Prelude.{◌≡◌, ◌≤◌, ◌+◌, true, IsTrue};
ghost use Rattle.z_regs.specs.Prefix.{storage_size, is_prefix};
ghost use Rattle.z_instr.specs.Operands.{from_up};
ghost use Rattle.tx_lending.specs.Places.{places_from};

use z_regs::AREA_SIZE;

/// Whether so many bytes from a real address on all lie where they would without a prefix: none of them is in one of the two
/// areas that the prefix exchanges.
#[inline(always)]
pub fn stay(prefix: Option<u32>, first: u64, length: u32) -> bool
    requires prefix_in { IsTrue (is_prefix prefix) }
    requires inside { first + length ≤ storage_size }
    ensures { result ≡ true → places_from prefix first length ≡ from_up first length }
{
    let Some(own) = prefix else {
        return true;
    };
    let own = u64::from(own);
    let end = first + u64::from(length);
    AREA_SIZE <= first && (end <= own || own + AREA_SIZE <= first)
}
