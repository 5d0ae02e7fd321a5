//! Quotients and remainders, with a sign and without.
ghost use Rattle.std.specs.Prelude.{◌≡◌, IfOk};
ghost use Rattle.z_arith.specs.Quotient.{divide_word_of, divide_double_of, divide_logical_of, DividesWord};
ghost use Rattle.z_arith.specs.Quotient.{DividesDouble, DividesLogical};

use crate::numbers::{doubleword, number, word};
use crate::{DivideFault, Width};

/// Remainder and quotient, in this order, of a doubleword by a word, both with a sign: DR. The quotient is
/// rounded toward zero, and a remainder that is not zero has the dividend's sign. The condition code is
/// unchanged.
///
/// The fault comes exactly where the divisor is 0 or the quotient does not fit a word.
#[tactic(auto, unfolding(crate::specs::Quotient::divide_word_of))]
pub fn divide_word(dividend: u64, divisor: u32) -> Result<(u32, u32), DivideFault>
    ensures value { result ≡ divide_word_of dividend divisor }
    ensures division { IfOk result (DividesWord dividend divisor) }
{
    let n = number(Width::Double, dividend);
    let d = i64::from(divisor.cast_signed());
    let exact = n.checked_div(d).ok_or(DivideFault)?;
    if i32::try_from(exact).is_err() {
        return Err(DivideFault);
    }
    Ok((word(n % d), word(exact)))
}

/// Remainder and quotient, in this order, of two doublewords with a sign: DSGR. The quotient is rounded
/// toward zero, and a remainder that is not zero has the dividend's sign. The condition code is unchanged.
///
/// The fault comes exactly where the divisor is 0 or the quotient does not fit a doubleword, which is the
/// lowest number by -1.
#[tactic(auto, unfolding(crate::specs::Quotient::divide_double_of))]
pub fn divide_double(dividend: u64, divisor: u64) -> Result<(u64, u64), DivideFault>
    ensures value { result ≡ divide_double_of dividend divisor }
    ensures division { IfOk result (DividesDouble dividend divisor) }
{
    let n = number(Width::Double, dividend);
    let d = number(Width::Double, divisor);
    let quotient = n.checked_div(d).ok_or(DivideFault)?;
    Ok((doubleword(n % d), doubleword(quotient)))
}

/// Remainder and quotient, in this order, of numbers without a sign: DLGR. The dividend has 128 bits, of
/// which `high` is the left doubleword and `low` the right one. The condition code is unchanged.
///
/// The fault comes exactly where the divisor is 0 or the quotient does not fit a doubleword.
#[tactic(auto, unfolding(crate::specs::Quotient::divide_logical_of, crate::specs::Quotient::DividesLogical))]
pub fn divide_logical(high: u64, low: u64, divisor: u64) -> Result<(u64, u64), DivideFault>
    ensures value { result ≡ divide_logical_of high low divisor }
    ensures division { IfOk result (DividesLogical high low divisor) }
{
    // The quotient fits exactly where the left doubleword is below the divisor.
    if high >= divisor {
        return Err(DivideFault);
    }
    let n = (u128::from(high) << 64) + u128::from(low);
    let d = u128::from(divisor);
    Ok(((n % d) as u64, (n / d) as u64))
}
