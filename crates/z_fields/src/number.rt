//! Decimal numbers.
ghost use Rattle.std.specs.Prelude.{◌≡◌, ◌+◌, ◌*◌, ◌<◌, ◌≤◌, ◌^◌, length, Option, Some, None, nat_lt};
ghost use Rattle.std.specs.Prelude.{if◌then◌else◌};
ghost use Rattle.z_text.specs.Numbers.{number_in};
ghost use Rattle.z_fields.specs.Schedule.{decimal};

/// The number behind one more digit, where it fits.
fn with_digit(number: u64, digit: u32) -> Option<u64>
    ensures { result ≡ (if nat_lt (number * 10 + digit) (2 ^ 64) then Some (number * 10 + digit) else None) }
{
    let sum = u128::from(number) * 10 + u128::from(digit);
    if sum <= u128::from(u64::MAX) {
        Some(sum as u64)
    } else {
        None
    }
}

/// The number below 2^64 that decimal digits stand for, if they are digits and it fits; 0 where there is
/// none.
#[tactic(auto, using(crate::proofs::Numbers::steps))]
pub(crate) fn number_in(digits: &[u8]) -> Option<u64>
    ensures { result ≡ number_in 10 digits.now }
{
    let mut number = 0u64;
    for b in digits {
        let digit = char::from(*b).to_digit(10)?;
        number = with_digit(number, digit)?;
    }
    Some(number)
}

/// The number below 2^64 of at least one decimal digit.
pub(crate) fn decimal(digits: &[u8]) -> Option<u64>
    ensures { result ≡ decimal digits.now }
{
    match digits {
        [] => None,
        _ => number_in(digits),
    }
}
