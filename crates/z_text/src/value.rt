//! What a label may have as its value.
ghost use Rattle.std.specs.Prelude.{◌≡◌, ◌^◌, ◌-◌, pos, negsuc, ◌≤ℤ◌, ◌<ℤ◌};
ghost use Rattle.std.specs.Int.{w64, from_be_bytes};
ghost use Rattle.z_text.specs.Value.{value_from};

/// A label's value, from -2^63 to 2^64 - 1, in nine bytes.
#[derive(Clone, Copy, Debug)]
pub(crate) struct LabelValue {
    /// Whether it is below 0.
    negative: bool,
    /// How far it is from 0, or where it is below 0 from -1, with the high byte first.
    bytes: [u8; 8],
    ghost low: { negsuc (2 ^ 63 - 1) ≤ℤ value_from negative bytes },
    ghost high: { value_from negative bytes ≤ℤ pos (2 ^ 64 - 1) },
}

/// How far a value is from -1.
fn distance_below(value: i128) -> u64
    requires low { negsuc (2 ^ 63 - 1) ≤ℤ value }
    requires negative { value <ℤ pos 0 }
    ensures { negsuc result ≡ value }
{
    (-1 - value) as u64
}

/// The bytes of a number, from which it is read back.
fn bytes_of(number: u64) -> [u8; 8]
    ensures { from_be_bytes w64 result ≡ number }
{
    number.to_be_bytes()
}

impl LabelValue {
    ghost use Rattle.z_text.specs.Labels.{value_of};

    pub(crate) fn new(value: i128) -> LabelValue
        requires low { negsuc (2 ^ 63 - 1) ≤ℤ value }
        requires high { value ≤ℤ pos (2 ^ 64 - 1) }
        ensures { value_of result ≡ value }
    {
        if value < 0 {
            return LabelValue {
                negative: true,
                bytes: bytes_of(distance_below(value)),
            };
        }
        LabelValue {
            negative: false,
            bytes: bytes_of(value as u64),
        }
    }

    pub(crate) fn value(self) -> i128
        ensures { result ≡ value_of self }
    {
        let distance = i128::from(u64::from_be_bytes(self.bytes));
        if self.negative {
            -1 - distance
        } else {
            distance
        }
    }
}
