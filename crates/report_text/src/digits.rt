//! Numbers as text, at the end of a text.
ghost use Rattle.std.specs.Prelude.{◌≡◌, ◌++◌, ◌<◌, ◌≤◌, OnOk, length, false};
ghost use Rattle.std.specs.Fmt.{decimal, digit_glyph};
ghost use Rattle.hex.specs.Hex.{encode_lower};
ghost use Rattle.report_text.specs.Digits.{labelled, number_line, digit_text, halfword_text, word_text};
ghost use Rattle.report_text.specs.Digits.{doubleword_text};

use std::alloc::AllocError;

/// Adds a number in decimal.
pub fn add_number(text: &mut Vec<u8>, number: u64) -> Result<(), AllocError>
    ensures { OnOk result (text.new.items ≡ text.old.items ++ decimal number) }
{
    let mut digits = itoa::Buffer::new();
    text.extend_from_slice(digits.format(number).as_bytes())
}

/// Adds a label and a number in decimal.
#[tactic(auto, unfolding(crate::specs::Digits::labelled))]
pub fn add_labelled(text: &mut Vec<u8>, label: &[u8], number: u64) -> Result<(), AllocError>
    ensures { OnOk result (text.new.items ≡ text.old.items ++ labelled label.now number) }
{
    text.extend_from_slice(label)?;
    add_number(text, number)
}

/// Adds a line of a label and a number.
#[tactic(auto, unfolding(crate::specs::Digits::number_line))]
pub fn add_number_line(text: &mut Vec<u8>, label: &[u8], number: u64) -> Result<(), AllocError>
    ensures { OnOk result (text.new.items ≡ text.old.items ++ number_line label.now number) }
{
    add_labelled(text, label, number)?;
    text.extend_from_slice(b"\n")
}

/// Adds up to sixteen bytes in hexadecimal.
pub fn add_bytes(text: &mut Vec<u8>, bytes: &[u8]) -> Result<(), AllocError>
    requires { length bytes.now ≤ 16 }
    ensures { OnOk result (text.new.items ≡ text.old.items ++ encode_lower bytes.now) }
{
    let mut room = [0u8; 32];
    let digits = &mut room[..2 * bytes.len()];
    match hex::encode_to_slice(bytes, digits) {
        Ok(()) => text.extend_from_slice(digits),
        Err(_) => unreachable!(),
    }
}

/// Adds a halfword as four hexadecimal digits.
pub fn add_halfword(text: &mut Vec<u8>, value: u16) -> Result<(), AllocError>
    ensures { OnOk result (text.new.items ≡ text.old.items ++ halfword_text value) }
{
    let mut digits = [0u8; 4];
    match hex::encode_to_slice(value.to_be_bytes(), &mut digits) {
        Ok(()) => text.extend_from_slice(&digits),
        Err(_) => unreachable!(),
    }
}

/// Adds a word as eight hexadecimal digits.
pub fn add_word(text: &mut Vec<u8>, value: u32) -> Result<(), AllocError>
    ensures { OnOk result (text.new.items ≡ text.old.items ++ word_text value) }
{
    let mut digits = [0u8; 8];
    match hex::encode_to_slice(value.to_be_bytes(), &mut digits) {
        Ok(()) => text.extend_from_slice(&digits),
        Err(_) => unreachable!(),
    }
}

/// Adds a doubleword as sixteen hexadecimal digits.
pub fn add_doubleword(text: &mut Vec<u8>, value: u64) -> Result<(), AllocError>
    ensures { OnOk result (text.new.items ≡ text.old.items ++ doubleword_text value) }
{
    let mut digits = [0u8; 16];
    match hex::encode_to_slice(value.to_be_bytes(), &mut digits) {
        Ok(()) => text.extend_from_slice(&digits),
        Err(_) => unreachable!(),
    }
}

/// The digit of a number below sixteen.
fn digit(value: u8) -> u8
    requires { value < 16 }
    ensures { result ≡ digit_glyph false value }
{
    if value < 10 {
        b'0' + value
    } else {
        b'a' + (value - 10)
    }
}

/// Adds a number below sixteen as one hexadecimal digit.
pub fn add_digit(text: &mut Vec<u8>, value: u8) -> Result<(), AllocError>
    requires { value < 16 }
    ensures { OnOk result (text.new.items ≡ text.old.items ++ digit_text value) }
{
    text.extend_from_slice(&[digit(value)])
}
