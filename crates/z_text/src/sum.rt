//! The sum of the terms of an expression.
ghost use Rattle.std.specs.Prelude.{◌≡◌, ◌∷◌, ◌+◌, ◌-◌, ◌*◌, ◌<◌, ◌≤◌, ◌^◌, pos, negsuc, ◌≤ℤ◌, ◌+ℤ◌, ◌-ℤ◌};
ghost use Rattle.std.specs.Prelude.{List, length, drop, All, IfSome, Option, Bool, false, if◌then◌else◌};
ghost use Rattle.std.specs.Prelude.{slice_index, ◌==◌, option_map};
ghost use Rattle.z_regs.specs.Prefix.{storage_size};
ghost use Rattle.z_text.specs.Labels.{value_in};
ghost use Rattle.z_text.specs.Line.{as_read};
ghost use Rattle.z_text.specs.Numbers.{number_of};
ghost use Rattle.z_text.specs.Tokens.{LiesIn};
ghost use Rattle.z_text.specs.Expressions.{is_sign, term_value, sum_of, IsNear, total, total_after};
ghost use Rattle.z_text.specs.declared.token.Token.{Token};

use crate::expressions::is_sign;
use crate::labels::Labels;
use crate::number::number_of;
use crate::running::RunningSum;
use crate::token::{Token, TokenKind};

/// The value of the label, whose name is read in capitals.
fn label_value(name: &[u8], labels: &Labels) -> Option<i128>
    requires { length name.now ≤ 16 }
    ensures value { result ≡ value_in labels.now (as_read name.now) }
    ensures near { IfSome result IsNear }
{
    let mut buffer = [0u8; 16];
    let capitals = &mut buffer[..name.len()];
    capitals.copy_from_slice(name);
    capitals.make_ascii_uppercase();
    labels.value(capitals)
}

fn number_value(kind: TokenKind, text: &[u8]) -> Option<i128>
    ensures value { result ≡ option_map pos (number_of kind text.now) }
    ensures near { IfSome result IsNear }
{
    number_of(kind, text).map(i128::from)
}

/// The value of a term, if it has one.
#[tactic(auto, unfolding(crate::specs::Expressions::term_value))]
fn term_value(text: &[u8], token: Token, labels: &Labels, here: u64) -> Option<i128>
    requires inside { LiesIn (length text.now) token }
    requires here { here ≤ storage_size }
    ensures value { result ≡ term_value text.now labels.now here token }
    ensures near { IfSome result IsNear }
{
    let term = &text[token.first..token.end];
    match token.kind {
        TokenKind::Number | TokenKind::Hex => number_value(token.kind, term),
        TokenKind::Name => label_value(term, labels),
        TokenKind::Star => Some(i128::from(here)),
        _ => None,
    }
}

/// The sum with one more value, by the sign before it.
fn with_value(sum: RunningSum, value: i128) -> RunningSum
    requires low { negsuc (2 ^ 72) ≤ℤ sum.value }
    requires high { sum.value ≤ℤ pos (2 ^ 72) }
    requires near { IsNear value }
    ensures value { result.value ≡ (if sum.negative then sum.value -ℤ value else sum.value +ℤ value) }
    ensures negative { result.negative ≡ false }
{
    if sum.negative {
        RunningSum {
            value: sum.value - value,
            negative: false,
        }
    } else {
        RunningSum {
            value: sum.value + value,
            negative: false,
        }
    }
}

/// The sum with one more token, a sign or a term; `None` at a label without a value.
#[tactic(auto, unfolding(crate::specs::Expressions::sum_of))]
fn with_token(
    sum: RunningSum,
    text: &[u8],
    token: Token,
    labels: &Labels,
    here: u64,
) -> Option<RunningSum>
    requires low { negsuc (2 ^ 72) ≤ℤ sum.value }
    requires high { sum.value ≤ℤ pos (2 ^ 72) }
    requires inside { LiesIn (length text.now) token }
    requires here { here ≤ storage_size }
    ensures total { (rest : List Token) → total text.now labels.now here sum (token ∷ rest) ≡
        total_after text.now labels.now here result rest }
    ensures low_step { IfSome result (λ s. (sum.value +ℤ negsuc (2 ^ 64 - 1)) ≤ℤ s.value) }
    ensures high_step { IfSome result (λ s. s.value ≤ℤ (sum.value +ℤ pos (2 ^ 64))) }
{
    if is_sign(token.kind) {
        return Some(RunningSum {
            value: sum.value,
            negative: text[token.first] == b'-',
        });
    }
    let value = term_value(text, token, labels, here)?;
    Some(with_value(sum, value))
}

/// The exact sum of the terms among these tokens, each with the sign before it; `None` where a label has no
/// value.
pub(crate) fn sum_of(text: &[u8], tokens: &[Token], labels: &Labels, here: u64) -> Option<i128>
    requires inside { All (LiesIn (length text.now)) tokens.now }
    requires few { length tokens.now ≤ 120 }
    requires here { here ≤ storage_size }
    ensures { result ≡ sum_of text.now labels.now here false tokens.now }
{
    let mut sum = RunningSum {
        value: 0,
        negative: false,
    };
    for token in tokens {
        sum = with_token(sum, text, *token, labels, here)?;
    }
    Some(sum.value)
}
