//! The longest expression at a place among tokens: where it ends, and its exact value.
ghost use Rattle.std.specs.Prelude.{◌≡◌, ◌<◌, ◌≤◌, length, IfOk, IfSome, IsTrue};
ghost use Rattle.z_regs.specs.Prefix.{storage_size};
ghost use Rattle.z_text.specs.Tokens.{AreTokensIn};
ghost use Rattle.z_text.specs.Expressions.{is_sign, is_term, begins_term, begins_signed_term};
ghost use Rattle.z_text.specs.Expressions.{signed_terms_size, expression_size, end_of, expression_of};
ghost use Rattle.z_text.specs.Expressions.{IsLongest, HasCause};

use crate::labels::Labels;
use crate::sum::sum_of;
use crate::token::{ExprFault, Token, TokenKind};

pub(crate) fn is_sign(kind: TokenKind) -> bool
    ensures { result ≡ is_sign kind }
{
    matches!(kind, TokenKind::Sign)
}

fn is_term(kind: TokenKind) -> bool
    ensures { result ≡ is_term kind }
{
    matches!(
        kind,
        TokenKind::Name | TokenKind::Number | TokenKind::Hex | TokenKind::Star
    )
}

fn begins_term(tokens: &[Token]) -> bool
    ensures value { result ≡ begins_term tokens.now }
    ensures some { IsTrue result → 0 < length tokens.now }
{
    match tokens {
        [] => false,
        [term, ..] => is_term(term.kind),
    }
}

fn begins_signed_term(tokens: &[Token]) -> bool
    ensures value { result ≡ begins_signed_term tokens.now }
    ensures two { IsTrue result → 1 < length tokens.now }
{
    match tokens {
        [] => false,
        [sign, rest @ ..] => is_sign(sign.kind) && begins_term(rest),
    }
}

/// How many tokens the signed terms at the front are.
#[tactic(auto, using(std::proofs::lemmas::List::take_rest, crate::proofs::Terms::size_goes_on, crate::proofs::Terms::size_ends))]
fn signed_terms_size(tokens: &[Token]) -> usize
    ensures value { result ≡ signed_terms_size tokens.now }
    ensures within { result ≤ length tokens.now }
{
    let mut size = 0;
    while begins_signed_term(&tokens[size..]) {
        size += 2;
    }
    size
}

/// How many tokens the longest expression at the front has, 0 where none begins.
#[tactic(auto, unfolding(crate::specs::Expressions::expression_size))]
fn expression_size(tokens: &[Token]) -> usize
    ensures value { result ≡ expression_size tokens.now }
    ensures within { result ≤ length tokens.now }
{
    if begins_term(tokens) {
        return 1 + signed_terms_size(&tokens[1..]);
    }
    signed_terms_size(tokens)
}

fn end_of(tokens: &[Token], at: usize) -> Option<usize>
    requires { at ≤ length tokens.now }
    ensures value { result ≡ end_of tokens.now at }
    ensures later { IfSome result (λ end. at < end) }
    ensures within { IfSome result (λ end. end ≤ length tokens.now) }
{
    match expression_size(&tokens[at..]) {
        0 => None,
        size => Some(at + size),
    }
}

/// The place after the longest expression that begins at `at`, whether or not its labels have values; `None`
/// exactly where none begins there.
pub fn expression_end(tokens: &[Token], at: usize) -> Option<usize>
    requires { at ≤ length tokens.now }
    ensures value { result ≡ end_of tokens.now at }
    ensures longest { IsLongest tokens.now at result }
    ensures later { IfSome result (λ end. at < end) }
    ensures within { IfSome result (λ end. end ≤ length tokens.now) }
{
    end_of(tokens, at)
}

#[tactic(auto, unfolding(crate::specs::Expressions::expression_of))]
fn value_at(
    text: &[u8],
    tokens: &[Token],
    at: usize,
    labels: &Labels,
    here: u64,
) -> Result<(i128, usize), ExprFault>
    requires tokens { AreTokensIn text.now tokens.now }
    requires at { at ≤ length tokens.now }
    requires here { here ≤ storage_size }
    ensures value { result ≡ expression_of text.now tokens.now at labels.now here }
    ensures later { IfOk result (λ r. at < r.1) }
    ensures within { IfOk result (λ r. r.1 ≤ length tokens.now) }
{
    let Some(end) = expression_end(tokens, at) else {
        return Err(ExprFault::BadToken);
    };
    match sum_of(text, &tokens[at..end], labels, here) {
        Some(value) => Ok((value, end)),
        None => Err(ExprFault::UnknownLabel),
    }
}

/// The value of the longest expression that begins at `at`, and the place after it.
///
/// An expression is a term or a signed term, and behind it signed terms. A term is a number, a label or an
/// asterisk, which stands for `here`. The sum is exact. [`ExprFault::BadToken`] comes exactly where no
/// expression begins at `at`, else [`ExprFault::UnknownLabel`] exactly where the expression has a label
/// without a value.
pub fn expression(
    text: &[u8],
    tokens: &[Token],
    at: usize,
    labels: &Labels,
    here: u64,
) -> Result<(i128, usize), ExprFault>
    requires tokens { AreTokensIn text.now tokens.now }
    requires at { at ≤ length tokens.now }
    requires here { here ≤ storage_size }
    ensures value { result ≡ expression_of text.now tokens.now at labels.now here }
    ensures cause { HasCause text.now tokens.now at labels.now result }
    ensures later { IfOk result (λ r. at < r.1) }
    ensures within { IfOk result (λ r. r.1 ≤ length tokens.now) }
{
    value_at(text, tokens, at, labels, here)
}
