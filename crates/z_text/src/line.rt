//! The tokens of a line.
ghost use Rattle.std.specs.Prelude.{◌≡◌, ◌<◌, ◌≤◌, ◌↔◌, ◌++◌, ◌+◌, false, length, All, IfOk, OnOk, Option, Some};
ghost use Rattle.std.specs.Prelude.{None, take, IsTrue, []};
ghost use Rattle.std.specs.List.{list_all};
ghost use Rattle.z_text.specs.Line.{as_read, fields_of};
ghost use Rattle.z_text.specs.Tokens.{tokens_of, split_of, operands_of, has_bad_head, head_of};
ghost use Rattle.z_text.specs.Tokens.{is_good_number, Gives, LiesIn, AreTokensIn, FillOperands};
ghost use Rattle.z_text.specs.Splits.{HasHead, GivesSplit, HasOperands};

use crate::fields::{Fields, are_printed, fields_of, is_name, keeps_operands_whole, says_nothing};
use crate::number::number_of;
use crate::scan::split;
use crate::token::{TextFault, Token, TokenKind};
use std::alloc::Global;

#[tactic(auto, unfolding(crate::specs::Tokens::has_bad_head))]
fn has_bad_head(line: &[u8], parts: Fields) -> bool
    requires label { parts.label_end ≤ parts.operation }
    requires operation { parts.operation ≤ parts.operation_end }
    requires within { parts.operation_end ≤ length line.now }
    ensures value { result ≡ has_bad_head line.now parts }
    ensures label_size { result ≡ false → parts.label_end ≤ 16 }
    ensures some { result ≡ false → parts.operation < parts.operation_end }
    ensures operation_size { result ≡ false → parts.operation_end ≤ parts.operation + 16 }
{
    if parts.label_end != 0 && !is_name(&line[..parts.label_end]) {
        return true;
    }
    !is_name(&line[parts.operation..parts.operation_end])
}

fn name_token(first: usize, end: usize) -> Token
    ensures { result ≡ record { first = first; end = end; kind = TokenKind.Name } }
{
    Token {
        first,
        end,
        kind: TokenKind::Name,
    }
}

/// Pushes the label, where there is one, and the operation.
fn push_head(tokens: &mut Vec<Token>, parts: Fields) -> Result<(), TextFault>
    requires { tokens.old.items ≡ [] }
    ensures { HasHead parts tokens.new.items result }
{
    if parts.label_end != 0 {
        tokens.push(name_token(0, parts.label_end))?;
        tokens.push(name_token(parts.operation, parts.operation_end))?;
        return Ok(());
    }
    tokens.push(name_token(parts.operation, parts.operation_end))?;
    Ok(())
}

/// Pushes the tokens of the operands, but for DC and SCHED.
#[tactic(auto, unfolding(crate::specs::Tokens::operands_of))]
fn operands(tokens: &mut Vec<Token>, line: &[u8], parts: Fields) -> Result<(), TextFault>
    requires operation { parts.operation ≤ parts.operation_end }
    requires between { parts.operation_end ≤ parts.operands }
    requires operands { parts.operands ≤ parts.operands_end }
    requires within { parts.operands_end ≤ length line.now }
    requires inside { All (LiesIn (length line.now)) tokens.old.items }
    requires few { length tokens.old.items ≤ parts.operands }
    ensures { HasOperands (length line.now) tokens.old.items tokens.new.items
        (operands_of line.now parts) result }
{
    if keeps_operands_whole(&line[parts.operation..parts.operation_end]) {
        if are_printed(&line[parts.operands..parts.operands_end]) {
            return Ok(());
        }
        return Err(TextFault::BadToken);
    }
    split(tokens, line, parts.operands, parts.operands_end)
}

/// Puts the tokens of a line in capitals in place of those that are there, whatever its numbers are.
#[tactic(auto, unfolding(crate::specs::Tokens::split_of))]
fn split_line(tokens: &mut Vec<Token>, line: &[u8]) -> Result<(), TextFault>
    ensures { GivesSplit (length line.now) (split_of line.now) tokens.new.items result }
{
    tokens.clear();
    if says_nothing(line) {
        return Ok(());
    }
    let parts = fields_of(line);
    if has_bad_head(line, parts) {
        return Err(TextFault::BadToken);
    }
    push_head(tokens, parts)?;
    operands(tokens, line, parts)
}

/// Whether no byte is a small letter.
#[tactic(auto, using(crate::proofs::Capitals::read_as_it_is))]
fn is_in_capitals(text: &[u8]) -> bool
    ensures { IsTrue result → as_read text.now ≡ text.now }
{
    text.iter().all(|b| !b.is_ascii_lowercase())
}

/// Puts the tokens of the line in capitals in place of those that are there.
fn split_capitals(tokens: &mut Vec<Token>, text: &[u8]) -> Result<(), TextFault>
    requires { length text.now ≤ 120 }
    ensures { GivesSplit (length text.now) (split_of (as_read text.now)) tokens.new.items result }
{
    let mut buffer = [0u8; 120];
    let capitals = &mut buffer[..text.len()];
    capitals.copy_from_slice(text);
    capitals.make_ascii_uppercase();
    split_line(tokens, capitals)
}

/// Puts the tokens of the line, small letters read as capitals, in place of those that are there.
fn split_text(tokens: &mut Vec<Token>, text: &[u8]) -> Result<(), TextFault>
    requires { length text.now ≤ 120 }
    ensures { GivesSplit (length text.now) (split_of (as_read text.now)) tokens.new.items result }
{
    if is_in_capitals(text) {
        return split_line(tokens, text);
    }
    split_capitals(tokens, text)
}

#[tactic(auto, unfolding(crate::specs::Tokens::is_good_number))]
fn is_good_number(text: &[u8], token: Token) -> bool
    requires { LiesIn (length text.now) token }
    ensures { result ≡ is_good_number text.now token }
{
    match token.kind {
        TokenKind::Number | TokenKind::Hex => number_of(
            token.kind,
            &text[token.first..token.end],
        ).is_some(),
        _ => true,
    }
}

fn are_good_numbers(text: &[u8], tokens: &[Token]) -> bool
    requires { All (LiesIn (length text.now)) tokens.now }
    ensures { result ≡ list_all (is_good_number text.now) tokens.now }
{
    for token in tokens {
        if !is_good_number(text, *token) {
            return false;
        }
    }
    true
}

/// Puts the tokens of a line in place of those that are there, so that the same room serves for line after
/// line. What they are, and the faults, are those of [`tokens`]. Where there is a fault, nothing is said of the
/// tokens that are left.
#[tactic(auto, unfolding(crate::specs::Tokens::tokens_of))]
pub fn read_tokens(text: &[u8], tokens: &mut Vec<Token>) -> Result<(), TextFault>
    ensures value { Gives (λ _. tokens.new.items) result (tokens_of text.now) }
    ensures inside { OnOk result (AreTokensIn text.now tokens.new.items) }
    ensures too_long { (result ≡ Err TextFault.LineTooLong) ↔ (120 < length text.now) }
{
    if 120 < text.len() {
        return Err(TextFault::LineTooLong);
    }
    split_text(tokens, text)?;
    if !are_good_numbers(text, tokens) {
        return Err(TextFault::BadNumber);
    }
    Ok(())
}

/// The tokens of a line, in order.
///
/// The text is one line without its line end. It begins with a label or with a blank; then come blanks, the
/// operation, blanks, and the operands up to a blank. Blanks separate tokens. What follows the operands is a
/// remark and is not read. The operands of DC and SCHED give no tokens; those of other lines are filled by
/// theirs. Small letters are read as capitals. A line that is empty, all blanks, or begins with an asterisk
/// has no tokens.
///
/// The first fault in this order is the answer: [`TextFault::LineTooLong`] above 120 bytes;
/// [`TextFault::BadToken`] anywhere in the line; [`TextFault::BadNumber`] anywhere in the line.
/// [`TextFault::Memory`] may come at any line that is not too long.
pub fn tokens(alloc: Global, text: &[u8]) -> Result<Vec<Token>, TextFault>
    ensures value { Gives (λ v. v.items) result (tokens_of text.now) }
    ensures inside { IfOk result (λ v. AreTokensIn text.now v.items) }
    ensures too_long { (result ≡ Err TextFault.LineTooLong) ↔ (120 < length text.now) }
    ensures filled { IfOk result (λ v. FillOperands (as_read text.now) v.items) }
{
    let mut tokens = Vec::new(alloc);
    read_tokens(text, &mut tokens)?;
    Ok(tokens)
}
