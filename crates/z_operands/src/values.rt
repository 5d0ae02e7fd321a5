//! The operands of a line and their values.
ghost use Rattle.std.specs.Prelude.{◌≡◌, ◌≤◌, ◌<◌, ◌+◌, length, drop, IfOk, OnOk, IfSome, Some, None};
ghost use Rattle.std.specs.Prelude.{if◌then◌else◌};
ghost use Rattle.z_text.specs.Labels.{value_in};
ghost use Rattle.z_text.specs.Expressions.{expression_of};
ghost use Rattle.z_text.specs.Tokens.{AreTokensIn};
ghost use Rattle.z_operands.specs.Operands.{mark_of, atom_at, atom_size, atoms_from, piece_with, piece_at};
ghost use Rattle.z_operands.specs.Operands.{goes_on_rightly, operands_from, operands_of};
ghost use Rattle.z_fields.specs.Steps.{Answers};
ghost use Rattle.z_operands.specs.Values.{value_in_line, value_there, one_in, two_in, three_in, operands_on};
ghost use Rattle.z_regs.specs.Prefix.{storage_size};

use crate::operand::{Atom, Operand, Piece};
use std::alloc::{AllocError, Global};
use z_fields::{Kind, LineFault};
use z_text::{Labels, Token, TokenKind, expression, expression_end};

fn mark_of(kind: TokenKind) -> Atom
    ensures { result ≡ mark_of kind }
{
    match kind {
        TokenKind::Open => Atom::Open,
        TokenKind::Close => Atom::Close,
        TokenKind::Comma => Atom::Comma,
        _ => Atom::Other,
    }
}

/// The value of the expression that begins at a place, if there is one.
fn value_at(line: &[u8], tokens: &[Token], at: usize, labels: &Labels, here: usize) -> Option<i128>
    requires tokens { AreTokensIn line.now tokens.now }
    requires at { at ≤ length tokens.now }
    requires here { here ≤ storage_size }
    ensures { result ≡ value_there (expression_of line.now tokens.now at labels.now here) }
{
    let (value, _) = expression(line, tokens, at, labels, here as u64).ok()?;
    Some(value)
}

/// The part at a place, and the place behind it.
fn atom_at(line: &[u8], tokens: &[Token], at: usize, labels: &Labels, here: usize) -> (Atom, usize)
    requires tokens { AreTokensIn line.now tokens.now }
    requires at { at < length tokens.now }
    requires here { here ≤ storage_size }
    ensures atom { result.0 ≡ atom_at (value_in_line line.now (value_in labels.now) here)
        (drop at tokens.now) }
    ensures end { result.1 ≡ at + atom_size (drop at tokens.now) }
    ensures later { at < result.1 }
    ensures within { result.1 ≤ length tokens.now }
{
    match expression_end(tokens, at) {
        None => (mark_of(tokens[at].kind), at + 1),
        Some(end) => (Atom::Value(value_at(line, tokens, at, labels, here)), end),
    }
}

/// Puts the parts of the operands from a token on in place of those that are there.
fn read_atoms(
    atoms: &mut Vec<Atom>,
    line: &[u8],
    tokens: &[Token],
    first: usize,
    labels: &Labels,
    here: usize,
) -> Result<(), AllocError>
    requires tokens { AreTokensIn line.now tokens.now }
    requires first { first ≤ length tokens.now }
    requires here { here ≤ storage_size }
    ensures { OnOk result (atoms.new.items ≡ atoms_from (value_in_line line.now (value_in labels.now) here) 0
        (drop first tokens.now)) }
{
    atoms.clear();
    let mut at = first;
    while at < tokens.len() {
        let (atom, end) = atom_at(line, tokens, at, labels, here);
        atoms.push(atom)?;
        at = end;
    }
    Ok(())
}

fn piece_with(outer: Option<i128>, atoms: &[Atom]) -> Option<Piece>
    ensures { result ≡ piece_with outer atoms.now }
{
    match atoms {
        [Atom::Open, Atom::Value(inner), Atom::Close, ..] => Some(Piece {
            operand: Operand::Short(outer, *inner),
            size: 4,
        }),
        [
            Atom::Open,
            Atom::Value(inner),
            Atom::Comma,
            Atom::Value(innermost),
            Atom::Close,
            ..
        ] => Some(Piece {
            operand: Operand::Full(outer, *inner, *innermost),
            size: 6,
        }),
        _ => Some(Piece {
            operand: Operand::Plain(outer),
            size: 1,
        }),
    }
}

/// The operand at the front, if there is one.
fn piece_at(atoms: &[Atom]) -> Option<Piece>
    ensures { result ≡ piece_at atoms.now }
{
    match atoms {
        [Atom::Value(outer), rest @ ..] => piece_with(*outer, rest),
        _ => None,
    }
}

fn goes_on_rightly(atoms: &[Atom]) -> bool
    ensures { result ≡ goes_on_rightly atoms.now }
{
    match atoms {
        [] => true,
        [Atom::Comma, _, ..] => true,
        _ => false,
    }
}

fn behind(atoms: &[Atom], count: usize) -> &[Atom]
    ensures { result.now ≡ drop count atoms.now }
{
    if count <= atoms.len() {
        return &atoms[count..];
    }
    &[]
}

/// Puts operands with commas between them in place of those that are there, if the parts are that.
fn read_atoms_as_operands(operands: &mut Vec<Operand>, atoms: &[Atom]) -> Result<bool, AllocError>
    ensures { IfOk result (λ formed. (if formed then Some operands.new.items else None) ≡
        operands_from 0 atoms.now) }
{
    operands.clear();
    let mut rest = atoms;
    while 0 < rest.len() {
        let Some(piece) = piece_at(rest) else {
            return Ok(false);
        };
        if !goes_on_rightly(behind(rest, piece.size)) {
            return Ok(false);
        }
        operands.push(piece.operand)?;
        rest = behind(rest, piece.size + 1);
    }
    Ok(true)
}

/// Room for the parts and the operands of a line, which serves for line after line.
#[derive(Drop)]
pub struct Room {
    /// The parts of the operands of the line that was read last.
    pub atoms: Vec<Atom>,
    /// The operands of the line that was read last.
    pub operands: Vec<Operand>,
}

impl Room {
    /// Room for the first line.
    pub fn new(alloc: Global) -> Room {
        Room {
            atoms: Vec::new(alloc),
            operands: Vec::new(alloc),
        }
    }
}

/// Leaves the operands from a token on in the room, in place of those of the line before; or this kind of fault
/// where they have no form at all.
#[tactic(auto, unfolding(crate::specs::Operands::operands_of))]
pub fn read_operands(
    room: &mut Room,
    malformed: Kind,
    line: &[u8],
    tokens: &[Token],
    first: usize,
    labels: &Labels,
    here: usize,
) -> Result<(), LineFault>
    requires tokens { AreTokensIn line.now tokens.now }
    requires here { here ≤ storage_size }
    ensures { Answers (λ _. room.new.operands.items) result (operands_on malformed line.now
        (value_in labels.now) here (drop first tokens.now)) }
{
    if tokens.len() <= first {
        room.operands.clear();
        return Ok(());
    }
    read_atoms(&mut room.atoms, line, tokens, first, labels, here)?;
    if !read_atoms_as_operands(&mut room.operands, &room.atoms)? {
        return Err(LineFault::Failed(malformed));
    }
    Ok(())
}

/// The value of one expression, or what is wrong: the form, then a label.
pub fn one_in(operands: &[Operand]) -> Result<i128, Kind>
    ensures { result ≡ one_in operands.now }
{
    match operands {
        [Operand::Plain(Some(value))] => Ok(*value),
        [Operand::Plain(None)] => Err(Kind::UnknownLabel),
        _ => Err(Kind::BadDirective),
    }
}

/// The values of two expressions, or what is wrong: the form, then a label.
pub fn two_in(operands: &[Operand]) -> Result<(i128, i128), Kind>
    ensures { result ≡ two_in operands.now }
{
    match operands {
        [Operand::Plain(Some(a)), Operand::Plain(Some(b))] => Ok((*a, *b)),
        [Operand::Plain(_), Operand::Plain(_)] => Err(Kind::UnknownLabel),
        _ => Err(Kind::BadDirective),
    }
}

/// The values of three expressions, or what is wrong: the form, then a label.
pub fn three_in(operands: &[Operand]) -> Result<(i128, i128, i128), Kind>
    ensures { result ≡ three_in operands.now }
{
    match operands {
        [
            Operand::Plain(Some(a)),
            Operand::Plain(Some(b)),
            Operand::Plain(Some(c)),
        ] => { Ok((*a, *b, *c)) }
        [Operand::Plain(_), Operand::Plain(_), Operand::Plain(_)] => Err(Kind::UnknownLabel),
        _ => Err(Kind::BadDirective),
    }
}
