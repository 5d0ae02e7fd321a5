//! Lines that tell whose an operation is.

use crate::words::Words;
use vector_lines::Fault;
use z_instr::kind::{Kind, Transaction};
use z_instr::lookup::{find, kind_of};
use z_instr::op::Op;

/// What an operation about transactions is.
fn name_of(operation: Transaction) -> &'static str {
    match operation {
        Transaction::Begin => "a begin",
        Transaction::BeginConstrained => "a constrained begin",
        Transaction::End => "an end",
        Transaction::Abort => "an abort",
        Transaction::ExtractDepth => "an extraction of the depth",
        Transaction::StoreLasting => "a lasting store",
        Transaction::Assist => "an assist",
    }
}

/// What an operation about transactions is; nothing for all others.
fn role_of(kind: Kind) -> &'static str {
    match kind {
        Kind::Transaction(operation) => name_of(operation),
        _ => "",
    }
}

/// Words where they hold, and else none.
fn where_so(holds: bool, words: &'static str) -> &'static str {
    if holds { words } else { "" }
}

/// Every crate that takes an operation for its own, and what the operation is, if it is about transactions.
fn owners(op: Op) -> [&'static str; 4] {
    [
        where_so(z_general::is_mine(op), "of z_general"),
        where_so(z_branch::is_mine(op), "of z_branch"),
        where_so(z_storage::is_mine(op), "of z_storage"),
        role_of(kind_of(op)),
    ]
}

/// Whether a text is just these words.
fn are_all(words: &[&str; 4], text: &str) -> bool {
    let mut rest = text;
    for word in words {
        match rest.strip_prefix(*word) {
            Some(further) => rest = further,
            None => return false,
        }
    }
    rest.is_empty()
}

/// Adds what differs where an operation is not just this; nothing where it is.
pub fn add_kind(words: &mut Words, name: &str, kind: &str) -> Result<(), Fault> {
    let Some(op) = find(name.as_bytes()) else {
        return Err(Fault::Malformed);
    };
    let ours = owners(op);
    if !are_all(&ours, kind) {
        words.add("is ");
        for word in &ours {
            words.add(*word);
        }
        words.add(", not ");
        words.add(kind);
    }
    Ok(())
}
