//! The text of the listing, line by line: tokens, labels and expressions.
#![tactic(auto)]

mod expected;
mod expressions;
mod fields;
mod key;
mod labels;
mod line;
mod number;
mod running;
mod scan;
mod sum;
mod token;
mod value;

pub use expressions::{expression, expression_end};
pub use key::key_in_front;
pub use labels::Labels;
pub use line::{read_tokens, tokens};
pub use token::{ExprFault, TextFault, Token, TokenKind};
pub use z_regs::NoMemory;
