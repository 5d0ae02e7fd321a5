//! What the reading of one line leaves room for.
use std::alloc::Global;
use z_operands::Room;
use z_text::Token;

/// Room for the tokens and the operands of a line, which serves for line after line.
#[derive(Drop)]
pub struct Reading {
    /// The tokens of the line that was read last.
    pub tokens: Vec<Token>,
    /// Its operands.
    pub room: Room,
}

impl Reading {
    /// Room for the first line.
    pub fn new(alloc: Global) -> Reading {
        Reading {
            tokens: Vec::new(alloc),
            room: Room::new(alloc),
        }
    }
}
