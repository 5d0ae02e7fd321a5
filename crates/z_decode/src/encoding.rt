//! Bytes from instructions.
ghost use Rattle.std.specs.Prelude.{◌≡◌, ◌≤◌, take, drop};
ghost use Rattle.z_instr.specs.Table.{entry_at};
ghost use Rattle.z_instr.specs.Layout.{form_length};
ghost use Rattle.z_instr.specs.Reading.{Reads};
ghost use Rattle.z_decode.specs.Code.{zeros_after};

use crate::spell::spell;
use z_instr::instr::Instr;
use z_instr::layout::digits_of;
use z_instr::lookup::line;

/// The bytes of an instruction: the first `length` of `bytes`, which is 2, 4 or 6. The others are 0.
#[derive(Clone, Copy)]
pub struct Code {
    pub bytes: [u8; 6],
    pub length: u8,
    ghost short: { length ≤ 6 },
}

/// The only bytes that read as the instruction.
pub fn encode(instr: &Instr) -> Code
    ensures bytes { Reads (take result.length result.bytes) instr.now }
    ensures length { result.length ≡ form_length (entry_at instr.now.op.number).form }
    ensures rest { drop result.length result.bytes ≡ zeros_after result.length }
{
    let line = line(instr.op);
    let layout = digits_of(&line);
    Code {
        bytes: spell(layout, line.opcode, instr),
        length: layout.len() as u8 / 2,
    }
}
