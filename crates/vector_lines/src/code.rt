//! The bytes of one instruction.
ghost use Rattle.std.specs.Prelude.{◌≡◌, length, slice_index, IfSome, IfNone};
ghost use Rattle.z_instr.specs.Layout.{length_by};

use crate::fault::Fault;
use crate::numbers::bytes_of;
use std::alloc::Global;
use z_decode::{decode, length_of};
use z_instr::instr::Instr;

/// Bytes, as many as their first one says that an instruction has.
#[derive(Drop)]
pub struct Code {
    bytes: Vec<u8>,
    ghost whole: { length bytes.items ≡ length_by (slice_index bytes.items 0) },
}

impl Code {
    ghost use Rattle.z_instr.specs.Reading.{Reads};
    ghost use Rattle.z_instr.specs.declared.instr.Instr.{Instr};

    /// The bytes that hexadecimal digits write.
    pub fn read(alloc: Global, text: &str) -> Result<Code, Fault> {
        let bytes = bytes_of(alloc, text)?;
        match bytes.first() {
            Some(first) if bytes.len() == usize::from(length_of(*first)) => Ok(Code { bytes }),
            _ => Err(Fault::Malformed),
        }
    }

    /// The bytes.
    pub fn as_slice(&self) -> &[u8]
        ensures { result.now ≡ self.now.bytes.items }
    {
        self.bytes.as_slice()
    }

    /// The number of bytes: 2, 4 or 6.
    pub fn length(&self) -> u8
        ensures { result ≡ length_by (slice_index self.now.bytes.items 0) }
    {
        self.bytes.len() as u8
    }

    /// The instruction that the bytes read as, if any.
    pub fn instr(&self) -> Option<Instr>
        ensures found { IfSome result (λ i. Reads self.now.bytes.items i) }
        ensures none { IfNone result ((i : Instr) → Reads self.now.bytes.items i → ⊥) }
    {
        decode(self.bytes.as_slice()).ok()
    }
}
