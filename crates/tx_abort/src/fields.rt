//! Where the fields of the diagnostic block stand.
ghost use Rattle.std.specs.Prelude.{◌≡◌, ◌<◌, ◌≤◌, ◌+◌, ◌*◌, ◌^◌};
ghost use Rattle.tx_abort.specs.Block.{field};
ghost use Rattle.tx_abort.specs.Writes.{with_field};

use byteorder::{BigEndian, ByteOrder};

/// The bytes of a diagnostic block.
pub const BLOCK_SIZE: usize = 256;

/// Some bytes of the block that hold one number, its leftmost byte first.
#[derive(Clone, Copy)]
pub struct Place {
    /// The position of the first byte.
    pub first: usize,
    /// The number of bytes.
    pub length: usize,
}

/// The format of the block.
pub const FORMAT: Place = Place {
    first: 0,
    length: 1,
};

/// The flags.
pub const FLAGS: Place = Place {
    first: 1,
    length: 1,
};

/// The nesting depth.
pub const DEPTH: Place = Place {
    first: 6,
    length: 2,
};

/// The abort code.
pub const CODE: Place = Place {
    first: 8,
    length: 8,
};

/// The conflict token.
pub const TOKEN: Place = Place {
    first: 16,
    length: 8,
};

/// The address of the aborted program.
pub const ADDRESS: Place = Place {
    first: 24,
    length: 8,
};

/// The length of the instruction that met an exception.
pub const INSTRUCTION_LENGTH: Place = Place {
    first: 37,
    length: 1,
};

/// The code of the exception.
pub const EXCEPTION: Place = Place {
    first: 38,
    length: 2,
};

/// General register 0, behind which the others follow.
pub const REGISTERS: Place = Place {
    first: 128,
    length: 8,
};

#[tactic(auto, unfolding(crate::specs::Writes::with_field))]
impl Place {
    /// The place of the same length behind `count` others.
    pub fn behind(self, count: usize) -> Place
        requires { self.first + count * self.length < 2 ^ 64 }
        ensures first { result.first ≡ self.first + count * self.length }
        ensures length { result.length ≡ self.length }
    {
        Place {
            first: self.first + count * self.length,
            length: self.length,
        }
    }

    /// Writes the number there.
    pub fn put(self, block: &mut [u8; BLOCK_SIZE], value: u64)
        requires some { 1 ≤ self.length }
        requires few { self.length ≤ 8 }
        requires inside { self.first + self.length ≤ BLOCK_SIZE }
        requires fits { value < 256 ^ self.length }
        ensures { block.new ≡ with_field (field self.first self.length value) block.old }
    {
        BigEndian::write_uint(&mut block[self.first..], value, self.length);
    }
}
