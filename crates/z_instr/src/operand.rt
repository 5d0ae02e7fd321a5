//! The operands in storage, and what an operation demands of its fields and operands.
ghost use Rattle.std.specs.Prelude.{◌≡◌, ◌<◌};
ghost use Rattle.z_instr.specs.Operands.{bytes_of};

/// The bytes of one item in storage.
#[derive(Clone, Copy, PartialEq, Eq)]
pub enum Size {
    Byte,
    Halfword,
    Word,
    Doubleword,
}

impl Size {
    /// How many bytes the item has: 1, 2, 4 or 8.
    pub fn bytes(self) -> u8
        ensures count { result ≡ bytes_of self }
        ensures few { result < 9 }
    {
        match self {
            Size::Byte => 1,
            Size::Halfword => 2,
            Size::Word => 4,
            Size::Doubleword => 8,
        }
    }
}

/// Which operands in storage an operation touches. Those of one address stand at the first address of
/// the instruction.
#[derive(Clone, Copy, PartialEq, Eq)]
pub enum Operands {
    /// None.
    Absent,
    /// One item, fetched.
    Fetched(Size),
    /// One item, stored; it may be read too.
    Stored(Size),
    /// An item for each register from R1 up to R3, 0 after 15; fetched.
    FetchedMany(Size),
    /// An item for each register from R1 up to R3, 0 after 15; stored.
    StoredMany(Size),
    /// A doubleword, fetched, where the mask selects the condition code; else none.
    FetchedSelected,
    /// A doubleword, stored, where the mask selects the condition code; else none.
    StoredSelected,
    /// As many bytes at both addresses as the length code says and one; the first operand is stored, the
    /// second fetched.
    StoredAndFetched,
    /// As many bytes at both addresses as the length code says and one, fetched.
    BothFetched,
}

/// What an operation demands before it is executed, and which exception comes where it is not met.
#[derive(Clone, Copy, PartialEq, Eq)]
pub enum Demand {
    /// Nothing.
    Nothing,
    /// R1 is even, since it names a pair of registers: else specification.
    EvenPair,
    /// The operand stands on a boundary of its own size: else specification.
    Boundary,
    /// A transaction is there, else special operation; and the address is above 255, else specification.
    AbortCode,
    /// The filtering control is no 3, and a block that is named stands on a doubleword boundary: else
    /// specification. At depth 0 that block has to be accessible, and storable.
    Begin,
    /// No block is named: else specification.
    BeginConstrained,
    /// The immediate is 0: else operation, after all other tests.
    ServiceZero,
}
