//! Diagnostic blocks that are still to be stored.
ghost use Rattle.std.specs.Prelude.{◌≡◌};
ghost use Rattle.tx_serial.specs.Remains.{pending_after as pends_after};
ghost use Rattle.tx_cpu.specs.Blocks.{pending_of};

/// A diagnostic block that is still to be stored.
#[derive(Clone, Copy)]
pub struct Block {
    /// Its real address.
    pub address: u64,
    /// Its bytes.
    pub bytes: [u8; 256],
}

/// The block becomes pending where the outermost begin names one.
pub fn pending_after(address: Option<u64>, bytes: [u8; 256]) -> Option<Block>
    ensures { pending_of result ≡ pends_after address bytes }
{
    let address = address?;
    Some(Block { address, bytes })
}
