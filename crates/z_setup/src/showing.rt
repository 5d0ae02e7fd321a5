//! What a line shows of storage.
ghost use Rattle.std.specs.Prelude.{◌≡◌};
ghost use Rattle.z_setup.specs.Machine.{has_fields};

/// What a line shows of storage.
#[derive(Clone, Copy, Debug, PartialEq, Eq)]
pub enum Showing {
    /// Bytes, by SHOW.
    Bytes,
    /// A diagnostic block, by TDB, with its fields.
    Block,
}

/// Whether fields are shown too.
pub(crate) fn has_fields(showing: Showing) -> bool
    ensures { result ≡ has_fields showing }
{
    match showing {
        Showing::Bytes => false,
        Showing::Block => true,
    }
}
