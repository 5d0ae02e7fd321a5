//! What holds of the listings that the disassembler and the generator write. Each law is the contract of a
//! function that does nothing.
ghost use Rattle.std.specs.Prelude.{ℕ};
ghost use Rattle.z_instr.specs.declared.instr.Instr.{Instr};
ghost use Rattle.z_assemble.specs.Whole.{FirstFault};
ghost use Rattle.z_assemble.specs.declared.fault.ListingFault.{ListingFault};
ghost use Rattle.tx_gen.specs.Programs.{listing_of};
ghost use Rattle.listing_laws.specs.Generated.{HasImage};
ghost use Rattle.listing_laws.specs.Printed.{TakesAgain, GivesBack};

/// The assembler reads an instruction's printed line as that instruction again: for every row of the table
/// and all fields, at every address of storage.
pub fn printed_lines_are_read_back()
    ensures operation { (i : Instr) → TakesAgain i }
    ensures bytes { (i : Instr) → GivesBack i }
{}

/// Every listing that the generator writes stands for an image, and has no fault.
pub fn generated_listings_have_images()
    ensures image { (number : ℕ) → HasImage (listing_of number) }
    ensures no_fault { (number : ℕ) (f : ListingFault) → FirstFault (listing_of number) f → ⊥ }
{}
