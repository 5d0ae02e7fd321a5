//! What holds of every listing and of every instruction's text. Each law is the contract of a function that
//! does nothing.
ghost use Rattle.std.specs.Prelude.{◌≡◌, All};
ghost use Rattle.z_instr.specs.declared.instr.Instr.{Instr};
ghost use Rattle.tx_journal.specs.Content.{Content};
ghost use Rattle.tx_journal.specs.Image.{IsImage};
ghost use Rattle.z_list.specs.Operands.{operands_of, instruction_text};
ghost use Rattle.z_list.specs.Listing.{HasLine};

/// Each assembled instruction of an image has its line in the listing.
pub fn each_instruction_has_a_line()
    ensures { (image : Content) → IsImage image → All (HasLine image.storage) image.starts }
{}

/// An operation and its operands tell the whole instruction: no two instructions of one operation have the
/// same operands.
pub fn operands_tell_instructions()
    ensures { (i j : Instr)
        → i.op.number ≡ j.op.number → operands_of i ≡ operands_of j → i ≡ j }
{}

/// No two instructions have one text: a mnemonic and operands as the listing has them tell the whole
/// instruction.
pub fn texts_tell_instructions()
    ensures { (i j : Instr) → instruction_text i ≡ instruction_text j → i ≡ j }
{}
