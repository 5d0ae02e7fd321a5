//! Lines that are no commands.
ghost use Rattle.std.specs.Prelude.{◌≡◌, IfOk, string_bytes};
ghost use Rattle.step_words.specs.Words.{fault_line};

use std::alloc::{AllocError, Global};

/// Why commands were not read.
#[derive(Clone, Copy, Debug, PartialEq, Eq)]
pub enum CommandFault {
    /// There was no memory.
    Memory,
    /// The number of the first line that is neither empty nor a command, from 1 on.
    Line(u64),
}

impl From<AllocError> for CommandFault {
    ghost use Rattle.step_words.specs.declared.fault.CommandFault.TheVariants as ends;

    ghost from_gives = { λ _ e. e ≡ ends.Memory };

    fn from(_error: AllocError) -> CommandFault {
        CommandFault::Memory
    }
}

/// The line that is printed for a line that is no command, with its line end.
pub fn fault_line(alloc: Global, number: u64) -> Result<String, AllocError>
    ensures { IfOk result (λ line. string_bytes line ≡ fault_line number) }
{
    format!(in alloc; "ztx: step line {number}: bad command\n")
}
