//! Laws of one CPU. Each law is the contract of a function that does nothing.
ghost use Rattle.std.specs.Prelude.{◌≡◌, ℕ, List, true};
ghost use Rattle.z_regs.specs.Prefix.{is_prefix};
ghost use Rattle.tx_serial.specs.Flat.{Storage};
ghost use Rattle.tx_serial.specs.Text.{SameText};
ghost use Rattle.tx_progress.specs.Progress.{Progress};
ghost use Rattle.z_regs.specs.Cpu.{Cpu};
ghost use Rattle.z_regs.specs.declared.ranges.Range.{Range};
ghost use Rattle.z_instr.specs.declared.instr.Instr.{Instr};
ghost use Rattle.tx_serial.specs.Fate.{Goes};
ghost use Rattle.tx_cpu.specs.Going.{MayGo};
ghost use Rattle.tx_attempt.specs.Tracked.{Tracked, IsSound, progress};
ghost use Rattle.tx_progress.specs.Trial.{fate_by_progress};

/// The fate of the next instruction is the same over two storages that have the same bytes of text: over the
/// image's, from which `prepare` reads it, and over that of a history, in which no byte of text ever changes.
pub fn the_next_instruction_is_text()
    ensures { (text : List ℕ) (s t : Storage) (q : Progress) → is_prefix q.cpu.prefix ≡ true
        → SameText text s t → fate_by_progress text t q ≡ fate_by_progress text s q }
{}

/// Of an instruction that goes, its operands are accessible; the CPU is in storage, and so is the
/// block that an
/// outermost begin names; and a sound attempt that is live may go on by it, unless it ends the last
/// begin that
/// is open. The operand of NTSTG is a doubleword on its boundary.
pub fn what_goes_may_be_executed()
    ensures { (text : List ℕ) (s : Storage) (t : Tracked) (c : Cpu) (i : Instr) (need : List Range)
        → IsSound t
        → fate_by_progress text s (progress t c) ≡ Goes i need → MayGo t c i need }
{}
