//! What holds of all instructions. Each law is the contract of a function that does nothing.
ghost use Rattle.std.specs.Prelude.{◌≡◌, ℕ, List, length, get_or};
ghost use Rattle.z_instr.specs.Operands.{Span};
ghost use Rattle.z_instr.specs.declared.instr.Instr.{Instr};
ghost use Rattle.z_regs.specs.Cpu.{Cpu};
ghost use Rattle.z_effect.specs.One.{one};
ghost use Rattle.z_effect.specs.After.{cpu_after, AreInside, IsBeside, with_stored};

/// Whatever the new bytes are, storage keeps its size, and a byte that lies in no stored range keeps its
/// value.
pub fn only_stored_bytes_change()
    ensures size { (ranges : List Span) (bytes s : List ℕ) → AreInside ranges s →
        length (with_stored ranges bytes s) ≡ length s }
    ensures others { (ranges : List Span) (bytes s : List ℕ) (k : ℕ) → AreInside ranges s →
        IsBeside k ranges → get_or (with_stored ranges bytes s) k 0 ≡ get_or s k 0 }
{}

/// No instruction changes the prefix.
pub fn the_prefix_stays()
    ensures { (i : Instr) (c : Cpu) (depth : ℕ) (bytes : List ℕ) →
        (cpu_after c (one i c depth bytes)).prefix ≡ c.prefix }
{}
