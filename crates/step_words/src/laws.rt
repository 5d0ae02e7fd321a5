//! Laws of readings. Each law is the contract of a function that does nothing.
ghost use Rattle.std.specs.Prelude.{◌≡◌, ℕ, ◌<◌, ◌^◌, ◌⊎◌, List};
ghost use Rattle.step_words.specs.declared.command.StepCommand.{StepCommand};
ghost use Rattle.step_words.specs.Commands.{AreCommands, IsFirstBad};
ghost use Rattle.step_words.specs.Readings.{HasCommands, HasBadLine};

/// Each text has commands or a first bad line, never both, and one list of commands, or one such line.
pub fn a_text_has_one_reading()
    ensures some { (cpus : ℕ) (text : List ℕ) → HasCommands cpus text ⊎ HasBadLine cpus text }
    ensures one { (cpus : ℕ) (text : List ℕ) (cs ds : List StepCommand) → cpus < 2 ^ 64
        → AreCommands cpus text cs → AreCommands cpus text ds → cs ≡ ds }
    ensures one_line { (cpus : ℕ) (text : List ℕ) (n m : ℕ) → IsFirstBad cpus text n → IsFirstBad cpus text m
        → n ≡ m }
    ensures not_both { (cpus : ℕ) (text : List ℕ) (cs : List StepCommand) (n : ℕ) → AreCommands cpus text cs
        → IsFirstBad cpus text n → ⊥ }
{}
