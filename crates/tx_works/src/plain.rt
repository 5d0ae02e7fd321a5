//! A turn in which nothing unusual is the case.
ghost use Rattle.std.specs.Prelude.{◌≡◌, ◌<◌, ◌/◌, IfSome, true, false, length, ℕ, List, [], None};
ghost use Rattle.std.specs.FinSet.{items};
ghost use Rattle.z_regs.specs.declared.ranges.Range.{Range};
ghost use Rattle.z_instr.specs.declared.instr.Instr.{Instr};
ghost use Rattle.tx_serial.specs.Fate.{Goes};
ghost use Rattle.tx_serial.specs.History.{start_of};
ghost use Rattle.tx_progress.specs.Trial.{fate_by_progress};
ghost use Rattle.tx_lines.specs.Pairs.{pair_ranges};
ghost use Rattle.tx_lines.specs.Quiet.{IsQuiet};
ghost use Rattle.tx_program.specs.Shapes.{is_reached};
ghost use Rattle.tx_lines.specs.Owned.{holders_in};
ghost use Rattle.tx_meaning.specs.Asking.{is_there};
ghost use Rattle.tx_meaning.specs.Limits.{Setting, RunLimits};
ghost use Rattle.tx_keeping.specs.Kept.{text_of};
ghost use Rattle.tx_works.specs.Executing.{operand_by};
ghost use Rattle.tx_works.specs.Plainly.{IsThere, is_held};
ghost use Rattle.tx_works.specs.Ready.{image_storage};
ghost use Rattle.tx_works.specs.Works.{Seat, kept_by};

use crate::works::Works;
use line_table::Mode;
use tx_lines::{Pair, Plain, Program, Shape, Touch};
use tx_meaning::Need;
use z_regs::STORAGE_SIZE;

/// The bytes of a line.
const LINE_SIZE: u64 = 256;

impl Works {
    /// Whether the CPU holds the line of an address in that mode.
    fn has_line(&self, cpu: u32, address: u64, mode: Mode) -> bool
        requires { cpu < length self.now.slots }
        ensures { result ≡ true → is_there mode (holders_in self.now.lines cpu (address / 256)) ≡ true }
    {
        if address >= STORAGE_SIZE {
            return false;
        }
        let line = (address / LINE_SIZE) as u32;
        self.lines.is_there(cpu, Need { line, mode })
    }

    /// Whether the CPU holds the line of an operand as it touches it.
    fn has_operand(&self, cpu: u32, touch: Touch, first: u64) -> bool
        requires { cpu < length self.now.slots }
        ensures { result ≡ true → is_held touch (holders_in self.now.lines cpu (first / 256)) ≡ true }
    {
        match touch {
            Touch::Nothing => true,
            Touch::Fetch => self.has_line(cpu, first, Mode::Shared),
            Touch::Store => self.has_line(cpu, first, Mode::Exclusive),
            Touch::Other => false,
        }
    }

    /// The next instruction of the CPU where nothing unusual is the case.
    #[inline(always)]
    #[tactic(auto, unfolding(tx_serial::specs::History::start_of))]
    pub(crate) fn plain<'a>(&self, cpu: u32, program: &'a Program) -> Option<Plain<'a>>
        requires { cpu < length self.now.slots }
        ensures quiet { (rest : Seat) → IfSome result (λ p. IsQuiet ((kept_by rest self.now).locals cpu)) }
        ensures goes { (rest : Seat) (limits : RunLimits) →
            let m : Setting = record { image = program.now; limits = limits } in
            IfSome result (λ p. fate_by_progress (text_of m) (image_storage m)
            ((kept_by rest self.now).locals cpu).attempt ≡ Goes p.ready.now.instr
            (operand_by p.ready.now.shape p.first)) }
        ensures reached { IfSome result (λ p. is_reached p.ready.now.shape p.first (items program.now.guard)
            ≡ true) }
    {
        self.slots[cpu as usize].cpu.plain(program)
    }

    /// The next instruction of the CPU where it has two blocks of bytes in storage, and is seen at once to go.
    #[inline(always)]
    #[tactic(auto, unfolding(tx_serial::specs::History::start_of))]
    pub(crate) fn pair<'a>(&self, cpu: u32, program: &'a Program) -> Option<Pair<'a>>
        requires { cpu < length self.now.slots }
        ensures { (rest : Seat) (limits : RunLimits) →
            let m : Setting = record { image = program.now; limits = limits } in
            IfSome result (λ p. fate_by_progress (text_of m) (image_storage m)
            ((kept_by rest self.now).locals cpu).attempt ≡ Goes p.instr.now
            (pair_ranges p.store p.first p.second p.size)) }
    {
        self.slots[cpu as usize].cpu.pair(program)
    }

    /// Whether the next instruction of the CPU is known to have no operand, so that it touches nothing, whatever comes of it.
    #[tactic(auto, unfolding(tx_serial::specs::History::start_of))]
    pub(crate) fn touches_nothing(&self, cpu: u32, program: &Program) -> bool
        requires { cpu < length self.now.slots }
        ensures { (rest : Seat) (limits : RunLimits) (i : Instr) (need : List Range) →
            let m : Setting = record { image = program.now; limits = limits } in result ≡ true
            → fate_by_progress (text_of m) (image_storage m) ((kept_by rest self.now).locals cpu).attempt ≡ Goes i need
            → need ≡ [] }
    {
        self.slots[cpu as usize].cpu.touches_nothing(program)
    }

    /// Whether the CPU holds the line of an operand as it touches it, so that nobody is asked.
    pub(crate) fn holds_operand(&self, cpu: u32, shape: Shape, first: u64) -> bool
        requires { cpu < length self.now.slots }
        ensures { (rest : Seat) (text : List ℕ) → ((kept_by rest self.now).locals cpu).attempt.cpu.prefix ≡ None
            → is_reached shape first text ≡ true → result ≡ true → IsThere cpu shape first (kept_by rest self.now) }
    {
        self.has_operand(cpu, shape.touch, first)
    }
}
