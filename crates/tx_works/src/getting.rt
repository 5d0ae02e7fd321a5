//! How a CPU gets the lines that a turn needs.
ghost use Rattle.std.specs.Prelude.{◌≡◌, ℕ, ◌+◌, ◌/◌, ◌%◌, ◌<◌, ◌≤◌, true, false, [], All, List, length, map, is_some};
ghost use Rattle.std.specs.Prelude.{IfSome, IfNone, Option, None, ◌==◌, ◌∷◌, if◌then◌else◌};
ghost use Rattle.std.specs.List.{list_any};
ghost use Rattle.z_regs.specs.Prefix.{storage_size};
ghost use Rattle.line_table.specs.Sizes.{storage_lines};
ghost use Rattle.line_table.specs.Holders.{against};
ghost use Rattle.line_table.specs.declared.table.Mode.TheVariants.{Shared, Exclusive};
ghost use Rattle.tx_lines.specs.Owned.{holders_in};
ghost use Rattle.tx_needs.specs.Needs.{need_at};
ghost use Rattle.tx_meaning.specs.declared.asking.Need.{Need};
ghost use Rattle.tx_meaning.specs.Limits.{Setting};
ghost use Rattle.tx_meaning.specs.State.{cpus_of, is_head};
ghost use Rattle.tx_meaning.specs.Needs.{needs_of, operand_needs};
ghost use Rattle.tx_program.specs.Shapes.{is_placed};
ghost use Rattle.tx_meaning.specs.Asking.{is_there};
ghost use Rattle.tx_keeping.specs.Asking.{k_granting, k_get_line, k_get_lines};
ghost use Rattle.tx_works.specs.Executing.{operand_by};
ghost use Rattle.tx_works.specs.Works.{Seat, IsSameSize, kept_by, seats_of};
ghost use Rattle.tx_works.specs.Ready.{MayAsk, MayHold, HasTurn, owed};
ghost use Rattle.tx_works.specs.Held.{AreThere, IsHeld};
ghost use Rattle.tx_works.specs.Asks.{IsReady, IsFew, AskLeaves, asked_by, rejected_in, is_cpu_starved};

use crate::asking::Refused;
use crate::works::Works;
use line_table::Mode;
use tx_lines::{Shape, Touch};
use tx_meaning::Need;
use tx_needs::{MOST_NEEDS, lines_needed, need_for};
use z_regs::{Range, Touches};

/// The bytes of a line.
const LINE_SIZE: u64 = 256;

/// How the line of bytes is needed: exclusively where they are stored, else shared.
fn mode_for(store: bool) -> Mode
    ensures { result ≡ (if store then Exclusive else Shared) }
{
    if store { Mode::Exclusive } else { Mode::Shared }
}

/// What a range needs that is not empty, and that lies in one line.
fn need_in_line(range: Range) -> Option<Need>
    requires { range.first + range.length ≤ storage_size }
    ensures needs { IfSome result (λ need. needs_of (range ∷ []) ≡ need ∷ []) }
    ensures within { IfSome result (λ need. range.first % 256 + range.length ≤ 256) }
    ensures line { IfSome result (λ need. need.line ≡ range.first / 256) }
    ensures mode { IfSome result (λ need. need.mode ≡ (if range.store then Exclusive else Shared)) }
    ensures in_storage { IfSome result (λ need. need.line < storage_lines) }
{
    let length = u64::from(range.length);
    if length == 0 || range.first % LINE_SIZE + length > LINE_SIZE {
        return None;
    }
    let line = (range.first / LINE_SIZE) as u32;
    let mode = mode_for(range.store);
    Some(Need { line, mode })
}

/// All that ranges need, where there is one range, and it lies in a line.
fn only_need(ranges: &Touches) -> Option<Need>
    requires { All (λ r. r.first + r.length ≤ storage_size) ranges.now }
    ensures needs { IfSome result (λ need. needs_of ranges.now ≡ need ∷ []) }
    ensures in_storage { IfSome result (λ need. need.line < storage_lines) }
{
    if ranges.count() != 1 {
        return None;
    }
    need_in_line(ranges.at(0))
}

/// What an operand that lies in one line needs, where it stands where its address says; nothing where it has no bytes.
fn operand_need(shape: Shape, first: u64) -> Option<Need>
    requires { is_placed shape first ≡ true }
    ensures some { IfSome result (λ need. (prefix : Option ℕ) → prefix ≡ None
        → operand_needs prefix (operand_by shape first) ≡ need ∷ []) }
    ensures none { IfNone result ((prefix : Option ℕ) → prefix ≡ None
        → operand_needs prefix (operand_by shape first) ≡ []) }
    ensures in_storage { IfSome result (λ need. need.line < storage_lines) }
{
    if shape.size == 0 {
        return None;
    }
    match shape.touch {
        Touch::Fetch => Some(Need {
            line: (first / LINE_SIZE) as u32,
            mode: Mode::Shared,
        }),
        Touch::Store => Some(Need {
            line: (first / LINE_SIZE) as u32,
            mode: Mode::Exclusive,
        }),
        Touch::Nothing => None,
        Touch::Other => None,
    }
}

impl Works {
    /// Whether the CPU holds a line as it needs it.
    fn is_there(&self, cpu: u32, need: Need) -> bool
        requires cpu { cpu < length self.now.slots }
        requires line { need.line < storage_lines }
        ensures { result ≡ is_there need.mode (holders_in self.now.lines cpu need.line) }
    {
        self.lines.is_there(cpu, need)
    }

    /// Whether the CPU is seen to hold the lines of a range as the range needs them: where it lies in one line.
    fn holds_range(&self, cpu: u32, range: Range) -> bool
        requires cpu { cpu < length self.now.slots }
        requires in_storage { range.first + range.length ≤ storage_size }
        ensures { result ≡ true → IsHeld (holders_in self.now.lines cpu) range }
    {
        match need_in_line(range) {
            Some(need) => self.is_there(cpu, need),
            None => false,
        }
    }

    /// Whether the CPU is seen to hold all lines that ranges need, as it needs them: where these are two, each in one line.
    fn holds_both(&self, cpu: u32, ranges: &Touches) -> bool
        requires cpu { cpu < length self.now.slots }
        requires in_storage { All (λ r. r.first + r.length ≤ storage_size) ranges.now }
        ensures { result ≡ true → AreThere (holders_in self.now.lines cpu) (needs_of ranges.now) }
    {
        if ranges.count() != 2 {
            return false;
        }
        self.holds_range(cpu, ranges.at(0)) && self.holds_range(cpu, ranges.at(1))
    }

    /// The CPU gets a line that nobody stands against. Where it holds as many as it may, it gives up one
    /// that neither its attempt nor this turn needs, whose lines are `needed`.
    #[inline(never)]
    fn take_line(&mut self, cpu: u32, need: Need, needed: &[u32])
        requires cpu { cpu < length self.old.slots }
        requires line { need.line < storage_lines }
        requires among { list_any (λ other. other == need.line) needed.now ≡ true }
        requires few { (rest : Seat) → IsFew cpu needed.now (kept_by rest self.old) }
        requires free { against (length self.old.slots) (holders_in self.old.lines) cpu need.line need.mode
            ≡ [] }
        ensures kept { (rest : Seat) (needs : List Need) → map (λ need. need.line) needs ≡ needed.now
            → kept_by rest self.new ≡ k_granting cpu needs need (kept_by rest self.old) }
        ensures size { IsSameSize self.old self.new }
    {
        let slot = &self.slots[cpu as usize];
        self.lines.grant(cpu, need, slot.cpu.footprint(), needed);
    }

    /// The CPU gets one of the lines that a turn needs, which are `needed`: where it does not hold it as it
    /// needs it, it asks all that stand against that. The reject, if one rejects its request; else the line
    /// is there.
    #[inline(always)]
    pub fn get_line(&mut self, cpu: u32, need: Need, needed: &[u32]) -> Option<Refused>
        requires cpu { cpu < length self.old.slots }
        requires line { need.line < storage_lines }
        requires among { list_any (λ other. other == need.line) needed.now ≡ true }
        requires few { (rest : Seat) → IsFew cpu needed.now (kept_by rest self.old) }
        requires ready { (rest : Seat) → IsReady 16 cpu self.old (kept_by rest self.old) }
        ensures kept { (rest : Seat) (m : Setting) (needs : List Need) → cpus_of m ≡ length self.old.slots
            → map (λ need. need.line) needs ≡ needed.now
            → asked_by rest self.new (rejected_in result) ≡ k_get_line m cpu needs need
            (kept_by rest self.old) }
        ensures size { IsSameSize self.old self.new }
        ensures leaves { (rest : Seat)
            → AskLeaves (length self.old.slots) 16 cpu (kept_by rest self.old) (kept_by rest self.new) }
        ensures refused { (rest : Seat) → is_some result ≡ true
            → is_head (kept_by rest self.new).state cpu ≡ false }
        ensures starved { (rest : Seat) → IfSome result
            (λ r. r.starved ≡ is_cpu_starved (kept_by rest self.new) cpu) }
    {
        if self.is_there(cpu, need) {
            return None;
        }
        let refused = self.ask_all(cpu, need);
        if refused.is_some() {
            return refused;
        }
        self.take_line(cpu, need, needed);
        None
    }

    /// The CPU gets the only line that a turn needs. The reject, if its request is rejected; else the line is
    /// there.
    #[inline(always)]
    fn get_only(&mut self, cpu: u32, need: Need) -> Option<Refused>
        requires cpu { cpu < length self.old.slots }
        requires line { need.line < storage_lines }
        requires few { (rest : Seat) → IsFew cpu (need.line ∷ []) (kept_by rest self.old) }
        requires ready { (rest : Seat) → IsReady 128 cpu self.old (kept_by rest self.old) }
        ensures kept { (rest : Seat) (m : Setting) → cpus_of m ≡ length self.old.slots
            → asked_by rest self.new (rejected_in result) ≡ k_get_lines m cpu (need ∷ []) (kept_by rest self.old) }
        ensures size { IsSameSize self.old self.new }
        ensures leaves { (rest : Seat)
            → AskLeaves (length self.old.slots) 128 cpu (kept_by rest self.old) (kept_by rest self.new) }
        ensures refused { (rest : Seat) → is_some result ≡ true
            → is_head (kept_by rest self.new).state cpu ≡ false }
        ensures starved { (rest : Seat) → IfSome result
            (λ r. r.starved ≡ is_cpu_starved (kept_by rest self.new) cpu) }
    {
        self.get_line(cpu, need, &[need.line])
    }

    /// The CPU gets the line of an operand that stands where its address says. The reject, if its request is rejected; else the
    /// line is there.
    #[inline(always)]
    pub(crate) fn get_operand(&mut self, cpu: u32, shape: Shape, first: u64) -> Option<Refused>
        requires cpu { cpu < length self.old.slots }
        requires bare { (rest : Seat) → ((kept_by rest self.old).locals cpu).attempt.cpu.prefix ≡ None }
        requires placed { is_placed shape first ≡ true }
        requires holds { (rest : Seat) → let k = kept_by rest self.old in MayHold cpu
            (operand_needs (k.locals cpu).attempt.cpu.prefix (operand_by shape first)) k }
        requires asks { (rest : Seat) → MayAsk (length self.old.slots) cpu (kept_by rest self.old) }
        requires room { (rest : Seat) → owed self.old (kept_by rest self.old) ≤ self.old.room }
        requires turn { (rest : Seat) → HasTurn (seats_of rest self.old.slots cpu) 128 }
        ensures kept { (rest : Seat) (m : Setting) → cpus_of m ≡ length self.old.slots
            → let k = kept_by rest self.old in asked_by rest self.new (rejected_in result) ≡ k_get_lines m cpu
            (operand_needs (k.locals cpu).attempt.cpu.prefix (operand_by shape first)) k }
        ensures size { IsSameSize self.old self.new }
        ensures own { (rest : Seat)
            → (kept_by rest self.new).locals cpu ≡ (kept_by rest self.old).locals cpu }
        ensures asks { (rest : Seat) → MayAsk (length self.new.slots) cpu (kept_by rest self.new) }
        ensures room { (rest : Seat) → owed self.new (kept_by rest self.new) ≤ self.new.room }
        ensures owed_no_more { (rest : Seat)
            → owed self.new (kept_by rest self.new) ≤ owed self.old (kept_by rest self.old) }
        ensures turn { (rest : Seat) → HasTurn (seats_of rest self.new.slots cpu) 0 }
        ensures refused { (rest : Seat) → is_some result ≡ true
            → is_head (kept_by rest self.new).state cpu ≡ false }
        ensures starved { (rest : Seat) → IfSome result
            (λ r. r.starved ≡ is_cpu_starved (kept_by rest self.new) cpu) }
    {
        if let Some(need) = operand_need(shape, first) {
            return self.get_only(cpu, need);
        }
        None
    }

    /// The CPU gets these lines one after the other, as the ranges need them.
    #[inline(never)]
    fn get_each(&mut self, cpu: u32, ranges: &Touches, lines: &[u32]) -> Option<Refused>
        requires cpu { cpu < length self.old.slots }
        requires in_storage { All (λ r. r.first + r.length ≤ storage_size) ranges.now }
        requires needed { map (need_at ranges.now) lines.now ≡ needs_of ranges.now }
        requires most { length lines.now ≤ MOST_NEEDS }
        requires known { All (λ line. line < storage_lines) lines.now }
        requires few { (rest : Seat) → IsFew cpu lines.now (kept_by rest self.old) }
        requires ready { (rest : Seat) → IsReady 128 cpu self.old (kept_by rest self.old) }
        ensures kept { (rest : Seat) (m : Setting) → cpus_of m ≡ length self.old.slots
            → asked_by rest self.new (rejected_in result)
            ≡ k_get_lines m cpu (needs_of ranges.now) (kept_by rest self.old) }
        ensures size { IsSameSize self.old self.new }
        ensures leaves { (rest : Seat)
            → AskLeaves (length self.old.slots) 128 cpu (kept_by rest self.old) (kept_by rest self.new) }
        ensures refused { (rest : Seat) → is_some result ≡ true
            → is_head (kept_by rest self.new).state cpu ≡ false }
        ensures starved { (rest : Seat) → IfSome result
            (λ r. r.starved ≡ is_cpu_starved (kept_by rest self.new) cpu) }
    {
        for line in lines {
            let refused = self.get_line(cpu, need_for(ranges, *line), lines);
            if refused.is_some() {
                return refused;
            }
        }
        None
    }

    /// The CPU gets the lines that ranges by absolute addresses need, in rising order, each looked for among all of
    /// the ranges.
    #[inline(never)]
    fn get_in_order(&mut self, cpu: u32, ranges: &Touches) -> Option<Refused>
        requires cpu { cpu < length self.old.slots }
        requires small { All (λ r. r.length ≤ 256) ranges.now }
        requires in_storage { All (λ r. r.first + r.length ≤ storage_size) ranges.now }
        requires holds { (rest : Seat) → MayHold cpu (needs_of ranges.now) (kept_by rest self.old) }
        requires ready { (rest : Seat) → IsReady 128 cpu self.old (kept_by rest self.old) }
        ensures kept { (rest : Seat) (m : Setting) → cpus_of m ≡ length self.old.slots
            → asked_by rest self.new (rejected_in result)
            ≡ k_get_lines m cpu (needs_of ranges.now) (kept_by rest self.old) }
        ensures size { IsSameSize self.old self.new }
        ensures leaves { (rest : Seat)
            → AskLeaves (length self.old.slots) 128 cpu (kept_by rest self.old) (kept_by rest self.new) }
        ensures refused { (rest : Seat) → is_some result ≡ true
            → is_head (kept_by rest self.new).state cpu ≡ false }
        ensures starved { (rest : Seat) → IfSome result
            (λ r. r.starved ≡ is_cpu_starved (kept_by rest self.new) cpu) }
    {
        let lines = lines_needed(ranges);
        self.get_each(cpu, ranges, lines.as_slice())
    }

    /// The CPU gets the lines that ranges by absolute addresses need, in rising order. Nobody is asked where all lines of
    /// two ranges are seen to be there.
    #[inline(never)]
    fn get_several(&mut self, cpu: u32, ranges: &Touches) -> Option<Refused>
        requires cpu { cpu < length self.old.slots }
        requires small { All (λ r. r.length ≤ 256) ranges.now }
        requires in_storage { All (λ r. r.first + r.length ≤ storage_size) ranges.now }
        requires holds { (rest : Seat) → MayHold cpu (needs_of ranges.now) (kept_by rest self.old) }
        requires ready { (rest : Seat) → IsReady 128 cpu self.old (kept_by rest self.old) }
        ensures kept { (rest : Seat) (m : Setting) → cpus_of m ≡ length self.old.slots
            → asked_by rest self.new (rejected_in result)
            ≡ k_get_lines m cpu (needs_of ranges.now) (kept_by rest self.old) }
        ensures size { IsSameSize self.old self.new }
        ensures leaves { (rest : Seat)
            → AskLeaves (length self.old.slots) 128 cpu (kept_by rest self.old) (kept_by rest self.new) }
        ensures refused { (rest : Seat) → is_some result ≡ true
            → is_head (kept_by rest self.new).state cpu ≡ false }
        ensures starved { (rest : Seat) → IfSome result
            (λ r. r.starved ≡ is_cpu_starved (kept_by rest self.new) cpu) }
    {
        if self.holds_both(cpu, ranges) {
            return None;
        }
        self.get_in_order(cpu, ranges)
    }

    /// The CPU gets the lines that ranges by absolute addresses need, in rising order, until one of its
    /// requests is rejected. There are at most four ranges, each of at most 256 bytes. The reject, if there
    /// is one; else the lines are there.
    #[inline(always)]
    pub fn get_lines(&mut self, cpu: u32, ranges: &Touches) -> Option<Refused>
        requires cpu { cpu < length self.old.slots }
        requires small { All (λ r. r.length ≤ 256) ranges.now }
        requires in_storage { All (λ r. r.first + r.length ≤ storage_size) ranges.now }
        requires holds { (rest : Seat) → MayHold cpu (needs_of ranges.now) (kept_by rest self.old) }
        requires asks { (rest : Seat) → MayAsk (length self.old.slots) cpu (kept_by rest self.old) }
        requires room { (rest : Seat) → owed self.old (kept_by rest self.old) ≤ self.old.room }
        requires turn { (rest : Seat) → HasTurn (seats_of rest self.old.slots cpu) 128 }
        ensures kept { (rest : Seat) (m : Setting) → cpus_of m ≡ length self.old.slots
            → asked_by rest self.new (rejected_in result)
            ≡ k_get_lines m cpu (needs_of ranges.now) (kept_by rest self.old) }
        ensures size { IsSameSize self.old self.new }
        ensures own { (rest : Seat)
            → (kept_by rest self.new).locals cpu ≡ (kept_by rest self.old).locals cpu }
        ensures asks { (rest : Seat) → MayAsk (length self.new.slots) cpu (kept_by rest self.new) }
        ensures room { (rest : Seat) → owed self.new (kept_by rest self.new) ≤ self.new.room }
        ensures owed_no_more { (rest : Seat)
            → owed self.new (kept_by rest self.new) ≤ owed self.old (kept_by rest self.old) }
        ensures turn { (rest : Seat) → HasTurn (seats_of rest self.new.slots cpu) 0 }
        ensures refused { (rest : Seat) → is_some result ≡ true
            → is_head (kept_by rest self.new).state cpu ≡ false }
        ensures starved { (rest : Seat) → IfSome result
            (λ r. r.starved ≡ is_cpu_starved (kept_by rest self.new) cpu) }
    {
        if let Some(need) = only_need(ranges) {
            return self.get_only(cpu, need);
        }
        self.get_several(cpu, ranges)
    }
}
