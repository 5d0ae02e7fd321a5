//! The second reading of the lines, when all labels are known.
ghost use Rattle.std.specs.Prelude.{◌≡◌, ℕ, Ok, OnOk, ◌≤◌, ◌<◌, ◌+◌, ◌-◌, ◌*◌, ◌^◌, length, drop, map};
ghost use Rattle.std.specs.Prelude.{sum_by, IsTrue, All, Some};
ghost use Rattle.std.specs.List.{list_any};
ghost use Rattle.z_instr.specs.Reading.{modulo};
ghost use Rattle.z_regs.specs.Cpu.{cpu_of};
ghost use Rattle.z_regs.specs.Prefix.{is_prefix};
ghost use Rattle.z_text.specs.Labels.{value_in};
ghost use Rattle.z_text.specs.Tokens.{AreTokensIn, LiesIn};
ghost use Rattle.z_reading.specs.Listing.{task_of, tasks_of, heads_in, operands_in, operation_in, is_below};
ghost use Rattle.z_reading.specs.Listing.{is_doubleword, to_nat};
ghost use Rattle.z_setup.specs.Machine.{change_at, with_address, with_general, entry_line};
ghost use Rattle.z_setup.specs.Machine.{is_register_value, register_line, size_of_show, is_accessible};
ghost use Rattle.z_setup.specs.Machine.{has_room_for, shown, has_fields, show_line, block_line, is_comma};
ghost use Rattle.z_setup.specs.Machine.{parameter_in, parameter_line, named_parameter, is_area};
ghost use Rattle.z_setup.specs.Machine.{is_same_prefix, has_prefix, is_free, places_in, task_places_in};
ghost use Rattle.z_setup.specs.Machine.{is_prefix_for, with_prefix, prefix_line, schedule_line, code_line};
ghost use Rattle.z_setup.specs.Machine.{tokens_in, end_of, directive_line, read_again, task_gives};
ghost use Rattle.z_setup.specs.Setup.{machine_of, known_of};
ghost use Rattle.z_reading.specs.Sizes.{IsPlaced};
ghost use Rattle.z_fields.specs.Steps.{Gives, Answers};
ghost use Rattle.z_operands.specs.Values.{operands_on};

use crate::parameter::{Parameter, is_choice, parameter_named, set_parameter};
use crate::setup::Setup;
use crate::showing::{Showing, has_fields};
use std::alloc::Global;
use tx_journal::Show;
use z_fields::{Kind, LineFault, push_events};
use z_operands::{
    Operand, Operation, Room, code_for, one_in, read_operands, size_of_row, three_in, two_in,
};
use z_reading::{
    FIRST_BYTE, Reading, SIZE, Work, Works, behind, field_behind, heads_in, is_doubleword,
    operation_in, write_bytes,
};
use z_regs::CpuImage;
use z_text::{Labels, TextFault, Token, TokenKind, read_tokens};

/// The bytes of the area of a prefix.
const AREA: u32 = 8_192;

/// The bytes of a diagnostic block.
const BLOCK: i128 = 256;

/// The most ranges that are shown.
const MOST_SHOWS: usize = 64;

/// The most bytes that are shown.
const MOST_SHOWN: u64 = 65_536;

// ---- CPUs

/// Whether it is from 0 up to a number, which is not among them.
fn is_below(count: usize, value: i128) -> bool
    ensures { result ≡ is_below count value }
{
    0 <= value && value < count as i128
}

#[tactic(auto, using(crate::proofs::Lists::change_steps))]
fn set_address(cpus: &mut Vec<CpuImage>, at: usize, address: u64)
    ensures is { map cpu_of cpus.new.items ≡ change_at at (with_address address) (map cpu_of cpus.old.items) }
    ensures count { length cpus.new.items ≡ length cpus.old.items }
{
    if at < cpus.len() {
        cpus[at].address = address;
    }
}

#[tactic(auto, using(crate::proofs::Lists::change_steps))]
fn set_general(cpus: &mut Vec<CpuImage>, at: usize, register: usize, value: u64)
    requires { register < 16 }
    ensures is { map cpu_of cpus.new.items ≡ change_at at (with_general register value)
        (map cpu_of cpus.old.items) }
    ensures count { length cpus.new.items ≡ length cpus.old.items }
{
    if at < cpus.len() {
        cpus[at].general[register] = value;
    }
}

#[tactic(auto, unfolding(crate::specs::Machine::entry_line))]
fn enter(setup: &mut Setup, operands: &[Operand]) -> Result<(), LineFault>
    requires { setup.old.entered < 2 ^ 64 - 1 }
    ensures gives { Gives result (entry_line operands.now (machine_of setup.old)) (machine_of setup.new) }
    ensures entered { setup.new.entered ≤ setup.old.entered + 1 }
{
    let value = one_in(operands)?;
    if !is_below(SIZE, value) {
        return Err(LineFault::Failed(Kind::OutOfRange));
    }
    set_address(&mut setup.cpus, setup.entered, value as u64);
    setup.entered += 1;
    Ok(())
}

/// The doubleword of a value.
fn doubleword(value: i128) -> u64
    requires { IsTrue (is_doubleword value) }
    ensures { result ≡ modulo 64 value }
{
    if value < 0 {
        return (value + 0x1_0000_0000_0000_0000) as u64;
    }
    value as u64
}

/// Whether a register of one of so many CPUs can have this value.
fn is_register_value(cpus: usize, cpu: i128, register: i128, value: i128) -> bool
    ensures { result ≡ is_register_value cpus (cpu, register, value) }
{
    is_below(cpus, cpu) && is_below(16, register) && is_doubleword(value)
}

/// Gives a register of a CPU a value that it can have.
fn set_register(cpus: &mut Vec<CpuImage>, cpu: i128, register: i128, value: i128)
    requires { IsTrue (is_register_value (length cpus.old.items) (cpu, register, value)) }
    ensures is { map cpu_of cpus.new.items ≡ change_at (to_nat cpu) (with_general (to_nat register)
        (modulo 64 value)) (map cpu_of cpus.old.items) }
    ensures count { length cpus.new.items ≡ length cpus.old.items }
{
    set_general(cpus, cpu as usize, register as usize, doubleword(value));
}

#[tactic(auto, unfolding(crate::specs::Machine::register_line))]
fn fill_register(setup: &mut Setup, operands: &[Operand]) -> Result<(), LineFault>
    ensures gives { Gives result (register_line operands.now (machine_of setup.old)) (machine_of setup.new) }
    ensures entered { setup.new.entered ≡ setup.old.entered }
{
    let (cpu, register, value) = three_in(operands)?;
    if !is_register_value(setup.cpus.len(), cpu, register, value) {
        return Err(LineFault::Failed(Kind::OutOfRange));
    }
    set_register(&mut setup.cpus, cpu, register, value);
    Ok(())
}

// ---- what is shown

fn is_accessible(first: i128, count: i128) -> bool
    ensures { result ≡ is_accessible first count }
{
    0 < count
        && count <= SIZE as i128
        && FIRST_BYTE as i128 <= first
        && first <= SIZE as i128 - count
}

fn count_shown(shows: &[Show]) -> u64
    requires { length shows.now ≤ 64 }
    ensures sum { result ≡ sum_by size_of_show shows.now }
    ensures few { result ≤ 64 * 4294967295 }
{
    let mut count = 0u64;
    for show in shows {
        count += u64::from(show.length);
    }
    count
}

fn has_room_for(count: u32, shows: &[Show]) -> bool
    ensures { result ≡ has_room_for count shows.now }
{
    shows.len() < MOST_SHOWS && count_shown(shows) + u64::from(count) <= MOST_SHOWN
}

#[tactic(auto, unfolding(crate::specs::Machine::shown))]
fn show(setup: &mut Setup, first: i128, count: i128, showing: Showing) -> Result<(), LineFault>
    ensures gives { Gives result (shown first count (has_fields showing) (machine_of setup.old)) (machine_of setup.new) }
    ensures entered { setup.new.entered ≡ setup.old.entered }
{
    if !is_accessible(first, count) || !has_room_for(count as u32, &setup.shows) {
        return Err(LineFault::Failed(Kind::OutOfRange));
    }
    setup.shows.push(Show {
        first: first as u32,
        length: count as u32,
        fields: has_fields(showing),
    })?;
    Ok(())
}

#[tactic(auto, unfolding(crate::specs::Machine::show_line))]
fn show_bytes(setup: &mut Setup, operands: &[Operand]) -> Result<(), LineFault>
    ensures gives { Gives result (show_line operands.now (machine_of setup.old)) (machine_of setup.new) }
    ensures entered { setup.new.entered ≡ setup.old.entered }
{
    let (first, count) = two_in(operands)?;
    show(setup, first, count, Showing::Bytes)
}

#[tactic(auto, unfolding(crate::specs::Machine::block_line))]
fn show_block(setup: &mut Setup, operands: &[Operand]) -> Result<(), LineFault>
    ensures gives { Gives result (block_line operands.now (machine_of setup.old)) (machine_of setup.new) }
    ensures entered { setup.new.entered ≡ setup.old.entered }
{
    let first = one_in(operands)?;
    show(setup, first, BLOCK, Showing::Block)
}

// ---- the numbers of the retry ladder

fn is_comma(kind: TokenKind) -> bool
    ensures { result ≡ is_comma kind }
{
    matches!(kind, TokenKind::Comma)
}

/// The number whose name stands first, with a comma behind it.
fn parameter_in(line: &[u8], tokens: &[Token]) -> Option<Parameter>
    requires { All (LiesIn (length line.now)) tokens.now }
    ensures { result ≡ parameter_in line.now tokens.now }
{
    match tokens {
        [name, comma, ..] => {
            if !is_comma(comma.kind) {
                return None;
            }
            parameter_named(&line[name.first..name.end])
        }
        _ => None,
    }
}

#[tactic(auto, unfolding(crate::specs::Machine::parameter_line))]
fn choose(setup: &mut Setup, parameter: Parameter, operands: &[Operand]) -> Result<(), LineFault>
    ensures gives { Gives result (parameter_line parameter operands.now (machine_of setup.old))
        (machine_of setup.new) }
    ensures entered { setup.new.entered ≡ setup.old.entered }
{
    let value = one_in(operands)?;
    if !is_choice(parameter, value) {
        return Err(LineFault::Failed(Kind::OutOfRange));
    }
    set_parameter(&mut setup.parms, parameter, value);
    Ok(())
}

// ---- prefixes

fn is_area(value: i128) -> bool
    ensures { result ≡ is_area value }
{
    i128::from(AREA) <= value
        && value <= SIZE as i128 - i128::from(AREA)
        && value as u32 % AREA == 0
}

fn is_same_prefix(prefix: u32, other: Option<u32>) -> bool
    ensures { result ≡ is_same_prefix prefix other }
{
    match other {
        None => false,
        Some(other) => other == prefix,
    }
}

#[tactic(auto, using(crate::proofs::Lists::any_steps))]
fn is_given(prefix: u32, cpus: &[CpuImage]) -> bool
    ensures { result ≡ list_any (has_prefix prefix) (map cpu_of cpus.now) }
{
    for cpu in cpus {
        if is_same_prefix(prefix, cpu.prefix) {
            return true;
        }
    }
    false
}

fn is_free(cpu: usize, prefix: u32, cpus: &[CpuImage]) -> bool
    requires { cpu < length cpus.now }
    ensures { result ≡ is_free cpu prefix (map cpu_of cpus.now) }
{
    cpus[cpu].prefix.is_none() && !is_given(prefix, cpus)
}

#[tactic(auto, using(crate::proofs::Lists::change_steps))]
fn set_prefix(cpus: &mut Vec<CpuImage>, at: usize, prefix: u32)
    requires { IsTrue (is_prefix (Some prefix)) }
    ensures is { map cpu_of cpus.new.items ≡ change_at at (with_prefix prefix) (map cpu_of cpus.old.items) }
    ensures count { length cpus.new.items ≡ length cpus.old.items }
{
    if at < cpus.len() {
        cpus[at].prefix = Some(prefix);
    }
}

fn places_in(area: u32, here: usize, operation: Operation) -> bool
    requires { IsPlaced here operation }
    ensures { result ≡ places_in area here operation }
{
    match operation {
        Operation::Instruction(row, _) => {
            let area = area as usize;
            here < area + AREA as usize && area < here + size_of_row(row)
        }
        _ => false,
    }
}

#[tactic(auto, using(crate::proofs::Lists::any_steps))]
fn is_text_in(area: u32, works: &Works) -> bool
    ensures { result ≡ list_any (task_places_in area) (tasks_of works.now) }
{
    for kept in &works.kept {
        if places_in(area, kept.here as usize, kept.operation) {
            return true;
        }
    }
    false
}

/// Whether a CPU is one of these and has no prefix, and the area is one that none has and where no instruction lies.
fn is_prefix_for(works: &Works, cpus: &[CpuImage], cpu: i128, area: i128) -> bool
    ensures { result ≡ is_prefix_for (tasks_of works.now) (map cpu_of cpus.now) (cpu, area) }
{
    is_below(cpus.len(), cpu)
        && is_area(area)
        && is_free(cpu as usize, area as u32, cpus)
        && !is_text_in(area as u32, works)
}

/// Gives a CPU an area as its prefix.
fn give_area(cpus: &mut Vec<CpuImage>, cpu: i128, area: i128)
    requires below { IsTrue (is_below (length cpus.old.items) cpu) }
    requires area { IsTrue (is_area area) }
    ensures is { map cpu_of cpus.new.items ≡ change_at (to_nat cpu) (with_prefix (to_nat area))
        (map cpu_of cpus.old.items) }
    ensures count { length cpus.new.items ≡ length cpus.old.items }
{
    set_prefix(cpus, cpu as usize, area as u32);
}

#[tactic(auto, unfolding(crate::specs::Machine::prefix_line))]
fn give_prefix(setup: &mut Setup, works: &Works, operands: &[Operand]) -> Result<(), LineFault>
    ensures gives { Gives result (prefix_line (tasks_of works.now) operands.now (machine_of setup.old))
        (machine_of setup.new) }
    ensures entered { setup.new.entered ≡ setup.old.entered }
{
    let (cpu, area) = two_in(operands)?;
    if !is_prefix_for(works, &setup.cpus, cpu, area) {
        return Err(LineFault::Failed(Kind::OutOfRange));
    }
    give_area(&mut setup.cpus, cpu, area);
    Ok(())
}

// ---- the schedule, and instructions

#[tactic(auto, unfolding(crate::specs::Machine::schedule_line))]
fn add_events(alloc: Global, setup: &mut Setup, field: &[u8]) -> Result<(), LineFault>
    ensures gives { Gives result (schedule_line field.now (machine_of setup.old)) (machine_of setup.new) }
    ensures entered { setup.new.entered ≡ setup.old.entered }
{
    push_events(alloc, setup.cpus.len(), field, &mut setup.schedule)?;
    setup.scheduled = true;
    Ok(())
}

#[tactic(auto, unfolding(crate::specs::Machine::code_line))]
fn write_code(
    setup: &mut Setup,
    row: u16,
    mask: Option<u8>,
    here: usize,
    operands: &[Operand],
) -> Result<(), LineFault>
    requires { IsPlaced here (Operation.Instruction row mask) }
    ensures gives { Gives result (code_line row mask here operands.now (machine_of setup.old))
        (machine_of setup.new) }
    ensures entered { setup.new.entered ≡ setup.old.entered }
{
    let code = code_for(row, mask, here, operands)?;
    let count = usize::from(code.length);
    write_bytes(&mut setup.storage, here, &code.bytes[..count]);
    Ok(())
}

// ---- a line

/// Leaves the tokens of a line that has some.
#[tactic(auto, unfolding(crate::specs::Machine::tokens_in))]
fn read_tokens_again(line: &[u8], tokens: &mut Vec<Token>) -> Result<(), LineFault>
    ensures is { Answers (λ _. tokens.new.items) result (Ok (tokens_in line.now)) }
    ensures inside { OnOk result (AreTokensIn line.now tokens.new.items) }
{
    match read_tokens(line, tokens) {
        Ok(()) => Ok(()),
        Err(TextFault::Memory) => Err(LineFault::Memory),
        Err(_) => {
            tokens.clear();
            Ok(())
        }
    }
}

/// Leaves the operands of a line from one of its tokens on, or this kind of fault where they have no form at all.
fn operands_for(
    room: &mut Room,
    malformed: Kind,
    labels: &Labels,
    work: Work,
    tokens: &[Token],
    first: usize,
) -> Result<(), LineFault>
    requires { AreTokensIn work.text.now tokens.now }
    ensures { Answers (λ _. room.new.operands.items) result (operands_on malformed work.entry.text.now
        (value_in labels.now) work.entry.here (drop first tokens.now)) }
{
    read_operands(
        room,
        malformed,
        work.text,
        tokens,
        first,
        labels,
        work.here as usize,
    )
}

/// The end of the operation, 0 where there is none.
fn end_of_operation(tokens: &[Token]) -> usize
    ensures is { result ≡ end_of (operation_in tokens.now) }
    ensures inside { (n : ℕ) → All (LiesIn n) tokens.now → result ≤ n }
{
    match operation_in(tokens) {
        None => 0,
        Some(token) => token.end,
    }
}

#[tactic(auto, unfolding(crate::specs::Machine::read_again))]
fn choose_named(
    room: &mut Room,
    setup: &mut Setup,
    labels: &Labels,
    works: &Works,
    work: Work,
    tokens: &[Token],
) -> Result<(), LineFault>
    requires { AreTokensIn work.text.now tokens.now }
    ensures gives { Gives result (named_parameter (parameter_in work.entry.text.now (operands_in tokens.now))
        (known_of labels.now works.now) (task_of work.entry) (drop (heads_in tokens.now + 2) tokens.now)
        (machine_of setup.old)) (machine_of setup.new) }
    ensures entered { setup.new.entered ≡ setup.old.entered }
{
    let heads = heads_in(tokens);
    let Some(parameter) = parameter_in(work.text, behind(tokens, heads)) else {
        return Err(LineFault::Failed(Kind::BadDirective));
    };
    operands_for(room, Kind::BadDirective, labels, work, tokens, heads + 2)?;
    choose(setup, parameter, &room.operands)
}

/// Does what a directive does whose operands are all expressions.
#[tactic(auto, unfolding(crate::specs::Machine::directive_line))]
fn directive(
    setup: &mut Setup,
    labels: &Labels,
    works: &Works,
    operation: Operation,
    operands: &[Operand],
) -> Result<(), LineFault>
    requires { setup.old.entered < 2 ^ 64 - 1 }
    ensures gives { Gives result (directive_line operation (known_of labels.now works.now) operands.now
        (machine_of setup.old)) (machine_of setup.new) }
    ensures entered { setup.new.entered ≤ setup.old.entered + 1 }
{
    let _labels = labels;
    match operation {
        Operation::Cpu => enter(setup, operands),
        Operation::Reg => fill_register(setup, operands),
        Operation::Show => show_bytes(setup, operands),
        Operation::Tdb => show_block(setup, operands),
        Operation::Prefix => give_prefix(setup, works, operands),
        _ => Ok(()),
    }
}

/// Does what the second reading of a line with these tokens does.
#[tactic(auto, unfolding(crate::specs::Machine::read_again))]
fn read_again(
    alloc: Global,
    room: &mut Room,
    setup: &mut Setup,
    labels: &Labels,
    works: &Works,
    work: Work,
    tokens: &[Token],
) -> Result<(), LineFault>
    requires tokens { AreTokensIn work.text.now tokens.now }
    requires entered { setup.old.entered < 2 ^ 64 - 1 }
    ensures gives { Gives result (read_again work.entry.operation (known_of labels.now works.now)
        (task_of work.entry) tokens.now (machine_of setup.old)) (machine_of setup.new) }
    ensures entered { setup.new.entered ≤ setup.old.entered + 1 }
{
    let heads = heads_in(tokens);
    match work.operation {
        Operation::Instruction(row, mask) => {
            operands_for(room, Kind::WrongOperands, labels, work, tokens, heads)?;
            write_code(setup, row, mask, work.here as usize, &room.operands)
        }
        Operation::Sched => add_events(
            alloc,
            setup,
            field_behind(end_of_operation(tokens), work.text),
        ),
        Operation::Parm => choose_named(room, setup, labels, works, work, tokens),
        _ => {
            operands_for(room, Kind::BadDirective, labels, work, tokens, heads)?;
            directive(setup, labels, works, work.operation, &room.operands)
        }
    }
}

/// Reads a line again, when all labels are known.
#[tactic(auto, unfolding(crate::specs::Machine::task_gives))]
pub fn read_second(
    alloc: Global,
    reading: &mut Reading,
    setup: &mut Setup,
    labels: &Labels,
    works: &Works,
    work: Work,
) -> Result<(), LineFault>
    requires { setup.old.entered < 2 ^ 64 - 1 }
    ensures gives { Gives result (task_gives (known_of labels.now works.now) (task_of work.entry)
        (machine_of setup.old)) (machine_of setup.new) }
    ensures entered { setup.new.entered ≤ setup.old.entered + 1 }
{
    read_tokens_again(work.text, &mut reading.tokens)?;
    read_again(
        alloc,
        &mut reading.room,
        setup,
        labels,
        works,
        work,
        &reading.tokens,
    )
}
