//! The listing of a number.
ghost use Rattle.std.specs.Prelude.{◌≡◌, ◌++◌, ◌%◌, ◌≤◌, [], ◌∷◌, ◌==◌, if◌then◌else◌};
ghost use Rattle.std.specs.Prelude.{IfOk, OnOk, string_bytes};
ghost use Rattle.tx_gen.specs.Draws.{state_after};
ghost use Rattle.tx_gen.specs.Programs.{counter_at, cpu_line, begin_text, count_text, end_text, program_text};
ghost use Rattle.tx_gen.specs.Programs.{drawn_program, show_line, for_first, listing_of};

use crate::draws::Draws;
use std::alloc::{AllocError, Global};
use z_regs::NoMemory;

/// The bytes of the longest listing, of eight CPUs, and some more.
const ROOM: usize = 1024;

/// The address of the first counter.
const FIRST_COUNTER: u64 = 65_536;

/// How far counters are apart where the second number drawn is this one.
fn stride_for(drawn: u64) -> u64
    ensures value { result ≡ (if drawn % 2 == 0 then 8 else 256) }
    ensures small { result ≤ 256 }
{
    if drawn % 2 == 0 { 8 } else { 256 }
}

/// Adds the lines of the CPUs' entries.
fn add_cpu_lines(text: &mut String, cpus: u64) -> Result<(), AllocError>
    ensures { OnOk result (string_bytes text.new ≡ string_bytes text.old ++ for_first cpus cpu_line) }
{
    for cpu in 0..cpus {
        writeln!(text, " CPU P{cpu}")?;
    }
    Ok(())
}

/// Adds the beginning of a CPU's program: the number of rounds, and the begin of a transaction.
fn add_begin(text: &mut String, cpu: u64, rounds: u64) -> Result<(), AllocError>
    ensures { OnOk result (string_bytes text.new ≡ string_bytes text.old ++ begin_text cpu rounds) }
{
    writeln!(text, "P{cpu} LGHI 2,{rounds}")?;
    writeln!(text, "L{cpu} TBEGINC 0,65280")
}

/// Adds a transaction that adds 1 to a counter.
fn add_count(text: &mut String, counter: u64) -> Result<(), AllocError>
    ensures { OnOk result (string_bytes text.new ≡ string_bytes text.old ++ count_text counter) }
{
    writeln!(text, " LG 1,{counter}")?;
    writeln!(text, " AGHI 1,1")?;
    writeln!(text, " STG 1,{counter}")?;
    writeln!(text, " TEND")
}

/// Adds the end of a CPU's program: the branch to the next round, and the halt.
fn add_end(text: &mut String, cpu: u64) -> Result<(), AllocError>
    ensures { OnOk result (string_bytes text.new ≡ string_bytes text.old ++ end_text cpu) }
{
    writeln!(text, " BRCTG 2,L{cpu}")?;
    writeln!(text, " SVC 0")
}

/// Adds the program of a CPU.
#[tactic(auto, unfolding(crate::specs::Programs::program_text))]
fn add_program(text: &mut String, cpu: u64, rounds: u64, counter: u64) -> Result<(), AllocError>
    ensures { OnOk result (string_bytes text.new
        ≡ string_bytes text.old ++ program_text cpu rounds counter) }
{
    add_begin(text, cpu, rounds)?;
    add_count(text, counter)?;
    add_end(text, cpu)
}

/// Draws how often a CPU counts and which counter, and adds its program.
fn add_drawn_program(
    text: &mut String,
    cpu: u64,
    stride: u64,
    draws: &mut Draws,
) -> Result<(), AllocError>
    requires { stride ≤ 256 }
    ensures program { OnOk result (string_bytes text.new
        ≡ string_bytes text.old ++ drawn_program cpu draws.old.state stride) }
    ensures state { draws.new.state ≡ state_after (state_after draws.old.state) }
{
    let rounds = 20 + draws.draw() % 81;
    let counter = FIRST_COUNTER + draws.draw() % 4 * stride;
    add_program(text, cpu, rounds, counter)
}

/// Adds the line that shows the counters.
fn add_show_line(text: &mut String, stride: u64) -> Result<(), AllocError>
    requires { stride ≤ 256 }
    ensures { OnOk result (string_bytes text.new ≡ string_bytes text.old ++ show_line stride) }
{
    let shown = 3 * stride + 8;
    writeln!(text, " SHOW 65536,{shown}")
}

/// Adds the listing of a number.
#[tactic(auto, unfolding(crate::specs::Programs::listing_of))]
fn add_listing(text: &mut String, number: u64) -> Result<(), AllocError>
    ensures { OnOk result (string_bytes text.new ≡ string_bytes text.old ++ listing_of number) }
{
    let mut draws = Draws { state: number };
    let cpus = 2 + draws.draw() % 7;
    let stride = stride_for(draws.draw());
    add_cpu_lines(text, cpus)?;
    for cpu in 0..cpus {
        add_drawn_program(text, cpu, stride, &mut draws)?;
    }
    add_show_line(text, stride)?;
    writeln!(text, " END")
}

/// The listing of a number. `NoMemory` comes for want of memory.
///
/// Two to eight CPUs count, each of them 20 to 100 times, in constrained transactions. Which of four counters
/// a CPU counts up, and how far these are apart, 8 or 256 bytes, is drawn from the number too. All counters
/// are shown.
pub fn generate(alloc: Global, number: u64) -> Result<Vec<u8>, NoMemory>
    ensures { IfOk result (λ text. text.items ≡ listing_of number) }
{
    let mut text = String::with_capacity(alloc, ROOM)?;
    add_listing(&mut text, number)?;
    Ok(text.into_bytes())
}

/// The addresses of the four counters in the listing of a number, doublewords from 65,536 on.
pub fn counters(number: u64) -> [u64; 4]
    ensures { result ≡ counter_at number 0 ∷ counter_at number 1
        ∷ counter_at number 2 ∷ counter_at number 3 ∷ [] }
{
    let mut draws = Draws { state: number };
    let _cpus = draws.draw();
    let stride = stride_for(draws.draw());
    [
        FIRST_COUNTER,
        FIRST_COUNTER + stride,
        FIRST_COUNTER + 2 * stride,
        FIRST_COUNTER + 3 * stride,
    ]
}
