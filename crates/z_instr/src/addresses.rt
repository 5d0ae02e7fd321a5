//! The addresses of operands, and which registers and condition codes an instruction names.
ghost use Rattle.std.specs.Prelude.{◌≡◌, ◌<◌};
ghost use Rattle.z_instr.specs.Operands.{part, address, selects, registers_between, first_address as first_of, second_address as second_of};

use crate::instr::Instr;

/// What a register adds to an address; register number 0 stands for zero.
fn part_of(general: &[u64; 16], r: u8) -> u64
    requires { r < 16 }
    ensures { result ≡ part general.now r }
{
    if r == 0 { 0 } else { general[usize::from(r)] }
}

/// Base, index and displacement, modulo 2^64.
fn address_of(general: &[u64; 16], b: u8, x: u8, d: i32) -> u64
    requires b_in { b < 16 }
    requires x_in { x < 16 }
    ensures { result ≡ address general.now b x d }
{
    let start = part_of(general, b).wrapping_add(part_of(general, x));
    if d < 0 {
        start.wrapping_sub(u64::from(d.unsigned_abs()))
    } else {
        start.wrapping_add(d as u64)
    }
}

/// The first address of an instruction, by the general registers: base, index and displacement, modulo 2^64.
pub fn first_address(instr: &Instr, general: &[u64; 16]) -> u64
    ensures { result ≡ first_of instr.now general.now }
{
    address_of(general, instr.b, instr.x, instr.d)
}

/// The second address of an instruction, by the general registers: base and displacement, modulo 2^64.
pub fn second_address(instr: &Instr, general: &[u64; 16]) -> u64
    ensures { result ≡ second_of instr.now general.now }
{
    address_of(general, instr.b2, 0, instr.d2)
}

/// Whether a mask of four bits selects a condition code, 0 to 3: bit 0 from the left is for code 0.
pub fn is_selected(mask: u8, condition: u8) -> bool
    requires { condition < 4 }
    ensures { result ≡ selects mask condition }
{
    match condition {
        0 => mask / 8 % 2 == 1,
        1 => mask / 4 % 2 == 1,
        2 => mask / 2 % 2 == 1,
        _ => mask % 2 == 1,
    }
}

/// How many registers stand from R1 up to R3, 0 after 15: 1 to 16.
pub fn registers_named(instr: &Instr) -> u8
    ensures count { result ≡ registers_between instr.now.r1 instr.now.r3 }
    ensures few { result < 17 }
{
    (instr.r3 + 16 - instr.r1) % 16 + 1
}
