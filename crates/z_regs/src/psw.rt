//! The program status word: what an interruption stores of a CPU, and loads into it.
ghost use Rattle.std.specs.Prelude.{◌≡◌};
ghost use Rattle.z_regs.specs.Cpu.{cpu_of};
ghost use Rattle.z_regs.specs.Psw.{psw_of as psw_for, with_fields, running_where, loaded};

use crate::{CpuImage, RunState};
use byteorder::{BigEndian, ByteOrder};

/// The program status word of a CPU: the condition code in bits 2 and 3 and the program mask in bits 4 to 7
/// of byte 2, 1 in byte 3, 80 hex in byte 4, the address in bytes 8 to 15, and zeros elsewhere.
#[tactic(auto, unfolding(crate::specs::Psw::psw_of))]
pub fn psw_of(image: &CpuImage) -> [u8; 16]
    ensures { result ≡ psw_for (cpu_of image.now) }
{
    let mut psw = [0; 16];
    psw[2] = image.condition * 16 + image.mask;
    psw[3] = 0x01;
    psw[4] = 0x80;
    BigEndian::write_u64(&mut psw[8..], image.address);
    psw
}

/// Takes the condition code, the program mask and the address from a program status word.
#[tactic(auto, unfolding(crate::specs::Psw::with_fields))]
fn take_fields(image: &mut CpuImage, psw: &[u8; 16])
    ensures { cpu_of image.new ≡ with_fields psw.now (cpu_of image.old) }
{
    image.condition = psw[2] / 16 % 4;
    image.mask = psw[2] % 16;
    image.address = BigEndian::read_u64(&psw[8..]);
}

fn state_where(runs: bool) -> RunState
    ensures { result ≡ running_where runs }
{
    if runs {
        RunState::Running
    } else {
        RunState::Halted
    }
}

/// Loads a program status word: condition code, program mask and address. The CPU runs then where every other
/// bit is as in `psw_of`, and else it is halted, so that the wait bit halts it.
pub fn load_psw(image: &mut CpuImage, psw: &[u8; 16])
    ensures { cpu_of image.new ≡ loaded psw.now (cpu_of image.old) }
{
    take_fields(image, psw);
    image.state = state_where(psw_of(image) == *psw);
}
