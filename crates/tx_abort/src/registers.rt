//! The general registers that an abort brings back.
ghost use Rattle.std.specs.Prelude.{◌≡◌, ◌<◌};
ghost use Rattle.z_regs.specs.Cpu.{cpu_of};
ghost use Rattle.z_regs.specs.Pairs.{saves_pair};
ghost use Rattle.tx_abort.specs.Registers.{restored, with_restored};

use z_regs::CpuImage;

/// Whether a save mask selects a pair of registers, 0 to 7: bit 0 from the left is for registers 0 and 1.
fn is_saved(mask: u8, pair: u8) -> bool
    requires { pair < 8 }
    ensures { result ≡ saves_pair mask pair }
{
    mask >> (7 - pair) & 1 == 1
}

/// Brings the registers of the selected pairs back.
fn bring_back(general: &mut [u64; 16], saved: &[u64; 16], mask: u8)
    ensures { general.new ≡ restored saved.now mask general.old }
{
    for r in 0..16u8 {
        if is_saved(mask, r / 2) {
            general[usize::from(r)] = saved[usize::from(r)];
        }
    }
}

/// Gives the registers of each pair that the mask selects their saved values. Everything else of the CPU
/// stays as it is.
pub fn restore(image: &mut CpuImage, saved: &[u64; 16], mask: u8)
    ensures { cpu_of image.new ≡ with_restored saved.now mask (cpu_of image.old) }
{
    bring_back(&mut image.general, saved, mask);
}
