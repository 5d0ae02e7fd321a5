//! Program interruptions: those that wait, and what they store and load.
ghost use Rattle.std.specs.Prelude.{◌≡◌, length, IsTrue};
ghost use Rattle.z_regs.specs.Cpu.{cpu_of};
ghost use Rattle.z_regs.specs.Prefix.{is_prefix, storage_size};
ghost use Rattle.tx_serial.specs.Remains.{waiting_with as waits, waiting_after as waits_after};
ghost use Rattle.tx_serial.specs.Remains.{interrupted_after};
ghost use Rattle.tx_serial.specs.Apply.{interruption_code, identified as identified_by, with_block};
ghost use Rattle.tx_serial.specs.Apply.{with_stored_interruption, with_new_psw};
ghost use Rattle.tx_abort.specs.Causes.{cause_of};
ghost use Rattle.tx_abort.specs.Registers.{with_restored};
ghost use Rattle.tx_attempt.specs.Storages.{storage_of};
ghost use Rattle.tx_cpu.specs.Plans.{HasRoom};

use tx_abort::{condition_of, restore};
use tx_attempt::{get_all, put_all};
use tx_control::Why;
use z_regs::{Bytes, CpuImage, RunState, Waiting, load_psw, psw_of};

/// The bit of an interruption code that tells of an aborted transaction.
const ABORTED_BIT: u16 = 0x0200;

/// The real address of the length and the code of an interruption.
const IDENTIFICATION: u64 = 0x8c;

/// The real address of the program status word that is stored.
const OLD_PSW: u64 = 0x150;

/// The real address of the program status word that is loaded.
const NEW_PSW: u64 = 0x1d0;

/// The real address of the diagnostic block that an interruption stores.
const INTERRUPTION_BLOCK: u64 = 0x1800;

/// The interruption that waits on a CPU with a prefix.
pub fn waiting_with(prefix: Option<u32>, length: u8, block: Option<[u8; 256]>) -> Option<Waiting>
    ensures { result ≡ waits prefix length block }
{
    prefix?;
    Some(Waiting { length, block })
}

/// The interruption that waits after an abort with this diagnostic block.
pub fn waiting_after(prefix: Option<u32>, block: [u8; 256], why: Why) -> Option<Waiting>
    ensures { result ≡ waits_after prefix block why }
{
    match why {
        Why::Program(e) => waiting_with(prefix, e.length, Some(block)),
        _ => None,
    }
}

/// The CPU after an abort: the pairs of the mask have their saved values again, and the program goes on at
/// this address.
pub fn leave(image: &mut CpuImage, saved: &CpuImage, mask: u8, resumes_at: u64, why: Why)
    requires { HasRoom why }
    ensures { cpu_of image.new ≡
        interrupted_after why (record (with_restored saved.now.general mask (cpu_of image.old)) {
          address = resumes_at;
          condition = (cause_of why).condition;
        }) }
{
    restore(image, &saved.general, mask);
    image.address = resumes_at;
    image.condition = condition_of(why);
    if let Why::Program(e) = why {
        image.state = RunState::Interrupted(e.code + ABORTED_BIT);
    }
}

/// The code of the interruption that has stopped the CPU, 0 without one.
fn code_of(image: &CpuImage) -> u16
    ensures { result ≡ interruption_code image.now.state }
{
    match image.state {
        RunState::Interrupted(code) => code,
        RunState::Running => 0,
        RunState::Halted => 0,
    }
}

/// The length of the instruction and the interruption code, as they are stored.
fn identified(image: &CpuImage, waiting: &Waiting) -> [u8; 4]
    ensures { result ≡ identified_by (cpu_of image.now) waiting.now }
{
    let code = code_of(image);
    [0, waiting.length, (code / 256) as u8, (code % 256) as u8]
}

/// Stores the diagnostic block of an interruption, where it has one.
fn put_block<V: Bytes>(block: &Option<[u8; 256]>, prefix: Option<u32>, base: &mut V)
    requires prefix_in { IsTrue (is_prefix prefix) }
    requires size { length (V.bytes base.old) ≡ storage_size }
    ensures value { storage_of (V.bytes base.new) ≡
        with_block prefix block.now (storage_of (V.bytes base.old)) }
    ensures size { length (V.bytes base.new) ≡ storage_size }
{
    match block {
        None => {}
        Some(bytes) => put_all(bytes, INTERRUPTION_BLOCK, prefix, base),
    }
}

/// Stores what an interruption tells.
pub fn store<V: Bytes>(image: &CpuImage, waiting: &Waiting, base: &mut V)
    requires { length (V.bytes base.old) ≡ storage_size }
    ensures value { storage_of (V.bytes base.new) ≡
        with_stored_interruption (cpu_of image.now) waiting.now (storage_of (V.bytes base.old)) }
    ensures size { length (V.bytes base.new) ≡ storage_size }
{
    let identification = identified(image, waiting);
    let psw = psw_of(image);
    put_all(&identification, IDENTIFICATION, image.prefix, base);
    put_all(&psw, OLD_PSW, image.prefix, base);
    put_block(&waiting.block, image.prefix, base);
}

/// Loads the new program status word.
pub fn load<V: Bytes>(image: &mut CpuImage, base: &V)
    requires { length (V.bytes base.now) ≡ storage_size }
    ensures { cpu_of image.new ≡ with_new_psw (cpu_of image.old) (storage_of (V.bytes base.now)) }
{
    let mut psw = [0; 16];
    get_all(&mut psw, NEW_PSW, image.prefix, base);
    load_psw(image, &psw);
}
