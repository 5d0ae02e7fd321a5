//! What the steps of a run come to when they are given to another CPU and other storage.
ghost use Rattle.std.specs.Prelude.{◌<◌, ◌^◌, ◌+◌, IsTrue};
ghost use Rattle.tx_cpu.specs.Parts.{local_of};

use crate::runs::may_be_lent;
use tx_cpu::{Cpu, Plan, Program};
use tx_run::{Difference, Run};
use z_regs::{Bytes, Storage};

/// Executes so many instructions of a CPU, where they go.
pub(crate) fn walk(cpu: &mut Cpu, program: &Program, count: u32, base: &mut Storage) {
    for _ in 0..count {
        let _size = base.as_slice();
        if let Plan::Go { instr, need } = cpu.prepare(program) {
            if may_be_lent(cpu) {
                let _done = cpu.execute(&instr, &need, base);
            }
        }
    }
}

/// Gives a run's steps to another CPU, which is made equal to the one that was lent, and to storage, where it sees all bytes
/// alike; else which byte it sees otherwise.
fn give(run: &Run, into: &mut Cpu, base: &mut Storage) -> Option<Difference> {
    let _size = base.as_slice();
    into.copy_from(run.start());
    let difference = run.first_difference(into, base);
    if difference.is_none() {
        run.give(into, base);
    }
    difference
}

/// Of a CPU and storage: registers 1 and 2, the address, how many instructions its attempt has completed, what it sees at
/// X'9007' and X'900F', and what storage has there.
pub(crate) type Left = ([u64; 3], Option<(u32, u32)>, [u8; 4]);

fn left(cpu: &Cpu, base: &Storage) -> Left {
    let _size = base.as_slice();
    let image = cpu.image();
    let registers = [image.general[1], image.general[2], image.address];
    let bytes = [
        cpu.seen(0x9007, base),
        cpu.seen(0x900F, base),
        base.get(0x9007),
        base.get(0x900F),
    ];
    (registers, cpu.live(), bytes)
}

/// Puts a byte at X'9007'.
fn put(base: &mut Storage, byte: u8) {
    let _size = base.as_slice();
    base.put(0x9007, byte);
}

/// The byte that another CPU sees otherwise on storage in which 40 stands at X'9007', and what is left of that CPU where it
/// sees all bytes alike.
pub(crate) type Given = (Option<Difference>, Left);

pub(crate) fn given_by(run: &Run, into: &mut Cpu, base: &mut Storage) -> Given {
    put(base, 40);
    let difference = give(run, into, base);
    put(base, 41);
    let _none = give(run, into, base);
    (difference, left(into, base))
}
