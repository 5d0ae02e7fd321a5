//! Attempts of a CPU that is alone with storage: what it sees and touches, and which are the same.
ghost use Rattle.std.specs.Prelude.{◌<◌, ◌^◌, ◌+◌, IsTrue};
ghost use Rattle.tx_cpu.specs.Parts.{local_of};

use std::alloc::Global;
use std::sync::Arc;
use std::test::Fail;
use tx_control::Why;
use tx_cpu::{Cpu, Plan, Program};
use tx_journal::Image;
use z_assemble::assemble;
use z_regs::{Bytes, Storage};

/// A CPU that is alone with storage.
#[derive(Drop)]
struct Alone {
    cpu: Cpu,
    base: Storage,
}

/// Whether an attempt of the CPU may count one instruction more.
fn may_count(cpu: &Cpu) -> bool
    ensures { IsTrue result → (local_of cpu.now).attempt.count + 1 < 2 ^ 32 }
{
    match cpu.live() {
        None => true,
        Some((_, count)) => count < 1_000_000,
    }
}

/// The first CPU of an image.
fn first_cpu(alloc: Global, image: &Image) -> Result<Cpu, Fail> {
    let _count = image.cpu_count();
    let start = image.cpus.first().ok_or("no CPU")?;
    Ok(Cpu::open(alloc, *start)?)
}

/// The storage of an image.
fn storage_of(alloc: Global, image: &Image) -> Result<Storage, Fail> {
    let _count = image.cpu_count();
    Ok(Storage::open(alloc, image.storage.as_slice())?)
}

impl Alone {
    /// The first CPU of an image, with its storage.
    fn open(alloc: Global, image: &Image) -> Result<Alone, Fail> {
        let cpu = first_cpu(alloc, image)?;
        let base = storage_of(alloc, image)?;
        Ok(Alone { cpu, base })
    }

    /// Executes the next instruction, where it goes.
    fn step(&mut self, program: &Program) {
        let _size = self.base.as_slice();
        if let Plan::Go { instr, need } = self.cpu.prepare(program) {
            if may_count(&self.cpu) {
                let _done = self.cpu.execute(&instr, &need, &mut self.base);
            }
        }
    }

    /// Executes so many instructions.
    fn walk(&mut self, program: &Program, count: u32) {
        for _ in 0..count {
            self.step(program);
        }
    }

    /// Aborts the attempt by an interruption from outside, where there is one.
    fn interrupt(&mut self) {
        let at = self.cpu.image().address;
        let _size = self.base.as_slice();
        if self.cpu.live().is_some() {
            let _count = self.cpu.abort(Why::External, at, &mut self.base);
        }
    }

    /// Bytes that the CPU sees over storage, one of storage, and what the attempt has touched: how many lines
    /// and blocks, whether line 145 as stored, and whether line 146 as fetched.
    fn seen_and_touched(&self) -> [u32; 8] {
        let _size = self.base.as_slice();
        let footprint = self.cpu.footprint();
        [
            u32::from(self.cpu.seen(0x90FC, &self.base)),
            u32::from(self.cpu.seen(0x9103, &self.base)),
            u32::from(self.cpu.seen(0x9104, &self.base)),
            u32::from(self.base.get(0x90FC)),
            footprint.lines(),
            footprint.blocks(),
            u32::from(footprint.stored(145)),
            u32::from(footprint.fetched(146)),
        ]
    }
}

/// The program of a listing.
fn read(alloc: Global, listing: &str) -> Result<Program, Fail> {
    let image = assemble(alloc, listing.as_bytes())?;
    Ok(Program::open(alloc, Arc::new(alloc, image)?)?)
}

/// The CPU of a program after some instructions.
fn after(alloc: Global, listing: &str, count: u32) -> Result<Alone, Fail> {
    let program = read(alloc, listing)?;
    let mut alone = Alone::open(alloc, program.image())?;
    alone.walk(&program, count);
    Ok(alone)
}

/// A transaction stores eight bytes over two lines, and loads them again.
const STORES: &str =
    " CPU X'4000'\n TBEGIN 0,0\n STG 1,X'90FC'\n LG 2,X'90FC'\n LG 3,X'9200'\n SVC 0\n \
    REG 0,1,X'0102030405060708'\n END\n";

/// What a CPU sees and has touched, and the same behind the abort of its attempt.
fn inside_and_behind(alone: &mut Alone) -> [[u32; 8]; 2] {
    let inside = alone.seen_and_touched();
    alone.interrupt();
    [inside, alone.seen_and_touched()]
}

/// The same of the transaction that stores.
fn stored(alloc: Global) -> Result<[[u32; 8]; 2], Fail> {
    let mut alone = after(alloc, STORES, 4)?;
    Ok(inside_and_behind(&mut alone))
}

#[test]
fn what_an_attempt_sees_and_touches(rt: HostRuntime) -> Result<(), Fail> {
    let seen = stored(rt.alloc())?;
    assert_eq!(rt; seen, [[1, 8, 0, 0, 3, 2, 1, 1], [0; 8]]);
    Ok(())
}

/// What a CPU sees and has touched once it is made equal to another, and its register 2.
fn made_equal(second: &mut Alone, first: &Alone) -> ([u32; 8], u64) {
    second.cpu.copy_from(&first.cpu);
    let register = second.cpu.image().general[2];
    (second.seen_and_touched(), register)
}

/// The same of a CPU in a constrained attempt.
fn copied(alloc: Global) -> Result<([u32; 8], u64), Fail> {
    let first = after(alloc, STORES, 4)?;
    let mut second = after(alloc, LOADS, 3)?;
    Ok(made_equal(&mut second, &first))
}

#[test]
fn a_cpu_that_is_made_equal(rt: HostRuntime) -> Result<(), Fail> {
    let seen = copied(rt.alloc())?;
    let wanted = ([1, 8, 0, 0, 3, 2, 1, 1], 0x0102_0304_0506_0708);
    assert_eq!(rt; seen, wanted);
    Ok(())
}

/// Constrained loads from two octowords of one line.
const LOADS: &str = " CPU X'4000'\n TBEGINC 0,0\n LG 1,X'9000'\n LG 2,X'9020'\n TEND\n END\n";

/// The same in the other order.
const LOADS_BACKWARDS: &str =
    " CPU X'4000'\n TBEGINC 0,0\n LG 1,X'9020'\n LG 2,X'9000'\n TEND\n END\n";

/// Constrained loads from other octowords of that line.
const OTHER_LOADS: &str = " CPU X'4000'\n TBEGINC 0,0\n LG 1,X'9000'\n LG 2,X'9040'\n TEND\n END\n";

/// The same loads as the first behind a TBEGINC at another address.
const LATER_LOADS: &str =
    " CPU X'4000'\n LGHI 3,1\n TBEGINC 0,0\n LG 1,X'9000'\n LG 2,X'9020'\n TEND\n END\n";

/// The loads in a transaction without constraints, and other ones in another.
const FREE_LOADS: &str = " CPU X'4000'\n TBEGIN 0,0\n LG 1,X'9000'\n LG 2,X'9020'\n TEND\n END\n";

const OTHER_FREE_LOADS: &str =
    " CPU X'4000'\n TBEGIN 0,0\n LG 1,X'9000'\n LG 2,X'9040'\n TEND\n END\n";

/// Stores where the others load.
const FREE_STORES: &str =
    " CPU X'4000'\n TBEGIN 0,0\n STG 1,X'9000'\n STG 2,X'9020'\n TEND\n END\n";

/// Two programs, each with a number of instructions, and whether their CPUs have the same attempt then.
static ATTEMPTS: [(&str, u32, &str, u32, bool); 12] = [
    (LOADS, 0, FREE_STORES, 0, true),
    (LOADS, 3, LOADS, 3, true),
    (LOADS, 3, LOADS_BACKWARDS, 3, true),
    (LOADS, 2, LOADS, 3, false),
    (LOADS, 0, LOADS, 1, false),
    (LOADS, 3, OTHER_LOADS, 3, false),
    (LOADS, 3, LATER_LOADS, 4, false),
    (LOADS, 3, FREE_LOADS, 3, false),
    (FREE_LOADS, 3, OTHER_FREE_LOADS, 3, true),
    (FREE_LOADS, 1, FREE_LOADS, 2, false),
    (FREE_LOADS, 3, FREE_STORES, 3, false),
    (LOADS, 4, FREE_STORES, 4, true),
];

/// Whether the attempts of two CPUs are the same.
fn have_same(first: &Alone, second: &Alone) -> bool {
    first.cpu.same_attempt(&second.cpu)
}

/// Whether both programs have the same attempt after their instructions.
fn are_same(alloc: Global, one: &str, count: u32, other: &str, more: u32) -> Result<bool, Fail> {
    let first = after(alloc, one, count)?;
    let second = after(alloc, other, more)?;
    Ok(have_same(&first, &second))
}

#[test]
fn attempts_that_are_the_same(rt: HostRuntime) -> Result<(), Fail> {
    for (one, count, other, more, same) in &ATTEMPTS {
        let answer = are_same(rt.alloc(), one, *count, other, *more)?;
        assert_eq!(rt; answer, *same, "{one}");
    }
    Ok(())
}

/// Programs, and which of their first eight instructions are plain ones. Those are not: a store over two lines, one
/// into the program, a load that breaks a constraint, a begin that names a block, one inside another, and one with a
/// filtering that there is not. Behind the second, the third and the last the program does not go on.
static PLAIN: [(&str, [bool; 8]); 4] = [
    (
        " CPU X'4000'\n LGHI 3,1\n TBEGIN 0,0\n LG 1,X'9000'\n NTSTG 1,X'90F8'\n STG 1,X'90FC'\n AGR 1,3\n TEND\n \
        TEND\n END\n",
        [true, true, true, true, false, true, true, true],
    ),
    (
        " CPU X'4000'\n LGHI 3,1\n TBEGIN 0,0\n STG 1,X'4800'\n TEND\n END\n",
        [true, true, false, false, false, false, false, false],
    ),
    (
        " CPU X'4000'\n LGHI 3,1\n TBEGINC 0,0\n LG 1,X'9000'\n STG 1,X'9008'\n AGR 1,3\n LG 1,X'9004'\n TEND\n \
        END\n",
        [true, true, true, true, true, false, false, false],
    ),
    (
        " CPU X'4000'\n LGHI 5,X'7000'\n TBEGIN 0(5),0\n TBEGIN 0,0\n TEND\n TEND\n TBEGIN 0,3\n END\n",
        [true, false, false, true, true, false, false, false],
    ),
];

impl Alone {
    /// Whether the next instruction is a plain one.
    fn is_plain(&self, program: &Program) -> bool {
        self.cpu.plain(program).is_some()
    }

    /// Which of the next eight instructions are plain ones.
    fn plain_ones(&mut self, program: &Program) -> [bool; 8] {
        let mut found = [false; 8];
        for plain in &mut found {
            *plain = self.is_plain(program);
            self.step(program);
        }
        found
    }
}

/// Which of the first eight instructions of a program are plain ones.
fn plain_ones(alloc: Global, listing: &str) -> Result<[bool; 8], Fail> {
    let program = read(alloc, listing)?;
    let mut alone = Alone::open(alloc, program.image())?;
    Ok(alone.plain_ones(&program))
}

#[test]
fn plain_instructions(rt: HostRuntime) -> Result<(), Fail> {
    for (listing, plain) in &PLAIN {
        let found = plain_ones(rt.alloc(), listing)?;
        assert_eq!(rt; found, *plain, "{listing}");
    }
    Ok(())
}
