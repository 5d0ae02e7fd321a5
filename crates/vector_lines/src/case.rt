//! Lines that tell the effect of one instruction.
ghost use Rattle.std.specs.Prelude.{◌<◌, IfSome};

use crate::code::Code;
use crate::fault::Fault;
use crate::numbers::{first_word, hexadecimal, number, value};
use crate::piece::{Piece, add_pieces};
use std::alloc::Global;
use z_regs::{CpuImage, RunState};

/// A CPU, and storage that is zero outside of the pieces.
#[derive(Drop)]
pub struct Scene {
    /// The CPU.
    pub image: CpuImage,
    /// What storage holds that is not zero.
    pub pieces: Vec<Piece>,
}

/// Which registers words have given, general and access registers.
#[derive(Clone, Copy)]
struct Given {
    general: [bool; 16],
    access: [bool; 16],
}

/// An instruction, and the CPU and storage before and after it.
#[derive(Drop)]
pub struct Case {
    /// The bytes of the instruction.
    pub code: Code,
    /// What it finds.
    pub before: Scene,
    /// What it leaves.
    pub after: Scene,
    /// The code of the exception that came, if one did.
    pub exception: Option<u16>,
}

/// A running CPU of whose registers nothing is said: a general register holds C3A5F00D96E10000 with its
/// number in bits 52 to 55 and what is left to 15 in bits 60 to 63, an access register zero.
fn unnamed() -> CpuImage {
    let mut general = [0; 16];
    for r in 0..16u8 {
        general[usize::from(r)] = 0xC3A5_F00D_96E1_0000 + 256 * u64::from(r) + u64::from(15 - r);
    }
    CpuImage {
        general,
        access: [0; 16],
        address: 0,
        condition: 0,
        mask: 0,
        state: RunState::Running,
        prefix: None,
    }
}

/// The number of a register, 0 to 15, in decimal.
fn register(text: &str) -> Option<usize>
    ensures { IfSome result (λ r. r < 16) }
{
    match text.parse::<usize>() {
        Ok(r) if r < 16 => Some(r),
        _ => None,
    }
}

/// The number of a register that was not given before, which is given now.
fn give(given: &mut [bool; 16], name: &str) -> Option<usize>
    ensures { IfSome result (λ r. r < 16) }
{
    let r = register(name)?;
    if given[r] {
        return None;
    }
    given[r] = true;
    Some(r)
}

/// A number with one hexadecimal digit behind a key, below a limit of at most 16, and the further words.
fn digit<'a>(words: &'a str, key: &str, limit: u8) -> Option<(u8, &'a str)>
    ensures { IfSome result (λ n. n.0 < limit) }
{
    match number(words, key) {
        Some((number, rest)) if number < u64::from(limit) => Some((number as u8, rest)),
        _ => None,
    }
}

/// Takes condition code and program mask from the first words, and gives the further ones.
fn take_codes<'a>(image: &mut CpuImage, words: &'a str) -> Option<&'a str> {
    let (condition, rest) = digit(words, "cc=", 4)?;
    let (mask, rest) = digit(rest, "pm=", 16)?;
    image.condition = condition;
    image.mask = mask;
    Some(rest)
}

/// The exception's code, if the first word gives one, and the further words.
fn exception_of<'a>(words: &'a str) -> Option<(Option<u16>, &'a str)> {
    match value(words, "x=") {
        Some((code, rest)) => match hexadecimal(code) {
            Some(code) if code < 0x1_0000 => Some((Some(code as u16), rest)),
            _ => None,
        },
        None => Some((None, words)),
    }
}

/// Takes the state, if the first word gives one, and gives the further words. Only one state of a CPU has a word.
fn take_state<'a>(image: &mut CpuImage, words: &'a str) -> Option<&'a str> {
    match value(words, "state=") {
        Some(("halted", rest)) => {
            image.state = RunState::Halted;
            Some(rest)
        }
        Some(_) => None,
        None => {
            image.state = RunState::Running;
            Some(words)
        }
    }
}

/// Takes an access register.
fn take_access(image: &mut CpuImage, r: usize, value: u64) -> Option<()>
    requires { r < 16 }
{
    if value >= 0x1_0000_0000 {
        return None;
    }
    image.access[r] = value as u32;
    Some(())
}

/// Takes the register that a word gives and that no word has given yet; none where the word is malformed.
fn take_register(image: &mut CpuImage, given: &mut Given, word: &str) -> Option<()> {
    let (name, value) = word.split_once('=')?;
    let value = hexadecimal(value)?;
    match name.strip_prefix('r') {
        Some(name) => {
            image.general[give(&mut given.general, name)?] = value;
            Some(())
        }
        None => {
            let r = give(&mut given.access, name.strip_prefix('a')?)?;
            take_access(image, r, value)
        }
    }
}

impl Scene {
    /// A CPU, and storage that is zero.
    fn of(alloc: Global, image: CpuImage) -> Scene {
        Scene {
            image,
            pieces: Vec::new(alloc),
        }
    }

    /// Takes registers as words say, and the pieces of storage that they name; malformed where two words give
    /// the same.
    fn take_all(&mut self, alloc: Global, text: &str) -> Result<(), Fault> {
        if text.is_empty() {
            return Ok(());
        }
        let mut given = Given {
            general: [false; 16],
            access: [false; 16],
        };
        for word in text.split(' ') {
            self.take(alloc, word, &mut given)?;
        }
        Ok(())
    }

    /// Takes a register or pieces of storage that no word has given yet.
    fn take(&mut self, alloc: Global, word: &str, given: &mut Given) -> Result<(), Fault> {
        match word.strip_prefix("m=") {
            Some(pieces) => add_pieces(&mut self.pieces, alloc, pieces),
            None => take_register(&mut self.image, given, word).ok_or(Fault::Malformed),
        }
    }
}

/// Takes what stands before the registers and the storage, and gives the code and these.
fn take_opening<'a>(image: &mut CpuImage, text: &'a str) -> Option<(&'a str, &'a str)> {
    let (_name, rest) = first_word(text);
    let (_by, rest) = value(rest, "by=")?;
    let (address, rest) = number(rest, "ia=")?;
    let (code, rest) = value(rest, "code=")?;
    image.address = address;
    Some((code, take_codes(image, rest)?))
}

/// Takes what an instruction leaves of the CPU before it, and gives the exception's code, and the registers and the
/// storage as text.
fn take_ending<'a>(image: &mut CpuImage, text: &'a str) -> Option<(Option<u16>, &'a str)> {
    let (address, rest) = number(text, "at=")?;
    image.address = address;
    let (exception, rest) = exception_of(take_codes(image, rest)?)?;
    Some((exception, take_state(image, rest)?))
}

/// What stands before the arrow and behind it.
#[derive(Clone, Copy)]
struct Halves<'a> {
    code: &'a str,
    /// The registers and the storage before the instruction.
    before: &'a str,
    /// All that is behind it.
    after: &'a str,
}

impl<'a> Halves<'a> {
    /// The halves of a line, and the CPU before the instruction but for its registers.
    fn read(image: &mut CpuImage, line: &'a str) -> Option<Halves<'a>> {
        let (opening, after) = line.split_once(" => ")?;
        let (code, before) = take_opening(image, opening)?;
        Some(Halves {
            code,
            before,
            after,
        })
    }
}

impl Case {
    /// A case as a line tells it.
    pub fn read(alloc: Global, line: &str) -> Result<Case, Fault> {
        let mut image = unnamed();
        let Some(halves) = Halves::read(&mut image, line) else {
            return Err(Fault::Malformed);
        };
        let code = Code::read(alloc, halves.code)?;
        let mut case = Case {
            code,
            before: Scene::of(alloc, image),
            after: Scene::of(alloc, image),
            exception: None,
        };
        case.take(alloc, halves)?;
        Ok(case)
    }

    /// Takes registers and storage before the instruction, and all that is behind it.
    fn take(&mut self, alloc: Global, halves: Halves) -> Result<(), Fault> {
        self.before.take_all(alloc, halves.before)?;
        self.after.image = self.before.image;
        let Some((exception, rest)) = take_ending(&mut self.after.image, halves.after) else {
            return Err(Fault::Malformed);
        };
        self.exception = exception;
        self.after.take_all(alloc, rest)
    }
}
