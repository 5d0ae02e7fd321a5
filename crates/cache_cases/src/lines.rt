//! Lines with copies: two CPUs, of which one stores into a line that it holds exclusively.
ghost use Rattle.std.specs.Prelude.{◌≡◌, ◌<◌, ◌≤◌, ◌+◌, length};
ghost use Rattle.line_copies.specs.Seen.{holdings_of};

use line_copies::{CoherentLines, Handback, Held, Window};
use line_table::Mode;
use std::alloc::Global;
use std::marker::Brand;
use std::test::Fail;
use z_regs::Bytes;

/// The address where line 144 begins.
const FIRST: u32 = 36864;

/// How much there is; a byte, and the number in eight, from outside; how the first CPU holds line 144, who is
/// the first to hold it, and which line the first CPU holds first.
type Looks = (usize, u8, u64, Option<Mode>, Option<u32>, Option<u32>);

/// Adds one to the number in eight bytes, and copies its last byte to the end of the next eight. Then, of all
/// sixteen as one operand, the first becomes what the last is, and the ninth what the eighth is. This is code
/// that knows bytes alone. Gives the number as it was.
fn count_up<V: Bytes>(view: &mut V, address: u64) -> u64
    requires inside { address + 16 ≤ length (V.bytes view.old) }
    requires low { address < 1048576 }
{
    let number = view.word(address, 8);
    view.put_word(address, 8, number.wrapping_add(1));
    let last = view.get(address + 7);
    view.put(address + 15, last);
    let mut sixteen = [0u8; 16];
    view.read_into(address, &mut sixteen);
    sixteen[0] = sixteen[15];
    sixteen[8] = sixteen[7];
    view.put_all(address, &sixteen);
    number
}

/// The same through a window on lines.
fn count_up_in<'a, H: Held>(
    lines: &'a mut CoherentLines,
    cpu: u32,
    address: u64,
) -> Handback<'a, u64>
    requires cpu { cpu < lines.old.cpus }
    requires held { holdings_of lines.old ≡ H.held }
    requires name { lines.ghost_name ≡ H.name }
    requires inside { address + 16 ≤ 1048576 }
    ensures held { holdings_of result.lines.now ≡ holdings_of lines.old }
    ensures same_reference { result.lines.ghost_name ≡ lines.entry.ghost_name }
{
    let mut window: Window<'a, H> = Window::open(lines, cpu);
    let number = count_up(&mut window, address);
    window.close(number)
}

/// The same of lines as one CPU sees them. Nobody gets or loses a line.
fn count_up_at(lines: &mut CoherentLines, cpu: u32, address: u64) -> u64
    requires cpu { cpu < lines.old.cpus }
    requires inside { address + 16 ≤ 1048576 }
    ensures { holdings_of lines.new ≡ holdings_of lines.old }
{
    let Handback { value, .. } = count_up_in::<Brand>(lines, cpu, address);
    value
}

/// The numbers in eight bytes that the two CPUs see at the end of line 143 and at the beginning of line 144.
fn numbers(lines: &CoherentLines) -> [u64; 4]
    requires { lines.now.cpus ≡ 2 }
{
    [
        lines.fetch_word(Some(0), FIRST - 4, 8),
        lines.fetch_word(Some(1), FIRST - 4, 8),
        lines.fetch_word(Some(0), FIRST, 8),
        lines.fetch_word(Some(1), FIRST, 8),
    ]
}

/// What else is seen of the lines.
fn looks(lines: &CoherentLines) -> Looks
    requires { lines.now.cpus ≡ 2 }
{
    let size = lines.size();
    let mode = lines.mode_of(0, 144);
    let (holder, line) = (lines.next_holder(144, 0), lines.next_line(0, 0));
    let (byte, number) = (lines.byte(FIRST + 15), lines.word(u64::from(FIRST) - 4, 8));
    (size, byte, number, mode, holder, line)
}

/// What is seen when the first CPU has counted up in line 144, which it holds exclusively; when it has
/// also done so across the end of line 143; and when each of them has line 144 in shared mode, and then the
/// first one no longer. And what else is seen in between.
fn seen(alloc: Global, bytes: &[u8]) -> Result<([[u64; 4]; 4], Looks), Fail>
    requires { length bytes.now ≡ 1048576 }
{
    let mut lines = CoherentLines::open(alloc, bytes, 2)?;
    if lines.held(0) >= 384 {
        return Err("no room")?;
    }
    lines.grant(0, 144, Mode::Exclusive);
    count_up_at(&mut lines, 0, u64::from(FIRST));
    let inside = numbers(&lines);
    let between = looks(&lines);
    count_up_at(&mut lines, 0, u64::from(FIRST) - 4);
    let across = numbers(&lines);
    lines.demote(0, 144);
    if lines.held(1) >= 384 {
        return Err("no room")?;
    }
    lines.grant(1, 144, Mode::Shared);
    let shared = numbers(&lines);
    lines.give_up(0, 144);
    Ok(([inside, across, shared, numbers(&lines)], between))
}

/// The same of storage of zeros.
fn seen_in_zeros(alloc: Global) -> Result<([[u64; 4]; 4], Looks), Fail> {
    let bytes = vec![in alloc; 0; 1_048_576]?;
    seen(alloc, &bytes)
}

#[test]
fn an_exclusive_copy_is_seen_by_all(rt: HostRuntime) -> Result<(), Fail> {
    let told = seen_in_zeros(rt.alloc())?;
    let between = (
        1_048_576,
        1,
        0x100_0000,
        Some(Mode::Exclusive),
        Some(0),
        Some(144),
    );
    let (low, first) = (0x100_0000, 0x100_0000_0000_0001);
    let inside = [low, low, first, first];
    let (low, first) = (0x100_0000_0100_0001, 0x100_0001_0100_0001);
    let across = [low, low, first, first];
    assert_eq!(rt; told, ([inside, across, across, across], between));
    Ok(())
}
