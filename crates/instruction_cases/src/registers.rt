//! Registers, storage, prefixes and ranges at values worked by hand.

use std::alloc::Global;
use std::test::Fail;
use z_regs::{
    Bytes, CpuImage, Guard, Range, RealView, RunState, Storage, Touches, absolute, load_psw, psw_of,
};

/// Storage of zeros.
fn zeros(alloc: Global) -> Result<Storage, Fail> {
    let zeros = vec![in alloc; 0u8; 1048576]?;
    Ok(Storage::open(alloc, zeros.as_slice())?)
}

/// The last byte of storage, once it is 7, the one before it, and how many there are.
fn kept(storage: &mut Storage) -> ([u8; 2], usize) {
    let _size = storage.as_slice();
    storage.put(1048575, 7);
    let bytes = [storage.get(1048575), storage.get(1048574)];
    (bytes, storage.as_slice().len())
}

/// The same of storage of zeros.
fn kept_in_zeros(alloc: Global) -> Result<([u8; 2], usize), Fail> {
    let mut storage = zeros(alloc)?;
    Ok(kept(&mut storage))
}

#[test]
fn storage_keeps_bytes(rt: HostRuntime) -> Result<(), Fail> {
    assert_eq!(rt; kept_in_zeros(rt.alloc())?, ([7, 0], 1048576));
    Ok(())
}

/// Bytes from an address on.
fn range(first: u64, length: u32, store: bool) -> Range {
    Range {
        first,
        length,
        store,
    }
}

/// How many ranges there are before and behind two, and these.
fn added(target: Range, source: Range) -> ([u8; 2], [Range; 2]) {
    let mut touches = Touches::none();
    let before = touches.count();
    touches.add(target);
    touches.add(source);
    let counts = [before, touches.count()];
    (counts, [touches.at(0), touches.at(1)])
}

#[test]
fn ranges_in_order(rt: HostRuntime) {
    let target = range(0x9000, 8, true);
    let source = range(0x9100, 8, false);
    assert_eq!(rt; added(target, source), ([0, 2], [target, source]));
}

/// Address, state and registers of a CPU that enters.
fn entered() -> (u64, RunState, [u64; 16]) {
    let image = CpuImage::entering(0x4000);
    let general = image.general;
    (image.address, image.state, general)
}

#[test]
fn a_cpu_enters(rt: HostRuntime) {
    assert_eq!(rt; entered(), (0x4000, RunState::Running, [0; 16]));
}

/// Whether page 4 is there at first, and pages 4, 255 and 5 once the first two are added.
fn pages() -> [bool; 4] {
    let mut guard = Guard::none();
    let before = guard.has(4);
    guard.add(4);
    guard.add(255);
    [before, guard.has(4), guard.has(255), guard.has(5)]
}

#[test]
fn pages_added_are_there(rt: HostRuntime) {
    assert_eq!(rt; pages(), [false, true, true, false]);
}

/// Addresses of both areas with a prefix, and one without.
fn places() -> [u64; 3] {
    [
        absolute(Some(40_960), 8_191),
        absolute(Some(40_960), 40_960),
        absolute(None, 40_960),
    ]
}

#[test]
fn areas_change_places(rt: HostRuntime) {
    assert_eq!(rt; places(), [49_151, 0, 40_960]);
}

/// The pieces of a range over the edge of an area.
fn pieces() -> u8 {
    let mut touches = Touches::none();
    touches.add(Range {
        first: 0x1ffc,
        length: 8,
        store: true,
    });
    touches.absolute(Some(0xa000)).count()
}

#[test]
fn a_range_is_cut_at_an_edge(rt: HostRuntime) {
    assert_eq!(rt; pieces(), 2);
}

/// A byte of the first area by its real address, and bytes that are put by another.
fn seen(mut storage: Storage) -> [u8; 3] {
    storage.put(0xa005, 7);
    let mut view = RealView::new(storage, Some(0xa000));
    let before = view.get(5);
    view.put(0xa006, 9);
    [before, view.get(0xa006), view.get(6)]
}

/// The same in storage of zeros.
fn seen_in_zeros(alloc: Global) -> Result<[u8; 3], Fail> {
    Ok(seen(zeros(alloc)?))
}

#[test]
fn a_view_by_real_addresses(rt: HostRuntime) -> Result<(), Fail> {
    assert_eq!(rt; seen_in_zeros(rt.alloc())?, [7, 9, 0]);
    Ok(())
}

/// Four bytes that are put over the edge of an area, with the bytes beside them, as they are read again.
fn read_again(storage: Storage) -> [u8; 6] {
    let mut view = RealView::new(storage, Some(0xa000));
    view.put_all(0x1ffe, &[1, 2, 3, 4]);
    let mut six = [0; 6];
    view.read_into(0x1ffd, &mut six);
    six
}

/// The same in storage of zeros.
fn read_in_zeros(alloc: Global) -> Result<[u8; 6], Fail> {
    Ok(read_again(zeros(alloc)?))
}

#[test]
fn an_operand_over_an_edge(rt: HostRuntime) -> Result<(), Fail> {
    assert_eq!(rt; read_in_zeros(rt.alloc())?, [0, 1, 2, 3, 4, 0]);
    Ok(())
}

/// The third byte of a program status word with code 3, the state that it loads, and the state of one that waits.
fn loaded() -> (u8, [RunState; 2]) {
    let mut image = CpuImage::entering(0x4000);
    image.condition = 3;
    let mut psw = psw_of(&image);
    let third = psw[2];
    load_psw(&mut image, &psw);
    let running = image.state;
    psw[1] = 2;
    load_psw(&mut image, &psw);
    (third, [running, image.state])
}

#[test]
fn a_program_status_word(rt: HostRuntime) {
    assert_eq!(rt; loaded(), (0x30, [RunState::Running, RunState::Halted]));
}
