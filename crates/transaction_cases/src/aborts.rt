//! Expected blocks are those of an independent model of the machine, as doublewords: bytes 0 to 39, and the
//! registers from byte 128 on. All between is zero.

use byteorder::{BigEndian, ByteOrder};
use tx_abort::{BLOCK_SIZE, block_of, code_of, condition_of, restore};
use tx_control::{Begin, Exception, MOST_LEVELS, Nest, Why};
use z_regs::CpuImage;

/// A begin inside others differs from the outermost one in all that an abort asks of a begin.
const INNER: Begin = Begin {
    mask: 0xFF,
    a: true,
    f: true,
    pifc: 2,
    block: Some(0xA000),
    constrained: true,
};

const ALL_DIFFERENT: [u64; 16] = [
    0x0102030405060708,
    0x1213141516171819,
    0x232425262728292A,
    0x3435363738393A3B,
    0x45464748494A4B4C,
    0x565758595A5B5C5D,
    0x6768696A6B6C6D6E,
    0x78797A7B7C7D7E7F,
    0x898A8B8C8D8E8F90,
    0x9A9B9C9D9E9FA0A1,
    0xABACADAEAFB0B1B2,
    0xBCBDBEBFC0C1C2C3,
    0xCDCECFD0D1D2D3D4,
    0xDEDFE0E1E2E3E4E5,
    0xEFF0F1F2F3F4F5F6,
    0x0102030405060707,
];

/// Registers 1, 2 and 5 of a program that has set these alone.
const FEW: [u64; 16] = [0, 0xB, 0xC, 0, 0, 0x9000, 0, 0, 0, 0, 0, 0, 0, 0, 0, 0];

const CONSTRAINT: Exception = Exception {
    code: 0x0018,
    fetch: false,
    length: 6,
};

const SPECIFICATION: Exception = Exception {
    code: 0x0006,
    fetch: false,
    length: 4,
};

/// An address whose bytes all differ.
const FAR: u64 = 0xFEDCBA9876543210;

/// Abort codes and blocks: the cause of an abort, the nesting depth and the kind of the outermost begin, the
/// registers, the address that is told, and the block's doublewords from its first byte on. The last four are
/// blocks that programs of the model have left.
const BLOCKS: [(Why, u8, bool, [u64; 16], u64, [u64; 5]); 15] = [
    (
        Why::External,
        2,
        false,
        ALL_DIFFERENT,
        0x4020,
        [0x0100000000000002, 2, 0, 0x4020, 0],
    ),
    (
        Why::Program(CONSTRAINT),
        1,
        true,
        ALL_DIFFERENT,
        0x4020,
        [0x0140000000000001, 4, 0, 0x4020, 0x60018],
    ),
    (
        Why::FetchOverflow,
        2,
        false,
        ALL_DIFFERENT,
        0x4020,
        [0x0100000000000002, 7, 0, 0x4020, 0],
    ),
    (
        Why::StoreOverflow,
        2,
        false,
        ALL_DIFFERENT,
        0x4020,
        [0x0100000000000002, 8, 0, 0x4020, 0],
    ),
    (
        Why::FetchConflict(144),
        2,
        false,
        ALL_DIFFERENT,
        0x4020,
        [0x0180000000000002, 9, 0x9000, 0x4020, 0],
    ),
    (
        Why::StoreConflict(4095),
        2,
        false,
        ALL_DIFFERENT,
        0x4020,
        [0x0180000000000002, 10, 0xFFF00, 0x4020, 0],
    ),
    (
        Why::Restricted,
        2,
        false,
        ALL_DIFFERENT,
        0x4020,
        [0x0100000000000002, 11, 0, 0x4020, 0],
    ),
    (
        Why::Filtered(SPECIFICATION),
        2,
        false,
        ALL_DIFFERENT,
        0x4020,
        [0x0100000000000002, 12, 0, 0x4020, 0x40006],
    ),
    (
        Why::Depth,
        16,
        false,
        ALL_DIFFERENT,
        0x4020,
        [0x0100000000000010, 13, 0, 0x4020, 0],
    ),
    (
        Why::Starved,
        1,
        true,
        ALL_DIFFERENT,
        0x4020,
        [0x0140000000000001, 255, 0, 0x4020, 0],
    ),
    (
        Why::Tabort(256),
        2,
        false,
        ALL_DIFFERENT,
        FAR,
        [0x0100000000000002, 256, 0, FAR, 0],
    ),
    (
        Why::Tabort(257),
        1,
        false,
        FEW,
        0x4020,
        [0x0100000000000001, 257, 0, 0x4020, 0],
    ),
    (
        Why::Filtered(SPECIFICATION),
        1,
        false,
        FEW,
        0x4020,
        [0x0100000000000001, 12, 0, 0x4020, 0x40006],
    ),
    (
        Why::Program(SPECIFICATION),
        1,
        false,
        FEW,
        0x4020,
        [0x0100000000000001, 4, 0, 0x4020, 0x40006],
    ),
    (
        Why::Program(CONSTRAINT),
        1,
        true,
        [0; 16],
        0x4006,
        [0x0140000000000001, 4, 0, 0x4006, 0x60018],
    ),
];

/// A nest whose outermost begin is of this kind, and has others inside it.
fn nest_of(depth: u8, constrained: bool) -> Nest {
    let mut nest = Nest::none();
    nest.enter(Begin {
        mask: 0x80,
        a: true,
        f: true,
        pifc: 0,
        block: Some(0x9000),
        constrained,
    });
    for _ in 1..depth {
        if (nest.depth() as usize) < MOST_LEVELS {
            nest.enter(INNER);
        }
    }
    nest
}

/// The doubleword at a place of the block, 0 to 31.
fn doubleword(block: &[u8; BLOCK_SIZE], k: usize) -> u64 {
    if k < 32 {
        BigEndian::read_u64(&block[8 * k..])
    } else {
        0
    }
}

/// Whether the doublewords of a block from a place on are these.
fn has_from(block: &[u8; BLOCK_SIZE], from: usize, doublewords: &[u64]) -> bool {
    for (k, due) in doublewords.iter().enumerate() {
        if doubleword(block, from.saturating_add(k)) != *due {
            return false;
        }
    }
    true
}

/// Whether the block of an abort has this head, and then zeros, and the registers at its end.
fn is_told(why: Why, nest: &Nest, general: [u64; 16], at: u64, head: &[u64; 5]) -> bool {
    if nest.depth() == 0 {
        return false;
    }
    let mut image = CpuImage::entering(0x5000);
    image.general = general;
    let block = block_of(why, nest, &image, at);
    has_from(&block, 0, head) && has_from(&block, 5, &[0; 11]) && has_from(&block, 16, &general)
}

#[test]
fn blocks_of_all_causes(rt: HostRuntime) {
    for (why, depth, constrained, general, at, head) in BLOCKS {
        let nest = nest_of(depth, constrained);
        assert!(rt; is_told(why, &nest, general, at, &head), "{head:?}");
    }
}

#[test]
fn condition_codes(rt: HostRuntime) {
    let table = [
        (Why::External, 2),
        (Why::Program(SPECIFICATION), 3),
        (Why::FetchOverflow, 3),
        (Why::StoreOverflow, 3),
        (Why::FetchConflict(1), 2),
        (Why::StoreConflict(1), 2),
        (Why::Restricted, 3),
        (Why::Filtered(SPECIFICATION), 3),
        (Why::Depth, 3),
        (Why::Starved, 2),
        (Why::Tabort(256), 2),
        (Why::Tabort(257), 3),
        (Why::Tabort(u64::MAX), 3),
    ];
    for (why, condition) in table {
        assert_eq!(rt; condition_of(why), condition);
    }
    let codes = [code_of(Why::Starved), code_of(Why::Tabort(u64::MAX))];
    assert_eq!(rt; codes, [255, u64::MAX]);
}

/// The registers once those that a mask selects are given back.
fn restored(image: &mut CpuImage, mask: u8) -> [u64; 16] {
    restore(image, &ALL_DIFFERENT, mask);
    image.general
}

#[test]
fn pairs_come_back(rt: HostRuntime) {
    let mut image = CpuImage::entering(0x5000);
    image.general = [7; 16];
    let none = restored(&mut image, 0x00);
    let three = restored(&mut image, 0xA1);
    let all = restored(&mut image, 0xFF);
    let [first, second, _, _, fifth, sixth, .., last_but_one, last] = ALL_DIFFERENT;
    let due = [
        first,
        second,
        7,
        7,
        fifth,
        sixth,
        7,
        7,
        7,
        7,
        7,
        7,
        7,
        7,
        last_but_one,
        last,
    ];
    let told = ([none, three, all], image.address);
    assert_eq!(rt; told, ([[7; 16], due, ALL_DIFFERENT], 0x5000));
}
