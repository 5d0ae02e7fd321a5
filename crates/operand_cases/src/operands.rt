//! Operand tests of single instructions, expected as the architecture orders them.

use std::test::Fail;
use tx_control::{Exception, codes};
use z_instr::addresses::{first_address, second_address};
use z_instr::instr::{Fields, Instr};
use z_instr::lookup::find;
use z_regs::{CpuImage, Guard, Range, Touches};
use z_touch::{fetchable, specified, touches};

/// Storage operands at base register 1 with this displacement.
fn at(d: i32) -> Fields {
    Fields {
        r1: 2,
        b: 1,
        d,
        ..Fields::zero()
    }
}

/// What an instruction touches where register 1 has this value and page 4 is the only text page.
fn attempt(
    name: &[u8],
    fields: Fields,
    base: u64,
    depth: u32,
) -> Result<Result<Touches, Exception>, Fail> {
    let op = find(name).ok_or("no such mnemonic")?;
    let instr = Instr::new(op, fields).ok_or("no such instruction")?;
    let mut image = CpuImage::entering(0x4000);
    image.general[1] = base;
    let mut guard = Guard::none();
    guard.add(4);
    Ok(touches(&instr, &image, &guard, depth))
}

/// The code of the exception; 0 where there is none.
fn code(name: &[u8], fields: Fields, base: u64, depth: u32) -> Result<u16, Fail> {
    match attempt(name, fields, base, depth)? {
        Ok(_) => Ok(0),
        Err(exception) => Ok(exception.code),
    }
}

/// An operation, its displacement, register 1, and the code that is expected.
static PLACES: [(&[u8], i32, u64, u16); 11] = [
    (b"LG", 0, 8192, 0),
    (b"LG", 0, 8191, codes::ADDRESSING),
    (b"LG", 0, 1048568, 0),
    (b"LG", 0, 1048569, codes::ADDRESSING),
    (b"LG", 0, u64::MAX - 3, codes::ADDRESSING),
    (b"LG", 8193, u64::MAX, 0),
    (b"LG", -1, 0, codes::ADDRESSING),
    (b"LG", 0, 0x4000, 0),
    (b"STG", 0, 0x3FF8, 0),
    (b"STG", 0, 0x3FFC, codes::PROTECTION),
    (b"STG", 0, 0x5000, 0),
];

#[test]
fn edges_of_storage_and_text(rt: HostRuntime) -> Result<(), Fail> {
    for (name, d, base, wanted) in PLACES {
        assert_eq!(rt; code(name, at(d), base, 0)?, wanted);
    }
    let move_to_text = Fields {
        b: 1,
        imm: 7,
        ..Fields::zero()
    };
    assert_eq!(rt; code(b"MVC", move_to_text, 0x4000, 0)?, codes::ADDRESSING);
    Ok(())
}

#[test]
fn operands_and_exceptions(rt: HostRuntime) -> Result<(), Fail> {
    let Ok(operands) = attempt(b"CS", at(4), 0x5000, 0)? else {
        return Err("CS is refused")?;
    };
    let word = Range {
        first: 0x5004,
        length: 4,
        store: true,
    };
    assert_eq!(rt; operands.count(), 1);
    assert_eq!(rt; operands.at(0), word);
    let Err(exception) = attempt(b"CS", at(2), 0x5000, 0)? else {
        return Err("CS is let through")?;
    };
    let odd_boundary = Exception {
        code: codes::SPECIFICATION,
        fetch: false,
        length: 4,
    };
    assert_eq!(rt; exception, odd_boundary);
    Ok(())
}

#[test]
fn what_is_not_selected_is_not_touched(rt: HostRuntime) -> Result<(), Fail> {
    let Ok(operands) = attempt(b"LOCG", at(0), 0, 0)? else {
        return Err("LOCG is refused")?;
    };
    assert_eq!(rt; operands.count(), 0);
    let code_zero = Fields { mask: 8, ..at(0) };
    assert_eq!(rt; code(b"LOCG", code_zero, 0, 0)?, codes::ADDRESSING);
    Ok(())
}

/// A begin, register 1, the depth, and the code that is expected.
static BEGINS: [(&[u8], u64, u32, u16); 6] = [
    (b"TBEGIN", 0x5008, 0, 0),
    (b"TBEGIN", 0x5004, 0, codes::SPECIFICATION),
    (b"TBEGIN", 0x3F08, 0, codes::PROTECTION),
    (b"TBEGIN", 0, 0, codes::ADDRESSING),
    (b"TBEGIN", 0, 1, 0),
    (b"TBEGINC", 0x5008, 0, codes::SPECIFICATION),
];

#[test]
fn begins_and_services(rt: HostRuntime) -> Result<(), Fail> {
    let block = Fields {
        b: 1,
        ..Fields::zero()
    };
    for (name, base, depth, wanted) in BEGINS {
        assert_eq!(rt; code(name, block, base, depth)?, wanted);
    }
    for (imm, wanted) in [(0, 0), (1, codes::OPERATION)] {
        let service = Fields {
            imm,
            ..Fields::zero()
        };
        assert_eq!(rt; code(b"SVC", service, 0, 0)?, wanted);
    }
    Ok(())
}

#[test]
fn special_operation_comes_first(rt: HostRuntime) -> Result<(), Fail> {
    let op = find(b"TABORT").ok_or("no such mnemonic")?;
    let instr = Instr::new(op, Fields::zero()).ok_or("no such instruction")?;
    let image = CpuImage::entering(0x4000);
    let outside = Exception {
        code: codes::SPECIAL_OPERATION,
        fetch: false,
        length: 4,
    };
    assert_eq!(rt; specified(&instr, &image, 0), Err(outside));
    let reserved = Exception {
        code: codes::SPECIFICATION,
        ..outside
    };
    assert_eq!(rt; specified(&instr, &image, 1), Err(reserved));
    Ok(())
}

#[test]
fn addresses_wrap(rt: HostRuntime) -> Result<(), Fail> {
    let op = find(b"MVC").ok_or("no such mnemonic")?;
    let fields = Fields {
        b: 1,
        d: 8,
        d2: 7,
        ..Fields::zero()
    };
    let instr = Instr::new(op, fields).ok_or("no such instruction")?;
    let mut image = CpuImage::entering(0x4000);
    image.general[0] = 1;
    image.general[1] = u64::MAX;
    assert_eq!(rt; first_address(&instr, &image.general), 7);
    assert_eq!(rt; second_address(&instr, &image.general), 7);
    Ok(())
}

/// An address, the length that is fetched, and the code of the exception; 0 where there is none.
static FETCHES: [(u64, u8, u16); 5] = [
    (0x4ffe, 2, 0),
    (0x4ffe, 4, codes::PROTECTION),
    (1_048_574, 4, codes::PROTECTION),
    (u64::MAX - 1, 6, codes::ADDRESSING),
    (u64::MAX, 2, codes::SPECIFICATION),
];

/// The exception of a fetch: odd before closed, and then byte by byte.
#[test]
fn fetches(rt: HostRuntime) {
    let mut guard = Guard::none();
    guard.add(4);
    for (address, length, code) in FETCHES {
        let image = CpuImage::entering(address);
        let exception = Exception {
            code,
            fetch: true,
            length: 0,
        };
        let wanted = if code == 0 { Ok(()) } else { Err(exception) };
        assert_eq!(rt; fetchable(&image, &guard, length), wanted);
    }
}
