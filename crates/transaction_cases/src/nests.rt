//! Values of the architecture and of worked nests.
ghost use Rattle.std.specs.Prelude.{◌≡◌, ◌↔◌, IsTrue};

use tx_control::{Begin, Exception, Nest, Why, abort_codes, class_of, codes, is_filtered};

/// An exception that an instruction of four bytes meets.
fn exception(code: u16, fetch: bool) -> Exception {
    Exception {
        code,
        fetch,
        length: 4,
    }
}

#[test]
fn classes_of_the_architecture(rt: HostRuntime) {
    // the interruption code, the class, and the class at the fetch
    let kinds = [
        (0x0001, 1, 1),
        (0x0004, 2, 1),
        (0x0005, 2, 1),
        (0x0006, 2, 1),
        (0x0008, 3, 3),
        (0x0009, 3, 3),
        (0x0013, 2, 2),
        (0x0018, 1, 1),
        (0x0007, 1, 1),
    ];
    for (code, class, at_fetch) in kinds {
        let classes = [
            class_of(exception(code, false)),
            class_of(exception(code, true)),
        ];
        assert_eq!(rt; classes, [class, at_fetch]);
    }
    let named = [
        codes::OPERATION,
        codes::PROTECTION,
        codes::ADDRESSING,
        codes::SPECIFICATION,
        codes::FIXED_POINT_OVERFLOW,
        codes::FIXED_POINT_DIVIDE,
        codes::SPECIAL_OPERATION,
        codes::TRANSACTION_CONSTRAINT,
    ];
    assert_eq!(rt; named, [1, 4, 5, 6, 8, 9, 0x13, 0x18]);
}

#[test]
fn classes_that_controls_filter(rt: HostRuntime) {
    // the control, and whether it filters classes 1, 2 and 3
    for (control, filtered) in [
        (0, [false, false, false]),
        (1, [false, false, true]),
        (2, [false, true, true]),
        (3, [false, false, false]),
    ] {
        let told = [
            is_filtered(1, control),
            is_filtered(2, control),
            is_filtered(3, control),
        ];
        assert_eq!(rt; told, filtered);
    }
}

#[test]
fn bits_of_a_begin(rt: HostRuntime) {
    // the I field, and of a begin of either kind the mask, A, F and the filtering control
    for (field, mask, a, f, pifc) in [
        (0x0008, 0x00, true, false, 0),
        (0xFFF7, 0xFF, false, true, 3),
        (0x0004, 0x00, false, true, 0),
        (0xFFFB, 0xFF, true, false, 3),
        (0x8001, 0x80, false, false, 1),
        (0x0102, 0x01, false, false, 2),
        (0xFEFC, 0xFE, true, true, 0),
    ] {
        let block = Some(0x8000);
        let plain = Begin {
            mask,
            a,
            f,
            pifc,
            block,
            constrained: false,
        };
        let constrained = Begin {
            mask,
            a,
            f: false,
            pifc: 0,
            block: None,
            constrained: true,
        };
        let told = [Begin::of(field, block, false), Begin::of(field, None, true)];
        assert_eq!(rt; told, [plain, constrained]);
    }
}

/// A begin with these controls.
fn controlled(a: bool, f: bool, pifc: u8) -> Begin {
    Begin {
        mask: 0x01,
        a,
        f,
        pifc,
        block: Some(0xA000),
        constrained: false,
    }
}

/// The controls that are in force.
fn in_force(nest: &Nest) -> (bool, bool, u8) {
    (
        nest.effective_a(),
        nest.effective_f(),
        nest.effective_pifc(),
    )
}

/// The controls a and f, and that of filtering.
type Controls = (bool, bool, u8);

/// What is in force in no level, in both of two levels, and in the outer one again; and whether the nest is the same as the
/// outer one alone, inside the inner level and behind it.
fn in_force_of(outer: Controls, inner: Controls) -> ([Controls; 3], [bool; 2]) {
    let mut nest = Nest::none();
    let none = in_force(&nest);
    nest.enter(controlled(outer.0, outer.1, outer.2));
    let mut before = Nest::none();
    before.copy_from(&nest);
    nest.enter(controlled(inner.0, inner.1, inner.2));
    let inside = in_force(&nest);
    let same_inside = nest.same(&before);
    nest.leave();
    let same_behind = nest.same(&before);
    ([none, inside, in_force(&nest)], [same_inside, same_behind])
}

#[test]
fn the_strictest_level_decides(rt: HostRuntime) {
    // the controls of an outer and an inner begin, and what both leave in force
    for (outer, inner, both) in [
        ((true, true, 1), (false, true, 2), (false, true, 2)),
        ((false, true, 2), (true, true, 1), (false, true, 2)),
        ((true, true, 0), (true, false, 0), (true, false, 0)),
        ((true, false, 1), (true, true, 0), (true, false, 1)),
        ((true, true, 2), (true, true, 2), (true, true, 2)),
    ] {
        let told = in_force_of(outer, inner);
        let controls = [(true, true, 0), both, outer];
        assert_eq!(rt; told, (controls, [false, true]));
    }
}

/// Depth, mask, block and kind of sixteen levels, and the depth of none.
fn sixteen_levels() -> (u32, u8, Option<u64>, bool, u32) {
    let mut nest = Nest::none();
    nest.enter(Begin {
        mask: 0xC0,
        a: true,
        f: false,
        pifc: 0,
        block: None,
        constrained: true,
    });
    for _ in 0..20 {
        if nest.depth() < 16 {
            nest.enter(controlled(true, true, 0));
        }
    }
    if nest.depth() == 0 {
        return (0, 0, None, false, 0);
    }
    let (depth, mask, block) = (nest.depth(), nest.mask(), nest.block());
    let constrained = nest.constrained();
    nest.clear();
    (depth, mask, block, constrained, nest.depth())
}

#[test]
fn the_outermost_begin_decides(rt: HostRuntime) {
    assert_eq!(rt; sixteen_levels(), (16, 0xC0, None, true, 0));
}

#[test]
fn codes_of_causes(rt: HostRuntime) {
    let met = exception(codes::SPECIFICATION, false);
    for (why, code) in [
        (Why::External, 2),
        (Why::Program(met), 4),
        (Why::FetchOverflow, 7),
        (Why::StoreOverflow, 8),
        (Why::FetchConflict(144), 9),
        (Why::StoreConflict(144), 10),
        (Why::Restricted, 11),
        (Why::Filtered(met), 12),
        (Why::Depth, 13),
        (Why::Starved, 255),
        (Why::Tabort(257), 257),
    ] {
        assert_eq!(rt; why.code(), code);
    }
    assert!(rt; abort_codes::STARVED == 255);
}

/// `==` of exceptions says that they are the same.
fn is_same_exception(one: Exception, other: Exception) -> bool
    ensures { IsTrue result ↔ (one ≡ other) }
{
    one == other
}

/// `==` of causes says that they are the same.
fn is_same_cause(one: Why, other: Why) -> bool
    ensures { IsTrue result ↔ (one ≡ other) }
{
    one == other
}

#[test]
fn causes_are_compared(rt: HostRuntime) {
    let met = exception(codes::ADDRESSING, false);
    let same = [
        is_same_exception(met, met),
        is_same_exception(met, exception(codes::ADDRESSING, true)),
        is_same_cause(Why::Program(met), Why::Program(met)),
        is_same_cause(Why::Program(met), Why::Filtered(met)),
        is_same_cause(Why::FetchConflict(1), Why::FetchConflict(2)),
    ];
    assert_eq!(rt; same, [true, false, true, false, false]);
}
