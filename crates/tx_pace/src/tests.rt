//! A flag that is raised and cleared, and a worker that waits.

use crate::{Calls, Paces};
use std::test::Fail;

#[test]
fn a_called_cpu_is_called_until_its_run_is_home(rt: HostRuntime) -> Result<(), Fail> {
    let calls = Calls::open(rt.alloc(), 2).ok().ok_or("no memory")?;
    let before = calls.is_called(1);
    calls.call(1);
    let called = [calls.is_called(0), calls.is_called(1), calls.is_called(2)];
    calls.clear(1);
    assert_eq!(rt;
        (before, called, calls.is_called(1)),
        (false, [false, true, false], false)
    );
    Ok(())
}

#[test]
fn a_cpu_far_ahead_waits_for_those_that_go_on(rt: HostRuntime) -> Result<(), Fail> {
    let paces = Paces::open(rt.alloc(), 2).ok().ok_or("no memory")?;
    paces.add(0, 256);
    let near = paces.wait(0, 10);
    paces.add(0, 1);
    let far = paces.wait(0, 10);
    let behind = paces.wait(1, 10);
    paces.end(1);
    let alone = paces.wait(0, 10);
    assert_eq!(rt; [near, far, behind, alone], [10, 5, 10, 10]);
    Ok(())
}
