//! Flat storage by entries and by lines of a history. Whole histories are judged by `check`, in examples/check.
use std::alloc::Global;
use std::test::Fail;
use tx_flat::Flat;
use tx_flat::slot::ApplyFault;
use tx_journal::Entry;
use tx_replay::apply_line;
use z_assemble::assemble;

/// Flat storage of one CPU with a prefix, whose program divides by zero.
fn opened(alloc: Global) -> Result<Flat, Fail> {
    let image = assemble(alloc, b" CPU S\n PREFIX 0,X'A000'\nS DR 2,4\n END\n")?;
    Ok(Flat::open(alloc, &image)?)
}

/// Why a line was not applied, where it was not.
fn fault_of_line(flat: &mut Flat, alloc: Global, line: &[u8]) -> Option<ApplyFault> {
    apply_line(flat, alloc, line).err()
}

/// Why the entry was not applied that takes the interruption of the first CPU, where it was not.
fn fault_of_taking(flat: &mut Flat) -> Option<ApplyFault> {
    flat.apply(Entry::Interrupt(0)).err()
}

/// How many CPUs there are, and the interruption that waits on the first one.
fn waiting(flat: &Flat) -> (u32, Option<u16>) {
    let count = flat.cpu_count();
    if count == 0 {
        return (0, None);
    }
    (count, flat.interruption(0))
}

/// An interruption waits on a CPU with a prefix until it is taken.
#[test]
fn an_interruption_waits(rt: HostRuntime) -> Result<(), Fail> {
    let mut flat = opened(rt.alloc())?;
    let early = fault_of_line(&mut flat, rt.alloc(), b"I 0\n");
    let step = fault_of_line(&mut flat, rt.alloc(), b"S 0\n");
    let before = waiting(&flat);
    let taking = fault_of_taking(&mut flat);
    let behind = waiting(&flat);
    assert_eq!(rt;
        [early, step, taking],
        [Some(ApplyFault::Misfit), None, None]
    );
    assert_eq!(rt; [before, behind], [(1, Some(9)), (1, None)]);
    assert_eq!(rt; flat.byte(0xA08F), 9);
    Ok(())
}
