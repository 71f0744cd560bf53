//! Schedules that are drawn from a number, and their texts.

use crate::programs::without_parameters;
use cap_gen_schedules::{schedule_text, stray};
use std::alloc::Global;
use std::test::Fail;

// Two workers write to what `main` allocates, one of them to the cell that `main` reads.
const WRITES: &str = "function w(x) { [x] := 1; } function main() { x := alloc(2); y := alloc(1); \
    fork w(x); fork w(y); [x] := 2; v := [x]; assert v = 2; }";

// The schedule in which `main` reads what a worker wrote.
const WRITTEN: &[u8] =
    b"start\nstep 0 1\nstep 0 3\nstep 0\nstep 0\nstep 0\nstep 1\nstep 0\nstep 1\nstep 0\nend\n";

// Three threads, each of which fails as it begins.
const FORKS: &str =
    "function w() { assert 0 = 1; } function main() { fork w(); fork w(); fork w(); }";

// The text of the first schedule that faults, and no bytes where none does.
fn drawn(alloc: Global, text: &str, number: u64, count: u64) -> Result<Vec<u8>, Fail> {
    let program = without_parameters(alloc, text)?;
    match stray(alloc, &program, number, count)? {
        None => Ok(Vec::new(alloc)),
        Some(schedule) => Ok(schedule_text(alloc, &schedule)?),
    }
}

const FAILS: &str = "function main() { assert 0 = 1; }";

const ENDS: &str = "function main() { }";

const ALLOCATES: &str = "function main() { x := alloc(1); y := alloc(2); assert y = x; }";

const DISPOSES: &str =
    "caper 2; function main() { x := alloc(2); dispose(x + 1); y := alloc(1); assert y = x; }";

// Texts, the number and how many are drawn, and the schedule that is found, if one is.
const DRAWN: &[(&str, u64, u64, &[u8])] = &[
    (FAILS, 5, 1, b"start\nstep 0\nend\n"),
    (ENDS, 5, 3, b""),
    // What is allocated comes behind all cells.
    (ALLOCATES, 0, 3, b"start\nstep 0 1\nstep 0 2\nstep 0\nend\n"),
    // An address that is disposed of is drawn again, where no greater one is there.
    (
        DISPOSES,
        0,
        1,
        b"start\nstep 0 1\nstep 0\nstep 0 2\nstep 0\nend\n",
    ),
    // Threads are chosen by the words of the number.
    (FORKS, 0, 3, b"start\nstep 0\nstep 1\nend\n"),
    (FORKS, 5, 3, b"start\nstep 0\nstep 0\nstep 1\nend\n"),
    (WRITES, 0, 3, WRITTEN),
    (WRITES, 5, 3, b""),
];

#[test]
fn draws_schedules(rt: HostRuntime) -> Result<(), Fail> {
    for (text, number, count, wanted) in DRAWN {
        let found = drawn(rt.alloc(), text, *number, *count)?;
        assert!(rt; found.as_slice() == *wanted, "{text}, {number}");
    }
    Ok(())
}
