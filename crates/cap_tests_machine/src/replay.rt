//! Schedules, and runs along them.

use crate::programs::allocating;
use cap_machine::Entry;
use cap_replay::{End, replay};
use cap_replay_schedules::{Schedule, ScheduleError, read_schedule};
use std::alloc::Global;
use std::test::Fail;

#[test]
fn writes_a_line_for_each_step(rt: HostRuntime) -> Result<(), Fail> {
    let alloc = rt.alloc();
    let program = allocating(alloc)?;
    let mut entries = Vec::new(alloc);
    entries.push(Entry {
        thread: 0,
        base: Some(5),
    })?;
    entries.push(Entry {
        thread: 0,
        base: None,
    })?;
    entries.push(Entry {
        thread: 0,
        base: None,
    })?;
    let schedule = Schedule {
        args: Vec::new(alloc),
        heap: Vec::new(alloc),
        entries,
    };
    let played = replay(alloc, &program, &schedule)?;
    assert_eq!(rt; played.end, End::NotEnabled(3));
    assert_eq!(rt;
        played.text.as_slice(),
        b"1 0 1:19 alloc 5\n2 0 1:34 end 0\nnot enabled 3\n".as_slice()
    );
    Ok(())
}

// The number of the line that is refused, and 0 where none is.
fn refused(alloc: Global, text: &[u8]) -> u64 {
    match read_schedule(alloc, text) {
        Ok(_) => 0,
        Err(ScheduleError::BadLine(number)) => number,
        Err(ScheduleError::TooMany) | Err(ScheduleError::OutOfMemory) => u64::MAX,
    }
}

// Texts, with the line at which each is refused, and 0 where it isn't.
const SCHEDULES: &[(&[u8], u64)] = &[
    (b"", 1),
    (b"start\n", 2),
    (b"start\nend\n", 0),
    (b"start\nend\n\n", 3),
    (b"start -0\nend\n", 1),
    (b"start 01\nend\n", 1),
    (b"start\ncell 0 1\nend\n", 2),
    (b"start\ncell 3 1\ncell 3 1\nend\n", 3),
    (b"start\nstep 0  4\nend\n", 2),
    (b"start\nstep 4294967296\nend\n", 2),
    (b"start 170141183460469231731687303715884105727\nend\n", 0),
    (b"start 170141183460469231731687303715884105728\nend\n", 1),
    (b"start -170141183460469231731687303715884105728\nend\n", 0),
];

#[test]
fn refuses_schedules_at_their_lines(rt: HostRuntime) -> Result<(), Fail> {
    for (text, line) in SCHEDULES {
        assert!(rt; refused(rt.alloc(), text) == *line, "{text:?}");
    }
    Ok(())
}

#[test]
fn reads_schedules(rt: HostRuntime) -> Result<(), Fail> {
    let text = b"start 7 -3\ncell 4 -8\ncell 9 0\nstep 0 4\nstep 1 -2\nstep 0\nend";
    let schedule = read_schedule(rt.alloc(), text.as_slice())?;
    assert_eq!(rt; schedule.args.as_slice(), [7, -3].as_slice());
    assert_eq!(rt; schedule.heap.as_slice(), [(4, -8), (9, 0)].as_slice());
    let mut found = Vec::new(rt.alloc());
    for entry in &schedule.entries {
        found.push((entry.thread, entry.base))?;
    }
    let wanted = [(0, Some(4)), (1, Some(-2)), (0, None)];
    assert_eq!(rt; found.as_slice(), wanted.as_slice());
    Ok(())
}
