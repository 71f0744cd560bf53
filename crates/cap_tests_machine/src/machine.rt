//! Steps of the machine.

use crate::programs::{allocating, without_parameters};
use cap_machine::{Entry, Event, Machine, StepError};
use cap_syntax::Place;
use std::test::Fail;

// A step of the first thread.
fn entry(base: Option<i128>) -> Entry {
    Entry { thread: 0, base }
}

#[test]
fn tells_what_is_ahead(rt: HostRuntime) -> Result<(), Fail> {
    let program = allocating(rt.alloc())?;
    let machine = Machine::start(rt.alloc(), &program, &[], &[(3, 8)])?;
    assert!(rt; machine.threads() == 1 && machine.top_address() == Some(3));
    let ahead = machine.ahead(&program, 0).ok_or("none")?;
    let place = Place {
        line: 1,
        column: 19,
    };
    assert!(rt; ahead.number == 1 && ahead.place == place && ahead.cells == Some(1));
    assert!(rt; !machine.enabled(&program, &entry(Some(3))));
    assert!(rt; machine.enabled(&program, &entry(Some(5))));
    Ok(())
}

#[test]
fn allocates_where_nothing_is(rt: HostRuntime) -> Result<(), Fail> {
    let alloc = rt.alloc();
    let program = allocating(alloc)?;
    let mut machine = Machine::start(alloc, &program, &[], &[(3, 8)])?;
    let used = machine.step(alloc, &program, &entry(Some(3)));
    assert!(rt; used == Err(StepError::NotEnabled));
    let free = machine.step(alloc, &program, &entry(Some(5)));
    assert!(rt; free == Ok(Event::Alloc(5)) && machine.top_address() == Some(5));
    let end = machine.step(alloc, &program, &entry(None));
    assert!(rt; end == Ok(Event::End(0)) && machine.ahead(&program, 0).is_none());
    Ok(())
}

// A cell that gets a sum, and is read once it is gone.
const DISPOSED: &str =
    "caper 2; function main() { x := alloc(1); v := FAA(x, 3); dispose(x); v := [x]; }";

#[test]
fn adds_to_a_cell_and_disposes_of_it(rt: HostRuntime) -> Result<(), Fail> {
    let alloc = rt.alloc();
    let program = without_parameters(alloc, DISPOSED)?;
    let mut machine = Machine::start(alloc, &program, &[], &[(3, 8)])?;
    let made = machine.step(alloc, &program, &entry(Some(5)));
    let added = machine.step(alloc, &program, &entry(None));
    assert!(rt; made == Ok(Event::Alloc(5)) && added == Ok(Event::Faa(5, 0)));
    let disposed = machine.step(alloc, &program, &entry(None));
    assert!(rt; disposed == Ok(Event::Dispose(5)) && machine.top_address() == Some(3));
    let read = machine.step(alloc, &program, &entry(None));
    assert!(rt; read == Ok(Event::Bad(5)));
    Ok(())
}
