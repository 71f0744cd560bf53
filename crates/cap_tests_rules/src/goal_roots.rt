//! The roots of a unit.

use cap_goal::{Goal, Task, Unit};
use cap_goal_roots::roots;
use cap_prog::Program;
use cap_top_reading::read_program;
use std::alloc::Global;
use std::test::Fail;

// How many lists of statements are to be run at a goal whose last task is a run.
fn run_lists(goal: &Goal<'_>) -> usize {
    match goal.tasks.last() {
        Some(Task::Run(_, point)) => point.lists.len(),
        _ => 0,
    }
}

// That number for each root of the first function, and none for a root without tasks.
fn root_lists(alloc: Global, program: &Program) -> Result<Vec<Option<usize>>, Fail> {
    if program.functions().is_empty() {
        Err("no function")?;
    }
    let mut lists = Vec::new(alloc);
    for root in &roots(alloc, program, Unit::Function(0))? {
        lists.push(root.as_ref().map(run_lists))?;
    }
    Ok(lists)
}

// The contract has no items, so there is nothing to prove of it; the body is one list.
#[test]
fn roots_of_an_empty_function(rt: HostRuntime) -> Result<(), Fail> {
    let program = read_program(rt.alloc(), "function main() { }".as_bytes())?;
    let lists = root_lists(rt.alloc(), &program)?;
    assert_eq!(rt; lists.as_slice(), [None, None, Some(1)].as_slice());
    Ok(())
}
