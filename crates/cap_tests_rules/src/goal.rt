//! Copies of states, and the items of an assertion.

use crate::goals::goal_at;
use crate::regions::WRITTEN;
use cap_goal::{State, items_of};
use cap_top_reading::read_program;
use std::test::Fail;

// Whether each list of a state has a member.
fn is_full(state: &State) -> bool {
    !state.sorts().is_empty()
        && !state.rows().is_empty()
        && !state.store().is_empty()
        && !state.cells().is_empty()
        && !state.facts().is_empty()
        && !state.guards().is_empty()
        && !state.before().is_empty()
        && !state.opened().is_empty()
        && !state.envs().is_empty()
}

// Run outside the gate with each allocation refused in turn, as `tools/refuse_memory --test` does:
// each run that reaches the copy passes.
#[test]
fn a_copy_takes_no_memory(rt: HostRuntime) -> Result<(), Fail> {
    let program = read_program(rt.alloc(), WRITTEN.program.as_bytes())?;
    let goal = goal_at(rt.alloc(), &program, WRITTEN)?;
    assert!(rt; is_full(&goal.state));
    assert!(rt; goal.state.copy().is_ok(), "no memory for a copy");
    Ok(())
}

#[test]
fn an_assertion_is_one_list_of_items(rt: HostRuntime) -> Result<(), Fail> {
    let alloc = rt.alloc();
    let text = b"function main() requires 0 <= 1 &*& 5 |-> 7; { }";
    let program = read_program(alloc, text)?;
    assert!(rt; program.functions().len() == 1);
    let items = items_of(alloc, &program.function(0).requires_)?;
    assert!(rt; items.lists.len() == 1 && items.lists[0].len() == 2);
    Ok(())
}
