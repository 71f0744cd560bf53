//! Steps that the rules share.

use cap_goal::State;
use cap_lin::{Op, Row, Sort, Term};
use cap_rules_steps::{Ledger, RuleError, leaves, prove_equal, told, with_row, with_sort};
use std::alloc::Global;
use std::test::Fail;

// A state of one variable, which is at least 1.
fn one_variable(alloc: Global) -> Result<State, RuleError> {
    let mut state = State::new(alloc)?;
    let x = with_sort(alloc, &mut state, Sort::Int)?;
    let one = Term::constant(alloc, 1);
    let row = Row::of(alloc, &x, Op::Ge, &one, Sort::Int)?;
    with_row(&mut state, row)?;
    Ok(state)
}

// To prove 0 = 1 of the variable's rows is to refute them with 0 < 1 and with 0 > 1 behind them.
#[test]
fn an_equality_owes_two_lists(rt: HostRuntime) -> Result<(), Fail> {
    let alloc = rt.alloc();
    let state = one_variable(alloc)?;
    let mut ledger = Ledger::new(alloc);
    let zero = Term::constant(alloc, 0);
    let one = Term::constant(alloc, 1);
    prove_equal(alloc, &mut ledger, &state, &zero, &one)?;
    assert_eq!(rt; ledger.len(), 2);
    let goals = leaves(alloc, state, Vec::new(alloc))?;
    assert_eq!(rt; goals.len(), 0, "no task is left");
    let lists = told(Ok(goals), ledger)?;
    assert_eq!(rt; lists.len(), 2);
    Ok(())
}
