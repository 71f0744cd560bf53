//! The state at a root: its variables, its locals, and the comparisons that hold.
ghost use Rattle.std.specs.Prelude.{◌≡◌, ◌+◌, ◌≤◌, ◌<◌, ◌^◌};
ghost use Rattle.std.specs.Prelude.{◌++◌, length, IfOk, flat_map, map};
ghost use Rattle.cap_gsolve.specs.Made.{IsMade};
ghost use Rattle.cap_goal_spec.specs.States.{longest_list};
ghost use Rattle.cap_goal_spec.specs.Roots.{written_row, written_steps};

use cap_goal::State;
use cap_lin::{LinError, Row, Sort, Term};
use cap_prog::Comp;
use std::alloc::{AllocError, Global};

/// What has a variable at a root, beside parameters and fixed names.
#[derive(Clone, Copy)]
pub(crate) struct Knows {
    pub locals: bool,
    pub result: bool,
}

// Appends sorts to those of the state's variables.
pub(crate) fn add_all_sorts(state: &mut State, sorts: &[Sort]) -> Result<(), AllocError>
    requires { length state.old.sorts + length sorts.now ≤ longest_list }
    ensures { IfOk result
        (λ _. state.new ≡ record state.old { sorts = state.old.sorts ++ sorts.now }) }
{
    for sort in sorts {
        state.add_sorts(*sort)?;
    }
    Ok(())
}

// Appends values to the state's store.
pub(crate) fn add_all_values(
    alloc: Global,
    state: &mut State,
    values: &[Term],
) -> Result<(), AllocError>
    requires { length state.old.store + length values.now ≤ longest_list }
    ensures { IfOk result
        (λ _. state.new ≡ record state.old { store = state.old.store ++ values.now }) }
{
    for value in values {
        state.add_store(value.copy(alloc)?)?;
    }
    Ok(())
}

// Appends the rows of comparisons.
pub(crate) fn add_comparisons(
    alloc: Global,
    state: &mut State,
    comparisons: &[Comp],
) -> Result<(), LinError>
    requires { length state.old.rows + length comparisons.now ≤ longest_list }
    ensures { IsMade result (flat_map written_steps comparisons.now)
        (λ _. state.new
        ≡ record state.old { rows = state.old.rows ++ map written_row comparisons.now }) }
{
    for c in comparisons {
        state.add_rows(Row::of(alloc, &c.left, c.op, &c.right, c.sort)?)?;
    }
    Ok(())
}
