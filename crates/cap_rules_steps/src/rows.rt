//! The row of a comparison in an environment, and its opposite.
ghost use Rattle.std.specs.Prelude.{◌≡◌};
ghost use Rattle.cap_rules.specs.Making.{row_here, opposite};
ghost use Rattle.cap_rules_steps.specs.Walks.{Makes};

use crate::error::RuleError;
use crate::terms::value_here;
use cap_goal::State;
use cap_lin::{Op, Row};
use cap_prog::Comp;
use std::alloc::Global;

/// The row of a statement's comparison, by the store, with this operator.
pub fn row_here(alloc: Global, state: &State, op: Op, comparison: &Comp) -> Result<Row, RuleError>
    ensures { Makes result (row_here state.now op comparison.now) }
{
    let left = value_here(alloc, state, &comparison.left)?;
    let right = value_here(alloc, state, &comparison.right)?;
    Ok(Row::of(alloc, &left, op, &right, comparison.sort)?)
}

/// The operator that holds exactly where this one doesn't.
pub fn opposite(op: Op) -> Op
    ensures { result ≡ opposite op }
{
    match op {
        Op::Eq => Op::Ne,
        Op::Ne => Op::Eq,
        Op::Lt => Op::Ge,
        Op::Le => Op::Gt,
        Op::Gt => Op::Le,
        Op::Ge => Op::Lt,
    }
}
