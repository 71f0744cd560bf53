//! Environments by their numbers.
ghost use Rattle.std.specs.Prelude.{◌≡◌, [], IfOk};
ghost use Rattle.cap_rules_steps.specs.cap_rules.Making.{env_at as env_in, row_by as row_in};
ghost use Rattle.cap_rules_steps.specs.cap_rules.Making.{determined as determined_in};
ghost use Rattle.cap_rules_steps.specs.cap_rules.Making.{determined_slot as slot_in};
ghost use Rattle.cap_rules_steps.specs.cap_rules.Making.{prove_comparisons as comparisons_proved};
ghost use Rattle.cap_rules_steps.specs.Walks.{Makes, Claims, giving};

use cap_goal::{Env, State};
use cap_lin::{Op, Row, Term};
use cap_prog::{Comp, Slot};
use cap_rules_steps::{Ledger, RuleError, determined, determined_slot, prove_comparisons, row_by};
use std::alloc::{AllocError, Global};

/// The environment of a number; past the end it is `none`, which has no names.
pub fn env_at<'a>(state: &'a State, number: u32, none: &'a Env) -> &'a Env
    requires { none.now ≡ [] }
    ensures { result.now ≡ env_in state.now number }
{
    let number = number as usize;
    if number < state.envs().len() {
        &state.envs()[number]
    } else {
        none
    }
}

/// What a term stands for, where the environment of a number binds each of its names.
pub fn determined_at(alloc: Global, state: &State, env: u32, term: &Term) -> Result<Term, RuleError>
    ensures { Makes result (determined_in (env_in state.now env) term.now) }
{
    let none = Env {
        terms: Vec::new(alloc),
    };
    determined(alloc, env_at(state, env, &none), term)
}

/// What a slot stands for, where the environment of a number binds each of its names.
pub fn determined_slot_at(
    alloc: Global,
    state: &State,
    env: u32,
    slot: &Slot,
) -> Result<Term, RuleError>
    ensures { Makes result (slot_in (env_in state.now env) slot.now) }
{
    let none = Env {
        terms: Vec::new(alloc),
    };
    determined_slot(alloc, env_at(state, env, &none), slot)
}

/// The environment of a number, once more.
pub fn copy_env(alloc: Global, state: &State, env: u32) -> Result<Env, AllocError>
    ensures { IfOk result (λ e. e ≡ env_in state.now env) }
{
    let none = Env {
        terms: Vec::new(alloc),
    };
    env_at(state, env, &none).copy(alloc)
}

/// The row of a comparison, by the environment of a number, with this operator.
pub fn row_at(
    alloc: Global,
    state: &State,
    env: u32,
    op: Op,
    comparison: &Comp,
) -> Result<Row, RuleError>
    ensures { Makes result (row_in (env_in state.now env) op comparison.now) }
{
    let none = Env {
        terms: Vec::new(alloc),
    };
    row_by(alloc, env_at(state, env, &none), op, comparison)
}

/// Claims that the state's rows prove comparisons, by the environment of a number.
pub fn prove_comparisons_at(
    alloc: Global,
    ledger: &mut Ledger,
    state: &State,
    env: u32,
    comparisons: &[Comp],
) -> Result<(), RuleError>
    ensures { Claims (giving result tt) ledger.old ledger.new
        (comparisons_proved state.now.rows (env_in state.now env) comparisons.now) }
{
    let none = Env {
        terms: Vec::new(alloc),
    };
    let env = env_at(state, env, &none);
    prove_comparisons(alloc, ledger, state.rows(), env, comparisons)
}
