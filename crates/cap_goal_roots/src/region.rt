//! The roots of a region type: that what its cases own is stable.
ghost use Rattle.std.specs.Prelude.{◌≡◌, ◌+◌, ◌-◌, ◌<◌, ◌++◌};
ghost use Rattle.std.specs.Prelude.{[], ◌∷◌, length, map, flat_map};
ghost use Rattle.std.specs.Prelude.{IfOk, OnOk, false};
ghost use Rattle.std.specs.List.{AllByRecursion};
ghost use Rattle.cap_lin.specs.Exact.{IsExact, IsExactBy};
ghost use Rattle.cap_gsolve.specs.Made.{IsMade};
ghost use Rattle.cap_prog.specs.Scopes.{region_sorts};
ghost use Rattle.cap_prog.specs.Views.{items_view, case_view, region_view};
ghost use Rattle.cap_goal_spec.specs.Terms.{variables_from};
ghost use Rattle.cap_goal_spec.specs.Environments.{bound};
ghost use Rattle.cap_goal_spec.specs.Roots.{empty_state, case_steps, case_fact as fact_of_case};
ghost use Rattle.cap_goal_spec.specs.Roots.{case_state as state_of_case, case_root as root_of_case};
ghost use Rattle.cap_goal_spec.specs.States.{to_give, to_rest, to_close};
ghost use Rattle.cap_goal.specs.Views.{tasks_view};
ghost use Rattle.cap_goal_roots.specs.Units.{CaseIsNarrow};
ghost use Rattle.cap_goal_roots.specs.Views.{root_view, roots_view};

use crate::goal::goal_of;
use crate::made::{bind_variables, push_ints, push_variables, variable};
use crate::store::{add_all_sorts, add_comparisons};
use cap_goal::{Env, Fact, Goal, State, Task, items_of};
use cap_lin::{LinError, Sort, Term};
use cap_prog::{Case, RegionType};
use std::alloc::{AllocError, Global};

// The sorts of the variables: of parameters, and then of the case's names.
fn case_sorts(alloc: Global, region: &RegionType, case: &Case) -> Result<Vec<Sort>, AllocError>
    ensures { IfOk result
        (λ v. v.items ≡ region_sorts (region_view region.now) (case_view case.now).names) }
{
    let mut sorts = Vec::new(alloc);
    push_ints(&mut sorts, region.params)?;
    sorts.extend_from_slice(&case.names)?;
    Ok(sorts)
}

fn case_args(alloc: Global, region: &RegionType) -> Result<Vec<Term>, AllocError>
    requires { 0 < region.now.params }
    ensures { IfOk result (λ v. v.items ≡ variables_from 1 (region.now.params - 1)) }
{
    let mut args = Vec::new(alloc);
    push_variables(alloc, &mut args, 1, region.params - 1)?;
    Ok(args)
}

// The region itself, in the case's state.
fn case_fact(
    alloc: Global,
    region: &RegionType,
    number: u32,
    case: &Case,
) -> Result<Fact, AllocError>
    requires { 0 < region.now.params }
    ensures { IfOk result
        (λ f. f ≡ fact_of_case (region_view region.now) number (case_view case.now)) }
{
    Ok(Fact {
        region: variable(alloc, 0)?,
        kind: number,
        args: case_args(alloc, region)?,
        state: case.state.copy(alloc)?,
        loose: false,
    })
}

fn case_env(alloc: Global, region: &RegionType, case: &Case) -> Result<Env, AllocError>
    requires { CaseIsNarrow (region_view region.now) (case_view case.now) }
    ensures { IfOk result (λ e. e
        ≡ bound (variables_from 0 (region.now.params + length (case_view case.now).names))) }
{
    let mut terms = Vec::new(alloc);
    bind_variables(
        alloc,
        &mut terms,
        0,
        region.params + case.names.len() as u32,
    )?;
    Ok(Env { terms })
}

// The state without what is known.
fn opened_state(
    alloc: Global,
    region: &RegionType,
    number: u32,
    case: &Case,
) -> Result<State, AllocError>
    requires positive { 0 < region.now.params }
    requires narrow { CaseIsNarrow (region_view region.now) (case_view case.now) }
    ensures { IfOk result (λ s. s
        ≡ record (state_of_case (region_view region.now) number (case_view case.now)) {
          rows = [];
        }) }
{
    let mut state = State::new(alloc)?;
    add_all_sorts(&mut state, &case_sorts(alloc, region, case)?)?;
    state.add_opened(case_fact(alloc, region, number, case)?)?;
    state.add_envs(case_env(alloc, region, case)?)?;
    Ok(state)
}

fn case_state(
    alloc: Global,
    region: &RegionType,
    number: u32,
    case: &Case,
) -> Result<State, LinError>
    requires positive { 0 < region.now.params }
    requires narrow { CaseIsNarrow (region_view region.now) (case_view case.now) }
    ensures { IsExact result (case_steps (case_view case.now))
        (state_of_case (region_view region.now) number (case_view case.now)) }
{
    let mut state = opened_state(alloc, region, number, case)?;
    add_comparisons(alloc, &mut state, &case.when)?;
    Ok(state)
}

// What is to be done for a case: its items are given, and then the region is closed as it was.
fn case_tasks<'a>(alloc: Global, case: &'a Case) -> Result<Vec<Task<'a>>, AllocError>
    ensures { IfOk result (λ v. tasks_view v.items
        ≡ to_give (case_view case.now).items 0 0 ∷ to_rest 0 0 ∷ to_close false 0 ∷ []) }
{
    let items = items_of(alloc, &case.items)?;
    let mut tasks = Vec::new(alloc);
    tasks.push(Task::Close(false, 0))?;
    tasks.push(Task::Rest(0, 0))?;
    tasks.push(Task::Give(items, 0, 0))?;
    Ok(tasks)
}

fn case_root<'a>(
    alloc: Global,
    region: &RegionType,
    number: u32,
    case: &'a Case,
) -> Result<Option<Goal<'a>>, LinError>
    requires positive { 0 < region.now.params }
    requires narrow { CaseIsNarrow (region_view region.now) (case_view case.now) }
    ensures { IsExactBy result root_view (case_steps (case_view case.now))
        (root_of_case (region_view region.now) number (case_view case.now)) }
{
    let state = case_state(alloc, region, number, case)?;
    let tasks = case_tasks(alloc, case)?;
    Ok(goal_of(state, tasks))
}

/// The roots of a region type, one for each case.
pub fn region_roots<'a>(
    alloc: Global,
    region: &'a RegionType,
    number: u32,
) -> Result<Vec<Option<Goal<'a>>>, LinError>
    requires positive { 0 < region.now.params }
    requires narrow { AllByRecursion
        (CaseIsNarrow (region_view region.now)) (region_view region.now).cases }
    ensures { IsExactBy result (λ v. roots_view v.items)
        (flat_map case_steps (region_view region.now).cases)
        (map (root_of_case (region_view region.now) number) (region_view region.now).cases) }
{
    let mut roots = Vec::new(alloc);
    for case in &region.cases {
        roots.push(case_root(alloc, region, number, case)?)?;
    }
    Ok(roots)
}
