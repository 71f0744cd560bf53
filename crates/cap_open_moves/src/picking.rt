//! The case and the move by which an opened region is closed.
ghost use Rattle.std.specs.Prelude.{◌≡◌, ◌∷◌, IfOk, length, map};
ghost use Rattle.std.specs.List.{range_with_len};
ghost use Rattle.cap_prog.specs.Views.{action_view, case_view, program_view, region_view};
ghost use Rattle.cap_goal.specs.Views.{tasks_view};
ghost use Rattle.cap_goal_spec.specs.Terms.{lone_variable};
ghost use Rattle.cap_goal_spec.specs.States.{to_take, to_shift};
ghost use Rattle.cap_rules.specs.Attempts.{need};
ghost use Rattle.cap_rules.specs.Closing.{may_move as move_allowed, source_name as name_of_source};
ghost use Rattle.cap_rules.specs.Closing.{source_env as env_of_source, move_target as target_of_move};
ghost use Rattle.cap_rules.specs.Taking.{case_env as env_of_case};
ghost use Rattle.cap_rules.specs.Rules.{creations as creations_of, at_close};
ghost use Rattle.cap_rules_steps.specs.Goals.{goals_view};
ghost use Rattle.cap_rules_steps.specs.Walks.{Makes, giving, seen};
ghost use Rattle.cap_open_moves.specs.Moves.{action_target as target_of_action, picked as goals_picked};

use crate::lookup::{action_at, case_at};
use cap_goal::{Env, Fact, Goal, State, Task, items_of};
use cap_lin::Term;
use cap_open_enter::fact_at;
use cap_prog::{Action, Case, Program, RegionType};
use cap_rules_steps::{RuleError, copy_tasks, determined, leaves, region_at, with_env};
use cap_take_holdings::{binds_all, case_env, lone_name, region_env};
use std::alloc::{AllocError, Global};

// Whether the region type has this move, and it keeps the state unless any move may be chosen.
fn may_move(region: &RegionType, action: u32, any: bool) -> bool
    ensures { result ≡ move_allowed any action (region_view region.now) }
{
    if action as usize > region.actions.len() {
        return false;
    }
    any || action == 0
}

// The move has to be one that may be chosen.
fn need_move(region: &RegionType, action: u32, any: bool) -> Result<(), RuleError>
    ensures { Makes (giving result tt) (need (move_allowed any action (region_view region.now))) }
{
    if may_move(region, action, any) {
        Ok(())
    } else {
        Err(RuleError::NotApplicable)
    }
}

// What a name of an action is: the old state, where the source is this name alone.
fn source_name(
    alloc: Global,
    fact: &Fact,
    lone: Option<u32>,
    name: u64,
) -> Result<Option<Term>, AllocError>
    ensures { IfOk result (λ t. t ≡ name_of_source fact.now lone name) }
{
    match lone {
        None => Ok(None),
        Some(lone) => {
            if u64::from(lone) == name {
                Ok(Some(fact.state.copy(alloc)?))
            } else {
                Ok(None)
            }
        }
    }
}

// The names of an action, as far as the old state says them.
fn source_names(
    alloc: Global,
    region: &RegionType,
    fact: &Fact,
    action: &Action,
) -> Result<Vec<Option<Term>>, AllocError>
    ensures { IfOk result (λ v. v.items
        ≡ map (name_of_source fact.now (lone_variable action.now.source))
        (range_with_len region.now.params (length action.now.names.items))) }
{
    let lone = lone_name(&action.source);
    let mut names = Vec::new(alloc);
    for place in 0..action.names.len() {
        let name = region.params as u64 + place as u64;
        names.push(source_name(alloc, fact, lone, name)?)?;
    }
    Ok(names)
}

// The environment of an action, as far as the old state says it.
fn source_env(
    alloc: Global,
    region: &RegionType,
    fact: &Fact,
    action: &Action,
) -> Result<Env, AllocError>
    ensures { IfOk result (λ e. e
        ≡ env_of_source (region_view region.now) fact.now (action_view action.now)) }
{
    let names = source_names(alloc, region, fact, action)?;
    region_env(alloc, fact, names)
}

// The state to which an action leads, as far as the old state says it.
fn action_target(
    alloc: Global,
    region: &RegionType,
    fact: &Fact,
    number: u32,
) -> Result<Term, RuleError>
    ensures { Makes result (target_of_action (region_view region.now) fact.now number) }
{
    let action = action_at(region, number)?;
    let env = source_env(alloc, region, fact, action)?;
    determined(alloc, &env, &action.target)
}

// The state to which a move leads, as far as the old state says it.
fn move_target(
    alloc: Global,
    region: &RegionType,
    fact: &Fact,
    action: u32,
) -> Result<Term, RuleError>
    ensures { Makes result (target_of_move (region_view region.now) fact.now action) }
{
    if action == 0 {
        return Ok(fact.state.copy(alloc)?);
    }
    action_target(alloc, region, fact, action - 1)
}

// The environment of a case, whose names that are bound by nothing else have the state to which a
// move leads. That is computed only where there is such a name.
fn env_by_move(
    alloc: Global,
    region: &RegionType,
    case: &Case,
    fact: &Fact,
    action: u32,
) -> Result<Env, RuleError>
    ensures { Makes result (env_of_case (region_view region.now) (case_view case.now) fact.now
        (target_of_move (region_view region.now) fact.now action)) }
{
    if binds_all(region, case) {
        return Ok(case_env(alloc, region, case, fact, &None)?);
    }
    let target = move_target(alloc, region, fact, action)?;
    Ok(case_env(alloc, region, case, fact, &Some(target))?)
}

// How many regions may be created while a region is closed.
fn creations(any: bool) -> u32
    ensures { result ≡ creations_of any }
{
    if any { 1 } else { 0 }
}

// The items of the case are given up, then the move is checked, and then come these tasks.
fn tasks_of_case<'a>(
    alloc: Global,
    case: &'a Case,
    env: u32,
    opened: u32,
    number: u32,
    action: u32,
    any: bool,
    at: u32,
    behind: &[Task<'a>],
) -> Result<Vec<Task<'a>>, AllocError>
    ensures { IfOk result (λ v. tasks_view v.items
        ≡ to_take (case_view case.now).items env (creations_of any) at
        ∷ to_shift opened number action env at
        ∷ tasks_view behind.now) }
{
    let mut tasks = copy_tasks(alloc, behind)?;
    tasks.push(Task::Shift(opened, number, action, env, at))?;
    let items = items_of(alloc, &case.items)?;
    tasks.push(Task::Take(items, env, creations(any), at))?;
    Ok(tasks)
}

// The goal in which the items of the case are given up in this environment.
fn picked<'a>(
    alloc: Global,
    state: &State,
    names: Env,
    case: &'a Case,
    opened: u32,
    number: u32,
    action: u32,
    any: bool,
    at: u32,
    behind: &[Task<'a>],
) -> Result<Vec<Goal<'a>>, RuleError>
    ensures { Makes (seen goals_view result) (goals_picked state.now names (case_view case.now)
        opened number action any at (tasks_view behind.now)) }
{
    let mut next = state.copy()?;
    let env = with_env(&mut next, names)?;
    let tasks = tasks_of_case(alloc, case, env, opened, number, action, any, at, behind)?;
    Ok(leaves(alloc, next, tasks)?)
}

/// The goal in which an opened region is closed by a case and a move: the items of the case are
/// given up, and then the move is checked. `NotApplicable` comes where the opened region, the case
/// or the move isn't there, where the move changes the state and only what was may stay, where the
/// state to which it leads is needed and not determined by the old one, and where the state has no
/// room for an environment; `Wide` where that state leaves 128 bits.
pub fn pick<'a>(
    alloc: Global,
    program: &'a Program,
    state: &State,
    opened: u32,
    case: u32,
    action: u32,
    any: bool,
    at: u32,
    behind: &[Task<'a>],
) -> Result<Vec<Goal<'a>>, RuleError>
    ensures { Makes (seen goals_view result) (at_close (program_view program.now) state.now opened
        case action any at (tasks_view behind.now)) }
{
    let fact = fact_at(state.opened(), opened)?;
    let region = region_at(program, fact.kind)?;
    let chosen = case_at(region, case)?;
    need_move(region, action, any)?;
    let names = env_by_move(alloc, region, chosen, fact, action)?;
    picked(
        alloc, state, names, chosen, opened, case, action, any, at, behind,
    )
}
