//! A region is created where a fact of it is given up.
ghost use Rattle.std.specs.Prelude.{◌≡◌, ◌++◌, is_none, length, IfOk};
ghost use Rattle.cap_goal_spec.specs.Environments.{term_of as bound_to, zero_value};
ghost use Rattle.cap_prog.specs.Views.{case_view, item_view, items_view, program_view, region_view};
ghost use Rattle.cap_goal.specs.Views.{tasks_view};
ghost use Rattle.cap_rules.specs.Attempts.{each, need};
ghost use Rattle.cap_rules.specs.Making.{determined_slot, env_at as env_in, fresh};
ghost use Rattle.cap_rules.specs.Making.{fact_of as plain_fact, with_differing as differing};
ghost use Rattle.cap_rules.specs.Rules.{at_create, creates};
ghost use Rattle.cap_rules.specs.Taking.{case_env as env_of_case, with_new_region as region_added};
ghost use Rattle.cap_rules_steps.specs.Goals.{goals_view};
ghost use Rattle.cap_rules_steps.specs.Places.{terms_view};
ghost use Rattle.cap_rules_steps.specs.Walks.{Makes, giving, seen};
ghost use Rattle.cap_take_items.specs.Views.{remaining_view};
ghost use Rattle.cap_take_create.specs.Creating.{begun_tasks, state_begun, begun as region_begun};

use crate::begun::tasks_begun;
use cap_goal::{Env, Fact, Goal, State, Task};
use cap_gsolve::full_pieces;
use cap_lin::{Sort, Term};
use cap_prog::{Assertion, Case, Item, Program, RegionType, Slot};
use cap_rules_steps::{RuleError, leaves, region_at, term_of, with_differing, with_env, with_sort};
use cap_take_facts::case_at;
use cap_take_holdings::{binds_all, case_env, determined_slot_at, env_at, fact_of, with_pieces};
use cap_take_items::Remaining;
use std::alloc::{AllocError, Global};

// ---- the new region

// Adds rows that a term differs from the regions that are known and those that are opened.
fn with_apart(
    alloc: Global,
    state: &mut State,
    term: &Term,
    facts: &[Fact],
    opened: &[Fact],
) -> Result<(), RuleError>
    ensures { Makes (giving result state.new)
        (differing state.old term.now (facts.now ++ opened.now)) }
{
    with_differing(alloc, state, term, facts)?;
    with_differing(alloc, state, term, opened)
}

// Adds a region of this type to the state, with all of its guards, and gives its term.
fn with_new_region(
    alloc: Global,
    program: &Program,
    state: &mut State,
    region: &RegionType,
    kind: u32,
) -> Result<Term, RuleError>
    ensures makes { Makes (giving result state.new) (region_added (program_view program.now)
        state.old (region_view region.now) kind) }
    ensures fresh { IfOk result (λ t. t ≡ fresh state.old) }
{
    let known = state.copy()?;
    let created = with_sort(alloc, state, Sort::Int)?;
    with_apart(alloc, state, &created, known.facts(), known.opened())?;
    let pieces = full_pieces(alloc, &region.algebra, &created, kind)?;
    with_pieces(alloc, program, state, &pieces)?;
    Ok(created)
}

// ---- the environment of its case

// The environment of a case of the region of a fact. The value of a slot is wanted only where the
// case has a name without a binding position.
fn new_env(
    alloc: Global,
    state: &State,
    env: u32,
    region: &RegionType,
    case: &Case,
    fact: &Fact,
    slot: &Slot,
) -> Result<Env, RuleError>
    ensures { Makes result (env_of_case (region_view region.now) (case_view case.now) fact.now
        (determined_slot (env_in state.now env) slot.now)) }
{
    if binds_all(region, case) {
        return Ok(case_env(alloc, region, case, fact, &None)?);
    }
    let value = determined_slot_at(alloc, state, env, slot)?;
    Ok(case_env(alloc, region, case, fact, &Some(value))?)
}

// How many environments there are. A number past 32 bits counts as want of memory.
fn env_count(state: &State) -> Result<u32, AllocError>
    ensures { IfOk result (λ n. n ≡ length state.now.envs) }
{
    match u32::try_from(state.envs().len()) {
        Ok(count) => Ok(count),
        Err(_) => Err(AllocError),
    }
}

// ---- what the item says

// Only a name that is unbound in the environment of a number.
fn check_unbound(alloc: Global, state: &State, env: u32, name: u32) -> Result<(), RuleError>
    ensures { Makes (giving result tt) (need (is_none (bound_to (env_in state.now env) name))) }
{
    let none = Env {
        terms: Vec::new(alloc),
    };
    match term_of(env_at(state, env, &none), name) {
        None => Ok(()),
        Some(_) => Err(RuleError::NotApplicable),
    }
}

// What slots stand for, where the environment of a number binds each of their names.
fn slot_values(
    alloc: Global,
    state: &State,
    env: u32,
    slots: &[Slot],
) -> Result<Vec<Term>, RuleError>
    ensures { Makes (seen terms_view result)
        (each (determined_slot (env_in state.now env)) slots.now) }
{
    let mut values = Vec::new(alloc);
    for slot in slots {
        values.push(determined_slot_at(alloc, state, env, slot)?)?;
    }
    Ok(values)
}

// ---- the rule

// The environment of a case of a created region, of this type and of these arguments.
fn created_env(
    alloc: Global,
    state: &State,
    env: u32,
    region: &RegionType,
    case: &Case,
    kind: u32,
    created: &Term,
    args: Vec<Term>,
    slot: &Slot,
) -> Result<Env, RuleError>
    ensures { Makes result (env_of_case (region_view region.now) (case_view case.now)
        (plain_fact created.now kind args.items zero_value)
        (determined_slot (env_in state.now env) slot.now)) }
{
    let fact = fact_of(created.copy(alloc)?, kind, args, Term::constant(alloc, 0));
    new_env(alloc, state, env, region, case, &fact, slot)
}

// Adds a region of this type and of these arguments, and then the environment of its case, to the
// state, and gives the region's term.
fn with_begun(
    alloc: Global,
    program: &Program,
    state: &mut State,
    region: &RegionType,
    case: &Case,
    kind: u32,
    args: Vec<Term>,
    slot: &Slot,
    env: u32,
) -> Result<Term, RuleError>
    ensures makes { Makes (giving result state.new) (state_begun (program_view program.now)
        state.old (region_view region.now) (case_view case.now) kind args.items slot.now env) }
    ensures fresh { IfOk result (λ t. t ≡ fresh state.old) }
{
    let known = state.copy()?;
    let created = with_new_region(alloc, program, state, region, kind)?;
    let names = created_env(alloc, &known, env, region, case, kind, &created, args, slot)?;
    with_env(state, names)?;
    Ok(created)
}

// What is to be done then.
fn tasks_of<'t, 'a>(
    alloc: Global,
    state: &State,
    items: &'a Assertion,
    kind: u32,
    case: u32,
    created: Term,
    item: &'a Item,
    left: u32,
    rest: &Remaining<'t, 'a>,
) -> Result<Vec<Task<'a>>, AllocError>
    ensures { IfOk result (λ v. tasks_view v.items
        ≡ begun_tasks state.now (items_view items.now) kind case (length state.now.envs) created
        (item_view item.now) left (remaining_view rest.now)) }
{
    let env = env_count(state)?;
    tasks_begun(alloc, items, kind, case, env, created, item, left, rest)
}

// A region of this type and of these arguments is begun in a case.
fn begin<'t, 'a>(
    alloc: Global,
    program: &'a Program,
    state: &State,
    region: &'a RegionType,
    begun: &'a Case,
    case: u32,
    kind: u32,
    args: Vec<Term>,
    slot: &Slot,
    item: &'a Item,
    left: u32,
    rest: &Remaining<'t, 'a>,
) -> Result<Vec<Goal<'a>>, RuleError>
    ensures { Makes (seen goals_view result) (region_begun (program_view program.now) state.now
        (region_view region.now) (case_view begun.now) case kind args.items slot.now
        (item_view item.now) left (remaining_view rest.now)) }
{
    let mut next = state.copy()?;
    let created = with_begun(
        alloc, program, &mut next, region, begun, kind, args, slot, rest.env,
    )?;
    let tasks = tasks_of(
        alloc,
        state,
        &begun.items,
        kind,
        case,
        created,
        item,
        left,
        rest,
    )?;
    Ok(leaves(alloc, next, tasks)?)
}

// The same, with so many creations left behind it.
fn create_next<'t, 'a>(
    alloc: Global,
    program: &'a Program,
    state: &State,
    case: u32,
    region: u32,
    kind: u32,
    args: &[Slot],
    slot: &Slot,
    item: &'a Item,
    left: u32,
    rest: &Remaining<'t, 'a>,
) -> Result<Vec<Goal<'a>>, RuleError>
    ensures { Makes (seen goals_view result) (at_create (program_view program.now) state.now case
        region kind args.now slot.now (item_view item.now) left (remaining_view rest.now)) }
{
    let there = region_at(program, kind)?;
    let begun = case_at(there, case)?;
    check_unbound(alloc, state, rest.env, region)?;
    let values = slot_values(alloc, state, rest.env, args)?;
    begin(
        alloc, program, state, there, begun, case, kind, values, slot, item, left, rest,
    )
}

/// A region is created where a fact of it is given up, in a case of its type: a fresh region, which
/// is told apart from those that are known or opened, with all of its guards. First the items of
/// the case are given up, then the region's fact is stated, and then the item is given up again,
/// with one creation less. `NotApplicable` comes where no creation is left, where there is no such
/// region type or case, where the region's name is bound, where an argument is not determined, nor
/// the state though a name of the case has no binding position, and where a list of the state is
/// full; `Wide` where a result leaves 128 bits before that.
pub fn create<'t, 'a>(
    alloc: Global,
    program: &'a Program,
    state: &State,
    case: u32,
    region: u32,
    kind: u32,
    args: &[Slot],
    slot: &Slot,
    item: &'a Item,
    rest: &Remaining<'t, 'a>,
) -> Result<Vec<Goal<'a>>, RuleError>
    ensures { Makes (seen goals_view result) (creates (program_view program.now) state.now case
        region kind args.now slot.now (item_view item.now) (remaining_view rest.now)
        rest.now.creations) }
{
    if rest.creations == 0 {
        return Err(RuleError::NotApplicable);
    }
    let left = rest.creations - 1;
    create_next(
        alloc, program, state, case, region, kind, args, slot, item, left, rest,
    )
}
