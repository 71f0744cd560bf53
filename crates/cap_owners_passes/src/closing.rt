//! Regions are closed and made, and facts are settled.
ghost use Rattle.std.specs.Prelude.{◌≡◌, ◌-◌, drop, IfOk, length, map, take};
ghost use Rattle.cap_prog.specs.Views.{program_view};
ghost use Rattle.cap_owners_spec.specs.Traced.{number_of};
ghost use Rattle.cap_owners_spec.specs.Walks.{firmed, pass_made, pass_settle, pass_shift};
ghost use Rattle.cap_owners_passes.specs.Views.{firmed_fact, owned_by, Passes, with_taken};
ghost use Rattle.cap_owners_values.specs.Views.{Traces, value_view};

use crate::lookup::{case_at, lone_variable, member, names_at, region_at, region_type_at};
use crate::walk::{Taking, Walk};
use cap_goal::{Fact, State};
use cap_lin::Term;
use cap_owners_fill::{Fill, TrackedRegion};
use cap_owners_values::{TraceError, Value, Values};
use cap_prog::Program;
use std::alloc::{AllocError, Global};

// ---- facts whose state was open

// Such a fact of a region that is closed has its state.
fn firm_fact(fact: &Fact, number: i128, state: i128, values: &mut Values) -> Result<(), TraceError>
    ensures firmed { Traces result (λ _. values.new)
        (firmed_fact fact.now number state values.old) }
    ensures length { length values.new ≡ length values.old }
{
    let region = values.number_in(&fact.region)?;
    if fact.loose && region == number {
        if let Some(variable) = lone_variable(&fact.state) {
            values.put(variable as usize, Value::Number(state));
        }
    }
    Ok(())
}

// Such facts of a region that is closed have its state.
fn firm(facts: &[Fact], number: i128, state: i128, values: &mut Values) -> Result<(), TraceError>
    ensures firmed { Traces result (λ _. values.new) (firmed facts.now number state values.old) }
    ensures length { length values.new ≡ length values.old }
{
    for fact in facts {
        firm_fact(fact, number, state, values)?;
    }
    Ok(())
}

// ---- regions

/// A region that is made: its type, its case, the environment of the case's names, and the term of
/// its number.
#[derive(Clone, Copy)]
pub(crate) struct Made<'t> {
    pub(crate) kind: u32,
    pub(crate) case: u32,
    pub(crate) env: u32,
    pub(crate) term: &'t Term,
}

// What a name stands for, as a whole number.
fn number_of(value: Value) -> i128
    ensures { result ≡ number_of (value_view value) }
{
    match value {
        Value::Number(number) => number,
        Value::Share(_) => 0,
    }
}

// What the parameters of a region type but the first stand for, as whole numbers; the names begin
// with all of them.
fn args_of(alloc: Global, names: &Values, params: u32) -> Result<Vec<i128>, AllocError>
    ensures { IfOk result (λ v. v.items ≡ map number_of (take (params - 1) (drop 1 names.now))) }
{
    let mut args = Vec::new(alloc);
    for name in 1..params {
        if name as usize >= names.len() {
            return Ok(args);
        }
        args.push(number_of(names.at(name)))?;
    }
    Ok(args)
}

// A region that owns what was taken, by a case and its names.
fn owning(
    number: i128,
    kind: u32,
    args: Vec<i128>,
    state: i128,
    case: u32,
    top: Taking,
    names: Values,
) -> TrackedRegion
    ensures { result ≡ owned_by number kind args.items state case top names }
{
    TrackedRegion {
        number,
        kind,
        args,
        state,
        part: top.part,
        case,
        fill: top.fill.with_names(names),
    }
}

/// An opened region is closed: it has what was taken, in the case's state by the case's names.
/// `Untold` comes where one of the numbers names nothing, or the region isn't tracked.
pub(crate) fn pass_shift(
    alloc: Global,
    program: &Program,
    state: &State,
    opened: u32,
    case: u32,
    env: u32,
    top: Taking,
    walk: &mut Walk<'_>,
) -> Result<Option<usize>, TraceError>
    ensures { Passes result walk.new (pass_shift (program_view program.now) state.now opened case
        env top (with_taken walk.old top)) }
{
    let fact = member(state.opened(), opened)?;
    let shape = case_at(region_type_at(program, fact.kind)?, case)?;
    let number = walk.values.number_in(&fact.region)?;
    let region = region_at(&walk.regions, number)?;
    let (own_number, kind) = (region.number, region.kind);
    let args = Vec::from_slice(alloc, &region.args)?;
    let names = names_at(alloc, state, env, &walk.values)?;
    let new_state = names.number_in(&shape.state)?;
    firm(state.facts(), number, new_state, &mut walk.values)?;
    walk.put_region(owning(own_number, kind, args, new_state, case, top, names))?;
    Ok(Some(0))
}

/// A region is made, by the term of its number: it has what was taken, in the case's state by the
/// case's names. `Untold` comes where one of the numbers names nothing.
pub(crate) fn pass_made(
    alloc: Global,
    program: &Program,
    state: &State,
    made: &Made<'_>,
    top: Taking,
    walk: &mut Walk<'_>,
) -> Result<Option<usize>, TraceError>
    ensures { Passes result walk.new (pass_made (program_view program.now) state.now made.now.kind
        made.now.case made.now.env made.now.term.now top (with_taken walk.old top)) }
{
    let kind = region_type_at(program, made.kind)?;
    let shape = case_at(kind, made.case)?;
    let number = walk.values.number_in(made.term)?;
    let names = names_at(alloc, state, made.env, &walk.values)?;
    let first_state = names.number_in(&shape.state)?;
    let args = args_of(alloc, &names, kind.params)?;
    walk.put_region(owning(number, made.kind, args, first_state, made.case, top, names))?;
    Ok(Some(0))
}

/// The state in which the region of a fact is by now is the value of a new variable. `Untold` comes
/// where there is no such fact, or its region isn't tracked.
pub(crate) fn pass_settle(
    state: &State,
    fact: u32,
    walk: &mut Walk<'_>,
) -> Result<Option<usize>, TraceError>
    ensures { Passes result walk.new (pass_settle state.now fact walk.old) }
{
    let fact = member(state.facts(), fact)?;
    let number = walk.values.number_in(&fact.region)?;
    let current = walk.state_at(number)?;
    walk.bring(Value::Number(current))?;
    Ok(Some(0))
}
