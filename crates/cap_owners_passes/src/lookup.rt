//! Parts of a state and of a program by their numbers.
ghost use Rattle.std.specs.Prelude.{◌≡◌, [], slice_get};
ghost use Rattle.cap_goal_spec.specs.Terms.{lone_variable};
ghost use Rattle.cap_prog.specs.Views.{case_view, program_view, region_view};
ghost use Rattle.cap_rules.specs.Making.{env_at, in_store};
ghost use Rattle.cap_owners_spec.specs.Traced.{found, number_in};
ghost use Rattle.cap_owners_spec.specs.Filling.{names_in};
ghost use Rattle.cap_owners_spec.specs.Track.{tracked_at};
ghost use Rattle.cap_owners_values.specs.Views.{Traces};

use cap_goal::{Env, State};
use cap_lin::Term;
use cap_owners_fill::{Regions, TrackedRegion, names_in};
use cap_owners_values::{TraceError, Values};
use cap_prog::{Case, Program, RegionType};
use std::alloc::Global;

/// The member of a number. `Untold` comes where there is none.
pub(crate) fn member<T>(members: &[T], number: u32) -> Result<&T, TraceError>
    ensures { Traces result (λ m. m.now) (found (slice_get members.now number)) }
{
    match members.get(number as usize) {
        None => Err(TraceError::Untold),
        Some(member) => Ok(member),
    }
}

/// A region type. `Untold` comes where there is none of this number.
pub(crate) fn region_type_at(program: &Program, number: u32) -> Result<&RegionType, TraceError>
    ensures { Traces result (λ k. region_view k.now)
        (found (slice_get (program_view program.now).regions number)) }
{
    match program.regions().get(number as usize) {
        None => Err(TraceError::Untold),
        Some(kind) => Ok(kind),
    }
}

/// A case of a region type. `Untold` comes where there is none of this number.
pub(crate) fn case_at(kind: &RegionType, number: u32) -> Result<&Case, TraceError>
    ensures { Traces result (λ x. case_view x.now)
        (found (slice_get (region_view kind.now).cases number)) }
{
    match kind.cases.get(number as usize) {
        None => Err(TraceError::Untold),
        Some(case) => Ok(case),
    }
}

/// A region that is tracked. `Untold` comes where there is none of this number.
pub(crate) fn region_at(regions: &Regions, number: i128) -> Result<&TrackedRegion, TraceError>
    ensures { Traces result (λ r. r.now) (found (tracked_at regions.now number)) }
{
    match regions.at(number) {
        None => Err(TraceError::Untold),
        Some(region) => Ok(region),
    }
}

/// The environment of a number; past the end it is `none`, which has no names.
pub(crate) fn env_at<'a>(state: &'a State, number: u32, none: &'a Env) -> &'a Env
    requires { none.now ≡ [] }
    ensures { result.now ≡ env_at state.now number }
{
    let number = number as usize;
    if number < state.envs().len() {
        &state.envs()[number]
    } else {
        none
    }
}

/// The values of the names of an environment, by its number.
pub(crate) fn names_at(
    alloc: Global,
    state: &State,
    env: u32,
    values: &Values,
) -> Result<Values, TraceError>
    ensures { Traces result (λ v. v) (names_in values.now (env_at state.now env)) }
{
    let none = Env {
        terms: Vec::new(alloc),
    };
    names_in(alloc, values, env_at(state, env, &none))
}

/// The value of a parameter or a local, and 0 where there is none of this number.
pub(crate) fn local_at(
    alloc: Global,
    state: &State,
    local: u32,
    values: &Values,
) -> Result<i128, TraceError>
    ensures { Traces result (λ z. z) (number_in values.now (in_store state.now local)) }
{
    let local = local as usize;
    if local < state.store().len() {
        values.number_in(&state.store()[local])
    } else {
        values.number_in(&Term::constant(alloc, 0))
    }
}

/// The variable that the term is, alone.
pub(crate) fn lone_variable(term: &Term) -> Option<u32>
    ensures { result ≡ lone_variable term.now }
{
    if term.constant_part() != 0 {
        return None;
    }
    match term.parts() {
        [part] => { if part.1 == 1 { Some(part.0) } else { None } }
        _ => None,
    }
}
