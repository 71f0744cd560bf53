//! What a frame was given, and by what that is met now.
ghost use Rattle.std.specs.Prelude.{◌≡◌, ◌∷◌, [], IfOk, IfSome, List, Option, reverse, Some};
ghost use Rattle.cap_prog.specs.Views.{program_view};
ghost use Rattle.cap_goal_spec.specs.Choices.{PlainTree};
ghost use Rattle.cap_owners_spec.specs.Walks.{nothing_taken};
ghost use Rattle.cap_owners_spec.specs.Steps.{beginning as begins};
ghost use Rattle.cap_owners_spec.specs.Steps.{filled_again, fill_now as filled_now, taken_in_end};
ghost use Rattle.cap_owners_values.specs.Views.{Traces};
ghost use Rattle.cap_owners_places.specs.Views.{place_view, proved_of, IsPlaced};
ghost use Rattle.cap_owners_walks.specs.Nodes.{last_fill, stability_walked};
ghost use Rattle.cap_owners_walks.specs.Views.{given_view, halt_view, lent_given_view};
ghost use Rattle.cap_owners_walks.specs.Views.{GivenIsPlaced};

use crate::begin::beginning;
use crate::halt::Halt;
use crate::quiet::walk_quiet;
use cap_owners_fill::{Fill, Regions};
use cap_owners_passes::{Taking, Walk};
use cap_owners_places::Placed;
use cap_owners_values::{TraceError, Values};
use cap_prog::Program;
use std::alloc::{AllocError, Global};

/// What a frame was given: the tree of the assertion's stability, where it has one, with values of
/// what is known there, and by what the assertion was met.
pub struct GivenAssertion<'t, 'a> {
    pub stability: Option<&'t Placed<'a>>,
    pub values: Values,
    pub fill: Fill,
}

impl Drop for GivenAssertion<'_, '_> {
    fn drop(self) {
        let GivenAssertion {
            stability: _,
            values: _,
            fill: _,
        } = self;
    }
}

// By what the last of these is met.
fn last_fill(mut taken: Vec<Taking>) -> Result<Fill, TraceError>
    ensures { Traces result (λ f. f)
        (last_fill (reverse taken.items)) }
{
    match taken.pop() {
        None => Err(TraceError::Untold),
        Some(taking) => Ok(taking.fill),
    }
}

// By what the last assertion was met that a walk to the end of a tree has taken.
fn taken_in_end(halt: Halt<'_, '_, '_>) -> Result<Fill, TraceError>
    ensures { Traces result (λ f. f) (taken_in_end (halt_view halt.entry)) }
{
    match halt {
        Halt::Stands(_, _) => Err(TraceError::Untold),
        Halt::Leaves(walk) => last_fill(walk.taken),
    }
}

// The walk through the tree of the assertion's stability, at its root.
fn stability_walk<'e>(
    alloc: Global,
    regions: &Regions,
    given: &GivenAssertion<'_, '_>,
) -> Result<Walk<'e>, AllocError>
    ensures { IfOk result (λ w. w ≡ begins regions.now (given_view given.now).values
        (nothing_taken ∷ []) (Some (given_view given.now).fill) []) }
{
    let fill = given.fill.copy(alloc)?;
    let mut walk = beginning(alloc, regions, &given.values, Some(fill), &[])?;
    walk.taken.push(Taking::new(alloc))?;
    Ok(walk)
}

// As the walk from the root of the assertion's stability on says.
fn stability_walked(
    alloc: Global,
    program: &Program,
    regions: &Regions,
    given: &GivenAssertion<'_, '_>,
    place: &Placed<'_>,
) -> Result<Fill, TraceError>
    ensures { IsPlaced (program_view program.now) place.now →
        Traces result (λ f. f) (stability_walked (program_view program.now) regions.now
        (given_view given.now) (place_view place.now)) }
{
    let walk = stability_walk(alloc, regions, given)?;
    let halt = walk_quiet(alloc, program, place, walk)?;
    taken_in_end(halt)
}

// As the tree of the assertion's stability says.
fn filled_again(
    alloc: Global,
    program: &Program,
    regions: &Regions,
    given: &GivenAssertion<'_, '_>,
) -> Result<Fill, TraceError>
    requires { GivenIsPlaced (program_view program.now) given.now }
    ensures { (ts : List (Option PlainTree)) → Traces result (λ f. f)
        (filled_again (proved_of (program_view program.now) ts) regions.now
        (given_view given.now) (given_view given.now).stability) }
{
    match given.stability {
        None => Ok(given.fill.copy(alloc)?),
        Some(place) => stability_walked(alloc, program, regions, given, place),
    }
}

/// By what an assertion that was given is met now: as it was, where the regions of its facts are in
/// the same states, and else as the walk through the tree of its stability says. `PastWidth` and
/// `Untold` come as the definition says.
pub fn fill_now(
    alloc: Global,
    program: &Program,
    regions: &Regions,
    given: Option<&GivenAssertion<'_, '_>>,
) -> Result<Option<Fill>, TraceError>
    requires { IfSome given (λ g. GivenIsPlaced (program_view program.now) g.now) }
    ensures { (ts : List (Option PlainTree)) → Traces result (λ o. o)
        (filled_now (proved_of (program_view program.now) ts) regions.now
        (lent_given_view given.entry)) }
{
    let Some(given) = given else {
        return Ok(None);
    };
    if regions.is_current(&given.fill) {
        return Ok(Some(given.fill.copy(alloc)?));
    }
    Ok(Some(filled_again(alloc, program, regions, given)?))
}
