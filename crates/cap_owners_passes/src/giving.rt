//! An assertion is given, up to its first conditional.
ghost use Rattle.std.specs.Prelude.{◌≡◌, Some, ℕ};
ghost use Rattle.cap_goal.specs.Views.{items_in, tasks_view};
ghost use Rattle.cap_prog.specs.Program.{none};
ghost use Rattle.cap_owners_fill.specs.Views.{sides_of, sides_view};
ghost use Rattle.cap_owners_spec.specs.Filling.{Giving, Parting as PlainParting};
ghost use Rattle.cap_owners_spec.specs.Track.{Fill};
ghost use Rattle.cap_owners_spec.specs.Walks.{bringing, pass_give, pass_parting};
ghost use Rattle.cap_owners_passes.specs.Views.{Passes};

use crate::ahead::{are_done, child_of};
use crate::lookup::env_at;
use crate::walk::Walk;
use cap_goal::{Env, Items, State, Task};
use cap_owners_fill::{Fill, Parting, give_all};
use cap_owners_values::TraceError;
use std::alloc::Global;

// At the first conditional, the side that holds is left to be given, by `left`. The goal of the
// side where its comparison holds is missing where nothing is left to be done there.
fn pass_side(
    state: &State,
    parting: &Parting<'_>,
    behind: &[Task<'_>],
    left: Fill,
    walk: &mut Walk<'_>,
) -> Result<Option<usize>, TraceError>
    ensures { (x : PlainParting) (e n : ℕ) (f : Fill) (g : Giving) (w : Walk) →
        sides_of x ≡ sides_view parting.now → left ≡ record f { wildcards = g.wildcards } →
        walk.old ≡ bringing w g.new → Passes result walk.new
        (pass_parting state.now e n (tasks_view behind.now) f g w (Some x)) }
{
    let holds = left.names.holds(parting.condition)?;
    let missing = parting.holding_is_empty && are_done(behind, state);
    let ends = if holds {
        parting.holding_is_empty
    } else {
        parting.failing_is_empty
    };
    walk.go_on_giving(if ends { None } else { Some(left) });
    Ok(child_of(holds, missing))
}

/// The items are given, up to the first conditional. `Untold` comes where there is nothing by which
/// they are met.
pub(crate) fn pass_give(
    alloc: Global,
    state: &State,
    items: &Items<'_>,
    env: u32,
    behind: &[Task<'_>],
    walk: &mut Walk<'_>,
) -> Result<Option<usize>, TraceError>
    ensures { (n : ℕ) → Passes result walk.new (pass_give state.now
        (items_in items.now.lists.items none) env n (tasks_view behind.now) walk.old) }
{
    let Some(fill) = walk.end_giving() else {
        return Err(TraceError::Untold);
    };
    let none = Env {
        terms: Vec::new(alloc),
    };
    let given = give_all(alloc, &fill, env_at(state, env, &none), items)?;
    walk.bring_all(&given.new)?;
    let Some(parting) = given.parting else {
        return Ok(Some(0));
    };
    let left = fill.with_wildcards(given.wildcards);
    pass_side(state, &parting, behind, left, walk)
}
