//! Where a frame begins.
ghost use Rattle.std.specs.Prelude.{IfOk, List, Option};
ghost use Rattle.cap_prog.specs.Program.{PlainProgram};
ghost use Rattle.cap_prog.specs.Views.{function_view};
ghost use Rattle.cap_goal_spec.specs.Choices.{PlainTree};
ghost use Rattle.cap_owners_spec.specs.Steps.{begins_at};
ghost use Rattle.cap_owners_values.specs.Views.{Traces};
ghost use Rattle.cap_owners_places.specs.Views.{proved_of, AreRoots};
ghost use Rattle.cap_owners.specs.Standing.{entered};
ghost use Rattle.cap_owners.specs.Tracks.{frame_view, FrameIsPlaced};

use crate::track::TrackedFrame;
use cap_goal::Unit;
use cap_machine::Event;
use cap_owners_fill::Fill;
use cap_owners_parts::Part;
use cap_owners_places::Roots;
use cap_owners_values::{TraceError, Values};
use cap_owners_walks::GivenAssertion;
use cap_prog::Function;
use std::alloc::Global;

// The roots of a function: the stability of what it requires and of what it ensures, and its body;
// behind them for each loop the stability of its invariant, and the loop.
const REQUIRES_ROOT: usize = 0;

pub(crate) const ENSURES_ROOT: usize = 1;

const BODY_ROOT: usize = 2;

/// A root of a function behind whose assertion a frame begins, and the root of that assertion's
/// stability.
#[derive(Clone, Copy)]
pub(crate) struct Opening {
    pub function: u32,
    pub stability: usize,
    pub root: usize,
}

/// A frame at a root, behind its assertion, which is given: with the values of variables there and
/// of its fixed names, by what the assertion is met, and with its own steps since. `Untold` comes
/// where there is no such root.
pub(crate) fn begins<'t, 'a>(
    alloc: Global,
    roots: &'t Roots<'a>,
    opening: Opening,
    values: Values,
    fixed: Values,
    fill: Fill,
    since: Vec<Event>,
) -> Result<TrackedFrame<'t, 'a>, TraceError>
    ensures begins { (p : PlainProgram) (ts : List (Option PlainTree)) →
        AreRoots p ts roots.now → Traces result frame_view
        (begins_at (proved_of p ts) opening.function opening.stability opening.root
        values fixed fill since.items) }
    ensures placed { (p : PlainProgram) (ts : List (Option PlainTree)) →
        AreRoots p ts roots.now → IfOk result (FrameIsPlaced p) }
{
    let unit = Unit::Function(opening.function);
    let Some(seat) = roots.at(unit, opening.root) else {
        return Err(TraceError::Untold);
    };
    let known = values.copy(alloc)?;
    Ok(TrackedFrame {
        part: Part::new(alloc),
        fixed,
        seat,
        values,
        given: Some(GivenAssertion {
            stability: roots.at(unit, opening.stability),
            values: known,
            fill,
        }),
        since,
        awaited: 0,
    })
}

/// A frame at the body of a function, which has this number, by what its `requires` is met.
pub(crate) fn enters<'t, 'a>(
    alloc: Global,
    roots: &'t Roots<'a>,
    number: u32,
    function: &Function,
    args: &[i128],
    fill: Fill,
) -> Result<TrackedFrame<'t, 'a>, TraceError>
    ensures begins { (p : PlainProgram) (ts : List (Option PlainTree)) →
        AreRoots p ts roots.now → Traces result frame_view
        (entered (proved_of p ts) number (function_view function.now) args.now fill) }
    ensures placed { (p : PlainProgram) (ts : List (Option PlainTree)) →
        AreRoots p ts roots.now → IfOk result (FrameIsPlaced p) }
{
    let start = function.params as usize + function.locals as usize;
    let fixed = fill.names.part(alloc, start, function.fixed.len())?;
    let mut values = Values::of_numbers(alloc, args)?;
    values.append(&fixed)?;
    let opening = Opening {
        function: number,
        stability: REQUIRES_ROOT,
        root: BODY_ROOT,
    };
    begins(alloc, roots, opening, values, fixed, fill, Vec::new(alloc))
}
