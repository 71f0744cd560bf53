//! The guards of one side of a sum become those of the other side.
ghost use Rattle.cap_prog.specs.Views.{item_view, program_view};
ghost use Rattle.cap_rules.specs.Rules.{at_convert};
ghost use Rattle.cap_rules_steps.specs.Goals.{goals_view};
ghost use Rattle.cap_rules_steps.specs.Walks.{Claims, seen};
ghost use Rattle.cap_take_items.specs.Views.{remaining_view};

use crate::fulls::without_full;
use crate::guards::bound_term;
use crate::sides::side_pieces;
use crate::sums::{given_side, other_side, sum_at};
use cap_goal::{Goal, State};
use cap_prog::{Item, Program};
use cap_rules_steps::{Ledger, RuleError, region_at};
use cap_take_holdings::{copy_env, with_pieces};
use cap_take_items::{Remaining, stays};
use std::alloc::Global;

/// The full pieces of one side of the sum of a number, in preorder, become those of the other
/// side; side 0 is the left one. Each piece of the side is claimed to be all of its guard. The item
/// stays. `NotApplicable` comes where there is no such region type, sum or side, where the guard's
/// region is unbound, where a piece of the side is not there or is of tokens, and where a list of
/// the state is full; `Wide` where a result leaves 128 bits before that; `OutOfMemory` also where
/// the number of an atom passes 32 bits.
pub fn convert<'t, 'a>(
    alloc: Global,
    ledger: &mut Ledger,
    program: &'a Program,
    state: &State,
    sum: u32,
    side: u32,
    region: u32,
    kind: u32,
    item: &'a Item,
    rest: &Remaining<'t, 'a>,
) -> Result<Vec<Goal<'a>>, RuleError>
    ensures { Claims (seen goals_view result) ledger.old ledger.new (at_convert
        (program_view program.now) state.now sum side region kind (item_view item.now)
        (remaining_view rest.now)) }
{
    let guards = region_at(program, kind)?;
    let sides = sum_at(&guards.algebra, sum)?;
    let held = given_side(sides, side)?;
    let names = copy_env(alloc, state, rest.env)?;
    let named = bound_term(&names, region)?;
    let fulls = side_pieces(alloc, held, named, kind)?;
    let others = side_pieces(alloc, other_side(sides, side), named, kind)?;
    let mut next = state.copy()?;
    without_full(alloc, ledger, &mut next, &fulls)?;
    with_pieces(alloc, program, &mut next, &others)?;
    Ok(stays(alloc, next, item, rest)?)
}
