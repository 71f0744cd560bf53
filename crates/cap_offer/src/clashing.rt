//! Pairs of cells that have one address.
ghost use Rattle.std.specs.Prelude.{◌<◌, IfOk, option_map};
ghost use Rattle.cap_prog.specs.Views.{program_view};
ghost use Rattle.cap_goal_spec.specs.Fits.{HasRoom};
ghost use Rattle.cap_goal.specs.Views.{goal_view, choice_view};
ghost use Rattle.cap_offer_spec.specs.Listing.{clashes_with, clashes};
ghost use Rattle.cap_offer_spec.specs.Scanning.{first_tried};
ghost use Rattle.cap_closure_decide.specs.Noting.{Adds};

use crate::listing::count;
use crate::trying::tried;
use cap_closure_decide::Notes;
use cap_goal::{Choice, Goal};
use cap_prog::Program;
use std::alloc::{AllocError, Global};

// The first of the later cells, of so many, that clashes with a cell.
#[tactic(auto, unfolding(cap_offer_spec::specs::Scanning::first_tried))]
fn first_clash_with(
    alloc: Global,
    program: &Program,
    goal: &Goal<'_>,
    cells: u32,
    first: u32,
    notes: &mut Notes,
) -> Result<Option<Choice>, AllocError>
    requires room { HasRoom goal.now.state }
    requires first { first < cells }
    ensures { IfOk result (λ c. Adds notes.old notes.new (option_map choice_view c)
        (first_tried (program_view program.now) (goal_view goal.now) (clashes_with cells first))) }
{
    for second in first + 1..cells {
        let choice = Choice::Clash(first, second, Vec::new(alloc));
        match tried(alloc, program, goal, choice, notes)? {
            Some(found) => return Ok(Some(found)),
            None => {}
        }
    }
    Ok(None)
}

/// The first pair of cells that clashes: the first cell with each later one, then the second, and
/// so on.
pub(crate) fn first_clash(
    alloc: Global,
    program: &Program,
    goal: &Goal<'_>,
    notes: &mut Notes,
) -> Result<Option<Choice>, AllocError>
    requires { HasRoom goal.now.state }
    ensures { IfOk result (λ c. Adds notes.old notes.new (option_map choice_view c)
        (first_tried (program_view program.now) (goal_view goal.now) (clashes goal.now.state))) }
{
    let cells = count(goal.state.cells().len())?;
    for first in 0..cells {
        match first_clash_with(alloc, program, goal, cells, first, notes)? {
            Some(found) => return Ok(Some(found)),
            None => {}
        }
    }
    Ok(None)
}
