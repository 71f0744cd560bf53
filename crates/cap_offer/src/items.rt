//! At items that are to be given up.
ghost use Rattle.std.specs.Prelude.{◌≡◌, IfOk};
ghost use Rattle.cap_prog.specs.Program.{none};
ghost use Rattle.cap_prog.specs.Views.{item_view, program_view};
ghost use Rattle.cap_goal_spec.specs.Fits.{HasRoom};
ghost use Rattle.cap_goal.specs.Views.{items_in, goal_view};
ghost use Rattle.cap_offer_spec.specs.Offering.{at_cell as cell_at, at_atom as atom_at};
ghost use Rattle.cap_offer_spec.specs.Offering.{at_item as item_at};
ghost use Rattle.cap_closure_decide.specs.Noting.{Adds};
ghost use Rattle.cap_offer.specs.Heads.{at_region as region_at};
ghost use Rattle.cap_offer.specs.Views.{choices_view, first_of_items, item_in};

use crate::listing::{cuts, regions, type_at};
use crate::scanning::{Sought, first_sought};
use crate::sums::conversions;
use crate::trying::{first_tried, only, tried_all, tried_alone};
use cap_closure_decide::Notes;
use cap_goal::{Choice, Goal, Items};
use cap_lin::Term;
use cap_prog::{Item, Program};
use std::alloc::{AllocError, Global};

/// The item that comes first, if there is one.
pub(crate) fn first_item<'a>(
    alloc: Global,
    items: &Items<'a>,
) -> Result<Option<&'a Item>, AllocError>
    ensures { IfOk result
        (λ item. first_of_items (items_in items.now.lists.items none) ≡ item_in item) }
{
    let mut lists = Vec::from_slice(alloc, &items.lists)?;
    while let Some(list) = lists.pop() {
        if let [item, ..] = list {
            return Ok(Some(item));
        }
    }
    Ok(None)
}

// The cell that has the address.
fn at_cell(
    alloc: Global,
    program: &Program,
    goal: &Goal<'_>,
    env: u32,
    address: &Term,
    notes: &mut Notes,
) -> Result<Vec<Choice>, AllocError>
    requires { HasRoom goal.now.state }
    ensures { IfOk result (λ v. Adds notes.old notes.new (choices_view v.items)
        (cell_at (program_view program.now) (goal_view goal.now) env address.now)) }
{
    let choice = first_sought(alloc, program, goal, Sought::Item(env, address), notes)?;
    only(alloc, choice)
}

// The first way to take the guard out of a piece, or else all ways to convert another guard to it.
fn at_atom(
    alloc: Global,
    program: &Program,
    goal: &Goal<'_>,
    kind: u32,
    atom: u32,
    notes: &mut Notes,
) -> Result<Vec<Choice>, AllocError>
    requires { HasRoom goal.now.state }
    ensures { IfOk result (λ v. Adds notes.old notes.new (choices_view v.items)
        (atom_at (program_view program.now) (goal_view goal.now) kind atom)) }
{
    let choices = cuts(alloc, &goal.state)?;
    match first_tried(alloc, program, goal, choices, notes)? {
        Some(choice) => only(alloc, Some(choice)),
        None => {
            let choices = conversions(alloc, type_at(program, kind), atom)?;
            tried_all(alloc, program, goal, choices, notes)
        }
    }
}

// To state a region by a fact that is known, or to create one.
fn at_region(
    alloc: Global,
    program: &Program,
    goal: &Goal<'_>,
    kind: u32,
    notes: &mut Notes,
) -> Result<Vec<Choice>, AllocError>
    requires { HasRoom goal.now.state }
    ensures { IfOk result (λ v. Adds notes.old notes.new (choices_view v.items)
        (region_at (program_view program.now) (goal_view goal.now) kind)) }
{
    let candidates = regions(alloc, &goal.state, type_at(program, kind))?;
    tried_all(alloc, program, goal, candidates, notes)
}

/// What is offered at an item, in the environment of a number.
pub(crate) fn at_item(
    alloc: Global,
    program: &Program,
    goal: &Goal<'_>,
    env: u32,
    item: &Item,
    notes: &mut Notes,
) -> Result<Vec<Choice>, AllocError>
    requires { HasRoom goal.now.state }
    ensures { IfOk result (λ v. Adds notes.old notes.new (choices_view v.items)
        (item_at (program_view program.now) (goal_view goal.now) env (item_view item.now))) }
{
    match item {
        Item::Compare(_) => {
            tried_alone(alloc, program, goal, Choice::Fact(Vec::new(alloc)), notes)
        }
        Item::Choose(_, _, _) => tried_alone(alloc, program, goal, Choice::Cases, notes),
        Item::Fact(_, _, kind, _, _) => at_region(alloc, program, goal, *kind, notes),
        Item::Atom(_, _, kind, atom, _) => at_atom(alloc, program, goal, *kind, *atom, notes),
        Item::Cell(_, address, _) => at_cell(alloc, program, goal, env, address, notes),
    }
}
