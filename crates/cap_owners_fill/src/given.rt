//! The values that an assertion brings when it is given.
ghost use Rattle.std.specs.Prelude.{◌≡◌, IfOk, option_map};
ghost use Rattle.cap_prog.specs.Program.{append_items, none};
ghost use Rattle.cap_prog.specs.Views.{items_view as assertion_items};
ghost use Rattle.cap_goal.specs.Views.{items_in};
ghost use Rattle.cap_owners_spec.specs.Walks.{no_items};
ghost use Rattle.cap_owners_fill.specs.Views.{conditional_view, IsGiven, IsGivenSo, items_view};
ghost use Rattle.cap_owners_fill.specs.Views.{list_view, parted, sides_of, sides_view};

use crate::fill::Fill;
use crate::giving::{Conditional, Giving};
use cap_goal::{Env, Items};
use cap_owners_values::Values;
use cap_prog::{Assertion, Comp, Item};
use std::alloc::{AllocError, Global};

/// The first conditional of an assertion: its comparison, and whether nothing is left to be given on
/// each side, what comes behind the conditional included.
#[derive(Clone, Copy)]
pub struct Parting<'a> {
    pub condition: &'a Comp,
    pub holding_is_empty: bool,
    pub failing_is_empty: bool,
}

/// What an assertion brings, up to its first conditional with its comparison: the values of the
/// variables that are new, and those of `_` that are left.
#[derive(Drop)]
pub struct Given<'a> {
    pub new: Values,
    pub wildcards: Values,
    pub parting: Option<Parting<'a>>,
}

// Whether there is no item in the list.
fn is_empty(items: &[Item]) -> bool
    ensures { result ≡ no_items (list_view items.now) }
{
    items.is_empty()
}

// Whether there is no item in an assertion.
fn has_no_items(assertion: &Assertion) -> bool
    ensures { result ≡ no_items (assertion_items assertion.now) }
{
    is_empty(&assertion.items)
}

// Whether there is no item in the lists.
fn are_empty(lists: &[&[Item]]) -> bool
    ensures { result ≡ no_items (items_in lists.now none) }
{
    for list in lists {
        if !is_empty(list) {
            return false;
        }
    }
    true
}

// Whether a side of a conditional leaves nothing to be given: no items of its own, none behind the
// conditional in its list, and none in the other lists.
fn leaves_nothing(side: &Assertion, behind: &[Item], lists: &[&[Item]]) -> bool
    ensures { result ≡ no_items (append_items (assertion_items side.now)
        (append_items (list_view behind.now) (items_in lists.now none))) }
{
    if !has_no_items(side) {
        return false;
    }
    if !is_empty(behind) {
        return false;
    }
    are_empty(lists)
}

// A conditional, with what is left to be given on each side.
fn parting_at<'a>(conditional: Conditional<'a>, lists: &[&[Item]]) -> Parting<'a>
    ensures { sides_view result
        ≡ sides_of (parted (conditional_view conditional.entry) (items_in lists.now none)) }
{
    Parting {
        condition: conditional.comparison,
        holding_is_empty: leaves_nothing(conditional.holding, conditional.behind, lists),
        failing_is_empty: leaves_nothing(conditional.failing, conditional.behind, lists),
    }
}

// What was given up to here.
fn make_given<'a>(
    alloc: Global,
    giving: &Giving,
    parting: Option<Parting<'a>>,
) -> Result<Given<'a>, AllocError>
    ensures { IfOk result (λ g. IsGivenSo giving.now (option_map sides_view parting.entry) g) }
{
    Ok(Given {
        new: giving.brought(alloc)?,
        wildcards: giving.wildcards(alloc)?,
        parting,
    })
}

/// What the items of an assertion bring in an environment, by what they are met. The only error is
/// want of memory.
pub fn give_all<'a>(
    alloc: Global,
    fill: &Fill,
    env: &Env,
    items: &Items<'a>,
) -> Result<Given<'a>, AllocError>
    ensures { IfOk result (λ g. IsGiven fill.now env.now (items_view items.now) g) }
{
    let mut giving = Giving::new(alloc, fill, env)?;
    let mut count = items.lists.len();
    while count > 0 {
        count -= 1;
        let list = items.lists[count];
        match giving.give_list(alloc, &fill.names, list)? {
            None => {}
            Some(conditional) => {
                let parting = parting_at(conditional, &items.lists[..count]);
                return make_given(alloc, &giving, Some(parting));
            }
        }
    }
    make_given(alloc, &giving, None)
}
