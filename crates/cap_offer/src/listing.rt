//! The choices that come into question, in order, without certificates.
ghost use Rattle.std.specs.Prelude.{◌≡◌, ◌++◌, IfOk, OnOk, slice_get};
ghost use Rattle.cap_prog.specs.Views.{region_view, program_view};
ghost use Rattle.cap_offer_spec.specs.Listing.{openings as openings_of, known_regions, new_regions};
ghost use Rattle.cap_offer_spec.specs.Listing.{cuts as cuts_of, moves_of, closings_of};
ghost use Rattle.cap_offer_spec.specs.Listing.{type_of_opened as opened_type};
ghost use Rattle.cap_offer_spec.specs.Listing.{closings as closings_in};
ghost use Rattle.cap_offer.specs.Views.{choices_view, region_in};

use cap_goal::{Choice, State};
use cap_prog::{Program, RegionType};
use std::alloc::{AllocError, Global};

/// How many members a list has. A number past 32 bits counts as want of memory.
pub(crate) fn count(length: usize) -> Result<u32, AllocError>
    ensures { IfOk result (λ n. n ≡ length) }
{
    if length <= u32::MAX as usize {
        Ok(length as u32)
    } else {
        Err(AllocError)
    }
}

/// The region type of a number, if there is one.
pub(crate) fn type_at(program: &Program, number: u32) -> Option<&RegionType>
    ensures { region_in result ≡ slice_get (program_view program.now).regions number }
{
    if number as usize >= program.regions().len() {
        return None;
    }
    Some(program.region(number))
}

/// To open the region of each fact.
pub(crate) fn openings(alloc: Global, state: &State) -> Result<Vec<Choice>, AllocError>
    ensures { IfOk result (λ v. choices_view v.items ≡ openings_of state.now) }
{
    let mut all = Vec::new(alloc);
    for fact in 0..count(state.facts().len())? {
        all.push(Choice::Enter(fact, Vec::new(alloc)))?;
    }
    Ok(all)
}

// Adds the choices to state a region by each fact.
fn add_known_regions(alloc: Global, state: &State, all: &mut Vec<Choice>) -> Result<(), AllocError>
    ensures { OnOk result (choices_view all.new.items
        ≡ choices_view all.old.items ++ known_regions state.now) }
{
    for fact in 0..count(state.facts().len())? {
        all.push(Choice::Region(fact, Vec::new(alloc)))?;
    }
    Ok(())
}

// Adds the choices to create a region in each case.
fn add_new_regions(region: Option<&RegionType>, all: &mut Vec<Choice>) -> Result<(), AllocError>
    ensures { OnOk result (choices_view all.new.items
        ≡ choices_view all.old.items ++ new_regions (region_in region.entry)) }
{
    if let Some(region) = region {
        for case in 0..count(region.cases.len())? {
            all.push(Choice::Create(case))?;
        }
    }
    Ok(())
}

/// To state a region by each fact, and then to create one of this type in each case.
pub(crate) fn regions(
    alloc: Global,
    state: &State,
    region: Option<&RegionType>,
) -> Result<Vec<Choice>, AllocError>
    ensures { IfOk result (λ v. choices_view v.items
        ≡ known_regions state.now ++ new_regions (region_in region.entry)) }
{
    let mut all = Vec::new(alloc);
    add_known_regions(alloc, state, &mut all)?;
    add_new_regions(region, &mut all)?;
    Ok(all)
}

/// To take all of each piece, or else a part of it; and at last no tokens.
pub(crate) fn cuts(alloc: Global, state: &State) -> Result<Vec<Choice>, AllocError>
    ensures { IfOk result (λ v. choices_view v.items ≡ cuts_of state.now) }
{
    let mut all = Vec::new(alloc);
    for piece in 0..count(state.guards().len())? {
        all.push(Choice::Guard(piece, 0, Vec::new(alloc)))?;
        all.push(Choice::Guard(piece, 1, Vec::new(alloc)))?;
    }
    all.push(Choice::Guard(0, 2, Vec::new(alloc)))?;
    Ok(all)
}

// Adds the choices to close an opened region in a case by each move.
fn add_moves(
    opened: u32,
    region: &RegionType,
    case: u32,
    all: &mut Vec<Choice>,
) -> Result<(), AllocError>
    ensures { OnOk result (choices_view all.new.items ≡ choices_view all.old.items
        ++ moves_of opened (region_view region.now) case) }
{
    for action in 0..count(region.actions.len() + 1)? {
        all.push(Choice::Pick(opened, case, action))?;
    }
    Ok(())
}

// Adds the choices to close an opened region of this type.
fn add_closings(
    opened: u32,
    region: Option<&RegionType>,
    all: &mut Vec<Choice>,
) -> Result<(), AllocError>
    ensures { OnOk result (choices_view all.new.items ≡ choices_view all.old.items
        ++ closings_of opened (region_in region.entry)) }
{
    if let Some(region) = region {
        for case in 0..count(region.cases.len())? {
            add_moves(opened, region, case, all)?;
        }
    }
    Ok(())
}

// The type of an opened region.
fn type_of_opened<'a>(program: &'a Program, state: &State, number: u32) -> Option<&'a RegionType>
    ensures { region_in result ≡ opened_type (program_view program.now)
        (slice_get state.now.opened number) }
{
    let opened = state.opened();
    if number as usize >= opened.len() {
        return None;
    }
    let fact = &opened[number as usize];
    type_at(program, fact.kind)
}

/// To close an opened region, the last one first, in each case by each move.
pub(crate) fn closings(
    alloc: Global,
    program: &Program,
    state: &State,
) -> Result<Vec<Choice>, AllocError>
    ensures { IfOk result
        (λ v. choices_view v.items ≡ closings_in (program_view program.now) state.now) }
{
    let mut all = Vec::new(alloc);
    for number in (0..count(state.opened().len())?).rev() {
        add_closings(number, type_of_opened(program, state, number), &mut all)?;
    }
    Ok(all)
}
