//! Regions that a walk enters.
ghost use Rattle.std.specs.Prelude.{◌≡◌, IfOk};
ghost use Rattle.cap_prog.specs.Views.{program_view};
ghost use Rattle.cap_owners_values.specs.Views.{Traces};
ghost use Rattle.cap_owners_spec.specs.Walks.{descends};
ghost use Rattle.cap_owners_walks.specs.Nodes.{entered, opened_at};
ghost use Rattle.cap_owners_walks.specs.Views.{interpreted_view, opened_view};

use crate::regions::Interpreted;
use cap_goal::State;
use cap_owners_passes::Walk;
use cap_owners_values::{TraceError, Values};
use cap_prog::Program;
use std::alloc::{AllocError, Global};

/// The number of a region that is entered, and how many parameters its type has.
#[derive(Clone, Copy)]
pub(crate) struct Opened {
    pub params: u32,
    pub number: i128,
}

/// The region of a state's fact, by the fact's number, with values of the state's variables.
/// `PastWidth` and `Untold` come as the definition says. It takes no memory.
pub(crate) fn opened_at(
    program: &Program,
    state: &State,
    fact: u32,
    values: &Values,
) -> Result<Opened, TraceError>
    ensures { Traces result opened_view
        (opened_at (program_view program.now) state.now fact values.now) }
{
    let Some(fact) = state.facts().get(fact as usize) else {
        return Err(TraceError::Untold);
    };
    let Some(kind) = program.regions().get(fact.kind as usize) else {
        return Err(TraceError::Untold);
    };
    Ok(Opened {
        params: kind.params,
        number: values.number_in(&fact.region)?,
    })
}

/// A walk enters a region whose type has so many parameters: its case is given, by what its
/// assertion is met. The child to which it goes is that of the case. After an error the walk is
/// lost.
pub(crate) fn enter(
    alloc: Global,
    params: u32,
    region: Interpreted,
    walk: &mut Walk<'_>,
) -> Result<Option<usize>, AllocError>
    ensures { IfOk result (λ i. descends i walk.new
        ≡ entered params walk.old (interpreted_view region)) }
{
    let Interpreted { case, fill } = region;
    walk.values
        .append(&fill.names.behind(alloc, params as usize)?)?;
    walk.fill = Some(fill);
    Ok(Some(case as usize))
}
