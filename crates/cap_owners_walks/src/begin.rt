//! Where a walk begins.
ghost use Rattle.std.specs.Prelude.{◌≡◌, [], IfOk};
ghost use Rattle.cap_owners_spec.specs.Steps.{beginning as begins};

use cap_machine::Event;
use cap_owners_fill::{Fill, Regions};
use cap_owners_passes::Walk;
use cap_owners_values::Values;
use std::alloc::{AllocError, Global};

/// A walk with these regions and values, before the steps to come: by what the next items are met,
/// and nothing is taken yet. The only error is want of memory.
pub fn beginning<'e>(
    alloc: Global,
    regions: &Regions,
    values: &Values,
    fill: Option<Fill>,
    events: &'e [Event],
) -> Result<Walk<'e>, AllocError>
    ensures { IfOk result (λ w. w ≡ begins regions.now values.now [] fill events.now) }
{
    let next = 1 + regions.len() as i128;
    Ok(Walk {
        values: values.copy(alloc)?,
        regions: regions.copy(alloc)?,
        next,
        taken: Vec::new(alloc),
        fill,
        events,
        awaited: 0,
    })
}
