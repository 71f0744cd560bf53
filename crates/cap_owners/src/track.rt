//! The track of a run.
use cap_machine::Event;
use cap_owners_fill::Regions;
use cap_owners_parts::Part;
use cap_owners_places::Placed;
use cap_owners_values::Values;
use cap_owners_walks::GivenAssertion;

/// What a frame has, and how a derivation says it. Its seat is the node to which its last heap
/// statement, call or fork led, before its facts are settled, or the root where it begins, with the
/// values of the variables there. What it was given since, and its own steps since, lead from the
/// seat to where it stands. A frame that waits for a result has a variable for it.
#[derive(Drop)]
pub(crate) struct TrackedFrame<'t, 'a> {
    pub part: Part,
    pub fixed: Values,
    pub seat: &'t Placed<'a>,
    pub values: Values,
    pub given: Option<GivenAssertion<'t, 'a>>,
    pub since: Vec<Event>,
    pub awaited: usize,
}

/// The regions, and the frames of each thread, the top one last.
#[derive(Drop)]
pub(crate) struct Track<'t, 'a> {
    pub regions: Regions,
    pub threads: Vec<Vec<TrackedFrame<'t, 'a>>>,
}
