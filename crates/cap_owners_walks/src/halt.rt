//! Where a walk ends.
ghost use Rattle.std.specs.Prelude.{◌≡◌};
ghost use Rattle.cap_prog.specs.Program.{PlainProgram};
ghost use Rattle.std.specs.Prelude.{IfSome};
ghost use Rattle.cap_owners_places.specs.Views.{IsPlaced};
ghost use Rattle.cap_owners_walks.specs.Views.{end_view, halt_view, HaltIsPlaced};

use cap_owners_passes::Walk;
use cap_owners_places::Placed;

/// Where a walk ends: it stops at a node, or goes to the end of the tree.
#[derive(Drop)]
pub enum Halt<'t, 'a, 'e> {
    Stands(&'t Placed<'a>, Walk<'e>),
    Leaves(Walk<'e>),
}

impl<'t, 'a, 'e> Halt<'t, 'a, 'e> {
    // Where a walk ends, once it has gone down to a node or to the end of the tree.
    pub(crate) fn at(end: Option<&'t Placed<'a>>, walk: Walk<'e>) -> Halt<'t, 'a, 'e>
        ensures seen { halt_view result ≡ end_view end.entry walk.entry }
        ensures placed { (p : PlainProgram) → IfSome end.entry (λ q. IsPlaced p q.now)
            → HaltIsPlaced p result }
    {
        match end {
            Some(place) => Halt::Stands(place, walk),
            None => Halt::Leaves(walk),
        }
    }
}
