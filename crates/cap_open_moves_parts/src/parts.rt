//! What a move matches: the parts of an action, and the guards that were held before the step.
ghost use Rattle.std.specs.Prelude.{◌≡◌, ◌++◌, IfOk, OnOk};
ghost use Rattle.cap_prog.specs.Views.{action_view};
ghost use Rattle.cap_rules.specs.Closing.{asks_indices as indices_asked, parts_of as parts_in};
ghost use Rattle.cap_open_moves_parts.specs.Views.{parts_view};
ghost use Rattle.cap_open_moves_parts.specs.Parts.{parts_plain};

use cap_goal::State;
use cap_gsolve::Piece;
use cap_prog::{Action, Asked};
use std::alloc::{AllocError, Global};

/// What a move matches: a guard with what was held, by its atom's number, the source with the old
/// state, and the target with the new one.
#[derive(Clone, Copy)]
pub enum MovePart<'a> {
    Guard(u32, &'a Asked),
    Source,
    Target,
}

/// Whether indices are asked of a guard: one, or all from one on.
pub fn asks_indices(asked: &Asked) -> bool
    ensures { result ≡ indices_asked asked.now }
{
    match asked {
        Asked::At(_) | Asked::From(_) => true,
        Asked::One | Asked::Share(_) | Asked::Src(_) | Asked::Tok(_) => false,
    }
}

// Adds the guards of an action that aren't indexed.
fn push_guards<'a>(
    parts: &mut Vec<MovePart<'a>>,
    guards: &'a [(u32, Asked)],
) -> Result<(), AllocError>
    ensures { OnOk result (parts_view parts.new.items
        ≡ parts_view parts.old.items ++ parts_plain guards.now) }
{
    for guard in guards {
        if !asks_indices(&guard.1) {
            parts.push(MovePart::Guard(guard.0, &guard.1))?;
        }
    }
    Ok(())
}

/// The parts of an action in their order: the guards that aren't indexed, then the source and the
/// target. It fails only for want of memory.
pub fn parts_of<'a>(alloc: Global, action: &'a Action) -> Result<Vec<MovePart<'a>>, AllocError>
    ensures { IfOk result (λ v. parts_view v.items ≡ parts_in (action_view action.now)) }
{
    let mut parts = Vec::new(alloc);
    push_guards(&mut parts, &action.guards)?;
    parts.push(MovePart::Source)?;
    parts.push(MovePart::Target)?;
    Ok(parts)
}

/// The guards that were held before the step, when its first region was opened: piece by piece, as
/// they are numbered.
pub fn held_before(state: &State) -> &[Piece]
    ensures { result.now ≡ state.now.before }
{
    state.before()
}
