//! The line of a state.
ghost use Rattle.std.specs.Prelude.{◌≡◌, IfOk};
ghost use Rattle.cap_prog.specs.Views.{program_view};
ghost use Rattle.cap_outline_spec.specs.Texts.{state_line as line_of_state};

use crate::held::{push_cells, push_facts, push_pieces, push_store};
use crate::terms::push_rows;
use cap_goal::State;
use cap_prog::Program;
use cap_syntax::Text;
use std::alloc::{AllocError, Global};

/// The line of a state, by the names of its function's variables. The only error is want of memory.
pub(crate) fn state_line(
    alloc: Global,
    program: &Program,
    names: &[Text],
    state: &State,
) -> Result<Vec<u8>, AllocError>
    ensures { IfOk result (λ line. line.items
        ≡ line_of_state (program_view program.now) names.now state.now) }
{
    let mut line = Vec::from_slice(alloc, b"state rows [")?;
    push_rows(alloc, &mut line, state.rows())?;
    line.extend_from_slice(b"] store [")?;
    push_store(alloc, &mut line, names, state.store())?;
    line.extend_from_slice(b"] cells [")?;
    push_cells(alloc, &mut line, state.cells())?;
    line.extend_from_slice(b"] facts [")?;
    push_facts(alloc, &mut line, program, state.facts())?;
    line.extend_from_slice(b"] guards [")?;
    push_pieces(alloc, &mut line, program, state.guards())?;
    line.extend_from_slice(b"]\n")?;
    Ok(line)
}
