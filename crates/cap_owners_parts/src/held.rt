//! What a state holds.
ghost use Rattle.cap_prog.specs.Views.{program_view};
ghost use Rattle.cap_owners_spec.specs.Filling.{part_held as held_part, with_cells, with_pieces};
ghost use Rattle.cap_owners_values.specs.Views.{Traces};

use crate::made::form_element;
use crate::part::Part;
use cap_goal::State;
use cap_gsolve::Piece;
use cap_lin::Term;
use cap_owners_values::{TraceError, Values};
use cap_prog::Program;
use std::alloc::Global;

/// What a state holds, its cells and its guards, by the values of its variables. `PastWidth` comes
/// where a term or a count leaves 128 bits, and `Untold` where guards don't go together.
pub fn part_held(
    alloc: Global,
    program: &Program,
    state: &State,
    values: &Values,
) -> Result<Part, TraceError>
    ensures { Traces result (λ q. q)
        (held_part (program_view program.now) state.now values.now) }
{
    let mut part = Part::new(alloc);
    put_cells(&mut part, values, state.cells())?;
    put_pieces(alloc, program, &mut part, values, state.guards())?;
    Ok(part)
}

/// Puts cells in, by the values of their terms. `PastWidth` comes where a term leaves 128 bits.
/// After an error the part is lost.
pub fn put_cells(part: &mut Part, values: &Values, cells: &[(Term, Term)]) -> Result<(), TraceError>
    ensures { Traces result (λ _. part.new) (with_cells values.now part.old cells.now) }
{
    for cell in cells {
        let address = values.number_in(&cell.0)?;
        let value = values.number_in(&cell.1)?;
        part.put_cell(address, value)?;
    }
    Ok(())
}

// Puts pieces of guards in. After an error the part is lost.
fn put_pieces(
    alloc: Global,
    program: &Program,
    part: &mut Part,
    values: &Values,
    pieces: &[Piece],
) -> Result<(), TraceError>
    ensures { Traces result (λ _. part.new)
        (with_pieces (program_view program.now) values.now part.old pieces.now) }
{
    for piece in pieces {
        let region = values.number_in(&piece.region)?;
        let element = form_element(alloc, &piece.form, values)?;
        part.put_atom(alloc, program, region, piece.kind, piece.atom, element)?;
    }
    Ok(())
}
