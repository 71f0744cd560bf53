//! What the solver decides of one list of rows, of several, and of each for itself.
ghost use Rattle.std.specs.Prelude.{IfOk, map};
ghost use Rattle.cap_offer_spec.specs.Deciding.{decided, decided_all, decided_each};
ghost use Rattle.cap_closure_decide.specs.Noting.{Adds, certs_seen};

use crate::notes::Notes;
use cap_farkas::Cert;
use cap_fm::{Answer, SolveError, solve};
use cap_lin::Row;
use std::alloc::{AllocError, Global};

/// The certificate that the solver finds of the rows; none where a valuation solves them, or where
/// a limit is passed, which is noted. Rows past 32 bits count as want of memory.
#[tactic(auto, unfolding(cap_offer_spec::specs::Deciding::decided))]
pub fn decided(alloc: Global, rows: &[Row], notes: &mut Notes) -> Result<Option<Cert>, AllocError>
    ensures { IfOk result (λ cert. Adds notes.old notes.new cert (decided rows.now)) }
{
    if rows.len() >= u32::MAX as usize {
        return Err(AllocError);
    }
    match solve(alloc, rows) {
        Ok(Answer::Empty(cert)) => Ok(Some(cert)),
        Ok(Answer::Solvable) => Ok(None),
        Err(SolveError::Wide(first, second)) => {
            notes.note_wide(first, second);
            Ok(None)
        }
        Err(SolveError::Rows) => {
            notes.note_rows();
            Ok(None)
        }
        Err(SolveError::OutOfMemory) => Err(AllocError),
    }
}

/// A certificate for each list of rows, in order, up to the first that has none.
#[tactic(auto, unfolding(cap_offer_spec::specs::Deciding::decided_all))]
pub fn decided_all(
    alloc: Global,
    lists: &[Vec<Row>],
    notes: &mut Notes,
) -> Result<Option<Vec<Cert>>, AllocError>
    ensures { IfOk result (λ certs. Adds notes.old notes.new (certs_seen certs)
        (decided_all (map (λ rows. rows.items) lists.now))) }
{
    let mut certs = Vec::new(alloc);
    for rows in lists {
        match decided(alloc, rows, notes)? {
            Some(cert) => certs.push(cert)?,
            None => return Ok(None),
        }
    }
    Ok(Some(certs))
}

/// A certificate or none for each list of rows.
#[tactic(auto, unfolding(cap_offer_spec::specs::Deciding::decided_each))]
pub fn decided_each(
    alloc: Global,
    lists: &[Vec<Row>],
    notes: &mut Notes,
) -> Result<Vec<Option<Cert>>, AllocError>
    ensures { IfOk result (λ marks. Adds notes.old notes.new marks.items
        (decided_each (map (λ rows. rows.items) lists.now))) }
{
    let mut marks = Vec::new(alloc);
    for rows in lists {
        marks.push(decided(alloc, rows, notes)?)?;
    }
    Ok(marks)
}
