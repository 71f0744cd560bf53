//! Whether rows prove a row.
ghost use Rattle.std.specs.Prelude.{◌≡◌, ◌++◌, [], ◌∷◌, map, is_some, IfOk};
ghost use Rattle.cap_rules.specs.Attempts.{prove};
ghost use Rattle.cap_offer_spec.specs.Deciding.{succeeds};
ghost use Rattle.cap_rules_steps.specs.Places.{ended_by};
ghost use Rattle.cap_closure_decide.specs.Noting.{Adds, is_refuted, refuted_all};

use crate::deciding::decided;
use crate::notes::Notes;
use cap_lin::Row;
use cap_rules_steps::RuleError;
use std::alloc::{AllocError, Global};

// Whether the rows are refuted with another one behind them, which is taken back.
fn refuted_with(
    alloc: Global,
    rows: &mut Vec<Row>,
    last: Row,
    notes: &mut Notes,
) -> Result<bool, AllocError>
    ensures rows { IfOk result (λ _. rows.new.items ≡ rows.old.items) }
    ensures refuted { IfOk result (λ yes. Adds notes.old notes.new yes
        (is_refuted (rows.old.items ++ last ∷ []))) }
{
    rows.push(last)?;
    let cert = decided(alloc, rows, notes)?;
    drop(rows.pop());
    Ok(cert.is_some())
}

// Whether the rows are refuted with each of these behind them, up to the first with which they
// aren't.
#[tactic(auto, unfolding(crate::specs::Noting::refuted_all))]
fn refuted_with_each(
    alloc: Global,
    rows: &mut Vec<Row>,
    lasts: Vec<Row>,
    notes: &mut Notes,
) -> Result<bool, AllocError>
    ensures rows { IfOk result (λ _. rows.new.items ≡ rows.old.items) }
    ensures refuted { IfOk result (λ yes. Adds notes.old notes.new yes
        (refuted_all (map (ended_by rows.old.items) lasts.items))) }
{
    for last in lasts {
        if !refuted_with(alloc, rows, last, notes)? {
            return Ok(false);
        }
    }
    Ok(true)
}

/// Whether the rows prove a row: each of its negations is put behind the rows, decided and taken
/// back, up to the first that isn't refuted. A negation that leaves 128 bits is noted, and the row
/// is not proved. The rows are as before, but for want of memory.
pub fn proves(
    alloc: Global,
    rows: &mut Vec<Row>,
    row: &Row,
    notes: &mut Notes,
) -> Result<bool, AllocError>
    ensures rows { IfOk result (λ _. rows.new.items ≡ rows.old.items) }
    ensures proves { IfOk result (λ yes. Adds notes.old notes.new yes
        (succeeds (prove rows.old.items row.now))) }
{
    match row.negations(alloc) {
        Ok(negations) => refuted_with_each(alloc, rows, negations, notes),
        Err(error) => {
            notes.note_failure(RuleError::from(error))?;
            Ok(false)
        }
    }
}
