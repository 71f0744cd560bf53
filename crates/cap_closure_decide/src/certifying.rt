//! Certificates for all that an attempt claims, or the first claim that is not decided.
ghost use Rattle.std.specs.Prelude.{List, [], IfOk};
ghost use Rattle.cap_lin.specs.declared.row.Row.{Row};
ghost use Rattle.cap_rules.specs.Attempts.{Attempt};
ghost use Rattle.cap_rules.specs.Answers.{Answer, proofs_of};
ghost use Rattle.cap_offer_spec.specs.Deciding.{certified, certified_by};
ghost use Rattle.cap_rules_steps.specs.Judging.{IsTold, lists_view};
ghost use Rattle.cap_rules_steps.specs.Walks.{Claims, giving, seen};
ghost use Rattle.cap_closure_decide.specs.Noting.{Adds, certs_seen};

use crate::deciding::decided_all;
use crate::notes::Notes;
use cap_farkas::Cert;
use cap_lin::Row;
use cap_rules_steps::{Ledger, RuleError};
use std::alloc::{AllocError, Global};

/// The certificates of the lists of rows that a rule asks to be refuted, or none: where the rule
/// doesn't apply, where a result leaves 128 bits, which is noted, and where a list has none.
pub fn certified_by(
    alloc: Global,
    proofs: Result<Vec<Vec<Row>>, RuleError>,
    notes: &mut Notes,
) -> Result<Option<Vec<Cert>>, AllocError>
    ensures { (answer : Answer (List (List Row))) → IsTold (seen lists_view proofs) answer →
        IfOk result (λ certs. Adds notes.old notes.new (certs_seen certs) (certified_by answer)) }
{
    match proofs {
        Ok(lists) => decided_all(alloc, &lists, notes),
        Err(error) => {
            notes.note_failure(error)?;
            Ok(None)
        }
    }
}

// The lists of rows that are to be refuted, or the first failure that is no certificate's.
fn proofs_told(outcome: Result<(), RuleError>, ledger: Ledger) -> Result<Vec<Vec<Row>>, RuleError>
    ensures { (o : Attempt (Unit {0})) → Claims (giving outcome tt) [] ledger o →
        IsTold (seen lists_view result) (proofs_of o) }
{
    match outcome {
        Ok(()) => Ok(ledger.into_lists()),
        Err(error) => {
            drop(ledger);
            Err(error)
        }
    }
}

/// The certificates of all that an attempt claimed, by its outcome, or none: where the attempt
/// fails, by a result that leaves 128 bits, which is noted, or otherwise, and where a list of its
/// claims has none.
#[tactic(auto, unfolding(cap_offer_spec::specs::Deciding::certified))]
pub fn certified(
    alloc: Global,
    outcome: Result<(), RuleError>,
    ledger: Ledger,
    notes: &mut Notes,
) -> Result<Option<Vec<Cert>>, AllocError>
    ensures { (o : Attempt (Unit {0})) → Claims (giving outcome tt) [] ledger o →
        IfOk result (λ certs. Adds notes.old notes.new (certs_seen certs) (certified o)) }
{
    certified_by(alloc, proofs_told(outcome, ledger), notes)
}
