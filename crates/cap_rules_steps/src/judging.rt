//! What certificates make of a rule's claims.
ghost use Rattle.std.specs.Prelude.{◌≡◌, ◌<◌, List, [], length, slice_get, Some};
ghost use Rattle.std.specs.Bool.{MatchBool};
ghost use Rattle.cap_rules.specs.cap_goal_spec.States.{PlainGoal};
ghost use Rattle.cap_rules.specs.Attempts.{Attempt};
ghost use Rattle.cap_rules_steps.specs.Goals.{goals_view};
ghost use Rattle.cap_goal.specs.Views.{certs_in};
ghost use Rattle.cap_rules_steps.specs.Judging.{Refuted, RefutedNot, Answered, judged_error};
ghost use Rattle.cap_rules_steps.specs.Judging.{IsTold, lists_view};
ghost use Rattle.cap_rules.specs.Answers.{proofs_of};
ghost use Rattle.cap_rules_steps.specs.Walks.{Claims, seen};

use crate::error::RuleError;
use crate::ledger::Ledger;
use cap_farkas::{Cert, refutes};
use cap_goal::Goal;
use cap_lin::Row;

fn cert_at<'a>(certs: &[&'a Cert], number: usize) -> &'a Cert
    requires { number < length certs.now }
    ensures { slice_get (certs_in certs.now) number ≡ Some result.now }
{
    certs[number]
}

// Whether the first certificates refute the lists of the ledger, one each.
fn refutes_all(ledger: &Ledger, certs: &[&Cert]) -> bool
    ensures { MatchBool result (Refuted ledger.now (certs_in certs.now))
        (RefutedNot ledger.now (certs_in certs.now)) }
{
    for number in 0..ledger.len() {
        if number >= certs.len() {
            return false;
        }
        if !refutes(ledger.list(number), cert_at(certs, number)) {
            return false;
        }
    }
    true
}

// The error where all of what was claimed before is refuted, or else that the rule doesn't apply.
fn judged_error(error: RuleError, refuted: bool) -> RuleError
    ensures { result ≡ judged_error error refuted }
{
    if refuted {
        return error;
    }
    match error {
        RuleError::NotApplicable | RuleError::Wide(_, _) => RuleError::NotApplicable,
        RuleError::OutOfMemory => RuleError::OutOfMemory,
    }
}

/// What a rule answers, by its subgoals or first failure and by what it claimed before: the
/// certificates have to refute the lists of the ledger, one each, or else the rule doesn't apply.
pub fn judged<'a>(
    outcome: Result<Vec<Goal<'a>>, RuleError>,
    ledger: &Ledger,
    certs: &[&Cert],
) -> Result<Vec<Goal<'a>>, RuleError>
    ensures { (o : Attempt (List PlainGoal)) →
        Claims (seen goals_view outcome.entry) [] ledger.now o →
        Answered (seen goals_view result) o (certs_in certs.now) }
{
    let refuted = refutes_all(ledger, certs);
    let used = certs.len() == ledger.len();
    match outcome {
        Ok(goals) => {
            if refuted && used {
                Ok(goals)
            } else {
                drop(goals);
                Err(RuleError::NotApplicable)
            }
        }
        Err(error) => Err(judged_error(error, refuted)),
    }
}

/// The lists of rows that certificates have to refute, or the first failure that is none of theirs.
pub fn told(
    outcome: Result<Vec<Goal<'_>>, RuleError>,
    ledger: Ledger,
) -> Result<Vec<Vec<Row>>, RuleError>
    ensures { (o : Attempt (List PlainGoal)) →
        Claims (seen goals_view outcome.entry) [] ledger o →
        IsTold (seen lists_view result) (proofs_of o) }
{
    match outcome {
        Ok(goals) => {
            drop(goals);
            Ok(ledger.into_lists())
        }
        Err(error) => {
            drop(ledger);
            Err(error)
        }
    }
}
