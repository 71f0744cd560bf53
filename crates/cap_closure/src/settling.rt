//! The certificates with which a fact keeps its state, or is settled by candidates.
ghost use Rattle.std.specs.Prelude.{◌≡◌, ◌≤◌, ◌<◌, length, IfOk};
ghost use Rattle.cap_prog.specs.Views.{region_view};
ghost use Rattle.cap_goal_spec.specs.States.{longest_list};
ghost use Rattle.cap_rules.specs.Resting.{keep as kept, settle as settled};
ghost use Rattle.cap_offer_spec.specs.Deciding.{certified as certified_attempt};
ghost use Rattle.cap_rules_steps.specs.Walks.{Claims, giving};
ghost use Rattle.cap_closure_decide.specs.Noting.{Adds, certs_seen};
ghost use Rattle.cap_closure.specs.Tested.{without_value};

use cap_closure_decide::{Notes, certified};
use cap_farkas::Cert;
use cap_goal::{Fact, State};
use cap_prog::RegionType;
use cap_rules_steps::{Ledger, RuleError};
use cap_stab::{keep, settle};
use std::alloc::{AllocError, Global};

// Claims that the state of a fact is the same after each action.
fn claim_kept(
    alloc: Global,
    ledger: &mut Ledger,
    region: &RegionType,
    state: &State,
    number: u32,
    fact: &Fact,
) -> Result<(), RuleError>
    requires room { length state.now.sorts ≤ longest_list }
    requires exists { number < length state.now.facts }
    ensures { Claims (giving result tt) ledger.old ledger.new
        (without_value (kept (region_view region.now) state.now number fact.now)) }
{
    let mut next = state.copy()?;
    keep(alloc, ledger, region, &mut next, number, fact)
}

// Claims that the candidates of these numbers are known of a fact.
fn claim_settled(
    alloc: Global,
    ledger: &mut Ledger,
    region: &RegionType,
    state: &State,
    number: u32,
    fact: &Fact,
    list: &[u32],
) -> Result<(), RuleError>
    requires room { length state.now.sorts ≤ longest_list }
    requires exists { number < length state.now.facts }
    ensures { Claims (giving result tt) ledger.old ledger.new
        (without_value (settled (region_view region.now) state.now number fact.now list.now)) }
{
    let mut next = state.copy()?;
    settle(alloc, ledger, region, &mut next, number, fact, list)
}

/// The certificates with which a fact, by its number, keeps its state, if there are any.
pub fn keep_certs(
    alloc: Global,
    region: &RegionType,
    state: &State,
    number: u32,
    fact: &Fact,
    notes: &mut Notes,
) -> Result<Option<Vec<Cert>>, AllocError>
    requires room { length state.now.sorts ≤ longest_list }
    requires exists { number < length state.now.facts }
    ensures { IfOk result (λ certs. Adds notes.old notes.new (certs_seen certs) (certified_attempt
        (kept (region_view region.now) state.now number fact.now))) }
{
    let mut ledger = Ledger::new(alloc);
    let outcome = claim_kept(alloc, &mut ledger, region, state, number, fact);
    certified(alloc, outcome, ledger, notes)
}

/// The certificates with which the candidates of these numbers settle a fact, by its number, if
/// there are any.
pub fn settle_certs(
    alloc: Global,
    region: &RegionType,
    state: &State,
    number: u32,
    fact: &Fact,
    list: &[u32],
    notes: &mut Notes,
) -> Result<Option<Vec<Cert>>, AllocError>
    requires room { length state.now.sorts ≤ longest_list }
    requires exists { number < length state.now.facts }
    ensures { IfOk result (λ certs. Adds notes.old notes.new (certs_seen certs) (certified_attempt
        (settled (region_view region.now) state.now number fact.now list.now))) }
{
    let mut ledger = Ledger::new(alloc);
    let outcome = claim_settled(alloc, &mut ledger, region, state, number, fact, list);
    certified(alloc, outcome, ledger, notes)
}
