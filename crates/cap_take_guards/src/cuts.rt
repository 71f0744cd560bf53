//! Amounts and counts that are taken out of a piece.
ghost use Rattle.std.specs.Prelude.{◌≡◌, [], ◌∷◌, IfOk};
ghost use Rattle.cap_goal_spec.specs.Environments.{settled, open_to, bind_open as name_bound};
ghost use Rattle.cap_rules.specs.Taking.{cut, cut_share, cut_source, cut_tokens, cut_new_tokens};
ghost use Rattle.cap_rules_steps.specs.Walks.{Makes, Claims, seen};
ghost use Rattle.cap_take_guards.specs.Views.{cut_view, left_view};
ghost use Rattle.cap_take_guards.specs.Cuts.{all_cut};

use cap_goal::{Env, State};
use cap_gsolve::Form;
use cap_lin::{Op, Sort, Term};
use cap_rules_steps::{Ledger, RuleError, prove_that, value_by, with_comparison, with_sort};
use cap_take_holdings::bind_open;
use std::alloc::{AllocError, Global};

/// What stays of a piece: nothing, a form, or a form in front of what goes and one behind it.
#[derive(Drop)]
pub(crate) enum Left {
    Nothing,
    One(Form),
    Both(Form, Form),
}

/// What a cut comes to: the environment, the state, and what stays of the piece.
#[derive(Drop)]
pub(crate) struct Cut {
    pub(crate) env: Env,
    pub(crate) state: State,
    pub(crate) left: Left,
}

/// This stays of the piece, and all else is as it was.
pub(crate) fn leaving(
    alloc: Global,
    state: &State,
    env: &Env,
    left: Left,
) -> Result<Cut, AllocError>
    ensures { IfOk result (λ c. cut_view c ≡ cut env.now state.now (left_view left)) }
{
    Ok(Cut {
        env: env.copy(alloc)?,
        state: state.copy()?,
        left,
    })
}

/// The name of an open slot gets a term, and this stays of the piece.
pub(crate) fn naming(
    alloc: Global,
    state: State,
    env: &Env,
    name: Option<u32>,
    term: &Term,
    left: Left,
) -> Result<Cut, AllocError>
    ensures { IfOk result (λ c. cut_view c
        ≡ cut (name_bound env.now name term.now) state (left_view left)) }
{
    let mut env = env.copy(alloc)?;
    bind_open(alloc, &mut env, name, term)?;
    Ok(Cut { env, state, left })
}

/// All of a count goes, and the name of an open slot gets it.
pub(crate) fn all_named(
    alloc: Global,
    state: &State,
    env: &Env,
    count: &Term,
    name: Option<u32>,
) -> Result<Cut, AllocError>
    ensures { IfOk result (λ c. cut_view c
        ≡ cut (name_bound env.now name count.now) state.now []) }
{
    let same = state.copy()?;
    naming(alloc, same, env, name, count, Left::Nothing)
}

/// All of an amount goes, which is claimed to be what a term stands for.
pub(crate) fn all_of(
    alloc: Global,
    ledger: &mut Ledger,
    state: &State,
    env: &Env,
    amount: &Term,
    sort: Sort,
    term: &Term,
) -> Result<Cut, RuleError>
    ensures { Claims (seen cut_view result) ledger.old ledger.new
        (all_cut state.now env.now amount.now sort term.now) }
{
    let value = value_by(alloc, env, term)?;
    prove_that(alloc, ledger, state.rows(), amount, Op::Eq, &value, sort)?;
    Ok(leaving(alloc, state, env, Left::Nothing)?)
}

/// A part of a share goes, which is claimed to be above 0 and below the share.
pub(crate) fn part_of_share(
    alloc: Global,
    ledger: &mut Ledger,
    state: &State,
    env: &Env,
    amount: &Term,
    term: &Term,
) -> Result<Cut, RuleError>
    ensures { Claims (seen cut_view result) ledger.old ledger.new
        (cut_share state.now env.now amount.now 1 (settled term.now)) }
{
    let value = value_by(alloc, env, term)?;
    let zero = Term::constant(alloc, 0);
    prove_that(
        alloc,
        ledger,
        state.rows(),
        &value,
        Op::Gt,
        &zero,
        Sort::Perm,
    )?;
    prove_that(
        alloc,
        ledger,
        state.rows(),
        &value,
        Op::Lt,
        amount,
        Sort::Perm,
    )?;
    let rest = amount.minus(alloc, &value)?;
    Ok(leaving(alloc, state, env, Left::One(Form::Share(rest)))?)
}

/// A part of a share goes, which is some fresh amount above 0 and below the share.
pub(crate) fn some_of_share(
    alloc: Global,
    state: &State,
    env: &Env,
    amount: &Term,
    name: Option<u32>,
) -> Result<Cut, RuleError>
    ensures { Makes (seen cut_view result)
        (cut_share state.now env.now amount.now 1 (open_to name)) }
{
    let mut next = state.copy()?;
    let some = with_sort(alloc, &mut next, Sort::Perm)?;
    let zero = Term::constant(alloc, 0);
    with_comparison(alloc, &mut next, &some, Op::Gt, &zero, Sort::Perm)?;
    with_comparison(alloc, &mut next, &some, Op::Lt, amount, Sort::Perm)?;
    let rest = amount.minus(alloc, &some)?;
    Ok(naming(alloc, next, env, name, &some, Left::One(Form::Share(rest)))?)
}

/// A source goes with as many tokens out as a term stands for, which is claimed to be at least as
/// many as it has out; the tokens that it then has out too many stay.
pub(crate) fn source_with(
    alloc: Global,
    ledger: &mut Ledger,
    state: &State,
    env: &Env,
    count: &Term,
    term: &Term,
) -> Result<Cut, RuleError>
    ensures { Claims (seen cut_view result) ledger.old ledger.new
        (cut_source state.now env.now count.now 1 (settled term.now)) }
{
    let value = value_by(alloc, env, term)?;
    prove_that(
        alloc,
        ledger,
        state.rows(),
        count,
        Op::Le,
        &value,
        Sort::Int,
    )?;
    let rest = value.minus(alloc, count)?;
    Ok(leaving(alloc, state, env, Left::One(Form::Tok(rest)))?)
}

/// Some of the tokens go, which are claimed to be at least 0 and at most all.
pub(crate) fn part_of_tokens(
    alloc: Global,
    ledger: &mut Ledger,
    state: &State,
    env: &Env,
    count: &Term,
    term: &Term,
) -> Result<Cut, RuleError>
    ensures { Claims (seen cut_view result) ledger.old ledger.new
        (cut_tokens state.now env.now count.now 1 (settled term.now)) }
{
    let value = value_by(alloc, env, term)?;
    let zero = Term::constant(alloc, 0);
    prove_that(
        alloc,
        ledger,
        state.rows(),
        &zero,
        Op::Le,
        &value,
        Sort::Int,
    )?;
    prove_that(
        alloc,
        ledger,
        state.rows(),
        &value,
        Op::Le,
        count,
        Sort::Int,
    )?;
    let rest = count.minus(alloc, &value)?;
    Ok(leaving(alloc, state, env, Left::One(Form::Tok(rest)))?)
}

/// New tokens go, which are claimed to be at least 0; the source then has so many more out.
pub(crate) fn tokens_of_source(
    alloc: Global,
    ledger: &mut Ledger,
    state: &State,
    env: &Env,
    count: &Term,
    term: &Term,
) -> Result<Cut, RuleError>
    ensures { Claims (seen cut_view result) ledger.old ledger.new
        (cut_new_tokens state.now env.now count.now 1 (settled term.now)) }
{
    let value = value_by(alloc, env, term)?;
    let zero = Term::constant(alloc, 0);
    prove_that(
        alloc,
        ledger,
        state.rows(),
        &zero,
        Op::Le,
        &value,
        Sort::Int,
    )?;
    let more = count.add(alloc, &value)?;
    Ok(leaving(alloc, state, env, Left::One(Form::Src(more)))?)
}
