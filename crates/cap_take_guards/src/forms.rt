//! What is taken out of a piece, by its form and what is asked.
ghost use Rattle.std.specs.Prelude.{[]};
ghost use Rattle.cap_gsolve.specs.declared.piece.Form.TheVariants as form;
ghost use Rattle.cap_goal_spec.specs.Environments.{settled, open_to};
ghost use Rattle.cap_prog.specs.declared.assertion.Asked.TheVariants as asked_as;
ghost use Rattle.cap_rules.specs.Taking.{cut_one as one_cut, cut_share as share_cut};
ghost use Rattle.cap_rules.specs.Taking.{cut_source as source_cut, cut_tokens as tokens_cut};
ghost use Rattle.cap_rules.specs.Taking.{cut_new_tokens as new_tokens_cut, cut_form as form_cut};
ghost use Rattle.cap_rules_steps.specs.Walks.{Makes, Claims, seen};
ghost use Rattle.cap_take_holdings.specs.Seen.{reading_view};
ghost use Rattle.cap_take_guards.specs.Views.{cut_view};

use crate::cuts::{
    Cut, Left, all_named, all_of, leaving, part_of_share, part_of_tokens, some_of_share,
    source_with, tokens_of_source,
};
use crate::spans::{cut_index, cut_onwards};
use cap_goal::{Env, State};
use cap_gsolve::Form;
use cap_lin::{Sort, Term};
use cap_prog::{Asked, Slot};
use cap_rules_steps::{Ledger, RuleError};
use cap_take_holdings::{Reading, read_slot};
use std::alloc::Global;

// Way 0 takes all of a piece, way 1 a part of it.

// A unique guard.
fn cut_one(alloc: Global, state: &State, env: &Env, way: u32) -> Result<Cut, RuleError>
    ensures { Makes (seen cut_view result) (one_cut state.now env.now way) }
{
    match way {
        0 => Ok(leaving(alloc, state, env, Left::Nothing)?),
        _ => Err(RuleError::NotApplicable),
    }
}

// ---- shares

// What a term stands for, of a share.
fn share_by(
    alloc: Global,
    ledger: &mut Ledger,
    state: &State,
    env: &Env,
    amount: &Term,
    way: u32,
    term: &Term,
) -> Result<Cut, RuleError>
    ensures { Claims (seen cut_view result) ledger.old ledger.new
        (share_cut state.now env.now amount.now way (settled term.now)) }
{
    match way {
        0 => all_of(alloc, ledger, state, env, amount, Sort::Perm, term),
        1 => part_of_share(alloc, ledger, state, env, amount, term),
        _ => Err(RuleError::NotApplicable),
    }
}

// Any amount, of a share.
fn share_as(
    alloc: Global,
    state: &State,
    env: &Env,
    amount: &Term,
    way: u32,
    name: Option<u32>,
) -> Result<Cut, RuleError>
    ensures { Makes (seen cut_view result)
        (share_cut state.now env.now amount.now way (open_to name)) }
{
    match way {
        1 => some_of_share(alloc, state, env, amount, name),
        _ => Err(RuleError::NotApplicable),
    }
}

// An amount, of a share.
fn cut_share(
    alloc: Global,
    ledger: &mut Ledger,
    state: &State,
    env: &Env,
    amount: &Term,
    way: u32,
    reading: Reading<'_>,
) -> Result<Cut, RuleError>
    ensures { Claims (seen cut_view result) ledger.old ledger.new
        (share_cut state.now env.now amount.now way (reading_view reading.entry)) }
{
    match reading {
        Reading::Settled(term) => share_by(alloc, ledger, state, env, amount, way, term),
        Reading::OpenTo(name) => share_as(alloc, state, env, amount, way, name),
        Reading::Stuck => Err(RuleError::NotApplicable),
    }
}

// ---- sources and tokens

// A source with as many tokens out as a term stands for, of a source.
fn source_by(
    alloc: Global,
    ledger: &mut Ledger,
    state: &State,
    env: &Env,
    count: &Term,
    way: u32,
    term: &Term,
) -> Result<Cut, RuleError>
    ensures { Claims (seen cut_view result) ledger.old ledger.new
        (source_cut state.now env.now count.now way (settled term.now)) }
{
    match way {
        0 => all_of(alloc, ledger, state, env, count, Sort::Int, term),
        1 => source_with(alloc, ledger, state, env, count, term),
        _ => Err(RuleError::NotApplicable),
    }
}

// A source with any number of tokens out, of a source.
fn source_as(
    alloc: Global,
    state: &State,
    env: &Env,
    count: &Term,
    way: u32,
    name: Option<u32>,
) -> Result<Cut, RuleError>
    ensures { Makes (seen cut_view result)
        (source_cut state.now env.now count.now way (open_to name)) }
{
    match way {
        0 => Ok(all_named(alloc, state, env, count, name)?),
        _ => Err(RuleError::NotApplicable),
    }
}

// A source, of a source.
fn cut_source(
    alloc: Global,
    ledger: &mut Ledger,
    state: &State,
    env: &Env,
    count: &Term,
    way: u32,
    reading: Reading<'_>,
) -> Result<Cut, RuleError>
    ensures { Claims (seen cut_view result) ledger.old ledger.new
        (source_cut state.now env.now count.now way (reading_view reading.entry)) }
{
    match reading {
        Reading::Settled(term) => source_by(alloc, ledger, state, env, count, way, term),
        Reading::OpenTo(name) => source_as(alloc, state, env, count, way, name),
        Reading::Stuck => Err(RuleError::NotApplicable),
    }
}

// As many tokens as a term stands for, of tokens.
fn tokens_by(
    alloc: Global,
    ledger: &mut Ledger,
    state: &State,
    env: &Env,
    count: &Term,
    way: u32,
    term: &Term,
) -> Result<Cut, RuleError>
    ensures { Claims (seen cut_view result) ledger.old ledger.new
        (tokens_cut state.now env.now count.now way (settled term.now)) }
{
    match way {
        0 => all_of(alloc, ledger, state, env, count, Sort::Int, term),
        1 => part_of_tokens(alloc, ledger, state, env, count, term),
        _ => Err(RuleError::NotApplicable),
    }
}

// Any number of tokens, of tokens.
fn tokens_as(
    alloc: Global,
    state: &State,
    env: &Env,
    count: &Term,
    way: u32,
    name: Option<u32>,
) -> Result<Cut, RuleError>
    ensures { Makes (seen cut_view result)
        (tokens_cut state.now env.now count.now way (open_to name)) }
{
    match way {
        0 => Ok(all_named(alloc, state, env, count, name)?),
        _ => Err(RuleError::NotApplicable),
    }
}

// Tokens, of tokens.
fn cut_tokens(
    alloc: Global,
    ledger: &mut Ledger,
    state: &State,
    env: &Env,
    count: &Term,
    way: u32,
    reading: Reading<'_>,
) -> Result<Cut, RuleError>
    ensures { Claims (seen cut_view result) ledger.old ledger.new
        (tokens_cut state.now env.now count.now way (reading_view reading.entry)) }
{
    match reading {
        Reading::Settled(term) => tokens_by(alloc, ledger, state, env, count, way, term),
        Reading::OpenTo(name) => tokens_as(alloc, state, env, count, way, name),
        Reading::Stuck => Err(RuleError::NotApplicable),
    }
}

// As many new tokens as a term stands for, of a source.
fn new_tokens_by(
    alloc: Global,
    ledger: &mut Ledger,
    state: &State,
    env: &Env,
    count: &Term,
    way: u32,
    term: &Term,
) -> Result<Cut, RuleError>
    ensures { Claims (seen cut_view result) ledger.old ledger.new
        (new_tokens_cut state.now env.now count.now way (settled term.now)) }
{
    match way {
        1 => tokens_of_source(alloc, ledger, state, env, count, term),
        _ => Err(RuleError::NotApplicable),
    }
}

// New tokens, of a source.
fn cut_new_tokens(
    alloc: Global,
    ledger: &mut Ledger,
    state: &State,
    env: &Env,
    count: &Term,
    way: u32,
    reading: Reading<'_>,
) -> Result<Cut, RuleError>
    ensures { Claims (seen cut_view result) ledger.old ledger.new
        (new_tokens_cut state.now env.now count.now way (reading_view reading.entry)) }
{
    match reading {
        Reading::Settled(term) => new_tokens_by(alloc, ledger, state, env, count, way, term),
        Reading::OpenTo(_) => Err(RuleError::NotApplicable),
        Reading::Stuck => Err(RuleError::NotApplicable),
    }
}

// ---- all forms

// The whole of a unique guard is asked.
fn one_of(alloc: Global, state: &State, env: &Env, there: &Form, way: u32) -> Result<Cut, RuleError>
    ensures { Makes (seen cut_view result)
        (form_cut state.now env.now asked_as.One there.now way) }
{
    match there {
        Form::One => cut_one(alloc, state, env, way),
        Form::Share(_) => Err(RuleError::NotApplicable),
        Form::Src(_) => Err(RuleError::NotApplicable),
        Form::Tok(_) => Err(RuleError::NotApplicable),
        Form::Span(_, _) => Err(RuleError::NotApplicable),
    }
}

// An amount of a divisible guard is asked.
fn share_of(
    alloc: Global,
    ledger: &mut Ledger,
    state: &State,
    env: &Env,
    slot: &Slot,
    there: &Form,
    way: u32,
) -> Result<Cut, RuleError>
    ensures { Claims (seen cut_view result) ledger.old ledger.new
        (form_cut state.now env.now (asked_as.Share slot.now) there.now way) }
{
    match there {
        Form::Share(amount) => {
            cut_share(alloc, ledger, state, env, amount, way, read_slot(env, slot))
        }
        Form::One => Err(RuleError::NotApplicable),
        Form::Src(_) => Err(RuleError::NotApplicable),
        Form::Tok(_) => Err(RuleError::NotApplicable),
        Form::Span(_, _) => Err(RuleError::NotApplicable),
    }
}

// A source is asked.
fn source_of(
    alloc: Global,
    ledger: &mut Ledger,
    state: &State,
    env: &Env,
    slot: &Slot,
    there: &Form,
    way: u32,
) -> Result<Cut, RuleError>
    ensures { Claims (seen cut_view result) ledger.old ledger.new
        (form_cut state.now env.now (asked_as.Src slot.now) there.now way) }
{
    match there {
        Form::Src(count) => cut_source(alloc, ledger, state, env, count, way, read_slot(env, slot)),
        Form::One => Err(RuleError::NotApplicable),
        Form::Share(_) => Err(RuleError::NotApplicable),
        Form::Tok(_) => Err(RuleError::NotApplicable),
        Form::Span(_, _) => Err(RuleError::NotApplicable),
    }
}

// Tokens are asked.
fn tokens_of(
    alloc: Global,
    ledger: &mut Ledger,
    state: &State,
    env: &Env,
    slot: &Slot,
    there: &Form,
    way: u32,
) -> Result<Cut, RuleError>
    ensures { Claims (seen cut_view result) ledger.old ledger.new
        (form_cut state.now env.now (asked_as.Tok slot.now) there.now way) }
{
    match there {
        Form::Tok(count) => cut_tokens(alloc, ledger, state, env, count, way, read_slot(env, slot)),
        Form::Src(count) => {
            cut_new_tokens(alloc, ledger, state, env, count, way, read_slot(env, slot))
        }
        Form::One => Err(RuleError::NotApplicable),
        Form::Share(_) => Err(RuleError::NotApplicable),
        Form::Span(_, _) => Err(RuleError::NotApplicable),
    }
}

// An index is asked.
fn index_of(
    alloc: Global,
    ledger: &mut Ledger,
    state: &State,
    env: &Env,
    slot: &Slot,
    there: &Form,
    way: u32,
) -> Result<Cut, RuleError>
    ensures { Claims (seen cut_view result) ledger.old ledger.new
        (form_cut state.now env.now (asked_as.At slot.now) there.now way) }
{
    match there {
        Form::Span(start, end) => {
            cut_index(
                alloc,
                ledger,
                state,
                env,
                start,
                end,
                way,
                read_slot(env, slot),
            )
        }
        Form::One => Err(RuleError::NotApplicable),
        Form::Share(_) => Err(RuleError::NotApplicable),
        Form::Src(_) => Err(RuleError::NotApplicable),
        Form::Tok(_) => Err(RuleError::NotApplicable),
    }
}

// All indices from one on are asked.
fn onwards_of(
    alloc: Global,
    ledger: &mut Ledger,
    state: &State,
    env: &Env,
    slot: &Slot,
    there: &Form,
    way: u32,
) -> Result<Cut, RuleError>
    ensures { Claims (seen cut_view result) ledger.old ledger.new
        (form_cut state.now env.now (asked_as.From slot.now) there.now way) }
{
    match there {
        Form::Span(start, end) => match end {
            None => cut_onwards(alloc, ledger, state, env, start, way, read_slot(env, slot)),
            Some(_) => Err(RuleError::NotApplicable),
        },
        Form::One => Err(RuleError::NotApplicable),
        Form::Share(_) => Err(RuleError::NotApplicable),
        Form::Src(_) => Err(RuleError::NotApplicable),
        Form::Tok(_) => Err(RuleError::NotApplicable),
    }
}

/// What is asked is taken out of a form: all of it by way 0, and a part by way 1.
pub(crate) fn cut_form(
    alloc: Global,
    ledger: &mut Ledger,
    state: &State,
    env: &Env,
    asked: &Asked,
    there: &Form,
    way: u32,
) -> Result<Cut, RuleError>
    ensures { Claims (seen cut_view result) ledger.old ledger.new
        (form_cut state.now env.now asked.now there.now way) }
{
    match asked {
        Asked::One => one_of(alloc, state, env, there, way),
        Asked::Share(slot) => share_of(alloc, ledger, state, env, slot, there, way),
        Asked::Src(slot) => source_of(alloc, ledger, state, env, slot, there, way),
        Asked::Tok(slot) => tokens_of(alloc, ledger, state, env, slot, there, way),
        Asked::At(slot) => index_of(alloc, ledger, state, env, slot, there, way),
        Asked::From(slot) => onwards_of(alloc, ledger, state, env, slot, there, way),
    }
}
