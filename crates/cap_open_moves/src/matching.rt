//! Parts of a move are matched: guards with what was held before the first region of the step was
//! opened, and the source and the target of an action.
ghost use Rattle.std.specs.Prelude.{◌≡◌, find, position};
ghost use Rattle.cap_gsolve.specs.Pieces.{of_atom};
ghost use Rattle.cap_goal_spec.specs.Environments.{settled, reading as slot_reading};
ghost use Rattle.cap_goal_spec.specs.Environments.{asked_slot};
ghost use Rattle.cap_prog.specs.Views.{action_view};
ghost use Rattle.cap_prog.specs.declared.assertion.Asked.TheVariants.{One, Share, Src, Tok};
ghost use Rattle.cap_rules.specs.Attempts.{found};
ghost use Rattle.cap_rules.specs.Closing.{part_slot as slot_of_part, waits as part_waits};
ghost use Rattle.cap_rules.specs.Closing.{match_share as share_matched};
ghost use Rattle.cap_rules.specs.Closing.{match_source as source_matched};
ghost use Rattle.cap_rules.specs.Closing.{match_tokens as tokens_matched};
ghost use Rattle.cap_rules.specs.Closing.{match_new_tokens as new_tokens_matched};
ghost use Rattle.cap_rules.specs.Closing.{match_form as form_matched};
ghost use Rattle.cap_rules.specs.Closing.{match_part as part_matched};
ghost use Rattle.cap_take_holdings.specs.Seen.{reading_view};
ghost use Rattle.cap_rules_steps.specs.Walks.{Makes, Claims, giving, seen};
ghost use Rattle.cap_open_moves_parts.specs.Views.{part_view};
ghost use Rattle.cap_open_moves.specs.Views.{piece_lent};
ghost use Rattle.cap_open_moves.specs.Moves.{guard_matched};

use cap_goal::{Env, Fact, State};
use cap_gsolve::{Form, Piece};
use cap_lin::{Op, Sort, Term};
use cap_open_moves_parts::{MovePart, held_before};
use cap_prog::{Action, Asked, Slot};
use cap_rules_steps::{Ledger, RuleError, prove_that, value_by};
use cap_take_holdings::{Reading, bind_open, match_term, read_slot, read_term};
use std::alloc::Global;

// What an environment makes of what is asked of a guard.
fn read_asked<'a>(env: &Env, asked: &'a Asked) -> Reading<'a>
    ensures { reading_view result ≡ slot_reading env.now (asked_slot asked.now) }
{
    match asked {
        Asked::One => Reading::OpenTo(None),
        Asked::Share(slot) => read_slot(env, slot),
        Asked::Src(slot) => read_slot(env, slot),
        Asked::Tok(slot) => read_slot(env, slot),
        Asked::At(slot) => read_slot(env, slot),
        Asked::From(slot) => read_slot(env, slot),
    }
}

// What an environment makes of a part.
fn read_part<'a>(env: &Env, action: &'a Action, part: MovePart<'a>) -> Reading<'a>
    ensures { reading_view result
        ≡ slot_reading env.now (slot_of_part (action_view action.now) (part_view part.entry)) }
{
    match part {
        MovePart::Guard(_, asked) => read_asked(env, asked),
        MovePart::Source => read_term(env, &action.source),
        MovePart::Target => read_term(env, &action.target),
    }
}

/// Whether the part has an unbound name and isn't that name alone.
pub(crate) fn waits(env: &Env, action: &Action, part: MovePart<'_>) -> bool
    ensures { result ≡ part_waits env.now (action_view action.now) (part_view part.entry) }
{
    match read_part(env, action, part) {
        Reading::Settled(_) | Reading::OpenTo(_) => false,
        Reading::Stuck => true,
    }
}

// Claims that an amount is some of a share, and not more.
fn prove_share(
    alloc: Global,
    ledger: &mut Ledger,
    state: &State,
    env: &Env,
    held: &Term,
    amount: &Term,
) -> Result<(), RuleError>
    ensures { Claims (giving result env.now) ledger.old ledger.new
        (share_matched state.now env.now held.now (settled amount.now)) }
{
    let value = value_by(alloc, env, amount)?;
    let zero = Term::constant(alloc, 0);
    prove_that(
        alloc,
        ledger,
        state.rows(),
        &value,
        Op::Gt,
        &zero,
        Sort::Perm,
    )?;
    prove_that(
        alloc,
        ledger,
        state.rows(),
        &value,
        Op::Le,
        held,
        Sort::Perm,
    )?;
    Ok(())
}

// An amount of a share that was held.
fn match_share(
    alloc: Global,
    ledger: &mut Ledger,
    state: &State,
    env: &mut Env,
    held: &Term,
    reading: Reading<'_>,
) -> Result<(), RuleError>
    ensures { Claims (giving result env.new) ledger.old ledger.new
        (share_matched state.now env.old held.now (reading_view reading.entry)) }
{
    match reading {
        Reading::Settled(amount) => prove_share(alloc, ledger, state, env, held, amount),
        Reading::OpenTo(name) => {
            bind_open(alloc, env, name, held)?;
            Ok(())
        }
        Reading::Stuck => Err(RuleError::NotApplicable),
    }
}

// Claims that a source has at least so many tokens out.
fn prove_source(
    alloc: Global,
    ledger: &mut Ledger,
    state: &State,
    env: &Env,
    held: &Term,
    amount: &Term,
) -> Result<(), RuleError>
    ensures { Claims (giving result env.now) ledger.old ledger.new
        (source_matched state.now env.now held.now (settled amount.now)) }
{
    let value = value_by(alloc, env, amount)?;
    prove_that(alloc, ledger, state.rows(), held, Op::Le, &value, Sort::Int)?;
    Ok(())
}

// The tokens out of a source, of which so many were out at least.
fn match_source(
    alloc: Global,
    ledger: &mut Ledger,
    state: &State,
    env: &mut Env,
    held: &Term,
    reading: Reading<'_>,
) -> Result<(), RuleError>
    ensures { Claims (giving result env.new) ledger.old ledger.new
        (source_matched state.now env.old held.now (reading_view reading.entry)) }
{
    match reading {
        Reading::Settled(amount) => prove_source(alloc, ledger, state, env, held, amount),
        Reading::OpenTo(name) => {
            bind_open(alloc, env, name, held)?;
            Ok(())
        }
        Reading::Stuck => Err(RuleError::NotApplicable),
    }
}

// Claims that an amount is a number of these tokens.
fn prove_tokens(
    alloc: Global,
    ledger: &mut Ledger,
    state: &State,
    env: &Env,
    held: &Term,
    amount: &Term,
) -> Result<(), RuleError>
    ensures { Claims (giving result env.now) ledger.old ledger.new
        (tokens_matched state.now env.now held.now (settled amount.now)) }
{
    let value = value_by(alloc, env, amount)?;
    let zero = Term::constant(alloc, 0);
    prove_that(
        alloc,
        ledger,
        state.rows(),
        &value,
        Op::Ge,
        &zero,
        Sort::Int,
    )?;
    prove_that(alloc, ledger, state.rows(), &value, Op::Le, held, Sort::Int)?;
    Ok(())
}

// An amount of tokens that were held.
fn match_tokens(
    alloc: Global,
    ledger: &mut Ledger,
    state: &State,
    env: &mut Env,
    held: &Term,
    reading: Reading<'_>,
) -> Result<(), RuleError>
    ensures { Claims (giving result env.new) ledger.old ledger.new
        (tokens_matched state.now env.old held.now (reading_view reading.entry)) }
{
    match reading {
        Reading::Settled(amount) => prove_tokens(alloc, ledger, state, env, held, amount),
        Reading::OpenTo(name) => {
            bind_open(alloc, env, name, held)?;
            Ok(())
        }
        Reading::Stuck => Err(RuleError::NotApplicable),
    }
}

// Claims that an amount is a number of tokens.
fn prove_new_tokens(
    alloc: Global,
    ledger: &mut Ledger,
    state: &State,
    env: &Env,
    amount: &Term,
) -> Result<(), RuleError>
    ensures { Claims (giving result env.now) ledger.old ledger.new
        (new_tokens_matched state.now env.now (settled amount.now)) }
{
    let value = value_by(alloc, env, amount)?;
    let zero = Term::constant(alloc, 0);
    prove_that(
        alloc,
        ledger,
        state.rows(),
        &value,
        Op::Ge,
        &zero,
        Sort::Int,
    )?;
    Ok(())
}

// An amount of tokens, of which a source has any number.
fn match_new_tokens(
    alloc: Global,
    ledger: &mut Ledger,
    state: &State,
    env: &Env,
    reading: Reading<'_>,
) -> Result<(), RuleError>
    ensures { Claims (giving result env.now) ledger.old ledger.new
        (new_tokens_matched state.now env.now (reading_view reading.entry)) }
{
    match reading {
        Reading::Settled(amount) => prove_new_tokens(alloc, ledger, state, env, amount),
        Reading::OpenTo(_) => Err(RuleError::NotApplicable),
        Reading::Stuck => Err(RuleError::NotApplicable),
    }
}

// All of a unique guard, out of what was held.
fn match_one(state: &State, env: &Env, form: &Form) -> Result<(), RuleError>
    ensures { Makes (giving result env.now) (form_matched state.now env.now One form.now) }
{
    match form {
        Form::One => Ok(()),
        Form::Share(_) => Err(RuleError::NotApplicable),
        Form::Src(_) => Err(RuleError::NotApplicable),
        Form::Tok(_) => Err(RuleError::NotApplicable),
        Form::Span(_, _) => Err(RuleError::NotApplicable),
    }
}

// A share, out of what was held.
fn match_share_form(
    alloc: Global,
    ledger: &mut Ledger,
    state: &State,
    env: &mut Env,
    slot: &Slot,
    form: &Form,
) -> Result<(), RuleError>
    ensures { Claims (giving result env.new) ledger.old ledger.new
        (form_matched state.now env.old (Share slot.now) form.now) }
{
    match form {
        Form::Share(held) => {
            let reading = read_slot(env, slot);
            match_share(alloc, ledger, state, env, held, reading)
        }
        Form::One => Err(RuleError::NotApplicable),
        Form::Src(_) => Err(RuleError::NotApplicable),
        Form::Tok(_) => Err(RuleError::NotApplicable),
        Form::Span(_, _) => Err(RuleError::NotApplicable),
    }
}

// A source of tokens, out of what was held.
fn match_source_form(
    alloc: Global,
    ledger: &mut Ledger,
    state: &State,
    env: &mut Env,
    slot: &Slot,
    form: &Form,
) -> Result<(), RuleError>
    ensures { Claims (giving result env.new) ledger.old ledger.new
        (form_matched state.now env.old (Src slot.now) form.now) }
{
    match form {
        Form::Src(held) => {
            let reading = read_slot(env, slot);
            match_source(alloc, ledger, state, env, held, reading)
        }
        Form::One => Err(RuleError::NotApplicable),
        Form::Share(_) => Err(RuleError::NotApplicable),
        Form::Tok(_) => Err(RuleError::NotApplicable),
        Form::Span(_, _) => Err(RuleError::NotApplicable),
    }
}

// Tokens, out of what was held.
fn match_tokens_form(
    alloc: Global,
    ledger: &mut Ledger,
    state: &State,
    env: &mut Env,
    slot: &Slot,
    form: &Form,
) -> Result<(), RuleError>
    ensures { Claims (giving result env.new) ledger.old ledger.new
        (form_matched state.now env.old (Tok slot.now) form.now) }
{
    match form {
        Form::Tok(held) => {
            let reading = read_slot(env, slot);
            match_tokens(alloc, ledger, state, env, held, reading)
        }
        Form::Src(_) => {
            let reading = read_slot(env, slot);
            match_new_tokens(alloc, ledger, state, env, reading)
        }
        Form::One => Err(RuleError::NotApplicable),
        Form::Share(_) => Err(RuleError::NotApplicable),
        Form::Span(_, _) => Err(RuleError::NotApplicable),
    }
}

// What is asked of a guard, out of what was held of it. Indices have their own turn.
fn match_form(
    alloc: Global,
    ledger: &mut Ledger,
    state: &State,
    env: &mut Env,
    asked: &Asked,
    form: &Form,
) -> Result<(), RuleError>
    ensures { Claims (giving result env.new) ledger.old ledger.new
        (form_matched state.now env.old asked.now form.now) }
{
    match asked {
        Asked::One => match_one(state, env, form),
        Asked::Share(slot) => match_share_form(alloc, ledger, state, env, slot, form),
        Asked::Src(slot) => match_source_form(alloc, ledger, state, env, slot, form),
        Asked::Tok(slot) => match_tokens_form(alloc, ledger, state, env, slot, form),
        Asked::At(_) => Err(RuleError::NotApplicable),
        Asked::From(_) => Err(RuleError::NotApplicable),
    }
}

// The place of the first piece of an atom of a region's guards.
fn place_of_atom(pieces: &[Piece], region: &Term, kind: u32, atom: u32) -> Option<usize>
    ensures { result ≡ position (of_atom region.now kind atom) pieces.now }
{
    pieces
        .iter()
        .position(|there| there.is_of_atom(region, kind, atom))
}

// The first piece of an atom of a region's guards, where there is one.
fn piece_of_atom<'t>(
    pieces: &'t [Piece],
    region: &Term,
    kind: u32,
    atom: u32,
) -> Result<&'t Piece, RuleError>
    ensures { Makes (seen piece_lent result)
        (found (find (of_atom region.now kind atom) pieces.now)) }
{
    match place_of_atom(pieces, region, kind, atom) {
        None => Err(RuleError::NotApplicable),
        Some(place) => Ok(&pieces[place]),
    }
}

// A guard, out of what was held before the step.
fn match_guard(
    alloc: Global,
    ledger: &mut Ledger,
    state: &State,
    fact: &Fact,
    env: &mut Env,
    atom: u32,
    asked: &Asked,
) -> Result<(), RuleError>
    ensures { Claims (giving result env.new) ledger.old ledger.new
        (guard_matched state.now fact.now env.old atom asked.now) }
{
    let piece = piece_of_atom(held_before(state), &fact.region, fact.kind, atom)?;
    match_form(alloc, ledger, state, env, asked, &piece.form)
}

/// A part of a move of the fact's region to a new state.
pub(crate) fn match_part(
    alloc: Global,
    ledger: &mut Ledger,
    state: &State,
    fact: &Fact,
    new: &Term,
    action: &Action,
    env: &mut Env,
    part: MovePart<'_>,
) -> Result<(), RuleError>
    ensures { Claims (giving result env.new) ledger.old ledger.new
        (part_matched state.now fact.now new.now (action_view action.now) env.old
        (part_view part.entry)) }
{
    let rows = state.rows();
    match part {
        MovePart::Guard(atom, asked) => match_guard(alloc, ledger, state, fact, env, atom, asked),
        MovePart::Source => match_term(alloc, ledger, rows, env, &action.source, &fact.state),
        MovePart::Target => match_term(alloc, ledger, rows, env, &action.target, new),
    }
}
