//! JSON values of choices.
ghost use Rattle.std.specs.Prelude.{◌≡◌, ◌∷◌, [], IfOk, codes};
ghost use Rattle.std.specs.List.{AllByRecursion};
ghost use Rattle.serde_json.specs.View.{view};
ghost use Rattle.cap_goal.specs.Views.{choice_view};
ghost use Rattle.cap_deriv_write.specs.Bounds.{IsNumber, CertFits, ChoiceFits};
ghost use Rattle.cap_deriv_write.specs.Forms.{headed_form, number_form, certs_form, spans_form};
ghost use Rattle.cap_deriv_write.specs.Forms.{choice_form};

use crate::certs::{cert, certs, marks};
use crate::values::{headed, headed_one, headed_three, headed_two, numbers};
use cap_farkas::Cert;
use cap_goal::Choice;
use serde_json::Value;
use std::alloc::{AllocError, Global};

// A word with certificates.
fn proved(alloc: Global, word: &str, all: &[Cert]) -> Result<Value, AllocError>
    ensures value { IfOk result (λ v. view v ≡ headed_form word.now (certs_form all.now ∷ [])) }
    ensures fits { IfOk result (λ v. AllByRecursion CertFits all.now) }
{
    headed_one(alloc, word, certs(alloc, all)?)
}

// A word with a number and certificates.
fn numbered(alloc: Global, word: &str, a: u32, all: &[Cert]) -> Result<Value, AllocError>
    ensures value { IfOk result
        (λ v. view v ≡ headed_form word.now (number_form a ∷ certs_form all.now ∷ [])) }
    ensures fits { IfOk result (λ v. IsNumber a × AllByRecursion CertFits all.now) }
{
    headed_two(alloc, word, Value::from(a), certs(alloc, all)?)
}

// A word with two numbers and certificates.
fn twice_numbered(
    alloc: Global,
    word: &str,
    a: u32,
    b: u32,
    all: &[Cert],
) -> Result<Value, AllocError>
    ensures value { IfOk result (λ v. view v
        ≡ headed_form word.now (number_form a ∷ number_form b ∷ certs_form all.now ∷ [])) }
    ensures fits { IfOk result (λ v. IsNumber a × IsNumber b × AllByRecursion CertFits all.now) }
{
    headed_three(
        alloc,
        word,
        Value::from(a),
        Value::from(b),
        certs(alloc, all)?,
    )
}

// Certificates, and the pieces that a shift names, where it names any.
fn shift(alloc: Global, all: &[Cert], spans: &[u32]) -> Result<Value, AllocError>
    ensures value { IfOk result (λ v. view v
        ≡ headed_form (codes "shift") (certs_form all.now ∷ spans_form spans.now)) }
    ensures fits { IfOk result
        (λ v. AllByRecursion CertFits all.now × AllByRecursion IsNumber spans.now) }
{
    match spans {
        [] => proved(alloc, "shift", all),
        [_, ..] => headed_two(alloc, "shift", certs(alloc, all)?, numbers(alloc, spans)?),
    }
}

/// The value of a choice's line.
pub(crate) fn choice(alloc: Global, choice: &Choice) -> Result<Value, AllocError>
    ensures value { IfOk result (λ v. view v ≡ choice_form (choice_view choice.now)) }
    ensures fits { IfOk result (λ v. ChoiceFits (choice_view choice.now)) }
{
    match choice {
        Choice::Absurd(one) => headed_one(alloc, "absurd", cert(alloc, one)?),
        Choice::Clash(i, j, all) => twice_numbered(alloc, "clash", *i, *j, all),
        Choice::Set => headed(alloc, "set"),
        Choice::Alloc => headed(alloc, "alloc"),
        Choice::Assert(all) => proved(alloc, "assert", all),
        Choice::If => headed(alloc, "if"),
        Choice::Loop => headed(alloc, "loop"),
        Choice::Turn => headed(alloc, "turn"),
        Choice::Call => headed(alloc, "call"),
        Choice::Fork => headed(alloc, "fork"),
        Choice::Return => headed(alloc, "return"),
        Choice::Enter(fact, all) => numbered(alloc, "enter", *fact, all),
        Choice::Act(cell, all, each) => headed_three(
            alloc,
            "act",
            Value::from(*cell),
            certs(alloc, all)?,
            marks(alloc, each)?,
        ),
        Choice::Pick(opened, case, step) => headed_three(
            alloc,
            "pick",
            Value::from(*opened),
            Value::from(*case),
            Value::from(*step),
        ),
        Choice::Shift(all, spans) => shift(alloc, all, spans),
        Choice::Settle(candidates, all) => headed_two(
            alloc,
            "settle",
            numbers(alloc, candidates)?,
            certs(alloc, all)?,
        ),
        Choice::Keep(all) => proved(alloc, "keep", all),
        Choice::Give => headed(alloc, "give"),
        Choice::Fact(all) => proved(alloc, "fact", all),
        Choice::Cases => headed(alloc, "cases"),
        Choice::Cell(cell, all) => numbered(alloc, "cell", *cell, all),
        Choice::Region(fact, all) => numbered(alloc, "region", *fact, all),
        Choice::Guard(piece, way, all) => twice_numbered(alloc, "guard", *piece, *way, all),
        Choice::Convert(sum, side, all) => twice_numbered(alloc, "convert", *sum, *side, all),
        Choice::Create(case) => headed_one(alloc, "create", Value::from(*case)),
        Choice::Made(all) => proved(alloc, "made", all),
    }
}
