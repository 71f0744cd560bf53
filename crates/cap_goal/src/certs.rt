//! The certificates of a choice.
ghost use Rattle.std.specs.Prelude.{◌≡◌, ◌++◌, [], ◌∷◌, IfOk, OnOk};
ghost use Rattle.cap_goal_spec.specs.Choices.{certs_of, given_marks};
ghost use Rattle.cap_goal.specs.Views.{certs_in, choice_view};

use crate::choice::Choice;
use cap_farkas::Cert;
use std::alloc::{AllocError, Global};

// Adds certificates.
fn push_certs<'a>(all: &mut Vec<&'a Cert>, certs: &'a [Cert]) -> Result<(), AllocError>
    ensures { OnOk result (certs_in all.new.items ≡ certs_in all.old.items ++ certs.now) }
{
    for cert in certs {
        all.push(cert)?;
    }
    Ok(())
}

// Adds the marks that are certificates.
fn push_marks<'a>(all: &mut Vec<&'a Cert>, marks: &'a [Option<Cert>]) -> Result<(), AllocError>
    ensures { OnOk result (certs_in all.new.items ≡ certs_in all.old.items ++ given_marks marks.now) }
{
    for mark in marks {
        if let Some(cert) = mark {
            all.push(cert)?;
        }
    }
    Ok(())
}

fn given<'a>(alloc: Global, certs: &'a [Cert]) -> Result<Vec<&'a Cert>, AllocError>
    ensures { IfOk result (λ all. certs_in all.items ≡ certs.now) }
{
    let mut all = Vec::new(alloc);
    push_certs(&mut all, certs)?;
    Ok(all)
}

fn one<'a>(alloc: Global, cert: &'a Cert) -> Result<Vec<&'a Cert>, AllocError>
    ensures { IfOk result (λ all. certs_in all.items ≡ cert.now ∷ []) }
{
    let mut all = Vec::new(alloc);
    all.push(cert)?;
    Ok(all)
}

fn marked<'a>(
    alloc: Global,
    certs: &'a [Cert],
    marks: &'a [Option<Cert>],
) -> Result<Vec<&'a Cert>, AllocError>
    ensures { IfOk result (λ all. certs_in all.items ≡ certs.now ++ given_marks marks.now) }
{
    let mut all = given(alloc, certs)?;
    push_marks(&mut all, marks)?;
    Ok(all)
}

impl Choice {
    /// The choice's certificates, and after them its marks that are certificates.
    pub fn certs(&self, alloc: Global) -> Result<Vec<&Cert>, AllocError>
        ensures { IfOk result (λ all. certs_in all.items ≡ certs_of (choice_view self.now)) }
    {
        match self {
            Choice::Absurd(cert) => one(alloc, cert),
            Choice::Act(_, certs, marks) => marked(alloc, certs, marks),
            Choice::Clash(_, _, certs)
            | Choice::Assert(certs)
            | Choice::Enter(_, certs)
            | Choice::Shift(certs, _)
            | Choice::Settle(_, certs)
            | Choice::Keep(certs)
            | Choice::Fact(certs)
            | Choice::Cell(_, certs)
            | Choice::Region(_, certs)
            | Choice::Guard(_, _, certs)
            | Choice::Convert(_, _, certs)
            | Choice::Made(certs) => given(alloc, certs),
            Choice::Set
            | Choice::Alloc
            | Choice::If
            | Choice::Loop
            | Choice::Turn
            | Choice::Call
            | Choice::Fork
            | Choice::Return
            | Choice::Pick(_, _, _)
            | Choice::Give
            | Choice::Cases
            | Choice::Create(_) => Ok(Vec::new(alloc)),
        }
    }
}
