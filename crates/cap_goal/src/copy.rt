//! Copies of choices.
ghost use Rattle.std.specs.Prelude.{◌≡◌, [], IfOk};
ghost use Rattle.cap_goal_spec.specs.Choices.{by_absurd, by_act, by_shift, by_settle, with_certs};
ghost use Rattle.cap_goal.specs.Views.{choice_view};

use crate::choice::Choice;
use cap_farkas::{Cert, Multipliers};
use std::alloc::{AllocError, Global};

fn copy_multipliers(alloc: Global, leaf: &Multipliers) -> Result<Multipliers, AllocError>
    ensures { IfOk result (λ m. m ≡ leaf.now) }
{
    Ok(Multipliers::new(Vec::from_slice(alloc, leaf.as_slice())?))
}

fn copy_cert(alloc: Global, cert: &Cert) -> Result<Cert, AllocError>
    ensures { IfOk result (λ c. c ≡ cert.now) }
{
    match cert {
        Cert::Leaf(leaf) => Ok(Cert::Leaf(copy_multipliers(alloc, leaf)?)),
        Cert::Split(row, below, above) => Ok(Cert::Split(
            *row,
            copy_multipliers(alloc, below)?,
            copy_multipliers(alloc, above)?,
        )),
    }
}

fn copy_certs(alloc: Global, certs: &[Cert]) -> Result<Vec<Cert>, AllocError>
    ensures { IfOk result (λ v. v.items ≡ certs.now) }
{
    let mut copies = Vec::with_capacity(alloc, certs.len())?;
    for cert in certs {
        copies.push(copy_cert(alloc, cert)?)?;
    }
    Ok(copies)
}

fn copy_mark(alloc: Global, mark: &Option<Cert>) -> Result<Option<Cert>, AllocError>
    ensures { IfOk result (λ m. m ≡ mark.now) }
{
    match mark {
        None => Ok(None),
        Some(cert) => Ok(Some(copy_cert(alloc, cert)?)),
    }
}

fn copy_marks(alloc: Global, marks: &[Option<Cert>]) -> Result<Vec<Option<Cert>>, AllocError>
    ensures { IfOk result (λ v. v.items ≡ marks.now) }
{
    let mut copies = Vec::with_capacity(alloc, marks.len())?;
    for mark in marks {
        copies.push(copy_mark(alloc, mark)?)?;
    }
    Ok(copies)
}

// An absurdity, with a copy of its certificate.
fn copy_absurd(alloc: Global, cert: &Cert) -> Result<Choice, AllocError>
    ensures { IfOk result (λ c. choice_view c ≡ by_absurd cert.now) }
{
    Ok(Choice::Absurd(copy_cert(alloc, cert)?))
}

// An act on a cell, with copies of its certificates and marks.
fn copy_act(
    alloc: Global,
    cell: u32,
    certs: &[Cert],
    marks: &[Option<Cert>],
) -> Result<Choice, AllocError>
    ensures { IfOk result (λ c. choice_view c ≡ by_act cell certs.now marks.now) }
{
    let certs = copy_certs(alloc, certs)?;
    Ok(Choice::Act(cell, certs, copy_marks(alloc, marks)?))
}

// A checked move, with the pieces that it names.
fn copy_shift(alloc: Global, spans: &[u32]) -> Result<Choice, AllocError>
    ensures { IfOk result (λ c. choice_view c ≡ by_shift [] spans.now) }
{
    Ok(Choice::Shift(Vec::new(alloc), Vec::from_slice(alloc, spans)?))
}

// A fact settled by these candidates.
fn copy_settle(alloc: Global, candidates: &[u32]) -> Result<Choice, AllocError>
    ensures { IfOk result (λ c. choice_view c ≡ by_settle candidates.now []) }
{
    Ok(Choice::Settle(Vec::from_slice(alloc, candidates)?, Vec::new(alloc)))
}

impl Choice {
    // The certificates that others may replace: none where the choice keeps its own.
    fn replaceable_certs(&self) -> &[Cert]
        ensures { with_certs (choice_view self.now) result.now ≡ choice_view self.now }
    {
        match self {
            Choice::Clash(_, _, certs)
            | Choice::Assert(certs)
            | Choice::Enter(_, certs)
            | Choice::Shift(certs, _)
            | Choice::Settle(_, certs)
            | Choice::Keep(certs)
            | Choice::Fact(certs)
            | Choice::Cell(_, certs)
            | Choice::Region(_, certs)
            | Choice::Guard(_, _, certs)
            | Choice::Convert(_, _, certs)
            | Choice::Made(certs) => certs,
            _ => &[],
        }
    }

    // The same choice, without the certificates that others may replace.
    fn copy_bare(&self, alloc: Global) -> Result<Choice, AllocError>
        ensures { IfOk result (λ c. choice_view c ≡ with_certs (choice_view self.now) []) }
    {
        match self {
            Choice::Absurd(cert) => copy_absurd(alloc, cert),
            Choice::Clash(first, second, _) => {
                Ok(Choice::Clash(*first, *second, Vec::new(alloc)))
            }
            Choice::Set => Ok(Choice::Set),
            Choice::Alloc => Ok(Choice::Alloc),
            Choice::Assert(_) => Ok(Choice::Assert(Vec::new(alloc))),
            Choice::If => Ok(Choice::If),
            Choice::Loop => Ok(Choice::Loop),
            Choice::Turn => Ok(Choice::Turn),
            Choice::Call => Ok(Choice::Call),
            Choice::Fork => Ok(Choice::Fork),
            Choice::Return => Ok(Choice::Return),
            Choice::Enter(fact, _) => Ok(Choice::Enter(*fact, Vec::new(alloc))),
            Choice::Act(cell, certs, marks) => copy_act(alloc, *cell, certs, marks),
            Choice::Pick(opened, case, action) => Ok(Choice::Pick(*opened, *case, *action)),
            Choice::Shift(_, spans) => copy_shift(alloc, spans),
            Choice::Settle(candidates, _) => copy_settle(alloc, candidates),
            Choice::Keep(_) => Ok(Choice::Keep(Vec::new(alloc))),
            Choice::Give => Ok(Choice::Give),
            Choice::Fact(_) => Ok(Choice::Fact(Vec::new(alloc))),
            Choice::Cases => Ok(Choice::Cases),
            Choice::Cell(cell, _) => Ok(Choice::Cell(*cell, Vec::new(alloc))),
            Choice::Region(fact, _) => Ok(Choice::Region(*fact, Vec::new(alloc))),
            Choice::Guard(piece, way, _) => Ok(Choice::Guard(*piece, *way, Vec::new(alloc))),
            Choice::Convert(sum, side, _) => Ok(Choice::Convert(*sum, *side, Vec::new(alloc))),
            Choice::Create(case) => Ok(Choice::Create(*case)),
            Choice::Made(_) => Ok(Choice::Made(Vec::new(alloc))),
        }
    }

    /// The same choice once more.
    #[tactic(auto, using(crate::proofs::Choices::with_certs_twice))]
    pub fn copy(&self, alloc: Global) -> Result<Choice, AllocError>
        ensures { IfOk result (λ c. choice_view c ≡ choice_view self.now) }
    {
        let certs = copy_certs(alloc, self.replaceable_certs())?;
        Ok(self.copy_bare(alloc)?.with_certs(certs))
    }
}
