//! Facts of regions, and environments.
ghost use Rattle.std.specs.Prelude.{◌≡◌, IfOk};
ghost use Rattle.cap_goal_spec.specs.States.{with_state};

use cap_lin::Term;
use std::alloc::{AllocError, Global};
use std::marker::Model;

/// What is known of a region: its term, the number of its type, its arguments without the region
/// itself, and its state. It is loose while what it says of the state is out of date.
pub struct Fact {
    pub region: Term,
    pub kind: u32,
    pub args: Vec<Term>,
    pub state: Term,
    pub loose: bool,
}

impl Drop for Fact {
    fn drop(self) {
        let Fact {
            region: _,
            kind: _,
            args: _,
            state: _,
            loose: _,
        } = self;
    }
}

impl Model for Fact {
    ghost use Rattle.cap_goal_spec.specs.States.{PlainFact};

    ghost Value = { PlainFact };

    ghost view = { λ f. record {
      region = f.region;
      kind = f.kind;
      args = f.args.items;
      state = f.state;
      loose = f.loose;
    } };
}

impl Fact {
    /// The same fact once more.
    pub fn copy(&self, alloc: Global) -> Result<Fact, AllocError>
        ensures { IfOk result (λ f. f ≡ self.now) }
    {
        Ok(Fact {
            region: self.region.copy(alloc)?,
            kind: self.kind,
            args: copy_terms(alloc, &self.args)?,
            state: self.state.copy(alloc)?,
            loose: self.loose,
        })
    }

    /// The fact in another state, no longer loose.
    pub fn with_state(&self, alloc: Global, state: &Term) -> Result<Fact, AllocError>
        ensures { IfOk result (λ f. f ≡ with_state self.now state.now) }
    {
        Ok(Fact {
            region: self.region.copy(alloc)?,
            kind: self.kind,
            args: copy_terms(alloc, &self.args)?,
            state: state.copy(alloc)?,
            loose: false,
        })
    }
}

/// Copies of all terms.
pub fn copy_terms(alloc: Global, terms: &[Term]) -> Result<Vec<Term>, AllocError>
    ensures { IfOk result (λ v. v.items ≡ terms.now) }
{
    let mut copies = Vec::with_capacity(alloc, terms.len())?;
    for term in terms {
        copies.push(term.copy(alloc)?)?;
    }
    Ok(copies)
}

/// For each name of an assertion a term, or nothing while the name is unbound.
#[derive(Drop)]
pub struct Env {
    pub terms: Vec<Option<Term>>,
}

impl Model for Env {
    ghost use Rattle.cap_goal_spec.specs.States.{PlainEnv};

    ghost Value = { PlainEnv };

    ghost view = { λ e. e.terms.items };
}

impl Env {
    /// The same environment once more.
    pub fn copy(&self, alloc: Global) -> Result<Env, AllocError>
        ensures { IfOk result (λ e. e ≡ self.now) }
    {
        let mut terms = Vec::with_capacity(alloc, self.terms.len())?;
        for term in &self.terms {
            terms.push(copy_name(alloc, term)?)?;
        }
        Ok(Env { terms })
    }
}

// What a name stands for, once more.
fn copy_name(alloc: Global, term: &Option<Term>) -> Result<Option<Term>, AllocError>
    ensures { IfOk result (λ t. t ≡ term.now) }
{
    match term {
        None => Ok(None),
        Some(term) => Ok(Some(term.copy(alloc)?)),
    }
}
