//! Types of which a state has lists that states may share.
use crate::fact::{Env, Fact};
use crate::shared::Member;
use cap_gsolve::Piece;
use cap_lin::{Row, Sort, Term};
use std::alloc::{AllocError, Global};

impl Member for Sort {
    fn copy(&self, _alloc: Global) -> Result<Sort, AllocError> {
        Ok(*self)
    }
}

impl Member for Row {
    fn copy(&self, alloc: Global) -> Result<Row, AllocError> {
        Row::copy(self, alloc)
    }
}

impl Member for Term {
    fn copy(&self, alloc: Global) -> Result<Term, AllocError> {
        Term::copy(self, alloc)
    }
}

impl Member for (Term, Term) {
    fn copy(&self, alloc: Global) -> Result<(Term, Term), AllocError> {
        Ok((Term::copy(&self.0, alloc)?, Term::copy(&self.1, alloc)?))
    }
}

impl Member for Fact {
    fn copy(&self, alloc: Global) -> Result<Fact, AllocError> {
        Fact::copy(self, alloc)
    }
}

impl Member for Piece {
    fn copy(&self, alloc: Global) -> Result<Piece, AllocError> {
        Piece::copy(self, alloc)
    }
}

impl Member for Env {
    fn copy(&self, alloc: Global) -> Result<Env, AllocError> {
        Env::copy(self, alloc)
    }
}
