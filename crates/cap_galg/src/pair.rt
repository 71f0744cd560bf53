//! The product of two algebras: a part of each.
use crate::answer::paired_answer;
use cap_galg_spec::{Guard, GuardError};
use std::alloc::{AllocError, Global};

/// Parts of two guards at once. It is full where both parts are.
#[derive(Drop)]
pub struct Pair<A, B> {
    pub left: A,
    pub right: B,
}

impl<A: Guard, B: Guard> Guard for Pair<A, B> {
    ghost use Rattle.cap_galg_spec.specs.Elements.{pair_of};
    ghost use Rattle.cap_galg.specs.Laws.Kin.{pair-kin};

    ghost element = { λ p. pair_of (A.element p.left) (B.element p.right) };

    ghost kin = { λ p q. A.kin p.left q.left × B.kin p.right q.right };

    fn compose(&self, alloc: Global, other: &Pair<A, B>) -> Result<Option<Pair<A, B>>, GuardError> {
        let left = self.left.compose(alloc, &other.left);
        let right = self.right.compose(alloc, &other.right);
        match paired_answer(left, right)? {
            Some((left, right)) => Ok(Some(Pair { left, right })),
            None => Ok(None),
        }
    }

    fn le(&self, other: &Pair<A, B>) -> bool {
        self.left.le(&other.left) && self.right.le(&other.right)
    }

    fn is_full(&self) -> bool {
        self.left.is_full() && self.right.is_full()
    }

    fn is_unit(&self) -> bool {
        self.left.is_unit() && self.right.is_unit()
    }

    fn copy(&self, alloc: Global) -> Result<Pair<A, B>, AllocError> {
        Ok(Pair {
            left: self.left.copy(alloc)?,
            right: self.right.copy(alloc)?,
        })
    }

    ghost kin_reflexive = { λ p. (A.kin_reflexive p.left, B.kin_reflexive p.right) };

    ghost kin_symmetric = { λ p q k.
        (A.kin_symmetric p.left q.left k.0, B.kin_symmetric p.right q.right k.1) };

    ghost lawful = { λ p q k.
        pair-kin _ _ _ _ (A.lawful p.left q.left k.0) (B.lawful p.right q.right k.1) };
}
