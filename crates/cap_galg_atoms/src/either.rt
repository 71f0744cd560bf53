//! The sum of two algebras: one side or the other, which share the full guard.
ghost use Rattle.cap_galg_spec.specs.Elements.{in_left, in_right};
ghost use Rattle.cap_galg_atoms.specs.Views.{side_element, SideKin};
ghost use Rattle.cap_galg_spec.specs.Answers.{IsComposition, OnComposite};
ghost use Rattle.cap_galg_atoms.specs.declared.either.Either.TheVariants.{Left, Right};

use cap_galg_spec::{Guard, GuardError};
use std::alloc::{AllocError, Global};

/// A part of one of two guards, never of both. The units of both sides are one part, and so are the
/// full parts of both sides.
#[derive(Drop)]
pub enum Either<A, B> {
    Left(A),
    Right(B),
}

// A part of the left side and one of the right side compose where one of them is the unit, to the
// other one.
fn left_with_right<A: Guard, B: Guard>(
    alloc: Global,
    x: &A,
    y: &B,
) -> Result<Option<Either<A, B>>, GuardError>
    ensures composed { IsComposition (side_element A.element B.element)
        (in_left (A.element x.now)) (in_right (B.element y.now)) result }
    ensures kin { OnComposite result (λ z. (w : Either A B) →
        SideKin A.kin B.kin (Left x.now) w → SideKin A.kin B.kin (Right y.now) w →
        SideKin A.kin B.kin z w) }
{
    if x.is_unit() {
        Ok(Some(Either::Right(y.copy(alloc)?)))
    } else if y.is_unit() {
        Ok(Some(Either::Left(x.copy(alloc)?)))
    } else {
        Ok(None)
    }
}

// The same, the part of the right side first.
fn right_with_left<A: Guard, B: Guard>(
    alloc: Global,
    x: &B,
    y: &A,
) -> Result<Option<Either<A, B>>, GuardError>
    ensures composed { IsComposition (side_element A.element B.element)
        (in_right (B.element x.now)) (in_left (A.element y.now)) result }
    ensures kin { OnComposite result (λ z. (w : Either A B) →
        SideKin A.kin B.kin (Right x.now) w → SideKin A.kin B.kin (Left y.now) w →
        SideKin A.kin B.kin z w) }
{
    if x.is_unit() {
        Ok(Some(Either::Left(y.copy(alloc)?)))
    } else if y.is_unit() {
        Ok(Some(Either::Right(x.copy(alloc)?)))
    } else {
        Ok(None)
    }
}

impl<A: Guard, B: Guard> Guard for Either<A, B> {
    ghost use Rattle.cap_galg_atoms.specs.Laws.Kin.{side-reflexive, side-symmetric, side-kin};

    ghost element = { side_element A.element B.element };

    ghost kin = { SideKin A.kin B.kin };

    fn compose(
        &self,
        alloc: Global,
        other: &Either<A, B>,
    ) -> Result<Option<Either<A, B>>, GuardError> {
        match self {
            Either::Left(x) => match other {
                Either::Left(y) => match x.compose(alloc, y)? {
                    Some(z) => Ok(Some(Either::Left(z))),
                    None => Ok(None),
                },
                Either::Right(y) => left_with_right(alloc, x, y),
            },
            Either::Right(x) => match other {
                Either::Right(y) => match x.compose(alloc, y)? {
                    Some(z) => Ok(Some(Either::Right(z))),
                    None => Ok(None),
                },
                Either::Left(y) => right_with_left(alloc, x, y),
            },
        }
    }

    fn le(&self, other: &Either<A, B>) -> bool {
        match self {
            Either::Left(x) => match other {
                Either::Left(y) => x.le(y),
                Either::Right(y) => x.is_unit() || y.is_full(),
            },
            Either::Right(x) => match other {
                Either::Right(y) => x.le(y),
                Either::Left(y) => x.is_unit() || y.is_full(),
            },
        }
    }

    fn is_full(&self) -> bool {
        match self {
            Either::Left(x) => x.is_full(),
            Either::Right(y) => y.is_full(),
        }
    }

    fn is_unit(&self) -> bool {
        match self {
            Either::Left(x) => x.is_unit(),
            Either::Right(y) => y.is_unit(),
        }
    }

    fn copy(&self, alloc: Global) -> Result<Either<A, B>, AllocError> {
        match self {
            Either::Left(x) => Ok(Either::Left(x.copy(alloc)?)),
            Either::Right(y) => Ok(Either::Right(y.copy(alloc)?)),
        }
    }

    ghost kin_reflexive = { side-reflexive A.kin B.kin A.kin_reflexive B.kin_reflexive };

    ghost kin_symmetric = { side-symmetric A.kin B.kin A.kin_symmetric B.kin_symmetric };

    ghost lawful = { side-kin A.element B.element A.kin B.kin
        A.kin_reflexive B.kin_reflexive A.lawful B.lawful };
}
