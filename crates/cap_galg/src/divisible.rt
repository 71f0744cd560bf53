//! A part of a guard that can be divided without end.
ghost use Rattle.std.specs.Prelude.{◌≡◌};
ghost use Rattle.cap_galg_spec.specs.Fractions.{IsAmount};

use cap_galg_atoms::{is_at_most, sum};
use cap_galg_spec::{Fraction, Guard, GuardError};
use std::alloc::{AllocError, Global};

/// A part of a guard that is divided among threads: a fraction from 0 to 1, in lowest terms. The
/// fraction 0 is the unit, and 1 is full.
#[derive(Clone, Copy, Debug, PartialEq, Eq)]
pub struct Divisible {
    fraction: Fraction,
    ghost proper: { IsAmount fraction },
}

impl Divisible {
    /// The part with a fraction.
    pub fn new(fraction: Fraction) -> Divisible
        requires { IsAmount fraction }
        ensures { result.fraction ≡ fraction }
    {
        Divisible { fraction }
    }

    /// The fraction.
    pub fn fraction(&self) -> Fraction
        ensures value { result ≡ self.now.fraction }
        ensures proper { IsAmount result }
    {
        self.fraction
    }
}

impl Guard for Divisible {
    ghost use Rattle.cap_galg_spec.specs.Elements.{amount};
    ghost use Rattle.cap_galg.specs.Laws.Kin.{divisible-kin};

    ghost element = { λ d. amount d.fraction };

    ghost kin = { λ x y. Unit {0} };

    fn compose(&self, _alloc: Global, other: &Divisible) -> Result<Option<Divisible>, GuardError> {
        if self.fraction.num == 0 {
            return Ok(Some(*other));
        }
        if other.fraction.num == 0 {
            return Ok(Some(*self));
        }
        match sum(self.fraction, other.fraction)? {
            Some(fraction) => Ok(Some(Divisible { fraction })),
            None => Ok(None),
        }
    }

    fn le(&self, other: &Divisible) -> bool {
        is_at_most(self.fraction, other.fraction)
    }

    fn is_full(&self) -> bool {
        self.fraction.num == self.fraction.den
    }

    fn is_unit(&self) -> bool {
        self.fraction.num == 0
    }

    fn copy(&self, _alloc: Global) -> Result<Divisible, AllocError> {
        Ok(*self)
    }

    ghost kin_reflexive = { λ x. tt };

    ghost kin_symmetric = { λ x y h. tt };

    ghost lawful = { λ x y h. divisible-kin x.fraction y.fraction x.proper y.proper };
}
