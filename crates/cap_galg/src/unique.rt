//! A guard that one thread holds.
ghost use Rattle.cap_galg.specs.Views.{unique_element};

use cap_galg_spec::{Guard, GuardError};
use std::alloc::{AllocError, Global};

/// A part of a guard that only one thread holds.
#[derive(Clone, Copy, Debug, PartialEq, Eq)]
pub enum Unique {
    Unit,
    One,
}

impl Guard for Unique {
    ghost use Rattle.cap_galg.specs.Laws.Kin.{unique-kin};

    ghost element = { unique_element };

    ghost kin = { λ x y. Unit {0} };

    fn compose(&self, _alloc: Global, other: &Unique) -> Result<Option<Unique>, GuardError> {
        match self {
            Unique::Unit => Ok(Some(*other)),
            Unique::One => match other {
                Unique::Unit => Ok(Some(Unique::One)),
                Unique::One => Ok(None),
            },
        }
    }

    fn le(&self, other: &Unique) -> bool {
        match self {
            Unique::Unit => true,
            Unique::One => matches!(other, Unique::One),
        }
    }

    fn is_full(&self) -> bool {
        matches!(self, Unique::One)
    }

    fn is_unit(&self) -> bool {
        matches!(self, Unique::Unit)
    }

    fn copy(&self, _alloc: Global) -> Result<Unique, AllocError> {
        Ok(*self)
    }

    ghost kin_reflexive = { λ x. tt };

    ghost kin_symmetric = { λ x y h. tt };

    ghost lawful = { λ x y h. unique-kin x y };
}
