//! Tokens that are counted, and their source.
ghost use Rattle.std.specs.Prelude.{◌≡◌, Some, None, ◌-◌, nat_le, if◌then◌else◌};
ghost use Rattle.cap_galg_atoms.specs.Views.{counting_element};
ghost use Rattle.cap_galg_atoms.specs.declared.counting.Counting.TheVariants.{Src};

use cap_galg_spec::{Guard, GuardError};
use std::alloc::{AllocError, Global};

/// A part of a guard that is counted out: some tokens, or the source with the number of tokens that
/// are out. No tokens are the unit, and the source with none out is full.
#[derive(Clone, Copy, Debug, PartialEq, Eq)]
pub enum Counting {
    Tok(u64),
    Src(u64),
}

// The source with fewer tokens out, unless more come back than are out.
fn given_back(out: u64, count: u64) -> Option<Counting>
    ensures { result ≡ (if nat_le count out then Some (Src (out - count)) else None) }
{
    if count <= out {
        Some(Counting::Src(out - count))
    } else {
        None
    }
}

impl Guard for Counting {
    ghost use Rattle.cap_galg_atoms.specs.Laws.Kin.{counting-kin};

    ghost element = { counting_element };

    ghost kin = { λ x y. Unit {0} };

    fn compose(&self, _alloc: Global, other: &Counting) -> Result<Option<Counting>, GuardError> {
        match self {
            Counting::Tok(j) => match other {
                Counting::Tok(k) => match j.checked_add(*k) {
                    Some(count) => Ok(Some(Counting::Tok(count))),
                    None => Err(GuardError::Wide),
                },
                Counting::Src(out) => Ok(given_back(*out, *j)),
            },
            Counting::Src(out) => match other {
                Counting::Tok(k) => Ok(given_back(*out, *k)),
                Counting::Src(_) => Ok(None),
            },
        }
    }

    fn le(&self, other: &Counting) -> bool {
        match self {
            Counting::Tok(j) => match other {
                Counting::Tok(k) => *j <= *k,
                Counting::Src(_) => true,
            },
            Counting::Src(out) => match other {
                Counting::Tok(_) => false,
                Counting::Src(less) => *less <= *out,
            },
        }
    }

    fn is_full(&self) -> bool {
        matches!(self, Counting::Src(0))
    }

    fn is_unit(&self) -> bool {
        matches!(self, Counting::Tok(0))
    }

    fn copy(&self, _alloc: Global) -> Result<Counting, AllocError> {
        Ok(*self)
    }

    ghost kin_reflexive = { λ x. tt };

    ghost kin_symmetric = { λ x y h. tt };

    ghost lawful = { λ x y h. counting-kin x y };
}
