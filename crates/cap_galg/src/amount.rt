//! How much of an atom is held.
ghost use Rattle.std.specs.Prelude.{◌↔◌, IsTrue};
ghost use Rattle.cap_galg.specs.Views.{atom_view, IsAmountOf};

use crate::algebra::Atom;
use cap_galg_spec::Fraction;

/// How much of one guard: all of a unique one, or a fraction of a divisible one; of a counting one,
/// the source with some tokens out, or some tokens; of an indexed one, one index, or all indices
/// from one on.
#[derive(Clone, Copy, Debug, PartialEq, Eq)]
pub enum Amount {
    One,
    Share(Fraction),
    Src(u64),
    Tok(u64),
    At(u64),
    From(u64),
}

impl Amount {
    /// Whether an amount is one of an atom of this kind. A fraction is, where its denominator isn't
    /// 0, it is in lowest terms and at most 1.
    pub fn fits(self, kind: Atom) -> bool
        ensures { IsTrue result ↔ IsAmountOf (atom_view kind) self }
    {
        match kind {
            Atom::Unique => matches!(self, Amount::One),
            Atom::Divisible => match self {
                Amount::Share(fraction) => fraction.is_amount(),
                Amount::One | Amount::Src(_) | Amount::Tok(_) => false,
                Amount::At(_) | Amount::From(_) => false,
            },
            Atom::Counting => match self {
                Amount::Src(_) | Amount::Tok(_) => true,
                Amount::One | Amount::Share(_) | Amount::At(_) | Amount::From(_) => false,
            },
            Atom::Indexed => match self {
                Amount::At(_) | Amount::From(_) => true,
                Amount::One | Amount::Share(_) | Amount::Src(_) | Amount::Tok(_) => false,
            },
        }
    }
}
