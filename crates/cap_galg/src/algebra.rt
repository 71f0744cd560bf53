//! Guard algebras as data, and their atoms.
ghost use Rattle.std.specs.Prelude.{true, false, ◌≡◌, ◌↔◌, ◌≤◌, ◌+◌, ◌-◌, ◌==◌, if◌then◌else◌};
ghost use Rattle.std.specs.Prelude.{IsTrue, IfOk, Ok, Err, MatchResult, MatchOption};
ghost use Rattle.cap_galg_spec.specs.Algebras.{are_apart, product, sum};
ghost use Rattle.cap_galg.specs.Placed.{HasPassed};
ghost use Rattle.cap_galg.specs.declared.algebra.Passed.TheVariants.{Both, First, Second, Neither};
ghost use Rattle.cap_galg.specs.Views.{algebra_view, atom_count, HasAtom, Accepts};

use crate::amount::Amount;
use std::alloc::{AllocError, Global};

/// The guards of a region: one guard that is unique, divisible, counting or indexed, or two
/// algebras of which a thread may hold parts of both (`Pair`) or of one alone (`Either`). Its atoms
/// are its unique, divisible, counting and indexed guards, numbered from 0, left to right.
pub enum Algebra {
    Unique,
    Divisible,
    Counting,
    Indexed,
    Pair(Box<Algebra>, Box<Algebra>),
    Either(Box<Algebra>, Box<Algebra>),
}

impl Drop for Algebra {
    #[cycle(dropped_algebras)]
    fn drop(self) {
        match self {
            Algebra::Unique
            | Algebra::Divisible
            | Algebra::Counting
            | Algebra::Indexed
            | Algebra::Pair(_, _)
            | Algebra::Either(_, _) => {}
        }
    }
}

/// What kind of guard an atom of an algebra is.
#[derive(Clone, Copy, Debug, PartialEq, Eq)]
pub enum Atom {
    Unique,
    Divisible,
    Counting,
    Indexed,
}

// The kind of an atom, or else how many atoms it comes after the algebra's.
fn atom_or_rest(algebra: &Algebra, atom: u32) -> Result<Atom, u32>
    ensures { MatchResult result
        (HasAtom algebra.now atom) (λ rest. atom_count algebra.now + rest ≡ atom) }
{
    match algebra {
        Algebra::Unique => leaf_or_rest(Atom::Unique, atom),
        Algebra::Divisible => leaf_or_rest(Atom::Divisible, atom),
        Algebra::Counting => leaf_or_rest(Atom::Counting, atom),
        Algebra::Indexed => leaf_or_rest(Atom::Indexed, atom),
        Algebra::Pair(a, b) | Algebra::Either(a, b) => match atom_or_rest(a, atom) {
            Ok(kind) => Ok(kind),
            Err(rest) => atom_or_rest(b, rest),
        },
    }
}

fn leaf_or_rest(kind: Atom, atom: u32) -> Result<Atom, u32>
    ensures { result ≡ (if atom == 0 then Ok kind else Err (atom - 1)) }
{
    if atom == 0 { Ok(kind) } else { Err(atom - 1) }
}

// Where a walk for two atoms has come to: whether both were passed and stand on two sides of a sum,
// or which one was passed, and how many atoms the other or both come after the algebra's.
enum Passed {
    Both(bool),
    First(u32),
    Second(u32),
    Neither(u32, u32),
}

fn pass(algebra: &Algebra, i: u32, j: u32) -> Passed
    ensures { HasPassed (algebra_view algebra.now) i j result }
{
    match algebra {
        Algebra::Unique | Algebra::Divisible | Algebra::Counting | Algebra::Indexed => {
            pass_leaf(i, j)
        }
        Algebra::Pair(a, b) => match pass(a, i, j) {
            Passed::Both(apart) => Passed::Both(apart),
            Passed::First(rest) => match atom_or_rest(b, rest) {
                Ok(_) => Passed::Both(false),
                Err(rest) => Passed::First(rest),
            },
            Passed::Second(rest) => match atom_or_rest(b, rest) {
                Ok(_) => Passed::Both(false),
                Err(rest) => Passed::Second(rest),
            },
            Passed::Neither(i, j) => pass(b, i, j),
        },
        Algebra::Either(a, b) => match pass(a, i, j) {
            Passed::Both(apart) => Passed::Both(apart),
            Passed::First(rest) => match atom_or_rest(b, rest) {
                Ok(_) => Passed::Both(true),
                Err(rest) => Passed::First(rest),
            },
            Passed::Second(rest) => match atom_or_rest(b, rest) {
                Ok(_) => Passed::Both(true),
                Err(rest) => Passed::Second(rest),
            },
            Passed::Neither(i, j) => pass(b, i, j),
        },
    }
}

fn pass_leaf(i: u32, j: u32) -> Passed
    ensures { result ≡ (if i == 0
        then (if j == 0 then Both false else First (j - 1))
        else (if j == 0 then Second (i - 1) else Neither (i - 1) (j - 1))) }
{
    if i == 0 {
        if j == 0 {
            Passed::Both(false)
        } else {
            Passed::First(j - 1)
        }
    } else if j == 0 {
        Passed::Second(i - 1)
    } else {
        Passed::Neither(i - 1, j - 1)
    }
}

impl Algebra {
    /// The kind of an atom, where the algebra has it.
    pub fn atom(&self, atom: u32) -> Option<Atom>
        ensures { MatchOption result (atom_count self.now ≤ atom) (HasAtom self.now atom) }
    {
        match atom_or_rest(self, atom) {
            Ok(kind) => Some(kind),
            Err(_) => None,
        }
    }

    /// Whether the algebra has an atom, and an amount fits it: its form is that of the atom's
    /// declaration, and a fraction is in lowest terms and at most 1.
    pub fn accepts(&self, atom: u32, amount: Amount) -> bool
        ensures { IsTrue result ↔ Accepts self.now atom amount }
    {
        match self.atom(atom) {
            Some(kind) => amount.fits(kind),
            None => false,
        }
    }

    /// Whether the algebra has two atoms, and they stand on two sides of a sum, so that parts of
    /// the one and of the other never compose, unless one of them is the unit.
    pub fn are_apart(&self, i: u32, j: u32) -> bool
        ensures { result ≡ are_apart (algebra_view self.now) i j }
    {
        match pass(self, i, j) {
            Passed::Both(apart) => apart,
            Passed::First(_) => false,
            Passed::Second(_) => false,
            Passed::Neither(_, _) => false,
        }
    }

    /// Whether two algebras are the same.
    pub fn same(&self, other: &Algebra) -> bool
        ensures { IsTrue result ↔ (algebra_view self.now ≡ algebra_view other.now) }
    {
        match self {
            Algebra::Unique => matches!(other, Algebra::Unique),
            Algebra::Divisible => matches!(other, Algebra::Divisible),
            Algebra::Counting => matches!(other, Algebra::Counting),
            Algebra::Indexed => matches!(other, Algebra::Indexed),
            Algebra::Pair(a, b) => match other {
                Algebra::Pair(c, d) => a.same(c) && b.same(d),
                Algebra::Unique | Algebra::Divisible => false,
                Algebra::Counting | Algebra::Indexed => false,
                Algebra::Either(_, _) => false,
            },
            Algebra::Either(a, b) => match other {
                Algebra::Either(c, d) => a.same(c) && b.same(d),
                Algebra::Unique | Algebra::Divisible => false,
                Algebra::Counting | Algebra::Indexed => false,
                Algebra::Pair(_, _) => false,
            },
        }
    }

    /// The same algebra once more.
    pub fn copy(&self, alloc: Global) -> Result<Algebra, AllocError>
        ensures { IfOk result (λ a. algebra_view a ≡ algebra_view self.now) }
    {
        match self {
            Algebra::Unique => Ok(Algebra::Unique),
            Algebra::Divisible => Ok(Algebra::Divisible),
            Algebra::Counting => Ok(Algebra::Counting),
            Algebra::Indexed => Ok(Algebra::Indexed),
            Algebra::Pair(a, b) => pair(alloc, a.copy(alloc)?, b.copy(alloc)?),
            Algebra::Either(a, b) => either(alloc, a.copy(alloc)?, b.copy(alloc)?),
        }
    }
}

// The algebra of parts of both.
fn pair(alloc: Global, a: Algebra, b: Algebra) -> Result<Algebra, AllocError>
    ensures { IfOk result (λ c. algebra_view c ≡ product (algebra_view a) (algebra_view b)) }
{
    Ok(Algebra::Pair(Box::new(alloc, a)?, Box::new(alloc, b)?))
}

// The algebra of parts of one alone.
fn either(alloc: Global, a: Algebra, b: Algebra) -> Result<Algebra, AllocError>
    ensures { IfOk result (λ c. algebra_view c ≡ sum (algebra_view a) (algebra_view b)) }
{
    Ok(Algebra::Either(Box::new(alloc, a)?, Box::new(alloc, b)?))
}
