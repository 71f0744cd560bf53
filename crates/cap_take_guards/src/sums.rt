//! The sums of an algebra, by their numbers.
ghost use Rattle.std.specs.Prelude.{◌≡◌, ◌+◌, IfOk};
ghost use Rattle.cap_galg.specs.Algebras.{atoms};
ghost use Rattle.cap_galg.specs.Views.{algebra_view};
ghost use Rattle.cap_rules.specs.Attempts.{found};
ghost use Rattle.cap_rules.specs.Taking.{sides_of, sum_in};
ghost use Rattle.cap_rules.specs.Taking.{given_side as side_given, other_side as side_other};
ghost use Rattle.cap_rules_steps.specs.Walks.{Makes, seen};
ghost use Rattle.cap_take_guards.specs.Sums.{side_view, sides_view, IsWalked};

use cap_galg::Algebra;
use cap_rules_steps::RuleError;
use std::alloc::AllocError;

/// An algebra within another one, with the number of its first atom.
#[derive(Clone, Copy)]
pub(crate) struct Side<'p> {
    pub(crate) algebra: &'p Algebra,
    pub(crate) atom: u32,
}

/// The two sides of a sum.
#[derive(Clone, Copy)]
pub(crate) struct Sides<'p> {
    pub(crate) left: Side<'p>,
    pub(crate) right: Side<'p>,
}

/// Where a walk for a sum has come to: it found its sides, or the sum comes so many sums after
/// those of the algebra, behind which the next atom has this number.
pub(crate) enum Walked<'p> {
    Found(Sides<'p>),
    Past(u32, u32),
}

// The number behind the algebra's atoms, where they begin at a number. One past 32 bits counts as
// want of memory.
fn atom_behind(algebra: &Algebra, first: u32) -> Result<u32, AllocError>
    ensures { IfOk result (λ next. next ≡ first + atoms (algebra_view algebra.now)) }
{
    match algebra {
        Algebra::Unique | Algebra::Divisible | Algebra::Counting | Algebra::Indexed => {
            first.checked_add(1).ok_or(AllocError)
        }
        Algebra::Pair(a, b) | Algebra::Either(a, b) => atom_behind(b, atom_behind(a, first)?),
    }
}

// A sum of two algebras whose first atom has this number.
fn sum_sides<'p>(left: &'p Algebra, right: &'p Algebra, atom: u32) -> Result<Sides<'p>, AllocError>
    ensures { IfOk result (λ x. sides_view x
        ≡ sides_of (algebra_view left.now) (algebra_view right.now) atom) }
{
    let behind = atom_behind(left, atom)?;
    Ok(Sides {
        left: Side {
            algebra: left,
            atom,
        },
        right: Side {
            algebra: right,
            atom: behind,
        },
    })
}

// Past an algebra that has one atom and no sum.
fn past_atom<'p>(atom: u32, number: u32) -> Result<Walked<'p>, AllocError>
    ensures { IfOk result (λ w. w ≡ Walked.Past number (atom + 1)) }
{
    match atom.checked_add(1) {
        None => Err(AllocError),
        Some(next) => Ok(Walked::Past(number, next)),
    }
}

// Walks for the sum of this number, in preorder, of an algebra whose first atom has a number.
fn walk<'p>(algebra: &'p Algebra, atom: u32, number: u32) -> Result<Walked<'p>, AllocError>
    ensures { IfOk result (IsWalked (algebra_view algebra.now) atom number) }
{
    match algebra {
        Algebra::Unique | Algebra::Divisible | Algebra::Counting | Algebra::Indexed => {
            past_atom(atom, number)
        }
        Algebra::Pair(a, b) => match walk(a, atom, number)? {
            Walked::Found(sides) => Ok(Walked::Found(sides)),
            Walked::Past(rest, next) => walk(b, next, rest),
        },
        Algebra::Either(a, b) => {
            if number == 0 {
                return Ok(Walked::Found(sum_sides(a, b, atom)?));
            }
            match walk(a, atom, number - 1)? {
                Walked::Found(sides) => Ok(Walked::Found(sides)),
                Walked::Past(rest, next) => walk(b, next, rest),
            }
        }
    }
}

/// The sides of the sum of a number, in preorder, where the algebra has one.
pub(crate) fn sum_at(algebra: &Algebra, number: u32) -> Result<Sides<'_>, RuleError>
    ensures { Makes (seen sides_view result)
        (found (sum_in (algebra_view algebra.now) 0 number)) }
{
    match walk(algebra, 0, number)? {
        Walked::Found(sides) => Ok(sides),
        Walked::Past(_, _) => Err(RuleError::NotApplicable),
    }
}

/// The side of a number, of which 0 is the left one.
pub(crate) fn given_side<'p>(sides: Sides<'p>, side: u32) -> Result<Side<'p>, RuleError>
    ensures { Makes (seen side_view result) (found (side_given (sides_view sides.entry) side)) }
{
    if side == 0 {
        return Ok(sides.left);
    }
    if side == 1 {
        return Ok(sides.right);
    }
    Err(RuleError::NotApplicable)
}

/// The side beside the one of a number.
pub(crate) fn other_side<'p>(sides: Sides<'p>, side: u32) -> Side<'p>
    ensures { side_view result ≡ side_other (sides_view sides.entry) side }
{
    if side == 0 { sides.right } else { sides.left }
}
