//! Conversions of guards: the sums of an algebra that have an atom on one side.
ghost use Rattle.std.specs.Prelude.{◌≡◌, ◌+◌, ◌++◌, IfOk, OnOk};
ghost use Rattle.cap_galg.specs.Algebras.{atoms};
ghost use Rattle.cap_galg.specs.Views.{algebra_view};
ghost use Rattle.cap_rules.specs.Taking.{sum_count};
ghost use Rattle.cap_offer_spec.specs.Listing.{conversions as conversions_to};
ghost use Rattle.cap_offer.specs.Sums.{conversion_at, conversions_in};
ghost use Rattle.cap_offer.specs.Views.{choices_view, region_in};

use cap_galg::Algebra;
use cap_goal::Choice;
use cap_prog::RegionType;
use std::alloc::{AllocError, Global};

// The number behind an algebra's atoms, where they begin at a number.
fn behind(algebra: &Algebra, first: u64) -> Result<u64, AllocError>
    ensures { IfOk result (λ next. next ≡ first + atoms (algebra_view algebra.now)) }
{
    match algebra {
        Algebra::Unique | Algebra::Divisible | Algebra::Counting | Algebra::Indexed => {
            first.checked_add(1).ok_or(AllocError)
        }
        Algebra::Pair(a, b) | Algebra::Either(a, b) => behind(b, behind(a, first)?),
    }
}

// Adds the choice to convert to the atom by a sum, where one of the sum's sides has it: the atoms
// of the left side are from `first` on, those of the right side from `second` on and before `end`.
fn add_conversion(
    alloc: Global,
    atom: u64,
    sum: u32,
    first: u64,
    second: u64,
    end: u64,
    all: &mut Vec<Choice>,
) -> Result<(), AllocError>
    ensures { OnOk result (choices_view all.new.items
        ≡ choices_view all.old.items ++ conversion_at atom sum first second end) }
{
    if first <= atom && atom < second {
        all.push(Choice::Convert(sum, 1, Vec::new(alloc)))?;
    } else if second <= atom && atom < end {
        all.push(Choice::Convert(sum, 0, Vec::new(alloc)))?;
    }
    Ok(())
}

// Adds the choices to convert to an atom by the sums of an algebra, whose atoms and sums begin at
// these numbers. The number behind its sums.
fn add_conversions(
    alloc: Global,
    algebra: &Algebra,
    atom: u64,
    first: u64,
    sum: u32,
    all: &mut Vec<Choice>,
) -> Result<u32, AllocError>
    ensures { IfOk result (λ next. (next ≡ sum + sum_count (algebra_view algebra.now))
        × (choices_view all.new.items ≡ choices_view all.old.items
        ++ conversions_in atom (algebra_view algebra.now) first sum)) }
{
    match algebra {
        Algebra::Unique | Algebra::Divisible | Algebra::Counting | Algebra::Indexed => Ok(sum),
        Algebra::Pair(a, b) => {
            let second = behind(a, first)?;
            let next = add_conversions(alloc, a, atom, first, sum, all)?;
            add_conversions(alloc, b, atom, second, next, all)
        }
        Algebra::Either(a, b) => {
            let second = behind(a, first)?;
            let end = behind(b, second)?;
            add_conversion(alloc, atom, sum, first, second, end, all)?;
            let next = sum.checked_add(1).ok_or(AllocError)?;
            let next = add_conversions(alloc, a, atom, first, next, all)?;
            add_conversions(alloc, b, atom, second, next, all)
        }
    }
}

/// The choices to convert to an atom of a region type, by the number of the sum.
pub(crate) fn conversions(
    alloc: Global,
    region: Option<&RegionType>,
    atom: u32,
) -> Result<Vec<Choice>, AllocError>
    ensures { IfOk result
        (λ v. choices_view v.items ≡ conversions_to (region_in region.entry) atom) }
{
    match region {
        None => Ok(Vec::new(alloc)),
        Some(region) => {
            let mut all = Vec::new(alloc);
            add_conversions(alloc, &region.algebra, atom as u64, 0, 0, &mut all)?;
            Ok(all)
        }
    }
}
