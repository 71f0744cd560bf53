//! Elements of guard algebras.

use cap_galg::{
    Algebra, Amount, Atom, Counting, Divisible, Either, Elem, Fraction, Guard, GuardError, Indexed,
    Pair, Unique,
};
use cap_galg_indices::Indices;
use std::alloc::{AllocError, Global};
use std::process::Abort;
use std::test::Fail;

fn pair(alloc: Global, a: Algebra, b: Algebra) -> Result<Algebra, AllocError> {
    Ok(Algebra::Pair(Box::new(alloc, a)?, Box::new(alloc, b)?))
}

fn either(alloc: Global, a: Algebra, b: Algebra) -> Result<Algebra, AllocError> {
    Ok(Algebra::Either(Box::new(alloc, a)?, Box::new(alloc, b)?))
}

fn share(num: u64, den: u64) -> Amount {
    Amount::Share(Fraction { num, den })
}

// An atom, and how much of it.
type Part = (u32, Amount);

const HALF: Part = (0, Amount::Share(Fraction { num: 1, den: 2 }));

const THIRD: Part = (1, Amount::Share(Fraction { num: 1, den: 3 }));

const TWO_THIRDS: Part = (1, Amount::Share(Fraction { num: 2, den: 3 }));

const FIRST: Part = (0, Amount::One);

const SECOND: Part = (1, Amount::One);

const THIRD_ONE: Part = (2, Amount::One);

const TOKEN: Part = (2, Amount::Tok(1));

fn element(alloc: Global, algebra: &Algebra, part: Part) -> Result<Elem, Fail> {
    let (atom, amount) = part;
    if !algebra.accepts(atom, amount) {
        Err("no such part")?;
    }
    Ok(Elem::atom(alloc, algebra, atom, amount)?)
}

// What two elements compose to, where they do.
fn join(alloc: Global, a: &Elem, b: &Elem) -> Result<Option<Elem>, Fail> {
    if !a.algebra().same(b.algebra()) {
        Err("two algebras")?;
    }
    Ok(a.compose(alloc, b)?)
}

// What all parts compose to, from the first on, where they do.
fn composed(alloc: Global, algebra: &Algebra, parts: &[Part]) -> Result<Option<Elem>, Fail> {
    let mut all = Elem::unit(alloc, algebra)?;
    for part in parts {
        let next = element(alloc, algebra, *part)?;
        match join(alloc, &all, &next)? {
            Some(sum) => all = sum,
            None => return Ok(None),
        }
    }
    Ok(Some(all))
}

fn word_of(element: &Elem) -> &'static str {
    if element.is_unit() {
        "unit"
    } else if element.is_full() {
        "full"
    } else {
        "part"
    }
}

// What the parts are together, in one word.
fn word(alloc: Global, algebra: &Algebra, parts: &[Part]) -> Result<&'static str, Fail> {
    match composed(alloc, algebra, parts)? {
        Some(all) => Ok(word_of(&all)),
        None => Ok("nothing"),
    }
}

fn is_at_most(a: &Elem, b: &Elem) -> Result<bool, Fail> {
    if !a.algebra().same(b.algebra()) {
        Err("two algebras")?;
    }
    Ok(a.le(b))
}

// Whether what the first parts compose to is at most what the second do.
fn at_most(alloc: Global, algebra: &Algebra, a: &[Part], b: &[Part]) -> Result<bool, Fail> {
    let a = composed(alloc, algebra, a)?.ok_or("they compose")?;
    let b = composed(alloc, algebra, b)?.ok_or("they compose")?;
    is_at_most(&a, &b)
}

// Whether the parts are all: at least the full element, and at most that.
fn are_all(alloc: Global, algebra: &Algebra, parts: &[Part]) -> Result<(bool, bool), Fail> {
    let full = Elem::full(alloc, algebra)?;
    let sum = composed(alloc, algebra, parts)?.ok_or("they compose")?;
    Ok((is_at_most(&full, &sum)?, is_at_most(&sum, &full)?))
}

// The parts of an algebra, each list with its word.
fn words(
    rt: &impl Abort,
    alloc: Global,
    algebra: &Algebra,
    given: &[(&[Part], &str)],
) -> Result<(), Fail> {
    for (parts, want) in given {
        let found = word(alloc, algebra, parts)?;
        assert!(rt; found == *want, "{parts:?}");
    }
    Ok(())
}

// A fraction of the divisible guard beside a unique one, of which a thread holds parts of one
// alone.
#[test]
fn sides_do_not_compose(rt: HostRuntime) -> Result<(), Fail> {
    let algebra = either(rt.alloc(), Algebra::Divisible, Algebra::Unique)?;
    let given: [(&[Part], &str); 5] = [
        (&[], "unit"),
        (&[HALF], "part"),
        (&[HALF, HALF], "full"),
        (&[SECOND], "full"),
        (&[HALF, SECOND], "nothing"),
    ];
    words(&rt, rt.alloc(), &algebra, &given)
}

#[test]
fn halves_make_the_full_element_of_both_sides(rt: HostRuntime) -> Result<(), Fail> {
    let alloc = rt.alloc();
    let algebra = either(alloc, Algebra::Divisible, Algebra::Unique)?;
    let given: [(&[Part], &[Part], bool); 4] = [
        (&[HALF, HALF], &[SECOND], true),
        (&[SECOND], &[HALF, HALF], true),
        (&[HALF], &[SECOND], true),
        (&[SECOND], &[HALF], false),
    ];
    for (a, b, want) in given {
        assert!(rt; at_most(alloc, &algebra, a, b)? == want, "{a:?} and {b:?}");
    }
    assert!(rt; are_all(alloc, &algebra, &[HALF, HALF])? == (true, true));
    assert!(rt; are_all(alloc, &algebra, &[HALF])? == (false, true));
    Ok(())
}

#[test]
fn tokens_come_back_to_their_source(rt: HostRuntime) -> Result<(), Fail> {
    let given: [(&[Part], &str); 5] = [
        (&[(0, Amount::Src(0))], "full"),
        (&[(0, Amount::Src(3)), (0, Amount::Tok(2))], "part"),
        (&[(0, Amount::Src(2)), (0, Amount::Tok(2))], "full"),
        (&[(0, Amount::Src(1)), (0, Amount::Tok(2))], "nothing"),
        (&[(0, Amount::Src(0)), (0, Amount::Src(0))], "nothing"),
    ];
    words(&rt, rt.alloc(), &Algebra::Counting, &given)
}

#[test]
fn two_of_three_tokens_leave_one_out(rt: HostRuntime) -> Result<(), Fail> {
    let back = [(0, Amount::Src(3)), (0, Amount::Tok(2))];
    let one_out = [(0, Amount::Src(1))];
    assert!(rt; at_most(rt.alloc(), &Algebra::Counting, &back, &one_out)?);
    assert!(rt; at_most(rt.alloc(), &Algebra::Counting, &one_out, &back)?);
    Ok(())
}

// Tickets, of which no two threads hold one.
#[test]
fn indices_compose_where_they_differ(rt: HostRuntime) -> Result<(), Fail> {
    let given: [(&[Part], &str); 6] = [
        (&[(0, Amount::At(0)), (0, Amount::From(1))], "full"),
        (&[(0, Amount::At(2)), (0, Amount::From(1))], "nothing"),
        (&[(0, Amount::At(0)), (0, Amount::From(2))], "part"),
        (&[(0, Amount::At(2)), (0, Amount::At(2))], "nothing"),
        (
            &[(0, Amount::From(2)), (0, Amount::At(1)), (0, Amount::At(0))],
            "full",
        ),
        (
            &[(0, Amount::At(u64::MAX)), (0, Amount::From(u64::MAX))],
            "nothing",
        ),
    ];
    words(&rt, rt.alloc(), &Algebra::Indexed, &given)
}

#[test]
fn all_indices_are_the_full_element(rt: HostRuntime) -> Result<(), Fail> {
    let given: [(&[Part], (bool, bool)); 2] = [
        (&[(0, Amount::At(0)), (0, Amount::From(1))], (true, true)),
        (&[(0, Amount::From(1))], (false, true)),
    ];
    for (parts, want) in given {
        assert!(rt;
            are_all(rt.alloc(), &Algebra::Indexed, parts)? == want,
            "{parts:?}"
        );
    }
    Ok(())
}

#[test]
fn a_sum_past_64_bits_is_wide(rt: HostRuntime) -> Result<(), Fail> {
    let alloc = rt.alloc();
    let a = element(alloc, &Algebra::Divisible, (0, share(1, u64::MAX)))?;
    let b = element(alloc, &Algebra::Divisible, (0, share(1, u64::MAX - 1)))?;
    if !a.algebra().same(b.algebra()) {
        Err("two algebras")?;
    }
    assert!(rt; matches!(a.compose(alloc, &b), Err(GuardError::Wide)));
    Ok(())
}

// A product with a sum in it: the second atom's whole is the third's.
fn product_of_a_sum(alloc: Global) -> Result<Algebra, AllocError> {
    let side = either(alloc, Algebra::Divisible, Algebra::Counting)?;
    pair(alloc, Algebra::Unique, side)
}

#[test]
fn composes_in_a_product_of_a_sum(rt: HostRuntime) -> Result<(), Fail> {
    let algebra = product_of_a_sum(rt.alloc())?;
    let given: [(&[Part], &str); 5] = [
        (&[FIRST, FIRST], "nothing"),
        (&[THIRD, TOKEN], "nothing"),
        (&[THIRD, TWO_THIRDS, TOKEN], "nothing"),
        (&[THIRD, TWO_THIRDS], "part"),
        (&[THIRD, TWO_THIRDS, FIRST], "full"),
    ];
    words(&rt, rt.alloc(), &algebra, &given)
}

#[test]
fn all_of_a_product_of_a_sum(rt: HostRuntime) -> Result<(), Fail> {
    let algebra = product_of_a_sum(rt.alloc())?;
    let given: [(&[Part], (bool, bool)); 2] = [
        (&[THIRD, TWO_THIRDS, FIRST], (true, true)),
        (&[THIRD], (false, true)),
    ];
    for (parts, want) in given {
        assert!(rt; are_all(rt.alloc(), &algebra, parts)? == want, "{parts:?}");
    }
    Ok(())
}

// A sum with a product in it: only both atoms together are the third.
fn sum_of_a_product(alloc: Global) -> Result<Algebra, AllocError> {
    let product = pair(alloc, Algebra::Unique, Algebra::Counting)?;
    either(alloc, product, Algebra::Unique)
}

const NONE_OUT: Part = (1, Amount::Src(0));

#[test]
fn composes_in_a_sum_of_a_product(rt: HostRuntime) -> Result<(), Fail> {
    let algebra = sum_of_a_product(rt.alloc())?;
    let given: [(&[Part], &str); 4] = [
        (&[FIRST, THIRD_ONE], "nothing"),
        (&[FIRST], "part"),
        (&[FIRST, NONE_OUT], "full"),
        (&[THIRD_ONE], "full"),
    ];
    words(&rt, rt.alloc(), &algebra, &given)
}

#[test]
fn both_atoms_are_the_third(rt: HostRuntime) -> Result<(), Fail> {
    let algebra = sum_of_a_product(rt.alloc())?;
    let given: [(&[Part], &[Part], bool); 4] = [
        (&[FIRST, NONE_OUT], &[THIRD_ONE], true),
        (&[THIRD_ONE], &[FIRST, NONE_OUT], true),
        (&[FIRST], &[THIRD_ONE], true),
        (&[THIRD_ONE], &[FIRST], false),
    ];
    for (a, b, want) in given {
        let found = at_most(rt.alloc(), &algebra, a, b)?;
        assert!(rt; found == want, "{a:?} and {b:?}");
    }
    Ok(())
}

#[test]
fn a_copy_is_equal(rt: HostRuntime) -> Result<(), Fail> {
    let algebra = sum_of_a_product(rt.alloc())?;
    let one = element(rt.alloc(), &algebra, FIRST)?;
    let again = one.copy(rt.alloc())?;
    assert!(rt; is_at_most(&again, &one)? && is_at_most(&one, &again)?);
    Ok(())
}

// The same algebra by the types of its parts.
#[test]
fn types_of_parts_compose_alike(rt: HostRuntime) -> Result<(), Fail> {
    let alloc = rt.alloc();
    let left: Either<Pair<Unique, Counting>, Unique> = Either::Left(Pair {
        left: Unique::One,
        right: Counting::Tok(0),
    });
    let source: Either<Pair<Unique, Counting>, Unique> = Either::Left(Pair {
        left: Unique::Unit,
        right: Counting::Src(0),
    });
    let right: Either<Pair<Unique, Counting>, Unique> = Either::Right(Unique::One);
    assert!(rt; left.compose(alloc, &right)?.is_none());
    let both = left.compose(alloc, &source)?.ok_or("parts compose")?;
    assert!(rt; both.is_full());
    assert!(rt; both.le(&right) && right.le(&both));
    assert!(rt; !left.is_full());
    let same = left.copy(alloc)?;
    assert!(rt; same.le(&left) && left.le(&same));
    Ok(())
}

#[test]
fn a_divisible_part_keeps_its_fraction(rt: HostRuntime) -> Result<(), Fail> {
    let alloc = rt.alloc();
    let third = Fraction { num: 1, den: 3 };
    assert!(rt; third.is_amount());
    let part = Divisible::new(third);
    let more = part.compose(alloc, &part)?.ok_or("thirds compose")?;
    assert_eq!(rt; more.fraction(), Fraction { num: 2, den: 3 });
    assert!(rt; more.compose(alloc, &more)?.is_none());
    assert!(rt; !part.is_unit());
    assert_eq!(rt; more.copy(alloc)?, more);
    Ok(())
}

#[test]
fn an_indexed_part_keeps_its_indices(rt: HostRuntime) -> Result<(), Fail> {
    let alloc = rt.alloc();
    let first = Indexed::new(Indices::at(alloc, 0)?);
    let rest = Indexed::new(Indices::from(alloc, 1)?);
    let all = first.compose(alloc, &rest)?.ok_or("disjoint")?;
    assert!(rt; all.is_full() && !rest.is_unit() && first.le(&all));
    assert!(rt; all.indices().has(7) && !first.indices().has(7));
    assert!(rt; rest.copy(alloc)?.compose(alloc, &all)?.is_none());
    Ok(())
}

// A unique guard beside a divisible one or tokens.
fn three_atoms(alloc: Global) -> Result<Algebra, AllocError> {
    let sum = either(alloc, Algebra::Divisible, Algebra::Counting)?;
    pair(alloc, Algebra::Unique, sum)
}

#[test]
fn finds_the_kinds_of_atoms(rt: HostRuntime) -> Result<(), Fail> {
    let algebra = three_atoms(rt.alloc())?;
    for (atom, kind) in [
        (0, Some(Atom::Unique)),
        (1, Some(Atom::Divisible)),
        (2, Some(Atom::Counting)),
        (3, None),
    ] {
        assert!(rt; algebra.atom(atom) == kind, "{atom}");
    }
    for (i, j, want) in [(1, 2, true), (2, 1, true), (0, 2, false), (1, 3, false)] {
        assert!(rt; algebra.are_apart(i, j) == want, "{i} and {j}");
    }
    assert!(rt; !algebra.accepts(1, share(3, 2)));
    Ok(())
}

#[test]
fn amounts_fit_their_atoms(rt: HostRuntime) {
    for (amount, kind, want) in [
        (Amount::Tok(7), Atom::Counting, true),
        (Amount::At(7), Atom::Indexed, true),
        (Amount::From(7), Atom::Counting, false),
        (share(2, 4), Atom::Divisible, false),
    ] {
        assert!(rt; amount.fits(kind) == want, "{amount:?}");
    }
}

#[test]
fn an_algebra_is_its_copy(rt: HostRuntime) -> Result<(), Fail> {
    let algebra = three_atoms(rt.alloc())?;
    let again = algebra.copy(rt.alloc())?;
    assert!(rt; again.same(&algebra) && !again.same(&Algebra::Unique));
    Ok(())
}
