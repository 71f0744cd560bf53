//! Pieces of guards whose amounts are terms.

use crate::texts::{put, put_error, put_rows, put_term, sum};
use cap_galg::{Algebra, Atom};
use cap_gsolve::{Form, Piece, compat, full_pieces, merge};
use cap_lin::{LinError, Term};
use std::alloc::{AllocError, Global};
use std::process::Abort;
use std::test::Fail;

// The form of a piece, without its amount. A span has so many indices from there on, or all.
#[derive(Clone, Copy)]
enum Shape {
    One,
    Share,
    Src,
    Tok,
    Span(i128),
    Onwards,
}

// An atom, a shape, and the constant and the parts of the amount, or of the start.
type Part = (u32, Shape, i128, &'static [(u32, i128)]);

const ONE: Part = (0, Shape::One, 0, &[]);

const SHARE: Part = (0, Shape::Share, 0, &[(0, 1)]);

const OTHER_SHARE: Part = (0, Shape::Share, 0, &[(1, 1)]);

const RIGHT_SHARE: Part = (1, Shape::Share, 0, &[(0, 1)]);

const RIGHT_ONE: Part = (1, Shape::One, 0, &[]);

const WHOLE: Part = (0, Shape::Share, 1, &[]);

const MOST: Part = (0, Shape::Share, i128::MAX, &[]);

const SOURCE: Part = (0, Shape::Src, 0, &[(0, 1)]);

const OTHER_SOURCE: Part = (0, Shape::Src, 0, &[(1, 1)]);

const TOKENS: Part = (0, Shape::Tok, 0, &[(0, 1)]);

const OTHER_TOKENS: Part = (0, Shape::Tok, 0, &[(1, 1)]);

const ONE_TOKEN: Part = (0, Shape::Tok, 1, &[]);

const INDEX: Part = (0, Shape::Span(1), 0, &[(0, 1)]);

const OTHER_INDEX: Part = (0, Shape::Span(1), 0, &[(1, 1)]);

const TWO_INDICES: Part = (0, Shape::Span(2), 0, &[(1, 1)]);

const ONWARDS: Part = (0, Shape::Onwards, 0, &[(0, 1)]);

const OTHER_ONWARDS: Part = (0, Shape::Onwards, 0, &[(1, 1)]);

const RIGHT_INDEX: Part = (1, Shape::Span(1), 0, &[(0, 1)]);

const NO_INDEX: Part = (1, Shape::Span(0), 0, &[(0, 1)]);

// The span of so many indices.
fn span(alloc: Global, start: Term, count: i128) -> Result<Form, LinError> {
    let end = start.add(alloc, &Term::constant(alloc, count))?;
    Ok(Form::Span(start, Some(end)))
}

fn form(alloc: Global, part: Part) -> Result<Form, LinError> {
    let amount = sum(alloc, part.2, part.3)?;
    Ok(match part.1 {
        Shape::One => Form::One,
        Shape::Share => Form::Share(amount),
        Shape::Src => Form::Src(amount),
        Shape::Tok => Form::Tok(amount),
        Shape::Span(count) => span(alloc, amount, count)?,
        Shape::Onwards => Form::Span(amount, None),
    })
}

// The region is the variable 9, and the guards are those of kind 0.
fn region(alloc: Global) -> Result<Term, LinError> {
    Term::var(alloc, 9)
}

fn piece(alloc: Global, part: Part) -> Result<Piece, LinError> {
    let form = form(alloc, part)?;
    Ok(Piece {
        region: region(alloc)?,
        kind: 0,
        atom: part.0,
        form,
    })
}

fn pieces(alloc: Global, parts: &[Part]) -> Result<Vec<Piece>, LinError> {
    let mut pieces = Vec::new(alloc);
    for part in parts {
        pieces.push(piece(alloc, *part)?)?;
    }
    Ok(pieces)
}

fn put_amount(
    alloc: Global,
    text: &mut String,
    word: &str,
    amount: &Term,
) -> Result<(), AllocError> {
    text.push_str(word)?;
    put_term(alloc, text, amount)
}

// The end of a span, if it has one.
fn put_end(alloc: Global, text: &mut String, end: &Option<Term>) -> Result<(), AllocError> {
    match end {
        None => Ok(()),
        Some(end) => put_amount(alloc, text, " below ", end),
    }
}

fn put_form(alloc: Global, text: &mut String, form: &Form) -> Result<(), AllocError> {
    match form {
        Form::One => text.push_str("one"),
        Form::Share(amount) => put_amount(alloc, text, "share ", amount),
        Form::Src(out) => put_amount(alloc, text, "source ", out),
        Form::Tok(count) => put_amount(alloc, text, "tokens ", count),
        Form::Span(start, end) => {
            put_amount(alloc, text, "from ", start)?;
            put_end(alloc, text, end)
        }
    }
}

// The region, the kind and the atom, and the form.
fn put_piece(alloc: Global, text: &mut String, piece: &Piece) -> Result<(), AllocError> {
    put_term(alloc, text, &piece.region)?;
    put(alloc, text, "@", piece.kind as i128)?;
    put(alloc, text, ".", piece.atom as i128)?;
    text.push_str(" ")?;
    put_form(alloc, text, &piece.form)
}

// The pieces, with a semicolon behind each.
fn put_pieces(alloc: Global, text: &mut String, pieces: &[Piece]) -> Result<(), AllocError> {
    for piece in pieces {
        put_piece(alloc, text, piece)?;
        text.push_str("; ")?;
    }
    Ok(())
}

// One guard, or two of which a thread may hold parts of both or of one alone.
#[derive(Clone, Copy)]
enum Combination {
    One(Atom),
    Both(Atom, Atom),
    Sides(Atom, Atom),
}

fn one(atom: Atom) -> Algebra {
    match atom {
        Atom::Unique => Algebra::Unique,
        Atom::Divisible => Algebra::Divisible,
        Atom::Counting => Algebra::Counting,
        Atom::Indexed => Algebra::Indexed,
    }
}

fn algebra(alloc: Global, guards: Combination) -> Result<Algebra, AllocError> {
    Ok(match guards {
        Combination::One(atom) => one(atom),
        Combination::Both(left, right) => {
            let left = Box::new(alloc, one(left))?;
            Algebra::Pair(left, Box::new(alloc, one(right))?)
        }
        Combination::Sides(left, right) => {
            let left = Box::new(alloc, one(left))?;
            Algebra::Either(left, Box::new(alloc, one(right))?)
        }
    })
}

fn forms(alloc: Global, parts: &[Part]) -> Result<Vec<(u32, Form)>, LinError> {
    let mut forms = Vec::new(alloc);
    for part in parts {
        let form = form(alloc, *part)?;
        forms.push((part.0, form))?;
    }
    Ok(forms)
}

// What is asked of guards beside pieces that are there.
#[derive(Clone, Copy)]
enum Question {
    // The pieces, and the rows that hold then, to which a piece is added.
    Merged(Part),
    // The rows that hold where these are held too, of the region that is this variable.
    Wanted(u32, &'static [Part]),
    // All pieces of the guards.
    All,
}

fn put_merged(
    alloc: Global,
    text: &mut String,
    guards: &Algebra,
    there: &[Piece],
    new: Part,
) -> Result<(), LinError> {
    let new = piece(alloc, new)?;
    let (pieces, rows) = merge(alloc, guards, there, &new)?;
    put_pieces(alloc, text, &pieces)?;
    Ok(put_rows(alloc, text, &rows)?)
}

// The rows, that it never composes, or the operands of what is wide.
fn put_wanted(
    alloc: Global,
    text: &mut String,
    guards: &Algebra,
    there: &[Piece],
    (region, wanted): (u32, &[Part]),
) -> Result<(), LinError> {
    let region = Term::var(alloc, region)?;
    let wanted = forms(alloc, wanted)?;
    match compat(alloc, guards, there, &region, 0, &wanted) {
        Ok(Some(rows)) => put_rows(alloc, text, &rows)?,
        Ok(None) => text.push_str("never")?,
        Err(error) => put_error(alloc, text, error)?,
    }
    Ok(())
}

fn put_all(alloc: Global, text: &mut String, guards: &Algebra) -> Result<(), LinError> {
    let pieces = full_pieces(alloc, guards, &region(alloc)?, 0)?;
    Ok(put_pieces(alloc, text, &pieces)?)
}

fn shown(
    alloc: Global,
    guards: Combination,
    there: &[Part],
    question: Question,
) -> Result<String, LinError> {
    let guards = algebra(alloc, guards)?;
    let there = pieces(alloc, there)?;
    let mut text = String::new(alloc);
    match question {
        Question::Merged(new) => put_merged(alloc, &mut text, &guards, &there, new)?,
        Question::Wanted(region, parts) => {
            put_wanted(alloc, &mut text, &guards, &there, (region, parts))?
        }
        Question::All => put_all(alloc, &mut text, &guards)?,
    }
    Ok(text)
}

type Example = (Combination, &'static [Part], Question, &'static str);

fn all_hold(rt: &impl Abort, alloc: Global, examples: &[Example]) -> Result<(), Fail> {
    for (guards, there, question, want) in examples {
        let found = shown(alloc, *guards, there, *question)?;
        assert!(rt; found.as_str() == *want, "{found} for {want}");
    }
    Ok(())
}

const UNIQUE: Combination = Combination::One(Atom::Unique);

const DIVISIBLE: Combination = Combination::One(Atom::Divisible);

const COUNTING: Combination = Combination::One(Atom::Counting);

const INDEXED: Combination = Combination::One(Atom::Indexed);

const MERGED: &[Example] = &[
    (
        DIVISIBLE,
        &[],
        Question::Merged(SHARE),
        "v9@0.0 share v0; -1*v0 < 0 (Perm), v0 + -1 <= 0 (Perm)",
    ),
    (
        DIVISIBLE,
        &[SHARE],
        Question::Merged(OTHER_SHARE),
        "v9@0.0 share v0 + v1; -1*v1 < 0 (Perm), v0 + v1 + -1 <= 0 (Perm)",
    ),
    // Tokens that come back were out.
    (
        COUNTING,
        &[SOURCE],
        Question::Merged(ONE_TOKEN),
        "v9@0.0 source v0 + -1; -1 <= 0, -1*v0 + 1 <= 0",
    ),
    // Two spans without an end never compose, two of one index differ, and an index is below the
    // start of one without an end.
    (
        INDEXED,
        &[],
        Question::Merged(ONWARDS),
        "v9@0.0 from v0; -1*v0 <= 0",
    ),
    (
        INDEXED,
        &[],
        Question::Merged(INDEX),
        "v9@0.0 from v0 below v0 + 1; -1*v0 <= 0, -1 <= 0",
    ),
    (
        INDEXED,
        &[OTHER_INDEX],
        Question::Merged(INDEX),
        "v9@0.0 from v1 below v1 + 1; v9@0.0 from v0 below v0 + 1; \
-1*v0 <= 0, -1 <= 0, -1*v0 + v1 != 0",
    ),
    (
        INDEXED,
        &[OTHER_ONWARDS],
        Question::Merged(INDEX),
        "v9@0.0 from v1; v9@0.0 from v0 below v0 + 1; \
-1*v0 <= 0, -1 <= 0, v0 + -1*v1 + 1 <= 0",
    ),
    (
        INDEXED,
        &[OTHER_INDEX],
        Question::Merged(ONWARDS),
        "v9@0.0 from v1 below v1 + 1; v9@0.0 from v0; -1*v0 <= 0, -1*v0 + v1 + 1 <= 0",
    ),
    (
        INDEXED,
        &[OTHER_ONWARDS],
        Question::Merged(ONWARDS),
        "v9@0.0 from v1; v9@0.0 from v0; -1*v0 <= 0, -1 = 0",
    ),
    (
        INDEXED,
        &[TWO_INDICES],
        Question::Merged(INDEX),
        "v9@0.0 from v1 below v1 + 2; v9@0.0 from v0 below v0 + 1; -1*v0 <= 0, -1 <= 0",
    ),
    // One index is surely some part of the other side, and a span that ends where it starts is
    // none.
    (
        Combination::Sides(Atom::Unique, Atom::Indexed),
        &[ONE],
        Question::Merged(RIGHT_INDEX),
        "v9@0.0 one; v9@0.1 from v0 below v0 + 1; -1*v0 <= 0, -1 <= 0, -1 = 0",
    ),
    (
        Combination::Sides(Atom::Unique, Atom::Indexed),
        &[ONE],
        Question::Merged(NO_INDEX),
        "v9@0.0 one; v9@0.1 from v0 below v0; -1*v0 <= 0, 0 <= 0",
    ),
    // Nobody holds a guard twice, or guards of both sides: the row -1 = 0 is false.
    (UNIQUE, &[ONE], Question::Merged(ONE), "v9@0.0 one; -1 = 0"),
    (
        Combination::Sides(Atom::Unique, Atom::Divisible),
        &[ONE],
        Question::Merged(RIGHT_SHARE),
        "v9@0.0 one; v9@0.1 share v0; -1*v0 < 0 (Perm), v0 + -1 <= 0 (Perm), -1 = 0",
    ),
    // All of a sum is all of its left side, and all indices are those from 0 on.
    (
        Combination::Sides(Atom::Divisible, Atom::Unique),
        &[],
        Question::All,
        "v9@0.0 share 1; ",
    ),
    (INDEXED, &[], Question::All, "v9@0.0 from 0; "),
];

#[test]
fn pieces_are_merged(rt: HostRuntime) -> Result<(), Fail> {
    all_hold(&rt, rt.alloc(), MERGED)
}

#[test]
fn a_piece_is_part_of_its_copy(rt: HostRuntime) -> Result<(), Fail> {
    let share = piece(rt.alloc(), SHARE)?;
    let again = share.copy(rt.alloc())?;
    assert!(rt; again.is_part_of(&share));
    Ok(())
}

const WANTED: &[Example] = &[
    // A wanted share and the one there are at most 1.
    (
        DIVISIBLE,
        &[],
        Question::Wanted(9, &[SHARE]),
        "-1*v0 < 0 (Perm), v0 + -1 <= 0 (Perm)",
    ),
    (
        DIVISIBLE,
        &[OTHER_SHARE],
        Question::Wanted(9, &[SHARE]),
        "-1*v0 < 0 (Perm), v0 + v1 + -1 <= 0 (Perm)",
    ),
    // A source has as many out as are there, and tokens that are wanted are out.
    (
        COUNTING,
        &[OTHER_TOKENS],
        Question::Wanted(9, &[SOURCE]),
        "-1*v0 <= 0, -1*v0 + v1 <= 0",
    ),
    (
        COUNTING,
        &[OTHER_SOURCE],
        Question::Wanted(9, &[TOKENS]),
        "-1*v0 <= 0, v0 + -1*v1 <= 0",
    ),
    (
        COUNTING,
        &[SOURCE],
        Question::Wanted(9, &[OTHER_SOURCE]),
        "never",
    ),
    // A wanted index is none of those there.
    (
        INDEXED,
        &[OTHER_INDEX],
        Question::Wanted(9, &[INDEX]),
        "-1*v0 <= 0, v0 + -1*v1 != 0",
    ),
    (
        INDEXED,
        &[OTHER_ONWARDS],
        Question::Wanted(9, &[INDEX]),
        "-1*v0 <= 0, v0 + -1*v1 + 1 <= 0",
    ),
    (
        INDEXED,
        &[TWO_INDICES],
        Question::Wanted(9, &[INDEX]),
        "-1*v0 <= 0",
    ),
    (
        INDEXED,
        &[OTHER_INDEX],
        Question::Wanted(9, &[ONWARDS]),
        "-1*v0 <= 0",
    ),
    (
        INDEXED,
        &[OTHER_ONWARDS],
        Question::Wanted(9, &[ONWARDS]),
        "never",
    ),
    // A guard never composes with itself, and that of another region is none of this one's.
    (UNIQUE, &[ONE], Question::Wanted(9, &[ONE]), "never"),
    (UNIQUE, &[ONE], Question::Wanted(8, &[ONE]), ""),
    // A share is surely some part of the other side. So is one token, but none are no part.
    (
        Combination::Sides(Atom::Unique, Atom::Divisible),
        &[ONE],
        Question::Wanted(9, &[RIGHT_SHARE]),
        "never",
    ),
    (
        Combination::Sides(Atom::Unique, Atom::Counting),
        &[ONE],
        Question::Wanted(9, &[(1, Shape::Tok, 1, &[])]),
        "never",
    ),
    (
        Combination::Sides(Atom::Unique, Atom::Counting),
        &[ONE],
        Question::Wanted(9, &[(1, Shape::Tok, 0, &[])]),
        "0 <= 0",
    ),
    (
        Combination::Sides(Atom::Unique, Atom::Counting),
        &[ONE],
        Question::Wanted(9, &[]),
        "",
    ),
    // The wanted amount is the first operand. That some atom never composes comes before any row.
    (
        Combination::Both(Atom::Divisible, Atom::Unique),
        &[WHOLE, RIGHT_ONE],
        Question::Wanted(9, &[MOST]),
        "wide 170141183460469231731687303715884105727 1",
    ),
    (
        Combination::Both(Atom::Divisible, Atom::Unique),
        &[WHOLE, RIGHT_ONE],
        Question::Wanted(9, &[MOST, RIGHT_ONE]),
        "never",
    ),
];

#[test]
fn guards_are_wanted(rt: HostRuntime) -> Result<(), Fail> {
    all_hold(&rt, rt.alloc(), WANTED)
}
