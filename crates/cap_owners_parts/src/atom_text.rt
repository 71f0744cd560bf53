//! The texts of the atoms of guards.
ghost use Rattle.std.specs.Prelude.{◌≡◌, ◌∷◌, ◌++◌, [], OnOk, IfOk, map};
ghost use Rattle.std.specs.Prelude.{◌+◌, ◌<◌, min};
ghost use Rattle.cap_galg.specs.Algebras.{atoms as atom_count};
ghost use Rattle.cap_galg.specs.Views.{algebra_view};
ghost use Rattle.cap_outline_spec.specs.Texts.{atom_name as name_of_atom};
ghost use Rattle.cap_prog.specs.Views.{program_view};
ghost use Rattle.cap_owners_spec.specs.Texts.{atom_texts, interval_texts, own_texts};
ghost use Rattle.cap_owners_parts.specs.Lines.{bounded_text, counted_text, shared_text};
ghost use Rattle.cap_owners_parts.specs.Views.{element_view};

use crate::atoms::full_element;
use crate::element::Element;
use crate::fraction::{push_count, push_fraction};
use crate::names::atom_name;
use cap_galg::Algebra;
use cap_prog::Program;
use std::alloc::{AllocError, Global};

/// Adds the texts of the atoms of an algebra that have something of an element; the first atom has
/// this number. An atom past 32 bits counts as want of memory.
pub(crate) fn add_atoms(
    alloc: Global,
    texts: &mut Vec<Vec<u8>>,
    program: &Program,
    kind: u32,
    algebra: &Algebra,
    atom: u32,
    element: &Element,
) -> Result<(), AllocError>
    ensures { OnOk result (map (λ t. t.items) texts.new.items ≡ map (λ t. t.items) texts.old.items
        ++ atom_texts (name_of_atom (program_view program.now) kind)
        (algebra_view algebra.now) atom (element_view element.now)) }
{
    match algebra {
        Algebra::Unique | Algebra::Divisible | Algebra::Counting | Algebra::Indexed => {
            add_own(alloc, texts, atom_name(program, kind, atom), element)
        }
        Algebra::Pair(a, b) => match element {
            Element::Both(x, y) => {
                add_atoms(alloc, texts, program, kind, a, atom, x)?;
                add_atoms(alloc, texts, program, kind, b, behind(atom, a)?, y)
            }
            Element::Nothing
            | Element::One
            | Element::Share(_)
            | Element::Tok(_)
            | Element::Src(_)
            | Element::Indices(_)
            | Element::Whole
            | Element::Left(_)
            | Element::Right(_) => Ok(()),
        },
        Algebra::Either(a, b) => match element {
            Element::Whole => {
                let all = full_element(alloc, a)?;
                add_atoms(alloc, texts, program, kind, a, atom, &all)
            }
            Element::Left(x) => add_atoms(alloc, texts, program, kind, a, atom, x),
            Element::Right(y) => add_atoms(alloc, texts, program, kind, b, behind(atom, a)?, y),
            Element::Nothing
            | Element::One
            | Element::Share(_)
            | Element::Tok(_)
            | Element::Src(_)
            | Element::Indices(_)
            | Element::Both(_, _) => Ok(()),
        },
    }
}

// The number of the first atom behind an algebra's.
fn behind(first: u32, algebra: &Algebra) -> Result<u32, AllocError>
    ensures { IfOk result (λ n. n ≡ first + atom_count (algebra_view algebra.now)) }
{
    match algebra {
        Algebra::Unique | Algebra::Divisible | Algebra::Counting | Algebra::Indexed => {
            first.checked_add(1).ok_or(AllocError)
        }
        Algebra::Pair(a, b) | Algebra::Either(a, b) => behind(behind(first, a)?, b),
    }
}

/// Adds the texts of one atom's element.
pub(crate) fn add_own(
    alloc: Global,
    texts: &mut Vec<Vec<u8>>,
    name: &[u8],
    element: &Element,
) -> Result<(), AllocError>
    ensures { OnOk result (map (λ t. t.items) texts.new.items
        ≡ map (λ t. t.items) texts.old.items ++ own_texts name.now (element_view element.now)) }
{
    match element {
        Element::One => Ok(texts.push(Vec::from_slice(alloc, name)?)?),
        Element::Share(amount) => Ok(texts.push(shared(alloc, name, *amount)?)?),
        Element::Src(out) => Ok(texts.push(counted(alloc, b"src ", name, *out)?)?),
        Element::Tok(count) => Ok(texts.push(counted(alloc, b"tok ", name, *count)?)?),
        Element::Indices(set) => add_intervals(alloc, texts, name, set.bounds()),
        Element::Nothing
        | Element::Both(_, _)
        | Element::Whole
        | Element::Left(_)
        | Element::Right(_) => Ok(()),
    }
}

fn shared(alloc: Global, name: &[u8], amount: u128) -> Result<Vec<u8>, AllocError>
    ensures { IfOk result (λ t. t.items ≡ shared_text name.now amount) }
{
    let mut text = Vec::from_slice(alloc, name)?;
    text.push(b'[')?;
    push_fraction(alloc, &mut text, amount)?;
    text.push(b']')?;
    Ok(text)
}

fn counted(alloc: Global, word: &[u8], name: &[u8], count: u128) -> Result<Vec<u8>, AllocError>
    ensures { IfOk result (λ t. t.items ≡ counted_text word.now name.now count) }
{
    let mut text = Vec::from_slice(alloc, word)?;
    text.extend_from_slice(name)?;
    text.push(b'[')?;
    push_count(alloc, &mut text, count)?;
    text.push(b']')?;
    Ok(text)
}

// Adds a text for each interval of a set of indices.
fn add_intervals(
    alloc: Global,
    texts: &mut Vec<Vec<u8>>,
    name: &[u8],
    bounds: &[u128],
) -> Result<(), AllocError>
    ensures { OnOk result (map (λ t. t.items) texts.new.items
        ≡ map (λ t. t.items) texts.old.items ++ interval_texts name.now bounds.now) }
{
    let mut at = 0;
    while at < bounds.len() {
        let interval = interval(alloc, name, bounds[at], bounds.get(at + 1).copied())?;
        texts.push(interval)?;
        at = after_next(at, bounds.len());
    }
    Ok(())
}

// Two places on, or the end.
fn after_next(at: usize, end: usize) -> usize
    requires { at < end }
    ensures { result ≡ min (at + 2) end }
{
    if end - at < 2 { end } else { at + 2 }
}

fn interval(
    alloc: Global,
    name: &[u8],
    first: u128,
    end: Option<u128>,
) -> Result<Vec<u8>, AllocError>
    ensures { IfOk result (λ t. t.items ≡ bounded_text name.now first end) }
{
    let mut text = Vec::from_slice(alloc, name)?;
    text.push(b'{')?;
    push_count(alloc, &mut text, first)?;
    text.extend_from_slice(b"..")?;
    if let Some(end) = end {
        push_count(alloc, &mut text, end)?;
    }
    text.push(b'}')?;
    Ok(text)
}
