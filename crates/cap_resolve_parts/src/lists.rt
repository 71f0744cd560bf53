//! The parts of lists: words, atoms, comparisons and counts.
ghost use Rattle.std.specs.Prelude.{◌≡◌, ◌++◌, IfOk, OnOk, option_map, length};
ghost use Rattle.cap_parse_tree.specs.Tree.{parts_of, listed_parts};
ghost use Rattle.cap_parse_tree.specs.Views.{several_view, listed_view, word_view, guard_view};
ghost use Rattle.cap_parse_tree.specs.Views.{when_view, term_view, comparison_view};
ghost use Rattle.cap_resolve_spec.specs.Parts.{when_comparisons};
ghost use Rattle.cap_resolve_parts.specs.Views.{words_view, guards_view, comparisons_view, terms_view};

use cap_parse_tree::{Comparison, GuardAtom, Listed, Separated, Term, When, Word};
use std::alloc::{AllocError, Global};

/// The words of a list, in the order of the text.
pub fn words_of<'a>(alloc: Global, list: &'a Separated<Word>) -> Result<Vec<&'a Word>, AllocError>
    ensures { IfOk result (λ words. words_view words.items
        ≡ parts_of (several_view word_view list.now)) }
{
    let mut words = Vec::new(alloc);
    words.push(&list.first)?;
    for part in &list.more {
        words.push(&part.1)?;
    }
    Ok(words)
}

/// The words of a list in parentheses, in the order of the text.
pub fn listed_words<'a>(alloc: Global, list: &'a Listed<Word>) -> Result<Vec<&'a Word>, AllocError>
    ensures { IfOk result (λ words. words_view words.items
        ≡ listed_parts (listed_view word_view list.now)) }
{
    match &list.parts {
        None => Ok(Vec::new(alloc)),
        Some(parts) => words_of(alloc, parts),
    }
}

/// The guards of a list, in the order of the text.
pub fn atoms_of<'a>(
    alloc: Global,
    list: &'a Separated<GuardAtom>,
) -> Result<Vec<&'a GuardAtom>, AllocError>
    ensures { IfOk result (λ atoms. guards_view atoms.items
        ≡ parts_of (several_view guard_view list.now)) }
{
    let mut atoms = Vec::new(alloc);
    atoms.push(&list.first)?;
    for part in &list.more {
        atoms.push(&part.1)?;
    }
    Ok(atoms)
}

fn comparisons_in<'a>(
    alloc: Global,
    list: &'a Separated<Comparison>,
) -> Result<Vec<&'a Comparison>, AllocError>
    ensures { IfOk result (λ comparisons. comparisons_view comparisons.items
        ≡ parts_of (several_view comparison_view list.now)) }
{
    let mut comparisons = Vec::new(alloc);
    comparisons.push(&list.first)?;
    for part in &list.more {
        comparisons.push(&part.1)?;
    }
    Ok(comparisons)
}

/// The comparisons behind `when`; without it there are none.
pub fn comparisons_of<'a>(
    alloc: Global,
    when: &'a Option<When>,
) -> Result<Vec<&'a Comparison>, AllocError>
    ensures { IfOk result (λ comparisons. comparisons_view comparisons.items
        ≡ when_comparisons (option_map when_view when.now)) }
{
    match when {
        None => Ok(Vec::new(alloc)),
        Some(when) => comparisons_in(alloc, &when.comparisons),
    }
}

/// Puts the terms of a list in parentheses behind the terms.
pub(crate) fn push_listed_terms<'a>(
    terms: &mut Vec<&'a Term>,
    list: &'a Listed<Term>,
) -> Result<(), AllocError>
    ensures { OnOk result (terms_view terms.new.items
        ≡ terms_view terms.old.items ++ listed_parts (listed_view term_view list.now)) }
{
    if let Some(parts) = &list.parts {
        terms.push(&parts.first)?;
        for part in &parts.more {
            terms.push(&part.1)?;
        }
    }
    Ok(())
}

/// How many terms a list in parentheses has.
pub fn listed_count(list: &Listed<Term>) -> usize
    ensures { result ≡ length (listed_parts (listed_view term_view list.now)) }
{
    match &list.parts {
        None => 0,
        Some(parts) => 1 + parts.more.as_slice().len(),
    }
}

/// How many words a list in parentheses has.
pub fn listed_word_count(list: &Listed<Word>) -> usize
    ensures { result ≡ length (listed_parts (listed_view word_view list.now)) }
{
    match &list.parts {
        None => 0,
        Some(parts) => 1 + parts.more.as_slice().len(),
    }
}

/// How many words a list has.
pub fn word_count(list: &Separated<Word>) -> usize
    ensures { result ≡ length (parts_of (several_view word_view list.now)) }
{
    1 + list.more.as_slice().len()
}
