//! Where names occur in an assertion, and which of them are new.
ghost use Rattle.std.specs.Prelude.{◌≡◌, ◌++◌, ◌&&◌, map, filter, not, is_some, IfOk, OnOk};
ghost use Rattle.cap_parse_tree.specs.Views.{term_view, slot_view};
ghost use Rattle.cap_resolve_spec.specs.Parts.{term_words};
ghost use Rattle.cap_resolve_spec.specs.Items.{occurs, unbound, slot_occurrences, is_bound, scope_of};
ghost use Rattle.cap_resolve_spec.specs.Items.{new_names as names_that_are_new};
ghost use Rattle.cap_resolve_spec.specs.Items.{name_of};
ghost use Rattle.cap_resolve_spec.specs.Names.{with_first};
ghost use Rattle.cap_resolve_parts.specs.Views.{words_view};
ghost use Rattle.cap_resolve_tables.specs.Views.{occurrence_view, occurrences_view, with_new};

use cap_lin::Sort;
use cap_parse_tree::{Slot, Term, Word};
use cap_resolve_parts::{push_term_words, whole_name};
use cap_resolve_terms::{Known, Scope};
use std::alloc::{AllocError, Global};

/// A name where it occurs, whether it is bound there, and the sort that it has there.
#[derive(Clone, Copy)]
pub struct Occurrence<'a> {
    pub word: &'a Word,
    pub bound: bool,
    pub sort: Sort,
}

fn push_words<'a>(
    list: &mut Vec<Occurrence<'a>>,
    bound: bool,
    sort: Sort,
    words: &[&'a Word],
) -> Result<(), AllocError>
    ensures { OnOk result (occurrences_view list.new.items
        ≡ occurrences_view list.old.items ++ map (occurs bound sort) (words_view words.now)) }
{
    for word in words {
        list.push(Occurrence {
            word: *word,
            bound,
            sort,
        })?;
    }
    Ok(())
}

/// Puts the names of a term behind the occurrences.
pub fn push_term<'a>(
    alloc: Global,
    list: &mut Vec<Occurrence<'a>>,
    bound: bool,
    sort: Sort,
    term: &'a Term,
) -> Result<(), AllocError>
    ensures { OnOk result (occurrences_view list.new.items
        ≡ occurrences_view list.old.items
        ++ map (occurs bound sort) (term_words (term_view term.now))) }
{
    let mut words = Vec::new(alloc);
    push_term_words(&mut words, term)?;
    push_words(list, bound, sort, words.as_slice())
}

/// Puts words behind the occurrences that are bound nowhere.
pub fn push_unbound<'a>(
    list: &mut Vec<Occurrence<'a>>,
    words: &[&'a Word],
) -> Result<(), AllocError>
    ensures { OnOk result (occurrences_view list.new.items
        ≡ occurrences_view list.old.items ++ unbound (words_view words.now)) }
{
    push_words(list, false, Sort::Int, words)
}

/// Puts the names of a slot behind the occurrences. One that is the whole slot is bound there, unless
/// the slot stands in a side of a conditional.
pub(crate) fn push_slot<'a>(
    alloc: Global,
    list: &mut Vec<Occurrence<'a>>,
    inside: bool,
    sort: Sort,
    slot: &'a Slot,
) -> Result<(), AllocError>
    ensures { OnOk result (occurrences_view list.new.items
        ≡ occurrences_view list.old.items ++ slot_occurrences inside sort (slot_view slot.now)) }
{
    match slot {
        Slot::Any(_) => Ok(()),
        Slot::Is(term) => {
            let whole = whole_name(term).is_some();
            push_term(alloc, list, whole && !inside, sort, term)
        }
    }
}

/// Puts an occurrence behind the names, where none of them has its name.
#[tactic(auto, using(crate::proofs::Firsts::firsts))]
fn add_first<'a>(
    names: &mut Vec<Occurrence<'a>>,
    seen: &mut Scope<'a>,
    occurrence: Occurrence<'a>,
) -> Result<(), AllocError>
    requires { seen.old ≡ scope_of (occurrences_view names.old.items) }
    ensures seen { OnOk result (seen.new ≡ scope_of (occurrences_view names.new.items)) }
    ensures added { OnOk result (occurrences_view names.new.items
        ≡ with_first name_of (occurrences_view names.old.items)
        (occurrence_view occurrence.entry)) }
{
    let name = occurrence.word.text.as_bytes();
    if seen.knows(name) {
        return Ok(());
    }
    names.push(occurrence)?;
    seen.push(Some(Known {
        name,
        sort: occurrence.sort,
    }))?;
    Ok(())
}

/// The same, unless the scope knows the name.
fn add_new<'a>(
    scope: &Scope<'_>,
    names: &mut Vec<Occurrence<'a>>,
    seen: &mut Scope<'a>,
    occurrence: Occurrence<'a>,
) -> Result<(), AllocError>
    requires { seen.old ≡ scope_of (occurrences_view names.old.items) }
    ensures seen { OnOk result (seen.new ≡ scope_of (occurrences_view names.new.items)) }
    ensures added { OnOk result (occurrences_view names.new.items
        ≡ with_new scope.now (occurrences_view names.old.items)
        (occurrence_view occurrence.entry)) }
{
    if scope.knows(occurrence.word.text.as_bytes()) {
        return Ok(());
    }
    add_first(names, seen, occurrence)
}

/// The first occurrence of each name that the scope does not know.
#[tactic(auto, using(crate::proofs::Firsts::new_step))]
pub fn new_names<'a>(
    alloc: Global,
    scope: &Scope<'_>,
    occurrences: &[Occurrence<'a>],
) -> Result<Vec<Occurrence<'a>>, AllocError>
    ensures { IfOk result (λ names. occurrences_view names.items
        ≡ names_that_are_new scope.now (occurrences_view occurrences.now)) }
{
    let mut names = Vec::new(alloc);
    let mut seen = Scope::new(alloc);
    for occurrence in occurrences {
        add_new(scope, &mut names, &mut seen, *occurrence)?;
    }
    Ok(names)
}

/// Those of the names that are bound where they occur first.
pub fn bound_names<'a>(
    alloc: Global,
    names: &[Occurrence<'a>],
) -> Result<Vec<Occurrence<'a>>, AllocError>
    ensures { IfOk result (λ bound. occurrences_view bound.items
        ≡ filter is_bound (occurrences_view names.now)) }
{
    let mut bound = Vec::new(alloc);
    for name in names {
        if name.bound {
            bound.push(*name)?;
        }
    }
    Ok(bound)
}

/// Appends names to a scope, with their sorts.
pub fn push_known<'a>(scope: &mut Scope<'a>, names: &[Occurrence<'a>]) -> Result<(), AllocError>
    ensures { OnOk result (scope.new ≡ scope.old ++ scope_of (occurrences_view names.now)) }
{
    for name in names {
        scope.push(Some(Known {
            name: name.word.text.as_bytes(),
            sort: name.sort,
        }))?;
    }
    Ok(())
}
