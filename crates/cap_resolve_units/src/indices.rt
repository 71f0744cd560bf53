//! What is wrong in the indices of an action's guards.
ghost use Rattle.std.specs.Prelude.{◌≡◌, fold, map, filter, flat_map, OnOk};
ghost use Rattle.cap_parse_tree.specs.Views.{guard_view, slot_view};
ghost use Rattle.cap_resolve_spec.specs.Finding.{note, unknown_word};
ghost use Rattle.cap_resolve_spec.specs.Parts.{is_word as named};
ghost use Rattle.cap_resolve_spec.specs.Regions.{is_lost as lost, index_findings, indices_findings};
ghost use Rattle.cap_resolve_terms.specs.Views.{noted_view};
ghost use Rattle.cap_resolve_parts.specs.Views.{guards_view, words_view, word_seen};

use cap_parse_tree::{Counted, GuardAtom, Slot, Word};
use cap_resolve_parts::push_term_words;
use cap_resolve_terms::{Cause, Noted, Scope};
use std::alloc::{AllocError, Global};

fn is_word(name: &[u8], word: Option<&Word>) -> bool
    ensures { result ≡ named name.now (word_seen word.entry) }
{
    match word {
        None => false,
        Some(word) => name == word.text.as_bytes(),
    }
}

/// The name is neither known nor the whole source or the whole target.
fn is_lost(scope: &Scope<'_>, source: Option<&Word>, target: Option<&Word>, word: &Word) -> bool
    ensures { result ≡ lost scope.now (word_seen source.entry) (word_seen target.entry) word.now }
{
    let name = word.text.as_bytes();
    !scope.knows(name) && !(is_word(name, source) || is_word(name, target))
}

fn note_lost<'a>(
    noted: &mut Noted<'a>,
    scope: &Scope<'_>,
    source: Option<&Word>,
    target: Option<&Word>,
    words: &[&'a Word],
)
    ensures { noted_view noted.new ≡ fold note (noted_view noted.old)
        (map unknown_word (filter (lost scope.now (word_seen source.entry)
        (word_seen target.entry)) (words_view words.now))) }
{
    for word in words {
        let wrong = is_lost(scope, source, target, word);
        noted.note_if(wrong, word.place, Cause::Unknown(word.text.as_bytes()));
    }
}

fn note_index<'a>(
    noted: &mut Noted<'a>,
    alloc: Global,
    scope: &Scope<'_>,
    source: Option<&Word>,
    target: Option<&Word>,
    guard: &Word,
    slot: &'a Slot,
) -> Result<(), AllocError>
    ensures { OnOk result (noted_view noted.new ≡ fold note (noted_view noted.old)
        (index_findings scope.now (word_seen source.entry) (word_seen target.entry) guard.now
        (slot_view slot.now))) }
{
    match slot {
        Slot::Any(_) => {
            noted.note_if(true, guard.place, Cause::Sort);
            Ok(())
        }
        Slot::Is(term) => {
            let mut words = Vec::new(alloc);
            push_term_words(&mut words, term)?;
            note_lost(noted, scope, source, target, words.as_slice());
            Ok(())
        }
    }
}

fn note_atom<'a>(
    noted: &mut Noted<'a>,
    alloc: Global,
    scope: &Scope<'_>,
    source: Option<&Word>,
    target: Option<&Word>,
    atom: &'a GuardAtom,
) -> Result<(), AllocError>
    ensures { OnOk result (noted_view noted.new ≡ fold note (noted_view noted.old)
        (indices_findings scope.now (word_seen source.entry) (word_seen target.entry)
        (guard_view atom.now))) }
{
    match atom {
        GuardAtom::Alone(_) | GuardAtom::Amount(_, _, _, _) => Ok(()),
        GuardAtom::Count(Counted::Source, _, _, _, _, _)
        | GuardAtom::Count(Counted::Tokens, _, _, _, _, _) => Ok(()),
        GuardAtom::Count(Counted::At, _, guard, _, slot, _)
        | GuardAtom::Count(Counted::From, _, guard, _, slot, _) => {
            note_index(noted, alloc, scope, source, target, guard, slot)
        }
    }
}

/// Notes what is wrong in the indices of an action's guards, where the scope is that of the
/// parameters, and these are the names that are the whole source and the whole target.
pub(crate) fn note_indices<'a>(
    noted: &mut Noted<'a>,
    alloc: Global,
    scope: &Scope<'_>,
    source: Option<&Word>,
    target: Option<&Word>,
    atoms: &[&'a GuardAtom],
) -> Result<(), AllocError>
    ensures { OnOk result (noted_view noted.new ≡ fold note (noted_view noted.old)
        (flat_map (indices_findings scope.now (word_seen source.entry) (word_seen target.entry))
        (guards_view atoms.now))) }
{
    for atom in atoms {
        note_atom(noted, alloc, scope, source, target, atom)?;
    }
    Ok(())
}
