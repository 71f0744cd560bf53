//! What is wrong in names: unknown, repeated, reserved, or too many.
ghost use Rattle.std.specs.Prelude.{◌≡◌, fold, map, filter, not, OnOk, codes};
ghost use Rattle.cap_syntax.specs.declared.place.Place.{Place as PlaceOfText};
ghost use Rattle.cap_resolve_spec.specs.Finding.{note, twice_word, unknown_word};
ghost use Rattle.cap_resolve_spec.specs.Names.{repeated, is_ret as is_result, word_place};
ghost use Rattle.cap_resolve_spec.specs.Names.{past as past_count, past_variables, is_past};
ghost use Rattle.cap_resolve_spec.specs.Names.{parameters_findings, knows};
ghost use Rattle.cap_resolve_spec.specs.Functions.{unknown_in};
ghost use Rattle.cap_resolve_spec.specs.Items.{ret_findings, occurrence_words};
ghost use Rattle.cap_resolve_terms.specs.Views.{noted_view, limit_view};
ghost use Rattle.cap_resolve_parts.specs.Views.{words_view};
ghost use Rattle.cap_resolve_tables.specs.Views.{occurrences_view};

use cap_lin::Sort;
use cap_parse_tree::Word;
use cap_resolve_tables::Occurrence;
use cap_resolve_terms::{Cause, Known, Limit, Noted, Scope, is_earlier};
use cap_syntax::Place;
use std::alloc::{AllocError, Global};

/// Notes the names as unknown.
pub fn note_unknown<'a>(noted: &mut Noted<'a>, names: &[Occurrence<'a>])
    ensures { noted_view noted.new ≡ fold note (noted_view noted.old)
        (map unknown_word (occurrence_words (occurrences_view names.now))) }
{
    for name in names {
        let cause = Cause::Unknown(name.word.text.as_bytes());
        noted.note_if(true, name.word.place, cause);
    }
}

/// Notes the words that the scope does not know.
pub(crate) fn note_unknown_in<'a>(noted: &mut Noted<'a>, scope: &Scope<'_>, words: &[&'a Word])
    ensures { noted_view noted.new ≡ fold note (noted_view noted.old)
        (unknown_in scope.now (words_view words.now)) }
{
    for word in words {
        let name = word.text.as_bytes();
        noted.note_if(!scope.knows(name), word.place, Cause::Unknown(name));
    }
}

/// Notes each word whose name one before it has.
pub fn note_repeated<'a>(
    noted: &mut Noted<'a>,
    alloc: Global,
    words: &[&'a Word],
) -> Result<(), AllocError>
    ensures { OnOk result (noted_view noted.new ≡ fold note (noted_view noted.old)
        (map twice_word (repeated (words_view words.now)))) }
{
    let mut seen = Scope::new(alloc);
    for word in words {
        let name = word.text.as_bytes();
        noted.note_if(seen.knows(name), word.place, Cause::Twice(name));
        seen.push(Some(Known {
            name,
            sort: Sort::Int,
        }))?;
    }
    Ok(())
}

pub(crate) fn is_ret(name: &[u8]) -> bool
    ensures { result ≡ is_result name.now }
{
    name == b"ret".as_slice()
}

/// Notes the words that are `ret`.
pub(crate) fn note_ret_words<'a>(noted: &mut Noted<'a>, words: &[&'a Word])
    ensures { noted_view noted.new ≡ fold note (noted_view noted.old)
        (map twice_word (filter (λ w. is_result w.text) (words_view words.now))) }
{
    for word in words {
        let name = word.text.as_bytes();
        noted.note_if(is_ret(name), word.place, Cause::Twice(name));
    }
}

/// Notes the new names that are `ret`.
pub fn note_ret<'a>(noted: &mut Noted<'a>, names: &[Occurrence<'a>])
    ensures { noted_view noted.new ≡ fold note (noted_view noted.old)
        (ret_findings (occurrences_view names.now)) }
{
    for name in names {
        let text = name.word.text.as_bytes();
        noted.note_if(is_ret(text), name.word.place, Cause::Twice(text));
    }
}

/// Notes the word that passes a limit on their number.
pub fn note_past(noted: &mut Noted<'_>, most: usize, limit: Limit, words: &[&Word])
    ensures { noted_view noted.new ≡ fold note (noted_view noted.old)
        (past_count most (limit_view limit) (words_view words.now)) }
{
    match words.get(most) {
        Some(word) => noted.note_if(true, word.place, Cause::Limit(limit)),
        None => {}
    }
}

/// Notes what is wrong in the names of parameters.
pub fn note_parameters<'a>(
    noted: &mut Noted<'a>,
    alloc: Global,
    words: &[&'a Word],
) -> Result<(), AllocError>
    ensures { OnOk result (noted_view noted.new ≡ fold note (noted_view noted.old)
        (parameters_findings (words_view words.now))) }
{
    note_repeated(noted, alloc, words)?;
    note_ret_words(noted, words);
    note_past(noted, 16, Limit::Parameters, words);
    Ok(())
}

/// More than 64 of the places are this one or come before it.
fn passes(places: &[Place], place: Place) -> bool
    ensures { result ≡ is_past places.now place }
{
    let mut count = 0u32;
    for other in places {
        if count > 64 {
            return true;
        }
        if !is_earlier(place, *other) {
            count += 1;
        }
    }
    count > 64
}

/// Notes where names that are counted together, of which these are the places, pass the limit.
pub(crate) fn note_variables(noted: &mut Noted<'_>, places: &[Place])
    ensures { noted_view noted.new ≡ fold note (noted_view noted.old)
        (past_variables places.now) }
{
    for place in places {
        let past = passes(places, *place);
        noted.note_if(past, *place, Cause::Limit(Limit::Variables));
    }
}
