//! Lists of sorts and of texts, and the names of a region type's guards.
ghost use Rattle.std.specs.Prelude.{◌≡◌, ◌++◌, IfOk, OnOk, map, flat_map};
ghost use Rattle.cap_parse_tree.specs.Views.{region_view, declared_view};
ghost use Rattle.cap_resolve_spec.specs.Names.{word_text};
ghost use Rattle.cap_resolve_spec.specs.Items.{guard_words};
ghost use Rattle.cap_resolve_spec.specs.Regions.{guard_names};
ghost use Rattle.cap_resolve_spec.specs.Program.{occurrence_sorts};
ghost use Rattle.cap_resolve_parts.specs.Views.{words_view, declareds_view};
ghost use Rattle.cap_resolve_tables.specs.Views.{occurrences_view};

use cap_lin::Sort;
use cap_parse_tree::{Declared, Region, Word};
use cap_prog::Name;
use cap_resolve_parts::{guard_word, push_algebra};
use cap_resolve_tables::Occurrence;
use std::alloc::{AllocError, Global};

/// The sorts of names.
pub fn build_sorts(alloc: Global, names: &[Occurrence<'_>]) -> Result<Vec<Sort>, AllocError>
    ensures { IfOk result
        (λ sorts. sorts.items ≡ occurrence_sorts (occurrences_view names.now)) }
{
    let mut sorts = Vec::new(alloc);
    for name in names {
        sorts.push(name.sort)?;
    }
    Ok(sorts)
}

/// Puts copies of the texts of words behind the names.
pub(crate) fn push_texts(names: &mut Vec<Name>, words: &[&Word]) -> Result<(), AllocError>
    ensures { OnOk result
        (names.new.items ≡ names.old.items ++ map word_text (words_view words.now)) }
{
    for word in words {
        names.push(word.text.copy()?)?;
    }
    Ok(())
}

fn push_guard(names: &mut Vec<Name>, guard: &Declared) -> Result<(), AllocError>
    ensures { OnOk result (names.new.items
        ≡ names.old.items ++ map word_text (guard_words (declared_view guard.now))) }
{
    match guard_word(guard) {
        None => Ok(()),
        Some(word) => {
            names.push(word.text.copy()?)?;
            Ok(())
        }
    }
}

fn guard_texts(alloc: Global, guards: &[&Declared]) -> Result<Vec<Name>, AllocError>
    ensures { IfOk result (λ names. names.items
        ≡ map word_text (flat_map guard_words (declareds_view guards.now))) }
{
    let mut names = Vec::new(alloc);
    for guard in guards {
        push_guard(&mut names, guard)?;
    }
    Ok(names)
}

/// The names of the guards of a region type.
pub fn build_guard_names(alloc: Global, region: &Region) -> Result<Vec<Name>, AllocError>
    ensures { IfOk result
        (λ names. names.items ≡ map word_text (guard_names (region_view region.now))) }
{
    let mut guards = Vec::new(alloc);
    push_algebra(&mut guards, &region.algebra)?;
    guard_texts(alloc, guards.as_slice())
}
