//! The names that an assertion adds to those around it.
ghost use Rattle.std.specs.Prelude.{◌≡◌, ◌++◌, IfOk, OnOk, map};
ghost use Rattle.cap_resolve_spec.specs.Items.{scope_of, occurrence_words};
ghost use Rattle.cap_resolve_spec.specs.Names.{word_place};
ghost use Rattle.cap_resolve_parts.specs.Views.{parts_view, words_view};
ghost use Rattle.cap_resolve_tables.specs.Tables.{types_of};
ghost use Rattle.cap_resolve_tables.specs.Views.{occurrences_view};
ghost use Rattle.cap_resolve_scopes.specs.Lists.{new_in as names_new_in};

use cap_parse_tree::Word;
use cap_resolve_parts::Placed;
use cap_resolve_tables::{Occurrence, Types, new_names, push_known, push_occurrences};
use cap_resolve_terms::Scope;
use cap_syntax::Place;
use std::alloc::{AllocError, Global};

/// The new names of an assertion, where the scope's names are known.
pub fn new_in<'a>(
    alloc: Global,
    scope: &Scope<'_>,
    types: Types<'_, '_, 'a>,
    parts: &[Placed<'a>],
) -> Result<Vec<Occurrence<'a>>, AllocError>
    ensures { IfOk result (λ names. occurrences_view names.items
        ≡ names_new_in scope.now (types_of types.entry) (parts_view parts.now)) }
{
    let mut list = Vec::new(alloc);
    push_occurrences(alloc, &mut list, types, parts)?;
    new_names(alloc, scope, list.as_slice())
}

/// The scope with these names behind its own.
pub fn scope_with<'a>(
    alloc: Global,
    scope: &Scope<'a>,
    names: &[Occurrence<'a>],
) -> Result<Scope<'a>, AllocError>
    ensures { IfOk result (λ s. s ≡ scope.now ++ scope_of (occurrences_view names.now)) }
{
    let mut longer = scope.copy(alloc)?;
    push_known(&mut longer, names)?;
    Ok(longer)
}

/// Puts the words of occurrences behind the words.
pub fn words_of_occurrences<'a>(
    words: &mut Vec<&'a Word>,
    names: &[Occurrence<'a>],
) -> Result<(), AllocError>
    ensures { OnOk result (words_view words.new.items
        ≡ words_view words.old.items ++ occurrence_words (occurrences_view names.now)) }
{
    for name in names {
        words.push(name.word)?;
    }
    Ok(())
}
