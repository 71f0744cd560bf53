//! Linear forms, alone and in lists.
ghost use Rattle.std.specs.Prelude.{◌≡◌, IfOk, map};
ghost use Rattle.cap_parse_tree.specs.Tree.{parts_of, listed_parts};
ghost use Rattle.cap_parse_tree.specs.Views.{term_view, several_view, listed_view};
ghost use Rattle.cap_resolve_spec.specs.Linear.{term_form};
ghost use Rattle.cap_resolve_functions.specs.Narrow.{IsNarrow, AreNarrow};

use cap_lin::{LinError, Term as Linear};
use cap_parse_tree::{Listed, Separated, Term};
use cap_resolve_forms::linear;
use cap_resolve_terms::Scope;
use std::alloc::{AllocError, Global};

/// The linear form of a term, on the way to which no result leaves 128 bits.
pub fn build_term(alloc: Global, scope: &Scope<'_>, term: &Term) -> Result<Linear, AllocError>
    requires { IsNarrow scope.now (term_view term.now) }
    ensures { IfOk result (λ form. form ≡ term_form scope.now (term_view term.now)) }
{
    match linear(alloc, scope, term) {
        Ok(form) => Ok(form),
        Err(LinError::OutOfMemory) => Err(AllocError),
        Err(LinError::Wide(_, _)) => unreachable!(),
    }
}

fn terms_in(
    alloc: Global,
    scope: &Scope<'_>,
    list: &Separated<Term>,
) -> Result<Vec<Linear>, AllocError>
    requires { AreNarrow scope.now (parts_of (several_view term_view list.now)) }
    ensures { IfOk result (λ forms. forms.items
        ≡ map (term_form scope.now) (parts_of (several_view term_view list.now))) }
{
    let mut forms = Vec::new(alloc);
    forms.push(build_term(alloc, scope, &list.first)?)?;
    for part in &list.more {
        forms.push(build_term(alloc, scope, &part.1)?)?;
    }
    Ok(forms)
}

/// The linear forms of the terms of a list in parentheses.
pub(crate) fn build_terms(
    alloc: Global,
    scope: &Scope<'_>,
    list: &Listed<Term>,
) -> Result<Vec<Linear>, AllocError>
    requires { AreNarrow scope.now (listed_parts (listed_view term_view list.now)) }
    ensures { IfOk result (λ forms. forms.items
        ≡ map (term_form scope.now) (listed_parts (listed_view term_view list.now))) }
{
    match &list.parts {
        None => Ok(Vec::new(alloc)),
        Some(parts) => terms_in(alloc, scope, parts),
    }
}
