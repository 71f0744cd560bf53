//! Assertions, and the sorts of their new names.
ghost use Rattle.std.specs.Prelude.{◌≡◌, IfOk, option_map};
ghost use Rattle.cap_prog.specs.Views.{assertion_view};
ghost use Rattle.cap_parse_tree.specs.Views.{clause_view};
ghost use Rattle.cap_resolve_spec.specs.Program.{clause_program, new_assertion};
ghost use Rattle.cap_resolve_parts.specs.Views.{clause_seen, parts_view};
ghost use Rattle.cap_resolve_spec.specs.Parts.{clause_parts};
ghost use Rattle.cap_resolve_spec.specs.Items.{types_told as types_in};
ghost use Rattle.cap_resolve_tables.specs.Tables.{regions_of, types_of, typed_names};
ghost use Rattle.cap_resolve_functions.specs.Views.{items_seen};
ghost use Rattle.cap_resolve_functions.specs.Bodies.{context_seen};
ghost use Rattle.cap_resolve_functions.specs.Narrow.{IsNarrowClause, IsNarrowNew};

use crate::bodies::Body;
use crate::items::push_items;
use crate::lists::build_sorts;
use crate::reading::Reading;
use cap_lin::Sort;
use cap_parse_tree::Clause;
use cap_prog::{Assertion, Item};
use cap_resolve_parts::{Placed, items_of_clause};
use cap_resolve_scopes::{new_in, scope_with};
use cap_resolve_tables::{TypedNames, Types, bound_names, types_told};
use cap_resolve_terms::Scope;
use std::alloc::{AllocError, Global};

/// A clause that may be absent.
pub(crate) fn clause_of(clause: &Option<Clause>) -> Option<&Clause>
    ensures { clause_seen result ≡ option_map clause_view clause.now }
{
    match clause {
        None => None,
        Some(clause) => Some(clause),
    }
}

fn items_of(
    alloc: Global,
    reading: &Reading<'_, '_, '_>,
    clause: Option<&Clause>,
) -> Result<Vec<Item>, AllocError>
    requires { IsNarrowClause reading.now.scope.now (clause_seen clause) }
    ensures { IfOk result (λ items. items_seen items.items
        ≡ clause_program (regions_of reading.now.regions.now) (types_of reading.now.types)
        reading.now.scope.now (clause_seen clause.entry)) }
{
    let mut items = Vec::new(alloc);
    match clause {
        None => Ok(items),
        Some(clause) => {
            push_items(alloc, &clause.assertion, reading, &mut items)?;
            Ok(items)
        }
    }
}

/// An assertion with the sorts of its new names; an absent one is `true`.
pub(crate) fn build_assertion(
    alloc: Global,
    reading: &Reading<'_, '_, '_>,
    names: Vec<Sort>,
    clause: Option<&Clause>,
) -> Result<Assertion, AllocError>
    requires { IsNarrowClause reading.now.scope.now (clause_seen clause) }
    ensures { IfOk result (λ a. assertion_view a ≡ record {
      names = names.items;
      items = clause_program (regions_of reading.now.regions.now) (types_of reading.now.types)
          reading.now.scope.now (clause_seen clause.entry);
    }) }
{
    let items = items_of(alloc, reading, clause)?;
    Ok(Assertion { names, items })
}

/// `ensures` or an invariant, where these names are known.
pub(crate) fn build_new<'a>(
    alloc: Global,
    body: &Body<'_, '_, 'a>,
    known: &Scope<'a>,
    clause: Option<&'a Clause>,
) -> Result<Assertion, AllocError>
    requires { IsNarrowNew (context_seen body.now) known.now (clause_seen clause) }
    ensures { IfOk result (λ a. assertion_view a
        ≡ new_assertion (context_seen body.now) known.now (clause_seen clause.entry)) }
{
    let parts = items_of_clause(alloc, clause)?;
    let told = types_told(alloc, body.regions, None, parts.as_slice())?;
    let types = Types {
        outer: Some(body.types),
        own: &told,
    };
    let new = new_in(alloc, known, types, parts.as_slice())?;
    let bound = bound_names(alloc, new.as_slice())?;
    let scope = scope_with(alloc, known, bound.as_slice())?;
    let names = build_sorts(alloc, bound.as_slice())?;
    let reading = Reading {
        regions: body.regions,
        types,
        scope: &scope,
    };
    build_assertion(alloc, &reading, names, clause)
}
