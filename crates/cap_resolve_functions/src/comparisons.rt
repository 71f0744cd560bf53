//! Comparisons, with their places.
ghost use Rattle.std.specs.Prelude.{◌≡◌, IfOk, map, option_map};
ghost use Rattle.std.specs.List.{AllByRecursion};
ghost use Rattle.cap_parse_tree.specs.Tree.{parts_of};
ghost use Rattle.cap_parse_tree.specs.Views.{comparison_view, several_view, when_view};
ghost use Rattle.cap_resolve_spec.specs.Parts.{when_comparisons};
ghost use Rattle.cap_resolve_spec.specs.Program.{relation_op, sort_or_int, comparison_program};
ghost use Rattle.cap_resolve_functions.specs.Narrow.{IsNarrowComparison};

use crate::terms::build_term;
use cap_lin::{Op, Sort};
use cap_parse_tree::{Comparison, Relation, Separated, When};
use cap_prog::Comp;
use cap_resolve_parts::term_place;
use cap_resolve_terms::{Scope, term_sort};
use std::alloc::{AllocError, Global};

fn op(relation: Relation) -> Op
    ensures { result ≡ relation_op relation }
{
    match relation {
        Relation::Equal => Op::Eq,
        Relation::Unequal => Op::Ne,
        Relation::Less => Op::Lt,
        Relation::AtMost => Op::Le,
        Relation::Greater => Op::Gt,
        Relation::AtLeast => Op::Ge,
    }
}

fn sort_or_whole(sort: Option<Sort>) -> Sort
    ensures { result ≡ sort_or_int sort }
{
    match sort {
        None => Sort::Int,
        Some(sort) => sort,
    }
}

/// A comparison of linear forms. It has the sort of its left side, and its place.
pub(crate) fn build_comparison(
    alloc: Global,
    scope: &Scope<'_>,
    comparison: &Comparison,
) -> Result<Comp, AllocError>
    requires { IsNarrowComparison scope.now (comparison_view comparison.now) }
    ensures { IfOk result
        (λ c. c ≡ comparison_program scope.now (comparison_view comparison.now)) }
{
    let left = build_term(alloc, scope, &comparison.left)?;
    let right = build_term(alloc, scope, &comparison.right)?;
    Ok(Comp {
        left,
        op: op(comparison.relation),
        right,
        sort: sort_or_whole(term_sort(scope, &comparison.left)),
        place: term_place(&comparison.left),
    })
}

fn comparisons_in(
    alloc: Global,
    scope: &Scope<'_>,
    list: &Separated<Comparison>,
) -> Result<Vec<Comp>, AllocError>
    requires { AllByRecursion (IsNarrowComparison scope.now)
        (parts_of (several_view comparison_view list.now)) }
    ensures { IfOk result (λ made. made.items
        ≡ map (comparison_program scope.now) (parts_of (several_view comparison_view list.now))) }
{
    let mut made = Vec::new(alloc);
    made.push(build_comparison(alloc, scope, &list.first)?)?;
    for part in &list.more {
        made.push(build_comparison(alloc, scope, &part.1)?)?;
    }
    Ok(made)
}

/// The comparisons behind `when`; without it there are none.
pub fn build_comparisons(
    alloc: Global,
    scope: &Scope<'_>,
    when: &Option<When>,
) -> Result<Vec<Comp>, AllocError>
    requires { AllByRecursion (IsNarrowComparison scope.now)
        (when_comparisons (option_map when_view when.now)) }
    ensures { IfOk result (λ made. made.items ≡ map (comparison_program scope.now)
        (when_comparisons (option_map when_view when.now))) }
{
    match when {
        None => Ok(Vec::new(alloc)),
        Some(when) => comparisons_in(alloc, scope, &when.comparisons),
    }
}
