//! Sorts of terms, and what is wrong in their products.
ghost use Rattle.std.specs.Prelude.{◌≡◌, fold, flat_map, get_or};
ghost use Rattle.cap_parse_tree.specs.Views.{factor_view, product_view, term_view};
ghost use Rattle.cap_resolve_spec.specs.Finding.{note};
ghost use Rattle.cap_resolve_spec.specs.Parts.{factor_place as place_of, first_factor as first_of};
ghost use Rattle.cap_resolve_spec.specs.Parts.{factor_brackets, product_brackets, term_brackets};
ghost use Rattle.cap_resolve_spec.specs.Terms.{factor_sort as sort_of_factor};
ghost use Rattle.cap_resolve_spec.specs.Terms.{product_sort as sort_of_mono, term_sort as sort_of_term};
ghost use Rattle.cap_resolve_spec.specs.Terms.{clash as clashes, main_factors, wrong_product};
ghost use Rattle.cap_resolve_spec.specs.Terms.{wrong_second, product_findings, products_findings};
ghost use Rattle.cap_resolve_terms.specs.Views.{noted_view};
ghost use Rattle.cap_resolve_terms.specs.Brackets.{brackets_findings};

use crate::finding::{Cause, Noted};
use crate::leaves::{holds_name, is_multiplier, note_names_multiplied};
use crate::scope::Scope;
use cap_lin::Sort;
use cap_parse_tree::{Factor, Product, Term};
use cap_syntax::Place;

#[cycle(sort)]
fn factor_sort(scope: &Scope<'_>, factor: &Factor) -> Option<Sort>
    ensures { result ≡ sort_of_factor scope.now (factor_view factor.now) }
{
    match factor {
        Factor::Number(_) => Some(Sort::Int),
        Factor::WholeShare(_) => Some(Sort::Perm),
        Factor::Name(word) => scope.sort(word.text.as_bytes()),
        Factor::Bracketed(_, term, _) => term_sort(scope, term),
    }
}

/// The sort of the first factor that is no multiplier.
#[cycle(sort)]
fn product_sort(scope: &Scope<'_>, product: &Product) -> Option<Sort>
    ensures { result ≡ sort_of_mono scope.now (product_view product.now) }
{
    if !is_multiplier(&product.first) {
        return factor_sort(scope, &product.first);
    }
    for times in &product.more {
        if !is_multiplier(&times.factor) {
            return factor_sort(scope, &times.factor);
        }
    }
    Some(Sort::Int)
}

/// The sort of the first product.
#[cycle(sort)]
pub fn term_sort(scope: &Scope<'_>, term: &Term) -> Option<Sort>
    ensures { result ≡ sort_of_term scope.now (term_view term.now) }
{
    product_sort(scope, &term.first)
}

fn clash(wanted: Option<Sort>, found: Option<Sort>) -> bool
    ensures { result ≡ clashes wanted found }
{
    match (wanted, found) {
        (Some(Sort::Int), Some(Sort::Perm)) => true,
        (Some(Sort::Perm), Some(Sort::Int)) => true,
        _ => false,
    }
}

fn factor_place(factor: &Factor) -> Place
    ensures { result ≡ place_of (factor_view factor.now) }
{
    match factor {
        Factor::Number(literal) => literal.place,
        Factor::WholeShare(place) => *place,
        Factor::Name(word) => word.place,
        Factor::Bracketed(place, _, _) => *place,
    }
}

/// The place of the first factor that is no multiplier, else of the first.
fn judged_place(product: &Product) -> Place
    ensures { result ≡ place_of
        (get_or (main_factors (product_view product.now)) 0 (first_of (product_view product.now))) }
{
    if !is_multiplier(&product.first) {
        return factor_place(&product.first);
    }
    for times in &product.more {
        if !is_multiplier(&times.factor) {
            return factor_place(&times.factor);
        }
    }
    factor_place(&product.first)
}

/// Notes a second factor that is no multiplier, unless it and the first hold names.
fn note_second(noted: &mut Noted<'_>, product: &Product)
    ensures { noted_view noted.new
        ≡ fold note (noted_view noted.old)
        (wrong_second (main_factors (product_view product.now))) }
{
    let mut first = None;
    if !is_multiplier(&product.first) {
        first = Some(holds_name(&product.first));
    }
    for times in &product.more {
        if !is_multiplier(&times.factor) {
            let holds = holds_name(&times.factor);
            match first {
                Some(named) => {
                    noted.note_if(!(named && holds), factor_place(&times.factor), Cause::Sort);
                    return;
                }
                None => first = Some(holds),
            }
        }
    }
}

fn note_product(noted: &mut Noted<'_>, scope: &Scope<'_>, wanted: Option<Sort>, product: &Product)
    ensures { noted_view noted.new
        ≡ fold note (noted_view noted.old)
        (product_findings scope.now wanted (product_view product.now)) }
{
    let wrong = clash(wanted, product_sort(scope, product));
    noted.note_if(wrong, judged_place(product), Cause::Sort);
    note_second(noted, product);
    note_names_multiplied(noted, product);
}

/// Notes what is wrong in the products of a term, which are wanted of this sort.
pub fn note_products_of(noted: &mut Noted<'_>, scope: &Scope<'_>, wanted: Option<Sort>, term: &Term)
    ensures { noted_view noted.new ≡ fold note (noted_view noted.old)
        (products_findings scope.now wanted (term_view term.now)) }
{
    note_product(noted, scope, wanted, &term.first);
    for addend in &term.more {
        note_product(noted, scope, wanted, &addend.product);
    }
}

/// Notes what is wrong in the brackets of a factor.
#[cycle(inner)]
fn note_factor_brackets(noted: &mut Noted<'_>, scope: &Scope<'_>, factor: &Factor)
    ensures { noted_view noted.new ≡ fold note (noted_view noted.old)
        (brackets_findings scope.now (factor_brackets (factor_view factor.now))) }
{
    match factor {
        Factor::Number(_) | Factor::WholeShare(_) | Factor::Name(_) => {}
        Factor::Bracketed(_, term, _) => {
            note_products_of(noted, scope, term_sort(scope, term), term);
            note_brackets(noted, scope, term);
        }
    }
}

#[cycle(inner)]
fn note_product_brackets(noted: &mut Noted<'_>, scope: &Scope<'_>, product: &Product)
    ensures { noted_view noted.new ≡ fold note (noted_view noted.old)
        (brackets_findings scope.now (product_brackets (product_view product.now))) }
{
    note_factor_brackets(noted, scope, &product.first);
    for times in &product.more {
        note_factor_brackets(noted, scope, &times.factor);
    }
}

/// Notes what is wrong in the brackets of a term.
#[cycle(inner)]
pub fn note_brackets(noted: &mut Noted<'_>, scope: &Scope<'_>, term: &Term)
    ensures { noted_view noted.new ≡ fold note (noted_view noted.old)
        (brackets_findings scope.now (term_brackets (term_view term.now))) }
{
    note_product_brackets(noted, scope, &term.first);
    for addend in &term.more {
        note_product_brackets(noted, scope, &addend.product);
    }
}
