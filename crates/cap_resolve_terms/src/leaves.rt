//! Whether a factor is a multiplier, and names that are multiplied by names.
ghost use Rattle.std.specs.Prelude.{◌≡◌, fold};
ghost use Rattle.std.specs.List.{list_any, list_all};
ghost use Rattle.cap_parse_tree.specs.Views.{factor_view, product_view, term_view};
ghost use Rattle.cap_resolve_spec.specs.Finding.{note};
ghost use Rattle.cap_resolve_spec.specs.Parts.{is_multiplier as multiplies, holds_name as names_in};
ghost use Rattle.cap_resolve_spec.specs.Parts.{is_name, is_number, product_leaves, term_leaves};
ghost use Rattle.cap_resolve_spec.specs.Parts.{factor_place as place_of};
ghost use Rattle.cap_resolve_spec.specs.Terms.{names_multiplied};
ghost use Rattle.cap_resolve_terms.specs.Views.{noted_view};

use crate::finding::{Cause, Noted};
use cap_parse_tree::{Factor, Product, Term};

/// Neither a name nor `1p` stands in the factor.
#[cycle(multiplier)]
#[tactic(auto, using(crate::proofs::Tests::leaves))]
pub(crate) fn is_multiplier(factor: &Factor) -> bool
    ensures { result ≡ multiplies (factor_view factor.now) }
{
    match factor {
        Factor::Number(_) => true,
        Factor::WholeShare(_) | Factor::Name(_) => false,
        Factor::Bracketed(_, term, _) => is_number_term(term),
    }
}

#[cycle(multiplier)]
#[tactic(auto, using(crate::proofs::Tests::leaves))]
fn is_product_of_numbers(product: &Product) -> bool
    ensures { result ≡ list_all is_number (product_leaves (product_view product.now)) }
{
    let mut all = is_multiplier(&product.first);
    for times in &product.more {
        let this = is_multiplier(&times.factor);
        all = all && this;
    }
    all
}

#[cycle(multiplier)]
#[tactic(auto, using(crate::proofs::Tests::leaves))]
fn is_number_term(term: &Term) -> bool
    ensures { result ≡ list_all is_number (term_leaves (term_view term.now)) }
{
    let mut all = is_product_of_numbers(&term.first);
    for addend in &term.more {
        let this = is_product_of_numbers(&addend.product);
        all = all && this;
    }
    all
}

#[cycle(names)]
#[tactic(auto, using(crate::proofs::Tests::leaves))]
pub(crate) fn holds_name(factor: &Factor) -> bool
    ensures { result ≡ names_in (factor_view factor.now) }
{
    match factor {
        Factor::Number(_) | Factor::WholeShare(_) => false,
        Factor::Name(_) => true,
        Factor::Bracketed(_, term, _) => term_holds_name(term),
    }
}

#[cycle(names)]
#[tactic(auto, using(crate::proofs::Tests::leaves))]
fn product_holds_name(product: &Product) -> bool
    ensures { result ≡ list_any is_name (product_leaves (product_view product.now)) }
{
    let mut any = holds_name(&product.first);
    for times in &product.more {
        let this = holds_name(&times.factor);
        any = any || this;
    }
    any
}

#[cycle(names)]
#[tactic(auto, using(crate::proofs::Tests::leaves))]
fn term_holds_name(term: &Term) -> bool
    ensures { result ≡ list_any is_name (term_leaves (term_view term.now)) }
{
    let mut any = product_holds_name(&term.first);
    for addend in &term.more {
        let this = product_holds_name(&addend.product);
        any = any || this;
    }
    any
}

/// Notes each `*` before a factor that holds a name, where one before it in the product holds one.
pub fn note_names_multiplied(noted: &mut Noted<'_>, product: &Product)
    ensures { noted_view noted.new
        ≡ fold note (noted_view noted.old) (names_multiplied (product_view product.now)) }
{
    let mut earlier = holds_name(&product.first);
    for times in &product.more {
        let holds = holds_name(&times.factor);
        noted.note_if(earlier && holds, times.star, Cause::NonLinear);
        earlier = earlier || holds;
    }
}
