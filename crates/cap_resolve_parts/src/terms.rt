//! The parts of terms: their words and their places.
ghost use Rattle.std.specs.Prelude.{◌≡◌, ◌++◌, OnOk, option_map};
ghost use Rattle.cap_parse_tree.specs.Views.{factor_view, product_view, term_view, comparison_view};
ghost use Rattle.cap_resolve_spec.specs.Parts.{factor_leaves, product_leaves, term_leaves};
ghost use Rattle.cap_resolve_spec.specs.Parts.{term_words, comparison_words};
ghost use Rattle.cap_resolve_spec.specs.Parts.{term_place as place_of, factor_place as place_of_factor};
ghost use Rattle.cap_resolve_spec.specs.Parts.{whole_name as name_of_whole};
ghost use Rattle.cap_parse_tree.specs.Tree.{term, no_product};
ghost use Rattle.cap_resolve_parts.specs.Views.{words_view, with_words};

use cap_parse_tree::{Comparison, Factor, Product, Term, Word};
use cap_syntax::Place;
use std::alloc::AllocError;

#[cycle(words)]
fn push_factor_words<'a>(words: &mut Vec<&'a Word>, factor: &'a Factor) -> Result<(), AllocError>
    ensures { OnOk result (words_view words.new.items
        ≡ with_words (words_view words.old.items) (factor_leaves (factor_view factor.now))) }
{
    match factor {
        Factor::Number(_) | Factor::WholeShare(_) => Ok(()),
        Factor::Name(word) => {
            words.push(word)?;
            Ok(())
        }
        Factor::Bracketed(_, term, _) => push_words(words, term),
    }
}

#[cycle(words)]
fn push_product_words<'a>(words: &mut Vec<&'a Word>, product: &'a Product) -> Result<(), AllocError>
    ensures { OnOk result (words_view words.new.items
        ≡ with_words (words_view words.old.items) (product_leaves (product_view product.now))) }
{
    push_factor_words(words, &product.first)?;
    for times in &product.more {
        push_factor_words(words, &times.factor)?;
    }
    Ok(())
}

#[cycle(words)]
fn push_words<'a>(words: &mut Vec<&'a Word>, term: &'a Term) -> Result<(), AllocError>
    ensures { OnOk result (words_view words.new.items
        ≡ with_words (words_view words.old.items) (term_leaves (term_view term.now))) }
{
    push_product_words(words, &term.first)?;
    for addend in &term.more {
        push_product_words(words, &addend.product)?;
    }
    Ok(())
}

/// Puts the names of a term behind the words, where they stand.
#[tactic(auto, using(crate::proofs::Adding::words_added))]
pub fn push_term_words<'a>(words: &mut Vec<&'a Word>, term: &'a Term) -> Result<(), AllocError>
    ensures { OnOk result (words_view words.new.items
        ≡ words_view words.old.items ++ term_words (term_view term.now)) }
{
    push_words(words, term)?;
    Ok(())
}

/// Puts the names of a comparison behind the words, where they stand.
pub fn push_comparison_words<'a>(
    words: &mut Vec<&'a Word>,
    comparison: &'a Comparison,
) -> Result<(), AllocError>
    ensures { OnOk result (words_view words.new.items
        ≡ words_view words.old.items ++ comparison_words (comparison_view comparison.now)) }
{
    push_term_words(words, &comparison.left)?;
    push_term_words(words, &comparison.right)
}

fn factor_place(factor: &Factor) -> Place
    ensures { result ≡ place_of_factor (factor_view factor.now) }
{
    match factor {
        Factor::Number(literal) => literal.place,
        Factor::WholeShare(place) => *place,
        Factor::Name(word) => word.place,
        Factor::Bracketed(place, _, _) => *place,
    }
}

/// The place of a term's first token.
pub fn term_place(term: &Term) -> Place
    ensures { result ≡ place_of (term_view term.now) }
{
    match &term.minus {
        Some(place) => *place,
        None => factor_place(&term.first.first),
    }
}

fn whole_product(product: &Product) -> Option<&Word>
    ensures { option_map (λ w. w.now) result
        ≡ name_of_whole (term None (product_view product.now) no_product) }
{
    match product.more.as_slice() {
        [] => match &product.first {
            Factor::Name(word) => Some(word),
            Factor::Number(_) | Factor::WholeShare(_) | Factor::Bracketed(_, _, _) => None,
        },
        [_, ..] => None,
    }
}

/// The name, where the term is one name alone.
pub fn whole_name(term: &Term) -> Option<&Word>
    ensures { option_map (λ w. w.now) result ≡ name_of_whole (term_view term.now) }
{
    if term.minus.is_some() {
        return None;
    }
    match term.more.as_slice() {
        [] => whole_product(&term.first),
        [_, ..] => None,
    }
}
