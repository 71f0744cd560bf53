//! Names by their variables, as a linear form asks for them.
ghost use Rattle.std.specs.Prelude.{◌≡◌, [], ◌++◌, filter_map, OnOk, IfOk};
ghost use Rattle.cap_parse_tree.specs.Views.{factor_view, product_view, term_view};
ghost use Rattle.cap_resolve_spec.specs.Names.{variable_of, whole_numbers};
ghost use Rattle.cap_resolve_spec.specs.Parts.{named_word, factor_leaves, product_leaves, term_words};
ghost use Rattle.cap_resolve_spec.specs.Linear.{with_names};

use cap_lin::Sort;
use cap_parse_tree::{Factor, Product, Term};
use cap_resolve_terms::{Known, Scope};
use std::alloc::{AllocError, Global};
use std::marker::Model;

/// The variables of a scope, and behind them a variable for each name of a term.
#[derive(Drop)]
pub(crate) struct Names<'s, 'a> {
    scope: &'s Scope<'a>,
    own: Scope<'a>,
}

impl<'s, 'a> Model for Names<'s, 'a> {
    ghost use Rattle.std.specs.Prelude.{◌++◌};
    ghost use Rattle.cap_resolve_spec.specs.Names.{NameScope};

    ghost Value = { NameScope };

    ghost view = { λ n. n.scope.now ++ n.own };
}

impl<'s, 'a> Names<'s, 'a> {
    /// The variables of a scope alone. It takes no memory.
    pub(crate) fn of_scope(alloc: Global, scope: &'s Scope<'a>) -> Names<'s, 'a>
        ensures { result ≡ scope.now ++ [] }
    {
        Names {
            scope,
            own: Scope::new(alloc),
        }
    }

    /// The variables of a scope, and one for each name of a term. There is an error where memory
    /// runs out.
    pub(crate) fn with_names(
        alloc: Global,
        scope: &'s Scope<'a>,
        term: &'a Term,
    ) -> Result<Names<'s, 'a>, AllocError>
        ensures { IfOk result (λ n. n ≡ with_names scope.now (term_view term.now)) }
    {
        let mut own = Scope::new(alloc);
        push_names(&mut own, term)?;
        Ok(Names { scope, own })
    }

    /// The number of the variable that a name stands for, or the number of variables where it is
    /// not known.
    pub(crate) fn number(&self, name: &[u8]) -> u128
        ensures { result ≡ variable_of self.now name.now }
    {
        if self.scope.knows(name) {
            self.scope.number(name) as u128
        } else {
            self.scope.len() as u128 + self.own.number(name) as u128
        }
    }
}

/// Appends a variable for each name of a term, as a whole number.
#[cycle(pushing)]
fn push_names<'a>(names: &mut Scope<'a>, term: &'a Term) -> Result<(), AllocError>
    ensures { OnOk result
        (names.new ≡ names.old ++ whole_numbers (term_words (term_view term.now))) }
{
    push_product_names(names, &term.first)?;
    for addend in &term.more {
        push_product_names(names, &addend.product)?;
    }
    Ok(())
}

#[cycle(pushing)]
fn push_product_names<'a>(names: &mut Scope<'a>, product: &'a Product) -> Result<(), AllocError>
    ensures { OnOk result (names.new ≡ names.old
        ++ whole_numbers (filter_map named_word (product_leaves (product_view product.now)))) }
{
    push_factor_names(names, &product.first)?;
    for times in &product.more {
        push_factor_names(names, &times.factor)?;
    }
    Ok(())
}

#[cycle(pushing)]
fn push_factor_names<'a>(names: &mut Scope<'a>, factor: &'a Factor) -> Result<(), AllocError>
    ensures { OnOk result (names.new ≡ names.old
        ++ whole_numbers (filter_map named_word (factor_leaves (factor_view factor.now)))) }
{
    match factor {
        Factor::Number(_) | Factor::WholeShare(_) => Ok(()),
        Factor::Name(word) => names.push(Some(Known {
            name: word.text.as_bytes(),
            sort: Sort::Int,
        })),
        Factor::Bracketed(_, term, _) => push_names(names, term),
    }
}
