//! The linear form of a term.
ghost use Rattle.std.specs.Prelude.{ℕ, ◌≤◌, length};
ghost use Rattle.cap_lin.specs.Linear.{negative as negative_form, minus as minus_form};
ghost use Rattle.cap_lin.specs.Steps.{negative_steps, minus_steps};
ghost use Rattle.cap_lin.specs.Exact.{IsExactBy};
ghost use Rattle.cap_parse_tree.specs.Views.{factor_view, product_view, term_view};
ghost use Rattle.cap_resolve_spec.specs.Linear.{factor_form as form_of_factor, factor_steps};
ghost use Rattle.cap_resolve_spec.specs.Linear.{product_form as form_of_product, products_of_steps};
ghost use Rattle.cap_resolve_spec.specs.Linear.{term_form, term_steps};
ghost use Rattle.cap_resolve_spec.specs.Linear.{product_of, product_steps, signed_sum, signed_steps};
ghost use Rattle.cap_resolve_spec.specs.Linear.{opened as opened_form, opened_steps};

use crate::exact::LinearForm;
use crate::names::Names;
use cap_lin::LinError;
use cap_parse_tree::{Factor, Product, Sign, Term};
use cap_syntax::Place;
use std::alloc::Global;

/// A form times -1.
fn negative<F: LinearForm>(alloc: Global, form: &F) -> Result<F, LinError>
    ensures { IsExactBy result F.form (negative_steps (F.form form.now))
        (negative_form (F.form form.now)) }
{
    form.scale(alloc, -1)
}

/// The first form plus the negative of the second, which is made first.
fn minus<F: LinearForm>(alloc: Global, left: &F, right: &F) -> Result<F, LinError>
    ensures { IsExactBy result F.form (minus_steps (F.form left.now) (F.form right.now))
        (minus_form (F.form left.now) (F.form right.now)) }
{
    let negative = negative(alloc, right)?;
    left.add(alloc, &negative)
}

/// The product of two forms of which one is a number; where neither is, it is 0.
fn times<F: LinearForm>(alloc: Global, left: &F, right: &F) -> Result<F, LinError>
    ensures { IsExactBy result F.form (product_steps (F.form left.now) (F.form right.now))
        (product_of (F.form left.now) (F.form right.now)) }
{
    if right.is_constant() {
        left.scale(alloc, right.constant_part())
    } else if left.is_constant() {
        right.scale(alloc, left.constant_part())
    } else {
        Ok(F::constant(alloc, 0))
    }
}

/// A form, and another one behind a sign.
fn sum<F: LinearForm>(alloc: Global, sign: Sign, left: &F, right: &F) -> Result<F, LinError>
    ensures { IsExactBy result F.form (signed_steps sign (F.form left.now) (F.form right.now))
        (signed_sum sign (F.form left.now) (F.form right.now)) }
{
    match sign {
        Sign::Plus => left.add(alloc, right),
        Sign::Minus => minus(alloc, left, right),
    }
}

/// A form behind `-` or nothing.
fn opened<F: LinearForm>(alloc: Global, sign: Option<Place>, form: F) -> Result<F, LinError>
    ensures { IsExactBy result F.form (opened_steps sign (F.form form))
        (opened_form sign (F.form form)) }
{
    match sign {
        None => Ok(form),
        Some(_) => negative(alloc, &form),
    }
}

#[cycle(forms)]
fn factor_form<F: LinearForm>(
    alloc: Global,
    names: &Names<'_, '_>,
    factor: &Factor,
) -> Result<F, LinError>
    requires { (v : ℕ) → v ≤ length names.now → F.HasRoom v }
    ensures { IsExactBy result F.form (factor_steps names.now (factor_view factor.now))
        (form_of_factor names.now (factor_view factor.now)) }
{
    match factor {
        Factor::Number(literal) => Ok(F::constant(alloc, i128::from(literal.value))),
        Factor::WholeShare(_) => Ok(F::constant(alloc, 1)),
        Factor::Name(word) => F::variable(alloc, names.number(word.text.as_bytes())),
        Factor::Bracketed(_, term, _) => form(alloc, names, term),
    }
}

#[cycle(forms)]
fn product_form<F: LinearForm>(
    alloc: Global,
    names: &Names<'_, '_>,
    product: &Product,
) -> Result<F, LinError>
    requires { (v : ℕ) → v ≤ length names.now → F.HasRoom v }
    ensures { IsExactBy result F.form (products_of_steps names.now (product_view product.now))
        (form_of_product names.now (product_view product.now)) }
{
    let mut read = factor_form::<F>(alloc, names, &product.first)?;
    for next in &product.more {
        let factor = factor_form::<F>(alloc, names, &next.factor)?;
        read = times(alloc, &read, &factor)?;
    }
    Ok(read)
}

/// The linear form of a term, from the left to the right. A product of two terms with variables
/// counts as 0. Wide has the first result on the way that leaves 128 bits.
#[cycle(forms)]
pub(crate) fn form<F: LinearForm>(
    alloc: Global,
    names: &Names<'_, '_>,
    term: &Term,
) -> Result<F, LinError>
    requires { (v : ℕ) → v ≤ length names.now → F.HasRoom v }
    ensures { IsExactBy result F.form (term_steps names.now (term_view term.now))
        (term_form names.now (term_view term.now)) }
{
    let first = product_form::<F>(alloc, names, &term.first)?;
    let mut read = opened(alloc, term.minus, first)?;
    for addend in &term.more {
        let product = product_form::<F>(alloc, names, &addend.product)?;
        read = sum(alloc, addend.sign, &read, &product)?;
    }
    Ok(read)
}
