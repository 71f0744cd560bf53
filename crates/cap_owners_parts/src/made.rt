//! Elements by the values of forms and of what is asked for.
ghost use Rattle.std.specs.Prelude.{◌≡◌, ◌<◌, ◌^◌, true, IfOk};
ghost use Rattle.cap_galg.specs.Elements.{tokens as so_many, index_set};
ghost use Rattle.cap_galg_indices.specs.Sets.{index_range};
ghost use Rattle.cap_owners_spec.specs.Filling.{asked_element, counts_fit, form_element};
ghost use Rattle.cap_owners_spec.specs.Filling.{range_element, share_element};
ghost use Rattle.cap_owners_values.specs.Views.{Traces, value_view};
ghost use Rattle.cap_owners_parts.specs.Composed.{natural, natural_of};
ghost use Rattle.cap_owners_parts.specs.Views.{element_view};

use crate::element::Element;
use crate::indices::Indices;
use cap_gsolve::Form;
use cap_owners_values::{TraceError, Value, Values};
use cap_prog::Asked;
use std::alloc::{AllocError, Global};

/// The element of a form, by the values of variables. `PastWidth` comes where a term leaves 128
/// bits, and `Untold` where an amount, a count or an index is negative.
pub(crate) fn form_element(
    alloc: Global,
    form: &Form,
    values: &Values,
) -> Result<Element, TraceError>
    ensures made { Traces result element_view (form_element values.now form.now) }
    ensures fits { IfOk result (λ x. counts_fit (element_view x) ≡ true) }
{
    match form {
        Form::One => Ok(Element::One),
        Form::Share(amount) => share_element(values.amount_in(amount)?),
        Form::Src(out) => Ok(Element::Src(natural(values.number_in(out)?)?)),
        Form::Tok(count) => Ok(tokens(natural(values.number_in(count)?)?)),
        Form::Span(start, None) => {
            let first = natural(values.number_in(start)?)?;
            Ok(Element::Indices(Indices::from(alloc, first)?))
        }
        Form::Span(start, Some(end)) => {
            let first = values.number_in(start)?;
            range_element(alloc, first, values.number_in(end)?)
        }
    }
}

/// The element that is asked for, by the value at which it is met. `Untold` comes where that is
/// none of what is asked for, or negative.
pub(crate) fn asked_element(
    alloc: Global,
    asked: &Asked,
    value: Value,
) -> Result<Element, TraceError>
    ensures made { Traces result element_view (asked_element asked.now (value_view value)) }
    ensures fits { IfOk result (λ x. counts_fit (element_view x) ≡ true) }
{
    match asked {
        Asked::One => Ok(Element::One),
        Asked::Share(_) => match value {
            Value::Share(share) => share_element(share),
            Value::Number(_) => Err(TraceError::Untold),
        },
        Asked::Src(_) => Ok(Element::Src(natural_of(value)?)),
        Asked::Tok(_) => Ok(tokens(natural_of(value)?)),
        Asked::At(_) => {
            let index = natural_of(value)?;
            Ok(Element::Indices(Indices::at(alloc, index)?))
        }
        Asked::From(_) => {
            let first = natural_of(value)?;
            Ok(Element::Indices(Indices::from(alloc, first)?))
        }
    }
}

// A numerator over 2^63 as an element, which is not the unit even at 0.
fn share_element(share: i128) -> Result<Element, TraceError>
    ensures made { Traces result element_view (share_element share) }
    ensures fits { IfOk result (λ x. counts_fit (element_view x) ≡ true) }
{
    Ok(Element::Share(natural(share)?))
}

// The indices from one on that are below another.
fn range_element(alloc: Global, first: i128, end: i128) -> Result<Element, TraceError>
    ensures made { Traces result element_view (range_element first end) }
    ensures fits { IfOk result (λ x. counts_fit (element_view x) ≡ true) }
{
    let first = natural(first)?;
    let end = natural(end)?;
    Ok(index_range(alloc, first, end)?)
}

fn index_range(alloc: Global, first: u128, end: u128) -> Result<Element, AllocError>
    ensures made { IfOk result (λ x. element_view x ≡ index_set (index_range first end)) }
    ensures fits { IfOk result (λ x. counts_fit (element_view x) ≡ true) }
{
    let set = Indices::range(alloc, first, end)?;
    if set.is_empty() {
        return Ok(Element::Nothing);
    }
    Ok(Element::Indices(set))
}

fn tokens(count: u128) -> Element
    ensures made { element_view result ≡ so_many count }
    ensures fits { counts_fit (element_view result) ≡ true }
{
    if count == 0 {
        Element::Nothing
    } else {
        Element::Tok(count)
    }
}

// A whole number as a count or an index.
fn natural_of(value: Value) -> Result<u128, TraceError>
    ensures number { Traces result (λ n. n) (natural_of (value_view value)) }
    ensures below { IfOk result (λ n. n < 2 ^ 127) }
{
    match value {
        Value::Number(number) => natural(number),
        Value::Share(_) => Err(TraceError::Untold),
    }
}

fn natural(number: i128) -> Result<u128, TraceError>
    ensures number { Traces result (λ n. n) (natural number) }
    ensures below { IfOk result (λ n. n < 2 ^ 127) }
{
    if number < 0 {
        return Err(TraceError::Untold);
    }
    Ok(number as u128)
}
