//! Certificates, from the tokens of a line.
ghost use Rattle.std.specs.Prelude.{◌≡◌, ◌<◌, length, OnOk};
ghost use Rattle.cap_deriv_choices.specs.Reading.{begins_with_sign, multiplier_text};
ghost use Rattle.cap_deriv_choices.specs.Taking.{take_multiplier, take_pair, take_pairs, take_leaf};
ghost use Rattle.cap_deriv_choices.specs.Taking.{take_split, take_opened_cert, take_cert};
ghost use Rattle.cap_deriv_choices.specs.Taking.{take_certs, take_mark, take_marks};
ghost use Rattle.cap_deriv_choices.specs.Views.{Extracts, Takes};

use crate::values::{Fault, close, number, open, text, token, whole};
use cap_farkas::{Cert, Multipliers};
use json::{Reader, Token};
use std::alloc::Global;

// Whether a digit other than 0 comes first, or behind a `-`.
fn has_no_leading_zero(text: &str) -> bool
    ensures { result ≡ begins_with_sign text.now }
{
    match text.as_bytes() {
        [b'-', first, ..] => b'1' <= *first && *first <= b'9',
        [first, ..] => b'1' <= *first && *first <= b'9',
        [] => false,
    }
}

// A number in decimal, other than 0 and within 128 bits.
fn multiplier_of(text: &str) -> Result<i128, Fault>
    ensures { Extracts (λ z. z) result (multiplier_text text.now) }
{
    if !has_no_leading_zero(text) {
        return Err(Fault::Form);
    }
    match text.parse::<i128>() {
        Ok(z) => Ok(z),
        Err(_) => Err(Fault::Form),
    }
}

// A text that is such a number.
fn multiplier(reader: &mut Reader<'_>) -> Result<i128, Fault>
    ensures taken { Takes (λ z. z) result reader.new (take_multiplier reader.old) }
    ensures shorter { OnOk result (length reader.new < length reader.old) }
{
    multiplier_of(text(reader)?)
}

// A row and its multiplier.
fn pair(reader: &mut Reader<'_>) -> Result<(u32, i128), Fault>
    ensures taken { Takes (λ p. p) result reader.new (take_pair reader.old) }
    ensures shorter { OnOk result (length reader.new < length reader.old) }
{
    open(reader)?;
    let row = number(reader)?;
    let factor = multiplier(reader)?;
    close(reader)?;
    Ok((row, factor))
}

fn pairs(alloc: Global, reader: &mut Reader<'_>) -> Result<Multipliers, Fault>
    ensures taken { Takes (λ m. m) result reader.new (take_pairs reader.old) }
    ensures shorter { OnOk result (length reader.new < length reader.old) }
{
    open(reader)?;
    let mut found = Vec::new(alloc);
    'items: while !reader.take_end_array() {
        let item = pair(reader)?;
        found.push(item)?;
    }
    Ok(Multipliers::new(found))
}

fn leaf(alloc: Global, reader: &mut Reader<'_>) -> Result<Cert, Fault>
    ensures taken { Takes (λ c. c) result reader.new (take_leaf reader.old) }
    ensures shorter { OnOk result (length reader.new < length reader.old) }
{
    let all = pairs(alloc, reader)?;
    close(reader)?;
    Ok(Cert::Leaf(all))
}

fn split(alloc: Global, reader: &mut Reader<'_>) -> Result<Cert, Fault>
    ensures taken { Takes (λ c. c) result reader.new (take_split reader.old) }
    ensures shorter { OnOk result (length reader.new < length reader.old) }
{
    let row = number(reader)?;
    let below = pairs(alloc, reader)?;
    let above = pairs(alloc, reader)?;
    close(reader)?;
    Ok(Cert::Split(row, below, above))
}

// A certificate whose array is open.
fn opened_cert(alloc: Global, reader: &mut Reader<'_>) -> Result<Cert, Fault>
    ensures taken { Takes (λ c. c) result reader.new (take_opened_cert reader.old) }
    ensures shorter { OnOk result (length reader.new < length reader.old) }
{
    match text(reader)? {
        "leaf" => leaf(alloc, reader),
        "split" => split(alloc, reader),
        _ => Err(Fault::Form),
    }
}

/// A certificate: a leaf, or a split of a row.
pub(crate) fn cert(alloc: Global, reader: &mut Reader<'_>) -> Result<Cert, Fault>
    ensures taken { Takes (λ c. c) result reader.new (take_cert reader.old) }
    ensures shorter { OnOk result (length reader.new < length reader.old) }
{
    open(reader)?;
    opened_cert(alloc, reader)
}

/// An array of certificates.
pub(crate) fn certs(alloc: Global, reader: &mut Reader<'_>) -> Result<Vec<Cert>, Fault>
    ensures taken { Takes (λ v. v.items) result reader.new (take_certs reader.old) }
    ensures shorter { OnOk result (length reader.new < length reader.old) }
{
    open(reader)?;
    let mut found = Vec::new(alloc);
    'items: while !reader.take_end_array() {
        let item = cert(alloc, reader)?;
        found.push(item)?;
    }
    Ok(found)
}

// The number 0, or a certificate.
fn mark(alloc: Global, reader: &mut Reader<'_>) -> Result<Option<Cert>, Fault>
    ensures taken { Takes (λ m. m) result reader.new (take_mark reader.old) }
    ensures shorter { OnOk result (length reader.new < length reader.old) }
{
    match token(reader)? {
        Token::Number(text) => {
            if whole(text) == Some(0) {
                Ok(None)
            } else {
                Err(Fault::Form)
            }
        }
        Token::BeginArray => Ok(Some(opened_cert(alloc, reader)?)),
        Token::BeginObject
        | Token::EndObject
        | Token::EndArray
        | Token::Key(_)
        | Token::String(_)
        | Token::Bool(_)
        | Token::Null
        | Token::Bad => Err(Fault::Form),
    }
}

/// An array of marks.
pub(crate) fn marks(alloc: Global, reader: &mut Reader<'_>) -> Result<Vec<Option<Cert>>, Fault>
    ensures taken { Takes (λ v. v.items) result reader.new (take_marks reader.old) }
    ensures shorter { OnOk result (length reader.new < length reader.old) }
{
    open(reader)?;
    let mut found = Vec::new(alloc);
    'items: while !reader.take_end_array() {
        let item = mark(alloc, reader)?;
        found.push(item)?;
    }
    Ok(found)
}
