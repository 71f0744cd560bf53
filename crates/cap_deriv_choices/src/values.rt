//! Parts of a line, from the tokens of its JSON text.
ghost use Rattle.std.specs.Prelude.{◌≡◌, ◌<◌, ◌==◌, ◌∷◌, [], length, slice_index};
ghost use Rattle.std.specs.Prelude.{OnOk, MatchResult};
ghost use Rattle.json.specs.Reads.{token_of};
ghost use Rattle.cap_deriv_choices.specs.Taking.{take_open, take_close, take_long, take_number};
ghost use Rattle.cap_deriv_choices.specs.Taking.{take_text, take_numbers, long_of_text};
ghost use Rattle.cap_deriv_choices.specs.Views.{Takes};
ghost use Rattle.cap_deriv_choices.specs.declared.values.Fault.TheVariants.{Form, OutOfMemory};

use fast_float::Numeral;
use json::{Reader, Token};
use std::alloc::{AllocError, AllocFailed, Global};
use thiserror::Error;

/// Why tokens are read as nothing: they are not of the form that is asked for in their place, or
/// there is no memory for the lists that they are read as, which only `choice` makes.
#[derive(Clone, Copy, Debug, PartialEq, Eq, Error)]
pub enum Fault {
    #[error("not of its form")]
    Form,
    #[error("out of memory")]
    OutOfMemory,
}

impl From<AllocError> for Fault {
    ghost from_gives = { λ _ e. e ≡ OutOfMemory };

    fn from(_e: AllocError) -> Fault {
        Fault::OutOfMemory
    }
}

impl<T: Drop> From<AllocFailed<T>> for Fault {
    ghost from_gives = { λ _ e. e ≡ OutOfMemory };

    fn from(_e: AllocFailed<T>) -> Fault {
        Fault::OutOfMemory
    }
}

/// The next token. `Form` comes at the end.
pub(crate) fn token<'a>(reader: &mut Reader<'a>) -> Result<Token<'a>, Fault>
    ensures { MatchResult result (λ t. reader.old ≡ token_of t ∷ reader.new)
        (λ e. (e ≡ Form) × (reader.old ≡ [])) }
{
    match reader.next() {
        Some(token) => Ok(token),
        None => Err(Fault::Form),
    }
}

/// Goes into an array. `Form` comes where the next token opens none, and at the end.
pub fn open(reader: &mut Reader<'_>) -> Result<(), Fault>
    ensures taken { Takes (λ u. tt) result reader.new (take_open reader.old) }
    ensures shorter { OnOk result (length reader.new < length reader.old) }
{
    match token(reader)? {
        Token::BeginArray => Ok(()),
        Token::BeginObject
        | Token::EndObject
        | Token::EndArray
        | Token::Key(_)
        | Token::String(_)
        | Token::Number(_)
        | Token::Bool(_)
        | Token::Null
        | Token::Bad => Err(Fault::Form),
    }
}

/// Leaves an array, behind its last item. `Form` comes where another token is next, and at the end.
pub fn close(reader: &mut Reader<'_>) -> Result<(), Fault>
    ensures taken { Takes (λ u. tt) result reader.new (take_close reader.old) }
    ensures shorter { OnOk result (length reader.new < length reader.old) }
{
    if reader.take_end_array() {
        Ok(())
    } else {
        Err(Fault::Form)
    }
}

fn has_minus(bytes: &[u8]) -> bool
    ensures { result ≡ (slice_index bytes.now 0 == 45) }
{
    !bytes.is_empty() && bytes[0] == b'-'
}

/// The number that a JSON text writes without sign, fraction and exponent, within 64 bits.
pub(crate) fn whole(text: &str) -> Option<u64>
    ensures { result ≡ long_of_text text.now }
{
    let bytes = text.as_bytes();
    if has_minus(bytes) {
        None
    } else {
        Numeral::scan(bytes).to_u64()
    }
}

/// A number without sign, fraction and exponent, within 64 bits. `Form` comes at any other token,
/// and at the end.
pub fn long(reader: &mut Reader<'_>) -> Result<u64, Fault>
    ensures taken { Takes (λ n. n) result reader.new (take_long reader.old) }
    ensures shorter { OnOk result (length reader.new < length reader.old) }
{
    match token(reader)? {
        Token::Number(text) => match whole(text) {
            Some(n) => Ok(n),
            None => Err(Fault::Form),
        },
        Token::BeginObject
        | Token::EndObject
        | Token::BeginArray
        | Token::EndArray
        | Token::Key(_)
        | Token::String(_)
        | Token::Bool(_)
        | Token::Null
        | Token::Bad => Err(Fault::Form),
    }
}

/// Such a number within 32 bits. `Form` comes at any other token, and at the end.
pub fn number(reader: &mut Reader<'_>) -> Result<u32, Fault>
    ensures taken { Takes (λ n. n) result reader.new (take_number reader.old) }
    ensures shorter { OnOk result (length reader.new < length reader.old) }
{
    let n = long(reader)?;
    if n < 1 << 32 {
        Ok(n as u32)
    } else {
        Err(Fault::Form)
    }
}

/// An array of numbers.
pub(crate) fn numbers(alloc: Global, reader: &mut Reader<'_>) -> Result<Vec<u32>, Fault>
    ensures taken { Takes (λ v. v.items) result reader.new (take_numbers reader.old) }
    ensures shorter { OnOk result (length reader.new < length reader.old) }
{
    open(reader)?;
    let mut found = Vec::new(alloc);
    'items: while !reader.take_end_array() {
        let item = number(reader)?;
        found.push(item)?;
    }
    Ok(found)
}

/// The characters of a text, its escapes read. `Form` comes at any other token, and at the end.
pub fn text<'a>(reader: &mut Reader<'a>) -> Result<&'a str, Fault>
    ensures taken { Takes (λ s. s.now) result reader.new (take_text reader.old) }
    ensures shorter { OnOk result (length reader.new < length reader.old) }
{
    match token(reader)? {
        Token::String(text) => Ok(text),
        Token::BeginObject
        | Token::EndObject
        | Token::BeginArray
        | Token::EndArray
        | Token::Key(_)
        | Token::Number(_)
        | Token::Bool(_)
        | Token::Null
        | Token::Bad => Err(Fault::Form),
    }
}
