//! JSON values of numbers, and of a word with its arguments.
ghost use Rattle.std.specs.Prelude.{◌≡◌, [], ◌∷◌, IfOk};
ghost use Rattle.std.specs.Fmt.{signed_decimal};
ghost use Rattle.serde_json.specs.Data.{string};
ghost use Rattle.serde_json.specs.View.{view};
ghost use Rattle.std.specs.List.{AllByRecursion};
ghost use Rattle.cap_deriv_write.specs.Bounds.{IsNumber};
ghost use Rattle.cap_deriv_write.specs.Forms.{headed_form, numbers_form};

use itoa::Buffer;
use serde_json::{Value, json};
use std::alloc::{AllocError, Global};

/// A number in decimal, as a text.
pub(crate) fn decimal(alloc: Global, z: i128) -> Result<Value, AllocError>
    ensures { IfOk result (λ v. view v ≡ string (signed_decimal z)) }
{
    let mut buffer = Buffer::new();
    Value::try_from_str(alloc, buffer.format(z))
}

/// An array of numbers.
pub(crate) fn numbers(alloc: Global, all: &[u32]) -> Result<Value, AllocError>
    ensures value { IfOk result (λ v. view v ≡ numbers_form all.now) }
    ensures fits { IfOk result (λ v. AllByRecursion IsNumber all.now) }
{
    let mut items = Vec::new(alloc);
    for one in all {
        items.push(Value::from(*one))?;
    }
    Ok(Value::Array(items))
}

/// A word alone.
pub(crate) fn headed(alloc: Global, word: &str) -> Result<Value, AllocError>
    ensures { IfOk result (λ v. view v ≡ headed_form word.now []) }
{
    json!(in alloc; [word])
}

/// A word with one argument.
pub(crate) fn headed_one(alloc: Global, word: &str, a: Value) -> Result<Value, AllocError>
    ensures { IfOk result (λ v. view v ≡ headed_form word.now (view a ∷ [])) }
{
    json!(in alloc; [word, a])
}

/// A word with two arguments.
pub(crate) fn headed_two(alloc: Global, word: &str, a: Value, b: Value) -> Result<Value, AllocError>
    ensures { IfOk result (λ v. view v ≡ headed_form word.now (view a ∷ view b ∷ [])) }
{
    json!(in alloc; [word, a, b])
}

/// A word with three arguments.
pub(crate) fn headed_three(
    alloc: Global,
    word: &str,
    a: Value,
    b: Value,
    c: Value,
) -> Result<Value, AllocError>
    ensures { IfOk result (λ v. view v ≡ headed_form word.now (view a ∷ view b ∷ view c ∷ [])) }
{
    json!(in alloc; [word, a, b, c])
}
