//! The text of shares.
ghost use Rattle.std.specs.Prelude.{◌≡◌, ◌++◌, ◌<◌, OnOk};
ghost use Rattle.std.specs.Fmt.{decimal, signed_decimal};
ghost use Rattle.std.specs.Int.{IsGcd};
ghost use Rattle.cap_galg.specs.Fractions.{lowest};
ghost use Rattle.cap_owners_spec.specs.Texts.{fraction_text, share_text};
ghost use Rattle.cap_owners_spec.specs.Traced.{over};

use crate::element::OVER;
use std::alloc::{AllocError, Global};

/// Writes a whole number that may be negative.
pub(crate) fn push_number(alloc: Global, text: &mut Vec<u8>, number: i128) -> Result<(), AllocError>
    ensures { OnOk result (text.new.items ≡ text.old.items ++ signed_decimal number) }
{
    let number = format!(in alloc; "{number}")?;
    text.extend_from_slice(number.as_bytes())
}

/// Writes a count or an index.
pub(crate) fn push_count(alloc: Global, text: &mut Vec<u8>, count: u128) -> Result<(), AllocError>
    ensures { OnOk result (text.new.items ≡ text.old.items ++ decimal count) }
{
    let count = format!(in alloc; "{count}")?;
    text.extend_from_slice(count.as_bytes())
}

/// Writes a share, by its numerator over 2^63, in lowest terms.
pub(crate) fn push_fraction(
    alloc: Global,
    text: &mut Vec<u8>,
    numerator: u128,
) -> Result<(), AllocError>
    ensures { OnOk result
        (text.new.items ≡ text.old.items ++ fraction_text (lowest numerator over)) }
{
    let divisor = common_divisor(numerator, OVER);
    push_count(alloc, text, numerator / divisor)?;
    text.push(b'/')?;
    push_count(alloc, text, OVER / divisor)
}

/// Writes a share that may be negative, by its numerator over 2^63, in lowest terms.
pub(crate) fn push_share(alloc: Global, text: &mut Vec<u8>, share: i128) -> Result<(), AllocError>
    ensures { OnOk result (text.new.items ≡ text.old.items ++ share_text share over) }
{
    if share < 0 {
        text.push(b'-')?;
        return push_fraction(alloc, text, share.unsigned_abs());
    }
    push_fraction(alloc, text, share.unsigned_abs())
}

// The greatest common divisor.
fn common_divisor(a: u128, b: u128) -> u128
    ensures { IsGcd a b result }
{
    let mut a = a;
    let mut b = b;
    while b != 0 {
        let rest = a % b;
        a = b;
        b = rest;
    }
    a
}
