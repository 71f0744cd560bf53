//! Sums of shares within 64 bits, and their order.
ghost use Rattle.std.specs.Prelude.{◌≡◌, ◌+◌, ◌*◌, ◌<◌, ◌≤◌, ◌^◌, nat_le, MatchResult};
ghost use Rattle.cap_galg_spec.specs.Fractions.{lowest, IsShare};
ghost use Rattle.cap_galg_spec.specs.Elements.{share};
ghost use Rattle.cap_galg_spec.specs.Answers.{IsComposition};
ghost use Rattle.cap_galg_spec.specs.declared.error.GuardError.TheVariants.{Wide};

use cap_galg_spec::{Fraction, GuardError, common_divisor};

fn product(a: u64, b: u64) -> u128
    ensures { result ≡ a * b }
{
    a as u128 * b as u128
}

// A fraction that is at most 1, in lowest terms.
fn reduced(num: u128, den: u128) -> Result<Fraction, GuardError>
    requires positive { 0 < den }
    requires most { num ≤ den }
    ensures { let f = lowest num den in MatchResult result
        (λ r. (r ≡ f) × (f.den < 2 ^ 64)) (λ e. (e ≡ Wide) × (2 ^ 64 ≤ f.den)) }
{
    let divisor = common_divisor(num, den);
    let num = num / divisor;
    let den = den / divisor;
    if den > u64::MAX as u128 {
        return Err(GuardError::Wide);
    }
    Ok(Fraction {
        num: num as u64,
        den: den as u64,
    })
}

/// The sum of two shares in lowest terms, where it is at most 1, and else nothing. Wide comes
/// exactly where the sum is at most 1 and its denominator passes 64 bits.
pub fn sum(a: Fraction, b: Fraction) -> Result<Option<Fraction>, GuardError>
    requires a { IsShare a }
    requires b { IsShare b }
    ensures { IsComposition share (share a) (share b) result }
{
    let whole = product(a.den, b.den);
    let first = product(a.num, b.den);
    let second = product(b.num, a.den);
    if first > whole - second {
        return Ok(None);
    }
    Ok(Some(reduced(first + second, whole)?))
}

/// Whether a fraction is at most another, by their cross products, which tell it where no
/// denominator is 0.
pub fn is_at_most(a: Fraction, b: Fraction) -> bool
    ensures { result ≡ nat_le (a.num * b.den) (b.num * a.den) }
{
    product(a.num, b.den) <= product(b.num, a.den)
}
