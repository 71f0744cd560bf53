//! Fractions within 64 bits.
ghost use Rattle.std.specs.Prelude.{◌↔◌, IsTrue};
ghost use Rattle.std.specs.Int.{IsGcd};
ghost use Rattle.cap_galg_spec.specs.Fractions.{IsAmount};

/// A numerator over a denominator.
#[derive(Clone, Copy, Debug, PartialEq, Eq)]
pub struct Fraction {
    pub num: u64,
    pub den: u64,
}

impl Fraction {
    /// Whether the denominator isn't 0, and the fraction is in lowest terms and at most 1.
    pub fn is_amount(self) -> bool
        ensures { IsTrue result ↔ IsAmount self }
    {
        if self.den == 0 {
            return false;
        }
        if self.num > self.den {
            return false;
        }
        common_divisor(self.num as u128, self.den as u128) == 1
    }
}

/// The greatest common divisor of any two numbers of 128 bits; of a number and 0 it is that number.
pub fn common_divisor(a: u128, b: u128) -> u128
    ensures { IsGcd a b result }
{
    let mut a = a;
    let mut b = b;
    while b != 0 {
        let rest = a % b;
        a = b;
        b = rest;
    }
    a
}
