//! What the linear form of a term is made in.
ghost use Rattle.std.specs.Prelude.{◌≡◌, ◌==◌, ◌<◌, ◌^◌, ℕ, MatchResult, length};
ghost use Rattle.cap_lin.specs.Linear.{Linear, number, variable, plus, times};
ghost use Rattle.cap_lin.specs.Steps.{plus_steps, times_steps};
ghost use Rattle.cap_lin.specs.Exact.{IsExactBy};
ghost use Rattle.cap_lin.specs.declared.error.LinError.TheVariants as errors;

use cap_lin::{LinError, Term as Linear};
use std::alloc::Global;

/// What a linear form is made in. Its arithmetic is exact: an operation gives its form, or the two
/// operands of the first result on the way that leaves 128 bits.
pub trait LinearForm: Sized + Drop {
    /// Which linear form it is.
    ghost form: { Self → Linear };

    /// The numbers that its variables may have.
    ghost HasRoom: { ℕ → Type 0 };

    /// A number. It takes no memory.
    fn constant(alloc: Global, value: i128) -> Self
        ensures { form result ≡ number value };

    /// A variable.
    fn variable(alloc: Global, v: u128) -> Result<Self, LinError>
        requires { HasRoom v }
        ensures { MatchResult result (λ f. form f ≡ variable v) (λ e. e ≡ errors.OutOfMemory) };

    /// Whether it is a number.
    fn is_constant(&self) -> bool
        ensures { result ≡ (length (form self.now).parts == 0) };

    /// What it is beside its variables.
    fn constant_part(&self) -> i128
        ensures { result ≡ (form self.now).constant };

    /// The sum of two forms: that of the constants first, and then those of the coefficients.
    fn add(&self, alloc: Global, other: &Self) -> Result<Self, LinError>
        ensures { IsExactBy result form (plus_steps (form self.now) (form other.now))
            (plus (form self.now) (form other.now)) };

    /// The form times a number, of the constant first, and then of the coefficients.
    fn scale(&self, alloc: Global, k: i128) -> Result<Self, LinError>
        ensures { IsExactBy result form (times_steps k (form self.now))
            (times k (form self.now)) };
}

impl LinearForm for Linear {
    ghost form = { λ f. f };

    ghost HasRoom = { λ v. v < 2 ^ 32 };

    fn constant(alloc: Global, value: i128) -> Linear {
        Linear::constant(alloc, value)
    }

    fn variable(alloc: Global, v: u128) -> Result<Linear, LinError> {
        Linear::var(alloc, v as u32)
    }

    fn is_constant(&self) -> bool {
        self.parts().is_empty()
    }

    fn constant_part(&self) -> i128 {
        self.constant_part()
    }

    fn add(&self, alloc: Global, other: &Linear) -> Result<Linear, LinError> {
        self.add(alloc, other)
    }

    fn scale(&self, alloc: Global, k: i128) -> Result<Linear, LinError> {
        self.scale(alloc, k)
    }
}
