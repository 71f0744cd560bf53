//! Choices in preorder, of which the first have been passed.
ghost use Rattle.std.specs.Prelude.{◌+◌, ◌^◌, ◌<◌, length};

use crate::error::CheckError;
use cap_goal::Choice;

/// The choices that are left, and how many were passed before them.
#[derive(Drop)]
pub(crate) struct Preorder<'c> {
    passed: u64,
    rest: &'c [Choice],
    ghost countable: { passed + length rest.now < 2 ^ 63 },
}

impl<'c> Preorder<'c> {
    ghost use Rattle.std.specs.Prelude.{◌≡◌, ◌≢◌, [], ◌∷◌, map, suc};
    ghost use Rattle.std.specs.Prelude.{MatchOption, MatchResult};
    ghost use Rattle.cap_goal.specs.Views.{choice_view};
    ghost use Rattle.cap_kernel_check_steps.specs.declared.error.CheckError.TheVariants.{Shape};
    ghost use Rattle.cap_kernel_check_steps.specs.Growths.{PassesOver};
    ghost use Rattle.cap_kernel_check_steps.specs.GrowthViews.{preorder_view};

    /// None of the choices is passed yet.
    pub fn new(choices: &'c [Choice]) -> Preorder<'c>
        ensures { preorder_view result
            ≡ record { passed = 0; rest = map choice_view choices.entry.now } }
    {
        Preorder {
            passed: 0,
            rest: choices,
        }
    }

    /// How many choices were passed.
    pub fn passed(&self) -> u64
        ensures { result ≡ (preorder_view self.now).passed }
    {
        self.passed
    }

    /// The number of the next node.
    pub fn number(&self) -> u64
        ensures { result ≡ suc (preorder_view self.now).passed }
    {
        self.passed + 1
    }

    /// Passes the next choice, if there is one.
    pub fn next(&mut self) -> Option<&'c Choice>
        ensures { MatchOption result
            (((preorder_view self.old).rest ≡ []) × (preorder_view self.new ≡ preorder_view self.old))
            (λ c. PassesOver (preorder_view self.old) (choice_view c.now ∷ [])
            (preorder_view self.new)) }
    {
        let (first, rest) = self.rest.split_first()?;
        self.passed += 1;
        self.rest = rest;
        Some(first)
    }

    /// A choice that is left here is left over.
    pub fn end(&self) -> Result<(), CheckError>
        ensures { MatchResult result (λ _. (preorder_view self.now).rest ≡ [])
            (λ e. ((preorder_view self.now).rest ≢ [])
            × (e ≡ Shape (suc (preorder_view self.now).passed))) }
    {
        if self.rest.is_empty() {
            Ok(())
        } else {
            Err(CheckError::Shape(self.number()))
        }
    }
}
