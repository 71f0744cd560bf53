//! The first limit of each kind that was passed while lists were decided.
ghost use Rattle.std.specs.Prelude.{◌≡◌};
ghost use Rattle.cap_fm_spec.specs.Events.{wide as past_bits, many};
ghost use Rattle.cap_offer_spec.specs.Deciding.{clean, with_note};
ghost use Rattle.cap_closure_decide.specs.Noting.{IsFailure};

use cap_rules_steps::RuleError;
use std::alloc::AllocError;
use std::marker::Model;

/// What passed a limit while something was decided: the operands of the first result that leaves
/// 128 bits, and whether some elimination had more than 4,096 rows.
#[derive(Clone, Copy, Debug)]
pub struct Notes {
    wide: Option<(i128, i128)>,
    rows: bool,
}

impl Model for Notes {
    ghost use Rattle.cap_offer_spec.specs.Deciding.{PlainNotes};

    ghost Value = { PlainNotes };

    ghost view = { λ n. record { wide = n.wide; rows = n.rows } };

    ghost inverse = { λ n. record { wide = n.wide; rows = n.rows } };
}

impl Notes {
    /// Nothing has passed a limit yet.
    pub fn new() -> Notes
        ensures { result ≡ clean }
    {
        Notes {
            wide: None,
            rows: false,
        }
    }

    /// The operands of the first result that left 128 bits.
    pub fn wide(&self) -> Option<(i128, i128)>
        ensures { result ≡ self.now.wide }
    {
        self.wide
    }

    /// Whether some elimination had a row too many.
    pub fn rows(&self) -> bool
        ensures { result ≡ self.now.rows }
    {
        self.rows
    }

    /// Notes the operands of a result that leaves 128 bits, unless there are operands already.
    pub fn note_wide(&mut self, first: i128, second: i128)
        ensures { self.new ≡ with_note self.old (past_bits first second) }
    {
        if self.wide.is_none() {
            self.wide = Some((first, second));
        }
    }

    /// Notes that an elimination had a row too many.
    pub fn note_rows(&mut self)
        ensures { self.new ≡ with_note self.old many }
    {
        self.rows = true;
    }

    /// Notes a failure: the operands of a result that leaves 128 bits, and nothing where a rule
    /// doesn't apply.
    pub fn note_failure(&mut self, error: RuleError) -> Result<(), AllocError>
        ensures { IsFailure error self.old self.new result }
    {
        match error {
            RuleError::NotApplicable => Ok(()),
            RuleError::Wide(first, second) => {
                self.note_wide(first, second);
                Ok(())
            }
            RuleError::OutOfMemory => Err(AllocError),
        }
    }
}
