//! A law: the programs of texts are well-formed.
ghost use Rattle.std.specs.Prelude.{ℕ, List};
ghost use Rattle.cap_prog.specs.Program.{PlainProgram};
ghost use Rattle.cap_prog.specs.WellFormed.{IsWellFormed};
ghost use Rattle.cap_top_reading.specs.Refused.{IsTextOf};

use cap_resolve_spec::programs_are_well_formed;

/// A law: the program of a text is well-formed.
pub fn programs_of_texts_are_well_formed()
    ensures { (bytes : List ℕ) (p : PlainProgram) → IsTextOf bytes p → IsWellFormed p }
{
    programs_are_well_formed();
}
