//! Laws of the definitions alone.
ghost use Rattle.std.specs.Prelude.{◌≡◌, ◌↔◌, ◌≤◌, ◌<◌, ◌^◌, ℕ, List, Option, Some, length};
ghost use Rattle.std.specs.Prelude.{option_and_then};
ghost use Rattle.cap_goal_spec.specs.Choices.{PlainChoice, PlainTree};
ghost use Rattle.cap_deriv.specs.Reading.{json_of_bytes, opening_of_json};
ghost use Rattle.cap_deriv.specs.Told.{choice_line, end_line, line_of_bytes, most_nodes};
ghost use Rattle.cap_deriv.specs.Told.{told_by_bytes, opening_told, choices_told, all_told};
ghost use Rattle.cap_deriv_write.specs.Bounds.{IsNumber, IsChoice};
ghost use Rattle.cap_deriv_write.specs.Forms.{opening_form, choice_form, closing_form};
ghost use Rattle.cap_deriv_write.specs.Preorder.{choices_of_roots};
ghost use Rattle.cap_deriv_write.specs.Spelled.{IsText, AreLines, HaveForms, HaveNoSpaces};
ghost use Rattle.cap_deriv_write.specs.Spelled.{DerivationLines, AreBundle};
ghost use Rattle.cap_deriv_write.specs.Written.{derivation_text};

/// A line is read as what it spells.
pub fn lines_are_forms()
    ensures opening { (line : List ℕ) (trees : ℕ)
        → (option_and_then opening_of_json (json_of_bytes line) ≡ Some trees)
        ↔ (IsText line (opening_form trees) × IsNumber trees) }
    ensures choice { (line : List ℕ) (choice : PlainChoice)
        → (line_of_bytes line ≡ Some (choice_line choice))
        ↔ (IsText line (choice_form choice) × IsChoice choice) }
    ensures closing { (line : List ℕ) (nodes : ℕ)
        → (line_of_bytes line ≡ Some (end_line nodes)) ↔ IsText line (closing_form nodes) }
{}

/// What is read to its end are just the lines of the choices, of which there are at most a million.
pub fn readings_are_lines()
    ensures { (trees : ℕ) (choices : List PlainChoice) (bytes : List ℕ)
        → (told_by_bytes bytes ≡ opening_told trees (choices_told choices all_told))
        ↔ (AreLines trees choices bytes × (length choices ≤ most_nodes)) }
{}

/// What is written for trees are their lines, without spaces.
pub fn writings_are_lines()
    ensures { (roots : List (Option PlainTree)) → AreBundle roots
        → (length (choices_of_roots roots) < 2 ^ 64)
        → DerivationLines roots (derivation_text roots) × HaveNoSpaces (derivation_text roots) }
{}

/// What is written for trees is read back as their choices in preorder, where these are at most
/// a million.
pub fn writings_are_read_back()
    ensures { (roots : List (Option PlainTree)) → AreBundle roots
        → (length (choices_of_roots roots) ≤ most_nodes)
        → told_by_bytes (derivation_text roots)
        ≡ opening_told (length roots) (choices_told (choices_of_roots roots) all_told) }
{}
