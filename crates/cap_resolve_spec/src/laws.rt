//! Laws over the definitions of names, sorts, linear forms and refusals.
ghost use Rattle.std.specs.Prelude.{◌≡◌, ◌↔◌, ◌≤◌, ℕ, true, List, length, Some, None};
ghost use Rattle.cap_prog.specs.Program.{PlainProgram};
ghost use Rattle.cap_prog.specs.WellFormed.{most_members, IsWellFormed};
ghost use Rattle.cap_parse_tree.specs.Tree.{TermTree, RegionTree, FunctionTree, ProgramTree};
ghost use Rattle.cap_parse_tree.specs.Spelling.{spelling};
ghost use Rattle.cap_resolve_spec.specs.Finding.{Finding};
ghost use Rattle.cap_resolve_spec.specs.Names.{NameScope, knows, variable_of};
ghost use Rattle.cap_resolve_spec.specs.Items.{NumberedRegion, region_named, numbered_regions};
ghost use Rattle.cap_resolve_spec.specs.Functions.{function_named};
ghost use Rattle.cap_resolve_spec.specs.Program.{type_number, function_number};
ghost use Rattle.cap_resolve_spec.specs.Stands.{refusal, Stands};
ghost use Rattle.cap_resolve_spec.specs.Refusal.{IsRefusal, IsRight};
ghost use Rattle.cap_resolve_spec.specs.Meaning.{HasNoProducts, HasValue, IsFirstNamed, IsKnownAs};
ghost use Rattle.cap_resolve_spec.specs.Meaning.{IsRegionNamed, IsFunctionNamed};

/// A law: what is refused is a finding with the least place and, at one place, the least number, or
/// the want of a `main` where nothing else is wrong. Nothing is refused exactly where nothing is
/// wrong.
pub fn refusals_are_first()
    ensures first { (t : ProgramTree) (f : Finding) → refusal t ≡ Some f → IsRefusal t f }
    ensures none { (t : ProgramTree) → (refusal t ≡ None) ↔ IsRight t }
{}

/// A law: where no product in a term is one of two names, its linear form has, at every valuation,
/// the value of the term as it is written, by its operators.
pub fn linear_forms_have_the_values_of_their_terms()
    ensures { (scope : NameScope) (t : TermTree) → HasNoProducts t → HasValue scope t }
{}

/// A law: a known name stands for the first variable of its scope that has it, and of the functions
/// and of the region types of one name the first is meant.
pub fn names_stand_for_the_first_that_has_them()
    ensures variables { (scope : NameScope) (x : List ℕ) → knows scope x ≡ true
        → IsFirstNamed (IsKnownAs x) scope (variable_of scope x) }
    ensures functions { (fs : List FunctionTree) (x : List ℕ) (f : FunctionTree)
        → function_named fs x ≡ Some f
        → IsFirstNamed (IsFunctionNamed x) fs (function_number fs x) }
    ensures regions { (rs : List RegionTree) (x : List ℕ) (k : NumberedRegion)
        → region_named rs x ≡ Some k
        → IsFirstNamed (IsRegionNamed x) (numbered_regions rs) (type_number rs x) }
{}

/// A law: the program for which a tree stands is well-formed, where the tree has no more tokens
/// than a text may have bytes.
pub fn programs_are_well_formed()
    ensures { (t : ProgramTree) (p : PlainProgram) → length (spelling t) ≤ most_members
        → Stands t p → IsWellFormed p }
{}
