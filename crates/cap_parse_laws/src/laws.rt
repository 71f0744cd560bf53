//! Laws of the grammar: what is read is what was spelled, and what goes wrong does so at one token.
// The tokens of a text of either version are read as the grammar sees them.

ghost use Rattle.std.specs.Prelude.{◌≡◌, ℕ, ◌≤◌, ◌⊎◌, ◌↔◌, List, [], ◌∷◌, ◌++◌, length, All, Ok};
ghost use Rattle.std.specs.Prelude.{Err};
ghost use Rattle.cap_syntax.specs.declared.token.Token.{Token};
ghost use Rattle.cap_syntax.specs.Layout.{end_of, AreTokensOf};
ghost use Rattle.cap_syntax.specs.Printing.{IsSpelled};
ghost use Rattle.cap_syntax.specs.Refusal.{max_text};
ghost use Rattle.cap_parse_tree.specs.Tree.{ProgramTree};
ghost use Rattle.cap_parse_tree.specs.Spelling.{spelling};
ghost use Rattle.cap_parse_tree.specs.Nesting.{max_nesting, Nests};
ghost use Rattle.cap_parse_tree.specs.Canonical.{canonical_text};
ghost use Rattle.cap_parse_laws.specs.Readers.{unexpected, too_deep};
ghost use Rattle.cap_parse_laws.specs.Grammar.{read_program};
ghost use Rattle.cap_parse_laws.specs.Versions.{worded, behind};
ghost use Rattle.cap_parse_laws.specs.Texts.{Spells, BeginsText, IsUnexpectedAt, IsTooDeepAt};
ghost use Rattle.cap_parse_laws.specs.Texts.{AreSameApartFromPlaces};

use cap_syntax::printed_tokens_read_back;

/// A law: tokens, as they are seen, are read as a tree where they spell it and its brackets nest; no
/// two trees are spelled alike, and no two texts are seen alike.
pub fn texts_are_read_as_spelled()
    ensures sound { (ts : List Token) (t : ProgramTree) →
        read_program max_nesting ts ≡ Ok t → (ts ≡ spelling t) × Nests t }
    ensures complete { (t : ProgramTree) → Nests t → read_program max_nesting (spelling t) ≡ Ok t }
    ensures spelled_once { (t u : ProgramTree) → spelling t ≡ spelling u → t ≡ u }
    ensures seen_once { (ts us : List Token) → All IsSpelled ts → All IsSpelled us →
        worded ts ≡ worded us → ts ≡ us }
{}

/// A law: reading refuses the tokens of a text at the first one after which no text of either version
/// goes on so, or at the first bracket that opens too deep, whichever comes first; each list is a text,
/// or is refused so. Where tokens that bytes spell begin a text, they begin one that bytes spell.
pub fn texts_go_wrong_at_one_token()
    ensures unexpected_exactly { (ts seen : List Token) →
        (read_program max_nesting (worded ts) ≡ Err (unexpected seen))
        ↔ ((rest : List Token) × (u : IsUnexpectedAt ts rest) × (behind u.front rest ≡ seen)) }
    ensures too_deep_exactly { (ts seen : List Token) →
        (read_program max_nesting (worded ts) ≡ Err (too_deep seen))
        ↔ ((rest : List Token) × (u : IsTooDeepAt ts rest) × (behind u.front rest ≡ seen)) }
    ensures one_of_three { (ts : List Token) →
        ((t : ProgramTree) × (worded ts ≡ spelling t) × Nests t)
        ⊎ ((rest : List Token) × IsUnexpectedAt ts rest)
        ⊎ ((rest : List Token) × IsTooDeepAt ts rest) }
    ensures goes_on { (front : List Token) → All IsSpelled front → BeginsText front
        → (others : List Token) × (tree : ProgramTree) × All IsSpelled others
        × (worded (front ++ others) ≡ spelling tree) }
{}

/// A law: the canonical text of a tree is read again as that tree, apart from the places. It holds of
/// each tree that a text spells, since the tokens of a text are spelled.
pub fn canonical_texts_read_back()
    ensures tokens { (ts : List Token) (t : ProgramTree) →
        worded ts ≡ spelling t → All IsSpelled ts → Nests t
        → (us : List Token) × (again : ProgramTree)
        × AreTokensOf (canonical_text t) (us ++ end_of (canonical_text t) ∷ [])
        × (worded us ≡ spelling again) × Nests again × AreSameApartFromPlaces again t }
    ensures text { (bytes : List ℕ) (t : ProgramTree) →
        Spells bytes t → length (canonical_text t) ≤ max_text
        → (again : ProgramTree) × Spells (canonical_text t) again × AreSameApartFromPlaces again t }
{
    printed_tokens_read_back();
}
