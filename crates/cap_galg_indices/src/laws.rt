//! Laws of sets of indices, each the contract of a function that does nothing.
ghost use Rattle.std.specs.Prelude.{◌≡◌, ◌↔◌, ◌≤◌, ◌==◌, ◌&&◌, nat_le};
ghost use Rattle.std.specs.Prelude.{ℕ, List, [], true, false};
ghost use Rattle.std.specs.Prelude.{nat_lt, Some, option_and_then};
ghost use Rattle.cap_galg_indices.specs.Sets.{AreBounds, has, all_indices, one_index, indices_from};
ghost use Rattle.cap_galg_indices.specs.Sets.{index_range, is_empty, is_full, are_disjoint};
ghost use Rattle.cap_galg_indices.specs.Sets.{is_within, composed, ArePartsOf, IsCompletedTo};

/// Sets that have the same indices are equal.
pub fn sets_with_the_same_indices_are_equal()
    ensures { (xs ys : List ℕ) → AreBounds xs → AreBounds ys →
        ((n : ℕ) → has xs n ≡ has ys n) → xs ≡ ys }
{}

/// The empty set, all indices, one index, all from one on, and a range are sets, and have just the
/// indices that their names say.
pub fn named_sets_have_their_indices()
    ensures sets { (i j : ℕ) → AreBounds all_indices × AreBounds (one_index i)
        × AreBounds (indices_from i) × AreBounds (index_range i j) }
    ensures empty { (n : ℕ) → has [] n ≡ false }
    ensures all { (n : ℕ) → has all_indices n ≡ true }
    ensures one { (i n : ℕ) → has (one_index i) n ≡ (n == i) }
    ensures from { (i n : ℕ) → has (indices_from i) n ≡ nat_le i n }
    ensures range { (i j n : ℕ) → has (index_range i j) n ≡ (nat_le i n && nat_lt n j) }
{}

/// What is tested at bounds alone is so of all indices: a set is empty where it has none, full
/// where it has all, disjoint from another where no index is in both, and within another where each
/// of its indices is in that.
pub fn tests_speak_of_all_indices()
    ensures empty { (xs : List ℕ) → AreBounds xs →
        (is_empty xs ≡ true) ↔ ((n : ℕ) → has xs n ≡ false) }
    ensures full { (xs : List ℕ) → AreBounds xs →
        (is_full xs ≡ true) ↔ ((n : ℕ) → has xs n ≡ true) }
    ensures disjoint { (xs ys : List ℕ) →
        (are_disjoint xs ys ≡ true) ↔ ((n : ℕ) → (has xs n && has ys n) ≡ false) }
    ensures within { (xs ys : List ℕ) →
        (is_within xs ys ≡ true) ↔ ((n : ℕ) → has xs n ≡ true → has ys n ≡ true) }
{}

/// Two sets compose to a third exactly where no index is in both, and the third has just the
/// indices of both.
pub fn sets_compose_to_their_union()
    ensures { (xs ys zs : List ℕ) → AreBounds xs → AreBounds ys → AreBounds zs →
        (composed xs ys ≡ Some zs) ↔ ArePartsOf xs ys zs }
{}

/// Sets are a partial commutative monoid, whose unit is the empty set: composition stays among
/// sets, commutes and associates, also in whether there is any. What completes a set to another is
/// one set, and only the empty set is part of the empty set.
pub fn sets_are_a_partial_commutative_monoid()
    ensures closed { (xs ys zs : List ℕ) → AreBounds xs → AreBounds ys →
        composed xs ys ≡ Some zs → AreBounds zs }
    ensures commutes { (xs ys : List ℕ) → AreBounds xs → AreBounds ys →
        composed xs ys ≡ composed ys xs }
    ensures associates { (xs ys zs : List ℕ) → AreBounds xs → AreBounds ys → AreBounds zs →
        option_and_then (λ u. composed u zs) (composed xs ys)
        ≡ option_and_then (λ u. composed xs u) (composed ys zs) }
    ensures unit { (xs : List ℕ) → AreBounds xs → composed xs [] ≡ Some xs }
    ensures cancels { (xs ys ws zs : List ℕ) → AreBounds xs → AreBounds ys → AreBounds ws →
        composed xs ys ≡ Some zs → composed xs ws ≡ Some zs → ys ≡ ws }
    ensures positive { (xs ys : List ℕ) → AreBounds xs → composed xs ys ≡ Some [] → xs ≡ [] }
{}

/// All indices are the full set: it composes with the empty set alone, and each set is completed to
/// it.
pub fn all_indices_are_the_full_set()
    ensures only { (xs : List ℕ) → (is_full xs ≡ true) ↔ (xs ≡ all_indices) }
    ensures alone { (xs zs : List ℕ) → AreBounds xs →
        composed all_indices xs ≡ Some zs → xs ≡ [] }
    ensures above { (xs : List ℕ) → AreBounds xs → IsCompletedTo xs all_indices }
{}

/// A set is within another exactly where some set completes it to that.
pub fn sets_within_others_are_completed()
    ensures { (xs ys : List ℕ) → AreBounds xs → AreBounds ys →
        (is_within xs ys ≡ true) ↔ IsCompletedTo xs ys }
{}

/// A range composes with what begins where it ends, and so is cut at any index.
pub fn ranges_that_touch_compose()
    ensures range { (i j k : ℕ) → i ≤ j → j ≤ k →
        composed (index_range i j) (index_range j k) ≡ Some (index_range i k) }
    ensures rest { (i j : ℕ) → i ≤ j →
        composed (index_range i j) (indices_from j) ≡ Some (indices_from i) }
{}
