//! Tests of sets, along their bounds.
ghost use Rattle.std.specs.Prelude.{◌≡◌, ◌≤◌, ◌++◌, ◌&&◌, ◌||◌, length, drop};
ghost use Rattle.std.specs.List.{list_any};
ghost use Rattle.cap_galg_indices.specs.Sets.{AreBounds, exactly_one, has};

/// Whether an index is in a set.
pub fn holds(bounds: &[u128], index: u128) -> bool
    ensures { result ≡ has bounds.now index }
{
    let mut inside = false;
    for bound in bounds {
        if *bound <= index {
            inside = !inside;
        }
    }
    inside
}

/// The bounds behind the first.
pub fn after_first(bounds: &[u128]) -> &[u128]
    requires { 1 ≤ length bounds.now }
    ensures { result.now ≡ drop 1 bounds.now }
{
    &bounds[1..]
}

// Whether some index is in two sets, of which one has no bound to come: in the one that has it, it
// is now or from the next bound on.
fn meet_in_the_end(in_left: bool, in_right: bool, left_goes_on: bool, right_goes_on: bool) -> bool
    ensures { result
        ≡ ((in_left && (in_right || right_goes_on)) || (in_right && left_goes_on)) }
{
    (in_left && (in_right || right_goes_on)) || (in_right && left_goes_on)
}

/// Whether some index is in the first set and, as `outside` says, outside the second one or in it.
pub fn meet(left: &[u128], right: &[u128], outside: bool) -> bool
    requires left { AreBounds left.now }
    requires right { AreBounds right.now }
    ensures { result ≡ list_any
        (λ n. has left.now n && exactly_one outside (has right.now n)) (left.now ++ right.now) }
{
    let mut left = left;
    let mut right = right;
    let mut in_left = false;
    let mut in_right = outside;
    while !left.is_empty() && !right.is_empty() {
        if in_left && in_right {
            return true;
        }
        let x = left[0];
        let y = right[0];
        if x < y {
            in_left = !in_left;
            left = after_first(left);
        } else if y < x {
            in_right = !in_right;
            right = after_first(right);
        } else {
            in_left = !in_left;
            in_right = !in_right;
            left = after_first(left);
            right = after_first(right);
        }
    }
    meet_in_the_end(in_left, in_right, !left.is_empty(), !right.is_empty())
}
