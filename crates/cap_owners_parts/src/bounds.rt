//! Whether two sets of indices meet, along their bounds.
ghost use Rattle.std.specs.Prelude.{◌≡◌, ◌≤◌, ◌&&◌, ◌||◌, length, drop, not};
ghost use Rattle.cap_galg_indices.specs.Sets.{AreBounds, are_disjoint};

/// The bounds behind the first.
pub(crate) fn after_first(bounds: &[u128]) -> &[u128]
    requires { 1 ≤ length bounds.now }
    ensures { result.now ≡ drop 1 bounds.now }
{
    &bounds[1..]
}

// Whether some index is in two sets, of which one has no bound to come: in the one that has it, it
// is now or from the next bound on.
fn meet_in_the_end(in_left: bool, in_right: bool, left_goes_on: bool, right_goes_on: bool) -> bool
    ensures { result
        ≡ ((in_left && (in_right || right_goes_on)) || (in_right && left_goes_on)) }
{
    (in_left && (in_right || right_goes_on)) || (in_right && left_goes_on)
}

/// Whether some index is in both of two sets.
pub(crate) fn meet(left: &[u128], right: &[u128]) -> bool
    requires left { AreBounds left.now }
    requires right { AreBounds right.now }
    ensures { not result ≡ are_disjoint left.now right.now }
{
    let mut left = left;
    let mut right = right;
    let mut in_left = false;
    let mut in_right = false;
    while !left.is_empty() && !right.is_empty() {
        if in_left && in_right {
            return true;
        }
        let x = left[0];
        let y = right[0];
        if x < y {
            in_left = !in_left;
            left = after_first(left);
        } else if y < x {
            in_right = !in_right;
            right = after_first(right);
        } else {
            in_left = !in_left;
            in_right = !in_right;
            left = after_first(left);
            right = after_first(right);
        }
    }
    meet_in_the_end(in_left, in_right, !left.is_empty(), !right.is_empty())
}
