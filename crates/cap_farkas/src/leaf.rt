//! The check of a leaf: its multipliers combine the rows to a row that nothing solves.
ghost use Rattle.std.specs.Prelude.{◌≡◌, ◌<◌, ◌↔◌, ℕ, IsTrue, Some};
ghost use Rattle.cap_farkas.specs.Farkas.{MayMultiply, Names, SumsTo, Cancels, HasStrict};
ghost use Rattle.cap_farkas.specs.Farkas.{Contradicts, RefutesLeaf};
ghost use Rattle.cap_farkas.specs.System.{part_of, all_rows, AreAppended, IsNextFrom, Earlier};

use crate::system::{Appended, Column, kind_at, part_at, variable_at};
use cap_lin::{Kind, Row};

/// Whether a leaf refutes the rows and the appended one behind them.
pub fn refutes_leaf(rows: &[Row], appended: Option<Appended>, leaf: &[(u32, i128)]) -> bool
    requires { AreAppended rows.now appended }
    ensures { IsTrue result ↔ RefutesLeaf (all_rows rows.now appended) leaf.now }
{
    if !names_rows(rows, appended, leaf) {
        return false;
    }
    if !cancels(rows, appended, leaf) {
        return false;
    }
    match sum_of(rows, appended, leaf, Column::Constant) {
        None => false,
        Some(total) => contradicts(rows, appended, leaf, total),
    }
}

fn may_multiply(kind: Kind, multiplier: i128) -> bool
    ensures { IsTrue result ↔ MayMultiply kind multiplier }
{
    match kind {
        Kind::Le => multiplier > 0,
        Kind::Lt => multiplier > 0,
        Kind::Eq => multiplier != 0,
        Kind::Ne => false,
    }
}

// Whether the numbers ascend and are those of rows that may be taken with their multipliers.
fn names_rows(rows: &[Row], appended: Option<Appended>, leaf: &[(u32, i128)]) -> bool
    requires { AreAppended rows.now appended }
    ensures { IsTrue result ↔ Names 0 (all_rows rows.now appended) leaf.now }
{
    let mut low: u64 = 0;
    for entry in leaf {
        let (number, multiplier) = *entry;
        if (number as u64) < low {
            return false;
        }
        match kind_at(rows, appended, number) {
            None => return false,
            Some(kind) => {
                if !may_multiply(kind, multiplier) {
                    return false;
                }
            }
        }
        low = number as u64 + 1;
    }
    true
}

// The sum of a column, unless a result on the way leaves 128 bits.
fn sum_of(
    rows: &[Row],
    appended: Option<Appended>,
    leaf: &[(u32, i128)],
    column: Column,
) -> Option<i128>
    requires { AreAppended rows.now appended }
    ensures { SumsTo (part_of column) (all_rows rows.now appended) leaf.now result }
{
    let mut sum: i128 = 0;
    for entry in leaf {
        let (number, multiplier) = *entry;
        let part = part_at(rows, appended, number, column);
        match multiplier.checked_mul(part) {
            None => return None,
            Some(product) => match sum.checked_add(product) {
                None => return None,
                Some(next) => sum = next,
            },
        }
    }
    Some(sum)
}

fn earlier(a: Option<u32>, b: Option<u32>) -> Option<u32>
    ensures { Earlier a b result }
{
    match a {
        None => b,
        Some(x) => match b {
            None => a,
            Some(y) => Some(x.min(y)),
        },
    }
}

// The least variable of the named rows that is at least `low`.
fn next_variable(
    rows: &[Row],
    appended: Option<Appended>,
    leaf: &[(u32, i128)],
    low: u64,
) -> Option<u32>
    requires { AreAppended rows.now appended }
    ensures { IsNextFrom low (all_rows rows.now appended) leaf.now result }
{
    let mut next = None;
    for entry in leaf {
        let (number, _) = *entry;
        next = earlier(next, variable_at(rows, appended, number, low));
    }
    next
}

// Whether the column of each variable stays within 128 bits and adds up to 0.
fn cancels(rows: &[Row], appended: Option<Appended>, leaf: &[(u32, i128)]) -> bool
    requires { AreAppended rows.now appended }
    ensures { IsTrue result ↔ ((x : ℕ) → Cancels (all_rows rows.now appended) leaf.now x) }
{
    let mut low: u64 = 0;
    while let Some(variable) = next_variable(rows, appended, leaf, low) {
        match sum_of(rows, appended, leaf, Column::Of(variable)) {
            None => return false,
            Some(sum) => {
                if sum != 0 {
                    return false;
                }
            }
        }
        low = variable as u64 + 1;
    }
    true
}

fn has_strict(rows: &[Row], appended: Option<Appended>, leaf: &[(u32, i128)]) -> bool
    requires { AreAppended rows.now appended }
    ensures { IsTrue result ↔ HasStrict (all_rows rows.now appended) leaf.now }
{
    for entry in leaf {
        let (number, _) = *entry;
        if is_strict(kind_at(rows, appended, number)) {
            return true;
        }
    }
    false
}

fn is_strict(kind: Option<Kind>) -> bool
    ensures { IsTrue result ↔ kind ≡ Some Kind.Lt }
{
    match kind {
        Some(Kind::Lt) => true,
        Some(Kind::Le) => false,
        Some(Kind::Eq) => false,
        Some(Kind::Ne) => false,
        None => false,
    }
}

fn contradicts(rows: &[Row], appended: Option<Appended>, leaf: &[(u32, i128)], sum: i128) -> bool
    requires { AreAppended rows.now appended }
    ensures { IsTrue result ↔ Contradicts (all_rows rows.now appended) leaf.now sum }
{
    if sum > 0 {
        return true;
    }
    sum == 0 && has_strict(rows, appended, leaf)
}
