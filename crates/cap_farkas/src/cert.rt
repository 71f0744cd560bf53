//! Certificates that rows have no solution, and the check of one (Farkas' lemma).
ghost use Rattle.std.specs.Prelude.{◌≡◌, ◌<◌, ◌↔◌, IsTrue, length};
ghost use Rattle.cap_lin.specs.Solves.{HasNone, Infeasible};
ghost use Rattle.cap_farkas.specs.Refutes.{Refutes, Excludes, RefutesSide};

use crate::leaf::refutes_leaf;
use crate::system::{Appended, Side, is_narrow};
use cap_lin::{Kind, Row};
use std::marker::Model;

/// Pairs of a row's number, counted from 0, and its multiplier. Contracts see them as the list.
#[derive(Drop)]
pub struct Multipliers {
    items: Vec<(u32, i128)>,
}

impl Model for Multipliers {
    ghost use Rattle.std.specs.Prelude.{List, ℕ, ℤ};

    ghost Value = { List (ℕ × ℤ) };

    ghost view = { λ m. m.items.items };
}

impl Multipliers {
    /// The multipliers of a list.
    pub fn new(items: Vec<(u32, i128)>) -> Self
        ensures { result ≡ items.items }
    {
        Multipliers { items }
    }

    /// The list of the multipliers.
    pub fn into_vec(self) -> Vec<(u32, i128)>
        ensures { result.items ≡ self }
    {
        self.items
    }

    /// The multipliers as a slice.
    pub fn as_slice(&self) -> &[(u32, i128)]
        ensures { result.now ≡ self.now }
    {
        &self.items
    }
}

/// A certificate that rows have no valuation, by Farkas' lemma.
pub enum Cert {
    /// The rows, times their multipliers, add up to a contradiction.
    Leaf(Multipliers),
    /// The number of a row Ne, counted from 0. The first multipliers refute the rows with a row
    /// behind them, that its term is below 0, and the second ones those with the term above 0.
    Split(u32, Multipliers, Multipliers),
}

impl Drop for Cert {
    fn drop(self) {
        match self {
            Cert::Leaf(_) | Cert::Split(_, _, _) => {}
        }
    }
}

/// Whether the certificate refutes the rows. It takes no memory. Each product and each partial sum
/// has to stay within 128 bits, in a leaf row by row.
pub fn refutes(rows: &[Row], cert: &Cert) -> bool
    ensures exact { IsTrue result ↔ Refutes rows.now cert.now }
    ensures excludes { IsTrue result → Excludes rows.now cert.now }
    ensures infeasible { IsTrue result → Infeasible rows.now }
    ensures no_valuation { IsTrue result → HasNone rows.now }
{
    is_refutation(rows, cert)
}

fn is_refutation(rows: &[Row], cert: &Cert) -> bool
    ensures { IsTrue result ↔ Refutes rows.now cert.now }
{
    match cert {
        Cert::Leaf(leaf) => refutes_leaf(rows, None, leaf.as_slice()),
        Cert::Split(place, below, above) => {
            let place = *place as usize;
            if place >= rows.len() {
                return false;
            }
            if rows[place].kind != Kind::Ne {
                return false;
            }
            refutes_side(rows, place, Side::Below, below.as_slice())
                && refutes_side(rows, place, Side::Above, above.as_slice())
        }
    }
}

// Whether a leaf refutes the rows with the row behind them that a row's term is on this side of 0.
fn refutes_side(rows: &[Row], place: usize, side: Side, leaf: &[(u32, i128)]) -> bool
    requires { place < length rows.now }
    ensures { IsTrue result ↔
        RefutesSide rows.now (record { place = place; side = side }) leaf.now }
{
    is_narrow(&rows[place], side) && refutes_leaf(rows, Some(Appended { place, side }), leaf)
}
