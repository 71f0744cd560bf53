//! Linear forms of as many variables as memory has room for.
ghost use Rattle.std.specs.Prelude.{◌≡◌, ◌++◌, [], ◌∷◌, ◌+ℤ◌, ◌*ℤ◌, slice_get, option_map, OnOk};
ghost use Rattle.cap_lin.specs.Linear.{merged, sums, multiples, put_part, parts_behind};
ghost use Rattle.cap_lin.specs.Steps.{sum_of, product_of, sums_steps, multiples_steps};
ghost use Rattle.cap_lin.specs.Exact.{IsExact, IsExactBy};

use crate::exact::LinearForm;
use cap_lin::LinError;
use std::alloc::{AllocError, Global};
use std::marker::Model;

/// A linear form whose variables may have any numbers: a constant, and pairs of a variable and its
/// coefficient.
#[derive(Drop)]
pub struct LongForm {
    constant: i128,
    parts: Vec<(u128, i128)>,
}

impl Model for LongForm {
    ghost use Rattle.cap_lin.specs.Linear.{Linear};

    ghost Value = { Linear };

    ghost view = { λ f. record { constant = f.constant; parts = f.parts.items } };
}

impl LinearForm for LongForm {
    ghost form = { λ f. f };

    ghost HasRoom = { λ _. Unit {0} };

    fn constant(alloc: Global, value: i128) -> LongForm {
        LongForm {
            constant: value,
            parts: Vec::new(alloc),
        }
    }

    fn variable(alloc: Global, v: u128) -> Result<LongForm, LinError> {
        let mut parts = Vec::new(alloc);
        parts.push((v, 1))?;
        Ok(LongForm { constant: 0, parts })
    }

    fn is_constant(&self) -> bool {
        self.parts.is_empty()
    }

    fn constant_part(&self) -> i128 {
        self.constant
    }

    fn add(&self, alloc: Global, other: &LongForm) -> Result<LongForm, LinError> {
        let constant = sum(self.constant, other.constant)?;
        let parts = add_parts(alloc, &self.parts, &other.parts)?;
        Ok(LongForm { constant, parts })
    }

    fn scale(&self, alloc: Global, k: i128) -> Result<LongForm, LinError> {
        let constant = product(k, self.constant)?;
        let parts = scale_parts(alloc, k, &self.parts)?;
        Ok(LongForm { constant, parts })
    }
}

/// A variable with its coefficients in two forms, 0 where a form lacks it.
#[derive(Clone, Copy)]
struct Pair {
    variable: u128,
    left: i128,
    right: i128,
}

fn sum(a: i128, b: i128) -> Result<i128, LinError>
    ensures { IsExact result (sum_of a b ∷ []) (a +ℤ b) }
{
    match a.checked_add(b) {
        Some(sum) => Ok(sum),
        None => Err(LinError::Wide(a, b)),
    }
}

fn product(a: i128, b: i128) -> Result<i128, LinError>
    ensures { IsExact result (product_of a b ∷ []) (a *ℤ b) }
{
    match a.checked_mul(b) {
        Some(product) => Ok(product),
        None => Err(LinError::Wide(a, b)),
    }
}

/// Appends a part, unless its coefficient is 0.
fn put(parts: &mut Vec<(u128, i128)>, variable: u128, coefficient: i128) -> Result<(), AllocError>
    ensures { OnOk result
        (parts.new.items ≡ parts.old.items ++ put_part variable coefficient []) }
{
    if coefficient != 0 {
        parts.push((variable, coefficient))?;
    }
    Ok(())
}

/// The least variable of two lists of parts, with its coefficients in both.
fn least(left: &[(u128, i128)], right: &[(u128, i128)]) -> Option<Pair>
    ensures { slice_get (merged left.now right.now) 0 ≡ option_map
        (λ (p : Pair). record { variable = p.variable; left = p.left; right = p.right }) result }
{
    match left {
        [] => match right {
            [] => None,
            [(variable, coefficient), ..] => Some(Pair {
                variable: *variable,
                left: 0,
                right: *coefficient,
            }),
        },
        [(x, a), ..] => match right {
            [] => Some(Pair {
                variable: *x,
                left: *a,
                right: 0,
            }),
            [(y, b), ..] => {
                if *x < *y {
                    Some(Pair {
                        variable: *x,
                        left: *a,
                        right: 0,
                    })
                } else if *y < *x {
                    Some(Pair {
                        variable: *y,
                        left: 0,
                        right: *b,
                    })
                } else {
                    Some(Pair {
                        variable: *x,
                        left: *a,
                        right: *b,
                    })
                }
            }
        },
    }
}

/// The parts, without the first where it is of this variable.
fn behind(parts: &[(u128, i128)], variable: u128) -> &[(u128, i128)]
    ensures { result.now ≡ parts_behind variable parts.now }
{
    match parts {
        [(first, _), rest @ ..] if *first == variable => rest,
        _ => parts,
    }
}

fn add_parts(
    alloc: Global,
    left: &[(u128, i128)],
    right: &[(u128, i128)],
) -> Result<Vec<(u128, i128)>, LinError>
    ensures { IsExactBy result (λ parts. parts.items)
        (sums_steps (merged left.now right.now)) (sums (merged left.now right.now)) }
{
    let mut parts = Vec::with_capacity(alloc, left.len().saturating_add(right.len()))?;
    let mut left = left;
    let mut right = right;
    while let Some(pair) = least(left, right) {
        let coefficient = sum(pair.left, pair.right)?;
        put(&mut parts, pair.variable, coefficient)?;
        left = behind(left, pair.variable);
        right = behind(right, pair.variable);
    }
    Ok(parts)
}

fn scale_parts(
    alloc: Global,
    k: i128,
    parts: &[(u128, i128)],
) -> Result<Vec<(u128, i128)>, LinError>
    ensures { IsExactBy result (λ scaled. scaled.items)
        (multiples_steps k parts.now) (multiples k parts.now) }
{
    let mut scaled = Vec::with_capacity(alloc, parts.len())?;
    for part in parts {
        let (variable, coefficient) = *part;
        let multiple = product(k, coefficient)?;
        put(&mut scaled, variable, multiple)?;
    }
    Ok(scaled)
}
