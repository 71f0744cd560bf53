//! Linear terms: a constant and multiples of variables, within 128 bits.
ghost use Rattle.std.specs.Prelude.{◌≡◌, ◌<◌, ◌≤◌, ℕ, ℤ, ◌+ℤ◌, ◌*ℤ◌, [], ◌∷◌, ◌++◌, List, length};
ghost use Rattle.std.specs.Prelude.{drop, OnOk, IfOk, IfSome, IsTrue, ◌↔◌, MatchResult, IfErr, ◌≢◌};
ghost use Rattle.std.specs.Prelude.{slice_get, pos};
ghost use Rattle.cap_lin.specs.Linear.{AscendFrom, put_part, coefficient, number, variable, merged};
ghost use Rattle.cap_lin.specs.Linear.{parts_behind, sums, IsBelow, IsLeastFrom, IsPlaceFrom, plus};
ghost use Rattle.cap_lin.specs.Linear.{minus, negative, plus_one, multiples, times, combined_parts};
ghost use Rattle.cap_lin.specs.Linear.{combination, parts_without, without, replaced};
ghost use Rattle.cap_lin.specs.Steps.{sum_of, product_of, sums_steps, plus_steps, minus_steps};
ghost use Rattle.cap_lin.specs.Steps.{negative_steps, multiples_steps, times_steps, part_steps};
ghost use Rattle.cap_lin.specs.Steps.{combined_parts_steps, combination_steps, replaced_steps};
ghost use Rattle.cap_lin.specs.Steps.{value_steps};
ghost use Rattle.cap_lin.specs.Exact.{IsExact, IsExactBy, IsShort, IsCombined};
ghost use Rattle.cap_lin.specs.Values.{value, number_at, changed};

use crate::error::LinError;
use smallvec::SmallVec;
use std::alloc::{AllocError, Global};
use std::hash::{Hash, Hasher};
use std::marker::Model;

// How many parts a term has with no memory of its own: most terms have one or two.
const INLINE: usize = 2;

const SHORT: i128 = 1 << 62;

type Parts = SmallVec<(u32, i128), 2>;

/// A linear term: a constant, and pairs of a variable and its coefficient, in ascending order of
/// variables and without coefficients of 0, so that a term has one form. Variables are numbers.
///
/// Arithmetic is exact: an operation gives its term, or the two operands of the first sum or
/// product on the way that leaves 128 bits.
pub struct Term {
    constant: i128,
    parts: Parts,
}

impl Drop for Term {
    fn drop(self) {
        let Term {
            constant: _,
            parts: _,
        } = self;
    }
}

impl Model for Term {
    ghost use Rattle.cap_lin.specs.Linear.{Linear, AscendFrom};

    ghost Value = { Linear };

    ghost view = { λ t. record { constant = t.constant; parts = t.parts.items } };

    ghost invariant = { λ t. AscendFrom 0 t.parts.items };
}

impl PartialEq for Term {
    ghost use Rattle.std.specs.Cmp.{partial_equiv_from_equiv};
    ghost use Rattle.cap_lin.specs.Linear.{same_term};
    ghost use Rattle.cap_lin.specs.Laws.Sameness.{same_term-equivalence};

    ghost eq = { same_term };

    ghost laws = { partial_equiv_from_equiv same_term-equivalence };

    fn eq(&self, other: &Term) -> bool {
        self.constant == other.constant && self.parts == other.parts
    }
}

impl Eq for Term {
    ghost use Rattle.cap_lin.specs.Laws.Sameness.{same_term-equivalence};

    ghost laws = { same_term-equivalence };
}

impl Hash for Term {
    ghost use Rattle.std.specs.Prelude.{◌++◌};
    ghost use Rattle.std.specs.Hash as fed;
    ghost use Rattle.std.specs.Hash.{same_Alike};
    ghost use Rattle.cap_lin.specs.Laws.Sameness.{same_term-decides};

    ghost hash_input = { λ t. fed.i128 t.constant
        ++ fed.slice (λ p. fed.u32 p.0 ++ fed.i128 p.1) t.parts };

    ghost respects_eq = { (same_Alike _ same_term-decides).fed };

    fn hash<H: Hasher>(&self, state: &mut H) {
        self.constant.hash(state);
        self.parts.hash(state);
    }
}

// A variable with its coefficients in two terms, 0 where a term lacks it.
#[derive(Clone, Copy)]
struct Pair {
    variable: u32,
    left: i128,
    right: i128,
}

impl Term {
    /// The term that is a number. It takes no memory.
    pub fn constant(alloc: Global, constant: i128) -> Term
        ensures { result ≡ number constant }
    {
        Term {
            constant,
            parts: SmallVec::new(alloc),
        }
    }

    /// The term that is a variable.
    pub fn var(alloc: Global, v: u32) -> Result<Term, LinError>
        ensures { MatchResult result (λ t. t ≡ variable v) (λ e. e ≡ LinError.OutOfMemory) }
    {
        let mut parts = SmallVec::new(alloc);
        parts.push((v, 1))?;
        Ok(Term { constant: 0, parts })
    }

    /// The term's constant.
    pub fn constant_part(&self) -> i128
        ensures { result ≡ self.now.constant }
    {
        self.constant
    }

    /// The pairs of a variable and its coefficient.
    pub fn parts(&self) -> &[(u32, i128)]
        ensures parts { result.now ≡ self.now.parts }
        ensures ascend { AscendFrom 0 result.now }
    {
        &self.parts
    }

    /// The coefficient of a variable, 0 where the term lacks it.
    pub fn coefficient(&self, v: u32) -> i128
        ensures coefficient { result ≡ coefficient v self.now.parts }
        ensures ascend { AscendFrom 0 self.now.parts }
    {
        let parts = self.parts.as_slice();
        let place = first_from(parts, v as u64);
        if place < parts.len() && parts[place].0 == v {
            parts[place].1
        } else {
            0
        }
    }

    /// The least variable of the term that is at least `low`.
    pub fn variable_from(&self, low: u64) -> Option<u32>
        ensures { IsLeastFrom low self.now.parts result }
    {
        let parts = self.parts.as_slice();
        let place = first_from(parts, low);
        if place < parts.len() {
            Some(parts[place].0)
        } else {
            None
        }
    }

    /// Whether two terms are the same.
    pub fn same(&self, other: &Term) -> bool
        ensures { IsTrue result ↔ (self.now ≡ other.now) }
    {
        self == other
    }

    /// The same term once more.
    pub fn copy(&self, alloc: Global) -> Result<Term, AllocError>
        ensures { IfOk result (λ t. t ≡ self.now) }
    {
        let parts = match self.parts.as_slice() {
            [] => SmallVec::new(alloc),
            [part] => one_part(alloc, *part),
            [first, second] => SmallVec::from_buf(alloc, [*first, *second]),
            parts => SmallVec::from_slice(alloc, parts)?,
        };
        Ok(Term {
            constant: self.constant,
            parts,
        })
    }

    // The term without a variable.
    fn without(&self, alloc: Global, v: u32) -> Result<Term, AllocError>
        ensures { IfOk result (λ t. t ≡ without v self.now) }
    {
        let parts = parts_without(alloc, &self.parts, v)?;
        Ok(Term {
            constant: self.constant,
            parts,
        })
    }

    /// The sum of two terms. Wide has the first sum, of the constants and then of the coefficients
    /// in the order of variables, that leaves 128 bits, with this term's number first.
    pub fn add(&self, alloc: Global, other: &Term) -> Result<Term, LinError>
        ensures exact { IsExact result (plus_steps self.now other.now) (plus self.now other.now) }
        ensures means { IfOk result
            (λ t. (n : ℕ → ℤ) → value n t ≡ value n self.now +ℤ value n other.now) }
    {
        let constant = sum(self.constant, other.constant)?;
        let parts = add_parts(alloc, &self.parts, &other.parts)?;
        Ok(Term { constant, parts })
    }

    /// The term times a number. Wide has the first product, of the constant and then of the
    /// coefficients in the order of variables, that leaves 128 bits, with the factor first.
    pub fn scale(&self, alloc: Global, k: i128) -> Result<Term, LinError>
        ensures exact { IsExact result (times_steps k self.now) (times k self.now) }
        ensures means { IfOk result (λ t. (n : ℕ → ℤ) → value n t ≡ k *ℤ value n self.now) }
    {
        let constant = product(k, self.constant)?;
        let parts = scale_parts(alloc, k, &self.parts)?;
        Ok(Term { constant, parts })
    }

    /// A multiple of this term plus a multiple of another one. Wide has the first result that
    /// leaves 128 bits: of the constants, and then of the coefficients in the order of variables,
    /// the product of `a` and this term's number, that of `b` and the other's, and then their sum.
    pub fn combination(
        &self,
        alloc: Global,
        a: i128,
        other: &Term,
        b: i128,
    ) -> Result<Term, LinError>
        ensures exact { IsExact result
            (combination_steps a self.now b other.now) (combination a self.now b other.now) }
        ensures means { IfOk result
            (λ t. (n : ℕ → ℤ) → value n t ≡ a *ℤ value n self.now +ℤ b *ℤ value n other.now) }
    {
        let constant = combined(a, self.constant, b, other.constant)?;
        let parts = combine_parts(alloc, a, &self.parts, b, &other.parts)?;
        Ok(Term { constant, parts })
    }

    /// The term times -1.
    pub fn negative(&self, alloc: Global) -> Result<Term, LinError>
        ensures { IsExact result (negative_steps self.now) (negative self.now) }
    {
        self.scale(alloc, -1)
    }

    /// The difference of two terms: this one plus the other one's negative, which is made first.
    pub fn minus(&self, alloc: Global, other: &Term) -> Result<Term, LinError>
        ensures { IsExact result (minus_steps self.now other.now) (minus self.now other.now) }
    {
        let negative = other.negative(alloc)?;
        self.add(alloc, &negative)
    }

    // The term plus 1.
    pub(crate) fn plus_one(self) -> Result<Term, LinError>
        ensures { IsExact result (sum_of self.constant (pos 1) ∷ []) (plus_one self) }
    {
        let Term { constant, parts } = self;
        let constant = sum(constant, 1)?;
        Ok(Term { constant, parts })
    }

    /// The term with another one in the place of a variable: its multiple by the variable's
    /// coefficient, added to the rest. Wide is as in `scale`, for the multiple, and then as in
    /// `add`, with the rest first. Where the term lacks the variable it is the term, never Wide.
    pub fn subst(&self, alloc: Global, v: u32, by: &Term) -> Result<Term, LinError>
        ensures exact { IsExact result
            (replaced_steps v by.now self.now) (replaced v by.now self.now) }
        ensures means { IfOk result
            (λ t. (n : ℕ → ℤ) → value n t ≡ value (changed n v (value n by.now)) self.now) }
    {
        let coefficient = self.coefficient(v);
        if coefficient == 0 {
            return Ok(self.copy(alloc)?);
        }
        let multiple = by.scale(alloc, coefficient)?;
        let rest = self.without(alloc, v)?;
        rest.add(alloc, &multiple)
    }

    /// Whether each variable is below a number.
    pub fn is_below(&self, count: usize) -> bool
        ensures { IsTrue result ↔ IsBelow count self.now }
    {
        self.parts.iter().all(|part| (part.0 as usize) < count)
    }

    /// The term's value, where `values` has the values of the variables 0, 1, 2 and on. It takes no
    /// memory. Wide has the first result that leaves 128 bits: for each part, in the order of
    /// variables, the product of coefficient and value, and then the sum so far and this product.
    pub fn value(&self, values: &[i128]) -> Result<i128, LinError>
        requires { IsBelow (length values.now) self.now }
        ensures exact { IsExact result
            (value_steps (number_at values.now) self.now.constant self.now.parts)
            (value (number_at values.now) self.now) }
        ensures no_memory { IfErr result (λ e. e ≢ LinError.OutOfMemory) }
    {
        let parts = self.parts.as_slice();
        let mut total = self.constant;
        for part in parts {
            let (variable, coefficient) = *part;
            let product = product(coefficient, values[variable as usize])?;
            total = sum(total, product)?;
        }
        Ok(total)
    }
}

// A list of one part. It takes no memory.
fn one_part(alloc: Global, part: (u32, i128)) -> Parts
    ensures { result.items ≡ part ∷ [] }
{
    let mut parts = SmallVec::new(alloc);
    parts.push_reserved(part);
    parts
}

fn parts_without(alloc: Global, parts: &[(u32, i128)], v: u32) -> Result<Parts, AllocError>
    ensures { IfOk result (λ rest. rest.items ≡ parts_without v parts.now) }
{
    parts
        .iter()
        .copied()
        .filter(|part| part.0 != v)
        .collect(alloc)
}

// The place of the first part whose variable is at least `low`.
fn first_from(parts: &[(u32, i128)], low: u64) -> usize
    requires { AscendFrom 0 parts.now }
    ensures { IsPlaceFrom low parts.now result }
{
    let mut start = 0;
    let mut end = parts.len();
    // An elimination takes variables in ascending order: it mostly asks for the first place.
    if start < end && low <= parts[0].0 as u64 {
        return 0;
    }
    while start < end {
        let middle = start + (end - start) / 2;
        if (parts[middle].0 as u64) < low {
            start = middle + 1;
        } else {
            end = middle;
        }
    }
    start
}

fn sum(a: i128, b: i128) -> Result<i128, LinError>
    ensures exact { IsExact result (sum_of a b ∷ []) (a +ℤ b) }
    ensures wide { IfErr result (λ e. e ≡ LinError.Wide a b) }
{
    match a.checked_add(b) {
        Some(sum) => Ok(sum),
        None => Err(LinError::Wide(a, b)),
    }
}

#[inline]
fn product(a: i128, b: i128) -> Result<i128, LinError>
    ensures exact { IsExact result (product_of a b ∷ []) (a *ℤ b) }
    ensures wide { IfErr result (λ e. e ≡ LinError.Wide a b) }
{
    if is_short(a) && is_short(b) {
        return Ok(a * b);
    }
    long_product(a, b)
}

// A product, which may leave 128 bits.
#[cold]
#[inline(never)]
fn long_product(a: i128, b: i128) -> Result<i128, LinError>
    ensures exact { IsExact result (product_of a b ∷ []) (a *ℤ b) }
    ensures wide { IfErr result (λ e. e ≡ LinError.Wide a b) }
{
    match a.checked_mul(b) {
        Some(product) => Ok(product),
        None => Err(LinError::Wide(a, b)),
    }
}

// Whether a number is from -2^62 to 2^62 - 1, so that a product of two such numbers, and a sum of
// two such products, is within 128 bits and needs no test.
#[inline]
fn is_short(number: i128) -> bool
    ensures { IsTrue result → IsShort number }
{
    -SHORT <= number && number < SHORT
}

// An empty list for the parts that two lists of so many make.
fn room_for(alloc: Global, left: usize, right: usize) -> Result<Parts, AllocError>
    ensures { IfOk result (λ parts. parts.items ≡ []) }
{
    if left.max(right) <= INLINE {
        Ok(SmallVec::new(alloc))
    } else {
        let parts = Vec::with_capacity(alloc, left.saturating_add(right))?;
        Ok(SmallVec::from_vec(parts))
    }
}

// A list at whose end parts are put.
trait PartList {
    ghost items: { Self → List (ℕ × ℤ) };

    fn append(&mut self, variable: u32, coefficient: i128) -> Result<(), AllocError>
        ensures { OnOk result
            (items self.new ≡ items self.old ++ (variable, coefficient) ∷ []) };
}

impl PartList for Parts {
    ghost items = { λ parts. parts.items };

    #[inline]
    fn append(&mut self, variable: u32, coefficient: i128) -> Result<(), AllocError> {
        if self.len() < self.capacity() {
            self.push_reserved((variable, coefficient));
            return Ok(());
        }
        push_growing(self, variable, coefficient)
    }
}

impl PartList for Vec<(u32, i128)> {
    ghost items = { λ parts. parts.items };

    #[inline]
    fn append(&mut self, variable: u32, coefficient: i128) -> Result<(), AllocError> {
        if self.len() < self.capacity() {
            self.push_reserved((variable, coefficient));
            return Ok(());
        }
        push_growing_many(self, variable, coefficient)
    }
}

// Appends a part, unless its coefficient is 0.
#[inline]
fn put<P: PartList>(parts: &mut P, variable: u32, coefficient: i128) -> Result<(), AllocError>
    ensures { OnOk result
        (P.items parts.new ≡ P.items parts.old ++ put_part variable coefficient []) }
{
    if coefficient != 0 {
        parts.append(variable, coefficient)?;
    }
    Ok(())
}

// Appends a part to a list that has no room for it.
#[cold]
#[inline(never)]
fn push_growing(parts: &mut Parts, variable: u32, coefficient: i128) -> Result<(), AllocError>
    ensures { OnOk result (parts.new.items ≡ parts.old.items ++ (variable, coefficient) ∷ []) }
{
    parts.push((variable, coefficient))?;
    Ok(())
}

// Appends a part to a list of many that has no room for it.
#[cold]
#[inline(never)]
fn push_growing_many(
    parts: &mut Vec<(u32, i128)>,
    variable: u32,
    coefficient: i128,
) -> Result<(), AllocError>
    ensures { OnOk result (parts.new.items ≡ parts.old.items ++ (variable, coefficient) ∷ []) }
{
    parts.push((variable, coefficient))?;
    Ok(())
}

// The least variable of two lists of parts, with its coefficients in both.
fn least(left: &[(u32, i128)], right: &[(u32, i128)]) -> Option<Pair>
    ensures { result ≡ slice_get (merged left.now right.now) 0 }
{
    match left {
        [] => match right {
            [] => None,
            [(variable, coefficient), ..] => Some(Pair {
                variable: *variable,
                left: 0,
                right: *coefficient,
            }),
        },
        [(x, a), ..] => match right {
            [] => Some(Pair {
                variable: *x,
                left: *a,
                right: 0,
            }),
            [(y, b), ..] => {
                if *x < *y {
                    Some(Pair {
                        variable: *x,
                        left: *a,
                        right: 0,
                    })
                } else if *y < *x {
                    Some(Pair {
                        variable: *y,
                        left: 0,
                        right: *b,
                    })
                } else {
                    Some(Pair {
                        variable: *x,
                        left: *a,
                        right: *b,
                    })
                }
            }
        },
    }
}

fn add_parts(alloc: Global, left: &[(u32, i128)], right: &[(u32, i128)]) -> Result<Parts, LinError>
    ensures { IsExactBy result (λ parts. parts.items)
        (sums_steps (merged left.now right.now)) (sums (merged left.now right.now)) }
{
    let mut parts = room_for(alloc, left.len(), right.len())?;
    let mut left = left;
    let mut right = right;
    while let Some(pair) = least(left, right) {
        let coefficient = sum(pair.left, pair.right)?;
        put(&mut parts, pair.variable, coefficient)?;
        left = behind(left, pair.variable);
        right = behind(right, pair.variable);
    }
    Ok(parts)
}

fn scale_parts(alloc: Global, k: i128, parts: &[(u32, i128)]) -> Result<Parts, LinError>
    ensures { IsExactBy result (λ scaled. scaled.items)
        (multiples_steps k parts.now) (multiples k parts.now) }
{
    let mut scaled = room_for(alloc, parts.len(), 0)?;
    append_multiples(&mut scaled, k, parts)?;
    Ok(scaled)
}

// Appends the multiples of parts.
fn append_multiples<P: PartList>(to: &mut P, k: i128, parts: &[(u32, i128)]) -> Result<(), LinError>
    ensures { IsExactBy result (λ _. P.items to.new)
        (multiples_steps k parts.now) (P.items to.old ++ multiples k parts.now) }
{
    for part in parts {
        let (variable, coefficient) = *part;
        let multiple = product(k, coefficient)?;
        put(to, variable, multiple)?;
    }
    Ok(())
}

// The sum of two products of short numbers, and None where a number is not short.
#[inline]
fn short_combined(a: i128, left: i128, b: i128, right: i128) -> Option<i128>
    ensures { IfSome result (IsCombined a left b right) }
{
    if is_short(a) && is_short(b) && is_short(left) && is_short(right) {
        let left = a * left;
        let right = b * right;
        Some(left + right)
    } else {
        None
    }
}

// The sum of two products, which are made first.
#[inline]
fn combined(a: i128, left: i128, b: i128, right: i128) -> Result<i128, LinError>
    ensures { IsExact result (part_steps a left b right []) (a *ℤ left +ℤ b *ℤ right) }
{
    match short_combined(a, left, b, right) {
        Some(number) => Ok(number),
        None => long_combined(a, left, b, right),
    }
}

// The sum of two products, each of which may leave 128 bits.
#[cold]
#[inline(never)]
fn long_combined(a: i128, left: i128, b: i128, right: i128) -> Result<i128, LinError>
    ensures { IsExact result (part_steps a left b right []) (a *ℤ left +ℤ b *ℤ right) }
{
    let left = product(a, left)?;
    let right = product(b, right)?;
    sum(left, right)
}

fn combine_parts(
    alloc: Global,
    a: i128,
    left: &[(u32, i128)],
    b: i128,
    right: &[(u32, i128)],
) -> Result<Parts, LinError>
    ensures { IsExactBy result (λ parts. parts.items)
        (combined_parts_steps a b (merged left.now right.now))
        (combined_parts a b (merged left.now right.now)) }
{
    if left.len().max(right.len()) <= INLINE {
        let mut few = SmallVec::new(alloc);
        append_combination(&mut few, a, left, b, right)?;
        return Ok(few);
    }
    let mut many = Vec::with_capacity(alloc, left.len().saturating_add(right.len()))?;
    append_combination(&mut many, a, left, b, right)?;
    Ok(SmallVec::from_vec(many))
}

// Appends the parts of a combination. Most of an elimination's time goes by in its loop.
fn append_combination<P: PartList>(
    parts: &mut P,
    a: i128,
    left: &[(u32, i128)],
    b: i128,
    right: &[(u32, i128)],
) -> Result<(), LinError>
    ensures { IsExactBy result (λ _. P.items parts.new)
        (combined_parts_steps a b (merged left.now right.now))
        (P.items parts.old ++ combined_parts a b (merged left.now right.now)) }
{
    let mut left = left;
    let mut right = right;
    while !left.is_empty() && !right.is_empty() {
        let (x, mut m) = left[0];
        let (y, mut n) = right[0];
        let short = if x < y {
            left = after_first(left);
            n = 0;
            short_combined(a, m, b, 0)
        } else if y < x {
            right = after_first(right);
            m = 0;
            short_combined(a, 0, b, n)
        } else {
            left = after_first(left);
            right = after_first(right);
            short_combined(a, m, b, n)
        };
        let number = match short {
            Some(number) => number,
            None => long_combined(a, m, b, n)?,
        };
        put(parts, x.min(y), number)?;
    }
    if right.is_empty() {
        append_multiples(parts, a, left)
    } else {
        append_multiples(parts, b, right)
    }
}

// The parts after the first.
#[inline]
fn after_first(parts: &[(u32, i128)]) -> &[(u32, i128)]
    requires { 1 ≤ length parts.now }
    ensures { result.now ≡ drop 1 parts.now }
{
    &parts[1..]
}

// The parts, without the first where it is of this variable.
fn behind(parts: &[(u32, i128)], variable: u32) -> &[(u32, i128)]
    ensures { result.now ≡ parts_behind variable parts.now }
{
    match parts {
        [(first, _), rest @ ..] if *first == variable => rest,
        _ => parts,
    }
}
