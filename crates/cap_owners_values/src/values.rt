//! Values by the numbers of variables or of names.
ghost use Rattle.std.specs.Prelude.{◌≡◌, ◌∷◌, ◌++◌, [], OnOk, OnErr, IfOk, drop, length, map};
ghost use Rattle.std.specs.Prelude.{slice_set, take, ◌*ℤ◌, pos};
ghost use Rattle.cap_machine.specs.Machine.{compared};
ghost use Rattle.cap_machine_accounts.specs.Assertions.{a_number};
ghost use Rattle.cap_owners_spec.specs.Traced.{amount_in, half_of as half, holds_by, number_in};
ghost use Rattle.cap_owners_spec.specs.Traced.{number_by_sort, over, value_at};
ghost use Rattle.cap_owners_values.specs.Sums.{number_of_sort, product_by, sum_by, total_from};
ghost use Rattle.cap_owners_values.specs.Views.{value_view, Traces};

use crate::error::TraceError;
use crate::value::Value;
use cap_lin::{Op, Sort, Term};
use cap_prog::Comp;
use std::alloc::{AllocError, Global};
use std::marker::Model;

// All shares are over this.
const OVER: i128 = 1 << 63;

/// Values of the variables of a state or of the names of an assertion, by their numbers from 0.
#[derive(Drop)]
pub struct Values {
    values: Vec<Value>,
}

impl Model for Values {
    ghost use Rattle.std.specs.Prelude.{List, map};
    ghost use Rattle.cap_machine_accounts.specs.Assertions.{NameValue};
    ghost use Rattle.cap_owners_values.specs.Views.{value_view};

    ghost Value = { List NameValue };

    ghost view = { λ v. map value_view v.values.items };
}

impl Values {
    /// No values. It takes no memory.
    pub fn new(alloc: Global) -> Values
        ensures { result ≡ [] }
    {
        Values {
            values: Vec::new(alloc),
        }
    }

    /// The value of this number, and the whole number 0 where there is none. It takes no memory.
    pub fn at(&self, number: u32) -> Value
        ensures { value_view result ≡ value_at self.now number }
    {
        match self.values.get(number as usize) {
            Some(value) => *value,
            None => Value::Number(0),
        }
    }

    /// Appends a value. After an error the values are as they were.
    pub fn push(&mut self, value: Value) -> Result<(), AllocError>
        ensures pushed { OnOk result (self.new ≡ self.old ++ value_view value ∷ []) }
        ensures failed { OnErr result (self.new ≡ self.old) }
    {
        Ok(self.values.push(value)?)
    }

    /// Whole numbers, each a value.
    pub fn of_numbers(alloc: Global, numbers: &[i128]) -> Result<Values, AllocError>
        ensures { IfOk result (λ v. v ≡ map a_number numbers.now) }
    {
        let mut values = Values::new(alloc);
        for number in numbers {
            values.push(Value::Number(*number))?;
        }
        Ok(values)
    }

    /// The same values once more.
    pub fn copy(&self, alloc: Global) -> Result<Values, AllocError>
        ensures { IfOk result (λ v. v ≡ self.now) }
    {
        let values = Vec::from_slice(alloc, &self.values)?;
        Ok(Values { values })
    }

    /// How many values there are. It takes no memory.
    pub fn len(&self) -> usize
        ensures { result ≡ length self.now }
    {
        self.values.len()
    }

    /// Appends all of other values. After an error the values are as they were.
    pub fn append(&mut self, more: &Values) -> Result<(), AllocError>
        ensures appended { OnOk result (self.new ≡ self.old ++ more.now) }
        ensures failed { OnErr result (self.new ≡ self.old) }
    {
        self.values.extend_from_slice(&more.values)
    }

    /// Changes the value of a number, where there is one. It takes no memory.
    pub fn put(&mut self, number: usize, value: Value)
        ensures { self.new ≡ slice_set self.old number (value_view value) }
    {
        if number < self.values.len() {
            self.values[number] = value;
        }
    }

    /// So many of the values, from a number on.
    pub fn part(&self, alloc: Global, from: usize, count: usize) -> Result<Values, AllocError>
        ensures { IfOk result (λ v. v ≡ take count (drop from self.now)) }
    {
        let start = from.min(self.values.len());
        let rest = &self.values[start..];
        let values = Vec::from_slice(alloc, &rest[..count.min(rest.len())])?;
        Ok(Values { values })
    }

    /// The values from a number on.
    pub fn behind(&self, alloc: Global, from: usize) -> Result<Values, AllocError>
        ensures { IfOk result (λ v. v ≡ drop from self.now) }
    {
        let start = from.min(self.values.len());
        let values = Vec::from_slice(alloc, &self.values[start..])?;
        Ok(Values { values })
    }

    /// The value of a term of whole numbers, in which a share counts as 0. `PastWidth` comes where
    /// a product or a partial sum leaves 128 bits, and no other error. It takes no memory.
    pub fn number_in(&self, term: &Term) -> Result<i128, TraceError>
        ensures { Traces result (λ z. z) (number_in self.now term.now) }
    {
        self.total(Sort::Int, term.constant_part(), term.parts())
    }

    /// The value of a term of shares, as a numerator over 2^63. `PastWidth` comes where a product
    /// or a partial sum leaves 128 bits, and no other error. It takes no memory.
    pub fn amount_in(&self, term: &Term) -> Result<i128, TraceError>
        ensures { Traces result (λ z. z) (amount_in self.now term.now) }
    {
        let start = product(term.constant_part(), OVER)?;
        self.total(Sort::Perm, start, term.parts())
    }

    /// Whether a comparison holds, by its sort. `PastWidth` comes where a value of one of its sides
    /// does not stay within 128 bits, and no other error. It takes no memory.
    pub fn holds(&self, comparison: &Comp) -> Result<bool, TraceError>
        ensures { Traces result (λ b. b) (holds_by self.now comparison.now) }
    {
        let left = self.number_by_sort(comparison.sort, &comparison.left)?;
        let right = self.number_by_sort(comparison.sort, &comparison.right)?;
        Ok(compares(comparison.op, left, right))
    }

    // The value of a term of a sort, a share's as a numerator over 2^63.
    fn number_by_sort(&self, sort: Sort, term: &Term) -> Result<i128, TraceError>
        ensures { Traces result (λ z. z) (number_by_sort sort self.now term.now) }
    {
        match sort {
            Sort::Int => self.number_in(term),
            Sort::Perm => self.amount_in(term),
        }
    }

    // A sum, and the products of the coefficients of parts and their variables' values by the sort,
    // added to it one by one.
    fn total(&self, sort: Sort, sum: i128, parts: &[(u32, i128)]) -> Result<i128, TraceError>
        ensures { Traces result (λ z. z) (total_from sort self.now sum parts.now) }
    {
        let mut total = sum;
        for part in parts {
            let (variable, coefficient) = *part;
            let multiple = multiple(sort, coefficient, self.at(variable))?;
            total = plus(total, multiple)?;
        }
        Ok(total)
    }
}

/// Half of a share, as numerators over 2^63. `PastWidth` comes where the numerator is odd, and
/// `Untold` where it is negative. It takes no memory.
pub fn half_of(share: i128) -> Result<i128, TraceError>
    ensures { Traces result (λ z. z) (half share) }
{
    if share < 0 {
        return Err(TraceError::Untold);
    }
    if share % 2 == 0 {
        Ok(share / 2)
    } else {
        Err(TraceError::PastWidth)
    }
}

// The product of a coefficient and a value, by the sort. The numerator of a whole number may leave
// 128 bits where its product does not, so the coefficient comes first.
fn multiple(sort: Sort, coefficient: i128, value: Value) -> Result<i128, TraceError>
    ensures { Traces result (λ z. z)
        (product_by (number_of_sort sort (value_view value)) coefficient) }
{
    match (sort, value) {
        (Sort::Int, Value::Number(number)) => product(coefficient, number),
        (Sort::Int, Value::Share(_)) => Ok(0),
        (Sort::Perm, Value::Number(number)) => multiple_of_whole(coefficient, number),
        (Sort::Perm, Value::Share(share)) => product(coefficient, share),
    }
}

// The product of a coefficient and the numerator of a whole number.
fn multiple_of_whole(coefficient: i128, number: i128) -> Result<i128, TraceError>
    ensures { Traces result (λ z. z) (product_by (number *ℤ pos over) coefficient) }
{
    let number = product(coefficient, number)?;
    product(number, OVER)
}

fn product(a: i128, b: i128) -> Result<i128, TraceError>
    ensures { Traces result (λ z. z) (product_by b a) }
{
    match a.checked_mul(b) {
        Some(product) => Ok(product),
        None => Err(TraceError::PastWidth),
    }
}

fn plus(a: i128, b: i128) -> Result<i128, TraceError>
    ensures { Traces result (λ z. z) (sum_by b a) }
{
    match a.checked_add(b) {
        Some(sum) => Ok(sum),
        None => Err(TraceError::PastWidth),
    }
}

fn compares(op: Op, left: i128, right: i128) -> bool
    ensures { result ≡ compared op left right }
{
    match op {
        Op::Eq => left == right,
        Op::Ne => left != right,
        Op::Lt => left < right,
        Op::Le => left <= right,
        Op::Gt => left > right,
        Op::Ge => left >= right,
    }
}
