//! The rows that a leaf is checked against: the given ones with those of the sides above it.
ghost use Rattle.std.specs.Prelude.{◌≡◌, ◌<◌, ◌↔◌, IsTrue, None, negsuc};
ghost use Rattle.std.specs.Option.{SomeIff};
ghost use Rattle.cap_lin.specs.Linear.{IsLeastFrom};
ghost use Rattle.cap_lin.specs.Steps.{first_wide, multiples_steps};
ghost use Rattle.cap_farkas.specs.Farkas.{row_at, coefficient_of, IsKindAt};
ghost use Rattle.cap_farkas.specs.System.{part_of, below_kind, below_constant, below_steps};
ghost use Rattle.cap_farkas.specs.System.{side_row, side_steps, side_constant, side_constant_steps};
ghost use Rattle.cap_farkas.specs.System.{all_rows, AreAppended};

use cap_lin::{Kind, Row, Sort};

/// A side of 0, on which a split has the term of a row Ne.
#[derive(Clone, Copy, Debug, PartialEq, Eq)]
pub enum Side {
    Below,
    Above,
}

/// The row that a split puts behind the rows: that the term of the row at this place is on this
/// side of 0.
#[derive(Clone, Copy, Debug, PartialEq, Eq)]
pub struct Appended {
    pub place: usize,
    pub side: Side,
}

/// A column of rows: their constants, or their coefficients of a variable.
#[derive(Clone, Copy, Debug, PartialEq, Eq)]
pub enum Column {
    Constant,
    Of(u32),
}

// The kind of a row that a term is below 0.
fn below_kind(sort: Sort) -> Kind
    ensures { result ≡ below_kind sort }
{
    match sort {
        Sort::Int => Kind::Le,
        Sort::Perm => Kind::Lt,
    }
}

// The constant of a row that a term of this constant is below 0.
fn below_constant(constant: i128, sort: Sort) -> Option<i128>
    ensures { SomeIff result (first_wide (below_steps sort constant) ≡ None)
        (below_constant sort constant) }
{
    match sort {
        Sort::Int => constant.checked_add(1),
        Sort::Perm => Some(constant),
    }
}

// The constant of a row that a row's term is on a side of 0.
fn side_constant(row: &Row, side: Side) -> Option<i128>
    ensures { SomeIff result
        (first_wide (side_constant_steps side row.now.sort row.now.term.constant) ≡ None)
        (side_constant side row.now.sort row.now.term.constant) }
{
    let constant = row.term.constant_part();
    match side {
        Side::Below => below_constant(constant, row.sort),
        Side::Above => match constant.checked_neg() {
            None => None,
            Some(constant) => below_constant(constant, row.sort),
        },
    }
}

// Whether the negative of each coefficient is within 128 bits.
fn can_negate(parts: &[(u32, i128)]) -> bool
    ensures { IsTrue result ↔ first_wide (multiples_steps (negsuc 0) parts.now) ≡ None }
{
    for part in parts {
        let (_, coefficient) = *part;
        match coefficient.checked_neg() {
            None => return false,
            Some(_) => {}
        }
    }
    true
}

/// Whether the row that a row's term is on a side of 0 stays within 128 bits.
pub fn is_narrow(row: &Row, side: Side) -> bool
    ensures { IsTrue result ↔ first_wide (side_steps side row.now.sort row.now.term) ≡ None }
{
    match side_constant(row, side) {
        None => false,
        Some(_) => match side {
            Side::Below => true,
            Side::Above => can_negate(row.term.parts()),
        },
    }
}

// A number of the row that a row's term is on a side of 0.
fn side_part(row: &Row, side: Side, column: Column) -> i128
    requires { first_wide (side_steps side row.now.sort row.now.term) ≡ None }
    ensures { result ≡ part_of column (side_row side row.now.sort row.now.term).term }
{
    match column {
        Column::Constant => side_constant(row, side).unwrap(),
        Column::Of(variable) => side_coefficient(row, side, variable),
    }
}

fn side_coefficient(row: &Row, side: Side, variable: u32) -> i128
    requires { first_wide (side_steps side row.now.sort row.now.term) ≡ None }
    ensures { result ≡ coefficient_of variable (side_row side row.now.sort row.now.term).term }
{
    let coefficient = row.term.coefficient(variable);
    match side {
        Side::Below => coefficient,
        Side::Above => -coefficient,
    }
}

/// The kind of the row of a number, if there is one. The appended row is behind the rows.
pub fn kind_at(rows: &[Row], appended: Option<Appended>, number: u32) -> Option<Kind>
    requires { AreAppended rows.now appended }
    ensures { IsKindAt (all_rows rows.now appended) number result }
{
    let number = number as usize;
    if number < rows.len() {
        return Some(rows[number].kind);
    }
    match appended {
        None => None,
        Some(appended) => {
            if number == rows.len() {
                Some(below_kind(rows[appended.place].sort))
            } else {
                None
            }
        }
    }
}

/// A number of the row of a number, and 0 where there is no such row.
pub fn part_at(rows: &[Row], appended: Option<Appended>, number: u32, column: Column) -> i128
    requires { AreAppended rows.now appended }
    ensures { result ≡ part_of column (row_at (all_rows rows.now appended) number).term }
{
    let number = number as usize;
    if number < rows.len() {
        return part(&rows[number], column);
    }
    match appended {
        None => 0,
        Some(appended) => {
            if number == rows.len() {
                side_part(&rows[appended.place], appended.side, column)
            } else {
                0
            }
        }
    }
}

fn part(row: &Row, column: Column) -> i128
    ensures { result ≡ part_of column row.now.term }
{
    match column {
        Column::Constant => row.term.constant_part(),
        Column::Of(variable) => row.term.coefficient(variable),
    }
}

/// The least variable of the row of a number that is at least `low`.
pub fn variable_at(rows: &[Row], appended: Option<Appended>, number: u32, low: u64) -> Option<u32>
    requires { AreAppended rows.now appended }
    ensures { IsLeastFrom low (row_at (all_rows rows.now appended) number).term.parts result }
{
    let number = number as usize;
    if number < rows.len() {
        return rows[number].term.variable_from(low);
    }
    match appended {
        None => None,
        Some(appended) => {
            if number == rows.len() {
                rows[appended.place].term.variable_from(low)
            } else {
                None
            }
        }
    }
}
