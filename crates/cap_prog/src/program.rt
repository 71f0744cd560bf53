//! A program: its region types and its functions.
ghost use Rattle.std.specs.Prelude.{◌≡◌, ◌<◌, length, slice_get, Some};
ghost use Rattle.cap_prog.specs.Views.{region_view, function_view, program_view};
ghost use Rattle.cap_prog.specs.WellFormed.{IsWellFormed};

use crate::function::Function;
use crate::region::RegionType;
use std::marker::Model;

/// A program: its region types and its functions, which are numbered from 0 in the order of the text,
/// and the number of `main`. It is well-formed.
pub struct Program {
    regions: Vec<RegionType>,
    functions: Vec<Function>,
    main: u32,
}

impl Drop for Program {
    fn drop(self) {
        let Program {
            regions: _,
            functions: _,
            main: _,
        } = self;
    }
}

impl Model for Program {
    ghost use Rattle.cap_prog.specs.Views.{Parts, program_view};
    ghost use Rattle.cap_prog.specs.WellFormed.{IsWellFormed};
    ghost use Rattle.cap_galg.specs.contracts.algebra.Algebra as algebra;
    ghost use Rattle.cap_prog.specs.contracts.assertion.Item as item;
    ghost use Rattle.cap_prog.specs.contracts.assertion.Assertion as assertion;
    ghost use Rattle.cap_prog.specs.contracts.function.Statement as statement;
    ghost use Rattle.std.specs.Coded.{codes};

    ghost Value = { Parts };

    ghost coded = { Prim.hlevel (codes, algebra.the_row.coded, item.the_row.coded, assertion.the_row.coded, statement.the_row.coded) };

    ghost view = { λ p. record {
      regions = p.regions.items;
      functions = p.functions.items;
      main = p.main;
    } };

    ghost invariant = { λ p. IsWellFormed
        (program_view (record {
          regions = p.regions.items;
          functions = p.functions.items;
          main = p.main;
        })) };
}

impl Program {
    /// The program of these parts. It takes no memory.
    pub fn new(regions: Vec<RegionType>, functions: Vec<Function>, main: u32) -> Program
        requires { IsWellFormed (program_view
            (record { regions = regions.items; functions = functions.items; main = main })) }
        ensures { result ≡ record { regions = regions.items; functions = functions.items; main = main } }
    {
        Program {
            regions,
            functions,
            main,
        }
    }

    /// The region types.
    pub fn regions(&self) -> &[RegionType]
        ensures regions { result.now ≡ self.now.regions }
        ensures well_formed { IsWellFormed (program_view self.now) }
    {
        self.regions.as_slice()
    }

    /// The functions.
    pub fn functions(&self) -> &[Function]
        ensures functions { result.now ≡ self.now.functions }
        ensures well_formed { IsWellFormed (program_view self.now) }
    {
        self.functions.as_slice()
    }

    /// The number of the function `main`.
    pub fn main(&self) -> u32
        ensures main { result ≡ self.now.main }
        ensures well_formed { IsWellFormed (program_view self.now) }
    {
        self.main
    }

    /// A region type by its number.
    pub fn region(&self, number: u32) -> &RegionType
        requires { number < length (program_view self.now).regions }
        ensures { slice_get (program_view self.now).regions number ≡ Some (region_view result.now) }
    {
        &self.regions[number as usize]
    }

    /// A function by its number.
    pub fn function(&self, number: u32) -> &Function
        requires { number < length (program_view self.now).functions }
        ensures { slice_get (program_view self.now).functions number ≡ Some (function_view result.now) }
    {
        &self.functions[number as usize]
    }
}

/// A law: a program is well-formed.
pub fn well_formed(program: &Program)
    ensures { IsWellFormed (program_view program.now) }
{
    let _regions = program.regions();
}
