//! Programs that are made of their parts.

ghost use Rattle.std.specs.Prelude.{◌≡◌, [], IfOk};
ghost use Rattle.cap_prog.specs.Program.{none, PlainProgram};
ghost use Rattle.cap_prog.specs.Views.{assertion_view, statement_view, function_view, region_view};
ghost use Rattle.cap_prog.specs.WellFormed.{FunctionFits, RegionFits};
ghost use Rattle.cap_tests_language.specs.Empty.{closing};

use cap_galg::Algebra;
use cap_lin::Term;
use cap_prog::{Act, Assertion, Function, Name, Program, RegionType, Statement};
use cap_syntax::Place;
use std::alloc::{AllocError, Global};
use std::test::Fail;

fn no_items(alloc: Global) -> Assertion
    ensures { assertion_view result ≡ record { names = []; items = none } }
{
    let names = Vec::new(alloc);
    let items = Vec::new(alloc);
    Assertion { names, items }
}

// The closing return of a body that has nothing else.
fn closing_return(alloc: Global, place: Place) -> Statement
    ensures { statement_view result ≡ closing place }
{
    let zero = Term::constant(alloc, 0);
    Statement {
        number: 1,
        place,
        act: Act::Return(zero),
    }
}

// function main() { }
fn main_function(alloc: Global, place: Place) -> Result<Function, AllocError>
    ensures { IfOk result (λ f. (p : PlainProgram) → FunctionFits p (function_view f)) }
{
    let fixed = Vec::new(alloc);
    let variables = Vec::new(alloc);
    let before = no_items(alloc);
    let after = no_items(alloc);
    let last = closing_return(alloc, place);
    let mut body = Vec::new(alloc);
    body.push(last)?;
    Ok(Function {
        name: Name::from_slice(alloc, b"main")?,
        params: 0,
        locals: 0,
        fixed,
        variables,
        requires_: before,
        ensures_: after,
        body,
        place,
    })
}

// region R(r) { guards G; interpretation { } actions { } }
fn unique_region(alloc: Global, place: Place) -> Result<RegionType, AllocError>
    ensures { IfOk result (λ k. (p : PlainProgram) → RegionFits p (region_view k)) }
{
    let cases = Vec::new(alloc);
    let actions = Vec::new(alloc);
    let mut atoms = Vec::new(alloc);
    atoms.push(Name::from_slice(alloc, b"G")?)?;
    Ok(RegionType {
        name: Name::from_slice(alloc, b"R")?,
        params: 1,
        algebra: Algebra::Unique,
        atoms,
        cases,
        actions,
        place,
    })
}

#[test]
fn lends_its_parts(rt: HostRuntime) -> Result<(), Fail> {
    let alloc = rt.alloc();
    let place = Place { line: 1, column: 1 };
    let mut regions = Vec::new(alloc);
    let region = unique_region(alloc, place)?;
    regions.push(region)?;
    let mut functions = Vec::new(alloc);
    let function = main_function(alloc, place)?;
    functions.push(function)?;
    let program = Program::new(regions, functions, 0);
    assert_eq!(rt; program.functions().len(), 1);
    assert_eq!(rt; program.regions().len(), 1);
    assert_eq!(rt; program.main(), 0);
    assert_eq!(rt; program.function(0).body.len(), 1);
    assert_eq!(rt; program.region(0).params, 1);
    Ok(())
}
