//! The choices that are offered at a read.

ghost use Rattle.std.specs.Prelude.{◌≡◌, length, IfOk};
ghost use Rattle.cap_goal_spec.specs.Fits.{HasRoom};

use cap_goal::{Choice, Goal, Home, Point, State, Task};
use cap_lin::{LinError, Op, Row, Sort, Term};
use cap_offer::{Offers, offered};
use cap_prog::{Act, Statement};
use cap_syntax::Place;
use cap_top_reading::read_program;
use std::alloc::{AllocError, Global};
use std::test::Fail;

const HERE: Place = Place { line: 1, column: 1 };

// The statement alone.
fn body(alloc: Global, act: Act) -> Result<Vec<Statement>, AllocError> {
    let mut body = Vec::new(alloc);
    body.push(Statement {
        number: 1,
        place: HERE,
        act,
    })?;
    Ok(body)
}

// The first variable is at least this number.
fn at_least(alloc: Global, number: i128) -> Result<Row, LinError> {
    let x = Term::var(alloc, 0)?;
    let bound = Term::constant(alloc, number);
    Row::of(alloc, &x, Op::Ge, &bound, Sort::Int)
}

// A parameter with the value of a variable, a local, which is 0, and two cells: one at 5, and one
// at the parameter, which is at least 7.
fn two_cells(alloc: Global) -> Result<State, LinError>
    ensures room { IfOk result (λ s. HasRoom s) }
    ensures rows { IfOk result (λ s. length s.rows ≡ 1) }
{
    let mut state = State::new(alloc)?;
    state.add_sorts(Sort::Int)?;
    state.add_rows(at_least(alloc, 7)?)?;
    state.add_store(Term::var(alloc, 0)?)?;
    state.add_store(Term::constant(alloc, 0))?;
    state.add_cells((Term::constant(alloc, 5), Term::constant(alloc, 1)))?;
    state.add_cells((Term::var(alloc, 0)?, Term::constant(alloc, 2)))?;
    Ok(state)
}

// To run statements.
fn to_run<'a>(alloc: Global, state: State, list: &'a [Statement]) -> Result<Goal<'a>, AllocError>
    ensures { IfOk result (λ g. g.state ≡ state) }
{
    let home = Home {
        function: 0,
        fixed: 0,
    };
    let mut lists = Vec::new(alloc);
    lists.push(list)?;
    let mut tasks = Vec::new(alloc);
    tasks.push(Task::Run(home, Point { lists }))?;
    Ok(Goal { state, tasks })
}

// What is offered at a goal of a program without region types.
fn offers_at(alloc: Global, goal: &Goal<'_>) -> Result<Offers, Fail>
    requires { HasRoom goal.now.state }
{
    let program = read_program(alloc, "function main() { }".as_bytes())?;
    Ok(offered(alloc, &program, goal)?)
}

// What is offered at a read, in a state.
fn offers_of(alloc: Global, state: State, address: Term) -> Result<Offers, Fail>
    requires { HasRoom state }
{
    let list = body(alloc, Act::Read(1, address))?;
    let goal = to_run(alloc, state, &list)?;
    offers_at(alloc, &goal)
}

// The number of the cell on which an offered choice acts, and how many certificates it has.
fn cell_of(choice: &Choice) -> Option<(u32, usize)> {
    match choice {
        Choice::Act(cell, certs, _) => Some((*cell, certs.len())),
        _ => None,
    }
}

// A read at the parameter acts on the second cell: an equality has two certificates.
#[test]
fn a_read_acts_on_its_cell(rt: HostRuntime) -> Result<(), Fail> {
    let alloc = rt.alloc();
    let state = two_cells(alloc)?;
    let offers = offers_of(alloc, state, Term::var(alloc, 0)?)?;
    assert_eq!(rt; offers.choices.len(), 1);
    assert_eq!(rt; cell_of(&offers.choices[0]), Some((1, 2)));
    assert!(rt; offers.notes.wide().is_none() && !offers.notes.rows());
    Ok(())
}

// No cell is known to be at 6, and no region may be opened.
#[test]
fn a_read_needs_its_cell(rt: HostRuntime) -> Result<(), Fail> {
    let alloc = rt.alloc();
    let state = two_cells(alloc)?;
    let offers = offers_of(alloc, state, Term::constant(alloc, 6))?;
    assert_eq!(rt; offers.choices.len(), 0);
    Ok(())
}

// The two cells, where the parameter is at most 6 too.
fn contradictory(alloc: Global) -> Result<State, LinError>
    ensures { IfOk result (λ s. HasRoom s) }
{
    let mut state = two_cells(alloc)?;
    let x = Term::var(alloc, 0)?;
    let six = Term::constant(alloc, 6);
    state.add_rows(Row::of(alloc, &x, Op::Le, &six, Sort::Int)?)?;
    Ok(state)
}

// Nothing is at least 7 and at most 6: that alone is offered.
#[test]
fn a_contradiction_is_offered_alone(rt: HostRuntime) -> Result<(), Fail> {
    let alloc = rt.alloc();
    let state = contradictory(alloc)?;
    let offers = offers_of(alloc, state, Term::var(alloc, 0)?)?;
    assert_eq!(rt; offers.choices.len(), 1);
    assert!(rt; matches!(&offers.choices[0], Choice::Absurd(_)));
    Ok(())
}
