//! Goals of programs, and what choices make of them.
use crate::spelling;
use cap_deriv::read;
use cap_goal::{Choice, Goal, Unit};
use cap_goal_roots::roots;
use cap_kernel::{proofs, subgoals};
use cap_prog::Program;
use cap_top_reading::read_program;
use std::alloc::Global;
use std::process::Abort;
use std::test::Fail;

// The first roots of a function, by number.
pub const REQUIRES: usize = 0;

pub const BODY: usize = 2;

pub const FIRST_LOOP: usize = 4;

// A goal: the text of its program, a function by its number, one of its roots, and the choices from
// there on, as the lines of a derivation say them.
#[derive(Clone, Copy)]
pub struct At {
    pub program: &'static str,
    pub function: u32,
    pub root: usize,
    pub steps: &'static str,
}

fn root<'a>(alloc: Global, program: &'a Program, at: At) -> Result<Goal<'a>, Fail> {
    if at.function as usize >= program.functions().len() {
        Err("no function of this number")?;
    }
    let mut all = roots(alloc, program, Unit::Function(at.function))?;
    if at.root >= all.len() {
        Err("no root of this number")?;
    }
    Ok(all.swap_remove(at.root).ok_or("a root without tasks")?)
}

// The choice that a line of a derivation is.
fn choice_of(alloc: Global, line: &str) -> Result<Choice, Fail> {
    let mut lines = String::from_str(alloc, "[\"caper\",1,1]\n")?;
    lines.push_str(line)?;
    lines.push_str("\n[\"end\",1]\n")?;
    let mut found = read(alloc, lines.as_bytes())?;
    Ok(found.choices.pop().ok_or("no choice")?)
}

// Puts the goals at the end, the first one last.
fn put<'a>(open: &mut Vec<Goal<'a>>, left: &mut Vec<Goal<'a>>) -> Result<(), Fail> {
    for _ in 0..left.len() {
        open.push(left.pop().ok_or("no goal is left")?)?;
    }
    Ok(())
}

// Puts the goals that the choice leaves of a goal at the end, the first one last.
fn leave<'a>(
    alloc: Global,
    program: &'a Program,
    open: &mut Vec<Goal<'a>>,
    goal: &Goal<'a>,
    choice: &Choice,
) -> Result<(), Fail> {
    if !goal.state.has_room() {
        Err("too long a list")?;
    }
    let mut left = subgoals(alloc, program, goal, choice)?;
    put(open, &mut left)
}

// Makes the choice at the last goal, in whose place its subgoals come, the first one last.
fn step<'a>(
    alloc: Global,
    program: &'a Program,
    open: &mut Vec<Goal<'a>>,
    choice: &Choice,
) -> Result<(), Fail> {
    let goal = open.pop().ok_or("no goal is left")?;
    leave(alloc, program, open, &goal, choice)
}

// Makes the choice of a line at the last goal.
fn take_line<'a>(
    alloc: Global,
    program: &'a Program,
    open: &mut Vec<Goal<'a>>,
    line: &str,
) -> Result<(), Fail> {
    let choice = choice_of(alloc, line)?;
    step(alloc, program, open, &choice)
}

// Makes the choices of the lines, each of them at the first goal that is open then.
fn advance<'a>(
    alloc: Global,
    program: &'a Program,
    open: &mut Vec<Goal<'a>>,
    steps: &str,
) -> Result<(), Fail> {
    for line in steps.lines() {
        take_line(alloc, program, open, line)?;
    }
    Ok(())
}

// The goal that comes after the choices, each of which is made at the first goal that is open.
pub fn goal_at<'a>(alloc: Global, program: &'a Program, at: At) -> Result<Goal<'a>, Fail> {
    let mut open = Vec::new(alloc);
    open.push(root(alloc, program, at)?)?;
    advance(alloc, program, &mut open, at.steps)?;
    Ok(open.pop().ok_or("no goal is left")?)
}

// What the choice leaves of the goal, or why it leaves nothing.
fn spelled_left(
    alloc: Global,
    program: &Program,
    goal: &Goal<'_>,
    choice: &Choice,
) -> Result<String, Fail> {
    if !goal.state.has_room() {
        Err("too long a list")?;
    }
    match subgoals(alloc, program, goal, choice) {
        Ok(goals) => Ok(spelling::goals(alloc, &goals)?),
        Err(error) => Ok(spelling::failure(alloc, &error)?),
    }
}

fn left_by(alloc: Global, program: &Program, goal: &Goal<'_>, line: &str) -> Result<String, Fail> {
    let choice = choice_of(alloc, line)?;
    spelled_left(alloc, program, goal, &choice)
}

fn left_of(alloc: Global, program: &Program, at: At, line: &str) -> Result<String, Fail> {
    let goal = goal_at(alloc, program, at)?;
    left_by(alloc, program, &goal, line)
}

// What the choice of a line leaves of a goal, or why it leaves nothing.
fn left(alloc: Global, at: At, line: &str) -> Result<String, Fail> {
    let program = read_program(alloc, at.program.as_bytes())?;
    left_of(alloc, &program, at, line)
}

// The lists of rows that the certificates of the choice have to refute.
fn spelled_owed(
    alloc: Global,
    program: &Program,
    goal: &Goal<'_>,
    choice: &Choice,
) -> Result<String, Fail> {
    if !goal.state.has_room() {
        Err("too long a list")?;
    }
    match proofs(alloc, program, goal, choice) {
        Ok(lists) => Ok(spelling::lists(alloc, &lists)?),
        Err(error) => Ok(spelling::failure(alloc, &error)?),
    }
}

fn owed_by(alloc: Global, program: &Program, goal: &Goal<'_>, line: &str) -> Result<String, Fail> {
    let choice = choice_of(alloc, line)?;
    spelled_owed(alloc, program, goal, &choice)
}

fn owed_of(alloc: Global, program: &Program, at: At, line: &str) -> Result<String, Fail> {
    let goal = goal_at(alloc, program, at)?;
    owed_by(alloc, program, &goal, line)
}

// The lists of rows that the certificates of the choice of a line have to refute.
fn owed(alloc: Global, at: At, line: &str) -> Result<String, Fail> {
    let program = read_program(alloc, at.program.as_bytes())?;
    owed_of(alloc, &program, at, line)
}

// What is looked at of a choice: what it leaves of the goal, or the rows that it owes.
#[derive(Clone, Copy)]
pub enum Aspect {
    Left,
    Owed,
}

// A choice at a goal, and the text of what is looked at.
#[derive(Clone, Copy)]
pub struct Example {
    pub name: &'static str,
    pub at: At,
    pub choice: &'static str,
    pub aspect: Aspect,
    pub wanted: &'static str,
}

// Each example has the text that is wanted.
pub fn all_hold(rt: &impl Abort, alloc: Global, examples: &[Example]) -> Result<(), Fail> {
    for example in examples {
        let found = match example.aspect {
            Aspect::Left => left(alloc, example.at, example.choice)?,
            Aspect::Owed => owed(alloc, example.at, example.choice)?,
        };
        let name = example.name;
        assert!(rt; found.as_str() == example.wanted, "{name}: {found}");
    }
    Ok(())
}
