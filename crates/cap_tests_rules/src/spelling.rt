//! Goals and rows as texts: a line for each list of a state that has members, and one for each task,
//! the head first.
use cap_goal::{Env, Fact, Goal, Home, Items, Point, State, Task};
use cap_gsolve::{Form, Piece};
use cap_lin::{Kind, Row, Sort, Term};
use cap_prog::{Item, Statement};
use cap_rules_steps::RuleError;
use cap_syntax::Place;
use std::alloc::{AllocError, Global};

fn number(alloc: Global, text: &mut String, word: &str, number: u32) -> Result<(), AllocError> {
    text.push_str(word)?;
    let digits = format!(in alloc; "{number}")?;
    text.push_str(digits.as_str())
}

fn whole(alloc: Global, text: &mut String, number: i128) -> Result<(), AllocError> {
    let digits = format!(in alloc; "{number}")?;
    text.push_str(digits.as_str())
}

fn part(alloc: Global, text: &mut String, part: &(u32, i128)) -> Result<(), AllocError> {
    if part.1 != 1 {
        whole(alloc, text, part.1)?;
        text.push_str("*")?;
    }
    number(alloc, text, "v", part.0)
}

fn term(alloc: Global, text: &mut String, term: &Term) -> Result<(), AllocError> {
    let mut between = "";
    for one in term.parts() {
        text.push_str(between)?;
        part(alloc, text, one)?;
        between = " + ";
    }
    if term.constant_part() != 0 || term.parts().is_empty() {
        text.push_str(between)?;
        whole(alloc, text, term.constant_part())?;
    }
    Ok(())
}

fn row(alloc: Global, text: &mut String, row: &Row) -> Result<(), AllocError> {
    term(alloc, text, &row.term)?;
    text.push_str(match row.kind {
        Kind::Le => " <= 0",
        Kind::Lt => " < 0",
        Kind::Eq => " = 0",
        Kind::Ne => " != 0",
    })?;
    text.push_str(match row.sort {
        Sort::Int => "",
        Sort::Perm => " (Perm)",
    })
}

// ---- the lists of a state

fn sorts(text: &mut String, all: &[Sort]) -> Result<(), AllocError> {
    let mut before = "\nsorts ";
    for one in all {
        text.push_str(before)?;
        text.push_str(match one {
            Sort::Int => "Int",
            Sort::Perm => "Perm",
        })?;
        before = ", ";
    }
    Ok(())
}

fn rows(alloc: Global, text: &mut String, word: &str, all: &[Row]) -> Result<(), AllocError> {
    let mut before = word;
    for one in all {
        text.push_str(before)?;
        row(alloc, text, one)?;
        before = ", ";
    }
    Ok(())
}

fn terms(alloc: Global, text: &mut String, word: &str, all: &[Term]) -> Result<(), AllocError> {
    let mut before = word;
    for one in all {
        text.push_str(before)?;
        term(alloc, text, one)?;
        before = ", ";
    }
    Ok(())
}

fn cells(alloc: Global, text: &mut String, all: &[(Term, Term)]) -> Result<(), AllocError> {
    let mut before = "\ncells ";
    for one in all {
        text.push_str(before)?;
        term(alloc, text, &one.0)?;
        text.push_str(" |-> ")?;
        term(alloc, text, &one.1)?;
        before = ", ";
    }
    Ok(())
}

fn fact(alloc: Global, text: &mut String, fact: &Fact) -> Result<(), AllocError> {
    number(alloc, text, "R", fact.kind)?;
    text.push_str("(")?;
    term(alloc, text, &fact.region)?;
    terms(alloc, text, ", ", &fact.args)?;
    text.push_str("; ")?;
    term(alloc, text, &fact.state)?;
    text.push_str(if fact.loose { ") loose" } else { ")" })
}

fn facts(alloc: Global, text: &mut String, word: &str, all: &[Fact]) -> Result<(), AllocError> {
    let mut before = word;
    for one in all {
        text.push_str(before)?;
        fact(alloc, text, one)?;
        before = ", ";
    }
    Ok(())
}

// The end of a span, if it has one.
fn below(alloc: Global, text: &mut String, end: &Option<Term>) -> Result<(), AllocError> {
    match end {
        None => Ok(()),
        Some(end) => {
            text.push_str(" below ")?;
            term(alloc, text, end)
        }
    }
}

fn form(alloc: Global, text: &mut String, form: &Form) -> Result<(), AllocError> {
    match form {
        Form::One => text.push_str(" one"),
        Form::Share(amount) => {
            text.push_str(" share ")?;
            term(alloc, text, amount)
        }
        Form::Src(count) => {
            text.push_str(" src ")?;
            term(alloc, text, count)
        }
        Form::Tok(count) => {
            text.push_str(" tok ")?;
            term(alloc, text, count)
        }
        Form::Span(start, end) => {
            text.push_str(" from ")?;
            term(alloc, text, start)?;
            below(alloc, text, end)
        }
    }
}

fn piece(alloc: Global, text: &mut String, piece: &Piece) -> Result<(), AllocError> {
    term(alloc, text, &piece.region)?;
    number(alloc, text, "@R", piece.kind)?;
    number(alloc, text, ".", piece.atom)?;
    form(alloc, text, &piece.form)
}

fn pieces(alloc: Global, text: &mut String, word: &str, all: &[Piece]) -> Result<(), AllocError> {
    let mut before = word;
    for one in all {
        text.push_str(before)?;
        piece(alloc, text, one)?;
        before = ", ";
    }
    Ok(())
}

fn name(alloc: Global, text: &mut String, name: &Option<Term>) -> Result<(), AllocError> {
    match name {
        None => text.push_str("_"),
        Some(bound) => term(alloc, text, bound),
    }
}

fn env(alloc: Global, text: &mut String, env: &Env) -> Result<(), AllocError> {
    text.push_str("\nenv")?;
    let mut before = " ";
    for one in &env.terms {
        text.push_str(before)?;
        name(alloc, text, one)?;
        before = ", ";
    }
    Ok(())
}

fn state(alloc: Global, text: &mut String, state: &State) -> Result<(), AllocError> {
    sorts(text, state.sorts())?;
    rows(alloc, text, "\nrows ", state.rows())?;
    terms(alloc, text, "\nstore ", state.store())?;
    cells(alloc, text, state.cells())?;
    facts(alloc, text, "\nfacts ", state.facts())?;
    pieces(alloc, text, "\nguards ", state.guards())?;
    pieces(alloc, text, "\nbefore ", state.before())?;
    facts(alloc, text, "\nopened ", state.opened())?;
    for one in state.envs() {
        env(alloc, text, one)?;
    }
    Ok(())
}

// ---- tasks

fn place(alloc: Global, text: &mut String, place: Place) -> Result<(), AllocError> {
    number(alloc, text, " ", place.line)?;
    number(alloc, text, ":", place.column)
}

fn place_of(item: &Item) -> Place {
    match item {
        Item::Compare(comparison) => comparison.place,
        Item::Choose(comparison, _, _) => comparison.place,
        Item::Fact(place, _, _, _, _) => *place,
        Item::Atom(place, _, _, _, _) => *place,
        Item::Cell(place, _, _) => *place,
    }
}

fn places(alloc: Global, text: &mut String, list: &[Item]) -> Result<(), AllocError> {
    for item in list {
        place(alloc, text, place_of(item))?;
    }
    Ok(())
}

// The places of the items, those of the last list first.
fn items(alloc: Global, text: &mut String, items: &Items<'_>) -> Result<(), AllocError> {
    for list in items.lists.iter().rev() {
        places(alloc, text, list)?;
    }
    Ok(())
}

fn numbers(alloc: Global, text: &mut String, list: &[Statement]) -> Result<(), AllocError> {
    for statement in list {
        number(alloc, text, " ", statement.number)?;
    }
    Ok(())
}

// The numbers of the statements, those of the last list first.
fn point(alloc: Global, text: &mut String, point: &Point<'_>) -> Result<(), AllocError> {
    for list in point.lists.iter().rev() {
        numbers(alloc, text, list)?;
    }
    Ok(())
}

// Numbers, each behind its word.
fn numbered(alloc: Global, text: &mut String, all: &[(&str, u32)]) -> Result<(), AllocError> {
    for (word, one) in all {
        number(alloc, text, word, *one)?;
    }
    Ok(())
}

// Statements that are to be run.
fn run(
    alloc: Global,
    text: &mut String,
    word: &str,
    home: &Home,
    at: &Point<'_>,
) -> Result<(), AllocError> {
    text.push_str(word)?;
    point(alloc, text, at)?;
    let numbers = [
        (" of ", home.function),
        (", fixed names from v", home.fixed),
    ];
    numbered(alloc, text, &numbers)
}

// Items that are to be given or taken.
fn listed(
    alloc: Global,
    text: &mut String,
    word: &str,
    all: &Items<'_>,
    numbers: &[(&str, u32)],
) -> Result<(), AllocError> {
    text.push_str(word)?;
    items(alloc, text, all)?;
    numbered(alloc, text, numbers)
}

// A region that is to be stated as made.
fn made(
    alloc: Global,
    text: &mut String,
    region: &Term,
    numbers: &[(&str, u32)],
) -> Result<(), AllocError> {
    text.push_str("\nmade ")?;
    term(alloc, text, region)?;
    numbered(alloc, text, numbers)
}

fn task(alloc: Global, text: &mut String, task: &Task<'_>) -> Result<(), AllocError> {
    match task {
        Task::Run(home, at) => run(alloc, text, "\nrun", home, at),
        Task::Turn(home, at) => run(alloc, text, "\nturn", home, at),
        Task::Give(all, env, at) => {
            let numbers = [(" in env ", *env), (" at ", *at)];
            listed(alloc, text, "\ngive", all, &numbers)
        }
        Task::Take(all, env, left, at) => {
            let numbers = [(" in env ", *env), (", creations ", *left), (", at ", *at)];
            listed(alloc, text, "\ntake", all, &numbers)
        }
        Task::Made(kind, case, env, region, at) => {
            let numbers = [
                (" of R", *kind),
                (" in case ", *case),
                (" in env ", *env),
                (" at ", *at),
            ];
            made(alloc, text, region, &numbers)
        }
        Task::Close(any, at) => {
            let word = if *any {
                "\nclose any at "
            } else {
                "\nclose same at "
            };
            number(alloc, text, word, *at)
        }
        Task::Shift(opened, case, action, env, at) => {
            let numbers = [
                ("\nshift opened ", *opened),
                (" to case ", *case),
                (" by move ", *action),
                (" in env ", *env),
                (" at ", *at),
            ];
            numbered(alloc, text, &numbers)
        }
        Task::Rest(fact, at) => {
            let numbers = [("\nrest ", *fact), (" at ", *at)];
            numbered(alloc, text, &numbers)
        }
    }
}

// ---- answers

fn goal(alloc: Global, text: &mut String, goal: &Goal<'_>) -> Result<(), AllocError> {
    text.push_str("\ngoal")?;
    state(alloc, text, &goal.state)?;
    for one in goal.tasks.iter().rev() {
        task(alloc, text, one)?;
    }
    Ok(())
}

// Each subgoal, or that there is none.
pub fn goals(alloc: Global, all: &[Goal<'_>]) -> Result<String, AllocError> {
    let mut text = String::new(alloc);
    for one in all {
        goal(alloc, &mut text, one)?;
    }
    if all.is_empty() {
        text.push_str("\nno goal")?;
    }
    Ok(text)
}

// Each list of rows, a line a list.
pub fn lists(alloc: Global, all: &[Vec<Row>]) -> Result<String, AllocError> {
    let mut text = String::new(alloc);
    for one in all {
        rows(alloc, &mut text, "\n", one)?;
    }
    Ok(text)
}

// Why a choice leaves nothing; want of memory is handed on.
pub fn failure(alloc: Global, error: &RuleError) -> Result<String, AllocError> {
    match error {
        RuleError::NotApplicable => String::from_str(alloc, "\nnot applicable"),
        RuleError::Wide(left, right) => {
            let mut text = String::from_str(alloc, "\nwide ")?;
            whole(alloc, &mut text, *left)?;
            text.push_str(" ")?;
            whole(alloc, &mut text, *right)?;
            Ok(text)
        }
        RuleError::OutOfMemory => Err(AllocError),
    }
}
