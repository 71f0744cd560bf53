//! What a goal lacks for which no choice is offered.
ghost use Rattle.std.specs.Prelude.{◌≡◌, option_map};
ghost use Rattle.cap_prog.specs.Program.{done, none};
ghost use Rattle.cap_prog.specs.Views.{item_view, program_view, statement_view};
ghost use Rattle.cap_goal.specs.Views.{block_in, items_in, goal_view, task_view, tasks_view};
ghost use Rattle.cap_search_spec.specs.Leaves.{leaf_at as leaf_of_goal, leaf_at_task as leaf_of_task};
ghost use Rattle.cap_search_spec.specs.Leaves.{leaf_at_tasks as leaf_of_tasks};
ghost use Rattle.cap_search_spec.specs.Leaves.{leaf_at_shift as leaf_of_shift, place_of_case};
ghost use Rattle.cap_search_spec.specs.Leaves.{leaf_at_act as leaf_of_act, leaf_at_item as leaf_of_item};
ghost use Rattle.cap_search_spec.specs.Leaves.{other_leaf as leaf_without_item};
ghost use Rattle.cap_search_trees.specs.Heads.{head_statement, head_item, statement_at, item_at};
ghost use Rattle.cap_search_trees.specs.Heads.{leaf_of_run as leaf_by_run};
ghost use Rattle.cap_search_trees.specs.Heads.{leaf_of_turn as leaf_by_turn};
ghost use Rattle.cap_search_trees.specs.Heads.{leaf_of_take as leaf_by_take};
ghost use Rattle.cap_search_trees.specs.Heads.{case_place, shift_leaf};
ghost use Rattle.cap_search_trees.specs.Views.{leaf_view};

use crate::obligation::Need;
use cap_goal::{Goal, Items, Point, State, Task};
use cap_prog::{Act, Item, Program, Statement};
use cap_syntax::Place;

/// What a goal lacks: the number of the statement at which its first task arose, 0 outside a body;
/// what it needs, and the place of that, or none where it is the place of the statement.
#[derive(Clone, Copy)]
pub(crate) struct Leaf {
    pub statement: u32,
    pub need: Need,
    pub item: Option<Place>,
}

// What has no item of its own.
fn other_leaf(statement: u32) -> Leaf
    ensures { leaf_view result ≡ leaf_without_item statement }
{
    Leaf {
        statement,
        need: Need::State,
        item: None,
    }
}

// The statement that comes first in lists, the last of which comes first.
fn first_statement<'a>(lists: &[&'a [Statement]]) -> Option<&'a Statement>
    ensures { statement_at result ≡ head_statement (block_in lists.now done) }
{
    let mut left = lists.len();
    while left > 0 {
        let list = lists[left - 1];
        if let [statement, ..] = list {
            return Some(statement);
        }
        left -= 1;
    }
    None
}

// The item that comes first in lists, the last of which comes first.
fn first_item<'a>(lists: &[&'a [Item]]) -> Option<&'a Item>
    ensures { item_at result ≡ head_item (items_in lists.now none) }
{
    let mut left = lists.len();
    while left > 0 {
        let list = lists[left - 1];
        if let [item, ..] = list {
            return Some(item);
        }
        left -= 1;
    }
    None
}

// At a statement that is to be run.
fn leaf_at_statement(statement: &Statement) -> Leaf
    ensures { leaf_view result
        ≡ leaf_of_act (statement_view statement.now).label (statement_view statement.now).act }
{
    match &statement.act {
        Act::Assert(comparison) => Leaf {
            statement: statement.number,
            need: Need::Fact,
            item: Some(comparison.place),
        },
        Act::Read(_, _)
        | Act::Write(_, _)
        | Act::Cas(_, _, _, _)
        | Act::Faa(_, _, _)
        | Act::Dispose(_) => Leaf {
            statement: statement.number,
            need: Need::Cell,
            item: Some(statement.place),
        },
        Act::Set(_, _)
        | Act::Alloc(_, _)
        | Act::Call(_, _, _)
        | Act::Fork(_, _)
        | Act::If(_, _, _)
        | Act::While(_, _, _)
        | Act::Return(_) => other_leaf(statement.number),
    }
}

fn leaf_of_run(point: &Point<'_>) -> Leaf
    ensures { leaf_view result
        ≡ leaf_by_run (head_statement (block_in point.now.lists.items done)) }
{
    match first_statement(&point.lists) {
        None => other_leaf(0),
        Some(statement) => leaf_at_statement(statement),
    }
}

fn leaf_of_turn(point: &Point<'_>) -> Leaf
    ensures { leaf_view result
        ≡ leaf_by_turn (head_statement (block_in point.now.lists.items done)) }
{
    match first_statement(&point.lists) {
        None => other_leaf(0),
        Some(statement) => other_leaf(statement.number),
    }
}

// At an item that is to be given up.
fn leaf_at_item(statement: u32, item: &Item) -> Leaf
    ensures { leaf_view result ≡ leaf_of_item statement (item_view item.now) }
{
    let (need, place) = match item {
        Item::Choose(_, _, _) => return other_leaf(statement),
        Item::Compare(comparison) => (Need::Fact, comparison.place),
        Item::Fact(place, _, _, _, _) => (Need::Region, *place),
        Item::Atom(place, _, _, _, _) => (Need::Guard, *place),
        Item::Cell(place, _, _) => (Need::Cell, *place),
    };
    Leaf {
        statement,
        need,
        item: Some(place),
    }
}

fn leaf_of_take(statement: u32, items: &Items<'_>) -> Leaf
    ensures { leaf_view result
        ≡ leaf_by_take statement (head_item (items_in items.now.lists.items none)) }
{
    match first_item(&items.lists) {
        None => other_leaf(statement),
        Some(item) => leaf_at_item(statement, item),
    }
}

// The place of a case of a region type, by their numbers.
fn place_of(program: &Program, kind: u32, case: u32) -> Option<Place>
    ensures { result ≡ case_place (program_view program.now) kind case }
{
    let region = program.regions().get(kind as usize)?;
    let case = region.cases.get(case as usize)?;
    Some(case.place)
}

// At a move, the region being opened by its number.
fn leaf_at_shift(program: &Program, state: &State, opened: u32, case: u32, statement: u32) -> Leaf
    ensures { leaf_view result
        ≡ shift_leaf (program_view program.now) state.now opened case statement }
{
    match state.opened().get(opened as usize) {
        None => other_leaf(statement),
        Some(fact) => Leaf {
            statement,
            need: Need::Move,
            item: place_of(program, fact.kind, case),
        },
    }
}

fn leaf_at_task(program: &Program, state: &State, task: &Task<'_>) -> Leaf
    ensures { leaf_view result
        ≡ leaf_of_task (program_view program.now) state.now (task_view task.now) }
{
    match task {
        Task::Run(_, point) => leaf_of_run(point),
        Task::Turn(_, point) => leaf_of_turn(point),
        Task::Take(items, _, _, statement) => leaf_of_take(*statement, items),
        Task::Made(kind, case, _, _, statement) => Leaf {
            statement: *statement,
            need: Need::State,
            item: place_of(program, *kind, *case),
        },
        Task::Shift(opened, case, _, _, statement) => {
            leaf_at_shift(program, state, *opened, *case, *statement)
        }
        Task::Give(_, _, statement) | Task::Close(_, statement) | Task::Rest(_, statement) => {
            other_leaf(*statement)
        }
    }
}

// The last task comes first.
fn leaf_at_tasks(program: &Program, state: &State, tasks: &[Task<'_>]) -> Leaf
    ensures { leaf_view result
        ≡ leaf_of_tasks (program_view program.now) state.now (tasks_view tasks.now) }
{
    match tasks {
        [] => other_leaf(0),
        [.., task] => leaf_at_task(program, state, task),
    }
}

/// What a goal lacks for which no choice is offered, by its first task. It takes no memory.
pub(crate) fn leaf_at(program: &Program, goal: &Goal<'_>) -> Leaf
    ensures { leaf_view result ≡ leaf_of_goal (program_view program.now) (goal_view goal.now) }
{
    leaf_at_tasks(program, &goal.state, &goal.tasks)
}
