//! The statements of a body.
ghost use Rattle.std.specs.Prelude.{◌≡◌, ◌+◌, ◌<◌, ◌^◌, IfOk, OnOk, length, option_map};
ghost use Rattle.cap_prog.specs.Program as plain;
ghost use Rattle.cap_prog.specs.Program.{append, first, done};
ghost use Rattle.cap_prog.specs.Views.{act_view, block_view as block_seen};
ghost use Rattle.cap_parse_tree.specs.Tree.{listed_parts};
ghost use Rattle.cap_parse_tree.specs.Views.{value_view, term_view, statement_view, block_view};
ghost use Rattle.cap_parse_tree.specs.Views.{listed_view, comparison_view, clause_view};
ghost use Rattle.cap_resolve_spec.specs.Parts.{statement_parts, block_parts};
ghost use Rattle.cap_resolve_spec.specs.Linear.{term_form};
ghost use Rattle.cap_resolve_spec.specs.Program.{assign_program, act_program, block_program};
ghost use Rattle.cap_resolve_spec.specs.Program.{returned as returned_form, statement_place as place_of};
ghost use Rattle.cap_resolve_spec.specs.Program.{label, body_program, comparison_program, body_terms};
ghost use Rattle.cap_resolve_spec.specs.Program.{new_assertion, function_number};
ghost use Rattle.cap_resolve_tables.specs.Tables.{functions_of};
ghost use Rattle.cap_resolve_functions.specs.Bodies.{context_seen};
ghost use Rattle.cap_resolve_functions.specs.Narrow.{IsNarrow, AreNarrow, IsNarrowComparison};
ghost use Rattle.cap_resolve_functions.specs.Narrow.{IsNarrowValue, IsNarrowReturn, IsNarrowNew};
ghost use Rattle.cap_resolve_functions.specs.Narrow.{IsNarrowStatement, IsNarrowBlock};

use crate::assertions::{build_new, clause_of};
use crate::bodies::Body;
use crate::comparisons::build_comparison;
use crate::terms::{build_term, build_terms};
use cap_lin::Term as Linear;
use cap_parse_tree::{
    Block, Clause, Comparison, Listed, Statement as StatementTree, Term, Value, Word,
};
use cap_prog::{Act, Statement};
use cap_resolve_terms::Scope;
use cap_syntax::Place;
use std::alloc::{AllocError, Global};

fn build_cas(
    alloc: Global,
    scope: &Scope<'_>,
    variable: u32,
    address: &Term,
    old: &Term,
    new: &Term,
) -> Result<Act, AllocError>
    requires address { IsNarrow scope.now (term_view address.now) }
    requires old { IsNarrow scope.now (term_view old.now) }
    requires new { IsNarrow scope.now (term_view new.now) }
    ensures { IfOk result (λ a. act_view a ≡ plain.cas variable
        (term_form scope.now (term_view address.now)) (term_form scope.now (term_view old.now))
        (term_form scope.now (term_view new.now))) }
{
    let address = build_term(alloc, scope, address)?;
    let old = build_term(alloc, scope, old)?;
    let new = build_term(alloc, scope, new)?;
    Ok(Act::Cas(variable, address, old, new))
}

fn build_faa(
    alloc: Global,
    scope: &Scope<'_>,
    variable: u32,
    address: &Term,
    more: &Term,
) -> Result<Act, AllocError>
    requires address { IsNarrow scope.now (term_view address.now) }
    requires more { IsNarrow scope.now (term_view more.now) }
    ensures { IfOk result (λ a. act_view a ≡ plain.faa variable
        (term_form scope.now (term_view address.now)) (term_form scope.now (term_view more.now))) }
{
    let address = build_term(alloc, scope, address)?;
    let more = build_term(alloc, scope, more)?;
    Ok(Act::Faa(variable, address, more))
}

fn build_assign(
    alloc: Global,
    body: &Body<'_, '_, '_>,
    variable: u32,
    value: &Value,
) -> Result<Act, AllocError>
    requires { IsNarrowValue body.now.scope.now (value_view value.now) }
    ensures { IfOk result
        (λ a. act_view a ≡ assign_program (context_seen body.now) variable (value_view value.now)) }
{
    match value {
        Value::Term(term) => Ok(Act::Set(variable, build_term(alloc, body.scope, term)?)),
        Value::Load(_, address, _) => {
            Ok(Act::Read(variable, build_term(alloc, body.scope, address)?))
        }
        Value::Alloc(_, _, cells, _) => Ok(Act::Alloc(variable, cells.value as u32)),
        Value::Cas(_, _, address, _, old, _, new, _) => {
            build_cas(alloc, body.scope, variable, address, old, new)
        }
        Value::Faa(_, _, address, _, more, _) => {
            build_faa(alloc, body.scope, variable, address, more)
        }
        Value::Call(name, list) => build_call(alloc, body, Some(variable), name, list),
    }
}

fn build_write(
    alloc: Global,
    scope: &Scope<'_>,
    address: &Term,
    value: &Term,
) -> Result<Act, AllocError>
    requires address { IsNarrow scope.now (term_view address.now) }
    requires value { IsNarrow scope.now (term_view value.now) }
    ensures { IfOk result (λ a. act_view a ≡ plain.write
        (term_form scope.now (term_view address.now)) (term_form scope.now (term_view value.now))) }
{
    let address = build_term(alloc, scope, address)?;
    let value = build_term(alloc, scope, value)?;
    Ok(Act::Write(address, value))
}

/// `return;` returns 0.
fn build_returned(
    alloc: Global,
    body: &Body<'_, '_, '_>,
    term: &Option<Term>,
) -> Result<Linear, AllocError>
    requires { IsNarrowReturn body.now.scope.now (option_map term_view term.now) }
    ensures { IfOk result
        (λ t. t ≡ returned_form (context_seen body.now) (option_map term_view term.now)) }
{
    match term {
        None => Ok(Linear::constant(alloc, 0)),
        Some(term) => build_term(alloc, body.scope, term),
    }
}

fn statement_place(statement: &StatementTree) -> Place
    ensures { result ≡ place_of (statement_view statement.now) }
{
    match statement {
        StatementTree::Assign(word, _, _, _) => word.place,
        StatementTree::Store(place, _, _, _, _, _) => *place,
        StatementTree::Call(word, _, _) => word.place,
        StatementTree::Fork(place, _, _, _) => *place,
        StatementTree::If(place, _, _, _, _, _) => *place,
        StatementTree::While(place, _, _, _, _, _) => *place,
        StatementTree::Assert(place, _, _) => *place,
        StatementTree::Return(place, _, _) => *place,
        StatementTree::Dispose(place, _, _, _, _) => *place,
    }
}

/// Counts one statement more.
fn advance(next: &mut u32)
    requires { next.now + 1 < 2 ^ 32 }
    ensures { next.new ≡ next.old + 1 }
{
    *next += 1;
}

#[tactic(auto, using(crate::proofs::Blocks::joined, cap_prog::specs::declared::function::Act::TheFolds::the_lemmas))]
fn push(list: &mut Vec<Statement>, number: u32, place: Place, act: Act) -> Result<(), AllocError>
    ensures { OnOk result (block_seen list.new.items ≡ append (block_seen list.old.items)
        (first (label number place) (act_view act) done)) }
{
    list.push(Statement { number, place, act })?;
    Ok(())
}

fn build_if(
    alloc: Global,
    scope: &Scope<'_>,
    comparison: &Comparison,
    first: Vec<Statement>,
    second: Vec<Statement>,
) -> Result<Act, AllocError>
    requires { IsNarrowComparison scope.now (comparison_view comparison.now) }
    ensures { IfOk result (λ a. act_view a
        ≡ plain.branch (comparison_program scope.now (comparison_view comparison.now))
        (block_seen first.items) (block_seen second.items)) }
{
    let comparison = build_comparison(alloc, scope, comparison)?;
    Ok(Act::If(comparison, first, second))
}

fn build_while<'a>(
    alloc: Global,
    body: &Body<'_, '_, 'a>,
    comparison: &Comparison,
    invariant: &'a Option<Clause>,
    block: Vec<Statement>,
) -> Result<Act, AllocError>
    requires comparison { IsNarrowComparison body.now.scope.now (comparison_view comparison.now) }
    requires invariant { IsNarrowNew (context_seen body.now) body.now.kept.now
        (option_map clause_view invariant.now) }
    ensures { IfOk result (λ a. act_view a
        ≡ plain.loop (comparison_program body.now.scope.now (comparison_view comparison.now))
        (new_assertion (context_seen body.now) body.now.kept.now
        (option_map clause_view invariant.now)) (block_seen block.items)) }
{
    let kept = build_new(alloc, body, body.kept, clause_of(invariant))?;
    let comparison = build_comparison(alloc, body.scope, comparison)?;
    Ok(Act::While(comparison, kept, block))
}

fn build_call(
    alloc: Global,
    body: &Body<'_, '_, '_>,
    variable: Option<u32>,
    name: &Word,
    list: &Listed<Term>,
) -> Result<Act, AllocError>
    requires { AreNarrow body.now.scope.now (listed_parts (listed_view term_view list.now)) }
    ensures { IfOk result (λ a. act_view a ≡ plain.call variable
        (function_number (functions_of body.now.functions.now) name.now.text)
        (body_terms (context_seen body.now) (listed_parts (listed_view term_view list.now)))) }
{
    let number = body.functions.number(name.text.as_bytes());
    let arguments = build_terms(alloc, body.scope, list)?;
    Ok(Act::Call(variable, number, arguments))
}

fn build_fork(
    alloc: Global,
    body: &Body<'_, '_, '_>,
    name: &Word,
    list: &Listed<Term>,
) -> Result<Act, AllocError>
    requires { AreNarrow body.now.scope.now (listed_parts (listed_view term_view list.now)) }
    ensures { IfOk result (λ a. act_view a ≡ plain.fork
        (function_number (functions_of body.now.functions.now) name.now.text)
        (body_terms (context_seen body.now) (listed_parts (listed_view term_view list.now)))) }
{
    let number = body.functions.number(name.text.as_bytes());
    let arguments = build_terms(alloc, body.scope, list)?;
    Ok(Act::Fork(number, arguments))
}

/// What a statement does. Its own number is the next, and those of its blocks follow.
#[cycle(acts)]
fn build_act<'a>(
    alloc: Global,
    statement: &'a StatementTree,
    body: &Body<'_, '_, 'a>,
    next: &mut u32,
) -> Result<Act, AllocError>
    requires narrow { IsNarrowStatement (context_seen body.now) (statement_view statement.now) }
    requires counted { next.now + length (statement_parts (statement_view statement.now))
        < 2 ^ 32 }
    ensures built { IfOk result (λ a. act_view a
        ≡ act_program (context_seen body.now) next.old (statement_view statement.now)) }
    ensures counted { OnOk result (next.new
        ≡ next.old + length (statement_parts (statement_view statement.now))) }
{
    advance(next);
    match statement {
        StatementTree::Assign(word, _, value, _) => {
            let variable = body.scope.variable(word.text.as_bytes());
            build_assign(alloc, body, variable, value)
        }
        StatementTree::Store(_, address, _, _, value, _) => {
            build_write(alloc, body.scope, address, value)
        }
        StatementTree::Call(name, list, _) => build_call(alloc, body, None, name, list),
        StatementTree::Fork(_, name, list, _) => build_fork(alloc, body, name, list),
        StatementTree::If(_, _, comparison, _, block, other) => {
            let first = build_block(alloc, block, body, next)?;
            match other {
                None => build_if(alloc, body.scope, comparison, first, Vec::new(alloc)),
                Some(other) => {
                    let second = build_block(alloc, &other.block, body, next)?;
                    build_if(alloc, body.scope, comparison, first, second)
                }
            }
        }
        StatementTree::While(_, _, comparison, _, invariant, block) => {
            let block = build_block(alloc, block, body, next)?;
            build_while(alloc, body, comparison, invariant, block)
        }
        StatementTree::Assert(_, comparison, _) => {
            Ok(Act::Assert(build_comparison(alloc, body.scope, comparison)?))
        }
        StatementTree::Return(_, term, _) => Ok(Act::Return(build_returned(alloc, body, term)?)),
        StatementTree::Dispose(_, _, term, _, _) => {
            Ok(Act::Dispose(build_term(alloc, body.scope, term)?))
        }
    }
}

#[cycle(acts)]
fn push_statement<'a>(
    alloc: Global,
    statement: &'a StatementTree,
    body: &Body<'_, '_, 'a>,
    next: &mut u32,
    list: &mut Vec<Statement>,
) -> Result<(), AllocError>
    requires narrow { IsNarrowStatement (context_seen body.now) (statement_view statement.now) }
    requires counted { next.now + length (statement_parts (statement_view statement.now))
        < 2 ^ 32 }
    ensures built { OnOk result (block_seen list.new.items ≡ append (block_seen list.old.items)
        (first (label next.old (place_of (statement_view statement.now)))
        (act_program (context_seen body.now) next.old (statement_view statement.now)) done)) }
    ensures counted { OnOk result (next.new
        ≡ next.old + length (statement_parts (statement_view statement.now))) }
{
    let number = *next;
    let act = build_act(alloc, statement, body, next)?;
    push(list, number, statement_place(statement), act)
}

/// The statements of a block, of which the first has the next number.
#[cycle(acts)]
fn build_block<'a>(
    alloc: Global,
    block: &'a Block,
    body: &Body<'_, '_, 'a>,
    next: &mut u32,
) -> Result<Vec<Statement>, AllocError>
    requires narrow { IsNarrowBlock (context_seen body.now) (block_view block.now) }
    requires counted { next.now + length (block_parts (block_view block.now)) < 2 ^ 32 }
    ensures built { IfOk result (λ made. block_seen made.items
        ≡ block_program (context_seen body.now) next.old (block_view block.now)) }
    ensures counted { OnOk result (next.new
        ≡ next.old + length (block_parts (block_view block.now))) }
{
    let mut made = Vec::new(alloc);
    for statement in &block.statements {
        push_statement(alloc, statement, body, next, &mut made)?;
    }
    Ok(made)
}

/// The statements of a body, and a closing return of 0 at its last brace.
pub(crate) fn build_body<'a>(
    alloc: Global,
    block: &'a Block,
    body: &Body<'_, '_, 'a>,
) -> Result<Vec<Statement>, AllocError>
    requires narrow { IsNarrowBlock (context_seen body.now) (block_view block.now) }
    requires counted { length (block_parts (block_view block.now)) + 1 < 2 ^ 32 }
    ensures { IfOk result (λ made. block_seen made.items
        ≡ body_program (context_seen body.now) (block_view block.now)) }
{
    let mut next = 1;
    let mut made = build_block(alloc, block, body, &mut next)?;
    push(
        &mut made,
        next,
        block.close,
        Act::Return(Linear::constant(alloc, 0)),
    )?;
    Ok(made)
}
