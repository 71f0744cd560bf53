//! Where the items of a function's precondition begin to be met.
ghost use Rattle.std.specs.Prelude.{◌≡◌, ◌++◌, IfOk, length, map, OnOk, pos, replicate, Some};
ghost use Rattle.std.specs.FinMap.{from_entries};
ghost use Rattle.cap_prog.specs.Views.{function_view};
ghost use Rattle.cap_goal_spec.specs.Environments.{unbound, zero_value};
ghost use Rattle.cap_machine_accounts.specs.Assertions.{a_number};
ghost use Rattle.cap_owners_spec.specs.Start.{first_meeting, unset as is_unset};
ghost use Rattle.cap_owners_start.specs.Views.{requires_met};
ghost use Rattle.cap_owners_values.specs.Views.{Traces, value_view};

use crate::cells::Cells;
use crate::meeting::Meeting;
use cap_goal::Env;
use cap_lin::{Sort, Term};
use cap_owners_fill::Fill;
use cap_owners_values::{TraceError, Value, Values};
use cap_prog::Function;
use std::alloc::{AllocError, Global};

// The value of a fixed name, until it has one.
fn unset(sort: Sort) -> Value
    ensures { value_view result ≡ is_unset sort }
{
    match sort {
        Sort::Int => Value::Number(0),
        Sort::Perm => Value::Share(0),
    }
}

// Appends values of locals, which have none yet.
fn push_locals(names: &mut Values, count: u32) -> Result<(), AllocError>
    ensures { OnOk result (names.new ≡ names.old ++ replicate count (a_number (pos 0))) }
{
    for _local in 0..count {
        names.push(Value::Number(0))?;
    }
    Ok(())
}

// Appends values of fixed names, which have none yet.
fn push_fixed(names: &mut Values, fixed: &[Sort]) -> Result<(), AllocError>
    ensures { OnOk result (names.new ≡ names.old ++ map is_unset fixed.now) }
{
    for sort in fixed {
        names.push(unset(*sort))?;
    }
    Ok(())
}

// The values of names: the arguments, then the locals, then the fixed names.
fn first_names(
    alloc: Global,
    args: &[i128],
    locals: u32,
    fixed: &[Sort],
) -> Result<Values, AllocError>
    ensures { IfOk result (λ v. v ≡ map a_number args.now
        ++ (replicate locals (a_number (pos 0)) ++ map is_unset fixed.now)) }
{
    let mut names = Values::of_numbers(alloc, args)?;
    push_locals(&mut names, locals)?;
    push_fixed(&mut names, fixed)?;
    Ok(names)
}

// Appends names with values, one for each argument.
fn push_bound(alloc: Global, terms: &mut Vec<Option<Term>>, args: &[i128]) -> Result<(), AllocError>
    ensures { OnOk result
        (terms.new.items ≡ terms.old.items ++ map (λ z. Some zero_value) args.now) }
{
    for _arg in args {
        terms.push(Some(Term::constant(alloc, 0)))?;
    }
    Ok(())
}

// Appends names without values.
fn push_unbound(terms: &mut Vec<Option<Term>>, count: usize) -> Result<(), AllocError>
    ensures { OnOk result (terms.new.items ≡ terms.old.items ++ unbound count) }
{
    for _name in 0..count {
        terms.push(None)?;
    }
    Ok(())
}

// Parameters have values, and locals and fixed names have none.
fn first_env(alloc: Global, args: &[i128], locals: u32, fixed: &[Sort]) -> Result<Env, AllocError>
    ensures { IfOk result (λ e. e
        ≡ map (λ z. Some zero_value) args.now ++ (unbound locals ++ unbound (length fixed.now))) }
{
    let mut terms = Vec::new(alloc);
    push_bound(alloc, &mut terms, args)?;
    push_unbound(&mut terms, locals as usize)?;
    push_unbound(&mut terms, fixed.len())?;
    Ok(Env { terms })
}

// Nothing is met yet.
fn first(
    alloc: Global,
    function: &Function,
    args: &[i128],
    heap: &[(i128, i128)],
) -> Result<Meeting, AllocError>
    ensures { IfOk result (λ m. m
        ≡ first_meeting (function_view function.now) args.now (from_entries heap.now)) }
{
    let env = first_env(alloc, args, function.locals, &function.fixed)?;
    let mut fill = Fill::new(alloc);
    fill.names = first_names(alloc, args, function.locals, &function.fixed)?;
    let heap = Cells::of(alloc, heap)?;
    Ok(Meeting { env, fill, heap })
}

/// By what the precondition of a function is met at these arguments and this heap, of which of two
/// cells with one address the first counts; none where it isn't met. `PastWidth` comes where a term
/// leaves 128 bits, and `Untold` where an item asks for what isn't known at a start: a guard, a share
/// other than the whole one, a term with names that have no values yet.
pub fn meet_requires(
    alloc: Global,
    function: &Function,
    args: &[i128],
    heap: &[(i128, i128)],
) -> Result<Option<Fill>, TraceError>
    ensures { Traces result (λ f. f)
        (requires_met (function_view function.now) args.now (from_entries heap.now)) }
{
    let mut meeting = first(alloc, function, args, heap)?;
    if meeting.meet_all(alloc, &function.requires_)? {
        Ok(Some(meeting.fill))
    } else {
        Ok(None)
    }
}
