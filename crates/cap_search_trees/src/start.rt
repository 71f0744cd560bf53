//! Whether nothing meets the precondition of `main`.
ghost use Rattle.std.specs.Prelude.{◌≡◌, ◌++◌, IfOk, Some, is_some, map};
ghost use Rattle.cap_lin.specs.Exact.{IsExactBy};
ghost use Rattle.cap_lin.specs.declared.row.Op.TheVariants.{Ge as AtLeast, Ne as Unequal};
ghost use Rattle.cap_prog.specs.Program.{items_of};
ghost use Rattle.cap_prog.specs.Views.{function_view, item_view, program_view};
ghost use Rattle.cap_goal_spec.specs.Environments.{one_value};
ghost use Rattle.cap_search_spec.specs.Starts.{addresses as addresses_in, comparisons, different, made};
ghost use Rattle.cap_search_spec.specs.Starts.{empty_by, empty_start as is_empty_start, start_rows};
ghost use Rattle.cap_search_spec.specs.Starts.{refuted_rows};
ghost use Rattle.cap_offer_spec.specs.Deciding.{clean, decided as decision_of};
ghost use Rattle.cap_search_trees.specs.Starts.{claims_view, terms_lent, made_rows, made_steps};

use cap_closure_decide::{Notes, decided};
use cap_lin::{LinError, Op, Row, Sort, Term};
use cap_prog::{Function, Item, Program};
use std::alloc::{AllocError, Global};

/// A comparison that holds of whatever meets the precondition.
#[derive(Clone, Copy)]
struct Claim<'a> {
    left: &'a Term,
    op: Op,
    right: &'a Term,
    sort: Sort,
}

// Appends the comparisons among items.
fn push_comparisons<'a>(claims: &mut Vec<Claim<'a>>, items: &'a [Item]) -> Result<(), AllocError>
    ensures { IfOk result (λ _. claims_view claims.new.items
        ≡ claims_view claims.old.items ++ comparisons (items_of (map item_view items.now))) }
{
    for item in items {
        if let Item::Compare(comparison) = item {
            claims.push(Claim {
                left: &comparison.left,
                op: comparison.op,
                right: &comparison.right,
                sort: comparison.sort,
            })?;
        }
    }
    Ok(())
}

// The addresses of the cells among items.
fn addresses<'a>(alloc: Global, items: &'a [Item]) -> Result<Vec<&'a Term>, AllocError>
    ensures { IfOk result
        (λ v. terms_lent v.items ≡ addresses_in (items_of (map item_view items.now))) }
{
    let mut addresses = Vec::new(alloc);
    for item in items {
        if let Item::Cell(_, address, _) = item {
            addresses.push(address)?;
        }
    }
    Ok(addresses)
}

// Appends that each address is at least 1.
fn push_positive<'a>(
    claims: &mut Vec<Claim<'a>>,
    addresses: &[&'a Term],
    one: &'a Term,
) -> Result<(), AllocError>
    requires { one.now ≡ one_value }
    ensures { IfOk result (λ _. claims_view claims.new.items
        ≡ claims_view claims.old.items
        ++ map (λ a. made a AtLeast one_value) (terms_lent addresses.now)) }
{
    for address in addresses {
        claims.push(Claim {
            left: address,
            op: Op::Ge,
            right: one,
            sort: Sort::Int,
        })?;
    }
    Ok(())
}

// Appends that an address is none of these.
fn push_different_from<'a>(
    claims: &mut Vec<Claim<'a>>,
    address: &'a Term,
    others: &[&'a Term],
) -> Result<(), AllocError>
    ensures { IfOk result (λ _. claims_view claims.new.items
        ≡ claims_view claims.old.items
        ++ map (λ b. made address.now Unequal b) (terms_lent others.now)) }
{
    for other in others {
        claims.push(Claim {
            left: address,
            op: Op::Ne,
            right: other,
            sort: Sort::Int,
        })?;
    }
    Ok(())
}

// Appends that no two addresses are one.
fn push_different<'a>(claims: &mut Vec<Claim<'a>>, addresses: &[&'a Term]) -> Result<(), AllocError>
    ensures { IfOk result (λ _. claims_view claims.new.items
        ≡ claims_view claims.old.items ++ different (terms_lent addresses.now)) }
{
    for (place, address) in addresses.iter().enumerate() {
        push_different_from(claims, address, &addresses[place + 1..])?;
    }
    Ok(())
}

// What holds of a state that meets a precondition of these items.
fn start_claims<'a>(
    alloc: Global,
    items: &'a [Item],
    one: &'a Term,
) -> Result<Vec<Claim<'a>>, AllocError>
    requires { one.now ≡ one_value }
    ensures { IfOk result
        (λ v. claims_view v.items ≡ start_rows (items_of (map item_view items.now))) }
{
    let addresses = addresses(alloc, items)?;
    let mut claims = Vec::new(alloc);
    push_comparisons(&mut claims, items)?;
    push_positive(&mut claims, &addresses, one)?;
    push_different(&mut claims, &addresses)?;
    Ok(claims)
}

// The rows of comparisons.
fn rows_of(alloc: Global, claims: &[Claim<'_>]) -> Result<Vec<Row>, LinError>
    ensures { IsExactBy result (λ v. v.items) (made_steps (claims_view claims.now))
        (made_rows (claims_view claims.now)) }
{
    let mut rows = Vec::new(alloc);
    for claim in claims {
        rows.push(Row::of(alloc, claim.left, claim.op, claim.right, claim.sort)?)?;
    }
    Ok(rows)
}

// Whether elimination refutes the rows, within all limits.
fn are_refuted(alloc: Global, rows: &[Row]) -> Result<bool, AllocError>
    ensures { IfOk result (λ yes. yes ≡ is_some (decision_of rows.now clean).value) }
{
    let mut notes = Notes::new();
    let cert = decided(alloc, rows, &mut notes)?;
    Ok(cert.is_some())
}

// Whether elimination refutes the rows of comparisons, within all limits.
fn refutes(alloc: Global, claims: &[Claim<'_>]) -> Result<bool, AllocError>
    ensures { IfOk result (λ yes. yes ≡ refuted_rows (claims_view claims.now)) }
{
    match rows_of(alloc, claims) {
        Ok(rows) => are_refuted(alloc, &rows),
        Err(LinError::Wide(_, _)) => Ok(false),
        Err(LinError::OutOfMemory) => Err(AllocError),
    }
}

fn is_empty_before(alloc: Global, function: &Function) -> Result<bool, AllocError>
    ensures { IfOk result (λ yes. yes ≡ empty_by (Some (function_view function.now))) }
{
    let one = Term::constant(alloc, 1);
    let claims = start_claims(alloc, &function.requires_.items, &one)?;
    refutes(alloc, &claims)
}

/// Whether nothing meets the precondition of `main`, as far as its comparisons and cells say:
/// elimination refutes the rows of its comparisons, that each address is at least 1, and that no
/// two are one, and neither they nor the elimination pass a limit. The only error is want of
/// memory.
#[tactic(auto, unfolding(cap_search_spec::specs::Starts::empty_start))]
pub fn empty_start(alloc: Global, program: &Program) -> Result<bool, AllocError>
    ensures { IfOk result (λ yes. yes ≡ is_empty_start (program_view program.now)) }
{
    match program.functions().get(program.main() as usize) {
        None => Ok(false),
        Some(main) => is_empty_before(alloc, main),
    }
}
