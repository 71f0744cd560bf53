//! The first cell that has the wanted address.
ghost use Rattle.std.specs.Prelude.{◌≡◌, IfOk, option_map, is_none, count_by};
ghost use Rattle.cap_prog.specs.Views.{program_view};
ghost use Rattle.cap_goal_spec.specs.Fits.{HasRoom};
ghost use Rattle.cap_goal.specs.Views.{goal_view, choice_view};
ghost use Rattle.cap_rules.specs.Answers.{proofs as proofs_of_choice};
ghost use Rattle.cap_rules_steps.specs.Judging.{IsTold, lists_view};
ghost use Rattle.cap_rules_steps.specs.Walks.{seen};
ghost use Rattle.cap_offer_spec.specs.Scanning.{finished_cell, finished_act};
ghost use Rattle.cap_offer_spec.specs.Scanning.{has_room_for as room_for};
ghost use Rattle.cap_offer_spec.specs.Scanning.{at_address as address_scan, choice_if};
ghost use Rattle.cap_offer_spec.specs.Scanning.{ends_if as over_if, found_or_ends, parted};
ghost use Rattle.cap_closure_decide.specs.Noting.{Adds, certs_seen};
ghost use Rattle.cap_offer.specs.Seeking.{sought_choice, sought_finish, sought_scan};
ghost use Rattle.cap_offer.specs.Seeking.{scan_lists};
ghost use Rattle.cap_offer.specs.Seeking.{first_sought as sought_from};
ghost use Rattle.cap_offer.specs.Views.{lists_in, scan_view, sought_view};

use crate::claims::has_sought_address;
use crate::listing::count;
use cap_closure_decide::{Notes, decided_all, decided_each};
use cap_farkas::Cert;
use cap_goal::{Choice, Goal, LONGEST_LIST, State};
use cap_kernel::proofs;
use cap_lin::{Row, Term};
use cap_prog::{Act, Program};
use cap_rules_steps::RuleError;
use std::alloc::{AllocError, Global};

/// Which cell is sought: the one on which a heap statement acts, or that of an item, by the number
/// of its environment and its address.
#[derive(Clone, Copy)]
pub(crate) enum Sought<'a> {
    Act(&'a Act),
    Item(u32, &'a Term),
}

/// What a scan of the cells comes to at one of them.
#[derive(Drop)]
pub(crate) enum Scan {
    Finds(Choice),
    /// The cell has the address, and yet there is no choice.
    Ends,
    GoesOn,
}

// The choice on the cell of this number, without certificates.
fn bare_choice(alloc: Global, sought: Sought<'_>, number: u32) -> Choice
    ensures { choice_view result ≡ sought_choice (sought_view sought.entry) number }
{
    match sought {
        Sought::Act(_) => Choice::Act(number, Vec::new(alloc), Vec::new(alloc)),
        Sought::Item(_, _) => Choice::Cell(number, Vec::new(alloc)),
    }
}

// The lists that the choice on the cell of this number owes.
fn sought_lists(
    alloc: Global,
    program: &Program,
    goal: &Goal<'_>,
    sought: Sought<'_>,
    number: u32,
) -> Result<Vec<Vec<Row>>, RuleError>
    requires { HasRoom goal.now.state }
    ensures { IsTold (seen lists_view result) (proofs_of_choice (program_view program.now)
        (goal_view goal.now) (sought_choice (sought_view sought.entry) number)) }
{
    let choice = bare_choice(alloc, sought, number);
    proofs(alloc, program, goal, &choice)
}

// The choice to give the cell up. Its certificates are those of the address and then these.
fn finish_cell(
    alloc: Global,
    number: u32,
    certs: Vec<Cert>,
    others: &[Vec<Row>],
    notes: &mut Notes,
) -> Result<Option<Choice>, AllocError>
    ensures { IfOk result (λ c. Adds notes.old notes.new (option_map choice_view c)
        (finished_cell number certs.items (lists_in others.now))) }
{
    let mut certs = certs;
    match decided_all(alloc, others, notes)? {
        Some(mut more) => {
            certs.append(&mut more)?;
            Ok(Some(Choice::Cell(number, certs)))
        }
        None => Ok(None),
    }
}

// How many marks have no certificate.
fn unmarked(marks: &[Option<Cert>]) -> usize
    ensures { result ≡ count_by is_none marks.now }
{
    marks.iter().filter(|mark| mark.is_none()).count()
}

// Whether the state has room for the variables that marks without a certificate make.
fn has_room_for(state: &State, marks: &[Option<Cert>]) -> bool
    ensures { result ≡ room_for state.now marks.now }
{
    let sorts = state.sorts().len();
    if sorts > LONGEST_LIST {
        return false;
    }
    unmarked(marks) <= LONGEST_LIST - sorts
}

// The choice to act on the cell, where there is room for its marks.
fn finish_act(
    alloc: Global,
    state: &State,
    number: u32,
    certs: Vec<Cert>,
    others: &[Vec<Row>],
    notes: &mut Notes,
) -> Result<Option<Choice>, AllocError>
    ensures { IfOk result (λ c. Adds notes.old notes.new (option_map choice_view c)
        (finished_act state.now number certs.items (lists_in others.now))) }
{
    let marks = decided_each(alloc, others, notes)?;
    if has_room_for(state, &marks) {
        Ok(Some(Choice::Act(number, certs, marks)))
    } else {
        Ok(None)
    }
}

// The choice on the cell, once it has the address by these certificates.
fn finish(
    alloc: Global,
    state: &State,
    sought: Sought<'_>,
    number: u32,
    certs: Vec<Cert>,
    others: &[Vec<Row>],
    notes: &mut Notes,
) -> Result<Option<Choice>, AllocError>
    ensures { IfOk result (λ c. Adds notes.old notes.new (option_map choice_view c)
        (sought_finish state.now (sought_view sought.entry) number certs.items
        (lists_in others.now))) }
{
    match sought {
        Sought::Act(_) => finish_act(alloc, state, number, certs, others, notes),
        Sought::Item(_, _) => finish_cell(alloc, number, certs, others, notes),
    }
}

// A choice ends the scan, and so does a cell with the address and without a choice.
fn found_or_over(choice: Option<Choice>) -> Scan
    ensures { scan_view result ≡ found_or_ends (option_map choice_view choice) }
{
    match choice {
        None => Scan::Ends,
        Some(choice) => Scan::Finds(choice),
    }
}

fn ends_if(over: bool) -> Scan
    ensures { scan_view result ≡ over_if over }
{
    if over { Scan::Ends } else { Scan::GoesOn }
}

// What the scan comes to at a cell, by the certificates of its address, if there are any.
fn at_address(
    alloc: Global,
    state: &State,
    sought: Sought<'_>,
    number: u32,
    certs: Option<Vec<Cert>>,
    others: &[Vec<Row>],
    notes: &mut Notes,
) -> Result<Scan, AllocError>
    ensures { IfOk result (λ scan. Adds notes.old notes.new (scan_view scan) (address_scan
        (sought_finish state.now (sought_view sought.entry) number) (lists_in others.now)
        (certs_seen certs))) }
{
    match certs {
        None => Ok(Scan::GoesOn),
        Some(certs) => {
            let choice = finish(alloc, state, sought, number, certs, others, notes)?;
            Ok(found_or_over(choice))
        }
    }
}

// What the scan comes to at a cell, by the lists that its choice owes: the first two are of the
// equality of addresses.
fn by_lists(
    alloc: Global,
    state: &State,
    sought: Sought<'_>,
    number: u32,
    lists: &[Vec<Row>],
    notes: &mut Notes,
) -> Result<Scan, AllocError>
    ensures { IfOk result (λ scan. Adds notes.old notes.new (scan_view scan)
        (scan_lists (sought_finish state.now (sought_view sought.entry) number)
        (lists_in lists.now))) }
{
    let (address, others) = lists.split_at(lists.len().min(2));
    let certs = decided_all(alloc, address, notes)?;
    at_address(alloc, state, sought, number, certs, others, notes)
}

// What the scan comes to at a cell.
#[tactic(auto, unfolding(cap_offer_spec::specs::Scanning::scanned_cell))]
fn scan_cell(
    alloc: Global,
    program: &Program,
    goal: &Goal<'_>,
    sought: Sought<'_>,
    number: u32,
    cell: &(Term, Term),
    notes: &mut Notes,
) -> Result<Scan, AllocError>
    requires { HasRoom goal.now.state }
    ensures { IfOk result (λ scan. Adds notes.old notes.new (scan_view scan)
        (sought_scan (program_view program.now) (goal_view goal.now) (sought_view sought.entry)
        number cell.now)) }
{
    match sought_lists(alloc, program, goal, sought, number) {
        Ok(lists) => by_lists(alloc, &goal.state, sought, number, &lists, notes),
        Err(RuleError::NotApplicable) => Ok(Scan::GoesOn),
        Err(RuleError::Wide(a, b)) => {
            notes.note_wide(a, b);
            let over = has_sought_address(alloc, &goal.state, sought, cell, notes)?;
            Ok(ends_if(over))
        }
        Err(RuleError::OutOfMemory) => Err(AllocError),
    }
}

/// The choice on the first cell that has the sought address, if there is one.
#[tactic(auto, unfolding(crate::specs::Seeking::first_sought))]
pub(crate) fn first_sought(
    alloc: Global,
    program: &Program,
    goal: &Goal<'_>,
    sought: Sought<'_>,
    notes: &mut Notes,
) -> Result<Option<Choice>, AllocError>
    requires { HasRoom goal.now.state }
    ensures { IfOk result (λ c. Adds notes.old notes.new (option_map choice_view c)
        (sought_from (program_view program.now) (goal_view goal.now) (sought_view sought.entry) 0
        goal.now.state.cells)) }
{
    for (place, cell) in goal.state.cells().iter().enumerate() {
        let number = count(place)?;
        match scan_cell(alloc, program, goal, sought, number, cell, notes)? {
            Scan::Finds(choice) => return Ok(Some(choice)),
            Scan::Ends => return Ok(None),
            Scan::GoesOn => {}
        }
    }
    Ok(None)
}
