//! Certificates that are found, or not, and what is noted of it.

use cap_closure_decide::{
    Notes, certified, certified_by, decided, decided_all, decided_each, proves,
};
use cap_lin::{LinError, Op, Row, Sort, Term};
use cap_rules_steps::{Ledger, RuleError, prove_that};
use std::alloc::Global;
use std::test::Fail;

// A variable is at least this number.
fn at_least(alloc: Global, number: i128) -> Result<Row, LinError> {
    let x = Term::var(alloc, 0)?;
    let bound = Term::constant(alloc, number);
    Row::of(alloc, &x, Op::Ge, &bound, Sort::Int)
}

fn is_noted(notes: &Notes) -> bool {
    notes.wide().is_some() || notes.rows()
}

// Whether a lower bound proves another one, without a note.
fn is_proved(alloc: Global, known: i128, claimed: i128) -> Result<bool, Fail> {
    let mut notes = Notes::new();
    let mut rows = Vec::new(alloc);
    rows.push(at_least(alloc, known)?)?;
    let found = proves(alloc, &mut rows, &at_least(alloc, claimed)?, &mut notes)?;
    Ok(found && rows.len() == 1 && !is_noted(&notes))
}

// Of what is at least 1, it is known that it is at least 0, and not that it is at least 2.
#[test]
fn bounds_prove_weaker_bounds(rt: HostRuntime) -> Result<(), Fail> {
    for (claimed, want) in [(0, true), (1, true), (2, false)] {
        assert!(rt; is_proved(rt.alloc(), 1, claimed)? == want, "{claimed}");
    }
    Ok(())
}

// A variable is at least one number and at most another.
fn between(alloc: Global, low: i128, high: i128) -> Result<Vec<Row>, LinError> {
    let x = Term::var(alloc, 0)?;
    let bound = Term::constant(alloc, high);
    let mut rows = Vec::new(alloc);
    rows.push(at_least(alloc, low)?)?;
    rows.push(Row::of(alloc, &x, Op::Le, &bound, Sort::Int)?)?;
    Ok(rows)
}

// The lists of what is between the pairs of numbers.
fn lists_between(alloc: Global, pairs: &[(i128, i128)]) -> Result<Vec<Vec<Row>>, LinError> {
    let mut lists = Vec::new(alloc);
    for (low, high) in pairs {
        lists.push(between(alloc, *low, *high)?)?;
    }
    Ok(lists)
}

// Which of the lists have a certificate, and how many there are where all have one.
fn certificates(alloc: Global, lists: &[Vec<Row>]) -> Result<(Vec<bool>, Option<usize>), Fail> {
    let mut notes = Notes::new();
    let mut each = Vec::new(alloc);
    for mark in &decided_each(alloc, lists, &mut notes)? {
        each.push(mark.is_some())?;
    }
    let all = decided_all(alloc, lists, &mut notes)?;
    if is_noted(&notes) {
        Err("a note")?;
    }
    Ok((each, all.map(|certs| certs.len())))
}

// Nothing is at least 1 and at most 0; something is at least 0 and at most 1.
#[test]
fn each_list_has_a_certificate_or_none(rt: HostRuntime) -> Result<(), Fail> {
    let given: [(&[(i128, i128)], &[bool], Option<usize>); 3] = [
        (&[(1, 0), (0, 1)], &[true, false], None),
        (&[(1, 0), (2, 1)], &[true, true], Some(2)),
        (&[], &[], Some(0)),
    ];
    for (pairs, each, all) in given {
        let lists = lists_between(rt.alloc(), pairs)?;
        let found = certificates(rt.alloc(), &lists)?;
        assert!(rt; found.0.as_slice() == each && found.1 == all, "{pairs:?}");
    }
    Ok(())
}

#[test]
fn one_list_is_decided(rt: HostRuntime) -> Result<(), Fail> {
    for (low, high, want) in [(1, 0, true), (0, 1, false)] {
        let rows = between(rt.alloc(), low, high)?;
        let found = decided(rt.alloc(), &rows, &mut Notes::new())?;
        assert!(rt; found.is_some() == want, "from {low} to {high}");
    }
    Ok(())
}

// How many certificates a rule has that came to this, and the wide sum that is noted.
fn certified_count(
    alloc: Global,
    found: Result<Vec<Vec<Row>>, RuleError>,
) -> Result<(Option<usize>, Option<(i128, i128)>), Fail> {
    let mut notes = Notes::new();
    let certs = certified_by(alloc, found, &mut notes)?;
    Ok((certs.map(|certs| certs.len()), notes.wide()))
}

// What is to be proved comes to certificates, and a failure to none; one of width is noted.
#[test]
fn rules_have_certificates_or_fail(rt: HostRuntime) -> Result<(), Fail> {
    let lists = lists_between(rt.alloc(), &[(1, 0)])?;
    for (found, want) in [
        (Ok(lists), (Some(1), None)),
        (Err(RuleError::NotApplicable), (None, None)),
        (Err(RuleError::Wide(3, 4)), (None, Some((3, 4)))),
    ] {
        assert_eq!(rt; certified_count(rt.alloc(), found)?, want);
    }
    Ok(())
}

// That 0 = 0 is claimed by two lists, each of which has a certificate.
#[test]
fn claims_have_certificates(rt: HostRuntime) -> Result<(), Fail> {
    let alloc = rt.alloc();
    let mut notes = Notes::new();
    let mut ledger = Ledger::new(alloc);
    let zero = Term::constant(alloc, 0);
    let outcome = prove_that(alloc, &mut ledger, &[], &zero, Op::Eq, &zero, Sort::Int);
    let certs = certified(alloc, outcome, ledger, &mut notes)?;
    assert_eq!(rt; certs.map(|certs| certs.len()), Some(2));
    Ok(())
}
