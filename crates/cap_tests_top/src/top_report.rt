//! Reports and derivations of one function.

use cap_goal::{Choice, Node};
use cap_prog::Program;
use cap_top_reading::{Refusal, read_program};
use cap_top_report::{Conclusion, derive_on, report_on};
use std::alloc::Global;
use std::test::Fail;

// It has no region types, and one function.
fn main_program(alloc: Global) -> Result<Program, Refusal> {
    read_program(alloc, "function main() { }".as_bytes())
}

// Its one unit is proved by one visit, which a budget of 0 doesn't allow.
#[test]
fn reports_on_an_empty_function(rt: HostRuntime) -> Result<(), Fail> {
    let alloc = rt.alloc();
    let program = main_program(alloc)?;
    let report = report_on(alloc, &program, 1)?;
    assert!(rt; report.good);
    let text = b"function main: proved\nproved 1 of 1\n";
    assert_eq!(rt; report.text.as_slice(), text.as_slice());
    let report = report_on(alloc, &program, 0)?;
    assert!(rt; !report.good);
    let text = b"function main: spent 0\nproved 0 of 1\n";
    assert_eq!(rt; report.text.as_slice(), text.as_slice());
    Ok(())
}

// Whether the tree is a return that leaves nothing.
fn is_return(tree: &Option<Node>) -> bool {
    match tree {
        Some(node) => matches!(&node.choice, Choice::Return) && node.children.is_empty(),
        None => false,
    }
}

// The contract has no items, so its roots have no tree; the body returns, which leaves nothing.
#[test]
fn derives_an_empty_function(rt: HostRuntime) -> Result<(), Fail> {
    let alloc = rt.alloc();
    let program = main_program(alloc)?;
    let trees = match derive_on(alloc, &program, 1)? {
        Conclusion::Proved(bundle) => bundle.trees,
        Conclusion::Reported(_) => Vec::new(alloc),
    };
    assert_eq!(rt; trees.len(), 3);
    assert!(rt; trees[0].is_none() && trees[1].is_none());
    assert!(rt; is_return(&trees[2]));
    Ok(())
}

#[test]
fn reports_on_what_is_not_derived(rt: HostRuntime) -> Result<(), Fail> {
    let alloc = rt.alloc();
    let program = main_program(alloc)?;
    let text = match derive_on(alloc, &program, 0)? {
        Conclusion::Proved(_) => Vec::new(alloc),
        Conclusion::Reported(report) => report.text,
    };
    let expected = b"function main: spent 0\nproved 0 of 1\n";
    assert_eq!(rt; text.as_slice(), expected.as_slice());
    Ok(())
}
