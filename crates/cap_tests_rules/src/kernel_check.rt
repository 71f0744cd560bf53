//! Choices that are judged one by one.

use cap_goal::Choice;
use cap_kernel_check::{CheckError, Judge};
use cap_prog::Program;
use cap_top_reading::read_program;
use std::alloc::{AllocError, Global};
use std::test::Fail;

// How choices are judged as those of three trees.
fn judged(
    alloc: Global,
    program: &Program,
    choices: &[Choice],
) -> Result<Result<u64, CheckError>, AllocError> {
    let mut judge = Judge::start(alloc, program, 3)?;
    for choice in choices {
        judge.push(choice)?;
    }
    Ok(judge.finish())
}

// Two trees without nodes, and one node for the body, which returns.
#[test]
fn the_body_of_an_empty_function_returns(rt: HostRuntime) -> Result<(), Fail> {
    let program = read_program(rt.alloc(), "function main() { }".as_bytes())?;
    let returns = [Choice::Return, Choice::Return];
    let others = [Choice::Set];
    for (choices, want, what) in [
        (&returns[..1], Ok(1), "a return"),
        (&returns[..], Err(CheckError::Shape(2)), "a node left over"),
        (&others[..], Err(CheckError::Node(1)), "another rule"),
        (&returns[..0], Err(CheckError::Shape(1)), "a missing node"),
    ] {
        assert!(rt; judged(rt.alloc(), &program, choices)? == want, "{what}");
    }
    Ok(())
}

#[test]
fn nothing_is_above_a_root(rt: HostRuntime) -> Result<(), Fail> {
    let program = read_program(rt.alloc(), "function main() { }".as_bytes())?;
    assert_eq!(rt; Judge::start(rt.alloc(), &program, 3)?.path(), 0);
    Ok(())
}
