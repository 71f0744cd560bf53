//! Verdicts on functions and region types.

use cap_goal::{Choice, Node, Unit};
use cap_prog::Program;
use cap_search::{Need, Obligation, Verdict, empty_start, search};
use cap_syntax::Place;
use cap_top_reading::read_program;
use std::alloc::Global;
use std::test::Fail;

const EMPTY: &str = "function main() { }";

// The verdict on the first function.
fn verdict_of(alloc: Global, program: &Program, budget: u64) -> Result<Verdict, Fail> {
    if program.functions().is_empty() {
        Err("no function")?;
    }
    Ok(search(alloc, program, Unit::Function(0), budget)?)
}

fn verdict_on(alloc: Global, text: &str, budget: u64) -> Result<Verdict, Fail> {
    let program = read_program(alloc, text.as_bytes())?;
    verdict_of(alloc, &program, budget)
}

// The verdict on the first region type.
fn verdict_on_region(alloc: Global, text: &str, budget: u64) -> Result<Verdict, Fail> {
    let program = read_program(alloc, text.as_bytes())?;
    if program.regions().is_empty() {
        Err("no region type")?;
    }
    Ok(search(alloc, &program, Unit::Region(0), budget)?)
}

// Whether no state meets the precondition of `main`.
fn is_empty(alloc: Global, text: &str) -> Result<bool, Fail> {
    let program = read_program(alloc, text.as_bytes())?;
    Ok(empty_start(alloc, &program)?)
}

// Whether the tree is a return that leaves nothing.
fn is_return(tree: &Option<Node>) -> bool {
    match tree {
        Some(node) => matches!(&node.choice, Choice::Return) && node.children.is_empty(),
        None => false,
    }
}

// The contract has no items, so nothing is to be proved of it; the body is a return. One goal is
// visited.
#[test]
fn proves_an_empty_function(rt: HostRuntime) -> Result<(), Fail> {
    let trees = match verdict_on(rt.alloc(), EMPTY, 1)? {
        Verdict::Proved(trees) => trees,
        _ => Vec::new(rt.alloc()),
    };
    assert_eq!(rt; trees.len(), 3);
    assert!(rt; trees[0].is_none() && trees[1].is_none());
    assert!(rt; is_return(&trees[2]));
    Ok(())
}

#[test]
fn spends_its_budget(rt: HostRuntime) -> Result<(), Fail> {
    let verdict = verdict_on(rt.alloc(), EMPTY, 0)?;
    assert!(rt; matches!(verdict, Verdict::Spent(0)));
    Ok(())
}

// Nothing proves that 1 <= 0: one goal is visited, and the comparison is what it lacks.
#[test]
fn a_false_assertion_is_left_open(rt: HostRuntime) -> Result<(), Fail> {
    let verdict = verdict_on(rt.alloc(), "function main() { assert 1 <= 0; }", 1)?;
    let open = match verdict {
        Verdict::Stuck(open) => Some(open),
        _ => None,
    };
    let lacks = Obligation {
        statement: Place {
            line: 1,
            column: 19,
        },
        need: Need::Fact,
        item: Place {
            line: 1,
            column: 26,
        },
    };
    assert_eq!(rt; open, Some(lacks));
    Ok(())
}

// Every state meets a precondition without items, and none meets 1 <= 0.
#[test]
fn only_a_false_precondition_is_empty(rt: HostRuntime) -> Result<(), Fail> {
    let alloc = rt.alloc();
    assert!(rt; !is_empty(alloc, EMPTY)?);
    assert!(rt; is_empty(alloc, "function main() requires 1 <= 0; { }")?);
    Ok(())
}

// Whether the tree picks the first case of an opened region and closes the region in it.
fn is_closing(tree: &Option<Node>) -> bool {
    match tree {
        Some(node) => {
            matches!(&node.choice, Choice::Pick(0, 0, 0))
                && node.children.len() == 1
                && matches!(&node.children[0].choice, Choice::Shift(_, _))
        }
        None => false,
    }
}

// The one case has no items. Two goals are visited: a case is picked, and the move is checked.
#[test]
fn proves_a_case_without_items(rt: HostRuntime) -> Result<(), Fail> {
    let alloc = rt.alloc();
    let text =
        "region R(r) { guards G; interpretation { 0 : true; } actions { } } function main() { }";
    let trees = match verdict_on_region(alloc, text, 2)? {
        Verdict::Proved(trees) => trees,
        _ => Vec::new(alloc),
    };
    assert_eq!(rt; trees.len(), 1);
    assert!(rt; is_closing(&trees[0]));
    assert!(rt; matches!(verdict_on_region(alloc, text, 1)?, Verdict::Spent(1)));
    Ok(())
}

// The first region's case asks for a fact of another region, which its action can take to 1.
const WATCH: &str = "region Watch(w, r) { guards G; interpretation {
0 : Flag(r; 0); } actions { } }
region Flag(r) { guards SET; interpretation { 0 : true; 1 : true; } actions { SET : 0 ~> 1; } }
function main() { }
";

// Once the case is given and others have acted, the fact is known with no state, and the case lacks
// it.
#[test]
fn a_case_that_others_break_is_left_open(rt: HostRuntime) -> Result<(), Fail> {
    let alloc = rt.alloc();
    let open = match verdict_on_region(alloc, WATCH, 200_000)? {
        Verdict::Stuck(open) => Some(open),
        _ => None,
    };
    let lacks = Obligation {
        statement: Place { line: 2, column: 1 },
        need: Need::Region,
        item: Place { line: 2, column: 5 },
    };
    assert_eq!(rt; open, Some(lacks));
    Ok(())
}
