//! The lines of derivations, as they are written.

use cap_deriv_write::write;
use cap_farkas::{Cert, Multipliers};
use cap_goal::{Bundle, Choice, Node};
use std::alloc::{AllocError, Global};
use std::test::Fail;

// A node without subtrees.
fn last(alloc: Global, choice: Choice) -> Node {
    Node {
        choice,
        children: Vec::new(alloc),
    }
}

fn multipliers(alloc: Global, pairs: &[(u32, i128)]) -> Result<Multipliers, AllocError> {
    Ok(Multipliers::new(Vec::from_slice(alloc, pairs)?))
}

fn absurd(alloc: Global) -> Result<Node, AllocError> {
    let below = multipliers(alloc, &[(2, -3)])?;
    let above = multipliers(alloc, &[(5, i128::MIN)])?;
    Ok(last(alloc, Choice::Absurd(Cert::Split(1, below, above))))
}

fn act(alloc: Global) -> Result<Node, AllocError> {
    let mut marks = Vec::new(alloc);
    marks.push(None)?;
    marks.push(Some(Cert::Leaf(multipliers(alloc, &[])?)))?;
    Ok(last(alloc, Choice::Act(7, Vec::new(alloc), marks)))
}

fn shift(alloc: Global, spans: &[u32]) -> Result<Node, AllocError> {
    let spans = Vec::from_slice(alloc, spans)?;
    Ok(last(alloc, Choice::Shift(Vec::new(alloc), spans)))
}

fn conditional(alloc: Global) -> Result<Node, AllocError> {
    let mut children = Vec::new(alloc);
    children.push(absurd(alloc)?)?;
    children.push(act(alloc)?)?;
    children.push(shift(alloc, &[])?)?;
    children.push(shift(alloc, &[4, 0])?)?;
    Ok(Node {
        choice: Choice::If,
        children,
    })
}

fn bundle(alloc: Global) -> Result<Bundle, AllocError> {
    let mut trees = Vec::new(alloc);
    trees.push(Some(conditional(alloc)?))?;
    trees.push(None)?;
    trees.push(Some(last(alloc, Choice::Pick(0, 4294967295, 1))))?;
    Ok(Bundle { trees })
}

#[test]
fn lines_of_three_roots(rt: HostRuntime) -> Result<(), Fail> {
    let alloc = rt.alloc();
    let bytes = write(alloc, &bundle(alloc)?)?;
    assert_eq!(rt;
        str::from_utf8(&bytes),
        Ok(
            "[\"caper\",1,3]
[\"if\"]
[\"absurd\",[\"split\",1,[[2,\"-3\"]],[[5,\"-170141183460469231731687303715884105728\"]]]]
[\"act\",7,[],[0,[\"leaf\",[]]]]
[\"shift\",[]]
[\"shift\",[],[4,0]]
[\"pick\",0,4294967295,1]
[\"end\",6]
"
        )
    );
    Ok(())
}
