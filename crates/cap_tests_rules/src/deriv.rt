//! The lines of derivations, as they are read.

use cap_deriv::{DerivError, read};
use std::alloc::{AllocError, Global};
use std::test::Fail;

fn outcome(alloc: Global, bytes: &[u8]) -> Result<usize, DerivError> {
    let lines = read(alloc, bytes)?;
    Ok(lines.choices.len())
}

const ENDS: &[(&[u8], Result<usize, DerivError>)] = &[
    (b"", Err(DerivError::Unended)),
    (b"\n", Err(DerivError::BadLine(1))),
    (b"[\"caper\",2,3]", Err(DerivError::BadLine(1))),
    (b"[\"caper\",1,3]", Err(DerivError::Unended)),
    (b"[\"caper\",1,3]\n[\"end\",0]", Ok(0)),
    (
        b"[\"caper\",1,3]\n[\"end\",1]\n",
        Err(DerivError::BadLine(2)),
    ),
    (
        b"[\"caper\",1,3]\n[\"end\",0]\n\n",
        Err(DerivError::BadLine(3)),
    ),
];

#[test]
fn first_and_last_lines(rt: HostRuntime) -> Result<(), Fail> {
    for (bytes, wanted) in ENDS {
        assert_eq!(rt; outcome(rt.alloc(), bytes), *wanted);
    }
    Ok(())
}

// What the one line of a node is read as.
fn of_line(alloc: Global, line: &[u8]) -> Result<Result<usize, DerivError>, AllocError> {
    let mut bytes = Vec::from_slice(alloc, b"[\"caper\",1,3]\n")?;
    bytes.extend_from_slice(line)?;
    bytes.extend_from_slice(b"\n[\"end\",1]")?;
    Ok(outcome(alloc, bytes.as_slice()))
}

const GOOD: &[&[u8]] = &[
    b" [ \"set\" ]\t\r",
    b"[\"s\\u0065t\"]",
    b"[\"pick\",0,4294967295,0]",
    b"[\"absurd\",[\"leaf\",[[0,\"170141183460469231731687303715884105727\"]]]]",
    b"[\"absurd\",[\"leaf\",[[1,\"-170141183460469231731687303715884105728\"]]]]",
    b"[\"absurd\",[\"leaf\",[[0,\"1\"],[1,\"-1\"]]]]",
    b"[\"settle\",[3,3,1],[]]",
    b"[\"shift\",[]]",
    b"[\"shift\",[[\"leaf\",[]]],[4294967295,0,0]]",
    b"[\"act\",0,[[\"split\",1,[],[]]],[0,[\"leaf\",[]]]]",
];

const BAD: &[&[u8]] = &[
    b"",
    b"[\"set\",1]",
    b"[\"set\"] x",
    b"[\"set\",0.5]",
    b"[\"return\",1]",
    b"[\"pick\",0,4294967296,0]",
    b"[\"pick\",0,-0,0]",
    b"[\"pick\",0,1.0,0]",
    b"[\"pick\",0,1e0,0]",
    b"[\"pick\",0,18446744073709551616,0]",
    b"[\"pick\",0,01,0]",
    b"[\"absurd\",[\"leaf\",[[0,\"0\"]]]]",
    b"[\"absurd\",[\"leaf\",[[0,\"+1\"]]]]",
    b"[\"absurd\",[\"leaf\",[[0,\"-01\"]]]]",
    b"[\"absurd\",[\"leaf\",[[0,\"-\"]]]]",
    b"[\"absurd\",[\"leaf\",[[0,1]]]]",
    b"[\"absurd\",[\"leaf\",[[0,\"170141183460469231731687303715884105728\"]]]]",
    b"[\"act\",0,[],[1]]",
    b"[\"shift\"]",
    b"[\"shift\",[],[]]",
    b"[\"shift\",[],0]",
    b"[\"shift\",[],[0],[]]",
    b"[\"keep\",[],[0]]",
    b"[\"act\",0,[],[null]]",
    b"{\"set\":1,\"set\":1}",
    b"[\"\xff\"]",
];

#[test]
fn lines_of_nodes(rt: HostRuntime) -> Result<(), Fail> {
    for (lines, want) in [(GOOD, Ok(1)), (BAD, Err(DerivError::BadLine(2)))] {
        for line in lines {
            assert!(rt; of_line(rt.alloc(), line)? == want, "{line:?}");
        }
    }
    Ok(())
}

#[test]
fn all_choices_are_read(rt: HostRuntime) -> Result<(), Fail> {
    let alloc = rt.alloc();
    let text = b"[\"caper\",1,27]
[\"absurd\",[\"split\",1,[[2,\"-3\"]],[]]]
[\"clash\",0,1,[[\"leaf\",[[0,\"1\"]]]]]
[\"set\"]
[\"alloc\"]
[\"assert\",[[\"leaf\",[[0,\"1\"]]]]]
[\"if\"]
[\"loop\"]
[\"turn\"]
[\"call\"]
[\"fork\"]
[\"return\"]
[\"enter\",4,[[\"leaf\",[]]]]
[\"act\",7,[],[0,[\"leaf\",[[4,\"5\"]]]]]
[\"pick\",1,2,3]
[\"shift\",[]]
[\"shift\",[[\"leaf\",[]]],[2,0]]
[\"settle\",[1,2],[[\"leaf\",[]]]]
[\"keep\",[]]
[\"give\"]
[\"fact\",[]]
[\"cases\"]
[\"cell\",0,[]]
[\"region\",1,[]]
[\"guard\",2,1,[]]
[\"convert\",3,0,[]]
[\"create\",5]
[\"made\",[]]
[\"end\",27]
"
        .as_slice();
    assert_eq!(rt; outcome(alloc, text), Ok(27));
    Ok(())
}
