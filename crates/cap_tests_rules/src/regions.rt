//! The rules at cells, at opened regions, and at facts that others may have changed.
use crate::goals::{Aspect, At, BODY, Example, REQUIRES, all_hold};
use std::test::Fail;

const LOCKS: &str = "region Lock(r, x) { guards %LOCK * UNLOCK;
interpretation { 0 : x |-> 0 &*& r@UNLOCK; 1 : x |-> 1; }
actions { LOCK[_] : 0 ~> 1; UNLOCK : 1 ~> 0; } }
function both(x, y) requires Lock(a, x; 1) &*& a@UNLOCK &*& Lock(b, y; 1); { [x] := 0; }
function main() { }";

// The write, no region opened.
const WRITING: At = At {
    program: LOCKS,
    function: 0,
    root: BODY,
    steps: r#"["give"]"#,
};

// The write, the lock at x opened where it is taken.
const OPENED: At = At {
    program: LOCKS,
    function: 0,
    root: BODY,
    steps: r#"["give"]
["enter",0,[]]
["absurd",["leaf",[[0,"1"]]]]
["give"]"#,
};

// The state behind the write, in which each list has a member.
pub const WRITTEN: At = At {
    program: LOCKS,
    function: 0,
    root: BODY,
    steps: r#"["give"]
["enter",0,[]]
["absurd",["leaf",[[0,"1"]]]]
["give"]
["act",0,[["leaf",[[2,"1"]]],["leaf",[[2,"1"]]]],[0]]"#,
};

const SWAPS: &str = "function main() { c := alloc(1); v := CAS(c, 0, 5); }";

// The compare-and-swap.
const SWAPPING: At = At {
    program: SWAPS,
    function: 0,
    root: BODY,
    steps: r#"["alloc"]"#,
};

const ADDS: &str =
    "caper 2; function add(c) requires c |-> k; { v := FAA(c, 3); } function main() { }";

// The fetch-and-add.
const ADDING: At = At {
    program: ADDS,
    function: 0,
    root: BODY,
    steps: r#"["give"]"#,
};

const FREES: &str = "caper 2;
function free(c, d) requires c |-> 1 &*& d |-> 2; { dispose(d); } function main() { }";

// The disposal, of the second cell.
const FREEING: At = At {
    program: FREES,
    function: 0,
    root: BODY,
    steps: r#"["give"]"#,
};

const COUNTER: &str = "region Count(r, x) { guards %INC;
interpretation { n : x |-> _; } actions { INC[_] : n ~> n + 1; } }
function inc(x) requires Count(r, x; s) &*& r@INC[p]; { [x] := 7; }
function main() { }";

// The region, after the write.
const CLOSING: At = At {
    program: COUNTER,
    function: 0,
    root: BODY,
    steps: r#"["give"]
["enter",0,[]]
["give"]
["act",0,[["leaf",[[4,"1"]]],["leaf",[[4,"1"]]]],[]]"#,
};

// The move, the case given up.
const MOVING: At = At {
    program: COUNTER,
    function: 0,
    root: BODY,
    steps: r#"["give"]
["enter",0,[]]
["give"]
["act",0,[["leaf",[[4,"1"]]],["leaf",[[4,"1"]]]],[]]
["pick",0,0,1]
["cell",0,[["leaf",[[4,"1"]]],["leaf",[[4,"1"]]]]]"#,
};

const LINES: &str = "caper 2; region Line(r, x) { guards [T];
interpretation { n : x |-> n; } actions { at T[n] : n ~> n + 1; } }
function next(x) requires Line(r, x; n) &*& r@at T[k] &*& r@at T[n]; { v := FAA(x, 1); }
function main() { }";

// The move, the indices k and n held.
const SERVING: At = At {
    program: LINES,
    function: 0,
    root: BODY,
    steps: r#"["give"]
["enter",0,[]]
["give"]
["act",0,[["leaf",[[7,"1"]]],["leaf",[[7,"1"]]]],[]]
["pick",0,0,1]
["cell",0,[["leaf",[[7,"1"]]],["leaf",[[7,"1"]]]]]"#,
};

const RESTS: &str = "caper 2; region Line(r, x) { guards [T];
interpretation { n : x |-> n; } actions { from T[n] : n ~> n + 1; } }
function rest(x) requires Line(r, x; n) &*& r@from T[k] &*& k <= n; { v := FAA(x, 1); }
function one(x) requires Line(r, x; n) &*& r@at T[n]; { v := FAA(x, 1); }
function main() { }";

// The move, the indices from k on held.
const RESTING: At = At {
    program: RESTS,
    function: 0,
    root: BODY,
    steps: r#"["give"]
["enter",0,[]]
["give"]
["act",0,[["leaf",[[4,"1"]]],["leaf",[[4,"1"]]]],[]]
["pick",0,0,1]
["cell",0,[["leaf",[[4,"1"]]],["leaf",[[4,"1"]]]]]"#,
};

// The move, one index held.
const ENDING: At = At {
    program: RESTS,
    function: 1,
    root: BODY,
    steps: r#"["give"]
["enter",0,[]]
["give"]
["act",0,[["leaf",[[4,"1"]]],["leaf",[[4,"1"]]]],[]]
["pick",0,0,1]
["cell",0,[["leaf",[[4,"1"]]],["leaf",[[4,"1"]]]]]"#,
};

// The fact, while others may count on.
const SETTLING: At = At {
    program: COUNTER,
    function: 0,
    root: BODY,
    steps: r#"["give"]
["enter",0,[]]
["give"]
["act",0,[["leaf",[[4,"1"]]],["leaf",[[4,"1"]]]],[]]
["pick",0,0,1]
["cell",0,[["leaf",[[4,"1"]]],["leaf",[[4,"1"]]]]]
["shift",[["leaf",[[4,"1"]]],["leaf",[[4,"1"]]]]]"#,
};

// The fact of the lock whose unique guard is held.
const STAYING: At = At {
    program: LOCKS,
    function: 0,
    root: REQUIRES,
    steps: r#"["give"]"#,
};

const REGIONS: &[Example] = &[
    Example {
        name: "enter opens each case",
        at: WRITING,
        choice: r#"["enter",0,[]]"#,
        aspect: Aspect::Left,
        wanted: "
goal
sorts Int, Int, Int, Int
rows 1 = 0
store v0, v1
facts R0(v3, v1; 1)
guards v2@R0.1 one
before v2@R0.1 one
opened R0(v2, v0; 1)
env v0, v1, v2, v3, _
env v2, v0
give 2:22 2:34 in env 1 at 1
run 1 2 of 0, fixed names from v2
goal
sorts Int, Int, Int, Int
rows 0 = 0
store v0, v1
facts R0(v3, v1; 1)
guards v2@R0.1 one
before v2@R0.1 one
opened R0(v2, v0; 1)
env v0, v1, v2, v3, _
env v2, v0
give 2:48 in env 1 at 1
run 1 2 of 0, fixed names from v2",
    },
    Example {
        name: "act writes a cell and loosens facts",
        at: OPENED,
        choice: r#"["act",0,[["leaf",[[2,"1"]]],["leaf",[[2,"1"]]]],[0]]"#,
        aspect: Aspect::Left,
        wanted: "
goal
sorts Int, Int, Int, Int, Int
rows 0 = 0, -1*v0 + 1 <= 0
store v0, v1
cells v0 |-> 0
facts R0(v3, v1; v4) loose
guards v2@R0.1 one
before v2@R0.1 one
opened R0(v2, v0; 1)
env v0, v1, v2, v3, _
env v2, v0
close any at 1
rest 0 at 1
run 2 of 0, fixed names from v2",
    },
    Example {
        name: "act splits at a swap",
        at: SWAPPING,
        choice: r#"["act",0,[["leaf",[[1,"1"]]],["leaf",[[1,"1"]]]],[]]"#,
        aspect: Aspect::Left,
        wanted: "
goal
sorts Int
rows -1*v0 + 1 <= 0, 0 = 0
store v0, 1
cells v0 |-> 5
env _, _, _
run 3 of 0, fixed names from v0
goal
sorts Int
rows -1*v0 + 1 <= 0, 0 != 0
store v0, 0
cells v0 |-> 0
env _, _, _
run 3 of 0, fixed names from v0",
    },
    Example {
        name: "act adds to a cell",
        at: ADDING,
        choice: r#"["act",0,[["leaf",[[1,"1"]]],["leaf",[[1,"1"]]]],[]]"#,
        aspect: Aspect::Left,
        wanted: "
goal
sorts Int, Int
rows -1*v0 + 1 <= 0
store v0, v1
cells v0 |-> v1 + 3
env v0, _, v1, _
run 2 of 0, fixed names from v1",
    },
    Example {
        name: "act disposes of a cell",
        at: FREEING,
        choice: r#"["act",1,[["leaf",[[2,"1"]]],["leaf",[[2,"1"]]]],[]]"#,
        aspect: Aspect::Left,
        wanted: "
goal
sorts Int, Int
rows -1*v0 + 1 <= 0, -1*v1 + 1 <= 0
store v0, v1
cells v0 |-> 1
env v0, v1, _
run 2 of 0, fixed names from v2",
    },
    Example {
        name: "pick takes a case at the target",
        at: CLOSING,
        choice: r#"["pick",0,0,1]"#,
        aspect: Aspect::Left,
        wanted: "
goal
sorts Int, Int, Int, Perm, Int, Int
rows -1*v3 < 0 (Perm), v3 + -1 <= 0 (Perm), v2 + -1*v4 = 0, -1*v0 + 1 <= 0
store v0
cells v0 |-> 7
guards v1@R0.0 share v3
before v1@R0.0 share v3
opened R0(v1, v0; v2)
env v0, v1, v2, v3, _
env v1, v0, v4
env v1, v0, v2 + 1
take 2:22 in env 2, creations 1, at 1
shift opened 0 to case 0 by move 1 in env 2 at 1
rest 0 at 1
run 2 of 0, fixed names from v1",
    },
    Example {
        name: "shift states the new state",
        at: MOVING,
        choice: r#"["shift",[["leaf",[[4,"1"]]],["leaf",[[4,"1"]]]]]"#,
        aspect: Aspect::Left,
        wanted: "
goal
sorts Int, Int, Int, Perm, Int, Int
rows -1*v3 < 0 (Perm), v3 + -1 <= 0 (Perm), v2 + -1*v4 = 0, -1*v0 + 1 <= 0
store v0
facts R0(v1, v0; v2 + 1)
guards v1@R0.0 share v3
env v0, v1, v2, v3, _
env v1, v0, v4
env v1, v0, v2 + 1
rest 0 at 1
run 2 of 0, fixed names from v1",
    },
    Example {
        name: "shift takes an index out of a span",
        at: SERVING,
        choice: "[\"shift\",[[\"leaf\",[[5,\"-1\"],[7,\"1\"]]],[\"leaf\",[[5,\"1\"],[7,\"1\"]]],\
[\"leaf\",[[7,\"1\"]]],[\"leaf\",[[7,\"1\"]]]],[1]]",
        aspect: Aspect::Left,
        wanted: "
goal
sorts Int, Int, Int, Int, Int
rows -1*v3 <= 0, -1 <= 0, -1*v2 <= 0, -1 <= 0, -1*v2 + v3 != 0, v2 + -1*v4 = 0, -1*v0 + 1 <= 0
store v0, v4
facts R0(v1, v0; v4 + 1)
guards v1@R0.0 from v3 below v3 + 1, v1@R0.0 from v2 below v2 + 1
env v0, _, v1, v2, v3, _
env v1, v0, v4
env v1, v0, v4 + 1
rest 0 at 1
run 2 of 0, fixed names from v1",
    },
    Example {
        name: "shift takes an index out of a span",
        at: SERVING,
        choice: "[\"shift\",[[\"leaf\",[[5,\"-1\"],[7,\"1\"]]],[\"leaf\",[[5,\"1\"],[7,\"1\"]]],\
[\"leaf\",[[7,\"1\"]]],[\"leaf\",[[7,\"1\"]]]],[1]]",
        aspect: Aspect::Owed,
        wanted: "
-1*v3 <= 0, -1 <= 0, -1*v2 <= 0, -1 <= 0, -1*v2 + v3 != 0, v2 + -1*v4 = 0, -1*v0 + 1 <= 0, \
v2 + -1*v4 + 1 <= 0
-1*v3 <= 0, -1 <= 0, -1*v2 <= 0, -1 <= 0, -1*v2 + v3 != 0, v2 + -1*v4 = 0, -1*v0 + 1 <= 0, \
-1*v2 + v4 + 1 <= 0
-1*v3 <= 0, -1 <= 0, -1*v2 <= 0, -1 <= 0, -1*v2 + v3 != 0, v2 + -1*v4 = 0, -1*v0 + 1 <= 0, \
1 <= 0
-1*v3 <= 0, -1 <= 0, -1*v2 <= 0, -1 <= 0, -1*v2 + v3 != 0, v2 + -1*v4 = 0, -1*v0 + 1 <= 0, \
1 <= 0",
    },
    // The index n, as if it were in the piece of the index k.
    Example {
        name: "shift owes what its span says",
        at: SERVING,
        choice: r#"["shift",[],[0]]"#,
        aspect: Aspect::Owed,
        wanted: "
-1*v3 <= 0, -1 <= 0, -1*v2 <= 0, -1 <= 0, -1*v2 + v3 != 0, v2 + -1*v4 = 0, -1*v0 + 1 <= 0, \
v2 + -1*v4 + 1 <= 0
-1*v3 <= 0, -1 <= 0, -1*v2 <= 0, -1 <= 0, -1*v2 + v3 != 0, v2 + -1*v4 = 0, -1*v0 + 1 <= 0, \
-1*v2 + v4 + 1 <= 0
-1*v3 <= 0, -1 <= 0, -1*v2 <= 0, -1 <= 0, -1*v2 + v3 != 0, v2 + -1*v4 = 0, -1*v0 + 1 <= 0, \
v2 + -1*v3 + 1 <= 0
-1*v3 <= 0, -1 <= 0, -1*v2 <= 0, -1 <= 0, -1*v2 + v3 != 0, v2 + -1*v4 = 0, -1*v0 + 1 <= 0, \
-1*v2 + v3 + 1 <= 0",
    },
    // No span, one that isn't there, and one too many.
    Example {
        name: "shift wants a span for each index",
        at: SERVING,
        choice: r#"["shift",[]]"#,
        aspect: Aspect::Owed,
        wanted: "
not applicable",
    },
    Example {
        name: "shift wants a span for each index",
        at: SERVING,
        choice: r#"["shift",[],[2]]"#,
        aspect: Aspect::Owed,
        wanted: "
not applicable",
    },
    Example {
        name: "shift wants a span for each index",
        at: SERVING,
        choice: r#"["shift",[],[1,1]]"#,
        aspect: Aspect::Owed,
        wanted: "
not applicable",
    },
    Example {
        name: "shift takes all indices from one on",
        at: RESTING,
        choice: "[\"shift\",[[\"leaf\",[[2,\"-1\"],[4,\"1\"]]],[\"leaf\",[[2,\"1\"],[4,\"1\"]]],\
[\"leaf\",[[1,\"1\"],[4,\"1\"]]]],[0]]",
        aspect: Aspect::Left,
        wanted: "
goal
sorts Int, Int, Int, Int, Int
rows -1*v3 <= 0, -1*v2 + v3 <= 0, v2 + -1*v4 = 0, -1*v0 + 1 <= 0
store v0, v4
facts R0(v1, v0; v4 + 1)
guards v1@R0.0 from v3
env v0, _, v1, v2, v3, _
env v1, v0, v4
env v1, v0, v4 + 1
rest 0 at 1
run 2 of 0, fixed names from v1",
    },
    Example {
        name: "shift takes all indices from one on",
        at: RESTING,
        choice: "[\"shift\",[[\"leaf\",[[2,\"-1\"],[4,\"1\"]]],[\"leaf\",[[2,\"1\"],[4,\"1\"]]],\
[\"leaf\",[[1,\"1\"],[4,\"1\"]]]],[0]]",
        aspect: Aspect::Owed,
        wanted: "
-1*v3 <= 0, -1*v2 + v3 <= 0, v2 + -1*v4 = 0, -1*v0 + 1 <= 0, v2 + -1*v4 + 1 <= 0
-1*v3 <= 0, -1*v2 + v3 <= 0, v2 + -1*v4 = 0, -1*v0 + 1 <= 0, -1*v2 + v4 + 1 <= 0
-1*v3 <= 0, -1*v2 + v3 <= 0, v2 + -1*v4 = 0, -1*v0 + 1 <= 0, v2 + -1*v3 + 1 <= 0",
    },
    Example {
        name: "shift takes no end out of a span with one",
        at: ENDING,
        choice: r#"["shift",[],[0]]"#,
        aspect: Aspect::Owed,
        wanted: "
not applicable",
    },
    Example {
        name: "settle keeps a bound",
        at: SETTLING,
        choice: r#"["settle",[1],[["leaf",[[4,"1"]]],["leaf",[[4,"1"],[5,"-1"],[8,"1"]]]]]"#,
        aspect: Aspect::Left,
        wanted: "
goal
sorts Int, Int, Int, Perm, Int, Int, Int
rows -1*v3 < 0 (Perm), v3 + -1 <= 0 (Perm), v2 + -1*v4 = 0, -1*v0 + 1 <= 0, v2 + -1*v6 + 1 <= 0
store v0
facts R0(v1, v0; v6)
guards v1@R0.0 share v3
env v0, v1, v2, v3, _
env v1, v0, v4
env v1, v0, v2 + 1
run 2 of 0, fixed names from v1",
    },
    Example {
        name: "settle keeps a bound",
        at: SETTLING,
        choice: r#"["settle",[1],[["leaf",[[4,"1"]]],["leaf",[[4,"1"],[5,"-1"],[8,"1"]]]]]"#,
        aspect: Aspect::Owed,
        wanted: "
-1*v3 < 0 (Perm), v3 + -1 <= 0 (Perm), v2 + -1*v4 = 0, -1*v0 + 1 <= 0, 1 <= 0
-1*v3 < 0 (Perm), v3 + -1 <= 0 (Perm), v2 + -1*v4 = 0, -1*v0 + 1 <= 0, v2 + -1*v6 + 1 <= 0, \
-1*v6 + v8 = 0, -1*v7 < 0 (Perm), v3 + v7 + -1 <= 0 (Perm), -1*v2 + v8 + 1 <= 0",
    },
    Example {
        name: "keep leaves the state",
        at: STAYING,
        choice: r#"["keep",[["leaf",[[4,"1"]]],["leaf",[[4,"1"]]]]]"#,
        aspect: Aspect::Left,
        wanted: "
goal
sorts Int, Int, Int, Int
store v0, v1
facts R0(v2, v0; 1), R0(v3, v1; 1)
guards v2@R0.1 one
env v0, v1, v2, v3, _
env v0, v1, v2, v3, _
rest 1 at 0
take 4:30 4:48 4:61 in env 1, creations 0, at 0",
    },
];

#[test]
fn regions_are_opened_and_closed(rt: HostRuntime) -> Result<(), Fail> {
    all_hold(&rt, rt.alloc(), REGIONS)
}
