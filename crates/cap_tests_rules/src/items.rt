//! The rules at assertions that are given or given up, and at created regions.
use crate::goals::{Aspect, At, BODY, Example, all_hold};
use std::test::Fail;

const GIVES: &str =
    "function pass(c) requires c |-> k &*& k >= 0 ? { k = 1 } : { k = 2 } &*& c != 5; { }
function main() { }";

// The precondition.
const GIVING: At = At {
    program: GIVES,
    function: 0,
    root: BODY,
    steps: "",
};

const STATES: &str =
    "function next(n) ensures ret = n + 1 &*& ret > n; { return n + 1; } function main() { }";

// The postcondition of two comparisons.
const STATING: At = At {
    program: STATES,
    function: 0,
    root: BODY,
    steps: r#"["return"]"#,
};

const CHOOSES: &str =
    "function same(a) ensures a >= 0 ? { ret = a } : { a < 0 }; { return a; } function main() { }";

// The postcondition of one conditional.
const CHOOSING: At = At {
    program: CHOOSES,
    function: 0,
    root: BODY,
    steps: r#"["return"]"#,
};

const CALLS: &str = "function put(c, v) requires c |-> w; ensures c |-> v; { [c] := v; }
function main() { a := alloc(1); put(a, 7); }";

// The cell that the callee wants.
const TAKING: At = At {
    program: CALLS,
    function: 1,
    root: BODY,
    steps: r#"["alloc"]
["call"]"#,
};

const COUNTER: &str = "region Count(r, x) { guards %INC;
interpretation { n : x |-> _; } actions { INC[_] : n ~> n + 1; } }
function inc(x) requires Count(r, x; s) &*& r@INC[p]; { [x] := 7; }
function twice(x) requires Count(r, x; s) &*& r@INC[1p]; { fork inc(x); }
function main() { }";

// The region that the thread wants, its name unbound.
const FORKING: At = At {
    program: COUNTER,
    function: 1,
    root: BODY,
    steps: r#"["give"]
["fork"]"#,
};

// The guard that the thread wants, its amount unbound.
const SHARING: At = At {
    program: COUNTER,
    function: 1,
    root: BODY,
    steps: r#"["give"]
["fork"]
["region",0,[["leaf",[[2,"1"]]],["leaf",[[2,"1"]]]]]"#,
};

const READERS: &str =
    "region Read(r, x) { guards %R + W; interpretation { 0 : x |-> 0; } actions { } }
function up(x) requires Read(r, x; 0) &*& r@R[1p]; ensures r@W; { }
function main() { }";

// The guard of the other side than the one that is held.
const CONVERTING: At = At {
    program: READERS,
    function: 0,
    root: BODY,
    steps: r#"["give"]
["return"]"#,
};

const MAKES: &str =
    "region Flag(r, x) { guards SET; interpretation { 0 : x |-> 0; 1 : x |-> 1; } actions { } }
function make(y) requires Flag(q, y; 1); ensures Flag(r, ret; 0); { x := alloc(1); return x; }
function main() { }";

// The new region, of which there is a cell alone.
const CREATING: At = At {
    program: MAKES,
    function: 0,
    root: BODY,
    steps: r#"["give"]
["alloc"]
["return"]"#,
};

// The new region, its cell given up.
const MAKING: At = At {
    program: MAKES,
    function: 0,
    root: BODY,
    steps: r#"["give"]
["alloc"]
["return"]
["create",0]
["cell",0,[["leaf",[[2,"1"]]],["leaf",[[2,"1"]]],["leaf",[[2,"1"]]],["leaf",[[2,"1"]]]]]"#,
};

const ITEMS: &[Example] = &[
    Example {
        name: "give splits at a conditional",
        at: GIVING,
        choice: r#"["give"]"#,
        aspect: Aspect::Left,
        wanted: "
goal
sorts Int, Int
rows -1*v0 + 1 <= 0, -1*v1 <= 0
store v0
cells v0 |-> v1
env v0, v1, _
give 1:50 1:74 in env 0 at 0
run 1 of 0, fixed names from v1
goal
sorts Int, Int
rows -1*v0 + 1 <= 0, v1 + 1 <= 0
store v0
cells v0 |-> v1
env v0, v1, _
give 1:62 1:74 in env 0 at 0
run 1 of 0, fixed names from v1",
    },
    Example {
        name: "fact proves a comparison",
        at: STATING,
        choice: r#"["fact",[["leaf",[[0,"1"]]],["leaf",[[0,"1"]]]]]"#,
        aspect: Aspect::Left,
        wanted: "
goal
sorts Int
store v0
env v0, _
env v0, v0 + 1
take 1:42 in env 1, creations 3, at 1",
    },
    Example {
        name: "fact proves a comparison",
        at: STATING,
        choice: r#"["fact",[["leaf",[[0,"1"]]],["leaf",[[0,"1"]]]]]"#,
        aspect: Aspect::Owed,
        wanted: "
1 <= 0
1 <= 0",
    },
    Example {
        name: "cases split a conditional",
        at: CHOOSING,
        choice: r#"["cases"]"#,
        aspect: Aspect::Left,
        wanted: "
goal
sorts Int
rows -1*v0 <= 0
store v0
env v0, _
env v0, v0
take 1:37 in env 1, creations 3, at 1
goal
sorts Int
rows v0 + 1 <= 0
store v0
env v0, _
env v0, v0
take 1:51 in env 1, creations 3, at 1",
    },
    Example {
        name: "cell goes and binds its value",
        at: TAKING,
        choice: r#"["cell",0,[["leaf",[[1,"1"]]],["leaf",[[1,"1"]]]]]"#,
        aspect: Aspect::Left,
        wanted: "
goal
sorts Int, Int
rows -1*v0 + 1 <= 0
store v0
env _, _
env v0, 7, 0, v1
give 1:46 in env 1 at 2
run 3 of 1, fixed names from v0",
    },
    Example {
        name: "region binds and stays",
        at: FORKING,
        choice: r#"["region",0,[["leaf",[[2,"1"]]],["leaf",[[2,"1"]]]]]"#,
        aspect: Aspect::Left,
        wanted: "
goal
sorts Int, Int, Int, Int
rows -1 < 0 (Perm), 0 <= 0 (Perm)
store v0
facts R0(v1, v0; v2)
guards v1@R0.0 share 1
env v0, v1, v2, _
env v0, v1, v2, _, v3
take 3:45 in env 1, creations 3, at 1
rest 0 at 1
run 2 of 1, fixed names from v1",
    },
    Example {
        name: "guard takes a part",
        at: SHARING,
        choice: r#"["guard",0,1,[["leaf",[[2,"1"]]],["leaf",[[2,"1"]]]]]"#,
        aspect: Aspect::Left,
        wanted: "
goal
sorts Int, Int, Int, Int, Perm
rows -1 < 0 (Perm), 0 <= 0 (Perm), -1*v4 < 0 (Perm), v4 + -1 < 0 (Perm)
store v0
facts R0(v1, v0; v2)
guards v1@R0.0 share -1*v4 + 1
env v0, v1, v2, _
env v0, v1, v2, v4, v3
rest 0 at 1
run 2 of 1, fixed names from v1",
    },
    Example {
        name: "convert exchanges the sides",
        at: CONVERTING,
        choice: r#"["convert",0,0,[["leaf",[[2,"1"]]],["leaf",[[2,"1"]]]]]"#,
        aspect: Aspect::Left,
        wanted: "
goal
sorts Int, Int
rows -1 < 0 (Perm), 0 <= 0 (Perm)
store v0
facts R0(v1, v0; 0)
guards v1@R0.1 one
env v0, v1, _
env v0, v1, 0
take 2:60 in env 1, creations 3, at 1",
    },
    Example {
        name: "create makes a region",
        at: CREATING,
        choice: r#"["create",0]"#,
        aspect: Aspect::Left,
        wanted: "
goal
sorts Int, Int, Int, Int
rows -1*v2 + 1 <= 0, -1*v1 + v3 != 0
store v0, v2
cells v2 |-> 0
facts R0(v1, v0; 1)
guards v3@R0.0 one
env v0, _, v1, _
env v0, _, v1, v2, _
env v3, v2
take 1:54 in env 2, creations 2, at 2
made v3 of R0 in case 0 in env 2 at 2
take 2:50 in env 1, creations 2, at 2",
    },
    Example {
        name: "made states the region",
        at: MAKING,
        choice: r#"["made",[]]"#,
        aspect: Aspect::Left,
        wanted: "
goal
sorts Int, Int, Int, Int
rows -1*v2 + 1 <= 0, -1*v1 + v3 != 0
store v0, v2
facts R0(v1, v0; 1), R0(v3, v2; 0)
guards v3@R0.0 one
env v0, _, v1, _
env v0, _, v1, v2, _
env v3, v2
take 2:50 in env 1, creations 2, at 2",
    },
];

#[test]
fn items_are_given_and_taken(rt: HostRuntime) -> Result<(), Fail> {
    all_hold(&rt, rt.alloc(), ITEMS)
}
