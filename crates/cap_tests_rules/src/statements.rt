//! The rules at statements that touch no cell, at heads of loops and at contradictory rows.
use crate::goals::{Aspect, At, BODY, Example, FIRST_LOOP, all_hold};
use std::test::Fail;

const CONTRADICTION: &str = "function main(n) requires n >= 1 &*& n <= 0; { }";

// No n is both.
const CONTRADICTED: At = At {
    program: CONTRADICTION,
    function: 0,
    root: BODY,
    steps: r#"["give"]"#,
};

const TWO_CELLS: &str = "function main(a, b) requires a |-> 0 &*& b |-> 1 &*& a = b; { v := [a]; }";

// The read, where both cells have one address.
const CLASHING: At = At {
    program: TWO_CELLS,
    function: 0,
    root: BODY,
    steps: r#"["give"]"#,
};

const SETS: &str = "function main() { x := 1; }";

// The assignment.
const SETTING: At = At {
    program: SETS,
    function: 0,
    root: BODY,
    steps: "",
};

const ALLOCATES: &str = "function main() { x := alloc(2); }";

// The allocation.
const ALLOCATING: At = At {
    program: ALLOCATES,
    function: 0,
    root: BODY,
    steps: "",
};

const ASSERTS: &str = "function main() { assert 0 <= 1; }";

// The assert.
const ASSERTING: At = At {
    program: ASSERTS,
    function: 0,
    root: BODY,
    steps: "",
};

const BRANCHES: &str = "function main(n) { if (n < 0) { x := 1; } else { x := 2; } y := x; }";

// The conditional.
const BRANCHING: At = At {
    program: BRANCHES,
    function: 0,
    root: BODY,
    steps: "",
};

const LOOPS: &str = "function main(c) requires c |-> k; { i := 1;
while (i < c) invariant i <= k; { i := i + 1; } x := i; }";

// The loop, from the statements before it.
const BEFORE_LOOP: At = At {
    program: LOOPS,
    function: 0,
    root: BODY,
    steps: r#"["give"]
["set"]"#,
};

// The loop, its invariant given.
const IN_LOOP: At = At {
    program: LOOPS,
    function: 0,
    root: FIRST_LOOP,
    steps: r#"["give"]"#,
};

const CALLS: &str = "function put(c, v) requires c |-> w; ensures c |-> v &*& ret = w;
{ x := [c]; [c] := v; return x; }
function main() { a := alloc(1); b := put(a, 7); fork put(a, b); }";

// The call, at the new cell.
const CALLING: At = At {
    program: CALLS,
    function: 1,
    root: BODY,
    steps: r#"["alloc"]"#,
};

// The fork, once the call came back.
const FORKING: At = At {
    program: CALLS,
    function: 1,
    root: BODY,
    steps: r#"["alloc"]
["call"]
["cell",0,[["leaf",[[1,"1"]]],["leaf",[[1,"1"]]]]]
["give"]"#,
};

const RETURNS: &str = "function next(n) ensures ret = n + 1; { return n + 1; } function main() { }";

// The return.
const RETURNING: At = At {
    program: RETURNS,
    function: 0,
    root: BODY,
    steps: "",
};

const STATEMENTS: &[Example] = &[
    Example {
        name: "absurd leaves nothing",
        at: CONTRADICTED,
        choice: r#"["absurd",["leaf",[[0,"1"],[1,"1"]]]]"#,
        aspect: Aspect::Left,
        wanted: "
no goal",
    },
    Example {
        name: "absurd leaves nothing",
        at: CONTRADICTED,
        choice: r#"["absurd",["leaf",[[0,"1"],[1,"1"]]]]"#,
        aspect: Aspect::Owed,
        wanted: "
-1*v0 + 1 <= 0, v0 <= 0",
    },
    Example {
        name: "clash leaves nothing",
        at: CLASHING,
        choice: r#"["clash",0,1,[["leaf",[[2,"-1"],[3,"1"]]],["leaf",[[2,"1"],[3,"1"]]]]]"#,
        aspect: Aspect::Left,
        wanted: "
no goal",
    },
    Example {
        name: "clash leaves nothing",
        at: CLASHING,
        choice: r#"["clash",0,1,[["leaf",[[2,"-1"],[3,"1"]]],["leaf",[[2,"1"],[3,"1"]]]]]"#,
        aspect: Aspect::Owed,
        wanted: "
-1*v0 + 1 <= 0, -1*v1 + 1 <= 0, v0 + -1*v1 = 0, v0 + -1*v1 + 1 <= 0
-1*v0 + 1 <= 0, -1*v1 + 1 <= 0, v0 + -1*v1 = 0, -1*v0 + v1 + 1 <= 0",
    },
    Example {
        name: "set changes a local",
        at: SETTING,
        choice: r#"["set"]"#,
        aspect: Aspect::Left,
        wanted: "
goal
store 1
env _, _
run 2 of 0, fixed names from v0",
    },
    Example {
        name: "alloc gives cells",
        at: ALLOCATING,
        choice: r#"["alloc"]"#,
        aspect: Aspect::Left,
        wanted: "
goal
sorts Int
rows -1*v0 + 1 <= 0
store v0
cells v0 |-> 0, v0 + 1 |-> 0
env _, _
run 2 of 0, fixed names from v0",
    },
    Example {
        name: "assert proves its comparison",
        at: ASSERTING,
        choice: r#"["assert",[["leaf",[[0,"1"]]]]]"#,
        aspect: Aspect::Left,
        wanted: "
goal
env _
run 2 of 0, fixed names from v0",
    },
    Example {
        name: "assert proves its comparison",
        at: ASSERTING,
        choice: r#"["assert",[["leaf",[[0,"1"]]]]]"#,
        aspect: Aspect::Owed,
        wanted: "
2 <= 0",
    },
    Example {
        name: "set wants an assignment",
        at: ASSERTING,
        choice: r#"["set"]"#,
        aspect: Aspect::Left,
        wanted: "
not applicable",
    },
    Example {
        name: "if splits",
        at: BRANCHING,
        choice: r#"["if"]"#,
        aspect: Aspect::Left,
        wanted: "
goal
sorts Int
rows v0 + 1 <= 0
store v0, 0, 0
env v0, _, _, _
run 2 4 5 of 0, fixed names from v1
goal
sorts Int
rows -1*v0 <= 0
store v0, 0, 0
env v0, _, _, _
run 3 4 5 of 0, fixed names from v1",
    },
    Example {
        name: "loop takes the invariant",
        at: BEFORE_LOOP,
        choice: r#"["loop"]"#,
        aspect: Aspect::Left,
        wanted: "
goal
sorts Int, Int
rows -1*v0 + 1 <= 0
store v0, 1, 0
cells v0 |-> v1
env v0, _, _, v1, _
env v0, 1, 0, v1, _
take 2:25 in env 1, creations 3, at 2",
    },
    Example {
        name: "turn splits",
        at: IN_LOOP,
        choice: r#"["turn"]"#,
        aspect: Aspect::Left,
        wanted: "
goal
sorts Int, Int, Int, Int
rows v1 + -1*v3 <= 0, -1*v0 + v1 + 1 <= 0
store v0, v1, v2
env v0, v1, v2, v3, _
run 3 2 4 5 of 0, fixed names from v3
goal
sorts Int, Int, Int, Int
rows v1 + -1*v3 <= 0, v0 + -1*v1 <= 0
store v0, v1, v2
env v0, v1, v2, v3, _
run 4 5 of 0, fixed names from v3",
    },
    Example {
        name: "call takes and gives the contract",
        at: CALLING,
        choice: r#"["call"]"#,
        aspect: Aspect::Left,
        wanted: "
goal
sorts Int, Int
rows -1*v0 + 1 <= 0
store v0, v1
cells v0 |-> 0
env _, _, _
env v0, 7, _, _, v1
take 1:29 in env 1, creations 3, at 2
rest 0 at 2
give 1:46 1:58 in env 1 at 2
run 3 4 of 1, fixed names from v0",
    },
    Example {
        name: "fork gives nothing back",
        at: FORKING,
        choice: r#"["fork"]"#,
        aspect: Aspect::Left,
        wanted: "
goal
sorts Int, Int, Int
rows -1*v0 + 1 <= 0, -1*v0 + 1 <= 0, v1 = 0
store v0, v1
cells v0 |-> 7
env _, _, _
env v0, 7, _, 0, v1
env v0, v1, _, _, v2
take 1:29 in env 2, creations 3, at 3
rest 0 at 3
run 4 of 1, fixed names from v0",
    },
    Example {
        name: "return takes the postcondition",
        at: RETURNING,
        choice: r#"["return"]"#,
        aspect: Aspect::Left,
        wanted: "
goal
sorts Int
store v0
env v0, _
env v0, v0 + 1
take 1:26 in env 1, creations 3, at 1",
    },
];

#[test]
fn statements_are_run(rt: HostRuntime) -> Result<(), Fail> {
    all_hold(&rt, rt.alloc(), STATEMENTS)
}
