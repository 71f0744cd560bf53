//! The rules at indexed guards that are given, given up and converted.
use crate::goals::{Aspect, At, BODY, Example, all_hold};
use std::test::Fail;

const TICKS: &str =
    "caper 2; region Tick(r, x) { guards [T] + W; interpretation { 0 : x |-> 0; } actions { } }
function whole(x) requires Tick(r, x; 0) &*& r@at T[k] &*& r@from T[m] &*& m = 0; ensures r@W; { }
function one(x) requires Tick(r, x; 0) &*& r@from T[m]; ensures r@at T[m + 2] &*& ret = 0; { }
function more(x) requires Tick(r, x; 0) &*& r@from T[m];
ensures r@from T[m + 2] &*& r@at T[m + 1] &*& r@at T[m] &*& ret = 0; { }
function any(x) requires Tick(r, x; 0) &*& r@from T[m]; ensures r@at T[j] &*& ret = 0; { }
function some(x) requires Tick(r, x; 0) &*& r@at T[m]; ensures r@at T[j] &*& ret = 0; { }
function same(x) requires Tick(r, x; 0) &*& r@from T[m]; ensures r@from T[m] &*& ret = 0; { }
function rest(x) requires Tick(r, x; 0) &*& r@from T[m]; ensures r@from T[j] &*& ret = 0; { }
function few(x) requires Tick(r, x; 0) &*& r@at T[0]; ensures r@from T[0]; { }
function back(x) requires Tick(r, x; 0) &*& r@W; ensures r@from T[0]; { }
function main() { }";

const WHOLE: u32 = 0;

const ONE: u32 = 1;

const MORE: u32 = 2;

const ANY: u32 = 3;

const SOME: u32 = 4;

const SAME: u32 = 5;

const REST: u32 = 6;

const FEW: u32 = 7;

const BACK: u32 = 8;

// The postcondition.
const RETURNED: &str = r#"["give"]
["return"]"#;

// The indices m and m + 1.
const TWO: &str = r#"["give"]
["return"]
["guard",0,1,[["leaf",[[1,"1"]]],["leaf",[[1,"1"]]],["leaf",[[1,"1"]]]]]"#;

const SECOND: &str = "[\"guard\",0,1,[[\"leaf\",[[1,\"1\"]]],[\"leaf\",[[1,\"1\"]]],\
    [\"leaf\",[[1,\"1\"]]],[\"leaf\",[[1,\"1\"]]]]]";

// The index m, and behind it none.
const LAST: &str = r#"["give"]
["return"]
["guard",0,1,[["leaf",[[1,"1"]]],["leaf",[[1,"1"]]],["leaf",[[1,"1"]]]]]
["guard",0,1,[["leaf",[[1,"1"]]],["leaf",[[1,"1"]]],["leaf",[[1,"1"]]],["leaf",[[1,"1"]]]]]"#;

const WHOLE_GIVEN: At = At {
    program: TICKS,
    function: WHOLE,
    root: BODY,
    steps: "",
};

const ONE_RETURNED: At = At {
    program: TICKS,
    function: ONE,
    root: BODY,
    steps: RETURNED,
};

const MORE_TWO: At = At {
    program: TICKS,
    function: MORE,
    root: BODY,
    steps: TWO,
};

const MORE_LAST: At = At {
    program: TICKS,
    function: MORE,
    root: BODY,
    steps: LAST,
};

const ANY_RETURNED: At = At {
    program: TICKS,
    function: ANY,
    root: BODY,
    steps: RETURNED,
};

const SOME_RETURNED: At = At {
    program: TICKS,
    function: SOME,
    root: BODY,
    steps: RETURNED,
};

const MORE_RETURNED: At = At {
    program: TICKS,
    function: MORE,
    root: BODY,
    steps: RETURNED,
};

const SAME_RETURNED: At = At {
    program: TICKS,
    function: SAME,
    root: BODY,
    steps: RETURNED,
};

const REST_RETURNED: At = At {
    program: TICKS,
    function: REST,
    root: BODY,
    steps: RETURNED,
};

const WHOLE_RETURNED: At = At {
    program: TICKS,
    function: WHOLE,
    root: BODY,
    steps: RETURNED,
};

const BACK_RETURNED: At = At {
    program: TICKS,
    function: BACK,
    root: BODY,
    steps: RETURNED,
};

const FEW_RETURNED: At = At {
    program: TICKS,
    function: FEW,
    root: BODY,
    steps: RETURNED,
};

const INDICES: &[Example] = &[
    Example {
        name: "give puts spans behind the others",
        at: WHOLE_GIVEN,
        choice: r#"["give"]"#,
        aspect: Aspect::Left,
        wanted: "
goal
sorts Int, Int, Int, Int
rows -1*v2 <= 0, -1 <= 0, -1*v3 <= 0, v2 + -1*v3 + 1 <= 0, v3 = 0
store v0
facts R0(v1, v0; 0)
guards v1@R0.0 from v2 below v2 + 1, v1@R0.0 from v3
env v0, v1, v2, v3, _
run 1 of 0, fixed names from v1",
    },
    Example {
        name: "an index goes out of all from one on",
        at: ONE_RETURNED,
        choice: r#"["guard",0,1,[["leaf",[[1,"1"]]],["leaf",[[1,"1"]]],["leaf",[[1,"1"]]]]]"#,
        aspect: Aspect::Left,
        wanted: "
goal
sorts Int, Int, Int
rows -1*v2 <= 0
store v0
facts R0(v1, v0; 0)
guards v1@R0.0 from v2 below v2 + 2, v1@R0.0 from v2 + 3
env v0, v1, v2, _
env v0, v1, v2, 0
take 3:83 in env 1, creations 3, at 1",
    },
    Example {
        name: "an index goes out of all from one on",
        at: ONE_RETURNED,
        choice: r#"["guard",0,1,[["leaf",[[1,"1"]]],["leaf",[[1,"1"]]],["leaf",[[1,"1"]]]]]"#,
        aspect: Aspect::Owed,
        wanted: "
-1*v2 <= 0, 1 <= 0
-1*v2 <= 0, 1 <= 0
-1*v2 <= 0, 3 <= 0",
    },
    Example {
        name: "an index goes out of all from one on",
        at: ONE_RETURNED,
        choice: r#"["guard",0,0,[]]"#,
        aspect: Aspect::Left,
        wanted: "\nnot applicable",
    },
    Example {
        name: "an index goes out of a span",
        at: MORE_TWO,
        choice: SECOND,
        aspect: Aspect::Left,
        wanted: "
goal
sorts Int, Int, Int
rows -1*v2 <= 0
store v0
facts R0(v1, v0; 0)
guards v1@R0.0 from v2 below v2 + 1, v1@R0.0 from v2 + 2 below v2 + 2
env v0, v1, v2, _
env v0, v1, v2, 0
take 5:47 5:61 in env 1, creations 3, at 1",
    },
    Example {
        name: "an index goes out of a span",
        at: MORE_TWO,
        choice: SECOND,
        aspect: Aspect::Owed,
        wanted: "
-1*v2 <= 0, 1 <= 0
-1*v2 <= 0, 1 <= 0
-1*v2 <= 0, 2 <= 0
-1*v2 <= 0, 1 <= 0",
    },
    Example {
        name: "a span of one index goes",
        at: MORE_LAST,
        choice: "[\"guard\",0,0,[[\"leaf\",[[1,\"1\"]]],[\"leaf\",[[1,\"1\"]]],\
        [\"leaf\",[[1,\"1\"]]],[\"leaf\",[[1,\"1\"]]],\
        [\"leaf\",[[1,\"1\"]]],[\"leaf\",[[1,\"1\"]]]]]",
        aspect: Aspect::Left,
        wanted: "
goal
sorts Int, Int, Int
rows -1*v2 <= 0
store v0
facts R0(v1, v0; 0)
guards v1@R0.0 from v2 + 2 below v2 + 2
env v0, v1, v2, _
env v0, v1, v2, 0
take 5:61 in env 1, creations 3, at 1",
    },
    Example {
        name: "a span of one index goes",
        at: MORE_LAST,
        choice: r#"["guard",1,0,[]]"#,
        aspect: Aspect::Owed,
        wanted: "
-1*v2 <= 0, 1 <= 0
-1*v2 <= 0, 1 <= 0
-1*v2 <= 0, 3 <= 0
-1*v2 <= 0, -1 <= 0
-1*v2 <= 0, 2 <= 0
-1*v2 <= 0, 0 <= 0",
    },
    Example {
        name: "the first index is bound",
        at: ANY_RETURNED,
        choice: r#"["guard",0,1,[["leaf",[[1,"1"]]],["leaf",[[1,"1"]]]]]"#,
        aspect: Aspect::Left,
        wanted: "
goal
sorts Int, Int, Int
rows -1*v2 <= 0
store v0
facts R0(v1, v0; 0)
guards v1@R0.0 from v2 + 1
env v0, v1, v2, _
env v0, v1, v2, 0, v2
take 6:79 in env 1, creations 3, at 1",
    },
    Example {
        name: "the first index is bound",
        at: ANY_RETURNED,
        choice: r#"["guard",0,0,[]]"#,
        aspect: Aspect::Left,
        wanted: "\nnot applicable",
    },
    Example {
        name: "the first index is below the end",
        at: SOME_RETURNED,
        choice: r#"["guard",0,1,[["leaf",[[2,"1"]]],["leaf",[[2,"1"]]],["leaf",[[2,"1"]]]]]"#,
        aspect: Aspect::Left,
        wanted: "
goal
sorts Int, Int, Int
rows -1*v2 <= 0, -1 <= 0
store v0
facts R0(v1, v0; 0)
guards v1@R0.0 from v2 + 1 below v2 + 1
env v0, v1, v2, _
env v0, v1, v2, 0, v2
take 7:78 in env 1, creations 3, at 1",
    },
    Example {
        name: "the first index is below the end",
        at: SOME_RETURNED,
        choice: r#"["guard",0,1,[["leaf",[[2,"1"]]],["leaf",[[2,"1"]]],["leaf",[[2,"1"]]]]]"#,
        aspect: Aspect::Owed,
        wanted: "
-1*v2 <= 0, -1 <= 0, 1 <= 0
-1*v2 <= 0, -1 <= 0, 1 <= 0
-1*v2 <= 0, -1 <= 0, 1 <= 0",
    },
    Example {
        name: "all from an index on go",
        at: MORE_RETURNED,
        choice: r#"["guard",0,1,[["leaf",[[1,"1"]]],["leaf",[[1,"1"]]],["leaf",[[1,"1"]]]]]"#,
        aspect: Aspect::Left,
        wanted: "
goal
sorts Int, Int, Int
rows -1*v2 <= 0
store v0
facts R0(v1, v0; 0)
guards v1@R0.0 from v2 below v2 + 2
env v0, v1, v2, _
env v0, v1, v2, 0
take 5:29 5:47 5:61 in env 1, creations 3, at 1",
    },
    Example {
        name: "all from an index on go",
        at: MORE_RETURNED,
        choice: r#"["guard",0,1,[["leaf",[[1,"1"]]],["leaf",[[1,"1"]]],["leaf",[[1,"1"]]]]]"#,
        aspect: Aspect::Owed,
        wanted: "
-1*v2 <= 0, 1 <= 0
-1*v2 <= 0, 1 <= 0
-1*v2 <= 0, 3 <= 0",
    },
    Example {
        name: "all of a span without an end goes",
        at: SAME_RETURNED,
        choice: "[\"guard\",0,0,[[\"leaf\",[[1,\"1\"]]],[\"leaf\",[[1,\"1\"]]],\
        [\"leaf\",[[1,\"1\"]]],[\"leaf\",[[1,\"1\"]]]]]",
        aspect: Aspect::Left,
        wanted: "
goal
sorts Int, Int, Int
rows -1*v2 <= 0
store v0
facts R0(v1, v0; 0)
env v0, v1, v2, _
env v0, v1, v2, 0
take 8:82 in env 1, creations 3, at 1",
    },
    Example {
        name: "the start of a span without an end is bound",
        at: REST_RETURNED,
        choice: r#"["guard",0,0,[["leaf",[[1,"1"]]],["leaf",[[1,"1"]]]]]"#,
        aspect: Aspect::Left,
        wanted: "
goal
sorts Int, Int, Int
rows -1*v2 <= 0
store v0
facts R0(v1, v0; 0)
env v0, v1, v2, _
env v0, v1, v2, 0, v2
take 9:82 in env 1, creations 3, at 1",
    },
    Example {
        name: "the start of a span without an end is bound",
        at: REST_RETURNED,
        choice: r#"["guard",0,1,[]]"#,
        aspect: Aspect::Left,
        wanted: "\nnot applicable",
    },
    Example {
        name: "the first span without an end is converted",
        at: WHOLE_RETURNED,
        choice: r#"["convert",0,0,[["leaf",[[4,"-1"],[5,"1"]]],["leaf",[[4,"1"],[5,"1"]]]]]"#,
        aspect: Aspect::Left,
        wanted: "
goal
sorts Int, Int, Int, Int
rows -1*v2 <= 0, -1 <= 0, -1*v3 <= 0, v2 + -1*v3 + 1 <= 0, v3 = 0, -1 = 0
store v0
facts R0(v1, v0; 0)
guards v1@R0.0 from v2 below v2 + 1, v1@R0.1 one
env v0, v1, v2, v3, _
env v0, v1, v2, v3, 0
take 2:91 in env 1, creations 3, at 1",
    },
    Example {
        name: "the first span without an end is converted",
        at: WHOLE_RETURNED,
        choice: r#"["convert",0,0,[["leaf",[[4,"-1"],[5,"1"]]],["leaf",[[4,"1"],[5,"1"]]]]]"#,
        aspect: Aspect::Owed,
        wanted: "
-1*v2 <= 0, -1 <= 0, -1*v3 <= 0, v2 + -1*v3 + 1 <= 0, v3 = 0, v3 + 1 <= 0
-1*v2 <= 0, -1 <= 0, -1*v3 <= 0, v2 + -1*v3 + 1 <= 0, v3 = 0, -1*v3 + 1 <= 0",
    },
    Example {
        name: "convert gives all indices",
        at: BACK_RETURNED,
        choice: r#"["convert",0,1,[]]"#,
        aspect: Aspect::Left,
        wanted: "
goal
sorts Int, Int
rows 0 <= 0
store v0
facts R0(v1, v0; 0)
guards v1@R0.0 from 0
env v0, v1, _
env v0, v1, 0
take 11:58 in env 1, creations 3, at 1",
    },
    Example {
        name: "a span with an end is no rest",
        at: FEW_RETURNED,
        choice: r#"["guard",0,0,[]]"#,
        aspect: Aspect::Left,
        wanted: "\nnot applicable",
    },
    Example {
        name: "a span with an end is no rest",
        at: FEW_RETURNED,
        choice: r#"["guard",0,1,[]]"#,
        aspect: Aspect::Left,
        wanted: "\nnot applicable",
    },
    Example {
        name: "a span with an end is no rest",
        at: FEW_RETURNED,
        choice: r#"["convert",0,0,[]]"#,
        aspect: Aspect::Left,
        wanted: "\nnot applicable",
    },
];

#[test]
fn indices_are_given_and_taken(rt: HostRuntime) -> Result<(), Fail> {
    all_hold(&rt, rt.alloc(), INDICES)
}
