//! Derivations from their texts: the trees that their lines are, and whether these are valid.
use cap_deriv::{Lines, read};
use cap_deriv_write::write;
use cap_kernel_check::{check, shape};
use cap_prog::Program;
use cap_top_reading::read_program;
use std::alloc::Global;
use std::test::Fail;

const EMPTY: &str = "function main() { }";

const ASSERTS: &str = "function main() { assert 0 <= 1; }";

// The trees of the lines are valid, and have these lines; or why there are no such trees.
fn judged(alloc: Global, program: &Program, lines: &Lines) -> Result<String, Fail> {
    let bundle = match shape(alloc, program, lines.trees, &lines.choices) {
        Ok(bundle) => bundle,
        Err(error) => return Ok(format!(in alloc; "{error}")?),
    };
    check(alloc, program, &bundle)?;
    let text = write(alloc, &bundle)?;
    Ok(String::from_utf8(text)?)
}

// The same of the lines of a text, whose program is read from one.
fn judged_text(alloc: Global, program: &str, text: &str) -> Result<String, Fail> {
    let program = read_program(alloc, program.as_bytes())?;
    let lines = read(alloc, text.as_bytes())?;
    judged(alloc, &program, &lines)
}

const RETURNS: &str = r#"["caper",1,3]
["return"]
["end",1]
"#;

const PROVES_ONCE: &str = r#"["caper",1,3]
["assert",[["leaf",[[0,"1"]]]]]
["return"]
["end",2]
"#;

const PROVES_TWICE: &str = r#"["caper",1,3]
["assert",[["leaf",[[0,"2"]]]]]
["return"]
["end",2]
"#;

const PROVES_NOTHING: &str = r#"["caper",1,3]
["assert",[["leaf",[[0,"-1"]]]]]
["return"]
["end",2]
"#;

const MISSES_A_NODE: &str = r#"["caper",1,3]
["assert",[["leaf",[[0,"1"]]]]]
["end",1]
"#;

const LEAVES_A_NODE: &str = r#"["caper",1,3]
["return"]
["return"]
["end",2]
"#;

const MISCOUNTS_TREES: &str = r#"["caper",1,2]
["return"]
["end",1]
"#;

// A certificate counts by what it proves, and lines have one tree for each goal.
#[test]
fn derivations_are_judged(rt: HostRuntime) -> Result<(), Fail> {
    for (program, text, wanted) in [
        (EMPTY, RETURNS, RETURNS),
        (ASSERTS, PROVES_ONCE, PROVES_ONCE),
        (ASSERTS, PROVES_TWICE, PROVES_TWICE),
        (ASSERTS, PROVES_NOTHING, "node 1 fails"),
        (ASSERTS, MISSES_A_NODE, "the shape is wrong at node 2"),
        (EMPTY, LEAVES_A_NODE, "the shape is wrong at node 2"),
        (EMPTY, MISCOUNTS_TREES, "the shape is wrong at node 1"),
    ] {
        let found = judged_text(rt.alloc(), program, text)?;
        assert!(rt; found.as_str() == wanted, "{text}{found}");
    }
    Ok(())
}
