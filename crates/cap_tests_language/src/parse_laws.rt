//! The classes by which the grammar sees tokens.

use cap_parse_laws::{Class, are_same, class_of};
use cap_syntax::tokens;
use std::test::Fail;

#[test]
fn tells_what_the_grammar_sees(rt: HostRuntime) -> Result<(), Fail> {
    let mut seen = String::new(rt.alloc());
    for token in tokens(rt.alloc(), b"fork forks(x) := 1p: _ |-> 7 } &*& src")? {
        let class = class_of(&token);
        write!(seen, "{class:?} ")?;
    }
    let want =
        "Fork Name Open Name Close Becomes Share Colon Wildcard PointsTo Number CloseBrace And \
Source Other ";
    assert_eq!(rt; seen.as_str(), want);
    Ok(())
}

#[test]
fn tells_classes_apart(rt: HostRuntime) -> Result<(), Fail> {
    assert!(rt; are_same(Class::Comma, Class::Comma));
    assert!(rt; !are_same(Class::Comma, Class::Colon));
    Ok(())
}
