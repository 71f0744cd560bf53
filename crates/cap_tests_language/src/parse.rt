//! What texts of both versions are read as.

use cap_parse::{ParseError, parse};
use cap_parse_print::print;
use cap_syntax::tokens;
use std::alloc::Global;
use std::process::Abort;
use std::test::Fail;

// The canonical text of what is read, or why and where the text is refused.
fn shown(alloc: Global, text: &str) -> Result<String, Fail> {
    let mut out = String::new(alloc);
    let tokens = tokens(alloc, text.as_bytes())?;
    match parse(alloc, tokens.as_slice()) {
        Ok(tree) => {
            let canonical = print(alloc, &tree)?;
            out.push_str(std::str::from_utf8(canonical.as_slice())?)?;
        }
        Err(ParseError::Unexpected(place)) => write!(out, "unexpected {place}")?,
        Err(ParseError::TooDeep(place)) => write!(out, "too deep {place}")?,
        Err(ParseError::OutOfMemory) => write!(out, "out of memory")?,
    }
    Ok(out)
}

type Row = (&'static str, &'static str);

fn all_are_shown(rt: &impl Abort, alloc: Global, rows: &[Row]) -> Result<(), Fail> {
    for (text, want) in rows {
        assert_eq!(rt; shown(alloc, text)?.as_str(), *want, "{text}");
    }
    Ok(())
}

// The second version begins with `caper`, a number that is spelled 2, and a semicolon.
const HEADERS: &[Row] = &[
    ("", ""),
    ("caper 2;", "caper 2 ;\n"),
    ("caper // 3\n2 ;", "caper 2 ;\n"),
    (
        "caper 2; function f() { }",
        "caper 2 ;\nfunction f ( ) {\n}\n",
    ),
    ("caper", "unexpected 1:6"),
    ("caper\n", "unexpected 2:1"),
    ("caper 2", "unexpected 1:8"),
    ("caper;", "unexpected 1:6"),
    ("caper 02;", "unexpected 1:7"),
    ("caper 3;", "unexpected 1:7"),
    ("caper two;", "unexpected 1:7"),
    ("caper 2 2;", "unexpected 1:9"),
    ("caper 2; caper 2;", "unexpected 1:10"),
    ("2;", "unexpected 1:1"),
    ("Caper 2;", "unexpected 1:1"),
    ("function f() { } caper 2;", "unexpected 1:18"),
];

#[test]
fn versions_by_their_headers(rt: HostRuntime) -> Result<(), Fail> {
    all_are_shown(&rt, rt.alloc(), HEADERS)
}

// `caper` is a name in both versions, and the other words are names in the first alone.
const WORDS: &[Row] = &[
    (
        "function caper(caper) { caper := caper; }",
        "function caper ( caper ) {\ncaper := caper ;\n}\n",
    ),
    (
        "caper 2; function caper(caper) { caper := caper; }",
        "caper 2 ;\nfunction caper ( caper ) {\ncaper := caper ;\n}\n",
    ),
    (
        "function at(from) { FAA := FAA(at, from); dispose(at); }",
        "function at ( from ) {\nFAA := FAA ( at , from ) ;\ndispose ( at ) ;\n}\n",
    ),
    (
        "function f(x) requires x = FAA; { }",
        "function f ( x ) requires x = FAA ;\n{\n}\n",
    ),
    ("caper 2; function FAA() { }", "unexpected 1:19"),
    ("caper 2; function f(at) { }", "unexpected 1:21"),
    ("caper 2; function f() { from := 1; }", "unexpected 1:25"),
    ("caper 2; function f() { x := dispose; }", "unexpected 1:30"),
    ("caper 2; function f() { FAA := 1; }", "unexpected 1:25"),
    (
        "caper 2; function f(x) requires x = FAA; { }",
        "unexpected 1:37",
    ),
];

#[test]
fn words_of_the_second_version(rt: HostRuntime) -> Result<(), Fail> {
    all_are_shown(&rt, rt.alloc(), WORDS)
}

// `FAA` stands as a whole value, and `dispose` as a statement.
const STATEMENTS: &[Row] = &[
    (
        "caper 2; function f(x) { v := FAA(x + 1, -v); dispose(x); }",
        "caper 2 ;\nfunction f ( x ) {\nv := FAA ( x + 1 , - v ) ;\ndispose ( x ) ;\n}\n",
    ),
    ("caper 2; function f() { x := FAA(1); }", "unexpected 1:35"),
    (
        "caper 2; function f() { x := FAA(1, 2, 3); }",
        "unexpected 1:38",
    ),
    (
        "caper 2; function f() { x := 1 + FAA(1, 2); }",
        "unexpected 1:34",
    ),
    ("caper 2; function f() { FAA(1, 2); }", "unexpected 1:25"),
    ("caper 2; function f() { dispose 1; }", "unexpected 1:33"),
    (
        "caper 2; function f() { dispose(1, 2); }",
        "unexpected 1:34",
    ),
    ("caper 2; function f() { dispose(); }", "unexpected 1:33"),
    (
        "caper 2; function f() { x := dispose(1); }",
        "unexpected 1:30",
    ),
    // In the first version it is a call of two arguments, and one of one.
    (
        "function f(x) { v := FAA(x, 1); dispose(x); }",
        "function f ( x ) {\nv := FAA ( x , 1 ) ;\ndispose ( x ) ;\n}\n",
    ),
];

#[test]
fn statements_of_the_second_version(rt: HostRuntime) -> Result<(), Fail> {
    all_are_shown(&rt, rt.alloc(), STATEMENTS)
}

// An indexed guard is declared in the second version alone; a `[` behind a sign within a term, an
// assertion or a value is none of these.
const INDICES: &[Row] = &[
    (
        "caper 2; region R(r) { guards [G]; interpretation { } actions { } }",
        "caper 2 ;\nregion R ( r ) {\nguards [ G ] ;\ninterpretation {\n}\nactions {\n}\n}\n",
    ),
    (
        "caper 2; region R(r) { guards A * [G] + ([H] * |N|); interpretation { } \
actions { at H[n] * from G[_] : n ~> m; } }",
        "caper 2 ;\nregion R ( r ) {\nguards A * [ G ] + ( [ H ] * | N | ) ;\ninterpretation {\n}\n\
actions {\nat H [ n ] * from G [ _ ] : n ~> m ;\n}\n}\n",
    ),
    (
        "caper 2; function f(r) requires r@(at G[1] * from G[2]) &*& r@at H[_]; { }",
        "caper 2 ;\nfunction f ( r ) requires r @ ( at G [ 1 ] * from G [ 2 ] ) &*& \
r @ at H [ _ ] ;\n{\n}\n",
    ),
    (
        "region R(r) { guards [G]; interpretation { } actions { } }",
        "unexpected 1:22",
    ),
    (
        "region R(r) { guards A * [G]; interpretation { } actions { } }",
        "unexpected 1:26",
    ),
    (
        "region R(r) { guards H; interpretation { } actions { at H[n] : n ~> m; } }",
        "unexpected 1:57",
    ),
    ("function f(r) requires r@from G[2]; { }", "unexpected 1:31"),
    (
        "caper 2; region R(r) { guards at; interpretation { } actions { } }",
        "unexpected 1:31",
    ),
    (
        "caper 2; region R(r) { guards [G * A; interpretation { } actions { } }",
        "unexpected 1:34",
    ),
    (
        "caper 2; region R(r) { guards [at]; interpretation { } actions { } }",
        "unexpected 1:32",
    ),
    (
        "caper 2; function f(r) requires r@at G; { }",
        "unexpected 1:39",
    ),
    (
        "caper 2; function f(r) requires r@([G]); { }",
        "unexpected 1:36",
    ),
    (
        "caper 2; function f(x) { [x] := 1; x := [x]; }",
        "caper 2 ;\nfunction f ( x ) {\n[ x ] := 1 ;\nx := [ x ] ;\n}\n",
    ),
    (
        "caper 2; function f(x) { x := 1 * [x]; }",
        "unexpected 1:35",
    ),
    (
        "caper 2; function f(x) { x := 1 + [x]; }",
        "unexpected 1:35",
    ),
    ("caper 2; function f(x) { x := ([x]); }", "unexpected 1:32"),
    ("function f(x) { x := 1 * [x]; }", "unexpected 1:26"),
];

#[test]
fn guards_with_indices(rt: HostRuntime) -> Result<(), Fail> {
    all_are_shown(&rt, rt.alloc(), INDICES)
}

// A region type with this in front of it, whose indexed guard stands in so many parentheses.
fn nested(alloc: Global, header: &str, parentheses: usize) -> Result<String, Fail> {
    let mut text = String::new(alloc);
    write!(text, "{header}region R(r) {{ guards ")?;
    for _ in 0..parentheses {
        text.push('(')?;
    }
    text.push_str("[G]")?;
    for _ in 0..parentheses {
        text.push(')')?;
    }
    text.push_str("; interpretation { } actions { } }")?;
    Ok(text)
}

// The brace of the region type is open too. In the first version the bracket is unexpected, and at
// one place that counts.
#[test]
fn brackets_of_indices_nest(rt: HostRuntime) -> Result<(), Fail> {
    for (header, parentheses, want) in [
        ("caper 2; ", 62, "caper 2 ;\nregion R ( r ) {\nguards ( ("),
        ("caper 2; ", 63, "too deep 1:94"),
        ("caper 2; ", 64, "too deep 1:94"),
        ("", 63, "unexpected 1:85"),
    ] {
        let text = nested(rt.alloc(), header, parentheses)?;
        let found = shown(rt.alloc(), text.as_str())?;
        assert!(rt; found.as_str().starts_with(want), "{header}{parentheses}");
    }
    Ok(())
}
