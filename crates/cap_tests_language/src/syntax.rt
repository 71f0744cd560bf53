//! The tokens of texts.

use cap_syntax::{Place, Text, TokenError, tokens};
use std::test::Fail;

// The tokens of a text: kind, text, value and place of each.
fn shown(rt: &HostRuntime, bytes: &[u8]) -> Result<String, Fail> {
    let mut out = String::new(rt.alloc());
    for token in tokens(rt.alloc(), bytes)? {
        let kind = token.kind;
        let text = std::str::from_utf8(token.text.as_bytes())?;
        let value = token.value;
        let line = token.place.line;
        let column = token.place.column;
        write!(out, "{kind:?} {text} {value} {line}:{column}\n")?;
    }
    Ok(out)
}

fn is_refused(rt: &HostRuntime, bytes: &[u8], want: TokenError) -> bool {
    match tokens(rt.alloc(), bytes) {
        Ok(_) => false,
        Err(error) => error == want,
    }
}

fn bad(line: u32, column: u32) -> TokenError {
    TokenError::BadByte(Place { line, column })
}

fn long(line: u32, column: u32) -> TokenError {
    TokenError::LongLiteral(Place { line, column })
}

#[test]
fn reads_tokens_of_each_kind(rt: HostRuntime) -> Result<(), Fail> {
    let text = b"fork forks(x_1) := 1p|->_;\n\t007 CAS";
    let want =
        "Keyword fork 0 1:1\nName forks 0 1:6\nSymbol ( 0 1:11\nName x_1 0 1:12\nSymbol ) 0 1:15\n\
Symbol := 0 1:17\nShare 1p 0 1:20\nSymbol |-> 0 1:22\nWildcard _ 0 1:25\nSymbol ; 0 1:26\n\
Number 007 7 2:2\nKeyword CAS 0 2:6\nEnd  0 2:9\n";
    assert_eq!(rt; shown(&rt, text)?.as_str(), want);
    Ok(())
}

#[test]
fn takes_the_longest_symbol(rt: HostRuntime) -> Result<(), Fail> {
    let text = b"&*&~>||->:=:=<=<!=>=>==|-";
    let want =
        "Symbol &*& 0 1:1\nSymbol ~> 0 1:4\nSymbol | 0 1:6\nSymbol |-> 0 1:7\nSymbol := 0 1:10\n\
Symbol := 0 1:12\nSymbol <= 0 1:14\nSymbol < 0 1:16\nSymbol != 0 1:17\nSymbol >= 0 1:19\n\
Symbol >= 0 1:21\nSymbol = 0 1:23\nSymbol | 0 1:24\nSymbol - 0 1:25\nEnd  0 1:26\n";
    assert_eq!(rt; shown(&rt, text)?.as_str(), want);
    Ok(())
}

#[test]
fn skips_blanks_and_comments(rt: HostRuntime) -> Result<(), Fail> {
    assert_eq!(rt; shown(&rt, b"")?.as_str(), "End  0 1:1\n");
    let text = b"a// b\n\r\n\tc //\x00\xff/ //d";
    assert_eq!(rt;
        shown(&rt, text)?.as_str(),
        "Name a 0 1:1\nName c 0 3:2\nEnd  0 3:13\n"
    );
    assert_eq!(rt; shown(&rt, b"x\n")?.as_str(), "Name x 0 1:1\nEnd  0 2:1\n");
    Ok(())
}

#[test]
fn refuses_bad_bytes(rt: HostRuntime) {
    let at_column: [(&[u8], u32); 17] = [
        (b"12x", 3),
        (b"12_", 3),
        (b"1px", 3),
        (b"1p1", 3),
        (b"1p_", 3),
        (b"01p", 3),
        (b"11p", 3),
        (b"_a", 2),
        (b"_1", 2),
        (b"__", 2),
        (b"a & b", 3),
        (b"~", 1),
        (b"=!", 2),
        (b"a / b", 3),
        (b"a $", 3),
        (b"&*", 1),
        (b"caf\xc3\xa9", 4),
    ];
    for (text, column) in at_column {
        assert!(rt; is_refused(&rt, text, bad(1, column)), "column {column}");
    }
    assert!(rt; is_refused(&rt, b"a\n  b// c\n 12x $", bad(3, 4)));
}

#[test]
fn knows_the_greatest_literal(rt: HostRuntime) -> Result<(), Fail> {
    let most = shown(&rt, b"0 0009223372036854775807")?;
    assert_eq!(rt;
        most.as_str(),
        "Number 0 0 1:1\nNumber 0009223372036854775807 9223372036854775807 1:3\nEnd  0 1:25\n"
    );
    assert!(rt; is_refused(&rt, b"x\n 9223372036854775808", long(2, 2)));
    // The literal's place comes before that of the bad byte behind it.
    assert!(rt; is_refused(&rt, b"99999999999999999999999x", long(1, 1)));
    Ok(())
}

#[test]
fn limits_the_length_of_a_text(rt: HostRuntime) -> Result<(), Fail> {
    // Every byte is bad, and the length is said first.
    let text = vec![in rt.alloc(); b'$'; 1_048_577]?;
    assert!(rt; is_refused(&rt, &text, TokenError::TextTooLong));
    let text = vec![in rt.alloc(); b' '; 1_048_576]?;
    assert_eq!(rt; shown(&rt, &text)?.as_str(), "End  0 1:1048577\n");
    Ok(())
}

#[test]
fn gives_a_text_back(rt: HostRuntime) -> Result<(), Fail> {
    for bytes in ["", "abc", "longer_than_sixteen_bytes"] {
        let text = Text::from_slice(rt.alloc(), bytes.as_bytes())?;
        assert_eq!(rt; text.as_bytes(), bytes.as_bytes());
        assert_eq!(rt; text.copy()?.as_bytes(), bytes.as_bytes());
    }
    Ok(())
}
