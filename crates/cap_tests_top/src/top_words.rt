//! The words of commands.

use cap_top_words::{Command, read_command};
use std::test::Fail;

// The words of a line, cut at its blanks.
fn words_of(rt: &HostRuntime, line: &str) -> Result<Vec<String>, Fail> {
    let mut words = Vec::new(rt.alloc());
    for word in line.split(' ') {
        words.push(String::from_str(rt.alloc(), word)?)?;
    }
    Ok(words)
}

fn is_command(rt: &HostRuntime, line: &str, want: Command<'_>) -> Result<bool, Fail> {
    let words = words_of(rt, line)?;
    Ok(read_command(rt.alloc(), &words)? == Some(want))
}

#[test]
fn words_that_are_commands(rt: HostRuntime) -> Result<(), Fail> {
    for (line, file, budget) in [
        ("verify a", "a", 200_000),
        ("verify -- -a", "-a", 200_000),
        ("verify a --", "a", 200_000),
        ("verify -- --", "--", 200_000),
        ("verify ", "", 200_000),
        ("verify --budget 7 a", "a", 7),
        ("verify --budget=7 -- a", "a", 7),
        ("verify a --budget 1", "a", 1),
        ("verify a --budget=1000000000 --", "a", 1_000_000_000),
    ] {
        let found = is_command(&rt, line, Command::Verify { file, budget })?;
        assert!(rt; found, "{line}");
    }
    Ok(())
}

#[test]
fn words_that_are_other_commands(rt: HostRuntime) -> Result<(), Fail> {
    for (line, want) in [
        (
            "derive d --budget=10",
            Command::Derive {
                file: "d",
                budget: 10,
            },
        ),
        (
            "check a b",
            Command::Check {
                file: "a",
                derivation: "b",
            },
        ),
        (
            "check a -- --",
            Command::Check {
                file: "a",
                derivation: "--",
            },
        ),
        (
            "replay a b --",
            Command::Replay {
                file: "a",
                schedule: "b",
            },
        ),
        (
            "replay -- -a -b",
            Command::Replay {
                file: "-a",
                schedule: "-b",
            },
        ),
        ("show -- -", Command::Show { file: "-" }),
        ("show show", Command::Show { file: "show" }),
        ("trial 1", Command::Trial { number: 1 }),
        ("trial -- 50", Command::Trial { number: 50 }),
        (
            "outline a b",
            Command::Outline {
                file: "a",
                derivation: "b",
            },
        ),
        (
            "outline a -- -b",
            Command::Outline {
                file: "a",
                derivation: "-b",
            },
        ),
        (
            "owners a b c",
            Command::Owners {
                file: "a",
                derivation: "b",
                schedule: "c",
            },
        ),
        (
            "owners a -- -b -c",
            Command::Owners {
                file: "a",
                derivation: "-b",
                schedule: "-c",
            },
        ),
        (
            "stray a 0 1",
            Command::Stray {
                file: "a",
                number: 0,
                count: 1,
            },
        ),
        (
            "stray -- -a 18446744073709551615 1000",
            Command::Stray {
                file: "-a",
                number: u64::MAX,
                count: 1000,
            },
        ),
        ("core a", Command::Core { file: "a" }),
    ] {
        let found = is_command(&rt, line, want)?;
        assert!(rt; found, "{line}");
    }
    Ok(())
}

#[test]
fn words_that_are_none(rt: HostRuntime) -> Result<(), Fail> {
    for line in [
        "",
        "a",
        "verif a",
        "verify",
        "verify --",
        "verify a b",
        "verify a -- b",
        "verify verify a",
        "verify -a",
        "verify -",
        "verify - -- a",
        "verify a -",
        "verify a -b 1",
        "verify a --budge 1",
        "verify a --budget",
        "verify a --budget=",
        "verify a --budget -- 1",
        "verify a --budget -1",
        "verify a --budget 0",
        "verify a --budget 00",
        "verify a --budget 01",
        "verify a --budget +1",
        "verify a --budget 1x",
        "verify a --budget 1000000001",
        "verify a --budget=18446744073709551617",
        "verify a --budget 1 --budget 2",
        "verify --budget=1 a --budget=2",
        "verify --budget --budget=1 a",
        "derive",
        "check a",
        "check a b c",
        "check a b --budget 1",
        "check a -- b c",
        "replay a",
        "replay --budget=1 a b",
        "show",
        "show a b",
        "show a --budget=1",
        "trial",
        "trial 0",
        "trial 01",
        "trial 51",
        "trial -1",
        "trial 1 2",
        "outline a",
        "outline a b c",
        "outline a -b",
        "outline a b --budget 1",
        "stray a 1",
        "stray a 1 0",
        "stray a 1 1001",
        "stray a 01 1",
        "stray a 18446744073709551616 1",
        "stray a 1 1 1",
        "core",
        "core a b",
        "--",
        "-- verify a",
        "--budget 1 verify a",
        "- verify a",
        "help",
        "help verify",
        "verify --help",
        "verify -h",
        "--help",
        "-V",
        "--version",
    ] {
        let words = words_of(&rt, line)?;
        let found = read_command(rt.alloc(), &words)?;
        assert!(rt; found == None, "{line}");
    }
    assert!(rt; read_command(rt.alloc(), &[])? == None);
    Ok(())
}
