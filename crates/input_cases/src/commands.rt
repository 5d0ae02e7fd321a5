//! Lists of words and what they ask for. What is taken beside plain forms is known of clap's fourth version.

use std::alloc::{AllocError, Global};
use std::test::Fail;
use ztx_words::{Command, read_words};

/// Adds the words, which a bar parts.
fn add_words(words: &mut Vec<String>, alloc: Global, line: &str) -> Result<(), AllocError> {
    for word in line.split('|') {
        words.push(String::from_str(alloc, word)?)?;
    }
    Ok(())
}

/// What the words of a line ask for.
fn asked(alloc: Global, line: &str) -> Result<Option<Command>, AllocError> {
    let mut words = Vec::new(alloc);
    add_words(&mut words, alloc, line)?;
    read_words(alloc, words.as_slice())
}

/// What no words ask for.
fn asked_by_none(alloc: Global) -> Result<Option<Command>, AllocError> {
    let words = Vec::new(alloc);
    read_words(alloc, words.as_slice())
}

/// Lists of words, and what they ask for.
const TAKEN: [(&str, Command); 11] = [
    ("list|--", Command::List),
    (
        "run|--turns=1|--seed|007",
        Command::Run {
            turns: 1,
            tick: 0,
            seed: Some(7),
        },
    ),
    (
        "race|--tick|2|--turns|+3",
        Command::Race { turns: 3, tick: 2 },
    ),
    (
        "generate|18446744073709551615",
        Command::Generate {
            number: 18_446_744_073_709_551_615,
        },
    ),
    ("summary|--|7", Command::Summary { number: 7 }),
    ("check", Command::Check),
    (
        "heat|--tick=1000000",
        Command::Heat {
            turns: 200_000,
            tick: 1_000_000,
            seed: None,
        },
    ),
    (
        "deck",
        Command::Deck {
            read: false,
            origin: 0,
        },
    ),
    (
        "deck|--origin|1040384|--read",
        Command::Deck {
            read: true,
            origin: 1_040_384,
        },
    ),
    (
        "step",
        Command::Step {
            turns: 20_000,
            tick: 0,
            seed: None,
        },
    ),
    (
        "step|--seed|5|--turns=20000",
        Command::Step {
            turns: 20_000,
            tick: 0,
            seed: Some(5),
        },
    ),
];

#[test]
fn takes_command_lines(rt: HostRuntime) -> Result<(), Fail> {
    for (line, command) in &TAKEN {
        assert!(rt; asked(rt.alloc(), line)? == Some(*command), "{line}");
    }
    Ok(())
}

/// Lists of words that ask for nothing.
const OTHERS: [&str; 40] = [
    "",
    "|list",
    "Run",
    "ztx",
    "help",
    "--help",
    "list|x",
    "list|",
    "list|-h",
    "run|5",
    "run|--turns",
    "run|--turns|0",
    "run|--turns=200001",
    "run|--tick|1000001",
    "run|--turns|5|--turns|6",
    "run|--seed|-5",
    "run|--seed=",
    "run|--seed|18446744073709551616",
    "run|--tur|5",
    "run|-t|5",
    "run|--help",
    "run|--version",
    "run|--|5",
    "run|-",
    "race|--seed|5",
    "generate",
    "generate|x",
    "generate|-7",
    "generate|5|6",
    "generate|--help",
    "summary|5|",
    "check|report",
    "heat|--turns|200001",
    "deck|--origin|1040385",
    "deck|--read=true",
    "deck|--read|--read",
    "deck|--read|5",
    "step|--turns|20001",
    "step|--turns|0",
    "step|--read",
];

#[test]
fn refuses_other_words(rt: HostRuntime) -> Result<(), Fail> {
    for line in &OTHERS {
        assert!(rt; asked(rt.alloc(), line)?.is_none(), "{line}");
    }
    assert!(rt; asked_by_none(rt.alloc())?.is_none());
    Ok(())
}
