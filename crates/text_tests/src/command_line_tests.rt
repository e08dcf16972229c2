//! Lists of words, and what they ask for.
use crate::checks::same;
use command_line::{Command, Page, Size, command_of};
use std::alloc::{AllocError, Global};
use std::test::Fail;

/// The words of a text, which are parted by spaces.
fn words_of(alloc: Global, text: &str) -> Result<Vec<String>, AllocError> {
    let mut words = Vec::new(alloc);
    for word in text.split_whitespace() {
        words.push(String::from_str(alloc, word)?)?;
    }
    Ok(words)
}

#[test]
fn lists_of_words(rt: HostRuntime) -> Result<(), Fail> {
    let size = Size {
        key: 7,
        records: 200_000,
        cpus: 16,
    };
    for (text, command) in [
        ("", Command::Unknown),
        ("replay", Command::Replay { shows_state: false }),
        ("replay --state", Command::Replay { shows_state: true }),
        ("--state replay", Command::Replay { shows_state: true }),
        ("replay 5", Command::Unknown),
        ("replay --state --state", Command::Unknown),
        ("race", Command::Race { shows_state: false }),
        ("race --state", Command::Race { shows_state: true }),
        ("gen 7 200000 16", Command::Gen(size)),
        ("gen +7 0200000 016", Command::Gen(size)),
        ("soak 7 200000 16", Command::Soak(size)),
        ("soak -- 7 200000 16", Command::Soak(size)),
        ("gen 7 200001 16", Command::Unknown),
        ("gen 7 200000 17", Command::Unknown),
        ("gen 7 200000 0", Command::Unknown),
        ("gen 7 200000", Command::Unknown),
        ("gen 7 200000 16 --state", Command::Unknown),
        ("gen 7 200000 16 1", Command::Unknown),
        ("gen 18446744073709551616 1 1", Command::Unknown),
        ("walk", Command::Unknown),
        ("--hepl", Command::Unknown),
        ("replay -x", Command::Unknown),
        ("replay --state=yes", Command::Unknown),
        ("gen seven", Command::Unknown),
        ("--help", Command::Help(Page::Overview)),
        ("-h", Command::Help(Page::Overview)),
        ("replay --help", Command::Help(Page::OfReplay)),
        ("race -h", Command::Help(Page::OfRace)),
        ("gen 7 --help", Command::Help(Page::OfGen)),
        ("soak --help", Command::Help(Page::OfSoak)),
        ("walk --help", Command::Help(Page::Overview)),
        ("--version", Command::Version),
    ] {
        let words = words_of(rt.alloc(), text)?;
        same(&rt, text, command_of(rt.alloc(), &words), Ok(command));
    }
    Ok(())
}
