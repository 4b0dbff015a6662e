//! The forms of the program's arguments.

use gj_words::{Service, Task, WordsError, read_service, read_words};
use std::alloc::{AllocError, Global};
use std::test::Fail;

/// The arguments of a line, which single blanks part.
fn words(alloc: Global, line: &str) -> Result<Vec<String>, AllocError> {
    let mut words = Vec::new(alloc);
    for word in line.split(' ') {
        words.push(String::from_str(alloc, word)?)?;
    }
    Ok(words)
}

/// The service that is asked for, as a line of its own.
fn service(alloc: Global, line: &str) -> Result<String, Fail> {
    let words = words(alloc, line)?;
    let text = match read_service(alloc, words.as_slice()) {
        Ok(
            Service {
                capacity,
                segments,
                store,
                workers,
                sessions,
                port,
            },
        ) => format!(in alloc;
            "serve {capacity} {segments} {store:?} {workers} {sessions} {port}"
        )?,
        Err(WordsError::Usage) => String::from_str(alloc, "usage")?,
        Err(WordsError::Memory) => String::from_str(alloc, "memory")?,
    };
    Ok(text)
}

#[test]
fn arguments_ask_for_a_service_or_nothing(rt: HostRuntime) -> Result<(), Fail> {
    let alloc = rt.alloc();
    for (line, asked) in [
        ("serve", "serve 4096 4 None 4 1000000000 8017"),
        (
            "serve --workers 16 --sessions 1 --port 65535",
            "serve 4096 4 None 16 1 65535",
        ),
        (
            "serve --store posts.db --capacity 16 --segments 64 --port=1",
            "serve 16 64 Some(\"posts.db\") 4 1000000000 1",
        ),
        ("serve --workers 0", "usage"),
        ("serve --workers 17", "usage"),
        ("serve --sessions 0", "usage"),
        ("serve --sessions 1000000001", "usage"),
        ("serve --port 0", "usage"),
        ("serve --port 65536", "usage"),
        ("serve --port 1 --port 1", "usage"),
        ("serve --store=", "usage"),
        ("serve --count 1", "usage"),
        ("replay", "usage"),
    ] {
        assert_eq!(rt; service(alloc, line)?.as_str(), asked, "{line}");
    }
    Ok(())
}

/// What is asked for, as a line of its own.
fn told(alloc: Global, line: &str) -> Result<String, Fail> {
    let words = words(alloc, line)?;
    let text = match read_words(alloc, words.as_slice()) {
        Ok(
            Task::Replay {
                capacity,
                segments,
                store,
            },
        ) => format!(in alloc; "replay {capacity} {segments} {store:?}")?,
        Ok(
            Task::Load {
                capacity,
                segments,
                number,
                count,
            },
        ) => format!(in alloc; "load {capacity} {segments} {number} {count}")?,
        Ok(
            Task::Follow {
                capacity,
                segments,
                start,
            },
        ) => format!(in alloc; "follow {capacity} {segments} {start}")?,
        Err(WordsError::Usage) => String::from_str(alloc, "usage")?,
        Err(WordsError::Memory) => String::from_str(alloc, "memory")?,
    };
    Ok(text)
}

#[test]
fn arguments_ask_for_a_command_or_nothing(rt: HostRuntime) -> Result<(), Fail> {
    let alloc = rt.alloc();
    for (line, asked) in [
        ("replay", "replay 4096 4 None"),
        ("replay --segments 64 --capacity=00016", "replay 16 64 None"),
        (
            "replay --store posts.db --segments 1",
            "replay 4096 1 Some(\"posts.db\")",
        ),
        ("replay --", "replay 4096 4 None"),
        ("load", "load 4096 4 1 10000"),
        (
            "load --number 18446744073709551615 --count 1000000",
            "load 4096 4 18446744073709551615 1000000",
        ),
        ("load --number 0 --capacity 65536", "load 65536 4 0 10000"),
        ("follow", "follow 4096 4 0"),
        (
            "follow --capacity 16 --segments 2 --start 32",
            "follow 16 2 32",
        ),
        (
            "follow --start 281474976706560",
            "follow 4096 4 281474976706560",
        ),
        ("", "usage"),
        ("serve", "usage"),
        ("replays", "usage"),
        ("replay --segments 0", "usage"),
        ("replay --segments 65", "usage"),
        ("replay --segments 4 --segments 4", "usage"),
        ("replay --segments", "usage"),
        ("replay --segments +4", "usage"),
        ("replay --segments 000000000000000000004", "usage"),
        ("replay --capacity 15", "usage"),
        ("replay --capacity 65537", "usage"),
        ("replay --store=", "usage"),
        ("replay --bogus", "usage"),
        ("replay --help", "usage"),
        ("replay --version", "usage"),
        ("replay -h", "usage"),
        ("replay posts.db", "usage"),
        ("replay --number 1", "usage"),
        ("load --store posts.db", "usage"),
        ("load --number 18446744073709551616", "usage"),
        ("load --count 0", "usage"),
        ("load --count 1000001", "usage"),
        ("follow --capacity 16 --start 17", "usage"),
        ("follow --start 4095", "usage"),
        ("follow --start 281474976710656", "usage"),
        ("follow --store posts.db", "usage"),
        ("follow --count 1", "usage"),
    ] {
        assert_eq!(rt; told(alloc, line)?.as_str(), asked, "{line}");
    }
    Ok(())
}
