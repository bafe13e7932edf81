//! Tests of the command line: the task that words name, or the kind of their refusal and its text.
use clap::error::ErrorKind;
use go_board::Size;
use goref::{Task, task_of};
use std::alloc::Global;
use std::process::Abort;
use std::test::Fail;

/// The task that the words ask for, or the kind of their refusal.
fn asked<'a>(alloc: Global, words: &'a [&'a str]) -> Result<Task, ErrorKind> {
    match task_of(alloc, words) {
        Ok(task) => Ok(task),
        Err(error) => Err(error.kind()),
    }
}

/// To answer commands on a board of this many lines.
fn gtp(rt: &impl Abort, lines: u8) -> Task {
    Task::Gtp(Size::new(lines).expect(rt, "a size"))
}

/// The text that the words are refused with.
fn refusal<'a>(alloc: Global, words: &'a [&'a str]) -> Result<String, Fail> {
    match task_of(alloc, words) {
        Ok(_) => Err(Fail::from("the words were taken")),
        Err(error) => Ok(format!(in alloc; "{error}")?),
    }
}

#[test]
fn program_words(rt: HostRuntime) {
    let alloc = rt.alloc();
    assert!(rt; asked(alloc, &["goref", "gtp"]) == Ok(gtp(&rt, 19)));
    assert!(rt; asked(alloc, &["goref", "gtp", "--size", "9"]) == Ok(gtp(&rt, 9)));
    assert!(rt; asked(alloc, &["goref", "gtp", "--size=1"]) == Ok(gtp(&rt, 1)));
    assert!(rt; asked(alloc, &["goref", "gtp", "--size", "25"]) == Ok(gtp(&rt, 25)));
    assert!(rt; asked(alloc, &["goref", "judge"]) == Ok(Task::Judge));
    assert!(rt; asked(alloc, &["goref", "tidy"]) == Ok(Task::Tidy));
}

/// With `rt try --test --fail-alloc N` the request of that number is refused.
#[test]
fn words_where_memory_is_refused(rt: HostRuntime) {
    match asked(rt.alloc(), &["goref", "gtp", "--size", "9"]) {
        Ok(task) => assert!(rt; task == gtp(&rt, 9)),
        Err(kind) => assert!(rt; kind == ErrorKind::OutOfMemory),
    }
}

#[test]
fn refused_words(rt: HostRuntime) {
    let alloc = rt.alloc();
    let invalid = Err(ErrorKind::ValueValidation);
    let unknown = Err(ErrorKind::InvalidSubcommand);
    assert!(rt; asked(alloc, &["goref", "gtp", "--size", "0"]) == invalid);
    assert!(rt; asked(alloc, &["goref", "gtp", "--size", "26"]) == invalid);
    assert!(rt; asked(alloc, &["goref", "gtp", "--size", "nine"]) == invalid);
    assert!(rt; asked(alloc, &["goref", "gtp", "--size"]) == Err(ErrorKind::InvalidValue));
    assert!(rt; asked(alloc, &["goref", "gtp", "9"]) == Err(ErrorKind::UnknownArgument));
    assert!(rt; asked(alloc, &["goref", "Judge"]) == unknown);
    assert!(rt; asked(alloc, &["goref", "GTP"]) == unknown);
    assert!(rt;
        asked(alloc, &["goref", "judge", "--size", "9"]) == Err(ErrorKind::UnknownArgument)
    );
    assert!(rt; asked(alloc, &["goref", "judge", "game.sgf"]) == Err(ErrorKind::UnknownArgument));
    assert!(rt; asked(alloc, &["goref", "tidy", "--size", "9"]) == Err(ErrorKind::UnknownArgument));
    assert!(rt; asked(alloc, &["goref", "tidy", "game.sgf"]) == Err(ErrorKind::UnknownArgument));
    assert!(rt; asked(alloc, &["goref"]) == Err(ErrorKind::MissingSubcommand));
    assert!(rt; asked(alloc, &[]) == Err(ErrorKind::MissingSubcommand));
}

#[test]
fn version(rt: HostRuntime) -> Result<(), Fail> {
    let alloc = rt.alloc();
    for word in ["--version", "-V"] {
        let words = ["goref", word];
        assert!(rt; asked(alloc, &words) == Err(ErrorKind::DisplayVersion));
        let text = refusal(alloc, &words)?;
        assert!(rt; text.as_str() == "goref 1.0\n", "{text}");
    }
    Ok(())
}

/// Asserts that the words are answered by this text.
fn are_told(rt: &impl Abort, alloc: Global, words: &[&str], text: &str) -> Result<(), Fail> {
    let told = refusal(alloc, words)?;
    assert!(rt; told.as_str() == text, "{told}");
    Ok(())
}

const HELP: &str = "A Go engine and referee for the Tromp-Taylor rules

Usage: goref <COMMAND>

Commands:
  gtp    Answers the commands of the Go Text Protocol, version 2
  judge  Replays a record in SGF, and writes its score and whether it states that score
  tidy   Reads a record in SGF, and writes it in its one canonical spelling
  help   Print this message or the help of the given subcommand(s)

Options:
  -h, --help     Print help
  -V, --version  Print version
";

const HELP_ON_GTP: &str = "Answers the commands of the Go Text Protocol, version 2

Usage: goref gtp [OPTIONS]

Options:
      --size <N>  The lines of the board at the start, from 1 to 25 [default: 19]
  -h, --help      Print help

list_commands names the commands, and quit ends it.

Example: goref gtp --size 9
";

const HELP_ON_JUDGE: &str =
    "Replays a record in SGF, and writes its score and whether it states that score

Usage: goref judge < RECORD

Options:
  -h, --help  Print help

At a terminal it waits for the record and its end (Ctrl-D).

Example: goref judge < game.sgf
";

const HELP_ON_TIDY: &str = "Reads a record in SGF, and writes it in its one canonical spelling

Usage: goref tidy < RECORD

Options:
  -h, --help  Print help

At a terminal it waits for the record and its end (Ctrl-D).

Example: goref tidy < game.sgf
";

#[test]
fn help(rt: HostRuntime) -> Result<(), Fail> {
    let alloc = rt.alloc();
    assert!(rt; asked(alloc, &["goref", "--help"]) == Err(ErrorKind::DisplayHelp));
    assert!(rt; asked(alloc, &["goref", "help"]) == Err(ErrorKind::DisplayHelp));
    are_told(&rt, alloc, &["goref", "--help"], HELP)?;
    are_told(&rt, alloc, &["goref", "gtp", "--help"], HELP_ON_GTP)?;
    are_told(&rt, alloc, &["goref", "judge", "--help"], HELP_ON_JUDGE)?;
    are_told(&rt, alloc, &["goref", "tidy", "--help"], HELP_ON_TIDY)
}

#[test]
fn texts_of_refused_words(rt: HostRuntime) -> Result<(), Fail> {
    let alloc = rt.alloc();
    are_told(
        &rt,
        alloc,
        &["goref", "judge", "game.sgf"],
        "error: unexpected argument 'game.sgf' found

Usage: goref judge < RECORD

For more information, try '--help'.
",
    )?;
    are_told(
        &rt,
        alloc,
        &["goref", "gtp", "--size", "26"],
        "error: invalid value '26' for '--size <N>': 26 is not in 1..=25

For more information, try '--help'.
",
    )
}
