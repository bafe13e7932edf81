//! The command line as clap gets it, with its help texts, and the task that the program's words name.
ghost use Rattle.std.specs.Prelude.{◌≡◌, ◌⊎◌, IfErr, IfOk, IfSome, IsErrAnd, IsSome, List, Some, codes, ℕ};
ghost use Rattle.std.specs.Prelude.{false};
ghost use Rattle.std.specs.Fmt.{decimal};
ghost use Rattle.clap.specs.Matches.{found_of};
ghost use Rattle.clap.specs.Simple.{app_of, subcommand_rows_of};
ghost use Rattle.clap.specs.Values.{kind_of};
ghost use Rattle.clap.specs.Walk.{Row, Text, one_of, rows_of, rule_of};
ghost use Rattle.clap.specs.declared.builder.command.Command.TheViews.{out-Command};
ghost use Rattle.clap.specs.declared.error.kind.ErrorKind.{ErrorKind};
ghost use Rattle.goref_cli.specs.CommandLine.{Asks, HasSize, IsPlainUse, IsSize};
ghost use Rattle.goref_cli.specs.inner.Matches.{IsPlainMatch};
ghost use Rattle.goref_cli.specs.CommandLine.{Means, gtp_command, judge_command, program, size_option};
ghost use Rattle.goref_cli.specs.CommandLine.{texts_of, tidy_command};

use clap::error::ErrorKind;
use clap::{Arg, ArgMatches, Command, Error, value_parser};
use go_board::{MAX_LINES, Size};
use std::alloc::{AllocError, Global};

/// What the program is to do.
#[derive(Clone, Copy, Debug, PartialEq, Eq)]
pub enum Task {
    /// Answer the commands of the Go Text Protocol, on a board that has this size at first.
    Gtp(Size),
    /// Write the verdict on a record.
    Judge,
    /// Write a record in its canonical spelling.
    Tidy,
}

/// The task that the program's words name, the program's own name first.
///
/// A call for help or for the version is an `Err` too: its text is for the standard output. Words
/// that ask for no task are refused with the text that tells the user why.
pub fn task_of<'a>(alloc: Global, words: &'a [&'a str]) -> Result<Task, Error>
    ensures ok { IfOk result (Means (texts_of words.entry.now)) }
    ensures plain { IsPlainUse (texts_of words.entry.now)
        → IfErr result (λ e. kind_of e ≡ ErrorKind.OutOfMemory) }
{
    let matches = program_command(alloc)?.try_get_matches_from(words)?;
    match asked(&matches) {
        Some(task) => Ok(task),
        None => refused(alloc),
    }
}

/// The command line that clap knows.
fn program_command<'a>(alloc: Global) -> Result<Command<'a>, AllocError>
    ensures { IfOk result (λ c. app_of c ≡ program) }
{
    let gtp = gtp_subcommand(alloc)?;
    Command::new(alloc, "goref")
        .version("1.0")
        .about("A Go engine and referee for the Tromp-Taylor rules")
        .subcommand_required(true)
        .subcommand(gtp)?
        .subcommand(judge_subcommand(alloc))?
        .subcommand(tidy_subcommand(alloc))
}

fn gtp_subcommand<'a>(alloc: Global) -> Result<Command<'a>, AllocError>
    ensures command { IfOk result (λ c. app_of c ≡ gtp_command) }
    ensures local { IfOk result (λ c. (out-Command c).has_globals ≡ false) }
{
    Command::new(alloc, "gtp")
        .about("Answers the commands of the Go Text Protocol, version 2")
        .after_help(
            "list_commands names the commands, and quit ends it.\n\nExample: goref gtp --size 9",
        )
        .arg(size_argument(alloc))
}

fn judge_subcommand<'a>(alloc: Global) -> Command<'a>
    ensures command { app_of result ≡ judge_command }
    ensures local { (out-Command result).has_globals ≡ false }
{
    Command::new(alloc, "judge")
        .about("Replays a record in SGF, and writes its score and whether it states that score")
        .override_usage("goref judge < RECORD")
        .after_help(
            "At a terminal it waits for the record and its end (Ctrl-D).\n\nExample: goref judge < game.sgf",
        )
}

fn tidy_subcommand<'a>(alloc: Global) -> Command<'a>
    ensures command { app_of result ≡ tidy_command }
    ensures local { (out-Command result).has_globals ≡ false }
{
    Command::new(alloc, "tidy")
        .about("Reads a record in SGF, and writes it in its one canonical spelling")
        .override_usage("goref tidy < RECORD")
        .after_help(
            "At a terminal it waits for the record and its end (Ctrl-D).\n\nExample: goref tidy < game.sgf",
        )
}

/// The option `--size`.
fn size_argument<'a>(alloc: Global) -> Arg<'a>
    ensures rule { rule_of result ≡ size_option }
    ensures local { result.global ≡ false }
{
    Arg::new(alloc, "size")
        .long("size")
        .value_name("N")
        .help("The lines of the board at the start, from 1 to 25")
        .default_value("19")
        .value_parser(value_parser!(u8).range(1..=i64::from(MAX_LINES)))
}

/// The task that the matches ask for.
fn asked<'a>(matches: &ArgMatches<'a>) -> Option<Task>
    ensures is { IfSome result (λ task. (p : Text × List Row)
        × (subcommand_rows_of matches.now ≡ Some p) × Asks p task) }
    ensures some { (p : Text × List Row) → subcommand_rows_of matches.now ≡ Some p → IsPlainMatch p
        → IsSome result }
{
    match matches.subcommand() {
        Some(("gtp", inner)) => Some(Task::Gtp(size_of(inner)?)),
        Some(("judge", _)) => Some(Task::Judge),
        Some(("tidy", _)) => Some(Task::Tidy),
        _ => None,
    }
}

/// The size that the option `--size` states.
fn size_of(matches: &ArgMatches) -> Option<Size>
    ensures is { IfSome result (λ size. HasSize (rows_of (found_of matches.now)) size) }
    ensures some { (n : ℕ) → IsSize n
        → one_of (codes "size") (rows_of (found_of matches.now)) ≡ Some (decimal n)
        → IsSome result }
{
    Size::new(matches.get_one::<u8>("size")?)
}

/// The refusal of words that ask for no task.
fn refused(alloc: Global) -> Result<Task, Error>
    ensures { IsErrAnd result (λ e. (kind_of e ≡ ErrorKind.MissingSubcommand)
        ⊎ (kind_of e ≡ ErrorKind.OutOfMemory)) }
{
    let mut command = program_command(alloc)?;
    Err(command.error(ErrorKind::MissingSubcommand, "no task is named")?)
}
