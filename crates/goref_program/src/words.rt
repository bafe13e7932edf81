//! Does the task that the program's words name. If they name none, it writes the help, the version or a
//! refusal. It returns the exit status.
ghost use Rattle.std.specs.Prelude.{◌≡◌, ◌⊎◌, IfSome, None, map};
ghost use Rattle.std.specs.String.{string_bytes};
ghost use Rattle.goref.specs.CommandLine.{texts_of};
ghost use Rattle.goref_program.specs.Status.{FollowsWords};

use crate::ends::{WORDS_REFUSED, explain, report};
use crate::tasks::do_task;
use goref::{Shelf, task_of};
use std::alloc::Global;
use std::io::{Read, Write};

/// Does what the words ask, on these streams. Returns the exit status. `None` is for words that can't be
/// read, or for which there is no memory.
pub fn follow_words<R: Read + Drop, W: Write + Drop, E: Write, S: Shelf<Global>>(
    alloc: Global,
    words: Option<Vec<String>>,
    input: R,
    output: W,
    errors: &mut E,
    shelf: &mut S,
) -> u8
    ensures unreadable { words ≡ None → result ≡ 2 }
    ensures silent { result ≡ 0 → errors.new ≡ errors.old }
    ensures words { IfSome words (λ list. (result ≡ 2) ⊎ FollowsWords (map string_bytes list.items) result) }
{
    let Some(words) = words else {
        return refuse_words(errors);
    };
    match words.iter().map(|word| word.as_str()).collect(alloc) {
        Ok(views) => follow_readable(alloc, &views, input, output, errors, shelf),
        Err(_) => refuse_words(errors),
    }
}

fn refuse_words<E: Write>(errors: &mut E) -> u8
    ensures { result ≡ WORDS_REFUSED }
{
    let _ = writeln!(errors, "goref: the words cannot be read");
    WORDS_REFUSED
}

/// Does the task that the words name. If they name none, it writes the help, the version or a refusal.
fn follow_readable<R: Read + Drop, W: Write + Drop, E: Write, S: Shelf<Global>>(
    alloc: Global,
    words: &Vec<&str>,
    input: R,
    mut output: W,
    errors: &mut E,
    shelf: &mut S,
) -> u8
    ensures status { FollowsWords (texts_of words.now.items) result }
    ensures silent { result ≡ 0 → errors.new ≡ errors.old }
{
    match task_of(alloc, words.as_slice()) {
        Ok(task) => report(do_task(alloc, task, input, output, shelf), errors),
        Err(error) => explain(&error, &mut output, errors),
    }
}
