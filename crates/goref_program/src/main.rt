//! `goref`: the words, the standard streams, the named files and the exit status of the program.
#![tactic(auto)]

mod ends;
mod files;
mod tasks;
mod words;

use files::NamedFiles;
use std::process::ExitCode;
use words::follow_words;

fn main(rt: HostRuntime) -> ExitCode {
    ExitCode::from(run_program(&rt))
}

/// Does what the program's words ask, on the standard streams. Returns the exit status.
fn run_program(rt: &HostRuntime) -> u8 {
    follow_words(
        rt.alloc(),
        all_words(rt),
        rt.stdin(),
        rt.stdout(),
        &mut rt.stderr(),
        &mut NamedFiles::new(rt.alloc(), rt),
    )
}

/// The program's words, if each is a text and there is memory for them.
fn all_words(rt: &HostRuntime) -> Option<Vec<String>> {
    match std::env::args(rt) {
        Ok(words) => words.collect(rt.alloc()).ok(),
        Err(_) => None,
    }
}

#[cfg(test)]
mod tests;
