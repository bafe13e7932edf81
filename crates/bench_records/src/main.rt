//! A record read into lists and written from them, to be timed.
#![tactic(auto)]

use go_board::{Sink, Source};
use go_sgf::{read, write};
use goref_streams::{Input, Output};
use goref_tools::{ToolError, read_input};
use std::alloc::Allocator;
use std::process::ExitCode;

fn main(rt: HostRuntime) -> ExitCode {
    let mut input = Input::new(rt.stdin());
    let mut output = Output::new(rt.stdout());
    match copy(rt.alloc(), &mut input, &mut output) {
        Ok(()) => ExitCode::SUCCESS,
        Err(_) => ExitCode::FAILURE,
    }
}

/// Reads a record up to the end of the input, and writes it from its trees.
fn copy<A: Allocator + Copy, R: Source, W: Sink>(
    alloc: A,
    reader: &mut R,
    writer: &mut W,
) -> Result<(), ToolError> {
    let source = read_input(alloc, reader)?;
    let collection = read(alloc, source.as_slice())?;
    if write(&collection, writer).is_err() || writer.flush().is_err() {
        return Err(ToolError::Write);
    }
    Ok(())
}
