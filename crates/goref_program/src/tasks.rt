//! What each task does on its streams.
ghost use Rattle.std.specs.Prelude.{IfErr};
ghost use Rattle.goref.specs.Runs.{devices_of};
ghost use Rattle.goref_program.specs.Tasks.{IsFaultOf, Performs};

use crate::ends::Fault;
use go_board::{Sink, Source};
use goref::{Shelf, Task, judge_run, run, tidy_run};
use goref_streams::{Input, Output};
use std::alloc::Allocator;
use std::io::{Read, Write};

/// Does a task: reads from the one stream, writes to the other, and takes from the shelf the files that lines
/// name.
pub fn do_task<A: Allocator + Copy, R: Read + Drop, W: Write + Drop, S: Shelf<A>>(
    alloc: A,
    task: Task,
    input: R,
    output: W,
    shelf: &mut S,
) -> Result<(), Fault>
    ensures { IfErr result (IsFaultOf task) }
{
    do_on_devices(
        alloc,
        task,
        &mut Input::new(input),
        &mut Output::new(output),
        shelf,
    )
}

/// Does a task on devices.
fn do_on_devices<A: Allocator + Copy, R: Source, W: Sink, S: Shelf<A>>(
    alloc: A,
    task: Task,
    input: &mut R,
    output: &mut W,
    shelf: &mut S,
) -> Result<(), Fault>
    ensures { Performs task result
        (devices_of R.Source W.Sink input.old output.old (S.given shelf.old))
        (devices_of R.Source W.Sink input.new output.new (S.given shelf.new)) }
{
    match task {
        Task::Gtp(size) => run(alloc, size, input, output, shelf).map_err(Fault::Run),
        Task::Judge => judge_run(alloc, input, output).map_err(Fault::Tool),
        Task::Tidy => tidy_run(alloc, input, output).map_err(Fault::Tool),
    }
}
