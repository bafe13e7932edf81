//! A run answers the lines of a device or of a text. For each line it fetches the file that the line asks for,
//! writes the answer and flushes it.
ghost use Rattle.std.specs.Prelude.{◌≡◌, ℕ, List, [], ◌∷◌, ◌++◌, Ok, Option, OnOk, false};
ghost use Rattle.go_board.specs.Device.{failures_after};
ghost use Rattle.go_game.specs.Standings.{Standing};
ghost use Rattle.goref_lines.specs.Words.{has_bytes};
ghost use Rattle.goref_session.specs.Starts.{begun};
ghost use Rattle.goref.specs.Lines.{lines};
ghost use Rattle.goref.specs.inner.Progress.{HasNoEnd};
ghost use Rattle.goref_session.specs.Contents.{content_of};
ghost use Rattle.goref.specs.Shelves.{Pair};
ghost use Rattle.goref_session.specs.declared.flow.Flow.{Flow};
ghost use Rattle.goref.specs.Conversation.{AnswersLines, Responds};
ghost use Rattle.goref.specs.inner.Progress.{Fetches, Flushes, Progress, Proceeds};
ghost use Rattle.goref.specs.Runs.{Runs, devices_of};

use crate::error::RunError;
use crate::shelf::Shelf;
use go_board::{Failed, Sink, Size, Source, WriteFault};
use goref_lines::Line;
use goref_session::{Fetched, Flow, Session, laws, wants};
use goref_tools::CHUNK;
use memchr::memchr;
use std::alloc::Allocator;

/// The most reads that [`run`] makes.
pub const READS: u64 = 1 << 40;

/// Reads lines, and answers and flushes each before the next read, up to `quit` or to the end of the input. A
/// last line without a line end is answered too. It makes at most [`READS`] reads. If all of them gave bytes,
/// and no line was `quit`, it returns `Endless`. [`run_within`] promises the same for any limit.
pub fn run<A: Allocator + Copy, R: Source, W: Sink, S: Shelf<A>>(
    alloc: A,
    size: Size,
    reader: &mut R,
    writer: &mut W,
    shelf: &mut S,
) -> Result<(), RunError>
    ensures { Runs READS (begun size) result
        (devices_of R.Source W.Sink reader.old writer.old (S.given shelf.old))
        (devices_of R.Source W.Sink reader.new writer.new (S.given shelf.new)) }
{
    run_within(alloc, READS, size, reader, writer, shelf)
}

/// As [`run`], with this number of reads at most.
pub fn run_within<A: Allocator + Copy, R: Source, W: Sink, S: Shelf<A>>(
    alloc: A,
    limit: u64,
    size: Size,
    reader: &mut R,
    writer: &mut W,
    shelf: &mut S,
) -> Result<(), RunError>
    ensures { Runs limit (begun size) result
        (devices_of R.Source W.Sink reader.old writer.old (S.given shelf.old))
        (devices_of R.Source W.Sink reader.new writer.new (S.given shelf.new)) }
{
    let mut session = Session::new(alloc, size);
    run_from(limit, &mut session, reader, writer, shelf)
}

/// Answers the lines of a text over a session, up to `quit`. A last line without a line end is answered too.
/// So a caller that sends a text in pieces must cut it at line ends. After a fault the session has
/// carried out the command whose answer isn't whole. The caller may use it for the next text.
pub fn answer_lines<A: Allocator + Copy, W: Sink, S: Shelf<A>>(
    session: &mut Session<A>,
    text: &[u8],
    writer: &mut W,
    shelf: &mut S,
) -> Result<Flow, WriteFault>
    ensures answered { AnswersLines result session.old (lines text.now) session.new
        (S.given shelf.old) (S.given shelf.new) (W.taken writer.old) (W.taken writer.new) }
    ensures held { OnOk result (W.held writer.old ≡ 0 → W.held writer.new ≡ 0) }
    ensures failures { W.failures writer.new ≡ failures_after result (W.failures writer.old) }
{
    let mut line = Line::new();
    match feed(session, &mut line, text, writer, shelf) {
        Ok(Flow::More) => end_input(session, &line, writer, shelf),
        Ok(Flow::Quit) => Ok(Flow::Quit),
        Err(WriteFault) => Err(WriteFault),
    }
}

/// As [`run_within`], with a session that is begun already.
fn run_from<A: Allocator + Copy, R: Source, W: Sink, S: Shelf<A>>(
    limit: u64,
    session: &mut Session<A>,
    reader: &mut R,
    writer: &mut W,
    shelf: &mut S,
) -> Result<(), RunError>
    ensures { Runs limit session.old result
        (devices_of R.Source W.Sink reader.old writer.old (S.given shelf.old))
        (devices_of R.Source W.Sink reader.new writer.new (S.given shelf.new)) }
{
    laws::some_reply();
    let mut line = Line::new();
    let mut buffer = [0u8; CHUNK];
    for _ in 0..limit {
        let count = match reader.pull(&mut buffer) {
            Ok(count) => count,
            Err(Failed) => return Err(RunError::Read),
        };
        if count == 0 {
            match end_input(session, &line, writer, shelf) {
                Ok(_) => return Ok(()),
                Err(WriteFault) => return Err(RunError::Write),
            }
        }
        let (chunk, _) = buffer.split_at(count);
        match feed(session, &mut line, chunk, writer, shelf) {
            Ok(Flow::More) => {}
            Ok(Flow::Quit) => return Ok(()),
            Err(WriteFault) => return Err(RunError::Write),
        }
    }
    Err(RunError::Endless)
}

/// Takes more bytes of the input, and answers each line that they complete.
fn feed<A: Allocator + Copy, W: Sink, S: Shelf<A>>(
    session: &mut Session<A>,
    line: &mut Line,
    chunk: &[u8],
    writer: &mut W,
    shelf: &mut S,
) -> Result<Flow, WriteFault>
    ensures proceeds { (start : Standing) (read : List ℕ) (given : Option (List Pair))
        (taken : Option (List ℕ)) →
        Progress start read line.old session.old given
        (S.given shelf.old) taken (W.taken writer.old) →
        Proceeds result start (read ++ chunk.now) line.new session.new given
        (S.given shelf.new) taken (W.taken writer.new) }
    ensures held { OnOk result (W.held writer.old ≡ 0 → W.held writer.new ≡ 0) }
    ensures failures { W.failures writer.new ≡ failures_after result (W.failures writer.old) }
{
    let mut rest = chunk;
    while let Some(end) = memchr(b'\n', rest) {
        let (part, after) = rest.split_at(end);
        match end_line(session, line, part, writer, shelf) {
            Ok(Flow::More) => {}
            Ok(Flow::Quit) => return Ok(Flow::Quit),
            Err(WriteFault) => return Err(WriteFault),
        }
        rest = after.split_at(1).1;
    }
    line.extend(rest);
    Ok(Flow::More)
}

/// Takes the last bytes of a line, answers it, and begins the next.
fn end_line<A: Allocator + Copy, W: Sink, S: Shelf<A>>(
    session: &mut Session<A>,
    line: &mut Line,
    part: &[u8],
    writer: &mut W,
    shelf: &mut S,
) -> Result<Flow, WriteFault>
    requires { HasNoEnd part.now }
    ensures proceeds { (start : Standing) (read : List ℕ) (given : Option (List Pair))
        (taken : Option (List ℕ)) →
        Progress start read line.old session.old given
        (S.given shelf.old) taken (W.taken writer.old) →
        Proceeds result start (read ++ (part.now ++ 10 ∷ [])) line.new session.new given
        (S.given shelf.new) taken (W.taken writer.new) }
    ensures held { OnOk result (W.held writer.old ≡ 0 → W.held writer.new ≡ 0) }
    ensures failures { W.failures writer.new ≡ failures_after result (W.failures writer.old) }
{
    line.extend(part);
    let result = answer_line(session, line, writer, shelf);
    line.clear();
    result
}

/// Answers a last line without a line end, if there is one.
fn end_input<A: Allocator + Copy, W: Sink, S: Shelf<A>>(
    session: &mut Session<A>,
    line: &Line,
    writer: &mut W,
    shelf: &mut S,
) -> Result<Flow, WriteFault>
    ensures finishes { (start : Standing) (read : List ℕ) (given : Option (List Pair))
        (taken : Option (List ℕ)) →
        Progress start read line.now session.old given
        (S.given shelf.old) taken (W.taken writer.old) →
        AnswersLines result start (lines read) session.new given (S.given shelf.new)
        taken (W.taken writer.new) }
    ensures held { OnOk result (W.held writer.old ≡ 0 → W.held writer.new ≡ 0) }
    ensures failures { W.failures writer.new ≡ failures_after result (W.failures writer.old) }
{
    answer_line(session, line, writer, shelf)
}

/// Fetches the file that a line asks for, answers the line, and flushes the answer.
fn answer_line<A: Allocator + Copy, W: Sink, S: Shelf<A>>(
    session: &mut Session<A>,
    line: &Line,
    writer: &mut W,
    shelf: &mut S,
) -> Result<Flow, WriteFault>
    ensures responds { Responds session.old session.new line.now result (S.given shelf.old)
        (S.given shelf.new) (W.taken writer.old) (W.taken writer.new) }
    ensures discarded { has_bytes line.now.text ≡ false → result ≡ Ok Flow.More }
    ensures held { OnOk result (W.held writer.old ≡ 0 → W.held writer.new ≡ 0) }
    ensures failures { W.failures writer.new ≡ failures_after result (W.failures writer.old) }
{
    let fetched = fetch_for(line, shelf);
    match session.answer(line, fetched, writer) {
        Ok(flow) => flush_answer(line, flow, writer),
        Err(WriteFault) => Err(WriteFault),
    }
}

fn fetch_for<A: Allocator + Copy, S: Shelf<A>>(line: &Line, shelf: &mut S) -> Fetched<A>
    ensures { Fetches line.now (content_of result) (S.given shelf.old) (S.given shelf.new) }
{
    match wants(line) {
        Some(name) => shelf.fetch(name),
        None => Fetched::None,
    }
}

/// Flushes the answer to a line, where it has one.
fn flush_answer<W: Sink>(line: &Line, flow: Flow, writer: &mut W) -> Result<Flow, WriteFault>
    ensures { Flushes W.Sink line.now.text flow result writer.old writer.new }
{
    if !line.has_words() {
        return Ok(flow);
    }
    match writer.flush() {
        Ok(()) => Ok(flow),
        Err(Failed) => Err(WriteFault),
    }
}
