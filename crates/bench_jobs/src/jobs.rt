//! What is timed: each job by the public calls that its users make.
use crate::digest::Digest;
use crate::drawn::usual_size;
use crate::long::play_long;
use crate::random::Random;
use crate::records::{Archive, put_record};
use crate::scripts::{Lines, Script};
use goref::{ToolError, judge_run, run, tidy_run};
use goref_streams::{Input, Output};
use std::alloc::{AllocError, Global};
use std::io::Write;

/// A job by its name, and how often it is done.
pub struct Job {
    pub name: &'static str,
    kind: Kind,
    pub times: u32,
}

/// What is done.
#[derive(Clone, Copy)]
enum Kind {
    /// Lines are answered.
    Answers(Script),
    /// Records are loaded by a session, and as many judged.
    Replays,
    /// Collections are tidied.
    Tidies,
    /// One game, with a thousand random plays for each time, taken back whole.
    Long,
}

pub const JOBS: &[Job] = &[
    Job {
        name: "lines",
        kind: Kind::Answers(Script::Referee),
        times: 12_000,
    },
    Job {
        name: "records",
        kind: Kind::Replays,
        times: 12_000,
    },
    Job {
        name: "choices",
        kind: Kind::Answers(Script::Choices),
        times: 520,
    },
    Job {
        name: "questions",
        kind: Kind::Answers(Script::Questions),
        times: 1_000,
    },
    Job {
        name: "tidy",
        kind: Kind::Tidies,
        times: 400,
    },
    Job {
        name: "long",
        kind: Kind::Long,
        times: 1_000,
    },
];

/// How many records a collection has, and how many of them are drawn for all collections.
const RECORDS: u32 = 1_000;

const DRAWN: u32 = 500;

/// How many plays a long game has for each time.
const PLAYS: u32 = 1_000;

/// Does a job a number of times with a seed, and gives the digest of all answers.
pub fn done(alloc: Global, job: &Job, times: u32, seed: u32) -> Option<u64> {
    let mut random = Random::new(seed);
    let mut digest = Digest::new();
    let end = match job.kind {
        Kind::Answers(script) => answer(alloc, script, times, random, &mut digest),
        Kind::Replays => replay(alloc, times, random, &mut digest),
        Kind::Tidies => tidy_all(alloc, times, &mut random, &mut digest),
        Kind::Long => { play_long(alloc, times.wrapping_mul(PLAYS), &mut random, &mut digest).ok() }
    };
    end?;
    Some(digest.number())
}

/// Has the lines of a script answered.
fn answer(
    alloc: Global,
    script: Script,
    games: u32,
    random: Random,
    digest: &mut Digest,
) -> Option<()> {
    let mut input = Input::new(Lines::new(alloc, script, games, random));
    let mut output = Output::new(digest);
    let mut shelf = Archive::new(alloc, random);
    run(alloc, usual_size(), &mut input, &mut output, &mut shelf).ok()
}

/// Loads records, and judges others.
fn replay(alloc: Global, records: u32, mut random: Random, digest: &mut Digest) -> Option<()> {
    answer(alloc, Script::Loads, records, random, digest)?;
    random.draw();
    for _ in 0..records {
        let mut text = Vec::new(alloc);
        put_record(&mut text, &mut random).ok()?;
        judge(alloc, text.as_slice(), digest)?;
    }
    Some(())
}

/// Judges a record, or tells why it can't be.
fn judge(alloc: Global, text: &[u8], digest: &mut Digest) -> Option<()> {
    match judge_to(alloc, text, digest) {
        Ok(()) => Some(()),
        Err(why) => write!(digest, "{why}").ok(),
    }
}

fn judge_to(alloc: Global, text: &[u8], digest: &mut Digest) -> Result<(), ToolError> {
    judge_run(alloc, &mut Input::new(text), &mut Output::new(digest))
}

/// Tidies collections of records that are drawn once.
fn tidy_all(alloc: Global, times: u32, random: &mut Random, digest: &mut Digest) -> Option<()> {
    let drawn = drawn_records(alloc, random).ok()?;
    for _ in 0..times {
        let text = collection(alloc, &drawn, random).ok()?;
        tidy(alloc, text.as_slice(), digest)?;
    }
    Some(())
}

fn tidy(alloc: Global, text: &[u8], digest: &mut Digest) -> Option<()> {
    tidy_run(alloc, &mut Input::new(text), &mut Output::new(digest)).ok()
}

/// The records of which collections are made.
fn drawn_records(alloc: Global, random: &mut Random) -> Result<Vec<Vec<u8>>, AllocError> {
    let mut drawn = Vec::new(alloc);
    for _ in 0..DRAWN {
        let mut text = Vec::new(alloc);
        put_record(&mut text, random)?;
        drawn.push(text)?;
    }
    Ok(drawn)
}

/// Records one after the other.
fn collection(
    alloc: Global,
    drawn: &Vec<Vec<u8>>,
    random: &mut Random,
) -> Result<Vec<u8>, AllocError> {
    let mut text = Vec::new(alloc);
    for _ in 0..RECORDS {
        if let Some(record) = drawn.get(random.below(DRAWN) as usize) {
            text.extend_from_slice(record.as_slice())?;
        }
    }
    Ok(text)
}
