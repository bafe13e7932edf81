//! The jobs that people wait for, each on inputs that are drawn from a seed, to be timed. Called as
//! `bench_jobs JOB SEED` it prints a digest of all that goref answers, and as `bench_jobs` a digest of
//! each job done once.
#![tactic(auto)]

mod digest;
mod drawn;
mod jobs;
mod long;
mod random;
mod records;
mod scripts;
mod texts;

use jobs::{JOBS, Job};
use std::process::ExitCode;

fn main(rt: HostRuntime) -> ExitCode {
    match told(&rt) {
        Some(()) => ExitCode::SUCCESS,
        None => ExitCode::FAILURE,
    }
}

/// Does what the words ask for, and prints it.
fn told(rt: &HostRuntime) -> Option<()> {
    let words = std::env::args(rt)
        .ok()?
        .collect::<Vec<String>>(rt.alloc())
        .ok()?;
    let Some(name) = words.get(1) else {
        return tell_each(rt);
    };
    let seed = words.get(2)?.as_str().parse::<u32>().ok()?;
    for job in JOBS {
        if job.name == name.as_str() {
            return tell(rt, job, job.times, seed);
        }
    }
    None
}

fn tell_each(rt: &HostRuntime) -> Option<()> {
    for job in JOBS {
        tell(rt, job, 1, 1)?;
    }
    Some(())
}

fn tell(rt: &HostRuntime, job: &Job, times: u32, seed: u32) -> Option<()> {
    let number = jobs::done(rt.alloc(), job, times, seed)?;
    println!(rt; "{} {number:016x}", job.name).ok()
}
