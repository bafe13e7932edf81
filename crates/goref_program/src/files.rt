//! The files that a session asks for.
ghost use Rattle.std.specs.Prelude.{◌≡◌, IfErr, IfOk, None};
ghost use Rattle.goref.specs.Contents.{content_of};
ghost use Rattle.goref_program.specs.Files.{content_of_bytes, content_of_fault};

use go_sgf::MAX_RECORD;
use goref::{Fetched, Shelf, ToolError, read_input};
use goref_streams::Input;
use std::alloc::Allocator;
use std::fs;
use std::rt::Files;

/// The files of the system, by their names. A name is a path in UTF-8. What a file holds is kept
/// with this allocator.
#[derive(Drop)]
pub struct NamedFiles<'a, A, F> {
    alloc: A,
    system: &'a F,
}

impl<'a, A, F> NamedFiles<'a, A, F> {
    /// The files of this system.
    pub fn new(alloc: A, system: &'a F) -> NamedFiles<'a, A, F> {
        NamedFiles { alloc, system }
    }
}

impl<A: Allocator + Copy, F: Files> Shelf<A> for NamedFiles<'_, A, F> {
    ghost given = { λ _. None };

    fn fetch(&mut self, name: &[u8]) -> Fetched<A> {
        match std::str::from_utf8(name) {
            Ok(path) => file_at(self.alloc, self.system, path),
            Err(_) => Fetched::Missing,
        }
    }
}

/// The file at a path, `Missing` if it can't be opened or read. Anything but a regular file is missing too:
/// to open a pipe, or to read from a terminal, may wait for ever.
fn file_at<A: Allocator + Copy, F: Files>(alloc: A, system: &F, path: &str) -> Fetched<A> {
    if !is_regular(system, path) {
        return Fetched::Missing;
    }
    match fs::open(system, path) {
        Ok(file) => {
            let mut input = Input::new(file);
            fetched(read_input(alloc, &mut input))
        }
        Err(_) => Fetched::Missing,
    }
}

/// Whether there is a regular file at a path, by the system's answer.
fn is_regular<F: Files>(system: &F, path: &str) -> bool {
    match fs::metadata(system, path) {
        Ok(about) => about.is_file(),
        Err(_) => false,
    }
}

/// What is fetched, by the result of reading a file.
fn fetched<A: Allocator>(outcome: Result<Vec<u8, A>, ToolError>) -> Fetched<A>
    ensures bytes { IfOk outcome (λ bytes. content_of result ≡ content_of_bytes bytes.items) }
    ensures fault { IfErr outcome (λ why. content_of result ≡ content_of_fault why) }
{
    match outcome {
        Ok(bytes) if bytes.len() > MAX_RECORD => Fetched::TooLarge,
        Ok(bytes) => Fetched::Bytes(bytes),
        Err(ToolError::Memory) => Fetched::Memory,
        Err(_) => Fetched::Missing,
    }
}
