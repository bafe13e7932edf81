//! Tests of the devices over streams: how many writes an answer takes, and what failed or interrupted calls
//! do.
use go_board::{Failed, Sink, Source, send};
use goref_streams::{Input, Output};
use std::alloc::{AllocError, Global};
use std::io::{self, ErrorKind, Read, Write};
use std::test::Fail;

/// A stream that keeps the bytes of each write, and takes at most a number of them.
#[derive(Drop)]
struct Writes {
    bytes: Vec<u8>,
    lengths: Vec<usize>,
    refused: usize,
}

impl Writes {
    fn new(alloc: Global, refused: usize) -> Writes {
        Writes {
            bytes: Vec::new(alloc),
            lengths: Vec::new(alloc),
            refused,
        }
    }
}

impl Write for Writes {
    fn write(&mut self, bytes: &[u8]) -> io::Result<usize> {
        self.lengths.push(bytes.len())?;
        if self.lengths.len() == self.refused {
            return Err(io::Error::from(io::ErrorKind::StorageFull));
        }
        self.bytes.extend_from_slice(bytes)?;
        Ok(bytes.len())
    }

    fn flush(&mut self) -> io::Result<()> {
        Ok(())
    }
}

/// A text of this many letters.
fn letters(alloc: Global, count: usize) -> Result<Vec<u8>, AllocError> {
    let mut text = Vec::new(alloc);
    for place in 0..count {
        text.push(b'a' + (place % 26) as u8)?;
    }
    Ok(text)
}

#[test]
fn an_answer_leaves_in_one_write(rt: HostRuntime) -> Result<(), Fail> {
    let mut writes = Writes::new(rt.alloc(), 0);
    let mut output = Output::new(&mut writes);
    for piece in [b"= ".as_slice(), b"B2", b"\n\n"] {
        assert!(rt; send(piece, &mut output).is_ok());
    }
    assert!(rt; output.flush().is_ok());
    assert!(rt; send(b"=\n\n", &mut output).is_ok());
    assert!(rt; output.flush().is_ok());
    assert!(rt; output.flush().is_ok());
    drop(output);
    assert!(rt; writes.lengths.as_slice() == [6, 3].as_slice());
    assert!(rt; writes.bytes.as_slice() == b"= B2\n\n=\n\n".as_slice());
    Ok(())
}

#[test]
fn an_answer_in_many_pieces_leaves_in_one_write(rt: HostRuntime) -> Result<(), Fail> {
    let mut writes = Writes::new(rt.alloc(), 0);
    let mut output = Output::new(&mut writes);
    for _ in 0..400u32 {
        assert!(rt; send(b" T19", &mut output).is_ok());
    }
    assert!(rt; output.flush().is_ok());
    drop(output);
    assert!(rt; writes.lengths.as_slice() == [1_600].as_slice());
    Ok(())
}

#[test]
fn a_long_answer_leaves_in_several(rt: HostRuntime) -> Result<(), Fail> {
    let text = letters(rt.alloc(), 40_000)?;
    let mut writes = Writes::new(rt.alloc(), 0);
    let mut output = Output::new(&mut writes);
    assert!(rt; send(b"= ", &mut output).is_ok());
    assert!(rt; send(text.as_slice(), &mut output).is_ok());
    assert!(rt; output.flush().is_ok());
    drop(output);
    assert!(rt; writes.lengths.as_slice() == [16_384, 16_384, 7_234].as_slice());
    assert!(rt; writes.bytes.len() == 40_002);
    assert!(rt; writes.bytes.as_slice().ends_with(text.as_slice()));
    Ok(())
}

#[test]
fn a_refused_write_is_told(rt: HostRuntime) -> Result<(), Fail> {
    let text = letters(rt.alloc(), 17_000)?;
    let mut writes = Writes::new(rt.alloc(), 1);
    let mut output = Output::new(&mut writes);
    assert!(rt; send(text.as_slice(), &mut output).is_err());
    assert!(rt; output.flush().is_ok());
    drop(output);
    assert!(rt; writes.bytes.is_empty());
    Ok(())
}

#[test]
fn input_comes_as_the_stream_gives_it(rt: HostRuntime) {
    let mut input = Input::new(b"undo\n".as_slice());
    let mut buffer = [0u8; 4];
    assert!(rt; input.pull(&mut buffer) == Ok(4));
    assert!(rt; buffer.as_slice() == b"undo".as_slice());
    assert!(rt; input.pull(&mut buffer) == Ok(1));
    assert!(rt; input.pull(&mut buffer) == Ok(0));
}

#[test]
fn reads_of_each_length(rt: HostRuntime) -> Result<(), Fail> {
    let text = letters(rt.alloc(), 4_200)?;
    let mut buffer = [0u8; 4_096];
    for count in 0..=4_200usize {
        let prefix = text.as_slice().split_at(count.min(text.len())).0;
        let mut input = Input::new(prefix);
        assert!(rt;
            input.pull(&mut buffer) == Ok(count.min(4_096)),
            "{count} bytes"
        );
    }
    Ok(())
}

/// A stream of one byte, whose first reads are interrupted.
#[derive(Drop)]
struct Interrupted {
    left: u32,
    why: ErrorKind,
}

impl Read for Interrupted {
    fn read(&mut self, buffer: &mut [u8]) -> io::Result<usize> {
        if self.left > 0 {
            self.left -= 1;
            return Err(io::Error::from(self.why));
        }
        let count = buffer.len().min(1);
        buffer[..count].fill(b'u');
        Ok(count)
    }
}

#[test]
fn an_interrupted_read_is_tried_again(rt: HostRuntime) {
    for left in 0..200u32 {
        let why = ErrorKind::Interrupted;
        let mut input = Input::new(Interrupted { left, why });
        let mut buffer = [0u8; 4];
        assert!(rt; input.pull(&mut buffer) == Ok(1), "{left} interruptions");
        assert!(rt; buffer[0] == b'u');
    }
}

#[test]
fn another_failed_read_is_told(rt: HostRuntime) {
    for why in [ErrorKind::WouldBlock, ErrorKind::Other, ErrorKind::TimedOut] {
        let mut input = Input::new(Interrupted { left: 1, why });
        let mut buffer = [0u8; 4];
        assert!(rt; input.pull(&mut buffer) == Err(Failed));
        assert!(rt; input.pull(&mut buffer) == Ok(1));
    }
}
