//! Tests of the devices themselves: pieces, chosen failures, counts, and bytes that are held back.
use crate::{HoldingWriter, NotingReader, Reader, Writer};
use go_board::{Failed, Sink, Source, send};
use std::cell::Cell;
use std::process::Abort;

/// Asserts what the next pull into four bytes gives.
fn pulls(rt: &impl Abort, reader: &mut Reader<'_>, piece: &[u8]) {
    let mut buffer = [0u8; 4];
    assert!(rt; reader.pull(&mut buffer) == Ok(piece.len()));
    assert!(rt; buffer.starts_with(piece));
}

#[test]
fn a_text_is_read_in_pieces(rt: HostRuntime) {
    let mut reader = Reader::new(b"play b e5\n").in_pieces_of(3);
    for piece in [b"pla".as_slice(), b"y b", b" e5", b"\n", b"", b""] {
        pulls(&rt, &mut reader, piece);
    }
    let mut whole = Reader::new(b"undo\nquit");
    for piece in [b"undo".as_slice(), b"\nqui", b"t", b""] {
        pulls(&rt, &mut whole, piece);
    }
    assert!(rt; whole.pull_count() == 4);
}

#[test]
fn a_text_is_read_in_lines(rt: HostRuntime) {
    let mut reader = Reader::new(b"a\n\nb c d\nend").in_lines();
    for piece in [b"a\n".as_slice(), b"\n", b"b c ", b"d\n", b"end", b""] {
        pulls(&rt, &mut reader, piece);
    }
}

#[test]
fn one_pull_fails(rt: HostRuntime) {
    let mut reader = Reader::new(b"undo").in_pieces_of(1).failing_at(3);
    pulls(&rt, &mut reader, b"u");
    pulls(&rt, &mut reader, b"n");
    assert!(rt; reader.pull(&mut [0u8; 4]) == Err(Failed));
    pulls(&rt, &mut reader, b"d");
}

#[test]
fn a_text_is_taken_in_pieces(rt: HostRuntime) {
    let mut writer = Writer::new(rt.alloc()).in_pieces_of(2);
    assert!(rt; send(b"= B2\n\n", &mut writer).is_ok());
    assert!(rt; writer.flush().is_ok());
    assert!(rt; writer.bytes() == b"= B2\n\n".as_slice());
    assert!(rt; writer.put_count() == 3);
    assert!(rt; writer.flush_count() == 1);
}

#[test]
fn one_call_of_a_writer_fails(rt: HostRuntime) {
    let mut failing = Writer::new(rt.alloc()).in_pieces_of(2).failing_at_put(2);
    assert!(rt; send(b"= B2\n\n", &mut failing).is_err());
    assert!(rt; failing.bytes() == b"= ".as_slice());
    let mut stalling = Writer::new(rt.alloc()).in_pieces_of(2).stalling_at_put(3);
    assert!(rt; send(b"= B2\n\n", &mut stalling).is_err());
    assert!(rt; stalling.bytes() == b"= B2".as_slice());
    let mut held = Writer::new(rt.alloc()).failing_at_flush(2);
    assert!(rt; held.flush() == Ok(()));
    assert!(rt; held.flush() == Err(Failed));
    assert!(rt; held.flush() == Ok(()));
}

#[test]
fn the_end_is_counted(rt: HostRuntime) {
    let mut reader = Reader::new(b"undo");
    assert!(rt; reader.pull(&mut []) == Ok(0));
    pulls(&rt, &mut reader, b"undo");
    assert!(rt; reader.end_count() == 0);
    pulls(&rt, &mut reader, b"");
    assert!(rt; reader.end_count() == 1);
    pulls(&rt, &mut reader, b"");
    assert!(rt; reader.end_count() == 2);
}

#[test]
fn bytes_are_held_back(rt: HostRuntime) {
    let passed = Cell::new(7);
    let mut writer = HoldingWriter::new(rt.alloc(), &passed);
    assert!(rt; writer.flush().is_ok());
    assert!(rt; send(b"=\n\n", &mut writer).is_ok());
    assert!(rt; passed.get() == 0);
    assert!(rt; writer.flush().is_ok());
    assert!(rt; passed.get() == 3);
    assert!(rt; send(b"= B2\n\n", &mut writer).is_ok());
    assert!(rt; writer.bytes() == b"=\n\n= B2\n\n".as_slice());
    assert!(rt; writer.ends() == [0, 3].as_slice());
}

#[test]
fn what_was_passed_on_is_noted(rt: HostRuntime) {
    let passed = Cell::new(0);
    let mut buffer = [0u8; 4];
    let reader = Reader::new(b"a\nb\n").in_lines();
    let mut noting = NotingReader::new(rt.alloc(), reader, &passed);
    assert!(rt; noting.pull(&mut buffer) == Ok(2));
    passed.set(5);
    assert!(rt; noting.pull(&mut buffer) == Ok(2));
    assert!(rt; noting.pull(&mut buffer) == Ok(0));
    assert!(rt; noting.seen() == [0, 5, 5].as_slice());
}
