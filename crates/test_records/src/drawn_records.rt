//! Random records, each with its canonical spelling. Both must be tidied to that spelling.
use crate::records::is_tidied;
use rand_core::Rng;
use rand_pcg::Pcg32;
use std::alloc::{AllocError, Global};
use std::test::Fail;

/// What there may be between two parts of a record.
const BLANKS: &[&[u8]] = &[b"", b"", b"", b" ", b"\n", b"\r\n\t", b"\x0b\x0c"];

/// Names as they are spelled, and as they are written.
const NAMES: &[(&[u8], &[u8])] = &[
    (b"B", b"B"),
    (b"W", b"W"),
    (b"C", b"C"),
    (b"AB", b"AB"),
    (b"AddWhite", b"AW"),
    (b"suPerkO", b"PO"),
    (b"MULTIGO", b"MULTIGO"),
];

/// Values, which are written as they are.
const VALUES: &[&[u8]] = &[
    b"",
    b"aa",
    b"a\\]b",
    b"\\\\",
    b"(;)[",
    b"A b\nc",
    b"sixteen bytes...",
    b"seventeen bytes..",
    b"more than forty bytes, with a \\] and \\\\ in it",
];

/// Draws a number below `count`.
fn any_of(random: &mut Pcg32, count: usize) -> usize {
    let drawn = random.next_u32() as usize;
    drawn.checked_rem(count).unwrap_or(0)
}

fn any_bytes<'a>(random: &mut Pcg32, list: &[&'a [u8]]) -> &'a [u8] {
    match list.get(any_of(random, list.len())) {
        Some(bytes) => bytes,
        None => b"",
    }
}

/// A random record, as it is spelled and as it is to be written.
#[derive(Drop)]
struct Drawn {
    source: Vec<u8>,
    text: Vec<u8>,
}

/// Adds a part, with some white space after it.
fn put(
    random: &mut Pcg32,
    drawn: &mut Drawn,
    spelled: &[u8],
    written: &[u8],
) -> Result<(), AllocError> {
    drawn.source.extend_from_slice(spelled)?;
    drawn.source.extend_from_slice(any_bytes(random, BLANKS))?;
    drawn.text.extend_from_slice(written)
}

/// Draws a value.
fn put_value(random: &mut Pcg32, drawn: &mut Drawn) -> Result<(), AllocError> {
    let value = any_bytes(random, VALUES);
    drawn.source.push(b'[')?;
    drawn.source.extend_from_slice(value)?;
    put(random, drawn, b"]", b"[")?;
    drawn.text.extend_from_slice(value)?;
    drawn.text.push(b']')?;
    Ok(())
}

/// Draws a property of one value or more.
fn put_property(random: &mut Pcg32, drawn: &mut Drawn) -> Result<(), AllocError> {
    if let Some((spelled, written)) = NAMES.get(any_of(random, NAMES.len())) {
        put(random, drawn, spelled, written)?;
        for _ in 0..=any_of(random, 4) / 2 {
            put_value(random, drawn)?;
        }
    }
    Ok(())
}

/// Draws a node.
fn put_node(random: &mut Pcg32, drawn: &mut Drawn) -> Result<(), AllocError> {
    put(random, drawn, b";", b";")?;
    for _ in 0..any_of(random, 4) {
        put_property(random, drawn)?;
    }
    Ok(())
}

/// Draws a tree by this many steps, each a node or a bracket.
fn put_tree(random: &mut Pcg32, drawn: &mut Drawn, steps: usize) -> Result<(), AllocError> {
    put(random, drawn, b"(", b"(")?;
    put_node(random, drawn)?;
    let mut depth = 1u32;
    let mut has_child = false;
    for _ in 0..steps {
        match any_of(random, 8) {
            0 | 1 if depth < 30 => {
                put(random, drawn, b"(", b"(")?;
                put_node(random, drawn)?;
                depth += 1;
                has_child = false;
            }
            2 | 3 if depth > 1 => {
                put(random, drawn, b")", b")")?;
                depth -= 1;
                has_child = true;
            }
            _ if has_child => {}
            _ => put_node(random, drawn)?,
        }
    }
    for _ in 0..depth {
        put(random, drawn, b")", b")")?;
    }
    drawn.text.push(b'\n')?;
    Ok(())
}

/// Draws a record of one tree or more, with something before and after it.
fn any_record(random: &mut Pcg32, alloc: Global) -> Result<Drawn, AllocError> {
    let mut drawn = Drawn {
        source: Vec::new(alloc),
        text: Vec::new(alloc),
    };
    let before = any_bytes(random, &[b"", b"x(", b"\xef\xbb\xbf"]);
    put(random, &mut drawn, before, b"")?;
    for _ in 0..=any_of(random, 3) {
        let steps = any_of(random, 60);
        put_tree(random, &mut drawn, steps)?;
    }
    let after = any_bytes(random, &[b"", b")", b"end (a)"]);
    put(random, &mut drawn, after, b"")?;
    Ok(drawn)
}

#[test]
fn records_are_tidied(rt: HostRuntime) -> Result<(), Fail> {
    let mut random = Pcg32::new(4, 9);
    for number in 0..400 {
        let drawn = any_record(&mut random, rt.alloc())?;
        let (source, text) = (drawn.source.as_slice(), drawn.text.as_slice());
        assert!(rt; is_tidied(rt.alloc(), source, text), "record {number}");
        assert!(rt; is_tidied(rt.alloc(), text, text), "record {number}");
    }
    Ok(())
}
