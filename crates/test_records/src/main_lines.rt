//! Walks along main lines: records, and what a walk meets of each.
use go_sgf::{Checked, MainLine, check, is_named, read};
use std::alloc::{AllocError, Global};
use std::test::Fail;

/// Records, and what a walk meets: `;` for a node, and each name and value as it is written.
const LINES: &[(&[u8], &[u8])] = &[
    (b"(;)", b";"),
    (b"(;GM[1]SZ[9];B[ee];W[])", b";GM[1]SZ[9];B[ee];W[]"),
    (b"(;;;)", b";;;"),
    (
        b"(;FF[4](;B[aa];W[bb](;B[cc])(;B[dd]))(;B[ee]))(;GM[2])",
        b";FF[4];B[aa];W[bb];B[cc]",
    ),
    (b"(;A[b](;C[d](;E[f]))(;G[h]))", b";A[b];C[d];E[f]"),
    (
        b"a (b) ( ; AddBlack [aa]\n[bb]\t C[(;)\\]\\\\] ( ; W [] ) ) rest",
        b";AddBlack[aa][bb]C[(;)\\]\\\\];W[]",
    ),
    (
        b"(;\r\n\tB \x0b[aa]\x0c [bb]  ;\n;  \nW[cc]\n\n(\r\n; C [d]\n ) \n(;E[f])\n)\n",
        b";B[aa][bb];;W[cc];C[d]",
    ),
];

/// More than the steps of any of these walks.
const STEPS: u8 = 20;

/// Puts the values of a property that are left.
fn put_values(text: &mut Vec<u8, Global>, line: &mut MainLine<'_>) -> Result<(), AllocError> {
    for _ in 0..STEPS {
        let Some(value) = line.next_value() else {
            return Ok(());
        };
        text.extend_from_slice(b"[")?;
        text.extend_from_slice(value)?;
        text.extend_from_slice(b"]")?;
    }
    Ok(())
}

/// Puts the properties of a node that are left.
fn put_properties(text: &mut Vec<u8, Global>, line: &mut MainLine<'_>) -> Result<(), AllocError> {
    for _ in 0..STEPS {
        let Some(name) = line.next_name() else {
            return Ok(());
        };
        text.extend_from_slice(name)?;
        put_values(text, line)?;
    }
    Ok(())
}

/// What a walk along the main line of a source meets.
fn passed(alloc: Global, source: &Checked<'_>) -> Result<Vec<u8, Global>, AllocError> {
    let mut text = Vec::new(alloc);
    let mut line = MainLine::of(source);
    for _ in 0..STEPS {
        if !line.next_node() {
            return Ok(text);
        }
        text.extend_from_slice(b";")?;
        put_properties(&mut text, &mut line)?;
    }
    Ok(text)
}

#[test]
fn main_lines(rt: HostRuntime) -> Result<(), Fail> {
    for (row, (source, text)) in LINES.iter().enumerate() {
        let checked = check(source).expect(&rt, "a record");
        let shown = passed(rt.alloc(), &checked)?;
        assert!(rt; shown.as_slice() == *text, "row {row}");
        let collection = read(rt.alloc(), source).expect(&rt, "a record");
        assert!(rt; collection.source() == *source, "row {row}");
        let shown = passed(rt.alloc(), &collection.checked())?;
        assert!(rt; shown.as_slice() == *text, "row {row}");
    }
    Ok(())
}

#[test]
fn a_walk_goes_on_by_itself(rt: HostRuntime) {
    let checked = check(b"(;B[aa][bb]W[cc])").expect(&rt, "a record");
    let mut line = MainLine::of(&checked);
    assert!(rt; line.next_node() && line.next_name() == Some(b"B".as_slice()));
    let mut other = line.fork();
    assert!(rt; line.next_value() == Some(b"aa".as_slice()));
    assert!(rt; line.next_value() == Some(b"bb".as_slice()));
    assert!(rt; line.next_value().is_none() && line.next_name() == Some(b"W".as_slice()));
    assert!(rt; other.next_value() == Some(b"aa".as_slice()));
}

/// A step passes over what is left before it: values, properties or both.
#[test]
fn a_step_passes_what_is_left(rt: HostRuntime) {
    let checked = check(b"(;A[a][b]B[c] ;C[d][e](;D[f];)(;E[g]))").expect(&rt, "a record");
    let mut nodes = MainLine::of(&checked);
    for _ in 0..4 {
        assert!(rt; nodes.next_node());
    }
    assert!(rt; !nodes.next_node() && !nodes.next_node() && nodes.next_name().is_none());
    let mut names = MainLine::of(&checked);
    assert!(rt; names.next_node() && names.next_name() == Some(b"A".as_slice()));
    assert!(rt; names.next_name() == Some(b"B".as_slice()) && names.next_name().is_none());
    assert!(rt; names.next_name().is_none() && names.next_node());
    assert!(rt; names.next_name() == Some(b"C".as_slice()));
    assert!(rt; names.next_value() == Some(b"d".as_slice()) && names.next_node());
    assert!(rt; names.next_name() == Some(b"D".as_slice()) && names.next_node());
    assert!(rt; names.next_name().is_none() && !names.next_node());
}

#[test]
fn names_without_their_small_letters(rt: HostRuntime) {
    assert!(rt; is_named(b"AddBlack", b"AB") && is_named(b"AB", b"AB"));
    assert!(rt; !is_named(b"AB", b"A") && !is_named(b"A", b"AB") && !is_named(b"Ab", b"AB"));
}
