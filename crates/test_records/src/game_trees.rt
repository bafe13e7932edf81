//! The game trees of a text, found one after another, and where each of them begins and ends.
use crate::records::copies;
use go_sgf::{SgfError, Tree, TreeSpan, next_tree, read, tree_begin};
use std::alloc::{AllocError, Global};
use std::process::Abort;
use std::test::Fail;

/// What is to be found: where a tree begins and ends, no tree, or where a tree begins that isn't whole, and
/// why not.
#[derive(Clone, Copy)]
enum Found {
    Tree(usize, usize),
    None,
    Broken(usize, SgfError),
}

/// Whether this is found in a source from a place on.
fn is_found(source: &[u8], from: usize, found: Found) -> bool {
    let next = next_tree(source, from);
    match found {
        Found::Tree(begin, end) => {
            next == Ok(Some(TreeSpan { begin, end })) && tree_begin(source, from) == Some(begin)
        }
        Found::None => next == Ok(None) && tree_begin(source, from) == None,
        Found::Broken(begin, why) => { next == Err(why) && tree_begin(source, from) == Some(begin) }
    }
}

/// Sources, the place from which on a tree is searched, and what is found.
const FINDS: &[(&[u8], usize, Found)] = &[
    (b"", 0, Found::None),
    (b"", 7, Found::None),
    (b"()", 0, Found::None),
    (b"(;)", 0, Found::Tree(0, 3)),
    (b"(;)", 1, Found::None),
    (b"(;)", 3, Found::None),
    (b"(;)", 18_446_744_073_709_551_615, Found::None),
    (b"( (;)", 0, Found::Tree(2, 5)),
    (b" ( ; ) \n(;) ", 0, Found::Tree(1, 6)),
    (b" ( ; ) \n(;) ", 6, Found::Tree(8, 11)),
    (b" ( ; ) \n(;) ", 11, Found::None),
    (b"x(;GM[1])y(;B[aa])", 0, Found::Tree(1, 9)),
    (b"x(;GM[1])y(;B[aa])", 1, Found::Tree(1, 9)),
    (b"x(;GM[1])y(;B[aa])", 2, Found::Tree(10, 18)),
    (b"x(;GM[1])y(;B[aa])", 9, Found::Tree(10, 18)),
    (b"x(;GM[1])y(;B[aa])", 11, Found::None),
    (b"(;)(B)(;)", 3, Found::Tree(6, 9)),
    (b"(;B[aa](;W[bb]))", 0, Found::Tree(0, 16)),
    (b"(;B[aa](;W[bb]))", 1, Found::Tree(7, 15)),
    (b"(;C[a\\])])(;)", 0, Found::Tree(0, 10)),
    (b"(;C[(;)])", 0, Found::Tree(0, 9)),
    (b"(;C[(;)])", 1, Found::Tree(4, 7)),
    (b"(;)(;B[aa]7)(;)", 0, Found::Tree(0, 3)),
    (
        b"(;)(;B[aa]7)(;)",
        3,
        Found::Broken(3, SgfError::Unexpected(10)),
    ),
    (b"(;)(;B[aa]7)(;)", 4, Found::Tree(12, 15)),
    (b"(;)x(;B[aa]", 3, Found::Broken(4, SgfError::EndInside(11))),
    (b"(;)x(;B[aa]", 5, Found::None),
];

#[test]
fn the_next_tree(rt: HostRuntime) {
    for (row, (source, from, found)) in FINDS.iter().enumerate() {
        assert!(rt; is_found(source, *from, *found), "row {row}");
    }
}

/// How many trees begin one in another after a first one, whether all are closed, the place from
/// which on a tree is searched, and what is found.
const NESTED: &[(u32, bool, usize, Found)] = &[
    (1_000, true, 3, Found::Tree(3, 3_003)),
    (
        1_000,
        false,
        3,
        Found::Broken(3, SgfError::EndInside(2_003)),
    ),
    (1_001, true, 3, Found::Broken(3, SgfError::TooDeep(2_003))),
    (1_001, true, 4, Found::Tree(5, 3_005)),
];

#[test]
fn the_next_tree_of_nested_ones(rt: HostRuntime) -> Result<(), Fail> {
    for (row, (depth, is_closed, from, found)) in NESTED.iter().enumerate() {
        let suffix = copies(rt.alloc(), b")", if *is_closed { *depth } else { 0 }, b"")?;
        let nested = copies(rt.alloc(), b"(;", *depth, suffix.as_slice())?;
        let source = copies(rt.alloc(), b"(;)", 1, nested.as_slice())?;
        assert!(rt; is_found(source.as_slice(), *from, *found), "row {row}");
    }
    Ok(())
}

#[test]
fn a_tree_far_inside(rt: HostRuntime) -> Result<(), Fail> {
    let source = copies(rt.alloc(), b" ", 16_777_217, b"(;)")?;
    let found = Found::Tree(16_777_217, 16_777_220);
    assert!(rt; is_found(source.as_slice(), 0, found));
    Ok(())
}

/// How many games the archives have.
const GAMES: usize = 200_000;

/// The text of a game of the archive, by its number: its comment is as long as the number's last
/// digit says.
fn push_game(text: &mut Vec<u8>, number: usize) -> Result<(), AllocError> {
    text.extend_from_slice(b"(;C[")?;
    for _ in 0..number % 10 {
        text.push(b'x')?;
    }
    text.extend_from_slice(b"])")?;
    Ok(())
}

/// An archive: games one after another, with this before each.
fn archive(alloc: Global, before: &[u8]) -> Result<Vec<u8>, AllocError> {
    let mut text = Vec::new(alloc);
    for number in 0..GAMES {
        text.extend_from_slice(before)?;
        push_game(&mut text, number)?;
    }
    Ok(text)
}

/// Where a game of an archive begins and ends, by its number and its beginning: it has six bytes besides its
/// comment.
fn span_of(number: usize, begin: usize) -> TreeSpan {
    TreeSpan {
        begin,
        end: begin.saturating_add(number % 10).saturating_add(6),
    }
}

/// Asserts that a walk over an archive meets each of its games, with `between` bytes before each.
fn meets_all(rt: &impl Abort, source: &[u8], between: usize) {
    let mut from = 0usize;
    for number in 0..GAMES {
        let span = span_of(number, from.saturating_add(between));
        assert!(rt; next_tree(source, from) == Ok(Some(span)), "game {number}");
        from = span.end;
    }
    assert!(rt; next_tree(source, from) == Ok(None));
}

/// What there may be before each game of an archive.
const BETWEEN: &[&[u8]] = &[b"", b"\n", b"(no game)"];

#[test]
fn walks_over_archives(rt: HostRuntime) -> Result<(), Fail> {
    for before in BETWEEN {
        let source = archive(rt.alloc(), before)?;
        meets_all(&rt, source.as_slice(), before.len());
    }
    Ok(())
}

/// How long the first value of a tree is.
fn comment_length(tree: &Tree<'_, Global>) -> Option<usize> {
    let node = tree.nodes().first()?;
    let property = node.properties().first()?;
    Some(property.values().first()?.len())
}

/// Asserts that a walk over a source meets these trees, by how long their comments are.
fn meets(rt: &impl Abort, source: &[u8], trees: &[Tree<'_, Global>]) {
    let mut from = 0usize;
    for (number, tree) in trees.iter().enumerate() {
        let next = next_tree(source, from).expect(rt, "whole trees");
        let span = next.expect(rt, "a tree more");
        let comment = span.end.saturating_sub(span.begin).saturating_sub(6);
        assert!(rt; comment_length(tree) == Some(comment), "tree {number}");
        from = span.end;
    }
}

#[test]
fn a_walk_meets_what_is_read(rt: HostRuntime) -> Result<(), Fail> {
    let source = archive(rt.alloc(), b"\n")?;
    let collection = read(rt.alloc(), source.as_slice()).expect(&rt, "a record");
    assert_eq!(rt; collection.trees().len(), GAMES);
    meets(&rt, source.as_slice(), collection.trees());
    Ok(())
}
