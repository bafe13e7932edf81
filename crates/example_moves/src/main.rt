//! Prints the moves on the main line of a record, and how many nodes each of its trees has.
#![tactic(auto)]

use go_sgf::{Collection, MAX_DEPTH, Node, Tree, read};
use std::alloc::{Allocator, Global};
use std::io;
use std::io::Read;

/// The first value of the property of this name, if the node has one.
fn value_of<'a, A: Allocator + Copy>(node: &Node<'a, A>, name: &[u8]) -> Option<&'a [u8]> {
    let property = node.properties().iter().find(|property| property.is(name))?;
    property.values().first().copied()
}

/// Prints how many nodes each tree has, after as many spaces as it is deep.
fn show<A: Allocator + Copy>(rt: &HostRuntime, tree: &Tree<'_, A>, depth: usize) -> io::Result<()> {
    println!(rt; "{:depth$}{} nodes", "", tree.nodes().len())?;
    if depth < MAX_DEPTH {
        for child in tree.children() {
            show(rt, child, depth + 1)?;
        }
    }
    Ok(())
}

/// Prints the moves of a tree's own nodes.
fn show_moves(rt: &HostRuntime, tree: &Tree<'_, Global>) -> io::Result<()> {
    for node in tree.nodes() {
        if let Some(value) = value_of(node, b"B").or(value_of(node, b"W")) {
            println!(rt; "{}", String::from_utf8_lossy(rt.alloc(), value)?)?;
        }
    }
    Ok(())
}

/// Prints the moves on the main line: those of the first tree, of its first child, and so on.
fn show_main_line(rt: &HostRuntime, collection: &Collection<'_, Global>) -> io::Result<()> {
    let mut line = collection.trees().first();
    for _ in 0..MAX_DEPTH {
        let Some(tree) = line else { break };
        show_moves(rt, tree)?;
        line = tree.children().first();
    }
    Ok(())
}

fn main(rt: HostRuntime) -> io::Result<()> {
    let mut source = Vec::new(rt.alloc());
    rt.stdin().read_to_end(&mut source)?;
    let collection = match read(rt.alloc(), source.as_slice()) {
        Ok(collection) => collection,
        Err(why) => return println!(rt; "{why}"),
    };
    show_main_line(&rt, &collection)?;
    for tree in collection.trees() {
        show(&rt, tree, 0)?;
    }
    Ok(())
}
