//! The parser of records: one function for each part of the grammar, from the values of a property up to the
//! trees. The same code serves `read`, which keeps what it reads, and `check`, which doesn't: a `Keep` makes
//! the difference.
ghost use Rattle.std.specs.Prelude.{◌≡◌, ◌≢◌, ◌≤◌, ◌<◌, ◌↔◌, ◌∷◌, ◌++◌, ℕ, List, [], Err, IfErr, IfOk, IfSome, IsErrOf, OnErr, OnOk, Some, false, is_some, length, option_map, true};
ghost use Rattle.go_sgf.specs.inner.Held.{property_of, trees_in};
ghost use Rattle.go_sgf.specs.inner.Outcome.{IsWithin, Meets, here, left_of, outcome, outcome_after, error_at};
ghost use Rattle.go_sgf.specs.inner.Reads.{ReadsNode, ReadsNodes, ReadsProperty, ReadsToEnd, ReadsValues, is_letter_first};
ghost use Rattle.go_sgf.specs.Record.{Property, TreeValue, Trees, values_of};
ghost use Rattle.go_sgf.specs.Refusals.{IsRefusal};
ghost use Rattle.go_sgf.specs.Spelling.{Spells, without_space};
ghost use Rattle.go_sgf.specs.Stands.{closed, in_node, named, opened};
ghost use Rattle.go_sgf.specs.View.{chain, trees_of};

use crate::checked::Checked;
use crate::error::{ReadError, SgfError};
use crate::few::Few;
use crate::keep::{Keep, Lists, Nothing};
use crate::limits::{MAX_DEPTH, MAX_RECORD};
use crate::nodes::{self, Node, Sequence};
use crate::record::{Collection, Tree};
use crate::scan::{
    after_space, begins_letter, begins_with, from_first_tree, inside_tree, name_at, strip,
};
use crate::values::value;
use std::alloc::{AllocError, Allocator};

/// Why reading stops at `rest`: `Stray` if a byte comes next, `End` if none does.
fn unexpected(rest: &[u8]) -> ReadError
    ensures { result ≡ here rest.now }
{
    match rest.split_first() {
        Some(_) => ReadError::Stray(rest.len()),
        None => ReadError::End,
    }
}

/// Adds an item to a list, if this reader keeps what it reads.
fn add<T: Drop, K: Keep>(keep: K, list: &mut Few<T, K::Alloc>, item: T) -> Result<(), AllocError>
    ensures added { OnOk result (K.keeps → list.new ≡ list.old ++ item ∷ []) }
    ensures memory { OnErr result K.keeps }
{
    if let Some(alloc) = keep.alloc() {
        list.push(alloc, item)?;
    }
    Ok(())
}

/// Reads the values after a name into a list, at least one, and returns the text after them.
fn read_values<'a, K: Keep>(
    keep: K,
    list: &mut Few<&'a [u8], K::Alloc>,
    bytes: &'a [u8],
) -> Result<&'a [u8], ReadError>
    requires { is_letter_first bytes.now ≡ false }
    ensures read { IfOk result (λ rest. (vs : List (List ℕ))
        × (K.keeps → values_of list.new ≡ values_of list.old ++ vs)
        × ReadsValues bytes.now vs rest.now) }
    ensures place { (d : ℕ) → IsWithin MAX_DEPTH d → Meets result
        (outcome MAX_DEPTH named d bytes.now) (λ rest. outcome MAX_DEPTH in_node d rest.now) }
    ensures memory { IsErrOf result ReadError.Memory → K.keeps }
{
    let mut rest = after_space(bytes);
    if !begins_with(rest, b'[') {
        return Err(unexpected(rest));
    }
    while let Some(inside) = strip(rest, b'[') {
        let Some((one, more)) = value(inside) else {
            return Err(ReadError::End);
        };
        add(keep, list, one)?;
        rest = after_space(more);
    }
    Ok(rest)
}

/// Reads a property, which begins with its name. Adds it to a list, and returns the text after it.
fn read_property<'a, K: Keep>(
    keep: K,
    list: &mut Option<Few<nodes::Property<'a, K::Alloc>, K::Alloc>>,
    bytes: &'a [u8],
) -> Result<&'a [u8], ReadError>
    requires { is_letter_first bytes.now ≡ true }
    ensures read { IfOk result (λ rest. (p : Property)
        × (K.keeps → list.new ≡ option_map (λ ps. ps ++ p ∷ []) list.old)
        × ReadsProperty bytes.now p rest.now) }
    ensures place { (d : ℕ) → IsWithin MAX_DEPTH d → Meets result
        (outcome MAX_DEPTH in_node d bytes.now) (λ rest. outcome MAX_DEPTH in_node d rest.now) }
    ensures memory { IsErrOf result ReadError.Memory → K.keeps }
{
    let (name, after, is_name) = name_at(bytes);
    if !is_name {
        return Err(unexpected(after));
    }
    let mut own = Few::new();
    let rest = read_values(keep, &mut own, after)?;
    add_property(keep, list, name, own)?;
    Ok(rest)
}

/// Adds the property with this name and these values to a list, if this reader keeps what it reads.
fn add_property<'a, K: Keep>(
    keep: K,
    list: &mut Option<Few<nodes::Property<'a, K::Alloc>, K::Alloc>>,
    name: &'a [u8],
    values: Few<&'a [u8], K::Alloc>,
) -> Result<(), AllocError>
    ensures added { OnOk result (K.keeps → list.new
        ≡ option_map (λ ps. ps ++ property_of name.now values.entry ∷ []) list.old) }
    ensures memory { OnErr result K.keeps }
{
    if let Some(alloc) = keep.alloc() {
        if let Some(list) = list {
            list.push(alloc, nodes::Property::new(alloc, name, values)?)?;
        }
    }
    Ok(())
}

/// Reads a node, after its `;`, into a list, and returns the text after it.
fn read_node<'a, K: Keep>(
    keep: K,
    list: &mut Few<Node<'a, K::Alloc>, K::Alloc>,
    bytes: &'a [u8],
) -> Result<&'a [u8], ReadError>
    ensures read { IfOk result (λ rest. (ps : List Property)
        × (K.keeps → list.new ≡ list.old ++ ps ∷ []) × ReadsNode bytes.now ps rest.now) }
    ensures stopped { IfOk result (λ rest. is_letter_first rest.now ≡ false) }
    ensures place { (d : ℕ) → IsWithin MAX_DEPTH d → Meets result
        (outcome MAX_DEPTH in_node d bytes.now) (λ rest. outcome MAX_DEPTH in_node d rest.now) }
    ensures memory { IsErrOf result ReadError.Memory → K.keeps }
{
    let mut properties = no_properties(keep);
    let mut rest = after_space(bytes);
    while begins_letter(rest) {
        rest = read_property(keep, &mut properties, rest)?;
    }
    add_node(keep, list, properties)?;
    Ok(rest)
}

/// An empty list of properties, if this reader keeps what it reads.
fn no_properties<'a, K: Keep>(keep: K) -> Option<Few<nodes::Property<'a, K::Alloc>, K::Alloc>>
    ensures { K.keeps → result ≡ Some [] }
{
    match keep.alloc() {
        Some(_) => Some(Few::new()),
        None => None,
    }
}

/// Adds the node with these properties to a list, if this reader keeps what it reads.
fn add_node<'a, K: Keep>(
    keep: K,
    list: &mut Few<Node<'a, K::Alloc>, K::Alloc>,
    properties: Option<Few<nodes::Property<'a, K::Alloc>, K::Alloc>>,
) -> Result<(), AllocError>
    ensures added { OnOk result (K.keeps
        → IfSome properties.entry (λ ps. list.new ≡ list.old ++ ps ∷ [])) }
    ensures memory { OnErr result K.keeps }
{
    if let Some(alloc) = keep.alloc() {
        if let Some(properties) = properties {
            list.push(alloc, Node { properties })?;
        }
    }
    Ok(())
}

/// Reads the nodes of a tree, after its `(`, into a list, at least one, and returns the text after them.
fn read_nodes<'a, K: Keep>(
    keep: K,
    list: &mut Few<Node<'a, K::Alloc>, K::Alloc>,
    bytes: &'a [u8],
) -> Result<&'a [u8], ReadError>
    ensures read { IfOk result (λ rest. (ns : List (List Property))
        × (K.keeps → list.new ≡ list.old ++ ns) × ReadsNodes bytes.now ns rest.now) }
    ensures place { (d : ℕ) → IsWithin MAX_DEPTH d → Meets result
        (outcome MAX_DEPTH opened d bytes.now) (λ rest. outcome MAX_DEPTH closed d rest.now) }
    ensures memory { IsErrOf result ReadError.Memory → K.keeps }
{
    let mut rest = after_space(bytes);
    if !begins_with(rest, b';') {
        return Err(unexpected(rest));
    }
    while let Some(inside) = strip(rest, b';') {
        rest = read_node(keep, list, inside)?;
    }
    Ok(rest)
}

/// An empty list of trees, if this reader keeps what it reads.
fn no_trees<'a, K: Keep>(keep: K) -> Option<Vec<Tree<'a, K::Alloc>, K::Alloc>>
    ensures kept { K.keeps → trees_in result ≡ Some [] }
    ensures some { IfSome result (λ _. K.keeps) }
{
    match keep.alloc() {
        Some(alloc) => Some(Vec::new(alloc)),
        None => None,
    }
}

/// If there is a list of trees, adds the tree of these nodes and children to it.
fn add_tree<'a, A: Allocator + Copy>(
    trees: &mut Option<Vec<Tree<'a, A>, A>>,
    nodes: Few<Node<'a, A>, A>,
    children: Option<Vec<Tree<'a, A>, A>>,
) -> Result<(), AllocError>
    requires { IfSome children (λ _. nodes ≢ []) }
    ensures added { OnOk result (IfSome children.entry (λ list. trees_in trees.new
        ≡ option_map (λ ts. ts ++ (nodes.entry, trees_of list.items) ∷ []) (trees_in trees.old))) }
    ensures kept { OnOk result (is_some trees.new ≡ is_some trees.old) }
    ensures memory { OnErr result (is_some trees.old ≡ true) }
{
    if let Some(list) = trees {
        if let Some(children) = children {
            let nodes = Sequence::new(nodes);
            push(list, Tree { nodes, children })?;
        }
    }
    Ok(())
}

/// Adds an item. An empty list reserves room for one item, since most lists have one.
fn push<T: Drop, A: Allocator + Copy>(list: &mut Vec<T, A>, item: T) -> Result<(), AllocError>
    ensures { OnOk result (list.new.items ≡ list.old.items ++ item ∷ []) }
{
    if list.is_empty() {
        list.reserve_exact(1)?;
    }
    list.push(item)?;
    Ok(())
}

/// Reads a tree at this depth, from after its `(`. If `trees` is a list, adds the tree to it. Returns the
/// text after the tree's `)`.
pub(crate) fn read_tree<'a, K: Keep>(
    keep: K,
    trees: &mut Option<Vec<Tree<'a, K::Alloc>, K::Alloc>>,
    bytes: &'a [u8],
    depth: usize,
) -> Result<&'a [u8], ReadError>
    requires depth { IsWithin MAX_DEPTH depth }
    requires kept { is_some trees.old ≡ true → K.keeps }
    ensures read { IfOk result (λ after. (t : TreeValue)
        × (K.keeps → trees_in trees.new ≡ option_map (λ ts. ts ++ t ∷ []) (trees_in trees.old))
        × ReadsToEnd depth bytes.now t after.now) }
    ensures kept { OnOk result (is_some trees.new ≡ is_some trees.old) }
    ensures place { Meets result (outcome MAX_DEPTH opened depth bytes.now)
        (λ after. outcome_after MAX_DEPTH depth (without_space after.now)) }
    ensures memory { IsErrOf result ReadError.Memory → K.keeps }
{
    let mut own = Few::new();
    let mut rest = read_nodes(keep, &mut own, bytes)?;
    let mut children = no_trees(keep);
    while let Some(inside) = strip(rest, b'(') {
        if depth == MAX_DEPTH {
            return Err(ReadError::Deep(rest.len()));
        }
        let after = read_tree(keep, &mut children, inside, depth + 1)?;
        rest = after_space(after);
    }
    let Some(after) = strip(rest, b')') else {
        return Err(unexpected(rest));
    };
    add_tree(trees, own, children)?;
    Ok(after)
}

/// The error that callers get where reading stops, in a source of this length.
pub(crate) fn error_of(stop: ReadError, length: usize) -> SgfError
    requires { left_of stop ≤ length }
    ensures { result ≡ error_at length stop }
{
    match stop {
        ReadError::Memory => SgfError::Memory,
        ReadError::End => SgfError::EndInside(length),
        ReadError::Stray(left) => SgfError::Unexpected(length - left),
        ReadError::Deep(left) => SgfError::TooDeep(length - left),
    }
}

/// The trees of a source, one after another.
fn read_trees<'a, K: Keep>(
    keep: K,
    source: &'a [u8],
) -> Result<Option<Vec<Tree<'a, K::Alloc>, K::Alloc>>, SgfError>
    ensures too_long { (result ≡ Err SgfError.TooLong) ↔ (MAX_RECORD < length source.now) }
    ensures read { IfOk result (λ kept. (ts : List TreeValue)
        × (K.keeps → trees_in kept ≡ Some ts)
        × Spells source.now (chain ts)) }
    ensures refused { IfErr result (IsRefusal source.now) }
    ensures memory { IsErrOf result SgfError.Memory → K.keeps }
{
    if source.len() > MAX_RECORD {
        return Err(SgfError::TooLong);
    }
    let mut rest = from_first_tree(source);
    if rest.is_empty() {
        return Err(SgfError::NoTree);
    }
    let mut trees = no_trees(keep);
    while let Some(inside) = inside_tree(rest) {
        rest = match read_tree(keep, &mut trees, inside, 1) {
            Ok(after) => after_space(after),
            Err(stop) => return Err(error_of(stop, source.len())),
        };
    }
    Ok(trees)
}

/// Reads a record. It skips the bytes before the first tree. A further tree begins where `(` and `;`
/// come next, with white space between them or none. It skips what follows the last tree. Names and
/// values are parts of the source, which isn't copied.
///
/// # Errors
///
/// `TooLong` exactly where the source has more than [`MAX_RECORD`] bytes. This is tested first. `NoTree`
/// where no tree begins. `EndInside`, `Unexpected` and `TooDeep` where the source spells no record, with the
/// first place that shows it. Where memory lacks, `Memory` may take the place of any other result, but not of
/// `TooLong`.
pub fn read<'a, A: Allocator + Copy>(
    alloc: A,
    source: &'a [u8],
) -> Result<Collection<'a, A>, SgfError>
    ensures too_long { (result ≡ Err SgfError.TooLong) ↔ (MAX_RECORD < length source.now) }
    ensures read { IfOk result (λ collection. Spells source.now collection) }
    ensures refused { IfErr result (IsRefusal source.now) }
{
    let trees = read_trees(Lists { alloc }, source)?.unwrap();
    Ok(Collection { source, trees })
}

/// Checks a source as [`read`] does, with the same errors but `Memory`. It keeps nothing and takes no memory.
pub fn check(source: &[u8]) -> Result<Checked<'_>, SgfError>
    ensures too_long { (result ≡ Err SgfError.TooLong) ↔ (MAX_RECORD < length source.now) }
    ensures source { IfOk result (λ checked. checked ≡ source.now) }
    ensures read { OnOk result ((c : Trees) × Spells source.now c) }
    ensures refused { IfErr result (IsRefusal source.now) }
    ensures no_memory { IsErrOf result SgfError.Memory → ⊥ }
{
    read_trees(Nothing, source)?;
    Ok(Checked { text: source })
}
