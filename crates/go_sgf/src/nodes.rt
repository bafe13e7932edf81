//! Properties, nodes, and the list of a tree's nodes. A property whose name has one or two letters, with one
//! value, is held in place; any other is in a box.
ghost use Rattle.std.specs.Prelude.{◌≡◌, ◌≢◌, [], IfOk, bytes_eq, filter};
ghost use Rattle.go_sgf.specs.Record.{is_upper_byte, plain_property, values_of};
ghost use Rattle.go_sgf.specs.inner.Held.{property_of};

use crate::few::Few;
use crate::scan::{is_upper, strip};
use std::alloc::{AllocError, Allocator};
use std::array;
use std::marker::Model;

/// A property: a name and its values, as they stand in the source.
#[derive(Drop)]
pub struct Property<'a, A: Allocator + Copy> {
    item: Item<'a, A>,
}

/// A short name with one value lies in place, as most properties are.
#[derive(Drop)]
enum Item<'a, A: Allocator + Copy> {
    Letter([u8; 1], &'a [u8]),
    Letters([u8; 2], &'a [u8]),
    Other(Box<Named<'a, A>, A>),
}

#[derive(Drop)]
pub(crate) struct Named<'a, A: Allocator + Copy> {
    name: &'a [u8],
    values: Few<&'a [u8], A>,
}

impl<'a, A: Allocator + Copy> Model for Property<'a, A> {
    ghost use Rattle.go_sgf.specs.Record.{Property};
    ghost use Rattle.go_sgf.specs.inner.Held.{property_in};

    ghost Value = { Property };

    ghost view = { λ p. property_in p.item };
}

impl<'a, A: Allocator + Copy> Property<'a, A> {
    /// The property with this name and these values.
    pub(crate) fn new(
        alloc: A,
        name: &'a [u8],
        values: Few<&'a [u8], A>,
    ) -> Result<Property<'a, A>, AllocError>
        ensures { IfOk result (λ property. property ≡ property_of name.now values.entry) }
    {
        if let Some(value) = values.only() {
            match name {
                [letter] => {
                    return Ok(Property {
                        item: Item::Letter([*letter], value),
                    });
                }
                [first, second] => {
                    return Ok(Property {
                        item: Item::Letters([*first, *second], value),
                    });
                }
                _ => {}
            }
        }
        let named = Box::new(alloc, Named { name, values })?;
        Ok(Property {
            item: Item::Other(named),
        })
    }

    /// The name as it is written, with any lower-case letters.
    pub fn name(&self) -> &[u8]
        ensures { result.now ≡ self.now.name }
    {
        match &self.item {
            Item::Letter(name, _) => name,
            Item::Letters(name, _) => name,
            Item::Other(named) => named.name,
        }
    }

    /// Whether this is its name. Lower-case letters of the record's name don't count.
    pub fn is(&self, name: &[u8]) -> bool
        ensures { result ≡ bytes_eq (plain_property self.now).name name.now }
    {
        is_named(self.name(), name)
    }

    /// The values, in the source's order, without their brackets.
    pub fn values(&self) -> &[&'a [u8]]
        ensures { values_of result.now ≡ self.now.values }
    {
        match &self.item {
            Item::Letter(_, value) => array::from_ref(value),
            Item::Letters(_, value) => array::from_ref(value),
            Item::Other(named) => named.values.as_slice(),
        }
    }
}

/// A node: its properties.
#[derive(Drop)]
pub struct Node<'a, A: Allocator + Copy> {
    pub(crate) properties: Few<Property<'a, A>, A>,
}

impl<'a, A: Allocator + Copy> Model for Node<'a, A> {
    ghost use Rattle.std.specs.Prelude.{List};
    ghost use Rattle.go_sgf.specs.Record.{Property};

    ghost Value = { List Property };

    ghost view = { λ n. n.properties };
}

impl<'a, A: Allocator + Copy> Node<'a, A> {
    /// The properties, in the source's order.
    pub fn properties(&self) -> &[Property<'a, A>]
        ensures { result.now ≡ self.now }
    {
        self.properties.as_slice()
    }
}

/// The nodes of a tree, one after another. There is at least one.
#[derive(Drop)]
pub(crate) struct Sequence<'a, A: Allocator + Copy> {
    nodes: Few<Node<'a, A>, A>,
}

impl<'a, A: Allocator + Copy> Model for Sequence<'a, A> {
    ghost use Rattle.std.specs.Prelude.{◌≢◌, [], List};
    ghost use Rattle.go_sgf.specs.Record.{Property};

    ghost Value = { List (List Property) };

    ghost view = { λ s. s.nodes };

    ghost invariant = { λ s. s.nodes ≢ [] };
}

impl<'a, A: Allocator + Copy> Sequence<'a, A> {
    /// The nodes of a list that has one at least.
    pub(crate) fn new(nodes: Few<Node<'a, A>, A>) -> Sequence<'a, A>
        requires { nodes ≢ [] }
        ensures { result ≡ nodes.entry }
    {
        Sequence { nodes }
    }

    /// The nodes, in the source's order.
    pub(crate) fn as_slice(&self) -> &[Node<'a, A>]
        ensures nodes { result.now ≡ self.now }
        ensures some { result.now ≢ [] }
    {
        self.nodes.as_slice()
    }
}

/// Whether this is a property's name. Its lower-case letters don't count.
pub fn is_named(name: &[u8], plain: &[u8]) -> bool
    ensures { result ≡ bytes_eq (filter is_upper_byte name.now) plain.now }
{
    let mut rest = plain;
    for letter in name {
        if is_upper(*letter) {
            match strip(rest, *letter) {
                Some(more) => rest = more,
                None => return false,
            }
        }
    }
    rest.is_empty()
}
