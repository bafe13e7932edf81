//! A cursor along a record's main line, which takes the first child at each branch. It reads names and values
//! from the source itself, so it builds no lists. `next_node` and `next_name` first skip what earlier
//! steps left, so steps may come in any order.
ghost use Rattle.std.specs.Prelude.{◌≡◌, ◌<◌, ◌≤◌, ℕ, List, [], IfNone, IfSome, IsFalse, IsTrue, length, true};
ghost use Rattle.go_sgf.specs.MainLine.{IsLeft, NextName, NextNode, NextValue, main_line};
ghost use Rattle.go_sgf.specs.Record.{Property};
ghost use Rattle.go_sgf.specs.Spelling.{OfRecord, without_space};

use crate::checked::Checked;
use crate::scan::{after_space, begins_letter, from_first_tree, name_at, strip};
use crate::values::value;
use std::marker::Model;

/// A cursor along the main line of a record, from node to node, in a node from property to property, and in a
/// property from value to value. It reads the source itself, so it takes no memory.
#[derive(Drop)]
pub struct MainLine<'a> {
    rest: &'a [u8],
}

impl<'a> Model for MainLine<'a> {
    ghost use Rattle.std.specs.Prelude.{ℕ, List};

    ghost Value = { List ℕ };

    ghost view = { λ m. m.rest.now };
}

impl<'a> MainLine<'a> {
    /// The cursor along the main line of a record, before its first node.
    pub fn of(checked: &Checked<'a>) -> MainLine<'a>
        ensures { OfRecord checked.now (λ c. IsLeft result [] [] (main_line c)) }
    {
        match strip(from_first_tree(checked.text()), b'(') {
            Some(rest) => MainLine { rest },
            None => MainLine { rest: &[] },
        }
    }

    /// Another cursor, at the same place.
    pub fn fork(&self) -> MainLine<'a>
        ensures { result ≡ self.now }
    {
        MainLine { rest: self.rest }
    }

    /// Enters the next node. It first skips what is left of the node before. False where the line has no more
    /// nodes.
    pub fn next_node(&mut self) -> bool
        ensures next { (values : List (List ℕ)) (properties : List Property)
            (nodes : List (List Property)) → IsLeft self.old values properties nodes
            → NextNode result nodes self.new }
        ensures shorter { IsTrue result → length self.new < length self.old }
        ensures onward { length self.new ≤ length self.old }
    {
        self.skip_properties();
        match to_node(self.rest) {
            Some(inside) => {
                self.rest = inside;
                true
            }
            None => false,
        }
    }

    /// The name of the node's next property, as it is written. It first skips the values that are left of the
    /// property before. Where the node has no more properties, it skips white space and
    /// returns none.
    #[inline]
    pub fn next_name(&mut self) -> Option<&'a [u8]>
        ensures next { (values : List (List ℕ)) (properties : List Property)
            (nodes : List (List Property)) → IsLeft self.old values properties nodes
            → NextName result properties nodes self.new }
        ensures shorter { IfSome result (λ _. length self.new < length self.old) }
        ensures none { IfNone result (self.new ≡ without_space self.new) }
        ensures onward { length self.new ≤ length self.old }
    {
        self.skip_values();
        self.name_here()
    }

    /// The property's next value, without its brackets. Where the property has no more values, it
    /// skips white space and returns none.
    #[inline]
    pub fn next_value(&mut self) -> Option<&'a [u8]>
        ensures next { (values : List (List ℕ)) (properties : List Property)
            (nodes : List (List Property)) → IsLeft self.old values properties nodes
            → NextValue result values properties nodes self.new }
        ensures shorter { IfSome result (λ _. length self.new < length self.old) }
        ensures none { IfNone result (self.new ≡ without_space self.old) }
        ensures onward { length self.new ≤ length self.old }
    {
        let start = after_space(self.rest);
        self.rest = start;
        let inside = strip(start, b'[')?;
        let (value, after) = value(inside)?;
        self.rest = after;
        Some(value)
    }

    /// Skips the values of the property that are left.
    fn skip_values(&mut self)
        ensures line { (values : List (List ℕ)) (properties : List Property)
            (nodes : List (List Property)) → IsLeft self.old values properties nodes
            → IsLeft self.new [] properties nodes }
        ensures onward { length self.new ≤ length self.old }
    {
        while let Some(_) = self.next_value() {}
    }

    /// Skips the properties of the node that are left.
    fn skip_properties(&mut self)
        ensures line { (values : List (List ℕ)) (properties : List Property)
            (nodes : List (List Property)) → IsLeft self.old values properties nodes
            → IsLeft self.new [] [] nodes }
        ensures onward { length self.new ≤ length self.old }
    {
        while let Some(_) = self.next_name() {}
    }

    /// The name of the next property, where no value of the property before is left.
    fn name_here(&mut self) -> Option<&'a [u8]>
        ensures next { (properties : List Property) (nodes : List (List Property))
            → IsLeft self.old [] properties nodes → NextName result properties nodes self.new }
        ensures shorter { IfSome result (λ _. length self.new < length self.old) }
        ensures none { IfNone result (self.new ≡ without_space self.old) }
        ensures onward { length self.new ≤ length self.old }
    {
        let here = after_space(self.rest);
        if !begins_letter(here) {
            self.rest = here;
            return None;
        }
        let (name, after, _) = name_at(here);
        self.rest = after;
        Some(name)
    }
}

/// The text after the `;` of the next node, which may be the first of a child.
fn to_node(text: &[u8]) -> Option<&[u8]>
    ensures some { IfSome result (λ inside. (nodes : List (List Property))
        → IsLeft text.now [] [] nodes → NextNode true nodes inside.now) }
    ensures none { IfNone result ((nodes : List (List Property))
        → IsLeft text.now [] [] nodes → nodes ≡ []) }
    ensures shorter { IfSome result (λ inside. length inside.now < length text.now) }
{
    let here = after_space(text);
    match strip(here, b'(') {
        Some(child) => strip(after_space(child), b';'),
        None => strip(here, b';'),
    }
}
