//! The words of a line as an id, a command's name and its arguments. A line that is too long still has its
//! id, if a space follows it in what is kept.
ghost use Rattle.std.specs.Prelude.{◌≡◌, ◌<◌, IfSome, length, option_copied, position, slice_get};
ghost use Rattle.goref_lines.specs.Words.{is_plain_space, words};
ghost use Rattle.goref_lines.specs.Requests.{Asked, asked_by, id_before_space};

use crate::words::Words;
use go_board::read_int;
use std::marker::Model;

/// What the words of a line ask for: a command with an id and arguments.
#[derive(Drop)]
pub struct Request<'a> {
    id: Option<u32>,
    name: Option<&'a [u8]>,
    arguments: Words<'a>,
}

impl<'a> Model for Request<'a> {
    ghost Value = { Asked };

    ghost view = { λ r. record {
      id = r.id;
      name = option_copied r.name;
      arguments = r.arguments;
    } };
}

impl<'a> Request<'a> {
    /// What the words of a text ask for.
    pub fn of(text: &'a [u8]) -> Request<'a>
        ensures { result ≡ asked_by (words text.entry.now) }
    {
        let mut arguments = Words::of(text);
        let first = arguments.next_word();
        let id = match first {
            Some(word) => read_int(word),
            None => None,
        };
        let name = match id {
            Some(_) => arguments.next_word(),
            None => first,
        };
        Request {
            id,
            name,
            arguments,
        }
    }

    /// The id, a number that the response repeats.
    pub fn id(&self) -> Option<u32>
        ensures { result ≡ self.now.id }
    {
        self.id
    }

    /// The name of the command.
    pub fn name(&self) -> Option<&'a [u8]>
        ensures { option_copied result ≡ self.now.name }
    {
        self.name
    }

    /// The argument at this place, from 0.
    pub fn argument(&self, place: u16) -> Option<&'a [u8]>
        ensures { option_copied result ≡ slice_get self.now.arguments place }
    {
        self.arguments.word(usize::from(place))
    }

    /// All the arguments.
    pub fn arguments(&self) -> Words<'a>
        ensures { result ≡ self.now.arguments }
    {
        self.arguments.again()
    }
}

/// The id of a line that was cut off. It counts only if a space follows it, since the last word may be
/// incomplete.
pub fn id_of_cut(text: &[u8]) -> Option<u32>
    ensures { result ≡ id_before_space text.now }
{
    match first_space(text) {
        Some(end) => read_int(text.split_at(end).0),
        None => None,
    }
}

fn first_space(text: &[u8]) -> Option<usize>
    ensures place { result ≡ position is_plain_space text.now }
    ensures within { IfSome result (λ end. end < length text.now) }
{
    text.iter().position(|byte| *byte == b' ')
}
