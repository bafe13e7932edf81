//! The texts of answers, each after a space.
ghost use Rattle.std.specs.List.{join_with_byte};
ghost use Rattle.go_board.specs.Pens.{Writes};
ghost use Rattle.go_board.specs.Vertices.{vertex_word};
ghost use Rattle.go_record.specs.Records.{record_body};
ghost use Rattle.goref_session.specs.Commands.{command_names};
ghost use Rattle.goref_session.specs.Replies.{fact_text};
ghost use Rattle.goref_session.specs.Telling.{topic_text, truth_text};
ghost use Rattle.goref_results.specs.Results.{result_text};

use crate::command::{COMMANDS, Topic};
use crate::decision::Fact;
use go_board::{Pen, Sink, Vertex, vertex_text};
use go_game::Game;
use go_record::put_record;
use goref_results::{put_board, put_chains, put_places, put_plays, put_score};
use std::alloc::Allocator;

/// Writes the text of a fact, after a space.
pub fn put_fact<A: Allocator + Copy, W: Sink>(game: &Game<A>, fact: &Fact, pen: &mut Pen<'_, W>)
    ensures { Writes W.Sink pen.old pen.new (result_text (fact_text fact.now game.now.standing)) }
{
    match fact {
        Fact::About(topic) => put_topic(game, *topic, pen),
        Fact::Known(truth) => put_truth(*truth, pen),
        Fact::Places(number) => put_places(game, *number, pen),
        Fact::Choice(vertex) => put_choice(*vertex, pen),
        Fact::Plays(plays) => put_plays(game.size(), plays, pen),
    }
}

/// Writes the answer to a topic, after a space.
fn put_topic<A: Allocator + Copy, W: Sink>(game: &Game<A>, topic: Topic, pen: &mut Pen<'_, W>)
    ensures { Writes W.Sink pen.old pen.new (result_text (topic_text topic game.now.standing)) }
{
    match topic {
        Topic::Protocol => pen.put(b" 2"),
        Topic::Program => pen.put(b" goref"),
        Topic::Release => pen.put(b" 1.0"),
        Topic::Commands => put_commands(pen),
        Topic::Score => put_score(game, pen),
        Topic::Board => put_board(game, pen),
        Topic::Chains => put_chains(game, pen),
        Topic::Record => put_game(game, pen),
    }
}

/// Writes the names of all commands: the first after a space, each other on a line of its own.
fn put_commands<W: Sink>(pen: &mut Pen<'_, W>)
    ensures { Writes W.Sink pen.old pen.new (result_text (join_with_byte 10 command_names)) }
{
    let mut before = b' ';
    for (name, _) in COMMANDS {
        pen.put(&[before]);
        pen.put(name);
        before = b'\n';
    }
}

/// Writes whether a name is that of a command, after a space.
fn put_truth<W: Sink>(truth: bool, pen: &mut Pen<'_, W>)
    ensures { Writes W.Sink pen.old pen.new (result_text (truth_text truth)) }
{
    if truth {
        pen.put(b" true");
    } else {
        pen.put(b" false");
    }
}

/// Writes the choice, after a space.
fn put_choice<W: Sink>(vertex: Vertex, pen: &mut Pen<'_, W>)
    ensures { Writes W.Sink pen.old pen.new (result_text (vertex_word vertex)) }
{
    pen.put(b" ");
    pen.put(vertex_text(vertex).as_bytes());
}

/// Writes the record of a game on one line, after a space.
fn put_game<A: Allocator + Copy, W: Sink>(game: &Game<A>, pen: &mut Pen<'_, W>)
    ensures { Writes W.Sink pen.old pen.new (result_text (record_body game.now.standing)) }
{
    pen.put(b" ");
    put_record(game, pen);
}
