//! The frame of an answer, which the protocol calls a response: the sign, the id, the text or the refusal,
//! and the two line ends.
ghost use Rattle.std.specs.Prelude.{◌≡◌, ◌++◌, codes};
ghost use Rattle.go_board.specs.Device.{Sent, failures_after};
ghost use Rattle.go_board.specs.Pens.{Writes};
ghost use Rattle.goref_session.specs.Replies.{decision_text, fact_text, id_text, refusal_text};
ghost use Rattle.goref_results.specs.Results.{result_text};

use crate::decision::{Decision, Fact, Refusal};
use crate::facts::put_fact;
use go_board::{Pen, Sink, WriteFault};
use go_game::Game;
use itoa::Buffer;
use std::alloc::Allocator;

/// Writes the answer that states this decision, with this id. It reads facts from the game. On a fault the
/// device has a prefix of the answer.
pub fn write_answer<A: Allocator + Copy, W: Sink>(
    game: &Game<A>,
    id: Option<u32>,
    decision: &Decision,
    writer: &mut W,
) -> Result<(), WriteFault>
    ensures sent { Sent result (W.taken writer.old) (W.taken writer.new)
        (decision_text id decision.now game.now.standing) }
    ensures failures { W.failures writer.new ≡ failures_after result (W.failures writer.old) }
{
    let mut pen = Pen::new(writer);
    put_answer(game, id, decision, &mut pen);
    pen.finish()
}

/// Writes the answer by what was decided.
fn put_answer<A: Allocator + Copy, W: Sink>(
    game: &Game<A>,
    id: Option<u32>,
    decision: &Decision,
    pen: &mut Pen<'_, W>,
)
    ensures { Writes W.Sink pen.old pen.new (decision_text id decision.now game.now.standing) }
{
    match decision {
        Decision::Done => put_empty(id, pen),
        Decision::Ends => put_empty(id, pen),
        Decision::Tells(fact) => put_told(game, id, fact, pen),
        Decision::Refused(why) => put_refused(id, *why, pen),
    }
}

/// Writes an answer without a text.
fn put_empty<W: Sink>(id: Option<u32>, pen: &mut Pen<'_, W>)
    ensures { Writes W.Sink pen.old pen.new (codes "=" ++ (id_text id ++ codes "\n\n")) }
{
    if id.is_none() {
        return pen.put(b"=\n\n");
    }
    pen.put(b"=");
    put_id(id, pen);
    put_end(pen);
}

/// Writes an answer with a text.
fn put_told<A: Allocator + Copy, W: Sink>(
    game: &Game<A>,
    id: Option<u32>,
    fact: &Fact,
    pen: &mut Pen<'_, W>,
)
    ensures { Writes W.Sink pen.old pen.new (codes "="
        ++ (id_text id ++ (result_text (fact_text fact.now game.now.standing)
        ++ codes "\n\n"))) }
{
    pen.put(b"=");
    put_id(id, pen);
    put_fact(game, fact, pen);
    put_end(pen);
}

/// Writes the answer to a refused command.
fn put_refused<W: Sink>(id: Option<u32>, why: Refusal, pen: &mut Pen<'_, W>)
    ensures { Writes W.Sink pen.old pen.new (codes "?"
        ++ (id_text id ++ (codes " " ++ (refusal_text why ++ codes "\n\n")))) }
{
    pen.put(b"?");
    put_id(id, pen);
    pen.put(b" ");
    pen.put(refusal_word(why));
    put_end(pen);
}

/// The two line ends after each answer.
fn put_end<W: Sink>(pen: &mut Pen<'_, W>)
    ensures { Writes W.Sink pen.old pen.new (codes "\n\n") }
{
    pen.put(b"\n\n");
}

/// Writes the id, if the line had one.
fn put_id<W: Sink>(id: Option<u32>, pen: &mut Pen<'_, W>)
    ensures { Writes W.Sink pen.old pen.new (id_text id) }
{
    match id {
        Some(id) => pen.put(Buffer::new().format(id).as_bytes()),
        None => {}
    }
}

/// What the answer says to a refused command.
fn refusal_word(why: Refusal) -> &'static [u8]
    ensures { result.now ≡ refusal_text why }
{
    match why {
        Refusal::LineTooLong => b"line too long",
        Refusal::UnknownCommand => b"unknown command",
        Refusal::SyntaxError => b"syntax error",
        Refusal::UnacceptableSize => b"unacceptable size",
        Refusal::IllegalMove => b"illegal move",
        Refusal::CannotUndo => b"cannot undo",
        Refusal::BoardNotEmpty => b"board not empty",
        Refusal::InvalidNumber => b"invalid number of stones",
        Refusal::BadVertexList => b"bad vertex list",
        Refusal::CannotLoad => b"cannot load file",
        Refusal::GameInProgress => b"game in progress",
        Refusal::OutOfMemory => b"out of memory",
    }
}
