//! A session has one current game, and lines act on it. The first load adds a second game. This file finds
//! the function for each command. It carries `loadsgf` out itself, because a load needs both games.
ghost use Rattle.std.specs.Prelude.{◌≡◌, IfNone, IfSome, Ok, OnErr, Some, false};
ghost use Rattle.std.specs.Option.{option_and_then};
ghost use Rattle.go_board.specs.Device.{failures_after};
ghost use Rattle.go_game.specs.Standings.{Standing};
ghost use Rattle.goref_session.specs.Replies.{is_end};
ghost use Rattle.goref_session.specs.Commands.{command_of};
ghost use Rattle.goref_session.specs.Contents.{Content, content_of};
ghost use Rattle.goref_session.specs.Record.{DecidesBytes, DecidesLoad, load_of};
ghost use Rattle.goref_session.specs.declared.command.Command.{Command};
ghost use Rattle.goref_session.specs.declared.flow.Flow.{Flow};
ghost use Rattle.goref_session.specs.inner.Refusing.{after_load};
ghost use Rattle.goref_session.specs.Answered.{Answered, flow_of};
ghost use Rattle.goref_session.specs.inner.Told.{IsTold, TellsOf};
ghost use Rattle.goref_session.specs.Starts.{begun};
ghost use Rattle.goref_session.specs.Table.{Decides};
ghost use Rattle.goref_lines.specs.Words.{has_bytes};

mod current;

use crate::answer::write_answer;
use crate::command::{Command, command_asked};
use crate::commands::record::{BytesToLoad, bytes_to_load};
use crate::commands::{handicap, play, setup, telling, time};
use crate::decision::{Decision, Fact, Refusal};
use crate::fetched::Fetched;
use crate::flow::Flow;
use crate::second::Second;
use go_board::{Sink, Size, WriteFault};
use go_game::Game;
use goref_lines::{Line, Request, id_of_cut};
use std::alloc::Allocator;
use std::marker::Model;

/// One or two games, of which one is current.
#[derive(Drop)]
pub struct Session<A: Allocator + Copy> {
    /// The game that a session begins with.
    first: Game<A>,
    /// `None` until a `loadsgf` line first has a file to load, and there is memory for a second game.
    second: Option<Second<A>>,
    alloc: A,
}

impl<A: Allocator + Copy> Model for Session<A> {
    ghost use Rattle.go_game.specs.Standings.{Standing};
    ghost use Rattle.goref_session.specs.inner.Current.{current_of};

    ghost Value = { Standing };

    ghost view = { λ s. current_of s.first.standing s.second };
}

impl<A: Allocator + Copy> Session<A> {
    /// A session over an empty board of this size, under the positional rule.
    pub fn new(alloc: A, size: Size) -> Session<A>
        ensures { result ≡ begun size }
    {
        Session {
            first: Game::new(alloc, size),
            second: None,
            alloc,
        }
    }

    /// The current game. What its methods return depends only on the session's standing.
    pub fn game(&self) -> &Game<A>
        ensures { result.now.standing ≡ self.now }
    {
        match &self.second {
            Some(second) if second.is_current => &second.game,
            _ => &self.first,
        }
    }

    /// Answers a line. If a write fails, the device has a prefix of the answer. The command was done all the
    /// same.
    pub fn answer<W: Sink>(
        &mut self,
        line: &Line,
        fetched: Fetched<A>,
        writer: &mut W,
    ) -> Result<Flow, WriteFault>
        ensures answered { Answered self.old self.new line.now (content_of fetched) result
            (W.taken writer.old) (W.taken writer.new) }
        ensures discarded { has_bytes line.now.text ≡ false → result ≡ Ok Flow.More }
        ensures silent { has_bytes line.now.text ≡ false → W.held writer.new ≡ W.held writer.old }
        ensures failures { W.failures writer.new ≡ failures_after result (W.failures writer.old) }
    {
        if !line.has_words() {
            return Ok(Flow::More);
        }
        let text = line.text();
        if line.is_long() {
            let refused = Decision::Refused(Refusal::LineTooLong);
            return write_decision(self.game(), id_of_cut(text), &refused, writer);
        }
        let request = Request::of(text);
        match self.answer_command(&request, writer) {
            Some(told) => told,
            None => {
                let decision = self.loadsgf(&request, &fetched);
                drop(fetched);
                write_decision(self.game(), request.id(), &decision, writer)
            }
        }
    }

    /// Answers a command. For `loadsgf` it does nothing and returns `None`.
    fn answer_command<W: Sink>(
        &mut self,
        request: &Request,
        writer: &mut W,
    ) -> Option<Result<Flow, WriteFault>>
        ensures told { IfSome result (λ told. TellsOf self.old self.new request.now told
            (W.taken writer.old) (W.taken writer.new)) }
        ensures failures { IfSome result (λ told.
            W.failures writer.new ≡ failures_after told (W.failures writer.old)) }
        ensures loads { IfNone result
            ((option_and_then command_of request.now.name ≡ Some Command.Loadsgf)
            × (self.new ≡ self.old) × (writer.new ≡ writer.old)) }
    {
        let alloc = self.alloc;
        match &mut self.second {
            Some(second) if second.is_current => answer_on(
                &mut second.game,
                alloc,
                request,
                writer,
            ),
            _ => answer_on(&mut self.first, alloc, request, writer),
        }
    }

    /// `loadsgf`: loads a record, which needs both games. It isn't inlined: the second game makes its frame
    /// large, and every line would pay for that.
    #[inline(never)]
    fn loadsgf(&mut self, request: &Request, fetched: &Fetched<A>) -> Decision
        ensures { DecidesLoad self.old (load_of request.now.arguments) (content_of fetched.now)
            (record { decision = result; standing = self.new }) }
    {
        let to_load = match bytes_to_load(request, fetched) {
            Ok(to_load) => to_load,
            Err(why) => return Decision::Refused(why),
        };
        match self.load(&to_load) {
            Ok(()) => Decision::Done,
            Err(why) => Decision::Refused(why),
        }
    }

    /// Loads a record. Then its game is current. A refusal leaves the session as it was.
    fn load(&mut self, to_load: &BytesToLoad) -> Result<(), Refusal>
        ensures decides { DecidesBytes self.old to_load.now.bytes.now to_load.now.number
            (after_load self.old self.new result) }
        ensures stays { OnErr result (self.new ≡ self.old) }
    {
        match &mut self.second {
            Some(second) => second.load(&mut self.first, to_load),
            None => {
                let Ok(mut second) = Second::new(self.alloc, self.first.size()) else {
                    return Err(Refusal::OutOfMemory);
                };
                let loaded = second.load(&mut self.first, to_load);
                self.second = Some(second);
                loaded
            }
        }
    }
}

/// Answers a command over the current game. Returns `None` for `loadsgf`. It writes the answer itself: a
/// `Decision` is large, and to return it to `answer` would move it once more.
fn answer_on<A: Allocator + Copy, W: Sink>(
    game: &mut Game<A>,
    alloc: A,
    request: &Request,
    writer: &mut W,
) -> Option<Result<Flow, WriteFault>>
    ensures told { IfSome result (λ told. TellsOf game.old.standing game.new.standing request.now told
        (W.taken writer.old) (W.taken writer.new)) }
    ensures failures { IfSome result (λ told.
        W.failures writer.new ≡ failures_after told (W.failures writer.old)) }
    ensures loads { IfNone result
        ((option_and_then command_of request.now.name ≡ Some Command.Loadsgf)
        × (game.new.standing ≡ game.old.standing) × (writer.new ≡ writer.old)) }
{
    let decided = carry_out(game, alloc, request);
    match &decided {
        Some(decision) => Some(write_decision(game, request.id(), decision, writer)),
        None => None,
    }
}

/// Writes the answer to a line with this id, and returns whether the session goes on.
fn write_decision<A: Allocator + Copy, W: Sink>(
    game: &Game<A>,
    id: Option<u32>,
    decision: &Decision,
    writer: &mut W,
) -> Result<Flow, WriteFault>
    ensures told { IsTold result id
        (record { decision = decision.now; standing = game.now.standing })
        (W.taken writer.old) (W.taken writer.new) }
    ensures failures { W.failures writer.new ≡ failures_after result (W.failures writer.old) }
{
    match write_answer(game, id, decision, writer) {
        Ok(()) => Ok(flow_after(decision)),
        Err(WriteFault) => Err(WriteFault),
    }
}

/// Carries a command out on the current game, and returns what is to be answered. Returns `None` for
/// `loadsgf`, which needs both games.
fn carry_out<A: Allocator + Copy>(
    game: &mut Game<A>,
    alloc: A,
    request: &Request,
) -> Option<Decision>
    ensures decided { IfSome result (λ decision. (content : Content) →
        Decides game.old.standing request.now content
        (record { decision = decision; standing = game.new.standing })) }
    ensures loads { IfNone result
        ((option_and_then command_of request.now.name ≡ Some Command.Loadsgf)
        × (game.new.standing ≡ game.old.standing)) }
{
    let decision = match command_asked(request) {
        None => Decision::Refused(Refusal::UnknownCommand),
        Some(Command::Asks(topic)) => Decision::Tells(Fact::About(topic)),
        Some(Command::KnownCommand) => telling::known_command(request),
        Some(Command::Quit) => Decision::Ends,
        Some(Command::Boardsize) => setup::boardsize(game, request),
        Some(Command::ClearBoard) => setup::clear_board(game),
        Some(Command::Komi) => setup::komi(game, request),
        Some(Command::Play) => play::play(game, request),
        Some(Command::Genmove) => play::genmove(game, request),
        Some(Command::Undo) => play::undo(game),
        Some(Command::RegGenmove) => play::reg_genmove(game, request),
        Some(Command::Loadsgf) => return None,
        Some(Command::FixedHandicap) => handicap::fixed_handicap(game, alloc, request),
        Some(Command::PlaceFreeHandicap) => handicap::place_free_handicap(game, alloc, request),
        Some(Command::SetFreeHandicap) => handicap::set_free_handicap(game, alloc, request),
        Some(Command::TimeSettings) => time::time_settings(request),
        Some(Command::TimeLeft) => time::time_left(request),
        Some(Command::Legal) => play::legal(game, request),
        Some(Command::Superko) => setup::superko(game, request),
    };
    Some(decision)
}

/// Whether the session goes on after a decision.
fn flow_after(decision: &Decision) -> Flow
    ensures { result ≡ flow_of (is_end decision.now) }
{
    match decision {
        Decision::Ends => Flow::Quit,
        _ => Flow::More,
    }
}
