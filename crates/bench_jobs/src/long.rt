//! A very long game of random plays, undone to its start.
use crate::digest::Digest;
use crate::drawn::{colour_of, usual_size};
use crate::random::Random;
use crate::texts::put_play;
use go_board::{Point, Sink, WriteFault};
use go_game::Game;
use goref::{Fetched, Line, Session};
use goref_streams::Output;
use std::alloc::{AllocError, Global};

/// A session, and the line that it is told.
#[derive(Drop)]
struct Play<'a> {
    session: Session<Global>,
    line: Line,
    text: Vec<u8>,
    output: Output<&'a mut Digest>,
    /// How many plays were refused since the last one that was not.
    refused: u32,
    alloc: Global,
}

/// Why a game broke off.
#[derive(Drop)]
pub enum LongError {
    Memory,
    Write,
}

impl From<AllocError> for LongError {
    fn from(_: AllocError) -> LongError {
        LongError::Memory
    }
}

impl From<WriteFault> for LongError {
    fn from(_: WriteFault) -> LongError {
        LongError::Write
    }
}

/// After more refused plays than these in a row, some plays are taken back: a full board on
/// which nearly any play would repeat is left that way.
const REFUSED: u32 = 20;

/// How many plays are taken back then.
const BACK: usize = 60;

/// Plays a number of random moves, and takes all back.
pub fn play_long(
    alloc: Global,
    moves: u32,
    random: &mut Random,
    digest: &mut Digest,
) -> Result<(), LongError> {
    let mut play = Play {
        session: Session::new(alloc, usual_size()),
        line: Line::new(),
        text: Vec::new(alloc),
        output: Output::new(digest),
        refused: 0,
        alloc,
    };
    play.there_and_back(moves, random)
}

impl Play<'_> {
    fn there_and_back(&mut self, moves: u32, random: &mut Random) -> Result<(), LongError> {
        for number in 0..moves {
            self.put_any(number, random)?;
        }
        self.say(b"showboard")?;
        let left = self.session.game().move_count();
        self.take_back(left)?;
        self.say(b"showboard")
    }

    fn say(&mut self, line: &[u8]) -> Result<(), LongError> {
        self.line.clear();
        self.line.extend(line);
        self.session
            .answer(&self.line, Fetched::None, &mut self.output)?;
        match self.output.flush() {
            Ok(()) => Ok(()),
            Err(_) => Err(LongError::Write),
        }
    }

    fn put_any(&mut self, number: u32, random: &mut Random) -> Result<(), LongError> {
        let Some(at) = vacant(self.session.game(), random) else {
            return Ok(());
        };
        let mut text = Vec::new(self.alloc);
        put_play(&mut text, colour_of(number), at)?;
        let before = self.session.game().move_count();
        self.say(text.as_slice())?;
        if self.session.game().move_count() > before {
            self.refused = 0;
            return Ok(());
        }
        self.bear_refusal()
    }

    /// Counts a refused play, and takes some back where there were many.
    fn bear_refusal(&mut self) -> Result<(), LongError> {
        if self.refused < REFUSED {
            self.refused += 1;
            return Ok(());
        }
        self.refused = 0;
        self.take_back(BACK)
    }

    fn take_back(&mut self, plays: usize) -> Result<(), LongError> {
        for _ in 0..plays {
            self.say(b"undo")?;
        }
        Ok(())
    }
}

/// The first vacant point from any point on, if there is one.
fn vacant(game: &Game<Global>, random: &mut Random) -> Option<Point> {
    let mut at = Point {
        col: random.below(19) as u8,
        row: random.below(19) as u8,
    };
    for _ in 0..361u32 {
        if at.on(game.size()) && game.colour_at(at).is_none() {
            return Some(at);
        }
        at = after(at);
    }
    None
}

/// The point after this one in point order, and after the last one the first.
fn after(at: Point) -> Point {
    if at.col < 18 {
        return Point {
            col: at.col + 1,
            row: at.row,
        };
    }
    Point {
        col: 0,
        row: if at.row < 18 { at.row + 1 } else { 0 },
    }
}
