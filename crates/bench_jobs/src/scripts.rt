//! Lines that controllers and scripts send, drawn game by game.
use crate::drawn::{Drawn, any_size, colour_of, turned, usual_size};
use crate::random::Random;
use crate::texts::{put_number, put_play};
use go_board::{Colour, Point, Size};
use std::alloc::{AllocError, Global};
use std::io::{self, Read};

/// What lines are drawn for.
#[derive(Clone, Copy)]
pub enum Script {
    /// Games as a referee has them played.
    Referee,
    /// Records that are loaded, and their scores.
    Loads,
    /// Games by choices, and choices late in games.
    Choices,
    /// Questions about positions of games.
    Questions,
}

/// The lines of a number of games, one game's after the other.
#[derive(Drop)]
pub struct Lines {
    script: Script,
    games: u32,
    random: Random,
    id: u32,
    /// The plays of a referee's game, and from how many sides it is still to be seen: each game is
    /// played from all eight.
    plays: Vec<(Colour, Point)>,
    size: Size,
    sides: u32,
    text: Vec<u8>,
    read: usize,
}

impl Lines {
    pub fn new(alloc: Global, script: Script, games: u32, random: Random) -> Lines {
        Lines {
            script,
            games,
            random,
            id: 0,
            plays: Vec::new(alloc),
            size: usual_size(),
            sides: 0,
            text: Vec::new(alloc),
            read: 0,
        }
    }

    /// Draws the next game's lines; none where there were enough.
    fn go_on(&mut self) -> Result<(), AllocError> {
        self.text.clear();
        self.read = 0;
        if self.games == 0 {
            return Ok(());
        }
        self.games -= 1;
        match self.script {
            Script::Referee => self.put_game(),
            Script::Loads => self.text.extend_from_slice(b"loadsgf next\nfinal_score\n"),
            Script::Choices => self.put_choices(),
            Script::Questions => self.put_questions(),
        }
    }

    fn put_start(&mut self, size: Size) -> Result<(), AllocError> {
        self.text.extend_from_slice(b"boardsize ")?;
        put_number(&mut self.text, u32::from(size.lines()))?;
        self.text.extend_from_slice(b"\nclear_board\nkomi 6.5\n")
    }

    /// A line with the next id, up to its end.
    fn put_line(&mut self, line: &[u8]) -> Result<(), AllocError> {
        self.put_id()?;
        self.text.extend_from_slice(line)?;
        self.text.push(b'\n')?;
        Ok(())
    }

    fn put_id(&mut self) -> Result<(), AllocError> {
        self.id = self.id.wrapping_add(1) % 1_000_000;
        put_number(&mut self.text, self.id)?;
        self.text.push(b' ')?;
        Ok(())
    }

    /// A play of a game, where a point is found.
    fn put_turn(&mut self, drawn: &mut Drawn, number: u32) -> Result<(), AllocError> {
        let colour = colour_of(number);
        match drawn.draw(colour, &mut self.random) {
            Some(at) => self.put_move(colour, at),
            None => Ok(()),
        }
    }

    fn put_turns(&mut self, drawn: &mut Drawn, moves: u32) -> Result<(), AllocError> {
        for number in 0..moves {
            self.put_turn(drawn, number)?;
        }
        Ok(())
    }

    fn put_game(&mut self) -> Result<(), AllocError> {
        if self.sides == 0 {
            self.draw_game()?;
            self.sides = 8;
        }
        self.sides -= 1;
        self.put_start(self.size)?;
        for place in 0..self.plays.len() {
            self.put_from_side(place)?;
        }
        self.put_line(b"final_score")
    }

    fn draw_game(&mut self) -> Result<(), AllocError> {
        self.plays.clear();
        self.size = any_size(&mut self.random);
        let mut drawn = Drawn::new(self.size);
        for number in 0..u32::from(self.size.lines()) / 3 * 40 {
            let colour = colour_of(number);
            if let Some(at) = drawn.draw(colour, &mut self.random) {
                self.plays.push((colour, at))?;
            }
        }
        Ok(())
    }

    /// A play of a referee's game as it is seen from the present side, now and then taken back and
    /// played again, and a diagram after each fortieth.
    fn put_from_side(&mut self, place: usize) -> Result<(), AllocError> {
        let Some((colour, at)) = self.plays.get(place).copied() else {
            return Ok(());
        };
        let at = turned(at, self.size, self.sides);
        self.put_move(colour, at)?;
        if self.random.one_in(30) {
            self.put_line(b"undo")?;
            self.put_move(colour, at)?;
        }
        if place % 40 == 39 {
            self.put_line(b"showboard")?;
        }
        Ok(())
    }

    fn put_move(&mut self, colour: Colour, at: Point) -> Result<(), AllocError> {
        self.put_id()?;
        put_play(&mut self.text, colour, at)?;
        self.text.push(b'\n')?;
        Ok(())
    }

    fn put_choices(&mut self) -> Result<(), AllocError> {
        let size = any_size(&mut self.random);
        let mut drawn = Drawn::new(size);
        self.put_start(size)?;
        if self.random.one_in(2) {
            self.put_turns(&mut drawn, 6)?;
            self.put_generated(u32::from(size.lines()) * 4)
        } else {
            self.put_turns(&mut drawn, u32::from(size.lines()) * 12)?;
            self.put_line(b"reg_genmove w")?;
            self.put_generated(u32::from(size.lines()))
        }
    }

    fn put_generated(&mut self, moves: u32) -> Result<(), AllocError> {
        for number in 0..moves {
            if number.is_multiple_of(2) {
                self.put_line(b"genmove b")?;
            } else {
                self.put_line(b"genmove w")?;
            }
        }
        Ok(())
    }

    fn put_questions(&mut self) -> Result<(), AllocError> {
        let size = usual_size();
        let mut drawn = Drawn::new(size);
        self.put_start(size)?;
        for _ in 0..6 {
            self.put_turns(&mut drawn, 44)?;
            self.put_line(b"goref-legal b")?;
            self.put_line(b"goref-legal w")?;
            self.put_line(b"goref-chains")?;
            self.put_line(b"showboard")?;
            self.put_line(b"final_score")?;
            self.put_line(b"goref-printsgf")?;
        }
        Ok(())
    }
}

impl Read for Lines {
    fn read(&mut self, buffer: &mut [u8]) -> io::Result<usize> {
        if self.read >= self.text.len() {
            self.go_on()?;
        }
        let text = self.text.as_slice();
        if self.read > text.len() {
            return Ok(0);
        }
        let (_, rest) = text.split_at(self.read);
        let count = rest.len().min(buffer.len());
        buffer[..count].copy_from_slice(rest.split_at(count).0);
        self.read = self.read.wrapping_add(count);
        Ok(count)
    }
}
