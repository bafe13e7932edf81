//! Shows the board after each move of a record.
#![tactic(auto)]

use go_board::{Colour, Point};
use go_game::Game;
use go_record::replay;
use go_sgf::{Collection, read};
use std::alloc::Global;
use std::io;
use std::io::Read;

/// Prints the board, the highest row first.
fn show(rt: &HostRuntime, game: &Game<Global>) -> io::Result<()> {
    let lines = game.size().lines();
    for row in (0..lines).rev() {
        for col in 0..lines {
            print!(rt;
                "{}",
                match game.colour_at(Point { col, row }) {
                    Some(Colour::Black) => " X",
                    Some(Colour::White) => " O",
                    None => " .",
                }
            )?;
        }
        println!(rt;)?;
    }
    println!(rt;)
}

/// Shows a game's board, and then after each move of the whole game.
fn show_moves(rt: &HostRuntime, whole: &Game<Global>, game: &mut Game<Global>) -> io::Result<()> {
    show(rt, game)?;
    for number in 0..whole.move_count() {
        let Some(made) = whole.move_at(number) else {
            break
        };
        match game.play(made) {
            Ok(_) => show(rt, game)?,
            Err(_) => break,
        }
    }
    Ok(())
}

/// Shows the boards of a record's game, from its start on.
fn show_record(rt: &HostRuntime, collection: &Collection<'_, Global>) -> io::Result<()> {
    let whole = match replay(rt.alloc(), collection, None) {
        Ok(whole) => whole,
        Err(why) => return println!(rt; "{why}"),
    };
    match replay(rt.alloc(), collection, Some(1)) {
        Ok(mut start) => show_moves(rt, &whole, &mut start),
        Err(why) => println!(rt; "{why}"),
    }
}

fn main(rt: HostRuntime) -> io::Result<()> {
    let mut source = Vec::new(rt.alloc());
    rt.stdin().read_to_end(&mut source)?;
    match read(rt.alloc(), source.as_slice()) {
        Ok(collection) => show_record(&rt, &collection),
        Err(why) => println!(rt; "{why}"),
    }
}
