//! Reads a record, and prints how many moves its game has and by how many hundredths of a point Black is ahead.
#![tactic(auto)]

use go_record::replay;
use go_sgf::read;
use std::io;
use std::io::Read;

fn main(rt: HostRuntime) -> io::Result<()> {
    let mut source = Vec::new(rt.alloc());
    rt.stdin().read_to_end(&mut source)?;
    let collection = match read(rt.alloc(), source.as_slice()) {
        Ok(collection) => collection,
        Err(why) => return println!(rt; "{why}"),
    };
    match replay(rt.alloc(), &collection, None) {
        Ok(game) => println!(rt; "{} moves, margin {}", game.move_count(), game.margin()),
        Err(why) => println!(rt; "{why}"),
    }
}
