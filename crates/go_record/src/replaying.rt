//! A record's main line replayed, into a new game or into one that exists. This file has the order of the
//! steps: first the root's values, then node after node, then the end. `walk.rt` has what one node does.
ghost use Rattle.std.specs.Prelude.{◌≡◌, ◌≢◌, Err, IfErr, IfOk, Ok, OnErr, OnOk, true};
ghost use Rattle.go_record.specs.declared.error.RecordError.TheVariants.{Memory};
ghost use Rattle.go_game.specs.Standings.{is_vacant_standing};
ghost use Rattle.go_record.specs.Games.{IsGameOf};
ghost use Rattle.go_record.specs.MainLine.{events_from};
ghost use Rattle.go_record.specs.inner.Progress.{Says, Walked, remaining_by};
ghost use Rattle.go_sgf.specs.MainLine.{main_line};
ghost use Rattle.go_sgf.specs.Record.{Trees};
ghost use Rattle.go_sgf.specs.Spelling.{OfRecord, Spells};

use crate::error::RecordError;
use crate::root::{Root, root_of, root_values};
use crate::state::{Remaining, Walk};
use crate::walk::next_number;
use go_board::Grid;
use go_game::Game;
use go_sgf::{Checked, Collection, MainLine, laws};
use std::alloc::Allocator;

/// The game of a record: that of the main line of its first tree, with its size, komi and start, under the
/// positional superko rule. Moves are counted from 1. With a number the move of that number isn't played, and
/// the walk ends there, after the set-up in that move's node. 0 is read as 1. It checks GM, SZ and KM in this
/// order, then each node up to the end of the walk, and returns the first refusal. If memory runs out, it
/// returns `Memory` instead.
pub fn replay<A: Allocator + Copy>(
    alloc: A,
    collection: &Collection<'_, A>,
    number: Option<u32>,
) -> Result<Game<A>, RecordError>
    ensures ok { IfOk result
        (λ game. IsGameOf collection.now number (Ok game.standing)) }
    ensures err { IfErr result
        (λ e. e ≢ Memory → IsGameOf collection.now number (Err e)) }
{
    laws::one_record();
    replay_source(alloc, &collection.checked(), number)
}

/// The game of the record that a source spells, as [`replay`] gives it, without lists of its parts.
pub fn replay_source<A: Allocator + Copy>(
    alloc: A,
    checked: &Checked<'_>,
    number: Option<u32>,
) -> Result<Game<A>, RecordError>
    ensures ok { OfRecord checked.now (λ c. IfOk result
        (λ game. IsGameOf c number (Ok game.standing))) }
    ensures err { OfRecord checked.now (λ c. IfErr result
        (λ e. e ≢ Memory → IsGameOf c number (Err e))) }
{
    let root = root_of(&root_values(checked))?;
    let mut game = Game::new(alloc, root.size);
    walk_on(&mut game, &root, checked, number)?;
    Ok(game)
}

/// Replays a record into an existing game, as [`replay`] does. After a refusal the game is vacant.
pub fn replay_on<A: Allocator + Copy>(
    game: &mut Game<A>,
    collection: &Collection<'_, A>,
    number: Option<u32>,
) -> Result<(), RecordError>
    ensures ok { OnOk result
        (IsGameOf collection.now number (Ok game.new.standing)) }
    ensures err { IfErr result
        (λ e. e ≢ Memory → IsGameOf collection.now number (Err e)) }
    ensures vacant { OnErr result (is_vacant_standing game.new.standing ≡ true) }
{
    laws::one_record();
    replay_source_on(game, &collection.checked(), number)
}

/// Replays a record into an existing game, as [`replay_source`] does. After a refusal the game is vacant.
pub fn replay_source_on<A: Allocator + Copy>(
    game: &mut Game<A>,
    checked: &Checked<'_>,
    number: Option<u32>,
) -> Result<(), RecordError>
    ensures ok { OfRecord checked.now (λ c. OnOk result
        (IsGameOf c number (Ok game.new.standing))) }
    ensures err { OfRecord checked.now (λ c. IfErr result
        (λ e. e ≢ Memory → IsGameOf c number (Err e))) }
    ensures vacant { OnErr result (is_vacant_standing game.new.standing ≡ true) }
{
    match replay_into(game, checked, number) {
        Ok(()) => Ok(()),
        Err(why) => {
            game.clear();
            Err(why)
        }
    }
}

/// As [`replay_source_on`], but after a refusal the game is as the walk left it.
fn replay_into<A: Allocator + Copy>(
    game: &mut Game<A>,
    checked: &Checked<'_>,
    number: Option<u32>,
) -> Result<(), RecordError>
    ensures ok { OfRecord checked.now (λ c. OnOk result
        (IsGameOf c number (Ok game.new.standing))) }
    ensures err { OfRecord checked.now (λ c. IfErr result
        (λ e. e ≢ Memory → IsGameOf c number (Err e))) }
{
    let root = root_of(&root_values(checked))?;
    walk_on(game, &root, checked, number)
}

/// Walks along a record of this size and komi.
pub(crate) fn walk_on<A: Allocator + Copy>(
    game: &mut Game<A>,
    root: &Root,
    checked: &Checked<'_>,
    number: Option<u32>,
) -> Result<(), RecordError>
    ensures ok { (c : Trees) → Spells checked.now c → Says c root.now.size root.now.komi
        → OnOk result (IsGameOf c number (Ok game.new.standing)) }
    ensures err { (c : Trees) → Spells checked.now c → Says c root.now.size root.now.komi
        → IfErr result (λ e. e ≢ Memory → IsGameOf c number (Err e)) }
{
    let mut walk = Walk {
        komi: root.komi,
        grid: Grid::new(root.size),
        given_mover: None,
        has_played: false,
        remaining: remaining_before(number),
    };
    visit_line(&mut walk, game, checked)?;
    walk.finish(game)
}

/// How many moves a walk plays that ends before the move of this number.
fn remaining_before(number: Option<u32>) -> Remaining
    ensures { result ≡ remaining_by number }
{
    match number {
        None => Remaining::All,
        Some(0) => Remaining::Moves(0),
        Some(number) => Remaining::Moves(number - 1),
    }
}

/// Visits the nodes of a record's main line, up to the end of the walk.
fn visit_line<A: Allocator + Copy>(
    walk: &mut Walk,
    game: &mut Game<A>,
    checked: &Checked<'_>,
) -> Result<(), RecordError>
    ensures { (c : Trees) → Spells checked.now c → Walked result (walk.old, game.old)
        (events_from 0 (main_line c)) (walk.new, game.new) }
{
    laws::one_record();
    let mut cursor = MainLine::of(checked);
    let mut count = 0;
    while cursor.next_node() {
        walk.visit_node(game, &mut cursor, count)?;
        if walk.is_over() {
            return Ok(());
        }
        count = next_number(count)?;
    }
    Ok(())
}
