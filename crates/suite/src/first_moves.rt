//! The first moves that win a game, each within how many moves.
ghost use Rattle.std.specs.Prelude.{◌≡◌, ◌-◌, ◌++◌, ◌<◌, ◌≤◌, suc, false, length, option_map, IfOk, OnOk};
ghost use Rattle.std.specs.List.{All};
ghost use Rattle.foundation.specs.Count.{first_below};
ghost use Rattle.foundation.specs.Member.{Member};
ghost use Rattle.rules_model.specs.Sides.{same_side};
ghost use Rattle.forced_wins.specs.Wins.{IsInLimit};
ghost use Rattle.game_play.specs.Played.{legal_in, story};
ghost use Rattle.game_play.specs.declared.game.TheConstants.{MOST_PLIES};
ghost use Rattle.suite.specs.FirstMoves as FirstMoves;
ghost use Rattle.suite.specs.Winning.{side_wins};

use crate::at_once::wins_at_once;
use crate::keys_fault::KeysFault;
use crate::playing_on::{play_on, take_back};
use crate::winning::least_win;
use game_play::{Game, MOST_PLIES};
use legality::legal_moves;
use mate_search::is_counted;
use rules_model::{Memory, Move, Outcome, Side};
use std::alloc::Global;
use std::marker::Model;
use std::sync::Wait;

/// The most plies of a game after which a move and a reply can be kept.
const MOST_BEFORE: usize = MOST_PLIES - 2;

/// A first move by which the side that is to move wins.
#[derive(Clone, Copy)]
pub struct Key {
    pub chosen: Move,
    /// The least number of moves within which the side wins with it, the move itself among them.
    pub moves: u16,
}

/// The first moves that win, in the order of their texts. Contracts see the list of these.
#[derive(Drop)]
pub struct Keys {
    pub items: Vec<Key>,
}

impl Model for Keys {
    ghost use Rattle.std.specs.Prelude.{List};
    ghost use Rattle.suite.specs.declared.first_moves.Key.{Key};

    ghost Value = { List Key };

    ghost view = { λ k. k.items.items };
}

// Within how many moves, and one, the side wins the game after its move, up to n in all.
fn moves_after<R: Wait>(
    rt: &R,
    alloc: Global,
    game: &mut Game,
    side: Side,
    n: u16,
) -> Result<Option<u16>, Memory>
    requires some { 1 ≤ n }
    requires few { n ≤ 20 }
    requires turn { same_side (story game.old).last.side side ≡ false }
    requires room { length game.old.moves < MOST_PLIES }
    requires in_limit { IsInLimit game.old.rules (n - 1) (story game.old) }
    ensures same { game.new ≡ game.old }
    ensures is { IfOk result (λ k.
        k ≡ option_map suc (first_below (side_wins game.old.rules (story game.old) side) n)) }
{
    if wins_at_once(alloc, game, side)? {
        return Ok(Some(1));
    }
    match least_win(rt, alloc, game, side, n - 1)? {
        Some(won) => Ok(Some(won.moves + 1)),
        None => Ok(None),
    }
}

// Within how many moves, up to n, the side that is to move wins with the move.
fn moves_by<R: Wait>(
    rt: &R,
    alloc: Global,
    game: &mut Game,
    chosen: &Move,
    n: u16,
) -> Result<Option<u16>, Memory>
    requires legal { Member chosen.now (legal_in game.old) }
    requires some { 1 ≤ n }
    requires few { n ≤ 20 }
    requires room { length game.old.moves ≤ FirstMoves.most_plies }
    requires in_limit { IsInLimit game.old.rules n (story game.old) }
    ensures same { game.new ≡ game.old }
    ensures is { IfOk result (λ k. k ≡ FirstMoves.moves_by game.old.rules n (story game.old) chosen.now) }
{
    let side = game.position().side;
    play_on(game, chosen)?;
    let moves = moves_after(rt, alloc, game, side, n);
    take_back(game);
    moves
}

// Appends the move with its number, where it wins.
fn push_key(keys: &mut Vec<Key>, chosen: &Move, moves: Option<u16>) -> Result<(), Memory>
    ensures { OnOk result (keys.new.items ≡ keys.old.items ++ FirstMoves.key_by chosen.now moves) }
{
    if let Some(moves) = moves {
        keys.push(Key {
            chosen: *chosen,
            moves,
        })?;
    }
    Ok(())
}

// Appends those of the moves that win.
fn push_keys<R: Wait>(
    rt: &R,
    alloc: Global,
    keys: &mut Vec<Key>,
    game: &mut Game,
    moves: &[Move],
    n: u16,
) -> Result<(), Memory>
    requires legal { All (λ m. Member m (legal_in game.old)) moves.now }
    requires some { 1 ≤ n }
    requires few { n ≤ 20 }
    requires room { length game.old.moves ≤ FirstMoves.most_plies }
    requires in_limit { IsInLimit game.old.rules n (story game.old) }
    ensures same { game.new ≡ game.old }
    ensures pushed { OnOk result (keys.new.items
        ≡ keys.old.items ++ FirstMoves.keys_among game.old.rules n (story game.old) moves.now) }
{
    for chosen in moves {
        let within = moves_by(rt, alloc, game, chosen, n)?;
        push_key(keys, chosen, within)?;
    }
    Ok(())
}

// Those of all legal moves that win.
fn keys_of<R: Wait>(rt: &R, alloc: Global, game: &mut Game, n: u16) -> Result<Keys, Memory>
    requires some { 1 ≤ n }
    requires few { n ≤ 20 }
    requires room { length game.old.moves ≤ FirstMoves.most_plies }
    requires in_limit { IsInLimit game.old.rules n (story game.old) }
    ensures same { game.new ≡ game.old }
    ensures keys { IfOk result (λ keys.
        keys ≡ FirstMoves.keys_among game.old.rules n (story game.old) (legal_in game.old)) }
{
    game.prove_played();
    let moves = legal_moves(alloc, game.rules(), game.tables(), game.position())?;
    let mut items = Vec::new(alloc);
    push_keys(rt, alloc, &mut items, game, moves.items.as_slice(), n)?;
    Ok(Keys { items })
}

// Why the game is not asked, if it is not.
fn fault_of(game: &Game, n: u16) -> Option<KeysFault>
    ensures { result ≡ FirstMoves.fault_of n game.now }
{
    if game.outcome() != Outcome::Ongoing {
        return Some(KeysFault::Ended);
    }
    if is_counted(game.rules(), n, game.position()) {
        return Some(KeysFault::NearCount);
    }
    if game.moves().len() > MOST_BEFORE {
        return Some(KeysFault::TooLong);
    }
    None
}

/// The first moves by which the side that is to move wins the game by force within `n` moves, 1 to 20, each with the
/// least such number, in the order of their texts; or why the game is not asked. Each move is looked at by itself, over
/// facts of its own. The game is what it was, also after an error.
///
/// # Errors
///
/// `Memory` where there is none.
pub fn mate_keys<R: Wait>(
    rt: &R,
    alloc: Global,
    game: &mut Game,
    n: u16,
) -> Result<Result<Keys, KeysFault>, Memory>
    requires some { 1 ≤ n }
    requires few { n ≤ 20 }
    ensures same { game.new ≡ game.old }
    ensures keys { IfOk result (λ keys. keys ≡ FirstMoves.mate_keys n game.old) }
{
    match fault_of(game, n) {
        Some(fault) => Ok(Err(fault)),
        None => {
            let keys = keys_of(rt, alloc, game, n)?;
            Ok(Ok(keys))
        }
    }
}
