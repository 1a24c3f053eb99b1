//! Whether a game is won by force, by going along all its lines: the definition, with no table, no order and no
//! shortcut.
ghost use Rattle.std.specs.Prelude.{◌≡◌, ◌-◌, ◌<◌, true, length, IfOk, OnOk, if◌then◌else◌};
ghost use Rattle.forced_wins.specs.Wins.{wins};
ghost use Rattle.game_play.specs.Played.{legal_in, longer, shorter, story};

use foundation::Memory;
use game_play::Game;
use legality::legal_moves;
use mate_fact::won_by;
use rules_model::{Move, Side};
use std::alloc::Global;

/// The legal moves of a game.
pub fn moves_of(alloc: Global, game: &Game) -> Result<Vec<Move>, Memory>
    ensures { IfOk result (λ moves. moves.items ≡ legal_in game.now) }
{
    game.prove_played();
    let moves = legal_moves(alloc, game.rules(), game.tables(), game.position())?;
    Ok(moves.items)
}

/// Plays a legal move of a game that is short, so that nothing but memory can lack.
pub fn play(game: &mut Game, m: &Move) -> Result<(), Memory>
    ensures { OnOk result (game.new ≡ longer game.old m.now) }
{
    match game.play(m) {
        Ok(()) => Ok(()),
        Err(_) => Err(Memory),
    }
}

/// Takes the last move back.
fn take_back(game: &mut Game)
    requires { 0 < length game.old.moves }
    ensures { game.new ≡ shorter game.old }
{
    match game.undo() {
        Ok(()) => {}
        Err(_) => unreachable!(),
    }
}

/// How many moves of its own the attacker has left after one move of the game.
fn moves_left(attacking: bool, n: u16) -> u16
    requires { attacking ≡ true → 0 < n }
    ensures { result ≡ (if attacking then n - 1 else n) }
{
    if attacking { n - 1 } else { n }
}

/// Whether the side wins the game by n moves of its own, against every defence.
pub fn is_won(alloc: Global, game: &mut Game, n: u16, attacker: Side) -> Result<bool, Memory>
    ensures is { IfOk result (λ won. won ≡ wins game.old.rules n (story game.old) attacker) }
    ensures kept { OnOk result (game.new ≡ game.old) }
{
    if let Some(won) = won_by(attacker, game.outcome()) {
        return Ok(won);
    }
    let attacking = game.position().side.is(attacker);
    if attacking && n == 0 {
        return Ok(false);
    }
    let left = moves_left(attacking, n);
    let moves = moves_of(alloc, game)?;
    for i in 0..moves.len() {
        play(game, &moves[i])?;
        let won = is_won(alloc, game, left, attacker)?;
        take_back(game);
        if won == attacking {
            return Ok(attacking);
        }
    }
    Ok(!attacking)
}
