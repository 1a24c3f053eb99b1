//! What is printed of a game.
ghost use Rattle.std.specs.Prelude.{◌≡◌, ◌≤◌, IfOk};
ghost use Rattle.game_text.specs.GameTexts.{moves_of, perft_of, status_of};

use crate::moves::text_of_moves;
use crate::outcome::Printed;
use foundation::{Memory, Text};
use game_play::Game;
use legality::legal_moves;
use std::alloc::Global;
use variant_fen::write_fen;

/// The legal moves of the game's last position, one a line in the order of their texts, and then their number.
pub fn moves_of(alloc: Global, game: &Game) -> Result<Text, Memory>
    ensures { IfOk result (λ text. text ≡ moves_of game.now) }
{
    game.prove_played();
    let moves = legal_moves(alloc, game.rules(), game.tables(), game.position())?;
    Ok(text_of_moves(alloc, moves.items.as_slice())?)
}

/// How the game stands, and on a second line its last position.
#[tactic(auto, unfolding(crate::specs::GameTexts::status_of))]
pub fn status_of(alloc: Global, game: &Game) -> Result<Text, Memory>
    ensures { IfOk result (λ text. text ≡ status_of game.now) }
{
    game.prove_played();
    let fen = write_fen(alloc, game.rules(), game.position())?;
    let standing = format!(in alloc; "{}\n", Printed(game.outcome()))?;
    let mut items = standing.into_bytes();
    items.extend_from_slice(fen.items.as_slice())?;
    items.push(b'\n')?;
    Ok(Text { items })
}

/// How many lists of this many legal moves in turn there are from the game's last position.
#[tactic(auto, unfolding(crate::specs::GameTexts::perft_of))]
pub fn perft_of(alloc: Global, plies: u8, game: &Game) -> Result<Text, Memory>
    requires least { 1 ≤ plies }
    requires most { plies ≤ 9 }
    ensures { IfOk result (λ text. text ≡ perft_of plies game.now) }
{
    let count = game.perft(alloc, plies)?;
    let items = format!(in alloc; "{count}\n")?.into_bytes();
    Ok(Text { items })
}
