//! What `checkers` prints of a game.
ghost use Rattle.std.specs.Prelude.{◌≡◌, IfOk};
ghost use Rattle.checkers.specs.CheckersText.{checkers_of, checkers_text};

use crate::attackers::checkers;
use crate::list::push_squares;
use foundation::{Memory, Text};
use game_play::Game;
use std::alloc::{AllocError, Global};

#[tactic(auto, unfolding(crate::specs::CheckersText::checkers_text))]
fn text_of_squares(alloc: Global, squares: &[u8]) -> Result<Text, AllocError>
    ensures { IfOk result (λ text. text ≡ checkers_text squares.now) }
{
    let mut items = Vec::new(alloc);
    items.extend_from_slice(b"checkers")?;
    push_squares(&mut items, squares)?;
    items.extend_from_slice(b"\n")?;
    Ok(Text { items })
}

/// The squares of the pieces that attack the king of the side to move in the game's last position, or a dash.
pub fn checkers_of(alloc: Global, game: &Game) -> Result<Text, Memory>
    ensures { IfOk result (λ text. text ≡ checkers_of game.now) }
{
    game.prove_played();
    let squares = checkers(alloc, game.rules(), game.position())?;
    Ok(text_of_squares(alloc, squares.as_slice())?)
}
