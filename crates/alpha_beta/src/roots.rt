//! The moves from which a search begins.
ghost use Rattle.std.specs.Prelude.{◌↔◌, IsTrue, IfOk};
ghost use Rattle.std.specs.List.{Contains};
ghost use Rattle.alpha_beta.specs.Roots.{AreDistinct};

use foundation::Memory;
use game_play::Game;
use hint_table::HintTable;
use negamax::root_rank;
use playing::Board;
use rules_model::Move;
use std::alloc::Global;

fn is_among(moves: &[Move], m: &Move) -> bool
    ensures { IsTrue result ↔ Contains moves.now m.now }
{
    moves.contains(m)
}

/// Each of the moves once, in the order in which they first stand.
fn distinct(alloc: Global, roots: &[Move]) -> Result<Vec<Move>, Memory>
    ensures { IfOk result (λ moves. AreDistinct roots.now moves.items) }
{
    let mut moves = Vec::with_capacity(alloc, roots.len())?;
    for m in roots {
        if !is_among(&moves, m) {
            moves.push(*m)?;
        }
    }
    Ok(moves)
}

/// Each of the moves once, those first that promise most by the hints.
pub(crate) fn ordered(
    alloc: Global,
    game: &Game,
    roots: &[Move],
    hints: &HintTable,
) -> Result<Vec<Move>, Memory>
    ensures { IfOk result (λ moves. AreDistinct roots.now moves.items) }
{
    let board = Board::new(game.tables(), game.position());
    let mut moves = Vec::with_capacity(alloc, roots.len())?;
    moves.extend_from_slice(roots)?;
    moves.sort_by_cached_key(|m: &Move| root_rank(&board, hints, m))?;
    distinct(alloc, &moves)
}
