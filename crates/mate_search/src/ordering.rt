//! In which order the root moves are tried. Hints decide over the order, and over nothing else.
ghost use Rattle.std.specs.Prelude.{IfOk};
ghost use Rattle.foundation.specs.Member.{Lists, Member};
ghost use Rattle.legality.specs.Stance.{legal_in};

use game_play::Game;
use hint_table::{Hint, HintTable, NO_SLOT, slot_of};
use mate_settle::{FactTable, moves_to_try};
use mate_showing::{Settled, to_front};
use playing::Board;
use rules_model::{Memory, Move};
use std::alloc::Global;
use strategy::Strategy;
use watching::Halt;

/// The legal moves, each once: the hinted one first, if there is a hint, and then those that are likely to decide
/// within n moves; or `Memory`.
pub(crate) fn hinted_moves(
    alloc: Global,
    board: &Board,
    n: u16,
    facts: &FactTable,
    hints: &HintTable,
) -> Result<Vec<Move>, Memory>
    ensures { IfOk result (λ ms. Lists (λ m. Member m (legal_in board.now)) ms.items) }
{
    let mut moves = moves_to_try(alloc, board, n, facts)?;
    let slot = hints.get(board.key()).map_or(NO_SLOT, |hint| hint.slot);
    let place = moves
        .iter()
        .position(|m| slot != NO_SLOT && slot_of(m) == slot);
    to_front(moves.as_mut_slice(), place);
    Ok(moves)
}

/// The only move of a strategy at its root, if there is only one.
fn root_move(strategy: &Strategy) -> Option<Move> {
    let root = strategy.nodes.items.first()?;
    match root.edges.items.as_slice() {
        [edge] => Some(edge.chosen),
        _ => None,
    }
}

/// Leaves the move by which the game is won within n moves as a hint on its position.
pub(crate) fn leave_hint(hints: &HintTable, game: &Game, n: u16, end: &Result<Settled, Halt>) {
    let Ok(Settled::Shown(strategy)) = end else {
        return;
    };
    if let Some(chosen) = root_move(strategy) {
        let hint = Hint {
            depth: n.min(255) as u8,
            slot: slot_of(&chosen),
            bound: i16::MAX,
        };
        let board = Board::new(game.tables(), game.position());
        hints.put(board.key(), hint);
    }
}
