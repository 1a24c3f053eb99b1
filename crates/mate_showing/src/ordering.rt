//! In which order the moves of a position are tried: a move that is named comes first.
ghost use Rattle.std.specs.Prelude.{◌≡◌, None, Some, IfOk, IfSome, slice_get};
ghost use Rattle.foundation.specs.Member.{Lists, Member};
ghost use Rattle.mate_showing.specs.Fronts as Fronts;
ghost use Rattle.legality.specs.Stance.{legal_in};

use mate_core::Fact;
use mate_settle::{FactTable, moves_to_try};
use playing::Board;
use rules_model::{Memory, Move, is_same_move};
use std::alloc::Global;

/// Puts the move at the place first; the others stay in their order. With no place, or one past the end, nothing
/// changes.
pub fn to_front(moves: &mut [Move], place: Option<usize>)
    ensures { moves.new ≡ Fronts.with_first place moves.old }
{
    let Some(at) = place else {
        return;
    };
    if at < moves.len() {
        moves[..=at].rotate_right(1);
    }
}

/// The place of the move, if it is one of these.
fn place_of(moves: &[Move], named: &Move) -> Option<usize>
    ensures here { IfSome result (λ at. slice_get moves.now at ≡ Some named.now) }
    ensures none { result ≡ None → Member named.now moves.now → ⊥ }
{
    for i in 0..moves.len() {
        if is_same_move(&moves[i], named) {
            return Some(i);
        }
    }
    None
}

/// The legal moves, each once: the named one first, if it is among them, and then those that are likely to decide
/// within n moves; or `Memory`.
pub(crate) fn moves_from(
    alloc: Global,
    board: &Board,
    n: u16,
    facts: &FactTable,
    named: Option<Move>,
) -> Result<Vec<Move>, Memory>
    ensures each { IfOk result (λ ms. Lists (λ m. Member m (legal_in board.now)) ms.items) }
    ensures first { IfOk result (λ ms. IfSome named (Fronts.ComesFirst (legal_in board.now) ms.items)) }
{
    let mut moves = moves_to_try(alloc, board, n, facts)?;
    let Some(first) = named else {
        return Ok(moves);
    };
    let place = place_of(moves.as_slice(), &first);
    to_front(moves.as_mut_slice(), place);
    Ok(moves)
}

/// The best move of a fact that wins.
pub(crate) fn best_of_win(known: Option<Fact>) -> Option<Move>
    ensures { result ≡ Fronts.best_of_win known }
{
    match known {
        Some(fact) if fact.wins => fact.best,
        _ => None,
    }
}
