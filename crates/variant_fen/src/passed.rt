//! The square that a pawn has passed.
ghost use Rattle.std.specs.Prelude.{◌≡◌, ◌<◌, IfSome};
ghost use Rattle.fen_model.specs.Passed as Passed;
ghost use Rattle.rules_model.specs.Fit.{IsFit};

use crate::number::read_number;
use crate::pocket::says_none;
use fen_model::FenFault;
use rules_model::attacks::{ahead, pawn_at, pawn_could_take};
use rules_model::kinds::board_of;
use rules_model::soundness::{is_free, is_on_board, lies_in};
use rules_model::{Cells, Rules, Side, Square};

/// The square that a text names: the letter of a file and the number of a rank, on the largest board.
fn read_square(text: &[u8]) -> Option<Square>
    ensures is { result ≡ Passed.square_named text.now }
    ensures on_board { IfSome result (λ s. s.0 < 120) }
{
    let (file, rank) = text.split_first()?;
    let rank = read_number(rank)?;
    if matches!(*file, b'a'..=b'l') && rank >= 1 && rank <= 10 {
        Some(Square(12 * (rank as u8 - 1) + (*file - b'a')))
    } else {
        None
    }
}

/// Whether a pawn of the other side may just have passed the square.
#[tactic(auto, unfolding(fen_model::specs::Passed::is_passed))]
fn is_passed(rules: &Rules, cells: &Cells, side: Side, ep: Square) -> bool
    requires fit { IsFit rules.now }
    requires on_board { ep.0 < 120 }
    ensures { result ≡ Passed.is_passed rules.now cells.now side ep }
{
    let board = board_of(rules);
    let enemy = side.other();
    let start = ahead(board, side, ep, 1);
    is_on_board(rules, ep)
        && rules.double_step
        && is_free(cells, Some(ep.0))
        && is_free(cells, start)
        && lies_in(&rules.double_region, enemy, start)
        && pawn_at(rules, cells, enemy, ahead(board, enemy, ep, 1))
}

/// Reads the square of a field, `-` for none. It is kept where a pawn of the side to move could take there by its
/// movement.
#[tactic(auto, unfolding(fen_model::specs::Passed::passed_of))]
pub(crate) fn read_passed(
    rules: &Rules,
    cells: &Cells,
    side: Side,
    text: &[u8],
) -> Result<Option<Square>, FenFault>
    requires { IsFit rules.now }
    ensures { result ≡ Passed.passed_of rules.now cells.now side text.now }
{
    if says_none(text) {
        return Ok(None);
    }
    match read_square(text) {
        Some(ep) if is_passed(rules, cells, side, ep) => {
            let kept = pawn_could_take(rules, cells, side, ep);
            Ok(if kept { Some(ep) } else { None })
        }
        _ => Err(FenFault::EnPassant),
    }
}
