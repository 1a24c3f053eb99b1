//! The position as a whole: its kings and the number of its pieces.
ghost use Rattle.std.specs.Prelude.{◌≡◌, MatchResult, Ok, Err};
ghost use Rattle.rules_model.specs.Fit.{IsFit};
ghost use Rattle.fen_model.specs.Reading.{judged};

use fen_model::FenFault;
use rules_model::soundness::{has_its_king, pieces_of};
use rules_model::{Position, Rules, Side, king_attacked};

const MOST_PIECES: usize = 240;

/// Judges the position: each side has its king, there are not too many pieces, and the king of the side that is not to
/// move is not attacked.
#[tactic(auto, unfolding(fen_model::specs::Reading::judged))]
pub(crate) fn judge(rules: &Rules, p: &Position) -> Result<(), FenFault>
    requires { IsFit rules.now }
    ensures { MatchResult result (λ _. judged rules.now p.now ≡ Ok p.now)
        (λ fault. judged rules.now p.now ≡ Err fault) }
{
    if !(has_its_king(rules, &p.cells, Side::White) && has_its_king(rules, &p.cells, Side::Black)) {
        return Err(FenFault::Kings);
    }
    if pieces_of(p, Side::White) + pieces_of(p, Side::Black) > MOST_PIECES {
        return Err(FenFault::TooMany);
    }
    if king_attacked(rules, &p.cells, p.side.other()) {
        return Err(FenFault::OpponentAttacked);
    }
    Ok(())
}
