//! The test of one move.
ghost use Rattle.std.specs.Prelude.{◌≡◌};
ghost use Rattle.board_sets.specs.Sets.{AreSets};
ghost use Rattle.rules_model.specs.Candidates.{is_special_move};
ghost use Rattle.rules_model.specs.Fit.{IsFit};
ghost use Rattle.rules_model.specs.Repeats.{repeat_of};

use crate::castles::{castle_gates, castles};
use crate::drops::drops_to;
use crate::gates::moves_and_gates;
use crate::pawn_candidate::is_pawn_candidate;
use attack_tables::Tables;
use board_sets::BoardSets;
use rules_model::{Move, Position, Rules};

/// Whether the move is a pawn's without a gate, an ordinary move of another piece with one, a castle with or without
/// one, or a drop. Whether it leaves the king safe is not asked.
#[tactic(auto, unfolding(rules_model::specs::Candidates::is_special_move, crate::specs::PawnMoves::is_pawn_move))]
pub fn is_candidate(
    rules: &Rules,
    tables: &Tables,
    p: &Position,
    sets: &BoardSets,
    m: &Move,
) -> bool
    requires fit { IsFit rules.now }
    requires tables { tables.now ≡ rules.now }
    requires sets { AreSets rules.now p.now.side p.now.cells sets.now }
    ensures { result ≡ is_special_move rules.now (repeat_of p.now) m.now }
{
    match *m {
        Move::Go { gate: None, .. } => is_pawn_candidate(rules, p, m),
        Move::Go {
            from,
            to,
            promo,
            gate: Some(kind),
        } => moves_and_gates(tables, p, sets, from, to, promo, kind),
        Move::Castle {
            from,
            to,
            rook,
            gate,
        } => {
            castles(tables, p, sets, from, to, rook) && castle_gates(rules, p, from, to, rook, gate)
        }
        Move::Drop { kind, to } => drops_to(rules, p, kind, to),
    }
}
