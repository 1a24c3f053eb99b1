//! The moves, given in turn.
ghost use Rattle.std.specs.Prelude.{◌≡◌, OnOk, OnErr};
ghost use Rattle.board_sets.specs.Sets.{AreSets};
ghost use Rattle.piece_moves.specs.Taking.{TakesAll, TakesSome};
ghost use Rattle.rules_model.specs.Fit.{IsFit};
ghost use Rattle.rules_model.specs.Repeats.{repeat_of};
ghost use Rattle.special_moves.specs.Parts.{FitSpecialMoves};

use crate::castles::push_castles;
use crate::drops::push_drops;
use crate::gates::push_gates;
use crate::pawn_generate::push_pawn_moves;
use attack_tables::Tables;
use board_sets::BoardSets;
use piece_moves::MoveSink;
use rules_model::{Position, Rules};

/// Gives the moves of pawns, those of other pieces with a gate, castles and drops, each once and in no special order:
/// those for which `is_candidate` answers yes. Where the sink is full, it was given some of them, each at most once.
pub fn push_moves<S: MoveSink>(
    rules: &Rules,
    tables: &Tables,
    p: &Position,
    sets: &BoardSets,
    out: &mut S,
) -> Result<(), S::Full>
    requires fit { IsFit rules.now }
    requires tables { tables.now ≡ rules.now }
    requires sets { AreSets rules.now p.now.side p.now.cells sets.now }
    ensures ok { OnOk result (TakesAll S.takes (FitSpecialMoves rules.now (repeat_of p.now)) out.old out.new) }
    ensures err { OnErr result (TakesSome S.stops (FitSpecialMoves rules.now (repeat_of p.now)) out.old out.new) }
{
    push_pawn_moves(tables, p, sets, out)?;
    push_gates(tables, p, sets, out)?;
    push_castles(tables, p, sets, out)?;
    push_drops(tables, p, sets, out)
}
