//! The moves of many own pawns at once, by shifts of their squares.
ghost use Rattle.std.specs.Prelude.{◌<◌, IfOk, OnOk, OnErr};
ghost use Rattle.square_set.specs.Members.{has, length_of, OnSquares};
ghost use Rattle.piece_moves.specs.Taking.{TakesAll, TakesSome};
ghost use Rattle.rules_model.specs.Fit.{IsFit};
ghost use Rattle.rules_model.specs.Repeats.{repeat_of};
ghost use Rattle.attack_tables.specs.PawnMasks.{HasPawnShifts};
ghost use Rattle.board_sets.specs.Sets.{AreSets};
ghost use Rattle.special_moves.specs.PawnMoves.{FitPawnMoves};
ghost use Rattle.special_moves.specs.Shifted.{AreFreeBy, HasPassers, IsAcross, IsBy, IsForward, OfOtherPawns, OnOwnPawns};

use attack_tables::{PawnMasks, Tables};
use board_sets::{BoardSets, sets_are_on_board};
use piece_moves::MoveSink;
use rules_model::sizes::prove_position_sizes;
use rules_model::{Position, Square};
use square_set::{BOARD, EMPTY, Set, Shift};

/// The squares with no piece.
fn free(sets: &BoardSets) -> Set
    ensures { AreFreeBy sets.now result }
{
    BOARD.minus(sets.occupied())
}

/// Squares outside of which no pawn passes another: at least those from which a shift to a side leads to the en passant
/// square.
fn passers(masks: &PawnMasks, ep: Option<Square>) -> Set
    requires { HasPawnShifts masks.now }
    ensures { HasPassers masks.now ep result }
{
    match ep {
        None => EMPTY,
        Some(ep) => {
            if ep.0 >= 120 {
                return EMPTY;
            }
            let at = EMPTY.with(ep.0);
            at.shifted(masks.leftward.back())
                .or(at.shifted(masks.rightward.back()))
        }
    }
}

/// Gives the sink the moves by the shift from squares of the one set to squares of the other.
fn push_by<S: MoveSink>(shift: Shift, starts: Set, ends: Set, out: &mut S) -> Result<(), S::Full>
    requires length { length_of shift < 128 }
    requires starts { OnSquares starts }
    requires ends { OnSquares ends }
    ensures ok { OnOk result (TakesAll S.takes (IsBy shift (has starts) (has ends)) out.old out.new) }
    ensures err { OnErr result (TakesSome S.stops (IsBy shift (has starts) (has ends)) out.old out.new) }
{
    let targets = starts.shifted(shift).and(ends);
    if targets.is_empty() {
        return Ok(());
    }
    out.take_shifted(shift, targets)
}

/// Gives the sink the moves of these pawns straight forward, one step and two.
fn push_forward<S: MoveSink>(
    masks: &PawnMasks,
    pawns: Set,
    free: Set,
    out: &mut S,
) -> Result<(), S::Full>
    requires shifts { HasPawnShifts masks.now }
    requires pawns { OnSquares pawns }
    requires free { OnSquares free }
    ensures ok { OnOk result (TakesAll S.takes (IsForward masks.now pawns free) out.old out.new) }
    ensures err { OnErr result (TakesSome S.stops (IsForward masks.now pawns free) out.old out.new) }
{
    let once = pawns.and(masks.once);
    push_by(masks.ahead, once, free, out)?;
    let again = once.and(masks.twice).and(free.shifted(masks.ahead.back()));
    push_by(masks.ahead.twice(), again, free, out)
}

/// Gives the sink the moves of these pawns onto enemies.
fn push_across<S: MoveSink>(
    masks: &PawnMasks,
    pawns: Set,
    enemies: Set,
    out: &mut S,
) -> Result<(), S::Full>
    requires shifts { HasPawnShifts masks.now }
    requires pawns { OnSquares pawns }
    requires enemies { OnSquares enemies }
    ensures ok { OnOk result (TakesAll S.takes (IsAcross masks.now pawns enemies) out.old out.new) }
    ensures err { OnErr result (TakesSome S.stops (IsAcross masks.now pawns enemies) out.old out.new) }
{
    push_by(masks.leftward, pawns.and(masks.left), enemies, out)?;
    push_by(masks.rightward, pawns.and(masks.right), enemies, out)
}

/// Gives the sink, by shifts, the moves of the own pawns that are known neither to promote nor to pass another. The
/// answer is the squares of the other own pawns.
pub(crate) fn push_shifted<S: MoveSink>(
    tables: &Tables,
    p: &Position,
    sets: &BoardSets,
    out: &mut S,
) -> Result<Set, S::Full>
    requires fit { IsFit tables.now }
    requires sets { AreSets tables.now p.now.side p.now.cells sets.now }
    ensures ok { IfOk result
        (λ left. TakesAll S.takes (OfOtherPawns tables.now (repeat_of p.now) left) out.old out.new) }
    ensures on_board { IfOk result (λ left. OnSquares left) }
    ensures own { IfOk result (λ left. OnOwnPawns tables.now (repeat_of p.now) left) }
    ensures err { OnErr result (TakesSome S.stops (FitPawnMoves tables.now (repeat_of p.now)) out.old out.new) }
{
    prove_position_sizes(p);
    sets_are_on_board();
    let masks = tables.pawn_masks(p.side);
    let own = sets.own_pawns();
    let pawns = own.and(masks.plain).minus(passers(masks, p.ep));
    push_forward(masks, pawns, free(sets), out)?;
    push_across(masks, pawns, sets.enemies, out)?;
    Ok(own.minus(pawns))
}
