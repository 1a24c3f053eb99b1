//! The own squares from which moves that are asked for may come.
ghost use Rattle.std.specs.Prelude.{◌≡◌, ◌<◌, true, not};
ghost use Rattle.std.specs.Bool.{OnTrue};
ghost use Rattle.rules_model.specs.Attacks.{is_own};
ghost use Rattle.rules_model.specs.Kinds.{is_pawn};
ghost use Rattle.rules_model.specs.Repeats.{repeat_of};
ghost use Rattle.rules_model.specs.Squares.{cell_at};
ghost use Rattle.square_set.specs.Members.{has};
ghost use Rattle.board_sets.specs.Sets.{AreSets};
ghost use Rattle.legality.specs.AskedSquares as Spec;

use crate::asked::Asked;
use attack_tables::{Mode, Tables, cell_on};
use board_sets::{BoardSets, sets_are_on_board};
use rules_model::kinds::promoted_of;
use rules_model::sizes::prove_position_sizes;
use rules_model::{Kind, Position, Side, Square};
use square_set::Set;

/// Squares outside of which no piece of the kind goes from the square, whatever stands between.
fn goals_at_most(
    tables: &Tables,
    side: Side,
    kind: Kind,
    from: Square,
    occupied: Set,
    enemies: Set,
) -> Set
    requires kind { kind.0 < 26 }
    requires from { from.0 < 120 }
    ensures { Spec.HasGoals tables.now side kind from occupied enemies result }
{
    let quiet = tables.spot(side, kind, from, Mode::Quiet);
    let takes = tables.spot(side, kind, from, Mode::Take);
    quiet.within.minus(occupied).or(takes.within.and(enemies))
}

/// Whether it is known that a piece of the kind goes from the square to none of its kind's squares, and does not
/// promote.
fn goes_in_vain(
    asked: &Asked,
    tables: &Tables,
    side: Side,
    kind: Kind,
    from: Square,
    occupied: Set,
    enemies: Set,
) -> bool
    requires from { from.0 < 120 }
    ensures { OnTrue result (Spec.GoesInVain asked.now tables.now side kind from occupied enemies) }
{
    if kind.0 >= 26 {
        return false;
    }
    if promoted_of(tables.rules(), kind).is_some() {
        return false;
    }
    let goals = goals_at_most(tables, side, kind, from, occupied, enemies);
    goals.and(asked.to[kind.0 as usize]).is_empty()
}

/// Whether it is known that no ordinary move of the own piece on the square, which is one of `shut`, is asked for.
fn asks_none_from(
    asked: &Asked,
    tables: &Tables,
    p: &Position,
    sets: &BoardSets,
    from: Square,
) -> bool
    requires sets { AreSets tables.now p.now.side p.now.cells sets.now }
    requires from { from.0 < 120 }
    requires own { is_own p.now.side (λ kind. not (is_pawn tables.now kind)) (cell_at p.now.cells from.0) ≡ true }
    requires shut { has asked.now.shut from.0 ≡ true }
    ensures { OnTrue result (Spec.AsksNoneFrom asked.now tables.now (repeat_of p.now) from.0) }
{
    match cell_on(&p.cells, from.0) {
        None => false,
        Some(piece) => {
            let occupied = sets.occupied();
            goes_in_vain(
                asked,
                tables,
                p.side,
                piece.kind,
                from,
                occupied,
                sets.enemies,
            )
        }
    }
}

/// The squares of own pieces other than pawns, but for those from which no ordinary move is known to be asked for.
pub(crate) fn asked_squares(asked: &Asked, tables: &Tables, p: &Position, sets: &BoardSets) -> Set
    requires { AreSets tables.now p.now.side p.now.cells sets.now }
    ensures { Spec.HasAskedStarts asked.now tables.now (repeat_of p.now) result }
{
    prove_position_sizes(p);
    sets_are_on_board();
    let pieces = sets.own_pieces();
    let mut squares = pieces;
    let mut left = pieces.and(asked.shut);
    while let Some(from) = left.take_first() {
        if asks_none_from(asked, tables, p, sets, Square(from)) {
            squares = squares.without(from);
        }
    }
    squares
}
