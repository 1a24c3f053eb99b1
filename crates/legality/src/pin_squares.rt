//! What is known of moves before they are made: which leave the own king safe, and which leave it attacked.
ghost use Rattle.std.specs.Prelude.{◌≡◌, ℕ, ◌<◌, true, IfSome};
ghost use Rattle.std.specs.Bool.{OnTrue};
ghost use Rattle.square_set.specs.Members.{has};
ghost use Rattle.rules_model.specs.Repeats.{repeat_of};
ghost use Rattle.board_sets.specs.Sets.{AreSets};
ghost use Rattle.legality.specs.Moved as Moved;
ghost use Rattle.legality.specs.Moved.{AreOwn, DropFreely, GateAtOnce, GateFreely, GoAtOnce, GoFreely};
ghost use Rattle.legality.specs.Moved.{DropWithoutEvading, GateWithoutEvading, GoWithoutEvading, HoldNoKing, IsBarred};

use attack_tables::Tables;
use board_sets::{BoardSets, sets_are_on_board};
use pins::danger::danger;
use pins::evasion::evasions;
use pins::free;
use rules_model::sizes::prove_position_sizes;
use rules_model::{Position, Rules, Square};
use square_set::{ALL, EMPTY, Set};

/// Squares at which a change opens no attack on a king of the mover.
#[derive(Clone, Copy)]
pub(crate) struct UnpinnedSquares {
    /// Those of own pieces other than kings, which may go from there to any square without an own piece.
    pub to_leave: Set,
    /// Those without an own piece, to which a piece other than a king may come that leaves no square empty: it is
    /// dropped there, or goes there and leaves another piece behind.
    pub to_enter: Set,
}

/// None is known to be free.
pub(crate) const NONE_FREE: UnpinnedSquares = UnpinnedSquares {
    to_leave: EMPTY,
    to_enter: EMPTY,
};

/// Squares from which and to which a piece evades no check: a king of the mover is attacked, and stays so.
#[derive(Clone, Copy)]
pub(crate) struct NonEvadingSquares {
    /// Those of own pieces other than kings, which evade no check by going from there to any square of `to_enter`.
    pub to_leave: Set,
    /// Those to which a piece other than a king comes that leaves no square empty, and evades no check. None holds an
    /// own piece, or is that of en passant.
    pub to_enter: Set,
}

/// None is known to evade no check.
pub(crate) const NONE_NON_EVADING: NonEvadingSquares = NonEvadingSquares {
    to_leave: EMPTY,
    to_enter: EMPTY,
};

/// The squares that are free for the side to move.
pub(crate) fn free_squares(tables: &Tables, p: &Position, sets: &BoardSets) -> UnpinnedSquares
    requires { AreSets tables.now p.now.side p.now.cells sets.now }
    ensures safe { GoFreely tables.now (repeat_of p.now) sets.now.own result.to_leave }
    ensures own { AreOwn (repeat_of p.now) result.to_leave }
    ensures no_king { HoldNoKing tables.now (repeat_of p.now) result.to_leave }
    ensures drops { DropFreely tables.now (repeat_of p.now) result.to_enter }
    ensures gates { GateFreely tables.now (repeat_of p.now) sets.now.own sets.now.kings result.to_enter }
{
    prove_position_sizes(p);
    sets_are_on_board();
    let occupied = sets.occupied();
    let anywhere = free(tables, &p.cells, sets.kings, sets.enemies, occupied, p.side);
    let own = anywhere.and(sets.own);
    let to_leave = own.minus(sets.kings);
    // A piece that comes to a square changes the board as one would that goes from there to itself.
    let to_enter = anywhere.minus(sets.own);
    UnpinnedSquares { to_leave, to_enter }
}

/// The squares from which and to which pieces evade no check. Where no piece attacks a king of the mover, `to_enter` is
/// empty. `barred` are those of own pieces and that of en passant.
fn non_evading_squares(
    tables: &Tables,
    p: &Position,
    sets: &BoardSets,
    barred: Set,
) -> NonEvadingSquares
    requires sets { AreSets tables.now p.now.side p.now.cells sets.now }
    requires barred { IsBarred (repeat_of p.now) sets.now.own barred }
    ensures go { GoWithoutEvading tables.now (repeat_of p.now) result.to_leave result.to_enter }
    ensures drop { DropWithoutEvading tables.now (repeat_of p.now) result.to_enter }
    ensures gate { GateWithoutEvading tables.now (repeat_of p.now) sets.now.own sets.now.kings result.to_enter }
{
    prove_position_sizes(p);
    sets_are_on_board();
    let occupied = sets.occupied();
    let evasions = evasions(tables, &p.cells, sets.kings, sets.enemies, occupied, p.side);
    NonEvadingSquares {
        to_leave: sets.own.minus(sets.kings).minus(evasions.leave),
        to_enter: ALL.minus(barred).minus(evasions.enter),
    }
}

/// The same, but none where a square is free: no king is attacked then.
pub(crate) fn non_evading_unless_free(
    tables: &Tables,
    p: &Position,
    sets: &BoardSets,
    barred: Set,
    free: UnpinnedSquares,
) -> NonEvadingSquares
    requires sets { AreSets tables.now p.now.side p.now.cells sets.now }
    requires barred { IsBarred (repeat_of p.now) sets.now.own barred }
    ensures go { GoWithoutEvading tables.now (repeat_of p.now) result.to_leave result.to_enter }
    ensures drop { DropWithoutEvading tables.now (repeat_of p.now) result.to_enter }
    ensures gate { GateWithoutEvading tables.now (repeat_of p.now) sets.now.own sets.now.kings result.to_enter }
{
    if free.to_leave.is_empty() && free.to_enter.is_empty() {
        non_evading_squares(tables, p, sets, barred)
    } else {
        NONE_NON_EVADING
    }
}

/// The squares of own pieces, and that of en passant: on the others no own piece is taken, and none in passing.
pub(crate) fn barred_at_once(p: &Position, own: Set) -> Set
    ensures { IsBarred (repeat_of p.now) own result }
{
    match p.ep {
        Some(at) if at.0 < 120 => own.with(at.0),
        _ => own,
    }
}

/// Whether the variant asks no more of a piece that goes and stays what it is than that it leaves the own king safe.
fn asks_only_safety(rules: &Rules) -> bool
    ensures { result ≡ Moved.asks_only_safety rules.now }
{
    !rules.immobile_bad && rules.checking
}

/// Whether the set has the square and no other.
fn is_only(set: Set, square: u8) -> bool
    requires { square < 128 }
    ensures { OnTrue result (Moved.IsOnly set square) }
{
    set.has(square) && set.without(square).is_empty()
}

/// Of the targets, those to which the mover's king may go from the square. Not told where it is not the only king,
/// where kings fly, where the variant asks more of a move than a safe king, or where a target is barred.
pub(crate) fn king_at_once(
    tables: &Tables,
    p: &Position,
    sets: &BoardSets,
    from: Square,
    targets: Set,
) -> Option<Set>
    requires sets { AreSets tables.now p.now.side p.now.cells sets.now }
    requires from { from.0 < 120 }
    requires targets { (s : ℕ) → has targets s ≡ true → s < 120 }
    ensures { IfSome result (λ sane. Moved.AreSane tables.now (repeat_of p.now) from targets sane) }
{
    prove_position_sizes(p);
    let rules = tables.rules();
    if rules.flying || !asks_only_safety(rules) || !is_only(sets.kings, from.0) {
        return None;
    }
    let barred = barred_at_once(p, sets.own);
    if !targets.and(barred).is_empty() {
        return None;
    }
    let danger = danger(
        tables,
        &p.cells,
        from,
        sets.enemies,
        sets.occupied(),
        p.side,
        targets,
    );
    Some(targets.minus(danger))
}

/// The free squares, but for the barred ones to enter, where a piece that leaves or enters one is asked nothing else;
/// else none.
pub(crate) fn free_at_once(
    rules: &Rules,
    p: &Position,
    sets: &BoardSets,
    barred: Set,
    free: UnpinnedSquares,
) -> UnpinnedSquares
    requires goes { GoFreely rules.now (repeat_of p.now) sets.now.own free.to_leave }
    requires gates { GateFreely rules.now (repeat_of p.now) sets.now.own sets.now.kings free.to_enter }
    requires barred { IsBarred (repeat_of p.now) sets.now.own barred }
    ensures goes { GoAtOnce rules.now (repeat_of p.now) result.to_leave barred }
    ensures gates { GateAtOnce rules.now (repeat_of p.now) sets.now.own sets.now.kings result.to_enter }
{
    if !asks_only_safety(rules) {
        return NONE_FREE;
    }
    UnpinnedSquares {
        to_leave: free.to_leave,
        to_enter: free.to_enter.minus(barred),
    }
}
