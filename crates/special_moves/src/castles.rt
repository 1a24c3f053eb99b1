//! Castles, with a gate or without one.
ghost use Rattle.std.specs.Prelude.{◌≡◌, ◌≢◌, ◌<◌, ◌&&◌, true, not, is_some, None, OnOk, OnErr, IfSome};
ghost use Rattle.std.specs.Bool.{OnTrue};
ghost use Rattle.piece_moves.specs.Taking.{TakesAll, TakesSome};
ghost use Rattle.rules_model.specs.Attacks.{is_own};
ghost use Rattle.rules_model.specs.Castling as Castling;
ghost use Rattle.rules_model.specs.Castling.{IsFitCastle, castling_on};
ghost use Rattle.rules_model.specs.Fit.{IsFit};
ghost use Rattle.rules_model.specs.Gating as Gating;
ghost use Rattle.rules_model.specs.Kinds.{masks};
ghost use Rattle.rules_model.specs.Repeats.{repeat_of};
ghost use Rattle.board_sets.specs.Sets.{AreSets};
ghost use Rattle.special_moves.specs.Castles as Castles;
ghost use Rattle.special_moves.specs.Parts as Parts;
ghost use Rattle.special_moves.specs.Parts.{IsCastle, IsCastleOf, IsCastleTo, IsGateOf, IsGateOn, IsGatedCastle};

use crate::way::{holds_own_king, way_is_open};
use attack_tables::{Tables, cell_on};
use board_sets::BoardSets;
use piece_moves::{MoveSink, holds_a_right, push_if};
use rules_model::castling::{
    CastleSquares, castle_of, castling_square, holds_right, is_rook, rook_target, rook_to_file,
};
use rules_model::kinds::in_hand;
use rules_model::{Cell, KINDS, Kind, Move, Placed, Position, Rules, Side, Square, Wing};

/// Whether the king is in place and the way is open.
fn is_open(tables: &Tables, p: &Position, sets: &BoardSets, castle: &CastleSquares) -> bool
    requires sets { AreSets tables.now p.now.side p.now.cells sets.now }
    requires castle { IsFitCastle castle.now }
    ensures { result ≡ Castles.is_open tables.now (repeat_of p.now) castle.now }
{
    holds_own_king(tables.rules(), p, castle.king) && way_is_open(tables, p, sets, castle)
}

/// Whether a piece stands there that is no castling rook of the side.
fn is_no_rook(rules: &Rules, side: Side, cell: Option<Cell>) -> bool
    ensures { result ≡ (is_some cell && not (is_own side (masks rules.now.castle_rooks) cell)) }
{
    cell.is_some() && !is_rook(rules, side, cell)
}

/// Whether it is seen at once that the way to the wing is not open: a piece that is no castling rook stands where the
/// rook would go. It spares the search for the rook.
fn is_blocked(rules: &Rules, p: &Position, wing: Wing) -> bool
    requires fit { IsFit rules.now }
    requires on { castling_on rules.now ≡ true }
    ensures { OnTrue result (Castles.open_castle rules.now (repeat_of p.now) wing ≡ None) }
{
    let file = rook_to_file(rules, wing);
    if file == rules.castle_king {
        return false;
    }
    let at = castling_square(rules, p.side, file);
    is_no_rook(rules, p.side, cell_on(&p.cells, at.0))
}

/// The side's castle to the wing, where the variant has castling, the side holds the right, and king, rook and way are
/// as they must be.
#[tactic(auto, unfolding(crate::specs::Castles::open_castle))]
fn open_castle(tables: &Tables, p: &Position, sets: &BoardSets, wing: Wing) -> Option<CastleSquares>
    requires sets { AreSets tables.now p.now.side p.now.cells sets.now }
    ensures is { result ≡ Castles.open_castle tables.now (repeat_of p.now) wing }
    ensures on_board { IfSome result IsFitCastle }
{
    if !(holds_right(&p.rights, p.side, wing) && tables.castling_on()) {
        return None;
    }
    let rules = tables.rules();
    if is_blocked(rules, p, wing) {
        return None;
    }
    let castle = castle_of(rules, &p.cells, p.side, wing)?;
    if is_open(tables, p, sets, &castle) {
        Some(castle)
    } else {
        None
    }
}

// ---- the test of one castle

fn is_castle(castle: &CastleSquares, from: Square, to: Square, rook: Square) -> bool
    ensures { result ≡ Castling.is_castle castle.now from to rook }
{
    from.0 == castle.king.0 && to.0 == castle.king_to.0 && rook.0 == castle.rook.0
}

/// Whether king and rook of these squares castle to the wing.
fn castles_on(
    tables: &Tables,
    p: &Position,
    sets: &BoardSets,
    from: Square,
    to: Square,
    rook: Square,
    wing: Wing,
) -> bool
    requires sets { AreSets tables.now p.now.side p.now.cells sets.now }
    requires on { castling_on tables.now ≡ true }
    ensures is { result ≡ Castling.castles_on tables.now (repeat_of p.now) from to rook wing }
    ensures on_board { OnTrue result (to.0 < 120) }
{
    if !holds_right(&p.rights, p.side, wing) {
        return false;
    }
    match castle_of(tables.rules(), &p.cells, p.side, wing) {
        None => false,
        Some(castle) => {
            if !is_castle(&castle, from, to, rook) {
                return false;
            }
            is_open(tables, p, sets, &castle)
        }
    }
}

/// Whether king and rook of these squares castle.
#[tactic(auto, unfolding(rules_model::specs::Castling::castles))]
pub(crate) fn castles(
    tables: &Tables,
    p: &Position,
    sets: &BoardSets,
    from: Square,
    to: Square,
    rook: Square,
) -> bool
    requires sets { AreSets tables.now p.now.side p.now.cells sets.now }
    ensures is { result ≡ Castling.castles tables.now (repeat_of p.now) from to rook }
    ensures on_board { OnTrue result (to.0 < 120) }
{
    tables.castling_on()
        && (castles_on(tables, p, sets, from, to, rook, Wing::Kingside)
            || castles_on(tables, p, sets, from, to, rook, Wing::Queenside))
}

// ---- gates

/// Whether a castle may place a piece of the kind, by the rules and the hand alone.
fn has_placed(rules: &Rules, p: &Position, kind: Kind) -> bool
    ensures { result ≡ Parts.has_placed rules.now (repeat_of p.now) kind }
{
    rules.gate_hand && in_hand(&p.hands, p.side, kind) > 0
}

/// Whether the castle of these squares may place so: nothing, or a hand piece on the king's or the rook's start, where
/// that is empty after the castle.
pub(crate) fn castle_gates(
    rules: &Rules,
    p: &Position,
    from: Square,
    to: Square,
    rook: Square,
    gate: Option<Placed>,
) -> bool
    requires { to.0 < 120 }
    ensures { result ≡ Gating.castle_gates rules.now (repeat_of p.now) from to rook gate }
{
    match gate {
        None => true,
        Some(Placed { kind, at }) => {
            has_placed(rules, p, kind)
                && (at.0 == from.0 || at.0 == rook.0)
                && at.0 != to.0
                && at.0 != rook_target(from, to, rook)
        }
    }
}

fn castle_move(castle: &CastleSquares, gate: Option<Placed>) -> Move
    ensures { result ≡ Parts.castle_move castle.now gate }
{
    Move::Castle {
        from: castle.king,
        to: castle.king_to,
        rook: castle.rook,
        gate,
    }
}

/// Gives the castle that places a piece of the kind on the square, where it may.
fn push_gate<S: MoveSink>(
    rules: &Rules,
    p: &Position,
    castle: &CastleSquares,
    placed: Placed,
    out: &mut S,
) -> Result<(), S::Full>
    requires { IsFitCastle castle.now }
    ensures ok { OnOk result
        (TakesAll S.takes (IsGateOn rules.now (repeat_of p.now) castle.now placed.at placed.kind.0) out.old out.new) }
    ensures err { OnErr result
        (TakesSome S.stops (IsGateOn rules.now (repeat_of p.now) castle.now placed.at placed.kind.0) out.old out.new) }
{
    let gate = Some(placed);
    let may = castle_gates(rules, p, castle.king, castle.king_to, castle.rook, gate);
    push_if(may, castle_move(castle, gate), out)
}

/// Gives the castles that place a piece of the kind.
fn push_gates_of<S: MoveSink>(
    rules: &Rules,
    p: &Position,
    castle: &CastleSquares,
    kind: Kind,
    out: &mut S,
) -> Result<(), S::Full>
    requires castle { IsFitCastle castle.now }
    requires apart { castle.now.king.0 ≢ castle.now.rook.0 }
    ensures ok { OnOk result
        (TakesAll S.takes (IsGateOf rules.now (repeat_of p.now) castle.now kind.0) out.old out.new) }
    ensures err { OnErr result
        (TakesSome S.stops (IsGateOf rules.now (repeat_of p.now) castle.now kind.0) out.old out.new) }
{
    let on_king = Placed {
        kind,
        at: castle.king,
    };
    let on_rook = Placed {
        kind,
        at: castle.rook,
    };
    push_gate(rules, p, castle, on_king, out)?;
    push_gate(rules, p, castle, on_rook, out)
}

/// Gives the castles that place a piece.
fn push_gates<S: MoveSink>(
    rules: &Rules,
    p: &Position,
    castle: &CastleSquares,
    out: &mut S,
) -> Result<(), S::Full>
    requires castle { IsFitCastle castle.now }
    requires apart { castle.now.king.0 ≢ castle.now.rook.0 }
    ensures ok { OnOk result (TakesAll S.takes (IsGatedCastle rules.now (repeat_of p.now) castle.now) out.old out.new) }
    ensures err { OnErr result
        (TakesSome S.stops (IsGatedCastle rules.now (repeat_of p.now) castle.now) out.old out.new) }
{
    for k in 0..KINDS as u8 {
        let kind = Kind(k);
        if has_placed(rules, p, kind) {
            push_gates_of(rules, p, castle, kind, out)?;
        }
    }
    Ok(())
}

/// Gives the castle of these squares, and those that place a piece besides.
fn push_castle<S: MoveSink>(
    rules: &Rules,
    p: &Position,
    castle: &CastleSquares,
    out: &mut S,
) -> Result<(), S::Full>
    requires castle { IsFitCastle castle.now }
    requires apart { castle.now.king.0 ≢ castle.now.rook.0 }
    ensures ok { OnOk result (TakesAll S.takes (IsCastleOf rules.now (repeat_of p.now) castle.now) out.old out.new) }
    ensures err { OnErr result (TakesSome S.stops (IsCastleOf rules.now (repeat_of p.now) castle.now) out.old out.new) }
{
    push_if(true, castle_move(castle, None), out)?;
    push_gates(rules, p, castle, out)
}

/// Gives the castles to the wing.
fn push_castles_to<S: MoveSink>(
    tables: &Tables,
    p: &Position,
    sets: &BoardSets,
    wing: Wing,
    out: &mut S,
) -> Result<(), S::Full>
    requires sets { AreSets tables.now p.now.side p.now.cells sets.now }
    ensures ok { OnOk result (TakesAll S.takes (IsCastleTo tables.now (repeat_of p.now) wing) out.old out.new) }
    ensures err { OnErr result (TakesSome S.stops (IsCastleTo tables.now (repeat_of p.now) wing) out.old out.new) }
{
    match open_castle(tables, p, sets, wing) {
        None => Ok(()),
        Some(castle) => push_castle(tables.rules(), p, &castle, out),
    }
}

/// Gives the castles.
pub(crate) fn push_castles<S: MoveSink>(
    tables: &Tables,
    p: &Position,
    sets: &BoardSets,
    out: &mut S,
) -> Result<(), S::Full>
    requires sets { AreSets tables.now p.now.side p.now.cells sets.now }
    ensures ok { OnOk result (TakesAll S.takes (IsCastle tables.now (repeat_of p.now)) out.old out.new) }
    ensures err { OnErr result (TakesSome S.stops (IsCastle tables.now (repeat_of p.now)) out.old out.new) }
{
    if !tables.castling_on() {
        return Ok(());
    }
    // Asked once, before the calls for the wings, since few positions of a game have a right left.
    if !holds_a_right(p) {
        return Ok(());
    }
    push_castles_to(tables, p, sets, Wing::Kingside, out)?;
    push_castles_to(tables, p, sets, Wing::Queenside, out)
}
