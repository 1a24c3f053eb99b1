//! All moves of the own pawns.
ghost use Rattle.std.specs.Prelude.{◌≡◌, true, OnOk, OnErr};
ghost use Rattle.piece_moves.specs.Taking.{TakesAll, TakesSome};
ghost use Rattle.rules_model.specs.Attacks as Attacks;
ghost use Rattle.rules_model.specs.Fit.{IsFit};
ghost use Rattle.rules_model.specs.Pawns as Pawns;
ghost use Rattle.rules_model.specs.Repeats.{repeat_of};
ghost use Rattle.rules_model.specs.Squares.{cell_at};
ghost use Rattle.board_sets.specs.Sets.{AreSets};
ghost use Rattle.special_moves.specs.PawnParts as Parts;
ghost use Rattle.special_moves.specs.PawnParts.{IsPromotion, IsMoveTo, IsAhead, IsAside, IsStep, IsTake, IsMoveFrom};
ghost use Rattle.special_moves.specs.PawnMoves.{FitPawnMoves};

use crate::pawn::{Flank, becomes, diagonal, is_enemy_on, may_step_twice, promotes};
use crate::shifted::push_shifted;
use attack_tables::Tables;
use board_sets::BoardSets;
use piece_moves::{MoveSink, push_if};
use rules_model::attacks::ahead;
use rules_model::kinds::{board_of, masks};
use rules_model::passing::is_ep;
use rules_model::soundness::is_free;
use rules_model::{KINDS, Kind, Move, Position, Promo, Rules, Square};

/// The move without a gate.
fn go(from: Square, to: Square, promo: Promo) -> Move
    ensures { result ≡ Parts.go from to promo }
{
    Move::Go {
        from,
        to,
        promo,
        gate: None,
    }
}

/// Gives the sink a promotion to each of the kinds to which pawns promote.
fn push_promotions<S: MoveSink>(
    kinds: &[bool; KINDS],
    from: Square,
    to: Square,
    out: &mut S,
) -> Result<(), S::Full>
    ensures ok { OnOk result (TakesAll S.takes (IsPromotion kinds.now from to 26) out.old out.new) }
    ensures err { OnErr result (TakesSome S.stops (IsPromotion kinds.now from to 26) out.old out.new) }
{
    for k in 0..KINDS as u8 {
        let kind = Kind(k);
        push_if(masks(kinds, kind), go(from, to, Promo::Pawn(kind)), out)?;
    }
    Ok(())
}

/// Gives the sink the moves from the one square to the other, to which the pawn goes or on which it passes
/// another pawn.
fn push_to<S: MoveSink>(
    rules: &Rules,
    p: &Position,
    from: Square,
    to: Square,
    goes: bool,
    passes: bool,
    out: &mut S,
) -> Result<(), S::Full>
    requires goes { goes ≡ Pawns.pawn_goes rules.now (repeat_of p.now) from to.0 }
    requires passes { passes ≡ Pawns.passes_by rules.now (repeat_of p.now) from to.0 }
    ensures ok { OnOk result (TakesAll S.takes (IsMoveTo rules.now (repeat_of p.now) from to) out.old out.new) }
    ensures err { OnErr result (TakesSome S.stops (IsMoveTo rules.now (repeat_of p.now) from to) out.old out.new) }
{
    let may = promotes(rules, p.side, goes, to);
    push_if(
        becomes(rules, may, goes, passes, Promo::Stays),
        go(from, to, Promo::Stays),
        out,
    )?;
    if may {
        push_promotions(&rules.promotion_kinds, from, to, out)
    } else {
        Ok(())
    }
}

/// Gives the sink the pawn's moves of one step straight forward.
fn push_one_step<S: MoveSink>(
    rules: &Rules,
    p: &Position,
    from: Square,
    out: &mut S,
) -> Result<(), S::Full>
    requires fit { IsFit rules.now }
    ensures ok { OnOk result (TakesAll S.takes (IsAhead rules.now (repeat_of p.now) from 1) out.old out.new) }
    ensures err { OnErr result (TakesSome S.stops (IsAhead rules.now (repeat_of p.now) from 1) out.old out.new) }
{
    match ahead(board_of(rules), p.side, from, 1) {
        None => Ok(()),
        Some(to) => {
            let goes = is_free(&p.cells, Some(to));
            push_to(rules, p, from, Square(to), goes, false, out)
        }
    }
}

/// Gives the sink the pawn's moves of two steps.
fn push_two_steps<S: MoveSink>(
    rules: &Rules,
    p: &Position,
    from: Square,
    out: &mut S,
) -> Result<(), S::Full>
    requires fit { IsFit rules.now }
    ensures ok { OnOk result (TakesAll S.takes (IsAhead rules.now (repeat_of p.now) from 2) out.old out.new) }
    ensures err { OnErr result (TakesSome S.stops (IsAhead rules.now (repeat_of p.now) from 2) out.old out.new) }
{
    if !may_step_twice(rules, p, from) {
        return Ok(());
    }
    match ahead(board_of(rules), p.side, from, 2) {
        None => Ok(()),
        Some(to) => {
            let goes = is_free(&p.cells, Some(to));
            push_to(rules, p, from, Square(to), goes, false, out)
        }
    }
}

/// Gives the sink the pawn's moves diagonally forward to the one side: onto an enemy, or en passant.
fn push_aside<S: MoveSink>(
    rules: &Rules,
    p: &Position,
    from: Square,
    flank: Flank,
    out: &mut S,
) -> Result<(), S::Full>
    requires fit { IsFit rules.now }
    requires own { Attacks.is_own_pawn rules.now p.now.side (cell_at p.now.cells from.0) ≡ true }
    ensures ok { OnOk result (TakesAll S.takes (IsAside rules.now (repeat_of p.now) from flank) out.old out.new) }
    ensures err { OnErr result (TakesSome S.stops (IsAside rules.now (repeat_of p.now) from flank) out.old out.new) }
{
    match diagonal(rules, p, flank, from) {
        None => Ok(()),
        Some(to) => {
            let goes = is_enemy_on(p, to);
            let passes = is_ep(p.ep, Square(to));
            push_to(rules, p, from, Square(to), goes, passes, out)
        }
    }
}

/// Gives the sink the pawn's moves straight forward.
fn push_steps<S: MoveSink>(
    rules: &Rules,
    p: &Position,
    from: Square,
    out: &mut S,
) -> Result<(), S::Full>
    requires fit { IsFit rules.now }
    ensures ok { OnOk result (TakesAll S.takes (IsStep rules.now (repeat_of p.now) from) out.old out.new) }
    ensures err { OnErr result (TakesSome S.stops (IsStep rules.now (repeat_of p.now) from) out.old out.new) }
{
    push_one_step(rules, p, from, out)?;
    push_two_steps(rules, p, from, out)
}

/// Gives the sink the pawn's diagonal moves.
fn push_takes<S: MoveSink>(
    rules: &Rules,
    p: &Position,
    from: Square,
    out: &mut S,
) -> Result<(), S::Full>
    requires fit { IsFit rules.now }
    requires own { Attacks.is_own_pawn rules.now p.now.side (cell_at p.now.cells from.0) ≡ true }
    ensures ok { OnOk result (TakesAll S.takes (IsTake rules.now (repeat_of p.now) from) out.old out.new) }
    ensures err { OnErr result (TakesSome S.stops (IsTake rules.now (repeat_of p.now) from) out.old out.new) }
{
    push_aside(rules, p, from, Flank::Right, out)?;
    push_aside(rules, p, from, Flank::Left, out)
}

/// Gives the sink the moves of the own pawn on the square one by one. It is kept out of the loop over the pawns, of
/// which few come here.
#[inline(never)]
fn push_each<S: MoveSink>(
    rules: &Rules,
    p: &Position,
    from: Square,
    out: &mut S,
) -> Result<(), S::Full>
    requires fit { IsFit rules.now }
    requires own { Attacks.is_own_pawn rules.now p.now.side (cell_at p.now.cells from.0) ≡ true }
    ensures ok { OnOk result (TakesAll S.takes (IsMoveFrom rules.now (repeat_of p.now) from) out.old out.new) }
    ensures err { OnErr result (TakesSome S.stops (IsMoveFrom rules.now (repeat_of p.now) from) out.old out.new) }
{
    push_steps(rules, p, from, out)?;
    push_takes(rules, p, from, out)
}

/// Gives the sink the moves of the own pawns, each once and in no special order: those for which `is_candidate` answers
/// yes. After an error it took some of them, each at most once.
pub fn push_pawn_moves<S: MoveSink>(
    tables: &Tables,
    p: &Position,
    sets: &BoardSets,
    out: &mut S,
) -> Result<(), S::Full>
    requires sets { AreSets tables.now p.now.side p.now.cells sets.now }
    ensures ok { OnOk result (TakesAll S.takes (FitPawnMoves tables.now (repeat_of p.now)) out.old out.new) }
    ensures err { OnErr result (TakesSome S.stops (FitPawnMoves tables.now (repeat_of p.now)) out.old out.new) }
{
    let rules = tables.rules();
    if rules.pawn.is_none() {
        return Ok(());
    }
    let mut left = push_shifted(tables, p, sets, out)?;
    while let Some(from) = left.take_first() {
        push_each(rules, p, Square(from), out)?;
    }
    Ok(())
}
