//! The moves, given in turn.
ghost use Rattle.std.specs.Prelude.{◌≡◌, ◌<◌, true, not, None, OnOk, OnErr, IfSome, IfNone};
ghost use Rattle.piece_moves.specs.Taking.{TakesAll, TakesSome};
ghost use Rattle.rules_model.specs.declared.moves.Move.TheVariants.{Go};
ghost use Rattle.rules_model.specs.Attacks.{is_own};
ghost use Rattle.rules_model.specs.Fit.{IsFit};
ghost use Rattle.rules_model.specs.Kinds.{is_pawn};
ghost use Rattle.rules_model.specs.Repeats.{repeat_of};
ghost use Rattle.rules_model.specs.Squares.{cell_at};
ghost use Rattle.square_set.specs.Members.{has};
ghost use Rattle.board_sets.specs.Sets.{AreSets};
ghost use Rattle.piece_moves.specs.Goals.{own_piece};
ghost use Rattle.piece_moves.specs.Movers.{IsMoveOf, IsMoveTo, IsMover};
ghost use Rattle.piece_moves.specs.Parts.{FitMovesFrom, FitPieceMoves, IsMoveFrom};
ghost use Rattle.piece_moves.specs.Plain as Plain;

use crate::piece::own_piece;
use crate::promotion::{becomes, is_plain, may_plus, means_castling};
use crate::targets::targets;
use crate::{MoveSink, push_if};
use attack_tables::{Tables, cell_on};
use board_sets::{BoardSets, sets_are_on_board};
use rules_model::sizes::prove_position_sizes;
use rules_model::{Cell, Kind, Move, Position, Promo, Rules, Square};
use square_set::Set;

/// An own piece that is not the pawn, the square on which it stands, and those to which it goes.
#[derive(Clone, Copy, PartialEq, Eq)]
pub struct Mover {
    pub piece: Cell,
    pub from: Square,
    pub targets: Set,
}

impl Mover {
    fn go(self, to: Square, promo: Promo, gate: Option<Kind>) -> Move
        ensures { result ≡ Go self.from to promo gate }
    {
        Move::Go {
            from: self.from,
            to,
            promo,
            gate,
        }
    }
}

/// Gives the moves of the own piece to a square to which it goes, which place `gate` on the square that it leaves.
fn push_to<S: MoveSink>(
    rules: &Rules,
    p: &Position,
    mover: Mover,
    gate: Option<Kind>,
    to: Square,
    out: &mut S,
) -> Result<(), S::Full>
    requires fit { IsFit rules.now }
    requires mover { IsMover rules.now p.now mover }
    requires goes { has mover.targets to.0 ≡ true }
    ensures ok { OnOk result (TakesAll S.takes (IsMoveTo rules.now p.now mover gate to.0) out.old out.new) }
    ensures err { OnErr result (TakesSome S.stops (IsMoveTo rules.now p.now mover gate to.0) out.old out.new) }
{
    let kind = mover.piece.kind;
    if means_castling(rules, p, kind, mover.from, to) {
        return Ok(());
    }
    let may = may_plus(rules, p.side, kind, mover.from, to);
    push_if(
        becomes(rules, may, Promo::Stays),
        mover.go(to, Promo::Stays, gate),
        out,
    )?;
    push_if(
        becomes(rules, may, Promo::Plus),
        mover.go(to, Promo::Plus, gate),
        out,
    )
}

/// Gives the moves of the own piece one by one. It is kept out of the loop over the pieces, of which few come here.
#[inline(never)]
fn push_each<S: MoveSink>(
    rules: &Rules,
    p: &Position,
    mover: Mover,
    gate: Option<Kind>,
    out: &mut S,
) -> Result<(), S::Full>
    requires fit { IsFit rules.now }
    requires mover { IsMover rules.now p.now mover }
    ensures ok { OnOk result (TakesAll S.takes (IsMoveOf rules.now p.now mover gate) out.old out.new) }
    ensures err { OnErr result (TakesSome S.stops (IsMoveOf rules.now p.now mover gate) out.old out.new) }
{
    let mut left = mover.targets;
    while let Some(to) = left.take_first() {
        push_to(rules, p, mover, gate, Square(to), out)?;
    }
    Ok(())
}

/// Gives the moves of the own piece at once: none of them is a promotion or may mean castling.
fn push_plain<S: MoveSink>(
    rules: &Rules,
    p: &Position,
    mover: Mover,
    gate: Option<Kind>,
    out: &mut S,
) -> Result<(), S::Full>
    requires mover { IsMover rules.now p.now mover }
    requires plain { Plain.is_plain rules.now (repeat_of p.now) mover.piece.kind ≡ true }
    ensures ok { OnOk result (TakesAll S.takes (IsMoveOf rules.now p.now mover gate) out.old out.new) }
    ensures err { OnErr result (TakesSome S.stops (IsMoveOf rules.now p.now mover gate) out.old out.new) }
{
    if mover.targets.is_empty() {
        return Ok(());
    }
    out.take_all(mover.from, gate, mover.targets)
}

/// Gives the ordinary moves of the own piece, each once and in no special order: all at once, where none of them is a
/// promotion or may mean castling. Each places `gate` on the square that it leaves, whether the piece may gate or not.
/// Where the sink is full, it was given some of them, each at most once. It is part of the loop over the pieces, since
/// a call for each piece costs as much as its moves.
#[inline(always)]
pub fn push_mover<S: MoveSink>(
    rules: &Rules,
    p: &Position,
    mover: Mover,
    gate: Option<Kind>,
    out: &mut S,
) -> Result<(), S::Full>
    requires fit { IsFit rules.now }
    requires mover { IsMover rules.now p.now mover }
    ensures ok { OnOk result (TakesAll S.takes (IsMoveOf rules.now p.now mover gate) out.old out.new) }
    ensures err { OnErr result (TakesSome S.stops (IsMoveOf rules.now p.now mover gate) out.old out.new) }
{
    if is_plain(rules, p, mover.piece.kind) {
        push_plain(rules, p, mover, gate, out)
    } else {
        push_each(rules, p, mover, gate, out)
    }
}

/// The own piece on the square and where it goes; None where there is none, or it is the pawn.
pub fn mover_on(tables: &Tables, p: &Position, sets: &BoardSets, from: Square) -> Option<Mover>
    requires sets { AreSets tables.now p.now.side p.now.cells sets.now }
    requires from { from.0 < 120 }
    ensures mover { IfSome result (IsMover tables.now p.now) }
    ensures from { IfSome result (λ mover. mover.from ≡ from) }
    ensures none { IfNone result (own_piece tables.now p.now.side (cell_at p.now.cells from.0) ≡ None) }
{
    let piece = own_piece(tables.rules(), p, from)?;
    let targets = targets(tables, p, sets, piece, from);
    Some(Mover {
        piece,
        from,
        targets,
    })
}

/// The same, without a gate, for a square with an own piece that is not the pawn.
fn push_own<S: MoveSink>(
    tables: &Tables,
    p: &Position,
    sets: &BoardSets,
    from: Square,
    out: &mut S,
) -> Result<(), S::Full>
    requires sets { AreSets tables.now p.now.side p.now.cells sets.now }
    requires from { from.0 < 120 }
    requires own { is_own p.now.side (λ kind. not (is_pawn tables.now kind)) (cell_at p.now.cells from.0) ≡ true }
    ensures ok { OnOk result (TakesAll S.takes (IsMoveFrom tables.now (repeat_of p.now) from None) out.old out.new) }
    ensures err { OnErr result (TakesSome S.stops (IsMoveFrom tables.now (repeat_of p.now) from None) out.old out.new) }
{
    match cell_on(&p.cells, from.0) {
        None => Ok(()),
        Some(piece) => {
            let rules = tables.rules();
            let targets = targets(tables, p, sets, piece, from);
            let mover = Mover {
                piece,
                from,
                targets,
            };
            push_mover(rules, p, mover, None, out)
        }
    }
}

/// Gives the ordinary moves of the own pieces on these squares that are not the pawn, without a gate, each once and in
/// no special order. Where the sink is full, it was given some of them, each at most once.
pub fn push_moves_from<S: MoveSink>(
    tables: &Tables,
    p: &Position,
    sets: &BoardSets,
    from: Set,
    out: &mut S,
) -> Result<(), S::Full>
    requires sets { AreSets tables.now p.now.side p.now.cells sets.now }
    ensures ok { OnOk result (TakesAll S.takes (FitMovesFrom tables.now (repeat_of p.now) from) out.old out.new) }
    ensures err { OnErr result (TakesSome S.stops (FitMovesFrom tables.now (repeat_of p.now) from) out.old out.new) }
{
    prove_position_sizes(p);
    sets_are_on_board();
    let mut left = sets.own_pieces().and(from);
    while let Some(at) = left.take_first() {
        push_own(tables, p, sets, Square(at), out)?;
    }
    Ok(())
}

/// Gives the ordinary moves of the own pieces that are not the pawn, without a gate, each once and in no special order:
/// those for which `is_candidate` answers yes. Where the sink is full, it was given some of them, each at most once.
pub fn push_moves<S: MoveSink>(
    rules: &Rules,
    tables: &Tables,
    p: &Position,
    sets: &BoardSets,
    out: &mut S,
) -> Result<(), S::Full>
    requires fit { IsFit rules.now }
    requires tables { tables.now ≡ rules.now }
    requires sets { AreSets rules.now p.now.side p.now.cells sets.now }
    ensures ok { OnOk result (TakesAll S.takes (FitPieceMoves rules.now (repeat_of p.now)) out.old out.new) }
    ensures err { OnErr result (TakesSome S.stops (FitPieceMoves rules.now (repeat_of p.now)) out.old out.new) }
{
    push_moves_from(tables, p, sets, sets.own_pieces(), out)
}
