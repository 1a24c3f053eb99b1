//! Gates: an ordinary move places a hand piece on the square that it leaves.
ghost use Rattle.std.specs.Prelude.{◌≡◌, ◌<◌, OnOk, OnErr};
ghost use Rattle.board_sets.specs.Sets.{AreSets};
ghost use Rattle.piece_moves.specs.Taking.{TakesAll, TakesSome};
ghost use Rattle.rules_model.specs.Fit.{IsFit};
ghost use Rattle.rules_model.specs.Gating as Gating;
ghost use Rattle.rules_model.specs.Repeats.{repeat_of};
ghost use Rattle.piece_moves.specs.Movers.{IsMover};
ghost use Rattle.special_moves.specs.Parts as Parts;
ghost use Rattle.special_moves.specs.Parts.{IsGate, IsGateAt};

use attack_tables::Tables;
use board_sets::BoardSets;
use piece_moves::{MoveSink, Mover, mover_on, push_mover};
use rules_model::castling::has_gate;
use rules_model::kinds::{first_rank, in_hand};
use rules_model::{FILES, KINDS, Kind, Move, Position, Promo, Rules, Square};
use square_set::{EMPTY, Set};

/// Whether an ordinary move from the square may place a hand piece of the kind there.
fn may_gate(rules: &Rules, p: &Position, from: Square, kind: Kind) -> bool
    requires { IsFit rules.now }
    ensures { result ≡ Gating.gates_from rules.now (repeat_of p.now) from kind }
{
    in_hand(&p.hands, p.side, kind) > 0
        && rules.gate_hand
        && from.rank() == first_rank(rules, p.side)
        && has_gate(&p.gates, p.side, from.file())
}

/// Whether the side to move has a piece of the kind in its hand.
fn holds_kind(p: &Position, k: u8) -> bool
    ensures { result ≡ Parts.holds_kind (repeat_of p.now) k }
{
    in_hand(&p.hands, p.side, Kind(k)) > 0
}

/// The kinds of which the side to move has a piece in its hand, by their numbers.
fn held_kinds(p: &Position) -> Set
    ensures { Parts.AreHeld (repeat_of p.now) result }
{
    let mut held = EMPTY;
    for k in 0..KINDS as u8 {
        if holds_kind(p, k) {
            held = held.with(k);
        }
    }
    held
}

/// Whether hand pieces may come in on the file's square of the side's first rank.
fn is_gate(rules: &Rules, p: &Position, file: u8) -> bool
    requires { file < 12 }
    ensures { result ≡ Parts.is_gate rules.now (repeat_of p.now) file }
{
    rules.gate_hand && has_gate(&p.gates, p.side, file)
}

/// Whether an own piece that is not the pawn makes the ordinary move, and may place a hand piece of the kind on the
/// square that it leaves.
#[tactic(auto, unfolding(rules_model::specs::Candidates::is_piece_move))]
pub(crate) fn moves_and_gates(
    tables: &Tables,
    p: &Position,
    sets: &BoardSets,
    from: Square,
    to: Square,
    promo: Promo,
    kind: Kind,
) -> bool
    requires sets { AreSets tables.now p.now.side p.now.cells sets.now }
    ensures { result ≡ Parts.moves_and_gates tables.now (repeat_of p.now) from to promo kind }
{
    let plain = Move::Go {
        from,
        to,
        promo,
        gate: None,
    };
    let rules = tables.rules();
    let may = may_gate(rules, p, from, kind);
    may && piece_moves::is_candidate(rules, tables, p, sets, &plain)
}

/// Gives the moves of the piece that place a piece of these kinds on the square that it leaves.
fn push_gates_of<S: MoveSink>(
    rules: &Rules,
    p: &Position,
    mover: Mover,
    held: Set,
    out: &mut S,
) -> Result<(), S::Full>
    requires fit { IsFit rules.now }
    requires mover { IsMover rules.now p.now mover }
    requires held { Parts.AreHeld (repeat_of p.now) held }
    ensures ok { OnOk result (TakesAll S.takes (IsGateAt rules.now (repeat_of p.now) mover.from) out.old out.new) }
    ensures err { OnErr result (TakesSome S.stops (IsGateAt rules.now (repeat_of p.now) mover.from) out.old out.new) }
{
    let mut left = held;
    while let Some(k) = left.take_first() {
        let kind = Kind(k);
        if may_gate(rules, p, mover.from, kind) {
            push_mover(rules, p, mover, Some(kind), out)?;
        }
    }
    Ok(())
}

/// Gives the moves from the square that place a piece of these kinds there.
fn push_gates_from<S: MoveSink>(
    tables: &Tables,
    p: &Position,
    sets: &BoardSets,
    from: Square,
    held: Set,
    out: &mut S,
) -> Result<(), S::Full>
    requires sets { AreSets tables.now p.now.side p.now.cells sets.now }
    requires from { from.0 < 120 }
    requires held { Parts.AreHeld (repeat_of p.now) held }
    ensures ok { OnOk result (TakesAll S.takes (IsGateAt tables.now (repeat_of p.now) from) out.old out.new) }
    ensures err { OnErr result (TakesSome S.stops (IsGateAt tables.now (repeat_of p.now) from) out.old out.new) }
{
    match mover_on(tables, p, sets, from) {
        None => Ok(()),
        Some(mover) => push_gates_of(tables.rules(), p, mover, held, out),
    }
}

/// Gives the moves that place a piece on the square that they leave.
pub(crate) fn push_gates<S: MoveSink>(
    tables: &Tables,
    p: &Position,
    sets: &BoardSets,
    out: &mut S,
) -> Result<(), S::Full>
    requires sets { AreSets tables.now p.now.side p.now.cells sets.now }
    ensures ok { OnOk result (TakesAll S.takes (IsGate tables.now (repeat_of p.now)) out.old out.new) }
    ensures err { OnErr result (TakesSome S.stops (IsGate tables.now (repeat_of p.now)) out.old out.new) }
{
    let rules = tables.rules();
    if !rules.gate_hand {
        return Ok(());
    }
    let held = held_kinds(p);
    if held.is_empty() {
        return Ok(());
    }
    let rank = first_rank(rules, p.side);
    for file in 0..FILES {
        if is_gate(rules, p, file) {
            push_gates_from(tables, p, sets, Square::at(file, rank), held, out)?;
        }
    }
    Ok(())
}
