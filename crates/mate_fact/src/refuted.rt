//! Facts that the attacker does not win.
ghost use Rattle.std.specs.Prelude.{◌≡◌, ◌+◌, ◌<◌, ◌∷◌, [], false, Some, None, IfSome};
ghost use Rattle.foundation.specs.Member.{Member};
ghost use Rattle.forced_wins.specs.declared.fact.Fact.{Fact};
ghost use Rattle.forced_wins.specs.Facts as Facts;
ghost use Rattle.mate_core.specs.Runs.{IsTrueIn};
ghost use Rattle.mate_fact.specs.InFrame as In;
ghost use Rattle.rules_model.specs.declared.moves.Move.{Move};
ghost use Rattle.rules_model.specs.Next.{next};
ghost use Rattle.rules_model.specs.Ready.{IsReady};

use crate::ends::end_of;
use attack_tables::Tables;
use legality::own_end;
use mate_core::{Fact, Frame};
use rules_model::{Move, Position, repeat_of};

// A refutation on the position at its own counter.
fn refutation_of(frame: &Frame, p: &Position, moves: u16, best: Option<Move>) -> Fact
    ensures { result ≡ Facts.fact_of p.now frame.now.attacker moves best false }
{
    Fact {
        repeat: repeat_of(p),
        attacker: frame.attacker,
        moves,
        counter: p.counter,
        best,
        wins: false,
    }
}

/// The same as `refuted_now`, for a caller who knows how the position is ended.
pub fn refuted_where(frame: &Frame, p: &Position, end: Option<bool>) -> Option<Fact>
    requires end { end ≡ In.end_in frame.now p.now }
    ensures fact { IfSome result (Facts.RefutedNow frame.now.rules frame.now.blocked frame.now.attacker p.now) }
    ensures ended { result ≡ None → In.end_in frame.now p.now ≡ Some false → ⊥ }
    ensures ongoing { result ≡ None → In.IsAttackIn frame.now p.now → ⊥ }
    ensures truth { IfSome result (IsTrueIn frame.now) }
{
    match end {
        Some(false) => Some(refutation_of(frame, p, u16::MAX, None)),
        None if p.side.is(frame.attacker) => Some(refutation_of(frame, p, 0, None)),
        _ => None,
    }
}

/// The refutation of a position that is ended otherwise than won, for any number of moves; or of an ongoing one where
/// the attacker is to move, for no move. None exactly where the position is neither.
pub fn refuted_now(frame: &Frame, tables: &Tables, p: &Position) -> Option<Fact>
    requires ready { IsReady frame.now.rules tables.now p.now }
    ensures fact { IfSome result (Facts.RefutedNow frame.now.rules frame.now.blocked frame.now.attacker p.now) }
    ensures ended { result ≡ None → In.end_in frame.now p.now ≡ Some false → ⊥ }
    ensures ongoing { result ≡ None → In.IsAttackIn frame.now p.now → ⊥ }
    ensures truth { IfSome result (IsTrueIn frame.now) }
{
    let own = own_end(tables, p);
    refuted_where(frame, p, end_of(frame, p, own))
}

// The fewest moves of these facts, 65,535 where there is none.
fn least(known: &[Fact]) -> u16
    ensures { result ≡ Facts.least known.now }
{
    known.iter().fold(u16::MAX, |far, fact| far.min(fact.moves))
}

/// The refutation of a position where the attacker is to move, by known facts that refute each legal move, in the order
/// of the list: for one move more than the fewest of theirs, at most 65,535, at the position's counter.
pub fn refuted_by_all(frame: &Frame, _tables: &Tables, p: &Position, known: &[Fact]) -> Fact
    requires attack { In.IsAttackIn frame.now p.now }
    requires each { In.ServeMovesIn frame.now p.now false known.now }
    ensures is { result
        ≡ Facts.fact_of p.now frame.now.attacker (Facts.smaller (Facts.least known.now + 1) 65535) None false }
    ensures derives { In.DerivesIn frame.now known.now p.now result }
    ensures truth { In.TruthPasses frame.now known.now result }
{
    refutation_of(frame, p, least(known).saturating_add(1), None)
}

/// The refutation of a position where the attacker is to move, for a caller who knows that he wins after no legal move
/// within `moves` more.
pub fn refuted_by_all_within(frame: &Frame, p: &Position, moves: u16) -> Fact
    requires attack { In.IsAttackIn frame.now p.now }
    requires refuted { (m : Move) → Member m (In.legal_in frame.now p.now) →
        In.near_in frame.now moves (next frame.now.rules p.now m) ≡ false }
    ensures is { result ≡ Facts.fact_of p.now frame.now.attacker (Facts.smaller (moves + 1) 65535) None false }
    ensures truth { IsTrueIn frame.now result }
{
    refutation_of(frame, p, moves.saturating_add(1), None)
}

/// The refutation of a position where the other side is to move, by a legal move that the known fact refutes: for its
/// moves, at the position's counter.
pub fn refuted_by_move(
    frame: &Frame,
    _tables: &Tables,
    p: &Position,
    m: &Move,
    known: &Fact,
) -> Fact
    requires defence { In.IsDefenceIn frame.now p.now }
    requires legal { Member m.now (In.legal_in frame.now p.now) }
    requires serves { In.ServesMoveIn frame.now p.now m.now false known.now }
    ensures is { result ≡ Facts.fact_of p.now frame.now.attacker known.now.moves (Some m.now) false }
    ensures derives { In.DerivesIn frame.now (known.now ∷ []) p.now result }
    ensures truth { IsTrueIn frame.now known.now → IsTrueIn frame.now result }
{
    refutation_of(frame, p, known.moves, Some(*m))
}

/// The refutation of a position where the other side is to move, for a caller who knows that the attacker does not win
/// after this legal move within `moves` of his own.
pub fn refuted_by_move_within(frame: &Frame, p: &Position, m: &Move, moves: u16) -> Fact
    requires defence { In.IsDefenceIn frame.now p.now }
    requires legal { Member m.now (In.legal_in frame.now p.now) }
    requires refuted { In.near_in frame.now moves (next frame.now.rules p.now m.now) ≡ false }
    ensures is { result ≡ Facts.fact_of p.now frame.now.attacker moves (Some m.now) false }
    ensures truth { IsTrueIn frame.now result }
{
    refutation_of(frame, p, moves, Some(*m))
}
