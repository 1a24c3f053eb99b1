//! Facts that the attacker wins.
ghost use Rattle.std.specs.Prelude.{◌≡◌, ◌+◌, ◌<◌, ◌∷◌, [], true, Some, None, IfSome};
ghost use Rattle.foundation.specs.Member.{Member};
ghost use Rattle.forced_wins.specs.declared.fact.Fact.{Fact};
ghost use Rattle.forced_wins.specs.Facts as Facts;
ghost use Rattle.mate_core.specs.Runs.{IsTrueIn};
ghost use Rattle.mate_fact.specs.InFrame as In;
ghost use Rattle.rules_model.specs.declared.moves.Move.{Move};
ghost use Rattle.rules_model.specs.Next.{next};
ghost use Rattle.rules_model.specs.Ready.{IsReady};

use crate::ends::end_of;
use attack_tables::Tables;
use legality::own_end;
use mate_core::{Fact, Frame};
use rules_model::{Move, Position, repeat_of};

/// The counter of a win by an end: it is won at every counter.
const EVERY_COUNTER: u16 = 9999;

// A win on the position at its own counter.
fn win_of(frame: &Frame, p: &Position, moves: u16, best: Option<Move>) -> Fact
    ensures { result ≡ Facts.fact_of p.now frame.now.attacker moves best true }
{
    Fact {
        repeat: repeat_of(p),
        attacker: frame.attacker,
        moves,
        counter: p.counter,
        best,
        wins: true,
    }
}

/// The same as `won_now`, for a caller who knows how the position is ended.
pub fn won_where(frame: &Frame, p: &Position, end: Option<bool>) -> Option<Fact>
    requires end { end ≡ In.end_in frame.now p.now }
    ensures fact { IfSome result (Facts.WonNow frame.now.rules frame.now.blocked frame.now.attacker p.now) }
    ensures none { result ≡ None → In.end_in frame.now p.now ≡ Some true → ⊥ }
    ensures truth { IfSome result (IsTrueIn frame.now) }
{
    match end {
        Some(true) => Some(Fact {
            counter: EVERY_COUNTER,
            ..win_of(frame, p, 0, None)
        }),
        _ => None,
    }
}

/// The win of a position that is ended as won by the attacker: within no move, at every counter. None exactly where it
/// is not.
pub fn won_now(frame: &Frame, tables: &Tables, p: &Position) -> Option<Fact>
    requires ready { IsReady frame.now.rules tables.now p.now }
    ensures fact { IfSome result (Facts.WonNow frame.now.rules frame.now.blocked frame.now.attacker p.now) }
    ensures none { result ≡ None → In.end_in frame.now p.now ≡ Some true → ⊥ }
    ensures truth { IfSome result (IsTrueIn frame.now) }
{
    let own = own_end(tables, p);
    won_where(frame, p, end_of(frame, p, own))
}

/// The win of a position where the attacker is to move, by a legal move after which the known fact wins: one move more,
/// at the position's counter.
pub fn by_move(frame: &Frame, _tables: &Tables, p: &Position, m: &Move, known: &Fact) -> Fact
    requires attack { In.IsAttackIn frame.now p.now }
    requires legal { Member m.now (In.legal_in frame.now p.now) }
    requires serves { In.ServesMoveIn frame.now p.now m.now true known.now }
    requires short { known.now.moves < 65535 }
    ensures is { result ≡ Facts.fact_of p.now frame.now.attacker (known.now.moves + 1) (Some m.now) true }
    ensures derives { In.DerivesIn frame.now (known.now ∷ []) p.now result }
    ensures truth { IsTrueIn frame.now known.now → IsTrueIn frame.now result }
{
    win_of(frame, p, known.moves + 1, Some(*m))
}

/// The win of a position where the attacker is to move, for a caller who knows that he wins after this legal move
/// within `moves` more.
pub fn by_move_within(frame: &Frame, p: &Position, m: &Move, moves: u16) -> Fact
    requires attack { In.IsAttackIn frame.now p.now }
    requires legal { Member m.now (In.legal_in frame.now p.now) }
    requires won { In.near_in frame.now moves (next frame.now.rules p.now m.now) ≡ true }
    requires short { moves < 65535 }
    ensures is { result ≡ Facts.fact_of p.now frame.now.attacker (moves + 1) (Some m.now) true }
    ensures truth { IsTrueIn frame.now result }
{
    win_of(frame, p, moves + 1, Some(*m))
}

// The most moves of these facts, 0 where there is none.
fn greatest(known: &[Fact]) -> u16
    ensures { result ≡ Facts.greatest known.now }
{
    known.iter().fold(0, |far, fact| far.max(fact.moves))
}

/// The win of a position where the other side is to move, by known facts that win after each legal move, in the order
/// of the list: within the most of their moves, at the position's counter.
pub fn by_all(frame: &Frame, _tables: &Tables, p: &Position, known: &[Fact]) -> Fact
    requires defence { In.IsDefenceIn frame.now p.now }
    requires each { In.ServeMovesIn frame.now p.now true known.now }
    ensures is { result ≡ Facts.fact_of p.now frame.now.attacker (Facts.greatest known.now) None true }
    ensures derives { In.DerivesIn frame.now known.now p.now result }
    ensures truth { In.TruthPasses frame.now known.now result }
{
    win_of(frame, p, greatest(known), None)
}

/// The win of a position where the other side is to move, for a caller who knows that the attacker wins after each
/// legal move within `moves` of his own.
pub fn by_all_within(frame: &Frame, p: &Position, moves: u16) -> Fact
    requires defence { In.IsDefenceIn frame.now p.now }
    requires won { (m : Move) → Member m (In.legal_in frame.now p.now) →
        In.near_in frame.now moves (next frame.now.rules p.now m) ≡ true }
    ensures is { result ≡ Facts.fact_of p.now frame.now.attacker moves None true }
    ensures truth { IsTrueIn frame.now result }
{
    win_of(frame, p, moves, None)
}
