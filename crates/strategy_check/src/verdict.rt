//! The verdict on a strategy.
use move_text::write_move;
use rules_model::Move;
use std::{fmt, str};

/// What the check of a strategy answers: that it wins, or its first fault, with the place of the node that has it.
#[derive(Clone, Copy, PartialEq, Eq)]
pub enum Verdict {
    /// 0: there is no fault.
    Wins,
    /// 1: there is no node 0, it has another repeat than the game or a counter below the game's, its rank is above the
    /// number of moves, or the strategy is one of the other side.
    Root,
    /// 2: an edge is illegal, stands twice, or leads to another repeat or to no node; or an ongoing node of the
    /// attacker has not exactly one edge; or an ended node has an edge.
    WrongMove(u64),
    /// 3: an ongoing node of the other side has no edge for this legal move, the first in the order of the texts.
    MissingReply(u64, Move),
    /// 4: an edge of the attacker does not lead to a smaller rank, or one of the other side leads to a greater one.
    BadRank(u64),
    /// 5: after an edge the counter is above that of the node to which it leads.
    BadCounter(u64),
    /// 6: an earlier node has the same repeat and counter; or the root's repeat stands again; or the node's repeat
    /// stands so often in the game and among the nodes that the game could end by repetition.
    Repeats(u64),
    /// 7: the node is ended, and not as a win of the attacker; or the game itself is ended by repetition or move count.
    NotWon(u64),
}

impl fmt::Display for Verdict {
    ghost use Rattle.std.specs.Prelude.{Some};
    ghost use Rattle.strategy_check.specs.Verdicts.{verdict_text};

    ghost output = { λ verdict. Some (verdict_text verdict) };

    /// The type's name, the verdict's number, its name, and the place and the move that it names, as `Verdict 3
    /// MissingReply 1 h8g8`.
    fn fmt<W: fmt::Write>(&self, f: &mut fmt::Formatter<W>) -> fmt::Result {
        match *self {
            Verdict::Wins => f.write_str("Verdict 0 Wins"),
            Verdict::Root => f.write_str("Verdict 1 Root"),
            Verdict::WrongMove(node) => write!(f, "Verdict 2 WrongMove {node}"),
            Verdict::MissingReply(node, m) => {
                let text = write_move(&m);
                let Ok(reply) = str::from_utf8(text.items.as_slice()) else {
                    return Err(fmt::Error);
                };
                write!(f, "Verdict 3 MissingReply {node} {reply}")
            }
            Verdict::BadRank(node) => write!(f, "Verdict 4 BadRank {node}"),
            Verdict::BadCounter(node) => write!(f, "Verdict 5 BadCounter {node}"),
            Verdict::Repeats(node) => write!(f, "Verdict 6 Repeats {node}"),
            Verdict::NotWon(node) => write!(f, "Verdict 7 NotWon {node}"),
        }
    }
}
