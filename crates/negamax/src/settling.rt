//! Moves that are settled without being entered. Where the game surely goes on after a move, the other side may stand
//! pat: the move scores no more than what the position is worth then at a glance, to the side that made it.
ghost use Rattle.std.specs.Prelude.{◌≡◌, ◌≤ℤ◌, IfSome};
ghost use Rattle.std.specs.Bool.{OnTrue};
ghost use Rattle.foundation.specs.Member.{Member};
ghost use Rattle.evaluation.specs.Laws.{Within};
ghost use Rattle.evaluation.specs.Tallies.{IsTally};
ghost use Rattle.check_moves.specs.Replies.{AreReplies};
ghost use Rattle.game_line.specs.Lined.{legal_in, stance_of_line, story_of_line};
ghost use Rattle.rules_model.specs.Next.{next};
ghost use Rattle.negamax.specs.Settling.{AreKnown, GoesOn, Knows, ScoresMost};

use check_moves::{KnownFlights, Replies};
use evaluation::Tally;
use game_line::Line;
use rules_model::Move;
use square_set::EMPTY;

/// What is known of the moves of a position together: whether each that leaves the other side a legal move leaves the
/// game going on, and then the steps of the other side's king and leaps of its other pieces.
#[derive(Drop)]
pub(crate) struct Settling {
    sure: bool,
    flights: KnownFlights,
    /// None as long as no move was asked that no step meets.
    replies: Option<Replies>,
}

/// No step is known.
const NO_FLIGHTS: KnownFlights = KnownFlights {
    king: None,
    rest: EMPTY,
    found: [None; 8],
};

impl Settling {
    /// What is known of the position at the end of the line. No step is looked at yet.
    pub fn of(line: &Line) -> Settling
        ensures { Knows line.now result }
    {
        if line.ends_by_stuck_alone() {
            let flights = KnownFlights::of(line.board());
            Settling {
                sure: true,
                flights,
                replies: None,
            }
        } else {
            Settling {
                sure: false,
                flights: NO_FLIGHTS,
                replies: None,
            }
        }
    }

    /// The leaps of the other side's pieces, which are looked for once.
    fn replies_in(&mut self, line: &Line) -> Replies
        requires known { AreKnown line.now self.old.flights self.old.replies }
        ensures known { AreKnown line.now self.new.flights self.new.replies }
        ensures sure { self.new.sure ≡ self.old.sure }
        ensures found { AreReplies (stance_of_line line.now) result }
    {
        let known = self.replies;
        if let Some(replies) = known {
            return replies;
        }
        let replies = Replies::of(line.board());
        self.replies = Some(replies);
        replies
    }

    /// Whether it is known that the game goes on after the legal move.
    fn goes_on(&mut self, line: &Line, m: &Move) -> bool
        requires known { Knows line.now self.old }
        requires legal { Member m.now (legal_in line.now) }
        ensures known { Knows line.now self.new }
        ensures on { OnTrue result (GoesOn line.now m.now) }
    {
        let sure = self.sure;
        if !sure {
            return false;
        }
        if self.flights.meets(line.board(), m) {
            return true;
        }
        let replies = self.replies_in(line);
        replies.meets(line.board(), m)
    }

    /// What the legal move scores at most, at the last ply or as a capture, where this is known without a look at the
    /// replies and is no more than the floor. The sums are those of the position after it.
    pub fn most(&mut self, line: &Line, m: &Move, sums: Tally, floor: i32) -> Option<i32>
        requires known { Knows line.now self.old }
        requires legal { Member m.now (legal_in line.now) }
        requires sums { IsTally line.now.rules (next line.now.rules (story_of_line line.now).last m.now) sums }
        ensures known { Knows line.now self.new }
        ensures low { IfSome result (λ most. most ≤ℤ floor) }
        ensures within { IfSome result Within }
        ensures most { IfSome result (ScoresMost line.now m.now) }
    {
        let sure = self.sure;
        if !sure {
            return None;
        }
        let most = -sums.value(line.board().position().side.other());
        if floor < most {
            return None;
        }
        if !self.goes_on(line, m) {
            return None;
        }
        Some(most)
    }
}
