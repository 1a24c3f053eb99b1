//! The sums after a move, by the hand that it changes.
ghost use Rattle.std.specs.Prelude.{◌≡◌, ◌<◌, nat_lt};
ghost use Rattle.rules_model.specs.Fit.{IsFit};
ghost use Rattle.rules_model.specs.Hands as Hands;
ghost use Rattle.rules_model.specs.Moves.{IsFitMove};
ghost use Rattle.rules_model.specs.Next as Next;
ghost use Rattle.rules_model.specs.Repeats.{repeat_of};
ghost use Rattle.evaluation.specs.Writes.{AreHands, HandStep, HandsGoTo, PutsDown};

use crate::piece_values::PieceValues;
use crate::tally::Tally;
use next_position::{behind, hand_kind};
use rules_model::kinds::in_hand;
use rules_model::passing::passes_by;
use rules_model::sizes::prove_position_sizes;
use rules_model::{Cell, KINDS, Kind, Move, Position, Rules, Side, Square, cell_at};

/// What a piece takes that goes there.
#[tactic(auto, unfolding(rules_model::specs::Next::taken))]
fn taken(rules: &Rules, p: &Position, from: Square, to: Square) -> Option<Cell>
    requires { IsFit rules.now }
    ensures { result ≡ Next.taken rules.now (repeat_of p.now) from to }
{
    if passes_by(rules, p, from, to) {
        match behind(rules, p.side, to) {
            None => None,
            Some(at) => cell_at(&p.cells, Square(at)),
        }
    } else {
        cell_at(&p.cells, to)
    }
}

/// Whether the side holds the kind once it has taken the piece into its hand, where the variant does so.
fn holds_then(rules: &Rules, p: &Position, taken: Option<Cell>, kind: Kind) -> bool
    requires { kind.0 < 26 }
    ensures { result ≡ Hands.holds (Next.take_into rules.now.to_hand p.now.hands p.now.side taken) p.now.side kind }
{
    prove_position_sizes(p);
    let held = in_hand(&p.hands, p.side, kind) > 0;
    match taken {
        None => held,
        Some(piece) => held || (rules.to_hand && hand_kind(piece).0 == kind.0),
    }
}

impl Tally {
    /// The sums once the side holds one more of the kind.
    fn taken_in(self, values: &PieceValues, side: Side, kind: Kind) -> Tally
        ensures { HandStep values.now (λ hands. Hands.taken_in hands side kind) self result }
    {
        values.prove_few();
        if (kind.0 as usize) < KINDS {
            self.more(side, u32::from(values.kind(kind)))
        } else {
            self
        }
    }

    /// The sums once the side holds one less of the kind, where it holds one.
    fn put_down(self, values: &PieceValues, side: Side, kind: Kind, held: bool) -> Tally
        ensures { PutsDown values.now side kind held self result }
    {
        if held {
            self.less(side, u32::from(values.kind(kind)))
        } else {
            self
        }
    }

    /// The sums once the side has the taken piece in its hand, where the variant has that.
    fn took(self, values: &PieceValues, rules: &Rules, side: Side, taken: Option<Cell>) -> Tally
        requires { values.now ≡ rules.now }
        ensures { HandStep rules.now (λ hands. Next.take_into rules.now.to_hand hands side taken) self result }
    {
        match taken {
            None => self,
            Some(piece) => {
                if rules.to_hand {
                    self.taken_in(values, side, hand_kind(piece))
                } else {
                    self
                }
            }
        }
    }

    /// The sums once a hand piece was dropped, or placed by a castle.
    #[tactic(auto, using(crate::proofs::HandLaws::sized))]
    fn dropped(self, values: &PieceValues, p: &Position, kind: Kind) -> Tally
        ensures { HandsGoTo values.now p.now.hands (Hands.put_down p.now.hands p.now.side kind) self result }
    {
        prove_position_sizes(p);
        let held = in_hand(&p.hands, p.side, kind) > 0;
        self.put_down(values, p.side, kind, held)
    }

    /// The sums with the hands after the move.
    #[tactic(auto, unfolding(rules_model::specs::Next::hands_after), using(crate::proofs::HandLaws::sized))]
    pub(crate) fn with_hands(
        self,
        values: &PieceValues,
        rules: &Rules,
        p: &Position,
        m: &Move,
    ) -> Tally
        requires fit { IsFit rules.now }
        requires values { values.now ≡ rules.now }
        requires move_fits { IsFitMove m.now }
        ensures { HandsGoTo rules.now p.now.hands (Next.hands_after rules.now (repeat_of p.now) m.now) self result }
    {
        prove_position_sizes(p);
        match *m {
            Move::Go { from, to, gate, .. } => {
                let taken = taken(rules, p, from, to);
                let took = self.took(values, rules, p.side, taken);
                match gate {
                    None => took,
                    Some(kind) => {
                        let held = holds_then(rules, p, taken, kind);
                        took.put_down(values, p.side, kind, held)
                    }
                }
            }
            Move::Castle { gate, .. } => match gate {
                None => self,
                Some(placed) => self.dropped(values, p, placed.kind),
            },
            Move::Drop { kind, .. } => self.dropped(values, p, kind),
        }
    }
}
