//! The ends of a game by the position itself: flag, checks and extinction, and what stands where no move is legal; and
//! the move count.
#![tactic(auto)]

mod checks;
mod extinction;
mod flag;

ghost use Rattle.std.specs.Prelude.{◌≡◌, false};
ghost use Rattle.rules_model.specs.declared.board.Repeat.{Repeat};
ghost use Rattle.rules_model.specs.declared.moves.Outcome.TheVariants.{Ongoing};
ghost use Rattle.rules_model.specs.Ends as Ends;
ghost use Rattle.rules_model.specs.Games as Games;
ghost use Rattle.rules_model.specs.Repeats.{repeat_of};
ghost use Rattle.rules_model.specs.Sides.{other};
ghost use Rattle.move_tables.specs.Occupied.{IsOccupied};

use checks::checks_end;
use extinction::extinction_end;
use flag::has_flag;
pub use flag::is_flag_piece;
use move_tables::occupied;
use rules_model::{Cause, Outcome, Position, Rules, Side, Value};
use square_set::Set;

/// What a value that a rule names for the side comes to.
pub fn valued(value: Value, side: Side, cause: Cause) -> Outcome
    ensures { result ≡ Ends.valued value side cause }
{
    match value {
        Value::Win => Outcome::Won(side, cause),
        Value::Loss => Outcome::Won(side.other(), cause),
        Value::Draw => Outcome::Drawn(cause),
    }
}

/// The same as `early_end`, for a caller who knows the occupied squares, and whether the side that has moved has its
/// flag piece in its flag region.
#[tactic(auto, unfolding(rules_model::specs::Ends::early_end))]
pub fn early_end_by(rules: &Rules, p: &Position, occupied: Set, flag: bool) -> Outcome
    requires occupied { IsOccupied occupied p.now.cells }
    requires flag { flag ≡ Ends.has_flag rules.now p.now.cells (other p.now.side) }
    ensures { result ≡ Ends.early_end rules.now (repeat_of p.now) }
{
    if flag {
        return Outcome::Won(p.side.other(), Cause::Flag);
    }
    match checks_end(rules, p) {
        Outcome::Ongoing => extinction_end(rules, p, occupied),
        end => end,
    }
}

/// The end that the position has by itself, before its moves are looked at; `Outcome::Ongoing` where it has none. The
/// first of these that holds: the side that has moved has its flag piece in its flag region; a side has given all its
/// checks; a side has died out (Fairy-Stockfish's `flagPiece`, `checkCounting`, `extinctionValue` and their kin).
pub fn early_end(rules: &Rules, p: &Position) -> Outcome
    ensures { result ≡ Ends.early_end rules.now (repeat_of p.now) }
{
    let flag = has_flag(rules, &p.cells, p.side.other());
    early_end_by(rules, p, occupied(&p.cells), flag)
}

/// Whether the variant has any early end: a flag, counted checks or extinction. Where it has none, no position has one.
pub fn can_end_early(rules: &Rules) -> bool
    ensures { result ≡ false → (r : Repeat) → Ends.early_end rules.now r ≡ Ongoing }
{
    rules.flag_kind.is_some() || rules.check_counting || rules.extinction.is_some()
}

/// The end where the side to move has no legal move: checkmate where its king is attacked, else stalemate, with the
/// value that the variant gives to it (FIDE Laws of Chess, articles 5.1.1 and 5.2.1; Fairy-Stockfish's `checkmateValue`
/// and `stalemateValue`).
pub fn no_move(rules: &Rules, side: Side, attacked: bool) -> Outcome
    ensures { result ≡ Ends.no_move rules.now side attacked }
{
    if attacked {
        valued(rules.checkmate, side, Cause::Checkmate)
    } else {
        valued(rules.stalemate, side, Cause::Stalemate)
    }
}

/// Whether the counter has reached the move-count rule (the 50 moves of the FIDE Laws of Chess, article 9.3;
/// Fairy-Stockfish's `nMoveRule`). The counter is in plies and the rule in moves of both sides, so that it ends at
/// twice the rule's number. A rule of 0 is none.
#[tactic(auto, unfolding(rules_model::specs::Games::is_run_out))]
pub fn is_run_out(rules: &Rules, counter: u16) -> bool
    ensures { result ≡ Games.is_run_out rules.now counter }
{
    rules.n_move != 0 && u32::from(counter) >= 2 * u32::from(rules.n_move)
}
