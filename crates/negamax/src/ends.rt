//! What ends are worth, and moves on the line.
ghost use Rattle.std.specs.Prelude.{◌≡◌, ◌<◌, length, not};
ghost use Rattle.evaluation.specs.declared.tally.Tally.{Tally};
ghost use Rattle.evaluation.specs.Tallies.{IsTally};
ghost use Rattle.foundation.specs.Member.{Member};
ghost use Rattle.game_line.specs.Lined.{legal_in, pushed, story_of_line};
ghost use Rattle.evaluation.specs.Laws.{Within};
ghost use Rattle.evaluation.specs.Values as Values;
ghost use Rattle.rules_model.specs.Games.{played};
ghost use Rattle.rules_model.specs.Legal.{is_stuck};
ghost use Rattle.rules_model.specs.Next.{next};
ghost use Rattle.rules_model.specs.Repeats.{repeat_of};

use evaluation::{PieceValues, Tally};
use game_line::Line;
use rules_model::{Move, Outcome, Side};

/// The worth of a win at the root.
const WIN: i32 = 32_000;

/// What an end is worth to the side to move, at a number of plies from the root; `None` where the game goes on.
fn worth(mover: Side, ply: u8, outcome: Outcome) -> Option<i32>
    ensures { result ≡ Values.worth mover ply outcome }
{
    match outcome {
        Outcome::Ongoing => None,
        Outcome::Won(side, _) => {
            let won = WIN - i32::from(ply);
            Some(if side.is(mover) { won } else { -won })
        }
        Outcome::Drawn(_) => Some(0),
    }
}

/// What the end of the line is worth to the side to move, at a number of plies from the root; `None` where it goes on.
pub(crate) fn end_of(line: &Line, ply: u8) -> Option<i32>
    ensures { result ≡ (Values.play line.now.rules).ended (story_of_line line.now) ply }
{
    worth(line.board().position().side, ply, line.outcome())
}

/// The same, for a caller who knows whether some move is legal.
pub fn end_where(line: &Line, ply: u8, any: bool) -> Option<i32>
    requires any { any ≡ not (is_stuck line.now.rules (repeat_of (story_of_line line.now).last)) }
    ensures { result ≡ (Values.play line.now.rules).ended (story_of_line line.now) ply }
{
    worth(line.board().position().side, ply, line.outcome_where(any))
}

/// What kinds and squares are worth by the rules of the line.
pub(crate) fn piece_values_of(line: &Line) -> PieceValues
    ensures { result ≡ line.now.rules }
{
    let board = line.board();
    board.prove_ready();
    PieceValues::of(board.rules())
}

/// What the last position is worth at a glance to the side to move.
pub(crate) fn stand_pat(line: &Line, tally: Tally) -> i32
    requires { IsTally line.now.rules (story_of_line line.now).last tally }
    ensures is { result ≡ (Values.play line.now.rules).eval (story_of_line line.now) }
    ensures within { Within result }
{
    tally.value(line.board().position().side)
}

/// What the last position is worth to the side to move without a look at captures: by its end, at a number of plies
/// from the root, or at a glance, which is given.
pub(crate) fn resting(line: &Line, ply: u8, glance: i32) -> i32
    requires glance { glance ≡ (Values.play line.now.rules).eval (story_of_line line.now) }
    ensures is { result ≡ Values.quiet (Values.play line.now.rules) 0 ply (story_of_line line.now) }
    ensures within { Within result }
{
    match end_of(line, ply) {
        Some(worth) => worth,
        None => glance,
    }
}

/// The sums of the position after the legal move.
pub(crate) fn sums_after(line: &Line, values: &PieceValues, tally: Tally, m: &Move) -> Tally
    requires values { values.now ≡ line.now.rules }
    requires tally { IsTally line.now.rules (story_of_line line.now).last tally }
    requires legal { Member m.now (legal_in line.now) }
    ensures { IsTally line.now.rules (next line.now.rules (story_of_line line.now).last m.now) result }
{
    let board = line.board();
    board.prove_ready();
    values.tally_after(tally, board.rules(), board.position(), m)
}

/// Puts the legal move on the line.
pub(crate) fn put(line: &mut Line, m: &Move)
    requires legal { Member m.now (legal_in line.old) }
    requires room { length line.old.moves < line.old.room }
    ensures line { line.new ≡ pushed line.old m.now }
    ensures story { story_of_line line.new ≡ played line.old.rules (story_of_line line.old) m.now }
    ensures sums { (sums : Tally)
        → IsTally line.old.rules (next line.old.rules (story_of_line line.old).last m.now) sums
        → IsTally line.new.rules (story_of_line line.new).last sums }
{
    line.push(m);
}

/// Plays the legal move, and gives the sums of the position after it.
pub(crate) fn play(line: &mut Line, values: &PieceValues, tally: Tally, m: &Move) -> Tally
    requires values { values.now ≡ line.old.rules }
    requires tally { IsTally line.old.rules (story_of_line line.old).last tally }
    requires legal { Member m.now (legal_in line.old) }
    requires room { length line.old.moves < line.old.room }
    ensures line { line.new ≡ pushed line.old m.now }
    ensures story { story_of_line line.new ≡ played line.old.rules (story_of_line line.old) m.now }
    ensures tally { IsTally line.new.rules (story_of_line line.new).last result }
{
    let sums = sums_after(line, values, tally, m);
    put(line, m);
    sums
}
