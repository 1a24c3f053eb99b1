//! The position after a move, made in place, for every variant and every move on the largest board.
#![tactic(auto)]

ghost use Rattle.std.specs.Prelude.{◌≡◌, true};
ghost use Rattle.rules_model.specs.declared.board.Position.{Position};
ghost use Rattle.rules_model.specs.declared.rules.Rules.{Rules};
ghost use Rattle.rules_model.specs.Fit.{IsFit};
ghost use Rattle.rules_model.specs.Moves.{IsFitMove};
ghost use Rattle.rules_model.specs.Next as Next;
ghost use Rattle.rules_model.specs.Repeats.{repeat_of};
ghost use Rattle.rules_model.specs.Sound.{is_sound};
ghost use Rattle.next_position.specs.Changed.{Covers};
ghost use Rattle.next_position.specs.Room.{HasRoom, RightsHaveRooks};

mod counts;
mod gates;
mod hands;
mod passing;
mod pieces;
mod rights;
mod written;

pub use counts::count_check;
pub use hands::hand_kind;
pub use pieces::{behind, fresh, gated, promote};
use rules_model::{Cells, Move, Position, Rules, Side};
pub use written::{OnePut, Writes, one_put, touched};

/// Makes of the pieces of a position those that stand there after a move.
///
/// It writes one to five squares, and reads the old pieces alone.
pub fn move_pieces(rules: &Rules, p: &Position, m: &Move, cells: &mut Cells)
    requires fit { IsFit rules.now }
    requires move_fits { IsFitMove m.now }
    requires copy { cells.old ≡ p.now.cells }
    ensures { cells.new ≡ Next.cells_after rules.now (repeat_of p.now) m.now }
{
    let passing = passing::is_passing(rules, p, m);
    pieces::write(rules, p.side, passing, m, cells);
}

/// Makes the move: pieces, hands, rights, gates, the en passant square, both counts and the side to move are those of
/// the position after it. The checks left stay those before it: where the variant counts them, `count_check` does the
/// rest. Answered is what it may have written, as by `touched`.
pub fn make_but_checks(rules: &Rules, p: &mut Position, m: &Move) -> Writes
    requires fit { IsFit rules.now }
    requires move_fits { IsFitMove m.now }
    requires room { HasRoom p.old }
    requires rooks { RightsHaveRooks rules.now p.old }
    ensures position { p.new ≡ record (Next.next rules.now p.old m.now) { checks = p.old.checks } }
    ensures touched { Covers result p.old p.new }
{
    let side = p.side;
    let passing = passing::is_passing(rules, p, m);
    let taken = pieces::taken(rules, p, passing, m);
    let touched = written::touched_by(rules, p, passing, taken, m);
    let passed = passing::passed_over(rules, p, m);
    let white = rights::rights_left(rules, p, passing, m, Side::White);
    let black = rights::rights_left(rules, p, passing, m, Side::Black);
    p.counter = counts::counter(rules, p, m, taken);
    p.number = counts::number(side, p.number);
    pieces::write(rules, side, passing, m, &mut p.cells);
    hands::change(rules, side, taken, m, &mut p.hands);
    gates::close(rules, m, &mut p.gates);
    p.rights = [
        rights::rights_kept(rules, &p.cells, &p.rights, Side::White, white),
        rights::rights_kept(rules, &p.cells, &p.rights, Side::Black, black),
    ];
    p.ep = passing::ep_square(rules, &p.cells, side, passed);
    p.side = side.other();
    touched
}

/// Makes the move: pieces, hands, rights, gates, the checks left, the en passant square, both counts and the side to
/// move are those of the position after it.
pub fn make_move(rules: &Rules, p: &mut Position, m: &Move)
    requires fit { IsFit rules.now }
    requires move_fits { IsFitMove m.now }
    requires room { HasRoom p.old }
    requires rooks { RightsHaveRooks rules.now p.old }
    ensures { p.new ≡ Next.next rules.now p.old m.now }
{
    let side = p.side;
    let _touched = make_but_checks(rules, p, m);
    let gives = counts::is_counted(rules, &p.cells, side);
    count_check(p, side, gives);
}

/// A sound position meets what a move asks of it: there is room in the hand, and a rook stands where there is a right.
pub fn sound_positions_take_moves()
    ensures room { (rules : Rules) (p : Position) → is_sound rules p ≡ true → HasRoom p }
    ensures rooks { (rules : Rules) (p : Position) → is_sound rules p ≡ true → RightsHaveRooks rules p }
{}
