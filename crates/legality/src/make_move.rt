//! The position after a legal move.
ghost use Rattle.std.specs.Prelude.{◌≡◌, ◌&&◌, true};
ghost use Rattle.foundation.specs.Member.{Member};
ghost use Rattle.rules_model.specs.Attacks as Attacks;
ghost use Rattle.rules_model.specs.Legal.{legal};
ghost use Rattle.rules_model.specs.Next as Next;
ghost use Rattle.rules_model.specs.Ready.{IsReady};
ghost use Rattle.rules_model.specs.Repeats.{repeat_of};
ghost use Rattle.rules_model.specs.Sound.{is_sound};
ghost use Rattle.next_position.specs.Changed.{Covers};
ghost use Rattle.board_sets.specs.Sets.{AreSets};

use attack_tables::Tables;
use board_sets::{BoardSets, sets_are_on_board};
use next_position::{Writes, count_check, make_but_checks, make_move, sound_positions_take_moves};
use rules_model::sizes::prove_board_size;
use rules_model::{Cells, Move, Position, Rules, Side};
use sound_play::legal_moves_keep_soundness;

/// Makes the legal move: the position is the one after it, and is sound again. The tables are not read.
pub fn apply(rules: &Rules, tables: &Tables, p: &mut Position, m: &Move)
    requires ready { IsReady rules.now tables.now p.old }
    requires legal { Member m.now (legal rules.now (repeat_of p.old)) }
    ensures next { p.new ≡ Next.next rules.now p.old m.now }
    ensures sound { is_sound rules.now p.new ≡ true }
{
    sound_positions_take_moves();
    legal_moves_keep_soundness();
    make_move(rules, p, m);
}

/// Whether the side's king is attacked, by the sets of the board.
pub(crate) fn king_attacked_on(tables: &Tables, cells: &Cells, side: Side, sets: &BoardSets) -> bool
    requires { AreSets tables.now side cells.now sets.now }
    ensures { result ≡ Attacks.king_attacked tables.now cells.now side }
{
    prove_board_size(cells);
    sets_are_on_board();
    let occupied = sets.occupied();
    tables.king_attacked_by(cells, sets.kings, sets.enemies, occupied, side)
}

/// Whether the king of the side to move is attacked, by the sets of the board, which the caller has.
pub fn king_attacked_with(tables: &Tables, p: &Position, sets: &BoardSets) -> bool
    requires { AreSets tables.now p.now.side p.now.cells sets.now }
    ensures { result ≡ Attacks.king_attacked tables.now p.now.cells p.now.side }
{
    king_attacked_on(tables, &p.cells, p.side, sets)
}

/// Whether the king of the side to move is attacked, and such a check counts.
fn is_check_counted(tables: &Tables, p: &Position, sets: &BoardSets) -> bool
    requires { AreSets tables.now p.now.side p.now.cells sets.now }
    ensures { result ≡ (tables.now.check_counting && Attacks.king_attacked tables.now p.now.cells p.now.side) }
{
    tables.rules().check_counting && king_attacked_with(tables, p, sets)
}

/// The same as `apply`, by the sets of the board. Answered are the sets of the position after the move, for the side
/// that is then to move, and what the move may have written. Whether the move gives check is asked, of the tables, only
/// where the variant counts checks.
pub fn apply_on(
    tables: &Tables,
    p: &mut Position,
    sets: &BoardSets,
    m: &Move,
) -> (BoardSets, Writes)
    requires sound { is_sound tables.now p.old ≡ true }
    requires sets { AreSets tables.now p.old.side p.old.cells sets.now }
    requires legal { Member m.now (legal tables.now (repeat_of p.old)) }
    ensures next { p.new ≡ Next.next tables.now p.old m.now }
    ensures sound { is_sound tables.now p.new ≡ true }
    ensures sets { AreSets tables.now p.new.side p.new.cells result.0 }
    ensures touched { Covers result.1 p.old p.new }
{
    sound_positions_take_moves();
    legal_moves_keep_soundness();
    let rules = tables.rules();
    let side = p.side;
    let touched = make_but_checks(rules, p, m);
    let sets = sets.after(rules, side, &p.cells, touched.squares).turned();
    let gives = is_check_counted(tables, p, &sets);
    count_check(p, side, gives);
    (sets, touched)
}

/// The same as `apply`, by the sets of the board. Answered are the sets of the position after the move, for the side
/// that is then to move.
pub fn apply_with(tables: &Tables, p: &mut Position, sets: &BoardSets, m: &Move) -> BoardSets
    requires sound { is_sound tables.now p.old ≡ true }
    requires sets { AreSets tables.now p.old.side p.old.cells sets.now }
    requires legal { Member m.now (legal tables.now (repeat_of p.old)) }
    ensures next { p.new ≡ Next.next tables.now p.old m.now }
    ensures sound { is_sound tables.now p.new ≡ true }
    ensures sets { AreSets tables.now p.new.side p.new.cells result }
{
    apply_on(tables, p, sets, m).0
}
