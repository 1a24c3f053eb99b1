//! How many ways a game can go on.
ghost use Rattle.std.specs.Prelude.{◌≡◌, ◌≤◌, ◌-◌, ◌^◌, true, length, min, IfOk, OnErr, OnOk};
ghost use Rattle.foundation.specs.Member.{Appends, Member};
ghost use Rattle.rules_model.specs.Legal.{legal};
ghost use Rattle.rules_model.specs.Repeats.{repeat_of};
ghost use Rattle.rules_model.specs.Sound.{is_sound};
ghost use Rattle.board_sets.specs.Sets.{AreSets};
ghost use Rattle.game_play.specs.Perft as Perft;
ghost use Rattle.game_play.specs.Played.{story};

use crate::game::Game;
use attack_tables::Tables;
use board_sets::{BoardSets, sets_of};
use legality::{MoveGen, apply_with};
use rules_model::{Memory, MoveList, Position};
use std::alloc::Global;

/// Appends the legal moves of the position, which has these sets, each once. Without memory the list is as it was.
fn push_moves(
    tables: &Tables,
    p: &Position,
    sets: &BoardSets,
    out: &mut MoveList,
) -> Result<(), Memory>
    requires sound { is_sound tables.now p.now ≡ true }
    requires sets { AreSets tables.now p.now.side p.now.cells sets.now }
    ensures ok { OnOk result (Appends (λ m. Member m (legal tables.now (repeat_of p.now))) out.old out.new) }
    ensures err { OnErr result (out.new ≡ out.old) }
{
    MoveGen::of(tables, p, sets).push_legal(out)
}

/// How many legal moves the position has, up to 2^128 - 1.
fn count_moves(tables: &Tables, p: &Position, sets: &BoardSets) -> u128
    requires sound { is_sound tables.now p.now ≡ true }
    requires sets { AreSets tables.now p.now.side p.now.cells sets.now }
    ensures { result ≡ min (length (legal tables.now (repeat_of p.now))) (2 ^ 128 - 1) }
{
    MoveGen::of(tables, p, sets).count_legal()
}

/// How many lists of so many legal moves in turn there are from the position, which has these sets. The moves of each
/// ply but the last are put at the end of the list, and are taken off again; those of the last are counted alone, with
/// no call of this function, since a call clears the room of a position.
fn count_lines(
    tables: &Tables,
    p: &Position,
    sets: &BoardSets,
    plies: u8,
    moves: &mut MoveList,
) -> Result<u128, Memory>
    requires sound { is_sound tables.now p.now ≡ true }
    requires sets { AreSets tables.now p.now.side p.now.cells sets.now }
    requires some { 2 ≤ plies }
    ensures count { IfOk result (λ n. n ≡ min (Perft.perft tables.now plies p.now) (2 ^ 128 - 1)) }
    ensures kept { OnOk result (moves.new ≡ moves.old) }
{
    let first = moves.items.len();
    push_moves(tables, p, sets, moves)?;
    let mut total: u128 = 0;
    for i in first..moves.items.len() {
        let m = moves.items[i];
        let mut next = *p;
        let next_sets = apply_with(tables, &mut next, sets, &m);
        let lines = if plies == 2 {
            count_moves(tables, &next, &next_sets)
        } else {
            count_lines(tables, &next, &next_sets, plies - 1, moves)?
        };
        total = total.saturating_add(lines);
    }
    moves.items.truncate(first);
    Ok(total)
}

impl Game {
    /// The number of lists of so many legal moves in turn after the last position: 1 to 9 moves; at most 2^128 - 1,
    /// which also stands for more. Where the last position is ended by itself there is none; a game that is ended by
    /// repetition or move count goes on.
    pub fn perft(&self, alloc: Global, plies: u8) -> Result<u128, Memory>
        requires least { 1 ≤ plies }
        requires most { plies ≤ 9 }
        ensures { IfOk result (λ n. n ≡ min (Perft.perft self.now.rules plies (story self.now).last) (2 ^ 128 - 1)) }
    {
        let (tables, p) = (self.tables(), self.position());
        let sets = sets_of(tables.rules(), &p.cells, p.side);
        if plies == 1 {
            return Ok(count_moves(tables, p, &sets));
        }
        let mut moves = MoveList {
            items: Vec::new(alloc),
        };
        count_lines(tables, p, &sets, plies, &mut moves)
    }
}
