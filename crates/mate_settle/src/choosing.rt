//! What the moves of a position come to, each settled in turn, in an order that is given.
ghost use Rattle.std.specs.Prelude.{◌≡◌, ◌≤◌, ◌<◌, ◌-◌, if◌then◌else◌, true, false, not, None, IfOk, OnOk, IfSome, IsErrOf};
ghost use Rattle.std.specs.List.{find};
ghost use Rattle.foundation.specs.Member.{Lists, Member};
ghost use Rattle.mate_settle.specs.Choices.{all_win, some_wins, wins_after, move_of, lines_of_moves, IsChoice};
ghost use Rattle.mate_settle.specs.Lines.{lines_after, seen_in};
ghost use Rattle.legality.specs.Stance.{legal_in};
ghost use Rattle.watching.specs.declared.halt.Halt.{Halt};

use crate::fact_table::FactTable;
use crate::settling::settle;
use crate::told::Told;
use playing::Board;
use rules_model::Move;
use std::alloc::Global;
use watching::{Halt, Watch};

/// A move, and a number of the attacker's moves within which it wins.
#[derive(Clone, Copy, PartialEq, Eq)]
pub struct WinningMove {
    pub chosen: Move,
    pub moves: u16,
}

/// Settles the position after a legal move: whether it is won within n moves.
///
/// # Errors
///
/// What ends the watch; or `Memory`.
#[inline]
fn settle_after<W: Watch>(
    alloc: Global,
    board: &Board,
    chosen: &Move,
    n: u16,
    facts: &mut FactTable,
    watch: &mut W,
) -> Result<Told, Halt>
    requires rules { board.now.rules ≡ facts.old.rules }
    requires legal { Member chosen.now (legal_in board.now) }
    requires small { n ≤ 1000 }
    ensures frame { facts.new ≡ facts.old }
    ensures asked { IfOk result (λ k. wins_after facts.old n board.now.position chosen.now ≡ k.wins) }
    ensures own { IfOk result (λ k. wins_after facts.old k.moves board.now.position chosen.now ≡ k.wins) }
    ensures short { IfOk result (λ k. k.wins ≡ true → k.moves ≤ n) }
    ensures gone { OnOk result (W.gone watch.old watch.new
        (lines_after (seen_in facts.old) n board.now.position chosen.now)) }
    ensures ended { (why : Halt) → IsErrOf result why →
        W.ended watch.old watch.new (lines_after (seen_in facts.old) n board.now.position chosen.now) why }
{
    let next = board.after(chosen);
    settle(alloc, &next, n, facts, watch)
}

/// The first of the given moves, all legal ones and each once, after which the position is won within n moves, or, as
/// `won` says, is not.
///
/// # Errors
///
/// What ends the watch; or `Memory`.
fn first_that<W: Watch>(
    alloc: Global,
    board: &Board,
    moves: &[Move],
    n: u16,
    won: bool,
    facts: &mut FactTable,
    watch: &mut W,
) -> Result<Option<WinningMove>, Halt>
    requires rules { board.now.rules ≡ facts.old.rules }
    requires moves { Lists (λ m. Member m (legal_in board.now)) moves.now }
    requires small { n ≤ 1000 }
    ensures frame { facts.new ≡ facts.old }
    ensures found { IfOk result (λ o. IfSome o (λ c. Member c.chosen (legal_in board.now))) }
    ensures own { IfOk result (λ o. IfSome o (λ c. wins_after facts.old c.moves board.now.position c.chosen ≡ won)) }
    ensures short { IfOk result (λ o. IfSome o (λ c. won ≡ true → c.moves ≤ n)) }
    ensures first { IfOk result (λ o. move_of o ≡ find (λ m. if won
        then wins_after facts.old n board.now.position m
        else not (wins_after facts.old n board.now.position m)) moves.now) }
    ensures gone { OnOk result (W.gone watch.old watch.new (lines_of_moves facts.old n board.now.position)) }
    ensures ended { (why : Halt) → IsErrOf result why →
        W.ended watch.old watch.new (lines_of_moves facts.old n board.now.position) why }
{
    for i in 0..moves.len() {
        let told = settle_after(alloc, board, &moves[i], n, facts, watch)?;
        if told.wins == won {
            return Ok(Some(WinningMove {
                chosen: moves[i],
                moves: told.moves,
            }));
        }
    }
    Ok(None)
}

/// A legal move of the attacker, who is to move, that wins with fewer than n moves more, n from 1 to 1,000: the first
/// such of the given moves, which are all legal ones, each once. None exactly where there is none.
///
/// # Errors
///
/// What ends the watch; or `Memory`.
pub fn choose<W: Watch>(
    alloc: Global,
    board: &Board,
    moves: &[Move],
    n: u16,
    facts: &mut FactTable,
    watch: &mut W,
) -> Result<Option<WinningMove>, Halt>
    requires rules { board.now.rules ≡ facts.old.rules }
    requires moves { Lists (λ m. Member m (legal_in board.now)) moves.now }
    requires small { n ≤ 1000 }
    requires some { 0 < n }
    ensures frame { facts.new ≡ facts.old }
    ensures first { IfOk result (λ o. move_of o ≡ find (wins_after facts.old (n - 1) board.now.position) moves.now) }
    ensures wins { IfOk result (λ o. IfSome o (IsChoice facts.old board.now.position n)) }
    ensures none { IfOk result (λ o. o ≡ None → some_wins facts.old (n - 1) board.now.position ≡ false) }
    ensures gone { OnOk result (W.gone watch.old watch.new (lines_of_moves facts.old (n - 1) board.now.position)) }
    ensures ended { (why : Halt) → IsErrOf result why →
        W.ended watch.old watch.new (lines_of_moves facts.old (n - 1) board.now.position) why }
{
    first_that(alloc, board, moves, n - 1, true, facts, watch)
}

/// Whether each legal move of the other side, which is to move, leaves the position won within n moves, n up to 1,000.
/// The given moves are all legal ones, each once; the first that does not ends the search.
///
/// # Errors
///
/// What ends the watch; or `Memory`.
pub fn all_won<W: Watch>(
    alloc: Global,
    board: &Board,
    moves: &[Move],
    n: u16,
    facts: &mut FactTable,
    watch: &mut W,
) -> Result<bool, Halt>
    requires rules { board.now.rules ≡ facts.old.rules }
    requires moves { Lists (λ m. Member m (legal_in board.now)) moves.now }
    requires small { n ≤ 1000 }
    ensures frame { facts.new ≡ facts.old }
    ensures won { IfOk result (λ won. won ≡ all_win facts.old n board.now.position) }
    ensures gone { OnOk result (W.gone watch.old watch.new (lines_of_moves facts.old n board.now.position)) }
    ensures ended { (why : Halt) → IsErrOf result why →
        W.ended watch.old watch.new (lines_of_moves facts.old n board.now.position) why }
{
    let lost = first_that(alloc, board, moves, n, false, facts, watch)?;
    Ok(lost.is_none())
}
