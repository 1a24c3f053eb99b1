//! The last moves: the attacker's, and the reply before it. No node is entered for them.
ghost use Rattle.std.specs.Prelude.{◌≡◌, true, false, not, IfOk, IfSome};
ghost use Rattle.std.specs.Bool.{OnTrue};
ghost use Rattle.foundation.specs.Member.{Member};
ghost use Rattle.legality.specs.Stance.{legal_in, repeat_in};
ghost use Rattle.rules_model.specs.declared.moves.Move.{Move};
ghost use Rattle.rules_model.specs.Legal.{is_stuck};
ghost use Rattle.check_moves.specs.Checks.{AreChecksIn};
ghost use Rattle.check_moves.specs.Flights.{AreFlights};
ghost use Rattle.mate_settle.specs.LastMoves as Last;
ghost use Rattle.mate_settle.specs.Tried as Tried;
ghost use Rattle.mate_settle.specs.Refuters.{IsRefuter};
ghost use Rattle.mate_settle.specs.Steps as Steps;
ghost use Rattle.mate_settle.specs.Tellings.{IsTold};
ghost use Rattle.rules_model.specs.Sides.{same_side};

use crate::fact_table::{FactTable, REFUTERS};
use crate::last_moves::{only_movers_win, winning_checks, winning_move};
use crate::told::{Told, told_of_end};
use check_moves::{Checks, KnownFlights, push_checks};
use mate_core::Frame;
use mate_fact::{by_move_within, end_of};
use playing::Board;
use rules_model::{Memory, Move, MoveList, Outcome};
use std::alloc::Global;

/// Most positions have no more moves that may give check.
const CHECKS: usize = 16;

/// Legal moves, each check among them that may mate where only checks win, and all where not; or `Memory`.
fn last_moves(
    alloc: Global,
    board: &Board,
    checks: &Option<Checks>,
    flights: &mut KnownFlights,
) -> Result<MoveList, Memory>
    requires known { IfSome checks.now (λ checks. AreChecksIn board.now checks) }
    requires flights { AreFlights board.now flights.old }
    ensures flights { AreFlights board.now flights.new }
    ensures tried { IfOk result (λ ms. Tried.AreTried board.now checks.now ms) }
{
    match checks {
        Some(checks) => {
            let mut moves = MoveList {
                items: Vec::with_capacity(alloc, CHECKS)?,
            };
            push_checks(board, checks, flights, &mut moves)?;
            Ok(moves)
        }
        None => board.list_legal(alloc),
    }
}

/// Whether some move is legal, where these are some of the legal moves.
fn some_legal(board: &Board, moves: &[Move]) -> bool
    requires { (m : Move) → Member m moves.now → Member m (legal_in board.now) }
    ensures { result ≡ not (is_stuck board.now.rules (repeat_in board.now)) }
{
    if moves.is_empty() {
        return board.any_legal();
    }
    true
}

/// What is told of a position by the attacker's last move, and that move where he wins by it.
#[derive(Clone, Copy)]
struct LastMove {
    told: Told,
    chosen: Option<Move>,
}

/// Whether the attacker, who is to move, wins by one move; or `Memory`. It makes no fact, which costs as much as a
/// list.
fn by_one_move(
    alloc: Global,
    frame: &Frame,
    board: &Board,
    facts: &mut FactTable,
) -> Result<LastMove, Memory>
    requires rules { board.now.rules ≡ frame.now.rules }
    requires movers { Last.only_movers_win frame.now.rules ≡ true }
    requires turn { same_side board.now.position.side frame.now.attacker ≡ true }
    ensures kept { facts.new ≡ facts.old }
    ensures told { IfOk result (λ last. IsTold frame.now board.now.position 1 last.told) }
    ensures wins { IfOk result (λ last. IfSome last.chosen (Steps.Decides frame.now board.now.position true 0)) }
{
    let checks = winning_checks(frame, board);
    let mut flights = KnownFlights::of(board);
    let moves = last_moves(alloc, board, &checks, &mut flights)?;
    let list = moves.items.as_slice();
    let own = board.end_where(some_legal(board, list));
    match end_of(frame, board.position(), own) {
        Some(won) => Ok(LastMove {
            told: told_of_end(won),
            chosen: None,
        }),
        None => {
            let chosen = winning_move(alloc, frame, board, list, &checks, &mut flights, facts);
            let told = Told {
                wins: chosen.is_some(),
                moves: 1,
            };
            Ok(LastMove { told, chosen })
        }
    }
}

/// Whether the reply is legal, and the attacker does not win after it by the one move that he has left; or `Memory`.
fn refutes(
    alloc: Global,
    frame: &Frame,
    board: &Board,
    reply: Move,
    facts: &mut FactTable,
) -> Result<bool, Memory>
    requires rules { board.now.rules ≡ frame.now.rules }
    requires movers { Last.only_movers_win frame.now.rules ≡ true }
    requires turn { same_side board.now.position.side frame.now.attacker ≡ false }
    ensures kept { facts.new ≡ facts.old }
    ensures refutes { IfOk result (λ is. OnTrue is (IsRefuter frame.now board.now reply)) }
{
    if !board.is_legal(&reply) {
        return Ok(false);
    }
    let ended = end_of(frame, board.position(), Outcome::Ongoing);
    if ended.is_some() {
        return Ok(false);
    }
    let next = board.asked_after(&reply);
    let last = by_one_move(alloc, frame, &next, facts)?;
    Ok(!last.told.wins)
}

/// Of the replies that refuted such positions last, the newest that refutes this one, where the attacker has one move
/// left; or `Memory`.
fn last_refuter(alloc: Global, board: &Board, facts: &mut FactTable) -> Result<Option<Move>, Memory>
    requires rules { board.now.rules ≡ facts.old.rules }
    requires movers { Last.only_movers_win facts.old.rules ≡ true }
    requires turn { same_side board.now.position.side facts.old.attacker ≡ false }
    ensures kept { facts.new ≡ facts.old }
    ensures found { IfOk result (λ o. IfSome o (IsRefuter facts.old board.now)) }
{
    let frame = facts.frame();
    for at in 0..REFUTERS {
        let Some(reply) = facts.refuter(at) else {
            return Ok(None);
        };
        if refutes(alloc, frame, board, reply, facts)? {
            return Ok(Some(reply));
        }
    }
    Ok(None)
}

/// What is told where a reply that refuted such a position lately refutes this one, else None; or `Memory`. No list of
/// moves is made.
#[inline(never)]
fn refuted_again(
    alloc: Global,
    board: &Board,
    facts: &mut FactTable,
) -> Result<Option<Told>, Memory>
    requires rules { board.now.rules ≡ facts.old.rules }
    requires movers { Last.only_movers_win facts.old.rules ≡ true }
    requires turn { same_side board.now.position.side facts.old.attacker ≡ false }
    ensures frame { facts.new ≡ facts.old }
    ensures told { IfOk result (λ o. IfSome o (IsTold facts.old board.now.position 1)) }
{
    match last_refuter(alloc, board, facts)? {
        Some(reply) => {
            facts.keep_refuter(reply);
            Ok(Some(Told {
                wins: false,
                moves: 1,
            }))
        }
        None => Ok(None),
    }
}

/// Keeps the win of a position by the attacker's last move.
#[inline(never)]
fn keep_last(board: &Board, chosen: &Move, facts: &mut FactTable)
    requires wins { Steps.Decides facts.old board.now.position true 0 chosen.now }
    ensures { facts.new ≡ facts.old }
{
    let fact = by_move_within(facts.frame(), board.position(), chosen, 0);
    facts.keep(board, fact);
}

/// The attacker's last move, where only movers win: whether he wins by it; or `Memory`. A win is kept.
#[inline(never)]
fn settled_last(alloc: Global, board: &Board, facts: &mut FactTable) -> Result<Told, Memory>
    requires rules { board.now.rules ≡ facts.old.rules }
    requires movers { Last.only_movers_win facts.old.rules ≡ true }
    requires turn { same_side board.now.position.side facts.old.attacker ≡ true }
    ensures frame { facts.new ≡ facts.old }
    ensures told { IfOk result (IsTold facts.old board.now.position 1) }
{
    let last = by_one_move(alloc, facts.frame(), board, facts)?;
    if let Some(chosen) = last.chosen {
        keep_last(board, &chosen, facts);
    }
    Ok(last.told)
}

/// What is known of a position before its moves are listed: by a kept fact; or, where the attacker has one move left,
/// by that move, or by a reply that refuted lately. Or `Memory`.
pub(crate) fn known_before(
    alloc: Global,
    board: &Board,
    n: u16,
    facts: &mut FactTable,
) -> Result<Option<Told>, Memory>
    requires rules { board.now.rules ≡ facts.old.rules }
    ensures frame { facts.new ≡ facts.old }
    ensures told { IfOk result (λ o. IfSome o (IsTold facts.old board.now.position n)) }
{
    let frame = facts.frame();
    let is_last = n == 1 && only_movers_win(&frame.rules);
    if is_last && board.position().side.is(frame.attacker) {
        let told = settled_last(alloc, board, facts)?;
        return Ok(Some(told));
    }
    let known = facts.told(board, n);
    if known.is_some() || !is_last {
        return Ok(known);
    }
    refuted_again(alloc, board, facts)
}
