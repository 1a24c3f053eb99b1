//! The attacker's last move, which wins by what it does itself and by no reply to it.
ghost use Rattle.std.specs.Prelude.{◌≡◌, true, false, None, Some, IfSome, OnSome};
ghost use Rattle.std.specs.Bool.{OnTrue};
ghost use Rattle.foundation.specs.Member.{Member};
ghost use Rattle.check_moves.specs.Checks.{AreChecksIn};
ghost use Rattle.check_moves.specs.Flights.{AreFlights};
ghost use Rattle.mate_fact.specs.InFrame as In;
ghost use Rattle.mate_settle.specs.LastMoves as Last;
ghost use Rattle.rules_model.specs.declared.moves.Move.{Move};
ghost use Rattle.rules_model.specs.Next.{next};
ghost use Rattle.rules_model.specs.Sides.{same_side};

use crate::fact_table::FactTable;
use crate::ordering::reached;
use check_moves::{Checks, KnownFlights, checks_of, may_check};
use mate_core::Frame;
use mate_fact::won_by;
use playing::Board;
use rules_model::{Memory, Move, Promo, Rules, Square, Value, cell_at};
use std::alloc::Global;

fn is_win(value: Value) -> bool
    ensures { result ≡ Last.is_win value }
{
    match value {
        Value::Win => true,
        Value::Loss => false,
        Value::Draw => false,
    }
}

fn is_loss(value: Value) -> bool
    ensures { result ≡ Last.is_loss value }
{
    match value {
        Value::Win => false,
        Value::Loss => true,
        Value::Draw => false,
    }
}

fn is_won(end: Option<bool>) -> bool
    ensures { result ≡ Last.is_won end }
{
    match end {
        Some(won) => won,
        None => false,
    }
}

/// Whether no side wins by having no move or by extinction, so that what a side does never makes the other one win.
#[tactic(auto, unfolding(crate::specs::LastMoves::only_movers_win))]
pub(crate) fn only_movers_win(rules: &Rules) -> bool
    ensures { result ≡ Last.only_movers_win rules.now }
{
    rules.extinction.is_none() && (!is_win(rules.checkmate) && !is_win(rules.stalemate))
}

/// Whether besides no move wins at once that does not attack the king.
#[tactic(auto, unfolding(crate::specs::LastMoves::only_checks_win))]
fn only_checks_win(rules: &Rules) -> bool
    ensures { result ≡ Last.only_checks_win rules.now }
{
    only_movers_win(rules) && (rules.flag_kind.is_none() && !is_loss(rules.stalemate))
}

/// Whether the attacker, who has no move left, wins the position, where the other side is to move.
fn wins_at_once(frame: &Frame, board: &Board) -> bool
    requires rules { board.now.rules ≡ frame.now.rules }
    requires movers { Last.only_movers_win frame.now.rules ≡ true }
    requires turn { same_side board.now.position.side frame.now.attacker ≡ false }
    ensures { result ≡ In.near_in frame.now 0 board.now.position }
{
    if is_loss(frame.rules.stalemate) || board.in_check() {
        return is_won(won_by(frame.attacker, board.own_end()));
    }
    is_won(won_by(frame.attacker, board.early_end()))
}

/// What is known of the checks, where no move wins at once that gives none.
pub(crate) fn winning_checks(frame: &Frame, board: &Board) -> Option<Checks>
    ensures only { OnSome result (Last.only_checks_win frame.now.rules ≡ true) }
    ensures known { IfSome result (λ checks. AreChecksIn board.now checks) }
{
    if only_checks_win(&frame.rules) {
        Some(checks_of(board))
    } else {
        None
    }
}

/// Whether the attacker's move leaves the king a step, so that it is no mate. Where checks are counted it is not asked:
/// the last of them wins without a mate.
fn leaves_step(frame: &Frame, board: &Board, m: &Move, flights: &mut KnownFlights) -> bool
    requires rules { board.now.rules ≡ frame.now.rules }
    requires only { Last.only_checks_win frame.now.rules ≡ true }
    requires flights { AreFlights board.now flights.old }
    requires attack { In.IsAttackIn frame.now board.now.position }
    requires legal { Member m.now (In.legal_in frame.now board.now.position) }
    ensures flights { AreFlights board.now flights.new }
    ensures no_win { OnTrue result (In.near_in frame.now 0 (next frame.now.rules board.now.position m.now) ≡ false) }
{
    if frame.rules.check_counting {
        return false;
    }
    flights.meets(board, m)
}

/// Whether it is known before the attacker's move is made that it does not win at once: only checks do, and it gives
/// none, or is a check that leaves the king a step.
fn cannot_win_at_once(
    frame: &Frame,
    board: &Board,
    m: &Move,
    checks: &Option<Checks>,
    flights: &mut KnownFlights,
) -> bool
    requires rules { board.now.rules ≡ frame.now.rules }
    requires only { OnSome checks.now (Last.only_checks_win frame.now.rules ≡ true) }
    requires known { IfSome checks.now (λ checks. AreChecksIn board.now checks) }
    requires flights { AreFlights board.now flights.old }
    requires attack { In.IsAttackIn frame.now board.now.position }
    requires legal { Member m.now (In.legal_in frame.now board.now.position) }
    ensures flights { AreFlights board.now flights.new }
    ensures no_win { OnTrue result (In.near_in frame.now 0 (next frame.now.rules board.now.position m.now) ≡ false) }
{
    match checks {
        Some(checks) => {
            if !may_check(board, checks, m) {
                return true;
            }
            leaves_step(frame, board, m, flights)
        }
        None => false,
    }
}

/// The square to which the move leads.
fn target_of(m: &Move) -> Square {
    match *m {
        Move::Go { to, .. } => to,
        Move::Castle { to, .. } => to,
        Move::Drop { to, .. } => to,
    }
}

/// Whether the reply is legal: then the attacker, who has no move left, does not win the position.
fn is_met(frame: &Frame, board: &Board, reply: Option<Move>) -> bool
    requires rules { board.now.rules ≡ frame.now.rules }
    requires movers { Last.only_movers_win frame.now.rules ≡ true }
    requires turn { same_side board.now.position.side frame.now.attacker ≡ false }
    ensures { OnTrue result (In.near_in frame.now 0 board.now.position ≡ false) }
{
    match reply {
        Some(reply) => board.is_legal(&reply),
        None => false,
    }
}

/// Whether a reply is legal that met a check lately which was given by a move to the square. The one before the last is
/// the last then.
fn is_met_again(frame: &Frame, board: &Board, to: Square, facts: &mut FactTable) -> bool
    requires rules { board.now.rules ≡ frame.now.rules }
    requires movers { Last.only_movers_win frame.now.rules ≡ true }
    requires turn { same_side board.now.position.side frame.now.attacker ≡ false }
    ensures kept { facts.new ≡ facts.old }
    ensures met { OnTrue result (In.near_in frame.now 0 board.now.position ≡ false) }
{
    if is_met(frame, board, facts.meeter(to)) {
        return true;
    }
    let elder = facts.elder_meeter(to);
    let met = is_met(frame, board, elder);
    if met {
        facts.bring_meeter(to);
    }
    met
}

/// A legal step of the king that is attacked, or a capture by it, if there is one.
fn king_reply(board: &Board) -> Option<Move> {
    let p = board.position();
    let at = board.sets().kings.first()?;
    let king = cell_at(&p.cells, Square(at))?;
    let mut steps = reached(board, king.side, king.kind, at).minus(board.sets().own);
    while let Some(to) = steps.take_first() {
        let step = Move::Go {
            from: Square(at),
            to: Square(to),
            promo: Promo::Stays,
            gate: None,
        };
        if board.is_legal(&step) {
            return Some(step);
        }
    }
    None
}

/// The first of the legal moves, or `Memory`.
fn first_reply(alloc: Global, board: &Board) -> Result<Option<Move>, Memory> {
    let replies = board.list_legal(alloc)?;
    match replies.items.first() {
        Some(reply) => Ok(Some(*reply)),
        None => Ok(None),
    }
}

/// Keeps a legal reply to the check that was given by a move to the square: one of the king, if there is one; or the
/// first that is listed, where there is memory for the list of them.
fn keep_reply(alloc: Global, board: &Board, to: Square, facts: &mut FactTable)
    ensures { facts.new ≡ facts.old }
{
    if let Some(reply) = king_reply(board) {
        facts.keep_meeter(to, reply);
        return;
    }
    if let Ok(Some(reply)) = first_reply(alloc, board) {
        facts.keep_meeter(to, reply);
    }
}

/// Whether the attacker's move wins at once: it is made. Before the replies to a check are looked for, the one is tried
/// that met such a check last. The position after the move is no local of the caller, which makes few of its moves.
#[inline(never)]
fn wins_once_made(
    alloc: Global,
    frame: &Frame,
    board: &Board,
    m: &Move,
    facts: &mut FactTable,
) -> bool
    requires rules { board.now.rules ≡ frame.now.rules }
    requires movers { Last.only_movers_win frame.now.rules ≡ true }
    requires attack { In.IsAttackIn frame.now board.now.position }
    requires legal { Member m.now (In.legal_in frame.now board.now.position) }
    ensures kept { facts.new ≡ facts.old }
    ensures wins { result ≡ In.near_in frame.now 0 (next frame.now.rules board.now.position m.now) }
{
    let next = board.asked_after(m);
    let to = target_of(m);
    if is_met_again(frame, &next, to, facts) {
        return false;
    }
    let wins = wins_at_once(frame, &next);
    if !wins && next.in_check() {
        keep_reply(alloc, &next, to, facts);
    }
    wins
}

/// Whether the attacker's move wins at once. It is not made where `cannot_win_at_once` says so before.
fn wins_by(
    alloc: Global,
    frame: &Frame,
    board: &Board,
    m: &Move,
    checks: &Option<Checks>,
    flights: &mut KnownFlights,
    facts: &mut FactTable,
) -> bool
    requires rules { board.now.rules ≡ frame.now.rules }
    requires movers { Last.only_movers_win frame.now.rules ≡ true }
    requires only { OnSome checks.now (Last.only_checks_win frame.now.rules ≡ true) }
    requires known { IfSome checks.now (λ checks. AreChecksIn board.now checks) }
    requires flights { AreFlights board.now flights.old }
    requires attack { In.IsAttackIn frame.now board.now.position }
    requires legal { Member m.now (In.legal_in frame.now board.now.position) }
    ensures flights { AreFlights board.now flights.new }
    ensures kept { facts.new ≡ facts.old }
    ensures wins { result ≡ In.near_in frame.now 0 (next frame.now.rules board.now.position m.now) }
{
    if cannot_win_at_once(frame, board, m, checks, flights) {
        return false;
    }
    wins_once_made(alloc, frame, board, m, facts)
}

/// A move that wins at once, if there is one among these.
pub(crate) fn winning_move(
    alloc: Global,
    frame: &Frame,
    board: &Board,
    moves: &[Move],
    checks: &Option<Checks>,
    flights: &mut KnownFlights,
    facts: &mut FactTable,
) -> Option<Move>
    requires rules { board.now.rules ≡ frame.now.rules }
    requires movers { Last.only_movers_win frame.now.rules ≡ true }
    requires only { OnSome checks.now (Last.only_checks_win frame.now.rules ≡ true) }
    requires known { IfSome checks.now (λ checks. AreChecksIn board.now checks) }
    requires flights { AreFlights board.now flights.old }
    requires attack { In.IsAttackIn frame.now board.now.position }
    requires legal { (m : Move) → Member m moves.now → Member m (In.legal_in frame.now board.now.position) }
    ensures kept { facts.new ≡ facts.old }
    ensures listed { IfSome result (λ m. Member m moves.now) }
    ensures wins { IfSome result (λ m. In.near_in frame.now 0 (next frame.now.rules board.now.position m) ≡ true) }
    ensures none { result ≡ None → (m : Move) → Member m moves.now →
        In.near_in frame.now 0 (next frame.now.rules board.now.position m) ≡ false }
{
    for i in 0..moves.len() {
        let chosen = moves[i];
        if wins_by(alloc, frame, board, &chosen, checks, flights, facts) {
            return Some(chosen);
        }
    }
    None
}
