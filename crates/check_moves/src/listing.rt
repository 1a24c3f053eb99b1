//! The list of the moves that may give check.
ghost use Rattle.std.specs.Prelude.{◌≡◌, ℕ, ◌<◌, true, false, slice_index_or, IfSome, OnOk, OnErr};
ghost use Rattle.rules_model.specs.Pawns.{is_ep};
ghost use Rattle.square_set.specs.Members.{has, OnSquares};
ghost use Rattle.check_moves.specs.Checks.{AreChecksIn};
ghost use Rattle.check_moves.specs.Flights.{AreFlights};
ghost use Rattle.check_moves.specs.Listing as Spec;

use crate::checks::Checks;
use crate::flights::{Flight, KnownFlights, is_leap};
use attack_tables::Tables;
use legality::Asked;
use playing::Board;
use rules_model::sizes::prove_position_sizes;
use rules_model::{KINDS, Kind, Memory, MoveList, Side, Square};
use square_set::{ALL, EMPTY, Set};

/// Squares outside of which no piece of the kind takes on one of the kings' squares on any board.
fn takers_of_kings(tables: &Tables, by: Side, kind: Kind, kings: Set) -> Set
    requires kind { kind.0 < 26 }
    requires kings { OnSquares kings }
    ensures { Spec.AreTakers tables.now by kind.0 kings result }
{
    let mut takers = EMPTY;
    let mut rest = kings;
    while let Some(king) = rest.take_first() {
        takers = takers.or(tables.takers_of(by, kind, Square(king)));
    }
    takers
}

/// The square of the set, where it has but one.
fn only_of(squares: Set) -> Option<u8>
    requires { OnSquares squares }
    ensures { IfSome result (Spec.IsOnlyOf squares) }
{
    let mut rest = squares;
    let Some(at) = rest.take_first() else {
        return None;
    };
    if !rest.is_empty() {
        return None;
    }
    Some(at)
}

/// The same as `takers_of_kings`, where `only` is the square of the only king, if there is one king. It is looked for
/// once for all kinds.
fn takers_by(tables: &Tables, by: Side, kind: Kind, kings: Set, only: Option<u8>) -> Set
    requires kind { kind.0 < 26 }
    requires kings { OnSquares kings }
    requires only { IfSome only (Spec.IsOnlyOf kings) }
    ensures { Spec.AreTakers tables.now by kind.0 kings result }
{
    match only {
        Some(at) => tables.takers_of(by, kind, Square(at)),
        None => takers_of_kings(tables, by, kind, kings),
    }
}

/// The square of en passant.
fn passed_square(ep: Option<Square>) -> Set
    ensures { (s : ℕ) → is_ep ep s ≡ true → s < 120 → has result s ≡ true }
{
    match ep {
        None => EMPTY,
        Some(at) => { if at.0 < 120 { EMPTY.with(at.0) } else { EMPTY } }
    }
}

/// The king's step that a move has to close in order to mate, if one is known that is a leap. Where checks are counted
/// there is none: the last of them wins without a mate.
fn step_to_close(board: &Board, flights: &mut KnownFlights) -> Option<Flight>
    requires { AreFlights board.now flights.old }
    ensures kept { AreFlights board.now flights.new }
    ensures step { IfSome result (Spec.IsToClose board.now) }
{
    if board.rules().check_counting {
        return None;
    }
    let flight = flights.step_at(board, 0)?;
    if !is_leap(board, &flight) {
        return None;
    }
    prove_moved(flight.stepped);
    Some(flight)
}

/// Squares outside of which no piece of the kind closes the step by coming there; all where there is no step.
fn closers(board: &Board, kind: Kind, step: &Option<Flight>) -> Set
    requires kind { kind.0 < 26 }
    requires step { IfSome step.now (Spec.IsToClose board.now) }
    ensures { (to : ℕ) → to < 120 → has result to ≡ false → Spec.IsApart board.now step.now kind.0 to }
{
    match step {
        None => ALL,
        Some(flight) => {
            let by = board.position().side;
            let takers = board.tables().takers_of(by, kind, Square(flight.to));
            takers.or(flight.target).with(flight.king.at)
        }
    }
}

/// Squares that a piece may leave, or on which it may be dropped, without opening a line to a king or closing the step.
fn quiet_squares(checks: &Checks, step: &Option<Flight>) -> Set
    requires { IfSome step.now (λ flight. flight.king.at < 120) }
    ensures checks { (s : ℕ) → has result s ≡ true → has checks.now.shut s ≡ true }
    ensures step { (s : ℕ) → has result s ≡ true → Spec.IsLeft step.now s }
{
    match step {
        None => checks.shut,
        Some(flight) => {
            let shut = checks.shut.and(flight.shut);
            shut.minus(flight.target.with(flight.king.at))
        }
    }
}

/// Squares outside of which no piece of the kind gives check and closes the step by coming there. They have that of en
/// passant. They are all for a kind that the variant does not have, since none is asked of it.
fn asked_to(
    board: &Board,
    checks: &Checks,
    only: Option<u8>,
    step: &Option<Flight>,
    passed: Set,
    kind: Kind,
) -> Set
    requires kings { OnSquares checks.now.kings }
    requires only { IfSome only (Spec.IsOnlyOf checks.now.kings) }
    requires step { IfSome step.now (Spec.IsToClose board.now) }
    requires passed { (s : ℕ) → is_ep board.now.position.ep s ≡ true → s < 120 → has passed s ≡ true }
    requires kind { kind.0 < 26 }
    ensures { (to : ℕ) → to < 120 → has result to ≡ false → Spec.ComesInVain board.now checks.now step.now kind.0 to }
{
    let tables = board.tables();
    if tables.rules().kinds[kind.0 as usize].is_none() {
        return ALL;
    }
    let takers = takers_by(tables, board.position().side, kind, checks.kings, only);
    takers.and(closers(board, kind, step)).or(passed)
}

/// Asks for moves, so that each of the others gives no check where kings do not fly, or leaves the step open. What was
/// asked for before is forgotten.
fn ask(board: &Board, checks: &Checks, step: &Option<Flight>, asked: &mut Asked)
    requires checks { AreChecksIn board.now checks.now }
    requires step { IfSome step.now (Spec.IsToClose board.now) }
    ensures { Spec.IsAskedOf board.now checks.now step.now asked.new }
{
    let p = board.position();
    prove_position_sizes(p);
    let passed = passed_square(p.ep);
    let only = only_of(checks.kings);
    // What is read makes the number of the sets known to the proof.
    let _first = asked.to[0];
    asked.shut = quiet_squares(checks, step);
    for kind in 0..26u8 {
        asked.to[kind as usize] = asked_to(board, checks, only, step, passed, Kind(kind));
    }
}

/// A piece that goes from one square to another makes a set of the occupied ones. Nothing is done: the call tells a
/// proof.
pub(crate) fn prove_moved(occupied: Set)
    ensures { Spec.MakesSets occupied }
{
    let _none = occupied.is_empty();
}

/// Appends legal moves, each once and in no special order, and among them each that gives check; but where checks are
/// not counted one that leaves the king a step need not be among them. Those are left out that are known to give none,
/// or to leave a step, by the square that is left, the kind, and the square that is entered. Without memory the list is
/// as it was.
pub fn push_checks(
    board: &Board,
    checks: &Checks,
    flights: &mut KnownFlights,
    out: &mut MoveList,
) -> Result<(), Memory>
    requires checks { AreChecksIn board.now checks.now }
    requires flights { AreFlights board.now flights.old }
    ensures flights { AreFlights board.now flights.new }
    ensures ok { OnOk result (Spec.AppendsChecks board.now out.old out.new) }
    ensures err { OnErr result (out.new ≡ out.old) }
{
    let rules = board.tables().rules();
    if rules.flying {
        return board.push_legal(out);
    }
    prove_position_sizes(board.position());
    prove_moved(board.sets().occupied());
    let step = step_to_close(board, flights);
    let mut asked = Asked {
        shut: EMPTY,
        to: [EMPTY; KINDS],
    };
    ask(board, checks, &step, &mut asked);
    board.push_asked(&asked, out)
}
