//! Steps of the other side's king that a move leaves open, told before the move is made.
ghost use Rattle.std.specs.Prelude.{◌≡◌, ◌<◌, true, None, IfSome};
ghost use Rattle.std.specs.Bool.{OnTrue};
ghost use Rattle.std.specs.List.{All};
ghost use Rattle.rules_model.specs.declared.moves.Move.TheVariants.{Go};
ghost use Rattle.rules_model.specs.Fit.{IsFit};
ghost use Rattle.rules_model.specs.Moves.{IsFitMove};
ghost use Rattle.legality.specs.Stance.{Stance};
ghost use Rattle.check_moves.specs.Flights as Spec;
ghost use Rattle.check_moves.specs.Listing.{MakesSets};

use crate::checks::{kind_after, reaches_some};
use crate::listing::prove_moved;
use crate::shut::shut;
use attack_tables::{Mode, cell_on};
use board_sets::sets_are_on_board;
use playing::Board;
use rules_model::castling::castling_square;
use rules_model::kinds::names;
use rules_model::passing::is_ep;
use rules_model::sizes::prove_position_sizes;
use rules_model::{Kind, Move, Promo, Rules, Side, Square};
use square_set::{EMPTY, Set};

/// The most steps of a king that are kept.
const FLIGHTS: usize = 8;

/// The only king of the side that is not to move.
#[derive(Clone, Copy)]
pub struct LoneKing {
    pub at: u8,
    pub kind: Kind,
}

/// A step of that king to an empty square.
#[derive(Clone, Copy)]
pub struct Flight {
    pub king: LoneKing,
    /// The square to which it steps.
    pub to: u8,
    /// This square alone.
    pub target: Set,
    /// The occupied squares once the king has stepped there.
    pub stepped: Set,
    /// Squares that open no line to the target then: no piece that leaves one uncovers an attack on it, and none that
    /// is dropped on one does.
    pub shut: Set,
}

/// The steps of that king, as far as they were looked for: none where the other side has no king or more than one, or
/// where the rules ask more of a step than that the king is not attacked.
#[derive(Clone, Copy)]
pub struct KnownFlights {
    pub king: Option<LoneKing>,
    /// The squares that were not looked at yet.
    pub rest: Set,
    /// The steps that were found, that which met a move last first.
    pub found: [Option<Flight>; FLIGHTS],
}

/// Whether a quiet move of a piece but a pawn is legal wherever it is a move of its kind, no castle, after which no
/// king of its side is attacked.
#[tactic(auto, unfolding(crate::specs::Flights::are_steps_plain))]
pub(crate) fn are_steps_plain(rules: &Rules) -> bool
    ensures { result ≡ Spec.are_steps_plain rules.now }
{
    rules.checking
        && !rules.flying
        && !rules.must_capture
        && !rules.immobile_bad
        && !rules.must_promote_piece
}

/// Whether the step is one from the king's castling square to a target of castling.
#[tactic(auto, unfolding(crate::specs::Flights::is_castling_step))]
fn is_castling_step(rules: &Rules, side: Side, king: u8, to: u8) -> bool
    requires { IsFit rules.now }
    ensures { result ≡ Spec.is_castling_step rules.now side king to }
{
    king == castling_square(rules, side, rules.castle_king).0
        && (to == castling_square(rules, side, rules.castle_near).0
            || to == castling_square(rules, side, rules.castle_far).0)
}

/// The king on the square, where it is of a kind that steps.
fn king_on(board: &Board, at: u8) -> Option<LoneKing>
    requires small { at < 120 }
    requires plain { Spec.are_steps_plain board.now.rules ≡ true }
    requires king { Spec.has_king board.now at ≡ true }
    requires only { Spec.IsOnlyKing board.now at }
    ensures { IfSome result (Spec.IsLoneKing board.now) }
{
    let p = board.position();
    match cell_on(&p.cells, at) {
        Some(king) => {
            let kind = king.kind;
            if kind.0 >= 26 || names(board.rules().pawn, kind) {
                return None;
            }
            Some(LoneKing { at, kind })
        }
        None => None,
    }
}

/// The other side's king, where it has but one, and its steps are plain.
fn lone_king(board: &Board) -> Option<LoneKing>
    ensures { IfSome result (Spec.IsLoneKing board.now) }
{
    if !are_steps_plain(board.rules()) {
        return None;
    }
    prove_position_sizes(board.position());
    sets_are_on_board();
    let mut kings = board.sets().enemy_kings;
    let Some(at) = kings.take_first() else {
        return None;
    };
    if !kings.is_empty() {
        return None;
    }
    king_on(board, at)
}

/// The king's step to the square, where this is empty and some squares open no line to it.
fn flight_to(board: &Board, king: &LoneKing, to: u8) -> Option<Flight>
    requires { Spec.IsLoneKing board.now king.now }
    ensures { IfSome result (Spec.IsFlight board.now) }
{
    let p = board.position();
    let sets = board.sets();
    let tables = board.tables();
    if to >= 120 {
        return None;
    }
    if cell_on(&p.cells, to).is_some() {
        return None;
    }
    if is_castling_step(tables.rules(), p.side.other(), king.at, to) {
        return None;
    }
    let target = EMPTY.with(to);
    let stepped = sets.occupied().without(king.at).with(to);
    let shut = shut(tables, &p.cells, target, sets.own, stepped, p.side);
    if shut.is_empty() {
        return None;
    }
    Some(Flight {
        king: *king,
        to,
        target,
        stepped,
        shut,
    })
}

/// Whether the step is a leap, which the king makes whatever stands on the board.
pub(crate) fn is_leap(board: &Board, flight: &Flight) -> bool
    requires { Spec.IsFlight board.now flight.now }
    ensures { OnTrue result (Spec.IsLeap board.now flight.now) }
{
    let king = flight.king;
    let by = board.position().side.other();
    let spot = board
        .tables()
        .spot(by, king.kind, Square(king.at), Mode::Quiet);
    spot.leaps.and(spot.within).has(flight.to)
}

/// Whether the king may step to the square once a piece of the kind has left the one square for the other. One that is
/// dropped leaves the square to which it comes. A step that is no leap is not known to be open.
fn stays_open(board: &Board, flight: &Flight, kind: Kind, from: u8, to: u8) -> bool
    requires flight { Spec.IsFlight board.now flight.now }
    requires from { from < 120 }
    requires to { to < 120 }
    ensures { OnTrue result (Spec.StaysOpen board.now flight.now kind from to) }
{
    let king = flight.king;
    if from == king.at || from == flight.to || to == king.at || to == flight.to {
        return false;
    }
    if !flight.shut.has(from) {
        return false;
    }
    let tables = board.tables();
    let side = board.position().side;
    if !is_leap(board, flight) {
        return false;
    }
    prove_moved(board.sets().occupied());
    let moved = flight.stepped.without(from).with(to);
    !reaches_some(tables, side, kind, to, moved, flight.target)
}

/// The step's squares once a piece has moved besides. Nothing is done: the call tells a proof.
fn prove_stepped(flight: &Flight)
    ensures { MakesSets flight.now.stepped }
{
    prove_moved(flight.stepped);
}

/// Whether the king takes on the step's square by a leap, whatever stands on the board.
fn takes_there(board: &Board, flight: &Flight) -> bool
    requires { Spec.IsFlight board.now flight.now }
    ensures { OnTrue result (Spec.TakesThere board.now flight.now) }
{
    let king = flight.king;
    let by = board.position().side.other();
    let spot = board
        .tables()
        .spot(by, king.kind, Square(king.at), Mode::Take);
    spot.leaps.and(spot.within).has(flight.to)
}

/// Whether the king may take by the step the piece that has left the square for that of the step. One that is dropped
/// leaves the square to which it comes. A step that is no leap is not known to take.
fn may_take(board: &Board, flight: &Flight, from: u8) -> bool
    requires flight { Spec.IsFlight board.now flight.now }
    requires from { from < 120 }
    ensures { OnTrue result (Spec.IsTaken board.now flight.now from) }
{
    let king = flight.king;
    if from == king.at {
        return false;
    }
    if !flight.shut.has(from) {
        return false;
    }
    prove_moved(board.sets().occupied());
    prove_stepped(flight);
    takes_there(board, flight)
}

/// Whether the piece that goes from the one square to the other leaves the step open.
fn go_leaves(board: &Board, flight: &Flight, from: Square, to: Square, promo: Promo) -> bool
    requires flight { Spec.IsFlight board.now flight.now }
    requires from { from.0 < 120 }
    requires to { to.0 < 120 }
    ensures { OnTrue result (Spec.LeavesStep board.now flight.now (Go from to promo None)) }
{
    let p = board.position();
    prove_position_sizes(p);
    match cell_on(&p.cells, from.0) {
        None => false,
        Some(piece) => {
            if !piece.side.is(p.side) || is_ep(p.ep, to) {
                return false;
            }
            if to.0 == flight.to {
                return may_take(board, flight, from.0);
            }
            let kind = kind_after(board.rules(), piece, promo);
            stays_open(board, flight, kind, from.0, to.0)
        }
    }
}

/// Whether it is known that the king may take the step once the move is made, if the game goes on then. Of castles,
/// gates and what goes to the square of en passant it is not known.
fn leaves_step(board: &Board, flight: &Flight, m: &Move) -> bool
    requires move_fits { IsFitMove m.now }
    requires flight { Spec.IsFlight board.now flight.now }
    ensures { OnTrue result (Spec.LeavesStep board.now flight.now m.now) }
{
    prove_position_sizes(board.position());
    match *m {
        Move::Go {
            from,
            to,
            promo,
            gate,
        } => gate.is_none() && go_leaves(board, flight, from, to, promo),
        Move::Castle { .. } => false,
        Move::Drop { kind, to } => {
            if to.0 == flight.to {
                may_take(board, flight, to.0)
            } else {
                stays_open(board, flight, kind, to.0, to.0)
            }
        }
    }
}

/// The squares that a king reaches quietly.
fn steps_of(board: &Board, king: &LoneKing) -> Set
    requires { Spec.IsLoneKing board.now king.now }
{
    let by = board.position().side.other();
    let occupied = board.sets().occupied();
    let tables = board.tables();
    tables.reach_set(by, king.kind, Square(king.at), Mode::Quiet, occupied)
}

impl KnownFlights {
    /// The steps of the other side's king in the position, none of which is looked at yet.
    pub fn of(board: &Board) -> KnownFlights
        ensures { Spec.AreFlights board.now result }
    {
        let king = lone_king(board);
        let rest = match king {
            Some(king) => steps_of(board, &king),
            None => EMPTY,
        };
        KnownFlights {
            king,
            rest,
            found: [None; FLIGHTS],
        }
    }

    /// Looks for one more step.
    fn look_on(&mut self, board: &Board) -> Option<Flight>
        requires { Spec.AreFlights board.now self.old }
        ensures kept { Spec.AreFlights board.now self.new }
        ensures found { IfSome result (Spec.IsFlight board.now) }
    {
        let king = self.king?;
        while let Some(to) = self.rest.take_first() {
            let flight = flight_to(board, &king, to);
            if flight.is_some() {
                return flight;
            }
        }
        None
    }

    /// Looks for a step to keep at the place, where none is.
    pub(crate) fn look_at(&mut self, board: &Board, place: usize)
        requires place { place < 8 }
        requires flights { Spec.AreFlights board.now self.old }
        ensures { Spec.AreFlights board.now self.new }
    {
        if self.found[place].is_none() {
            let found = self.look_on(board);
            self.found[place] = found;
        }
    }

    /// The step that is kept at the place, or one that is looked for where none is.
    pub(crate) fn step_at(&mut self, board: &Board, place: usize) -> Option<Flight>
        requires place { place < 8 }
        requires flights { Spec.AreFlights board.now self.old }
        ensures kept { Spec.AreFlights board.now self.new }
        ensures found { IfSome result (Spec.IsFlight board.now) }
    {
        self.look_at(board, place);
        self.found[place]
    }

    /// Whether a step is kept at the place of which it is known that it is legal once the move is made, if the game
    /// goes on then.
    fn is_left_at(&self, board: &Board, place: usize, m: &Move) -> bool
        requires place { place < 8 }
        requires move_fits { IsFitMove m.now }
        requires flights { Spec.AreFlights board.now self.now }
        ensures { OnTrue result (Spec.IsMet board.now m.now) }
    {
        match &self.found[place] {
            Some(flight) => leaves_step(board, flight, m),
            None => false,
        }
    }

    /// Brings the step at the place to the front.
    fn bring_to_front(&mut self, place: usize)
        requires { place < 8 }
        ensures { (s : Stance) → Spec.AreFlights s self.old → Spec.AreFlights s self.new }
    {
        let first = self.found[0];
        self.found[0] = self.found[place];
        self.found[place] = first;
    }

    /// Whether it is known that one of the steps is legal once the move is made, if the game goes on then.
    #[inline(never)]
    pub fn meets(&mut self, board: &Board, m: &Move) -> bool
        requires move_fits { IsFitMove m.now }
        requires flights { Spec.AreFlights board.now self.old }
        ensures kept { Spec.AreFlights board.now self.new }
        ensures met { OnTrue result (Spec.IsMet board.now m.now) }
    {
        for i in 0..FLIGHTS {
            self.look_at(board, i);
            if self.found[i].is_none() {
                return false;
            }
            if self.is_left_at(board, i, m) {
                self.bring_to_front(i);
                return true;
            }
        }
        false
    }
}
