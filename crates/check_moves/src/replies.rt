//! Leaps of the other side's pieces that a move leaves legal, told before the move is made.
ghost use Rattle.std.specs.Prelude.{◌≡◌, ◌<◌, ◌||◌, true, None, IfSome};
ghost use Rattle.std.specs.Bool.{OnTrue};
ghost use Rattle.rules_model.specs.declared.moves.Move.TheVariants.{Go};
ghost use Rattle.rules_model.specs.Kinds.{is_king, is_pawn};
ghost use Rattle.rules_model.specs.Moves.{IsFitMove};
ghost use Rattle.check_moves.specs.Flights.{IsMet, are_steps_plain};
ghost use Rattle.check_moves.specs.Replies as Spec;

use crate::checks::{kind_after, reaches_some};
use crate::flights::are_steps_plain;
use crate::listing::prove_moved;
use crate::shut::shut;
use attack_tables::{Mode, cell_on};
use board_sets::sets_are_on_board;
use playing::Board;
use rules_model::kinds::names;
use rules_model::passing::is_ep;
use rules_model::sizes::prove_position_sizes;
use rules_model::{Kind, Move, Promo, Rules, Square};
use square_set::{EMPTY, Set};

/// A piece of the side that is not to move, neither a king nor a pawn.
#[derive(Clone, Copy)]
pub struct Leaper {
    pub from: u8,
    pub kind: Kind,
}

/// A leap of that piece to an empty square.
#[derive(Clone, Copy)]
pub struct Reply {
    pub leaper: Leaper,
    /// The square to which it leaps.
    pub to: u8,
    /// The squares of the kings of its side.
    pub kings: Set,
    /// The occupied squares once it has leapt.
    pub stepped: Set,
    /// Squares that open no line to one of those kings then: no piece that leaves one uncovers a check, and none that
    /// is dropped on one does.
    pub shut: Set,
}

/// Two leaps at most, of different pieces: none where the rules ask more of a leap than that no king of its side is
/// attacked after it.
#[derive(Clone, Copy)]
pub struct Replies {
    pub first: Option<Reply>,
    pub second: Option<Reply>,
}

/// A piece of a kind that comes to a square from another. One that is dropped comes from the square to which it comes.
#[derive(Clone, Copy)]
pub struct Coming {
    pub kind: Kind,
    pub from: u8,
    pub to: u8,
}

/// Whether the kind is that of the kings or of the pawns.
fn is_king_or_pawn(rules: &Rules, kind: Kind) -> bool
    ensures { result ≡ (is_pawn rules.now kind || is_king rules.now kind) }
{
    names(rules.pawn, kind) || names(rules.king, kind)
}

/// The piece on the square, where it is one of the other side's that may leap.
fn leaper_on(board: &Board, from: u8) -> Option<Leaper>
    requires plain { are_steps_plain board.now.rules ≡ true }
    ensures { IfSome result (Spec.IsLeaper board.now) }
{
    if from >= 120 {
        return None;
    }
    let p = board.position();
    match cell_on(&p.cells, from) {
        Some(piece) => {
            let kind = piece.kind;
            if kind.0 >= 26 || is_king_or_pawn(board.rules(), kind) {
                return None;
            }
            if !piece.side.is(p.side.other()) {
                return None;
            }
            Some(Leaper { from, kind })
        }
        None => None,
    }
}

/// An empty square to which the piece leaps, whatever stands on the board.
fn leap_of(board: &Board, leaper: &Leaper) -> Option<u8>
    requires { Spec.IsLeaper board.now leaper.now }
    ensures { IfSome result (Spec.IsLeapTo board.now leaper.now) }
{
    let by = board.position().side.other();
    let spot = board
        .tables()
        .spot(by, leaper.kind, Square(leaper.from), Mode::Quiet);
    let occupied = board.sets().occupied();
    let mut free = spot.leaps.and(spot.within).minus(occupied);
    free.take_first()
}

/// The leap of the piece to the square, where some squares open no line to a king of its side then.
fn reply_to(board: &Board, leaper: &Leaper, to: u8) -> Option<Reply>
    requires leaper { Spec.IsLeaper board.now leaper.now }
    requires leap { Spec.IsLeapTo board.now leaper.now to }
    ensures { IfSome result (Spec.IsReply board.now) }
{
    if to >= 120 {
        return None;
    }
    let p = board.position();
    let sets = board.sets();
    prove_position_sizes(p);
    sets_are_on_board();
    let kings = sets.enemy_kings;
    let stepped = sets.occupied().without(leaper.from).with(to);
    let shut = shut(board.tables(), &p.cells, kings, sets.own, stepped, p.side);
    if shut.is_empty() {
        return None;
    }
    Some(Reply {
        leaper: *leaper,
        to,
        kings,
        stepped,
        shut,
    })
}

/// A leap of the piece on the square.
fn reply_from(board: &Board, from: u8) -> Option<Reply>
    requires plain { are_steps_plain board.now.rules ≡ true }
    ensures { IfSome result (Spec.IsReply board.now) }
{
    let Some(leaper) = leaper_on(board, from) else {
        return None;
    };
    let Some(to) = leap_of(board, &leaper) else {
        return None;
    };
    reply_to(board, &leaper, to)
}

/// A leap of a piece on one of the squares, of which those that were looked at are taken out.
fn next_reply(board: &Board, rest: &mut Set) -> Option<Reply>
    requires plain { are_steps_plain board.now.rules ≡ true }
    ensures { IfSome result (Spec.IsReply board.now) }
{
    while let Some(from) = rest.take_first() {
        let reply = reply_from(board, from);
        if reply.is_some() {
            return reply;
        }
    }
    None
}

/// The piece that goes from the one square to the other, unless this is the square of en passant.
fn going(board: &Board, from: Square, to: Square, promo: Promo) -> Option<Coming>
    requires from { from.0 < 120 }
    requires to { to.0 < 120 }
    ensures { IfSome result (Spec.IsComing board.now (Go from to promo None)) }
{
    let p = board.position();
    prove_position_sizes(p);
    match cell_on(&p.cells, from.0) {
        None => None,
        Some(piece) => {
            if !piece.side.is(p.side) || is_ep(p.ep, to) {
                return None;
            }
            let kind = kind_after(board.rules(), piece, promo);
            Some(Coming {
                kind,
                from: from.0,
                to: to.0,
            })
        }
    }
}

/// The piece that comes to a square by the move, where this changes no other square but the one that it leaves.
/// Castles, gates and what goes to the square of en passant are not looked into.
fn coming_of(board: &Board, m: &Move) -> Option<Coming>
    requires move_fits { IsFitMove m.now }
    ensures { IfSome result (Spec.IsComing board.now m.now) }
{
    prove_position_sizes(board.position());
    match *m {
        Move::Go {
            from,
            to,
            promo,
            gate,
        } => {
            if gate.is_some() {
                return None;
            }
            going(board, from, to, promo)
        }
        Move::Castle { .. } => None,
        Move::Drop { kind, to } => Some(Coming {
            kind,
            from: to.0,
            to: to.0,
        }),
    }
}

/// Whether it is known that the reply is legal once the piece has come.
fn stays_legal(board: &Board, reply: &Reply, coming: &Coming) -> bool
    requires reply { Spec.IsReply board.now reply.now }
    requires from { coming.now.from < 120 }
    requires to { coming.now.to < 120 }
    ensures { OnTrue result (Spec.StaysLegal board.now reply.now coming.now) }
{
    let from = coming.from;
    let to = coming.to;
    let start = reply.leaper.from;
    if from == start || from == reply.to || to == start || to == reply.to {
        return false;
    }
    if !reply.shut.has(from) {
        return false;
    }
    prove_moved(board.sets().occupied());
    prove_position_sizes(board.position());
    let moved = reply.stepped.without(from).with(to);
    let side = board.position().side;
    !reaches_some(board.tables(), side, coming.kind, to, moved, reply.kings)
}

/// Whether it is known that the reply, if there is one, is legal once the move is made, if the game goes on then.
fn is_left(board: &Board, reply: &Option<Reply>, m: &Move, coming: &Coming) -> bool
    requires reply { IfSome reply.now (Spec.IsReply board.now) }
    requires coming { Spec.IsComing board.now m.now coming.now }
    ensures { OnTrue result (IsMet board.now m.now) }
{
    match reply {
        Some(reply) => stays_legal(board, reply, coming),
        None => false,
    }
}

impl Replies {
    /// Leaps of the other side's pieces in the position.
    pub fn of(board: &Board) -> Replies
        ensures { Spec.AreReplies board.now result }
    {
        if !are_steps_plain(board.rules()) {
            return Replies {
                first: None,
                second: None,
            };
        }
        let sets = board.sets();
        let mut rest = sets.enemies.minus(sets.pawns).minus(sets.enemy_kings);
        let first = next_reply(board, &mut rest);
        let second = next_reply(board, &mut rest);
        Replies { first, second }
    }

    /// Whether it is known that one of the leaps is legal once the move is made, if the game goes on then.
    pub fn meets(&self, board: &Board, m: &Move) -> bool
        requires move_fits { IsFitMove m.now }
        requires replies { Spec.AreReplies board.now self.now }
        ensures { OnTrue result (IsMet board.now m.now) }
    {
        match coming_of(board, m) {
            Some(coming) => {
                is_left(board, &self.first, m, &coming) || is_left(board, &self.second, m, &coming)
            }
            None => false,
        }
    }
}
