//! Tests of `stipulation`.
ghost use Rattle.rules_model.specs.Fit.{IsFit};

use crate::expect::expect_of;
use crate::helpers::{chess_game, game, go};
use game_play::Game;
use rules_model::{Move, Position, Rules, Side};
use sample_rules::{chess, hand_of, kind, position, shouse, square, xiangqi};
use std::alloc::Global;
use std::process::Abort;
use stipulation::{Cert, Step, Steps, check_help, check_self, help_mate, self_mate};

/// Chess where a side that can capture must.
fn forced() -> Rules
    ensures { IsFit result }
{
    let mut rules = chess();
    rules.must_capture = true;
    rules
}

/// The move of a text such as `e2e4`, or the drop of `R@a8`: of a rook, or else of a bishop.
fn chosen_of(text: &str) -> Move {
    match text.split_once("@") {
        Some((letter, to)) => Move::Drop {
            kind: kind(if letter == "R" { b'r' } else { b'b' }),
            to: square(to),
        },
        None => go(text),
    }
}

/// The certificate of steps such as `1 e2e4`, separated by commas.
fn cert(rt: &impl Abort, alloc: Global, text: &str) -> Cert {
    let mut items = Vec::new(alloc);
    for step in text.split(", ") {
        if let Some((ply, chosen)) = step.split_once(' ') {
            items
                .push(Step {
                    ply: ply.parse().expect(rt, "no fault"),
                    chosen: chosen_of(chosen),
                })
                .expect(rt, "no fault");
        }
    }
    Cert {
        steps: Steps { items },
    }
}

/// Asserts how the verdict on the steps as a helpmate in one move prints.
fn says_help<R: Abort>(rt: &R, alloc: Global, game: &Game, steps: &str, wanted: &str) {
    let verdict = check_help(alloc, game, 1, &cert(rt, alloc, steps)).expect(rt, "no fault");
    let text = format!(in alloc; "{verdict}").expect(rt, "no fault");
    assert!(rt; text.as_str() == wanted, "{steps}: {text}");
}

/// Asserts that the search answers these steps, or none.
fn finds<R: Abort>(rt: &R, alloc: Global, found: &Option<Cert>, wanted: Option<&str>) {
    match (found, wanted) {
        (None, None) => {}
        (Some(found), Some(text)) => {
            let wanted = cert(rt, alloc, text);
            let (found, wanted) = (&found.steps, &wanted.steps);
            expect_of(rt, &text, found.items.as_slice() == wanted.items.as_slice());
        }
        _ => expect_of(rt, &"found or not", false),
    }
}

/// Asserts that the search for a helpmate in one move answers these steps, or none.
fn finds_help<R: Abort>(rt: &R, alloc: Global, game: &Game, wanted: Option<&str>) {
    let found = help_mate(alloc, game, 1).expect(rt, "no fault");
    finds(rt, alloc, &found, wanted);
}

/// White to move: after the rook's check on e1 Black must take it, which mates.
fn forced_game<R: Abort>(rt: &R, alloc: Global) -> Game {
    game(rt, alloc, &forced(), &position("Ka1 Rd1 kg5 re8 rh2"), "")
}

/// Asserts how the verdict on the steps as a selfmate of that game within n moves prints.
fn says_self<R: Abort>(rt: &R, alloc: Global, n: u16, steps: &str, wanted: &str) {
    let game = forced_game(rt, alloc);
    let verdict = check_self(alloc, &game, n, &cert(rt, alloc, steps)).expect(rt, "no fault");
    let text = format!(in alloc; "{verdict}").expect(rt, "no fault");
    assert!(rt; text.as_str() == wanted, "{steps}: {text}");
}

#[test]
fn a_selfmate_and_its_spoilt_forms(rt: HostRuntime) {
    let alloc = rt.alloc();
    let mate = "1 d1e1, 2 e8e1";
    says_self(&rt, alloc, 1, mate, "CertVerdict 0 Holds");
    says_self(&rt, alloc, 1, "", "CertVerdict 6 Unfinished 0");
    says_self(&rt, alloc, 1, "2 d1e1", "CertVerdict 1 BadPly 1");
    says_self(&rt, alloc, 1, "1 d1e1, 3 e8e1", "CertVerdict 1 BadPly 2");
    says_self(&rt, alloc, 1, "1 d1e1", "CertVerdict 5 MissingReply 1 e8e1");
    says_self(&rt, alloc, 0, mate, "CertVerdict 3 TooDeep 1");
}

#[test]
fn a_selfmate_with_a_bad_move(rt: HostRuntime) {
    let (alloc, third) = (rt.alloc(), "CertVerdict 2 BadMove 3");
    says_self(&rt, alloc, 1, "1 d1e2", "CertVerdict 2 BadMove 1");
    says_self(&rt, alloc, 1, "1 d1e1, 2 e8e1, 2 e8e1", third);
    says_self(&rt, alloc, 1, "1 d1e1, 2 e8e1, 1 d1d2", third);
    says_self(&rt, alloc, 1, "1 d1e1, 2 e8e1, 3 a1b1", third);
}

#[test]
fn a_selfmate_is_found(rt: HostRuntime) {
    let game = forced_game(&rt, rt.alloc());
    let found = self_mate(rt.alloc(), &game, 1).expect(&rt, "no fault");
    finds(&rt, rt.alloc(), &found, Some("1 d1e1, 2 e8e1"));
}

#[test]
fn no_selfmate_is_found_where_no_capture_is_forced(rt: HostRuntime) {
    let start = position("Ka1 Rd1 kg5 re8 rh2");
    let game = chess_game(&rt, rt.alloc(), &start, "");
    let found = self_mate(rt.alloc(), &game, 1).expect(&rt, "no fault");
    finds(&rt, rt.alloc(), &found, None);
}

/// The pieces, Black to move.
fn black(pieces: &str) -> Position {
    Position {
        side: Side::Black,
        ..position(pieces)
    }
}

/// Black to move, who helps White to mate on the back rank.
#[test]
fn a_helpmate_and_its_spoilt_forms(rt: HostRuntime) {
    let alloc = rt.alloc();
    let game = chess_game(&rt, alloc, &black("kg8 Ra7 Kg6"), "");
    says_help(&rt, alloc, &game, "1 g8h8, 2 a7a8", "CertVerdict 0 Holds");
    says_help(&rt, alloc, &game, "1 g8h8", "CertVerdict 6 Unfinished 1");
    let more = "1 g8h8, 2 a7a8, 2 a7h7";
    says_help(&rt, alloc, &game, more, "CertVerdict 2 BadMove 3");
    let deep = "1 g8f8, 2 a7a8, 3 f8e7";
    says_help(&rt, alloc, &game, deep, "CertVerdict 3 TooDeep 3");
}

#[test]
fn helpmates_are_found(rt: HostRuntime) {
    let alloc = rt.alloc();
    let rook = chess_game(&rt, alloc, &black("kg8 Ra7 Kg6"), "");
    finds_help(&rt, alloc, &rook, Some("1 g8h8, 2 a7a8"));
    let kings = chess_game(&rt, alloc, &black("kh8 Ka1"), "");
    finds_help(&rt, alloc, &kings, None);
}

/// White has a rook in hand, with which it mates from the eighth rank.
#[test]
fn a_helpmate_by_a_drop(rt: HostRuntime) {
    let alloc = rt.alloc();
    let start = Position {
        hands: [hand_of(b"r"), [0; 26]],
        ..black("kg8 Kg6")
    };
    let game = game(&rt, alloc, &shouse(), &start, "");
    says_help(&rt, alloc, &game, "1 g8h8, 2 R@a8", "CertVerdict 0 Holds");
    says_help(
        &rt,
        alloc,
        &game,
        "1 g8h8, 2 R@g8",
        "CertVerdict 6 Unfinished 2",
    );
    says_help(
        &rt,
        alloc,
        &game,
        "1 g8h8, 2 B@a8",
        "CertVerdict 2 BadMove 2",
    );
    finds_help(&rt, alloc, &game, Some("1 g8h8, 2 R@a8"));
}

/// The kings of xiangqi may not face each other.
fn palace<R: Abort>(rt: &R, alloc: Global) -> Game {
    let start = black("kd10 pb4 Ke1 Ra9 Rb1 Ri1");
    game(rt, alloc, &xiangqi(), &start, "")
}

/// In xiangqi who cannot move has lost, but that is no checkmate.
#[test]
fn a_helpmate_in_a_palace(rt: HostRuntime) {
    let alloc = rt.alloc();
    let game = palace(&rt, alloc);
    says_help(&rt, alloc, &game, "1 b4b3, 2 i1i10", "CertVerdict 0 Holds");
    says_help(
        &rt,
        alloc,
        &game,
        "1 b4b3, 2 b1b3",
        "CertVerdict 4 NotMate 2",
    );
    says_help(
        &rt,
        alloc,
        &game,
        "1 b4b3, 2 i1i9",
        "CertVerdict 6 Unfinished 2",
    );
    says_help(&rt, alloc, &game, "1 d10e10", "CertVerdict 2 BadMove 1");
}

#[test]
fn a_helpmate_in_a_palace_is_found(rt: HostRuntime) {
    let game = palace(&rt, rt.alloc());
    finds_help(&rt, rt.alloc(), &game, Some("1 b4a4, 2 b1b10"));
}

/// Asserts how the verdict on four plies after which the position at the root stands again prints, after these moves.
fn says_again<R: Abort>(rt: &R, alloc: Global, moves: &str, wanted: &str) {
    let game = chess_game(rt, alloc, &black("kg8 Ra7 Kg6"), moves);
    let again = cert(rt, alloc, "1 g8h8, 2 a7b7, 3 h8g8, 4 b7a7");
    let verdict = check_help(alloc, &game, 3, &again).expect(rt, "no fault");
    let text = format!(in alloc; "{verdict}").expect(rt, "no fault");
    assert!(rt; text.as_str() == wanted, "{moves}: {text}");
}

/// The position at the root has stood twice: the third time the game is drawn.
#[test]
fn the_history_counts(rt: HostRuntime) {
    says_again(&rt, rt.alloc(), "", "CertVerdict 6 Unfinished 4");
    let twice = "g8h8 a7b7 h8g8 b7a7";
    says_again(&rt, rt.alloc(), twice, "CertVerdict 4 NotMate 4");
}
