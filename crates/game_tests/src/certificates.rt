//! Tests of `cert_text`.
use crate::expect::expect_eq;
use crate::helpers::chess_game;
use cert_text::{read_cert, write_cert};
use game_play::Game;
use rules_model::{Position, Side};
use sample_rules::position;
use std::alloc::{AllocError, Global};
use std::process::Abort;
use std::test::Fail;
use stipulation::{CertVerdict, check_help, help_mate};

/// A helpmate in one of king and rook against king, Black to move.
const SAMPLE: &[u8] = b"helpmate 1\n1 g8h8\n2 a7a8\nend\n";

fn sample<R: Abort>(rt: &R, alloc: Global) -> Game {
    let start = Position {
        side: Side::Black,
        ..position("kg8 Ra7 Kg6")
    };
    chess_game(rt, alloc, &start, "")
}

/// What the text says, or the fault as it prints.
fn says(alloc: Global, game: &Game, text: &[u8]) -> Result<String, AllocError> {
    match read_cert(alloc, game, text) {
        Ok(_cert) => String::from_str(alloc, "read"),
        Err(fault) => format!(in alloc; "{fault}"),
    }
}

/// Asserts that the text is read, or how its fault prints.
fn expect<R: Abort>(rt: &R, alloc: Global, text: &str, wanted: &str) {
    let game = sample(rt, alloc);
    let answer = says(alloc, &game, text.as_bytes()).expect(rt, "no fault");
    assert!(rt; answer.as_str() == wanted, "{text}: {answer}");
}

/// A certificate that was found is written, and read back by the game.
#[test]
fn a_certificate_is_written_and_read(rt: HostRuntime) -> Result<(), Fail> {
    let game = sample(&rt, rt.alloc());
    let Some(found) = help_mate(rt.alloc(), &game, 1)? else {
        return Err("a helpmate".into());
    };
    let text = write_cert(rt.alloc(), &found, true)?;
    assert!(rt; text.items.as_slice() == SAMPLE);
    let cert = read_cert(rt.alloc(), &game, SAMPLE).map_err(|_| "a certificate")?;
    expect_eq(
        &rt,
        check_help(rt.alloc(), &game, 1, &cert)?,
        CertVerdict::Holds,
    );
    Ok(())
}

/// The sample, cut after each of its lines, and with a line more.
#[test]
fn a_text_ends_with_its_last_line(rt: HostRuntime) {
    let alloc = rt.alloc();
    expect(&rt, alloc, "", "CertFault 2 Ended 1");
    expect(&rt, alloc, "helpmate 1\n", "CertFault 2 Ended 2");
    expect(&rt, alloc, "helpmate 1\n1 g8h8\n", "CertFault 2 Ended 3");
    let open = "helpmate 1\n1 g8h8\n2 a7a8\n";
    expect(&rt, alloc, open, "CertFault 2 Ended 4");
    let more = "helpmate 1\n1 g8h8\n2 a7a8\nend\nend\n";
    expect(&rt, alloc, more, "CertFault 2 Ended 5");
}

/// Either first word, and any number up to 6; no step at all.
#[test]
fn the_first_line_is_read(rt: HostRuntime) {
    let alloc = rt.alloc();
    expect(&rt, alloc, "selfmate 6\r\n1 g8h8\r\nend", "read");
    expect(&rt, alloc, "helpmate 0\nend\n", "read");
    expect(&rt, alloc, "helpmate 7\nend\n", "CertFault 1 BadLine 1");
    expect(&rt, alloc, "helpmate 01\nend\n", "CertFault 1 BadLine 1");
    expect(&rt, alloc, "mate 1\nend\n", "CertFault 1 BadLine 1");
    expect(&rt, alloc, "helpmate 1\n\nend\n", "CertFault 1 BadLine 2");
}

/// Asserts what a text of these steps is answered.
fn expect_steps<R: Abort>(rt: &R, alloc: Global, steps: &str, wanted: &str) {
    let text = format!(in alloc; "helpmate 1\n{steps}\nend\n").expect(rt, "no fault");
    expect(rt, alloc, text.as_str(), wanted);
}

/// A ply of 0, one too far, and one that goes back.
#[test]
fn the_plies_of_steps_are_read(rt: HostRuntime) {
    let alloc = rt.alloc();
    expect_steps(&rt, alloc, "01 g8h8", "CertFault 1 BadLine 2");
    expect_steps(&rt, alloc, "0 g8h8", "CertFault 1 BadLine 2");
    expect_steps(&rt, alloc, "2 g8h8", "CertFault 1 BadLine 2");
    expect_steps(&rt, alloc, "1 g8h8\n3 a7a8", "CertFault 1 BadLine 3");
    expect_steps(&rt, alloc, "1 g8h8\n2 a7a8\n1 g8f8", "read");
}

/// A move that is not legal, or legal elsewhere; beyond the mate there is no legal move.
#[test]
fn the_moves_of_steps_are_read(rt: HostRuntime) {
    let alloc = rt.alloc();
    expect_steps(&rt, alloc, "1 g8h7", "CertFault 1 BadLine 2");
    expect_steps(&rt, alloc, "1 g8h8\n2 g8f8", "CertFault 1 BadLine 3");
    expect_steps(&rt, alloc, "1 g8h8 ", "CertFault 1 BadLine 2");
    let beyond = "1 g8h8\n2 a7a8\n3 h8h7";
    expect_steps(&rt, alloc, beyond, "CertFault 1 BadLine 4");
}
