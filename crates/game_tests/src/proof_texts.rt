//! Texts in memory, read and refused, and texts that are written and read back.
ghost use Rattle.std.specs.Prelude.{◌≡◌, IfOk};
ghost use Rattle.rules_model.specs.Fit.{IsFit};

use crate::expect::expect_eq;
use crate::helpers::go;
use foundation::Text;
use game_play::Game;
use proof_text::{Proof, ProofFault, read_proof, write_proof};
use rules_model::{Move, Rules, Side};
use std::alloc::Global;
use std::process::Abort;
use std::test::Fail;
use strategy::read;
use variant_fen::read_fen;
use variant_rules::{builtin, load};

const TEXT: &str = "strategy 2
rules 3
king = k
rook = r
startFen = 4k3/8/8/8/8/8/8/R3K3 w Q - 0 1
start 7k/R7/5K2/8/8/8/8/8 w - - 0 1
history 2
f6g6
h8g8
goal white 1
attacker white
nodes 2
node 0 1 6k1/R7/6K1/8/8/8/8/8 w - - 2 1
edge a7a8 1
node 1 0 R5k1/8/6K1/8/8/8/8/8 b - - 3 1
end
";

/// The number of moves of the goal, or the line of a bad move of the history; 0 for another fault.
fn number_of(said: Result<Proof, ProofFault>) -> u64 {
    match said {
        Ok(proof) => u64::from(proof.n),
        Err(ProofFault::BadHistory(line)) => line,
        Err(_) => 0,
    }
}

fn number_read(alloc: Global, text: &[u8]) -> u64 {
    number_of(read_proof(alloc, text))
}

#[test]
fn texts_are_read(rt: HostRuntime) {
    let (front, back) = TEXT
        .split_once("h8g8")
        .ok_or("a move")
        .expect(&rt, "no fault");
    let spoilt = format!(in rt.alloc(); "{front}h8h7{back}").expect(&rt, "no fault");
    expect_eq(&rt, number_read(rt.alloc(), TEXT.as_bytes()), 1);
    expect_eq(&rt, number_read(rt.alloc(), spoilt.as_bytes()), 9);
}

/// A parent that takes the queen away, gives its letter to the archbishop and sets options, and a child that gives the
/// knight's letter to a piece of its own, sets an option again, twice, and a region of the piece that is gone.
const FILE: &str = "[a:chess]
queen = -
archbishop = q
customPiece2 = u:W
customPiece10 = v:F
castling = false
nMoveRule = 40
startFen = 4k3/8/8/8/8/8/8/R3K3 w - - 0 1
[b:a]
customPiece1 = n:WF
nMoveRule = 50
nMoveRule = 60
pocketSize = 6
mobilityRegionWhiteQueen = *1
mobilityRegionWhiteCustomPiece1 = *1 *2
";

/// Its rules. Two pieces have no letter left, and one key is read over.
const RULES: &str = "strategy 2
rules 14
archbishop = q
bishop = b
castling = false
customPiece1 = n:WF
customPiece10 = v:F
customPiece2 = u:W
king = k
mobilityRegionWhiteCustomPiece1 = *1 *2
mobilityRegionWhiteQueen = *1
nMoveRule = 60
pawn = p
promotionPieceTypes = nbrq
rook = r
startFen = 4k3/8/8/8/8/8/8/R3K3 w - - 0 1
";

/// The rules of chess.
const CHESS: &str = "strategy 2
rules 8
bishop = b
king = k
knight = n
pawn = p
promotionPieceTypes = nbrq
queen = q
rook = r
startFen = rnbqkbnr/pppppppp/8/8/8/8/PPPPPPPP/RNBQKBNR w KQkq - 0 1
";

/// A mate in one after two moves.
const PLAYED: &str = "start 7k/R7/5K2/8/8/8/8/8 w - - 0 1
history 2
f6g6
h8g8
goal white 1
";

const PLAYED_BODY: &str = "attacker white
nodes 2
node 0 1 6k1/R7/6K1/8/8/8/8/8 w - - 2 1
edge a7a8 1
node 1 0 R5k1/8/6K1/8/8/8/8/8 b - - 3 1
end
";

/// The same mate from the start.
const START: &str = "start 7k/R7/5K2/8/8/8/8/8 w - - 0 1
history 0
goal white 2
";

const START_BODY: &str = "attacker white
nodes 4
node 0 2 7k/R7/5K2/8/8/8/8/8 w - - 0 1
edge f6g6 1
node 1 1 7k/R7/6K1/8/8/8/8/8 b - - 1 1
edge h8g8 2
node 2 1 6k1/R7/6K1/8/8/8/8/8 w - - 2 1
edge a7a8 3
node 3 0 R5k1/8/6K1/8/8/8/8/8 b - - 3 1
end
";

/// No mate: that is not asked.
const BLACK: &str = "start 7k/R7/5K2/8/8/8/8/8 w - - 0 1
history 0
goal black 100
";

const BLACK_BODY: &str = "attacker black
nodes 1
node 0 100 7k/R7/5K2/8/8/8/8/8 w - - 0 1
end
";

/// The moves f6g6 and h8g8.
fn moves() -> [Move; 2] {
    [go("f6g6"), go("h8g8")]
}

/// The game of the texts by these rules, at its start or after the two moves.
fn game_by(alloc: Global, rules: &Rules, prove_played: bool) -> Result<Game, Fail>
    requires { IsFit rules.now }
    ensures { IfOk result (λ g. g.rules ≡ rules.now) }
{
    let start = read_fen(rules, b"7k/R7/5K2/8/8/8/8/8 w - - 0 1")?;
    let mut game = Game::new(alloc, rules, &start)?;
    if prove_played {
        let [first, second] = moves();
        game.play(&first).map_err(|_| "a move")?;
        game.play(&second).map_err(|_| "a move")?;
    }
    Ok(game)
}

/// What is to be written.
#[derive(Drop)]
struct Row {
    file: &'static str,
    place: usize,
    rules: &'static str,
    prove_played: bool,
    n: u16,
    game: &'static str,
    body: &'static str,
}

/// The proof text of the game by the rules of a section of those that are built in and of a file.
fn written(alloc: Global, row: &Row) -> Result<Text, Fail> {
    let mut sections = builtin(alloc)?;
    sections.add(row.file.as_bytes()).map_err(|_| "sections")?;
    let variants = load(alloc, &sections)?;
    if row.place >= variants.len() {
        return Err("a section".into());
    }
    let (_name, found) = variants.entry(row.place);
    let Ok(rules) = found else {
        return Err("rules".into());
    };
    if row.n == 0 || row.n > 100 {
        return Err("a goal".into());
    }
    let game = game_by(alloc, rules, row.prove_played)?;
    let body = format!(in alloc; "strategy 1\n{}", row.body)?;
    let strategy = read(alloc, rules, body.as_bytes())?;
    let text = write_proof(alloc, &sections, row.place, &game, row.n, &strategy)?;
    Ok(text)
}

fn row_of(
    by: (&'static str, usize, &'static str),
    prove_played: bool,
    n: u16,
    game: &'static str,
    body: &'static str,
) -> Row {
    let (file, place, rules) = by;
    Row {
        file,
        place,
        rules,
        prove_played,
        n,
        game,
        body,
    }
}

/// Whether the proof has the row's moves, attacker, plies and castling.
fn is_of(proof: &Proof, row: &Row) -> [bool; 4] {
    let is_black = proof.attacker == Side::Black;
    let plies = if row.prove_played { 2 } else { 0 };
    [
        proof.n == row.n,
        is_black == (row.n == 100),
        proof.game.moves().len() == plies,
        proof.game.rules().castling == (row.place == 0),
    ]
}

/// Asserts what is written of the row, and that it is read back.
fn expect_written(rt: &impl Abort, alloc: Global, row: &Row) -> Result<(), Fail> {
    let text = written(alloc, row)?;
    let wanted = format!(in alloc; "{}{}{}", row.rules, row.game, row.body)?;
    assert!(rt; text.items.as_slice() == wanted.as_bytes(), "{}", row.rules);
    let proof = read_proof(alloc, text.items.as_slice()).map_err(|_| "a proof")?;
    expect_eq(rt, is_of(&proof, row), [true; 4]);
    Ok(())
}

#[test]
fn texts_are_written(rt: HostRuntime) -> Result<(), Fail> {
    let alloc = rt.alloc();
    let chess = ("", 0, CHESS);
    let child = (FILE, 11, RULES);
    expect_written(&rt, alloc, &row_of(chess, false, 2, START, START_BODY))?;
    expect_written(&rt, alloc, &row_of(chess, true, 1, PLAYED, PLAYED_BODY))?;
    expect_written(&rt, alloc, &row_of(child, true, 1, PLAYED, PLAYED_BODY))?;
    expect_written(&rt, alloc, &row_of(chess, false, 100, BLACK, BLACK_BODY))
}
