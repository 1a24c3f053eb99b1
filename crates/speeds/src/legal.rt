//! How long a step of a random walk takes with each question that a search asks of a position, in nanoseconds, for a
//! few variants; the question `nothing` is the walk alone. With the name of a question it is asked alone, along a walk
//! in chess, so that instructions can be counted.
ghost use Rattle.std.specs.Prelude.{◌≡◌, true};
ghost use Rattle.rules_model.specs.Fit.{IsFit};
ghost use Rattle.rules_model.specs.Sound.{is_sound};
ghost use Rattle.legality.specs.Stance.{legal_in};

use crate::question::{ALL, Question, ask, named};
use attack_tables::Tables;
use foundation::Memory;
use playing::Board;
use rules_model::{MoveList, Rules};
use sample_rules::{chess, leapers, shouse, xiangqi};
use std::alloc::{AllocError, Global};
use std::io;
use std::time::{Duration, Instant};

/// The next number of Knuth's linear congruential generator for 64 bits.
fn next_number(number: u64) -> u64 {
    number
        .wrapping_mul(6364136223846793005)
        .wrapping_add(1442695040888963407)
}

/// The board after one of its legal moves, or that of the start where there is none.
pub(crate) fn played<'t>(board: &Board<'t>, moves: &MoveList, number: u64) -> Board<'t>
    requires start { is_sound board.now.rules board.now.rules.start ≡ true }
    requires listed { moves.now ≡ legal_in board.now }
    ensures { result.rules ≡ board.now.rules }
{
    let moves = moves.items.as_slice();
    if moves.is_empty() {
        return Board::new(board.tables(), &board.rules().start);
    }
    let choice = (number >> 33) as usize % moves.len();
    board.after(&moves[choice])
}

/// Asks the question of `plies` positions in turn, and answers the sum of the answers, mod 2^64.
fn walk(alloc: Global, tables: &Tables, plies: u32, question: Question) -> Result<u64, Memory>
    requires start { is_sound tables.now tables.now.start ≡ true }
{
    let mut board = Board::new(tables, &tables.rules().start);
    let mut listed = MoveList {
        items: Vec::new(alloc),
    };
    let mut number = 1;
    let mut sum: u64 = 0;
    for _ in 0..plies {
        let moves = board.legal_moves(alloc)?;
        sum = sum.wrapping_add(ask(&board, &moves, question, &mut listed)?);
        number = next_number(number);
        board = played(&board, &moves, number);
    }
    Ok(sum)
}

fn nanoseconds(plies: u32, spent: Duration) -> u64 {
    u64::try_from(spent.as_nanos()).unwrap_or(u64::MAX) / u64::from(plies.max(1))
}

/// Prints how long a step of the walk takes with each question, by the rules.
fn measure(rt: &HostRuntime, name: &str, rules: &Rules, plies: u32) -> io::Result<()>
    requires fit { IsFit rules.now }
    requires start { is_sound rules.now rules.now.start ≡ true }
{
    let tables = Tables::new(rt.alloc(), rules).map_err(|_| AllocError)?;
    for (word, question) in ALL {
        let start = Instant::now(rt)?;
        let sum = walk(rt.alloc(), &tables, plies, question).map_err(|_| AllocError)?;
        let each = nanoseconds(plies, start.elapsed(rt)?);
        println!(rt; "{name} {word}: {each} ns, sum {sum}")?;
    }
    Ok(())
}

/// Asks the one question along a walk in chess.
fn measure_one(rt: &HostRuntime, plies: u32, question: Question) -> io::Result<()> {
    let tables = Tables::new(rt.alloc(), &chess()).map_err(|_| AllocError)?;
    let sum = walk(rt.alloc(), &tables, plies, question).map_err(|_| AllocError)?;
    println!(rt; "sum {sum}")
}

/// Asks the question of this name along a walk in chess.
pub(crate) fn measure_named(rt: &HostRuntime, plies: u32, name: &str) -> io::Result<()> {
    match named(name) {
        Some(question) => measure_one(rt, plies, question),
        None => println!(rt; "no such question: {name}"),
    }
}

/// Prints how long a step of the walk takes with each question, for a few variants.
pub(crate) fn measure_all(rt: &HostRuntime, plies: u32) -> io::Result<()> {
    measure(rt, "leapers", &leapers(), plies)?;
    measure(rt, "chess", &chess(), plies)?;
    measure(rt, "shouse", &shouse(), plies)?;
    measure(rt, "xiangqi", &xiangqi(), plies)
}
