//! Prints what games are worth to the side to move at depths 1 to 3, by one to four workers in turn. A line of the
//! input is a game: the name of a variant that is built in, and the moves from its start.
#![tactic(auto)]

ghost use Rattle.std.specs.Prelude.{◌≡◌, ◌<◌, ◌≤◌, true, [], IfOk, IfSome, IfNone};
ghost use Rattle.rules_model.specs.Fit.{IsFit};
ghost use Rattle.rules_model.specs.Sound.{is_sound};
ghost use Rattle.game_play.specs.Played.{legal_in, story};
ghost use Rattle.evaluation.specs.Values as Values;

use alpha_beta::search_unwatched;
use foundation::Memory;
use game_play::Game;
use hint_table::HintTable;
use legality::legal_moves;
use move_text::read_move;
use rules_model::Rules;
use std::alloc::{AllocError, Global};
use std::io;
use std::io::{BufRead, BufReader};
use std::thread::Threads;
use variant_rules::{Found, Variants, builtin, load};

/// What the game is worth at the depth; `None` where no move is legal.
fn value_of<R: Threads + Sync>(
    rt: &R,
    alloc: Global,
    game: &Game,
    hints: &HintTable,
    depth: u8,
    workers: u32,
) -> Result<Option<i32>, Memory>
    requires depth { (1 ≤ depth) × (depth ≤ 64) }
    requires workers { (0 < workers) × (workers ≤ 64) }
    ensures is { IfOk result (λ found. IfSome found (λ value.
        value ≡ Values.value_of game.now.rules depth (story game.now) (legal_in game.now))) }
    ensures none { IfOk result (λ found. IfNone found (legal_in game.now ≡ [])) }
{
    game.prove_played();
    let moves = legal_moves(alloc, game.rules(), game.tables(), game.position())?;
    if moves.items.is_empty() {
        return Ok(None);
    }
    let roots = moves.items.as_slice();
    let found = search_unwatched(rt, alloc, game, depth, roots, hints, workers)?;
    Ok(Some(found.value))
}

/// The game of the moves from the start of the rules; `None` where one of them is not legal.
fn game_of(alloc: Global, rules: &Rules, moves: &str) -> Result<Option<Game>, Memory>
    requires fit { IsFit rules.now }
    requires start { is_sound rules.now rules.now.start ≡ true }
{
    let mut game = Game::new(alloc, rules, &rules.start)?;
    for text in moves.split_ascii_whitespace() {
        game.prove_played();
        let Some(m) = read_move(game.rules(), game.position(), text.as_bytes()) else {
            return Ok(None);
        };
        if game.play(&m).is_err() {
            return Ok(None);
        }
    }
    Ok(Some(game))
}

/// Prints the variant of a game and what the game is worth at each depth, each time by another number of workers.
fn tell_values<R: Threads + Print + Sync>(
    rt: &R,
    alloc: Global,
    name: &str,
    game: &Game,
    number: u32,
) -> io::Result<()> {
    let hints = HintTable::new(alloc, 4096).map_err(|_| AllocError)?;
    print!(rt; "{name}")?;
    for depth in 1..4u8 {
        let workers = (number % 4 + u32::from(depth)) % 4 + 1;
        match value_of(rt, alloc, game, &hints, depth, workers).map_err(|_| AllocError)? {
            Some(value) => print!(rt; " {value}")?,
            None => print!(rt; " none")?,
        }
    }
    println!(rt)
}

/// Prints what is asked of the game of a line.
fn tell<R: Threads + Print + Sync>(
    rt: &R,
    alloc: Global,
    variants: &Variants,
    line: &str,
    number: u32,
) -> io::Result<()> {
    let (name, moves) = line.split_once(' ').unwrap_or((line, ""));
    let Found::Rules(rules) = variants.find(name.as_bytes()) else {
        return println!(rt; "{name} is not built in");
    };
    let Some(game) = game_of(alloc, rules, moves).map_err(|_| AllocError)? else {
        return println!(rt; "{line} is not a game");
    };
    tell_values(rt, alloc, name, &game, number)
}

fn main(rt: HostRuntime) -> io::Result<()> {
    let alloc = rt.alloc();
    let sections = builtin(alloc).map_err(|_| AllocError)?;
    let variants = load(alloc, &sections).map_err(|_| AllocError)?;
    let mut number: u32 = 0;
    for line in BufReader::new(alloc, rt.reader())?.lines(alloc) {
        tell(&rt, alloc, &variants, &line?, number)?;
        number = number.wrapping_add(1);
    }
    Ok(())
}
