//! Small random positions and games, the same on every machine.
ghost use Rattle.std.specs.Prelude.{◌≡◌, ◌<◌, true, IfSome};
ghost use Rattle.rules_model.specs.Fit.{IsFit};
ghost use Rattle.rules_model.specs.Sound.{is_sound};

use crate::families::Family;
use crate::plain::{moves_of, play};
use foundation::Memory;
use game_play::Game;
use rand_core::utils::NextWord;
use rand_pcg::Pcg32;
use rules_model::{Cell, Kind, Outcome, Position, Rules, Side, Square, sound};
use sample_rules::{empty, kind};
use std::alloc::Global;

/// How often a position is drawn at most, until one is sound.
const TRIES: u32 = 1000;

/// Fewer moves than this are played before the game is asked about.
const PLIES: u8 = 4;

/// A number below the bound.
pub fn below(generator: &mut Pcg32, bound: u8) -> u8
    requires { 0 < bound }
    ensures { result < bound }
{
    (generator.next_word() % u32::from(bound)) as u8
}

/// Either side.
pub fn any_side(generator: &mut Pcg32) -> Side {
    if below(generator, 2) == 0 {
        Side::White
    } else {
        Side::Black
    }
}

/// One of the kinds of the letters; none of no letters.
fn any_kind(letters: &[u8], generator: &mut Pcg32) -> Option<Kind>
    ensures { IfSome result (λ k. k.0 < 26) }
{
    if letters.is_empty() {
        return None;
    }
    let letter = letters[generator.next_word() as usize % letters.len()];
    // A kind is below 26. The families have no byte above 'z', and their type does not say so.
    Some(kind(letter.min(b'z')))
}

/// A square of the board of the rules.
fn any_square(rules: &Rules, generator: &mut Pcg32) -> Square
    requires { IsFit rules.now }
    ensures { result.0 < 120 }
{
    let file = below(generator, rules.files);
    let rank = below(generator, rules.ranks);
    Square::at(file, rank)
}

/// Puts a piece on a random square, if that is empty.
fn put(p: &mut Position, rules: &Rules, side: Side, kind: Kind, generator: &mut Pcg32)
    requires { IsFit rules.now }
{
    let at = any_square(rules, generator);
    if p.cells[at.0 as usize].is_none() {
        p.cells[at.0 as usize] = Some(Cell {
            side,
            kind,
            origin: None,
        });
    }
}

/// The side three times in four, else the other one.
fn mostly(side: Side, generator: &mut Pcg32) -> Side {
    if below(generator, 4) == 0 {
        side.other()
    } else {
        side
    }
}

/// Puts the pieces of both sides on the board, and at least one more, mostly of the side that attacks.
fn put_all(p: &mut Position, rules: &Rules, family: &Family, attacker: Side, generator: &mut Pcg32)
    requires { IsFit rules.now }
{
    for letter in family.both {
        put(p, rules, Side::White, kind(*letter), generator);
        put(p, rules, Side::Black, kind(*letter), generator);
    }
    // No number is below 0. Each family has a greater count, and its type does not say so.
    for _ in 0..1 + below(generator, family.count.max(1)) {
        let side = mostly(attacker, generator);
        if let Some(kind) = any_kind(family.more, generator) {
            put(p, rules, side, kind, generator);
        }
    }
}

/// Gives the side a piece in its hand, or none.
fn fill_hand(p: &mut Position, side: Side, family: &Family, generator: &mut Pcg32) {
    if let Some(kind) = any_kind(family.held, generator)
        && below(generator, 2) == 0
    {
        p.hands[side.index()][kind.0 as usize] = 1;
    }
}

/// A position of the family, which need not be sound.
fn drawn(rules: &Rules, family: &Family, attacker: Side, generator: &mut Pcg32) -> Position
    requires { IsFit rules.now }
{
    // The same of its counters.
    let mut p = Position {
        side: any_side(generator),
        checks: rules.start.checks,
        counter: u16::from(below(generator, family.counters.max(1))),
        ..empty()
    };
    put_all(&mut p, rules, family, attacker, generator);
    fill_hand(&mut p, Side::White, family, generator);
    fill_hand(&mut p, Side::Black, family, generator);
    p
}

/// A sound position of the family; the start of the rules where none was drawn.
fn sound_one(rules: &Rules, family: &Family, attacker: Side, generator: &mut Pcg32) -> Position
    requires fit { IsFit rules.now }
    requires start { is_sound rules.now rules.now.start ≡ true }
    ensures { is_sound rules.now result ≡ true }
{
    for _ in 0..TRIES {
        let p = drawn(rules, family, attacker, generator);
        if sound(rules, &p) {
            return p;
        }
    }
    rules.start
}

/// Plays a random legal move, if the game is ongoing and has one.
fn play_any(alloc: Global, game: &mut Game, generator: &mut Pcg32) -> Result<(), Memory> {
    let moves = moves_of(alloc, game)?;
    if game.outcome() != Outcome::Ongoing || moves.is_empty() {
        return Ok(());
    }
    let place = generator.next_word() as usize % moves.len();
    play(game, &moves[place])
}

/// A game of up to three moves from a sound position of the family, in which the side attacks.
pub fn any_game(
    alloc: Global,
    rules: &Rules,
    family: &Family,
    attacker: Side,
    generator: &mut Pcg32,
) -> Result<Game, Memory>
    requires fit { IsFit rules.now }
    requires start { is_sound rules.now rules.now.start ≡ true }
{
    let p = sound_one(rules, family, attacker, generator);
    let mut game = Game::new(alloc, rules, &p)?;
    for _ in 0..below(generator, PLIES) {
        play_any(alloc, &mut game, generator)?;
    }
    Ok(game)
}
