//! What is printed of a random game.
ghost use Rattle.std.specs.Prelude.{◌≡◌, ◌<◌, length, IfOk};
ghost use Rattle.alpha_beta.specs.Roots.{AreLegal};
ghost use Rattle.game_play.specs.Played.{legal_in, story};
ghost use Rattle.evaluation.specs.Values.{value_of};
ghost use Rattle.one_shots.specs.Generate.{generated_text, value_text};

use alpha_beta::search_unwatched;
use foundation::{Memory, Text};
use game_play::Game;
use game_text::{Printed, perft_of};
use hint_table::HintTable;
use legality::legal_moves;
use rules_model::Move;
use std::alloc::Global;
use std::thread::Threads;
use variant_fen::write_fen;

/// How many words of hints a search of two plies has.
const HINTS: usize = 4096;

// The value of the game at depth 2 over these root moves.
fn value_of<R: Threads + Sync>(
    rt: &R,
    alloc: Global,
    game: &Game,
    roots: &[Move],
) -> Result<i32, Memory>
    requires legal { AreLegal game.now.rules (story game.now) roots.now }
    requires some { 0 < length roots.now }
    ensures { IfOk result (λ value. value ≡ value_of game.now.rules 2 (story game.now) roots.now) }
{
    let hints = HintTable::new(alloc, HINTS)?;
    let found = search_unwatched(rt, alloc, game, 2, roots, &hints, 1)?;
    Ok(found.value)
}

// The text of the value at depth 2 over all legal moves; `none` where there is none.
fn value_text<R: Threads + Sync>(rt: &R, alloc: Global, game: &Game) -> Result<Text, Memory>
    ensures { IfOk result (λ text. text ≡ value_text game.now (legal_in game.now)) }
{
    game.prove_played();
    let moves = legal_moves(alloc, game.rules(), game.tables(), game.position())?;
    if moves.items.is_empty() {
        let items = b"none".to_vec(alloc)?;
        return Ok(Text { items });
    }
    let value = value_of(rt, alloc, game, moves.items.as_slice())?;
    let items = format!(in alloc; "{value}")?.into_bytes();
    Ok(Text { items })
}

/// The report of a game that was generated in a variant of this name, by this number: how many moves it has, its last
/// position, how it stands, how many lines of two moves there are, and its value at depth 2.
///
/// # Errors
///
/// `Memory`.
#[tactic(auto, unfolding(crate::specs::Generate::generated_text))]
pub(crate) fn report_of<R: Threads + Sync>(
    rt: &R,
    alloc: Global,
    name: &str,
    number: u64,
    game: &Game,
) -> Result<Text, Memory>
    ensures { IfOk result (λ text. text ≡ generated_text name.now number game.now) }
{
    game.prove_played();
    let plies = game.moves().len();
    let fen = write_fen(alloc, game.rules(), game.position())?;
    let standing = format!(in alloc; "\n{}\nperft2 ", Printed(game.outcome()))?;
    let perft = perft_of(alloc, 2, game)?;
    let value = value_text(rt, alloc, game)?;
    let mut items = format!(in alloc; "generated {name} {number} {plies}\n")?.into_bytes();
    items.extend_from_slice(fen.items.as_slice())?;
    items.extend_from_slice(standing.as_bytes())?;
    items.extend_from_slice(perft.items.as_slice())?;
    items.extend_from_slice(b"value2 ")?;
    items.extend_from_slice(value.items.as_slice())?;
    items.push(b'\n')?;
    Ok(Text { items })
}
