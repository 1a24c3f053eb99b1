//! The lines that a UCI session writes.
ghost use Rattle.std.specs.Prelude.{◌≡◌, ◌≤◌, ◌<◌, ◌-◌, ◌*◌, ◌++◌, IfOk, List, OnOk, length};
ghost use Rattle.session_model.specs.declared.limits.TheConstants.{MOST_MATE};
ghost use Rattle.std.specs.List.{filter, flat_map};
ghost use Rattle.session_model.specs.Thinking.{Mates};
ghost use Rattle.session_model.specs.UciTexts as UciTexts;
ghost use Rattle.strategy.specs.declared.nodes.Strategy.{Strategy};
ghost use Rattle.session_model.specs.UciTexts.{introduction, number_line, option_line, options_text, path_line, variant_choice};
ghost use Rattle.variant_ini.specs.Section.{Section};
ghost use Rattle.variant_rules.specs.Entries.{entries, is_accepted};
ghost use Rattle.uci_front.specs.TextView.{choice_at, last_line};

use foundation::{Memory, Text};
use game_play::Game;
use game_text::perft_of;
use move_text::write_move;
use rules_model::Move;
use session_model::options::{
    DEFAULT_HASH, DEFAULT_MATE_FACTS, DEFAULT_THREADS, HASH, LEAST_HASH, LEAST_MATE_FACTS,
    LEAST_THREADS, MATE_FACTS, MOST_HASH, MOST_MATE_FACTS, MOST_THREADS, NO_FILE, THREADS,
    UCI_VARIANT, VARIANT_PATH,
};
use std::alloc::{AllocError, Global};
use variant_rules::Variants;

// What `uci` answers before the options.
const INTRODUCTION: &[u8] = b"id name vengine\nid author vengine\n";

/// What `isready` answers.
pub(crate) const READY: &[u8] = b"readyok\n";

/// Where a solve of `go mate` was cut.
pub(crate) const STOPPED: &[u8] = b"info string stopped\n";

/// Where no mate was announced.
pub(crate) const NO_STRATEGY: &[u8] = b"info string no strategy\n";

/// The line of a fault.
///
/// # Errors
///
/// `Memory`.
pub(crate) fn error_line(alloc: Global, fault: &[u8]) -> Result<Text, Memory>
    ensures { IfOk result (λ text. text ≡ UciTexts.error_line fault.now) }
{
    let mut items = b"info string error ".to_vec(alloc)?;
    items.extend_from_slice(fault)?;
    items.extend_from_slice(b"\n")?;
    Ok(Text { items })
}

// Appends the name of the variant at a place, where it is accepted.
fn push_choice(text: &mut Vec<u8>, variants: &Variants, place: usize) -> Result<(), AllocError>
    requires { place < length variants.now }
    ensures { OnOk result (text.new.items ≡ text.old.items ++ choice_at variants.now place) }
{
    let (name, entry) = variants.entry(place);
    if entry.is_err() {
        return Ok(());
    }
    text.extend_from_slice(b" var ")?;
    text.extend_from_slice(name)
}

// Appends the names of the variants that are accepted.
fn push_choices(text: &mut Vec<u8>, variants: &Variants) -> Result<(), AllocError>
    ensures { OnOk result (text.new.items
        ≡ text.old.items ++ flat_map variant_choice (filter is_accepted variants.now)) }
{
    for place in 0..variants.len() {
        push_choice(text, variants, place)?;
    }
    Ok(())
}

// Appends the line of an option, by its name and what is said of its values.
#[tactic(auto, unfolding(session_model::specs::UciTexts::option_line))]
fn push_option(text: &mut Vec<u8>, name: &[u8], values: &[u8]) -> Result<(), AllocError>
    ensures { OnOk result (text.new.items ≡ text.old.items ++ option_line name.now values.now) }
{
    text.extend_from_slice(b"option name ")?;
    text.extend_from_slice(name)?;
    text.extend_from_slice(values)
}

// Appends the line of an option whose values are numbers.
#[tactic(auto, unfolding(session_model::specs::UciTexts::number_line))]
fn push_number(
    alloc: Global,
    text: &mut Vec<u8>,
    name: &[u8],
    default: u32,
    least: u32,
    most: u32,
) -> Result<(), AllocError>
    ensures { OnOk result (text.new.items ≡ text.old.items ++ number_line name.now default least most) }
{
    let values = format!(in alloc; " type spin default {default} min {least} max {most}\n")?;
    push_option(text, name, values.as_bytes())
}

// Appends the line of `VariantPath`.
#[tactic(auto, unfolding(session_model::specs::UciTexts::path_line))]
fn push_path(alloc: Global, text: &mut Vec<u8>) -> Result<(), AllocError>
    ensures { OnOk result (text.new.items ≡ text.old.items ++ path_line) }
{
    let mut values = b" type string default ".to_vec(alloc)?;
    values.extend_from_slice(NO_FILE)?;
    values.extend_from_slice(b"\n")?;
    push_option(text, VARIANT_PATH, values.as_slice())
}

// Appends the options, the last of them up to its choices.
fn push_options(alloc: Global, text: &mut Vec<u8>) -> Result<(), AllocError>
    ensures { OnOk result (text.new.items ≡ text.old.items ++ options_text) }
{
    push_number(
        alloc,
        text,
        THREADS,
        DEFAULT_THREADS,
        LEAST_THREADS,
        MOST_THREADS,
    )?;
    push_number(alloc, text, HASH, DEFAULT_HASH, LEAST_HASH, MOST_HASH)?;
    push_number(
        alloc,
        text,
        MATE_FACTS,
        DEFAULT_MATE_FACTS,
        LEAST_MATE_FACTS,
        MOST_MATE_FACTS,
    )?;
    push_path(alloc, text)?;
    push_option(text, UCI_VARIANT, b" type combo default chess")
}

fn introduction() -> &'static [u8]
    ensures { result.now ≡ introduction }
{
    INTRODUCTION
}

/// What `uci` answers where these are the variants of the sections.
///
/// # Errors
///
/// `Memory`.
pub(crate) fn uci_text(alloc: Global, variants: &Variants) -> Result<Text, Memory>
    ensures { (sections : List Section) → variants.now ≡ entries sections
        → IfOk result (λ text. text ≡ UciTexts.uci_text sections) }
{
    let mut items = introduction().to_vec(alloc)?;
    push_options(alloc, &mut items)?;
    push_choices(&mut items, variants)?;
    items.extend_from_slice(b"\nuciok\n")?;
    Ok(Text { items })
}

/// What `go perft` answers, for 1 to 9 plies.
///
/// # Errors
///
/// `Memory`.
#[tactic(auto, unfolding(session_model::specs::UciTexts::perft_line))]
pub(crate) fn perft_line(alloc: Global, plies: u8, game: &Game) -> Result<Text, Memory>
    requires least { 1 ≤ plies }
    requires most { plies ≤ 9 }
    ensures { IfOk result (λ text. text ≡ UciTexts.perft_line plies game.now) }
{
    let count = perft_of(alloc, plies, game)?;
    let mut items = format!(in alloc; "info string perft {plies} ")?.into_bytes();
    items.extend_from_slice(count.items.as_slice())?;
    Ok(Text { items })
}

/// That the mover mates within this number of moves, from 1 to 100, with this move first.
///
/// # Errors
///
/// `Memory`.
pub(crate) fn mate_line(alloc: Global, moves: u16, best: &Move) -> Result<Text, Memory>
    requires some { 1 ≤ moves }
    requires few { moves ≤ MOST_MATE }
    ensures { (s : Strategy) → IfOk result
        (λ text. text ≡ UciTexts.depth_line (2 * moves - 1) (Mates moves s) best.now) }
{
    let depth = 2 * moves - 1;
    let mut items = format!(in alloc; "info depth {depth} score mate {moves} pv ")?.into_bytes();
    items.extend_from_slice(write_move(best).items.as_slice())?;
    items.extend_from_slice(b"\n")?;
    Ok(Text { items })
}

/// That the mover has no mate within this number of moves.
///
/// # Errors
///
/// `Memory`.
pub(crate) fn no_mate_line(alloc: Global, moves: u16) -> Result<Text, Memory>
    ensures { IfOk result (λ text. text ≡ UciTexts.no_mate_line moves) }
{
    let items = format!(in alloc; "info string no mate in {moves}\n")?.into_bytes();
    Ok(Text { items })
}

/// The line of the best move, or that there is none.
///
/// # Errors
///
/// `Memory`.
pub(crate) fn last_line(alloc: Global, best: Option<Move>) -> Result<Text, Memory>
    ensures { IfOk result (λ text. text ≡ last_line best) }
{
    let Some(best) = best else {
        let items = b"bestmove (none)\n".to_vec(alloc)?;
        return Ok(Text { items });
    };
    let written = write_move(&best);
    let mut items = b"bestmove ".to_vec(alloc)?;
    items.extend_from_slice(written.items.as_slice())?;
    items.extend_from_slice(b"\n")?;
    Ok(Text { items })
}
