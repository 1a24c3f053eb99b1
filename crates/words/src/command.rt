//! The commands, by their names and arguments.
ghost use Rattle.std.specs.Prelude.{◌≡◌, ◌-◌, ◌^◌, IfSome, map, option_map, string_bytes};
ghost use Rattle.words.specs.Command.{Reach, check_of, command_in, command_named, help_mate_of, mate_in, perft_in};
ghost use Rattle.words.specs.Command.{perft_of, reach_in, self_mate_of, stipulate_in, without_arguments};
ghost use Rattle.words.specs.Command.{RulesOf, generate_by, generate_in, keys_in, keys_of, pn_mate_in, pn_mate_of};
ghost use Rattle.words.specs.Command.{flag_in, flag_of, rules_in};
ghost use Rattle.words.specs.Number.{number_in as NumberIn};
ghost use Rattle.words.specs.View.{HasPlies, command_seen, texts};

use crate::number::number_in;

/// The list of no square.
const NO_SQUARES: &str = "none";

/// The most plies that `perft` counts.
const MOST_PLIES: u64 = 9;

/// The most plies of a random game.
const MOST_GAME_PLIES: u64 = 8192;

/// The most moves of a selfmate, and of each side in a helpmate.
const MOST_MATE_MOVES: u64 = 6;

/// The most moves that `pnmate` looks for.
const MOST_PN_MOVES: u64 = 100;

/// The most moves that `keys` looks for.
const MOST_KEY_MOVES: u64 = 20;

/// A command with its arguments.
///
/// A command that is added is a variant here and of `Command` in `specs/Command.antt`, a line of `command_seen` in
/// `specs/View.antt` and of `command_named` here and there, and a function of its arguments, here and there.
#[derive(Clone, Copy, PartialEq, Eq)]
pub enum Command<'a> {
    /// `uci`, and no words: a session of the Universal Chess Interface.
    Uci,
    /// `xboard`: a session of the Chess Engine Communication Protocol.
    Xboard,
    /// `moves`: the legal moves of the last position of the game text that is the input.
    Moves,
    /// `status`: how the game of that text stands, and its last position.
    Status,
    /// `checkers`: the squares of the pieces that attack the king of the side that is to move in that position.
    Checkers,
    /// `perft N`: how many lists of this many legal moves in turn, from 1 to 9, there are from that position.
    Perft(u8),
    /// `check`: whether the strategy of the input wins the game of the input, by the goal that stands between them.
    Check,
    /// `stipulate self N`: a selfmate in the game of the game text that is the input, within this number of moves, from
    /// 1 to 6.
    SelfMate(u16),
    /// `stipulate help N`: a helpmate in it, within this number of moves of each side, from 1 to 6.
    HelpMate(u16),
    /// `stipulate check`: whether the certificate of the input holds in the game of the input, by the goal that stands
    /// between them.
    CheckCert,
    /// `variants`: the variants that there are, each with its fault where it has one.
    Variants,
    /// `suite`: which of the mate problems of the input are solved, and within how many moves.
    Suite,
    /// `pnmate N`: within how many moves, up to this number, from 1 to 100, the side that is to move wins the game of
    /// the game text that is the input.
    PnMate(u16),
    /// `keys N`: the first moves with which the side that is to move wins the game of the game text that is the input,
    /// each within how many moves, up to this number, from 1 to 20.
    Keys(u16),
    /// `reach WORD SQUARE [OWN [ENEMY]]`: where a piece of this Betza word goes from this square. The lists of squares
    /// of own and of enemy pieces are `none` where they are left out.
    Reach {
        word: &'a str,
        square: &'a str,
        own: &'a str,
        enemy: &'a str,
    },
    /// `generate NAME START N`: a game of random legal moves in this variant, which goes from this number and has at
    /// most this many plies, up to 8,192.
    Generate {
        name: &'a str,
        number: u64,
        plies: u16,
    },
    /// `rules NAME`: the options and the pieces of the variant of this name, those that it inherits too.
    RulesOf(&'a str),
    /// `help`, and `--help` alone: the commands and the options.
    Help,
    /// `--version` alone: the name of the program and its version.
    Version,
}

// A command that takes no arguments.
fn without_arguments<'a>(command: Command<'a>, arguments: &[&'a str]) -> Option<Command<'a>>
    requires { HasPlies command }
    ensures is { option_map command_seen result ≡ without_arguments (command_seen command.entry) (texts arguments.now) }
    ensures plies { IfSome result HasPlies }
{
    match arguments {
        [] => Some(command),
        _ => None,
    }
}

fn perft_of<'a>(plies: &str) -> Option<Command<'a>>
    ensures is { option_map command_seen result ≡ perft_of plies.now }
    ensures plies { IfSome result HasPlies }
{
    let plies = number_in(1, MOST_PLIES, plies)?;
    Some(Command::Perft(plies as u8))
}

fn perft_in<'a>(arguments: &[&'a str]) -> Option<Command<'a>>
    ensures is { option_map command_seen result ≡ perft_in (texts arguments.now) }
    ensures plies { IfSome result HasPlies }
{
    match arguments {
        [plies] => perft_of(plies),
        _ => None,
    }
}

fn self_mate_of<'a>(moves: &str) -> Option<Command<'a>>
    ensures is { option_map command_seen result ≡ self_mate_of moves.now }
    ensures plies { IfSome result HasPlies }
{
    let moves = number_in(1, MOST_MATE_MOVES, moves)?;
    Some(Command::SelfMate(moves as u16))
}

fn help_mate_of<'a>(moves: &str) -> Option<Command<'a>>
    ensures is { option_map command_seen result ≡ help_mate_of moves.now }
    ensures plies { IfSome result HasPlies }
{
    let moves = number_in(1, MOST_MATE_MOVES, moves)?;
    Some(Command::HelpMate(moves as u16))
}

// A selfmate or a helpmate.
fn mate_in<'a>(stipulation: &str, moves: &str) -> Option<Command<'a>>
    ensures is { option_map command_seen result ≡ mate_in stipulation.now moves.now }
    ensures plies { IfSome result HasPlies }
{
    match stipulation {
        "self" => self_mate_of(moves),
        "help" => help_mate_of(moves),
        _ => None,
    }
}

fn check_of<'a>(word: &str) -> Option<Command<'a>>
    ensures is { option_map command_seen result ≡ check_of word.now }
    ensures plies { IfSome result HasPlies }
{
    match word {
        "check" => Some(Command::CheckCert),
        _ => None,
    }
}

fn stipulate_in<'a>(arguments: &[&'a str]) -> Option<Command<'a>>
    ensures is { option_map command_seen result ≡ stipulate_in (texts arguments.now) }
    ensures plies { IfSome result HasPlies }
{
    match arguments {
        [word] => check_of(word),
        [stipulation, moves] => mate_in(stipulation, moves),
        _ => None,
    }
}

fn pn_mate_of<'a>(moves: &str) -> Option<Command<'a>>
    ensures is { option_map command_seen result ≡ pn_mate_of moves.now }
    ensures plies { IfSome result HasPlies }
{
    let moves = number_in(1, MOST_PN_MOVES, moves)?;
    Some(Command::PnMate(moves as u16))
}

fn pn_mate_in<'a>(arguments: &[&'a str]) -> Option<Command<'a>>
    ensures is { option_map command_seen result ≡ pn_mate_in (texts arguments.now) }
    ensures plies { IfSome result HasPlies }
{
    match arguments {
        [moves] => pn_mate_of(moves),
        _ => None,
    }
}

fn keys_of<'a>(moves: &str) -> Option<Command<'a>>
    ensures is { option_map command_seen result ≡ keys_of moves.now }
    ensures plies { IfSome result HasPlies }
{
    let moves = number_in(1, MOST_KEY_MOVES, moves)?;
    Some(Command::Keys(moves as u16))
}

fn keys_in<'a>(arguments: &[&'a str]) -> Option<Command<'a>>
    ensures is { option_map command_seen result ≡ keys_in (texts arguments.now) }
    ensures plies { IfSome result HasPlies }
{
    match arguments {
        [moves] => keys_of(moves),
        _ => None,
    }
}

fn reach<'a>(word: &'a str, square: &'a str, own: &'a str, enemy: &'a str) -> Command<'a>
    ensures is { command_seen result ≡ Reach word.now square.now own.now enemy.now }
    ensures plies { HasPlies result }
{
    Command::Reach {
        word,
        square,
        own,
        enemy,
    }
}

fn reach_in<'a>(arguments: &[&'a str]) -> Option<Command<'a>>
    ensures is { option_map command_seen result ≡ reach_in (texts arguments.now) }
    ensures plies { IfSome result HasPlies }
{
    match arguments {
        [word, square] => Some(reach(word, square, NO_SQUARES, NO_SQUARES)),
        [word, square, own] => Some(reach(word, square, own, NO_SQUARES)),
        [word, square, own, enemy] => Some(reach(word, square, own, enemy)),
        _ => None,
    }
}

// A number below 2^64, and up to 8,192 plies.
fn generate<'a>(name: &'a str, number: &str, plies: &str) -> Option<Command<'a>>
    ensures is { option_map command_seen result
        ≡ generate_by name.now (NumberIn 0 (2 ^ 64 - 1) number.now) (NumberIn 0 8192 plies.now) }
    ensures plies { IfSome result HasPlies }
{
    let number = number_in(0, u64::MAX, number)?;
    let plies = number_in(0, MOST_GAME_PLIES, plies)?;
    Some(Command::Generate {
        name,
        number,
        plies: plies as u16,
    })
}

fn generate_in<'a>(arguments: &[&'a str]) -> Option<Command<'a>>
    ensures is { option_map command_seen result ≡ generate_in (texts arguments.now) }
    ensures plies { IfSome result HasPlies }
{
    match arguments {
        [name, number, plies] => generate(name, number, plies),
        _ => None,
    }
}

fn rules_of<'a>(name: &'a str) -> Command<'a>
    ensures is { command_seen result ≡ RulesOf name.now }
    ensures plies { HasPlies result }
{
    Command::RulesOf(name)
}

fn rules_in<'a>(arguments: &[&'a str]) -> Option<Command<'a>>
    ensures is { option_map command_seen result ≡ rules_in (texts arguments.now) }
    ensures plies { IfSome result HasPlies }
{
    match arguments {
        [name] => Some(rules_of(name)),
        _ => None,
    }
}

fn command_named<'a>(name: &str, arguments: &[&'a str]) -> Option<Command<'a>>
    ensures is { option_map command_seen result ≡ command_named name.now (texts arguments.now) }
    ensures plies { IfSome result HasPlies }
{
    match name {
        "uci" => without_arguments(Command::Uci, arguments),
        "xboard" => without_arguments(Command::Xboard, arguments),
        "moves" => without_arguments(Command::Moves, arguments),
        "status" => without_arguments(Command::Status, arguments),
        "checkers" => without_arguments(Command::Checkers, arguments),
        "perft" => perft_in(arguments),
        "check" => without_arguments(Command::Check, arguments),
        "stipulate" => stipulate_in(arguments),
        "variants" => without_arguments(Command::Variants, arguments),
        "reach" => reach_in(arguments),
        "generate" => generate_in(arguments),
        "suite" => without_arguments(Command::Suite, arguments),
        "pnmate" => pn_mate_in(arguments),
        "rules" => rules_in(arguments),
        "keys" => keys_in(arguments),
        "help" => without_arguments(Command::Help, arguments),
        _ => None,
    }
}

/// The command that words without options are. That of no words is the session of `uci`.
pub(crate) fn command_in<'a>(words: &[&'a str]) -> Option<Command<'a>>
    ensures is { option_map command_seen result ≡ command_in (texts words.now) }
    ensures plies { IfSome result HasPlies }
{
    match words {
        [] => Some(Command::Uci),
        [name, arguments @ ..] => command_named(name, arguments),
    }
}

// The command of a word that begins with two dashes and is no option.
fn flag_of(word: &str) -> Option<Command<'static>>
    ensures is { option_map command_seen result ≡ flag_of word.now }
    ensures plies { IfSome result HasPlies }
{
    match word {
        "--help" => Some(Command::Help),
        "--version" => Some(Command::Version),
        _ => None,
    }
}

/// The command of such a word, where it is the only one.
pub(crate) fn flag_in(words: &[String]) -> Option<Command<'static>>
    ensures is { option_map command_seen result ≡ flag_in (map string_bytes words.now) }
    ensures plies { IfSome result HasPlies }
{
    match words {
        [word] => flag_of(word.as_str()),
        _ => None,
    }
}
