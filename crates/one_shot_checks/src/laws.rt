//! What follows of an answer of `check`, of `stipulate` and of `stipulate check`, as laws.
ghost use Rattle.std.specs.Prelude.{ℕ, List};
ghost use Rattle.game_play.specs.Played.{Played};
ghost use Rattle.io_ports.specs.Lines.{Line};
ghost use Rattle.variant_rules.specs.Entries.{Named};
ghost use Rattle.one_shot_checks.specs.Certificates.{IsMet, PrintsHelp, PrintsSelf, SaysCertCheck};
ghost use Rattle.one_shot_checks.specs.Checking.{IsWon, SaysCheck};
ghost use Rattle.one_shot_checks.specs.GameTexts.{help_mate_of, self_mate_of};

use forced_wins::by_rules::good_strategies_win;
use strategy::{Edge, Node};

/// `check` answers `wins` only where the side of the goal wins the game of the input within the moves of the goal,
/// against every legal defence.
pub fn checked_games_are_won()
    ensures { (variants : List Named) (input : List Line) (text : List ℕ)
        → SaysCheck variants input 0 text → IsWon variants input }
{
    good_strategies_win::<Node, Edge>();
}

/// What `stipulate self N` and `stipulate help N` print of a game is the text of a certificate that holds within that
/// many moves, or `none` exactly where there is no such selfmate or helpmate.
pub fn printed_certificates_hold()
    ensures selfmates { (g : Played) (n : ℕ) → PrintsSelf g n (self_mate_of n g) }
    ensures helpmates { (g : Played) (n : ℕ) → PrintsHelp g n (help_mate_of n g) }
{}

/// `stipulate check` answers `holds` only where the certificate of the input holds, and then the stipulation can be met
/// in the game of the input, whatever its history.
pub fn checked_certificates_hold()
    ensures { (variants : List Named) (input : List Line) (text : List ℕ)
        → SaysCertCheck variants input 0 text → IsMet variants input }
{}
