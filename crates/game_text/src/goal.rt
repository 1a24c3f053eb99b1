//! The goal of a problem.
ghost use Rattle.std.specs.Prelude.{◌≡◌, ◌≤◌, ℕ, List, Option, IfSome};
ghost use Rattle.std.specs.Option.{option_copied};
ghost use Rattle.foundation.specs.Numbers as Numbers;
ghost use Rattle.game_text.specs.Goal as Said;

use foundation::number_within;
use rules_model::Side;

/// The most moves of a goal.
const MOST_MOVES: u16 = 100;

/// The most moves of a stipulation.
const MOST_STIPULATED: u16 = 6;

/// What line 4 of a problem may say.
pub trait ReadGoal: Sized {
    ghost said: { List ℕ → Option Self };

    /// What a text says, where it has the form.
    fn read_goal(text: &[u8]) -> Option<Self>
        ensures { result ≡ said text.now };
}

/// Which side is to win, and within how many of its own moves.
#[derive(Clone, Copy, PartialEq, Eq)]
pub struct Goal {
    pub attacker: Side,
    /// From 1 to 100.
    pub moves: u16,
}

/// A selfmate or a helpmate, for the side that is to move.
#[derive(Clone, Copy, PartialEq, Eq)]
pub struct Stipulation {
    /// Both sides play for it, as in a helpmate.
    pub help: bool,
    /// Within how many moves of the side, and in a helpmate of each side: from 1 to 6.
    pub moves: u16,
}

// What stands after these words, where the text begins with them.
fn after_words<'a>(words: &[u8], text: &'a [u8]) -> Option<&'a [u8]>
    ensures { option_copied result ≡ Said.after_words words.now text.now }
{
    text.strip_prefix(words)
}

// The goal of the side within the number of moves that a text writes.
fn within(side: Side, number: &[u8]) -> Option<Goal>
    ensures { result ≡ Said.within side (Numbers.number_of number.now) }
{
    let moves = number_within(1, MOST_MOVES, number)?;
    Some(Goal {
        attacker: side,
        moves,
    })
}

/// Reads a goal after these words for White, and else after those for Black: a number from 1 to 100 without a leading
/// zero.
pub fn read_goal_after(white: &[u8], black: &[u8], text: &[u8]) -> Option<Goal>
    ensures { result ≡ Said.goal_by (Said.after_words white.now text.now) (Said.after_words black.now text.now) }
{
    if let Some(number) = after_words(white, text) {
        return within(Side::White, number);
    }
    let number = after_words(black, text)?;
    within(Side::Black, number)
}

impl ReadGoal for Goal {
    ghost said = { Said.goal_said };

    /// `mate white N` or `mate black N`, N from 1 to 100 without a leading zero.
    #[tactic(auto, unfolding(crate::specs::Goal::goal_said))]
    fn read_goal(text: &[u8]) -> Option<Goal> {
        read_goal_after(b"mate white ", b"mate black ", text)
    }
}

// The stipulation within the number of moves that a text writes.
fn stipulated(help: bool, number: &[u8]) -> Option<Stipulation>
    ensures { result ≡ Said.stipulated help (Numbers.number_of number.now) }
{
    let moves = number_within(1, MOST_STIPULATED, number)?;
    Some(Stipulation { help, moves })
}

impl ReadGoal for Stipulation {
    ghost said = { Said.stipulation_said };

    /// `self N` or `help N`, N from 1 to 6 without a leading zero.
    #[tactic(auto, unfolding(crate::specs::Goal::stipulation_said))]
    fn read_goal(text: &[u8]) -> Option<Stipulation> {
        if let Some(number) = after_words(b"self ", text) {
            return stipulated(false, number);
        }
        let number = after_words(b"help ", text)?;
        stipulated(true, number)
    }
}
