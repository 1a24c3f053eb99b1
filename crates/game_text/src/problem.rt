//! Reads a problem from a source.
ghost use Rattle.std.specs.Prelude.{◌-◌, ◌∷◌, length, take};
ghost use Rattle.io_ports.specs.Cause.{HasCause};
ghost use Rattle.io_ports.specs.Lines.{Text};
ghost use Rattle.game_text.specs.HeardLines.{HeardLines};
ghost use Rattle.game_text.specs.Problem as Said;
ghost use Rattle.game_text.specs.ReadView.{IsUnread, Says, Tells};

use crate::fault::{GameFault, NoGame};
use crate::goal::ReadGoal;
use crate::play::play_line;
use crate::read::{read_start, read_variant};
use game_play::Game;
use io_ports::{Got, LineBuf, Source};
use std::alloc::Global;
use variant_rules::Variants;

/// A game, and what a side is to reach from its last position.
#[derive(Drop)]
pub struct Problem<G> {
    pub game: Game,
    pub goal: G,
}

// Plays the moves of line 3.
fn read_line_of_moves<S: Source>(
    alloc: Global,
    game: &mut Game,
    source: &mut S,
    line: &mut LineBuf,
) -> Result<(), NoGame>
    ensures heard { HeardLines (S.left source.old) (S.left source.new) (λ lines. length (take 1 lines))
        (λ lines. Says (Said.moves_on game.old lines) game.new result) }
    ensures cause { HasCause (S.faults source.old) (S.faults source.new) (IsUnread result) }
{
    match source.next_line(line) {
        Got::Line => play_line(alloc, game, line.text()),
        Got::TooLong => Err(NoGame::Faulty(GameFault::LineTooLong(3))),
        Got::End => Err(NoGame::Faulty(GameFault::Missing(3))),
        Got::Failed => Err(NoGame::Unread),
    }
}

// Reads line 4.
fn read_line_of_goal<S: Source, G: ReadGoal>(
    source: &mut S,
    line: &mut LineBuf,
) -> Result<G, NoGame>
    ensures heard { HeardLines (S.left source.old) (S.left source.new) (λ lines. length (take 1 lines))
        (λ lines. Tells (Said.goal_on G.said lines) result) }
    ensures cause { HasCause (S.faults source.old) (S.faults source.new) (IsUnread result) }
{
    match source.next_line(line) {
        Got::Line => match G::read_goal(line.text()) {
            Some(goal) => Ok(goal),
            None => Err(NoGame::Faulty(GameFault::BadGoal(4))),
        },
        Got::TooLong => Err(NoGame::Faulty(GameFault::LineTooLong(4))),
        Got::End => Err(NoGame::Faulty(GameFault::Missing(4))),
        Got::Failed => Err(NoGame::Unread),
    }
}

// Reads on after line 2, after which the game stands so.
fn read_on<S: Source, G: ReadGoal + Drop>(
    alloc: Global,
    mut game: Game,
    source: &mut S,
    line: &mut LineBuf,
) -> Result<Problem<G>, NoGame>
    ensures heard { HeardLines (S.left source.old) (S.left source.new) (Said.lines_on_problem game)
        (λ lines. Tells (Said.problem_on G.said game lines) result) }
    ensures cause { HasCause (S.faults source.old) (S.faults source.new) (IsUnread result) }
{
    read_line_of_moves(alloc, &mut game, source, line)?;
    let goal = read_line_of_goal(source, line)?;
    Ok(Problem { game, goal })
}

/// Reads the rest of a problem of one of these variants whose line 1 is in the buffer: a game text whose moves stand on
/// line 3 alone, which may be empty, and on line 4 the goal. What comes after line 4 is left in the source.
///
/// # Errors
///
/// The first fault: that of the first faulty line, and on a line that of the first faulty word. No line after it is
/// taken. `Unread` where the source failed, and `Memory` where there was none; then nothing is known of the lines.
pub fn read_problem_after<S: Source, G: ReadGoal + Drop>(
    alloc: Global,
    variants: &Variants,
    source: &mut S,
    line: &mut LineBuf,
) -> Result<Problem<G>, NoGame>
    ensures heard { HeardLines (S.left source.old) (S.left source.new)
        (Said.lines_of_problem_after variants.now line.old)
        (λ lines. Tells (Said.problem_after G.said variants.now line.old lines) result) }
    ensures cause { HasCause (S.faults source.old) (S.faults source.new) (IsUnread result) }
{
    let game = read_variant(alloc, variants, source, line)?;
    read_on(alloc, game, source, line)
}

/// Reads a problem of one of these variants, as `read_problem_after` does, from its line 1 on.
///
/// # Errors
///
/// As `read_problem_after`.
pub fn read_problem<S: Source, G: ReadGoal + Drop>(
    alloc: Global,
    variants: &Variants,
    source: &mut S,
) -> Result<Problem<G>, NoGame>
    ensures heard { HeardLines (S.left source.old) (S.left source.new) (Said.lines_of_problem variants.now)
        (λ lines. Tells (Said.problem_of G.said variants.now lines) result) }
    ensures cause { HasCause (S.faults source.old) (S.faults source.new) (IsUnread result) }
{
    let mut line = LineBuf::new(alloc)?;
    let game = read_start(alloc, variants, source, &mut line)?;
    read_on(alloc, game, source, &mut line)
}
