//! What a search asks of a position.
ghost use Rattle.std.specs.Prelude.{◌≡◌, true};
ghost use Rattle.rules_model.specs.Sound.{is_sound};
ghost use Rattle.legality.specs.Stance.{legal_in};

use crate::legal::played;
use foundation::Memory;
use playing::Board;
use rules_model::{MoveList, Outcome};

/// What is asked of each position of a walk.
#[derive(Clone, Copy)]
pub(crate) enum Question {
    /// Nothing: what the walk itself costs.
    Nothing,
    /// The position after a move, and its key.
    After,
    /// The board made anew of its position, and its key: sets and key by a scan, and no move made.
    Anew,
    /// The key of a repetition.
    Key,
    /// What is known of the position.
    MoveGen,
    /// The legal moves, in no order.
    Legal,
    /// Those that capture.
    Captures,
    /// Those that do not capture.
    Others,
    /// Whether any move is legal.
    Any,
    /// The captures and whether any move is legal, by what is known once.
    Resting,
    /// The same two, each for itself.
    RestingApart,
    /// How many legal moves there are.
    Count,
    /// The end that the position has by itself.
    End,
}

/// All questions, with their names.
pub(crate) const ALL: [(&str, Question); 13] = [
    ("nothing", Question::Nothing),
    ("after", Question::After),
    ("anew", Question::Anew),
    ("key", Question::Key),
    ("known", Question::MoveGen),
    ("legal", Question::Legal),
    ("captures", Question::Captures),
    ("others", Question::Others),
    ("any", Question::Any),
    ("resting", Question::Resting),
    ("resting-apart", Question::RestingApart),
    ("count", Question::Count),
    ("end", Question::End),
];

/// The question of the name.
pub(crate) fn named(name: &str) -> Option<Question> {
    for (word, question) in ALL {
        if word == name {
            return Some(question);
        }
    }
    None
}

fn length_of(list: &MoveList) -> u64 {
    list.items.len() as u64
}

fn ended(outcome: Outcome) -> u64 {
    match outcome {
        Outcome::Ongoing => 0,
        Outcome::Won(_, _) => 1,
        Outcome::Drawn(_) => 2,
    }
}

/// Asks it of the board, whose legal moves these are, and answers a number, so that nothing is left out.
pub(crate) fn ask(
    board: &Board,
    moves: &MoveList,
    question: Question,
    listed: &mut MoveList,
) -> Result<u64, Memory>
    requires start { is_sound board.now.rules board.now.rules.start ≡ true }
    requires listed { moves.now ≡ legal_in board.now }
{
    listed.items.clear();
    match question {
        Question::Nothing => Ok(0),
        Question::After => Ok(played(board, moves, 0).key()),
        Question::Anew => {
            board.prove_ready();
            Ok(Board::new(board.tables(), board.position()).key())
        }
        Question::Key => Ok(board.key()),
        Question::MoveGen => Ok(ended(board.known().early_end())),
        Question::Legal => {
            board.push_legal(listed)?;
            Ok(length_of(listed))
        }
        Question::Captures => {
            board.push_captures(listed)?;
            Ok(length_of(listed))
        }
        Question::Others => {
            board.push_quiets(listed)?;
            Ok(length_of(listed))
        }
        Question::Any => Ok(u64::from(board.any_legal())),
        Question::Resting => {
            let known = board.known();
            known.push_captures(listed)?;
            Ok(length_of(listed).wrapping_add(u64::from(known.any_legal())))
        }
        Question::RestingApart => {
            board.push_captures(listed)?;
            Ok(length_of(listed).wrapping_add(u64::from(board.any_legal())))
        }
        Question::Count => Ok(u64::try_from(board.count_legal()).unwrap_or(u64::MAX)),
        Question::End => Ok(ended(board.own_end())),
    }
}
