//! The faults of a game text.
ghost use Rattle.std.specs.Prelude.{◌≡◌, ◌++◌, IfOk};
ghost use Rattle.game_text.specs.Fault.{fault_text};

use crate::unmade::Unmade;
use foundation::{Memory as NoMemory, Text};
use std::alloc::{AllocError, Global};
use variant_fen::FenFault;
use variant_model::SectionFault;

/// The first fault of a game text. Lines and moves are counted from 1.
#[derive(Drop)]
pub enum GameFault {
    /// 1: the text ends before this line.
    Missing(u64),
    /// 2: no variant has this name, which is line 1.
    UnknownVariant(Text),
    /// 3: the variant that line 1 names is refused.
    RefusedVariant(SectionFault),
    /// 4: line 2 says no position of the variant.
    BadPosition(FenFault),
    /// 5: the text of this move is not that of a legal move.
    BadMove { number: u64, text: Text },
    /// 6: a legal move stands after 8,192 plies.
    TooManyMoves,
    /// 7: the line has not the form of a goal.
    BadGoal(u64),
    /// 8: the line has more than 131,072 bytes.
    LineTooLong(u64),
}

/// Why no game was read.
pub type NoGame = Unmade<GameFault>;

// The text with bytes after it that may be any.
fn followed(mut text: Vec<u8>, bytes: &[u8]) -> Result<Vec<u8>, AllocError>
    ensures { IfOk result (λ whole. whole.items ≡ text.items ++ bytes.now) }
{
    text.extend_from_slice(bytes)?;
    Ok(text)
}

// As the fault prints, as bytes.
fn fault_bytes(alloc: Global, fault: &GameFault) -> Result<Vec<u8>, AllocError>
    ensures { IfOk result (λ bytes. bytes.items ≡ fault_text fault.now) }
{
    match fault {
        GameFault::Missing(line) => {
            Ok(format!(in alloc; "GameFault 1 Missing {line}")?.into_bytes())
        }
        GameFault::UnknownVariant(name) => {
            let front = b"GameFault 2 UnknownVariant ".to_vec(alloc)?;
            followed(front, name.items.as_slice())
        }
        GameFault::RefusedVariant(why) => {
            Ok(format!(in alloc; "GameFault 3 RefusedVariant {why}")?.into_bytes())
        }
        GameFault::BadPosition(why) => {
            Ok(format!(in alloc; "GameFault 4 BadPosition {why}")?.into_bytes())
        }
        GameFault::BadMove { number, text } => {
            let front = format!(in alloc; "GameFault 5 BadMove {number} ")?;
            followed(front.into_bytes(), text.items.as_slice())
        }
        GameFault::TooManyMoves => b"GameFault 6 TooManyMoves".to_vec(alloc),
        GameFault::BadGoal(line) => {
            Ok(format!(in alloc; "GameFault 7 BadGoal {line}")?.into_bytes())
        }
        GameFault::LineTooLong(line) => {
            Ok(format!(in alloc; "GameFault 8 LineTooLong {line}")?.into_bytes())
        }
    }
}

/// As the fault prints: the type's name, the fault's number, its name and its fields, as `GameFault 5 BadMove 2 e7e4`.
/// Names and texts are printed as they were read, also where they are not UTF-8.
pub fn write_fault(alloc: Global, fault: &GameFault) -> Result<Text, NoMemory>
    ensures { IfOk result (λ text. text ≡ fault_text fault.now) }
{
    let items = fault_bytes(alloc, fault)?;
    Ok(Text { items })
}
