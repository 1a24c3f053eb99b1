//! What `moves` prints.
ghost use Rattle.std.specs.Prelude.{◌≡◌, ◌++◌, IfOk, OnOk};
ghost use Rattle.std.specs.List.{flat_map};
ghost use Rattle.game_text.specs.MovesText.{move_line, moves_text};

use foundation::Text;
use move_text::write_move;
use rules_model::Move;
use std::alloc::{AllocError, Global};

fn push_move(text: &mut Vec<u8>, m: &Move) -> Result<(), AllocError>
    ensures { OnOk result (text.new.items ≡ text.old.items ++ move_line m.now) }
{
    let written = write_move(m);
    text.extend_from_slice(written.items.as_slice())?;
    text.push(b'\n')?;
    Ok(())
}

fn push_moves(text: &mut Vec<u8>, moves: &[Move]) -> Result<(), AllocError>
    ensures { OnOk result (text.new.items ≡ text.old.items ++ flat_map move_line moves.now) }
{
    for m in moves {
        push_move(text, m)?;
    }
    Ok(())
}

/// A line for each move, and then their number.
#[tactic(auto, unfolding(crate::specs::MovesText::moves_text))]
pub fn text_of_moves(alloc: Global, moves: &[Move]) -> Result<Text, AllocError>
    ensures { IfOk result (λ text. text ≡ moves_text moves.now) }
{
    let count = format!(in alloc; "{}", moves.len())?;
    let mut text = Vec::new(alloc);
    push_moves(&mut text, moves)?;
    text.extend_from_slice(b"moves ")?;
    text.extend_from_slice(count.as_bytes())?;
    text.extend_from_slice(b"\n")?;
    Ok(Text { items: text })
}
