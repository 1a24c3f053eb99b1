//! What is told of the first moves that win.
ghost use Rattle.std.specs.Prelude.{◌≡◌, ◌++◌, IfOk, OnOk};
ghost use Rattle.std.specs.List.{flat_map};
ghost use Rattle.suite.specs.KeysText.{key_line, keys_text};

use crate::first_moves::{Key, Keys};
use foundation::{Memory, Text};
use move_text::write_move;
use std::alloc::{AllocError, Global};

fn push_line(alloc: Global, text: &mut Vec<u8>, key: &Key) -> Result<(), AllocError>
    ensures { OnOk result (text.new.items ≡ text.old.items ++ key_line key.now) }
{
    let written = write_move(&key.chosen);
    let within = format!(in alloc; " mate {}\n", key.moves)?;
    text.extend_from_slice(written.items.as_slice())?;
    text.extend_from_slice(within.as_bytes())
}

fn push_lines(alloc: Global, text: &mut Vec<u8>, keys: &[Key]) -> Result<(), AllocError>
    ensures { OnOk result (text.new.items ≡ text.old.items ++ flat_map key_line keys.now) }
{
    for key in keys {
        push_line(alloc, text, key)?;
    }
    Ok(())
}

/// A line `MOVE mate K` for each first move that wins, and then how many there are.
///
/// # Errors
///
/// `Memory` where there is none.
#[tactic(auto, unfolding(crate::specs::KeysText::keys_text))]
pub fn write_keys(alloc: Global, keys: &Keys) -> Result<Text, Memory>
    ensures { IfOk result (λ text. text ≡ keys_text keys.now) }
{
    let count = keys.items.len();
    let sum = format!(in alloc; "keys {count}\n")?;
    let mut items = Vec::new(alloc);
    push_lines(alloc, &mut items, keys.items.as_slice())?;
    items.extend_from_slice(sum.as_bytes())?;
    Ok(Text { items })
}
