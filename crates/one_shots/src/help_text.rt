//! The texts of `help` and `--version`.
ghost use Rattle.std.specs.Prelude.{◌≡◌, IfOk};
ghost use Rattle.one_shots.specs.HelpText.{help_text, version_text};

use foundation::Text;
use std::alloc::{AllocError, Global};
use words::help::HELP;
use words::version::VERSION;

/// The commands and the options.
#[tactic(auto, unfolding(crate::specs::HelpText::help_text))]
pub(crate) fn help_of(alloc: Global) -> Result<Text, AllocError>
    ensures { IfOk result (λ text. text ≡ help_text) }
{
    let items = HELP.as_bytes().to_vec(alloc)?;
    Ok(Text { items })
}

/// The name of the program and its version.
#[tactic(auto, unfolding(crate::specs::HelpText::version_text))]
pub(crate) fn version_of(alloc: Global) -> Result<Text, AllocError>
    ensures { IfOk result (λ text. text ≡ version_text) }
{
    let mut items = Vec::new(alloc);
    items.extend_from_slice(b"vengine ")?;
    items.extend_from_slice(VERSION.as_bytes())?;
    items.extend_from_slice(b"\n")?;
    Ok(Text { items })
}
