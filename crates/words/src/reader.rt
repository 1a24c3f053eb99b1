//! The reader that `clap` is given.
ghost use Rattle.std.specs.Prelude.{◌≡◌, IfOk};
ghost use Rattle.clap.specs.Words.{app_of};
ghost use Rattle.words.specs.Reader.{reader};

use clap::{Arg, ArgAction, Command as Reader};
use std::alloc::{AllocError, Global};

/// Two options, and then all other words as they are.
pub(crate) fn reader<'a>(alloc: Global) -> Result<Reader<'a>, AllocError>
    ensures { IfOk result (λ made. app_of made ≡ reader) }
{
    let variants = Arg::new(alloc, "variants")
        .long("variants")
        .action(ArgAction::Set);
    let threads = Arg::new(alloc, "threads")
        .long("threads")
        .action(ArgAction::Set);
    let words = Arg::new(alloc, "words")
        .action(ArgAction::Append)
        .num_args(1..)
        .trailing_var_arg(true);
    Reader::new(alloc, "vengine")
        .no_binary_name(true)
        .disable_help_flag(true)
        .arg(variants)?
        .arg(threads)?
        .arg(words)
}
