//! The referee for C: commands over bytes that the caller lends, and games that it holds.
#![tactic(auto)]

ghost use Rattle.referee.specs.Refereed.{words_of};
ghost use Rattle.referee_c.specs.Written.{Answers, HasNoText, Tells, file_of};
ghost use Rattle.words.specs.declared.version.TheConstants.{VERSION};

mod games;
mod held;
mod parts;

use referee::{Reply as Refereed, reply_to};
use std::alloc::Global;
use words::version::VERSION;

/// The status where all was done that was asked.
const DONE: u32 = 0;

/// The status where a referee does not answer the command.
const NOT_REFEREED: u32 = 1;

/// The status where there was no memory.
const NO_MEMORY: u32 = 7;

/// What a call answers.
#[repr(C)]
#[derive(Clone, Copy)]
pub struct Reply {
    /// How many bytes the text has. It was written only where there was room for all of it.
    pub length: usize,
    /// The status of the program; or 1, where a referee does not answer the command, and 7, where there was no memory:
    /// then there is no text.
    pub status: u32,
}

// A text, where there is room for it.
fn write(status: u8, text: &[u8], room: &mut [u8]) -> Reply
    ensures { Tells status text.now room.old room.new result }
{
    if text.len() <= room.len() {
        room[..text.len()].copy_from_slice(text);
    }
    Reply {
        length: text.len(),
        status: status as u32,
    }
}

// No text.
fn no_text(status: u32) -> Reply
    ensures { HasNoText status result }
{
    Reply { length: 0, status }
}

/// What the program answers that is run with these words, where the file that they name has these bytes, or is missing,
/// and the input has those. Each line of `words` is a word. The text is written to the front of `room`, if all of it
/// has room there; if not, nothing is written.
#[unsafe(no_mangle)]
pub extern "C" fn vengine_answer(
    alloc: Global,
    words: &[u8],
    has_file: bool,
    file: &[u8],
    input: &[u8],
    room: &mut [u8],
) -> Reply
    ensures { Answers (words_of words.now) (file_of has_file file.now) input.now room.old room.new result }
{
    let file = if has_file { Some(file) } else { None };
    match reply_to(alloc, words, file, input) {
        Ok(Refereed::Said(answer)) => write(answer.status, answer.text.items.as_slice(), room),
        Ok(Refereed::NotRefereed) => no_text(NOT_REFEREED),
        Err(_) => no_text(NO_MEMORY),
    }
}

/// The version of the library, as `1.0.0`. It is written to the front of `room`, if all of it has room there.
#[unsafe(no_mangle)]
pub extern "C" fn vengine_version(room: &mut [u8]) -> Reply
    ensures { Tells 0 VERSION.now room.old room.new result }
{
    write(0, VERSION.as_bytes(), room)
}
